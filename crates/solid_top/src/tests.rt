//! Whole runs on worked inputs: each status once for each command, and each allocating call with
//! ample memory.
use crate::replay_tests::{Record, file_of};
use crate::{Status, check_run, run};
use solid_base::{Bytes, Numbers};
use solid_io::{MemSink, MemSource, OpenGate};
use std::alloc::{AllocError, Global};
use std::process::Abort;
use std::sync::Wait;
use std::thread::Threads;

/// A sphere of radius 1 at the origin, as entity 1.
pub const SPHERE: [&str; 6] = [
    "One sphere of radius 1.                                                 S      1",
    ",,;                                                                     G      1",
    "     158       1                                       0        00000000D      1",
    "     158                       1       0                                D      2",
    "158,1.0,0.0,0.0,0.0;                                                   1P      1",
    "S      1G      1D      2P      1                                        T      1",
];

/// The same, with bars and hashes as delimiters, and a text of 80 characters over two lines.
const BARS: [&str; 7] = [
    "One sphere between bars.                                                S      1",
    "1H||1H#|80HxxxxxxxxxxxxxxxxxxxxxxxxxxxxxxxxxxxxxxxxxxxxxxxxxxxxxxxxxxxxxG      1",
    ",;xxxxxxxxxxxxxxxxx|#                                                   G      2",
    "     158       1                                       0        00000000D      1",
    "     158                       1       0                                D      2",
    "158|1.0|0.0|0.0|0.0#                                                   1P      1",
    "S      1G      2D      2P      1                                        T      1",
];

/// A sphere, a null entity, and two lines, with a scale, a unit and a version.
const MIXED: [&str; 14] = [
    "A sphere, nothing and two lines.                                        S      1",
    ",,3Hsol,,,,,,,,,,1.5,2,2HMM,,,,,,,,11;                                  G      1",
    "     158       1                                       0        00000000D      1",
    "     158                       1       0                                D      2",
    "       0                                                                D      3",
    "       0                                                                D      4",
    "     110       2                                       0        00000000D      5",
    "     110                       1       0                                D      6",
    "     110       3                                       0        00000000D      7",
    "     110                       1       0                                D      8",
    "158,1.0,0.0,0.0,0.0;                                                   1P      1",
    "110,0.,0.,0.,1.,0.,0.;                                                 5P      2",
    "110,0.,0.,0.,0.,1.,0.;                                                 7P      3",
    "S      1G      1D      8P      3                                        T      1",
];

/// The lines, each ended so.
pub fn ended(alloc: Global, lines: &[&str], end: &[u8]) -> Result<Bytes, AllocError> {
    let mut text = Bytes::new(alloc);
    for line in lines {
        text.extend_from_slice(line.as_bytes())?;
        text.extend_from_slice(end)?;
    }
    Ok(text)
}

/// The lines, each ended by LF.
fn text(alloc: Global, lines: &[&str]) -> Result<Bytes, AllocError> {
    ended(alloc, lines, b"\n")
}

/// The first bytes of a text.
fn front<'a>(rt: &impl Abort, bytes: &'a [u8], count: usize) -> &'a [u8] {
    assert!(rt; count <= bytes.len());
    &bytes[..count]
}

fn expect_check(
    rt: &impl Abort,
    alloc: Global,
    bytes: &[u8],
    status: Status,
    want: &str,
) -> Result<(), AllocError> {
    assert!(rt; bytes.len() < 10_000);
    let output = check_run(alloc, bytes)?;
    assert_eq!(rt; output.status, status, "{want}");
    assert_eq!(rt; output.text.as_slice(), want.as_bytes());
    Ok(())
}

#[test]
fn files_are_reported(rt: HostRuntime) -> Result<(), AllocError> {
    let alloc = rt.alloc();
    let none = "MODEL 1 READ 1 KEPT 0 NULL 0\nSCALE - UNITS - VERSION -\nROOT 1 1 1\nEND\n";
    let some = "MODEL 4 READ 1 KEPT 2 NULL 1\nSCALE 1.5 UNITS 2 VERSION 11\nROOT 1 1 1\nEND\n";
    let sphere = text(alloc, &SPHERE)?;
    let bars = ended(alloc, &BARS, b"\r\n")?;
    let mixed = text(alloc, &MIXED)?;
    expect_check(&rt, alloc, sphere.as_slice(), Status::Done, none)?;
    expect_check(&rt, alloc, bars.as_slice(), Status::Done, none)?;
    expect_check(&rt, alloc, mixed.as_slice(), Status::Done, some)?;
    let cut = front(&rt, bars.as_slice(), 200);
    let short = "MODEL REFUSED ShortLine 3\n";
    expect_check(&rt, alloc, cut, Status::Refused, short)
}

#[test]
fn roots_are_reported(rt: HostRuntime) -> Result<(), AllocError> {
    let alloc = rt.alloc();
    let (ball, along) = ("158,1.;", "124,1.,0.,0.,10.,0.,1.,0.,0.,0.,0.,1.,0.;");
    let cases: [(&[Record], &str, &str); 6] = [
        // A tree over two balls, and a ball alone.
        (
            &[
                (158, 0, ball),
                (158, 0, ball),
                (180, 0, "180,3,-1,-3,1;"),
                (158, 0, ball),
            ],
            "MODEL 4 READ 4 KEPT 0 NULL 0",
            "ROOT 5 2 2\nROOT 7 1 1\n",
        ),
        // A solid that is named twice weighs twice, and so does one that isn't read.
        (
            &[(184, 0, "184,2,3,3;"), (158, 0, ball)],
            "MODEL 2 READ 2 KEPT 0 NULL 0",
            "ROOT 1 2 2\n",
        ),
        (
            &[(110, 0, "110;"), (180, 0, "180,3,-1,-1,1;")],
            "MODEL 2 READ 1 KEPT 1 NULL 0",
            "ROOT 3 2 2\n",
        ),
        // A matrix is a level, but no solid, and neither is what isn't read.
        (
            &[
                (0, 0, "0;"),
                (110, 0, "110;"),
                (124, 0, along),
                (124, 5, along),
                (158, 7, ball),
            ],
            "MODEL 5 READ 3 KEPT 1 NULL 1",
            "ROOT 9 1 3\n",
        ),
        // An instance, which is named in its turn.
        (
            &[(430, 0, "430,3;"), (430, 0, "430,5;"), (158, 0, ball)],
            "MODEL 3 READ 3 KEPT 0 NULL 0",
            "ROOT 1 1 3\n",
        ),
        (
            &[(0, 0, "0;"), (124, 0, along)],
            "MODEL 2 READ 1 KEPT 0 NULL 1",
            "",
        ),
    ];
    for (records, rows, roots) in cases {
        let file = file_of(&rt, alloc, records)?;
        let want = format!(in alloc; "{rows}\nSCALE - UNITS - VERSION -\n{roots}END\n")?;
        expect_check(&rt, alloc, file.as_slice(), Status::Done, &want)?;
    }
    // References that lead nowhere are refused.
    let file = file_of(&rt, alloc, &[(158, 0, ball), (180, 0, "180,3,-1,-5,1;")])?;
    let refused = "MODEL REFUSED Dangling 3 5\n";
    expect_check(&rt, alloc, file.as_slice(), Status::Refused, refused)
}

#[test]
fn faults_are_reported(rt: HostRuntime) -> Result<(), AllocError> {
    let alloc = rt.alloc();
    let cases = [
        (0, "Two columns short.", "MODEL REFUSED ShortLine 1\n"),
        (
            3,
            "     158                       1       0                                D      3",
            "MODEL REFUSED BadSequence 4\n",
        ),
        (
            4,
            "158,4.9D-13;                                                           1P      1",
            "MODEL REFUSED BadRow 1 BadSize 1\n",
        ),
        (
            4,
            "158,0.0,0.0,0.0,0.0;                                                   1P      1",
            "MODEL REFUSED BadRow 1 BadSize 1\n",
        ),
        (
            5,
            "S      1G      1D      2P      2                                        T      1",
            "MODEL REFUSED CountMismatch P 2 1\n",
        ),
    ];
    for (place, line, want) in cases {
        let mut lines = SPHERE;
        lines[place] = line;
        let input = text(alloc, &lines)?;
        expect_check(&rt, alloc, input.as_slice(), Status::Refused, want)?;
    }
    Ok(())
}

/// So many blanks.
fn blanks(alloc: Global, count: usize) -> Result<Vec<u8>, AllocError> {
    Vec::from_elem(alloc, b' ', count)
}

/// The list of one number.
fn one(alloc: Global, number: u32) -> Result<Numbers, AllocError> {
    let mut numbers = Numbers::new(alloc);
    numbers.push(number)?;
    Ok(numbers)
}

/// A run over memory: its status, and what was written. One read and one write fail, and each write
/// past the room.
fn run_over<R: Threads + Wait + Sync>(
    rt: &R,
    alloc: Global,
    words: &[&str],
    input: &[u8],
    failing_read: u32,
    failing_write: u32,
    room: usize,
) -> Result<(Status, Bytes), AllocError> {
    let mut bytes = Bytes::new(alloc);
    bytes.extend_from_slice(input)?;
    let mut source = MemSource::new(bytes, one(alloc, failing_read)?);
    let mut sink = MemSink::new(alloc, room, one(alloc, failing_write)?)?;
    let status = run(rt, alloc, words, &mut source, &mut sink, &OpenGate);
    let mut written = Bytes::new(alloc);
    written.extend_from_slice(sink.held())?;
    Ok((status, written))
}

fn expect_run(rt: &impl Abort, ended: &(Status, Bytes), status: Status, written: &str) {
    assert_eq!(rt; ended.0, status, "{written}");
    assert_eq!(rt; ended.1.as_slice(), written.as_bytes());
}

/// A call that is never reached.
const NEVER: u32 = u32::MAX;

/// The commands, each with what it answers to a sphere with one point after it, and the first ten
/// bytes of that.
const COMMANDS: [(&str, &str, &str); 3] = [
    (
        "check",
        "MODEL 1 READ 1 KEPT 0 NULL 0\nSCALE - UNITS - VERSION -\nROOT 1 1 1\nEND\n",
        "MODEL 1 RE",
    ),
    ("replay", "LOG 0\n@1 1\n0 INSIDE\nEND\n", "LOG 0\n@1 1"),
    ("serve", "LOG 0\n@1 1\n0 INSIDE\nEND\n", "LOG 0\n@1 1"),
];

/// A sphere with a point after it.
fn sphere_and_point(alloc: Global) -> Result<Bytes, AllocError> {
    let mut input = text(alloc, &SPHERE)?;
    input.extend_from_slice(b"@1 point 1 0 0 0\n")?;
    Ok(input)
}

#[test]
fn inputs_have_their_status(rt: HostRuntime) -> Result<(), AllocError> {
    let alloc = rt.alloc();
    let sphere = sphere_and_point(alloc)?;
    let input = sphere.as_slice();
    let long = blanks(alloc, (1 << 25) + 1)?;
    let refused = "MODEL REFUSED NoTerminate\n";
    for (word, want, _) in COMMANDS {
        let ended = run_over(&rt, alloc, &[word], input, NEVER, NEVER, 100)?;
        expect_run(&rt, &ended, Status::Done, want);
        let ended = run_over(&rt, alloc, &[word], b"", NEVER, NEVER, 100)?;
        expect_run(&rt, &ended, Status::Refused, refused);
        let ended = run_over(&rt, alloc, &[word], &long, NEVER, NEVER, 100)?;
        expect_run(&rt, &ended, Status::TooLong, "TOO LONG\n");
    }
    Ok(())
}

#[test]
fn other_words_are_no_command(rt: HostRuntime) -> Result<(), AllocError> {
    let alloc = rt.alloc();
    let usage = "USAGE: solidd check, replay, serve or load N\n";
    for word in [
        "", "Check", "checks", "replay ", "Serve", "load", "help", "-", "--", "-h", "--help",
    ] {
        let ended = run_over(&rt, alloc, &[word], b"", 0, NEVER, 100)?;
        expect_run(&rt, &ended, Status::Usage, usage);
    }
    let ended = run_over(&rt, alloc, &[], b"", 0, NEVER, 100)?;
    expect_run(&rt, &ended, Status::Usage, usage);
    for words in [
        ["check", "replay"],
        ["check", "7"],
        ["load", "0"],
        ["load", "1001"],
        ["load", "00001"],
        ["load", "1 "],
        ["load", "+1"],
        ["load", ""],
        ["7", "load"],
        ["check", "--"],
        ["--", "check"],
    ] {
        let ended = run_over(&rt, alloc, &words, b"", 0, NEVER, 100)?;
        expect_run(&rt, &ended, Status::Usage, usage);
    }
    let ended = run_over(
        &rt,
        alloc,
        &["check", "replay", "check"],
        b"",
        0,
        NEVER,
        100,
    )?;
    expect_run(&rt, &ended, Status::Usage, usage);
    Ok(())
}

/// No call on the source is made: the first one would fail.
#[test]
fn generated_inputs_are_counted(rt: HostRuntime) -> Result<(), AllocError> {
    let alloc = rt.alloc();
    for (count, want) in [
        ("1", "LOAD 1 INSIDE 1 OUTSIDE 1 UNDECIDED 0 COMMITS 1\n"),
        ("007", "LOAD 7 INSIDE 7 OUTSIDE 1 UNDECIDED 0 COMMITS 1\n"),
        ("11", "LOAD 11 INSIDE 11 OUTSIDE 2 UNDECIDED 0 COMMITS 2\n"),
        (
            "100",
            "LOAD 100 INSIDE 100 OUTSIDE 10 UNDECIDED 0 COMMITS 10\n",
        ),
    ] {
        let ended = run_over(&rt, alloc, &["load", count], b"", 0, NEVER, 100)?;
        expect_run(&rt, &ended, Status::Done, want);
    }
    Ok(())
}

#[test]
fn failing_calls_have_their_status(rt: HostRuntime) -> Result<(), AllocError> {
    let alloc = rt.alloc();
    let sphere = sphere_and_point(alloc)?;
    let input = sphere.as_slice();
    for (word, _, front) in COMMANDS {
        for failing_read in [0, 1] {
            let ended = run_over(&rt, alloc, &[word], input, failing_read, NEVER, 100)?;
            expect_run(&rt, &ended, Status::ReadFault, "");
        }
        let ended = run_over(&rt, alloc, &[word], input, NEVER, NEVER, 10)?;
        expect_run(&rt, &ended, Status::WriteFault, front);
        let ended = run_over(&rt, alloc, &[word], input, NEVER, 0, 100)?;
        expect_run(&rt, &ended, Status::WriteFault, "");
    }
    Ok(())
}
