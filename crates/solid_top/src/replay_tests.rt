//! Replays of worked files: each question, points on each kind of row, each kind of refusal, and
//! the sessions of a script.
use crate::{Status, TopFault, replay_run};
use iges_file::FileFault;
use solid_base::{Bytes, Tally};
use std::alloc::{AllocError, Global};
use std::process::Abort;

/// An entity of a file: its type, the number of its matrix, and its record, which takes one line.
pub type Record = (u32, u32, &'static str);

/// Adds a line: a text in columns 1 to 72, the letter of its section, and its number there.
fn push_card(
    alloc: Global,
    file: &mut Bytes,
    text: &str,
    section: &str,
    number: usize,
) -> Result<(), AllocError> {
    let card = format!(in alloc; "{text:<72}{section}{number:>7}\n")?;
    file.extend_from_slice(card.as_bytes())
}

/// The file of these entities, of which that at place i, counted from 0, has the number 2i + 1.
pub fn file_of(rt: &impl Abort, alloc: Global, records: &[Record]) -> Result<Bytes, AllocError> {
    assert!(rt; records.len() <= 50);
    let mut file = Bytes::new(alloc);
    push_card(alloc, &mut file, "Some entities.", "S", 1)?;
    push_card(alloc, &mut file, ",,;", "G", 1)?;
    for place in 0..records.len() {
        let (kind, matrix, _) = records[place];
        let line = place + 1;
        let first = format!(in alloc; "{kind:>8}{line:>8}{matrix:>40}        00000000")?;
        let second = format!(in alloc; "{kind:>8}                       1       0")?;
        push_card(alloc, &mut file, first.as_str(), "D", 2 * place + 1)?;
        push_card(alloc, &mut file, second.as_str(), "D", 2 * place + 2)?;
    }
    for place in 0..records.len() {
        push_card(alloc, &mut file, records[place].2, "P", place + 1)?;
    }
    let (lines, count) = (2 * records.len(), records.len());
    let last = format!(in alloc; "S      1G      1D{lines:>7}P{count:>7}")?;
    push_card(alloc, &mut file, last.as_str(), "T", 1)?;
    Ok(file)
}

/// What is expected of an input: its status, its text, and how often primitives are evaluated.
pub fn expect_replay(
    rt: &impl Abort,
    alloc: Global,
    input: &[u8],
    status: Status,
    text: &str,
    count: u64,
) -> Result<(), AllocError> {
    assert!(rt; input.len() < 10_000);
    let mut tally = Tally { count: 0 };
    let output = replay_run(alloc, input, &mut tally)?;
    assert_eq!(rt; output.text.as_slice(), text.as_bytes(), "{text}");
    assert_eq!(rt; output.status, status, "{text}");
    assert_eq!(rt; tally.count, count, "{text}");
    Ok(())
}

/// The answer to one point, given by the number of its entity and its coordinates.
fn expect_answer(
    rt: &impl Abort,
    alloc: Global,
    file: &Bytes,
    point: &str,
    answer: &str,
    count: u64,
) -> Result<(), AllocError> {
    let mut input = Bytes::new(alloc);
    input.extend_from_slice(file.as_slice())?;
    for part in ["@1 point ", point, "\n"] {
        input.extend_from_slice(part.as_bytes())?;
    }
    let text = format!(in alloc; "LOG 0\n@1 1\n0 {answer}\nEND\n")?;
    expect_replay(rt, alloc, input.as_slice(), Status::Done, &text, count)
}

#[test]
fn points_on_primitives_are_answered(rt: HostRuntime) -> Result<(), AllocError> {
    let alloc = rt.alloc();
    let (inside, outside, open) = ("INSIDE", "OUTSIDE", "UNDECIDED 1");
    let cases = [
        // A block of 2 by 3 by 4.
        (
            150,
            "150,2.,3.,4.;",
            [
                ("1 1 1 1", inside),
                ("1 2 1 1", open),
                ("1 1 3.5 1", outside),
                ("1 1 1 -0.000000000001", outside),
            ],
        ),
        // A wedge whose side at x = 2 is slanted to x = 1 at y = 2.
        (
            152,
            "152,2.,2.,2.,1.;",
            [
                ("1 1 1 1", inside),
                ("1 1.5 1 1", open),
                ("1 1.500000000001 1 1", outside),
                ("1 1.9 0.1 1", inside),
            ],
        ),
        // A cylinder of height 2 and radius 1.
        (
            154,
            "154,2.,1.;",
            [
                ("1 0 0 1", inside),
                ("1 0 0 0", open),
                ("1 1 0 1", open),
                ("1 0 0 3", outside),
            ],
        ),
        // A cone of height 2 and radii 2 and 1.
        (
            156,
            "156,2.,2.,1.;",
            [
                ("1 0 0 1", inside),
                ("1 1.4 0 1", inside),
                ("1 0 0 2", open),
                ("1 1.6 0 1", outside),
            ],
        ),
        // A torus of radii 3 and 1.
        (
            160,
            "160,3.,1.;",
            [
                ("1 3 0 0", inside),
                ("1 0 -3 0.5", inside),
                ("1 0 0 0", outside),
                ("1 3 0 1.5", outside),
            ],
        ),
        // An ellipsoid of semi-axes 3, 2 and 1.
        (
            168,
            "168,3.,2.,1.;",
            [
                ("1 0 0 0", inside),
                ("1 2 1 0", inside),
                ("1 0 0 1.5", outside),
                ("1 2 1.5 0", outside),
            ],
        ),
    ];
    for (kind, record, points) in cases {
        let file = file_of(&rt, alloc, &[(kind, 0, record)])?;
        for (point, answer) in points {
            expect_answer(&rt, alloc, &file, point, answer, 1)?;
        }
    }
    Ok(())
}

#[test]
fn points_on_a_sphere_are_answered(rt: HostRuntime) -> Result<(), AllocError> {
    let alloc = rt.alloc();
    let cases = [
        ("", "LOG 0\nEND\n", 0),
        ("@1 point 1 0 0 0\n", "LOG 0\n@1 1\n0 INSIDE\nEND\n", 1),
        ("@1 point 1 1 0 0\n", "LOG 0\n@1 1\n0 UNDECIDED 1\nEND\n", 1),
        (
            "@1 point 1 1.000000000001 0 0\n",
            "LOG 0\n@1 1\n0 OUTSIDE\nEND\n",
            1,
        ),
        (
            "@1 point 1 0 -0.999999999999 0\n",
            "LOG 0\n@1 1\n0 INSIDE\nEND\n",
            1,
        ),
        (
            "@1 point 3 0 0 0\n",
            "LOG 0\n@1 1\n0 REFUSED NoEntity 3\nEND\n",
            0,
        ),
        (
            "@1 point 1 0 0 0\n@1 point 1 0 2 0\n",
            "LOG 0\n@1 2\n0 INSIDE\n0 OUTSIDE\nEND\n",
            2,
        ),
        (
            "@1 point 002 0 0 0\n",
            "LOG 0\n@1 1\n0 REFUSED NoEntity 2\nEND\n",
            0,
        ),
    ];
    for (lines, text, count) in cases {
        let mut input = file_of(&rt, alloc, &[(158, 0, "158,1.0,0.0,0.0,0.0;")])?;
        input.extend_from_slice(lines.as_bytes())?;
        expect_replay(&rt, alloc, input.as_slice(), Status::Done, text, count)?;
    }
    Ok(())
}

/// A matrix that moves by 10 along x.
const ALONG_X: &str = "124,1.,0.,0.,10.,0.,1.,0.,0.,0.,0.,1.,0.;";

/// A matrix that moves by 5 along z.
const ALONG_Z: &str = "124,1.,0.,0.,0.,0.,1.,0.,0.,0.,0.,1.,5.;";

/// A matrix that turns x to y, and y to -x.
const TURN: &str = "124,0.,-1.,0.,0.,1.,0.,0.,0.,0.,0.,1.,0.;";

/// An entity that isn't read.
const LINE: &str = "110,0.,0.,0.,1.,0.,0.;";

const BALL: &str = "158,1.;";

const BALL_AT_2: &str = "158,1.,2.,0.,0.;";

#[test]
fn points_on_trees_are_answered(rt: HostRuntime) -> Result<(), AllocError> {
    let alloc = rt.alloc();
    // Two blocks that share the face at x = 1, what they make together, the first without itself,
    // which evaluates it once, and what they share.
    let records = [
        (150, 0, "150,1.,1.,1.;"),
        (150, 0, "150,1.,1.,1.,1.,0.,0.;"),
        (180, 0, "180,3,-1,-3,1;"),
        (180, 0, "180,3,-1,-1,3;"),
        (180, 0, "180,3,-1,-3,2;"),
    ];
    let file = file_of(&rt, alloc, &records)?;
    let cases = [
        ("5 0.5 0.5 0.5", "INSIDE", 2),
        ("5 1.5 0.5 0.5", "INSIDE", 2),
        ("5 1 0.5 0.5", "UNDECIDED 1", 2),
        ("5 2 0.5 0.5", "UNDECIDED 3", 2),
        ("5 2.5 0.5 0.5", "OUTSIDE", 2),
        ("7 0.5 0.5 0.5", "OUTSIDE", 1),
        ("7 1 0.5 0.5", "UNDECIDED 1", 1),
        ("7 1.5 0.5 0.5", "OUTSIDE", 1),
        ("9 0.5 0.5 0.5", "OUTSIDE", 2),
        ("9 1 0.5 0.5", "UNDECIDED 1", 2),
    ];
    for (point, answer, count) in cases {
        expect_answer(&rt, alloc, &file, point, answer, count)?;
    }
    // Each point counts by itself.
    let mut input = file_of(
        &rt,
        alloc,
        &[
            (158, 0, BALL),
            (158, 0, BALL_AT_2),
            (180, 0, "180,3,-1,-3,1;"),
        ],
    )?;
    input.extend_from_slice(b"@1 point 5 2 0 0\n@1 point 5 1 0 0\n@1 point 5 9 0 0\n")?;
    let text = "LOG 0\n@1 3\n0 INSIDE\n0 UNDECIDED 1\n0 OUTSIDE\nEND\n";
    expect_replay(&rt, alloc, input.as_slice(), Status::Done, text, 6)
}

#[test]
fn points_on_moved_solids_are_answered(rt: HostRuntime) -> Result<(), AllocError> {
    let alloc = rt.alloc();
    // A ball, a matrix and the one after it, and two instances, of which the second moves the
    // first.
    let records = [
        (158, 0, BALL),
        (124, 5, ALONG_X),
        (124, 0, TURN),
        (430, 3, "430,1;"),
        (430, 11, "430,7;"),
        (124, 0, ALONG_Z),
    ];
    let file = file_of(&rt, alloc, &records)?;
    let cases = [
        ("1 0 0 0", "INSIDE"),
        ("7 0 10 0", "INSIDE"),
        ("7 10 0 0", "OUTSIDE"),
        ("7 0 11 0", "UNDECIDED 1"),
        ("9 0 10 5", "INSIDE"),
        ("9 0 10 0", "OUTSIDE"),
        ("9 0 10 4", "UNDECIDED 1"),
    ];
    for (point, answer) in cases {
        expect_answer(&rt, alloc, &file, point, answer, 1)?;
    }
    // A ball twice: moved and where it stands.
    let records = [
        (158, 0, BALL),
        (124, 0, ALONG_X),
        (0, 0, "0;"),
        (0, 0, "0;"),
        (184, 0, "184,2,1,1,3,0;"),
    ];
    let file = file_of(&rt, alloc, &records)?;
    let cases = [
        ("9 10 0 0", "INSIDE"),
        ("9 0 0 0", "INSIDE"),
        ("9 5 0 0", "OUTSIDE"),
        ("9 -1 0 0", "UNDECIDED 1"),
    ];
    for (point, answer) in cases {
        expect_answer(&rt, alloc, &file, point, answer, 2)?;
    }
    Ok(())
}

#[test]
fn other_entities_are_refused(rt: HostRuntime) -> Result<(), AllocError> {
    let alloc = rt.alloc();
    let records = [
        (158, 3, BALL),
        (124, 0, ALONG_X),
        (430, 0, "430,19;"),
        (0, 0, "0;"),
        (180, 0, "180,3,-1,-13,2;"),
        (430, 3, "430,9;"),
        (110, 0, LINE),
        (110, 0, LINE),
        (184, 0, "184,3,15,1,13;"),
        (110, 0, LINE),
    ];
    let file = file_of(&rt, alloc, &records)?;
    let cases = [
        // A matrix.
        ("3 0 0 0", "REFUSED NotSolid 3"),
        // An entity that isn't read, and solids that reach some: the least number of these is told.
        ("13 0 0 0", "REFUSED Unsupported 13"),
        ("15 0 0 0", "REFUSED Unsupported 15"),
        ("5 0 0 0", "REFUSED Unsupported 19"),
        ("9 0 0 0", "REFUSED Unsupported 13"),
        ("11 0 0 0", "REFUSED Unsupported 13"),
        ("17 0 0 0", "REFUSED Unsupported 13"),
        // A null row, an even number, and one past the end.
        ("7 0 0 0", "REFUSED NoEntity 7"),
        ("2 0 0 0", "REFUSED NoEntity 2"),
        ("21 0 0 0", "REFUSED NoEntity 21"),
        ("999999999 0 0 0", "REFUSED NoEntity 999999999"),
    ];
    for (point, answer) in cases {
        expect_answer(&rt, alloc, &file, point, answer, 0)?;
    }
    // What isn't read is no matter where it isn't reached.
    expect_answer(&rt, alloc, &file, "1 10 0 0", "INSIDE", 1)
}

#[test]
fn other_inputs_are_refused(rt: HostRuntime) -> Result<(), AllocError> {
    let alloc = rt.alloc();
    let point = "@1 point 1 0 0 0\n";
    let cases: [(&[Record], &str, &str); 8] = [
        // A file's own fault comes first.
        (&[(158, 3, "158,0.;")], "@1 export\n", "BadRow 1 BadSize 1"),
        (&[(150, 0, BALL)], point, "BadRow 1 WrongKind 0"),
        (
            &[(158, 9, BALL), (158, 0, "158,0.;")],
            point,
            "BadRow 3 BadSize 1",
        ),
        // The references between the entities.
        (
            &[(158, 0, BALL), (158, 0, BALL), (180, 0, "180,3,-1,-7,1;")],
            "@1 commit\n",
            "Dangling 5 7",
        ),
        (
            &[(158, 0, BALL), (124, 0, TURN), (430, 0, "430,3;")],
            point,
            "WrongTarget 5 3",
        ),
        (&[(158, 0, BALL), (158, 1, BALL)], point, "WrongTarget 3 1"),
        (&[(158, 0, BALL), (430, 0, "430,3;")], point, "Cycle 3"),
        (
            &[(158, 3, BALL), (124, 5, TURN), (124, 3, TURN)],
            point,
            "Cycle 1",
        ),
    ];
    for (records, lines, fault) in cases {
        let mut input = file_of(&rt, alloc, records)?;
        input.extend_from_slice(lines.as_bytes())?;
        let text = format!(in alloc; "MODEL REFUSED {fault}\n")?;
        expect_replay(&rt, alloc, input.as_slice(), Status::Refused, &text, 0)?;
    }
    let text = "MODEL REFUSED NoTerminate\n";
    expect_replay(&rt, alloc, b"", Status::Refused, text, 0)?;
    let fault = TopFault::File(FileFault::TooManyLines);
    let words = fault.write_fault(alloc)?;
    assert_eq!(rt; words.as_slice(), b"TooManyLines".as_slice());
    assert_eq!(rt; fault.number(), 21);
    Ok(())
}

/// The answer to one question of session 1.
fn expect_body(
    rt: &impl Abort,
    alloc: Global,
    file: &Bytes,
    question: &str,
    body: &str,
    count: u64,
) -> Result<(), AllocError> {
    let mut input = Bytes::new(alloc);
    input.extend_from_slice(file.as_slice())?;
    for part in ["@1 ", question, "\n"] {
        input.extend_from_slice(part.as_bytes())?;
    }
    let text = format!(in alloc; "LOG 0\n@1 1\n0 {body}\nEND\n")?;
    expect_replay(rt, alloc, input.as_slice(), Status::Done, &text, count)
}

#[test]
fn each_question_is_answered(rt: HostRuntime) -> Result<(), AllocError> {
    let alloc = rt.alloc();
    let ball = file_of(&rt, alloc, &[(158, 0, BALL)])?;
    let block = file_of(&rt, alloc, &[(150, 0, "150,1.,1.,1.;")])?;
    let parts = file_of(
        &rt,
        alloc,
        &[
            (158, 0, BALL),
            (124, 0, ALONG_X),
            (184, 0, "184,2,1,1,3,0;"),
            (110, 0, LINE),
        ],
    )?;
    let cases = [
        (&ball, "cell 1 -0.5 -0.5 -0.5 0.5 0.5 0.5", "INSIDE", 1),
        (&ball, "live cell 1 0 0 0 1 1 1", "UNDECIDED 1", 1),
        (&ball, "cell 1 2 2 2 2 2 2", "OUTSIDE", 1),
        (
            &ball,
            "section 1 0 -2 -2 1 4 4",
            "SECTION 4 4\n.??.\n????\n????\n.??.",
            16,
        ),
        (
            &block,
            "section 1 0.5 0.25 0 0.5 3 2",
            "SECTION 3 2\n??.\n??.",
            6,
        ),
        (&block, "volume 1 0 0 0 2 2 2 1", "VOLUME 0 8 8 0.0 8.0", 8),
        (
            &block,
            "volume 1 0 0 0 2 2 2 2",
            "VOLUME 0 27 64 0.0 3.375",
            64,
        ),
        (
            &block,
            "live volume 1 0 0 0 2 2 2 3",
            "VOLUME 8 125 512 0.125 1.953125",
            512,
        ),
        (
            &block,
            "bounds 1 0 0 0 2 2 2 3",
            "BOUNDS 0.0 0.0 0.0 1.25 1.25 1.25",
            512,
        ),
        (&block, "bounds 1 2 2 2 3 3 3 1", "EMPTY", 8),
        (&block, "volume 1 0 0 0 2 2 2 6", "REFUSED TooLarge", 0),
        (
            &block,
            "section 1 0 0 0 0.001 257 256",
            "REFUSED TooLarge",
            0,
        ),
        (&parts, "items 5", "ITEMS 2 1/3 1", 0),
        (&parts, "items 1", "ITEMS 1 1", 0),
        (&parts, "items 3", "REFUSED NotSolid 3", 0),
        (&parts, "items 7", "REFUSED Unsupported 7", 0),
        (&parts, "items 9", "REFUSED NoEntity 9", 0),
        (&parts, "newest", "NEWEST", 0),
    ];
    for (file, question, body, count) in cases {
        expect_body(&rt, alloc, file, question, body, count)?;
    }
    Ok(())
}

/// A plate with two bores, of which one is an instance of the other, a colour, a matrix and a name.
const PLATE: [Record; 7] = [
    (314, 0, "314,50.0,60.0,70.0,5HSteel;"),
    (150, 0, "150,100.,60.,10.,0.,0.,0.,1.,0.,0.,0.,0.,1.;"),
    (154, 0, "154,12.,5.,20.,30.,-1.,0.,0.,1.;"),
    (124, 0, "124,1.,0.,0.,60.,0.,1.,0.,0.,0.,0.,1.,0.;"),
    (430, 7, "430,5;"),
    (180, 0, "180,5,-3,-5,3,-9,3,0,1,13;"),
    (406, 0, "406,1,7HBRACKET;"),
];

#[test]
fn a_bored_plate_is_answered(rt: HostRuntime) -> Result<(), AllocError> {
    let alloc = rt.alloc();
    let plate = file_of(&rt, alloc, &PLATE)?;
    let cases = [
        ("point 11 50 30 5", "INSIDE", 3),
        ("point 11 20 30 5", "OUTSIDE", 3),
        ("point 11 80 30 5", "OUTSIDE", 3),
        ("point 11 25 30 5", "UNDECIDED 5", 3),
        (
            "volume 11 0 0 0 128 64 16 2",
            "VOLUME 2 48 64 4096.0 98304.0",
            192,
        ),
        ("point 13 0 0 0", "REFUSED Unsupported 13", 0),
        ("point 7 0 0 0", "REFUSED NotSolid 7", 0),
        ("point 15 0 0 0", "REFUSED NoEntity 15", 0),
        ("volume 11 0 0 0 1 1 1 6", "REFUSED TooLarge", 0),
        ("section 11 0 0 0 0.001 257 256", "REFUSED TooLarge", 0),
        ("items 11", "ITEMS 1 11", 0),
    ];
    for (question, body, count) in cases {
        expect_body(&rt, alloc, &plate, question, body, count)?;
    }
    Ok(())
}

#[test]
fn sessions_have_their_replies(rt: HostRuntime) -> Result<(), AllocError> {
    let alloc = rt.alloc();
    let cases = [
        // Lines that are no command, and lines that name no session.
        (
            "hello\n@9 newest\n@1 pint\n@1 point 1 0 0\n@1 point 1 0 0 0 7\n",
            "LOG 0\n@0 2\n- REFUSED BadLine 1\n- REFUSED TooManySessions\n@1 3\n\
             - REFUSED UnknownCommand\n- REFUSED BadLine 15\n- REFUSED BadLine 18\nEND\n",
            0,
        ),
        // Sessions come in order, and the lines of each in theirs.
        (
            "@8 newest\n@2 point 1 0 0 0\n@8 point 1 0 2 0\n@2 newest\n",
            "LOG 0\n@2 2\n0 INSIDE\n0 NEWEST\n@8 2\n0 NEWEST\n0 OUTSIDE\nEND\n",
            2,
        ),
        // Blanks of each kind, skipped lines, both line ends, and a last line without one.
        (
            "\n \t\x1a\n@1\tpoint 1  0 0 0 \r\n@1 newest",
            "LOG 0\n@1 2\n0 INSIDE\n0 NEWEST\nEND\n",
            1,
        ),
        (
            "@1 live newest\n@1 point 1 5e-1 0 .5\n",
            "LOG 0\n@1 2\n- REFUSED UnknownCommand\n0 INSIDE\nEND\n",
            1,
        ),
    ];
    for (lines, text, count) in cases {
        let mut input = file_of(&rt, alloc, &[(158, 0, BALL)])?;
        input.extend_from_slice(lines.as_bytes())?;
        expect_replay(&rt, alloc, input.as_slice(), Status::Done, text, count)?;
    }
    Ok(())
}
