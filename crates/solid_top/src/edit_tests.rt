//! Replays of worked scripts with edits and exports: what is staged, made and refused, the log, and
//! the files that are given back.
use crate::replay_tests::{Record, expect_replay, file_of};
use crate::tests::{SPHERE, ended};
use crate::{Status, check_run, replay_run};
use solid_base::{Bytes, Tally};
use std::alloc::{AllocError, Global};
use std::process::Abort;

/// Two spheres, and their union.
const BALLS: [Record; 3] = [
    (158, 0, "158,1.0,0.0,0.0,0.0;"),
    (158, 0, "158,1.0,5.0,0.0,0.0;"),
    (180, 0, "180,3,-1,-3,1;"),
];

/// The same, with an instance of the union.
const INSTANCE: [Record; 4] = [
    (158, 0, "158,1.0,0.0,0.0,0.0;"),
    (158, 0, "158,1.0,5.0,0.0,0.0;"),
    (180, 0, "180,3,-1,-3,1;"),
    (430, 0, "430,5;"),
];

/// A plate with two bores, a colour, a matrix and a name, as another program wrote it.
const BRACKET: [&str; 26] = [
    "Bracket                                                                 S      1",
    "1H,,1H;,7Hbracket,11Hbracket.igs,4HDemo,3H1.0,32,38,6,308,15,           G      1",
    "7Hbracket,1.0,2,2HMM,1,0.01,15H20240101.120000,0.001,1000.0,            G      2",
    "5HUsers,4HTeam,11,0,15H20240101.120000;                                 G      3",
    "     314       1                                       0        00000000D      1",
    "     314                       1       0                                D      2",
    "     150       2                                       0        00000000D      3",
    "     150              -1       1       0                                D      4",
    "     154       3                                       0        00000000D      5",
    "     154                       1       0                                D      6",
    "     124       4                                       0        00000000D      7",
    "     124                       1       0                                D      8",
    "     430       5                                       7        00000000D      9",
    "     430                       1       0                                D     10",
    "     180       6                                       0        00000000D     11",
    "     180                       1       0                                D     12",
    "     406       7                                       0        00000000D     13",
    "     406                       1      15                                D     14",
    "314,50.0,60.0,70.0,5HSteel;                                            1P      1",
    "150,100.,60.,10.,0.,0.,0.,1.,0.,0.,0.,0.,1.;                           3P      2",
    "154,12.,5.,20.,30.,-1.,0.,0.,1.;                                       5P      3",
    "124,1.,0.,0.,60.,0.,1.,0.,0.,0.,0.,1.,0.;                              7P      4",
    "430,5;                                                                 9P      5",
    "180,5,-3,-5,3,-9,3,0,1,13;                                            11P      6",
    "406,1,7HBRACKET;                                                      13P      7",
    "S      1G      3D     14P      7                                        T      1",
];

/// The lines of the same that are written otherwise, with their places.
const REWRITTEN: [(usize, &str); 6] = [
    (
        1,
        "1H,,1H;,7Hbracket,11Hbracket.igs,4HDemo,3H1.0,32,38,6,308,15,7Hbracket, G      1",
    ),
    (
        2,
        "1.0,2,2HMM,1,0.01,15H20240101.120000,0.001,1000.0,5HUsers,4HTeam,11,0,  G      2",
    ),
    (
        3,
        "15H20240101.120000;                                                     G      3",
    ),
    (
        19,
        "150,100.0,60.0,10.0,0.0,0.0,0.0,1.0,0.0,0.0,0.0,0.0,1.0;               3P      2",
    ),
    (
        20,
        "154,12.0,5.0,20.0,30.0,-1.0,0.0,0.0,1.0;                               5P      3",
    ),
    (
        21,
        "124,1.0,0.0,0.0,60.0,0.0,1.0,0.0,0.0,0.0,0.0,1.0,0.0;                  7P      4",
    ),
];

/// What is expected of lines after a file of these entities: the text, and how often primitives are
/// evaluated.
fn expect_lines(
    rt: &impl Abort,
    alloc: Global,
    records: &[Record],
    lines: &str,
    text: &str,
    count: u64,
) -> Result<(), AllocError> {
    let mut input = file_of(rt, alloc, records)?;
    input.extend_from_slice(lines.as_bytes())?;
    expect_replay(rt, alloc, input.as_slice(), Status::Done, text, count)
}

#[test]
fn edits_are_made_and_refused(rt: HostRuntime) -> Result<(), AllocError> {
    let alloc = rt.alloc();
    // Two sessions, each with its own batch; their commits stand in the log in order.
    expect_lines(
        &rt,
        alloc,
        &BALLS,
        "@1 point 5 0 0 0\n@2 replace 1 158 0 0 158,1,9,0,0;\n\
         @1 replace 3 158 0 0 158,2,5,0,0;\n@2 commit\n@1 live point 5 0 0 0\n@1 commit\n\
         @2 point 5 3.5 0 0\n",
        "LOG 2\n1 @2 2\n2 @1 4\n@1 4\n0 INSIDE\n- STAGED 1\n1 OUTSIDE\n2 COMMITTED\n@2 3\n\
         - STAGED 1\n1 COMMITTED\n2 INSIDE\nEND\n",
        5,
    )?;
    // A batch of which one change is faulty makes nothing. A number that is staged again counts
    // once.
    expect_lines(
        &rt,
        alloc,
        &BALLS,
        "@1 replace 1 158 0 0 158,2,0,0,0;\n@1 replace 3 158 0 0 158,0,5,0,0;\n@1 commit\n\
         @1 newest\n@1 drop 5\n@1 drop 5\n@1 point 5 1.5 0 0\n@1 commit\n@1 point 5 0 0 0\n",
        "LOG 1\n1 @1 8\n@1 9\n- STAGED 1\n- STAGED 2\n0 REFUSED BadRecord 3 BadSize 1\n0 NEWEST\n\
         - STAGED 1\n- STAGED 1\n0 OUTSIDE\n1 COMMITTED\n1 REFUSED NoEntity 5\nEND\n",
        2,
    )?;
    // Each kind of fault of a commit, and one that is made after it.
    expect_lines(
        &rt,
        alloc,
        &INSTANCE,
        "@1 replace 5 180 0 0 180,3,-1,-7,1;\n@1 commit\n@1 drop 1\n@1 commit\n@1 commit\n\
         @1 drop 7\n@1 commit\n@1 point 7 0 0 0\n@1 add 7 430 0 0 430,3;\n@1 commit\n",
        "LOG 2\n1 @1 7\n2 @1 10\n@1 10\n- STAGED 1\n0 REFUSED Cycle 5\n- STAGED 1\n\
         0 REFUSED InUse 1 5\n0 REFUSED EmptyBatch\n- STAGED 1\n1 COMMITTED\n\
         1 REFUSED NoEntity 7\n- STAGED 1\n2 COMMITTED\nEND\n",
        0,
    )
}

#[test]
fn what_is_known_is_not_evaluated_again(rt: HostRuntime) -> Result<(), AllocError> {
    let alloc = rt.alloc();
    let cases = [
        // The same point twice, by one session and by two.
        (
            "@1 point 5 0 0 0\n@1 point 5 0 0 0\n",
            "LOG 0\n@1 2\n0 INSIDE\n0 INSIDE\nEND\n",
            2,
        ),
        (
            "@1 point 5 0 0 0\n@2 live point 5 0 0 0\n",
            "LOG 0\n@1 1\n0 INSIDE\n@2 1\n0 INSIDE\nEND\n",
            2,
        ),
        // After a commit that replaces one sphere, that sphere alone.
        (
            "@1 point 5 0 0 0\n@1 point 5 0 0 0\n@2 replace 1 158 0 0 158,1,9,0,0;\n@2 commit\n\
             @1 point 5 0 0 0\n@1 point 5 0 0 0\n",
            "LOG 1\n1 @2 2\n@1 4\n0 INSIDE\n0 INSIDE\n1 OUTSIDE\n1 OUTSIDE\n@2 2\n- STAGED 1\n\
             1 COMMITTED\nEND\n",
            3,
        ),
        // A refused commit changes nothing.
        (
            "@1 point 5 0 0 0\n@1 drop 1\n@1 commit\n@1 point 5 0 0 0\n",
            "LOG 0\n@1 4\n0 INSIDE\n- STAGED 1\n0 REFUSED InUse 1 5\n0 INSIDE\nEND\n",
            2,
        ),
    ];
    for (lines, text, count) in cases {
        expect_lines(&rt, alloc, &BALLS, lines, text, count)?;
    }
    Ok(())
}

/// What is expected of an export of the model of these lines: a file of these lines.
fn expect_export(
    rt: &impl Abort,
    alloc: Global,
    lines: &[&str],
    written: &[&str],
) -> Result<(), AllocError> {
    assert!(rt; lines.len() < 50 && written.len() < 50);
    let mut input = ended(alloc, lines, b"\n")?;
    input.extend_from_slice(b"@1 export\n")?;
    let file = ended(alloc, written, b"\n")?;
    let count = written.len();
    let head = format!(in alloc; "LOG 0\n@1 1\n0 EXPORT {count}\n")?;
    let mut text = Bytes::new(alloc);
    for part in [head.as_bytes(), file.as_slice(), b"END\n".as_slice()] {
        text.extend_from_slice(part)?;
    }
    assert!(rt; input.len() < 10_000);
    let mut tally = Tally { count: 0 };
    let output = replay_run(alloc, input.as_slice(), &mut tally)?;
    assert_eq!(rt; output.text.as_slice(), text.as_slice());
    assert_eq!(rt; output.status, Status::Done);
    assert_eq!(rt; tally.count, 0);
    Ok(())
}

#[test]
fn models_are_written(rt: HostRuntime) -> Result<(), AllocError> {
    let alloc = rt.alloc();
    let mut sphere = SPHERE;
    sphere[1] = "1H,,1H;,;                                                               G      1";
    expect_export(&rt, alloc, &SPHERE, &sphere)?;
    expect_export(&rt, alloc, &sphere, &sphere)?;

    let mut bracket = BRACKET;
    for (place, line) in REWRITTEN {
        assert!(rt; place < 26);
        bracket[place] = line;
    }
    expect_export(&rt, alloc, &BRACKET, &bracket)?;
    expect_export(&rt, alloc, &bracket, &bracket)?;

    let input = ended(alloc, &BRACKET, b"\n")?;
    assert!(rt; input.len() < 10_000);
    let output = check_run(alloc, input.as_slice())?;
    let text = "MODEL 7 READ 5 KEPT 2 NULL 0\nSCALE 1.0 UNITS 2 VERSION 11\nROOT 11 3 3\nEND\n";
    assert_eq!(rt; output.text.as_slice(), text.as_bytes());
    assert_eq!(rt; output.status, Status::Done);
    Ok(())
}

#[test]
fn a_model_has_at_most_ten_thousand_later_versions(rt: HostRuntime) -> Result<(), AllocError> {
    let alloc = rt.alloc();
    let mut input = ended(alloc, &SPHERE, b"\n")?;
    for _ in 0..10_001 {
        input.extend_from_slice(b"@1 replace 1 158 0 0 158,1;\n@1 commit\n")?;
    }
    assert!(rt; input.len() < 1_000_000);
    let mut tally = Tally { count: 0 };
    let output = replay_run(alloc, input.as_slice(), &mut tally)?;
    let (text, end) = (
        output.text.as_slice(),
        b"10000 COMMITTED\n- STAGED 1\n10000 REFUSED Full\nEND\n".as_slice(),
    );
    assert!(rt; text.starts_with(b"LOG 10000\n1 @1 2\n2 @1 4\n"));
    assert!(rt; text.ends_with(end));
    assert_eq!(rt; output.status, Status::Done);
    Ok(())
}
