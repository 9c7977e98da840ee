//! Sessions served side by side: that they run at the same time, that they share one memo, and what
//! one session is answered.
use crate::replay_tests::{Record, file_of};
use crate::{Output, Status, serve_run};
use ask_core::Book;
use iges_file::read_file;
use solid_base::{Reply, Tally, Vec3};
use solid_desk::ask;
use solid_io::{Gate, HoldGate, OpenGate};
use solid_questions::Question;
use std::alloc::{AllocError, Global};
use std::process::Abort;
use std::sync::Wait;
use std::thread::Threads;
use turn_book::Turn;

/// A sphere, unions that each double the one before, and the sphere united with the last: its
/// weight is 65.
const DOUBLED: [Record; 8] = [
    (158, 0, "158,1.0,0.0,0.0,0.0;"),
    (180, 0, "180,3,-1,-1,1;"),
    (180, 0, "180,3,-3,-3,1;"),
    (180, 0, "180,3,-5,-5,1;"),
    (180, 0, "180,3,-7,-7,1;"),
    (180, 0, "180,3,-9,-9,1;"),
    (180, 0, "180,3,-11,-11,1;"),
    (180, 0, "180,3,-13,-1,1;"),
];

/// Two spheres, and their union.
const BALLS: [Record; 3] = [
    (158, 0, "158,1.0,0.0,0.0,0.0;"),
    (158, 0, "158,1.0,5.0,0.0,0.0;"),
    (180, 0, "180,3,-1,-3,1;"),
];

/// Eight sessions that each replace a sphere and commit.
const EIGHT: &str = "\
@1 replace 1 158 0 0 158,1.;\n@1 commit\n\
@2 replace 1 158 0 0 158,2.;\n@2 commit\n\
@3 replace 1 158 0 0 158,3.;\n@3 commit\n\
@4 replace 1 158 0 0 158,4.;\n@4 commit\n\
@5 replace 3 158 0 0 158,5.;\n@5 commit\n\
@6 replace 3 158 0 0 158,6.;\n@6 commit\n\
@7 replace 3 158 0 0 158,7.;\n@7 commit\n\
@8 replace 3 158 0 0 158,8.;\n@8 commit\n";

/// What `serve_run` answers to a file of these entities with this script after it.
fn served<R: Abort + Threads + Wait + Sync, G: Gate>(
    rt: &R,
    alloc: Global,
    records: &[Record],
    script: &str,
    gate: &G,
) -> Result<Output, AllocError> {
    let mut input = file_of(rt, alloc, records)?;
    input.extend_from_slice(script.as_bytes())?;
    assert!(rt; input.len() < 10_000);
    serve_run(rt, alloc, input.as_slice(), gate)
}

/// The output is this text, and it was answered to a file and a script.
fn expect_served(rt: &impl Abort, output: &Output, text: &str) {
    assert_eq!(rt; output.text.as_slice(), text.as_bytes(), "{text}");
    assert_eq!(rt; output.status, Status::Done, "{text}");
}

#[test]
fn one_session_is_answered(rt: HostRuntime) -> Result<(), AllocError> {
    let alloc = rt.alloc();
    let cases = [
        ("@1 point 1 0 0 0\n", "LOG 0\n@1 1\n0 INSIDE\nEND\n"),
        ("", "LOG 0\nEND\n"),
        (
            "point 1 0 0 0\n@8 drop 1\n@8 commit\n@8 what\n",
            "LOG 0\n@0 1\n- REFUSED BadLine 1\n@8 3\n- STAGED 1\n0 REFUSED InUse 1 5\n\
             - REFUSED UnknownCommand\nEND\n",
        ),
    ];
    for (script, text) in cases {
        let output = served(&rt, alloc, &BALLS, script, &OpenGate)?;
        expect_served(&rt, &output, text);
    }
    Ok(())
}

#[test]
fn two_sessions_run_side_by_side(rt: HostRuntime) -> Result<(), AllocError> {
    let alloc = rt.alloc();
    let script = "@1 point 15 0 0 0\n@2 replace 1 158 0 0 158,1,9,0,0;\n@2 commit\n";
    let text = "LOG 1\n1 @2 2\n@1 1\n0 INSIDE\n@2 2\n- STAGED 1\n1 COMMITTED\nEND\n";
    let gate = HoldGate::new(1, 2, 1_000_000_000).until_count(2);
    let output = served(&rt, alloc, &DOUBLED, script, &gate)?;
    assert!(rt; !gate.gave_up());
    expect_served(&rt, &output, text);
    Ok(())
}

#[test]
fn a_live_question_is_cancelled_by_a_commit(rt: HostRuntime) -> Result<(), AllocError> {
    let alloc = rt.alloc();
    let script = "@1 live point 15 0 0 0\n@1 live point 15 0 0 0\n\
                  @2 replace 1 158 0 0 158,1,9,0,0;\n@2 commit\n";
    let text = "LOG 1\n1 @2 2\n@1 2\n0 CANCELLED 1\n1 OUTSIDE\n\
                @2 2\n- STAGED 1\n1 COMMITTED\nEND\n";
    let gate = HoldGate::new(1, 2, 1_000_000_000).until_count(2);
    let output = served(&rt, alloc, &DOUBLED, script, &gate)?;
    assert!(rt; !gate.gave_up());
    expect_served(&rt, &output, text);
    Ok(())
}

/// In which order the commits are made isn't known, but each of the eight sessions makes one.
#[test]
fn eight_sessions_commit_once_each(rt: HostRuntime) -> Result<(), AllocError> {
    let alloc = rt.alloc();
    let output = served(&rt, alloc, &BALLS, EIGHT, &OpenGate)?;
    let text = output.text.as_slice();
    assert_eq!(rt; output.status, Status::Done);
    assert!(rt; text.starts_with(b"LOG 8\n1 @"));
    assert!(rt; text.ends_with(b" COMMITTED\nEND\n"));
    // Eight lines of the log, and eight times the number of a session and its two replies.
    assert_eq!(rt; text.len(), 6 + 8 * 7 + 8 * (5 + 11 + 12) + 4);
    Ok(())
}

#[test]
fn sessions_share_one_memo(rt: HostRuntime) -> Result<(), AllocError> {
    let alloc = rt.alloc();
    let input = file_of(&rt, alloc, &BALLS)?;
    assert!(rt; input.len() < 10_000);
    let Ok(read) = read_file(alloc, input.as_slice()) else {
        panic!(rt; "no file");
    };
    let book = Book::start_with_graph(alloc, read.model, read.graph, read.lines)?;
    let (turn, mut first) = Turn::new(alloc, book)?;
    let mut second = turn.split(&mut first);
    let at = Vec3 { x: 0, y: 0, z: 0 };
    let question = Question::Point { e: 5, at };
    let mut tally = Tally { count: 0 };
    let reply = ask(
        &rt, alloc, &turn, &mut first, 1, &question, false, &OpenGate, &mut tally,
    )?;
    assert_eq!(rt; tally.count, 2);
    expect_inside(&rt, &reply);
    let reply = ask(
        &rt,
        alloc,
        &turn,
        &mut second,
        2,
        &question,
        false,
        &OpenGate,
        &mut tally,
    )?;
    assert_eq!(rt; tally.count, 2);
    expect_inside(&rt, &reply);
    turn.meet(&mut first, second);
    assert!(rt; turn.close(&rt, first).log().is_empty());
    Ok(())
}

/// The reply says `INSIDE` of version 0.
fn expect_inside(rt: &impl Abort, reply: &Reply) {
    assert_eq!(rt; reply.version, Some(0));
    assert_eq!(rt; reply.body.as_slice(), b"INSIDE".as_slice());
}
