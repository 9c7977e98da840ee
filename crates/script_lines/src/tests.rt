//! Lines and their faults, and scripts of some sessions, with ample memory.
use crate::{
    Command, LineFault, ScriptLine, ScriptReader, SessionLines, read_order, read_script,
    read_sessions,
};
use solid_base::{Bytes, Cube, RowText, U, Vec3};
use solid_questions::Question;
use std::alloc::{AllocError, Global};

const ORIGIN: Vec3 = Vec3 { x: 0, y: 0, z: 0 };

const ONE: Cube = Cube {
    lo: ORIGIN,
    hi: Vec3 { x: U, y: U, z: U },
};

fn ask(question: Question) -> Command {
    Command::Ask {
        question,
        live: false,
    }
}

fn live(question: Question) -> Command {
    Command::Ask {
        question,
        live: true,
    }
}

/// A line of each question, with its session and its command.
fn questions() -> [(&'static [u8], u32, Command); 8] {
    let at = Vec3 {
        x: 3 * U / 2,
        y: -2 * U,
        z: 0,
    };
    let flat = Cube {
        lo: ORIGIN,
        hi: Vec3 { x: 0, y: U, z: U },
    };
    let section = Question::Section {
        e: 1,
        z: 0,
        x0: 99_999 * U,
        y0: 0,
        step: U,
        nx: 1,
        ny: 1,
    };
    [
        (b"@1 point 3 1.5 -2 0", 1, ask(Question::Point { e: 3, at })),
        (
            b"\t@2 live  cell 3 0 0 0 0 1 1 ",
            2,
            live(Question::Cell { e: 3, cube: flat }),
        ),
        (b"@3 items 3", 3, ask(Question::Items { e: 3 })),
        (b"@4 section 1 0 99999 0 1 1 1", 4, ask(section)),
        (
            b"@5 volume 1 0 0 0 1 1 1 2",
            5,
            ask(Question::Volume {
                e: 1,
                cube: ONE,
                depth: 2,
            }),
        ),
        (
            b"@6 live bounds 1 0 0 0 1 1 1 0",
            6,
            live(Question::Bounds {
                e: 1,
                cube: ONE,
                depth: 0,
            }),
        ),
        (b"@7 export", 7, ask(Question::Export)),
        (b"@000000008 newest", 8, ask(Question::Newest)),
    ]
}

#[test]
fn questions_are_read(rt: HostRuntime) -> Result<(), AllocError> {
    let alloc = rt.alloc();
    for (text, session, command) in questions() {
        assert!(rt; text.len() < 100);
        let mut reader = ScriptReader::new(text);
        assert_eq!(rt; reader.next(alloc)?, Some(ScriptLine { session, command }));
        assert_eq!(rt; reader.next(alloc)?, None);
    }
    Ok(())
}

/// A row of a sphere with this record.
fn row(alloc: Global, text: &[u8]) -> Result<RowText, AllocError> {
    Ok(RowText {
        kind: 158,
        form: 0,
        matrix: 3,
        text: Bytes::from_vec(Vec::from_slice(alloc, text)?),
    })
}

#[test]
fn edits_are_read(rt: HostRuntime) -> Result<(), AllocError> {
    let alloc = rt.alloc();
    let cases: [(&[u8], Command); 4] = [
        (
            b"@1 replace 5 158 0 3  158,1.0; ",
            Command::Replace {
                de: 5,
                row: row(alloc, b"158,1.0; ")?,
            },
        ),
        (
            b"@1 add 7 158 0 3 158, 2.0;",
            Command::Add {
                de: 7,
                row: row(alloc, b"158, 2.0;")?,
            },
        ),
        (b"@1 drop 7", Command::Drop { de: 7 }),
        (b"@1 commit", Command::Commit),
    ];
    for (text, command) in cases {
        assert!(rt; text.len() < 100);
        let session = 1;
        let mut reader = ScriptReader::new(text);
        assert_eq!(rt; reader.next(alloc)?, Some(ScriptLine { session, command }));
    }
    Ok(())
}

/// Lines that are no commands, each with its session and its fault.
fn broken_lines() -> [(&'static [u8], u32, LineFault); 24] {
    [
        // the session
        (b"hello", 0, LineFault::BadLine(1)),
        (b"  @0 newest", 0, LineFault::BadLine(1)),
        (b"@1234567890 newest", 0, LineFault::BadLine(1)),
        (b"@9 nonsense", 0, LineFault::TooManySessions),
        // the command's name
        (b"@1 ", 1, LineFault::BadLine(4)),
        (b"@1 live", 1, LineFault::BadLine(8)),
        (b"@1 pint", 1, LineFault::UnknownCommand),
        (b"@1 live items 3", 1, LineFault::UnknownCommand),
        (b"@1 live newest", 1, LineFault::UnknownCommand),
        (b"@1 live live", 1, LineFault::UnknownCommand),
        // a word that is missing, and one too many
        (b"@1 point 1 0 0", 1, LineFault::BadLine(15)),
        (b"@1 point 1 0 0  ", 1, LineFault::BadLine(17)),
        (b"@1 point 1 0 0 0 7", 1, LineFault::BadLine(18)),
        (b"@1 replace 5 158 0 3  ", 1, LineFault::BadLine(23)),
        // a word that breaks its rule
        (b"@1 point 0 0 0 0", 1, LineFault::BadLine(10)),
        (b"@1 drop 1234567890", 1, LineFault::BadLine(9)),
        (b"@1 point 1 0 100000.1 0", 1, LineFault::BadLine(14)),
        (b"@1 point 1 0 0 0\r", 1, LineFault::BadLine(16)),
        (b"@1 cell 1 0 0 0 1 -1 1", 1, LineFault::BadLine(19)),
        (
            b"@1 volume 1 0 0 0.000001 1 1 1 2",
            1,
            LineFault::BadLine(17),
        ),
        (b"@1 bounds 1 0 0 0 1 1 0 2", 1, LineFault::BadLine(23)),
        (b"@1 section 1 0 0 0 0 4 4", 1, LineFault::BadLine(20)),
        (b"@1 section 1 0 99999 0 1 2 1", 1, LineFault::BadLine(26)),
        (b"@1 section 1 0 0 99999 1 1 2", 1, LineFault::BadLine(28)),
    ]
}

#[test]
fn broken_words_are_found(rt: HostRuntime) -> Result<(), AllocError> {
    let alloc = rt.alloc();
    for (text, session, fault) in broken_lines() {
        assert!(rt; text.len() < 100);
        let command = Command::Bad(fault);
        let mut reader = ScriptReader::new(text);
        assert_eq!(rt; reader.next(alloc)?, Some(ScriptLine { session, command }));
    }
    Ok(())
}

#[test]
fn faults_are_written(rt: HostRuntime) -> Result<(), AllocError> {
    let cases: [(LineFault, u32, &[u8]); 3] = [
        (LineFault::BadLine(18), 2, b"BadLine 18"),
        (LineFault::UnknownCommand, 3, b"UnknownCommand"),
        (LineFault::TooManySessions, 4, b"TooManySessions"),
    ];
    for (fault, number, words) in cases {
        assert_eq!(rt; fault.number(), number);
        assert_eq!(rt; fault.write_fault(rt.alloc())?.as_slice(), words);
    }
    Ok(())
}

/// The numbers of the sessions, and of their commands, in one list.
fn numbers(alloc: Global, sessions: &[SessionLines]) -> Result<Vec<(u32, usize)>, AllocError> {
    let mut numbers = Vec::new(alloc);
    for lines in sessions.iter() {
        numbers.push((lines.session, lines.commands.len()))?;
    }
    Ok(numbers)
}

#[test]
fn sessions_are_gathered(rt: HostRuntime) -> Result<(), AllocError> {
    let alloc = rt.alloc();
    let cases: [(&[u8], &[u32], &[(u32, usize)]); 4] = [
        (b"", &[], &[]),
        (b" \t\r\n\x1a\n\r\n", &[], &[]),
        (
            b"@2 drop 1\n\n@1 commit\r\n@2 commit\nx",
            &[2, 1, 2, 0],
            &[(0, 1), (1, 1), (2, 2)],
        ),
        (b"@8 newest\n@8 newest", &[8, 8], &[(8, 2)]),
    ];
    for (bytes, order, sessions) in cases {
        assert!(rt; bytes.len() < 100);
        let script = read_sessions(alloc, bytes)?;
        assert_eq!(rt; script.order.as_slice(), order);
        assert_eq!(rt;
            numbers(alloc, script.sessions.as_slice())?.as_slice(),
            sessions
        );
        assert_eq!(rt; read_order(alloc, bytes)?, script.order);
        assert_eq!(rt; read_script(alloc, bytes)?, script.sessions);
    }
    let script = read_script(alloc, b"@2 drop 1\n@1 commit\n@2 commit")?;
    assert_eq!(rt; script.len(), 2);
    let commands: &[Command] = &[Command::Drop { de: 1 }, Command::Commit];
    assert_eq!(rt; script[1].commands.as_slice(), commands);
    Ok(())
}
