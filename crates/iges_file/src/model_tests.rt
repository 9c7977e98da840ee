use crate::{FileFault, read_file, read_model};
use solid_base::{Prim, Row, U, Vec3};
use std::alloc::{AllocError, Global};
use std::process::Abort;

/// A line: a text in columns 1 to 72, and the section letter with the sequence number.
fn push_line(out: &mut Vec<u8>, text: &[u8], end: &[u8]) -> Result<(), AllocError> {
    out.extend_from_slice(text)?;
    for _ in text.len()..72 {
        out.push(b' ')?;
    }
    out.extend_from_slice(end)?;
    out.push(b'\n')?;
    Ok(())
}

/// A file of one entity: the start line, the global text, the two directory lines, the record and
/// the terminate line.
fn file(alloc: Global, lines: [&[u8]; 6]) -> Result<Vec<u8>, AllocError> {
    let [start, global, first, second, record, terminate] = lines;
    let mut out = Vec::new(alloc);
    push_line(&mut out, start, b"S      1")?;
    push_line(&mut out, global, b"G      1")?;
    push_line(&mut out, first, b"D      1")?;
    push_line(&mut out, second, b"D      2")?;
    push_line(&mut out, record, b"P      1")?;
    push_line(&mut out, terminate, b"T      1")?;
    Ok(out)
}

const START: &[u8] = b"One sphere of radius 1.";

const FIRST: &[u8] = b"     158       1                                       0        00000000";

const SECOND: &[u8] = b"     158                       1       0";

const TERMINATE: &[u8] = b"S      1G      1D      2P      1";

#[test]
fn reads_a_model(rt: HostRuntime) -> Result<(), AllocError> {
    let alloc = rt.alloc();
    let origin = Vec3 { x: 0, y: 0, z: 0 };
    let cases: [(&[u8], &[u8], &[u8], i128); 3] = [
        (b",,;", FIRST, b"158,5.E-13;", 1),
        (b"1H||1H#|7Hbracket#", FIRST, b"158|1.0|0.0|0.0|0.0#", U),
        (b",,4Hdemo;", FIRST, b"+158,2,,,,;", 2 * U),
    ];
    for (global, first, record, r) in cases {
        let mut bytes = file(alloc, [START, global, first, SECOND, record, TERMINATE])?;
        let end = bytes.len();
        bytes.extend_from_slice(b"@1 point 1 0 0 0\n")?;
        assert!(rt; bytes.len() <= 1000);
        match read_file(alloc, &bytes) {
            Ok(read) => {
                let prim = Prim::Sphere { r, centre: origin };
                assert_eq!(rt; read.end, end, "record {record:?}");
                assert_eq!(rt; read.model.rows.len(), 1, "record {record:?}");
                assert_eq!(rt;
                    read.model.rows.get(0).row,
                    Row::Prim { prim, matrix: 0 },
                    "record {record:?}"
                );
            }
            Err(fault) => assert!(rt; false, "record {record:?} {fault:?}"),
        }
    }
    Ok(())
}

#[test]
fn keeps_what_is_not_read(rt: HostRuntime) -> Result<(), AllocError> {
    let alloc = rt.alloc();
    let kept: &[u8] = b"     110       1                                       0        00000000";
    let second: &[u8] = b"     110                       1       0";
    let null: &[u8] = b"       0";
    let cases: [(&[u8], &[u8], &[u8], bool); 2] = [
        (kept, second, b"110,x,;", false),
        (null, null, b"nothing of this is read", true),
    ];
    for (first, second, record, is_null) in cases {
        let bytes = file(alloc, [START, b",,;", first, second, record, TERMINATE])?;
        assert!(rt; bytes.len() <= 1000);
        match read_model(alloc, &bytes) {
            Ok((model, _end)) => {
                assert_eq!(rt; model.rows.len(), 1);
                match &model.rows.get(0).row {
                    Row::Null => assert!(rt; is_null),
                    Row::Opaque { kind, text, .. } => {
                        assert_eq!(rt; *kind, 110);
                        assert_eq!(rt; text.as_slice(), record);
                    }
                    _ => assert!(rt; false),
                }
            }
            Err(fault) => assert!(rt; false, "{fault:?}"),
        }
    }
    Ok(())
}

fn words(rt: &impl Abort, alloc: Global, bytes: &[u8]) -> Result<Vec<u8>, AllocError> {
    assert!(rt; bytes.len() <= 10_000);
    match read_model(alloc, bytes) {
        Ok(_read) => Vec::from_slice(alloc, b"read"),
        Err(FileFault::Memory(_error)) => Vec::from_slice(alloc, b"memory"),
        Err(fault) => Vec::from_slice(alloc, fault.write_fault(alloc)?.as_slice()),
    }
}

#[test]
fn reports_the_first_fault(rt: HostRuntime) -> Result<(), AllocError> {
    let alloc = rt.alloc();
    let matrix: &[u8] = b"     158       1                                      -1        00000000";
    let faulty: &[u8] = b"S      1G      1D      2P      2";
    let cases: [([&[u8]; 6], &[u8]); 8] = [
        (
            [START, b",,;", FIRST, SECOND, b"158,1.;", TERMINATE],
            b"read",
        ),
        (
            [START, b",,;", FIRST, SECOND, b"158,4.9D-13;", TERMINATE],
            b"BadRow 1 BadSize 1",
        ),
        (
            [START, b",,;", FIRST, SECOND, b"158,1.,,x;", TERMINATE],
            b"BadRow 1 Token 3",
        ),
        (
            [START, b",,1,2", FIRST, SECOND, b"158,1.;", TERMINATE],
            b"BadGlobal 4",
        ),
        (
            [START, b",,1,2", matrix, SECOND, b"158,x;", TERMINATE],
            b"BadGlobal 4",
        ),
        (
            [START, b",,;", matrix, SECOND, b"158,x;", TERMINATE],
            b"BadField 1 7",
        ),
        (
            [
                START,
                b",,;",
                FIRST,
                b"     150                       1       0",
                b"158,1.;",
                TERMINATE,
            ],
            b"TypeDiffers 1",
        ),
        (
            [START, b",,1,2", FIRST, SECOND, b"158,x;", faulty],
            b"CountMismatch P 2 1",
        ),
    ];
    for (lines, want) in cases {
        let bytes = file(alloc, lines)?;
        let found = words(&rt, alloc, &bytes)?;
        assert!(rt; found.as_slice() == want, "want {want:?}");
    }
    let bytes = file(alloc, [START, b",,;", FIRST, SECOND, b"158,1.;", TERMINATE])?;
    assert!(rt; bytes.len() > 243);
    let cuts: [(usize, &[u8]); 3] = [
        (0, b"NoTerminate"),
        (200, b"ShortLine 3"),
        (243, b"NoTerminate"),
    ];
    for (length, want) in cuts {
        assert!(rt; length <= bytes.len());
        let found = words(&rt, alloc, &bytes[..length])?;
        assert!(rt; found.as_slice() == want, "cut {length}");
    }
    Ok(())
}

/// An entity of a file: its type, the number of its matrix, and its record, which takes one line.
type Record = (u32, u32, &'static str);

/// Adds a line: a text in columns 1 to 72, the letter of its section, and its number there.
fn push_card(
    alloc: Global,
    file: &mut Vec<u8>,
    text: &str,
    section: &str,
    number: usize,
) -> Result<(), AllocError> {
    let card = format!(in alloc; "{text:<72}{section}{number:>7}\n")?;
    file.extend_from_slice(card.as_bytes())?;
    Ok(())
}

/// The file of these entities, of which that at place i, counted from 0, has the number 2i + 1.
fn file_of(rt: &impl Abort, alloc: Global, records: &[Record]) -> Result<Vec<u8>, AllocError> {
    assert!(rt; records.len() <= 10);
    let mut file = Vec::new(alloc);
    push_card(alloc, &mut file, "Some entities.", "S", 1)?;
    push_card(alloc, &mut file, ",,;", "G", 1)?;
    for place in 0..records.len() {
        let (kind, matrix, _) = records[place];
        let line = place + 1;
        let first = format!(in alloc; "{kind:>8}{line:>8}{matrix:>40}        00000000")?;
        let second = format!(in alloc; "{kind:>8}                       1       0")?;
        push_card(alloc, &mut file, first.as_str(), "D", 2 * place + 1)?;
        push_card(alloc, &mut file, second.as_str(), "D", 2 * place + 2)?;
    }
    for place in 0..records.len() {
        push_card(alloc, &mut file, records[place].2, "P", place + 1)?;
    }
    let (lines, count) = (2 * records.len(), records.len());
    let last = format!(in alloc; "S      1G      1D{lines:>7}P{count:>7}")?;
    push_card(alloc, &mut file, last.as_str(), "T", 1)?;
    Ok(file)
}

#[test]
fn reports_faults_of_references(rt: HostRuntime) -> Result<(), AllocError> {
    let alloc = rt.alloc();
    let ball = "158,1.;";
    let turn = "124,0.,-1.,0.,0.,1.,0.,0.,0.,0.,0.,1.,0.;";
    let cases: [(&[Record], &[u8]); 12] = [
        // An instance of a ball that is moved by one matrix after another.
        (
            &[
                (430, 0, "430,3;"),
                (158, 5, ball),
                (124, 7, turn),
                (124, 0, turn),
            ],
            b"read",
        ),
        // A number past the end, an even one, and that of a null row.
        (&[(158, 0, ball), (430, 0, "430,5;")], b"Dangling 3 5"),
        (&[(158, 2, ball)], b"Dangling 1 2"),
        (
            &[(0, 0, "0;"), (158, 0, ball), (180, 0, "180,3,-3,-1,1;")],
            b"Dangling 5 1",
        ),
        // A matrix is wanted, and the other way round.
        (&[(158, 3, ball), (158, 0, ball)], b"WrongTarget 1 3"),
        (
            &[(158, 0, ball), (124, 0, turn), (184, 0, "184,2,1,3;")],
            b"WrongTarget 5 3",
        ),
        // Itself, and through what comes after a matrix.
        (&[(158, 0, ball), (430, 0, "430,3;")], b"Cycle 3"),
        (
            &[(158, 0, ball), (124, 5, turn), (124, 3, turn)],
            b"Cycle 3",
        ),
        (
            &[(158, 3, ball), (124, 5, turn), (124, 3, turn)],
            b"Cycle 1",
        ),
        // What isn't read names nothing, not even a matrix.
        (&[(110, 7, "110;")], b"read"),
        // The records come first, and then each kind of fault in all rows before the next.
        (
            &[(158, 9, ball), (158, 0, "158,0.;")],
            b"BadRow 3 BadSize 1",
        ),
        (
            &[
                (430, 0, "430,1;"),
                (158, 1, ball),
                (184, 0, "184,2,1,3,0,9;"),
            ],
            b"Dangling 5 9",
        ),
    ];
    for (records, want) in cases {
        let bytes = file_of(&rt, alloc, records)?;
        let found = words(&rt, alloc, &bytes)?;
        assert!(rt; found.as_slice() == want, "want {want:?}");
    }
    Ok(())
}
