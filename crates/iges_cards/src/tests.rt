use crate::{CardFault, one_fault, one_reading, read_cards};
use solid_base::Bytes;
use std::alloc::{AllocError, Global};
use std::test::Fail;

/// A line of a test: its front, what stands from column 73 on, and its line end.
type Line = (&'static str, &'static str, &'static str);

fn text_of(alloc: Global, lines: &[Line]) -> Result<Vec<u8>, AllocError> {
    let mut text = Vec::new(alloc);
    for (front, after, end) in lines {
        text.extend_from_slice(front.as_bytes())?;
        for _ in front.len()..72 {
            text.push(b' ')?;
        }
        text.extend_from_slice(after.as_bytes())?;
        text.extend_from_slice(end.as_bytes())?;
    }
    Ok(text)
}

/// The words of the fault of a text, or `read`.
fn words_of(alloc: Global, text: &[u8]) -> Result<Bytes, Fail> {
    match read_cards(alloc, text) {
        Ok(_) => Ok(Bytes::from_vec(Vec::from_slice(alloc, b"read")?)),
        Err(fault) if fault.number() == 1 => Err(Fail::from(fault)),
        Err(fault) => Ok(fault.write_fault(alloc)?),
    }
}

const S: Line = ("a start line", "S      1", "\n");

const G: Line = (",,;", "G      1", "\n");

const D: Line = ("     158", "D      1", "\n");

const P: Line = ("158,1.,,,;", "P      1", "\n");

#[test]
fn first_faults(rt: HostRuntime) -> Result<(), Fail> {
    one_reading();
    one_fault();
    let alloc = rt.alloc();
    let cases: [(&[Line], &str); 29] = [
        (&[], "NoTerminate"),
        (&[S, G, D, P], "NoTerminate"),
        (&[S, ("", "G      1", "")], "NoTerminate"),
        (&[S, ("", "G      2", "")], "BadSequence 2"),
        (&[("", "S     1", "\n")], "ShortLine 1"),
        (&[("", "C     1", "\n")], "ShortLine 1"),
        (&[S, ("", "", "\r\n")], "ShortLine 2"),
        (&[S, ("", "G      1x", "\n")], "LongLine 2"),
        (&[S, ("", "G      1\r", "\r\n")], "LongLine 2"),
        (&[("", "C      1", "\n")], "NotFixed"),
        (&[("", "B      9", "\n")], "NotFixed"),
        (&[("", "G      1", "\n")], "BadSection 1"),
        (&[S, ("", "C      1", "\n")], "BadSection 2"),
        (&[S, ("", "T      1", "\n")], "BadSection 2"),
        (&[S, G, ("", "P      1", "\n")], "BadSection 3"),
        (&[S, G, D, P, ("", "D      2", "\n")], "BadSection 5"),
        (&[("", "S      2", "\n")], "BadSequence 1"),
        (&[S, ("", "S      1", "\n")], "BadSequence 2"),
        (&[S, ("", "G       ", "\n")], "BadSequence 2"),
        (&[S, ("", "G     +1", "\n")], "BadSequence 2"),
        (&[S, ("", "S    0 2", "\n")], "BadSequence 2"),
        (
            &[S, G, ("S      1G      1D      0", "T      1", "\n")],
            "BadTerminate",
        ),
        (
            &[S, G, ("S      2G      1D      0Q      0", "T      1", "\n")],
            "BadTerminate",
        ),
        (
            &[S, G, ("S      1G      1D      0P     -0", "T      1", "\n")],
            "BadTerminate",
        ),
        (
            &[S, G, ("S      1G      1D      0P      0", "T      1\r", "")],
            "LongLine 3",
        ),
        (
            &[
                S,
                G,
                D,
                P,
                ("S      2G      2D      2P      2", "T      1", "\n"),
            ],
            "CountMismatch S 2 1",
        ),
        (
            &[
                S,
                G,
                D,
                P,
                ("S      1G      2D      2P      2", "T      1", "\n"),
            ],
            "CountMismatch G 2 1",
        ),
        (
            &[
                S,
                G,
                D,
                P,
                ("S      1G      1D      0P      2", "T      1", "\n"),
            ],
            "CountMismatch D 0 1",
        ),
        (
            &[
                S,
                G,
                D,
                P,
                ("S      1G      1D      1P9999999", "T      1", ""),
            ],
            "CountMismatch P 9999999 1",
        ),
    ];
    for (lines, want) in cases {
        let text = text_of(alloc, lines)?;
        let words = words_of(alloc, &text)?;
        assert_eq!(rt; words.as_slice(), want.as_bytes(), "the words are {want}");
    }
    Ok(())
}

/// What is after the terminate line in each test.
const BEHIND: &str = "@1 point 1 0 0 0\n";

#[test]
fn read_files(rt: HostRuntime) -> Result<(), Fail> {
    let alloc = rt.alloc();
    let cases: [(&[Line], usize, usize); 4] = [
        (
            &[S, G, ("S      1G      1D      0P      0", "T      1", "\n")],
            0,
            243,
        ),
        (
            &[
                S,
                G,
                D,
                P,
                ("S1      G0000001D\t1     P 1     ", "T1      ", "\n"),
            ],
            1,
            405,
        ),
        (
            &[
                S,
                G,
                D,
                P,
                ("S      1G      1D      1P      1", "T      1 \t", "\n"),
            ],
            1,
            407,
        ),
        (
            &[
                ("", "S      1", "\r\n"),
                ("", "G0000001   ", "\r\n"),
                ("", "D 1     ", "\r\n"),
                ("", "P1      ", "\n"),
                ("S      1G      1D      1P      1", "T      1", "\r\n"),
            ],
            1,
            412,
        ),
    ];
    for (lines, records, end) in cases {
        let mut text = text_of(alloc, lines)?;
        text.extend_from_slice(BEHIND.as_bytes())?;
        let cards = read_cards(alloc, &text)?;
        assert_eq!(rt; cards.end, end);
        assert_eq!(rt; cards.start.len(), 1);
        assert_eq!(rt; cards.global.len(), 72);
        assert_eq!(rt; cards.directory.len(), records);
        assert_eq!(rt; cards.params.len(), records);
    }
    Ok(())
}

#[test]
fn kept_columns(rt: HostRuntime) -> Result<(), Fail> {
    let alloc = rt.alloc();
    let last = ("S      1G      1D      1P      1", "T      1", "");
    let text = text_of(alloc, &[S, G, D, P, last])?;
    let cards = read_cards(alloc, &text)?;
    assert_eq!(rt; cards.end, text.len());
    assert_eq!(rt; cards.global.as_slice().starts_with(b",,; "), true);
    for line in cards.start.as_slice() {
        assert_eq!(rt; line.len(), 72);
    }
    for (lines, width) in [(&cards.directory, 80), (&cards.params, 64)] {
        for at in 0..lines.len() {
            assert_eq!(rt; lines.get(at).len(), width);
        }
    }
    Ok(())
}

#[test]
fn displayed(rt: HostRuntime) -> Result<(), Fail> {
    let alloc = rt.alloc();
    let text = format!(in alloc; "{}", CardFault::ShortLine(3))?;
    assert_eq!(rt; text.as_str(), "line 3 has fewer than 80 columns");
    Ok(())
}
