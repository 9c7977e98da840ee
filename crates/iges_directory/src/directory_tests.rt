ghost use Rattle.std.specs.Prelude.{◌≡◌, length, IfOk};
ghost use Rattle.std.specs.List.{AllByRecursion};

use crate::{DirFault, read_directory};
use solid_base::{BorrowedLines, Bytes};
use std::alloc::{AllocError, Global};
use std::test::Fail;

fn lines_of<'a>(alloc: Global, texts: &'a [[u8; 80]]) -> Result<BorrowedLines<'a>, AllocError>
    ensures { IfOk result (λ lines. AllByRecursion (λ line. length line ≡ 80) lines) }
{
    let mut lines = BorrowedLines::new(alloc);
    for text in texts {
        lines.push(text)?;
    }
    Ok(lines)
}

/// The words of the fault of a directory, or `read`.
fn words_of(alloc: Global, texts: &[[u8; 80]], params: u32) -> Result<Bytes, Fail> {
    let lines = lines_of(alloc, texts)?;
    match read_directory(alloc, &lines, params) {
        Ok(_) => Ok(Bytes::from_vec(Vec::from_slice(alloc, b"read")?)),
        Err(fault) if fault.number() == 1 => Err(Fail::from(fault)),
        Err(fault) => Ok(fault.write_fault(alloc)?),
    }
}

#[test]
fn first_faults(rt: HostRuntime) -> Result<(), Fail> {
    let alloc = rt.alloc();
    let cases: [(u32, &[[u8; 80]], &str); 16] = [
        (0, &[], "read"),
        (
            1,
            &[*b"     158       1                                       0        00000000D      1"],
            "OddLines",
        ),
        (
            1,
            &[
                *b"     158       1                                       0        00000000D      1",
                *b"     158                       1       0                                D      2",
            ],
            "read",
        ),
        (
            1,
            &[
                *b"+158          01                                      -0        00000000D      1",
                *b"                               1                                        D      2",
            ],
            "read",
        ),
        (
            1,
            &[
                *b"     1 8       1                                       0        00000000D      1",
                *b"       x                       1       0                                D      2",
            ],
            "BadField 1 1",
        ),
        (
            1,
            &[
                *b"  100000       1                                       0        00000000D      1",
                *b"     158                       1       0                                D      2",
            ],
            "BadField 1 1",
        ),
        (
            1,
            &[
                *b"     158       0                                       0        00000000D      1",
                *b"      -1                       1       0                                D      2",
            ],
            "BadField 1 11",
        ),
        (
            1,
            &[
                *b"     158       0                                       0        00000000D      1",
                *b"       0                       1       0                                D      2",
            ],
            "TypeDiffers 1",
        ),
        (
            1,
            &[
                *b"     158                                               0        00000000D      1",
                *b"     158                       0       0                                D      2",
            ],
            "BadField 1 2",
        ),
        (
            1,
            &[
                *b"     158       2                                       0        00000000D      1",
                *b"     158                       1       0                                D      2",
            ],
            "BadField 1 2",
        ),
        (
            3,
            &[
                *b"     158       2                                       -        00000000D      1",
                *b"     158                       3       0                                D      2",
            ],
            "BadField 1 14",
        ),
        (
            3,
            &[
                *b"     158       1                                       0        00000000D      1",
                *b"     158                       0       0                                D      2",
            ],
            "BadField 1 14",
        ),
        (
            600000,
            &[
                *b"     158       1                                       0        00000000D      1",
                *b"     158                  500000       0                                D      2",
                *b"     158       1                                       x        00000000D      3",
                *b"     158                       1       0                                D      4",
            ],
            "TooMuchText 3",
        ),
        (
            600000,
            &[
                *b"     158       1                                       0        00000000D      1",
                *b"     158                  500000       0                                D      2",
                *b"       0       x                                       0        00000000D      3",
                *b"                               1       0                                D      4",
                *b"       0       1                                       0        00000000D      5",
                *b"       1                       1       0                                D      6",
            ],
            "TypeDiffers 5",
        ),
        (
            1,
            &[
                *b"     158       1                                10000000        00000000D      1",
                *b"     158                       1       x                                D      2",
            ],
            "BadField 1 7",
        ),
        (
            1,
            &[
                *b"     158       1                                       0        00000000D      1",
                *b"     158                       1  100000                                D      2",
            ],
            "BadField 1 15",
        ),
    ];
    for (params, texts, words) in cases {
        assert_eq!(rt;
            words_of(alloc, texts, params)?.as_slice(),
            words.as_bytes()
        );
    }
    Ok(())
}

#[test]
fn fields_of_entries(rt: HostRuntime) -> Result<(), Fail> {
    let alloc = rt.alloc();
    let texts = [
        *b"     180       2      3s      4f      5l      6v      17      8d00010001D      1",
        *b"     180     12w     13c       3       1     16r     17r     18n     19sD      2",
        *b"       0       x      3s                               0        00000000D      3",
        *b"                               1       0                                D      4",
    ];
    let lines = lines_of(alloc, &texts)?;
    let pairs = read_directory(alloc, &lines, 4)?;
    assert_eq!(rt; pairs.len(), 2);
    let read = &pairs[0];
    assert_eq!(rt;
        (read.kind, read.first, read.count, read.matrix, read.form),
        (180, 2, 3, 17, 1)
    );
    assert_eq!(rt;
        read.attrs.as_slice(),
        b"      3s      4f      5l      6v      8d00010001     12w     13c     16r     17r     18n     19s".as_slice()
    );
    let null = &pairs[1];
    assert_eq!(rt;
        (null.kind, null.first, null.count, null.matrix, null.form),
        (0, 0, 0, 0, 0)
    );
    assert_eq!(rt;
        null.attrs.as_slice(),
        b"                                        00000000                                                ".as_slice()
    );
    Ok(())
}
