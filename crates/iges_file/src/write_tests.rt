use crate::read_file;
use iges_write::{append_model, file_lines, write_model};
use solid_base::{Bytes, word};
use std::alloc::{AllocError, Global};

/// A file of a matrix, a place that holds nothing, a sphere that has a name, an instance of it and
/// an entity that isn't read, as it is written.
const LINES: [&str; 19] = [
    "One sphere of radius 1.                                                 S      1",
    "1H,,1H;,4Hdemo;                                                         G      1",
    "     124       1                                       0        00000000D      1",
    "     124                       2       0                                D      2",
    "       0       3                                       0        00000000D      3",
    "       0                       1       0                                D      4",
    "     158       4       0       1       2       3       0       400010001D      5",
    "     158       5       6       1       0                        BALL   1D      6",
    "     430       5                                       1        00000000D      7",
    "     430                       1       0                                D      8",
    "     406       6                                       7        00000000D      9",
    "     406                       1      15                                D     10",
    "124,1.0,0.0,0.0,1000.0625,0.0,1.0,0.0,2000.0625,0.0,0.0,1.0,           1P      1",
    "3000.0625;                                                             1P      2",
    "0;                                                                     3P      3",
    "158,1.0,0.0,0.0,0.0,1,3Ha;b;                                           5P      4",
    "430,5;                                                                 7P      5",
    " 406,1,7HBRACKET                                                       9P      6",
    "S      1G      1D     10P      6                                        T      1",
];

fn text_of(alloc: Global, lines: &[&str]) -> Result<Vec<u8>, AllocError> {
    let mut text = Vec::new(alloc);
    for line in lines {
        text.extend_from_slice(line.as_bytes())?;
        text.push(b'\n')?;
    }
    Ok(text)
}

#[test]
fn writes_what_it_reads(rt: HostRuntime) -> Result<(), AllocError> {
    let alloc = rt.alloc();
    let bytes = text_of(alloc, &LINES)?;
    assert!(rt; bytes.len() <= 10_000);
    match read_file(alloc, &bytes) {
        Ok(read) => {
            let model = read.model;
            assert_eq!(rt; write_model(alloc, &model)?.as_slice(), bytes.as_slice());
            assert_eq!(rt; read.lines, 6);
            assert_eq!(rt; file_lines(alloc, &model, read.lines)?, 19);
            let mut out = word(alloc, b"0 EXPORT 19\n")?;
            assert_eq!(rt; append_model(alloc, &mut out, &model)?, 19);
            assert_eq!(rt; &out.as_slice()[12..], bytes.as_slice());
        }
        Err(fault) => assert!(rt; false, "{fault:?}"),
    }
    Ok(())
}
