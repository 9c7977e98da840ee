use crate::{GlobalFault, read_global};
use std::alloc::AllocError;

/// What a text is read as: its delimiters and the number of its parameters from the third on, or
/// the index of its first faulty parameter.
#[derive(Clone, Copy)]
enum Want {
    Found(u8, u8, usize),
    Bad(u32),
}

#[test]
fn reads_global_sections(rt: HostRuntime) -> Result<(), AllocError> {
    let cases: [(&[u8], Want); 30] = [
        (b",,;", Want::Found(b',', b';', 1)),
        (b",;", Want::Found(b',', b';', 0)),
        (b" , ;1", Want::Found(b',', b';', 0)),
        (b"1H,,1H;,4Hpart,1.,;", Want::Found(b',', b';', 3)),
        (b"1H//1H?/2H/?/1?", Want::Found(b'/', b'?', 2)),
        (b"1H;;1H,,", Want::Found(b';', b',', 0)),
        (b"1H;;1H,;1,", Want::Found(b';', b',', 1)),
        (b" 1H, ,\t1H; ,,,;", Want::Found(b',', b';', 3)),
        (b"1H//;", Want::Found(b'/', b';', 0)),
        (b"", Want::Bad(1)),
        (b"   ", Want::Bad(1)),
        (b";", Want::Bad(1)),
        (b"1H,", Want::Bad(1)),
        (b"1H,;", Want::Bad(1)),
        (b"1H;,", Want::Bad(1)),
        (b"1H  ,", Want::Bad(1)),
        (b"1HEE1H;;", Want::Bad(1)),
        (b"01H,,", Want::Bad(1)),
        (b"1h,,", Want::Bad(1)),
        (b",", Want::Bad(2)),
        (b",1H;", Want::Bad(2)),
        (b",1H,,", Want::Bad(2)),
        (b"1H;;;", Want::Bad(2)),
        (b",1H..", Want::Bad(2)),
        (b",1H/;", Want::Bad(2)),
        (b",,", Want::Bad(3)),
        (b"1H,,1H;,", Want::Bad(3)),
        (b",,x;", Want::Bad(3)),
        (b",,1,2", Want::Bad(4)),
        (b",,1,,3Hab", Want::Bad(5)),
    ];
    for (text, want) in cases {
        assert!(rt; text.len() < 100);
        match (read_global(rt.alloc(), text), want) {
            (Ok(global), Want::Found(comma, semi, count)) => {
                assert_eq!(rt; global.comma, comma, "{text:?}");
                assert_eq!(rt; global.semi, semi, "{text:?}");
                assert_eq!(rt; global.tokens.len(), count, "{text:?}");
            }
            (Err(GlobalFault::BadGlobal(n)), Want::Bad(index)) => {
                assert_eq!(rt; n, index, "{text:?}");
            }
            _ => assert!(rt; false, "{text:?}"),
        }
    }
    Ok(())
}
