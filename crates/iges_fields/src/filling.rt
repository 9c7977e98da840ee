ghost use Rattle.std.specs.Prelude.{◌≡◌, ◌≤◌, ◌<◌, ◌-◌, ◌++◌, length, replicate, IfOk};
ghost use Rattle.iges_fields.specs.Layout.{gap, AreLines};

use solid_base::{Bytes, Lines};
use std::alloc::{AllocError, Global};

/// How many blanks stand before a piece of `size` bytes, where `used` bytes are laid before it in
/// lines of this width: none where the piece fits on its line or the line is still empty, else as
/// many as fill the line. Solidd's own.
pub fn gap(width: u64, used: u64, size: u64) -> u64
    requires { 0 < width }
    ensures { result ≡ gap width used size }
{
    let column = used % width;
    if column == 0 || size <= width - column {
        0
    } else {
        width - column
    }
}

/// A line of this width that begins with these bytes.
fn filled(alloc: Global, bytes: &[u8], width: usize) -> Result<Bytes, AllocError>
    requires { length bytes.now ≤ width }
    ensures { IfOk result (λ line. line ≡ bytes.now ++ replicate (width - length bytes.now) 32) }
{
    let mut line = Vec::from_slice(alloc, bytes)?;
    line.resize(width, b' ')?;
    Ok(Bytes::from_vec(line))
}

/// A text in lines of this width, the last one filled up with blanks; an empty text has no line.
/// AllocError when out of memory.
pub fn lines_of(alloc: Global, text: &[u8], width: usize) -> Result<Lines, AllocError>
    requires { 0 < width }
    ensures { IfOk result (AreLines width text.now) }
{
    let mut lines = Lines::new(alloc);
    let mut rest = text;
    while !rest.is_empty() {
        let (front, after) = rest.split_at(rest.len().min(width));
        lines.push(filled(alloc, front, width)?)?;
        rest = after;
    }
    Ok(lines)
}

#[cfg(test)]
mod tests {
    use super::*;

    #[test]
    fn cuts_a_text_into_lines(rt: HostRuntime) -> Result<(), AllocError> {
        let cases: [(&[u8], usize, &[&[u8]]); 4] = [
            (b"", 3, &[]),
            (b"ab", 3, &[b"ab "]),
            (b"abc", 3, &[b"abc"]),
            (b"abcd", 3, &[b"abc", b"d  "]),
        ];
        for (text, width, want) in cases {
            let lines = lines_of(rt.alloc(), text, width)?;
            assert_eq!(rt; lines.len(), want.len());
            for (line, want) in lines.as_slice().iter().zip(want.iter()) {
                assert_eq!(rt; line.as_slice(), *want);
            }
        }
        Ok(())
    }
}
