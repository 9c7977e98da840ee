ghost use Rattle.std.specs.Prelude.{◌≡◌, ◌<◌, [], ◌∷◌, ◌++◌, length, slice_get, OnOk, OnErr};

use std::alloc::{AllocError, Global};
use std::marker::Model;

/// Lines that stand in a text, which they borrow. Contracts see them as `Lines`.
#[derive(Debug, Drop)]
pub struct BorrowedLines<'a> {
    items: Vec<&'a [u8]>,
}

impl<'a> Model for BorrowedLines<'a> {
    ghost use Rattle.std.specs.Prelude.{List, ℕ, map};

    ghost Value = { List (List ℕ) };

    ghost view = { λ lines. map (λ line. line.now) lines.items.items };
}

impl<'a> BorrowedLines<'a> {
    /// No lines, which take no memory yet.
    pub fn new(alloc: Global) -> BorrowedLines<'a>
        ensures { result ≡ [] }
    {
        BorrowedLines {
            items: Vec::new(alloc),
        }
    }

    /// How many lines there are.
    pub fn len(&self) -> usize
        ensures { result ≡ length self.now }
    {
        self.items.len()
    }

    /// The line at a place, counted from 0.
    pub fn get(&self, at: usize) -> &'a [u8]
        requires { at < length self.now }
        ensures { slice_get self.now at ≡ Some result.now }
    {
        self.items[at]
    }

    /// Adds a line at the end. When out of memory the lines are unchanged.
    pub fn push(&mut self, line: &'a [u8]) -> Result<(), AllocError>
        ensures ok { OnOk result (self.new ≡ self.old ++ line.now ∷ []) }
        ensures err { OnErr result (self.new ≡ self.old) }
    {
        self.items.push(line)?;
        Ok(())
    }
}

#[cfg(test)]
mod tests {
    use super::*;

    #[test]
    fn keeps_lines_in_order(rt: HostRuntime) -> Result<(), AllocError> {
        let text: &[u8] = b"one two";
        let mut lines = BorrowedLines::new(rt.alloc());
        lines.push(&text[..3])?;
        lines.push(&text[4..])?;
        assert_eq!(rt; lines.len(), 2);
        assert_eq!(rt; lines.get(0), &text[..3]);
        assert_eq!(rt; lines.get(1), &text[4..]);
        Ok(())
    }
}
