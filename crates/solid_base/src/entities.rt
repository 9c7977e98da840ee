ghost use Rattle.std.specs.Prelude.{◌≡◌, IfOk};
ghost use Rattle.solid_base.specs.Texts.{blank_attributes};

use crate::lists::{Bytes, Lines, List};
use crate::rows::Rows;
use crate::solids::Row;
use std::alloc::{AllocError, Global};

/// A field of a record: nothing, or a number or text as it is spelt. Of a text, the content alone.
#[derive(Debug, Drop, Clone, PartialEq, Eq)]
pub enum Token {
    Empty,
    Whole(Bytes),
    Real(Bytes),
    Text(Bytes),
}

/// Fields, in order.
pub type Tokens = List<Token>;

/// One entity: its row, the 96 bytes of directory fields that are kept unread, and the fields after
/// its defined parameters.
#[derive(Debug, Drop, Clone, PartialEq, Eq)]
pub struct Entity {
    pub row: Row,
    pub attrs: Bytes,
    pub tail: Tokens,
}

/// A model: the start lines, the delimiters, the global parameters from the third on, and the rows,
/// of which that at place `i` has the number `2i + 1`.
#[derive(Debug, Drop)]
pub struct Model {
    pub start: Lines,
    pub comma: u8,
    pub semi: u8,
    pub global: Tokens,
    pub rows: Rows,
}

/// The type, form, matrix and record of an entity that is to be read. The record is one line of at
/// most 2^25 bytes.
#[derive(Debug, Drop, Clone, PartialEq, Eq)]
pub struct RowText {
    pub kind: u32,
    pub form: u32,
    pub matrix: u32,
    pub text: Bytes,
}

/// The 96 bytes of directory fields of an entity that has none of its own: blanks, and zeros in the
/// eight of field 9. AllocError when out of memory.
pub fn blank_attributes(alloc: Global) -> Result<Bytes, AllocError>
    ensures { IfOk result (λ attrs. attrs ≡ blank_attributes) }
{
    let mut attrs = Vec::with_capacity(alloc, 96)?;
    attrs.resize(40, b' ')?;
    attrs.resize(48, b'0')?;
    attrs.resize(96, b' ')?;
    Ok(Bytes::from_vec(attrs))
}

#[cfg(test)]
mod tests {
    use super::*;

    #[test]
    fn writes_blank_attributes(rt: HostRuntime) -> Result<(), AllocError> {
        let attrs = blank_attributes(rt.alloc())?;
        assert_eq!(rt; attrs.len(), 96);
        assert_eq!(rt; &attrs.as_slice()[38..50], b"  00000000  ".as_slice());
        Ok(())
    }
}
