ghost use Rattle.std.specs.Prelude.{◌≡◌, IfOk};

use solid_base::Bytes;
use std::alloc::{AllocError, Global};
use thiserror::Error;

/// Why no field can be read.
#[derive(Clone, Copy, Debug, PartialEq, Eq, Error)]
pub enum FieldFault {
    /// A text's count runs past the end.
    #[error("a text's count runs past the end")]
    BadText,
    /// What stands before the delimiter is no field.
    #[error("no field")]
    BadToken,
    /// The text ends before a delimiter.
    #[error("no delimiter after the field")]
    NoEnd,
}

impl FieldFault {
    ghost use Rattle.iges_fields.specs.Faults.{number_of, words_of};

    /// The fault's number.
    pub fn number(&self) -> u32
        ensures { result ≡ number_of self.now }
    {
        match self {
            FieldFault::BadText => 2,
            FieldFault::BadToken => 3,
            FieldFault::NoEnd => 4,
        }
    }

    /// The fault's word, as it is printed.
    pub fn write_fault(&self, alloc: Global) -> Result<Bytes, AllocError>
        ensures { IfOk result (λ words. words ≡ words_of self.now) }
    {
        let word: &[u8] = match self {
            FieldFault::BadText => b"BadText",
            FieldFault::BadToken => b"BadToken",
            FieldFault::NoEnd => b"NoEnd",
        };
        let mut out = Bytes::new(alloc);
        out.extend_from_slice(word)?;
        Ok(out)
    }
}

#[cfg(test)]
mod tests {
    use super::*;

    #[test]
    fn writes_each_fault(rt: HostRuntime) -> Result<(), AllocError> {
        let cases: [(FieldFault, u32, &[u8]); 3] = [
            (FieldFault::BadText, 2, b"BadText"),
            (FieldFault::BadToken, 3, b"BadToken"),
            (FieldFault::NoEnd, 4, b"NoEnd"),
        ];
        for (fault, number, word) in cases {
            assert_eq!(rt; fault.number(), number);
            assert_eq!(rt; fault.write_fault(rt.alloc())?.as_slice(), word);
        }
        Ok(())
    }
}
