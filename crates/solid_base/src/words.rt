ghost use Rattle.std.specs.Prelude.{◌≡◌, ◌++◌, decimal, IfOk, OnOk, OnErr};

use crate::lists::Bytes;
use itoa::Buffer;
use std::alloc::{AllocError, Global};

/// A text of its own with these bytes.
pub fn word(alloc: Global, text: &[u8]) -> Result<Bytes, AllocError>
    ensures { IfOk result (λ words. words ≡ text.now) }
{
    let mut words = Bytes::new(alloc);
    words.extend_from_slice(text)?;
    Ok(words)
}

/// Writes a number after a text, in decimal. When out of memory the text is unchanged.
pub fn push_decimal(words: &mut Bytes, number: u32) -> Result<(), AllocError>
    ensures ok { OnOk result (words.new ≡ words.old ++ decimal number) }
    ensures err { OnErr result (words.new ≡ words.old) }
{
    let mut buffer = Buffer::new();
    words.extend_from_slice(buffer.format(number).as_bytes())
}

/// A text and a number after it, in decimal.
pub fn word_and_number(alloc: Global, text: &[u8], number: u32) -> Result<Bytes, AllocError>
    ensures { IfOk result (λ words. words ≡ text.now ++ decimal number) }
{
    let mut words = word(alloc, text)?;
    push_decimal(&mut words, number)?;
    Ok(words)
}

#[cfg(test)]
mod tests {
    use super::*;

    #[test]
    fn writes_words_and_numbers(rt: HostRuntime) -> Result<(), AllocError> {
        let mut words = word_and_number(rt.alloc(), b"BadField ", 13)?;
        push_decimal(&mut words, 0)?;
        let want: &[u8] = b"BadField 130";
        assert_eq!(rt; words.as_slice(), want);
        Ok(())
    }
}
