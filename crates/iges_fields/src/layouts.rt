ghost use Rattle.std.specs.Prelude.{◌≡◌, ◌⊎◌, ℕ, ◌+◌, ◌-◌, ◌<◌, ◌≤◌, ◌++◌, ◌==◌, List, length};
ghost use Rattle.std.specs.Prelude.{replicate, IfOk, OnOk};
ghost use Rattle.std.specs.List.{concat};
ghost use Rattle.iges_fields.specs.Delimiters.{AreDelimiters};
ghost use Rattle.iges_fields.specs.Grammar.{delimiter};
ghost use Rattle.iges_fields.specs.Layout.{spelling_of_token, piece, gap, placed, laid, AreSpelt};
ghost use Rattle.iges_fields.specs.Layout.{AreHeld, IsHeld, IsSpelt, AreLines, Reads};

use crate::filling::{gap, lines_of};
use itoa::Buffer;
use solid_base::{Lines, Token, Tokens};
use std::alloc::{AllocError, Global};

fn push_spelling(out: &mut Vec<u8>, token: &Token) -> Result<(), AllocError>
    ensures spelt { OnOk result (out.new.items ≡ out.old.items ++ spelling_of_token token.now) }
    ensures held { OnOk result (IsHeld token.now) }
{
    match token {
        Token::Empty => Ok(()),
        Token::Whole(text) => out.extend_from_slice(text.as_slice()),
        Token::Real(text) => out.extend_from_slice(text.as_slice()),
        Token::Text(text) => {
            let mut buffer = Buffer::new();
            out.extend_from_slice(buffer.format(text.len()).as_bytes())?;
            out.push(b'H')?;
            out.extend_from_slice(text.as_slice())
        }
    }
}

/// Makes a token with the delimiter after it, in the room of the piece before.
fn make_piece(out: &mut Vec<u8>, token: &Token, delimiter: u8) -> Result<(), AllocError>
    ensures made { OnOk result (out.new.items ≡ piece delimiter token.now) }
    ensures held { OnOk result (IsHeld token.now) }
{
    out.clear();
    push_spelling(out, token)?;
    out.push(delimiter)?;
    Ok(())
}

/// The delimiter after the token at a place.
fn delimiter(place: usize, count: usize, comma: u8, semi: u8) -> u8
    requires { place < count }
    ensures { result ≡ delimiter comma semi (place + 1 == count) }
{
    if place + 1 == count { semi } else { comma }
}

fn place(out: &mut Vec<u8>, bytes: &[u8], width: usize) -> Result<(), AllocError>
    requires { 0 < width }
    ensures { OnOk result (out.new.items
        ≡ out.old.items ++ placed width (length out.old.items) bytes.now) }
{
    let blanks = gap(width as u64, out.len() as u64, bytes.len() as u64) as usize;
    let start = out.len().checked_add(blanks).ok_or(AllocError)?;
    out.resize(start, b' ')?;
    out.extend_from_slice(bytes)?;
    Ok(())
}

fn laid(
    alloc: Global,
    tokens: &[Token],
    comma: u8,
    semi: u8,
    width: usize,
) -> Result<Vec<u8>, AllocError>
    requires { 0 < width }
    ensures laid { IfOk result (λ text. text.items ≡ laid width comma semi 0 tokens.now) }
    ensures held { IfOk result (λ text. AreHeld tokens.now) }
{
    let mut text = Vec::new(alloc);
    let mut piece = Vec::new(alloc);
    for at in 0..tokens.len() {
        make_piece(
            &mut piece,
            &tokens[at],
            delimiter(at, tokens.len(), comma, semi),
        )?;
        place(&mut text, &piece, width)?;
    }
    Ok(text)
}

/// The lines in which tokens are written, each of this many columns. Each token has a delimiter
/// after it, `semi` the last and `comma` the others, and they lie one after the other; but a token
/// that would run past its line's end starts on the next line, if anything stands before it, and
/// may then run on over several. The last line is filled up with blanks.
pub fn lay(
    alloc: Global,
    tokens: &Tokens,
    comma: u8,
    semi: u8,
    width: usize,
) -> Result<Lines, AllocError>
    requires wide { (width ≡ 64) ⊎ (width ≡ 72) }
    requires some { 0 < length tokens.now }
    requires spelt { AreSpelt tokens.now }
    requires delimiters { AreDelimiters comma semi }
    ensures laid { IfOk result (AreLines width (laid width comma semi 0 tokens.now)) }

    // Whatever stands after the lines, they read back as the tokens.
    ensures reads_back { IfOk result (λ lines. (after : List ℕ) →
        Reads comma semi (concat lines ++ after) tokens.now) }
{
    let text = laid(alloc, tokens.as_slice(), comma, semi, width)?;
    lines_of(alloc, text.as_slice(), width)
}

#[cfg(test)]
mod tests {
    use super::*;
    use crate::kinds::FieldKind;
    use crate::scan::kind_of;
    use solid_base::Bytes;

    fn number(alloc: Global, text: &[u8]) -> Result<Token, AllocError>
        ensures { IfOk result IsSpelt }
    {
        let bytes = Bytes::from_vec(Vec::from_slice(alloc, text)?);
        match kind_of(text) {
            Some(FieldKind::Whole) => Ok(Token::Whole(bytes)),
            Some(FieldKind::Real) => Ok(Token::Real(bytes)),
            _ => Ok(Token::Empty),
        }
    }

    fn text_of(alloc: Global, size: usize) -> Result<Token, AllocError>
        ensures { IfOk result IsSpelt }
    {
        let mut bytes = Vec::new(alloc);
        bytes.resize(size, b',')?;
        Ok(Token::Text(Bytes::from_vec(bytes)))
    }

    #[test]
    fn lays_tokens_where_they_fit(rt: HostRuntime) -> Result<(), AllocError> {
        let alloc = rt.alloc();
        // The size of a text of commas between two numbers, how many lines there are, and the
        // column of the last at which the second number begins.
        let cases = [
            (0, 1, 7),
            (52, 1, 60),
            (53, 1, 61),
            (54, 2, 0),
            (56, 2, 0),
            (57, 2, 61),
            (58, 3, 0),
            (124, 4, 1),
        ];
        for (size, count, column) in cases {
            let mut tokens = Tokens::new(alloc);
            tokens.push(number(alloc, b"158")?)?;
            tokens.push(text_of(alloc, size)?)?;
            tokens.push(number(alloc, b"1.")?)?;
            let lines = lay(alloc, &tokens, b',', b';', 64)?;
            assert_eq!(rt; lines.len(), count, "at {size}");
            for line in lines.as_slice() {
                assert_eq!(rt; line.len(), 64, "at {size}");
            }
            let Some(last) = lines.as_slice().last() else {
                return Ok(());
            };
            assert!(rt; column <= last.len());
            let end = &last.as_slice()[column..];
            assert!(rt; end.starts_with(b"1.;"), "at {size}");
        }
        Ok(())
    }
}
