ghost use Rattle.std.specs.Prelude.{◌≡◌, ◌≤◌, ◌<◌, ◌^◌, length, IfOk, IfErr, OnOk, IsTrue};
ghost use Rattle.iges_fields.specs.Delimiters.{is_lawful, AreDelimiters};
ghost use Rattle.iges_fields.specs.Grammar.{IsField};
ghost use Rattle.iges_fields.specs.Layout.{kind_of_token, content_of_token, AreFields};
ghost use Rattle.iges_directory.specs.Global.{IsGlobal, IsFaultOf};
ghost use Rattle.iges_directory.specs.GlobalReading.{told, first_in, second_in};
ghost use Rattle.iges_directory.specs.GlobalSteps.{TellsFirst, TellsSecond, IsContent};
ghost use Rattle.iges_directory.specs.GlobalSteps.{IsOtherFault};

use crate::global_faults::GlobalFault;
use iges_fields::{Field, FieldKind, Fields};
use solid_base::{Bytes, Token, Tokens, after_blanks};
use std::alloc::{AllocError, Global};

/// What a global section holds.
#[derive(Debug, Drop)]
pub struct GlobalText {
    /// The delimiter between parameters.
    pub comma: u8,
    /// The delimiter after the last parameter.
    pub semi: u8,
    /// The parameters from the third on.
    pub tokens: Tokens,
}

/// Parameter 1, and what stands after it.
#[derive(Clone, Copy, Debug)]
struct First<'a> {
    comma: u8,
    rest: &'a [u8],
}

/// Parameter 2, whether it is the last, and what stands after it.
#[derive(Clone, Copy, Debug)]
struct Second<'a> {
    semi: u8,
    ended: bool,
    rest: &'a [u8],
}

fn is_lawful(b: u8) -> bool
    ensures { result ≡ is_lawful b }
{
    (33..=126).contains(&b)
        && !b.is_ascii_digit()
        && !matches!(b, b'+' | b'-' | b'.' | b'D' | b'E' | b'H' | b'd' | b'e')
}

/// The delimiter that a parameter tells, and what stands after its blanks.
fn told(text: &[u8], usual: u8) -> (u8, &[u8])
    ensures delimiter { result.0 ≡ (told usual text.now).0 }
    ensures rest { result.1.now ≡ (told usual text.now).1 }
{
    match after_blanks(text) {
        [b'1', b'H', b, rest @ ..] if is_lawful(*b) => (*b, after_blanks(rest)),
        rest => (usual, rest),
    }
}

#[tactic(auto, unfolding(crate::specs::GlobalReading::first_in))]
fn first_in(text: &[u8]) -> Option<First<'_>>
    ensures { TellsFirst result (first_in text.now) }
{
    let (comma, after) = told(text, b',');
    match after {
        [b, rest @ ..] if *b == comma => Some(First { comma, rest }),
        _ => None,
    }
}

#[tactic(auto, unfolding(crate::specs::GlobalReading::second_in))]
fn second_in(text: &[u8], comma: u8) -> Option<Second<'_>>
    ensures { TellsSecond result (second_in comma text.now) }
{
    let (semi, after) = told(text, b';');
    if semi == comma {
        return None;
    }
    match after {
        [b, rest @ ..] if *b == comma => Some(Second {
            semi,
            ended: false,
            rest,
        }),
        [b, rest @ ..] if *b == semi => Some(Second {
            semi,
            ended: true,
            rest,
        }),
        _ => None,
    }
}

fn token_of(alloc: Global, field: Field<'_>) -> Result<Token, AllocError>
    requires { IsContent field.kind field.text.now }
    ensures kind { IfOk result (λ token. kind_of_token token ≡ field.entry.kind) }
    ensures content { IfOk result (λ token. content_of_token token ≡ field.entry.text.now) }
{
    if field.kind == FieldKind::Empty {
        return Ok(Token::Empty);
    }
    let content = Bytes::from_vec(Vec::from_slice(alloc, field.text)?);
    Ok(match field.kind {
        FieldKind::Empty => Token::Empty,
        FieldKind::Whole => Token::Whole(content),
        FieldKind::Real => Token::Real(content),
        FieldKind::Text => Token::Text(content),
    })
}

/// The fields up to the one that `semi` ends.
fn read_fields(alloc: Global, text: &[u8], comma: u8, semi: u8) -> Result<Tokens, GlobalFault>
    requires size { length text.now ≤ 2 ^ 25 }
    requires delimiters { AreDelimiters comma semi }
    ensures some { IfOk result (λ tokens. 0 < length tokens) }
    ensures fields { IfOk result (AreFields comma semi text.now) }
    ensures fault { IfErr result (IsOtherFault comma semi text.now) }
{
    let mut tokens = Tokens::new(alloc);
    let mut fields = Fields::new(text, comma, semi);
    loop {
        match fields.next() {
            Ok(Some(field)) => tokens.push(token_of(alloc, field)?)?,
            Ok(None) => return Ok(tokens),
            Err(_) => return Err(GlobalFault::BadGlobal(tokens.len() as u32 + 3)),
        }
    }
}

/// Reads the text of a global section, of at most 2^25 bytes.
///
/// Parameter 1 tells `comma`, which stands between parameters, and parameter 2 tells `semi`, which
/// ends the last; what stands after `semi` isn't read. Each is `1H` and the delimiter, or empty,
/// which stands for `,` and for `;`. The delimiters are lawful and differ. The parameters after
/// these are fields, of any number and with any values.
///
/// BadGlobal comes with the index of the first faulty parameter, counted from 1: it is no field,
/// tells no lawful delimiter or `comma` again, or has no delimiter after it. Memory comes when out
/// of memory.
pub fn read_global(alloc: Global, text: &[u8]) -> Result<GlobalText, GlobalFault>
    requires size { length text.now ≤ 2 ^ 25 }
    ensures found { IfOk result (IsGlobal text.now) }
    ensures first_fault { IfErr result (IsFaultOf text.now) }
{
    let Some(first) = first_in(text) else {
        return Err(GlobalFault::BadGlobal(1));
    };
    let comma = first.comma;
    let Some(second) = second_in(first.rest, comma) else {
        return Err(GlobalFault::BadGlobal(2));
    };
    let semi = second.semi;
    let tokens = if second.ended {
        Tokens::new(alloc)
    } else {
        read_fields(alloc, second.rest, comma, semi)?
    };
    Ok(GlobalText {
        comma,
        semi,
        tokens,
    })
}
