ghost use Rattle.std.specs.Prelude.{◌≡◌, ◌≤◌, ◌<◌, ◌-◌, ◌++◌, [], ◌∷◌, List, OnOk, IfOk, length};
ghost use Rattle.std.specs.Prelude.{replicate, take, decimal};
ghost use Rattle.solid_base.specs.declared.entities.Token.{Token as token};
ghost use Rattle.solid_base.specs.Ranges.{IsLawfulRow};
ghost use Rattle.decimal_scale.specs.Writing.{real_text};
ghost use Rattle.iges_fields.specs.Layout.{spelling_of_token, gap, laid};
ghost use Rattle.iges_parameters.specs.Writing.{tokens_of, kept_text, record_text};
ghost use Rattle.iges_parameters.specs.WrittenRows.{IsLaid};
ghost use Rattle.iges_parameters.specs.LaidTexts.{laid_piece, laid_after};

use crate::writing::RECORD_COLUMNS;
use crate::writing::row_tokens::push_record;
use crate::writing::tokens::TokenSink;
use decimal_scale::push_real;
use iges_fields::gap;
use itoa::Buffer;
use solid_base::{Bytes, Entity, Row, Token};
use std::alloc::AllocError;

/// A line of blanks.
const BLANKS: [u8; RECORD_COLUMNS] = [b' '; RECORD_COLUMNS];

/// Tokens as they lie in lines of 64 columns, one after the other, each with `comma` after it.
#[derive(Drop)]
pub struct LaidText {
    pub text: Bytes,
    pub comma: u8,
}

impl TokenSink for LaidText {
    ghost use Rattle.std.proofs.Common.{ap};
    ghost use Rattle.iges_parameters.specs.LaidTexts.{laid_none, laid_more};

    type Error = AllocError;

    ghost with = { λ laid tokens.
        record { text = laid_after laid.comma laid.text tokens; comma = laid.comma } };

    ghost with_none = { λ laid.
        ap (λ text. record { text = text; comma = laid.comma }) (laid_none laid.comma laid.text) };

    ghost with_more = { λ laid tokens more.
        ap (λ text. record { text = text; comma = laid.comma })
        (laid_more laid.comma laid.text tokens more) };

    #[tactic(auto, unfolding(crate::specs::LaidTexts::laid_after))]
    fn push_whole(&mut self, number: i64) -> Result<(), AllocError> {
        let mut buffer = Buffer::new();
        lay_bytes(&mut self.text, buffer.format(number).as_bytes(), self.comma)
    }

    #[tactic(auto, unfolding(crate::specs::LaidTexts::laid_after))]
    fn push_real(&mut self, steps: i128) -> Result<(), AllocError> {
        lay_real(&mut self.text, steps, self.comma)
    }

    #[tactic(auto, unfolding(crate::specs::LaidTexts::laid_after))]
    fn push_token(&mut self, token: &Token) -> Result<(), AllocError> {
        lay_token(&mut self.text, token, self.comma)
    }
}

/// Writes so many blanks, a line of them at most.
fn push_blanks(text: &mut Bytes, count: usize) -> Result<(), AllocError>
    requires { count ≤ 64 }
    ensures { OnOk result (text.new ≡ text.old ++ replicate count 32) }
{
    text.extend_from_slice(&BLANKS[..count])
}

/// The blanks before a piece of so many bytes.
fn blanks_before(used: usize, size: u64) -> usize
    ensures value { result ≡ gap 64 used size }
    ensures within { result ≤ 64 }
{
    gap(RECORD_COLUMNS as u64, used as u64, size) as usize
}

/// Fills the line up with blanks where a piece of so many bytes would run past its end.
fn begin_piece(text: &mut Bytes, size: u64) -> Result<(), AllocError>
    ensures { OnOk result (text.new ≡ text.old ++ replicate (gap 64 (length text.old) size) 32) }
{
    let blanks = blanks_before(text.len(), size);
    push_blanks(text, blanks)
}

/// Writes a spelling and the delimiter after it, where it lies.
fn lay_bytes(text: &mut Bytes, bytes: &[u8], comma: u8) -> Result<(), AllocError>
    ensures { OnOk result (text.new ≡ laid_piece text.old (bytes.now ++ comma ∷ [])) }
{
    begin_piece(text, (bytes.len() as u64).checked_add(1).ok_or(AllocError)?)?;
    text.extend_from_slice(bytes)?;
    text.push(comma)
}

/// Writes a token and the delimiter after it, where it lies.
fn lay_token(text: &mut Bytes, token: &Token, comma: u8) -> Result<(), AllocError>
    ensures { OnOk result (text.new
        ≡ laid_piece text.old (spelling_of_token token.now ++ comma ∷ [])) }
{
    match token {
        Token::Empty => lay_bytes(text, &[], comma),
        Token::Whole(spelling) | Token::Real(spelling) => {
            lay_bytes(text, spelling.as_slice(), comma)
        }
        Token::Text(bytes) => lay_text(text, bytes.as_slice(), comma),
    }
}

/// Writes a text as its count, H and its bytes, and the delimiter after it, where it lies.
fn lay_text(text: &mut Bytes, bytes: &[u8], comma: u8) -> Result<(), AllocError>
    ensures { OnOk result (text.new
        ≡ laid_piece text.old ((decimal (length bytes.now) ++ 72 ∷ bytes.now) ++ comma ∷ [])) }
{
    let mut buffer = Buffer::new();
    let count = buffer.format(bytes.len()).as_bytes();
    let more = count.len() as u64 + 2;
    begin_piece(
        text,
        (bytes.len() as u64).checked_add(more).ok_or(AllocError)?,
    )?;
    text.extend_from_slice(count)?;
    text.push(b'H')?;
    text.extend_from_slice(bytes)?;
    text.push(comma)
}

/// Writes a real number of steps and the delimiter after it.
fn push_piece(text: &mut Bytes, steps: i128, comma: u8) -> Result<(), AllocError>
    ensures { OnOk result (text.new ≡ text.old ++ (real_text steps 12 ++ comma ∷ [])) }
{
    push_real(text, steps, 12)?;
    text.push(comma)
}

/// Writes a real number of steps and the delimiter after it, where it lies.
fn lay_real(text: &mut Bytes, steps: i128, comma: u8) -> Result<(), AllocError>
    ensures { OnOk result (text.new ≡ laid_piece text.old (real_text steps 12 ++ comma ∷ [])) }
{
    let start = text.len();
    push_piece(text, steps, comma)?;
    let blanks = blanks_before(start, (text.len() - start) as u64);
    if blanks == 0 {
        return Ok(());
    }
    // It runs past its line's end, so it stands on the next one.
    text.truncate(start);
    push_blanks(text, blanks)?;
    push_piece(text, steps, comma)
}

/// The text of an entity's record as it lies in the lines that `row_lines` makes, without the
/// blanks that fill the last one. It stands in the room of an earlier text, whatever that is.
/// AllocError when out of memory.
pub fn row_text(room: Bytes, entity: &Entity, comma: u8, semi: u8) -> Result<Bytes, AllocError>
    requires lawful { IsLawfulRow entity.now.row }
    ensures { IfOk result (λ text.
        text ≡ record_text comma semi entity.now.row entity.now.tail) }
{
    let mut text = room;
    text.truncate(0);
    match &entity.row {
        Row::Opaque { text: kept, .. } => kept_after(text, kept.as_slice()),
        _ => laid_text(text, entity, comma, semi),
    }
}

/// A record that isn't read as it stands, after no text; an empty one is a blank.
fn kept_after(none: Bytes, kept: &[u8]) -> Result<Bytes, AllocError>
    requires { none ≡ [] }
    ensures { IfOk result (λ text. text ≡ kept_text kept.now) }
{
    let mut text = none;
    text.extend_from_slice(if kept.is_empty() { b" " } else { kept })?;
    Ok(text)
}

/// The tokens of a record, laid after no text.
fn laid_text(none: Bytes, entity: &Entity, comma: u8, semi: u8) -> Result<Bytes, AllocError>
    requires none { none ≡ [] }
    requires laid { IsLaid entity.now.row }
    requires lawful { IsLawfulRow entity.now.row }
    ensures { IfOk result (λ text.
        text ≡ laid 64 comma semi 0 (tokens_of entity.now.row entity.now.tail)) }
{
    let mut laid = LaidText { text: none, comma };
    push_record(&mut laid, entity)?;
    let mut text = laid.text;
    text.truncate(text.len().saturating_sub(1));
    text.push(semi)?;
    Ok(text)
}
