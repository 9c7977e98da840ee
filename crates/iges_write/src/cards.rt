ghost use Rattle.std.specs.Prelude.{◌≡◌, ◌≤◌, ◌<◌, ◌+◌, ◌^◌, ◌++◌, ◌∷◌, length, take, drop};
ghost use Rattle.std.specs.Prelude.{IfOk, OnOk, IfSome, None, replicate, decimal};
ghost use Rattle.std.specs.List.{concat};
ghost use mathlib.Core.List.{IsPrefix};
ghost use Rattle.iges_write.specs.Cards.{filled, right_aligned, card, cards};
ghost use Rattle.iges_write.specs.Cards.{lines_wanted, lines_in};
ghost use Rattle.iges_write.specs.CanonicalFile.{with_number};

use iges_parameters::RECORD_COLUMNS;
use itoa::Buffer;
use solid_base::Bytes;
use std::alloc::AllocError;

/// The columns of a card before its section letter.
pub const TEXT_COLUMNS: usize = 72;

/// The columns of a card in which its number in the section stands.
pub const NUMBER_COLUMNS: usize = 7;

/// Writes blanks, as many as a card has columns or fewer.
fn push_blanks(out: &mut Bytes, count: usize) -> Result<(), AllocError>
    requires { count ≤ 72 }
    ensures ok { OnOk result (out.new ≡ out.old ++ replicate count 32) }
    ensures front { IsPrefix out.old out.new }
{
    out.extend_from_slice(&[b' '; TEXT_COLUMNS][..count])
}

/// A number right aligned in so many columns, or none where it has more digits than columns.
fn columns_of<const N: usize>(number: u32) -> Option<[u8; N]>
    requires { N ≤ 80 }
    ensures columns { IfSome result (λ columns. columns ≡ right_aligned N number) }
    ensures none { result ≡ None → N ≤ length (decimal number) }
{
    let mut columns = [b' '; N];
    let mut at = N;
    let mut rest = number;
    while rest >= 10 && at > 0 {
        at -= 1;
        columns[at] = b'0' + (rest % 10) as u8;
        rest /= 10;
    }
    if at == 0 {
        return None;
    }
    columns[at - 1] = b'0' + rest as u8;
    Some(columns)
}

/// Writes a number right aligned in so many columns.
pub fn push_number<const N: usize>(out: &mut Bytes, number: u32) -> Result<(), AllocError>
    requires { N ≤ 80 }
    ensures ok { OnOk result (out.new ≡ out.old ++ right_aligned N number) }
    ensures front { IsPrefix out.old out.new }
{
    match columns_of::<N>(number) {
        Some(columns) => out.extend_from_slice(&columns),
        None => {
            let mut buffer = Buffer::new();
            out.extend_from_slice(buffer.format(number).as_bytes())
        }
    }
}

/// Makes a card of the columns that were written from a place on.
#[tactic(auto, unfolding(crate::specs::Cards::card))]
pub fn end_card(out: &mut Bytes, start: usize, letter: u8, number: u32) -> Result<(), AllocError>
    requires { start ≤ length out.old }
    ensures ok { OnOk result (out.new
        ≡ take start out.old ++ card letter number (drop start out.old)) }
    ensures front { IsPrefix out.old out.new }
{
    let columns = out.len() - start;
    push_blanks(out, TEXT_COLUMNS.saturating_sub(columns))?;
    out.push(letter)?;
    push_number::<NUMBER_COLUMNS>(out, number)?;
    out.push(b'\n')?;
    Ok(())
}

/// Writes a card.
pub fn push_card(out: &mut Bytes, letter: u8, number: u32, columns: &[u8]) -> Result<(), AllocError>
    ensures ok { OnOk result (out.new ≡ out.old ++ card letter number columns.now) }
    ensures front { IsPrefix out.old out.new }
{
    let start = out.len();
    out.extend_from_slice(columns)?;
    end_card(out, start, letter, number)
}

/// Writes the cards of a section, numbered from 1.
pub fn push_cards(out: &mut Bytes, letter: u8, lines: &[Bytes]) -> Result<(), AllocError>
    requires { length lines.now < 2 ^ 31 }
    ensures ok { OnOk result (out.new ≡ out.old ++ concat (cards letter 1 lines.now)) }
    ensures front { IsPrefix out.old out.new }
{
    let mut number = 1;
    for line in lines {
        push_card(out, letter, number, line.as_slice())?;
        number += 1;
    }
    Ok(())
}

/// Writes a parameter line of an entity.
fn push_parameter_card(
    out: &mut Bytes,
    entity: u32,
    number: u32,
    line: &[u8],
) -> Result<(), AllocError>
    ensures ok { OnOk result (out.new ≡ out.old
        ++ card 80 number (filled 64 line.now ++ 32 ∷ right_aligned 7 entity)) }
    ensures front { IsPrefix out.old out.new }
{
    let start = out.len();
    out.extend_from_slice(line)?;
    push_blanks(out, RECORD_COLUMNS.saturating_sub(line.len()))?;
    out.push(b' ')?;
    push_number::<NUMBER_COLUMNS>(out, entity)?;
    end_card(out, start, b'P', number)
}

/// Writes the parameter lines in which an entity's record stands, numbered on from a number, and
/// gives how many they are.
pub fn push_record(out: &mut Bytes, entity: u32, first: u32, text: &[u8]) -> Result<u32, AllocError>
    requires { first + lines_wanted 64 (length text.now) < 2 ^ 31 }
    ensures written { OnOk result (out.new ≡ out.old
        ++ concat (cards 80 first (with_number entity (lines_in 64 text.now)))) }
    ensures front { IsPrefix out.old out.new }
    ensures count { IfOk result (λ count. count ≡ lines_wanted 64 (length text.now)) }
{
    let mut number = first;
    let mut rest = text;
    while !rest.is_empty() {
        let (line, after) = rest.split_at(rest.len().min(RECORD_COLUMNS));
        push_parameter_card(out, entity, number, line)?;
        number += 1;
        rest = after;
    }
    Ok(number - first)
}
