ghost use Rattle.std.specs.Prelude.{◌≡◌, ◌≢◌, ◌<◌, ◌≤◌, ◌+◌, ◌-◌, ◌*◌, ◌^◌, length, take, drop, Ok};
ghost use Rattle.std.specs.Prelude.{Err, IfOk, IfErr, OnOk, true};
ghost use Rattle.std.specs.List.{concat};
ghost use Rattle.solid_base.specs.Texts.{IsOneLine};
ghost use Rattle.iges_cards.specs.Kept.{AreWide, NoneHasFeed};
ghost use Rattle.iges_fields.specs.Delimiters.{AreDelimiters};
ghost use Rattle.iges_directory.specs.Kept.{IsKept};
ghost use Rattle.iges_parameters.specs.Faults.{IsOfText};
ghost use Rattle.iges_parameters.specs.Tables.{is_read};
ghost use Rattle.iges_parameters.specs.Accepted.{IsAcceptedEntity};
ghost use Rattle.iges_file.specs.Entities.{kept_entity, known_entity, entity_with, entity_in};
ghost use Rattle.iges_file.specs.Entities.{HasLines};

use iges_directory::Pair;
use iges_parameters::{RecordText, RowFault, is_read, read_known_row};
use solid_base::{BorrowedLines, Bytes, Entity, Row, Tokens, before_blanks};
use std::alloc::{AllocError, Global};

/// Joins so many lines from a place on into a text, in place of what it held.
fn join(text: &mut Vec<u8>, lines: &BorrowedLines, first: u32, count: u32) -> Result<(), AllocError>
    requires lines { first + count ≤ length lines.now }
    requires few { count ≤ 500000 }
    ensures { OnOk result (text.new.items ≡ concat (take count (drop first lines.now))) }
{
    text.clear();
    for at in first as usize..first as usize + count as usize {
        text.extend_from_slice(lines.get(at))?;
    }
    Ok(())
}

/// The one line at a place, which is the record of an entry with one parameter line.
fn only_line<'a>(lines: &BorrowedLines<'a>, first: u32) -> &'a [u8]
    requires { first < length lines.now }
    ensures { result.now ≡ concat (take 1 (drop first lines.now)) }
{
    lines.get(first as usize)
}

/// An entity that isn't read keeps its record without the blanks after it.
fn kept_entity(alloc: Global, pair: Pair, text: &[u8]) -> Result<Entity, AllocError>
    ensures { IfOk result (λ entity. entity ≡ kept_entity pair text.now) }
{
    let row = Row::Opaque {
        kind: pair.kind,
        form: pair.form,
        matrix: pair.matrix,
        text: Bytes::from_vec(Vec::from_slice(alloc, before_blanks(text))?),
    };
    Ok(Entity {
        row,
        attrs: pair.attrs,
        tail: Tokens::new(alloc),
    })
}

/// The entity of an entry of a type and form that are read, whose record has this text.
fn read_known_entity(
    alloc: Global,
    comma: u8,
    semi: u8,
    pair: Pair,
    text: &[u8],
) -> Result<Entity, RowFault>
    requires known { is_read pair.kind pair.form ≡ true }
    requires entry { IsKept pair }
    requires in_line { IsOneLine text.now }
    requires short { length text.now ≤ 2 ^ 25 }
    requires delimiters { AreDelimiters comma semi }
    ensures found { IfOk result (λ entity. known_entity comma semi pair text.now ≡ Ok entity) }
    ensures first_fault { IfErr result
        (λ fault. IsOfText fault → known_entity comma semi pair text.now ≡ Err fault) }
    ensures accepted { IfOk result IsAcceptedEntity }
{
    let record = RecordText {
        kind: pair.kind,
        form: pair.form,
        matrix: pair.matrix,
        text,
    };
    let (row, tail) = read_known_row(alloc, &record, comma, semi)?;
    Ok(Entity {
        row,
        attrs: pair.attrs,
        tail,
    })
}

/// The entity of an entry whose record has this text.
#[tactic(auto, unfolding(crate::specs::Entities::entity_with))]
fn entity_with(
    alloc: Global,
    comma: u8,
    semi: u8,
    pair: Pair,
    text: &[u8],
) -> Result<Entity, RowFault>
    requires entry { IsKept pair }
    requires kind { 1 ≤ pair.kind }
    requires in_line { IsOneLine text.now }
    requires short { length text.now ≤ 2 ^ 25 }
    requires delimiters { AreDelimiters comma semi }
    ensures found { IfOk result (λ entity. entity_with comma semi pair text.now ≡ Ok entity) }
    ensures first_fault { IfErr result
        (λ fault. IsOfText fault → entity_with comma semi pair text.now ≡ Err fault) }
    ensures accepted { IfOk result IsAcceptedEntity }
{
    if is_read(pair.kind, pair.form) {
        read_known_entity(alloc, comma, semi, pair, text)
    } else {
        Ok(kept_entity(alloc, pair, text)?)
    }
}

/// The entity of an entry in a file with these parameter lines. A record of several lines is joined
/// in the buffer; that of one line stands in the file.
#[tactic(auto, unfolding(crate::specs::Entities::entity_in))]
pub fn read_entity(
    alloc: Global,
    buffer: &mut Vec<u8>,
    comma: u8,
    semi: u8,
    params: &BorrowedLines,
    pair: Pair,
) -> Result<Entity, RowFault>
    requires entry { IsKept pair }
    requires lines { HasLines (length params.now) pair }
    requires wide { AreWide 64 params.now }
    requires plain { NoneHasFeed params.now }
    requires delimiters { AreDelimiters comma semi }
    ensures found { IfOk result (λ entity. entity_in comma semi params.now pair ≡ Ok entity) }
    ensures first_fault { IfErr result
        (λ fault. IsOfText fault → entity_in comma semi params.now pair ≡ Err fault) }
    ensures accepted { IfOk result IsAcceptedEntity }
{
    if pair.kind == 0 {
        return Ok(Entity {
            row: Row::Null,
            attrs: pair.attrs,
            tail: Tokens::new(alloc),
        });
    }
    if pair.count == 1 {
        let line = only_line(params, pair.first - 1);
        return entity_with(alloc, comma, semi, pair, line);
    }
    join(buffer, params, pair.first - 1, pair.count)?;
    entity_with(alloc, comma, semi, pair, buffer.as_slice())
}
