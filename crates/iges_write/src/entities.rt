ghost use Rattle.std.specs.Prelude.{◌≡◌, ◌≤◌, ◌<◌, ◌+◌, ◌*◌, ◌^◌, ◌++◌, [], ◌∷◌, length, IfOk};
ghost use Rattle.std.specs.Prelude.{OnOk};
ghost use Rattle.std.specs.List.{concat};
ghost use mathlib.Core.List.{IsPrefix};
ghost use Rattle.iges_fields.specs.Delimiters.{AreDelimiters};
ghost use Rattle.iges_parameters.specs.Accepted.{IsAccepted, IsAcceptedEntity, lines_of};
ghost use Rattle.iges_parameters.specs.Writing.{type_of_row, form_of_row, matrix_of_row};
ghost use Rattle.iges_parameters.specs.Writing.{type_of_prim, lines_for, record_text};
ghost use Rattle.iges_write.specs.Cards.{card, cards, lines_wanted, lines_in};
ghost use Rattle.iges_write.specs.CanonicalFile.{entry_first, entry_second, record_lines};
ghost use Rattle.iges_write.specs.CanonicalFile.{with_number, directory_lines, parameter_lines};

use crate::cards::{end_card, push_number, push_record};
use iges_parameters::row_text;
use solid_base::{Bytes, Entity, Model, Prim, Row};
use std::alloc::{AllocError, Global};

/// The columns of a directory field.
const FIELD_COLUMNS: usize = 8;

fn type_of_prim(prim: &Prim) -> u32
    ensures { result ≡ type_of_prim prim.now }
{
    match prim {
        Prim::Block { .. } => 150,
        Prim::Wedge { .. } => 152,
        Prim::Cylinder { .. } => 154,
        Prim::Cone { .. } => 156,
        Prim::Sphere { .. } => 158,
        Prim::Torus { .. } => 160,
        Prim::Ellipsoid { .. } => 168,
    }
}

/// The type of a row's directory entry.
fn type_of_row(row: &Row) -> u32
    ensures { result ≡ type_of_row row.now }
{
    match row {
        Row::Null => 0,
        Row::Opaque { kind, .. } => *kind,
        Row::Matrix { .. } => 124,
        Row::Prim { prim, .. } => type_of_prim(prim),
        Row::Tree { .. } => 180,
        Row::Assembly { .. } => 184,
        Row::Instance { .. } => 430,
    }
}

/// The form of a row's directory entry.
fn form_of_row(row: &Row) -> u32
    ensures { result ≡ form_of_row row.now }
{
    match row {
        Row::Opaque { form, .. } | Row::Matrix { form, .. } => *form,
        _ => 0,
    }
}

/// The matrix of a row's directory entry, 0 for none.
fn matrix_of_row(row: &Row) -> u32
    ensures { result ≡ matrix_of_row row.now }
{
    match row {
        Row::Null => 0,
        Row::Matrix { next, .. } => *next,
        Row::Opaque { matrix, .. }
        | Row::Prim { matrix, .. }
        | Row::Tree { matrix, .. }
        | Row::Assembly { matrix, .. }
        | Row::Instance { matrix, .. } => *matrix,
    }
}

/// Writes columns 1 to 72 of an entity's first directory line.
#[tactic(auto, unfolding(crate::specs::CanonicalFile::entry_first))]
fn push_entry_first(out: &mut Bytes, first: u32, entity: &Entity) -> Result<(), AllocError>
    requires { length entity.now.attrs ≡ 96 }
    ensures ok { OnOk result (out.new ≡ out.old ++ entry_first first entity.now) }
    ensures front { IsPrefix out.old out.new }
{
    let (four, rest) = entity.attrs.as_slice().split_at(32);
    let two = &rest[..16];
    push_number::<FIELD_COLUMNS>(out, type_of_row(&entity.row))?;
    push_number::<FIELD_COLUMNS>(out, first)?;
    out.extend_from_slice(four)?;
    push_number::<FIELD_COLUMNS>(out, matrix_of_row(&entity.row))?;
    out.extend_from_slice(two)
}

/// Writes columns 1 to 72 of an entity's second directory line.
#[tactic(auto, unfolding(crate::specs::CanonicalFile::entry_second))]
fn push_entry_second(out: &mut Bytes, count: u32, entity: &Entity) -> Result<(), AllocError>
    requires { length entity.now.attrs ≡ 96 }
    ensures ok { OnOk result (out.new ≡ out.old ++ entry_second count entity.now) }
    ensures front { IsPrefix out.old out.new }
{
    let attrs = entity.attrs.as_slice();
    push_number::<FIELD_COLUMNS>(out, type_of_row(&entity.row))?;
    out.extend_from_slice(&attrs[48..64])?;
    push_number::<FIELD_COLUMNS>(out, count)?;
    push_number::<FIELD_COLUMNS>(out, form_of_row(&entity.row))?;
    out.extend_from_slice(&attrs[64..])
}

/// Writes an entity's first directory line.
fn push_first_card(
    out: &mut Bytes,
    number: u32,
    first: u32,
    entity: &Entity,
) -> Result<(), AllocError>
    requires { length entity.now.attrs ≡ 96 }
    ensures ok { OnOk result (out.new
        ≡ out.old ++ card 68 number (entry_first first entity.now)) }
    ensures front { IsPrefix out.old out.new }
{
    let start = out.len();
    push_entry_first(out, first, entity)?;
    end_card(out, start, b'D', number)
}

/// Writes an entity's second directory line.
fn push_second_card(
    out: &mut Bytes,
    number: u32,
    count: u32,
    entity: &Entity,
) -> Result<(), AllocError>
    requires { length entity.now.attrs ≡ 96 }
    ensures ok { OnOk result (out.new
        ≡ out.old ++ card 68 number (entry_second count entity.now)) }
    ensures front { IsPrefix out.old out.new }
{
    let start = out.len();
    push_entry_second(out, count, entity)?;
    end_card(out, start, b'D', number)
}

/// Writes the two directory lines of an entity.
fn push_entry(out: &mut Bytes, place: Place, count: u32, entity: &Entity) -> Result<(), AllocError>
    requires attributes { length entity.now.attrs ≡ 96 }
    requires number { place.number < 2 ^ 31 }
    ensures ok { OnOk result (out.new ≡ out.old
        ++ (card 68 place.number (entry_first place.first entity.now)
        ++ card 68 (place.number + 1) (entry_second count entity.now))) }
    ensures front { IsPrefix out.old out.new }
{
    push_first_card(out, place.number, place.first, entity)?;
    push_second_card(out, place.number + 1, count, entity)
}

/// Where an entity is written: its number, and the number of its first parameter line.
#[derive(Clone, Copy)]
struct Place {
    number: u32,
    first: u32,
}

/// Writes the two directory lines of an entity into one text, and the parameter lines in which its
/// record stands into another, and gives how many parameter lines there are.
fn push_entity(
    directory: &mut Bytes,
    params: &mut Bytes,
    entity: &Entity,
    text: &[u8],
    place: Place,
) -> Result<u32, AllocError>
    requires attributes { length entity.now.attrs ≡ 96 }
    requires number { place.number < 2 ^ 31 }
    requires lines { place.first + lines_wanted 64 (length text.now) < 2 ^ 31 }
    ensures directory { OnOk result (directory.new ≡ directory.old
        ++ (card 68 place.number (entry_first place.first entity.now)
        ++ card 68 (place.number + 1)
        (entry_second (lines_wanted 64 (length text.now)) entity.now))) }
    ensures front { IsPrefix directory.old directory.new }
    ensures params { OnOk result (params.new ≡ params.old ++ concat
        (cards 80 place.first (with_number place.number (lines_in 64 text.now)))) }
    ensures count { IfOk result (λ count. count ≡ lines_wanted 64 (length text.now)) }
{
    let count = push_record(params, place.number, place.first, text)?;
    push_entry(directory, place, count, entity)?;
    Ok(count)
}

/// Writes the directory of a model into one text and its parameter lines into another, and gives
/// how many parameter lines there are.
pub fn push_entities(
    alloc: Global,
    directory: &mut Bytes,
    params: &mut Bytes,
    model: &Model,
) -> Result<u32, AllocError>
    requires { IsAccepted model.now }
    ensures directory { OnOk result (directory.new
        ≡ directory.old ++ concat (cards 68 1 (directory_lines model.now))) }
    ensures front { IsPrefix directory.old directory.new }
    ensures params { OnOk result (params.new
        ≡ params.old ++ concat (cards 80 1 (parameter_lines model.now))) }
    ensures count { IfOk result (λ count. count ≡ length (parameter_lines model.now)) }
{
    let mut place = Place {
        number: 1,
        first: 1,
    };
    let mut text = Bytes::new(alloc);
    for at in 0..model.rows.len() {
        let entity = model.rows.get(at);
        text = row_text(text, entity, model.comma, model.semi)?;
        let count = push_entity(directory, params, entity, text.as_slice(), place)?;
        place.number += 2;
        place.first += count;
    }
    Ok(place.first - 1)
}
