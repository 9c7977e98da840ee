ghost use Rattle.std.specs.Prelude.{◌≡◌, ◌≤◌, ◌<◌, ◌+◌, ◌++◌, length, cond, IfOk, IfErr};
ghost use Rattle.iges_directory.specs.DirectoryFaults.{IsOfText};
ghost use Rattle.iges_directory.specs.ColumnNumbers.{number_in};
ghost use Rattle.iges_directory.specs.Pairs.{null_pair, attributes};
ghost use Rattle.solid_base.specs.Outcomes.{Gives};
ghost use Rattle.iges_directory.specs.DirectoryReading.{within, type_in, entity_in, pair_in};
ghost use Rattle.std.specs.List.{list_all};

use crate::directory_faults::DirFault;
use crate::numbers::number_in;
use solid_base::{Bytes, are_blanks, blank_attributes};
use std::alloc::{AllocError, Global};

/// The greatest type or form.
const MOST_KIND: u32 = 99_999;

/// The greatest number of a line.
const MOST_LINE: u32 = 9_999_999;

/// How many parameter lines all entities may have together.
pub const MOST_TEXT: u32 = 500_000;

/// One entry of the directory, by its pair of lines. That of the null entity has type 0, no
/// parameter lines, and the attributes of an entity that sets none.
#[derive(Debug, Drop)]
pub struct Pair {
    /// The type of the entity.
    pub kind: u32,
    /// The number of its first parameter line, from 1; 0 of the null entity.
    pub first: u32,
    /// How many parameter lines it has.
    pub count: u32,
    /// The number of the matrix that moves it, 0 where there is none.
    pub matrix: u32,
    /// The form of its type.
    pub form: u32,
    /// The 96 bytes of the fields that are kept unread: 3 to 6, 8, 9, 12, 13 and 16 to 19.
    pub attrs: Bytes,
}

/// The number of a field that is within two bounds.
#[tactic(auto, unfolding(crate::specs::DirectoryReading::within))]
fn within(entity: u32, field: u32, least: u32, most: u32, columns: &[u8]) -> Result<u32, DirFault>
    requires { length columns.now ≤ 8 }
    ensures value { Gives (λ n. n) result (within entity field least most (number_in columns.now)) }
    ensures bounds { IfOk result (λ n. (least ≤ n) × (n ≤ most)) }
{
    match number_in(columns) {
        Some(n) if least <= n && n <= most => Ok(n),
        _ => Err(DirFault::BadField(entity, field)),
    }
}

/// The type, which both lines give; the second may leave it out.
#[tactic(auto, unfolding(crate::specs::DirectoryReading::type_in))]
fn type_in(entity: u32, first: &[u8], second: &[u8]) -> Result<u32, DirFault>
    requires first { length first.now ≡ 80 }
    requires second { length second.now ≡ 80 }
    ensures { Gives (λ n. n) result (type_in entity first.now second.now) }
{
    let kind = within(entity, 1, 0, MOST_KIND, &first[..8])?;
    let again = within(entity, 11, 0, MOST_KIND, &second[..8])?;
    if again == kind || are_blanks(&second[..8]) {
        Ok(kind)
    } else {
        Err(DirFault::TypeDiffers(entity))
    }
}

fn attributes(alloc: Global, first: &[u8], second: &[u8]) -> Result<Bytes, AllocError>
    requires first { length first.now ≡ 80 }
    requires second { length second.now ≡ 80 }
    ensures { IfOk result (λ attrs. attrs ≡ attributes first.now second.now) }
{
    let mut attrs = Vec::with_capacity(alloc, 96)?;
    attrs.extend_from_slice(&first[16..48])?;
    attrs.extend_from_slice(&first[56..72])?;
    attrs.extend_from_slice(&second[8..24])?;
    attrs.extend_from_slice(&second[40..72])?;
    Ok(Bytes::from_vec(attrs))
}

fn null_pair(alloc: Global) -> Result<Pair, DirFault>
    ensures value { IfOk result (λ pair. pair ≡ null_pair) }
    ensures memory { IfErr result (λ fault. IsOfText fault → ⊥) }
{
    Ok(Pair {
        kind: 0,
        first: 0,
        count: 0,
        matrix: 0,
        form: 0,
        attrs: blank_attributes(alloc)?,
    })
}

/// The fields of an entity of this type, after so many parameter lines of other entities.
#[tactic(auto, unfolding(crate::specs::DirectoryReading::entity_in))]
fn entity_in(
    alloc: Global,
    params: u32,
    text: u32,
    entity: u32,
    kind: u32,
    first: &[u8],
    second: &[u8],
) -> Result<Pair, DirFault>
    requires first { length first.now ≡ 80 }
    requires second { length second.now ≡ 80 }
    requires text { text ≤ 500000 }
    ensures found { IfOk result (λ pair.
        entity_in params text entity kind first.now second.now ≡ Ok pair) }
    ensures fault { IfErr result (λ fault. IsOfText fault →
        entity_in params text entity kind first.now second.now ≡ Err fault) }
    ensures text { IfOk result (λ pair. text + pair.count ≤ 500000) }
{
    let start = within(entity, 2, 1, params, &first[8..16])?;
    let count = within(entity, 14, 1, params - start + 1, &second[24..32])?;
    if count > MOST_TEXT - text {
        return Err(DirFault::TooMuchText(entity));
    }
    let matrix = within(entity, 7, 0, MOST_LINE, &first[48..56])?;
    let form = within(entity, 15, 0, MOST_KIND, &second[32..40])?;
    Ok(Pair {
        kind,
        first: start,
        count,
        matrix,
        form,
        attrs: attributes(alloc, first, second)?,
    })
}

/// The entry of a pair of lines, after entries with so many parameter lines.
#[tactic(auto, unfolding(crate::specs::DirectoryReading::pair_in))]
pub fn pair_in(
    alloc: Global,
    params: u32,
    text: u32,
    entity: u32,
    first: &[u8],
    second: &[u8],
) -> Result<Pair, DirFault>
    requires first { length first.now ≡ 80 }
    requires second { length second.now ≡ 80 }
    requires text { text ≤ 500000 }
    ensures found { IfOk result (λ pair.
        pair_in params text entity first.now second.now ≡ Ok pair) }
    ensures fault { IfErr result (λ fault. IsOfText fault →
        pair_in params text entity first.now second.now ≡ Err fault) }
    ensures text { IfOk result (λ pair. text + pair.count ≤ 500000) }
{
    let kind = type_in(entity, first, second)?;
    if kind == 0 {
        null_pair(alloc)
    } else {
        entity_in(alloc, params, text, entity, kind, first, second)
    }
}
