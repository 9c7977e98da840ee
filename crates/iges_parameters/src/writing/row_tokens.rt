ghost use Rattle.std.specs.Prelude.{◌≡◌, ◌≤◌, ◌<◌, ◌++◌, ◌^◌, [], ◌∷◌, pos, map, length, OnOk};
ghost use Rattle.std.specs.List.{AllByRecursion};
ghost use Rattle.solid_base.specs.Ranges.{IsLawfulRow, IsLawfulMatrix, most_whole};
ghost use Rattle.iges_parameters.specs.Writing.{whole, number_of_item, parameters_of, tokens_of};
ghost use Rattle.iges_parameters.specs.Writing.{tokens_by, numbers_of_affine};
ghost use Rattle.iges_parameters.specs.Tables.{matrix_rules, instance_rules};

use crate::prims::push_prim;
use crate::tables::{INSTANCE_TABLE, MATRIX_TABLE};
use crate::writing::number_tokens::push_numbers;
use crate::writing::tokens::TokenSink;
use solid_base::{Affine, Entity, Item, Placed, Row, Token};

/// Writes the tokens of an entity's record: the type's number, the parameters, and the fields after
/// them. AllocError when out of memory.
pub fn push_record<S: TokenSink>(tokens: &mut S, entity: &Entity) -> Result<(), S::Error>
    requires lawful { IsLawfulRow entity.now.row }
    ensures { OnOk result (tokens.new ≡
        S.with tokens.old (tokens_of entity.now.row entity.now.tail)) }
{
    push_row(tokens, &entity.row)?;
    push_tail(tokens, entity.tail.as_slice())
}

#[tactic(auto, unfolding(crate::specs::Writing::parameters_of))]
fn push_row<S: TokenSink>(tokens: &mut S, row: &Row) -> Result<(), S::Error>
    requires { IsLawfulRow row.now }
    ensures { OnOk result (tokens.new ≡ S.with tokens.old (parameters_of row.now)) }
{
    match row {
        Row::Null => tokens.push_whole(0),
        Row::Opaque { .. } => Ok(()),
        Row::Matrix { affine, .. } => push_affine(tokens, affine),
        Row::Prim { prim, .. } => push_prim(tokens, *prim),
        Row::Tree { items, .. } => push_tree(tokens, items.as_slice()),
        Row::Assembly { items, .. } => push_assembly(tokens, items.as_slice()),
        Row::Instance { child, .. } => push_instance(tokens, *child),
    }
}

#[tactic(auto, unfolding(crate::specs::Tables::matrix_rules))]
fn push_affine<S: TokenSink>(tokens: &mut S, affine: &Affine) -> Result<(), S::Error>
    requires { IsLawfulMatrix affine.now }
    ensures { OnOk result (tokens.new ≡ S.with tokens.old
        (whole (pos 124) ∷ tokens_by matrix_rules (numbers_of_affine affine.now))) }
{
    push_numbers(tokens, 124, &MATRIX_TABLE, &numbers_of_affine(affine))
}

/// R11 R12 R13 T1 R21 R22 R23 T2 R31 R32 R33 T3.
fn numbers_of_affine(affine: &Affine) -> [i128; 12]
    ensures { result ≡ numbers_of_affine affine.now }
{
    let Affine {
        row1,
        row2,
        row3,
        shift,
    } = *affine;
    [
        row1.x, row1.y, row1.z, shift.x, row2.x, row2.y, row2.z, shift.y, row3.x, row3.y, row3.z,
        shift.z,
    ]
}

#[tactic(auto, unfolding(crate::specs::Tables::instance_rules))]
fn push_instance<S: TokenSink>(tokens: &mut S, child: u32) -> Result<(), S::Error>
    requires { child ≤ most_whole }
    ensures { OnOk result (tokens.new ≡
        S.with tokens.old (whole (pos 430) ∷ tokens_by instance_rules (pos child ∷ []))) }
{
    push_numbers(tokens, 430, &INSTANCE_TABLE, &[i128::from(child)])
}

fn push_tree<S: TokenSink>(tokens: &mut S, items: &[Item]) -> Result<(), S::Error>
    requires { length items.now ≤ most_whole }
    ensures { OnOk result (tokens.new ≡ S.with tokens.old (whole (pos 180)
        ∷ whole (pos (length items.now)) ∷ map (λ i. whole (number_of_item i)) items.now)) }
{
    push_count(tokens, 180, items.len())?;
    for item in items {
        tokens.push_whole(number_of_item(*item))?;
    }
    Ok(())
}

/// The type's number, and how many items follow.
fn push_count<S: TokenSink>(tokens: &mut S, kind: u32, count: usize) -> Result<(), S::Error>
    requires { count ≤ most_whole }
    ensures { OnOk result (tokens.new ≡
        S.with tokens.old (whole (pos kind) ∷ whole (pos count) ∷ [])) }
{
    tokens.push_whole(i64::from(kind))?;
    tokens.push_whole(count as i64)
}

/// An operand is its entity's number below 0; 1 is the union, 2 the intersection, 3 the difference.
fn number_of_item(item: Item) -> i64
    ensures { result ≡ number_of_item item }
{
    match item {
        Item::Operand(entity) => -i64::from(entity),
        Item::Join => 1,
        Item::Meet => 2,
        Item::Less => 3,
    }
}

/// All items stand before all matrices.
fn push_assembly<S: TokenSink>(tokens: &mut S, items: &[Placed]) -> Result<(), S::Error>
    requires { length items.now ≤ most_whole }
    ensures { OnOk result (tokens.new ≡ S.with tokens.old (whole (pos 184)
        ∷ whole (pos (length items.now)) ∷ (map (λ p. whole (pos p.item)) items.now
        ++ map (λ p. whole (pos p.matrix)) items.now))) }
{
    push_count(tokens, 184, items.len())?;
    push_placed_items(tokens, items)?;
    push_placed_matrices(tokens, items)
}

fn push_placed_items<S: TokenSink>(tokens: &mut S, items: &[Placed]) -> Result<(), S::Error>
    ensures { OnOk result (tokens.new ≡
        S.with tokens.old (map (λ p. whole (pos p.item)) items.now)) }
{
    for placed in items {
        tokens.push_whole(i64::from(placed.item))?;
    }
    Ok(())
}

fn push_placed_matrices<S: TokenSink>(tokens: &mut S, items: &[Placed]) -> Result<(), S::Error>
    ensures { OnOk result (tokens.new ≡
        S.with tokens.old (map (λ p. whole (pos p.matrix)) items.now)) }
{
    for placed in items {
        tokens.push_whole(i64::from(placed.matrix))?;
    }
    Ok(())
}

fn push_tail<S: TokenSink>(tokens: &mut S, tail: &[Token]) -> Result<(), S::Error>
    ensures { OnOk result (tokens.new ≡ S.with tokens.old tail.now) }
{
    for token in tail {
        tokens.push_token(token)?;
    }
    Ok(())
}
