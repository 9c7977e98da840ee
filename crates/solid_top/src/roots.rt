ghost use Rattle.std.specs.Prelude.{◌≡◌, ◌≤◌, ◌<◌, ◌+◌, ◌*◌, ◌++◌, ◌||◌, ◌&&◌, ◌==◌};
ghost use Rattle.std.specs.Prelude.{not, if◌then◌else◌, [], ℕ, false, get_or, length, IfOk, OnOk};
ghost use Rattle.std.specs.List.{list_any};
ghost use Rattle.solid_base.specs.References.{HasNumber};
ghost use Rattle.solid_top.specs.Checks.{is_named, is_solid, root_line, root_lines};

use entity_graph::Graph;
use solid_base::{Bytes, Row, Rows, push_decimal, reference_list};
use std::alloc::{AllocError, Global};

/// Marks the places of the entities with these numbers.
fn mark(named: &mut [bool], numbers: &[u32])
    ensures length { length named.new ≡ length named.old }
    ensures marks { (i : ℕ) → i < length named.old →
        get_or named.new i false ≡
        (get_or named.old i false || list_any (λ n. n == 2 * i + 1) numbers.now) }
{
    for number in numbers {
        let place = (*number / 2) as usize;
        if *number % 2 == 1 && place < named.len() {
            named[place] = true;
        }
    }
}

/// For each place whether some entity names the one there.
fn named_places(alloc: Global, rows: &Rows) -> Result<Vec<bool>, AllocError>
    ensures length { IfOk result (λ named. length named.items ≡ length rows.now) }
    ensures named { IfOk result (λ named. (i : ℕ) → i < length rows.now →
        get_or named.items i false ≡ is_named rows.now (2 * i + 1)) }
{
    let mut named = Vec::from_elem(alloc, false, rows.len())?;
    for at in 0..rows.len() {
        let numbers = reference_list(alloc, &rows.get(at).row)?;
        mark(&mut named, numbers.as_slice());
    }
    Ok(named)
}

/// Whether a row is a solid: a primitive, a Boolean tree, an assembly or an instance.
fn is_solid(row: &Row) -> bool
    ensures { result ≡ is_solid row.now }
{
    match row {
        Row::Null | Row::Opaque { .. } | Row::Matrix { .. } => false,
        Row::Prim { .. } | Row::Tree { .. } | Row::Assembly { .. } | Row::Instance { .. } => true,
    }
}

/// Adds the number, the weight and the depth of a solid.
fn push_line(out: &mut Bytes, graph: &Graph, number: u32) -> Result<(), AllocError>
    requires { HasNumber graph.now number }
    ensures { OnOk result (out.new ≡ out.old ++ root_line graph.now number) }
{
    graph.obeys();
    out.extend_from_slice(b"ROOT ")?;
    push_decimal(out, number)?;
    out.extend_from_slice(b" ")?;
    push_decimal(out, graph.weight(number) as u32)?;
    out.extend_from_slice(b" ")?;
    push_decimal(out, graph.depth(number) as u32)?;
    out.extend_from_slice(b"\n")
}

/// Adds the line of an entity that is a solid and that no entity names.
fn push_root(
    out: &mut Bytes,
    graph: &Graph,
    number: u32,
    row: &Row,
    named: bool,
) -> Result<(), AllocError>
    requires { HasNumber graph.now number }
    ensures { OnOk result (out.new ≡
        out.old ++ (if is_solid row.now && not named then root_line graph.now number else [])) }
{
    if is_solid(row) && !named {
        push_line(out, graph, number)?;
    }
    Ok(())
}

/// Adds a line for each solid that no entity names, in order: its number, its weight and its depth.
pub fn push_roots(
    alloc: Global,
    out: &mut Bytes,
    rows: &Rows,
    graph: &Graph,
) -> Result<(), AllocError>
    requires few { length rows.now ≤ 100000 }
    requires graph { graph.now ≡ rows.now }
    ensures { OnOk result (out.new ≡ out.old ++ root_lines rows.now) }
{
    let named = named_places(alloc, rows)?;
    for at in 0..rows.len() {
        let number = 2 * at as u32 + 1;
        push_root(out, graph, number, &rows.get(at).row, named[at])?;
    }
    Ok(())
}
