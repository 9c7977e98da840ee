ghost use Rattle.std.specs.Prelude.{◌≡◌, ◌++◌, map, IfOk, OnOk};
ghost use Rattle.solid_base.specs.References.{target, matrix_named, operands_of, items_of};
ghost use Rattle.solid_base.specs.References.{matrices_of, references_of, references};

use crate::lists::{List, Numbers};
use crate::solids::{Item, Placed, Row};
use std::alloc::{AllocError, Global};

/// A reference of a row, by the number of the entity that it names: to a matrix, which moves what
/// names it, or to a solid, of which what names it is made.
#[derive(Clone, Copy, Debug, PartialEq, Eq)]
pub enum Reference {
    Matrix(u32),
    Solid(u32),
}

impl Reference {
    /// The number of the entity that it names.
    pub fn number(self) -> u32
        ensures { result ≡ target self }
    {
        match self {
            Reference::Matrix(number) | Reference::Solid(number) => number,
        }
    }
}

/// Adds a reference to a matrix, where its number isn't 0.
fn push_matrix(references: &mut List<Reference>, matrix: u32) -> Result<(), AllocError>
    ensures { OnOk result (references.new ≡ references.old ++ matrix_named matrix) }
{
    if matrix != 0 {
        references.push(Reference::Matrix(matrix))?;
    }
    Ok(())
}

fn push_operands(references: &mut List<Reference>, items: &[Item]) -> Result<(), AllocError>
    ensures { OnOk result (references.new ≡ references.old ++ operands_of items.now) }
{
    for item in items {
        if let Item::Operand(entity) = item {
            references.push(Reference::Solid(*entity))?;
        }
    }
    Ok(())
}

fn push_items(references: &mut List<Reference>, items: &[Placed]) -> Result<(), AllocError>
    ensures { OnOk result (references.new ≡ references.old ++ items_of items.now) }
{
    for placed in items {
        references.push(Reference::Solid(placed.item))?;
    }
    Ok(())
}

fn push_matrices(references: &mut List<Reference>, items: &[Placed]) -> Result<(), AllocError>
    ensures { OnOk result (references.new ≡ references.old ++ matrices_of items.now) }
{
    for placed in items {
        push_matrix(references, placed.matrix)?;
    }
    Ok(())
}

/// The references in the list and after them those of a row, in order: its own matrix where its
/// number isn't 0, of a matrix the one that is applied after it; then the operands of a tree, or
/// the items of an assembly and after them their matrices whose numbers aren't 0, or the solid of
/// an instance. What isn't read has none. AllocError when out of memory; the list is then dropped.
#[tactic(auto, unfolding(crate::specs::References::references_of))]
pub fn with_references(
    references: List<Reference>,
    row: &Row,
) -> Result<List<Reference>, AllocError>
    ensures { IfOk result (λ all. all ≡ references ++ references_of row.now) }
{
    let mut all = references;
    match row {
        Row::Null | Row::Opaque { .. } => {}
        Row::Matrix { next, .. } => push_matrix(&mut all, *next)?,
        Row::Prim { matrix, .. } => push_matrix(&mut all, *matrix)?,
        Row::Tree { items, matrix } => {
            push_matrix(&mut all, *matrix)?;
            push_operands(&mut all, items.as_slice())?;
        }
        Row::Assembly { items, matrix } => {
            push_matrix(&mut all, *matrix)?;
            push_items(&mut all, items.as_slice())?;
            push_matrices(&mut all, items.as_slice())?;
        }
        Row::Instance { child, matrix } => {
            push_matrix(&mut all, *matrix)?;
            all.push(Reference::Solid(*child))?;
        }
    }
    Ok(all)
}

/// The numbers that a row names, in the order of its references. AllocError when out of memory.
pub fn reference_list(alloc: Global, row: &Row) -> Result<Numbers, AllocError>
    ensures { IfOk result (λ numbers. numbers ≡ references row.now) }
{
    let all = with_references(List::new(alloc), row)?;
    let mut numbers = Numbers::new(alloc);
    for reference in all.as_slice() {
        numbers.push(reference.number())?;
    }
    Ok(numbers)
}

#[cfg(test)]
mod tests {
    use super::*;
    use crate::geometry::{Affine, Vec3};
    use crate::lists::{Bytes, List};
    use crate::solids::Primitive;

    const ORIGIN: Vec3 = Vec3 { x: 0, y: 0, z: 0 };

    fn placed(item: u32, matrix: u32) -> Placed {
        Placed { item, matrix }
    }

    fn rows(alloc: Global) -> Result<[Row; 9], AllocError> {
        let items = [Item::Operand(1), Item::Operand(0), Item::Less];
        let parts = [placed(5, 0), placed(0, 9), placed(5, 11)];
        let affine = Affine {
            row1: ORIGIN,
            row2: ORIGIN,
            row3: ORIGIN,
            shift: ORIGIN,
        };
        let prim = Primitive::Sphere {
            r: 1,
            centre: ORIGIN,
        };
        Ok([
            Row::Null,
            Row::Opaque {
                kind: 314,
                form: 0,
                matrix: 3,
                text: Bytes::new(alloc),
            },
            Row::Matrix {
                form: 0,
                affine,
                next: 0,
            },
            Row::Matrix {
                form: 0,
                affine,
                next: 7,
            },
            Row::Prim { prim, matrix: 3 },
            Row::Tree {
                items: List::from_vec(Vec::from_slice(alloc, &items)?),
                matrix: 7,
            },
            Row::Assembly {
                items: List::from_vec(Vec::from_slice(alloc, &parts)?),
                matrix: 3,
            },
            Row::Instance {
                child: 5,
                matrix: 7,
            },
            Row::Instance {
                child: 0,
                matrix: 0,
            },
        ])
    }

    #[test]
    fn lists_what_a_row_names_in_order(rt: HostRuntime) -> Result<(), AllocError> {
        let alloc = rt.alloc();
        let wanted: [&[u32]; 9] = [
            &[],
            &[],
            &[],
            &[7],
            &[3],
            &[7, 1, 0],
            &[3, 5, 0, 5, 9, 11],
            &[7, 5],
            &[0],
        ];
        let rows = rows(alloc)?;
        for (row, want) in rows.iter().zip(wanted) {
            assert_eq!(rt; reference_list(alloc, row)?.as_slice(), want, "{row:?}");
        }
        Ok(())
    }
}
