ghost use Rattle.std.specs.Prelude.{◌≡◌, ◌<◌, ◌≤◌, ◌^◌, ◌∷◌, pos, IfOk, OnOk, unsigned_abs};
ghost use Rattle.std.specs.List.{AllByRecursion};
ghost use Rattle.solid_base.specs.Range.{far};
ghost use Rattle.solid_base.specs.Outcomes.{Gives};
ghost use Rattle.iges_parameters.specs.Rules.{MovesUpTo};
ghost use Rattle.iges_parameters.specs.Rows.{prim_at};
ghost use Rattle.iges_parameters.specs.Writing.{tokens_by, whole, type_of_prim, rules_of_prim};
ghost use Rattle.iges_parameters.specs.Writing.{numbers_of_prim};

use crate::faults::RowFault;
use crate::reading::axes::checked_prim;
use crate::reading::makers::{block, cone, cylinder, ellipsoid, sphere, torus, wedge};
use crate::reading::numbers::numbers_of;
use crate::reading::parameters::Parameters;
use crate::tables::{
    block_table, cone_table, cylinder_table, ellipsoid_table, sphere_table, torus_table,
    wedge_table,
};
use crate::writing::number_tokens::push_numbers;
use crate::writing::tokens::TokenSink;
use solid_base::{Prim, Vec3};

// The primitives of the tables: type, table, the function that makes the primitive of its numbers,
// the numbers by their names in the order of their indexes, and the primitive with these names. One
// list serves the arms that read and the arms that write.
macro_rules! by_tables {
    ($way:ident $($argument:ident)*) => {
        by_tables!(@$way ($($argument)*)
            [150 block_table block [lx, ly, lz, x, y, z, ux, uy, uz, wx, wy, wz]
                [Prim::Block { size: Vec3 { x: lx, y: ly, z: lz }, corner: Vec3 { x, y, z },
                    u: Vec3 { x: ux, y: uy, z: uz }, w: Vec3 { x: wx, y: wy, z: wz } }]]
            [152 wedge_table wedge [lx, ly, lz, ltx, x, y, z, ux, uy, uz, wx, wy, wz]
                [Prim::Wedge { size: Vec3 { x: lx, y: ly, z: lz }, ltx, corner: Vec3 { x, y, z },
                    u: Vec3 { x: ux, y: uy, z: uz }, w: Vec3 { x: wx, y: wy, z: wz } }]]
            [154 cylinder_table cylinder [h, r, x, y, z, wx, wy, wz]
                [Prim::Cylinder { h, r, foot: Vec3 { x, y, z }, w: Vec3 { x: wx, y: wy, z: wz } }]]
            [156 cone_table cone [h, r1, r2, x, y, z, wx, wy, wz]
                [Prim::Cone { h, r1, r2, foot: Vec3 { x, y, z }, w: Vec3 { x: wx, y: wy, z: wz } }]]
            [158 sphere_table sphere [r, x, y, z]
                [Prim::Sphere { r, centre: Vec3 { x, y, z } }]]
            [160 torus_table torus [r1, r2, x, y, z, wx, wy, wz]
                [Prim::Torus { r1, r2, centre: Vec3 { x, y, z }, w: Vec3 { x: wx, y: wy, z: wz } }]]
            [168 ellipsoid_table ellipsoid [lx, ly, lz, x, y, z, ux, uy, uz, wx, wy, wz]
                [Prim::Ellipsoid { size: Vec3 { x: lx, y: ly, z: lz }, centre: Vec3 { x, y, z },
                    u: Vec3 { x: ux, y: uy, z: uz }, w: Vec3 { x: wx, y: wy, z: wz } }]]
        )
    };
    (@read ($kind:ident $parameters:ident)
        $([$number:literal $table:ident $make:ident [$($x:ident),*] [$($row:tt)*]])*) => {
        match $kind {
            $($number => {
                let numbers = numbers_of(&$table(), $parameters)?;
                checked_prim($make(&numbers))
            })*
            _ => Err(RowFault::NotRead),
        }
    };
    (@write ($prim:ident $tokens:ident)
        $([$number:literal $table:ident $make:ident [$($x:ident),*] [$($row:tt)*]])*) => {
        match $prim {
            $($($row)* => push_numbers($tokens, $number, &$table(), &[$($x),*]),)*
        }
    };
}

/// The primitive of a type by its table, with its axes in their bounds.
#[tactic(auto, unfolding(crate::specs::Rows::prim_at))]
pub fn read_prim(kind: u32, parameters: &mut Parameters) -> Result<Prim, RowFault>
    requires near { parameters.now.index < 2 ^ 31 }
    ensures value { Gives (λ prim. (prim, parameters.new)) result (prim_at kind parameters.old) }
    ensures moves { IfOk result (λ prim. MovesUpTo 13 parameters.old parameters.new) }
{
    by_tables!(read kind parameters)
}

/// Writes the type's number and the parameters of a primitive.
pub fn push_prim<S: TokenSink>(tokens: &mut S, prim: Prim) -> Result<(), S::Error>
    requires near { AllByRecursion (λ n. unsigned_abs n ≤ far) (numbers_of_prim prim) }
    ensures { OnOk result (tokens.new ≡ S.with tokens.old
        (whole (pos (type_of_prim prim)) ∷ tokens_by (rules_of_prim prim) (numbers_of_prim prim))) }
{
    by_tables!(write prim tokens)
}
