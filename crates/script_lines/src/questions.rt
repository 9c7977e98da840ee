ghost use Rattle.std.specs.Prelude.{◌≡◌, ℕ, [], Bool, IfOk};
ghost use Rattle.solid_base.specs.Range.{far, IsPointWithin, IsCube};
ghost use Rattle.solid_base.specs.Outcomes.{Gives};
ghost use Rattle.solid_questions.specs.Questions.{IsLawful, IsLawfulGrid, IsEntityNumber};
ghost use Rattle.script_lines.specs.declared.commands.Command.TheVariants as command;
ghost use Rattle.script_lines.specs.declared.tables.Kind.TheVariants as kind;
ghost use Rattle.script_lines.specs.Reading.{command_at, numbers_from, grid_numbers};
ghost use Rattle.script_lines.specs.Reading.{place_rules, cell_rules, cell_numbers};
ghost use Rattle.script_lines.specs.Reading.{corner_numbers, first_rules, second_rules};
ghost use Rattle.script_lines.specs.Reading.{IsGridPoint};
ghost use Rattle.script_lines.specs.Tables.{grid_rules};

use crate::faults::LineFault;
use crate::words::Words;
use solid_base::{Cube, Vec3};
use solid_questions::Question;

/// The words of a place: an entity and three coordinates.
#[tactic(auto, unfolding(crate::specs::Reading::numbers_from))]
fn place(words: &mut Words<'_>) -> Result<(u32, Vec3), LineFault>
    ensures value { Gives (λ x. (corner_numbers x.0 x.1, words.new)) result
        (numbers_from place_rules [] words.old) }
    ensures lawful { IfOk result (λ x. IsEntityNumber x.0 × IsPointWithin far x.1) }
{
    let e = words.entity()?;
    let x = words.coordinate()?;
    let y = words.coordinate()?;
    let z = words.coordinate()?;
    Ok((e, Vec3 { x, y, z }))
}

/// The words after `point`: an entity and a place.
#[tactic(auto, unfolding(crate::specs::Reading::command_at))]
pub fn point(words: &mut Words<'_>) -> Result<Question, LineFault>
    ensures value { (live : Bool) → Gives (λ q. command.Ask q live) result
        (command_at kind.Point live words.old) }
    ensures lawful { IfOk result IsLawful }
{
    let (e, at) = place(words)?;
    words.no_more()?;
    Ok(Question::Point { e, at })
}

/// The last words of a cell: the second corner, not below the first in any coordinate.
#[tactic(auto, unfolding(crate::specs::Reading::numbers_from))]
fn cell_from(words: &mut Words<'_>, lo: &Vec3) -> Result<Cube, LineFault>
    requires { IsPointWithin far lo.now }
    ensures value { (e : ℕ) → Gives (λ cube. (cell_numbers e cube, words.new)) result
        (numbers_from cell_rules (corner_numbers e lo.now) words.old) }
    ensures lawful { IfOk result IsCube }
{
    let x = words.at_least(lo.x)?;
    let y = words.at_least(lo.y)?;
    let z = words.at_least(lo.z)?;
    Ok(Cube {
        lo: *lo,
        hi: Vec3 { x, y, z },
    })
}

/// The words after `cell`: an entity, and two corners in order.
#[tactic(auto, using(crate::proofs::RuleLaws::cell), unfolding(crate::specs::Reading::command_at))]
pub fn cell(words: &mut Words<'_>) -> Result<Question, LineFault>
    ensures value { (live : Bool) → Gives (λ q. command.Ask q live) result
        (command_at kind.Cell live words.old) }
    ensures lawful { IfOk result IsLawful }
{
    let (e, lo) = place(words)?;
    let cube = cell_from(words, &lo)?;
    words.no_more()?;
    Ok(Question::Cell { e, cube })
}

/// The word after `items`: an entity.
#[tactic(auto, unfolding(crate::specs::Reading::command_at, crate::specs::Reading::numbers_from))]
pub fn items(words: &mut Words<'_>) -> Result<Question, LineFault>
    ensures value { (live : Bool) → Gives (λ q. command.Ask q live) result
        (command_at kind.Items live words.old) }
    ensures lawful { IfOk result IsLawful }
{
    let e = words.entity()?;
    words.no_more()?;
    Ok(Question::Items { e })
}

/// The words after `section`: an entity, a height, the first corner, the step, and how many cells
/// there are along x and y.
#[tactic(auto, unfolding(crate::specs::Reading::command_at, crate::specs::Reading::numbers_from))]
pub fn section(words: &mut Words<'_>) -> Result<Question, LineFault>
    ensures value { (live : Bool) → Gives (λ q. command.Ask q live) result
        (command_at kind.Section live words.old) }
    ensures lawful { IfOk result IsLawful }
{
    let e = words.entity()?;
    let z = words.coordinate()?;
    let x0 = words.coordinate()?;
    let y0 = words.coordinate()?;
    let step = words.step()?;
    let nx = words.extent(x0, step)?;
    let ny = words.extent(y0, step)?;
    words.no_more()?;
    Ok(Question::Section {
        e,
        z,
        x0,
        y0,
        step,
        nx,
        ny,
    })
}

/// The first words of a grid: an entity and the first corner.
#[tactic(auto, unfolding(crate::specs::Reading::numbers_from))]
fn first_corner(words: &mut Words<'_>) -> Result<(u32, Vec3), LineFault>
    ensures value { Gives (λ x. (corner_numbers x.0 x.1, words.new)) result
        (numbers_from first_rules [] words.old) }
    ensures lawful { IfOk result (λ x. IsEntityNumber x.0 × IsGridPoint x.1) }
{
    let e = words.entity()?;
    let x = words.grid()?;
    let y = words.grid()?;
    let z = words.grid()?;
    Ok((e, Vec3 { x, y, z }))
}

/// The last words of a grid: the second corner, above the first in each coordinate, and a depth.
#[tactic(auto, unfolding(crate::specs::Reading::numbers_from))]
fn second_corner(words: &mut Words<'_>, lo: &Vec3) -> Result<(Cube, u32), LineFault>
    requires { IsGridPoint lo.now }
    ensures value { (e : ℕ) → Gives (λ x. (grid_numbers e x.0 x.1, words.new)) result
        (numbers_from second_rules (corner_numbers e lo.now) words.old) }
    ensures lawful { IfOk result (λ x. IsLawfulGrid x.0 x.1) }
{
    let x = words.grid_above(lo.x)?;
    let y = words.grid_above(lo.y)?;
    let z = words.grid_above(lo.z)?;
    let depth = words.whole()?;
    let cube = Cube {
        lo: *lo,
        hi: Vec3 { x, y, z },
    };
    Ok((cube, depth))
}

#[tactic(auto, using(crate::proofs::RuleLaws::grid_split))]
/// The words of a grid: an entity, two corners with every side above 0, and a depth.
fn grid(words: &mut Words<'_>) -> Result<(u32, Cube, u32), LineFault>
    ensures value { Gives (λ x. (grid_numbers x.0 x.1 x.2, words.new)) result
        (numbers_from grid_rules [] words.old) }
    ensures lawful { IfOk result (λ x. IsEntityNumber x.0 × IsLawfulGrid x.1 x.2) }
{
    let (e, lo) = first_corner(words)?;
    let (cube, depth) = second_corner(words, &lo)?;
    Ok((e, cube, depth))
}

/// The words after `volume`: those of a grid.
#[tactic(auto, unfolding(crate::specs::Reading::command_at))]
pub fn volume(words: &mut Words<'_>) -> Result<Question, LineFault>
    ensures value { (live : Bool) → Gives (λ q. command.Ask q live) result
        (command_at kind.Volume live words.old) }
    ensures lawful { IfOk result IsLawful }
{
    let (e, cube, depth) = grid(words)?;
    words.no_more()?;
    Ok(Question::Volume { e, cube, depth })
}

/// The words after `bounds`: those of a grid.
#[tactic(auto, unfolding(crate::specs::Reading::command_at))]
pub fn bounds(words: &mut Words<'_>) -> Result<Question, LineFault>
    ensures value { (live : Bool) → Gives (λ q. command.Ask q live) result
        (command_at kind.Bounds live words.old) }
    ensures lawful { IfOk result IsLawful }
{
    let (e, cube, depth) = grid(words)?;
    words.no_more()?;
    Ok(Question::Bounds { e, cube, depth })
}
