ghost use Rattle.std.specs.Prelude.{◌≡◌, ◌≤◌, ◌<◌, ◌+◌, ◌-◌, ◌++◌, [], ◌∷◌, IfOk, OnOk, codes};
ghost use Rattle.std.specs.Arc.{arc_value};
ghost use Rattle.iges_write.specs.Cards.{filled};
ghost use Rattle.solid_base.specs.declared.entities.Token.TheVariants as Token;
ghost use Rattle.solid_top.specs.LoadInput.{beside, centre, coordinates_text, lines_at};
ghost use Rattle.solid_top.specs.LoadInput.{load_bytes, load_model, load_rows, load_script};
ghost use Rattle.solid_top.specs.LoadInput.{number_at, plain, point_line, replace_line};
ghost use Rattle.solid_top.specs.LoadInput.{smaller_lines, sphere, three_units, union_items, units_text};

use decimal_scale::push_real;
use iges_write::write_model;
use solid_base::{
    Bytes, Entity, Item, Items, Lines, Model, Prim, Row, Rows, Token, Tokens, U, Vec3,
    blank_attributes, push_decimal,
};
use std::alloc::{AllocError, Global};
use std::sync::Arc;

/// The number of the entity at a place, counted from 0.
fn number_at(place: u32) -> u32
    requires { place ≤ 1000 }
    ensures { result ≡ number_at place }
{
    2 * place + 1
}

/// So many times three units, in steps.
fn three_units(times: u32) -> i128
    ensures { result ≡ three_units times }
{
    i128::from(3 * u64::from(times)) * U
}

/// The centre of the sphere at a place.
#[tactic(auto, unfolding(crate::specs::LoadInput::centre))]
fn centre(place: u32) -> Vec3
    ensures { result ≡ centre place }
{
    Vec3 {
        x: three_units(place % 10),
        y: three_units(place / 10 % 10),
        z: three_units(place / 100),
    }
}

/// The sphere of radius 1 at a place.
#[tactic(auto, unfolding(crate::specs::LoadInput::sphere))]
fn sphere(place: u32) -> Row
    ensures { result ≡ sphere place }
{
    Row::Prim {
        prim: Prim::Sphere {
            r: U,
            centre: centre(place),
        },
        matrix: 0,
    }
}

/// An entity of a row alone.
fn plain(alloc: Global, row: Row) -> Result<Arc<Entity>, AllocError>
    ensures { IfOk result (λ entity. arc_value entity ≡ plain row) }
{
    let attrs = blank_attributes(alloc)?;
    let tail = Tokens::new(alloc);
    Ok(Arc::new(alloc, Entity { row, attrs, tail })?)
}

/// The items of the union of all spheres.
fn union_items(alloc: Global, n: u32) -> Result<Items, AllocError>
    requires { (1 ≤ n) × (n ≤ 1000) }
    ensures { IfOk result (λ items. items ≡ union_items n) }
{
    let mut items = Items::new(alloc);
    items.push(Item::Operand(1))?;
    for place in 1..n {
        items.push(Item::Operand(number_at(place)))?;
        items.push(Item::Join)?;
    }
    Ok(items)
}

/// The spheres, and their union.
fn load_rows(alloc: Global, n: u32) -> Result<Rows, AllocError>
    requires { (1 ≤ n) × (n ≤ 1000) }
    ensures { IfOk result (λ rows. rows ≡ load_rows n) }
{
    let mut rows = Rows::new(alloc);
    for place in 0..n {
        rows.push(plain(alloc, sphere(place))?)?;
    }
    let items = union_items(alloc, n)?;
    rows.push(plain(alloc, Row::Tree { items, matrix: 0 })?)?;
    Ok(rows)
}

/// The one start line.
fn start_line(alloc: Global) -> Result<Bytes, AllocError>
    ensures { IfOk result (λ line. line ≡ filled 72 (codes "load")) }
{
    let mut line = Vec::with_capacity(alloc, 72)?;
    line.extend_from_slice(b"load")?;
    line.resize(72, b' ')?;
    Ok(Bytes::from_vec(line))
}

/// The model of the input.
#[tactic(auto, unfolding(crate::specs::LoadInput::load_model))]
fn load_model(alloc: Global, n: u32) -> Result<Model, AllocError>
    requires { (1 ≤ n) × (n ≤ 1000) }
    ensures { IfOk result (λ model. model ≡ load_model n) }
{
    let rows = load_rows(alloc, n)?;
    let mut start = Lines::new(alloc);
    start.push(start_line(alloc)?)?;
    let mut global = Tokens::new(alloc);
    global.push(Token::Empty)?;
    Ok(Model {
        start,
        comma: b',',
        semi: b';',
        global,
        rows,
    })
}

/// Adds a number of steps, in units.
#[tactic(auto, unfolding(crate::specs::LoadInput::units_text))]
fn push_units(text: &mut Bytes, steps: i128) -> Result<(), AllocError>
    ensures { OnOk result (text.new ≡ text.old ++ units_text steps) }
{
    push_real(text, steps, 12)
}

/// Adds the coordinates of a place, with a byte between them.
#[tactic(auto, unfolding(crate::specs::LoadInput::coordinates_text))]
fn push_coordinates(text: &mut Bytes, between: u8, at: Vec3) -> Result<(), AllocError>
    ensures { OnOk result (text.new ≡ text.old ++ coordinates_text between at) }
{
    push_units(text, at.x)?;
    text.push(between)?;
    push_units(text, at.y)?;
    text.push(between)?;
    push_units(text, at.z)
}

/// Adds the line of a point of an entity.
#[tactic(auto, unfolding(crate::specs::LoadInput::point_line))]
fn push_point(script: &mut Bytes, number: u32, at: Vec3) -> Result<(), AllocError>
    ensures { OnOk result (script.new ≡ script.old ++ point_line number at) }
{
    script.extend_from_slice(b"@1 point ")?;
    push_decimal(script, number)?;
    script.extend_from_slice(b" ")?;
    push_coordinates(script, b' ', at)?;
    script.extend_from_slice(b"\n")
}

/// Adds the line that replaces the sphere at a place.
#[tactic(auto, unfolding(crate::specs::LoadInput::replace_line))]
fn push_replace(script: &mut Bytes, place: u32) -> Result<(), AllocError>
    requires { place ≤ 1000 }
    ensures { OnOk result (script.new ≡ script.old ++ replace_line place) }
{
    script.extend_from_slice(b"@2 replace ")?;
    push_decimal(script, number_at(place))?;
    script.extend_from_slice(b" 158 0 0 158,0.5,")?;
    push_coordinates(script, b',', centre(place))?;
    script.extend_from_slice(b";\n")
}

/// A place beside the centre of a sphere.
#[tactic(auto, unfolding(crate::specs::LoadInput::beside, crate::specs::LoadInput::centre))]
fn beside(place: u32) -> Vec3
    ensures { result ≡ beside (centre place) }
{
    let at = centre(place);
    Vec3 {
        x: at.x + U / 4 * 3,
        y: at.y,
        z: at.z,
    }
}

/// Adds the lines that make the sphere at a place smaller.
#[tactic(auto, unfolding(crate::specs::LoadInput::smaller_lines))]
fn push_smaller(script: &mut Bytes, n: u32, place: u32) -> Result<(), AllocError>
    requires { (n ≤ 1000) × (place < n) }
    ensures { OnOk result (script.new ≡ script.old ++ smaller_lines n place) }
{
    push_replace(script, place)?;
    script.extend_from_slice(b"@2 commit\n")?;
    push_point(script, number_at(n), beside(place))
}

/// Adds the lines for the sphere at a place.
#[tactic(auto, unfolding(crate::specs::LoadInput::lines_at))]
fn push_lines(script: &mut Bytes, n: u32, place: u32) -> Result<(), AllocError>
    requires { (n ≤ 1000) × (place < n) }
    ensures { OnOk result (script.new ≡ script.old ++ lines_at n place) }
{
    push_point(script, number_at(n), centre(place))?;
    if place % 10 == 0 {
        push_smaller(script, n, place)?;
    }
    Ok(())
}

/// Adds the script.
fn push_script(script: &mut Bytes, n: u32) -> Result<(), AllocError>
    requires { n ≤ 1000 }
    ensures { OnOk result (script.new ≡ script.old ++ load_script n) }
{
    for place in 0..n {
        push_lines(script, n, place)?;
    }
    Ok(())
}

/// The input that `load` makes: a file of so many spheres of radius 1 in a grid and of their union,
/// and a script that asks the union for the centre of each, and makes every tenth smaller.
///
/// AllocError when out of memory.
#[tactic(auto, unfolding(crate::specs::LoadInput::load_bytes))]
pub fn load_input(alloc: Global, n: u32) -> Result<Bytes, AllocError>
    requires { (1 ≤ n) × (n ≤ 1000) }
    ensures { IfOk result (λ bytes. bytes ≡ load_bytes n) }
{
    let model = load_model(alloc, n)?;
    let mut bytes = write_model(alloc, &model)?;
    push_script(&mut bytes, n)?;
    Ok(bytes)
}
