ghost use Rattle.std.specs.Prelude.{◌≡◌, ◌++◌, ◌*◌, OnOk, length, map};
ghost use mathlib.Core.List.{IsPrefix};
ghost use Rattle.solid_questions.specs.Bodies.{class_sign, section_line, section_lines};
ghost use Rattle.solid_questions.specs.Bodies.{section_head, section_words};

use crate::words::{push_count, push_text};
use solid_base::{Bytes, Class, Verdict};
use std::alloc::AllocError;

/// The sign of a cell.
fn sign(class: Class) -> u8
    ensures { result ≡ class_sign class }
{
    match class {
        Class::Outside => b'.',
        Class::Mixed => b'?',
        Class::Inside => b'#',
    }
}

/// Adds the signs of the cells of a line.
fn push_signs(out: &mut Bytes, cells: &[Verdict]) -> Result<(), AllocError>
    ensures ok { OnOk result (out.new ≡ out.old ++ map (λ v. class_sign v.class) cells.now) }
    ensures front { IsPrefix out.old out.new }
{
    for verdict in cells {
        out.push(sign(verdict.class))?;
    }
    Ok(())
}

/// Adds the lines of a section, each after a line feed.
fn push_lines(out: &mut Bytes, nx: u32, ny: u32, cells: &[Verdict]) -> Result<(), AllocError>
    requires { length cells.now ≡ nx * ny }
    ensures ok { OnOk result (out.new ≡ out.old ++ section_lines nx cells.now 0 ny) }
    ensures front { IsPrefix out.old out.new }
{
    let width = nx as usize;
    for line in 0..ny as usize {
        let start = width * line;
        push_text(out, b"\n")?;
        push_signs(out, &cells[start..start + width])?;
    }
    Ok(())
}

fn push_head(out: &mut Bytes, nx: u32, ny: u32) -> Result<(), AllocError>
    ensures ok { OnOk result (out.new ≡ out.old ++ section_head nx ny) }
    ensures front { IsPrefix out.old out.new }
{
    push_text(out, b"SECTION")?;
    push_count(out, u64::from(nx))?;
    push_count(out, u64::from(ny))
}

/// Adds the text of a section.
pub(crate) fn push_section(
    out: &mut Bytes,
    nx: u32,
    ny: u32,
    cells: &[Verdict],
) -> Result<(), AllocError>
    requires { length cells.now ≡ nx * ny }
    ensures ok { OnOk result (out.new ≡ out.old ++ section_words nx ny cells.now) }
    ensures front { IsPrefix out.old out.new }
{
    push_head(out, nx, ny)?;
    push_lines(out, nx, ny, cells)
}
