ghost use Rattle.std.specs.Prelude.{◌≡◌, ◌≤◌, ◌<◌, ◌+◌, ◌++◌, decimal, length, IfOk, OnOk};
ghost use Rattle.solid_top.specs.Checks.{
  check_text,
  global_words,
  globals_line,
  rows_line,
  tallies_of,
  with_row,
};

use crate::roots::push_roots;
use entity_graph::Graph;
use solid_base::{Bytes, Model, Row, Rows, Token, push_decimal};
use std::alloc::{AllocError, Global};

/// The number of the first global parameter that a model keeps: the two before it tell the
/// delimiters (IGES 5.3, 2.2.4.3).
const FIRST_KEPT: usize = 3;

/// How many rows are null, are kept as they stand, and are read.
#[derive(Clone, Copy, Debug, PartialEq, Eq)]
pub struct Tallies {
    pub null: u32,
    pub kept: u32,
    pub read: u32,
}

impl Tallies {
    /// Counts one row more.
    fn count(&mut self, row: &Row)
        requires { self.now.null + self.now.kept + self.now.read < 100000 }
        ensures { self.new ≡ with_row self.old row.now }
    {
        match row {
            Row::Null => self.null += 1,
            Row::Opaque { .. } => self.kept += 1,
            Row::Matrix { .. }
            | Row::Prim { .. }
            | Row::Tree { .. }
            | Row::Assembly { .. }
            | Row::Instance { .. } => self.read += 1,
        }
    }
}

/// Counts the rows of a model.
fn tally(rows: &Rows) -> Tallies
    requires { length rows.now ≤ 100000 }
    ensures { result ≡ tallies_of rows.now }
{
    let mut tallies = Tallies {
        null: 0,
        kept: 0,
        read: 0,
    };
    for at in 0..rows.len() {
        tallies.count(&rows.get(at).row);
    }
    tallies
}

/// Adds a label and a number after it.
fn push_count(out: &mut Bytes, label: &[u8], count: u32) -> Result<(), AllocError>
    ensures { OnOk result (out.new ≡ out.old ++ (label.now ++ decimal count)) }
{
    out.extend_from_slice(label)?;
    push_decimal(out, count)
}

/// Adds the line that tells how many rows there are, and how many of them are read, kept and null.
fn push_rows(out: &mut Bytes, rows: &Rows) -> Result<(), AllocError>
    requires { length rows.now ≤ 100000 }
    ensures { OnOk result (out.new ≡ out.old ++ rows_line rows.now) }
{
    let tallies = tally(rows);
    push_count(out, b"MODEL ", rows.len() as u32)?;
    push_count(out, b" READ ", tallies.read)?;
    push_count(out, b" KEPT ", tallies.kept)?;
    push_count(out, b" NULL ", tallies.null)?;
    out.extend_from_slice(b"\n")
}

/// The words of the global parameter with a number: `-` where it is empty or left out.
fn global_words(model: &Model, number: usize) -> &[u8]
    requires { 3 ≤ number }
    ensures { result.now ≡ global_words model.now number }
{
    match model.global.as_slice().get(number - FIRST_KEPT) {
        Some(Token::Whole(text)) => text.as_slice(),
        Some(Token::Real(text)) => text.as_slice(),
        Some(Token::Text(text)) => text.as_slice(),
        Some(Token::Empty) | None => b"-",
    }
}

/// Adds a label and the global parameter with a number after it.
fn push_global(
    out: &mut Bytes,
    label: &[u8],
    model: &Model,
    number: usize,
) -> Result<(), AllocError>
    requires { 3 ≤ number }
    ensures { OnOk result (out.new ≡ out.old ++ (label.now ++ global_words model.now number)) }
{
    out.extend_from_slice(label)?;
    out.extend_from_slice(global_words(model, number))
}

/// Adds the line of the model space scale, the units flag and the version flag.
fn push_globals(out: &mut Bytes, model: &Model) -> Result<(), AllocError>
    ensures { OnOk result (out.new ≡ out.old ++ globals_line model.now) }
{
    push_global(out, b"SCALE ", model, 13)?;
    push_global(out, b" UNITS ", model, 14)?;
    push_global(out, b" VERSION ", model, 23)?;
    out.extend_from_slice(b"\n")
}

/// The text of a check.
pub fn check_text(alloc: Global, model: &Model, graph: &Graph) -> Result<Bytes, AllocError>
    requires few { length model.now.rows ≤ 100000 }
    requires graph { graph.now ≡ model.now.rows }
    ensures { IfOk result (λ text. text ≡ check_text model.now) }
{
    let mut text = Bytes::new(alloc);
    push_rows(&mut text, &model.rows)?;
    push_globals(&mut text, model)?;
    push_roots(alloc, &mut text, &model.rows, graph)?;
    text.extend_from_slice(b"END\n")?;
    Ok(text)
}
