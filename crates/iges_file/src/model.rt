ghost use Rattle.std.specs.Prelude.{◌≡◌, ◌≤◌, ◌^◌, length, IfOk, IfErr};
ghost use Rattle.iges_file.specs.Faults.{IsOfText, IsOuter};
ghost use Rattle.iges_parameters.specs.Accepted.{IsAccepted, lines_of};
ghost use Rattle.iges_file.specs.Files.{Reads, Refused};

use crate::faults::FileFault;
use crate::rows::{checked_lines, read_rows};
use entity_graph::Graph;
use iges_cards::read_cards;
use iges_directory::{read_directory, read_global};
use solid_base::Model;
use std::alloc::Global;

/// What a file is read as.
#[derive(Drop)]
pub struct ReadFile {
    /// The model.
    pub model: Model,
    /// The graph of the model's entities, whose references obey the rules.
    pub graph: Graph,
    /// How many lines the records of the model's entities take.
    pub lines: u64,
    /// The place after the terminate line, in bytes from the beginning.
    pub end: usize,
}

/// Reads a file in the fixed form (IGES 5.3, 2.2), of at most 2^25 bytes: its model, the graph of
/// the model's entities, how many lines their records take, and the place after its terminate line,
/// after which nothing is read.
///
/// The row at place i is that of the entity with the number 2i + 1. Entities of types and forms
/// that aren't read keep their records.
///
/// The first fault is reported: that of the lines; of the global section; of the directory; BadRow,
/// with the number of the first entity whose record has a fault and that fault; TooManyLines, where
/// the records would take more than 300,000 lines; that of the references between entities. Memory
/// comes when out of memory.
pub fn read_file(alloc: Global, bytes: &[u8]) -> Result<ReadFile, FileFault>
    requires { length bytes.now ≤ 2 ^ 25 }
    ensures reads { IfOk result (λ read. Reads bytes.now read.model read.end) }
    ensures graph { IfOk result (λ read. read.graph ≡ read.model.rows) }
    ensures lines { IfOk result (λ read. read.lines
        ≡ lines_of read.model.comma read.model.semi read.model.rows) }
    ensures accepted { IfOk result (λ read. IsAccepted read.model) }
    ensures outer { IfErr result IsOuter }
    ensures refused { IfErr result (λ fault. IsOfText fault → Refused bytes.now fault) }
{
    let cards = read_cards(alloc, bytes)?;
    let global = read_global(alloc, cards.global.as_slice())?;
    let pairs = read_directory(alloc, &cards.directory, cards.params.len() as u32)?;
    drop(cards.directory);
    let rows = read_rows(alloc, global.comma, global.semi, &cards.params, pairs)?;
    drop(cards.params);
    let lines = checked_lines(&rows)?;
    let graph = Graph::check(alloc, &rows)?;
    let model = Model {
        start: cards.start,
        comma: global.comma,
        semi: global.semi,
        global: global.tokens,
        rows,
    };
    Ok(ReadFile {
        model,
        graph,
        lines,
        end: cards.end,
    })
}

/// Reads a file as `read_file` does: its model, and the place after its terminate line.
pub fn read_model(alloc: Global, bytes: &[u8]) -> Result<(Model, usize), FileFault>
    requires { length bytes.now ≤ 2 ^ 25 }
    ensures reads { IfOk result (λ read. Reads bytes.now read.0 read.1) }
    ensures accepted { IfOk result (λ read. IsAccepted read.0) }
    ensures outer { IfErr result IsOuter }
    ensures refused { IfErr result (λ fault. IsOfText fault → Refused bytes.now fault) }
{
    let read = read_file(alloc, bytes)?;
    Ok((read.model, read.end))
}
