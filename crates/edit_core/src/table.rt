ghost use Rattle.std.specs.Prelude.{◌≡◌, ◌≤◌, length, Some, IfOk, IfErr};
ghost use Rattle.std.specs.List.{AllByRecursion};
ghost use Rattle.std.specs.Arc.{arc_value};
ghost use Rattle.solid_base.specs.References.{HasNumber, at_number};
ghost use Rattle.solid_base.specs.declared.entities.Model.{Model as model};
ghost use Rattle.solid_base.specs.Graph.{AreSound};
ghost use Rattle.iges_parameters.specs.Accepted.{IsAccepted, lines_of, most_entities, most_lines};
ghost use Rattle.edit_core.specs.EditFaults.{IsOfText, IsOuter};
ghost use Rattle.edit_core.specs.Edits.{MayBegin, AreAfter, IsRefused, most_versions};
ghost use Rattle.edit_core.specs.Placing.{IsReady, IsReferenceFault, AreNextStamps};
ghost use Rattle.edit_core.specs.Versions.{IsOpening, IsNext};

use crate::batch::Batch;
use crate::changed::changed_numbers;
use crate::copies::{copied_lines, copied_tokens};
use crate::faults::EditFault;
use crate::graphs::graph_after;
use crate::line_totals::check_lines;
use crate::staged_rows::rows_after;
use entity_graph::{Graph, Stamps};
use iges_parameters::line_count;
use solid_base::{Lines, Model as SolidModel, Numbers, Rows, Tokens};
use std::alloc::{AllocError, Global};
use std::marker::Model;
use std::sync::Arc;

/// The last version that there may be.
const MOST_VERSIONS: u64 = 10_000;

/// What a model has beside its rows, which all its versions share.
#[derive(Debug, Drop)]
pub struct Frame {
    pub start: Lines,
    pub comma: u8,
    pub semi: u8,
    pub global: Tokens,
}

/// A version of a model. Contracts see its number, its model and the stamps of its rows.
#[derive(Drop)]
pub struct Table {
    version: u64,
    frame: Arc<Frame>,
    rows: Rows,
    /// How many lines the records of the rows take.
    lines: u64,
    graph: Graph,
    stamps: Stamps,
}

impl Model for Table {
    ghost use Rattle.std.specs.Arc.{arc_value};
    ghost use Rattle.edit_core.specs.Versions.{Version, IsTable, version_of};

    ghost Value = { Version };

    ghost view = { λ t. version_of t.version (arc_value t.frame) t.rows t.stamps };

    ghost invariant = { λ t. IsTable (version_of t.version (arc_value t.frame) t.rows t.stamps)
        t.graph t.lines };
}

/// The same frame, shared.
fn shared_frame(frame: &Arc<Frame>) -> Result<Arc<Frame>, AllocError>
    ensures { IfOk result (λ shared. arc_value shared ≡ arc_value frame.now) }
{
    frame.clone()
}

/// EmptyBatch where the batch has no change, and then Full where there may be no version more.
fn check_begin(version: u64, batch: &Batch) -> Result<(), EditFault>
    ensures begins { IfOk result (λ _. MayBegin version batch.now) }
    ensures refused { IfErr result (λ fault. (m : model) → IsRefused m version batch.now fault) }
    ensures outer { IfErr result IsOuter }
{
    if batch.len() == 0 {
        return Err(EditFault::EmptyBatch);
    }
    if version == MOST_VERSIONS {
        return Err(EditFault::Full);
    }
    Ok(())
}

impl Table {
    /// The opening version of a model that is accepted: version 0, and each stamp 0. AllocError
    /// when out of memory; the model is then dropped.
    pub fn start(alloc: Global, model: SolidModel) -> Result<Table, AllocError>
        requires { IsAccepted model }
        ensures opening { IfOk result (IsOpening model) }
    {
        let lines = line_count(&model.rows);
        match Graph::check(alloc, &model.rows) {
            Ok(graph) => Table::start_with_graph(alloc, model, graph, lines),
            // The references of an accepted model have no fault, so memory ran out.
            Err(_) => Err(AllocError),
        }
    }

    /// The same from the graph of the model's rows and how many lines their records take, as a
    /// reader gives them.
    pub fn start_with_graph(
        alloc: Global,
        model: SolidModel,
        graph: Graph,
        lines: u64,
    ) -> Result<Table, AllocError>
        requires accepted { IsAccepted model }
        requires graph { graph ≡ model.rows }
        requires lines { lines ≡ lines_of model.comma model.semi model.rows }
        ensures opening { IfOk result (IsOpening model) }
    {
        let all = changed_numbers(alloc, &Batch::new(alloc), 0, model.rows.len())?;
        let stamps = graph.stamps(alloc, &model.rows, &Stamps::new(alloc), &all, 0)?;
        let frame = Frame {
            start: model.start,
            comma: model.comma,
            semi: model.semi,
            global: model.global,
        };
        Ok(Table {
            version: 0,
            frame: Arc::new(alloc, frame)?,
            rows: model.rows,
            lines,
            graph,
            stamps,
        })
    }

    /// The number of the version.
    pub fn version(&self) -> u64
        ensures { result ≡ self.now.number }
    {
        self.version
    }

    /// The rows.
    pub fn rows(&self) -> &Rows
        ensures { result.now ≡ self.now.model.rows }
    {
        &self.rows
    }

    /// The graph of the rows.
    pub fn graph(&self) -> &Graph
        ensures { result.now ≡ self.now.model.rows }
    {
        &self.graph
    }

    /// The stamp of the row with a number: the last version in which it, or a row that it reaches,
    /// was changed.
    pub fn stamp(&self, e: u32) -> u64
        requires { HasNumber self.now.model.rows e }
        ensures { at_number self.now.stamps e ≡ Some result }
    {
        self.stamps.of(e)
    }

    /// The model, whose rows are shared with the table. AllocError when out of memory.
    pub fn model(&self, alloc: Global) -> Result<SolidModel, AllocError>
        ensures { IfOk result (λ m. m ≡ self.now.model) }
    {
        Ok(SolidModel {
            start: copied_lines(alloc, &self.frame.start)?,
            comma: self.frame.comma,
            semi: self.frame.semi,
            global: copied_tokens(alloc, &self.frame.global)?,
            rows: self.rows.share(alloc)?,
        })
    }

    /// A law on each table: its model is accepted, each row has a stamp, and its version is at most
    /// 10,000.
    pub fn obeys(&self)
        ensures accepted { IsAccepted self.now.model }
        ensures one_each { length self.now.stamps ≡ length self.now.model.rows }
        ensures few { self.now.number ≤ most_versions }
    {
        let _ = &self.rows;
    }

    /// What the versions share.
    fn frame(&self) -> &Frame
        ensures comma { result.now.comma ≡ self.now.model.comma }
        ensures semi { result.now.semi ≡ self.now.model.semi }
    {
        &self.frame
    }

    /// How many lines the records of the rows take.
    pub fn lines(&self) -> u64
        ensures { result ≡ lines_of self.now.model.comma self.now.model.semi self.now.model.rows }
    {
        self.lines
    }

    /// The graph of the rows after a batch, and the stamps of the next version.
    fn graph_after(
        &self,
        alloc: Global,
        rows: &Rows,
        batch: &Batch,
    ) -> Result<(Graph, Stamps), EditFault>
        requires begins { MayBegin self.now.number batch.now }
        requires few { length rows.now ≤ most_entities }
        ensures graph { IfOk result (λ made. made.0 ≡ rows.now) }
        ensures sound { IfOk result (λ _. AreSound rows.now) }
        ensures stamps { IfOk result (λ made. AreNextStamps self.now batch.now rows.now made.1) }
        ensures first_fault { IfErr result (λ fault. IsOfText fault →
            IsReferenceFault batch.now rows.now fault) }
        ensures outer { IfErr result IsOuter }
    {
        let changed = changed_numbers(alloc, batch, self.rows.len(), rows.len())?;
        let version = self.version + 1;
        graph_after(alloc, rows, batch, &self.stamps, &changed, version)
    }

    /// The table of the next version, from the rows after a batch, their graph, the stamps and the
    /// lines.
    fn next(
        &self,
        batch: &Batch,
        rows: Rows,
        graph: Graph,
        stamps: Stamps,
        lines: u64,
    ) -> Result<Table, AllocError>
        requires begins { MayBegin self.now.number batch.now }
        requires after { AreAfter self.now.model.rows batch.now rows }
        requires ready { AllByRecursion IsReady rows }
        requires sound { AreSound rows }
        requires graph { graph ≡ rows }
        requires stamps { AreNextStamps self.now batch.now rows stamps }
        requires lines { lines ≡ lines_of self.now.model.comma self.now.model.semi rows }
        requires few { lines ≤ most_lines }
        ensures next { IfOk result (IsNext self.now batch.now) }
    {
        Ok(Table {
            version: self.version + 1,
            frame: shared_frame(&self.frame)?,
            rows,
            lines,
            graph,
            stamps,
        })
    }

    /// The table of the next version, which a batch makes; this one is unchanged.
    ///
    /// The first fault is reported: EmptyBatch; Full, where the version is 10,000; of the staged
    /// numbers in their places the first NoEntity, Taken, BadNumber or BadRecord, by the rows
    /// before; InUse, for the first dropped number that the rows after the batch name, with the
    /// least that names it; that of the references after the batch; TooManyLines, where the records
    /// would take more than 300,000 lines. Memory comes when out of memory.
    pub fn commit(&self, alloc: Global, batch: &Batch) -> Result<Table, EditFault>
        ensures next { IfOk result (IsNext self.now batch.now) }
        ensures first_fault { IfErr result (λ fault. IsOfText fault →
            IsRefused self.now.model self.now.number batch.now fault) }
        ensures outer { IfErr result IsOuter }
    {
        self.obeys();
        check_begin(self.version(), batch)?;
        let (rows, lines) = rows_after(alloc, self.frame(), self.rows(), self.lines(), batch)?;
        let (graph, stamps) = self.graph_after(alloc, &rows, batch)?;
        check_lines(lines)?;
        Ok(self.next(batch, rows, graph, stamps, lines)?)
    }
}
