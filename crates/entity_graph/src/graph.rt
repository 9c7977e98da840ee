ghost use Rattle.std.specs.Prelude.{◌≡◌, ◌↔◌, ◌≤◌, ℕ, length, Some, Contains, IfOk, IfErr};
ghost use Rattle.solid_base.specs.References.{HasNumber, Reaches, at_number};
ghost use Rattle.solid_base.specs.Graph.{AreSound, depth_of, weight_of};
ghost use Rattle.entity_graph.specs.GraphFaults.{IsOfText};
ghost use Rattle.entity_graph.specs.FirstFaults.{IsFault};
ghost use Rattle.entity_graph.specs.Opaque.{IsFirstOpaque};
ghost use Rattle.entity_graph.specs.Reached.{IsAscending};
ghost use Rattle.entity_graph.specs.Stamps.{IsStamp};

use crate::graph_faults::GraphFault;
use crate::links::Links;
use crate::marks::Marks;
use crate::reached::{mark_reached, mark_reaching};
use crate::rules::check_references;
use crate::stages::{find_depths, find_places, find_weights};
use crate::stamps::Stamps;
use crate::tables::Measure;
use solid_base::{Numbers, Rows};
use std::alloc::{AllocError, Global};
use std::marker::Model;
use std::snapshot::Snapshot;

/// Rows whose references obey the rules, with an order in which what a row names comes before it,
/// and the depth and the weight of each and the first row that it reaches and that isn't read.
/// Contracts see the rows.
#[derive(Drop)]
pub struct Graph {
    rows: Snapshot<Rows>,
    order: Vec<u32>,
    depths: Vec<u32>,
    weights: Vec<u32>,
    opaques: Vec<u32>,
}

impl Model for Graph {
    ghost use Rattle.std.specs.Prelude.{List};
    ghost use Rattle.solid_base.specs.declared.entities.Entity.{Entity};

    ghost Value = { List Entity };

    ghost use Rattle.entity_graph.specs.Tables.{AreTables};

    ghost view = { λ g. g.rows.value };

    ghost invariant = { λ g.
        AreTables g.rows.value g.order.items g.depths.items g.weights.items g.opaques.items };
}

impl Graph {
    /// The graph of rows. Else the first fault of their references: each kind is looked for in all
    /// rows before the next. Dangling where one names no entity or a null one, WrongTarget where it
    /// wants a matrix and names none or the other way round, Cycle where a row reaches one that
    /// reaches itself, TooDeep where a row has more than 64 levels, TooHeavy where it weighs more
    /// than 2^20; Memory when out of memory.
    pub fn check(alloc: Global, rows: &Rows) -> Result<Graph, GraphFault>
        requires { length rows.now ≤ 100000 }
        ensures graph { IfOk result (λ graph. graph ≡ rows.now) }
        ensures sound { IfOk result (λ _. AreSound rows.now) }
        ensures first_fault { IfErr result (λ fault. IsOfText fault → IsFault rows.now fault) }
    {
        Graph::of_links(alloc, &Links::read(alloc, rows)?)
    }

    /// The graph of rows and the stamps of the rows after a change of those with some numbers, as
    /// `check` and `stamps` give them, from one reading of the references. The faults are those of
    /// `check`.
    pub fn check_stamped(
        alloc: Global,
        rows: &Rows,
        old: &Stamps,
        changed: &Numbers,
        version: u64,
    ) -> Result<(Graph, Stamps), GraphFault>
        requires few { length rows.now ≤ 100000 }
        requires known { (e : ℕ) →
            HasNumber rows.now e → ¬ Contains changed.now e → HasNumber old.now e }
        ensures graph { IfOk result (λ made. made.0 ≡ rows.now) }
        ensures sound { IfOk result (λ _. AreSound rows.now) }
        ensures one_each { IfOk result (λ made. length made.1 ≡ length rows.now) }
        ensures stamps { IfOk result (λ made. (e s : ℕ) → at_number made.1 e ≡ Some s →
            IsStamp rows.now changed.now version old.now e s) }
        ensures first_fault { IfErr result (λ fault. IsOfText fault → IsFault rows.now fault) }
    {
        let links = Links::read(alloc, rows)?;
        let graph = Graph::of_links(alloc, &links)?;
        let stamps = graph.stamps_by(alloc, &links, old, changed, version)?;
        Ok((graph, stamps))
    }

    /// The graph of rows whose references are read, or the first fault.
    fn of_links(alloc: Global, links: &Links<'_>) -> Result<Graph, GraphFault>
        requires { length links.now ≤ 100000 }
        ensures graph { IfOk result (λ graph. graph ≡ links.now) }
        ensures sound { IfOk result (λ _. AreSound links.now) }
        ensures first_fault { IfErr result (λ fault. IsOfText fault → IsFault links.now fault) }
    {
        check_references(links)?;
        let order = find_places(alloc, links)?;
        let depths = find_depths(alloc, links, &order)?;
        let weights = find_weights(alloc, links, &order)?;
        let opaques = Measure::Opaque.table(alloc, links, &order)?;
        Ok(Graph {
            rows: Snapshot::of(links.rows()),
            order,
            depths,
            weights,
            opaques,
        })
    }

    /// A law on each graph: the references of its rows obey the rules.
    pub fn obeys(&self)
        ensures sound { AreSound self.now }
    {
        let _ = &self.rows;
    }

    /// The weight of the row with a number: how many evaluations of primitives it takes.
    pub fn weight(&self, e: u32) -> u64
        requires { HasNumber self.now e }
        ensures { result ≡ weight_of self.now e }
    {
        self.weights[(e / 2) as usize] as u64
    }

    /// The depth of the row with a number: 1 where it names no other, else 1 more than the greatest
    /// depth of those that it names.
    pub fn depth(&self, e: u32) -> u64
        requires { HasNumber self.now e }
        ensures { result ≡ depth_of self.now e }
    {
        self.depths[(e / 2) as usize] as u64
    }

    /// The least number of a row that isn't read, of those that the row with a number reaches,
    /// itself among them; 0 where it reaches none.
    pub fn opaque(&self, e: u32) -> u32
        requires { HasNumber self.now e }
        ensures { IsFirstOpaque self.now e result }
    {
        self.opaques[(e / 2) as usize]
    }
    /// The numbers of the rows that the row with a number reaches, itself among them, in ascending
    /// order.
    pub fn reach(&self, alloc: Global, rows: &Rows, e: u32) -> Result<Numbers, AllocError>
        requires graph { self.now ≡ rows.now }
        requires number { HasNumber rows.now e }
        ensures reached { IfOk result (λ numbers. (k : ℕ) →
            Contains numbers k ↔ Reaches rows.now e k) }
        ensures ascending { IfOk result (λ numbers. IsAscending numbers) }
    {
        let mut marked = Marks::none(alloc, rows.len())?;
        marked.mark(e);
        let marks = mark_reached(alloc, rows, &self.order, marked)?;
        marks.numbers(alloc)
    }

    /// The stamps of the rows after a change of those with some numbers: the version for each row
    /// that reaches one of them, and for each other its old stamp. A changed number that no row has
    /// changes nothing.
    pub fn stamps(
        &self,
        alloc: Global,
        rows: &Rows,
        old: &Stamps,
        changed: &Numbers,
        version: u64,
    ) -> Result<Stamps, AllocError>
        requires graph { self.now ≡ rows.now }
        requires known { (e : ℕ) →
            HasNumber rows.now e → ¬ Contains changed.now e → HasNumber old.now e }
        ensures one_each { IfOk result (λ stamps. length stamps ≡ length rows.now) }
        ensures stamps { IfOk result (λ stamps. (e s : ℕ) → at_number stamps e ≡ Some s →
            IsStamp rows.now changed.now version old.now e s) }
    {
        let links = Links::read(alloc, rows)?;
        self.stamps_by(alloc, &links, old, changed, version)
    }

    /// The same from the references, which are read.
    fn stamps_by(
        &self,
        alloc: Global,
        links: &Links<'_>,
        old: &Stamps,
        changed: &Numbers,
        version: u64,
    ) -> Result<Stamps, AllocError>
        requires graph { self.now ≡ links.now }
        requires known { (e : ℕ) →
            HasNumber links.now e → ¬ Contains changed.now e → HasNumber old.now e }
        ensures one_each { IfOk result (λ stamps. length stamps ≡ length links.now) }
        ensures stamps { IfOk result (λ stamps. (e s : ℕ) → at_number stamps e ≡ Some s →
            IsStamp links.now changed.now version old.now e s) }
    {
        let mut marked = Marks::none(alloc, links.len())?;
        marked.mark_numbers(changed.as_slice());
        let marks = mark_reaching(links, &self.order, marked);
        old.renewed(alloc, &marks, version)
    }
}
