ghost use Rattle.std.specs.Prelude.{◌≡◌, ℕ, List, drop};
ghost use Rattle.std.specs.List.{AllByRecursion};
ghost use Rattle.solid_base.specs.declared.classes.Verdict.{Verdict};
ghost use Rattle.solid_base.specs.declared.geometry.Affine.{Affine};
ghost use Rattle.solid_base.specs.declared.solids.Primitive.{Primitive};
ghost use Rattle.solid_base.specs.Ledgers.{counted};
ghost use Rattle.solid_base.specs.Ranges.{IsLawfulPrim, IsLawfulRow};
ghost use Rattle.fixed_enclosure.specs.Places.{Span3, spans_of};
ghost use Rattle.fixed_enclosure.specs.Spans.{IsBox};
ghost use Rattle.csg_primitives.specs.WrittenMargins.{written_class};
ghost use Rattle.boolean_tree.specs.Verdicts.{first};
ghost use Rattle.affine_pull.specs.Chains.{chain_of, spans_through};
ghost use Rattle.solid_eval.specs.Taking.{evaluated, next_given};
ghost use Rattle.solid_eval.specs.Written.{named};

use affine_pull::pull_chain;
use csg_primitives::leaf;
use fixed_enclosure::Box3;
use solid_base::{Class, Ledger, Prim, Rows, Verdict};
use std::marker::PhantomData;

/// The verdict on what holds nothing.
pub const OUTSIDE: Verdict = Verdict {
    class: Class::Outside,
    leaf: 0,
};

/// Where the verdicts on the primitives of a solid come from, one after the other.
pub trait Leaves {
    /// Where a solid is asked.
    type Place: Copy;

    /// What the verdicts are taken from.
    type State;

    /// What contracts see of the state.
    ghost Seen: { Type 0 };

    ghost seen: { Self.State → Seen };

    /// That a solid can be asked there, and that these are the spans of the place.
    ghost can_ask: { Self.Place → Type 0 };

    ghost is_at: { Self.Place → Span3 → Type 0 };

    /// The verdict on a primitive, and what is seen of the state afterwards.
    ghost take: { ℕ → List Affine → Primitive → Span3 → Seen → Verdict × Seen };

    /// The place carried back through the chain of a matrix.
    fn back(rows: &Rows, matrix: u32, at: &Self::Place) -> Self::Place
        requires rows { AllByRecursion (λ e. IsLawfulRow e.row) rows.now }
        requires at { can_ask at.now }
        ensures can { can_ask result }
        ensures spans { (s : Span3) → is_at at.now s →
            is_at result (spans_through (chain_of rows.now matrix) s) };

    /// The verdict on a primitive, by its entity's number and its matrix.
    fn verdict(
        rows: &Rows,
        e: u32,
        prim: &Prim,
        matrix: u32,
        at: &Self::Place,
        state: &mut Self::State,
    ) -> Verdict
        requires rows { AllByRecursion (λ e. IsLawfulRow e.row) rows.now }
        requires prim { IsLawfulPrim prim.now }
        requires at { can_ask at.now }
        ensures verdict { (s : Span3) → is_at at.now s →
            result ≡ (take e (chain_of rows.now matrix) prim.now s (seen state.old)).0 }
        ensures seen { (s : Span3) → is_at at.now s →
            seen state.new ≡ (take e (chain_of rows.now matrix) prim.now s (seen state.old)).1 };

    /// Each place has spans.
    ghost somewhere: { (at : Self.Place) → (s : Span3) × is_at at s };
}

/// Verdicts that are evaluated, each of which is counted on a ledger.
pub struct Evaluated<L> {
    of: PhantomData<L>,
}

impl<L: Ledger> Leaves for Evaluated<L> {
    ghost use Rattle.std.specs.Prelude.{refl};

    type Place = Box3;

    type State = L;

    ghost Seen = { ℕ };

    ghost seen = { L.count };

    ghost can_ask = { IsBox };

    ghost is_at = { λ at s. spans_of at ≡ s };

    ghost take = { evaluated };

    ghost somewhere = { λ at. (spans_of at, refl) };

    fn back(rows: &Rows, matrix: u32, at: &Box3) -> Box3 {
        pull_chain(rows, matrix, at)
    }

    fn verdict(
        rows: &Rows,
        e: u32,
        prim: &Prim,
        matrix: u32,
        at: &Box3,
        ledger: &mut L,
    ) -> Verdict {
        let back = pull_chain(rows, matrix, at);
        evaluate(e, prim, &back, ledger)
    }
}

/// The verdict on a primitive over a box after its matrix: where the class is mixed, the leaf is
/// its own number.
pub fn evaluate<L: Ledger>(e: u32, prim: &Prim, at: &Box3, ledger: &mut L) -> Verdict
    requires prim { IsLawfulPrim prim.now }
    requires at { IsBox at.now }
    ensures verdict { result ≡ named e (written_class prim.now at.now) }
    ensures counted { L.count ledger.new ≡ counted (L.count ledger.old) 1 }
{
    let class = leaf(prim, at, ledger);
    Verdict {
        class,
        leaf: if class == Class::Mixed { e } else { 0 },
    }
}

/// No place: verdicts that are given are of no box.
#[derive(Clone, Copy, Debug)]
pub struct Anywhere;

/// Verdicts that are given, with the place of the next one.
#[derive(Drop)]
pub struct Given<'a> {
    pub verdicts: &'a [Verdict],
    pub next: usize,
}

impl<'a> Leaves for Given<'a> {
    ghost use Rattle.solid_base.specs.declared.classes.Verdict.{Verdict};
    ghost use Rattle.fixed_enclosure.specs.Spans.{Every};

    type Place = Anywhere;

    type State = Given<'a>;

    ghost Seen = { List Verdict };

    ghost seen = { λ g. drop g.next g.verdicts.now };

    ghost can_ask = { λ _. Unit {0} };

    ghost is_at = { λ _ _. Unit {0} };

    ghost take = { next_given };

    ghost somewhere = { λ _. (record { x = Every; y = Every; z = Every }, tt) };

    fn back(_rows: &Rows, _matrix: u32, at: &Anywhere) -> Anywhere
        ensures can { Unit {0} }
        ensures spans { (s : Span3) → Unit {0} → Unit {0} }
    {
        *at
    }

    fn verdict(
        _rows: &Rows,
        _e: u32,
        _prim: &Prim,
        _matrix: u32,
        _at: &Anywhere,
        given: &mut Given<'a>,
    ) -> Verdict
        ensures verdict { (s : Span3) → Unit {0} →
            result ≡ first (drop given.old.next given.old.verdicts.now) }
        ensures seen { (s : Span3) → Unit {0} → drop given.new.next given.new.verdicts.now ≡
            drop 1 (drop given.old.next given.old.verdicts.now) }
    {
        if given.next < given.verdicts.len() {
            let verdict = given.verdicts[given.next];
            given.next += 1;
            verdict
        } else {
            OUTSIDE
        }
    }
}
