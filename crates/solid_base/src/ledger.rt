ghost use Rattle.std.specs.Prelude.{◌≡◌, ℕ, ◌+◌, ◌≤◌, min};
ghost use Rattle.solid_base.specs.Ledgers.{most_count, counted};

/// Counts the evaluations of primitives, up to the greatest `u64`.
pub trait Ledger {
    ghost count: { Self → ℕ };

    /// One evaluation more. A count at the greatest `u64` stands still.
    fn tick(&mut self)
        ensures { count self.new ≡ counted (count self.old) 1 };

    /// No count is above the greatest `u64`.
    ghost bounded: { (ledger : Self) → count ledger ≤ most_count };
}

/// A ledger that tells its count.
#[derive(Clone, Copy, Debug, PartialEq, Eq)]
pub struct Tally {
    pub count: u64,
}

/// A ledger that keeps nothing: its count always stands at the greatest `u64`.
#[derive(Clone, Copy, Debug, PartialEq, Eq)]
pub struct NoTally;

impl Ledger for Tally {
    ghost use Rattle.solid_base.specs.Ledgers.{within_most};

    ghost count = { λ t. min t.count most_count };

    ghost bounded = { λ t. within_most t.count };

    fn tick(&mut self) {
        self.count = self.count.saturating_add(1);
    }
}

impl Ledger for NoTally {
    ghost use Rattle.solid_base.specs.Ledgers.{within_most};

    ghost count = { λ _. most_count };

    ghost bounded = { λ _. within_most most_count };

    fn tick(&mut self) {}
}

#[cfg(test)]
mod tests {
    use super::*;

    #[test]
    fn counts_to_the_greatest(rt: HostRuntime) {
        let mut tally = Tally {
            count: u64::MAX - 1,
        };
        tally.tick();
        assert_eq!(rt; tally.count, u64::MAX);
        tally.tick();
        assert_eq!(rt; tally.count, u64::MAX);
    }
}
