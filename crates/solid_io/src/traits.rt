ghost use Rattle.std.specs.Prelude.{◌≡◌, ℕ, ◌<◌, ◌≤◌, List, length, IfOk, MatchResult};
ghost use Rattle.std.specs.declared.option.Option.{Option};
ghost use Rattle.std.specs.Io.{ReadsAtMost, WritesAtMost};
ghost use Rattle.std.specs.Io.KnownBytes.{ReadConsumes, WriteAppends};
ghost use Rattle.solid_base.specs.Ledgers.{most_count};
ghost use Rattle.solid_io.specs.Causes.{SameKnown, count_after};

/// A read or a write failed.
#[derive(Clone, Copy, Debug, PartialEq, Eq)]
pub struct Failed;

/// Where bytes come from. Contracts see the bytes left, known or not, and the count `faults` of the
/// reads that failed.
pub trait Source {
    ghost left: { Self → Option (List ℕ) };

    ghost faults: { Self → ℕ };

    /// Puts the first bytes of those left at the front of `buf`, and answers how many they are: 0
    /// with room in `buf` only at the end. After `Failed` no byte is lost, and the content of `buf`
    /// is free. The count of failures rises by one exactly then.
    fn read(&mut self, buf: &mut [u8]) -> Result<usize, Failed>
        ensures bound { ReadsAtMost result buf.new }
        ensures bytes { ReadConsumes (left self.old) (left self.new) result buf.new }
        ensures known { SameKnown (left self.old) (left self.new) }
        ensures cause { faults self.new ≡ count_after (faults self.old) result };

    /// No count is above the greatest `u64`.
    ghost bounded: { (source : Self) → faults source ≤ most_count };
}

/// Where bytes go. Contracts see the bytes held, known or not, and the count `faults` of the writes
/// that failed.
pub trait Sink {
    ghost held: { Self → Option (List ℕ) };

    ghost faults: { Self → ℕ };

    /// Appends a front of `bytes` to those held, and answers its length: at least 1 where there are
    /// any. After `Failed` the bytes held are as they were. The count of failures rises by one
    /// exactly then.
    fn write(&mut self, bytes: &[u8]) -> Result<usize, Failed>
        ensures bound { WritesAtMost result bytes.now }
        ensures bytes { WriteAppends (held self.old) (held self.new) result bytes.now }
        ensures known { SameKnown (held self.old) (held self.new) }
        ensures moves { 0 < length bytes.now → IfOk result (λ n. 0 < n) }
        ensures cause { faults self.new ≡ count_after (faults self.old) result };

    /// No count is above the greatest `u64`.
    ghost bounded: { (sink : Self) → faults sink ≤ most_count };
}

/// What a session is about to do, or has done.
#[derive(Clone, Copy, Debug, PartialEq, Eq)]
pub enum Spot {
    /// Before each work of a question.
    Work,
    /// After each reply.
    Answered,
}

/// Called wherever a session may be held.
pub trait Gate: Sync {
    /// The session with this number has reached this spot.
    fn reach(&self, session: u32, spot: Spot);
}
