//! What can stand under a turn.
ghost use Rattle.std.specs.Prelude.{◌≡◌, List, length};

/// A value with an opening, which never changes, and a log, to which entries are added at the end.
/// Contracts alone read the two.
pub trait Logged {
    type Opening;

    type Entry;

    ghost opening: { Self → Self.Opening };

    ghost log: { Self → List Self.Entry };

    /// How many entries the log has.
    fn count(&self) -> u64
        ensures length { result ≡ length (log self.now) };
}
