ghost use Rattle.std.specs.Prelude.{◌≡◌, ◌<◌, length, min, IfOk, MatchResult};
ghost use Rattle.std.specs.Io.{ReadsAtMost, WritesAtMost};
ghost use Rattle.std.specs.Io.KnownBytes.{ReadConsumes, WriteAppends};
ghost use Rattle.solid_base.specs.Ledgers.{most_count};
ghost use Rattle.solid_io.specs.Causes.{SameKnown, count_after};

use crate::traits::{Failed, Sink, Source};
use std::io::{Read, Write};

/// Standard input, or any reader of std, as a source whose bytes aren't known. It counts each
/// failure.
#[derive(Drop)]
pub struct StdSource<R> {
    inner: R,
    faults: u64,
}

impl<R> StdSource<R> {
    /// The reader, with no failure yet.
    pub fn new(inner: R) -> StdSource<R>
        ensures reader { result.inner ≡ inner }
        ensures faults { result.faults ≡ 0 }
    {
        StdSource { inner, faults: 0 }
    }
}

impl<R: Read> Source for StdSource<R> {
    ghost use Rattle.std.specs.Prelude.{None};
    ghost use Rattle.solid_base.specs.Ledgers.{within_most};

    ghost left = { λ _. None };

    ghost faults = { λ s. min s.faults most_count };

    ghost bounded = { λ s. within_most s.faults };

    /// Calls the reader once. A read that fails isn't tried again.
    fn read(&mut self, buf: &mut [u8]) -> Result<usize, Failed>
        ensures bound { ReadsAtMost result buf.new }
        ensures bytes { ReadConsumes None None result buf.new }
        ensures known { SameKnown None None }
        ensures cause { min self.new.faults most_count ≡
            count_after (min self.old.faults most_count) result }

        ensures reader { ReadConsumes
            (R.remaining self.old.inner) (R.remaining self.new.inner) result buf.new }
    {
        match self.inner.read(buf) {
            Ok(count) => Ok(count),
            Err(_) => {
                self.faults = self.faults.saturating_add(1);
                Err(Failed)
            }
        }
    }
}

/// Standard output, or any writer of std, as a sink whose bytes aren't known. It counts each
/// failure.
#[derive(Drop)]
pub struct StdSink<W> {
    inner: W,
    faults: u64,
}

impl<W> StdSink<W> {
    /// The writer, with no failure yet.
    pub fn new(inner: W) -> StdSink<W>
        ensures writer { result.inner ≡ inner }
        ensures faults { result.faults ≡ 0 }
    {
        StdSink { inner, faults: 0 }
    }
}

impl<W: Write> Sink for StdSink<W> {
    ghost use Rattle.std.specs.Prelude.{None};
    ghost use Rattle.solid_base.specs.Ledgers.{within_most};

    ghost held = { λ _. None };

    ghost faults = { λ s. min s.faults most_count };

    ghost bounded = { λ s. within_most s.faults };

    /// Calls the writer once. A write that fails isn't tried again; a writer that takes no byte of
    /// a piece that isn't empty has failed.
    fn write(&mut self, bytes: &[u8]) -> Result<usize, Failed>
        ensures bound { WritesAtMost result bytes.now }
        ensures bytes { WriteAppends None None result bytes.now }
        ensures known { SameKnown None None }
        ensures moves { 0 < length bytes.now → IfOk result (λ n. 0 < n) }
        ensures cause { min self.new.faults most_count ≡
            count_after (min self.old.faults most_count) result }

        ensures writer { WriteAppends
            (W.contents self.old.inner) (W.contents self.new.inner) result bytes.now }
    {
        match self.inner.write(bytes) {
            Ok(count) if count > 0 || bytes.is_empty() => Ok(count),
            _ => {
                self.faults = self.faults.saturating_add(1);
                Err(Failed)
            }
        }
    }
}

#[cfg(test)]
mod tests {
    use super::*;
    use std::io;

    /// Calls on it go well and fail by turns, the first one well.
    #[derive(Drop)]
    struct Flaky {
        calls: u32,
    }

    impl Flaky {
        fn call(&mut self, size: usize) -> io::Result<usize>
            ensures { IfOk result (λ n. n ≡ min size 1) }
        {
            self.calls = self.calls.saturating_add(1);
            if self.calls % 2 == 0 {
                Err(io::ErrorKind::Interrupted.into())
            } else {
                Ok(size.min(1))
            }
        }
    }

    impl Read for Flaky {
        fn read(&mut self, buf: &mut [u8]) -> io::Result<usize> {
            self.call(buf.len())
        }
    }

    impl Write for Flaky {
        fn write(&mut self, bytes: &[u8]) -> io::Result<usize> {
            self.call(bytes.len())
        }

        fn flush(&mut self) -> io::Result<()> {
            Ok(())
        }
    }

    #[test]
    fn a_failed_call_is_not_made_again(rt: HostRuntime) {
        let mut source = StdSource::new(Flaky { calls: 0 });
        let mut sink = StdSink::new(Flaky { calls: 0 });
        let mut buf = [0; 4];
        for want in [Ok(1), Err(Failed), Ok(1), Err(Failed)] {
            assert_eq!(rt; source.read(&mut buf), want);
            assert_eq!(rt; sink.write(b"text"), want);
        }
        assert_eq!(rt; (source.inner.calls, source.faults), (4, 2));
        assert_eq!(rt; (sink.inner.calls, sink.faults), (4, 2));
    }
}
