ghost use Rattle.std.specs.Prelude.{◌≡◌, ◌↔◌, ◌-◌, ◌<◌, [], ◌++◌, length, take, drop, min, IsErr};
ghost use Rattle.std.specs.Prelude.{IfOk, OnErr};
ghost use Rattle.std.specs.Io.{ReadsAtMost, WritesAtMost};
ghost use Rattle.std.specs.Io.KnownBytes.{ReadConsumes, WriteAppends};
ghost use Rattle.solid_base.specs.Ledgers.{most_count};
ghost use Rattle.solid_io.specs.Calls.{IsListed, after_call, after_failure};
ghost use Rattle.solid_io.specs.Causes.{SameKnown, count_after};

use crate::calls::Calls;
use crate::traits::{Failed, Sink, Source};
use solid_base::{Bytes, Numbers};
use std::alloc::{AllocError, Global};
use std::marker::Model;

/// Bytes in memory, as a source whose bytes are known. The listed calls fail.
#[derive(Drop)]
pub struct MemSource {
    bytes: Bytes,
    at: usize,
    calls: Calls,
}

impl Model for MemSource {
    ghost use Rattle.std.specs.Prelude.{◌≤◌, length, drop};
    ghost use Rattle.solid_io.specs.Memory.{Supply};

    ghost Value = { Supply };

    ghost view = { λ s. record { left = drop s.at s.bytes; calls = s.calls } };

    ghost invariant = { λ s. s.at ≤ length s.bytes };
}

impl MemSource {
    /// A source of these bytes. The calls with the numbers in `fails`, counted from 0, will fail.
    pub fn new(bytes: Bytes, fails: Numbers) -> MemSource
        ensures bytes { result.left ≡ bytes }
        ensures calls { result.calls ≡ record { fails = fails; made = 0; faults = 0 } }
    {
        MemSource {
            bytes,
            at: 0,
            calls: Calls::new(fails),
        }
    }
}

impl Source for MemSource {
    ghost use Rattle.std.specs.Prelude.{Some};
    ghost use Rattle.solid_base.specs.Ledgers.{within_most};

    ghost left = { λ s. Some s.left };

    ghost faults = { λ s. min s.calls.faults most_count };

    ghost bounded = { λ s. within_most s.calls.faults };

    /// Gives as many bytes as `buf` takes. Fails exactly at the listed calls, and then loses none.
    fn read(&mut self, buf: &mut [u8]) -> Result<usize, Failed>
        ensures bound { ReadsAtMost result buf.new }
        ensures bytes { ReadConsumes
            (Some self.old.left) (Some self.new.left) result buf.new }
        ensures known { SameKnown (Some self.old.left) (Some self.new.left) }
        ensures cause { min self.new.calls.faults most_count ≡
            count_after (min self.old.calls.faults most_count) result }

        ensures fails { IsErr result ↔ IsListed self.old.calls }
        ensures count { IfOk result (λ n. n ≡ min (length buf.old) (length self.old.left)) }
        ensures ok { IfOk result (λ n.
            self.new ≡ record { left = drop n self.old.left; calls = after_call self.old.calls }) }
        ensures err { OnErr result (
            self.new ≡ record self.old { calls = after_failure self.old.calls }) }
    {
        if self.calls.begin() {
            self.calls.fail();
            return Err(Failed);
        }
        let rest = &self.bytes.as_slice()[self.at..];
        let count = rest.len().min(buf.len());
        buf[..count].copy_from_slice(&rest[..count]);
        self.at += count;
        Ok(count)
    }
}

/// Bytes kept in memory, as a sink whose bytes are known. The listed calls fail.
#[derive(Drop)]
pub struct MemSink {
    bytes: Vec<u8>,
    room: usize,
    calls: Calls,
}

impl Model for MemSink {
    ghost use Rattle.std.specs.Prelude.{◌≤◌, vec_len, vec_capacity};
    ghost use Rattle.solid_io.specs.Memory.{Store};

    ghost Value = { Store };

    ghost view = { λ s. record { held = s.bytes.items; room = s.room; calls = s.calls } };

    ghost invariant = { λ s. (vec_len s.bytes ≤ s.room) × (s.room ≤ vec_capacity s.bytes) };
}

impl MemSink {
    ghost use Rattle.solid_io.specs.Memory.{Store};

    /// A sink that takes `room` bytes in all, with the memory for them. The calls with the numbers
    /// in `fails`, counted from 0, will fail.
    pub fn new(alloc: Global, room: usize, fails: Numbers) -> Result<MemSink, AllocError>
        ensures empty { IfOk result (λ sink. sink.held ≡ []) }
        ensures room { IfOk result (λ sink. sink.room ≡ room) }
        ensures calls { IfOk result (λ sink.
            sink.calls ≡ record { fails = fails; made = 0; faults = 0 }) }
    {
        Ok(MemSink {
            bytes: Vec::with_capacity(alloc, room)?,
            room,
            calls: Calls::new(fails),
        })
    }

    /// The bytes held, in the order in which they were written.
    pub fn held(&self) -> &[u8]
        ensures { result.now ≡ self.now.held }
    {
        self.bytes.as_slice()
    }
}

impl Sink for MemSink {
    ghost use Rattle.std.specs.Prelude.{Some};
    ghost use Rattle.solid_base.specs.Ledgers.{within_most};
    ghost use Rattle.solid_io.specs.Memory.{Refuses};

    ghost held = { λ s. Some s.held };

    ghost faults = { λ s. min s.calls.faults most_count };

    ghost bounded = { λ s. within_most s.calls.faults };

    /// Takes as many bytes as there is room for, and no memory. Fails exactly at the listed calls,
    /// and where no room is left for a piece that isn't empty, and then keeps nothing of the piece.
    fn write(&mut self, bytes: &[u8]) -> Result<usize, Failed>
        ensures bound { WritesAtMost result bytes.now }
        ensures bytes { WriteAppends
            (Some self.old.held) (Some self.new.held) result bytes.now }
        ensures known { SameKnown (Some self.old.held) (Some self.new.held) }
        ensures moves { 0 < length bytes.now → IfOk result (λ n. 0 < n) }
        ensures cause { min self.new.calls.faults most_count ≡
            count_after (min self.old.calls.faults most_count) result }

        ensures fails { IsErr result ↔ Refuses self.old bytes.now }
        ensures count { IfOk result (λ n.
            n ≡ min (length bytes.now) (self.old.room - length self.old.held)) }
        ensures ok { IfOk result (λ n. self.new ≡ record self.old {
          held = self.old.held ++ take n bytes.now;
          calls = after_call self.old.calls;
        }) }
        ensures err { OnErr result (
            self.new ≡ record self.old { calls = after_failure self.old.calls }) }
    {
        let free = self.room - self.bytes.len();
        if self.calls.begin() || (free == 0 && !bytes.is_empty()) {
            self.calls.fail();
            return Err(Failed);
        }
        let count = free.min(bytes.len());
        self.bytes.extend_from_slice(&bytes[..count]).unwrap();
        Ok(count)
    }
}

#[cfg(test)]
mod tests {
    use super::*;

    #[test]
    fn a_source_goes_on_after_a_failing_call(rt: HostRuntime) -> Result<(), AllocError> {
        let alloc = rt.alloc();
        let bytes = Bytes::from_vec(vec![in alloc; 1, 2, 3, 4, 5]?);
        let mut source = MemSource::new(bytes, Numbers::from_vec(vec![in alloc; 1]?));
        let mut seen = Bytes::new(alloc);
        for want in [Ok(2), Err(Failed), Ok(2), Ok(1), Ok(0)] {
            let mut buf = [0; 2];
            let got = source.read(&mut buf);
            assert_eq!(rt; got, want);
            if let Ok(count) = got {
                seen.extend_from_slice(&buf[..count])?;
            }
        }
        assert_eq!(rt; seen.as_slice(), [1, 2, 3, 4, 5].as_slice());
        Ok(())
    }

    #[test]
    fn a_sink_of_ten_bytes_is_full_after_two_pieces(rt: HostRuntime) -> Result<(), AllocError> {
        let alloc = rt.alloc();
        let mut sink = MemSink::new(alloc, 10, Numbers::new(alloc))?;
        assert_eq!(rt; sink.write(b"1234567"), Ok(7));
        assert_eq!(rt; sink.write(b"abcdefg"), Ok(3));
        assert_eq!(rt; sink.write(b"h"), Err(Failed));
        assert_eq!(rt; sink.write(b""), Ok(0));
        assert_eq!(rt; sink.held(), b"1234567abc".as_slice());
        Ok(())
    }
}
