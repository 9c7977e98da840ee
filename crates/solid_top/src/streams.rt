ghost use Rattle.std.specs.Prelude.{◌≡◌, ◌≤◌, length, IfOk, IfErr, OnOk, OnErr};
ghost use Rattle.std.specs.Io.KnownBytes.{Appends, Consumes, IsAtEnd};
ghost use Rattle.solid_io.specs.Causes.{SameKnown, count_after};
ghost use Rattle.solid_top.specs.Streams.{AppendsFront, Stopped, count_after_reading, most_bytes};

use solid_base::Bytes;
use solid_io::{Failed, Sink, Source};
use std::alloc::{AllocError, Global};

/// The most bytes of input that are taken: 2^25.
pub const MOST_BYTES: usize = 1 << 25;

/// The bytes that are asked of the source at once.
const PIECE_BYTES: usize = 1 << 16;

/// Why the input was not read to its end.
#[derive(Clone, Copy, Debug, PartialEq, Eq)]
pub enum ReadError {
    /// Out of memory.
    Memory,
    /// A read failed.
    Fault,
    /// The input has more than `MOST_BYTES`.
    TooLong,
}

impl From<AllocError> for ReadError {
    ghost use Rattle.solid_top.specs.declared.streams.ReadError.TheVariants.{Memory};

    ghost from_gives = { λ _ e. e ≡ Memory };

    fn from(_error: AllocError) -> ReadError {
        ReadError::Memory
    }
}

impl From<Failed> for ReadError {
    ghost use Rattle.solid_top.specs.declared.streams.ReadError.TheVariants.{Fault};

    ghost from_gives = { λ _ e. e ≡ Fault };

    fn from(_failed: Failed) -> ReadError {
        ReadError::Fault
    }
}

/// As many zero bytes, to be read into.
fn buffer(alloc: Global, size: usize) -> Result<Vec<u8>, AllocError>
    ensures { IfOk result (λ buf. length buf.items ≡ size) }
{
    Vec::from_elem(alloc, 0, size)
}

/// Reads the source to its end, in pieces of 64 KiB. The first read that fails ends it, and so does
/// the first piece with which there are more than 2^25 bytes. After an error the source has lost
/// what was read.
pub fn read_input<S: Source>(alloc: Global, source: &mut S) -> Result<Bytes, ReadError>
    ensures fits { IfOk result (λ bytes. length bytes ≤ most_bytes) }
    ensures bytes { IfOk result (λ bytes. Consumes (S.left source.old) (S.left source.new) bytes) }
    ensures end { OnOk result (IsAtEnd (S.left source.new)) }
    ensures err { IfErr result (Stopped (S.left source.old) (S.left source.new)) }
    ensures cause { S.faults source.new ≡ count_after_reading (S.faults source.old) result }
    ensures known { SameKnown (S.left source.old) (S.left source.new) }
{
    let mut bytes = Bytes::new(alloc);
    let mut piece = buffer(alloc, PIECE_BYTES)?;
    loop {
        let count = source.read(&mut piece)?;
        if count == 0 {
            return Ok(bytes);
        }
        if count > MOST_BYTES - bytes.len() {
            return Err(ReadError::TooLong);
        }
        bytes.extend_from_slice(&piece[..count])?;
    }
}

/// Writes the whole text, in as few pieces as the sink takes. The first write that fails ends it;
/// then a front of the text was written.
pub fn write_text<K: Sink>(sink: &mut K, text: &[u8]) -> Result<(), Failed>
    ensures ok { OnOk result (Appends (K.held sink.old) (K.held sink.new) text.now) }
    ensures err { OnErr result (AppendsFront (K.held sink.old) (K.held sink.new) text.now) }
    ensures cause { K.faults sink.new ≡ count_after (K.faults sink.old) result }
    ensures known { SameKnown (K.held sink.old) (K.held sink.new) }
{
    let mut at = 0;
    while at < text.len() {
        at += sink.write(&text[at..])?;
    }
    Ok(())
}
