ghost use Rattle.std.specs.Prelude.{◌≡◌, ◌++◌, decimal, pos, OnOk, unsigned_abs, ◌≤◌, ◌^◌};
ghost use mathlib.Core.List.{IsPrefix};
ghost use Rattle.solid_questions.specs.Bodies.{count_words, measure_words};

use decimal_scale::write_real;
use itoa::Buffer;
use solid_base::{Bytes, push_decimal};
use std::alloc::{AllocError, Global};

/// Adds a text. When out of memory nothing is changed.
pub(crate) fn push_text(out: &mut Bytes, text: &[u8]) -> Result<(), AllocError>
    ensures ok { OnOk result (out.new ≡ out.old ++ text.now) }
    ensures front { IsPrefix out.old out.new }
{
    out.extend_from_slice(text)
}

/// Adds a word and a number after it, in decimal.
pub(crate) fn push_number(out: &mut Bytes, word: &[u8], number: u32) -> Result<(), AllocError>
    ensures ok { OnOk result (out.new ≡ out.old ++ (word.now ++ decimal number)) }
    ensures front { IsPrefix out.old out.new }
{
    push_text(out, word)?;
    push_decimal(out, number)
}

/// Adds a blank and a count after it.
pub(crate) fn push_count(out: &mut Bytes, count: u64) -> Result<(), AllocError>
    ensures ok { OnOk result (out.new ≡ out.old ++ count_words count) }
    ensures front { IsPrefix out.old out.new }
{
    let mut buffer = Buffer::new();
    push_text(out, b" ")?;
    push_text(out, buffer.format(count).as_bytes())
}

/// Adds a blank and `value / 10^places` after it.
pub(crate) fn push_measure(
    alloc: Global,
    out: &mut Bytes,
    value: i128,
    places: u32,
) -> Result<(), AllocError>
    requires places { (1 ≤ places) × (places ≤ 15) }
    requires within { unsigned_abs value ≤ 10 ^ 37 }
    ensures ok { OnOk result (out.new ≡ out.old ++ measure_words places value) }
    ensures front { IsPrefix out.old out.new }
{
    let text = write_real(alloc, value, places)?;
    push_text(out, b" ")?;
    push_text(out, text.as_slice())
}
