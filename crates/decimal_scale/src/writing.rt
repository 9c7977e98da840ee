ghost use Rattle.std.specs.Prelude.{◌≡◌, ◌+◌, ◌^◌, ◌/◌, ◌%◌, ◌<◌, ◌≤◌, ◌∷◌, ◌++◌, ◌==◌, [], IfOk};
ghost use Rattle.std.specs.Prelude.{OnOk, decimal, length, cond, unsigned_abs};
ghost use Rattle.std.specs.List.{suffix_len};
ghost use Rattle.solid_base.specs.Decimal.{IsReading};
ghost use Rattle.decimal_scale.specs.Writing.{last_digits, without_zeros, minus_text, real_text};

use crate::scaling::power_of_ten;
use itoa::Buffer;
use solid_base::Bytes;
use std::alloc::{AllocError, Global};

/// The text of `value / 10^places`: a minus sign where it is negative, the whole part, a point, and
/// the decimals without the zeros after them, at least one. With 12 places it is the text of
/// `value` steps, which is read as them again.
pub fn write_real(alloc: Global, value: i128, places: u32) -> Result<Bytes, AllocError>
    requires places { (1 ≤ places) × (places ≤ 15) }
    requires within { unsigned_abs value ≤ 10 ^ 37 }
    ensures text { IfOk result (λ text. text ≡ real_text value places) }
    ensures reads_back { places ≡ 12 → IfOk result (λ text. IsReading text value) }
{
    write(alloc, value, places)
}

/// Adds the text of `value / 10^places` that `write_real` writes. AllocError when out of memory; a
/// part of the text may then have been added.
pub fn push_real(text: &mut Bytes, value: i128, places: u32) -> Result<(), AllocError>
    requires { (1 ≤ places) × (places ≤ 15) }
    ensures { OnOk result (text.new ≡ text.old ++ real_text value places) }
{
    let unit = power_of_ten(u64::from(places));
    let (whole, part) = split(value.unsigned_abs(), unit);
    push_whole(text, value < 0, whole)?;
    text.push(b'.')?;
    push_decimals(text, unit, part, places)
}

/// How many bytes the text of `value / 10^places` has that `write_real` writes. It takes no memory.
pub fn real_length(value: i128, places: u32) -> usize
    requires { (1 ≤ places) × (places ≤ 15) }
    ensures { result ≡ length (real_text value places) }
{
    let size = value.unsigned_abs();
    let unit = power_of_ten(u64::from(places));
    let (whole, part) = split(size, unit);
    whole_length(value < 0, whole) + 1 + decimals_length(part, places)
}

/// How often a unit fits into a number, and what is left. Most numbers fit into 64 bits, where that
/// is much faster.
fn split(size: u128, unit: u64) -> (u128, u64)
    requires { 0 < unit }
    ensures whole { result.0 ≡ size / unit }
    ensures part { result.1 ≡ size % unit }
{
    match u64::try_from(size) {
        Ok(size) => (u128::from(size / unit), size % unit),
        Err(_) => (size / u128::from(unit), (size % u128::from(unit)) as u64),
    }
}

fn write(alloc: Global, value: i128, places: u32) -> Result<Bytes, AllocError>
    requires { (1 ≤ places) × (places ≤ 15) }
    ensures { IfOk result (λ text. text ≡ real_text value places) }
{
    let mut text = Bytes::from_vec(Vec::with_capacity(alloc, 24)?);
    push_real(&mut text, value, places)?;
    Ok(text)
}

/// Adds a minus sign or none, and a whole number.
fn push_whole(text: &mut Bytes, is_negative: bool, whole: u128) -> Result<(), AllocError>
    ensures { OnOk result (text.new
        ≡ text.old ++ (cond is_negative (45 ∷ []) [] ++ decimal whole)) }
{
    let mut buffer = Buffer::new();
    if is_negative {
        text.push(b'-')?;
    }
    match u64::try_from(whole) {
        Ok(short) => text.extend_from_slice(buffer.format(short).as_bytes()),
        Err(_) => text.extend_from_slice(buffer.format(whole).as_bytes()),
    }
}

/// How many bytes a minus sign or none and a whole number have.
fn whole_length(is_negative: bool, whole: u128) -> usize
    ensures value { result ≡ length (cond is_negative (45 ∷ []) [] ++ decimal whole) }
    ensures within { result ≤ 41 }
{
    usize::from(is_negative) + digits_in(whole)
}

/// How many digits a number has.
fn digits_in(number: u128) -> usize
    ensures value { result ≡ length (decimal number) }
    ensures within { result ≤ 40 }
{
    match u64::try_from(number) {
        Ok(short) => digits_in_short(short),
        Err(_) => {
            let mut buffer = Buffer::new();
            buffer.format(number).len()
        }
    }
}

/// How many digits a number of 64 bits has.
fn digits_in_short(number: u64) -> usize
    ensures value { result ≡ length (decimal number) }
    ensures within { result ≤ 20 }
{
    let mut rest = number;
    let mut count = 1;
    while rest >= 10 {
        rest /= 10;
        count += 1;
    }
    count
}

/// Adds the decimals of a part of a unit, which is a power of ten.
fn push_decimals(text: &mut Bytes, unit: u64, part: u64, places: u32) -> Result<(), AllocError>
    requires unit { unit ≡ 10 ^ places }
    requires places { (1 ≤ places) × (places ≤ 15) }
    requires part { part < unit }
    ensures { OnOk result (text.new ≡ text.old ++ without_zeros (last_digits places part)) }
{
    if part == 0 {
        return text.push(b'0');
    }
    // The digit 1 of the unit stands before the decimals, with the zeros in front of them.
    let mut buffer = Buffer::new();
    let decimals = &buffer.format(unit + part).as_bytes()[1..];
    text.extend_from_slice(significant(decimals))
}

/// How many decimals of a part of a unit are written, which has so many places.
fn decimals_length(part: u64, places: u32) -> usize
    requires places { (1 ≤ places) × (places ≤ 15) }
    requires part { part < 10 ^ places }
    ensures value { result ≡ length (without_zeros (last_digits places part)) }
    ensures within { result ≤ 15 }
{
    if part == 0 {
        return 1;
    }
    let (rest, count) = before_thousands(part, places);
    decimals_kept(rest, count) as usize
}

/// A part of a unit and its places, without zeros after it, three at a time.
fn before_thousands(part: u64, places: u32) -> (u64, u32)
    requires some { 0 < part }
    requires part { part < 10 ^ places }
    requires places { places ≤ 15 }
    ensures some { 0 < result.0 }
    ensures part { result.0 < 10 ^ result.1 }
    ensures places { result.1 ≤ places }
    ensures same { length (without_zeros (last_digits result.1 result.0))
        ≡ length (without_zeros (last_digits places part)) }
{
    let mut rest = part;
    let mut count = places;
    while rest % 1000 == 0 {
        rest /= 1000;
        count -= 3;
    }
    (rest, count)
}

/// The places of a part of a unit, without the zeros after it.
fn decimals_kept(part: u64, places: u32) -> u32
    requires some { 0 < part }
    requires part { part < 10 ^ places }
    requires places { places ≤ 15 }
    ensures value { result ≡ length (without_zeros (last_digits places part)) }
    ensures within { result ≤ 15 }
{
    let mut rest = part;
    let mut count = places;
    while rest % 10 == 0 {
        rest /= 10;
        count -= 1;
    }
    count
}

/// Digits without the zeros after them, but at least one digit.
fn significant(digits: &[u8]) -> &[u8]
    requires { 0 < length digits.now }
    ensures { result.now ≡ without_zeros digits.now }
{
    let count = digits.len() - zeros_after(digits);
    &digits[..count.max(1)]
}

/// How many zeros stand at the end.
fn zeros_after(digits: &[u8]) -> usize
    ensures within { result ≤ length digits.now }
    ensures value { result ≡ suffix_len (λ b. b == 48) digits.now }
{
    digits.iter().rev().take_while(|b| **b == b'0').count()
}
