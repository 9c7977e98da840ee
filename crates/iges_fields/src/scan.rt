ghost use Rattle.std.specs.Prelude.{◌≡◌, ◌≤◌, ◌<◌, length, IsTrue};
ghost use Rattle.solid_base.specs.Spelling.{is_whole, is_exponent, class_with_rest, class_of};
ghost use Rattle.iges_fields.specs.Reading.{bytes_before, is_counted, kind_of};

use crate::kinds::FieldKind;
use solid_base::{after_sign, digit_count};

/// How many bytes stand before the first delimiter.
pub fn bytes_before(text: &[u8], comma: u8, semi: u8) -> usize
    ensures within { result ≤ length text.now }
    ensures value { result ≡ bytes_before comma semi text.now }
{
    text.iter()
        .take_while(|b| !(**b == comma || **b == semi))
        .count()
}

/// Whether an H stands after so many digits, of which there is one at least.
pub fn is_counted(count: usize, after: &[u8]) -> bool
    ensures some { IsTrue result → 0 < length after.now }
    ensures value { result ≡ is_counted count after.now }
{
    count != 0 && after.first() == Some(&b'H')
}

fn is_whole(text: &[u8]) -> bool
    ensures { result ≡ is_whole text.now }
{
    let digits = after_sign(text);
    let count = digit_count(digits);
    count != 0 && count == digits.len()
}

fn is_exponent(text: &[u8]) -> bool
    ensures { result ≡ is_exponent text.now }
{
    match text {
        [] => true,
        [b'D' | b'E' | b'd' | b'e', rest @ ..] => is_whole(rest),
        _ => false,
    }
}

fn kind_after(whole: usize, text: &[u8]) -> Option<FieldKind>
    ensures { result ≡ kind_of (class_with_rest whole text.now) }
{
    match text {
        [] if whole == 0 => None,
        [] => Some(FieldKind::Whole),
        [b'.', rest @ ..] => {
            let count = digit_count(rest);
            if (whole != 0 || count != 0) && is_exponent(&rest[count..]) {
                Some(FieldKind::Real)
            } else {
                None
            }
        }
        _ if whole != 0 && is_exponent(text) => Some(FieldKind::Real),
        _ => None,
    }
}

/// What a field is that holds these bytes and is no text; None where it is no field.
pub fn kind_of(text: &[u8]) -> Option<FieldKind>
    ensures { result ≡ kind_of (class_of text.now) }
{
    if text.is_empty() {
        return Some(FieldKind::Empty);
    }
    let number = after_sign(text);
    let count = digit_count(number);
    kind_after(count, &number[count..])
}
