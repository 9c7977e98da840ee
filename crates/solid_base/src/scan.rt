ghost use Rattle.std.specs.Prelude.{◌≡◌, ◌≤◌, length, take, min, All, IsTrue};
ghost use Rattle.std.specs.List.{list_all, prefix_len, suffix_len};
ghost use Rattle.solid_base.specs.Digits.{is_digit, number_of};
ghost use Rattle.solid_base.specs.Spelling.{is_blank, after_blanks, before_blanks, digit_count};
ghost use Rattle.solid_base.specs.Spelling.{after_sign};
ghost use Rattle.solid_base.specs.Columns.{digits_in};

use crate::lists::Bytes;

/// How many digits stand in front of a text.
pub fn digit_count(text: &[u8]) -> usize
    ensures within { result ≤ length text.now }
    ensures digits { All (λ b. IsTrue (is_digit b)) (take result text.now) }
    ensures value { result ≡ digit_count text.now }
{
    text.iter().take_while(|b| b.is_ascii_digit()).count()
}

/// The number that digits spell, or `most` where it is larger.
pub fn number_up_to(digits: &[u8], most: u64) -> u64
    requires digits { All (λ b. IsTrue (is_digit b)) digits.now }
    ensures { result ≡ min (number_of digits.now) most }
{
    let mut number: u64 = 0;
    for b in digits {
        number = number
            .saturating_mul(10)
            .saturating_add(u64::from(*b - b'0'))
            .min(most);
    }
    number
}

/// The text after its sign; the whole text where it has none.
pub fn after_sign(text: &[u8]) -> &[u8]
    ensures value { result.now ≡ after_sign text.now }
    ensures within { length result.now ≤ length text.now }
{
    match text {
        [b'+' | b'-', rest @ ..] => rest,
        _ => text,
    }
}

/// Whether there are blanks alone, spaces or tabs.
pub fn are_blanks(text: &[u8]) -> bool
    ensures { result ≡ list_all is_blank text.now }
{
    text.iter().all(|b| *b == b' ' || *b == b'\t')
}

fn blanks_before(text: &[u8]) -> usize
    ensures within { result ≤ length text.now }
    ensures value { result ≡ prefix_len is_blank text.now }
{
    text.iter()
        .take_while(|b| **b == b' ' || **b == b'\t')
        .count()
}

/// The text without the blanks before it.
pub fn after_blanks(text: &[u8]) -> &[u8]
    ensures { result.now ≡ after_blanks text.now }
{
    &text[blanks_before(text)..]
}

fn blanks_after(text: &[u8]) -> usize
    ensures within { result ≤ length text.now }
    ensures value { result ≡ suffix_len is_blank text.now }
{
    text.iter()
        .rev()
        .take_while(|b| **b == b' ' || **b == b'\t')
        .count()
}

/// The text without the blanks after it.
pub fn before_blanks(text: &[u8]) -> &[u8]
    ensures { result.now ≡ before_blanks text.now }
{
    &text[..text.len() - blanks_after(text)]
}

/// A text of its own without the blanks after it, which takes no memory.
pub fn without_blanks_after(text: Vec<u8>) -> Bytes
    ensures { result ≡ before_blanks text.items }
{
    let mut kept = text;
    let count = kept.len() - blanks_after(&kept);
    kept.truncate(count);
    Bytes::from_vec(kept)
}

/// The number that at most nine digits spell.
fn number_of_digits(digits: &[u8]) -> u32
    requires digits { All (λ b. IsTrue (is_digit b)) digits.now }
    requires nine { length digits.now ≤ 9 }
    ensures { result ≡ number_of digits.now }
{
    number_up_to(digits, 999_999_999) as u32
}

/// The number in at most nine columns: one or more digits, and blanks alone after them. None where
/// the columns hold anything else.
#[tactic(auto, unfolding(crate::specs::Columns::digits_in))]
pub fn digits_in(columns: &[u8]) -> Option<u32>
    requires { length columns.now ≤ 9 }
    ensures { result ≡ digits_in columns.now }
{
    let count = digit_count(columns);
    if count != 0 && are_blanks(&columns[count..]) {
        Some(number_of_digits(&columns[..count]))
    } else {
        None
    }
}

#[cfg(test)]
mod tests {
    use super::*;

    #[test]
    fn reads_digits_up_to_a_bound(rt: HostRuntime) {
        for (text, most, number) in [
            ("", 9, 0),
            ("0", 9, 0),
            ("007", 9, 7),
            ("9", 9, 9),
            ("10", 9, 9),
            ("100000000", 9, 9),
            ("10", 0, 0),
            ("18446744073709551615", u64::MAX, u64::MAX),
            ("18446744073709551616", u64::MAX, u64::MAX),
            ("99999999999999999999999", u64::MAX, u64::MAX),
        ] {
            let digits = text.as_bytes();
            let (digits, _) = digits.split_at(digit_count(digits));
            assert_eq!(rt; number_up_to(digits, most), number, "{text}");
        }
    }

    #[test]
    fn skips_signs_and_blanks(rt: HostRuntime) {
        for (text, after) in [
            ("", ""),
            ("12 ", "12 "),
            (" \t 12", "12"),
            ("\t", ""),
            (" -12", "12"),
            ("+-12", "-12"),
        ] {
            assert_eq!(rt;
                after_sign(after_blanks(text.as_bytes())),
                after.as_bytes(),
                "{text}"
            );
        }
        assert!(rt; are_blanks(b"\t  ") && !are_blanks(b" 0"));
        for (text, kept) in [("", ""), (" \t", ""), (" 1 2\t ", " 1 2"), ("3", "3")] {
            assert_eq!(rt; before_blanks(text.as_bytes()), kept.as_bytes(), "{text}");
        }
    }

    #[test]
    fn reads_numbers_in_columns(rt: HostRuntime) {
        for (columns, number) in [
            ("", None),
            ("   ", None),
            ("7", Some(7)),
            ("0012\t ", Some(12)),
            ("999999999", Some(999_999_999)),
            (" 1", None),
            ("1 2", None),
            ("+1", None),
        ] {
            assert_eq!(rt; digits_in(columns.as_bytes()), number, "{columns}");
        }
    }
}
