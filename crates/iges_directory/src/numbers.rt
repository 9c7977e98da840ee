ghost use Rattle.std.specs.Prelude.{◌≡◌, ◌≤◌, length};
ghost use Rattle.iges_directory.specs.ColumnNumbers.{number_in};

use solid_base::{after_blanks, after_sign, digits_in};

/// The number in at most eight columns: a sign or none and digits, with blanks before or after
/// them. Blank columns hold 0. None where the columns hold no number, or one below 0.
#[tactic(auto, unfolding(crate::specs::ColumnNumbers::number_in))]
pub fn number_in(columns: &[u8]) -> Option<u32>
    requires { length columns.now ≤ 8 }
    ensures { result ≡ number_in columns.now }
{
    let text = after_blanks(columns);
    if text.is_empty() {
        return Some(0);
    }
    match digits_in(after_sign(text)) {
        Some(number) if text[0] == b'-' && number != 0 => None,
        found => found,
    }
}
