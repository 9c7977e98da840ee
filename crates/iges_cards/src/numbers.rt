ghost use Rattle.std.specs.Prelude.{◌≡◌, ◌≤◌, length};
ghost use Rattle.iges_cards.specs.Numbers.{number_in};

use solid_base::{after_blanks, digits_in};

/// The number in at most seven columns: digits, with blanks before or after them.
#[tactic(auto, unfolding(crate::specs::Numbers::number_in))]
pub fn number_in(columns: &[u8]) -> Option<u32>
    requires { length columns.now ≤ 7 }
    ensures { result ≡ number_in columns.now }
{
    digits_in(after_blanks(columns))
}
