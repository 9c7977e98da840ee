//! A book may stand under a turn that sessions take.
ghost use Rattle.std.specs.Prelude.{◌≡◌, length};

use crate::books::Book;
use crate::commits::Commit;
use solid_base::Model as SolidModel;
use turn_book::Logged;

impl Logged for Book {
    type Opening = SolidModel;

    type Entry = Commit;

    ghost opening = { λ b. b.opening };

    ghost log = { λ b. b.log };

    /// How many commits there are.
    fn count(&self) -> u64 {
        self.log().len() as u64
    }
}
