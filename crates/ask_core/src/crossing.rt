//! What may be sent to another thread, shown by a function that does nothing else.
ghost use Rattle.std.specs.Prelude.{◌≡◌};

use crate::books::Book;

fn sent<T: Send>(value: T) -> T
    ensures { result ≡ value }
{
    value
}

/// A book may be sent to another thread.
pub fn book_crosses(book: Book) -> Book
    ensures { result ≡ book }
{
    sent(book)
}
