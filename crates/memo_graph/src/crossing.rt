//! What may be sent to another thread, shown by a function that does nothing else.
ghost use Rattle.std.specs.Prelude.{◌≡◌};

use crate::memo::Memo;

fn sent<T: Send>(value: T) -> T
    ensures { result ≡ value }
{
    value
}

/// A memo may be sent to another thread.
pub fn memo_crosses(memo: Memo) -> Memo
    ensures { result ≡ memo }
{
    sent(memo)
}
