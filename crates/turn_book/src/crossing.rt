//! What may be sent to another thread or shared with it, shown by functions that do nothing else.
ghost use Rattle.std.specs.Prelude.{◌≡◌};

use crate::logged::Logged;
use crate::pass::Pass;
use crate::turn::Turn;

/// Takes what may be sent to another thread, and gives it back.
fn sent<T: Send>(value: T) -> T
    ensures { result ≡ value }
{
    value
}

/// Takes what other threads may use at the same time.
fn shared<T: Sync>(value: &T) -> &T
    ensures { result.now ≡ value.now }
{
    value
}

/// A turn may be sent to another thread where its book may.
pub fn turn_crosses<B: Logged + Send>(turn: Turn<B>) -> Turn<B>
    ensures { result ≡ turn }
{
    sent(turn)
}

/// Threads may use a turn at the same time where its book may be sent to another thread.
pub fn turn_is_shared<B: Logged + Send>(turn: &Turn<B>) -> &Turn<B>
    ensures { result.now ≡ turn.now }
{
    shared(turn)
}

/// A pass may be sent to another thread where its book may.
pub fn pass_crosses<B: Logged + Send>(pass: Pass<B>) -> Pass<B>
    ensures { result ≡ pass }
{
    sent(pass)
}
