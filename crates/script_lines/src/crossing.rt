//! What may be sent to another thread or shared with it, shown by functions that do nothing else.
ghost use Rattle.std.specs.Prelude.{◌≡◌};

use crate::commands::SessionLines;

/// Takes what may be sent to another thread, and gives it back.
fn sent<T: Send>(value: T) -> T
    ensures { result ≡ value }
{
    value
}

/// Takes what other threads may use at the same time.
fn shared<T: Sync>(value: &T) -> &T
    ensures { result.now ≡ value.now }
{
    value
}

/// The lines of a session may be sent to another thread.
pub fn lines_cross(lines: SessionLines) -> SessionLines
    ensures { result ≡ lines }
{
    sent(lines)
}

/// Threads may read the lines of a session at the same time.
pub fn lines_are_shared(lines: &SessionLines) -> &SessionLines
    ensures { result.now ≡ lines.now }
{
    shared(lines)
}
