//! What may be sent to another thread, shown by functions that do nothing else.
ghost use Rattle.std.specs.Prelude.{◌≡◌};

use crate::entities::Model;
use crate::lists::List;
use crate::replies::Transcripts;
use crate::rows::Rows;
use crate::stack::Stack;

/// Takes what may be sent to another thread, and gives it back.
fn sent<T: Send>(value: T) -> T
    ensures { result ≡ value }
{
    value
}

/// A list may be sent to another thread where its items may.
pub fn list_crosses<T: Send>(list: List<T>) -> List<T>
    ensures { result ≡ list }
{
    sent(list)
}

/// Rows may be sent to another thread: their entities are shared.
pub fn rows_cross(rows: Rows) -> Rows
    ensures { result ≡ rows }
{
    sent(rows)
}

/// A model may be sent to another thread.
pub fn model_crosses(model: Model) -> Model
    ensures { result ≡ model }
{
    sent(model)
}

/// A list with room may be sent to another thread where its items may.
pub fn stack_crosses<T: Send>(stack: Stack<T>) -> Stack<T>
    ensures { result ≡ stack }
{
    sent(stack)
}

/// Transcripts may be sent to another thread.
pub fn transcripts_cross(transcripts: Transcripts) -> Transcripts
    ensures { result ≡ transcripts }
{
    sent(transcripts)
}
