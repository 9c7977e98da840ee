ghost use Rattle.std.specs.Prelude.{◌≤◌, ◌^◌, length, IfOk};
ghost use Rattle.solid_top.specs.Checks.{IsChecked};

use crate::faults::of_file;
use crate::outputs::{Output, refused};
use crate::report::check_text;
use crate::statuses::Status;
use iges_file::read_file;
use std::alloc::{AllocError, Global};

/// Reads a file in the fixed form, of at most 2^25 bytes, and tells what it holds: how many rows
/// there are, how many of them are read, kept and null; the model space scale, the units flag and
/// the version flag (IGES 5.3, 2.2.4.3, parameters 13, 14 and 23); and the number, the weight and
/// the depth of each solid that no entity names. The status is then `Done`.
///
/// Bytes that are no file are `Refused`, and the text is the line of their first fault. AllocError
/// comes when out of memory.
pub fn check_run(alloc: Global, bytes: &[u8]) -> Result<Output, AllocError>
    requires { length bytes.now ≤ 2 ^ 25 }
    ensures { IfOk result (λ out. IsChecked bytes.now out.status out.text) }
{
    match read_file(alloc, bytes) {
        Ok(read) => Ok(Output {
            status: Status::Done,
            text: check_text(alloc, &read.model, &read.graph)?,
        }),
        Err(fault) => refused(alloc, of_file(fault)?),
    }
}
