ghost use Rattle.std.specs.Prelude.{◌≡◌, ◌++◌, OnOk};
ghost use mathlib.Core.List.{IsPrefix};
ghost use Rattle.edit_core.specs.EditFaults.{IsOfText};
ghost use Rattle.solid_desk.specs.Outcomes.{bad_line, staged, committed, refused, no_memory};
ghost use Rattle.solid_desk.specs.Outcomes.{reply_of, reply_text};

use crate::versions::push_version;
use edit_core::EditFault;
use script_lines::LineFault;
use solid_base::{Bytes, push_decimal};
use std::alloc::{AllocError, Global};

/// Adds the reply to a line that is no command. When out of memory, here and in the functions
/// below, what stood in the text still stands in front of it.
pub fn push_bad_line(out: &mut Bytes, fault: &LineFault) -> Result<(), AllocError>
    ensures ok { OnOk result (out.new ≡ out.old ++ reply_text (reply_of (bad_line fault.now))) }
    ensures front { IsPrefix out.old out.new }
{
    out.extend_from_slice(b"- REFUSED ")?;
    fault.push_words(out)?;
    out.extend_from_slice(b"\n")
}

/// Adds the reply to a line after which so many changes are staged.
pub fn push_staged(out: &mut Bytes, count: u32) -> Result<(), AllocError>
    ensures ok { OnOk result (out.new ≡ out.old ++ reply_text (reply_of (staged count))) }
    ensures front { IsPrefix out.old out.new }
{
    out.extend_from_slice(b"- STAGED ")?;
    push_decimal(out, count)?;
    out.extend_from_slice(b"\n")
}

/// Adds the reply to a commit that made a version.
pub fn push_committed(out: &mut Bytes, version: u64) -> Result<(), AllocError>
    ensures ok { OnOk result (out.new ≡ out.old ++ reply_text (reply_of (committed version))) }
    ensures front { IsPrefix out.old out.new }
{
    push_version(out, version)?;
    out.extend_from_slice(b" COMMITTED\n")
}

/// Adds the reply to a commit that has this fault on the model of a version.
pub fn push_refused(
    alloc: Global,
    out: &mut Bytes,
    version: u64,
    fault: &EditFault,
) -> Result<(), AllocError>
    requires { IsOfText fault.now }
    ensures ok { OnOk result (out.new ≡
        out.old ++ reply_text (reply_of (refused version fault.now))) }
    ensures front { IsPrefix out.old out.new }
{
    let words = fault.write_fault(alloc)?;
    push_version(out, version)?;
    out.extend_from_slice(b" REFUSED ")?;
    out.extend_from_slice(words.as_slice())?;
    out.extend_from_slice(b"\n")
}

/// Adds the reply to a line for which there isn't enough memory.
pub fn push_no_memory(out: &mut Bytes) -> Result<(), AllocError>
    ensures { OnOk result (out.new ≡ out.old ++ reply_text (reply_of no_memory)) }
{
    out.extend_from_slice(b"- MEMORY\n")
}
