ghost use Rattle.std.specs.Prelude.{◌≡◌, IfOk};
ghost use Rattle.solid_top.specs.declared.statuses.Status.{Status};
ghost use Rattle.solid_top.specs.TopFaults.{IsOfText, refused_text};

use crate::faults::TopFault;
use crate::statuses::Status;
use solid_base::Bytes;
use std::alloc::{AllocError, Global};

/// What a run answers: its status, and the text to be written.
#[derive(Debug, Drop)]
pub struct Output {
    pub status: Status,
    pub text: Bytes,
}

/// The answer to a model that is refused.
pub fn refused(alloc: Global, fault: TopFault) -> Result<Output, AllocError>
    requires { IsOfText fault }
    ensures status { IfOk result (λ out. out.status ≡ Status.Refused) }
    ensures text { IfOk result (λ out. out.text ≡ refused_text fault) }
{
    let mut text = Bytes::new(alloc);
    text.extend_from_slice(b"MODEL REFUSED ")?;
    text.extend_from_slice(fault.write_fault(alloc)?.as_slice())?;
    text.extend_from_slice(b"\n")?;
    Ok(Output {
        status: Status::Refused,
        text,
    })
}
