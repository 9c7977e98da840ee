ghost use Rattle.std.specs.Prelude.{◌≡◌, ◌++◌, decimal, OnOk, OnErr};

use itoa::Buffer;
use solid_base::Bytes;
use std::alloc::AllocError;

/// Adds the number of a version, in decimal. When out of memory the text is unchanged.
pub fn push_version(out: &mut Bytes, version: u64) -> Result<(), AllocError>
    ensures ok { OnOk result (out.new ≡ out.old ++ decimal version) }
    ensures err { OnErr result (out.new ≡ out.old) }
{
    let mut buffer = Buffer::new();
    out.extend_from_slice(buffer.format(version).as_bytes())
}
