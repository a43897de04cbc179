// A page that is written into a buffer.
ghost use Rattle.std.specs.Prelude.{◌≡◌, IfOk, IfErr, OnErr, Ok, length};
ghost use Rattle.st_host_frames.specs.Results.{NotPut, Wrote};

use crate::fault::HostFault;
use st_base::PageBytes;

/// Writes the bytes of a page to the front of a buffer, and returns how many there are.
pub(crate) fn write_page(page: &PageBytes, out: &mut [u8]) -> Result<usize, HostFault>
    ensures ok { IfOk result (Wrote page.now out.old out.new) }
    ensures err { IfErr result (NotPut (Ok page.now) (length out.old)) }
    ensures kept { OnErr result (out.new ≡ out.old) }
{
    let count = page.len();
    if out.len() < count {
        return Err(HostFault::Room(count));
    }
    page.write_to(&mut out[..count]);
    Ok(count)
}
