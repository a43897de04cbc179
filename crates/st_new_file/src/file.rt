// The file of a journal as it is made.
ghost use Rattle.std.specs.Prelude.{◌≡◌, ◌≤◌, ◌+◌, IfOk, OnOk, length};
ghost use Rattle.std.specs.Result.{IsErrOf};
ghost use Rattle.st_journal.specs.Parts.{stable_of};
ghost use Rattle.st_kept_journal.specs.declared.task.KeepFault.TheVariants.{Full};
ghost use Rattle.st_kept_histories.specs.Kept.{snapshot_of};
ghost use Rattle.st_new_file.specs.NewFile as files;
ghost use Rattle.st_new_file.specs.NewFile.{IsTooLong};
ghost use Rattle.st_snapshot.specs.Snapshots.{CanBe, Fits};

use st_journal_bytes::{Header, file_of};
use st_kept_journal::KeepFault;
use st_stable_file::{Stable, snapshot_bytes};
use std::alloc::Global;

/// What is written at the beginning of a new file: its header, two closed marks, and a first area
/// with a snapshot of this stable part, made at this moment. The file has zeros after it, up to the
/// end of its second area. Once all this is synced, the program writes 255 at the place
/// `MADE_PLACE`, and syncs again: then the file is made.
///
/// # Errors
/// `Full` if an area has too little room for the snapshot; and `Memory`.
pub fn new_file(
    alloc: Global,
    header: &Header,
    moment: u64,
    stable: &Stable,
) -> Result<Vec<u8>, KeepFault>
    ensures ok { IfOk result (λ v. v.items ≡ files.new_file header.now moment (stable_of stable.now)) }
    ensures room { OnOk result (length (snapshot_of moment (stable_of stable.now)) + 13 ≤ header.now.area) }
    ensures fits { OnOk result (Fits (stable_of stable.now)) }
    ensures right { OnOk result (CanBe (stable_of stable.now)) }
    ensures full { IsErrOf result Full → IsTooLong header.now moment (stable_of stable.now) }
{
    let Ok(snapshot) = snapshot_bytes(alloc, moment, stable.epoch, &stable.names, &stable.extents)
    else {
        return Err(KeepFault::Memory);
    };
    if header.area < 13 || ((header.area - 13) as usize) < snapshot.len() {
        return Err(KeepFault::Full);
    }
    match file_of(alloc, header, snapshot.as_slice()) {
        Ok(bytes) => Ok(bytes),
        Err(_) => Err(KeepFault::Memory),
    }
}
