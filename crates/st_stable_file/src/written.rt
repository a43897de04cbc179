// What is written into a journal's file: snapshots of a stable part, and changes, with moments.
ghost use Rattle.std.specs.Prelude.{◌≡◌, true, IfOk, OnOk};
ghost use Rattle.st_journal.specs.Changes.{bytes_of, fits};
ghost use Rattle.st_journal_bytes.specs.Moments.{dated_bytes};
ghost use Rattle.st_snapshot.specs.Snapshots.{CanBe, Fits, snapshot};

use st_base::Epoch;
use st_extents::Extents;
use st_journal::{Change, record_of};
use st_journal_bytes::dated_of;
use st_namespace::Names;
use st_snapshot::snapshot_of;
use std::alloc::{AllocError, Global};

/// The bytes of a snapshot of this stable part, of which the last change was made at this moment.
pub fn snapshot_bytes(
    alloc: Global,
    moment: u64,
    epoch: Epoch,
    names: &Names,
    extents: &Extents,
) -> Result<Vec<u8>, AllocError>
    ensures bytes { IfOk result (λ v. v.items ≡ dated_bytes moment (snapshot (record { epoch = epoch; names = names.now; extents = extents.now }))) }
    ensures fits { OnOk result (Fits (record { epoch = epoch; names = names.now; extents = extents.now })) }
    ensures right { OnOk result (CanBe (record { epoch = epoch; names = names.now; extents = extents.now })) }
{
    let bytes = snapshot_of(alloc, epoch, names, extents)?;
    dated_of(alloc, moment, bytes.as_slice())
}

/// The bytes of a record of this change, which was made at this moment.
pub fn change_bytes(alloc: Global, moment: u64, change: &Change) -> Result<Vec<u8>, AllocError>
    requires { fits change.now ≡ true }
    ensures { IfOk result (λ v. v.items ≡ dated_bytes moment (bytes_of change.now)) }
{
    let framed = record_of(alloc, change)?;
    let size = change.size() as usize;
    let (front, _) = framed.as_slice().split_at(size + 4);
    let (_, bytes) = front.split_at(4);
    dated_of(alloc, moment, bytes)
}
