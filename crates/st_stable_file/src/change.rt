// A record of a change, which is applied.
ghost use Rattle.std.specs.Prelude.{◌≡◌, IfErr, IfOk, OnOk, Some, true};
ghost use Rattle.st_journal.specs.Changes.{fits};
ghost use Rattle.st_journal.specs.Parts.{stable_of};
ghost use Rattle.st_journal_bytes.specs.Moments.{dated_bytes};
ghost use Rattle.st_stable_file.specs.Opened.{IsChange, IsNoChange, IsRefusedAt};
ghost use Rattle.st_stable_file.specs.Stables as stables;

use crate::fault::StableFault;
use st_journal::{Change, ChangeRefusal, Stable, decode};
use st_journal_bytes::read_dated;
use std::alloc::Global;

/// Whether the counter that a change raises is not at its end.
fn has_room(stable: &Stable, change: &Change) -> bool
    ensures { result ≡ stables.has_room (stable_of stable.now) change.now }
{
    match change {
        Change::Epoch => stable.epoch.0 < 18_446_744_073_709_551_615,
        Change::Allocate { .. } => stable.extents.next_birth() <= 4_611_686_018_427_387_904,
        Change::Create { .. } | Change::Mkdir { .. } => stable.names.next_ino() < 4_294_967_295,
        Change::Cut { .. } | Change::Remove { .. } | Change::Rename { .. } => true,
    }
}

/// Applies a change of which the record is after the open gate at this place.
fn apply_change(stable: &mut Stable, change: &Change, at: u64) -> Result<(), StableFault>
    requires { fits change.now ≡ true }
    ensures ok { OnOk result (stables.changed (stable_of stable.old) change.now ≡ Some (stable_of stable.new)) }
    ensures err { IfErr result (IsRefusedAt (stable_of stable.old) change.now at) }
{
    if !has_room(stable, change) {
        return Err(StableFault::Damaged { at });
    }
    match stable.apply(change) {
        Ok(()) => Ok(()),
        Err(ChangeRefusal::Memory) => Err(StableFault::Memory),
        Err(_) => Err(StableFault::Damaged { at }),
    }
}

/// Applies the change that these bytes spell, which was made at this moment: `last` or a later one.
fn apply_spelled(
    alloc: Global,
    stable: &mut Stable,
    last: u64,
    moment: u64,
    bytes: &[u8],
    at: u64,
) -> Result<(), StableFault>
    ensures ok { OnOk result (IsChange (stable_of stable.old) last (dated_bytes moment bytes.now) (stable_of stable.new) moment) }
    ensures err { IfErr result (IsNoChange (stable_of stable.old) last (dated_bytes moment bytes.now) at) }
{
    if moment < last {
        return Err(StableFault::Damaged { at });
    }
    let Ok(found) = decode(alloc, bytes) else {
        return Err(StableFault::Memory);
    };
    let Some(change) = found else {
        return Err(StableFault::Damaged { at });
    };
    apply_change(stable, &change, at)?;
    Ok(())
}

/// Applies the change of a record after the open gate at this place, and gives the moment at which
/// it was made: `last` or a later one.
pub fn apply_record(
    alloc: Global,
    stable: &mut Stable,
    last: u64,
    record_bytes: &[u8],
    at: u64,
) -> Result<u64, StableFault>
    ensures ok { IfOk result (IsChange (stable_of stable.old) last record_bytes.now (stable_of stable.new)) }
    ensures err { IfErr result (IsNoChange (stable_of stable.old) last record_bytes.now at) }
{
    let Some((moment, bytes)) = read_dated(record_bytes) else {
        return Err(StableFault::Damaged { at });
    };
    match apply_spelled(alloc, stable, last, moment, bytes, at) {
        Ok(()) => Ok(moment),
        Err(fault) => Err(fault),
    }
}
