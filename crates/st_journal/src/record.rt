// How a change is written: its record, a sync, its gate, a sync.
ghost use Rattle.std.specs.Prelude.{◌≡◌, ◌≤◌, ◌<◌, ◌+◌, ◌++◌, ◌∷◌, [], true, IfOk, OnOk, length};
ghost use Rattle.st_link.specs.Causes.{HasCause};
ghost use Rattle.st_journal.specs.Changes.{fits};
ghost use Rattle.st_journal.specs.Journal.{framed};
ghost use Rattle.st_store.specs.Store.{LeavesOnly, Only, Torn, written};
ghost use Rattle.st_journal.specs.Appends.{IsTornAppend, Puts, WritesSynced, with_open_gate};

use crate::change::{Change, put_byte, put_word32};
use st_link::Failed;
use st_store::Store;
use std::alloc::{AllocError, Global};

/// The bytes that are written after a gate: the number of the change's bytes, those bytes, and a
/// gate that is not open.
#[tactic(auto, unfolding(crate::specs::Journal::framed))]
pub fn record_of(alloc: Global, change: &Change) -> Result<Vec<u8>, AllocError>
    requires { fits change.now ≡ true }
    ensures { IfOk result (λ r. r.items ≡ framed change.now ++ 0 ∷ []) }
{
    let mut out = Vec::new(alloc);
    put_word32(&mut out, change.size() as u32)?;
    change.put(&mut out)?;
    put_byte(&mut out, 0)?;
    Ok(out)
}

/// Writes bytes and syncs.
fn write_synced<D: Store>(store: &mut D, at: u64, bytes: &[u8]) -> Result<(), Failed>
    requires within { at + length bytes.now ≤ length (D.seen store.old) }
    requires durable { Only (D.seen store.old) (D.may_leave store.old) }
    ensures seen { OnOk result (D.seen store.new ≡ written (D.seen store.old) at bytes.now) }
    ensures durable { OnOk result (Only (D.seen store.new) (D.may_leave store.new)) }
    ensures any_moment { LeavesOnly D.moment D.left_since store.old store.new (Torn at (length bytes.now) (D.seen store.old)) }
    ensures exact { WritesSynced D.writes D.syncs at bytes.now store.old result store.new }
    ensures kept { D.keeps store.old store.new }
    ensures cause { HasCause (D.faults store.old) (D.faults store.new) result }
{
    store.write(at, bytes)?;
    store.sync()
}

/// Writes a record after the gate, and syncs; then opens the gate, and syncs.
pub(crate) fn put_record<D: Store>(store: &mut D, gate: u64, bytes: &[u8]) -> Result<(), Failed>
    requires within { gate + 1 + length bytes.now ≤ length (D.seen store.old) }
    requires small { length (D.seen store.old) < 4294967296 }
    requires durable { Only (D.seen store.old) (D.may_leave store.old) }
    ensures seen { OnOk result (D.seen store.new ≡ with_open_gate (D.seen store.old) gate bytes.now) }
    ensures durable { OnOk result (Only (D.seen store.new) (D.may_leave store.new)) }
    ensures any_moment { LeavesOnly D.moment D.left_since store.old store.new (IsTornAppend (D.seen store.old) gate bytes.now) }
    ensures exact { Puts D.writes D.syncs gate bytes.now store.old result store.new }
    ensures kept { D.keeps store.old store.new }
    ensures cause { HasCause (D.faults store.old) (D.faults store.new) result }
{
    write_synced(store, gate + 1, bytes)?;
    write_synced(store, gate, &[1])
}
