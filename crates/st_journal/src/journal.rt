// A journal over a store.
ghost use Rattle.std.specs.Prelude.{◌≡◌, ◌≤◌, ◌<◌, ◌++◌, ◌∷◌, [], ℕ, List, Option, Some, None, true, false, IfOk, IfErr, OnOk, length};
ghost use Rattle.st_extents.specs.Layout.{IsWithinLimits};
ghost use Rattle.st_rules.specs.Server as machine;
ghost use Rattle.st_journal.specs.Changes.{fits, is_ranged};
ghost use Rattle.st_journal.specs.Journal.{Applies, IsJournal, framed};
ghost use Rattle.st_journal.specs.OpenedJournal as opened;
ghost use Rattle.st_journal.specs.OpenedJournal.{Appends, HasPrefix, NotAppended, NotOpened, Opens, ReadsPrefix, Records};
ghost use Rattle.st_journal.specs.Parts as parts;
ghost use Rattle.st_store.specs.Plans as plans;
ghost use Rattle.st_journal.specs.Scan as scan;
ghost use Rattle.st_journal.specs.Stable as stables;
ghost use Rattle.st_store.specs.Store.{LeavesOnly, Only, Rests};
ghost use Rattle.st_journal.specs.Appends.{IsTornAppend};
ghost use Rattle.st_link.specs.Causes.{HasCause};
ghost use Rattle.st_journal.specs.declared.change.Change.{Change};
ghost use Rattle.st_journal.specs.declared.fault.JournalFault.TheVariants.{Full};

use crate::change::Change;
use crate::fault::JournalFault;
use crate::record::{put_record, record_of};
use crate::scan::{Scanned, read_on};
use crate::stable::Stable;
use st_base::ServerId;
use st_link::Failed;
use st_store::{MemoryStore, Store};
use std::alloc::Global;
use std::marker::Model;

/// The changes to a server's stable part, in a store. Contracts see the store, where the gate after
/// the changes is, how many changes there are, and whether an append failed at the store.
#[derive(Drop)]
pub struct Journal<D: Store + Drop> {
    alloc: Global,
    store: D,
    gate: u64,
    changes: u64,
    broken: bool,
}

impl<D: Store + Drop> Model for Journal<D> {
    ghost use Rattle.std.specs.Prelude.{◌≡◌, false};
    ghost use Rattle.st_journal.specs.OpenedJournal.{IsAtRest, Opened};

    ghost Value = { Opened D };

    ghost view = { λ j. record { store = j.store; gate = j.gate; changes = j.changes; broken = j.broken } };

    ghost invariant = { λ j. j.broken ≡ false → IsAtRest D.seen D.may_leave (record { store = j.store; gate = j.gate; changes = j.changes; broken = j.broken }) };
}

/// Syncs a store. It writes nothing.
fn sync<D: Store>(store: &mut D) -> Result<(), Failed>
    ensures seen { OnOk result (D.seen store.new ≡ D.seen store.old) }
    ensures durable { OnOk result (Only (D.seen store.old) (D.may_leave store.new)) }
    ensures rests { Rests D.keeps D.may_leave D.moment D.left_since store.old store.new }
    ensures cause { HasCause (D.faults store.old) (D.faults store.new) result }
{
    store.sync()
}

/// Syncs a store, and then reads its changes after those that are known, and applies them.
fn read_synced<D: Store>(
    alloc: Global,
    store: &mut D,
    stable: &mut Stable,
    known: Scanned,
) -> Result<Scanned, JournalFault>
    requires small { length (D.seen store.old) < 4294967296 }
    requires known { (start : machine.Stable) × scan.IsReadTo (D.seen store.old) start (parts.stable_of stable.old) known }
    ensures read { (start : machine.Stable) → scan.IsReadTo (D.seen store.old) start (parts.stable_of stable.old) known → IfOk result (λ s. scan.ReadsAll (D.seen store.old) start (parts.stable_of stable.new) s) }
    ensures fault { (start : machine.Stable) → scan.IsReadTo (D.seen store.old) start (parts.stable_of stable.old) known → IfErr result (scan.NotAllRead (D.seen store.old) start (D.faults store.old) (D.faults store.new)) }
    ensures seen { OnOk result (D.seen store.new ≡ D.seen store.old) }
    ensures durable { OnOk result (Only (D.seen store.old) (D.may_leave store.new)) }
    ensures rests { Rests D.keeps D.may_leave D.moment D.left_since store.old store.new }
{
    let Ok(()) = sync(store) else {
        return Err(JournalFault::Store);
    };
    read_on(alloc, store, stable, known)
}

/// Whether the bytes after a gate are enough.
fn check_room(size: u64, gate: u64, asked: u64) -> Result<(), JournalFault>
    requires { gate < size }
    ensures ok { OnOk result (asked ≤ opened.room_behind size gate) }
    ensures err { IfErr result (λ f. (f ≡ Full (opened.room_behind size gate) asked) × (opened.room_behind size gate < asked)) }
{
    let free = size - gate - 1;
    if free < asked {
        return Err(JournalFault::Full { free, asked });
    }
    Ok(())
}

/// Appends a change after the gate at this place, and says how many bytes it takes with the next
/// gate.
fn append_at<D: Store>(
    alloc: Global,
    store: &mut D,
    gate: u64,
    change: &Change,
) -> Result<u64, JournalFault>
    requires fits { fits change.now ≡ true }
    requires within { gate < length (D.seen store.old) }
    requires small { length (D.seen store.old) < 4294967296 }
    requires durable { Only (D.seen store.old) (D.may_leave store.old) }
    ensures ok { IfOk result (opened.PutsAt D.seen D.may_leave store.old store.new gate change.now) }
    ensures err { IfErr result (opened.NotPut D.seen D.faults store.old store.new gate change.now) }
    ensures any_moment { LeavesOnly D.moment D.left_since store.old store.new (IsTornAppend (D.seen store.old) gate (framed change.now ++ 0 ∷ [])) }
    ensures calls { opened.PutCalls D.writes D.syncs store.old store.new gate change.now result }
    ensures kept { D.keeps store.old store.new }
{
    let asked = change.size() + 5;
    check_room(store.size(), gate, asked)?;
    let Ok(bytes) = record_of(alloc, change) else {
        return Err(JournalFault::Memory);
    };
    match put_record(store, gate, bytes.as_slice()) {
        Ok(()) => Ok(asked),
        Err(_) => Err(JournalFault::Store),
    }
}

impl<D: Store + Drop> Journal<D> {
    /// Opens a store: syncs it, reads its changes, and applies them to a fresh stable part.
    /// `server` is from 1 to `servers`, which is at most 4; there are `servers` to 8 disks of 1 to
    /// 4,096 `blocks` each. The store has 1 to 2^32 - 1 bytes. A store of zeros has no change. It
    /// writes nothing. The store comes back with a fault: `Damaged`, if no change that applies lies
    /// after an open gate with its next gate; `Store`, if the store failed in this call; or
    /// `Memory`.
    pub fn open(
        alloc: Global,
        store: D,
        server: ServerId,
        servers: u16,
        disks: u16,
        blocks: u32,
    ) -> Result<(Journal<D>, Stable), (D, JournalFault)>
        requires limits { IsWithinLimits server.0 servers disks blocks }
        requires some { 1 ≤ length (D.seen store) }
        requires small { length (D.seen store) < 4294967296 }
        ensures ok { IfOk result (λ x. Opens D.seen D.may_leave (opened.fresh_of server servers disks blocks) store x.0 (parts.stable_of x.1)) }
        ensures err { IfErr result (λ e. NotOpened (opened.fresh_of server servers disks blocks) (D.seen store) (D.faults store) (D.faults e.0) e.1) }
        // Of bytes whose journal is the acknowledged changes, and at most the one under way, it
        // reads what these make.
        ensures prefix { (acked : List Change) (under_way : Option Change) (last : machine.Stable) → stables.after_changes (Some (opened.fresh_of server servers disks blocks)) (opened.all_of acked under_way) ≡ Some last
            → HasPrefix acked under_way (D.seen store) → ReadsPrefix (opened.fresh_of server servers disks blocks) acked under_way result }
        // A crash at any moment leaves what it might have left before.
        ensures rests { Rests D.keeps D.may_leave D.moment D.left_since store (opened.store_of result) }
        // At first the journal records the changes that were read.
        ensures records { IfOk result (λ x. (acked : List Change) → IsJournal (D.seen store) acked → Records D.seen D.may_leave x.0 acked None) }
    {
        match Stable::fresh(alloc, server, servers, disks, blocks) {
            Ok(stable) => Journal::reopen(
                alloc,
                store,
                stable,
                Scanned {
                    gate: 0,
                    changes: 0,
                },
            ),
            Err(_) => Err((store, JournalFault::Memory)),
        }
    }

    /// Opens a store whose first changes are known, with the stable part that they lead to: syncs
    /// it, reads the changes after the known ones, and applies them. Its answers are those of
    /// `open`, which reads all changes.
    pub fn reopen(
        alloc: Global,
        store: D,
        stable: Stable,
        known: Scanned,
    ) -> Result<(Journal<D>, Stable), (D, JournalFault)>
        requires small { length (D.seen store) < 4294967296 }
        requires known { (start : machine.Stable) × scan.IsReadTo (D.seen store) start (parts.stable_of stable) known }
        ensures ok { (start : machine.Stable) → scan.IsReadTo (D.seen store) start (parts.stable_of stable) known → IfOk result (λ x. Opens D.seen D.may_leave start store x.0 (parts.stable_of x.1)) }
        ensures err { (start : machine.Stable) → scan.IsReadTo (D.seen store) start (parts.stable_of stable) known → IfErr result (λ e. NotOpened start (D.seen store) (D.faults store) (D.faults e.0) e.1) }
        ensures prefix { (start : machine.Stable) (acked : List Change) (under_way : Option Change) (last : machine.Stable) → scan.IsReadTo (D.seen store) start (parts.stable_of stable) known
            → stables.after_changes (Some start) (opened.all_of acked under_way) ≡ Some last → HasPrefix acked under_way (D.seen store) → ReadsPrefix start acked under_way result }
        ensures rests { Rests D.keeps D.may_leave D.moment D.left_since store (opened.store_of result) }
        ensures records { IfOk result (λ x. (acked : List Change) → IsJournal (D.seen store) acked → Records D.seen D.may_leave x.0 acked None) }
    {
        let mut store = store;
        let mut stable = stable;
        match read_synced(alloc, &mut store, &mut stable, known) {
            Ok(scanned) => {
                let journal = Journal {
                    alloc,
                    store,
                    gate: scanned.gate,
                    changes: scanned.changes,
                    broken: false,
                };
                Ok((journal, stable))
            }
            Err(fault) => Err((store, fault)),
        }
    }

    /// Appends a change, which is acknowledged by `Ok`: its record is written after the gate and
    /// synced, then the gate is opened and synced. The numbers of an `Allocate` or a `Cut` are in
    /// their ranges, and the change is not refused on the state that the journal stands for. It
    /// fails, in this order, as `Broken`, if an earlier append answered `Store`; as `Full`, if the
    /// bytes after the gate are too few for the change with its length and the next gate; as
    /// `Memory`, before anything is written; or as `Store`, if the store failed in this call. All
    /// but `Store` leave the journal as it was.
    pub fn append(&mut self, change: &Change) -> Result<(), JournalFault>
        requires ranges { is_ranged change.now ≡ true }
        requires applies { self.old.broken ≡ false → (start : machine.Stable) × Applies start (D.seen self.old.store) change.now }
        ensures ok { OnOk result (Appends D.seen self.old self.new change.now) }
        ensures err { IfErr result (NotAppended D.seen D.faults self.old self.new change.now) }
        ensures calls { opened.Calls D.writes D.syncs self.old self.new change.now result }
        ensures kept { D.keeps self.old.store self.new.store }
        // It records the change if it is acknowledged, and has it under way if the store
        // failed.
        ensures records { (acked : List Change) (under_way : Option Change) → Records D.seen D.may_leave self.old acked under_way
            → Records D.seen D.may_leave self.new (opened.acked_after result change.now acked) (opened.under_way_after result change.now under_way) }
        // A crash at any moment leaves the acknowledged changes, and at most the one under way.
        ensures any_moment { (acked : List Change) (under_way : Option Change) → Records D.seen D.may_leave self.old acked under_way
            → LeavesOnly D.moment D.left_since self.old.store self.new.store (HasPrefix acked (opened.under_way_in change.now under_way)) }
    {
        if self.broken {
            return Err(JournalFault::Broken);
        }
        // For its clause: the numbers of the change have the widths of its bytes.
        let _words = change.has_words();
        match append_at(self.alloc, &mut self.store, self.gate, change) {
            Ok(count) => {
                self.gate += count;
                self.changes += 1;
                Ok(())
            }
            Err(JournalFault::Store) => {
                self.broken = true;
                Err(JournalFault::Store)
            }
            Err(fault) => Err(fault),
        }
    }

    /// The number of changes that were read and, since, appended and acknowledged.
    pub fn changes(&self) -> u64
        ensures { result ≡ self.now.changes }
    {
        self.changes
    }

    /// The place of the gate after the changes.
    pub fn gate(&self) -> u64
        ensures { result ≡ self.now.gate }
    {
        self.gate
    }

    /// The store.
    pub fn into_store(self) -> D
        ensures { result ≡ self.store }
    {
        self.store
    }
}

impl Journal<MemoryStore> {
    /// Sets a stop of the store, as `MemoryStore::stop` does, and changes nothing else.
    pub fn stop(&mut self, call: u64, byte: u8)
        ensures { self.new ≡ record self.old { store = record self.old.store { plan = plans.with_stop self.old.store.plan call byte } } }
    {
        self.store.stop(call, byte);
    }
}
