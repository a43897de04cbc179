// How a journal is read, gate by gate.
ghost use Rattle.std.specs.Prelude.{◌≡◌, ◌≤◌, ◌<◌, ◌+◌, ◌*◌, ◌^◌, ◌∷◌, true, false, Ok, IfOk, IfErr, IfSome, IfNone, OnOk, List, ℕ, length, take, drop};
ghost use Rattle.st_link.specs.Causes.{HasCause};
ghost use Rattle.st_journal.specs.Changes as changes;
ghost use Rattle.st_journal.specs.Changes.{Spells, word32};
ghost use Rattle.st_journal.specs.Journal.{framed};
ghost use Rattle.st_journal.specs.Parts as parts;
ghost use Rattle.st_journal.specs.Scan as scan;
ghost use Rattle.st_journal.specs.Stable as stables;
ghost use Rattle.st_rules.specs.Server.{Stable as Server};
ghost use Rattle.st_store.specs.Store.{Rests};

use crate::change::Change;
use crate::decoder::decode;
use crate::fault::JournalFault;
use crate::stable::{ChangeRefusal, Stable};
use st_link::Failed;
use st_store::Store;
use std::alloc::Global;

/// How far reading is: the place of the next gate, and how many changes were read.
#[derive(Clone, Copy, Debug, PartialEq, Eq)]
pub struct Scanned {
    pub gate: u64,
    pub changes: u64,
}

/// Reads bytes.
fn read_bytes<D: Store>(store: &mut D, at: u64, room: &mut [u8]) -> Result<(), Failed>
    requires { at + length room.old ≤ length (D.seen store.old) }
    ensures bytes { OnOk result (room.new ≡ take (length room.old) (drop at (D.seen store.old))) }
    ensures seen { OnOk result (D.seen store.new ≡ D.seen store.old) }
    ensures rests { Rests D.keeps D.may_leave D.moment D.left_since store.old store.new }
    ensures cause { HasCause (D.faults store.old) (D.faults store.new) result }
{
    store.read(at, room)
}

/// Whether the gate at this place is open.
fn is_open_at<D: Store>(store: &mut D, at: u64) -> Result<bool, Failed>
    requires { at < length (D.seen store.old) }
    ensures gate { IfOk result (λ b. scan.IsGateAt (D.seen store.old) at b) }
    ensures seen { OnOk result (D.seen store.new ≡ D.seen store.old) }
    ensures rests { Rests D.keeps D.may_leave D.moment D.left_since store.old store.new }
    ensures cause { HasCause (D.faults store.old) (D.faults store.new) result }
{
    let mut room = [0u8; 1];
    read_bytes(store, at, &mut room)?;
    Ok(room[0] == 1)
}

/// The number that four bytes spell.
fn number_of(room: &[u8]) -> u64
    requires { length room.now ≡ 4 }
    ensures number { word32 result ≡ room.now }
    ensures small { result < 2 ^ 32 }
{
    u64::from(u32::from_be_bytes([room[0], room[1], room[2], room[3]]))
}

/// The number in the four bytes from a place on.
fn length_at<D: Store>(store: &mut D, at: u64) -> Result<u64, Failed>
    requires { at + 4 ≤ length (D.seen store.old) }
    ensures number { IfOk result (λ n. take 4 (drop at (D.seen store.old)) ≡ word32 n) }
    ensures small { IfOk result (λ n. n < 2 ^ 32) }
    ensures seen { OnOk result (D.seen store.new ≡ D.seen store.old) }
    ensures rests { Rests D.keeps D.may_leave D.moment D.left_since store.old store.new }
    ensures cause { HasCause (D.faults store.old) (D.faults store.new) result }
{
    let mut room = [0u8; 4];
    read_bytes(store, at, &mut room)?;
    Ok(number_of(&room))
}

/// The change whose bytes begin at a place, that many of them.
fn change_at<D: Store>(
    alloc: Global,
    store: &mut D,
    at: u64,
    count: u64,
) -> Result<Option<Change>, JournalFault>
    requires within { at + count ≤ length (D.seen store.old) }
    requires few { count ≤ 521 }
    ensures some { IfOk result (λ o. IfSome o (λ x. Spells (take count (drop at (D.seen store.old))) x)) }
    ensures none { IfOk result (λ o. IfNone o ((x : Change) → Spells (take count (drop at (D.seen store.old))) x → ⊥)) }
    ensures fault { IfErr result (scan.NotReached (D.faults store.old) (D.faults store.new)) }
    ensures later { D.faults store.old ≤ D.faults store.new }
    ensures seen { OnOk result (D.seen store.new ≡ D.seen store.old) }
    ensures rests { Rests D.keeps D.may_leave D.moment D.left_since store.old store.new }
{
    let mut room = [0u8; 521];
    let room = &mut room[..count as usize];
    let Ok(()) = read_bytes(store, at, room) else {
        return Err(JournalFault::Store);
    };
    match decode(alloc, room) {
        Ok(change) => Ok(change),
        Err(_) => Err(JournalFault::Memory),
    }
}

/// The change that begins at a place, after its number of bytes and before a gate, and how many
/// bytes it has with its number.
fn framed_at<D: Store>(
    alloc: Global,
    store: &mut D,
    at: u64,
) -> Result<Option<(Change, u64)>, JournalFault>
    requires within { at ≤ length (D.seen store.old) }
    requires small { length (D.seen store.old) < 4294967296 }
    ensures some { IfOk result (λ o. IfSome o (λ x. scan.IsFramedAt (D.seen store.old) at x.0 x.1)) }
    ensures most { IfOk result (λ o. IfSome o (λ x. x.1 ≤ 525)) }
    ensures none { IfOk result (λ o. IfNone o (scan.IsUnframedAt (D.seen store.old) at)) }
    ensures fault { IfErr result (scan.NotReached (D.faults store.old) (D.faults store.new)) }
    ensures later { D.faults store.old ≤ D.faults store.new }
    ensures seen { OnOk result (D.seen store.new ≡ D.seen store.old) }
    ensures rests { Rests D.keeps D.may_leave D.moment D.left_since store.old store.new }
{
    let left = store.size() - at;
    if left < 4 {
        return Ok(None);
    }
    let Ok(count) = length_at(store, at) else {
        return Err(JournalFault::Store);
    };
    if count > 521 || left < count + 5 {
        return Ok(None);
    }
    match change_at(alloc, store, at + 4, count)? {
        None => Ok(None),
        Some(change) => Ok(Some((change, count + 4))),
    }
}

/// What is at a gate: `None` if it isn't open, and otherwise the change after it, with how many
/// bytes it has with its gate.
fn read_at<D: Store>(
    alloc: Global,
    store: &mut D,
    gate: u64,
) -> Result<Option<(Change, u64)>, JournalFault>
    requires within { gate < length (D.seen store.old) }
    requires small { length (D.seen store.old) < 4294967296 }
    ensures found { IfOk result (scan.StandsAt (D.seen store.old) gate) }
    ensures some { IfOk result (λ o. IfSome o (λ x. 1 ≤ x.1)) }
    ensures most { IfOk result (λ o. IfSome o (λ x. x.1 ≤ 526)) }
    ensures fault { IfErr result (scan.NotRead (D.seen store.old) gate (D.faults store.old) (D.faults store.new)) }
    ensures later { D.faults store.old ≤ D.faults store.new }
    ensures seen { OnOk result (D.seen store.new ≡ D.seen store.old) }
    ensures rests { Rests D.keeps D.may_leave D.moment D.left_since store.old store.new }
{
    let Ok(open) = is_open_at(store, gate) else {
        return Err(JournalFault::Store);
    };
    if !open {
        return Ok(None);
    }
    match framed_at(alloc, store, gate + 1)? {
        None => Err(JournalFault::Damaged { at: gate }),
        Some((change, count)) => Ok(Some((change, count + 1))),
    }
}

/// Applies a change that was read after the gate at this place.
fn apply_read(stable: &mut Stable, change: &Change, gate: u64) -> Result<(), JournalFault>
    requires fits { changes.fits change.now ≡ true }
    requires room { stables.HasRoom (parts.stable_of stable.old) change.now }
    ensures ok { OnOk result (stables.apply (parts.stable_of stable.old) change.now ≡ Ok (parts.stable_of stable.new)) }
    ensures fault { IfErr result (scan.NotApplied gate (stables.apply (parts.stable_of stable.old) change.now)) }
{
    match stable.apply(change) {
        Ok(()) => Ok(()),
        Err(ChangeRefusal::Memory) => Err(JournalFault::Memory),
        Err(_) => Err(JournalFault::Damaged { at: gate }),
    }
}

/// Reads one change and applies it, or nothing, if the gate is not open.
fn read_one<D: Store>(
    alloc: Global,
    store: &mut D,
    stable: &mut Stable,
    scanned: &mut Scanned,
) -> Result<bool, JournalFault>
    requires within { scanned.old.gate < length (D.seen store.old) }
    requires small { length (D.seen store.old) < 4294967296 }
    requires few { 6 * scanned.old.changes ≤ scanned.old.gate }
    requires low { scan.AreLow scanned.old.changes (parts.stable_of stable.old) }
    ensures read { IfOk result (λ more. scan.ReadsOne (D.seen store.old) (parts.stable_of stable.old) (parts.stable_of stable.new) scanned.old scanned.new more) }
    ensures fault { IfErr result (scan.NotTaken (D.seen store.old) (parts.stable_of stable.old) scanned.old.gate (D.faults store.old) (D.faults store.new)) }
    ensures later { D.faults store.old ≤ D.faults store.new }
    ensures seen { OnOk result (D.seen store.new ≡ D.seen store.old) }
    ensures rests { Rests D.keeps D.may_leave D.moment D.left_since store.old store.new }
{
    let Some((change, count)) = read_at(alloc, store, scanned.gate)? else {
        return Ok(false);
    };
    apply_read(stable, &change, scanned.gate)?;
    scanned.gate += count;
    scanned.changes += 1;
    Ok(true)
}

/// Reads all changes of a journal after those that are known, and applies them.
pub(crate) fn read_on<D: Store>(
    alloc: Global,
    store: &mut D,
    stable: &mut Stable,
    known: Scanned,
) -> Result<Scanned, JournalFault>
    requires small { length (D.seen store.old) < 4294967296 }
    requires known { (start : Server) × scan.IsReadTo (D.seen store.old) start (parts.stable_of stable.old) known }
    ensures read { (start : Server) → scan.IsReadTo (D.seen store.old) start (parts.stable_of stable.old) known → IfOk result (λ s. scan.ReadsAll (D.seen store.old) start (parts.stable_of stable.new) s) }
    ensures fault { (start : Server) → scan.IsReadTo (D.seen store.old) start (parts.stable_of stable.old) known → IfErr result (scan.NotAllRead (D.seen store.old) start (D.faults store.old) (D.faults store.new)) }
    ensures later { D.faults store.old ≤ D.faults store.new }
    ensures seen { OnOk result (D.seen store.new ≡ D.seen store.old) }
    ensures rests { Rests D.keeps D.may_leave D.moment D.left_since store.old store.new }
{
    let mut scanned = known;
    'changes: while read_one(alloc, store, stable, &mut scanned)? {}
    Ok(scanned)
}
