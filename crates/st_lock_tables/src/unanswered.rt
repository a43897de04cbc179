// The demands that wait for an answer, by the moment since which they wait.
ghost use Rattle.std.specs.Prelude.{◌≡◌, ◌<◌, ◌+◌, ◌||◌, ◌==◌, ℕ, OnOk, OnErr, false, nat_le, slice_index_or};
ghost use Rattle.std.specs.List.{list_any};
ghost use Rattle.st_lock_tables.specs.DemandStarts.{Forgets, PutsIn, TakesOut, is_late_of};

use st_base::{ClientId, Stamp};
use std::alloc::AllocError;
use std::collections::BTreeSet;

/// A demand that waits for an answer: since when, of which file, and of which client.
pub type Unanswered = (Stamp, u32, ClientId);

/// The demand waits no longer, if it did since this moment.
pub fn take_out(set: &mut BTreeSet<Unanswered>, since: Option<Stamp>, ino: u32, client: ClientId)
    ensures { TakesOut since ino client set.old set.new }
{
    if let Some(since) = since {
        set.remove(&(since, ino, client));
    }
}

/// The demand waits since this moment, if it waits.
pub fn put_in(
    set: &mut BTreeSet<Unanswered>,
    since: Option<Stamp>,
    ino: u32,
    client: ClientId,
) -> Result<(), AllocError>
    ensures ok { OnOk result (PutsIn since ino client set.old set.new) }
    ensures err { OnErr result (set.new.keys ≡ set.old.keys) }
{
    match since {
        None => Ok(()),
        Some(since) => {
            set.insert((since, ino, client))?;
            Ok(())
        }
    }
}

/// No demand of this client waits.
pub fn forget(set: &mut BTreeSet<Unanswered>, client: ClientId)
    ensures { Forgets client set.old set.new }
{
    set.retain(|wait| wait.2.0 != client.0);
}

/// Whether at least this time has passed since a moment.
pub fn passed(since: Stamp, wait: u64, now: Stamp) -> bool
    ensures { result ≡ nat_le (since.0 + wait) now.0 }
{
    wait <= now.0 && since.0 <= now.0 - wait
}

/// Marks a client under its number.
fn mark(late: &mut [bool; 17], client: ClientId)
    ensures { (c : ℕ) → c < 17 → slice_index_or late.new c false ≡ slice_index_or late.old c false || (client.0 == c) }
{
    if client.0 < 17 {
        late[client.0 as usize] = true;
    }
}

/// Marks the clients of which a demand waits too long for its answer. It looks at those demands and
/// one more.
pub fn overdue(set: &BTreeSet<Unanswered>, wait: u64, now: Stamp) -> [bool; 17]
    ensures { (c : ℕ) → c < 17 → slice_index_or result c false ≡ list_any (is_late_of wait now c) set.now.keys }
{
    let mut late = [false; 17];
    for demand in set.iter() {
        if !passed(demand.0, wait, now) {
            return late;
        }
        mark(&mut late, demand.2);
    }
    late
}
