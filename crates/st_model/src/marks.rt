ghost use Rattle.std.specs.Prelude.{◌≡◌, ◌+◌, ◌^◌, ◌<◌, ◌≤◌, ◌++◌, OnOk, ℕ, length, take, drop};
ghost use Rattle.st_model.specs.Walks as walks;
ghost use Rattle.st_rules.specs.Events as events;
ghost use Rattle.st_rules.specs.FlatLog as flat_log;
ghost use Rattle.st_rules.specs.declared.log.Fate.TheVariants as fates;

use crate::marking::Marking;
use st_rules::{Fate, LogEntry, Observation};
use std::alloc::{AllocError, Global};

/// Returns what becomes of the pending entry at a place.
fn next_at<M: Marking>(entries: &[LogEntry], k: usize, marking: &M) -> Fate
    requires { k < length entries.now }
    ensures fate { result ≡ walks.next_at (M.becomes marking.now) k entries.now }
    ensures number { k + 1 < 2 ^ 64 }
{
    marking.fate_of(k as u64 + 1, entries[k].of)
}

fn put_fate(entries: &mut [LogEntry], k: usize, fate: Fate)
    requires { k < length entries.old }
    ensures { entries.new ≡ walks.put_fate k fate entries.old }
{
    entries[k].fate = fate;
}

/// Writes a place after the kept ones if the fate is pending, and returns the count of kept places.
fn keep(places: &mut [usize], kept: usize, k: usize, fate: Fate) -> usize
    requires { kept < length places.old }
    ensures kept { take result places.new ≡ take kept places.old ++ walks.if_pending fate k }
    ensures rest { (j : ℕ) → kept < j → drop j places.new ≡ drop j places.old }
    ensures len { length places.new ≡ length places.old }
    ensures most { result ≤ kept + 1 }
{
    if matches!(fate, Fate::Pending) {
        places[kept] = k;
        return kept + 1;
    }
    kept
}

/// Marks the pending entries, whose places these are. The places that stay pending come first
/// afterwards; it returns their count.
pub(crate) fn mark_places<M: Marking>(
    entries: &mut [LogEntry],
    places: &mut [usize],
    marking: &M,
) -> usize
    requires { places.old ≡ walks.pending_from 0 entries.old }
    ensures entries { entries.new ≡ walks.mark_from (M.becomes marking.now) 1 entries.old }
    ensures places { take result places.new ≡ walks.pending_from 0 entries.new }
    ensures length { length entries.new ≡ length entries.old }
    ensures room { length places.new ≡ length places.old }
{
    let mut kept = 0usize;
    for i in 0..places.len() {
        let k = places[i];
        let fate = next_at(entries, k, marking);
        put_fate(entries, k, fate);
        kept = keep(places, kept, k, fate);
    }
    kept
}

fn push_seen(seen: &mut Vec<Observation>, number: u64, fate: Fate) -> Result<(), AllocError>
    ensures { OnOk result (seen.new.items ≡ seen.old.items ++ events.fate_seen number fates.Pending fate) }
{
    match fate {
        Fate::Pending => Ok(()),
        Fate::Hard => Ok(seen.push(Observation::Hardened(number))?),
        Fate::Gone(cause) => Ok(seen.push(Observation::Dropped {
            index: number,
            cause,
        })?),
    }
}

/// Adds what is observed when the pending entries, whose places these are, are marked.
pub(crate) fn seen_of<M: Marking>(
    entries: &[LogEntry],
    places: &[usize],
    marking: &M,
    seen: &mut Vec<Observation>,
) -> Result<(), AllocError>
    requires { places.now ≡ walks.pending_from 0 entries.now }
    ensures { OnOk result (seen.new.items ≡ seen.old.items ++ events.fates_from 1 entries.now (walks.mark_from (M.becomes marking.now) 1 entries.now)) }
{
    for i in 0..places.len() {
        let k = places[i];
        let fate = next_at(entries, k, marking);
        push_seen(seen, k as u64 + 1, fate)?;
    }
    Ok(())
}
