// A journal's script on its way.
ghost use Rattle.std.specs.Prelude.{◌≡◌, ◌<◌, ◌++◌, ◌∷◌, [], List, Some, Ok, Err, true, false, nat_lt, IfOk, IfErr, OnOk, length};
ghost use Rattle.st_journal.specs.Changes.{is_ranged};
ghost use Rattle.st_journal.specs.Parts.{Applies, stable_of};
ghost use Rattle.st_store.specs.Plans as plans;
ghost use Rattle.st_journal.specs.Stable.{apply};
ghost use Rattle.st_journal.specs.Stops.{after_stop};
ghost use Rattle.st_journal.specs.declared.change.Change.{Change};
ghost use Rattle.st_rules.specs.Server as server;
ghost use Rattle.st_script_journal.specs.JournalRuns as runs;
ghost use Rattle.st_script_journal.specs.JournalRuns.{Comes, HasJournal, Holds, IsFreshStore, IsKnown, IsOpen, IsWantOfMemory, Leads, Starts};
ghost use Rattle.st_script_journal.specs.JournalScripts as scripts;
ghost use Rattle.st_script_journal.specs.JournalScripts.{IsAnswered, JournalState, fresh_journal};
ghost use Rattle.st_script_journal.specs.declared.journal_run.JournalAnswer.TheVariants.{Done, Stopped};

use crate::journal_event::{RangedChange, SetStop};
use st_base::ServerId;
use st_journal::{Change, ChangeRefusal, Journal, JournalFault, MemoryStore, Scanned, Stable};
use std::alloc::{AllocError, Global};
use std::marker::Model;

/// An opened journal in a store in memory, the stable part that its changes lead to, and the stop
/// that no append has met yet.
#[derive(Drop)]
pub struct Running {
    journal: Journal<MemoryStore>,
    stable: Stable,
    stop: Option<SetStop>,
}

impl Model for Running {
    ghost use Rattle.std.specs.Prelude.{List};
    ghost use Rattle.st_journal.specs.Parts.{stable_of};
    ghost use Rattle.st_journal.specs.declared.change.Change.{Change};
    ghost use Rattle.st_script_journal.specs.JournalRuns as runs;
    ghost use Rattle.st_script_journal.specs.JournalRuns.{IsOpen};

    ghost Value = { runs.Running };

    ghost view = { λ r. record { journal = r.journal; stable = stable_of r.stable; stop = r.stop } };

    ghost invariant = { λ r. (changes : List Change) × IsOpen r.journal changes (stable_of r.stable) };
}

/// What a change comes to: it is applied and appended; or it is refused; or the store stopped while
/// it was appended, and the journal, opened again, has it or not.
#[derive(Clone, Copy, Debug, PartialEq, Eq)]
pub(crate) enum JournalAnswer {
    Done,
    Refused(ChangeRefusal),
    Stopped(bool),
}

/// Appends a change, if no stop is set.
fn append(journal: &mut Journal<MemoryStore>, change: &Change) -> Result<(), JournalFault>
    requires ranges { is_ranged change.now ≡ true }
    requires applies { (changes : List Change) × (state : server.Stable) × (next : server.Stable) × IsOpen journal.old changes state × (apply state change.now ≡ Ok next) }
    ensures opened { (changes : List Change) (state next : server.Stable) → IsOpen journal.old changes state → apply state change.now ≡ Ok next →
        OnOk result (IsOpen journal.new (changes ++ change.now ∷ []) next) }
    // It is not broken; it is not full if it has fewer changes than a script has events; and the
    // store fails only if it is starved.
    ensures fault { (changes : List Change) (state next : server.Stable) → IsOpen journal.old changes state → apply state change.now ≡ Ok next →
        length changes < 10000 → IfErr result (IsWantOfMemory journal.new.store) }
{
    journal.append(change)
}

/// A store that stopped, started again. It fails if the store is starved.
fn started_again(store: MemoryStore) -> Result<MemoryStore, AllocError>
    ensures { IfOk result (λ s. (store.starved ≡ false) × (s ≡ record store { plan = plans.restarted store.plan })) }
{
    if store.starved() {
        return Err(AllocError);
    }
    let mut store = store;
    store.restart();
    Ok(store)
}

/// Appends a change while the store stops, and gives the store, started again.
fn append_stopped(
    journal: Journal<MemoryStore>,
    change: &Change,
    stop: SetStop,
) -> Result<MemoryStore, AllocError>
    requires ranges { is_ranged change.now ≡ true }
    requires applies { (changes : List Change) × (state : server.Stable) × (next : server.Stable) × IsOpen journal changes state × (apply state change.now ≡ Ok next) }
    ensures { (changes : List Change) (state next : server.Stable) → IsOpen journal changes state → apply state change.now ≡ Ok next →
        IfOk result (λ store. HasJournal store (after_stop stop.call stop.byte change.now changes)) }
{
    let mut journal = journal;
    journal.stop(stop.call(), stop.byte());
    match journal.append(change) {
        Ok(()) => unreachable!(),
        Err(JournalFault::Store) => started_again(journal.into_store()),
        Err(_) => Err(AllocError),
    }
}

/// A journal that is running, of its parts.
fn joined(journal: Journal<MemoryStore>, stable: Stable, stop: Option<SetStop>) -> Running
    requires { (changes : List Change) × IsOpen journal changes (stable_of stable) }
    ensures { result ≡ record { journal = journal; stable = stable_of stable; stop = stop } }
{
    Running {
        journal,
        stable,
        stop,
    }
}

/// Opens the journal in a store again. What is known of it led to this stable part.
fn reopen(
    alloc: Global,
    store: MemoryStore,
    stable: Stable,
    known: Scanned,
) -> Result<Running, AllocError>
    requires { (changes : List Change) × (state : server.Stable) × HasJournal store changes × Leads changes state × IsKnown store (stable_of stable) known }
    ensures { (changes : List Change) (state : server.Stable) → HasJournal store changes → Leads changes state → IfOk result (Starts changes state) }
{
    match Journal::reopen(alloc, store, stable, known) {
        Ok((journal, stable)) => Ok(joined(journal, stable, None)),
        Err(_) => Err(AllocError),
    }
}

/// Appends a change that was applied, if no stop is set.
fn record(
    journal: Journal<MemoryStore>,
    stable: Stable,
    change: &Change,
) -> Result<(Running, JournalAnswer), AllocError>
    requires ranges { is_ranged change.now ≡ true }
    requires applies { (changes : List Change) × (state : server.Stable) × IsOpen journal changes state × (apply state change.now ≡ Ok (stable_of stable)) }
    ensures { (changes : List Change) (state : server.Stable) → IsOpen journal changes state → apply state change.now ≡ Ok (stable_of stable) →
        IfOk result (λ y. Starts (changes ++ change.now ∷ []) (stable_of stable) y.0 × (y.1 ≡ Done)) }
{
    let mut journal = journal;
    match append(&mut journal, change) {
        Ok(()) => Ok((joined(journal, stable, None), JournalAnswer::Done)),
        Err(_) => Err(AllocError),
    }
}

/// Whether the journal that is running has more changes than these.
fn has_more(running: &Running, before: u64) -> bool
    ensures { result ≡ nat_lt before running.now.journal.changes }
{
    before < running.journal.changes()
}

/// Appends a change that isn't refused while the store stops, and opens the journal again. What was
/// known before the append isn't read again.
fn record_stopped(
    alloc: Global,
    journal: Journal<MemoryStore>,
    stable: Stable,
    change: &Change,
    stop: SetStop,
) -> Result<(Running, JournalAnswer), AllocError>
    requires ranges { is_ranged change.now ≡ true }
    requires applies { (changes : List Change) × (next : server.Stable) × IsOpen journal changes (stable_of stable) × (apply (stable_of stable) change.now ≡ Ok next) }
    ensures { (changes : List Change) (next : server.Stable) → IsOpen journal changes (stable_of stable) → apply (stable_of stable) change.now ≡ Ok next →
        IfOk result (λ y. Starts (after_stop stop.call stop.byte change.now changes) (runs.stable_after stop (stable_of stable) next) y.0 × (y.1 ≡ Stopped (scripts.keeps stop))) }
{
    let known = Scanned {
        gate: journal.gate(),
        changes: journal.changes(),
    };
    let store = append_stopped(journal, change, stop)?;
    let running = reopen(alloc, store, stable, known)?;
    let kept = has_more(&running, known.changes);
    Ok((running, JournalAnswer::Stopped(kept)))
}

/// A refusal that isn't lack of memory.
fn answered(refusal: ChangeRefusal) -> Result<ChangeRefusal, AllocError>
    ensures { IfOk result (λ r. (r ≡ refusal) × IsAnswered r) }
{
    match refusal {
        ChangeRefusal::Memory => Err(AllocError),
        other => Ok(other),
    }
}

/// A change was refused, which leaves all as it was, or memory ran out.
fn refuse(
    journal: Journal<MemoryStore>,
    stable: Stable,
    stop: Option<SetStop>,
    refusal: ChangeRefusal,
) -> Result<(Running, JournalAnswer), AllocError>
    requires { (changes : List Change) × (state : server.Stable) × (change : Change) × IsOpen journal changes state
        × Applies state (stable_of stable) (Err refusal) (apply state change) }
    ensures { (s : JournalState) (change : Change) → stop ≡ s.stop → IsOpen journal s.changes s.stable → Applies s.stable (stable_of stable) (Err refusal) (apply s.stable change) →
        IfOk result (Comes s change) }
{
    match answered(refusal) {
        Ok(refusal) => Ok((
            joined(journal, stable, stop),
            JournalAnswer::Refused(refusal),
        )),
        Err(_) => Err(AllocError),
    }
}

/// Applies a change and appends it, if no stop is set.
fn change_unstopped(
    journal: Journal<MemoryStore>,
    stable: Stable,
    change: &Change,
) -> Result<(Running, JournalAnswer), AllocError>
    requires ranges { is_ranged change.now ≡ true }
    requires opened { (changes : List Change) × IsOpen journal changes (stable_of stable) }
    ensures { (s : JournalState) → s.stop ≡ None → s.stable ≡ stable_of stable → IsOpen journal s.changes s.stable → IfOk result (Comes s change.now) }
{
    let mut stable = stable;
    match stable.apply(change) {
        Ok(()) => record(journal, stable, change),
        Err(refusal) => refuse(journal, stable, None, refusal),
    }
}

/// Appends a change while the store stops, if it isn't refused.
fn change_stopped(
    alloc: Global,
    journal: Journal<MemoryStore>,
    stable: Stable,
    change: &Change,
    stop: SetStop,
) -> Result<(Running, JournalAnswer), AllocError>
    requires ranges { is_ranged change.now ≡ true }
    requires opened { (changes : List Change) × IsOpen journal changes (stable_of stable) }
    ensures { (s : JournalState) → s.stop ≡ Some stop → s.stable ≡ stable_of stable → IsOpen journal s.changes s.stable → IfOk result (Comes s change.now) }
{
    match stable.check(change) {
        Ok(()) => record_stopped(alloc, journal, stable, change, stop),
        Err(refusal) => refuse(journal, stable, Some(stop), refusal),
    }
}

impl Running {
    /// Opens a store of zeros.
    pub(crate) fn begin(alloc: Global, store: MemoryStore) -> Result<Running, AllocError>
        requires { IsFreshStore store }
        ensures { IfOk result (Holds fresh_journal) }
    {
        match Journal::open(alloc, store, ServerId(1), 1, 1, 64) {
            Ok((journal, stable)) => Ok(joined(journal, stable, None)),
            Err(_) => Err(AllocError),
        }
    }

    /// Applies a change, and appends it: while the store stops, if a stop is set.
    pub(crate) fn change(
        self,
        alloc: Global,
        change: &RangedChange,
    ) -> Result<(Running, JournalAnswer), AllocError>
        ensures { (s : JournalState) → Holds s self → IfOk result (Comes s change.now) }
    {
        let Running {
            journal,
            stable,
            stop,
        } = self;
        let change = change.get();
        match stop {
            None => change_unstopped(journal, stable, change),
            Some(stop) => change_stopped(alloc, journal, stable, change, stop),
        }
    }

    /// Sets a stop, in place of an earlier one.
    pub(crate) fn set_stop(&mut self, stop: SetStop)
        ensures { self.new ≡ record self.old { stop = Some stop } }
    {
        self.stop = Some(stop);
    }

    /// The stable part.
    pub(crate) fn stable(&self) -> &Stable
        ensures { stable_of result.now ≡ self.now.stable }
    {
        &self.stable
    }

    /// The store.
    pub(crate) fn into_store(self) -> MemoryStore
        ensures { result ≡ self.journal.store }
    {
        self.journal.into_store()
    }
}
