// A server whose changes are kept in groups.
ghost use Rattle.std.specs.Prelude.{◌≡◌, ◌≢◌, ◌≤◌, ◌<◌, ◌+◌, ◌^◌, ◌&&◌, [], true, None, Some, IsOk, IfErr, IfNone, IfOk, IfSome, OnErr, OnOk, is_some, length};
ghost use Rattle.std.specs.List.{list_all};
ghost use Rattle.st_base.specs.Config as settings;
ghost use Rattle.st_extents.specs.Layout.{IsWithinLimits};
ghost use Rattle.st_held_steps.specs.Held as held;
ghost use Rattle.st_journal.specs.Changes.{fits};
ghost use Rattle.st_journal.specs.declared.change.Change.TheVariants.{Epoch as BeginsEpoch};
ghost use Rattle.st_kept_histories.specs.Kept as kept;
ghost use Rattle.st_kept_histories.specs.Kept.{BeginsGroup, BeginsSnapshot, Ends, IsFullOf, Loses, MayStep, Refuses, Steps, WritesEnd, runs};
ghost use Rattle.st_kept_histories.specs.Opened.{NotAdded, NotOpened, Opens};
ghost use Rattle.st_kept_histories.specs.declared.fault.KeptRefusal.TheVariants.{Starved};
ghost use Rattle.st_kept_histories.specs.declared.stage.Stage.TheVariants.{Rest, Written};
ghost use Rattle.st_kept_journal.specs.Keeping.{IsTooLong, is_half_full};
ghost use Rattle.st_kept_journal.specs.declared.task.KeepFault.TheVariants as faults;
ghost use Rattle.st_kept_journal.specs.declared.task.Task.TheVariants as tasks;
ghost use Rattle.st_kept_server.specs.Begun.{begun_with};
ghost use Rattle.st_kept_server.specs.Next.{BeginsDue, IsDue, WritesNext, snapshot_now};
ghost use Rattle.st_server.specs.Invariants.{is_sent};
ghost use Rattle.st_server.specs.RuleConditions.{comes_fit};

use crate::checks::{asks, is_in_time};
use crate::records::wait;
use st_base::Stamp;
use st_durable::DurableServer;
use st_held_steps::HeldSteps;
use st_kept_histories::{KeptFault, KeptRefusal, Stage};
use st_kept_journal::{JournalKeeper, KeepFault, Task, Write};
use st_kept_opening::{Identity, Opening, open_server};
use st_messages::Outputs;
use st_rules::ServerInput;
use st_server::ServerNode;
use st_stable_file::snapshot_bytes;
use std::alloc::{AllocError, Global};
use std::marker::Model;

/// The most bytes of a record: its moment in eight bytes, and a change of at most 521 bytes.
const MOST_RECORD: u64 = 529;

/// A server whose changes are kept in groups. Contracts see the server with the change of its last
/// step or start; the file of its journal; what steps gave and nobody took yet; how far the program
/// is with a write; how many changes are kept by what is under way; the moment of the last change,
/// and that of the last step.
#[derive(Drop)]
pub struct KeptServer {
    alloc: Global,
    server: DurableServer,
    journal: JournalKeeper,
    steps: HeldSteps<Outputs>,
    stage: Stage,
    covered: u64,
    moment: u64,
    last: u64,
}

impl Model for KeptServer {
    ghost use Rattle.st_kept_histories.specs.Kept as shown;
    ghost use Rattle.st_kept_server.specs.Whole.{IsWhole};

    ghost Value = { shown.KeptServer };

    ghost view = { λ e. record { server = e.server; journal = e.journal; steps = e.steps; stage = e.stage; covered = e.covered; moment = e.moment; last = e.last } };

    ghost invariant = { λ e. IsWhole e.stage e.journal.task e.steps.steps };
}

/// What the program writes once a group or a snapshot is synced.
fn end_of(journal: &JournalKeeper) -> Result<Write, AllocError>
    requires { journal.now.task ≢ tasks.Rest }
    ensures { IfOk result (WritesEnd journal.now journal.now.task) }
{
    match journal.task() {
        Task::Switch { .. } => journal.switch(),
        Task::Rest | Task::Group { .. } => journal.gate(),
    }
}

/// A server that couldn't be opened to the end.
fn let_go(_server: KeptServer) {}

impl KeptServer {
    /// A server that was opened at this moment, with the change that begins its epoch.
    fn begun(
        alloc: Global,
        server: DurableServer,
        journal: JournalKeeper,
        now: Stamp,
        limit: u64,
    ) -> KeptServer
        requires rest { journal.task ≡ tasks.Rest }
        requires few { limit < 2 ^ 62 }
        ensures { result ≡ begun_with server journal now limit }
    {
        KeptServer {
            alloc,
            server,
            journal,
            steps: HeldSteps::new(alloc, limit),
            stage: Stage::Rest,
            covered: 0,
            moment: now.0,
            last: now.0,
        }
    }

    /// The change that begins the epoch waits, and nothing is given before it is kept.
    fn begin_epoch(&mut self, now: Stamp) -> Result<(), KeptFault>
        requires changed { self.old.server.changed ≡ Some BeginsEpoch }
        requires may { held.may_step self.old.steps ≡ true }
        ensures ok { OnOk result (self.new ≡ kept.holding self.old now []) }
        ensures err { IfErr result (NotAdded self.old.journal) }
    {
        match self.record_change(now) {
            Ok(()) => {}
            Err(KeepFault::Full) => return Err(KeptFault::Full),
            Err(KeepFault::Memory) => return Err(KeptFault::Memory),
        }
        match self.push(now, Outputs::new(self.alloc)) {
            Ok(()) => Ok(()),
            Err(_) => Err(KeptFault::Memory),
        }
    }

    /// The server that was opened, with the change that begins its epoch waiting.
    fn first(
        alloc: Global,
        opening: Opening,
        now: Stamp,
        limit: u64,
    ) -> Result<KeptServer, KeptFault>
        requires rest { opening.journal.task ≡ tasks.Rest }
        requires changed { opening.server.changed ≡ Some BeginsEpoch }
        requires some { 1 ≤ limit }
        requires few { limit < 2 ^ 62 }
        ensures ok { IfOk result (λ e. e ≡ kept.holding (begun_with opening.server opening.journal now limit) now []) }
        ensures err { IfErr result (NotAdded opening.journal) }
    {
        let Opening { server, journal } = opening;
        let mut first = KeptServer::begun(alloc, server, journal, now, limit);
        match first.begin_epoch(now) {
            Ok(()) => Ok(first),
            Err(fault) => {
                let_go(first);
                Err(fault)
            }
        }
    }

    /// Opens a server on the bytes of its journal's file. It runs, in its next epoch; the change
    /// that begins the epoch waits. `now` is a reading of its clock. At most `limit` changes may
    /// wait to be kept. The server's number is from 1 to the number of servers, which is at most 4;
    /// there are at least as many disks as servers, and at most 8, of 1 to 4,096 blocks each.
    ///
    /// # Errors
    /// Those of `st_kept_opening::open_server`, and `Full` if the area has too little room for the
    /// change that begins the epoch.
    pub fn open(
        alloc: Global,
        bytes: &[u8],
        wanted: &Identity,
        now: Stamp,
        limit: u64,
    ) -> Result<KeptServer, KeptFault>
        requires checked { IsOk (settings.check wanted.now.settings) }
        requires limits { IsWithinLimits wanted.now.server.0 wanted.now.servers wanted.now.disks wanted.now.blocks }
        requires time { now.0 ≤ 2 ^ 62 }
        requires some { 1 ≤ limit }
        requires few { limit < 2 ^ 62 }
        ensures ok { IfOk result (Opens bytes.now wanted.now now limit) }
        ensures err { IfErr result (NotOpened bytes.now wanted.now now) }
    {
        match open_server(alloc, bytes, wanted, now) {
            Ok(opening) => KeptServer::first(alloc, opening, now, limit),
            Err(fault) => Err(fault),
        }
    }

    /// The node.
    pub fn node(&self) -> &ServerNode
        ensures { result.now ≡ self.now.server.node }
    {
        self.server.node()
    }

    /// How far the program is with a write.
    pub fn stage(&self) -> Stage
        ensures { result ≡ self.now.stage }
    {
        self.stage
    }

    /// How many changes wait to be kept.
    pub fn waiting(&self) -> u64
        ensures { result + self.now.steps.kept ≡ self.now.steps.made }
    {
        self.steps.waiting()
    }

    /// Whether a step may be taken.
    fn check(&self, now: Stamp, input: &ServerInput) -> Result<(), KeptRefusal>
        ensures ok { OnOk result (MayStep self.now now input.now) }
        ensures err { IfErr result (Refuses self.now self.now now input.now) }
    {
        if !self.server.node().running() {
            return Err(KeptRefusal::Crashed);
        }
        if !is_in_time(self.last, now) {
            return Err(KeptRefusal::Time);
        }
        if !self.server.node().has_room() {
            return Err(KeptRefusal::Counters);
        }
        if !self.steps.may_step() {
            return Err(KeptRefusal::Waits);
        }
        if asks(input) && !self.journal.has_room(MOST_RECORD) {
            return Err(KeptRefusal::Full);
        }
        Ok(())
    }

    /// The change of the last step waits, if it made one.
    fn record_change(&mut self, now: Stamp) -> Result<(), KeepFault>
        requires ranges { IfSome self.old.server.changed (λ x. fits x ≡ true) }
        ensures ok { OnOk result (self.new ≡ record self.old { journal = kept.with_change self.old.journal now.0 self.old.server.changed }) }
        ensures full { IfErr result (λ f. f ≡ faults.Full → IsFullOf self.old.journal now.0 self.old.server.changed) }
        ensures err { OnErr result (self.new ≡ self.old) }
    {
        wait(self.alloc, &mut self.journal, now.0, self.server.changed())
    }

    /// What the last step gave is held.
    fn push(&mut self, now: Stamp, outputs: Outputs) -> Result<(), AllocError>
        requires may { held.may_step self.old.steps ≡ true }
        requires sent { list_all is_sent outputs ≡ true }
        ensures ok { OnOk result (self.new ≡ record self.old { steps = held.stepped self.old.steps outputs (is_some self.old.server.changed); moment = kept.moment_after self.old.moment now.0 (is_some self.old.server.changed) }) }
        ensures err { OnErr result (self.new ≡ self.old) }
    {
        let changed = self.server.changed().is_some();
        if self.steps.push(outputs, changed).is_err() {
            return Err(AllocError);
        }
        if changed {
            self.moment = now.0;
        }
        Ok(())
    }

    /// The node crashes.
    fn stop(&mut self)
        ensures { self.new ≡ kept.stopped self.old }
    {
        self.server.crash();
    }

    /// What the last step gave is held, and its change waits. If memory runs out, the node crashes.
    fn hold(&mut self, now: Stamp, outputs: Outputs) -> Result<(), KeptRefusal>
        requires may { held.may_step self.old.steps ≡ true }
        requires sent { list_all is_sent outputs ≡ true }
        requires ranges { IfSome self.old.server.changed (λ x. fits x ≡ true) }
        requires room { IsFullOf self.old.journal now.0 self.old.server.changed → ⊥ }
        ensures ok { OnOk result (self.new ≡ kept.holding self.old now outputs) }
        ensures err { IfErr result (λ f. f ≡ Starved) }
        ensures lost { OnErr result (Loses self.old self.new now) }
    {
        match self.record_change(now) {
            Ok(()) => {}
            Err(KeepFault::Memory) => {
                self.stop();
                return Err(KeptRefusal::Starved);
            }
            Err(KeepFault::Full) => {
                prove!(false);
                return Err(KeptRefusal::Full);
            }
        }
        match self.push(now, outputs) {
            Ok(()) => Ok(()),
            Err(_) => {
                self.stop();
                Err(KeptRefusal::Starved)
            }
        }
    }

    /// Takes a step at this moment. Moments never fall, and are at most 2^62. If it makes a change,
    /// the change waits to be kept.
    ///
    /// # Errors
    /// All but `Starved` change nothing. `Starved` leaves a node that crashed.
    pub fn step(&mut self, now: Stamp, input: ServerInput) -> Result<(), KeptRefusal>
        requires fits { comes_fit input ≡ true }
        ensures ok { OnOk result (Steps self.old self.new now input) }
        ensures err { IfErr result (Refuses self.old self.new now input) }
    {
        self.check(now, &input)?;
        self.last = now.0;
        match self.server.step(now, input) {
            Ok(outputs) => self.hold(now, outputs),
            Err(_) => Err(KeptRefusal::Starved),
        }
    }

    /// Whether a snapshot is due, if something waits.
    fn is_due(&self) -> bool
        ensures { result ≡ (runs self.now && is_half_full self.now.journal) }
    {
        self.server.node().running() && self.journal.is_half_full()
    }

    /// The bytes of a snapshot of the present stable part.
    fn snapshot(&self) -> Result<Vec<u8>, AllocError>
        ensures { IfOk result (λ v. v.items ≡ snapshot_now self.now) }
    {
        let stable = self.server.node().stable();
        snapshot_bytes(
            self.alloc,
            self.moment,
            stable.epoch,
            &stable.names,
            &stable.extents,
        )
    }

    /// Begins a snapshot; `None` if an area has too little room for it.
    fn begin_snapshot(&mut self) -> Result<Option<Write>, AllocError>
        requires rest { self.old.stage ≡ Rest }
        requires runs { runs self.old ≡ true }
        requires half { is_half_full self.old.journal ≡ true }
        ensures some { IfOk result (λ o. IfSome o (BeginsSnapshot self.old self.new)) }
        ensures none { IfOk result (λ o. IfNone o (IsTooLong self.old.journal (length (snapshot_now self.old)))) }
        ensures same { IfOk result (λ o. IfNone o (self.new ≡ self.old)) }
        ensures err { OnErr result (self.new ≡ self.old) }
    {
        let snapshot = self.snapshot()?;
        match self.journal.snapshot(snapshot.as_slice()) {
            Ok(write) => {
                self.covered = self.steps.waiting();
                self.stage = Stage::Writing;
                Ok(Some(write))
            }
            Err(KeepFault::Full) => Ok(None),
            Err(KeepFault::Memory) => Err(AllocError),
        }
    }

    /// Begins a group of all that waits.
    fn begin_group(&mut self) -> Result<Write, AllocError>
        requires rest { self.old.stage ≡ Rest }
        requires some { self.old.journal.waiting ≢ [] }
        ensures ok { IfOk result (BeginsGroup self.old self.new) }
        ensures err { OnErr result (self.new ≡ self.old) }
    {
        let write = self.journal.group()?;
        self.covered = self.steps.waiting();
        self.stage = Stage::Writing;
        Ok(write)
    }

    /// Begins a snapshot that is due, if an area has room for it, and otherwise a group.
    fn begin(&mut self) -> Result<Option<Write>, AllocError>
        requires rest { self.old.stage ≡ Rest }
        ensures next { IfOk result (WritesNext self.old self.new) }
        ensures due { IsDue self.old → IfOk result (BeginsDue self.old self.new) }
        ensures err { OnErr result (self.new ≡ self.old) }
    {
        if self.journal.waiting() == 0 {
            return Ok(None);
        }
        if !self.is_due() {
            return Ok(Some(self.begin_group()?));
        }
        match self.begin_snapshot()? {
            Some(write) => Ok(Some(write)),
            None => Ok(Some(self.begin_group()?)),
        }
    }

    /// Ends a group or a snapshot that was synced.
    fn end(&mut self) -> Result<Write, AllocError>
        requires { self.old.stage ≡ Written }
        ensures ok { IfOk result (Ends self.old self.new) }
        ensures err { OnErr result (self.new ≡ self.old) }
    {
        let write = end_of(&self.journal)?;
        self.stage = Stage::Ending;
        Ok(write)
    }

    /// What the program writes next; then it syncs, and calls `synced`. All that waits is one
    /// write: a group, or a snapshot if the area is half full; the next write is its gate, or the
    /// switch. `None` while a sync is due, or if nothing waits. An error changes nothing.
    pub fn write(&mut self) -> Result<Option<Write>, AllocError>
        ensures next { IfOk result (WritesNext self.old self.new) }
        ensures due { IsDue self.old → IfOk result (BeginsDue self.old self.new) }
        ensures err { OnErr result (self.new ≡ self.old) }
    {
        match self.stage {
            Stage::Rest => self.begin(),
            Stage::Writing | Stage::Ending => Ok(None),
            Stage::Written => Ok(Some(self.end()?)),
        }
    }

    /// The gate, or the switch, was synced: what is under way is kept.
    fn ended(&mut self)
        ensures { self.new ≡ kept.ended self.old self.old.journal.task }
    {
        match self.journal.task() {
            Task::Rest => {}
            Task::Group { .. } => {
                self.journal.group_kept();
                self.steps.keep(self.covered);
                self.stage = Stage::Rest;
            }
            Task::Switch { .. } => {
                self.journal.switched();
                self.steps.keep(self.covered);
                self.stage = Stage::Rest;
            }
        }
    }

    /// What `write` said was written, and then synced. It changes nothing if no sync is due.
    pub fn synced(&mut self)
        ensures { self.new ≡ kept.synced self.old }
    {
        match self.stage {
            Stage::Writing => self.stage = Stage::Written,
            Stage::Ending => self.ended(),
            Stage::Rest | Stage::Written => {}
        }
    }

    /// Takes what the first step gave that nobody took yet, if its change is kept, and each change
    /// before it.
    pub fn take(&mut self) -> Option<Outputs>
        ensures given { result ≡ held.first_ready self.old.steps.kept self.old.steps.steps }
        ensures left { self.new ≡ kept.taken self.old }
        ensures sent { IfSome result (λ out. list_all is_sent out ≡ true) }
    {
        self.steps.pop()
    }
}
