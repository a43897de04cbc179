// A server inside another program.
ghost use Rattle.std.specs.Prelude.{◌≡◌, ◌≤◌, ◌<◌, ◌^◌, [], true, false, None, Some, is_some, Ok, IsOk, IfOk, IfErr, IfSome, OnOk, OnErr, length};
ghost use Rattle.std.specs.List.{list_all, flat_map};
ghost use Rattle.std.specs.Option.{option_copied};
ghost use Rattle.st_base.specs.Config as settings;
ghost use Rattle.st_durable.specs.Durable as durable;
ghost use Rattle.st_durable.specs.Durable.{Tells};
ghost use Rattle.st_due.specs.Moments.{readable_by};
ghost use Rattle.st_due.specs.ServerDue.{server_due};
ghost use Rattle.st_extents.specs.Layout.{IsWithinLimits};
ghost use Rattle.st_embed.specs.Servers.{IsAskedBy, IsStarved, MayOpen, MayStart, MayStep, NotOpened, NotTaken, IsOfServer, NotStarted, NotStartedAfter, Opens, Refuses, RefusesStep, Steps, begun, kept, len_by, record_by, start_of, to_keep};
ghost use Rattle.st_embed.specs.FramePieces.{Takes};
ghost use Rattle.st_embed.specs.StepOutputs.{server_outputs};
ghost use Rattle.st_embed.specs.Events.{events_in};
ghost use Rattle.st_host_frames.specs.Results.{NotPut, Puts};
ghost use Rattle.st_embed.specs.declared.fault.ServerFault.TheVariants.{Memory};
ghost use Rattle.st_journal.specs.OpenedJournal.{room_behind};
ghost use Rattle.st_journal.specs.declared.change.Change.TheVariants as kinds;
ghost use Rattle.st_journal.specs.Parts as parts;
ghost use Rattle.st_journal.specs.Changes as spelling;
ghost use Rattle.st_messages.specs.Ranges.{fits};
ghost use Rattle.st_node.specs.Runs.{handle, server_frame};
ghost use Rattle.st_node.specs.declared.node.Node.TheVariants as nodes;
ghost use Rattle.st_rules.specs.Server as server;
ghost use Rattle.st_server.specs.Counts.{counts_of};
ghost use Rattle.st_server.specs.Restart.{crashed_node};
ghost use Rattle.st_server.specs.Room.{HasRoom};
ghost use Rattle.st_server.specs.Invariants.{is_sent};

use crate::checks::{check_taken, is_in_time, read_step};
use crate::events::TankEvent;
use crate::fault::{ServerFault, ServerRefusal, StepRefusal};
use crate::journal_image::{ReadFault, read_journal};
use crate::outbox::Sender;
use crate::pending_frames::PendingFrames;
use st_base::{Config, Epoch, ServerId, Stamp};
use st_durable::{Change, DurableServer, Outputs, ServerStable, StepFault};
use st_host_frames::HostFault;
use st_journal::{Stable, record_of};
use st_messages::{Body, Message, NameOp};
use st_node::server_input_of;
use st_server::ServerCounts;
use std::alloc::{AllocError, Global};
use std::marker::Model;

/// The most bytes of a record: the length of a change in four bytes, its 521 bytes at most, and a
/// gate.
const MOST_RECORD: u64 = 526;

/// How many servers there are, how many disks, and how many blocks each has.
#[derive(Clone, Copy)]
pub struct Shape {
    pub servers: u16,
    pub disks: u16,
    pub blocks: u32,
}

/// A server inside another program. Contracts see the server with the change of its last step or
/// start; where the gate after the changes that are kept in its journal, and how many bytes the
/// journal has; whether the change must still be kept; the bytes of its frames that must still be
/// taken out; the outputs of its last step, and its moment.
#[derive(Drop)]
pub struct EmbeddedServer {
    alloc: Global,
    server: DurableServer,
    gate: u64,
    size: u64,
    unkept: bool,
    last: Stamp,
    pending: PendingFrames,
}

impl Model for EmbeddedServer {
    ghost use Rattle.st_embed.specs.Servers as shown;
    ghost use Rattle.st_embed.specs.Servers.{IsPlaced};

    ghost Value = { shown.EmbeddedServer };

    ghost view = { λ e. record { server = e.server; gate = e.gate; size = e.size; unkept = e.unkept; left = e.pending.left; outputs = e.pending.outputs; last = e.last } };

    ghost invariant = { λ e. IsPlaced e.gate e.size e.unkept e.server.changed };
}

/// Whether there is a server of this number in such a world.
fn is_within(id: ServerId, shape: Shape) -> bool
    ensures yes { result ≡ true → IsWithinLimits id.0 shape.servers shape.disks shape.blocks }
    ensures no { result ≡ false → IsWithinLimits id.0 shape.servers shape.disks shape.blocks → ⊥ }
{
    1 <= id.0
        && id.0 <= shape.servers
        && shape.servers <= 4
        && shape.servers <= shape.disks
        && shape.disks <= 8
        && 1 <= shape.blocks
        && shape.blocks <= 4096
}

/// A server of which a crash left this stable part, in its next epoch.
fn restarted(
    alloc: Global,
    id: ServerId,
    config: &Config,
    now: Stamp,
    stable: Stable,
) -> Result<DurableServer, ServerFault>
    requires checked { IsOk (settings.check config.now) }
    requires some { 1 ≤ id.0 }
    requires known { id.0 ≤ 4 }
    requires time { now.0 ≤ 2 ^ 62 }
    requires own { IsOfServer id (parts.stable_of stable) }
    ensures node { IfOk result (λ d. d.node ≡ server.start_node (crashed_node id config.now (parts.stable_of stable)) now) }
    ensures changed { IfOk result (λ d. d.changed ≡ Some kinds.Epoch) }
    ensures told { IfOk result (λ d. Tells (parts.stable_of stable) d.node.state.stable (Some kinds.Epoch)) }
    ensures begun { OnOk result (1 ≤ (parts.stable_of stable).epoch.0) }
    ensures left { OnOk result ((parts.stable_of stable).epoch.0 < 4294967295) }
    ensures err { IfErr result (NotStarted (parts.stable_of stable)) }
{
    if stable.epoch.0 == 0 {
        return Err(ServerFault::NoEpoch);
    }
    if stable.epoch.0 >= 4_294_967_295 {
        return Err(ServerFault::Epochs);
    }
    let Stable {
        epoch,
        names,
        extents,
    } = stable;
    let stable = ServerStable {
        epoch,
        names,
        extents,
    };
    let mut server = DurableServer::restore(alloc, id, config, stable);
    match server.start(now) {
        Ok(()) => Ok(server),
        Err(_) => Err(ServerFault::Memory),
    }
}

/// A server that was never started before.
fn fresh(
    alloc: Global,
    id: ServerId,
    config: &Config,
    shape: Shape,
) -> Result<DurableServer, ServerFault>
    requires checked { IsOk (settings.check config.now) }
    requires limits { IsWithinLimits id.0 shape.servers shape.disks shape.blocks }
    ensures node { IfOk result (λ d. d.node ≡ server.fresh_node id config.now shape.servers shape.disks shape.blocks) }
    ensures changed { IfOk result (λ d. d.changed ≡ Some kinds.Epoch) }
    ensures told { IfOk result (λ d. Tells (start_of id shape) d.node.state.stable (Some kinds.Epoch)) }
    ensures err { IfErr result (λ f. f ≡ Memory) }
{
    match DurableServer::fresh(alloc, id, config, shape.servers, shape.disks, shape.blocks) {
        Ok(server) => Ok(server),
        Err(_) => Err(ServerFault::Memory),
    }
}

/// The server that this many changes lead to, with this stable part.
fn opened(
    alloc: Global,
    id: ServerId,
    config: &Config,
    shape: Shape,
    now: Stamp,
    stable: Stable,
    changes: u64,
) -> Result<DurableServer, ServerFault>
    requires checked { IsOk (settings.check config.now) }
    requires limits { IsWithinLimits id.0 shape.servers shape.disks shape.blocks }
    requires time { now.0 ≤ 2 ^ 62 }
    requires own { IsOfServer id (parts.stable_of stable) }
    requires fresh { changes ≡ 0 → parts.stable_of stable ≡ start_of id shape }
    ensures node { IfOk result (λ d. d.node ≡ begun id config.now shape now changes (parts.stable_of stable)) }
    ensures changed { IfOk result (λ d. d.changed ≡ Some kinds.Epoch) }
    ensures told { IfOk result (λ d. Tells (parts.stable_of stable) d.node.state.stable (Some kinds.Epoch)) }
    ensures may { OnOk result (MayStart changes (parts.stable_of stable)) }
    ensures err { IfErr result (NotStartedAfter changes (parts.stable_of stable)) }
{
    if changes == 0 {
        return fresh(alloc, id, config, shape);
    }
    restarted(alloc, id, config, now, stable)
}

/// How many bytes the gate moves past this change.
#[tactic(auto, using(crate::proofs::StableParts::record_long))]
fn record_len(change: Option<&Change>) -> u64
    requires { IfSome (option_copied change) (λ x. spelling.fits x ≡ true) }
    ensures { result ≡ len_by (option_copied change.entry) }
{
    match change {
        Some(change) => change.size() + 5,
        None => 0,
    }
}

/// Whether a request may change the stable part.
fn may_change(body: &Body) -> bool
    ensures { result ≡ is_some (durable.asked_of body.now) }
{
    match body {
        Body::Allocate { .. } | Body::Cut { .. } => true,
        Body::Name(op) => match op {
            NameOp::Lookup { .. } | NameOp::List { .. } => false,
            _ => true,
        },
        _ => false,
    }
}

/// The outputs of a node's step for a message; `None` if the message isn't an input of the node.
#[tactic(auto, unfolding(st_node::specs::Runs::handle))]
fn outputs_for(
    server: &mut DurableServer,
    now: Stamp,
    message: Message,
) -> Result<Option<Outputs>, AllocError>
    requires time { now.0 ≤ 2 ^ 62 }
    requires fits { fits message ≡ true }
    requires room { HasRoom server.old.node.state }
    ensures node { OnOk result (nodes.Server server.new.node ≡ (handle (nodes.Server server.old.node) now message).node) }
    ensures out { IfOk result (λ o. IfSome o (λ out. flat_map server_frame out ≡ (handle (nodes.Server server.old.node) now message).out)) }
    ensures none { IfOk result (λ o. o ≡ None → (handle (nodes.Server server.old.node) now message).out ≡ []) }
    ensures same { IfOk result (λ o. o ≡ None → server.new.node ≡ server.old.node) }
    ensures outputs { IfOk result (λ o. IfSome o (λ out. out ≡ server_outputs server.old.node now message)) }
    ensures no_outputs { IfOk result (λ o. o ≡ None → server_outputs server.old.node now message ≡ []) }
    ensures sent { IfOk result (λ o. IfSome o (λ out. list_all is_sent out ≡ true)) }
    ensures told { IfOk result (λ o. IfSome o (λ out. Tells server.old.node.state.stable server.new.node.state.stable server.new.changed)) }
    ensures asked { IfOk result (λ o. IfSome o (λ out. IsAskedBy message.body server.new.changed)) }
    ensures starved { OnErr result (IsStarved server.old.node server.new.node now message) }
{
    if u32::from(message.header.to) != server.node().id().node_as_u32() {
        return Ok(None);
    }
    match server_input_of(message) {
        Some(input) => match server.step(now, input) {
            Ok(outputs) => Ok(Some(outputs)),
            Err(StepFault::Memory) => Err(AllocError),
            Err(StepFault::Crashed) => Ok(None),
        },
        None => Ok(None),
    }
}

impl EmbeddedServer {
    /// Opens a server on the bytes of its journal: zeros if it was never started. It runs, in its
    /// next epoch; the change that begins the epoch must be kept before the first step. `id` is
    /// from 1 to the number of servers, which is at most 4. There are at least as many disks as
    /// servers, and at most 8, of 1 to 4,096 blocks each. The journal has 1 to 2^32 - 1 bytes.
    pub fn open(
        alloc: Global,
        id: ServerId,
        config: &Config,
        shape: Shape,
        now: Stamp,
        journal: &[u8],
    ) -> Result<EmbeddedServer, ServerFault>
        ensures may { OnOk result (MayOpen id config.now shape now (length journal.now)) }
        ensures ok { IfOk result (Opens id config.now shape now journal.now) }
        ensures err { IfErr result (NotOpened id config.now shape now journal.now) }
    {
        if let Err(refusal) = config.check() {
            return Err(ServerFault::Settings(refusal));
        }
        if !is_within(id, shape) {
            return Err(ServerFault::Shape);
        }
        if now.0 > 4_611_686_018_427_387_904 {
            return Err(ServerFault::Time);
        }
        let size = journal.len() as u64;
        if size == 0 || size > 4_294_967_295 {
            return Err(ServerFault::Size);
        }
        let read = match read_journal(
            alloc,
            journal,
            id,
            shape.servers,
            shape.disks,
            shape.blocks,
        ) {
            Ok(read) => read,
            Err(ReadFault::Damaged(at)) => return Err(ServerFault::Damaged(at)),
            Err(ReadFault::Memory) => return Err(ServerFault::Memory),
        };
        if size - read.gate - 1 < MOST_RECORD {
            return Err(ServerFault::Full);
        }
        let gate = read.gate;
        let server = opened(alloc, id, config, shape, now, read.stable, read.changes)?;
        Ok(EmbeddedServer {
            alloc,
            server,
            gate,
            size,
            unkept: true,
            last: now,
            pending: PendingFrames::new(alloc),
        })
    }

    /// The server's number.
    pub fn id(&self) -> ServerId
        ensures { result ≡ self.now.server.node.state.id }
    {
        self.server.node().id()
    }

    /// Whether the server runs.
    pub fn running(&self) -> bool
        ensures { result ≡ self.now.server.node.running }
    {
        self.server.node().running()
    }

    /// The epoch.
    pub fn epoch(&self) -> Epoch
        ensures { result ≡ self.now.server.node.state.stable.epoch }
    {
        self.server.node().stable().epoch
    }

    /// The place of the gate after the changes that are kept.
    pub fn gate(&self) -> u64
        ensures { result ≡ self.now.gate }
    {
        self.gate
    }

    /// How many bytes the journal has.
    pub fn size(&self) -> u64
        ensures { result ≡ self.now.size }
    {
        self.size
    }

    /// How much the server has.
    pub fn counts(&self) -> ServerCounts
        ensures { result ≡ counts_of self.now.server.node.state }
    {
        self.server.node().counts()
    }

    /// From which moment on a tick does something, as long as there is no other step; none if no
    /// clock may read it. An error means that memory ran out.
    pub fn due(&self) -> Result<Option<u64>, AllocError>
        ensures { IfOk result (λ o. o ≡ readable_by (server_due self.now.server.node.state)) }
    {
        self.server.node().due()
    }

    /// The change that must be kept before any frame is taken.
    fn unkept(&self) -> Option<&Change>
        ensures { option_copied result ≡ to_keep self.now }
    {
        if self.unkept {
            self.server.changed()
        } else {
            None
        }
    }

    /// Whether a step may be taken at this moment, and the message of its frame.
    fn check_step(&mut self, now: Stamp, frame: &[u8]) -> Result<Message, StepRefusal>
        ensures same { self.new ≡ self.old }
        ensures ok { IfOk result (MayStep self.old now frame.now) }
        ensures fits { IfOk result (λ m. fits m ≡ true) }
        ensures err { IfErr result (RefusesStep self.old self.old now frame.now) }
    {
        if !self.server.node().running() {
            return Err(StepRefusal::Crashed);
        }
        check_taken(&mut self.pending)?;
        if !is_in_time(self.last, now) {
            return Err(StepRefusal::Time);
        }
        let message = read_step(self.alloc, frame)?;
        if !self.server.node().has_room() {
            return Err(StepRefusal::Full);
        }
        Ok(message)
    }

    /// The same, as far as the journal goes too.
    fn check(&mut self, now: Stamp, frame: &[u8]) -> Result<Message, ServerRefusal>
        ensures same { self.new ≡ self.old }
        ensures ok { IfOk result (MayStep self.old now frame.now) }
        ensures kept { OnOk result (self.old.unkept ≡ false) }
        ensures room { IfOk result (λ m. is_some (durable.asked_of m.body) ≡ true → 526 ≤ room_behind self.old.size self.old.gate) }
        ensures fits { IfOk result (λ m. fits m ≡ true) }
        ensures err { IfErr result (Refuses self.old self.old now frame.now) }
    {
        if self.unkept {
            return Err(ServerRefusal::Unkept);
        }
        let message = match self.check_step(now, frame) {
            Ok(message) => message,
            Err(refusal) => return Err(ServerRefusal::Step(refusal)),
        };
        if self.size - self.gate - 1 < MOST_RECORD && may_change(&message.body) {
            return Err(ServerRefusal::JournalFull);
        }
        Ok(message)
    }

    /// Takes a step for the message of one frame, with its length, at this moment. Moments never
    /// fall, and are at most 2^62. A message that isn't an input of the server is ignored. Returns
    /// whether the step made a change that must be kept before any frame is taken out.
    ///
    /// # Errors
    /// All but `Starved` change nothing. `Starved` leaves a server that is crashed, and nothing to
    /// be kept or taken out.
    pub fn step(&mut self, now: Stamp, frame: &[u8]) -> Result<bool, ServerRefusal>
        ensures ok { OnOk result (Steps self.old self.new now frame.now) }
        ensures unkept { IfOk result (λ b. b ≡ is_some (to_keep self.new)) }
        ensures err { IfErr result (Refuses self.old self.new now frame.now) }
    {
        let message = self.check(now, frame)?;
        self.last = now;
        match outputs_for(&mut self.server, now, message) {
            Ok(Some(outputs)) => {
                self.pending.put(Sender::Server, outputs);
                self.unkept = self.server.changed().is_some();
                Ok(self.unkept)
            }
            Ok(None) => {
                self.pending.put(Sender::Server, Outputs::new(self.alloc));
                Ok(false)
            }
            Err(_) => {
                self.pending.put(Sender::Server, Outputs::new(self.alloc));
                Err(ServerRefusal::Step(StepRefusal::Starved))
            }
        }
    }

    /// The record of the change that must be kept: its length, its bytes and a gate that is not
    /// open. It is written after the gate and synced; then the gate becomes 1, and is synced. An
    /// empty record if there is none.
    pub fn record(&self) -> Result<Vec<u8>, AllocError>
        ensures { IfOk result (λ b. b.items ≡ record_by (to_keep self.now)) }
    {
        match self.unkept() {
            Some(change) => record_of(self.alloc, change),
            None => Ok(Vec::new(self.alloc)),
        }
    }

    /// The record was written and synced, and then its gate. It changes nothing if nothing must be
    /// kept.
    pub fn kept(&mut self)
        ensures { self.new ≡ kept self.old }
    {
        let count = record_len(self.unkept());
        self.gate += count;
        self.unkept = false;
    }

    /// Writes to the front of a buffer what the last step told beside its frames, in order, and
    /// returns how many events there are. Nothing of it must be kept before.
    ///
    /// # Errors
    /// `Room` if the buffer is too short, with the number of events; `Memory`. Both change nothing.
    pub fn events(&self, out: &mut [TankEvent]) -> Result<usize, HostFault>
        ensures ok { IfOk result (Puts (Ok (events_in self.now.outputs)) out.old out.new) }
        ensures err { IfErr result (NotPut (Ok (events_in self.now.outputs)) (length out.old)) }
        ensures kept { OnErr result (out.new ≡ out.old) }
    {
        self.pending.events(self.alloc, out)
    }

    /// How many bytes must still be taken out.
    pub fn left(&mut self) -> Result<usize, AllocError>
        ensures same { self.new ≡ self.old }
        ensures count { IfOk result (λ n. n ≡ length self.old.left) }
    {
        self.pending.len()
    }

    /// Takes the first bytes out that must still be taken, as many as there is room for, and
    /// returns how many.
    ///
    /// # Errors
    /// `Unkept` while a change must still be kept, and `Memory`; both change nothing.
    pub fn take(&mut self, out: &mut [u8]) -> Result<usize, ServerRefusal>
        ensures ok { IfOk result (Takes self.old.left self.new.left out.old out.new) }
        ensures kept { OnOk result (self.old.unkept ≡ false) }
        ensures err { IfErr result (NotTaken self.old) }
        ensures others { self.new ≡ record self.old { left = self.new.left } }
        ensures same { OnErr result (self.new ≡ self.old) }
        ensures room { OnErr result (out.new ≡ out.old) }
    {
        if self.unkept {
            return Err(ServerRefusal::Unkept);
        }
        match self.pending.take(out) {
            Ok(count) => Ok(count),
            Err(_) => Err(ServerRefusal::Step(StepRefusal::Memory)),
        }
    }
}
