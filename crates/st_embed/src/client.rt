// A client inside another program.
ghost use Rattle.std.specs.Prelude.{◌≡◌, ◌≤◌, ◌^◌, true, map, Ok, IsOk, IfOk, IfErr, OnOk, OnErr, length};
ghost use Rattle.std.specs.List.{list_all, flat_map};
ghost use Rattle.st_base.specs.Config as settings;
ghost use Rattle.st_client.specs.Counts.{counts_with, is_awaited_with};
ghost use Rattle.st_client.specs.Inputs.{is_sent};
ghost use Rattle.st_client.specs.Room.{HasRoom};
ghost use Rattle.st_client.specs.Nodes.{crashed_node};
ghost use Rattle.st_client_due.specs.ClientDue.{client_due};
ghost use Rattle.st_due.specs.Moments.{readable_by};
ghost use Rattle.st_embed.specs.Clients.{MayOpen, MayStep, NotOpened, Refuses, Steps, are_lives, begun, has_new_life, is_kept, life, opened};
ghost use Rattle.st_embed.specs.Clients as clients;
ghost use Rattle.st_embed.specs.FramePieces.{Takes};
ghost use Rattle.st_embed.specs.StepOutputs.{client_outputs};
ghost use Rattle.st_embed.specs.Events.{events_in};
ghost use Rattle.st_host_frames.specs.Results.{NotPut, Puts};
ghost use Rattle.st_messages.specs.Ranges.{fits};
ghost use Rattle.st_node.specs.Runs.{client_frame, handle};
ghost use Rattle.st_node.specs.declared.node.Node.TheVariants as nodes;
ghost use Rattle.st_rules.specs.Client as client;
ghost use Rattle.st_rules.specs.World as world;

use crate::checks::{check_taken, is_in_time, read_step};
use crate::events::TankEvent;
use crate::fault::{OpenFault, StepRefusal};
use crate::lives::{are_kept, are_none, are_same, lives_now, lives_of};
use crate::outbox::Sender;
use crate::pending_frames::PendingFrames;
use st_base::{ClientId, Config, Life, ServerId, Stamp};
use st_client::{ClientCounts, ClientInput, ClientNode, Outputs, Phase, StepFault};
use st_client_moments::due;
use st_host_frames::HostFault;
use st_messages::Message;
use st_node::client_input_of;
use std::alloc::{AllocError, Global};
use std::marker::Model;

/// A client inside another program. Contracts see its node, the bytes of its frames that must still
/// be taken out, and the moment of its last step.
#[derive(Drop)]
pub struct EmbeddedClient {
    alloc: Global,
    node: ClientNode,
    last: Stamp,
    pending: PendingFrames,
}

impl Model for EmbeddedClient {
    ghost use Rattle.st_embed.specs.Clients as shown;

    ghost Value = { shown.EmbeddedClient };

    ghost view = { λ c. record { node = c.node; left = c.pending.left; outputs = c.pending.outputs; last = c.last } };
}

/// Whether this is the number of a client.
fn is_client(id: ClientId) -> bool
    ensures { result ≡ clients.is_client id }
{
    1 <= id.0 && id.0 <= 16
}

/// A client in the lives after these.
fn started(
    alloc: Global,
    id: ClientId,
    config: &Config,
    lives: &[u64],
) -> Result<ClientNode, AllocError>
    requires checked { IsOk (settings.check config.now) }
    requires least { 1 ≤ id.0 }
    requires most { id.0 ≤ 16 }
    requires servers { length lives.now ≤ 4 }
    requires kept { list_all is_kept lives.now ≡ true }
    ensures { IfOk result (λ n. n ≡ client.start_node (crashed_node id config.now (map life lives.now))) }
{
    let lives = lives_of(alloc, lives)?;
    let mut node = ClientNode::restore(alloc, id, config, &lives)?;
    node.start()?;
    Ok(node)
}

/// A client that runs: in life 1 if it was never started, and otherwise in the lives after these.
fn begin(
    alloc: Global,
    id: ClientId,
    config: &Config,
    lives: &[u64],
) -> Result<ClientNode, OpenFault>
    requires checked { IsOk (settings.check config.now) }
    requires number { clients.is_client id ≡ true }
    requires servers { length lives.now ≤ 4 }
    ensures ok { IfOk result (λ n. n ≡ begun id config.now lives.now) }
    ensures lives { OnOk result (are_lives lives.now ≡ true) }
    ensures err { IfErr result (NotOpened id config.now lives.now) }
{
    if are_none(lives) {
        return match ClientNode::fresh(alloc, id, config, lives.len() as u16) {
            Ok(node) => Ok(node),
            Err(_) => Err(OpenFault::Memory),
        };
    }
    if are_kept(lives) {
        return match started(alloc, id, config, lives) {
            Ok(node) => Ok(node),
            Err(_) => Err(OpenFault::Memory),
        };
    }
    Err(OpenFault::Lives)
}

/// The outputs of a node's step for a message; none if the message isn't an input of the node. An
/// error means that memory ran out: then the node is crashed.
#[tactic(auto, unfolding(st_node::specs::Runs::handle))]
fn outputs_for(
    alloc: Global,
    node: &mut ClientNode,
    now: Stamp,
    message: Message,
) -> Result<Outputs, AllocError>
    requires time { now.0 ≤ 2 ^ 62 }
    requires fits { fits message ≡ true }
    requires room { HasRoom node.old.state }
    ensures node { OnOk result (nodes.Client node.new ≡ (handle (nodes.Client node.old) now message).node) }
    ensures out { IfOk result (λ out. flat_map (client_frame node.old.state.id) out ≡ (handle (nodes.Client node.old) now message).out) }
    ensures outputs { IfOk result (λ out. out ≡ client_outputs node.old now message) }
    ensures sent { IfOk result (λ out. list_all is_sent out ≡ true) }
    ensures starved { OnErr result (node.new ≡ client.crash_node node.old) }
{
    if message.header.to != node.id().0 {
        return Ok(Outputs::new(alloc));
    }
    match client_input_of(message) {
        Some(input) => match node.step(now, input) {
            Ok(outputs) => Ok(outputs),
            Err(StepFault::Memory) => Err(AllocError),
            Err(StepFault::Crashed) => Ok(Outputs::new(alloc)),
        },
        None => Ok(Outputs::new(alloc)),
    }
}

impl EmbeddedClient {
    /// Opens a client that runs. `lives` has one for each of its servers, of which there are at
    /// most four: all 0 if the client was never started, which is then in life 1 at each; otherwise
    /// those that were kept last, after which its next lives begin. `id` is from 1 to 16.
    pub fn open(
        alloc: Global,
        id: ClientId,
        config: &Config,
        lives: &[u64],
    ) -> Result<EmbeddedClient, OpenFault>
        ensures may { OnOk result (MayOpen id config.now lives.now) }
        ensures ok { IfOk result (λ c. c ≡ opened id config.now lives.now) }
        ensures err { IfErr result (NotOpened id config.now lives.now) }
    {
        if let Err(refusal) = config.check() {
            return Err(OpenFault::Settings(refusal));
        }
        if !is_client(id) {
            return Err(OpenFault::Number);
        }
        if lives.len() > 4 {
            return Err(OpenFault::Servers);
        }
        let node = begin(alloc, id, config, lives)?;
        Ok(EmbeddedClient {
            alloc,
            node,
            last: Stamp(0),
            pending: PendingFrames::new(alloc),
        })
    }

    /// The client's number.
    pub fn id(&self) -> ClientId
        ensures { result ≡ self.now.node.state.id }
    {
        self.node.id()
    }

    /// Whether the client runs.
    pub fn running(&self) -> bool
        ensures { result ≡ self.now.node.running }
    {
        self.node.running()
    }

    /// The life at a server, or life 0 if there is no such server.
    pub fn life(&self, server: ServerId) -> Life
        ensures { result ≡ world.life_with self.now.node.state server }
    {
        self.node.life(server)
    }

    /// The phase of the lease at a server, if one is held.
    pub fn phase(&self, server: ServerId, now: Stamp) -> Option<Phase>
        ensures { result ≡ client.phase_with self.now.node.state server now }
    {
        self.node.phase(server, now)
    }

    /// The end of the lease at a server, if one is held.
    pub fn lease_end(&self, server: ServerId) -> Option<Stamp>
        ensures { result ≡ client.lease_end_with self.now.node.state server }
    {
        self.node.lease_end(server)
    }

    /// Whether a page of the server is dirty.
    pub fn has_dirty(&self, server: ServerId) -> bool
        ensures { result ≡ client.has_dirty_with self.now.node.state server }
    {
        self.node.has_dirty(server)
    }

    /// How much the client has of a server.
    pub fn counts(&self, server: ServerId) -> ClientCounts
        ensures { result ≡ counts_with self.now.node.state server }
    {
        self.node.counts(server)
    }

    /// Whether an operation waits for a grant of the file, or for what else it needs with the lock
    /// that is held. Until then a demand for the file is held back.
    pub fn is_awaited(&self, server: ServerId, ino: u32) -> bool
        ensures { result ≡ is_awaited_with self.now.node.state server ino }
    {
        self.node.is_awaited(server, ino)
    }

    /// The first moment from this one on at which a tick does something, as long as there is no
    /// other step; none if no clock may read it. An error means that memory ran out.
    pub fn due(&self, from: Stamp) -> Result<Option<u64>, AllocError>
        ensures { IfOk result (λ o. o ≡ readable_by (client_due self.now.node.state from)) }
    {
        due(&self.node, from)
    }

    /// How many bytes must still be taken out. An error means that memory ran out; it changes
    /// nothing, and the call may be tried again.
    pub fn left(&mut self) -> Result<usize, AllocError>
        ensures same { self.new ≡ self.old }
        ensures count { IfOk result (λ n. n ≡ length self.old.left) }
    {
        self.pending.len()
    }

    /// Takes the first bytes out that must still be taken, as many as there is room for, and
    /// returns how many. An error means that memory ran out; it changes nothing, and the call may
    /// be tried again.
    pub fn take(&mut self, out: &mut [u8]) -> Result<usize, AllocError>
        ensures ok { IfOk result (Takes self.old.left self.new.left out.old out.new) }
        ensures node { self.new.node ≡ self.old.node }
        ensures outputs { self.new.outputs ≡ self.old.outputs }
        ensures last { self.new.last ≡ self.old.last }
        ensures same { OnErr result (self.new ≡ self.old) }
        ensures kept { OnErr result (out.new ≡ out.old) }
    {
        self.pending.take(out)
    }

    /// Writes to the front of a buffer what the last step told beside its frames, in order, and
    /// returns how many events there are.
    ///
    /// # Errors
    /// `Room` if the buffer is too short, with the number of events; `Memory`. Both change nothing.
    pub fn events(&self, out: &mut [TankEvent]) -> Result<usize, HostFault>
        ensures ok { IfOk result (Puts (Ok (events_in self.now.outputs)) out.old out.new) }
        ensures err { IfErr result (NotPut (Ok (events_in self.now.outputs)) (length out.old)) }
        ensures kept { OnErr result (out.new ≡ out.old) }
    {
        self.pending.events(self.alloc, out)
    }

    /// Whether a step may be taken at this moment, and the message of its frame.
    fn check(&mut self, now: Stamp, frame: &[u8]) -> Result<Message, StepRefusal>
        ensures same { self.new ≡ self.old }
        ensures ok { IfOk result (MayStep self.old now frame.now) }
        ensures fits { IfOk result (λ m. fits m ≡ true) }
        ensures err { IfErr result (Refuses self.old self.old now frame.now) }
    {
        if !self.node.running() {
            return Err(StepRefusal::Crashed);
        }
        check_taken(&mut self.pending)?;
        if !is_in_time(self.last, now) {
            return Err(StepRefusal::Time);
        }
        let message = read_step(self.alloc, frame)?;
        if !self.node.has_room() {
            return Err(StepRefusal::Full);
        }
        Ok(message)
    }

    /// Takes a step for the message of one frame, with its length, at this moment. Moments never
    /// fall, and are at most 2^62. A message that isn't an input of the client is ignored. Returns
    /// whether a life at one of the servers has changed: then the lives must be kept before any
    /// byte of this step is sent.
    ///
    /// # Errors
    /// All but `Starved` change nothing. `Starved` leaves a client that is crashed, in the lives
    /// from before the step, and nothing to be taken out.
    pub fn step(&mut self, now: Stamp, frame: &[u8]) -> Result<bool, StepRefusal>
        ensures ok { OnOk result (Steps self.old self.new now frame.now) }
        ensures lives { IfOk result (λ another. another ≡ has_new_life self.old.node.state self.new.node.state) }
        ensures err { IfErr result (Refuses self.old self.new now frame.now) }
    {
        let message = self.check(now, frame)?;
        let sender = Sender::Client(self.node.id());
        let before = lives_now(&self.node);
        self.last = now;
        match outputs_for(self.alloc, &mut self.node, now, message) {
            Ok(outputs) => {
                self.pending.put(sender, outputs);
                Ok(!are_same(before, lives_now(&self.node)))
            }
            Err(_) => {
                self.pending.put(sender, Outputs::new(self.alloc));
                Err(StepRefusal::Starved)
            }
        }
    }
}
