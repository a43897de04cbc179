ghost use Rattle.std.specs.Prelude.{◌≡◌, ◌≤◌, ◌<◌, ◌+◌, ◌-◌, ◌^◌, true, false, IsOk, IfOk, IfErr, OnOk, OnErr, IsTrue, ◌↔◌};
ghost use Rattle.std.specs.List.{list_all};
ghost use Rattle.st_base.specs.Config as settings;
ghost use Rattle.st_due.specs.Moments.{readable_by};
ghost use Rattle.st_due.specs.ServerDue.{server_due};
ghost use Rattle.st_extents.specs.Layout.{IsWithinLimits};
ghost use Rattle.st_rules.specs.Server as server;
ghost use Rattle.st_messages.specs.Ranges.{fits};
ghost use Rattle.st_messages.specs.declared.output.StepFault.TheVariants.{Memory};
ghost use Rattle.st_rules.specs.declared.input.ServerInput.TheVariants.{Control};
ghost use Rattle.st_server.specs.Answers.{AnswersAreNamed};
ghost use Rattle.st_server.specs.Counts.{counts_of};
ghost use Rattle.st_server.specs.Parts.{stable_of};
ghost use Rattle.st_server.specs.RuleConditions.{comes_fit};
ghost use Rattle.st_server.specs.Restart.{IsStable, crashed_node};
ghost use Rattle.st_server.specs.Room.{HasRoom};
ghost use Rattle.st_server.specs.Invariants.{IsSound, is_sent};
ghost use Rattle.st_server.specs.Steps.{Runs, Steps};

use crate::counts::ServerCounts;
use crate::stable::ServerStable;
use crate::turn::ServerTurn;
use st_base::{Config, Epoch, ServerId, Stamp};
use st_extents::Extents;
use st_lease_server::Authority;
use st_locks::LockTable;
use st_messages::{Message, Outputs, StepFault};
use st_namespace::Names;
use st_reassert::Grace;
use st_rules::ServerInput;
use st_sessions::Sessions;
use std::alloc::{AllocError, Global};
use std::marker::Model;

/// One server of a world. Contracts see it as its machine's state, and whether it runs.
#[derive(Drop)]
pub struct ServerNode {
    machine: ServerTurn,
    running: bool,
}

impl Model for ServerNode {
    ghost use Rattle.std.specs.Prelude.{◌≡◌, []};
    ghost use Rattle.st_rules.specs.Server as shared;
    ghost use Rattle.st_server.specs.Invariants.{IsSound};

    ghost Value = { shared.ServerNode };

    ghost view = { λ n. record { state = n.machine.state; running = n.running } };

    ghost invariant = { λ n. (n.machine.out ≡ []) × IsSound n.machine.state };
}

impl ServerNode {
    /// A server that was never started before: it runs, in epoch 1 and without grace. `id` is from
    /// 1 to `servers`, which is at most 4.
    pub fn fresh(
        alloc: Global,
        id: ServerId,
        config: &Config,
        servers: u16,
        disks: u16,
        blocks: u32,
    ) -> Result<ServerNode, AllocError>
        requires checked { IsOk (settings.check config.now) }
        requires limits { IsWithinLimits id.0 servers disks blocks }
        ensures { IfOk result (λ n. n ≡ server.fresh_node id config.now servers disks blocks) }
    {
        Ok(ServerNode {
            machine: ServerTurn::fresh(alloc, id, *config, servers, disks, blocks)?,
            running: true,
        })
    }

    /// A server of which a crash left this stable part. It does not run, and `start` begins its
    /// next epoch. `id` is from 1 to 4.
    pub fn restore(alloc: Global, id: ServerId, config: &Config, stable: ServerStable) -> ServerNode
        requires checked { IsOk (settings.check config.now) }
        requires some { 1 ≤ id.0 }
        requires known { id.0 ≤ 4 }
        requires stable { IsStable (stable_of stable) }
        ensures { result ≡ crashed_node id config.now (stable_of stable) }
    {
        ServerNode {
            machine: ServerTurn::restore(alloc, id, *config, stable),
            running: false,
        }
    }

    /// The server's number.
    pub fn id(&self) -> ServerId
        ensures { result ≡ self.now.state.id }
    {
        self.machine.id
    }

    /// Whether the node runs.
    pub fn running(&self) -> bool
        ensures running { result ≡ self.now.running }
        ensures sound { IsSound self.now.state }
    {
        self.running
    }

    /// What a crash of the node leaves.
    pub fn stable(&self) -> &ServerStable
        ensures { stable_of result.now ≡ self.now.state.stable }
    {
        &self.machine.stable
    }

    /// How much the server has.
    pub fn counts(&self) -> ServerCounts
        ensures { result ≡ counts_of self.now.state }
    {
        self.machine.counts()
    }

    /// From which moment on a tick does something, as long as there is no other step; none if no
    /// clock may read it.
    pub fn due(&self) -> Result<Option<u64>, AllocError>
        ensures { IfOk result (λ o. o ≡ readable_by (server_due self.now.state)) }
    {
        self.machine.due()
    }

    /// Whether a step may be taken, as far as the counters go.
    pub fn has_room(&self) -> bool
        ensures { IsTrue result ↔ HasRoom self.now.state }
    {
        self.machine.has_room()
    }

    /// The node crashes: only its stable part is left, and it does not run.
    pub fn crash(&mut self)
        ensures { self.new ≡ server.crash_node self.old }
    {
        self.machine.crash();
        self.running = false;
    }

    /// A node that does not run is started: its epoch rises, and grace begins. If memory runs out
    /// the node stays as it was.
    pub fn start(&mut self, now: Stamp) -> Result<(), AllocError>
        requires crashed { self.old.running ≡ false }
        requires epochs { self.old.state.stable.epoch.0 < 2 ^ 32 - 1 }
        requires time { now.0 ≤ 2 ^ 62 }
        ensures started { OnOk result (self.new ≡ server.start_node self.old now) }
        ensures kept { OnErr result (self.new ≡ self.old) }
    {
        self.machine.start(now);
        self.running = true;
        Ok(())
    }

    /// Takes the outputs of the step, in order.
    fn step_running(&mut self, now: Stamp, input: &ServerInput) -> Result<Outputs, StepFault>
        requires time { now.0 ≤ 2 ^ 62 }
        requires fits { comes_fit input.now ≡ true }
        requires room { HasRoom self.old.state }
        requires running { self.old.running ≡ true }
        ensures exact { Runs self.old self.new result (server.node_turn self.old (server.server_step self.old.state now input.now)) }
        ensures sent { IfOk result (λ out. list_all is_sent out ≡ true) }
    {
        match self.machine.step(now, input) {
            Ok(()) => Ok(self.machine.take_outputs()),
            Err(_) => {
                self.machine.crash();
                self.running = false;
                Err(StepFault::Memory)
            }
        }
    }

    /// Takes a step at this moment, and returns its outputs in order. Moments never fall.
    ///
    /// # Errors
    /// `Crashed` if the node does not run; then nothing changes. `Memory` if memory runs out:
    /// then the node is crashed, and its stable part is that from before the step or that which the
    /// step leaves.
    #[tactic(auto, unfolding(st_rules::specs::Server::node_step))]
    pub fn step(&mut self, now: Stamp, input: ServerInput) -> Result<Outputs, StepFault>
        requires time { now.0 ≤ 2 ^ 62 }
        requires fits { comes_fit input ≡ true }
        requires room { HasRoom self.old.state }
        ensures exact { Steps self.old self.new result (server.node_step self.old now input) }
        ensures sent { IfOk result (λ out. list_all is_sent out ≡ true) }
    {
        if self.running {
            self.step_running(now, &input)
        } else {
            Err(StepFault::Crashed)
        }
    }
}

/// Takes a step of a node that runs, for a message. The rule for it adds at most one message to the
/// outputs: an answer to its sender, which is a reply or a refusal by name and never a demand.
///
/// # Errors
/// `Memory` if memory runs out; then the node is crashed.
pub fn answers_are_named(
    node: &mut ServerNode,
    now: Stamp,
    message: Message,
) -> Result<Outputs, StepFault>
    requires time { now.0 ≤ 2 ^ 62 }
    requires fits { fits message ≡ true }
    requires room { HasRoom node.old.state }
    requires running { node.old.running ≡ true }
    ensures exact { Steps node.old node.new result (server.node_step node.old now (Control message)) }
    ensures runs { OnOk result (node.new.running ≡ true) }
    ensures named { AnswersAreNamed node.old.state now message }
    ensures fault { IfErr result (λ f. f ≡ Memory) }
{
    // For its clause `sound`: what always holds of a node that runs.
    let _running = node.running();
    node.step(now, ServerInput::Control(message))
}
