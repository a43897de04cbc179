// A client of a world: it runs, or it is crashed.
ghost use Rattle.std.specs.Prelude.{◌≡◌, ◌≤◌, ◌^◌, ◌++◌, true, false, length, IsOk, IfOk, OnOk, OnErr, IsTrue, ◌↔◌};
ghost use Rattle.std.specs.List.{list_all};
ghost use Rattle.std.specs.Option.{option_copied};
ghost use Rattle.st_base.specs.Config as settings;
ghost use Rattle.st_base.specs.declared.ids.ServerId.{ServerId};
ghost use Rattle.st_client.specs.Counts.{counts_with, is_awaited_with};
ghost use Rattle.st_client.specs.Losses.{Discards, IsOver};
ghost use Rattle.st_client.specs.Ends.{end_in};
ghost use Rattle.st_client.specs.Inputs.{comes_fit, is_sent, Runs, Steps};
ghost use Rattle.st_client.specs.Nodes.{crashed_node, is_begun, running_state};
ghost use Rattle.st_client.specs.Room.{HasRoom};
ghost use Rattle.st_rules.specs.Client as client;
ghost use Rattle.st_rules.specs.World as world;

use crate::counts::ClientCounts;
use crate::ends::LeaseEnds;
use crate::lives::{are_low, copied, life_among, push_crashed, started};
use crate::state::ClientState;
use st_base::{ClientId, Config, Life, ServerId, Stamp};
use st_messages::{Outputs, StepFault};
use st_rules::{ClientInput, LeaseLife, Phase};
use std::alloc::{AllocError, Global};
use std::marker::Model;

/// A client of a world. Contracts see it as its machine's state, and whether it runs.
#[derive(Drop)]
pub struct ClientNode {
    alloc: Global,
    id: ClientId,
    config: Config,
    servers: Vec<ServerId>,
    lives: Vec<Life>,
    state: Option<ClientState>,
}

impl Model for ClientNode {
    ghost use Rattle.std.specs.Prelude.{vec_capacity};
    ghost use Rattle.st_client.specs.Nodes.{IsNode, node_of};
    ghost use Rattle.st_rules.specs.Client as shared;

    ghost Value = { shared.ClientNode };

    ghost view = { λ n. node_of n.id n.config n.servers.items n.lives.items n.state };

    ghost invariant = { λ n. IsNode n.id n.config n.servers.items n.lives.items (vec_capacity n.lives) n.state };
}

impl ClientNode {
    /// A client that was never started before: it runs, in life 1 at each server. `id` is from 1 to
    /// 16, and there are at most four servers.
    pub fn fresh(
        alloc: Global,
        id: ClientId,
        config: &Config,
        servers: u16,
    ) -> Result<ClientNode, AllocError>
        requires checked { IsOk (settings.check config.now) }
        requires client { 1 ≤ id.0 }
        requires clients { id.0 ≤ 16 }
        requires servers { servers ≤ 4 }
        ensures { IfOk result (λ n. n ≡ client.fresh_node id config.now servers) }
    {
        let state = ClientState::fresh(alloc, id, config, servers)?;
        let servers = state.servers()?;
        let mut lives = Vec::with_capacity(alloc, servers.len())?;
        state.tell_lives(&mut lives);
        Ok(ClientNode {
            alloc,
            id,
            config: *config,
            servers,
            lives,
            state: Some(state),
        })
    }

    /// A client that crashed in these lives, one at each server, the first at server 1. Each is at
    /// least 1. It does not run, and `start` begins its next lives. `id` is from 1 to 16, and there
    /// are at most four servers.
    pub fn restore(
        alloc: Global,
        id: ClientId,
        config: &Config,
        lives: &[Life],
    ) -> Result<ClientNode, AllocError>
        requires checked { IsOk (settings.check config.now) }
        requires client { 1 ≤ id.0 }
        requires clients { id.0 ≤ 16 }
        requires servers { length lives.now ≤ 4 }
        requires begun { list_all is_begun lives.now ≡ true }
        ensures { IfOk result (λ n. n ≡ crashed_node id config.now lives.now) }
    {
        let state = ClientState::fresh(alloc, id, config, lives.len() as u16)?;
        let servers = state.servers()?;
        let lives = copied(alloc, lives)?;
        Ok(ClientNode {
            alloc,
            id,
            config: *config,
            servers,
            lives,
            state: None,
        })
    }

    /// The client's number.
    pub fn id(&self) -> ClientId
        ensures { result ≡ self.now.state.id }
    {
        self.id
    }

    /// Whether the node runs.
    pub fn running(&self) -> bool
        ensures { result ≡ self.now.running }
    {
        self.state.is_some()
    }

    /// The state, if the node runs. A node that does not run has nothing but its lives.
    pub fn state(&self) -> Option<&ClientState>
        ensures running { option_copied result ≡ running_state self.now }
        ensures crashed { self.now.running ≡ false → self.now.state ≡ client.crash self.now.state }
    {
        self.state.as_ref()
    }

    /// The lives, by rising server.
    pub fn lives(&self) -> &[Life]
        ensures { result.now ≡ client.lives self.now.state }
    {
        self.lives.as_slice()
    }

    /// The life at a server, or life 0 if there is no such server.
    pub fn life(&self, server: ServerId) -> Life
        ensures { result ≡ world.life_with self.now.state server }
    {
        life_among(self.servers.as_slice(), self.lives.as_slice(), server)
    }

    /// The phase of the lease at a server, if one is held.
    pub fn phase(&self, server: ServerId, now: Stamp) -> Option<Phase>
        ensures { result ≡ client.phase_with self.now.state server now }
    {
        match &self.state {
            Some(state) => state.phase(server, now),
            None => None,
        }
    }

    /// The end of the lease at a server, if one is held.
    pub fn lease_end(&self, server: ServerId) -> Option<Stamp>
        ensures { result ≡ client.lease_end_with self.now.state server }
    {
        match &self.state {
            Some(state) => state.lease_end(server),
            None => None,
        }
    }

    /// The ends of the leases at all servers.
    pub fn lease_ends(&self) -> LeaseEnds
        ensures { (s : ServerId) → end_in result s ≡ client.lease_end_with self.now.state s }
    {
        match &self.state {
            Some(state) => state.lease_ends(),
            None => LeaseEnds {
                ends: [None, None, None, None],
            },
        }
    }

    /// Whether a page of the server is dirty.
    pub fn has_dirty(&self, server: ServerId) -> bool
        ensures { result ≡ client.has_dirty_with self.now.state server }
    {
        match &self.state {
            Some(state) => state.has_dirty(server),
            None => false,
        }
    }

    /// How much the client has of a server.
    pub fn counts(&self, server: ServerId) -> ClientCounts
        ensures { result ≡ counts_with self.now.state server }
    {
        match &self.state {
            Some(state) => state.counts(server),
            None => ClientCounts::without(0),
        }
    }

    /// Whether an operation waits for a grant of the file, or for what else it needs with the lock
    /// that is held.
    pub fn is_awaited(&self, server: ServerId, ino: u32) -> bool
        ensures { result ≡ is_awaited_with self.now.state server ino }
    {
        match &self.state {
            Some(state) => state.is_awaited(server, ino),
            None => false,
        }
    }

    /// Adds its present lives, with the ends of their leases. If memory runs out the list stays as
    /// it was.
    pub fn push_lives(&self, found: &mut Vec<LeaseLife>) -> Result<(), AllocError>
        ensures added { OnOk result (found.new.items ≡ found.old.items ++ world.lives_of self.now.state) }
        ensures kept { OnErr result (found.new.items ≡ found.old.items) }
    {
        found.reserve(self.servers.len())?;
        match &self.state {
            Some(state) => {
                state.push_lives(found);
                Ok(())
            }
            None => {
                push_crashed(
                    self.id,
                    self.servers.as_slice(),
                    self.lives.as_slice(),
                    found,
                );
                Ok(())
            }
        }
    }

    /// Whether a step may be taken, as far as the counters go.
    pub fn has_room(&self) -> bool
        ensures { IsTrue result ↔ HasRoom self.now.state }
    {
        match &self.state {
            Some(state) => state.has_room(),
            None => are_low(self.lives.as_slice()),
        }
    }

    /// The node crashes: only its lives are left, and it does not run.
    pub fn crash(&mut self)
        ensures { self.new ≡ client.crash_node self.old }
    {
        self.state = None;
    }

    /// A node that does not run is started, in its next life at every server. If memory runs out
    /// the node stays as it was.
    pub fn start(&mut self) -> Result<(), AllocError>
        requires crashed { self.old.running ≡ false }
        requires room { HasRoom self.old.state }
        ensures started { OnOk result (self.new ≡ client.start_node self.old) }
        ensures kept { OnErr result (self.new ≡ self.old) }
    {
        let state = started(
            self.alloc,
            self.id,
            &self.config,
            self.servers.as_slice(),
            self.lives.as_slice(),
        )?;
        state.tell_lives(&mut self.lives);
        self.state = Some(state);
        Ok(())
    }

    /// Takes a step of a client that runs.
    #[inline(always)]
    fn step_running(&mut self, now: Stamp, input: &ClientInput) -> Result<Outputs, StepFault>
        requires time { now.0 ≤ 2 ^ 62 }
        requires fits { comes_fit input.now ≡ true }
        requires room { HasRoom self.old.state }
        requires running { self.old.running ≡ true }
        ensures { Runs self.old self.new result (client.node_turn self.old (client.client_step self.old.state now input.now)) }
    {
        let state = match self.state.take() {
            Some(state) => state,
            None => return Err(StepFault::Crashed),
        };
        match state.step(now, input) {
            Ok((state, out)) => {
                state.tell_lives(&mut self.lives);
                self.state = Some(state);
                Ok(out)
            }
            Err(_) => Err(StepFault::Memory),
        }
    }

    /// Takes a step at this moment, and returns its outputs in order. Moments never fall.
    ///
    /// # Errors
    /// `Crashed` if the node does not run; then nothing changes. `Memory` if memory runs out:
    /// then the node is crashed, in the lives from before the step.
    ///
    /// If the lease of a server is over at this moment, nothing of that server is left, and
    /// nothing of it goes out.
    #[inline(always)]
    #[tactic(auto, unfolding(st_rules::specs::Client::node_step))]
    pub fn step(&mut self, now: Stamp, input: ClientInput) -> Result<Outputs, StepFault>
        requires time { now.0 ≤ 2 ^ 62 }
        requires fits { comes_fit input ≡ true }
        requires room { HasRoom self.old.state }
        ensures exact { Steps self.old self.new result (client.node_step self.old now input) }
        ensures sent { IfOk result (λ out. list_all is_sent out ≡ true) }
        ensures discarding { (s : ServerId) → IsOver s self.old.state now → IfOk result (λ out. Discards s self.old.state input self.new.state out) }
    {
        if self.state.is_some() {
            self.step_running(now, &input)
        } else {
            Err(StepFault::Crashed)
        }
    }
}
