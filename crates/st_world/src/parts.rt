// The parts of a world, and what they return of it.
ghost use Rattle.std.specs.Prelude.{◌≡◌, ◌<◌, ◌≤◌, ◌+◌, ◌^◌, true, None, Some, IsOk, IfOk, OnOk, length, option_map};
ghost use Rattle.st_base.specs.Config as settings;
ghost use Rattle.st_rules.specs.Admissible.{refusal};
ghost use Rattle.st_rules.specs.Events as events;
ghost use Rattle.st_rules.specs.Safety.{IsHead, is_event};
ghost use Rattle.st_rules.specs.World as rules;
ghost use Rattle.st_rules.specs.World.{fresh_world};
ghost use Rattle.st_world.specs.Counters.{CountersHaveRoom};
ghost use Rattle.st_world.specs.Heads.{HasCounts};
ghost use Rattle.st_world.specs.Steps.{StepsAs};

use crate::admission::refusal;
use crate::fault::WorldFault;
use crate::first_parts::{push_client_clocks, push_nodes, push_server_clocks, push_sites};
use crate::steps::step_admitted;
use st_base::{ClientId, Config, NodeId, ServerId, Stamp};
use st_client::ClientNode;
use st_clock::Drift;
use st_messages::{Counts, Event};
use st_model::FlatLog;
use st_rules::{Observation, Summary, WorldRefusal, runs_go_on_in_parts};
use st_server::ServerNode;
use st_world_events::WorldTurn;
use st_world_parts::{Commands, Lives, Network};
use std::alloc::{AllocError, Global};
use std::marker::Model;
use std::mem;

/// The parts of a world: the world itself, and one with a node of each kind, which takes its place
/// when memory runs out. It takes no event then.
#[derive(Drop)]
pub(crate) struct WorldParts {
    pub(crate) machine: WorldTurn,
    spare: WorldTurn,
    pub(crate) broken: bool,
}

impl Model for WorldParts {
    ghost use Rattle.std.specs.Prelude.{◌≡◌, false};
    ghost use Rattle.st_rules.specs.World as shared;
    ghost use Rattle.st_world.specs.ReachedWorlds.{IsQuiet};

    ghost Value = { shared.World };

    ghost view = { λ w. w.machine.world };

    ghost invariant = { λ w. IsQuiet w.machine × (w.broken ≡ false → IsQuiet w.spare) };
}

/// The parts of a world at the start.
#[tactic(auto, unfolding(st_rules::specs::World::fresh_world))]
fn fresh(alloc: Global, config: Config, counts: &Counts, form: u8) -> Result<WorldTurn, AllocError>
    requires checked { IsOk (settings.check config) }
    requires counts { HasCounts counts.now }
    ensures { IfOk result (λ m. m ≡ events.quiet (fresh_world config counts.now.clients counts.now.servers counts.now.disks counts.now.blocks form)) }
{
    let mut clients = Vec::new(alloc);
    push_sites(alloc, &mut clients, &config, counts)?;
    let mut servers = Vec::new(alloc);
    push_nodes(alloc, &mut servers, &config, counts)?;
    let mut clocks = Vec::new(alloc);
    push_client_clocks(&mut clocks, counts.clients)?;
    push_server_clocks(&mut clocks, counts.servers)?;
    let lives = Lives::new(alloc, clocks);
    let drift = Drift::new(alloc, counts.clients as usize + counts.servers as usize)?;
    Ok(WorldTurn {
        alloc,
        config,
        form,
        lives,
        drift,
        clients,
        servers,
        net: Network::new(alloc),
        commands: Commands::new(alloc, counts.disks, counts.blocks),
        log: FlatLog::new(alloc),
        flushed: Vec::new(alloc),
        events: 0,
        reads: 0,
        stolen: 0,
        seen: Vec::new(alloc),
        present: Vec::new(alloc),
    })
}

impl WorldParts {
    /// The world of a head.
    pub(crate) fn new(
        alloc: Global,
        config: Config,
        counts: Counts,
        form: u8,
    ) -> Result<WorldParts, AllocError>
        requires head { IsHead config counts.clients counts.servers counts.disks counts.blocks form }
        ensures { IfOk result (λ w. w ≡ fresh_world config counts.clients counts.servers counts.disks counts.blocks form) }
    {
        let machine = fresh(alloc, config, &counts, form)?;
        let least = Counts {
            clients: 1,
            servers: 1,
            disks: 1,
            blocks: counts.blocks,
        };
        let spare = fresh(alloc, config, &least, form)?;
        Ok(WorldParts {
            machine,
            spare,
            broken: false,
        })
    }

    /// Runs one event that is not refused, and returns what is observed of it, in order. If memory
    /// runs out, nothing is known of the world, and every later step returns `Memory`: discard it.
    pub(crate) fn run(
        &mut self,
        event: &Event,
        spare: Vec<Observation>,
    ) -> Result<Vec<Observation>, WorldFault>
        requires event { is_event (length self.old.clocks) event.now ≡ true }
        requires room { self.old.tally.events < 2 ^ 29 }
        requires admissible { refusal self.old event.now ≡ None }
        requires counters { CountersHaveRoom self.old }
        ensures machine { StepsAs (λ seen. seen.items) self.old self.new result (events.world_step self.old event.now) }
        ensures events { OnOk result (self.new.tally.events ≡ self.old.tally.events + 1) }
        ensures clocks { OnOk result (length self.new.clocks ≡ length self.old.clocks) }
    {
        if self.broken {
            return Err(WorldFault::Memory);
        }
        runs_go_on_in_parts();
        match step_admitted(&mut self.machine, event, spare) {
            Ok(seen) => Ok(seen),
            Err(WorldFault::Refused(refusal)) => Err(WorldFault::Refused(refusal)),
            Err(WorldFault::Memory) => {
                mem::swap(&mut self.machine, &mut self.spare);
                self.broken = true;
                Err(WorldFault::Memory)
            }
        }
    }

    /// Runs one event, and returns what is observed of it, in order. A refusal changes nothing. If
    /// memory runs out, nothing is known of the world, and every later step returns `Memory`:
    /// discard it.
    #[tactic(auto, unfolding(st_rules::specs::Events::world_step, st_rules::specs::Events::world_by))]
    pub(crate) fn step(&mut self, event: &Event) -> Result<Vec<Observation>, WorldFault>
        requires event { is_event (length self.old.clocks) event.now ≡ true }
        requires room { self.old.tally.events < 2 ^ 29 }
        requires counters { CountersHaveRoom self.old }
        ensures machine { StepsAs (λ seen. seen.items) self.old self.new result (events.world_step self.old event.now) }
        ensures events { OnOk result (self.new.tally.events ≡ self.old.tally.events + 1) }
        ensures clocks { OnOk result (length self.new.clocks ≡ length self.old.clocks) }
    {
        if self.broken {
            return Err(WorldFault::Memory);
        }
        match self.refusal(event) {
            Some(refusal) => Err(WorldFault::Refused(refusal)),
            None => self.run(event, Vec::new(self.machine.alloc)),
        }
    }

    /// Returns the first refusal of an event that applies. It changes nothing and takes no memory.
    #[inline(always)]
    pub(crate) fn refusal(&self, event: &Event) -> Option<WorldRefusal>
        requires event { is_event (length self.now.clocks) event.now ≡ true }
        requires room { self.now.tally.events < 2 ^ 29 }
        ensures { result ≡ refusal self.now event.now }
    {
        refusal(&self.machine, event)
    }

    /// A node's clock.
    pub(crate) fn clock(&self, node: NodeId) -> Stamp
        ensures { result ≡ rules.clock_of self.now node }
    {
        self.machine.clock_of(node)
    }

    /// Returns the counts of the run so far.
    pub(crate) fn summary(&self) -> Summary
        ensures { result ≡ events.summary self.now }
    {
        self.machine.summary()
    }

    /// Returns the client of a number, from 1, which is there.
    pub(crate) fn client(&self, client: ClientId) -> &ClientNode
        requires first { 1 ≤ client.0 }
        requires last { client.0 ≤ length self.now.clients }
        ensures { option_map (λ site. site.node) (rules.site_of self.now client) ≡ Some result.now }
    {
        self.machine.client_node(client)
    }

    /// Returns the server of a number, from 1, which is there.
    pub(crate) fn server(&self, server: ServerId) -> &ServerNode
        requires first { 1 ≤ server.0 }
        requires last { server.0 ≤ length self.now.servers }
        ensures { rules.node_of self.now server ≡ Some result.now }
    {
        self.machine.server_node(server)
    }
}
