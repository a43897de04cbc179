// The world.
ghost use Rattle.std.specs.Prelude.{◌≡◌, ◌<◌, ◌≤◌, ◌+◌, ◌^◌, true, None, Some, IfOk, OnOk, length, option_map};
ghost use Rattle.st_rules.specs.Admissible.{refusal};
ghost use Rattle.st_rules.specs.Events as events;
ghost use Rattle.st_rules.specs.Safety.{IsHead, is_event};
ghost use Rattle.st_rules.specs.World as rules;
ghost use Rattle.st_rules.specs.World.{fresh_world};
ghost use Rattle.st_world_parts.specs.Pieces as pieces;
ghost use Rattle.st_world.specs.Counters.{CountersHaveRoom};
ghost use Rattle.st_world.specs.Safe.{GoesOnInTheVolume, GoesOnSafely, IsLedSafely};
ghost use Rattle.st_world.specs.Steps.{StepsAs};

use crate::fault::WorldFault;
use crate::parts::WorldParts;
use st_base::{ClientId, Config, NodeId, ServerId, Stamp};
use st_client::ClientNode;
use st_messages::{Counts, Event};
use st_model::FlatLog;
use st_rules::{Observation, Summary, WorldRefusal};
use st_server::ServerNode;
use std::alloc::{AllocError, Global};
use std::marker::Model;

/// A world. Contracts see it as the definitions' record: a run from the world of a head leads to
/// it. Its parts stay where they are as it goes from hand to hand.
#[derive(Drop)]
pub struct World {
    of: Box<WorldParts>,
}

impl Model for World {
    ghost use Rattle.st_rules.specs.World as shared;

    ghost Value = { shared.World };

    ghost view = { λ w. w.of.value };
}

impl World {
    /// The world of a head: the settings, how many clients, servers and disks there are, how many
    /// blocks a disk has, and the head's form.
    pub fn new(
        alloc: Global,
        config: &Config,
        clients: u16,
        servers: u16,
        disks: u16,
        blocks: u32,
        form: u8,
    ) -> Result<World, AllocError>
        requires head { IsHead config.now clients servers disks blocks form }
        ensures fresh { IfOk result (λ w. w ≡ fresh_world config.now clients servers disks blocks form) }
        ensures led { IfOk result IsLedSafely }
    {
        let counts = Counts {
            clients,
            servers,
            disks,
            blocks,
        };
        let parts = WorldParts::new(alloc, *config, counts, form)?;
        parts.runs_here_are_safe();
        Ok(World {
            of: Box::new(alloc, parts)?,
        })
    }

    /// Runs one event, and returns what is observed of it, in order. A refusal changes nothing. If
    /// memory runs out, nothing is known of the world, and every later step returns `Memory`:
    /// discard it. Whatever it returns, a run leads to the world that it leaves, and every run that
    /// leads there is safe. So is every run that led to the world before, with this event after it,
    /// and this is a run of the volume (`docs/PROTOCOL.md`, "The volume").
    /// No counter of the world is at its end (`counters`), so an error for memory means that memory
    /// ran out.
    pub fn step(&mut self, event: Event) -> Result<Vec<Observation>, WorldFault>
        requires event { is_event (length self.old.clocks) event ≡ true }
        requires room { self.old.tally.events < 2 ^ 29 }
        ensures machine { StepsAs (λ seen. seen.items) self.old self.new result (events.world_step self.old event) }
        ensures events { OnOk result (self.new.tally.events ≡ self.old.tally.events + 1) }
        ensures clocks { OnOk result (length self.new.clocks ≡ length self.old.clocks) }
        ensures led { IsLedSafely self.new }
        ensures safe { GoesOnSafely self.old event }
        ensures volume { GoesOnInTheVolume self.old event }
        ensures counters { CountersHaveRoom self.old }
    {
        let parts: &mut WorldParts = &mut self.of;
        parts.runs_on_are_safe(&event);
        parts.counters_have_room();
        let stepped = parts.step(&event);
        parts.runs_here_are_safe();
        stepped
    }

    /// Runs one event that is admissible, as `step` does, which asks first whether it is. The spare
    /// list is emptied, and its room is used for what is observed of the next event: a caller that
    /// gives back what it got needs no memory for observations.
    pub fn run(
        &mut self,
        event: &Event,
        spare: Vec<Observation>,
    ) -> Result<Vec<Observation>, WorldFault>
        requires event { is_event (length self.old.clocks) event.now ≡ true }
        requires room { self.old.tally.events < 2 ^ 29 }
        requires admissible { refusal self.old event.now ≡ None }
        ensures machine { StepsAs (λ seen. seen.items) self.old self.new result (events.world_step self.old event.now) }
        ensures events { OnOk result (self.new.tally.events ≡ self.old.tally.events + 1) }
        ensures clocks { OnOk result (length self.new.clocks ≡ length self.old.clocks) }
        ensures led { IsLedSafely self.new }
        ensures safe { GoesOnSafely self.old event.now }
        ensures volume { GoesOnInTheVolume self.old event.now }
        ensures counters { CountersHaveRoom self.old }
    {
        let parts: &mut WorldParts = &mut self.of;
        parts.runs_on_are_safe(event);
        parts.counters_have_room();
        let stepped = parts.run(event, spare);
        parts.runs_here_are_safe();
        stepped
    }

    /// Returns the first refusal of an event that applies. It changes nothing and takes no memory.
    #[inline(always)]
    pub fn refusal(&self, event: &Event) -> Option<WorldRefusal>
        requires event { is_event (length self.now.clocks) event.now ≡ true }
        requires room { self.now.tally.events < 2 ^ 29 }
        ensures { result ≡ refusal self.now event.now }
    {
        self.of.refusal(event)
    }

    /// A node's clock.
    pub fn clock(&self, node: NodeId) -> Stamp
        ensures { result ≡ rules.clock_of self.now node }
    {
        self.of.clock(node)
    }

    /// Returns how many messages were sent.
    pub fn message_count(&self) -> u64
        ensures { result ≡ length self.now.net.messages }
    {
        self.of.machine.net.count()
    }

    /// Returns how many commands were submitted.
    pub fn command_count(&self) -> u64
        ensures { result ≡ length self.now.commands }
    {
        self.of.machine.commands.count()
    }

    /// The spelling of the message of a number, from 1.
    pub fn sent(&self, k: u64) -> Option<&[u8]>
        ensures { option_map (λ b. b.now) result ≡ option_map pieces.spelling_sent (rules.message_of self.now k) }
    {
        self.of.machine.net.spelled(k)
    }

    /// Returns the counts of the run so far.
    pub fn summary(&self) -> Summary
        ensures { result ≡ events.summary self.now }
    {
        self.of.summary()
    }

    /// Returns the client of a number, from 1. It is one of this world.
    pub fn client(&self, client: ClientId) -> &ClientNode
        requires first { 1 ≤ client.0 }
        requires last { client.0 ≤ length self.now.clients }
        ensures { option_map (λ site. site.node) (rules.site_of self.now client) ≡ Some result.now }
    {
        self.of.client(client)
    }

    /// Returns the server of a number, from 1. It is one of this world.
    pub fn server(&self, server: ServerId) -> &ServerNode
        requires first { 1 ≤ server.0 }
        requires last { server.0 ≤ length self.now.servers }
        ensures { rules.node_of self.now server ≡ Some result.now }
    {
        self.of.server(server)
    }

    /// Returns the log.
    pub fn log(&self) -> &FlatLog
        ensures { result.now ≡ self.now.log }
    {
        &self.of.machine.log
    }
}
