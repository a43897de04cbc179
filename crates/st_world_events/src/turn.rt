// The parts of the world, and the observations of the step so far.
ghost use Rattle.std.specs.Prelude.{◌≡◌, ◌≤◌, ◌<◌, ◌+◌, Some, OnOk, length, option_map};
ghost use Rattle.std.specs.Option.{option_copied};
ghost use Rattle.st_rules.specs.Events as events;
ghost use Rattle.st_rules.specs.World as world;
ghost use Rattle.st_world_events.specs.OutputEffects.{Stays};

use crate::client::WorldClient;
use st_base::{BlockAt, ClientId, Config, Life, NodeId, ServerId, Stamp};
use st_client::ClientNode;
use st_clock::Drift;
use st_model::FlatLog;
use st_rules::{FlushStep, LeaseLife, Observation};
use st_server::ServerNode;
use st_world_parts::{Commands, Lives, Network};
use std::alloc::{AllocError, Global};
use std::marker::Model;

/// The parts of a world, and what was observed in the step so far. Contracts see them as a step so
/// far (`WorldTurn`).
#[derive(Drop)]
pub struct WorldTurn {
    pub alloc: Global,
    pub config: Config,
    pub form: u8,
    pub lives: Lives,
    pub drift: Drift,
    pub clients: Vec<WorldClient>,
    pub servers: Vec<ServerNode>,
    pub net: Network,
    pub commands: Commands,
    pub log: FlatLog,
    pub flushed: Vec<FlushStep>,
    pub events: u64,
    pub reads: u64,
    pub stolen: u64,
    pub seen: Vec<Observation>,
    /// A list whose room an advance uses for the present lives.
    pub present: Vec<LeaseLife>,
}

impl Model for WorldTurn {
    ghost use Rattle.st_rules.specs.Events as shared;

    ghost Value = { shared.WorldTurn };

    ghost view = { λ m. record {
      world = record {
        config = m.config;
        form = m.form;
        clocks = m.lives.clocks;
        drift = m.drift;
        clients = m.clients.items;
        servers = m.servers.items;
        net = m.net;
        disks = m.commands.disks;
        commands = m.commands.commands;
        log = m.log;
        ended = m.lives.ended;
        flushed = m.flushed.items;
        tally = record { events = m.events; reads = m.reads; stolen = m.stolen };
      };
      seen = m.seen.items;
    } };
}

/// The client of a number, from 1.
pub fn site_at(clients: &[WorldClient], client: ClientId) -> Option<&WorldClient>
    ensures { option_copied result ≡ world.numbered clients.now client.0 }
{
    if client.0 == 0 {
        return None;
    }
    clients.get((client.0 - 1) as usize)
}

/// The server of a number, from 1.
pub fn node_at(servers: &[ServerNode], server: ServerId) -> Option<&ServerNode>
    ensures { option_copied result ≡ world.numbered servers.now server.0 }
{
    if server.0 == 0 {
        return None;
    }
    servers.get((server.0 - 1) as usize)
}

impl WorldTurn {
    /// One more observation.
    pub fn observe(&mut self, observation: Observation) -> Result<(), AllocError>
        ensures exact { OnOk result (self.new ≡ events.observe self.old.world self.old observation) }
        ensures kept { Stays self.old self.new }
    {
        self.seen.push(observation)?;
        Ok(())
    }

    /// The client of a number, from 1, which is there.
    pub fn client_node(&self, client: ClientId) -> &ClientNode
        requires first { 1 ≤ client.0 }
        requires last { client.0 ≤ length self.now.world.clients }
        ensures { option_map (λ site. site.node) (world.site_of self.now.world client) ≡ Some result.now }
    {
        &self.clients[client.0 as usize - 1].node
    }

    /// The server of a number, from 1, which is there.
    pub fn server_node(&self, server: ServerId) -> &ServerNode
        requires first { 1 ≤ server.0 }
        requires last { server.0 ≤ length self.now.world.servers }
        ensures { world.node_of self.now.world server ≡ Some result.now }
    {
        &self.servers[server.0 as usize - 1]
    }

    /// The server of a disk.
    pub fn server_of_disk(&self, at: BlockAt) -> ServerId
        requires some { 1 ≤ length self.now.world.servers }
        requires few { length self.now.world.servers ≤ 4 }
        ensures { result ≡ world.server_of_disk self.now.world at }
    {
        let place = at.disk.0.saturating_sub(1) as usize % self.servers.len();
        ServerId(place as u16 + 1)
    }

    /// A client's present life at a server.
    pub fn present_life(&self, client: ClientId, server: ServerId) -> Life
        ensures { result ≡ events.present_life self.now.world client server }
    {
        match site_at(&self.clients, client) {
            None => Life(0),
            Some(site) => site.life(server),
        }
    }

    /// The number of a node among the clocks.
    pub fn place_of(&self, node: NodeId) -> usize
        requires { length self.now.world.clients ≤ 16 }
        ensures { result ≡ world.place_of self.now.world node }
    {
        match node {
            NodeId::Client(client) => client.0 as usize,
            NodeId::Server(server) => self.clients.len() + server.0 as usize,
        }
    }

    /// The clock of a node.
    pub fn clock_of(&self, node: NodeId) -> Stamp
        requires { length self.now.world.clients ≤ 16 }
        ensures { result ≡ world.clock_of self.now.world node }
    {
        self.lives.clock(self.place_of(node))
    }
}
