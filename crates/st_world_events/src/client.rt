// A client in the world.
ghost use Rattle.std.specs.Prelude.{◌≡◌};
ghost use Rattle.st_rules.specs.Client as client_rules;
ghost use Rattle.st_rules.specs.World as world;

use st_base::{Life, ServerId, Stamp};
use st_client::ClientNode;
use std::marker::Model;

/// A client in the world: the node, how many asks it had, and how often it was started again.
#[derive(Drop)]
pub struct WorldClient {
    pub node: ClientNode,
    pub asks: u32,
    pub starts: u64,
}

impl Model for WorldClient {
    ghost use Rattle.st_rules.specs.World as shared;

    ghost Value = { shared.WorldClient };

    ghost view = { λ s. record { node = s.node; asks = s.asks; starts = s.starts } };
}

impl WorldClient {
    /// Whether the client runs.
    pub fn running(&self) -> bool
        ensures { result ≡ self.now.node.running }
    {
        self.node.running()
    }

    /// The client's present life at a server.
    pub fn life(&self, server: ServerId) -> Life
        ensures { result ≡ world.life_with self.now.node.state server }
    {
        self.node.life(server)
    }

    /// The end of the client's lease at a server.
    pub fn lease_end(&self, server: ServerId) -> Option<Stamp>
        ensures { result ≡ client_rules.lease_end_with self.now.node.state server }
    {
        self.node.lease_end(server)
    }

    /// How often the client was started again.
    pub fn starts(&self) -> u64
        ensures { result ≡ self.now.starts }
    {
        self.starts
    }

    /// Whether the client has dirty pages of a server.
    pub fn has_dirty(&self, server: ServerId) -> bool
        ensures { result ≡ client_rules.has_dirty_with self.now.node.state server }
    {
        self.node.has_dirty(server)
    }
}
