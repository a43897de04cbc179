ghost use Rattle.std.specs.Prelude.{◌≡◌, ◌≤◌, ◌+◌, ◌++◌, ◌^◌, ℕ, true, IfOk, IsOk, OnOk};
ghost use Rattle.st_messages.specs.Ranges.{fits};
ghost use Rattle.st_node.specs.Room.{HasRoomFor};
ghost use Rattle.st_base.specs.Config as settings;
ghost use Rattle.st_extents.specs.Layout.{IsWithinLimits};
ghost use Rattle.st_rules.specs.Client as clients;
ghost use Rattle.st_rules.specs.Server as machine;
ghost use Rattle.st_node.specs.Runs as runs;
ghost use Rattle.st_node.specs.Runs.{MOST};
ghost use Rattle.st_node.specs.declared.node.Node.TheVariants as nodes;

use crate::client::handle_client;
use crate::server::handle_server;
use st_base::{ClientId, Config, ServerId, Stamp};
use st_client::ClientNode;
use st_laws_bounds::client_steps_raise_little;
use st_messages::Message;
use st_server::ServerNode;
use std::alloc::{AllocError, Global};

/// A node that is served over a link.
#[derive(Drop)]
pub enum Node {
    Server(ServerNode),
    Client(ClientNode),
}

impl Node {
    /// A server that was never started before: it has room for all the steps that a node takes.
    #[tactic(auto, unfolding(crate::specs::Runs::MOST))]
    pub fn server(
        alloc: Global,
        id: ServerId,
        config: &Config,
        servers: u16,
        disks: u16,
        blocks: u32,
    ) -> Result<Node, AllocError>
        requires checked { IsOk (settings.check config.now) }
        requires limits { IsWithinLimits id.0 servers disks blocks }
        ensures fresh { IfOk result (λ n. n ≡ nodes.Server (machine.fresh_node id config.now servers disks blocks)) }
        ensures room { IfOk result (λ n. HasRoomFor MOST n) }
    {
        let server = ServerNode::fresh(alloc, id, config, servers, disks, blocks)?;
        Ok(Node::Server(server))
    }

    /// A client that was never started before: it has room for all the steps that a node takes.
    /// `id` is from 1 to 16, and there are at most four servers.
    pub fn client(
        alloc: Global,
        id: ClientId,
        config: &Config,
        servers: u16,
    ) -> Result<Node, AllocError>
        requires checked { IsOk (settings.check config.now) }
        requires least { 1 ≤ id.0 }
        requires most { id.0 ≤ 16 }
        requires servers { servers ≤ 4 }
        ensures fresh { IfOk result (λ n. n ≡ nodes.Client (clients.fresh_node id config.now servers)) }
        ensures room { IfOk result (λ n. HasRoomFor MOST n) }
    {
        client_steps_raise_little();
        let client = ClientNode::fresh(alloc, id, config, servers)?;
        Ok(Node::Client(client))
    }

    /// Takes a message at this moment: one step if it is an input of the node, and nothing else.
    /// Appends the frames of what goes out. If memory runs out, the node may be crashed.
    pub(crate) fn handle(
        &mut self,
        now: Stamp,
        message: Message,
        out: &mut Vec<u8>,
    ) -> Result<(), AllocError>
        requires time { now.0 ≤ 2 ^ 62 }
        requires fits { fits message ≡ true }
        requires room { HasRoomFor 1 self.old }
        ensures node { OnOk result (self.new ≡ (runs.handle self.old now message).node) }
        ensures room { (k : ℕ) → HasRoomFor (k + 1) self.old → OnOk result (HasRoomFor k self.new) }
        ensures out { OnOk result (out.new.items ≡ out.old.items ++ (runs.handle self.old now message).out) }
    {
        match self {
            Node::Server(server) => handle_server(server, now, message, out),
            Node::Client(client) => handle_client(client, now, message, out),
        }
    }
}
