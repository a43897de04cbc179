// Ticks, deliveries and reports.
ghost use Rattle.std.specs.Prelude.{◌≡◌, ◌<◌, ◌+◌, [], true, OnOk, length, slice_get, Some};
ghost use Rattle.st_client.specs.Inputs.{comes_fit};
ghost use Rattle.st_messages.specs.Ranges.{fits};
ghost use Rattle.st_rules.specs.Events as events;
ghost use Rattle.st_rules.specs.World as world;
ghost use Rattle.st_server.specs.RuleConditions as ready;
ghost use Rattle.st_world_events.specs.Indexes.{AtPlace};
ghost use Rattle.st_world_events.specs.Readiness.{IsReady};

use crate::client::WorldClient;
use crate::index::index_of;
use crate::turn::WorldTurn;
use st_base::{ClientId, NodeId, ServerId};
use st_messages::Message;
use st_rules::{ClientInput, IssuedCommand, ServerInput};
use std::alloc::AllocError;

/// The node of a number in a message.
#[tactic(auto, unfolding(st_rules::specs::World::node_at))]
pub fn node_of_number(n: u16) -> NodeId
    ensures { result ≡ world.node_at n }
{
    if n <= 16 {
        NodeId::Client(ClientId(n))
    } else {
        NodeId::Server(ServerId(n.saturating_sub(ServerId::BASE)))
    }
}

/// Whether the instance of the client at this place that submitted a command still runs.
fn is_same_at(clients: &[WorldClient], i: usize, command: &IssuedCommand) -> bool
    requires { i < length clients.now }
    ensures { (site : world.WorldClient) → slice_get clients.now i ≡ Some site → result ≡ events.is_same_instance command.now site }
{
    let site = &clients[i];
    site.running() && site.starts() == command.starts
}

impl WorldTurn {
    /// A client takes an input.
    #[tactic(auto, unfolding(st_rules::specs::Events::at_client))]
    fn client_take(&mut self, client: ClientId, mut input: ClientInput) -> Result<(), AllocError>
        requires begins { self.old.seen ≡ [] }
        requires ready { IsReady self.old.world }
        requires fits { comes_fit input ≡ true }
        ensures { OnOk result (self.new ≡ events.at_client self.old.world client input (world.site_of self.old.world client)) }
    {
        match index_of(client.0, self.clients.len()) {
            None => Ok(()),
            Some(i) => self.client_take_at(client, i, &mut input),
        }
    }

    /// A server takes an input.
    #[tactic(auto, unfolding(st_rules::specs::Events::at_server))]
    fn server_take(&mut self, server: ServerId, input: ServerInput) -> Result<(), AllocError>
        requires begins { self.old.seen ≡ [] }
        requires ready { IsReady self.old.world }
        requires fits { ready.comes_fit input ≡ true }
        ensures { OnOk result (self.new ≡ events.at_server self.old.world server input (world.node_of self.old.world server)) }
    {
        match index_of(server.0, self.servers.len()) {
            None => Ok(()),
            Some(i) => self.server_take_at(server, i, input),
        }
    }

    /// Time passed at a node.
    #[tactic(auto, unfolding(st_rules::specs::Events::ticks))]
    pub(crate) fn tick(&mut self, node: NodeId) -> Result<(), AllocError>
        requires begins { self.old.seen ≡ [] }
        requires ready { IsReady self.old.world }
        ensures { OnOk result (self.new ≡ events.ticks self.old.world node) }
    {
        match node {
            NodeId::Client(client) => self.client_take(client, ClientInput::Tick),
            NodeId::Server(server) => self.server_take(server, ServerInput::Tick),
        }
    }

    #[tactic(auto, unfolding(st_rules::specs::Events::delivers_to))]
    fn deliver_to(&mut self, message: Message, node: NodeId) -> Result<(), AllocError>
        requires begins { self.old.seen ≡ [] }
        requires ready { IsReady self.old.world }
        requires fits { fits message ≡ true }
        ensures { OnOk result (self.new ≡ events.delivers_to self.old.world message node) }
    {
        match node {
            NodeId::Client(client) => self.client_take(client, ClientInput::Control(message)),
            NodeId::Server(server) => self.server_take(server, ServerInput::Control(message)),
        }
    }

    /// The message of a number is delivered to its receiver.
    #[tactic(auto, unfolding(st_rules::specs::Events::delivers), using(crate::proofs::Delivered::delivers_none, crate::proofs::Delivered::delivers_some))]
    pub(crate) fn deliver(&mut self, k: u64) -> Result<(), AllocError>
        requires begins { self.old.seen ≡ [] }
        requires ready { IsReady self.old.world }
        ensures { OnOk result (self.new ≡ events.delivers self.old.world (world.message_of self.old.world k)) }
    {
        match self.net.message(k)? {
            None => Ok(()),
            Some(message) => {
                let node = node_of_number(message.header.to);
                self.deliver_to(message, node)
            }
        }
    }

    /// The client at this place is told how its command ended, if the instance that submitted the
    /// command still runs.
    #[tactic(auto, unfolding(st_rules::specs::Events::tells_site))]
    fn report_to_client(
        &mut self,
        k: u64,
        ok: bool,
        command: IssuedCommand,
        i: usize,
    ) -> Result<(), AllocError>
        requires begins { self.old.seen ≡ [] }
        requires ready { IsReady self.old.world }
        requires number { command.client.0 ≡ i + 1 }
        requires there { i < length self.old.world.clients }
        ensures { AtPlace self.old.world.clients i (λ site. OnOk result (self.new ≡ events.tells_site self.old.world k ok command site)) }
    {
        if is_same_at(&self.clients, i, &command) {
            let result = self.commands.result(k, ok)?;
            let mut input = ClientInput::Done {
                command: command.number,
                result,
            };
            self.client_take_at(command.client, i, &mut input)
        } else {
            Ok(())
        }
    }

    /// The client of a command is told how it ended.
    fn tell_client(&mut self, k: u64, ok: bool, command: IssuedCommand) -> Result<(), AllocError>
        requires begins { self.old.seen ≡ [] }
        requires ready { IsReady self.old.world }
        ensures { OnOk result (self.new ≡ events.tells_client self.old.world k ok command (world.site_of self.old.world command.client)) }
    {
        match index_of(command.client.0, self.clients.len()) {
            None => Ok(()),
            Some(i) => self.report_to_client(k, ok, command, i),
        }
    }

    #[tactic(auto, unfolding(st_rules::specs::Events::tells))]
    fn tell(&mut self, k: u64, ok: bool) -> Result<(), AllocError>
        requires begins { self.old.seen ≡ [] }
        requires ready { IsReady self.old.world }
        ensures { OnOk result (self.new ≡ events.tells self.old.world k ok (world.issued_of self.old.world k)) }
    {
        match self.commands.issued(k) {
            None => Ok(()),
            Some(command) => self.tell_client(k, ok, command),
        }
    }

    /// The command of a number is reported.
    #[tactic(auto, unfolding(st_rules::specs::Events::reports_of))]
    pub(crate) fn report(&mut self, k: u64, ok: bool) -> Result<(), AllocError>
        requires begins { self.old.seen ≡ [] }
        requires ready { IsReady self.old.world }
        ensures { OnOk result (self.new ≡ events.reports_of self.old.world k ok) }
    {
        self.commands.done(k, ok);
        self.tell(k, ok)
    }
}
