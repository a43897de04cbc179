// Asks of applications.
ghost use Rattle.std.specs.Prelude.{◌≡◌, ◌↔◌, ◌<◌, ◌+◌, ◌-◌, ◌^◌, [], true, set, slice_get, IsTrue, Some, OnOk, length};
ghost use Rattle.st_base.specs.declared.ids.NodeId.TheVariants as nodes;
ghost use Rattle.st_messages.specs.Ranges.{is_ask};
ghost use Rattle.st_rules.specs.Events as events;
ghost use Rattle.st_rules.specs.World as world;
ghost use Rattle.st_world_events.specs.Indexes.{AtPlace};
ghost use Rattle.st_world_events.specs.Readiness.{IsReady};
ghost use Rattle.st_world_events.specs.Shapes.{takes_ask};

use crate::client::WorldClient;
use crate::index::index_of;
use crate::turn::WorldTurn;
use st_base::ClientId;
use st_messages::Ask;
use st_rules::ClientInput;
use std::alloc::AllocError;

impl WorldClient {
    /// One more ask; returns their count.
    fn ask(&mut self) -> u32
        requires { self.old.asks < 2 ^ 32 - 1 }
        ensures asked { self.new ≡ events.asked_once_more self.old }
        ensures op { result ≡ self.old.asks + 1 }
    {
        self.asks += 1;
        self.asks
    }
}

/// Whether the asks of the client at a place may be counted on.
fn may_ask(clients: &[WorldClient], i: usize) -> bool
    requires { i < length clients.now }
    ensures { (site : world.WorldClient) → slice_get clients.now i ≡ Some site → IsTrue result ↔ (site.asks < 2 ^ 32 - 1) }
{
    let site = &clients[i];
    site.asks < u32::MAX
}

/// One more ask of the client at a place; returns their count.
fn raise_asks(clients: &mut Vec<WorldClient>, i: usize) -> u32
    requires there { i < length clients.old.items }
    requires asks { (site : world.WorldClient) → slice_get clients.old.items i ≡ Some site → site.asks < 2 ^ 32 - 1 }
    ensures op { (site : world.WorldClient) → slice_get clients.old.items i ≡ Some site → result ≡ site.asks + 1 }
    ensures asked { AtPlace clients.old.items i (λ site. clients.new.items ≡ set clients.old.items i (events.asked_once_more site)) }
    ensures len { length clients.new.items ≡ length clients.old.items }
{
    let site = &mut clients[i];
    site.ask()
}

impl WorldTurn {
    /// The client at this place, which runs, is asked. If its count of asks is at its end, it
    /// returns an error of memory.
    pub(crate) fn ask_at(&mut self, client: ClientId, i: usize, ask: Ask) -> Result<(), AllocError>
        requires begins { self.old.seen ≡ [] }
        requires ready { IsReady self.old.world }
        requires number { client.0 ≡ i + 1 }
        requires there { i < length self.old.world.clients }
        requires fits { is_ask ask ≡ true }
        ensures { AtPlace self.old.world.clients i (λ site. site.node.running ≡ true → OnOk result (self.new ≡ takes_ask self.old.world client ask site)) }
    {
        if !may_ask(&self.clients, i) {
            return Err(AllocError);
        }
        let op = raise_asks(&mut self.clients, i);
        let mut input = ClientInput::App { op, ask };
        self.client_take_at(client, i, &mut input)
    }

    /// A client, which runs, is asked.
    #[tactic(auto, unfolding(st_rules::specs::Events::asks_at))]
    pub(crate) fn ask(&mut self, client: ClientId, ask: Ask) -> Result<(), AllocError>
        requires begins { self.old.seen ≡ [] }
        requires ready { IsReady self.old.world }
        requires fits { is_ask ask ≡ true }
        requires running { world.is_running self.old.world (nodes.Client client) ≡ true }
        ensures { OnOk result (self.new ≡ events.asks_at self.old.world client ask (world.site_of self.old.world client)) }
    {
        match index_of(client.0, self.clients.len()) {
            None => Ok(()),
            Some(i) => self.ask_at(client, i, ask),
        }
    }
}
