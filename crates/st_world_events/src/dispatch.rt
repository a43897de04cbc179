// What an event does, and what was observed of it.
ghost use Rattle.std.specs.Prelude.{◌≡◌, ◌+◌, ◌<◌, ◌^◌, ◌-◌, [], false, OnOk};
ghost use Rattle.st_base.specs.declared.ids.NodeId.TheVariants as nodes;
ghost use Rattle.st_rules.specs.Events as events;
ghost use Rattle.st_rules.specs.World as world;
ghost use Rattle.st_world_events.specs.Readiness.{IsMet, IsReady};

use crate::index::index_of;
use crate::turn::WorldTurn;
use st_base::{ClientId, NodeId, ServerId};
use st_messages::Event;
use st_rules::Observation;
use std::alloc::AllocError;
use std::mem;

impl WorldTurn {
    /// A node crashes.
    #[tactic(auto, unfolding(st_rules::specs::Events::crashes, st_rules::specs::Events::crashes_server))]
    fn crash(&mut self, node: NodeId) -> Result<(), AllocError>
        requires { self.old.seen ≡ [] }
        ensures { OnOk result (self.new ≡ events.crashes self.old.world node) }
    {
        match node {
            NodeId::Client(client) => self.crash_client(client),
            NodeId::Server(server) => match index_of(server.0, self.servers.len()) {
                None => Ok(()),
                Some(i) => {
                    self.servers[i].crash();
                    Ok(())
                }
            },
        }
    }

    fn restart_client(&mut self, client: ClientId) -> Result<(), AllocError>
        requires begins { self.old.seen ≡ [] }
        requires stopped { world.is_running self.old.world (nodes.Client client) ≡ false }
        ensures { OnOk result (self.new ≡ events.quiet (events.starts_client self.old.world client (world.site_of self.old.world client))) }
    {
        self.start_client(client)
    }

    fn restart_server(&mut self, server: ServerId) -> Result<(), AllocError>
        requires begins { self.old.seen ≡ [] }
        requires ready { IsReady self.old.world }
        requires stopped { world.is_running self.old.world (nodes.Server server) ≡ false }
        ensures { OnOk result (self.new ≡ events.quiet (events.starts_server self.old.world server (world.node_of self.old.world server))) }
    {
        self.start_server(server)
    }

    /// A node, which does not run, starts.
    #[tactic(auto, unfolding(st_rules::specs::Events::starts))]
    fn start(&mut self, node: NodeId) -> Result<(), AllocError>
        requires begins { self.old.seen ≡ [] }
        requires ready { IsReady self.old.world }
        requires stopped { world.is_running self.old.world node ≡ false }
        ensures { OnOk result (self.new ≡ events.quiet (events.starts self.old.world node)) }
    {
        match node {
            NodeId::Client(client) => self.restart_client(client),
            NodeId::Server(server) => self.restart_server(server),
        }
    }

    /// An event happens.
    #[tactic(auto, unfolding(st_rules::specs::Events::happens))]
    pub fn happen(&mut self, event: &Event) -> Result<(), AllocError>
        requires begins { self.old.seen ≡ [] }
        requires ready { IsReady self.old.world }
        requires met { IsMet self.old.world event.now }
        ensures { OnOk result (self.new ≡ events.happens self.old.world event.now) }
    {
        match event {
            Event::Tick(node) => self.tick(*node),
            Event::App { client, ask } => self.ask(*client, ask.copy()?),
            Event::Deliver(k) => self.deliver(*k),
            Event::Lose(k) => {
                self.lose_message(*k);
                Ok(())
            }
            Event::Cut(from, to) => self.cut(*from, *to),
            Event::Heal(from, to) => {
                self.heal(*from, *to);
                Ok(())
            }
            Event::Advance(steps) => self.advance(steps.as_slice()),
            Event::Effect(k) => self.effect(*k),
            Event::Report { k, ok } => self.report(*k, *ok),
            Event::Crash(node) => self.crash(*node),
            Event::Start(node) => self.start(*node),
        }
    }

    /// One more event.
    pub fn count_event(&mut self)
        requires { self.old.world.tally.events < 2 ^ 64 - 1 }
        ensures { self.new ≡ events.world_turn (events.counted self.old.world) self.old.seen }
    {
        self.events += 1;
    }

    /// Takes out what was observed, and puts the room of this list in its place.
    pub fn take_seen(&mut self, mut spare: Vec<Observation>) -> Vec<Observation>
        ensures seen { result.items ≡ self.old.seen }
        ensures rest { self.new ≡ events.quiet self.old.world }
    {
        spare.clear();
        mem::replace(&mut self.seen, spare)
    }
}
