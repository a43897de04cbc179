// Steps of nodes.
ghost use Rattle.std.specs.Prelude.{◌≡◌, ◌<◌, ◌≤◌, ◌+◌, ◌^◌, [], true, slice_get, Some, IfOk, OnOk, length};
ghost use Rattle.std.specs.List.{list_all};
ghost use Rattle.st_base.specs.declared.ids.NodeId.TheVariants as nodes;
ghost use Rattle.st_client.specs.Inputs.{comes_fit, is_sent};
ghost use Rattle.st_rules.specs.Client as client_rules;
ghost use Rattle.st_rules.specs.Events as events;
ghost use Rattle.st_rules.specs.Server as server_rules;
ghost use Rattle.st_rules.specs.Server.{ServerNode};
ghost use Rattle.st_rules.specs.World as world;
ghost use Rattle.st_server.specs.RuleConditions as ready;
ghost use Rattle.st_server.specs.Invariants as sound;
ghost use Rattle.st_world_events.specs.Indexes.{AtPlace};
ghost use Rattle.st_world_events.specs.Ends.{HasEnds};
ghost use Rattle.st_world_events.specs.Shapes.{AfterSaid};
ghost use Rattle.st_world_events.specs.NodeSteps.{ServersStep, SiteSteps, SitesStep};

use crate::client::WorldClient;
use crate::flushes::flush_all;
use crate::turn::WorldTurn;
use st_base::{ClientId, NodeId, ServerId, Stamp};
use st_client::LeaseEnds;
use st_messages::{Outputs, StepFault};
use st_rules::{ClientInput, ServerInput};
use st_server::ServerNode;
use std::alloc::AllocError;
use std::mem;

impl WorldClient {
    /// The client takes an input at this moment. If one of its counters is at its end, it
    /// returns an error of memory.
    fn step(&mut self, now: Stamp, input: &mut ClientInput) -> Result<Outputs, StepFault>
        requires time { now.0 ≤ 2 ^ 62 }
        requires fits { comes_fit input.old ≡ true }
        ensures exact { SiteSteps self.old self.new result (client_rules.node_step self.old.node now input.old) }
        ensures sent { IfOk result (λ out. list_all is_sent out ≡ true) }
    {
        if !self.node.has_room() {
            return Err(StepFault::Memory);
        }
        self.node.step(now, mem::replace(input, ClientInput::Tick))
    }
}

/// The ends of the leases of the client at a place.
fn ends_at(clients: &[WorldClient], i: usize) -> LeaseEnds
    requires { i < length clients.now }
    ensures { (site : world.WorldClient) → slice_get clients.now i ≡ Some site → HasEnds site.node.state result }
{
    let site = &clients[i];
    site.node.lease_ends()
}

/// The client at a place takes an input.
fn step_site(
    clients: &mut Vec<WorldClient>,
    i: usize,
    now: Stamp,
    input: &mut ClientInput,
) -> Result<Outputs, StepFault>
    requires there { i < length clients.old.items }
    requires time { now.0 ≤ 2 ^ 62 }
    requires fits { comes_fit input.old ≡ true }
    ensures exact { AtPlace clients.old.items i (λ site. SitesStep i site clients.old.items clients.new.items result (client_rules.node_step site.node now input.old)) }
    ensures sent { IfOk result (λ out. list_all is_sent out ≡ true) }
    ensures len { length clients.new.items ≡ length clients.old.items }
{
    let site = &mut clients[i];
    site.step(now, input)
}

/// The server at a place takes an input. If one of its counters is at its end, it returns an
/// error of memory.
fn step_node(
    servers: &mut Vec<ServerNode>,
    i: usize,
    now: Stamp,
    input: ServerInput,
) -> Result<Outputs, StepFault>
    requires there { i < length servers.old.items }
    requires time { now.0 ≤ 2 ^ 62 }
    requires fits { ready.comes_fit input ≡ true }
    ensures exact { AtPlace servers.old.items i (λ node. ServersStep i servers.old.items servers.new.items result (server_rules.node_step node now input)) }
    ensures sent { IfOk result (λ out. list_all sound.is_sent out ≡ true) }
{
    let node = &mut servers[i];
    if !node.has_room() {
        return Err(StepFault::Memory);
    }
    node.step(now, input)
}

impl WorldTurn {
    /// The flush steps after a step of the client at this place.
    #[tactic(auto, using(crate::proofs::Flushed::flushes_is))]
    fn flush(&mut self, client: ClientId, i: usize) -> Result<(), AllocError>
        requires there { i < length self.old.world.clients }
        requires few { length self.old.world.servers ≤ 4 }
        requires clients { length self.old.world.clients ≤ 16 }
        ensures { AtPlace self.old.world.clients i (λ site. OnOk result (self.new ≡ events.with_flushes client site.node.state self.old)) }
    {
        let now = self.clock_of(NodeId::Client(client));
        let servers = self.servers.len() as u16;
        let site = &self.clients[i];
        flush_all(&mut self.flushed, client, &site.node, now, servers)?;
        Ok(())
    }

    /// What a client at this place said, and its flush steps.
    fn client_said(
        &mut self,
        client: ClientId,
        i: usize,
        ends: &LeaseEnds,
        outputs: Outputs,
    ) -> Result<(), AllocError>
        requires there { i < length self.old.world.clients }
        requires some { 1 ≤ length self.old.world.servers }
        requires few { length self.old.world.servers ≤ 4 }
        requires clients { length self.old.world.clients ≤ 16 }
        requires reads { self.old.world.tally.reads < 2 ^ 63 }
        requires sent { list_all is_sent outputs ≡ true }
        ensures { AfterSaid client i ends.now outputs self.old (λ sc. OnOk result (self.new ≡ sc)) }
    {
        self.client_say_all(client, ends, outputs)?;
        self.flush(client, i)
    }

    /// The server at this place takes an input.
    #[tactic(auto, unfolding(st_rules::specs::Events::server_takes, st_rules::specs::Events::server_took))]
    pub(crate) fn server_take_at(
        &mut self,
        server: ServerId,
        i: usize,
        input: ServerInput,
    ) -> Result<(), AllocError>
        requires begins { self.old.seen ≡ [] }
        requires number { server.0 ≡ i + 1 }
        requires there { i < length self.old.world.servers }
        requires clients { length self.old.world.clients ≤ 16 }
        requires time { (world.clock_of self.old.world (nodes.Server server)).0 ≤ 2 ^ 62 }
        requires fits { ready.comes_fit input ≡ true }
        requires stolen { self.old.world.tally.stolen < 2 ^ 63 }
        ensures { AtPlace self.old.world.servers i (λ node. OnOk result (self.new ≡ events.server_takes self.old.world server input node)) }
    {
        let now = self.clock_of(NodeId::Server(server));
        match step_node(&mut self.servers, i, now, input) {
            Err(StepFault::Crashed) => Ok(()),
            Err(StepFault::Memory) => Err(AllocError),
            Ok(outputs) => self.server_say_all(server, outputs),
        }
    }

    /// The client at this place takes an input.
    #[tactic(auto, unfolding(st_rules::specs::Events::client_takes, st_rules::specs::Events::client_took))]
    pub(crate) fn client_take_at(
        &mut self,
        client: ClientId,
        i: usize,
        input: &mut ClientInput,
    ) -> Result<(), AllocError>
        requires begins { self.old.seen ≡ [] }
        requires number { client.0 ≡ i + 1 }
        requires there { i < length self.old.world.clients }
        requires some { 1 ≤ length self.old.world.servers }
        requires few { length self.old.world.servers ≤ 4 }
        requires clients { length self.old.world.clients ≤ 16 }
        requires time { (world.clock_of self.old.world (nodes.Client client)).0 ≤ 2 ^ 62 }
        requires fits { comes_fit input.old ≡ true }
        requires reads { self.old.world.tally.reads < 2 ^ 63 }
        ensures { AtPlace self.old.world.clients i (λ site. OnOk result (self.new ≡ events.client_takes self.old.world client input.old site)) }
    {
        let now = self.clock_of(NodeId::Client(client));
        let ends = ends_at(&self.clients, i);
        match step_site(&mut self.clients, i, now, input) {
            Err(StepFault::Crashed) => Ok(()),
            Err(StepFault::Memory) => Err(AllocError),
            Ok(outputs) => self.client_said(client, i, &ends, outputs),
        }
    }
}
