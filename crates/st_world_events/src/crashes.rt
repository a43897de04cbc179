// Crashes and starts.
ghost use Rattle.std.specs.Prelude.{◌≡◌, ◌<◌, ◌≤◌, ◌^◌, ◌-◌, ◌++◌, [], false, map, set, slice_get, Some, OnErr, OnOk, length};
ghost use Rattle.st_base.specs.declared.ids.NodeId.TheVariants as nodes;
ghost use Rattle.st_rules.specs.Events as events;
ghost use Rattle.st_rules.specs.Server as server_rules;
ghost use Rattle.st_rules.specs.Server.{ServerNode};
ghost use Rattle.st_rules.specs.World as world;
ghost use Rattle.st_world_events.specs.Indexes.{AtPlace};
ghost use Rattle.st_world_events.specs.Crashes.{crash_marked, crashed_at, with_all_ended};

use crate::client::WorldClient;
use crate::index::index_of;
use crate::turn::WorldTurn;
use st_base::{ClientId, NodeId, ServerId, Stamp};
use st_model::Spare;
use st_rules::LeaseLife;
use st_server::ServerNode;
use st_world_parts::Lives;
use std::alloc::AllocError;

/// These lives ended by a crash.
fn end_crashed(lives: &mut Lives, ended: &[LeaseLife]) -> Result<(), AllocError>
    ensures { OnOk result (lives.new ≡ with_all_ended (map events.crashed_life ended.now) lives.old) }
{
    for life in ended {
        lives.end(LeaseLife {
            client: life.client,
            server: life.server,
            life: life.life,
            end: life.end,
            crashed: true,
        })?;
    }
    Ok(())
}

impl WorldClient {
    /// Adds the client's present lives. If memory runs out the list stays as it was.
    pub(crate) fn push_lives(&self, found: &mut Vec<LeaseLife>) -> Result<(), AllocError>
        ensures added { OnOk result (found.new.items ≡ found.old.items ++ world.lives_of self.now.node.state) }
        ensures kept { OnErr result (found.new.items ≡ found.old.items) }
    {
        self.node.push_lives(found)
    }
}

/// The client at a place stops, and its lives are added.
fn stop_site(
    clients: &mut Vec<WorldClient>,
    i: usize,
    found: &mut Vec<LeaseLife>,
) -> Result<(), AllocError>
    requires { i < length clients.old.items }
    ensures clients { AtPlace clients.old.items i (λ site. OnOk result (clients.new.items ≡ set clients.old.items i (events.stopped_site site))) }
    ensures lives { AtPlace clients.old.items i (λ site. OnOk result (found.new.items ≡ found.old.items ++ world.lives_of site.node.state)) }
{
    let site = &mut clients[i];
    site.push_lives(found)?;
    site.node.crash();
    Ok(())
}

/// The client at a place starts. If the count of its starts, or another of its counters, is at its
/// end, it returns an error of memory.
fn start_site(clients: &mut Vec<WorldClient>, i: usize) -> Result<(), AllocError>
    requires there { i < length clients.old.items }
    requires crashed { (site : world.WorldClient) → slice_get clients.old.items i ≡ Some site → site.node.running ≡ false }
    ensures { AtPlace clients.old.items i (λ site. OnOk result (clients.new.items ≡ set clients.old.items i (events.started_site site))) }
{
    let site = &mut clients[i];
    if site.starts == u64::MAX || !site.node.has_room() {
        return Err(AllocError);
    }
    site.node.start()?;
    site.starts += 1;
    Ok(())
}

/// The server at a place starts. If it was in its last epoch, it returns an error of memory.
fn start_node(servers: &mut Vec<ServerNode>, i: usize, now: Stamp) -> Result<(), AllocError>
    requires there { i < length servers.old.items }
    requires time { now.0 ≤ 2 ^ 62 }
    requires crashed { (node : ServerNode) → slice_get servers.old.items i ≡ Some node → node.running ≡ false }
    ensures { AtPlace servers.old.items i (λ node. OnOk result (servers.new.items ≡ set servers.old.items i (server_rules.start_node node now))) }
{
    let node = &mut servers[i];
    if node.stable().epoch.0 >= u32::MAX as u64 {
        return Err(AllocError);
    }
    node.start(now)
}

impl WorldTurn {
    /// A server starts.
    #[tactic(auto, unfolding(st_rules::specs::Events::starts_server))]
    pub(crate) fn start_server(&mut self, server: ServerId) -> Result<(), AllocError>
        requires clients { length self.old.world.clients ≤ 16 }
        requires time { (world.clock_of self.old.world (nodes.Server server)).0 ≤ 2 ^ 62 }
        requires crashed { (node : ServerNode) → world.node_of self.old.world server ≡ Some node → node.running ≡ false }
        ensures { OnOk result (self.new ≡ events.world_turn (events.starts_server self.old.world server (world.node_of self.old.world server)) self.old.seen) }
    {
        let now = self.clock_of(NodeId::Server(server));
        match index_of(server.0, self.servers.len()) {
            None => Ok(()),
            Some(i) => {
                start_node(&mut self.servers, i, now)?;
                Ok(())
            }
        }
    }

    /// A client starts.
    #[tactic(auto, unfolding(st_rules::specs::Events::starts_client))]
    pub(crate) fn start_client(&mut self, client: ClientId) -> Result<(), AllocError>
        requires crashed { (site : world.WorldClient) → world.site_of self.old.world client ≡ Some site → site.node.running ≡ false }
        ensures { OnOk result (self.new ≡ events.world_turn (events.starts_client self.old.world client (world.site_of self.old.world client)) self.old.seen) }
    {
        match index_of(client.0, self.clients.len()) {
            None => Ok(()),
            Some(i) => {
                start_site(&mut self.clients, i)?;
                Ok(())
            }
        }
    }

    /// The entries of a client that crashed are gone, except for those that are spared.
    fn crash_entries(&mut self, client: ClientId, spared: &[Spare]) -> Result<(), AllocError>
        requires { self.old.seen ≡ [] }
        ensures { OnOk result (self.new ≡ crash_marked client spared.now self.old.world) }
    {
        self.log.observe_crash(client, spared, &mut self.seen)?;
        self.log.crash(client, spared);
        Ok(())
    }

    /// The client at this place crashes.
    fn crash_at(&mut self, client: ClientId, i: usize) -> Result<(), AllocError>
        requires begins { self.old.seen ≡ [] }
        requires there { i < length self.old.world.clients }
        ensures { (site : world.WorldClient) → slice_get self.old.world.clients i ≡ Some site → OnOk result (self.new ≡ crashed_at client i site self.old.world) }
    {
        let spared = self.commands.spares()?;
        let mut ended = Vec::new(self.alloc);
        stop_site(&mut self.clients, i, &mut ended)?;
        end_crashed(&mut self.lives, ended.as_slice())?;
        self.crash_entries(client, spared.as_slice())
    }

    /// A client crashes.
    #[tactic(auto, unfolding(st_rules::specs::Events::crashes_client))]
    pub(crate) fn crash_client(&mut self, client: ClientId) -> Result<(), AllocError>
        requires { self.old.seen ≡ [] }
        ensures { OnOk result (self.new ≡ events.crashes_client self.old.world client (world.site_of self.old.world client)) }
    {
        match index_of(client.0, self.clients.len()) {
            None => Ok(()),
            Some(i) => self.crash_at(client, i),
        }
    }
}
