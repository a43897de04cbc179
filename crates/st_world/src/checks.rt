// The checks of events.
ghost use Rattle.std.specs.Prelude.{◌≡◌, ◌≤◌, length};
ghost use Rattle.std.specs.Option.{option_copied};
ghost use Rattle.st_rules.specs.Admissible as admissible;
ghost use Rattle.st_rules.specs.Disks as disks;
ghost use Rattle.st_rules.specs.World as world;
ghost use Rattle.st_rules.specs.World.{World};
ghost use Rattle.st_world.specs.Deliveries.{delivery_refused, effect_refused, report_refused};

use st_base::{ClientId, Life, NodeId, ServerId, Stamp};
use st_rules::WorldRefusal;
use st_world_events::{WorldClient, WorldTurn, node_at, node_of_number, site_at};
use st_world_parts::{CommandState, MessageEnds, is_done, is_told, late_at, stands};

fn is_running(machine: &WorldTurn, node: NodeId) -> bool
    ensures { result ≡ world.is_running machine.now.world node }
{
    match node {
        NodeId::Client(client) => match site_at(&machine.clients, client) {
            None => false,
            Some(site) => site.running(),
        },
        NodeId::Server(server) => match node_at(&machine.servers, server) {
            None => false,
            Some(node) => node.running(),
        },
    }
}

pub(crate) fn no_node(machine: &WorldTurn, node: NodeId) -> Option<WorldRefusal>
    ensures { result ≡ admissible.no_node machine.now.world node }
{
    let known = match node {
        NodeId::Client(client) => { 1 <= client.0 && client.0 as usize <= machine.clients.len() }
        NodeId::Server(server) => { 1 <= server.0 && server.0 as usize <= machine.servers.len() }
    };
    stands(!known, WorldRefusal::NoNode(node))
}

pub(crate) fn not_running(machine: &WorldTurn, node: NodeId) -> Option<WorldRefusal>
    ensures { result ≡ admissible.not_running machine.now.world node }
{
    stands(!is_running(machine, node), WorldRefusal::NotRunning(node))
}

pub(crate) fn still_running(machine: &WorldTurn, node: NodeId) -> Option<WorldRefusal>
    ensures { result ≡ admissible.still_running machine.now.world node }
{
    stands(is_running(machine, node), WorldRefusal::Running(node))
}

pub(crate) fn net_full(machine: &WorldTurn) -> Option<WorldRefusal>
    ensures { result ≡ admissible.net_full machine.now.world }
{
    let bytes = machine.net.bytes();
    stands(536_870_912 <= bytes, WorldRefusal::NetFull(bytes))
}

/// A node that is about to take a step.
pub(crate) fn cannot_step(machine: &WorldTurn, node: NodeId) -> Option<WorldRefusal>
    ensures { result ≡ admissible.cannot_step machine.now.world node }
{
    match not_running(machine, node) {
        Some(refusal) => Some(refusal),
        None => net_full(machine),
    }
}

fn undelivered(machine: &WorldTurn, k: u64, head: MessageEnds) -> Option<WorldRefusal>
    ensures { result ≡ delivery_refused machine.now.world k head }
{
    let from = node_of_number(head.from);
    let to = node_of_number(head.to);
    let cut = machine.net.is_cut(from, to);
    match stands(head.lost, WorldRefusal::LostMessage(k)) {
        Some(refusal) => Some(refusal),
        None => match stands(cut, WorldRefusal::LinkCut(from, to)) {
            Some(refusal) => Some(refusal),
            None => cannot_step(machine, to),
        },
    }
}

/// Delivering the message of a number.
#[tactic(auto, using(crate::proofs::Refused::delivery_none, crate::proofs::Refused::delivery_some))]
pub(crate) fn refused_delivery(machine: &WorldTurn, k: u64) -> Option<WorldRefusal>
    ensures { result ≡ admissible.refused_delivery machine.now.world k (world.message_of machine.now.world k) }
{
    match machine.net.head(k) {
        None => Some(WorldRefusal::NoMessage(k)),
        Some(head) => undelivered(machine, k, head),
    }
}

/// Losing the message of a number.
#[tactic(auto, using(crate::proofs::Refused::loss_none, crate::proofs::Refused::loss_some))]
pub(crate) fn refused_loss(machine: &WorldTurn, k: u64) -> Option<WorldRefusal>
    ensures { result ≡ admissible.refused_loss k (world.message_of machine.now.world k) }
{
    match machine.net.head(k) {
        None => Some(WorldRefusal::NoMessage(k)),
        Some(head) => stands(head.lost, WorldRefusal::LostMessage(k)),
    }
}

fn end_at(site: Option<&WorldClient>, server: ServerId) -> Option<Stamp>
    ensures { (w : World) → result ≡ world.present_end w server (option_copied site.entry) }
{
    match site {
        None => None,
        Some(site) => site.lease_end(server),
    }
}

fn present_end(machine: &WorldTurn, client: ClientId, server: ServerId) -> Option<Stamp>
    ensures { result ≡ world.present_end machine.now.world server (world.site_of machine.now.world client) }
{
    end_at(site_at(&machine.clients, client), server)
}

/// The end of the lease of a client's life at a server.
fn lease_end_of(
    machine: &WorldTurn,
    client: ClientId,
    server: ServerId,
    life: Life,
) -> Option<Stamp>
    ensures { result ≡ world.lease_end_of machine.now.world client server life }
{
    match machine.lives.ended(client, server, life) {
        Some(ended) => ended.end,
        None => present_end(machine, client, server),
    }
}

fn ineffective(machine: &WorldTurn, k: u64, standing: CommandState) -> Option<WorldRefusal>
    requires { length machine.now.world.clients ≤ 16 }
    ensures { result ≡ effect_refused machine.now.world k standing }
{
    match stands(is_done(standing), WorldRefusal::DiskState(k)) {
        Some(refusal) => Some(refusal),
        None => match machine.commands.issued(k) {
            None => None,
            Some(command) => late_at(
                machine.clock_of(NodeId::Client(command.client)),
                lease_end_of(machine, command.client, command.server, command.life),
            ),
        },
    }
}

/// The effect of the command of a number.
#[tactic(auto, using(crate::proofs::Refused::effect_none, crate::proofs::Refused::effect_some))]
pub(crate) fn refused_effect(machine: &WorldTurn, k: u64) -> Option<WorldRefusal>
    requires { length machine.now.world.clients ≤ 16 }
    ensures { result ≡ admissible.refused_effect machine.now.world k (disks.command machine.now.world.disks k) }
{
    match machine.commands.standing(k) {
        None => Some(WorldRefusal::NoCommand(k)),
        Some(standing) => ineffective(machine, k, standing),
    }
}

fn untold(machine: &WorldTurn, k: u64, ok: bool, standing: CommandState) -> Option<WorldRefusal>
    ensures { result ≡ report_refused machine.now.world k ok standing }
{
    match stands(is_told(ok, standing), WorldRefusal::DiskState(k)) {
        Some(refusal) => Some(refusal),
        None => net_full(machine),
    }
}

/// The report of the command of a number.
#[tactic(auto, using(crate::proofs::Refused::report_none, crate::proofs::Refused::report_some))]
pub(crate) fn refused_report(machine: &WorldTurn, k: u64, ok: bool) -> Option<WorldRefusal>
    ensures { result ≡ admissible.refused_report machine.now.world k ok (disks.command machine.now.world.disks k) }
{
    match machine.commands.standing(k) {
        None => Some(WorldRefusal::NoCommand(k)),
        Some(standing) => untold(machine, k, ok, standing),
    }
}
