// A node that is served over a link.
ghost use Rattle.std.specs.Prelude.{◌≡◌, IfSome, IfOk};
ghost use Rattle.st_node.specs.Room.{HasRoomFor};
ghost use Rattle.st_node.specs.Runs.{MOST};
ghost use Rattle.st_node.specs.Service.{HasCauses, OfReadings};
ghost use Rattle.st_tank.specs.NodeEnds.{AttachesBy, IsServed, Writes};
ghost use Rattle.st_tank.specs.KnownNodes.{IsKnown};
ghost use Rattle.st_tank.specs.NodeWords as words_of;
ghost use Rattle.st_tank.specs.Uses.{clock_use, link_use, stream_use};

use crate::node_ends::tell;
use st_base::{Config, NodeId};
use st_clock::Clock;
use st_link::{Link, Sink};
use st_node::{Node, NodeFault, serve, whole_frames_run_through};
use std::alloc::{AllocError, Global};

/// The settings of a node, in milliseconds.
const CONFIG: Config = Config {
    lease: 10_000,
    renew: 5_000,
    quiesce: 7_000,
    flush: 8_500,
    demand: 1_000,
    retry: 500,
    num: 101,
    den: 100,
    grain: 1,
};

#[tactic(auto, unfolding(crate::specs::NodeWords::started))]
fn start(alloc: Global, id: NodeId) -> Result<Node, AllocError>
    requires { IsKnown id }
    ensures started { IfOk result (λ n. n ≡ words_of.started id) }
    ensures room { IfOk result (λ n. HasRoomFor MOST n) }
{
    match id {
        NodeId::Server(server) => Node::server(alloc, server, &CONFIG, 4, 4, 4096),
        NodeId::Client(client) => Node::client(alloc, client, &CONFIG, 4),
    }
}

/// Attaches the link at the name, and serves the node over it.
fn attach_and_serve<L: Link, C: Clock>(
    alloc: Global,
    id: NodeId,
    name: &str,
    link: &mut L,
    clock: &mut C,
    node: &mut Node,
) -> Result<(), NodeFault>
    requires started { node.old ≡ words_of.started id }
    requires room { HasRoomFor MOST node.old }
    ensures run { IfSome (L.left link.old) (λ bytes. OfReadings (C.readings clock.old) (λ readings.
        Writes result (L.written link.old) (L.written link.new) (words_of.started_run id readings bytes))) }
    ensures causes { HasCauses result (L.Source.faults link.old) (L.Source.faults link.new) }
    ensures names { AttachesBy result (L.attached link.old) (L.attached link.new) name.now }
{
    // Read for the ranges of its numbers, which its type gives.
    let _id = id;
    match link.attach(name) {
        Ok(()) => serve(alloc, link, clock, node),
        Err(_) => Err(NodeFault::Read),
    }
}

/// Starts a node, attaches the link at the name, and serves the node over it.
fn start_and_serve<L: Link, C: Clock>(
    alloc: Global,
    id: NodeId,
    name: &str,
    link: &mut L,
    clock: &mut C,
) -> Result<(), NodeFault>
    requires { IsKnown id }
    ensures run { IfSome (L.left link.old) (λ bytes. OfReadings (C.readings clock.old) (λ readings.
        Writes result (L.written link.old) (L.written link.new) (words_of.started_run id readings bytes))) }
    ensures causes { HasCauses result (L.Source.faults link.old) (L.Source.faults link.new) }
    ensures names { AttachesBy result (L.attached link.old) (L.attached link.new) name.now }
{
    match start(alloc, id) {
        Ok(mut node) => attach_and_serve(alloc, id, name, link, clock, &mut node),
        Err(_) => Err(NodeFault::Memory),
    }
}

/// Starts a node, attaches the link at the name, serves the node over it, and writes the text of
/// how that ended. Returns the program's status: 0 if the stream ended at a frame's boundary, 1
/// if the run stopped, 4 if that could not be told, 5 if memory ran out, and 6 if the link
/// failed.
pub fn serve_node<E: Sink, L: Link, C: Clock>(
    alloc: Global,
    id: NodeId,
    name: &str,
    err: &mut E,
    link: &mut L,
    clock: &mut C,
) -> u8
    requires { IsKnown id }
    ensures { IsServed id name.now result (stream_use E.written E.faults err.old err.new)
        (link_use L.left L.written L.attached L.Source.faults link.old link.new) (clock_use C.readings clock.old clock.new) }
{
    whole_frames_run_through();
    let ended = start_and_serve(alloc, id, name, link, clock);
    let (_said, status) = tell(alloc, err, ended);
    status
}
