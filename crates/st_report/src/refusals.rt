ghost use Rattle.std.specs.Prelude.{◌≡◌, ◌++◌, OnOk, codes};
ghost use Rattle.st_rules.specs.Report as text;

use crate::words::{
    put_client, put_field, put_node, put_numbered, put_server, put_text, put_wide_field,
};
use st_base::{ClientId, NodeId, ServerId};
use st_rules::WorldRefusal;
use std::alloc::AllocError;

/// Appends a word and a node.
fn put_of_node(out: &mut Vec<u8>, word: &[u8], n: NodeId) -> Result<(), AllocError>
    ensures { OnOk result (out.new.items ≡ out.old.items ++ (word.now ++ text.node n)) }
{
    put_text(out, word)?;
    put_node(out, n)
}

/// Appends a word and two numbers.
fn put_pair(out: &mut Vec<u8>, word: &[u8], a: u64, b: u64) -> Result<(), AllocError>
    ensures { OnOk result (out.new.items ≡ out.old.items ++ (word.now ++ text.field a ++ text.field b)) }
{
    put_numbered(out, word, a)?;
    put_field(out, b)
}

/// Appends a word and two nodes.
fn put_nodes(out: &mut Vec<u8>, word: &[u8], m: NodeId, n: NodeId) -> Result<(), AllocError>
    ensures { OnOk result (out.new.items ≡ out.old.items ++ (word.now ++ text.node m ++ text.node n)) }
{
    put_of_node(out, word, m)?;
    put_node(out, n)
}

/// Appends a word, two nodes and a number. It is a function of its own for the prover, which does
/// not join its parts inside the match.
fn put_drift(
    out: &mut Vec<u8>,
    word: &[u8],
    m: NodeId,
    n: NodeId,
    excess: u128,
) -> Result<(), AllocError>
    ensures { OnOk result (out.new.items ≡ out.old.items ++ (word.now ++ text.node m ++ text.node n ++ text.field excess)) }
{
    put_nodes(out, word, m, n)?;
    put_wide_field(out, excess)
}

/// Appends the refusal of a missed flush. It is a function of its own for the same reason.
fn put_missed(out: &mut Vec<u8>, c: ClientId, s: ServerId) -> Result<(), AllocError>
    ensures { OnOk result (out.new.items ≡ out.old.items ++ (codes " FlushMissed" ++ text.client c ++ text.server s)) }
{
    put_text(out, b" FlushMissed")?;
    put_client(out, c)?;
    put_server(out, s)
}

/// Appends the name of a refusal of the world and its values, after a space.
#[tactic(auto, unfolding(st_rules::specs::Report::refusal))]
pub fn put_refusal(out: &mut Vec<u8>, refusal: WorldRefusal) -> Result<(), AllocError>
    ensures { OnOk result (out.new.items ≡ out.old.items ++ text.refusal refusal) }
{
    match refusal {
        WorldRefusal::NoNode(n) => put_of_node(out, b" NoNode", n),
        WorldRefusal::NotRunning(n) => put_of_node(out, b" NotRunning", n),
        WorldRefusal::Running(n) => put_of_node(out, b" Running", n),
        WorldRefusal::NoMessage(k) => put_numbered(out, b" NoMessage", k),
        WorldRefusal::LostMessage(k) => put_numbered(out, b" LostMessage", k),
        WorldRefusal::LinkCut(from, to) => put_nodes(out, b" LinkCut", from, to),
        WorldRefusal::NoCommand(k) => put_numbered(out, b" NoCommand", k),
        WorldRefusal::DiskState(k) => put_numbered(out, b" DiskState", k),
        WorldRefusal::ClockRate(greatest, least) => put_pair(out, b" ClockRate", greatest, least),
        WorldRefusal::LateDisk(clock, end) => put_pair(out, b" LateDisk", clock.0, end.0),
        WorldRefusal::FlushMissed(c, s) => put_missed(out, c, s),
        WorldRefusal::NetFull(bytes) => put_numbered(out, b" NetFull", bytes),
        WorldRefusal::ClockDrift(m, n, excess) => put_drift(out, b" ClockDrift", m, n, excess),
    }
}

/// Appends the words that begin the line of a refusal: `line` and the number of the refused line.
pub fn put_refused(out: &mut Vec<u8>, line: u64) -> Result<(), AllocError>
    ensures { OnOk result (out.new.items ≡ out.old.items ++ (codes "line" ++ text.field line)) }
{
    put_numbered(out, b"line", line)
}
