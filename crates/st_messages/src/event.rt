use crate::ask::Ask;
use st_base::{ClientId, NodeId, Rows};

/// The increments of an advance of the clocks, one per node: first the clients in order, then the
/// servers in order.
pub type Steps = Rows<u64>;

/// The numbers of clients, servers and disks of a world, and the number of blocks of each disk.
#[derive(Clone, Copy, Debug, PartialEq, Eq)]
pub struct Counts {
    pub clients: u16,
    pub servers: u16,
    pub disks: u16,
    pub blocks: u32,
}

/// An event of a world. Messages and disk commands are named by their numbers, from 1.
#[derive(Drop)]
pub enum Event {
    Tick(NodeId),
    App { client: ClientId, ask: Ask },
    Deliver(u64),
    Lose(u64),
    /// From now on no message from the first node to the second is delivered.
    Cut(NodeId, NodeId),
    /// From now on messages from the first node to the second can be delivered again.
    Heal(NodeId, NodeId),
    Advance(Steps),
    Effect(u64),
    Report { k: u64, ok: bool },
    Crash(NodeId),
    Start(NodeId),
}
