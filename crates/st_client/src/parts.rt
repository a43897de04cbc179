// The parts of a client.
use st_base::{ClientId, Config};
use st_client_association::Association;
use st_messages::Output;
use st_operations::Operations;
use std::alloc::Global;

/// The parts of a client. They stay where they are as it goes from hand to hand.
#[derive(Drop)]
pub struct ClientParts {
    pub(crate) alloc: Global,
    pub(crate) id: ClientId,
    pub(crate) config: Config,
    pub(crate) associations: Vec<Association>,
    pub(crate) operations: Operations,
    pub(crate) next_command: u64,
    pub(crate) out: Vec<Output>,
}
