//! Containers that move from one server to another by order: the records of one server, and its
//! calls. `docs/PROTOCOL.md`, "A container moves by order", has the rules.
#![tactic(auto)]

mod chunks;
mod mover;
mod network;
mod parts;
mod record;
mod refusal;
mod site;
mod ticks;
mod update;
mod updates;
mod world;

ghost use Rattle.st_move.specs.Conditions.{MovesGoOn};
ghost use Rattle.st_move.specs.Law.{NoUpdateIsLost};

pub use mover::Mover;
pub use network::MoveNetwork;
pub use record::{ContainerRecord, ContainerState, MoveMessage};
pub use refusal::MoveRefusal;
pub use site::MoveSite;
pub use update::Update;
pub use updates::Updates;
pub use world::{MoveAnswer, MoveEvent, SentMove};

/// Whatever is put, ordered, locked, delivered, lost or repeated: at most one server holds a
/// container; what a list is answered is the list of accepted updates; a server with a lock row of
/// a container holds it, and no other server does; and some server has the accepted updates.
pub fn no_update_is_lost()
    ensures { NoUpdateIsLost }
{}

/// After every list of events what the calls of each server need holds: no version is above the
/// number of events and one more, and every message that was sent is of a container that is there,
/// for a server that is there.
pub fn moves_can_go_on()
    ensures { MovesGoOn }
{}
