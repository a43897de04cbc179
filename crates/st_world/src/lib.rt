//! The world of all events: clocks, clients and servers, the network, the disks and the log.
//! `docs/PROTOCOL.md`, "The world", has the rules.
#![tactic(auto)]

mod admission;
mod checks;
mod clocks;
mod fault;
mod first_parts;
mod missed_flushes;
mod parts;
mod safe;
mod shape;
mod steps;
mod world;

pub use fault::WorldFault;
pub use shape::events_keep_the_shape;
pub use st_rules::{Observation, Summary, WorldRefusal};
pub use world::World;
