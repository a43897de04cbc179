//! Generated schedules: candidates for events, the choice of one, the text of a schedule of a
//! length and a seed, and the counts of its run, for which no text is made. `docs/PROTOCOL.md`,
//! "Generated schedules".
#![tactic(auto)]

mod candidates;
mod choice;
mod draws;
mod fault;
mod schedule;
mod summary;
mod text;
mod turn;
mod world;

pub use candidates::candidate;
pub use choice::{Judge, choose};
pub use draws::Draws;
pub use fault::WorkFault;
pub use schedule::generate;
pub use st_rules::Summary;
pub use summary::{put_work, work};
