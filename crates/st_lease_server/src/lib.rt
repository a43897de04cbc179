//! Suspicion: which clients left a server's demand unanswered, and since when, until their locks
//! are stolen. `docs/PROTOCOL.md`, "Suspicion and theft", has the rules.
#![tactic(auto)]

mod authority;
mod timer_starts;
mod timers;

pub use authority::Authority;
pub use st_base::{ClientId, Config, Stamp};
pub use st_rules::Suspect;
