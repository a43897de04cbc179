//! Clocks: the steal wait, the bound on their rates without a grain and with one, and the clocks
//! that a node reads. `docs/PROTOCOL.md`, "Clocks and leases" and "Clocks of a node", has the
//! rules.
#![tactic(auto)]

mod clock;
mod drift;
mod leads;
mod monotonic;
mod wait;

pub use clock::{Clock, MemoryClock};
pub use drift::Drift;
pub use monotonic::MonotonicClock;
pub use st_rules::Excess;
pub use wait::{elapsed, rate_ok, steal_wait};
