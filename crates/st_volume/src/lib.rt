//! The volume: what the applications of all clients see of a shared file system. `specs/` says what
//! it is and which steps it takes; it knows no locks, leases, messages, servers' or clients'
//! states.
#![tactic(auto)]

mod step;

pub use step::{Fate, VolumeStep};
