//! The locks that a client has cached of one server: the held ones, the greatest grant seen of each
//! file, and what is demanded. `docs/PROTOCOL.md`, "Leases, locks, pages and commands", has the
//! rules.
#![tactic(auto)]

mod cache;
mod demands;
mod held_locks;
mod rows;

pub use cache::LockCache;
pub use st_base::{GrantNo, Mode, ServerId};
pub use st_lease_client::{LockLoss, LocksGone};
pub use st_rules::{Asked, DemandedFile, HeldLock, SeenGrant};
