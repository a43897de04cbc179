//! A client's lease at a server, and the permits of its phases. A permit is spent exactly once:
//! code that lets one go does not compile. `docs/PROTOCOL.md`, "Permits", says what each phase
//! allows.
#![tactic(auto)]

mod held_lease;
mod lease;
mod losses;
mod permits;
mod standing;

pub use lease::Lease;
pub use losses::{CommandLoss, CommandsGone, LockLoss, LocksGone, LossPermit, PageLoss, PagesGone};
pub use permits::{DrainPermit, HoldPermit, Receipt, SettledAt, SubmitPermit, UsePermit};
pub use st_base::{Config, ServerId, Stamp};
pub use st_rules::{Phase, StandingKind};
pub use standing::Standing;
