//! A client's session with a server: its lease, requests, locks, waits and releases. Each permit of
//! the lease is spent in the call that needs it. `docs/PROTOCOL.md`, "Leases, locks, pages and
//! commands", has the rules.
#![tactic(auto)]

mod counts;
mod lists;
mod locks;
mod permits;
mod requests;
mod session;

pub use session::Session;
