//! Worked rows of the definitions of parts, of a server and of a client: equations that hold by
//! computation. A wrong definition breaks one.
#![tactic(auto)]

pub mod client_epochs;
pub mod client_leases;
pub mod client_limits;
pub mod client_locks;
pub mod client_operations;
pub mod client_pages;
pub mod client_parts;
pub mod disks;
pub mod extents;
pub mod flat_log;
pub mod leases;
pub mod locks;
pub mod names;
pub mod server;
pub mod server_refusals;
pub mod sessions;
pub mod suspicion;
