//! What a client does with a server's messages, with asks of applications, at the ends of disk
//! commands, and when a lease is over. `docs/PROTOCOL.md`, "The client", has the rules.
#![tactic(auto)]

mod asks;
mod bodies;
mod command_ends;
mod effects;
mod epochs;
mod losses;
mod messages;
mod refusals;
mod replies;

pub use asks::take_ask;
pub use command_ends::finish;
pub use losses::lose;
pub use messages::receive_at;
