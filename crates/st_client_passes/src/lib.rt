//! What a client does at a server at the end of each step: its pending operations, reductions,
//! writes, greeting and requests. `docs/PROTOCOL.md`, "The client", has the rules.
#![tactic(auto)]

mod greetings;
mod next_request;
mod operations;
mod page_changes;
mod page_reads;
mod reductions;
mod requests;
mod step_end;
mod wants;
mod writes;

pub use next_request::{may_ask, need, want_held, want_name};
pub use operations::is_open_file;
pub use page_changes::{holds, may_write};
pub use reductions::may_reduce;
pub use step_end::passes;
pub use wants::Wanted;
pub use writes::is_wanted;
