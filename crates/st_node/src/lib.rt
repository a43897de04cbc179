//! One node served over a link: frames in, frames out. `docs/PROTOCOL.md`, "A node over a stream",
//! has the rules.
#![tactic(auto)]

mod client;
mod fault;
mod frames;
mod law;
mod node;
mod server;
mod service;

pub use client::{input_of as client_input_of, put_outputs as put_client_outputs};
pub use fault::NodeFault;
pub use law::{bytes_tell_why_a_run_stops, whole_frames_run_through};
pub use node::Node;
pub use server::{input_of as server_input_of, put_outputs as put_server_outputs};
pub use service::serve;
