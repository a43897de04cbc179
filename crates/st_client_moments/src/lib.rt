//! The earliest moment, from a given one on, at which a tick does something at a client.
//! `st_client_due` has the definitions, and `st_laws_due` the law.
#![tactic(auto)]

mod greetings;
mod node;
mod operations;
mod reductions;
mod requests;
mod spans;
mod turns;
mod wants;
mod writes;

pub use node::due;
