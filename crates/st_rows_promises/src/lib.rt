//! Worked rows of the promises: runs that keep all of them, and steps made by hand of which each
//! breaks one.
#![tactic(auto)]

pub mod broken_promises;
pub mod world_safety;
