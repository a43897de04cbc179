//! The law of clocks: the advances of every run are in bound, in both forms of the head.
#![tactic(auto)]

mod law;

pub use law::clocks_are_in_bound;
