//! The law of sessions: each request number of a life is taken once, and while it is the latest it
//! gets the reply that was kept.
#![tactic(auto)]

mod law;

pub use law::each_number_is_taken_once;
