//! The stable parts that a server may have, as the states of a journal's file: changes keep what
//! always holds of them, and what a crash leaves of such a file is opened.
#![tactic(auto)]

mod law;

pub use law::a_server_has_a_format;
