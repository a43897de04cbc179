//! From which moment on a tick does something at a server: the earliest end of its timers.
//! `st_laws_due` has the law.
#![tactic(auto)]

mod moments;

pub use moments::{after, sooner};
