//! A server whose changes are kept in groups, over a file in memory: a file is made, and a server
//! is opened on it and driven by scripts.
#![tactic(auto)]

#[cfg(test)]
mod openings;
#[cfg(test)]
mod scripts;
