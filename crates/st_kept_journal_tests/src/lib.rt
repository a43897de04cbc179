//! A journal's file in memory: groups and a snapshot are kept in it and read again, and each bit of
//! it is flipped.
#![tactic(auto)]

#[cfg(test)]
mod tests;
