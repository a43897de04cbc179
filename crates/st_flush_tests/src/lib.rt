//! A call on the commands of a client that the program does not make, with enough memory: all
//! writes of the flush phase at once.
#![tactic(auto)]

#[cfg(test)]
mod tests;
