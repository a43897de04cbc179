//! The clock of a node over the machine's clock: no contract can say what that one shows.
#![tactic(auto)]

#[cfg(test)]
mod tests;
