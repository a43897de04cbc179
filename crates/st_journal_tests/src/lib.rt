//! The calls of a journal that the program does not make, with enough memory: a change is appended,
//! and read again.
#![tactic(auto)]

#[cfg(test)]
mod tests;
