//! The line of an event, with enough memory: no clause says when memory runs out.
#![tactic(auto)]

#[cfg(test)]
mod tests;
