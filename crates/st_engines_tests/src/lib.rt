//! Calls of containers, images and shared files with enough memory.
#![tactic(auto)]

#[cfg(test)]
mod tests;
