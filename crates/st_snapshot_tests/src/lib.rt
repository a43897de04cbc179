//! A snapshot is read as what it was made of, and nothing else is read as one.
#![tactic(auto)]

#[cfg(test)]
mod tests;
