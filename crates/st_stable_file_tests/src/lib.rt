//! An area of a file with a snapshot of a stable part and changes is opened as what it stands for,
//! and so is its file.
#![tactic(auto)]

#[cfg(test)]
mod files;
#[cfg(test)]
mod tests;
