//! A node over streams beside those of an independent reading, a server that was restarted, a
//! socket, and nodes inside another program that were just opened.
#![tactic(auto)]

#[cfg(test)]
mod rows;
#[cfg(test)]
mod tests;
