//! The parts of a server beside plain lists: extents with their runs, sessions and suspects, each
//! with 10,000 drawn calls.
#![tactic(auto)]

#[cfg(test)]
mod authority;
#[cfg(test)]
mod draws;
#[cfg(test)]
mod extents;
#[cfg(test)]
mod restored;
#[cfg(test)]
mod sessions;
