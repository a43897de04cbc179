//! The top call over memory, when calls of its source, its sinks or its link fail, and the ends
//! of links that the program does not use.
#![tactic(auto)]

#[cfg(test)]
mod failed_calls;
#[cfg(test)]
mod frames;
#[cfg(test)]
mod link;
#[cfg(test)]
mod one_byte_source;
#[cfg(test)]
mod runs;
#[cfg(test)]
mod takes;
#[cfg(test)]
mod texts;
