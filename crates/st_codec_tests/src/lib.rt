//! The bytes of messages and of frames, beside those of an independent codec.
#![tactic(auto)]

#[cfg(test)]
mod tests;
#[cfg(test)]
mod third_table;
#[cfg(test)]
mod third_tests;
#[cfg(test)]
mod wire_table;
