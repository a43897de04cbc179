//! What is promised about every run, over its steps: the record of all promises, and the others.
//! `docs/PROTOCOL.md`, "What is promised", says each in words; the crates of laws prove them.
#![tactic(auto)]
