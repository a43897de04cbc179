//! What each step of a server and of a client does, as a list of changes with their causes.
//! It is only about the definitions.
#![tactic(auto)]
