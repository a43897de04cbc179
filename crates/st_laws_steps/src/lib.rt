//! The walks of a client's rules: what each step of a client does, as a list of small changes, on
//! only the definitions.
#![tactic(auto)]
