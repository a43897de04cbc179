//! The lock table of a server beside plain lists: 10,000 drawn calls, among them those that are
//! refused for too many locks.
#![tactic(auto)]

#[cfg(test)]
mod arguments;
#[cfg(test)]
mod drawn_calls;
#[cfg(test)]
mod draws;
#[cfg(test)]
mod plain_table;
