//! Small tables of which contracts see a list: rows found by a key in the order in which they came,
//! and values of a slab in an order.
#![tactic(auto)]

mod arrival_order;
mod clients;
mod keys;
mod owned_numbers;
mod queues;
mod rising_keys;
mod table;

pub use arrival_order::Ordered;
pub use clients::ClientTable;
pub use keys::{Change, Every, Key, Row, Test};
pub use rising_keys::{put_key, rising};
pub use table::Table;
