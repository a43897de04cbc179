//! The types that every part of the protocol uses: identifiers, lock modes, pages, names, rows and
//! the settings of a world. `docs/PROTOCOL.md`, "The cast", describes each.
#![tactic(auto)]

mod config;
mod disk;
mod ids;
mod mode;
mod names;
mod page;
mod rows;

pub use config::{Config, ConfigRefusal};
pub use disk::{BlockAt, Command, Tag};
pub use ids::{ClientId, DiskId, Epoch, FileId, GrantNo, Life, NodeId, PageNo, ServerId, Stamp};
pub use mode::Mode;
pub use names::{Name, NameAsk, NameRefusal, NameRow, NameRows};
pub use page::PageBytes;
pub use rows::{Clients, ExtentRow, ExtentRows, LockRows, LostRow, LostRows, Rows};
