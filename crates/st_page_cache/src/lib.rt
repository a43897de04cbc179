//! The pages that a client has of one server: at most 64 dirty ones and at most 256 clean ones, the
//! most recently used first; and what it knows about where pages lie. `docs/PROTOCOL.md`, "Leases,
//! locks, pages and commands", has the rules.
#![tactic(auto)]

mod cache;
mod clean_pages;
mod dirty_pages;
mod dirty_places;
mod key;
mod known_extents;
mod page_reads;
mod refusal;
mod shown;

pub use cache::PageCache;
pub use known_extents::KnownExtents;
pub use refusal::CacheRefusal;
pub use shown::{Dirty, Page};
pub use st_rules::{CleanPage, DirtyPage};
