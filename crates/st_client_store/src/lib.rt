//! All that a client has of a server's disks: what it knows about where pages lie, the clean and
//! the dirty pages, the outstanding disk commands, and the pages that a lease loss lost and that no
//! application was told about yet. `docs/PROTOCOL.md`, "Leases, locks, pages and commands", has the
//! rules.
#![tactic(auto)]

mod lost_pages;
mod store;

pub use lost_pages::LostPages;
pub use st_page_cache::CacheRefusal;
pub use store::Store;
