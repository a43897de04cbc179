//! The file of a server's journal: a header, two areas of which one counts, snapshots, and groups
//! of records that are kept by two syncs. What a crash at any moment leaves of it stands for all
//! changes that were kept, and for none that was not made.
#![tactic(auto)]

mod law;

pub use law::{a_file_outlives_crashes, a_flipped_bit_changes_nothing};
