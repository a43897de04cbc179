//! The bytes of a journal's file, written and read: its header and its marks, and its areas with
//! their snapshots, gates and records. `docs/PROOF.md`, "Why a journal's file outlives crashes",
//! has the layout.
#![tactic(auto)]

mod area;
mod file;
mod group;
mod header;
mod law;
mod moment;
mod part;
mod words;

pub use area::{AreaEnd, CLOSED, Damaged, OPEN, read_area, read_gate};
pub use file::{
    AREAS_PLACE, Current, FileFault, MADE_PLACE, SWITCH_PLACE, current_area, read_file,
};
pub use group::{area_of, file_of, group_of, opened_of};
pub use header::{Header, HeaderFault, Identity, check_identity, header_of, read_header};
pub use law::{a_journal_has_the_moment_of_its_last_change, an_area_is_read_in_one_way};
pub use moment::{MomentFault, check_moment, dated_of, last_moment, read_dated};
pub use part::{put_part, read_part};
pub use words::{put_word16, put_word32, put_word64, split_word16, split_word32, split_word64};
