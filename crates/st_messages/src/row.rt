//! The rows of messages: those of locks, extents, lost commands and names.
ghost use Rattle.std.specs.Prelude.{◌≡◌, ℕ, Bool, List, length};
ghost use Rattle.st_messages.specs.Ranges as fits;

use crate::range::{has_length, is_block, is_grant, is_held, is_word, within};
use st_base::{
    ExtentRow, ExtentRows, GrantNo, LockRows, LostRow, LostRows, Mode, NameRow, NameRows, Rows,
};

/// A row of a message.
pub trait Row {
    /// The row is in range, and its key is at least this number.
    ghost is_row: { ℕ → Self → Bool };

    /// The least key that may follow the row.
    ghost next: { Self → ℕ };

    /// Returns whether the row is in range and its key is at least `least`.
    fn fits(&self, least: u64) -> bool
        ensures { result ≡ is_row least self.now };

    /// Returns the least key that may follow the row.
    fn next(&self) -> u64
        ensures { result ≡ next self.now };
}

impl Row for (u32, GrantNo, Mode) {
    ghost is_row = { fits.is_lock_row };

    ghost next = { fits.after_lock };

    fn fits(&self, least: u64) -> bool {
        within(least, 4_294_967_295, u64::from(self.0)) && is_grant(self.1) && is_held(self.2)
    }

    fn next(&self) -> u64 {
        u64::from(self.0) + 1
    }
}

impl Row for ExtentRow {
    ghost is_row = { fits.is_extent_row };

    ghost next = { fits.after_extent };

    fn fits(&self, least: u64) -> bool {
        within(least, 1_048_575, u64::from(self.page.0)) && is_block(self.at) && is_word(self.birth)
    }

    fn next(&self) -> u64 {
        u64::from(self.page.0) + 1
    }
}

impl Row for LostRow {
    ghost is_row = { fits.is_lost_row };

    ghost next = { fits.after_lost };

    fn fits(&self, least: u64) -> bool {
        within(least, 1_048_575, u64::from(self.page.0)) && is_word(self.command)
    }

    fn next(&self) -> u64 {
        u64::from(self.page.0) + 1
    }
}

impl Row for NameRow {
    ghost is_row = { fits.is_name_row };

    ghost next = { fits.after_name };

    fn fits(&self, least: u64) -> bool {
        within(least, 4_294_967_295, u64::from(self.ino)) && has_length(1, 64, self.name.as_slice())
    }

    fn next(&self) -> u64 {
        1
    }
}

pub(crate) fn rows_fit<T: Row>(least: u64, rows: &Rows<T>) -> bool
    ensures { result ≡ fits.are_rows T.is_row T.next least rows.now }
{
    let mut least = least;
    for row in rows.as_slice() {
        if !row.fits(least) {
            return false;
        }
        least = row.next();
    }
    true
}

#[tactic(auto, unfolding(crate::specs::Ranges::are_locks))]
pub(crate) fn locks_fit(rows: &LockRows) -> bool
    ensures { result ≡ fits.are_locks rows.now }
{
    rows.len() <= 1024 && rows_fit(1, rows)
}

#[tactic(auto, unfolding(crate::specs::Ranges::are_extents))]
pub(crate) fn extents_fit(rows: &ExtentRows) -> bool
    ensures { result ≡ fits.are_extents rows.now }
{
    rows.len() <= 64 && rows_fit(0, rows)
}

#[tactic(auto, unfolding(crate::specs::Ranges::are_lost))]
pub(crate) fn lost_fit(rows: &LostRows) -> bool
    ensures { result ≡ fits.are_lost rows.now }
{
    1 <= rows.len() && rows.len() <= 1024 && rows_fit(0, rows)
}

#[tactic(auto, unfolding(crate::specs::Ranges::are_names))]
pub(crate) fn names_fit(rows: &NameRows) -> bool
    ensures { result ≡ fits.are_names rows.now }
{
    rows.len() <= 256 && rows_fit(1, rows)
}
