//! Tests of the ranges of single fields.
ghost use Rattle.std.specs.Prelude.{◌≡◌};
ghost use Rattle.st_messages.specs.Ranges as fits;
ghost use Rattle.st_messages.specs.Kinds as kinds;

use st_base::{BlockAt, FileId, GrantNo, Mode, Tag};

/// Returns whether the number is from `least` to `most`.
pub fn within(least: u64, most: u64, number: u64) -> bool
    ensures { result ≡ kinds.between least most number }
{
    least <= number && number <= most
}

/// Returns true: every number of eight bytes is in range.
#[tactic(auto, using(crate::proofs::Ranges::in_word64))]
pub(crate) fn is_word(number: u64) -> bool
    ensures { result ≡ kinds.is_word64 number }
{
    // Read for its range, which its type gives.
    let _value = number;
    true
}

pub(crate) fn is_grant(g: GrantNo) -> bool
    ensures { result ≡ fits.is_grant g }
{
    is_word(g.0)
}

pub(crate) fn is_ino(ino: u32) -> bool
    ensures { result ≡ fits.is_ino ino }
{
    within(1, 4_294_967_295, u64::from(ino))
}

pub(crate) fn is_page(page: u32) -> bool
    ensures { result ≡ fits.is_page 0 page }
{
    within(0, 1_048_575, u64::from(page))
}

/// Returns whether this is the mode of a lock that is held: S or X.
pub(crate) fn is_held(mode: Mode) -> bool
    ensures { result ≡ fits.is_mode 1 2 mode }
{
    match mode {
        Mode::None => false,
        Mode::S | Mode::X => true,
    }
}

/// Returns whether a lock may be reduced to this mode: None or S.
pub(crate) fn is_reduced(mode: Mode) -> bool
    ensures { result ≡ fits.is_mode 0 1 mode }
{
    match mode {
        Mode::None | Mode::S => true,
        Mode::X => false,
    }
}

pub(crate) fn has_length(least: usize, most: usize, bytes: &[u8]) -> bool
    ensures { result ≡ fits.has_length least most bytes.now }
{
    least <= bytes.len() && bytes.len() <= most
}

pub(crate) fn is_file(least: u64, file: FileId) -> bool
    ensures { result ≡ fits.is_file least file }
{
    within(least, 65_535, u64::from(file.server.0))
        && within(least, 4_294_967_295, u64::from(file.ino))
}

pub(crate) fn is_block(at: BlockAt) -> bool
    ensures { result ≡ fits.is_block at }
{
    within(1, 8, u64::from(at.disk.0)) && within(0, 4_095, u64::from(at.block))
}

pub(crate) fn is_tag(least: u64, tag: Tag) -> bool
    ensures { result ≡ fits.is_tag least tag }
{
    is_file(least, tag.file) && is_page(tag.page.0) && is_word(tag.birth)
}

pub(crate) fn is_same_block(a: BlockAt, b: BlockAt) -> bool
    ensures { result ≡ fits.is_same_block a b }
{
    a.disk.0 == b.disk.0 && a.block == b.block
}

/// Returns true: every number of four bytes is in range.
#[tactic(auto, using(crate::proofs::Ranges::in_word32))]
pub(crate) fn is_number(number: u32) -> bool
    ensures { result ≡ fits.is_word32 number }
{
    // Read for its range, which its type gives.
    let _value = number;
    true
}

#[tactic(auto, using(crate::proofs::Ranges::in_word16, crate::proofs::Ranges::in_word32))]
pub(crate) fn is_any_block(at: BlockAt) -> bool
    ensures { result ≡ fits.is_any_block at }
{
    // Read for its range, which its type gives.
    let _disk = at.disk.0;
    is_number(at.block)
}

/// Returns whether a message may name `count` pages from this one: at most 64 and at least one, and
/// none after the last page of a file.
pub fn is_count(page: u32, count: u16) -> bool
    ensures { result ≡ fits.is_count page count }
{
    let left = 1_048_576u32.saturating_sub(page);
    1 <= count && count <= 64 && u32::from(count) <= left
}
