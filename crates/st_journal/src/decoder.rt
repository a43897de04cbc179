// Reading a change from its bytes.
ghost use Rattle.std.specs.Prelude.{◌≡◌, IfOk, IfSome, Some, option_map};
ghost use Rattle.st_journal.specs.Changes as changes;
ghost use Rattle.st_journal.specs.Changes.{Spells};
ghost use Rattle.st_journal.specs.Decoder as reading;
ghost use Rattle.st_journal.specs.declared.change.Change.{Change};
ghost use Rattle.st_journal.specs.declared.change.Change.TheVariants as kinds;

use crate::change::Change;
use st_base::{Name, PageNo};
use std::alloc::{AllocError, Global};

fn read_byte(bytes: &[u8]) -> Option<(u8, &[u8])>
    ensures { option_map (λ x. (x.0, x.1.now)) result ≡ reading.byte_at bytes.now }
{
    match bytes {
        [] => None,
        [byte, rest @ ..] => Some((*byte, rest)),
    }
}

#[tactic(auto, unfolding(crate::specs::Decoder::word32_at))]
pub(crate) fn read_word32(bytes: &[u8]) -> Option<(u32, &[u8])>
    ensures { option_map (λ x. (x.0, x.1.now)) result ≡ reading.word32_at bytes.now }
{
    if bytes.len() < 4 {
        return None;
    }
    let (front, rest) = bytes.split_at(4);
    let number = u32::from_be_bytes([front[0], front[1], front[2], front[3]]);
    Some((number, rest))
}

fn within(least: u32, most: u32, number: u32) -> bool
    ensures { result ≡ changes.between least most number }
{
    least <= number && number <= most
}

#[tactic(auto, unfolding(crate::specs::Decoder::ino_at))]
fn read_ino(bytes: &[u8]) -> Option<(u32, &[u8])>
    ensures { option_map (λ x. (x.0, x.1.now)) result ≡ reading.ino_at bytes.now }
{
    let (number, rest) = read_word32(bytes)?;
    if !within(1, 4_294_967_295, number) {
        return None;
    }
    Some((number, rest))
}

#[tactic(auto, unfolding(crate::specs::Decoder::page_at))]
fn read_page(bytes: &[u8]) -> Option<(PageNo, &[u8])>
    ensures { option_map (λ x. (x.0, x.1.now)) result ≡ reading.page_at bytes.now }
{
    let (number, rest) = read_word32(bytes)?;
    if !within(0, 1_048_575, number) {
        return None;
    }
    Some((PageNo(number), rest))
}

#[tactic(auto, unfolding(crate::specs::Decoder::count_at, crate::specs::Decoder::word16_at))]
fn read_count(page: PageNo, bytes: &[u8]) -> Option<(u16, &[u8])>
    ensures { option_map (λ x. (x.0, x.1.now)) result ≡ reading.count_at page bytes.now }
{
    if bytes.len() < 2 {
        return None;
    }
    let (front, rest) = bytes.split_at(2);
    let count = u16::from_be_bytes([front[0], front[1]]);
    let is_count = within(1, 64, u32::from(count))
        && u64::from(page.0) + u64::from(count) <= 1_048_576;
    if !is_count {
        return None;
    }
    Some((count, rest))
}

/// A directory and a name in it.
#[tactic(auto, unfolding(crate::specs::Decoder::entry_at, crate::specs::Decoder::name_at))]
fn read_entry(bytes: &[u8]) -> Option<((u32, &[u8]), &[u8])>
    ensures { option_map (λ x. ((x.0.0, x.0.1.now), x.1.now)) result ≡ reading.entry_at bytes.now }
{
    let (dir, rest) = read_word32(bytes)?;
    let (len, rest) = read_byte(rest)?;
    let len = usize::from(len);
    if rest.len() < len {
        return None;
    }
    let (name, rest) = rest.split_at(len);
    Some(((dir, name), rest))
}

#[tactic(auto, unfolding(crate::specs::Decoder::allocate_at))]
fn read_allocate(bytes: &[u8]) -> Option<(Change, &[u8])>
    ensures { option_map (λ x. (x.0, x.1.now)) result ≡ reading.allocate_at bytes.now }
{
    let (ino, rest) = read_ino(bytes)?;
    let (page, rest) = read_page(rest)?;
    let (count, rest) = read_count(page, rest)?;
    Some((Change::Allocate { ino, page, count }, rest))
}

#[tactic(auto, unfolding(crate::specs::Decoder::cut_at))]
fn read_cut(bytes: &[u8]) -> Option<(Change, &[u8])>
    ensures { option_map (λ x. (x.0, x.1.now)) result ≡ reading.cut_at bytes.now }
{
    let (ino, rest) = read_ino(bytes)?;
    let (from, rest) = read_page(rest)?;
    Some((Change::Cut { ino, from }, rest))
}

#[tactic(auto, unfolding(crate::specs::Decoder::rename_at))]
fn read_rename(alloc: Global, bytes: &[u8]) -> Result<Option<(Change, &[u8])>, AllocError>
    ensures { IfOk result (λ o. option_map (λ x. (x.0, x.1.now)) o ≡ reading.rename_at bytes.now) }
{
    let Some(((dir, name), rest)) = read_entry(bytes) else {
        return Ok(None);
    };
    let Some(((dir2, name2), rest)) = read_entry(rest) else {
        return Ok(None);
    };
    let change = Change::Rename {
        dir,
        name: Name::from_slice(alloc, name)?,
        dir2,
        name2: Name::from_slice(alloc, name2)?,
    };
    Ok(Some((change, rest)))
}

/// What follows the byte of a kind.
#[tactic(auto, unfolding(crate::specs::Decoder::change_numbered, crate::specs::Decoder::named_at))]
fn read_numbered(
    alloc: Global,
    kind: u8,
    bytes: &[u8],
) -> Result<Option<(Change, &[u8])>, AllocError>
    ensures { IfOk result (λ o. option_map (λ x. (x.0, x.1.now)) o ≡ reading.change_numbered kind bytes.now) }
{
    match kind {
        1 => Ok(Some((Change::Epoch, bytes))),
        2 => Ok(read_allocate(bytes)),
        3 => Ok(read_cut(bytes)),
        4 => {
            let Some(((dir, name), rest)) = read_entry(bytes) else {
                return Ok(None);
            };
            let name = Name::from_slice(alloc, name)?;
            Ok(Some((Change::Create { dir, name }, rest)))
        }
        5 => {
            let Some(((dir, name), rest)) = read_entry(bytes) else {
                return Ok(None);
            };
            let name = Name::from_slice(alloc, name)?;
            Ok(Some((Change::Mkdir { dir, name }, rest)))
        }
        6 => {
            let Some(((dir, name), rest)) = read_entry(bytes) else {
                return Ok(None);
            };
            let name = Name::from_slice(alloc, name)?;
            Ok(Some((Change::Remove { dir, name }, rest)))
        }
        7 => read_rename(alloc, bytes),
        _ => Ok(None),
    }
}

#[tactic(auto, unfolding(crate::specs::Decoder::change_of, crate::specs::Decoder::change_at))]
fn read_whole(alloc: Global, bytes: &[u8]) -> Result<Option<Change>, AllocError>
    ensures { IfOk result (λ o. o ≡ reading.change_of bytes.now) }
{
    let Some((kind, rest)) = read_byte(bytes) else {
        return Ok(None);
    };
    match read_numbered(alloc, kind, rest)? {
        None => Ok(None),
        Some((change, rest)) => {
            if rest.is_empty() {
                Ok(Some(change))
            } else {
                Ok(None)
            }
        }
    }
}

/// The change whose bytes these are, all of them, or `None` if there is none. It allocates only for
/// names.
pub fn decode(alloc: Global, bytes: &[u8]) -> Result<Option<Change>, AllocError>
    // What is read has these bytes and fits; and each change that fits and has these bytes is read.
    ensures found { IfOk result (λ o. IfSome o (λ x. Spells bytes.now x)) }
    ensures only { IfOk result (λ o. (x : Change) → Spells bytes.now x → o ≡ Some x) }
{
    read_whole(alloc, bytes)
}
