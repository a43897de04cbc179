// The entries of names.
ghost use Rattle.std.specs.Prelude.{◌≡◌, ◌≤◌, ◌<◌, ◌+◌, ◌^◌, ◌∷◌, ◌++◌, [], Bool, List, ℕ, IfErr, IfNone, IfOk, IfSome, OnOk, length};
ghost use Rattle.std.specs.List.{AllByRecursion};
ghost use Rattle.st_journal_bytes.specs.Words.{word64};
ghost use Rattle.st_journal_file.specs.Layout.{word32};
ghost use Rattle.st_rules.specs.declared.names.NameEntry.{NameEntry};
ghost use Rattle.st_snapshot.specs.Snapshots as snapshots;
ghost use Rattle.st_snapshot.specs.Snapshots.{EntryFits, mark, rows};
ghost use Rattle.st_snapshot.specs.Reading.{AreRead, IsNoEntry};

use crate::fault::SnapshotFault;
use st_base::Name;
use st_journal_bytes::{put_word32, put_word64, split_word32, split_word64};
use st_rules::NameEntry;
use std::alloc::{AllocError, Global};

/// 1 for a directory, and 0 for a file.
fn mark_of(directory: bool) -> u8
    ensures { result ≡ mark directory }
{
    if directory { 1 } else { 0 }
}

#[tactic(auto, unfolding(crate::specs::Snapshots::entry))]
fn put_entry(out: &mut Vec<u8>, row: &NameEntry) -> Result<(), AllocError>
    ensures bytes { OnOk result (out.new.items ≡ out.old.items ++ snapshots.entry row.now) }
    ensures fits { OnOk result (EntryFits row.now) }
{
    put_word32(out, row.dir)?;
    put_word32(out, row.ino)?;
    put_word64(out, row.name.len() as u64)?;
    out.push(mark_of(row.directory))?;
    out.extend_from_slice(row.name.as_slice())
}

/// Appends these entries, one after another.
pub fn put_entries(out: &mut Vec<u8>, entries: &[NameEntry]) -> Result<(), AllocError>
    ensures bytes { OnOk result (out.new.items ≡ out.old.items ++ rows snapshots.entry entries.now) }
    ensures fits { OnOk result (AllByRecursion EntryFits entries.now) }
{
    for place in 0..entries.len() {
        put_entry(out, &entries[place])?;
    }
    Ok(())
}

/// Whether the first byte is the mark of a directory, if it is a mark; and the bytes after it.
fn read_mark(bytes: &[u8]) -> Option<(bool, &[u8])>
    ensures found { IfSome result (λ x. bytes.now ≡ mark x.0 ∷ x.1.now) }
    ensures none { IfNone result ((b : Bool) (rest : List ℕ) → bytes.now ≡ mark b ∷ rest → ⊥) }
{
    match bytes {
        [] => None,
        [byte, rest @ ..] => {
            if *byte == 0 {
                return Some((false, rest));
            }
            if *byte == 1 { Some((true, rest)) } else { None }
        }
    }
}

/// This many bytes, and the bytes after them.
fn read_text(len: u64, bytes: &[u8]) -> Option<(&[u8], &[u8])>
    ensures found { IfSome result (λ x. bytes.now ≡ x.0.now ++ x.1.now) }
    ensures size { IfSome result (λ x. length x.0.now ≡ len) }
    ensures none { IfNone result (length bytes.now < len) }
{
    if (bytes.len() as u64) < len {
        return None;
    }
    Some(bytes.split_at(len as usize))
}

/// The numbers with which an entry begins: its directory, its inode, and how long its name is; and
/// the bytes after them.
fn split_numbers(bytes: &[u8]) -> (u32, u32, u64, &[u8])
    requires { 16 ≤ length bytes.now }
    ensures parts { bytes.now ≡ word32 result.0 ++ (word32 result.1 ++ (word64 result.2 ++ result.3.now)) }
    ensures dir { result.0 < 2 ^ 32 }
    ensures ino { result.1 < 2 ^ 32 }
    ensures len { result.2 < 2 ^ 64 }
{
    let (dir, rest) = split_word32(bytes);
    let (ino, rest) = split_word32(rest);
    let (len, rest) = split_word64(rest);
    (dir, ino, len, rest)
}

/// The entry in front, and the bytes after it.
fn read_entry(alloc: Global, bytes: &[u8]) -> Result<Option<(NameEntry, &[u8])>, AllocError>
    ensures found { IfOk result (λ o. IfSome o (λ x. bytes.now ≡ snapshots.entry x.0 ++ x.1.now)) }
    ensures fits { IfOk result (λ o. IfSome o (λ x. EntryFits x.0)) }
    ensures none { IfOk result (λ o. IfNone o ((e : NameEntry) (rest : List ℕ) → EntryFits e → bytes.now ≡ snapshots.entry e ++ rest → ⊥)) }
{
    if bytes.len() < 16 {
        return Ok(None);
    }
    let (dir, ino, len, rest) = split_numbers(bytes);
    let Some((directory, rest)) = read_mark(rest) else {
        return Ok(None);
    };
    let Some((name, rest)) = read_text(len, rest) else {
        return Ok(None);
    };
    let copy = Name::from_slice(alloc, name)?;
    let row = NameEntry {
        dir,
        name: copy,
        ino,
        directory,
    };
    Ok(Some((row, rest)))
}

/// Reads this many entries from the front, and gives the bytes after them. The bytes are the last
/// ones of a snapshot of `whole` bytes.
pub fn read_entries<'a>(
    alloc: Global,
    entries: &mut Vec<NameEntry>,
    bytes: &'a [u8],
    count: u32,
    whole: usize,
) -> Result<&'a [u8], SnapshotFault>
    requires none { entries.old.items ≡ [] }
    requires within { length bytes.now ≤ whole }
    ensures ok { IfOk result (λ rest. AreRead snapshots.entry EntryFits bytes.now count entries.new.items rest.now) }
    ensures err { IfErr result (IsNoEntry bytes.now count whole) }
{
    let mut rest = bytes;
    for _place in 0..count {
        let at = (whole - rest.len()) as u64;
        let Ok(found) = read_entry(alloc, rest) else {
            return Err(SnapshotFault::Memory);
        };
        let Some((row, more)) = found else {
            return Err(SnapshotFault::NoEntry { at });
        };
        let Ok(()) = entries.push(row) else {
            return Err(SnapshotFault::Memory);
        };
        rest = more;
    }
    Ok(rest)
}
