// Changes to a server's stable part, and their bytes.
ghost use Rattle.std.specs.Prelude.{◌≡◌, ◌≤◌, ◌<◌, ◌+◌, ◌++◌, ◌∷◌, [], true, OnOk, length};
ghost use Rattle.st_journal.specs.Changes as changes;

use st_base::{Name, PageNo};
use std::alloc::AllocError;

/// A change to a server's stable part. `ino` is the inode number of a file, `dir` and `dir2` are
/// those of directories.
#[derive(Drop)]
pub enum Change {
    Epoch,
    Allocate {
        ino: u32,
        page: PageNo,
        count: u16,
    },
    Cut {
        ino: u32,
        from: PageNo,
    },
    Create {
        dir: u32,
        name: Name,
    },
    Mkdir {
        dir: u32,
        name: Name,
    },
    Remove {
        dir: u32,
        name: Name,
    },
    Rename {
        dir: u32,
        name: Name,
        dir2: u32,
        name2: Name,
    },
}

#[tactic(auto, unfolding(crate::specs::Changes::word32))]
pub(crate) fn put_word32(out: &mut Vec<u8>, number: u32) -> Result<(), AllocError>
    ensures { OnOk result (out.new.items ≡ out.old.items ++ changes.word32 number) }
{
    out.extend_from_slice(&number.to_be_bytes())
}

pub(crate) fn put_byte(out: &mut Vec<u8>, byte: u8) -> Result<(), AllocError>
    ensures { OnOk result (out.new.items ≡ out.old.items ++ byte ∷ []) }
{
    Ok(out.push(byte)?)
}

#[tactic(auto, unfolding(crate::specs::Changes::name))]
fn put_entry(out: &mut Vec<u8>, dir: u32, name: &Name) -> Result<(), AllocError>
    requires { length name.now ≤ 255 }
    ensures { OnOk result (out.new.items ≡ out.old.items ++ changes.entry dir name.now) }
{
    put_word32(out, dir)?;
    put_byte(out, name.len() as u8)?;
    out.extend_from_slice(name.as_slice())
}

fn put_named(out: &mut Vec<u8>, kind: u8, dir: u32, name: &Name) -> Result<(), AllocError>
    requires { length name.now ≤ 255 }
    ensures { OnOk result (out.new.items ≡ out.old.items ++ (kind ∷ changes.entry dir name.now)) }
{
    put_byte(out, kind)?;
    put_entry(out, dir, name)?;
    Ok(())
}

fn has_word(dir: u32) -> bool
    ensures { result ≡ changes.is_word32 dir }
{
    // Read for its range: a number of four bytes.
    let _dir = dir;
    true
}

impl Change {
    /// Whether the numbers of directories fit their words, which they do.
    #[tactic(auto, unfolding(crate::specs::Changes::has_words))]
    pub(crate) fn has_words(&self) -> bool
        ensures words { result ≡ changes.has_words self.now }
        ensures always { result ≡ true }
    {
        match self {
            Change::Create { dir, .. } | Change::Mkdir { dir, .. } | Change::Remove { dir, .. } => {
                has_word(*dir)
            }
            Change::Rename { dir, dir2, .. } => has_word(*dir) && has_word(*dir2),
            Change::Epoch | Change::Allocate { .. } | Change::Cut { .. } => true,
        }
    }

    /// How many bytes the change has.
    #[tactic(auto, unfolding(crate::specs::Changes::bytes_of, crate::specs::Changes::fits, crate::specs::Changes::word16, crate::specs::Changes::word32, crate::specs::Changes::name))]
    pub fn size(&self) -> u64
        requires { changes.fits self.now ≡ true }
        ensures size { result ≡ length (changes.bytes_of self.now) }
        ensures most { result ≤ 521 }
    {
        match self {
            Change::Epoch => 1,
            Change::Allocate { .. } => 11,
            Change::Cut { .. } => 9,
            Change::Create { name, .. }
            | Change::Mkdir { name, .. }
            | Change::Remove { name, .. } => 6 + name.len() as u64,
            Change::Rename { name, name2, .. } => 11 + name.len() as u64 + name2.len() as u64,
        }
    }

    /// Appends the bytes of the change.
    #[tactic(auto, unfolding(crate::specs::Changes::bytes_of, crate::specs::Changes::fits, crate::specs::Changes::word16))]
    pub(crate) fn put(&self, out: &mut Vec<u8>) -> Result<(), AllocError>
        requires { changes.fits self.now ≡ true }
        ensures { OnOk result (out.new.items ≡ out.old.items ++ changes.bytes_of self.now) }
    {
        match self {
            Change::Epoch => put_byte(out, 1),
            Change::Allocate { ino, page, count } => {
                put_byte(out, 2)?;
                put_word32(out, *ino)?;
                put_word32(out, page.0)?;
                out.extend_from_slice(&count.to_be_bytes())
            }
            Change::Cut { ino, from } => {
                put_byte(out, 3)?;
                put_word32(out, *ino)?;
                put_word32(out, from.0)
            }
            Change::Create { dir, name } => put_named(out, 4, *dir, name),
            Change::Mkdir { dir, name } => put_named(out, 5, *dir, name),
            Change::Remove { dir, name } => put_named(out, 6, *dir, name),
            Change::Rename {
                dir,
                name,
                dir2,
                name2,
            } => {
                put_byte(out, 7)?;
                put_entry(out, *dir, name)?;
                put_entry(out, *dir2, name2)
            }
        }
    }
}
