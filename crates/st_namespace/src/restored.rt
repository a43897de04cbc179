ghost use Rattle.std.specs.Prelude.{◌≡◌, ◌<◌, ◌++◌, ◌∷◌, [], ℕ, All, IfOk, IfErr, OnOk};
ghost use Rattle.st_namespace.specs.Restored.{AreRestored, ComesAfter, IsAgainst, IsRefused, names_of};

use crate::entries::Entries;
use st_rules::NameEntry;
use std::alloc::Global;

/// Why entries cannot be those of a server, or could not be restored.
#[derive(Clone, Copy, Debug, PartialEq, Eq)]
pub enum RestoreRefusal {
    /// The inodes of the entries do not rise.
    NotRising,
    /// An inode is not below the next one.
    NotYetGiven,
    /// A directory has a name twice.
    NameTwice,
    /// There are more inodes than may live.
    TooMany,
    /// There is not enough memory.
    Memory,
}

/// Adds an entry whose inode is `low` or higher, if it can be one of the server's. All inodes of
/// the others are below `low`.
fn add(entries: &mut Entries, row: &NameEntry, low: u32, next: u32) -> Result<(), RestoreRefusal>
    requires { All (λ e. e.ino < low) entries.old }
    ensures ok { OnOk result (entries.new ≡ entries.old ++ row.now ∷ []) }
    ensures fits { OnOk result (ComesAfter low next entries.old row.now) }
    ensures err { IfErr result (λ r. IsAgainst r low next entries.old row.now) }
{
    if row.ino < low {
        return Err(RestoreRefusal::NotRising);
    }
    if row.ino >= next {
        return Err(RestoreRefusal::NotYetGiven);
    }
    if entries.get(row.dir, row.name.as_slice()).is_some() {
        return Err(RestoreRefusal::NameTwice);
    }
    let Ok(row) = row.copy() else {
        return Err(RestoreRefusal::Memory);
    };
    let Ok(()) = entries.push(row) else {
        return Err(RestoreRefusal::Memory);
    };
    Ok(())
}

/// These entries, if they can be those of a server whose next inode is `next`.
pub fn restored(alloc: Global, rows: &[NameEntry], next: u32) -> Result<Entries, RestoreRefusal>
    ensures ok { IfOk result (λ es. es ≡ rows.now) }
    ensures sound { OnOk result ((low : ℕ) × AreRestored low next rows.now) }
    ensures err { IfErr result (λ r. (limit : ℕ) → IsRefused r (names_of rows.now next limit)) }
{
    let mut entries = Entries::new(alloc);
    let mut low = 0;
    for place in 0..rows.len() {
        let row = &rows[place];
        add(&mut entries, row, low, next)?;
        low = row.ino + 1;
    }
    Ok(entries)
}
