ghost use Rattle.std.specs.Prelude.{◌≡◌, ◌≤◌, ◌<◌, ℕ, IfOk, drop, filter, get_or, length, map, take};
ghost use Rattle.st_rules.specs.declared.names.NameEntry.{NameEntry};
ghost use Rattle.st_rules.specs.Names as names;
ghost use Rattle.st_namespace.specs.StoredEntries.{AreByName};

use st_base::NameRow;
use st_rules::NameEntry;
use std::alloc::{AllocError, Global};

fn row_of(entry: &NameEntry) -> Result<NameRow, AllocError>
    ensures { IfOk result (λ r. r ≡ names.name_row entry.now) }
{
    Ok(NameRow {
        ino: entry.ino,
        directory: entry.directory,
        name: entry.name.copy()?,
    })
}

/// The first 256 entries of a directory from a place on. From there on no entry is in a lower
/// directory.
pub fn rows_from(
    alloc: Global,
    sorted: &[NameEntry],
    start: usize,
    dir: u32,
) -> Result<Vec<NameRow>, AllocError>
    requires order { AreByName sorted.now }
    requires start { start ≤ length sorted.now }
    requires ahead { (j : ℕ) (d : NameEntry) → start ≤ j → j < length sorted.now → dir ≤ (get_or sorted.now j d).dir }
    ensures { IfOk result (λ v. v.items ≡ take 256 (map names.name_row (filter (names.is_in dir) (drop start sorted.now)))) }
{
    let mut rows = Vec::new(alloc);
    for place in start..sorted.len() {
        let entry = &sorted[place];
        if rows.len() >= 256 {
            return Ok(rows);
        }
        if entry.dir != dir {
            return Ok(rows);
        }
        rows.push(row_of(entry)?)?;
    }
    Ok(rows)
}
