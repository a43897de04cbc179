// Whether the names and the pages of a stable part can be told in messages.
ghost use Rattle.std.specs.Prelude.{◌≡◌, ◌≤◌, IfOk, true, false};
ghost use Rattle.std.specs.List.{list_all};
ghost use Rattle.st_server.specs.Invariants.{AreMapped, AreNamed, is_good_entry, is_good_extent};

use st_extents::Extents;
use st_namespace::Names;
use st_rules::{Extent, NameEntry};
use std::alloc::{AllocError, Global};

fn is_told_entry(entry: &NameEntry) -> bool
    ensures { result ≡ is_good_entry entry.now }
{
    let len = entry.name.len();
    entry.ino >= 1 && len >= 1 && len <= 64
}

fn are_told_entries(entries: &[NameEntry]) -> bool
    ensures { result ≡ list_all is_good_entry entries.now }
{
    entries.iter().all(|entry| is_told_entry(entry))
}

fn is_told_extent(extent: &Extent) -> bool
    ensures { result ≡ is_good_extent extent.now }
{
    let at = extent.at;
    // Read for its range: every birth can be told.
    let _birth = extent.birth;
    at.disk.0 >= 1 && at.disk.0 <= 8 && at.block <= 4095
}

fn are_told_extents(extents: &[Extent]) -> bool
    ensures { result ≡ list_all is_good_extent extents.now }
{
    extents.iter().all(|extent| is_told_extent(extent))
}

/// Whether names can be told in messages.
pub(crate) fn are_told_names(names: &Names) -> Result<bool, AllocError>
    ensures yes { IfOk result (λ b. b ≡ true → AreNamed names.now) }
    ensures no { IfOk result (λ b. b ≡ false → AreNamed names.now → ⊥) }
{
    let entries = names.rows()?;
    Ok(names.next_ino() >= 1 && are_told_entries(entries.as_slice()))
}

/// Whether pages can be told in messages. There are at most 8 disks of at most 4,096 blocks each.
pub(crate) fn are_told_pages(alloc: Global, extents: &Extents) -> Result<bool, AllocError>
    requires disks { extents.now.disks ≤ 8 }
    requires blocks { extents.now.blocks ≤ 4096 }
    ensures yes { IfOk result (λ b. b ≡ true → AreMapped extents.now) }
    ensures no { IfOk result (λ b. b ≡ false → AreMapped extents.now → ⊥) }
{
    let rows = extents.rows(alloc)?;
    Ok(are_told_extents(rows.as_slice()))
}
