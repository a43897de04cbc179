ghost use Rattle.std.specs.Prelude.{◌≡◌, [], IfErr, OnOk};
ghost use Rattle.st_extents.specs.declared.restored.RestoreRefusal.TheVariants as refusals;
ghost use Rattle.st_extents.specs.Restored.{AreLaid, IsRefusedAt};

use crate::mapping::Mapping;
use st_rules::Extent;
use std::alloc::{AllocError, AllocFailed};

/// Why mapped pages cannot be those of a server, or could not be restored.
#[derive(Clone, Copy, Debug, PartialEq, Eq)]
pub enum RestoreRefusal {
    /// The births do not rise from 1 on, or one is above the number of births.
    WrongBirth,
    /// The page lies beyond the longest file.
    WrongPage,
    /// A page is mapped twice.
    PageTwice,
    /// The block is not on a disk of this server.
    NotOwn,
    /// A block has two pages.
    BlockTwice,
    /// There is not enough memory.
    Memory,
}

impl From<AllocError> for RestoreRefusal {
    ghost from_gives = { λ _ e. e ≡ refusals.Memory };

    fn from(_e: AllocError) -> RestoreRefusal {
        RestoreRefusal::Memory
    }
}

impl<T: Drop> From<AllocFailed<T>> for RestoreRefusal {
    ghost from_gives = { λ _ e. e ≡ refusals.Memory };

    fn from(_e: AllocFailed<T>) -> RestoreRefusal {
        RestoreRefusal::Memory
    }
}

/// Maps these pages one after another, each to its block and under its birth. Nothing is mapped
/// before.
pub fn lay_all(mapping: &mut Mapping, rows: &[Extent]) -> Result<(), RestoreRefusal>
    requires none { mapping.old.rows ≡ [] }
    requires zero { mapping.old.births ≡ 0 }
    ensures own { mapping.new.own ≡ mapping.old.own }
    ensures rows { OnOk result (mapping.new.rows ≡ rows.now) }
    ensures laid { OnOk result (AreLaid mapping.old.own mapping.new.births rows.now) }
    ensures err { IfErr result (λ r. IsRefusedAt r mapping.old.own rows.now) }
{
    for place in 0..rows.len() {
        mapping.lay(rows[place])?;
    }
    Ok(())
}
