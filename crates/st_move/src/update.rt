// An update of a container.
ghost use Rattle.std.specs.Prelude.{◌≡◌, IfOk, true};
ghost use Rattle.st_move.specs.Updates as updates;

use std::alloc::{AllocError, Global};
use std::marker::Model;
use std::rc::Rc;

/// An update of a container: 1 to 139 bytes, which its copies share. Contracts see it as the list
/// of these bytes.
#[derive(Drop)]
pub struct Update {
    bytes: Rc<Vec<u8>>,
}

impl Model for Update {
    ghost use Rattle.std.specs.Prelude.{◌≡◌, List, ℕ, true};
    ghost use Rattle.st_move.specs.Updates.{is_update};

    ghost Value = { List ℕ };

    ghost view = { λ u. u.bytes.value.items };

    ghost invariant = { λ u. is_update u.bytes.value.items ≡ true };
}

impl Update {
    /// Makes an update of a copy of these bytes, which are 1 to 139.
    pub fn from_slice(alloc: Global, bytes: &[u8]) -> Result<Update, AllocError>
        requires { updates.is_update bytes.now ≡ true }
        ensures { IfOk result (λ u. u ≡ bytes.now) }
    {
        let bytes = Vec::from_slice(alloc, bytes)?;
        Ok(Update {
            bytes: Rc::new(alloc, bytes)?,
        })
    }

    /// Returns the bytes.
    pub fn as_slice(&self) -> &[u8]
        ensures bytes { result.now ≡ self.now }
        ensures length { updates.is_update self.now ≡ true }
    {
        self.bytes.as_slice()
    }

    /// Returns a copy of the update. It copies no bytes and allocates nothing.
    pub fn copy(&self) -> Result<Update, AllocError>
        ensures { IfOk result (λ u. u ≡ self.now) }
    {
        Ok(Update {
            bytes: self.bytes.clone()?,
        })
    }
}
