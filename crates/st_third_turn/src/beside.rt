ghost use Rattle.std.specs.Prelude.{◌≡◌};
ghost use Rattle.st_third.specs.State.{fresh_beside};

use crate::owed_uses::OwedUses;
use st_base::Stamp;
use std::alloc::Global;
use std::marker::Model;

/// What a client has beside an association: the uses that files owe, how many pages its next run
/// may have, and when the server refused a lock as too many.
#[derive(Drop)]
pub struct Beside {
    pub(crate) owed: OwedUses,
    pub(crate) run: u64,
    pub(crate) full: Option<Stamp>,
}

impl Model for Beside {
    ghost use Rattle.st_third.specs.State as third;

    ghost Value = { third.Beside };

    ghost view = { λ b. record { owed = b.owed; run = b.run; full = b.full } };
}

impl Beside {
    /// Beside a session that begins. It does not allocate.
    pub fn fresh(alloc: Global) -> Beside
        ensures { result ≡ fresh_beside }
    {
        Beside {
            owed: OwedUses::new(alloc),
            run: 64,
            full: None,
        }
    }
}
