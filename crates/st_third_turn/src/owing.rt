// Owing: when a lock is installed, the first operation that it serves is owed a use of it.
ghost use Rattle.std.specs.Prelude.{◌≡◌, OnOk, find, slice_get};
ghost use Rattle.std.specs.Option.{option_map};
ghost use Rattle.st_third.specs.State.{op_of};
ghost use Rattle.st_third.specs.UsedOnce as used_once;
ghost use Rattle.st_third_turn.specs.Owing.{number_at};

use crate::activity::is_active;
use crate::step::SessionStep;
use st_base::{Mode, ServerId};
use st_client_passes::need;
use st_operations::{Operations, Test, file_of, is_file, is_of, is_sent, is_sync};
use st_rules::Operation;
use st_third::Leave;
use std::alloc::AllocError;

/// Whether the operation was not sent, isn't a sync, and needs no more than this mode.
fn is_covered(mode: Mode, operation: &Operation) -> bool
    ensures { result ≡ used_once.is_covered mode operation.now }
{
    !is_sent(operation) && (!is_sync(&operation.ask) && mode.covers(need(&operation.ask)))
}

/// The operations on this file that a lock of this mode serves and that no leave precedes.
#[derive(Clone, Copy)]
struct Served<'a> {
    server: ServerId,
    ino: u32,
    mode: Mode,
    leaves: &'a [Leave],
}

impl<'a> Test<Operation> for Served<'a> {
    ghost use Rattle.st_third_turn.specs.Owing.{is_served};

    ghost passes = { λ t o. is_served t.leaves.now t.server t.ino t.mode o };

    fn test(&self, operation: &Operation) -> bool {
        (is_of(self.server, operation) && is_file(self.ino, file_of(&operation.ask)))
            && (is_active(self.leaves, self.server, operation) && is_covered(self.mode, operation))
    }
}

/// The number of the operation at a place, if it passes the test.
fn number_at<T: Test<Operation>>(operations: &Operations, place: usize, test: &T) -> Option<u32>
    ensures { result ≡ number_at (T.passes test.now) (slice_get operations.now place) }
{
    match operations.get(place) {
        None => None,
        Some(operation) => {
            if test.test(operation) {
                Some(operation.op)
            } else {
                None
            }
        }
    }
}

/// The number of the first operation that passes the test.
pub fn first_number<T: Test<Operation>>(operations: &Operations, test: &T) -> Option<u32>
    ensures { result ≡ option_map op_of (find (T.passes test.now) operations.now) }
{
    for i in 0..operations.len() {
        match number_at(operations, i, test) {
            Some(op) => return Some(op),
            None => {}
        }
    }
    None
}

impl SessionStep {
    /// The number of the operation that is owed a use when the file is locked in this mode.
    fn served(&self, ino: u32, mode: Mode) -> Option<u32>
        ensures { result ≡ option_map op_of (find (used_once.may_be_owed self.now ino mode) self.now.plain.operations) }
    {
        let test = Served {
            server: self.server(),
            ino,
            mode,
            leaves: self.aside.leaves.as_slice(),
        };
        first_number(self.turn.turn().operations(), &test)
    }

    /// When a file is locked in this mode, it owes a use to the first operation that the lock
    /// serves, and to no other.
    #[tactic(auto, using(crate::proofs::Owed::owed_by), unfolding(st_third::specs::UsedOnce::owe))]
    pub(crate) fn owe(&mut self, ino: u32, mode: Mode) -> Result<(), AllocError>
        ensures { OnOk result (self.new ≡ used_once.owe self.old ino mode) }
    {
        let op = self.served(ino, mode);
        let aside = &mut self.aside;
        aside.beside.owed.owe(ino, op)
    }
}
