// What files owe, and to which operations a file is open.
ghost use Rattle.std.specs.Prelude.{◌≡◌, Some};
ghost use Rattle.st_client_association.specs.Turns.{session_of};
ghost use Rattle.st_rules.specs.ClientState as client;
ghost use Rattle.st_third.specs.UsedOnce as used_once;

use crate::step::SessionStep;
use st_client_association::is_busy;
use st_client_passes::{may_reduce, need};
use st_operations::{Operations, Test, file_of, is_cut_or_name, is_sent};
use st_rules::Operation;
use st_third::OwedUse;

/// The operation of a number, if it was not sent.
#[derive(Clone, Copy)]
struct DueUse {
    op: u32,
}

impl Test<Operation> for DueUse {
    ghost use Rattle.st_third.specs.UsedOnce.{is_due_use};

    ghost passes = { λ t o. is_due_use t.op o };

    fn test(&self, operation: &Operation) -> bool {
        operation.op == self.op && !is_sent(operation)
    }
}

/// Whether the operation that is owed a use was neither sent nor answered.
fn is_due(operations: &Operations, owed: Option<OwedUse>) -> bool
    ensures { result ≡ used_once.is_due operations.now owed }
{
    match owed {
        None => false,
        Some(owed) => operations.any(&DueUse { op: owed.op }),
    }
}

/// Whether a use is owed to this operation.
fn is_owed_to(operation: &Operation, owed: Option<OwedUse>) -> bool
    ensures { result ≡ used_once.is_owed_to operation.now owed }
{
    match owed {
        None => false,
        Some(owed) => owed.op == operation.op,
    }
}

impl SessionStep {
    /// Whether the file owes a use.
    pub fn owes(&self, ino: u32) -> bool
        ensures { result ≡ used_once.owes self.now.plain.operations self.now.beside.owed ino }
    {
        is_due(
            self.turn.turn().operations(),
            self.aside.beside.owed.get(ino),
        )
    }

    /// Whether the file owes a use to another operation.
    fn owes_another(&self, ino: u32, operation: &Operation) -> bool
        ensures { result ≡ used_once.owes_another self.now.plain.operations self.now.beside.owed ino operation.now }
    {
        self.owes(ino) && !is_owed_to(operation, self.aside.beside.owed.get(ino))
    }

    /// Whether the file is not busy by these operations, and is not demanded or owes this operation
    /// a use.
    fn is_open_to(&self, all: &Operations, operation: &Operation, ino: u32) -> bool
        ensures { result ≡ used_once.is_open_to all.now self.now (session_of self.now.plain) operation.now ino }
    {
        !is_busy(all, self.server(), self.session(), ino)
            && (!self.session().is_demanded(ino)
                || is_owed_to(operation, self.aside.beside.owed.get(ino)))
    }

    /// Whether the operation's file is open to it, or it has none.
    pub fn is_open(&self, all: &Operations, operation: &Operation) -> bool
        ensures { result ≡ used_once.is_open all.now self.now (session_of self.now.plain) operation.now (client.file_of operation.now.ask) }
    {
        match file_of(&operation.ask) {
            None => true,
            Some(ino) => self.is_open_to(all, operation, ino),
        }
    }

    /// Whether a cut or a remove under a sufficient lock waits for its file.
    fn waits_for_use_of(&self, operation: &Operation, ino: u32) -> bool
        ensures { result ≡ used_once.waits_for_use self.now (session_of self.now.plain) operation.now (Some ino) }
    {
        is_cut_or_name(&operation.ask)
            && (self.session().mode(ino).covers(need(&operation.ask))
                && self.owes_another(ino, operation))
    }

    /// Whether a cut or a remove under a sufficient lock waits while its file owes another
    /// operation a use.
    pub fn waits_for_use(&self, operation: &Operation) -> bool
        ensures { result ≡ used_once.waits_for_use self.now (session_of self.now.plain) operation.now (client.file_of operation.now.ask) }
    {
        match file_of(&operation.ask) {
            None => false,
            Some(ino) => self.waits_for_use_of(operation, ino),
        }
    }

    /// Whether the file has no dirty page and no outstanding command, isn't busy, and owes no use.
    pub fn may_reduce(&self, ino: u32) -> bool
        ensures { result ≡ used_once.may_reduce self.now (session_of self.now.plain) ino }
    {
        may_reduce(self.turn.turn(), self.session(), ino) && !self.owes(ino)
    }
}
