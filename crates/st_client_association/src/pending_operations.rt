// The pending operations.
ghost use Rattle.std.specs.Prelude.{◌≡◌, ◌≤◌, ◌++◌, [], true, IfOk, OnOk, filter, length, map, not};
ghost use Rattle.st_client_association.specs.Syncs.{is_hard_sync, is_hard_sync_of};
ghost use Rattle.st_messages.specs.declared.answer.AppAnswer.TheVariants as answers;
ghost use Rattle.st_messages.specs.Ranges.{is_ask};
ghost use Rattle.st_rules.specs.ClientReplies as replies;
ghost use Rattle.st_rules.specs.ClientState as client;

use crate::session_turn::SessionTurn;
use crate::turn::Turn;
use st_base::ServerId;
use st_client_store::Store;
use st_messages::{AppAnswer, Ask, Output};
use st_operations::{Operations, Test, is_of};
use st_rules::Operation;
use std::alloc::AllocError;

/// The syncs at a server of files that are hard there.
#[derive(Clone, Copy)]
struct HardSync<'a> {
    server: ServerId,
    store: &'a Store,
}

/// Whether it is a sync of a file without a dirty page and without an outstanding write.
fn is_hard_sync(store: &Store, ask: &Ask) -> bool
    ensures { result ≡ is_hard_sync store.now.store ask.now }
{
    match ask {
        Ask::Sync(file) => store.is_hard(file.ino),
        _ => false,
    }
}

impl<'a> Test<Operation> for HardSync<'a> {
    ghost use Rattle.st_client_association.specs.Syncs.{is_hard_sync_of};

    ghost passes = { λ t o. is_hard_sync_of t.server t.store.now.store o };

    fn test(&self, operation: &Operation) -> bool {
        is_of(self.server, operation) && is_hard_sync(self.store, &operation.ask)
    }
}

/// Answers the syncs at a server of files that are hard there, in order. They are no longer
/// pending.
fn answer_hard(
    server: ServerId,
    store: &Store,
    operations: &mut Operations,
    out: &mut Vec<Output>,
) -> Result<(), AllocError>
    ensures left { OnOk result (operations.new ≡ filter (λ o. not (is_hard_sync_of server store.now.store o)) operations.old) }
    ensures told { OnOk result (out.new.items ≡ out.old.items ++ map (client.answer_to answers.Hard) (filter (is_hard_sync_of server store.now.store) operations.old)) }
    ensures grows { length out.old.items ≤ length out.new.items }
{
    operations.answer_each(&HardSync { server, store }, &AppAnswer::Hard, out)
}

impl SessionTurn {
    /// Takes out the pending operations. It does not allocate.
    pub fn take_operations(&mut self) -> Operations
        ensures { (result ≡ self.old.operations) × (self.new ≡ client.with_operations [] self.old) }
    {
        let turn = &mut self.turn;
        turn.operations.take_all()
    }

    /// These operations are pending.
    pub fn set_operations(&mut self, operations: Operations)
        ensures { self.new ≡ client.with_operations operations self.old }
    {
        let turn = &mut self.turn;
        turn.operations = operations;
    }

    /// One more answer, to an operation that is no longer pending.
    pub fn answer(&mut self, op: u32, answer: AppAnswer) -> Result<(), AllocError>
        ensures { OnOk result (self.new ≡ client.answered self.old op answer) }
    {
        let turn = &mut self.turn;
        turn.out.push(Output::Answer { op, answer })?;
        Ok(())
    }

    /// Answers the operations that pass the test, in order; they are no longer pending.
    #[tactic(auto, unfolding(st_rules::specs::ClientState::answer_each))]
    pub fn answer_each<T: Test<Operation>>(
        &mut self,
        test: &T,
        answer: &AppAnswer,
    ) -> Result<(), AllocError>
        ensures { OnOk result (self.new ≡ client.answer_each (T.passes test.now) answer.now self.old) }
    {
        let turn = &mut self.turn;
        turn.operations.answer_each(test, answer, &mut turn.out)
    }

    /// The operation of the request that ended is stuck, if it is still pending.
    #[tactic(auto, unfolding(st_rules::specs::ClientReplies::leave_stuck))]
    pub fn leave_stuck(&mut self) -> Result<(), AllocError>
        ensures { OnOk result (self.new ≡ replies.leave_stuck self.old) }
    {
        let turn = &mut self.turn;
        turn.operations.leave_stuck(turn.here.server)
    }
}

impl Turn {
    /// The pending operations, in order.
    pub fn operations(&self) -> &Operations
        ensures { result.now ≡ self.now.operations }
    {
        &self.operations
    }

    /// Takes out the operations that pass the test.
    pub fn split_operations<T: Test<Operation>>(
        &mut self,
        test: &T,
    ) -> Result<Operations, AllocError>
        ensures taken { IfOk result (λ os. os ≡ filter (T.passes test.now) self.old.operations) }
        ensures left { OnOk result (self.new ≡ client.with_operations (filter (λ o. not (T.passes test.now o)) self.old.operations) self.old) }
    {
        self.operations.split(test)
    }

    /// An operation that just came is pending, after the others.
    pub fn enqueue(&mut self, op: u32, ask: Ask) -> Result<(), AllocError>
        requires { is_ask ask ≡ true }
        ensures { OnOk result (self.new ≡ client.keep (client.new_operation op ask) self.old) }
    {
        self.operations.push(op, ask)
    }

    /// Answers the operations that pass the test, in order; they are no longer pending.
    #[tactic(auto, unfolding(st_rules::specs::ClientState::answer_each))]
    pub fn answer_each<T: Test<Operation>>(
        &mut self,
        test: &T,
        answer: &AppAnswer,
    ) -> Result<(), AllocError>
        ensures { OnOk result (self.new ≡ client.answer_each (T.passes test.now) answer.now self.old) }
    {
        self.operations.answer_each(test, answer, &mut self.out)
    }

    /// Answers the syncs of files without a dirty page and without an outstanding write, in order;
    /// they are no longer pending.
    #[tactic(auto, unfolding(st_rules::specs::ClientState::answer_each))]
    pub fn answer_hard_syncs(&mut self) -> Result<(), AllocError>
        ensures { OnOk result (self.new ≡ client.answer_each (is_hard_sync_of self.old.here.server self.old.here.store) answers.Hard self.old) }
    {
        let server = self.here.server;
        answer_hard(
            server,
            &self.here.store,
            &mut self.operations,
            &mut self.out,
        )
    }
}
