ghost use Rattle.std.specs.Prelude.{◌≡◌, ◌≤◌, ◌<◌, ◌+◌, ◌^◌, ◌++◌, ◌∷◌, [], true, false, IfOk, IfSome, OnOk, Some, filter, if◌then◌else◌, length, map, nat_le, not, remove, slice_get};
ghost use Rattle.std.specs.List.{list_any};
ghost use Rattle.std.specs.Option.{option_copied, option_map_or, option_to_list};
ghost use Rattle.st_messages.specs.Ranges.{is_ask};
ghost use Rattle.st_rules.specs.ClientState as client_state;
ghost use Rattle.st_operations.specs.PendingOperations.{AreFit, TakesFirst, asks_sync, count_syncs, is_fit, marked, may_act, stuck};

use crate::asks::{is_sent, is_sync};
use crate::picks::MayAct;
use crate::stages::{Sending, Sticking};
use st_base::ServerId;
use st_messages::{AppAnswer, Ask, Output};
use st_rules::{Operation, Stage};
use st_tables::{Ordered, Test};
use std::alloc::{AllocError, Global};
use std::marker::Model;
use std::mem;

/// The pending operations of a client, in a slab. Contracts see the list of them, in the order in
/// which they came. A place is that of an operation in the list, from 0 on. The fields of each ask
/// are in their ranges.
#[derive(Drop)]
pub struct Operations {
    alloc: Global,
    rows: Ordered<Operation>,
    /// How many of the rows are syncs.
    syncs: usize,
}

impl Model for Operations {
    ghost use Rattle.std.specs.Prelude.{List};
    ghost use Rattle.st_rules.specs.declared.client.Operation.{Operation};

    ghost Value = { List Operation };

    ghost use Rattle.st_operations.specs.PendingOperations.{AreCounted};

    ghost view = { λ o. o.rows };

    ghost invariant = { λ o. AreCounted o.rows o.syncs };
}

/// One for a sync, and none for another operation.
fn count_one(operation: &Operation) -> usize
    ensures { result ≡ count_syncs (operation.now ∷ []) }
{
    if is_sync(&operation.ask) { 1 } else { 0 }
}

/// One if it is true, and otherwise none.
fn one_if(yes: bool) -> usize
    ensures { result ≡ (if yes then 1 else 0) }
{
    if yes { 1 } else { 0 }
}

fn push_answer(op: u32, answer: &AppAnswer, out: &mut Vec<Output>) -> Result<(), AllocError>
    ensures told { OnOk result (out.new.items ≡ out.old.items ++ Output.Answer op answer.now ∷ []) }
    ensures grows { length out.old.items ≤ length out.new.items }
{
    out.push(Output::Answer {
        op,
        answer: answer.copy()?,
    })?;
    Ok(())
}

/// Answers the operation, if it passes the test.
fn answer_row<T: Test<Operation>>(
    operation: &Operation,
    test: &T,
    answer: &AppAnswer,
    out: &mut Vec<Output>,
) -> Result<(), AllocError>
    ensures told { OnOk result (out.new.items ≡ out.old.items ++ map (client_state.answer_to answer.now) (filter (T.passes test.now) (operation.now ∷ []))) }
    ensures grows { length out.old.items ≤ length out.new.items }
{
    if test.test(operation) {
        push_answer(operation.op, answer, out)
    } else {
        Ok(())
    }
}

/// Answers the operation at a place, if it passes the test.
fn answer_at<T: Test<Operation>>(
    rows: &Ordered<Operation>,
    place: usize,
    test: &T,
    answer: &AppAnswer,
    out: &mut Vec<Output>,
) -> Result<(), AllocError>
    ensures told { OnOk result (out.new.items ≡ out.old.items ++ map (client_state.answer_to answer.now) (filter (T.passes test.now) (option_to_list (slice_get rows.now place)))) }
    ensures grows { length out.old.items ≤ length out.new.items }
{
    match rows.get(place) {
        None => Ok(()),
        Some(operation) => answer_row(operation, test, answer, out),
    }
}

/// Answers those that pass the test, in order.
fn answer_rows<T: Test<Operation>>(
    rows: &Ordered<Operation>,
    test: &T,
    answer: &AppAnswer,
    out: &mut Vec<Output>,
) -> Result<(), AllocError>
    ensures told { OnOk result (out.new.items ≡ out.old.items ++ map (client_state.answer_to answer.now) (filter (T.passes test.now) rows.now)) }
    ensures grows { length out.old.items ≤ length out.new.items }
{
    for i in 0..rows.len() {
        answer_at(rows, i, test, answer, out)?;
    }
    Ok(())
}

impl Operations {
    /// No operation is pending. It does not allocate.
    pub fn new(alloc: Global) -> Operations
        ensures { result ≡ [] }
    {
        Operations {
            alloc,
            rows: Ordered::new(alloc),
            syncs: 0,
        }
    }

    /// How many operations are pending.
    pub fn len(&self) -> usize
        ensures len { result ≡ length self.now }
        ensures small { result < 2 ^ 63 }
        ensures fit { AreFit self.now }
    {
        self.rows.len()
    }

    /// Whether no more operations may be pending: 16 are.
    pub fn is_full(&self) -> bool
        ensures { result ≡ nat_le 16 (length self.now) }
    {
        self.rows.len() >= 16
    }

    /// Whether a sync is pending. It looks at no operation.
    pub fn has_sync(&self) -> bool
        ensures { result ≡ list_any asks_sync self.now }
    {
        self.syncs > 0
    }

    /// The operation at a place.
    pub fn get(&self, place: usize) -> Option<&Operation>
        ensures found { option_copied result ≡ slice_get self.now place }
        ensures fit { IfSome result (λ o. is_fit o.now ≡ true) }
    {
        self.rows.get(place)
    }

    /// The operation stays pending, after the others.
    fn keep(&mut self, operation: Operation) -> Result<(), AllocError>
        requires { is_fit operation ≡ true }
        ensures { OnOk result (self.new ≡ self.old ++ operation ∷ []) }
    {
        let _len = self.len();
        let more = count_one(&operation);
        self.rows.push(operation)?;
        self.syncs += more;
        Ok(())
    }

    /// An operation that just came is pending, after the others.
    pub fn push(&mut self, op: u32, ask: Ask) -> Result<(), AllocError>
        requires { is_ask ask ≡ true }
        ensures { OnOk result (self.new ≡ self.old ++ client_state.new_operation op ask ∷ []) }
    {
        self.keep(Operation {
            op,
            ask,
            stage: Stage::Unsent,
        })
    }

    /// One if the operation at a place passes the test, and otherwise none.
    fn count_at<T: Test<Operation>>(&self, place: usize, test: &T) -> usize
        ensures count { result ≡ length (filter (T.passes test.now) (option_to_list (slice_get self.now place))) }
        ensures few { result ≤ 1 }
    {
        match self.get(place) {
            None => 0,
            Some(operation) => one_if(test.test(operation)),
        }
    }

    /// How many pending operations pass the test.
    pub fn count<T: Test<Operation>>(&self, test: &T) -> usize
        ensures { result ≡ length (filter (T.passes test.now) self.now) }
    {
        let mut count = 0;
        for i in 0..self.len() {
            count += self.count_at(i, test);
        }
        count
    }

    /// Whether a pending operation passes the test.
    pub fn any<T: Test<Operation>>(&self, test: &T) -> bool
        ensures { result ≡ list_any (T.passes test.now) self.now }
    {
        self.rows.any(test)
    }

    /// Whether a pending operation may do something at a server: each of its own, or only its
    /// syncs. If only syncs may, and none is pending, it looks at no operation.
    pub fn any_may_act(&self, server: ServerId, all: bool) -> bool
        ensures { result ≡ list_any (may_act server all) self.now }
    {
        (all || self.has_sync()) && self.any(&MayAct { server, all })
    }

    /// Takes out all operations. It does not allocate.
    pub fn take_all(&mut self) -> Operations
        ensures taken { result ≡ self.old }
        ensures left { self.new ≡ [] }
    {
        let alloc = self.alloc;
        mem::replace(self, Operations::new(alloc))
    }

    /// Takes out the operation at a place. It does not allocate.
    fn take(&mut self, place: usize) -> Operation
        requires { place < length self.old }
        ensures taken { Some result ≡ slice_get self.old place }
        ensures left { self.new ≡ remove self.old place }
        ensures fit { AreFit self.old }
    {
        let operation = self.rows.take(place);
        self.syncs -= count_one(&operation);
        operation
    }

    /// Takes out the first operation. `None` exactly if there is none. It does not allocate.
    pub fn take_first(&mut self) -> Option<Operation>
        ensures taken { TakesFirst self.old result self.new }
        ensures fit { IfSome result (λ o. is_fit o ≡ true) }
    {
        if self.rows.len() == 0 {
            None
        } else {
            Some(self.take(0))
        }
    }

    /// The operation at a place is no longer pending. It does not allocate.
    pub fn remove(&mut self, place: usize)
        requires { place < length self.old }
        ensures { self.new ≡ remove self.old place }
    {
        let _operation = self.take(place);
    }

    /// The operation goes after the picked ones if it passes the test, and otherwise after those
    /// that stay.
    fn sort<T: Test<Operation>>(
        &mut self,
        test: &T,
        operation: Operation,
        picked: &mut Operations,
    ) -> Result<(), AllocError>
        requires { is_fit operation ≡ true }
        ensures left { OnOk result (self.new ≡ self.old ++ filter (λ o. not (T.passes test.now o)) (operation ∷ [])) }
        ensures picked { OnOk result (picked.new ≡ picked.old ++ filter (T.passes test.now) (operation ∷ [])) }
    {
        if test.test(&operation) {
            picked.keep(operation)
        } else {
            self.keep(operation)
        }
    }

    /// Takes out the operations that pass the test.
    pub fn split<T: Test<Operation>>(&mut self, test: &T) -> Result<Operations, AllocError>
        ensures taken { IfOk result (λ picked. picked ≡ filter (T.passes test.now) self.old) }
        ensures left { OnOk result (self.new ≡ filter (λ o. not (T.passes test.now o)) self.old) }
    {
        let mut picked = Operations::new(self.alloc);
        let mut rest = self.take_all();
        while let Some(operation) = rest.take_first() {
            self.sort(test, operation, &mut picked)?;
        }
        Ok(picked)
    }

    /// Whether the operation at a place fails the test.
    fn fails<T: Test<Operation>>(&self, place: usize, test: &T) -> bool
        ensures { result ≡ option_map_or (λ o. not (T.passes test.now o)) (slice_get self.now place) false }
    {
        match self.get(place) {
            Some(operation) => !test.test(operation),
            None => false,
        }
    }

    /// The operation at a place stays if it fails the test, and otherwise is no longer pending.
    /// Returns the place of the next one.
    fn sift<T: Test<Operation>>(&mut self, place: usize, test: &T) -> usize
        requires { place < length self.old }
        ensures left { self.new ≡ (if option_map_or (λ o. not (T.passes test.now o)) (slice_get self.old place) false then self.old else remove self.old place) }
        ensures next { result ≡ (if option_map_or (λ o. not (T.passes test.now o)) (slice_get self.old place) false then place + 1 else place) }
    {
        let _len = self.len();
        if self.fails(place, test) {
            place + 1
        } else {
            self.remove(place);
            place
        }
    }

    /// The operations that pass the test are no longer pending. It does not allocate.
    fn drop_each<T: Test<Operation>>(&mut self, test: &T)
        ensures { self.new ≡ filter (λ o. not (T.passes test.now o)) self.old }
    {
        let count = self.len();
        let mut place = 0;
        for _i in 0..count {
            place = self.sift(place, test);
        }
    }

    /// Answers the operations that pass the test, in order, after the outputs so far; they are no
    /// longer pending.
    pub fn answer_each<T: Test<Operation>>(
        &mut self,
        test: &T,
        answer: &AppAnswer,
        out: &mut Vec<Output>,
    ) -> Result<(), AllocError>
        ensures left { OnOk result (self.new ≡ filter (λ o. not (T.passes test.now o)) self.old) }
        ensures told { OnOk result (out.new.items ≡ out.old.items ++ map (client_state.answer_to answer.now) (filter (T.passes test.now) self.old)) }
        ensures grows { length out.old.items ≤ length out.new.items }
    {
        answer_rows(&self.rows, test, answer, out)?;
        self.drop_each(test);
        Ok(())
    }

    /// The operation of the server's outstanding request is stuck, if it is still pending.
    pub fn leave_stuck(&mut self, server: ServerId) -> Result<(), AllocError>
        ensures { OnOk result (self.new ≡ map (stuck server) self.old) }
    {
        self.rows.change_each(&Sticking { server });
        Ok(())
    }

    /// The request of the operation at a place was sent.
    pub fn mark_sent(&mut self, place: usize) -> Result<(), AllocError>
        ensures { OnOk result (self.new ≡ marked place self.old) }
    {
        self.rows.change(place, &Sending);
        Ok(())
    }

    fn keep_copy(&mut self, operation: &Operation) -> Result<(), AllocError>
        requires { is_fit operation.now ≡ true }
        ensures { OnOk result (self.new ≡ self.old ++ filter client_state.is_sent (operation.now ∷ [])) }
    {
        if is_sent(operation) {
            self.keep(operation.copy()?)
        } else {
            Ok(())
        }
    }

    /// A copy of the operation at a place of the others stays pending, if its request was sent.
    fn keep_copy_at(&mut self, others: &Operations, place: usize) -> Result<(), AllocError>
        ensures { OnOk result (self.new ≡ self.old ++ filter client_state.is_sent (option_to_list (slice_get others.now place))) }
    {
        match others.get(place) {
            None => Ok(()),
            Some(operation) => self.keep_copy(operation),
        }
    }

    /// Copies of the operations whose request was sent. Pages are shared.
    pub fn copy_sent(&self) -> Result<Operations, AllocError>
        ensures { IfOk result (λ os. os ≡ filter client_state.is_sent self.now) }
    {
        let mut found = Operations::new(self.alloc);
        for i in 0..self.len() {
            found.keep_copy_at(self, i)?;
        }
        Ok(found)
    }
}
