// A server with its containers and its lock table, and what an event does there.
ghost use Rattle.std.specs.Prelude.{◌≡◌, ◌≢◌, ◌≤◌, IfOk, OnOk, Some, length, true, if◌then◌else◌};
ghost use Rattle.std.specs.List.{list_all};
ghost use Rattle.st_lock_tables.specs.declared.refusal.LockRefusal.TheVariants as lock_refusals;
ghost use Rattle.st_move.specs.Conditions.{CanLock};
ghost use Rattle.st_move.specs.Containers as containers;
ghost use Rattle.st_move.specs.Network.{DoesAt, Refuses, with_containers};
ghost use Rattle.st_move.specs.World as worlds;

use crate::mover::Mover;
use crate::record::MoveMessage;
use crate::refusal::MoveRefusal;
use crate::update::Update;
use crate::world::MoveAnswer;
use st_base::{ClientId, Epoch, Life, Mode, ServerId};
use st_locks::{LockRefusal, LockTable};
use std::alloc::{AllocError, Global};

/// The client whose locks are asked for.
const ONE: ClientId = ClientId(1);

/// A server with its containers and its lock table.
#[derive(Drop)]
pub struct MoveSite {
    pub(crate) containers: Mover,
    pub(crate) locks: LockTable,
}

/// The answer to a call that is refused.
fn refused(refusal: MoveRefusal) -> Result<MoveAnswer, AllocError>
    ensures { IfOk result (λ a. Refuses refusal a) }
{
    match refusal {
        MoveRefusal::Memory => Err(AllocError),
        MoveRefusal::NoContainer(c) => Ok(MoveAnswer::Refused(MoveRefusal::NoContainer(c))),
        MoveRefusal::Absent => Ok(MoveAnswer::Refused(MoveRefusal::Absent)),
        MoveRefusal::Leaving(to) => Ok(MoveAnswer::Refused(MoveRefusal::Leaving(to))),
        MoveRefusal::Redirect(to, version) => {
            Ok(MoveAnswer::Refused(MoveRefusal::Redirect(to, version)))
        }
        MoveRefusal::Full(bytes) => Ok(MoveAnswer::Refused(MoveRefusal::Full(bytes))),
        MoveRefusal::Same => Ok(MoveAnswer::Refused(MoveRefusal::Same)),
    }
}

/// What is left of a lock that is refused: lack of memory, since what a lock needs rules out the
/// other refusals.
fn lock_refused(refusal: LockRefusal) -> Result<(), AllocError>
    ensures { OnOk result (refusal ≢ lock_refusals.Memory) }
{
    match refusal {
        LockRefusal::Memory => Err(AllocError),
        LockRefusal::TooManyLocks => Ok(()),
        LockRefusal::Conflict(_, _) => Ok(()),
    }
}

/// Client 1 has a lock of the container.
fn acquire(locks: &mut LockTable, c: u32) -> Result<(), AllocError>
    requires { CanLock locks.old }
    ensures { OnOk result (locks.new ≡ worlds.locked locks.old c) }
{
    match locks.acquire(ONE, Life(1), c, Mode::X, true) {
        Ok(verdict) => {
            let _ = verdict;
            Ok(())
        }
        Err(refusal) => lock_refused(refusal),
    }
}

/// Client 1 has no lock of the container; false if it had none.
fn release(locks: &mut LockTable, c: u32) -> bool
    requires { CanLock locks.old }
    ensures had { result ≡ worlds.has_lock locks.old c }
    ensures rows { locks.new ≡ (if result then worlds.unlocked locks.old c else locks.old) }
{
    match locks.row(ONE, c) {
        None => false,
        Some((g, _)) => {
            // It finds the row: this is its grant number.
            let _found = locks.released(ONE, Life(1), c, g, Mode::None);
            true
        }
    }
}

impl MoveSite {
    /// A server as it begins: without locks, in epoch 1.
    pub(crate) fn new(
        alloc: Global,
        server: ServerId,
        servers: u16,
        containers: u32,
    ) -> Result<MoveSite, AllocError>
        requires { 1 ≤ servers }
        ensures { IfOk result (λ x. x ≡ worlds.fresh_site servers containers server.0) }
    {
        let locks = LockTable::new(alloc, server, Epoch(1));
        let containers = Mover::new(alloc, server, servers, containers)?;
        Ok(MoveSite { containers, locks })
    }

    /// An update is put.
    #[tactic(auto, unfolding(crate::specs::World::put_at, crate::specs::World::put_told))]
    pub(crate) fn put(&mut self, c: u32, update: &Update) -> Result<MoveAnswer, AllocError>
        ensures { IfOk result (λ a. DoesAt self.old self.new a (λ w s. worlds.put_at w s c update.now (Some self.old))) }
    {
        match self.containers.put(c, update.as_slice()) {
            Ok(updates) => Ok(MoveAnswer::Counted(updates)),
            Err(refusal) => refused(refusal),
        }
    }

    /// The updates are listed.
    pub(crate) fn list(&self, c: u32) -> Result<MoveAnswer, AllocError>
        ensures { IfOk result (λ a. DoesAt self.now self.now a (λ w s. worlds.list_at w s c (Some self.now))) }
    {
        match self.containers.list(c) {
            Ok(updates) => Ok(MoveAnswer::Listed(updates.copy()?)),
            Err(refusal) => refused(refusal),
        }
    }

    /// Client 1 asks for an exclusive lock of the container.
    pub(crate) fn lock(&mut self, c: u32) -> Result<MoveAnswer, AllocError>
        requires { CanLock self.old.locks }
        ensures { IfOk result (λ a. DoesAt self.old self.new a (λ w s. worlds.lock_at w s c (Some self.old))) }
    {
        match self.containers.may_change(c) {
            Ok(()) => {
                acquire(&mut self.locks, c)?;
                Ok(MoveAnswer::Done)
            }
            Err(refusal) => refused(refusal),
        }
    }

    /// Client 1 releases its lock of the container.
    pub(crate) fn unlock(&mut self, c: u32) -> MoveAnswer
        requires { CanLock self.old.locks }
        ensures { DoesAt self.old self.new result (λ w s. worlds.unlock_at w s c (Some self.old)) }
    {
        if release(&mut self.locks, c) {
            MoveAnswer::Done
        } else {
            MoveAnswer::NoLock
        }
    }

    /// The container must move to another server, which exists.
    pub(crate) fn order(&mut self, c: u32, to: ServerId) -> Result<MoveAnswer, AllocError>
        ensures { IfOk result (λ a. DoesAt self.old self.new a (λ w s. worlds.order_told w s self.old (containers.after_order self.old.containers c to))) }
    {
        match self.containers.order(c, to) {
            Ok(()) => Ok(MoveAnswer::Done),
            Err(refusal) => refused(refusal),
        }
    }

    /// The server's tick: what it sends, with the server that each message is for.
    pub(crate) fn tick(&mut self) -> Result<Vec<(ServerId, MoveMessage)>, AllocError>
        requires { list_all containers.has_next self.old.containers.records ≡ true }
        ensures site { OnOk result (self.new ≡ with_containers self.old (containers.after_tick self.old.containers self.old.locks)) }
        ensures sent { IfOk result (λ v. v.items ≡ containers.images (containers.after_tick self.old.containers self.old.locks)) }
    {
        self.containers.tick(&self.locks)
    }

    /// The server takes a message, and returns the answer to it.
    pub(crate) fn take(&mut self, message: &MoveMessage) -> Result<Option<MoveMessage>, AllocError>
        requires some { 1 ≤ containers.container_of message.now }
        requires known { containers.container_of message.now ≤ length self.old.containers.records }
        ensures site { OnOk result (self.new ≡ with_containers self.old (containers.after_take self.old.containers message.now)) }
        ensures answer { IfOk result (λ answer. answer ≡ containers.answer_to message.now) }
    {
        self.containers.take(message)
    }
}
