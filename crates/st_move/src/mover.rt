// The containers of one server, and the calls on them.
ghost use Rattle.std.specs.Prelude.{◌≡◌, ◌≤◌, ◌<◌, ◌^◌, ◌+◌, IfOk, IfErr, OnOk, OnErr, Ok, Err, Some, length, slice_get, true};
ghost use Rattle.std.specs.List.{list_all};
ghost use Rattle.st_move.specs.Calls.{Answers, Counts, IsPlace, count_at};
ghost use Rattle.st_move.specs.Containers as containers;
ghost use Rattle.st_move.specs.Updates.{is_update};

use crate::record::{
    ContainerRecord, ContainerState, MoveMessage, order_in, put_in, take_answer, take_image,
};
use crate::refusal::MoveRefusal;
use crate::ticks::{images, leaving, send};
use crate::updates::Updates;
use st_base::ServerId;
use st_locks::LockTable;
use std::alloc::{AllocError, Global};
use std::marker::Model;

/// The containers of one server. Contracts see its number and, by the number of each container from
/// 1, the record that it has of the container, if it has one.
#[derive(Drop)]
pub struct Mover {
    server: ServerId,
    records: Vec<Option<ContainerRecord>>,
}

impl Model for Mover {
    ghost use Rattle.std.specs.Prelude.{◌<◌, ◌^◌, length};
    ghost use Rattle.st_move.specs.Containers.{Containers};

    ghost Value = { Containers };

    ghost view = { λ m. record { server = m.server; records = m.records.items } };

    ghost invariant = { λ m. length m.records.items < 2 ^ 32 };
}

/// The record with which a container begins, by its place from 0.
#[tactic(auto, unfolding(crate::specs::Containers::beginning))]
fn beginning(alloc: Global, server: ServerId, servers: u16, place: u32) -> Option<ContainerRecord>
    requires { 1 ≤ servers }
    ensures { result ≡ containers.beginning server servers place }
{
    if place % servers as u32 + 1 == server.0 as u32 {
        Some(ContainerRecord {
            version: 1,
            state: ContainerState::Holding,
            updates: Updates::new(alloc),
        })
    } else {
        None
    }
}

/// The records with which containers begin.
fn beginnings(
    alloc: Global,
    server: ServerId,
    servers: u16,
    count: u32,
) -> Result<Vec<Option<ContainerRecord>>, AllocError>
    requires { 1 ≤ servers }
    ensures { IfOk result (λ v. v.items ≡ containers.beginnings server servers 0 count) }
{
    let mut records = Vec::new(alloc);
    for place in 0..count {
        records.push(beginning(alloc, server, servers, place))?;
    }
    Ok(records)
}

impl Mover {
    /// The containers 1 to `count` as they begin: container c is held by server
    /// `1 + (c - 1) mod servers`, in version 1 and without updates. There is a server at least. It
    /// takes memory for a record of each container.
    pub fn new(
        alloc: Global,
        server: ServerId,
        servers: u16,
        count: u32,
    ) -> Result<Mover, AllocError>
        requires { 1 ≤ servers }
        ensures { IfOk result (λ m. m ≡ containers.fresh_containers server servers count) }
    {
        let records = beginnings(alloc, server, servers, count)?;
        Ok(Mover { server, records })
    }

    /// The place of a container among the records.
    fn place_of(&self, c: u32) -> Result<usize, MoveRefusal>
        ensures { IsPlace self.now.records c result }
    {
        if c == 0 || c as usize > self.records.len() {
            return Err(MoveRefusal::NoContainer(c));
        }
        Ok((c - 1) as usize)
    }

    /// The record of a container.
    #[tactic(auto, unfolding(crate::specs::Containers::found, crate::specs::Containers::found_at))]
    fn record(&self, c: u32) -> Result<&ContainerRecord, MoveRefusal>
        ensures ok { IfOk result (λ r. containers.found self.now.records c ≡ Ok r.now) }
        ensures err { IfErr result (λ e. containers.found self.now.records c ≡ Err e) }
    {
        let place = self.place_of(c)?;
        match &self.records[place] {
            None => Err(MoveRefusal::Absent),
            Some(record) => Ok(record),
        }
    }

    /// Whether the server serves the container: it holds it, and is not about to send it. It takes
    /// constant time.
    pub fn serves(&self, c: u32) -> bool
        ensures { result ≡ containers.serves self.now c }
    {
        match self.record(c) {
            Ok(record) => record.is_holding(),
            Err(_) => false,
        }
    }

    /// The updates of a container, also while it leaves. It takes constant time.
    ///
    /// # Errors
    /// `NoContainer`, `Absent` and `Redirect`.
    #[tactic(auto, unfolding(crate::specs::Containers::readable, crate::specs::Containers::updates_of))]
    pub fn list(&self, c: u32) -> Result<&Updates, MoveRefusal>
        ensures ok { IfOk result (λ us. containers.listed self.now c ≡ Ok us.now) }
        ensures err { IfErr result (λ e. containers.listed self.now c ≡ Err e) }
    {
        let record = self.record(c)?;
        record.may_list()?;
        Ok(&record.updates)
    }

    /// Whether a put or an order on the container may come now, and otherwise why it is refused.
    ///
    /// # Errors
    /// `NoContainer`, `Absent`, `Leaving` and `Redirect`.
    #[tactic(auto, unfolding(crate::specs::Containers::changeable))]
    pub fn may_change(&self, c: u32) -> Result<(), MoveRefusal>
        ensures ok { OnOk result (containers.serves self.now c ≡ true) }
        ensures err { IfErr result (λ e. containers.held self.now c ≡ Err e) }
    {
        let record = self.record(c)?;
        record.may_change()
    }

    /// Adds an update of 1 to 139 bytes, and returns the number of updates. It takes the time of a
    /// copy of the update, and each 32nd time that of a pointer for each 32 updates.
    ///
    /// # Errors
    /// `NoContainer`, `Absent`, `Leaving` and `Redirect`; `Full` if the updates would have more
    /// than 60,000 bytes; `Memory` if memory runs out. Then nothing changed.
    pub fn put(&mut self, c: u32, update: &[u8]) -> Result<u32, MoveRefusal>
        requires { is_update update.now ≡ true }
        ensures { Counts (count_at c) self.old self.new result (containers.after_put self.old c update.now) }
    {
        let place = self.place_of(c)?;
        put_in(&mut self.records[place], update)
    }

    /// The container must move to another server, as soon as nobody has a lock row of it.
    ///
    /// # Errors
    /// `NoContainer`, `Absent`, `Leaving` and `Redirect`; `Same` if the order would move it to
    /// this server. Then nothing changed.
    pub fn order(&mut self, c: u32, to: ServerId) -> Result<(), MoveRefusal>
        ensures { Answers self.old self.new result (containers.after_order self.old c to) }
    {
        let server = self.server;
        let place = self.place_of(c)?;
        order_in(&mut self.records[place], server, to)
    }

    /// Sends the containers that must leave and of which nobody has a lock row, and sends again
    /// those that were sent and aren't known to be taken, by rising container: each image with the
    /// server that it is for. It looks at every container. An image shares the container's updates,
    /// and takes constant time. No version is the last that a `u64` holds. If memory runs out,
    /// nothing changed.
    pub fn tick(&mut self, locks: &LockTable) -> Result<Vec<(ServerId, MoveMessage)>, AllocError>
        requires { list_all containers.has_next self.old.records ≡ true }
        ensures ok { OnOk result (self.new ≡ containers.after_tick self.old locks.now) }
        ensures sent { IfOk result (λ v. v.items ≡ containers.images self.new) }
        ensures err { OnErr result (self.new ≡ self.old) }
    {
        let alloc = *self.records.allocator();
        let leaving = leaving(alloc, locks, self.records.as_slice())?;
        let images = images(alloc, self.records.as_slice(), leaving.as_slice())?;
        send(self.records.as_mut_slice(), leaving.as_slice());
        Ok(images)
    }

    /// Takes a message on a container from 1 to the number of containers, and returns the answer to
    /// an image. It shares the updates of an image that it keeps. If memory runs out, nothing
    /// changed.
    #[tactic(auto, unfolding(crate::specs::Containers::taken_at))]
    pub fn take(&mut self, message: &MoveMessage) -> Result<Option<MoveMessage>, AllocError>
        requires some { 1 ≤ containers.container_of message.now }
        requires known { containers.container_of message.now ≤ length self.old.records }
        ensures ok { OnOk result (self.new ≡ containers.after_take self.old message.now) }
        ensures answer { IfOk result (λ answer. answer ≡ containers.answer_to message.now) }
        ensures err { OnErr result (self.new ≡ self.old) }
    {
        let alloc = *self.records.allocator();
        match message {
            MoveMessage::Image(c, version, updates) => {
                let place = (*c - 1) as usize;
                take_image(&mut self.records[place], *version, updates)?;
                Ok(Some(MoveMessage::Taken(*c, *version)))
            }
            MoveMessage::Taken(c, version) => {
                let place = (*c - 1) as usize;
                take_answer(&mut self.records[place], alloc, *version);
                Ok(None)
            }
        }
    }
}
