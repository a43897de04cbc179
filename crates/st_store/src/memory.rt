// The store in memory.
ghost use Rattle.std.specs.Prelude.{◌≡◌, ◌≤◌, ◌+◌, true, false, IfOk, OnOk, length, take, drop};
ghost use Rattle.st_link.specs.Causes.{HasCause};
ghost use Rattle.st_store.specs.InMemory as memory;
ghost use Rattle.st_store.specs.Laws as laws;
ghost use Rattle.st_store.specs.Plans as plans;
ghost use Rattle.st_store.specs.Store.{Elapses, Follows, IsWithin, Only, Torn, written};

use crate::contents::Contents;
use crate::history::StoreCall;
use crate::plan::{Outcome, Plan};
use crate::store::Store;
use st_link::Failed;
use std::alloc::{AllocError, Global};
use std::marker::Model;

/// A store in memory, which keeps a record of its writes and syncs. Some of its calls fail by a
/// list, and it can be stopped as by a crash. Contracts see its contents and its record, which of
/// its calls fail, and whether it found no memory for a record.
#[derive(Drop)]
pub struct MemoryStore {
    contents: Contents,
    plan: Plan,
    starved: bool,
}

impl Model for MemoryStore {
    ghost use Rattle.st_store.specs.InMemory as memory;

    ghost Value = { memory.InMemory };

    ghost view = { λ s. record { contents = s.contents; plan = s.plan; starved = s.starved } };
}

impl MemoryStore {
    /// A store of `size` zeros. The calls of `read`, `write` and `sync` are numbered from 1, and
    /// those whose numbers are in `fails` fail and change nothing. No stop is set.
    pub fn new(alloc: Global, size: u64, fails: Vec<u64>) -> Result<MemoryStore, AllocError>
        ensures { IfOk result (λ s. s ≡ record { contents = memory.fresh_contents size; plan = plans.fresh fails; starved = false }) }
    {
        Ok(MemoryStore {
            contents: Contents::new(alloc, size)?,
            plan: Plan::new(fails),
            starved: false,
        })
    }

    /// Whether a write or a sync found no memory for its record. Such a call fails and changes no
    /// byte.
    pub fn starved(&self) -> bool
        ensures { result ≡ self.now.starved }
    {
        self.starved
    }

    /// The bytes.
    pub fn as_slice(&self) -> &[u8]
        ensures { result.now ≡ (memory.held self.now.contents).seen }
    {
        self.contents.as_slice()
    }

    /// The writes and syncs that were done, the oldest first.
    pub fn history(&self) -> &[StoreCall]
        ensures { result.now ≡ self.now.contents.history }
    {
        self.contents.history()
    }

    /// Sets a stop, in place of an earlier one. Calls are counted from 1 from now on. In the call
    /// of that number its own write is done first; then each byte that was written since the last
    /// sync becomes `byte`. This call and every later one fail until `restart`.
    pub fn stop(&mut self, call: u64, byte: u8)
        ensures { self.new ≡ record self.old { plan = plans.with_stop self.old.plan call byte } }
    {
        self.plan.stop(call, byte);
    }

    /// Takes the stop out, and leaves the bytes.
    pub fn restart(&mut self)
        ensures { self.new ≡ record self.old { plan = plans.restarted self.old.plan } }
    {
        self.plan.restart();
    }

    /// Counts a failed call.
    fn fail(&mut self) -> Failed
        ensures exact { self.new ≡ record self.old { plan = plans.failed self.old.plan } }
        ensures later { self.old.plan.faults ≤ self.new.plan.faults }
    {
        self.plan.fail()
    }

    /// Counts a failed call that found no memory for its record.
    fn starve(&mut self) -> Failed
        ensures exact { self.new ≡ record self.old { plan = plans.failed self.old.plan; starved = true } }
        ensures later { self.old.plan.faults ≤ self.new.plan.faults }
    {
        self.starved = true;
        self.plan.fail()
    }

    /// The store stops: each unsynced byte becomes this one.
    fn halt(&mut self, byte: u8) -> Failed
        ensures exact { self.new ≡ record self.old { contents = memory.with_fill self.old.contents byte; plan = plans.halted (plans.failed self.old.plan) } }
        ensures later { self.old.plan.faults ≤ self.new.plan.faults }
    {
        self.contents.fill(byte);
        let failed = self.plan.fail();
        self.plan.halt();
        failed
    }

    /// Reads. The clauses of the trait follow from `exact`, by the result.
    fn read_bytes(&mut self, at: u64, room: &mut [u8]) -> Result<(), Failed>
        requires { at + length room.old ≤ self.old.contents.size }
        ensures bytes { OnOk result (room.new ≡ take (length room.old) (drop at (memory.held self.old.contents).seen)) }
        ensures exact { memory.Reads self.old self.new result }
        ensures later { self.old.plan.faults ≤ self.new.plan.faults }
    {
        match self.plan.call() {
            Outcome::Works => {
                self.contents.read(at, room);
                Ok(())
            }
            Outcome::Fails => Err(self.fail()),
            Outcome::Stops(byte) => Err(self.halt(byte)),
        }
    }

    /// Writes. The clauses of the trait follow from `exact`, by the result.
    fn write_bytes(&mut self, at: u64, bytes: &[u8]) -> Result<(), Failed>
        requires { at + length bytes.now ≤ self.old.contents.size }
        ensures exact { memory.Writes self.old self.new at bytes.now result }
        ensures later { self.old.plan.faults ≤ self.new.plan.faults }
    {
        match self.plan.call() {
            Outcome::Works => match self.contents.write(at, bytes) {
                Ok(()) => Ok(()),
                Err(_) => Err(self.starve()),
            },
            Outcome::Fails => Err(self.fail()),
            Outcome::Stops(byte) => match self.contents.write(at, bytes) {
                Ok(()) => Err(self.halt(byte)),
                Err(_) => {
                    let failed = self.starve();
                    self.plan.halt();
                    Err(failed)
                }
            },
        }
    }

    /// Syncs. The clauses of the trait follow from `exact`, by the result.
    fn sync_bytes(&mut self) -> Result<(), Failed>
        ensures exact { memory.Syncs self.old self.new result }
        ensures later { self.old.plan.faults ≤ self.new.plan.faults }
    {
        match self.plan.call() {
            Outcome::Works => match self.contents.sync() {
                Ok(()) => Ok(()),
                Err(_) => Err(self.starve()),
            },
            Outcome::Fails => Err(self.fail()),
            Outcome::Stops(byte) => Err(self.halt(byte)),
        }
    }
}

impl Store for MemoryStore {
    ghost seen = { λ s. (memory.held s.contents).seen };

    ghost may_leave = { λ s c. memory.MayLeave (memory.recorded s.contents) c };

    ghost moment = { λ s. length s.contents.history };

    ghost left_since = { λ s t c. memory.LeftSince s.contents t c };

    ghost faults = { λ s. s.plan.faults };

    ghost writes = { λ s at bytes r t. memory.Writes s t at bytes r };

    ghost syncs = { λ s r t. memory.Syncs s t r };

    ghost keeps = { λ s t. memory.Keeps s t };

    fn size(&self) -> u64
        ensures size { result ≡ self.now.contents.size }
        ensures seen { result ≡ length (memory.held self.now.contents).seen }
    {
        self.contents.len()
    }

    /// A read that works changes nothing but the count of calls.
    fn read(&mut self, at: u64, room: &mut [u8]) -> Result<(), Failed>
        requires { at + length room.old ≤ length (memory.held self.old.contents).seen }
        ensures bytes { OnOk result (room.new ≡ take (length room.old) (drop at (memory.held self.old.contents).seen)) }
        ensures exact { memory.Reads self.old self.new result }
        ensures seen { OnOk result ((memory.held self.new.contents).seen ≡ (memory.held self.old.contents).seen) }
        ensures crash { IsWithin (memory.MayLeave (memory.recorded self.old.contents)) (memory.MayLeave (memory.recorded self.new.contents)) }
        ensures time { Elapses (length self.old.contents.history) (length self.new.contents.history) (memory.LeftSince self.old.contents) (memory.LeftSince self.new.contents) (memory.MayLeave (memory.recorded self.new.contents)) }
        ensures kept { memory.Keeps self.old self.new }
        ensures cause { HasCause self.old.plan.faults self.new.plan.faults result }
    {
        self.read_bytes(at, room)
    }

    /// A write that works is recorded. If it runs out of memory for the record, it fails and
    /// changes no byte, and from then on the store is starved.
    fn write(&mut self, at: u64, bytes: &[u8]) -> Result<(), Failed>
        requires { at + length bytes.now ≤ length (memory.held self.old.contents).seen }
        ensures exact { memory.Writes self.old self.new at bytes.now result }
        ensures bytes { OnOk result ((memory.held self.new.contents).seen ≡ written (memory.held self.old.contents).seen at bytes.now) }
        ensures crash { Follows (Torn at (length bytes.now)) (memory.MayLeave (memory.recorded self.old.contents)) (memory.MayLeave (memory.recorded self.new.contents)) }
        ensures time { Elapses (length self.old.contents.history) (length self.new.contents.history) (memory.LeftSince self.old.contents) (memory.LeftSince self.new.contents) (memory.MayLeave (memory.recorded self.new.contents)) }
        ensures kept { memory.Keeps self.old self.new }
        ensures cause { HasCause self.old.plan.faults self.new.plan.faults result }
    {
        self.write_bytes(at, bytes)
    }

    /// A sync that works is recorded. If it runs out of memory for the record, it fails, and from
    /// then on the store is starved.
    fn sync(&mut self) -> Result<(), Failed>
        ensures exact { memory.Syncs self.old self.new result }
        ensures durable { OnOk result (Only (memory.held self.old.contents).seen (memory.MayLeave (memory.recorded self.new.contents))) }
        ensures seen { OnOk result ((memory.held self.new.contents).seen ≡ (memory.held self.old.contents).seen) }
        ensures crash { IsWithin (memory.MayLeave (memory.recorded self.old.contents)) (memory.MayLeave (memory.recorded self.new.contents)) }
        ensures time { Elapses (length self.old.contents.history) (length self.new.contents.history) (memory.LeftSince self.old.contents) (memory.LeftSince self.new.contents) (memory.MayLeave (memory.recorded self.new.contents)) }
        ensures kept { memory.Keeps self.old self.new }
        ensures cause { HasCause self.old.plan.faults self.new.plan.faults result }
    {
        self.sync_bytes()
    }

    ghost stands = { λ s. laws.stands s.contents };

    ghost one_size = { λ s c left. laws.one_size s.contents c left };

    ghost counts_now = { λ s t c le left. laws.counts_now s.contents t c le left };

    ghost only_now = { λ s c left. laws.only_now s.contents c left };

    ghost keeps_all = { λ s. laws.keeps_all s };

    ghost keeps_on = { λ a b c ab bc. laws.keeps_on a b c ab bc };
}
