// The source and the sink in memory, whose calls fail by a list.
ghost use Rattle.std.specs.Prelude.{◌≡◌, ◌≤◌, ◌<◌, ◌↔◌, Some, [], IsTrue, IsErr, IfOk, OnOk, OnErr, Contains, length, min};
ghost use Rattle.std.specs.Io.{ReadsAtMost, WritesAtMost};
ghost use Rattle.std.specs.Io.KnownBytes.{ReadConsumes, WriteAppends};
ghost use Rattle.st_link.specs.Causes.{HasCause};
ghost use Rattle.st_link.specs.InMemory.{InMemory, raised};

use crate::link::{Failed, Sink, Source};
use crate::safe::SafeSource;
use std::alloc::Global;
use std::marker::Model;

// The number of calls so far, the numbers of the calls that fail, and the number of faults so far.
#[derive(Drop)]
pub(crate) struct Plan {
    pub(crate) calls: u64,
    pub(crate) failing: Vec<u64>,
    pub(crate) faults: u64,
}

impl Plan {
    pub(crate) fn new(failing: Vec<u64>) -> Plan
        ensures { result ≡ record { calls = 0; failing = failing; faults = 0 } }
    {
        Plan {
            calls: 0,
            failing,
            faults: 0,
        }
    }

    // Counts a call, and returns whether it must fail.
    pub(crate) fn call(&mut self) -> bool
        ensures calls { self.new.calls ≡ raised self.old.calls }
        ensures failing { self.new.failing ≡ self.old.failing }
        ensures faults { self.new.faults ≡ self.old.faults }
        ensures fails { IsTrue result ↔ Contains self.old.failing.items (raised self.old.calls) }
    {
        self.calls = self.calls.saturating_add(1);
        self.failing.contains(&self.calls)
    }

    // Counts a fault.
    pub(crate) fn fail(&mut self) -> Failed
        ensures calls { self.new.calls ≡ self.old.calls }
        ensures failing { self.new.failing ≡ self.old.failing }
        ensures faults { self.new.faults ≡ raised self.old.faults }
        ensures later { self.old.faults ≤ self.new.faults }
    {
        self.faults = self.faults.saturating_add(1);
        Failed
    }
}

/// A source over bytes in memory. The calls of `take` are numbered from 1, and those whose numbers
/// are in a list fail.
#[derive(Drop)]
pub struct MemorySource {
    rest: SafeSource,
    plan: Plan,
}

impl Model for MemorySource {
    ghost use Rattle.st_link.specs.InMemory.{InMemory};

    ghost Value = { InMemory };

    ghost view = { λ s. record { bytes = s.rest; calls = s.plan.calls; failing = s.plan.failing.items; faults = s.plan.faults } };
}

/// A sink that keeps what is written in memory. The calls of `put` are numbered from 1, and those
/// whose numbers are in a list fail. A call also fails if it runs out of memory.
#[derive(Drop)]
pub struct MemorySink {
    bytes: Vec<u8>,
    plan: Plan,
}

impl Model for MemorySink {
    ghost use Rattle.st_link.specs.InMemory.{InMemory};

    ghost Value = { InMemory };

    ghost view = { λ s. record { bytes = s.bytes.items; calls = s.plan.calls; failing = s.plan.failing.items; faults = s.plan.faults } };
}

impl MemorySource {
    /// Makes a source of these bytes, whose calls with these numbers fail.
    pub fn new(bytes: Vec<u8>, failing: Vec<u64>) -> MemorySource
        ensures { result ≡ record { bytes = bytes.items; calls = 0; failing = failing.items; faults = 0 } }
    {
        MemorySource {
            rest: SafeSource::new(bytes),
            plan: Plan::new(failing),
        }
    }
}

impl Source for MemorySource {
    ghost left = { λ s. Some s.bytes };

    ghost faults = { λ s. s.faults };

    /// It fails exactly if the number of the call is in the list. Otherwise it takes all bytes that
    /// are left, or as many of them as `room` can hold.
    fn take(&mut self, room: &mut [u8]) -> Result<usize, Failed>
        ensures bound { ReadsAtMost result room.new }
        ensures bytes { ReadConsumes (Some self.old.bytes) (Some self.new.bytes) result room.new }
        ensures cause { HasCause self.old.faults self.new.faults result }
        ensures planned { IsErr result ↔ Contains self.old.failing (raised self.old.calls) }
        ensures count { IfOk result (λ n. n ≡ min (length self.old.bytes) (length room.old)) }
        ensures calls { self.new.calls ≡ raised self.old.calls }
        ensures failing { self.new.failing ≡ self.old.failing }
        ensures ok_faults { OnOk result (self.new.faults ≡ self.old.faults) }
        ensures err_faults { OnErr result (self.new.faults ≡ raised self.old.faults) }
    {
        if self.plan.call() {
            return Err(self.plan.fail());
        }
        self.rest.take(room)
    }
}

impl MemorySink {
    /// Makes an empty sink, whose calls with these numbers fail.
    pub fn new(alloc: Global, failing: Vec<u64>) -> MemorySink
        ensures { result ≡ record { bytes = []; calls = 0; failing = failing.items; faults = 0 } }
    {
        MemorySink {
            bytes: Vec::new(alloc),
            plan: Plan::new(failing),
        }
    }

    /// Returns the bytes that were written.
    pub fn as_slice(&self) -> &[u8]
        ensures { result.now ≡ self.now.bytes }
    {
        self.bytes.as_slice()
    }
}

impl Sink for MemorySink {
    ghost written = { λ s. Some s.bytes };

    ghost faults = { λ s. s.faults };

    /// It fails if the number of the call is in the list, or if it runs out of memory. Otherwise it
    /// takes the whole piece.
    fn put(&mut self, piece: &[u8]) -> Result<usize, Failed>
        ensures bound { WritesAtMost result piece.now }
        ensures some { IfOk result (λ n. 0 < length piece.now → 0 < n) }
        ensures bytes { WriteAppends (Some self.old.bytes) (Some self.new.bytes) result piece.now }
        ensures cause { HasCause self.old.faults self.new.faults result }
        ensures planned { Contains self.old.failing (raised self.old.calls) → IsErr result }
        ensures whole { IfOk result (λ n. n ≡ length piece.now) }
        ensures calls { self.new.calls ≡ raised self.old.calls }
        ensures failing { self.new.failing ≡ self.old.failing }
        ensures ok_faults { OnOk result (self.new.faults ≡ self.old.faults) }
        ensures err_faults { OnErr result (self.new.faults ≡ raised self.old.faults) }
    {
        if self.plan.call() || self.bytes.extend_from_slice(piece).is_err() {
            return Err(self.plan.fail());
        }
        Ok(piece.len())
    }
}
