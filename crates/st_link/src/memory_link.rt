// The link in memory, whose calls fail by a list.
ghost use Rattle.std.specs.Prelude.{◌≡◌, ◌<◌, ◌∷◌, ◌++◌, ◌↔◌, Some, [], IsErr, IfOk, OnOk, OnErr, Contains, length, min};
ghost use Rattle.std.specs.Io.{ReadsAtMost, WritesAtMost};
ghost use Rattle.std.specs.Io.KnownBytes.{ReadConsumes, WriteAppends};
ghost use Rattle.st_link.specs.Causes.{HasCause};
ghost use Rattle.st_link.specs.InMemory.{raised};
ghost use Rattle.st_link.specs.Names.{Attaches, MayAttach};

use crate::link::{Failed, Link, Sink, Source};
use crate::memory::Plan;
use crate::safe::SafeSource;
use std::alloc::{AllocError, Global};
use std::marker::Model;

/// A link over bytes in memory, which keeps what is written. The calls of `attach`, `take` and
/// `put` are numbered from 1, all together, and those whose numbers are in a list fail. A call that
/// keeps something also fails if it runs out of memory.
#[derive(Drop)]
pub struct MemoryLink {
    alloc: Global,
    rest: SafeSource,
    bytes: Vec<u8>,
    names: Vec<Vec<u8>>,
    plan: Plan,
}

impl Model for MemoryLink {
    ghost use Rattle.std.specs.Prelude.{map};
    ghost use Rattle.st_link.specs.InMemory as shown;

    ghost Value = { shown.MemoryLink };

    ghost view = { λ l. record {
      left = l.rest;
      written = l.bytes.items;
      names = map (λ n. n.items) l.names.items;
      calls = l.plan.calls;
      failing = l.plan.failing.items;
      faults = l.plan.faults;
    } };
}

impl MemoryLink {
    /// Makes a link from which these bytes come, whose calls with these numbers fail.
    pub fn new(alloc: Global, bytes: Vec<u8>, failing: Vec<u64>) -> MemoryLink
        ensures { result ≡ record { left = bytes.items; written = []; names = []; calls = 0; failing = failing.items; faults = 0 } }
    {
        MemoryLink {
            alloc,
            rest: SafeSource::new(bytes),
            bytes: Vec::new(alloc),
            names: Vec::new(alloc),
            plan: Plan::new(failing),
        }
    }

    /// Returns the bytes that were written.
    pub fn as_slice(&self) -> &[u8]
        ensures { result.now ≡ self.now.written }
    {
        self.bytes.as_slice()
    }

    /// Returns the number of names that it was attached at.
    pub fn attached(&self) -> usize
        ensures { result ≡ length self.now.names }
    {
        self.names.len()
    }

    // Keeps a name.
    fn keep(&mut self, name: &str) -> Result<(), AllocError>
        ensures ok { OnOk result (self.new ≡ record self.old { names = self.old.names ++ name.now ∷ [] }) }
        ensures err { OnErr result (self.new ≡ self.old) }
    {
        let kept = Vec::from_slice(self.alloc, name.as_bytes())?;
        self.names.push(kept)?;
        Ok(())
    }
}

impl Source for MemoryLink {
    ghost left = { λ l. Some l.left };

    ghost faults = { λ l. l.faults };

    /// It fails exactly if the number of the call is in the list. Otherwise it takes all bytes that
    /// are left, or as many of them as `room` can hold.
    fn take(&mut self, room: &mut [u8]) -> Result<usize, Failed>
        ensures bound { ReadsAtMost result room.new }
        ensures bytes { ReadConsumes (Some self.old.left) (Some self.new.left) result room.new }
        ensures cause { HasCause self.old.faults self.new.faults result }
        ensures planned { IsErr result ↔ Contains self.old.failing (raised self.old.calls) }
        ensures count { IfOk result (λ n. n ≡ min (length self.old.left) (length room.old)) }
        ensures ok_faults { OnOk result (self.new.faults ≡ self.old.faults) }
        ensures err_faults { OnErr result (self.new.faults ≡ raised self.old.faults) }
        ensures written { self.new.written ≡ self.old.written }
        ensures names { self.new.names ≡ self.old.names }
        ensures calls { self.new.calls ≡ raised self.old.calls }
        ensures failing { self.new.failing ≡ self.old.failing }
    {
        if self.plan.call() {
            return Err(self.plan.fail());
        }
        self.rest.take(room)
    }
}

impl Sink for MemoryLink {
    ghost written = { λ l. Some l.written };

    ghost faults = { λ l. l.faults };

    /// It fails if the number of the call is in the list, or if it runs out of memory. Otherwise it
    /// takes the whole piece.
    fn put(&mut self, piece: &[u8]) -> Result<usize, Failed>
        ensures bound { WritesAtMost result piece.now }
        ensures some { IfOk result (λ n. 0 < length piece.now → 0 < n) }
        ensures bytes { WriteAppends (Some self.old.written) (Some self.new.written) result piece.now }
        ensures cause { HasCause self.old.faults self.new.faults result }
        ensures planned { Contains self.old.failing (raised self.old.calls) → IsErr result }
        ensures whole { IfOk result (λ n. n ≡ length piece.now) }
        ensures ok_faults { OnOk result (self.new.faults ≡ self.old.faults) }
        ensures err_faults { OnErr result (self.new.faults ≡ raised self.old.faults) }
        ensures left { self.new.left ≡ self.old.left }
        ensures names { self.new.names ≡ self.old.names }
        ensures calls { self.new.calls ≡ raised self.old.calls }
        ensures failing { self.new.failing ≡ self.old.failing }
    {
        if self.plan.call() || self.bytes.extend_from_slice(piece).is_err() {
            return Err(self.plan.fail());
        }
        Ok(piece.len())
    }
}

impl Link for MemoryLink {
    ghost use Rattle.std.specs.Prelude.{refl};

    ghost attached = { λ l. Some l.names };

    ghost one_count = { λ x. refl };

    /// It fails if the number of the call is in the list, or if it runs out of memory; then it
    /// does not tell the name.
    fn attach(&mut self, name: &str) -> Result<(), Failed>
        ensures called { OnOk result (Attaches (Some self.old.names) (Some self.new.names) name.now) }
        ensures told { OnErr result (MayAttach (Some self.old.names) (Some self.new.names) name.now) }
        ensures left { Some self.new.left ≡ Some self.old.left }
        ensures written { Some self.new.written ≡ Some self.old.written }
        ensures cause { HasCause self.old.faults self.new.faults result }
        ensures planned { Contains self.old.failing (raised self.old.calls) → IsErr result }
        ensures calls { self.new.calls ≡ raised self.old.calls }
        ensures failing { self.new.failing ≡ self.old.failing }
        ensures ok_faults { OnOk result (self.new.faults ≡ self.old.faults) }
        ensures err_faults { OnErr result (self.new.faults ≡ raised self.old.faults) }
    {
        let Ok(()) = self.keep(name) else {
            let _ = self.plan.call();
            return Err(self.plan.fail());
        };
        if self.plan.call() {
            return Err(self.plan.fail());
        }
        Ok(())
    }

    /// It fails exactly if the number of the call is in the list.
    fn receive(&mut self, room: &mut [u8]) -> Result<usize, Failed>
        ensures bound { ReadsAtMost result room.new }
        ensures bytes { ReadConsumes (Some self.old.left) (Some self.new.left) result room.new }
        ensures written { Some self.new.written ≡ Some self.old.written }
        ensures names { Some self.new.names ≡ Some self.old.names }
        ensures cause { HasCause self.old.faults self.new.faults result }
        ensures planned { IsErr result ↔ Contains self.old.failing (raised self.old.calls) }
        ensures count { IfOk result (λ n. n ≡ min (length self.old.left) (length room.old)) }
        ensures calls { self.new.calls ≡ raised self.old.calls }
        ensures failing { self.new.failing ≡ self.old.failing }
        ensures ok_faults { OnOk result (self.new.faults ≡ self.old.faults) }
        ensures err_faults { OnErr result (self.new.faults ≡ raised self.old.faults) }
    {
        self.take(room)
    }

    /// It fails if the number of the call is in the list, or if it runs out of memory.
    fn send(&mut self, piece: &[u8]) -> Result<usize, Failed>
        ensures bound { WritesAtMost result piece.now }
        ensures some { IfOk result (λ n. 0 < length piece.now → 0 < n) }
        ensures bytes { WriteAppends (Some self.old.written) (Some self.new.written) result piece.now }
        ensures left { Some self.new.left ≡ Some self.old.left }
        ensures names { Some self.new.names ≡ Some self.old.names }
        ensures cause { HasCause self.old.faults self.new.faults result }
        ensures planned { Contains self.old.failing (raised self.old.calls) → IsErr result }
        ensures whole { IfOk result (λ n. n ≡ length piece.now) }
        ensures calls { self.new.calls ≡ raised self.old.calls }
        ensures failing { self.new.failing ≡ self.old.failing }
        ensures ok_faults { OnOk result (self.new.faults ≡ self.old.faults) }
        ensures err_faults { OnErr result (self.new.faults ≡ raised self.old.faults) }
    {
        self.put(piece)
    }
}
