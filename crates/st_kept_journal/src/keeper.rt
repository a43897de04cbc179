// A journal's file while a server runs.
ghost use Rattle.std.specs.Prelude.{◌≡◌, ◌≢◌, ◌<◌, ◌≤◌, ◌+◌, [], ℕ, false, true, IfOk, OnErr, OnOk, drop, length};
ghost use Rattle.std.specs.Result.{IsErrOf};
ghost use Rattle.st_kept_journal.specs.Keeping as keeping;
ghost use Rattle.st_kept_journal.specs.Keeping.{IsFullFor, IsTooLong, MovesSwitch, OpensGate, WritesGroup, WritesSnapshot};
ghost use Rattle.st_kept_journal.specs.declared.task.KeepFault.TheVariants.{Full};
ghost use Rattle.st_kept_journal.specs.declared.task.Task.TheVariants.{Group, Rest, Switch};

use crate::task::{KeepFault, Task, Write};
use st_journal_bytes::{AREAS_PLACE, CLOSED, OPEN, SWITCH_PLACE, area_of, group_of, opened_of};
use std::alloc::{AllocError, Global};
use std::marker::Model;

/// A journal's file while a server runs. Contracts see how many bytes an area has, whether the
/// second one counts, where its closed gate is, the records that wait, each after an open gate, and
/// what is under way.
#[derive(Drop)]
pub struct JournalKeeper {
    alloc: Global,
    area: u64,
    second: bool,
    gate: u64,
    waiting: Vec<u8>,
    task: Task,
}

impl Model for JournalKeeper {
    ghost use Rattle.st_kept_journal.specs.Keeping.{IsPlaced, Keeping};

    ghost Value = { Keeping };

    ghost view = { λ k. record { area = k.area; second = k.second; gate = k.gate; waiting = k.waiting.items; task = k.task } };

    ghost invariant = { λ k. IsPlaced (record { area = k.area; second = k.second; gate = k.gate; waiting = k.waiting.items; task = k.task }) };
}

/// The place of an area in the file.
fn place_of(area: u64, second: bool) -> u64
    requires { area < 4294967296 }
    ensures { result ≡ keeping.place_of area second }
{
    if second {
        AREAS_PLACE + area
    } else {
        AREAS_PLACE
    }
}

/// Drops the first bytes.
fn drop_front(bytes: &mut Vec<u8>, count: u64)
    requires { count ≤ length bytes.old.items }
    ensures { bytes.new.items ≡ drop count bytes.old.items }
{
    let len = bytes.len();
    let at = count as usize;
    bytes.copy_within(at..len, 0);
    bytes.truncate(len - at);
}

impl JournalKeeper {
    /// The file of a journal whose areas have this many bytes, less than 2^32, and of which one
    /// counts, with its closed gate at this place.
    pub fn new(alloc: Global, area: u64, second: bool, gate: u64) -> JournalKeeper
        requires within { gate < area }
        requires small { area < 4294967296 }
        ensures { result ≡ record { area = area; second = second; gate = gate; waiting = []; task = Rest } }
    {
        JournalKeeper {
            alloc,
            area,
            second,
            gate,
            waiting: Vec::new(alloc),
            task: Task::Rest,
        }
    }

    /// What is under way.
    pub fn task(&self) -> Task
        ensures { result ≡ self.now.task }
    {
        self.task
    }

    /// How many bytes of records wait, each with its gate.
    pub fn waiting(&self) -> usize
        ensures { result ≡ length self.now.waiting }
    {
        self.waiting.len()
    }

    /// Whether the area is half full when all that waits is kept.
    pub fn is_half_full(&self) -> bool
        ensures { result ≡ keeping.is_half_full self.now }
    {
        2 * (self.gate + self.waiting.len() as u64) >= self.area
    }

    /// How many bytes the area has for records, their gates and the next gate after what waits.
    fn room(&self) -> u64
        ensures { result + keeping.next_gate self.now.gate self.now.task + length self.now.waiting ≡ self.now.area + keeping.covered self.now.task }
    {
        match self.task {
            Task::Rest | Task::Group { .. } => self.area - self.gate - self.waiting.len() as u64,
            Task::Switch { count, gate } => { self.area + count - gate - self.waiting.len() as u64 }
        }
    }

    /// Whether a record of this length may wait: there is room for it after what waits, for its
    /// gate and for the next one.
    pub fn has_room(&self, len: u64) -> bool
        ensures yes { result ≡ true → IsFullFor self.now len → ⊥ }
        ensures no { result ≡ false → IsFullFor self.now len }
    {
        let room = self.room();
        room >= 14 && room - 14 >= len
    }

    /// One more record waits to be kept.
    pub fn add(&mut self, record_bytes: &[u8]) -> Result<(), KeepFault>
        ensures ok { OnOk result (self.new ≡ keeping.added self.old record_bytes.now) }
        ensures full { IsErrOf result Full → IsFullFor self.old (length record_bytes.now) }
        ensures err { OnErr result (self.new ≡ self.old) }
    {
        if !self.has_room(record_bytes.len() as u64) {
            return Err(KeepFault::Full);
        }
        let Ok(opened) = opened_of(self.alloc, record_bytes) else {
            return Err(KeepFault::Memory);
        };
        match self.waiting.extend_from_slice(opened.as_slice()) {
            Ok(()) => Ok(()),
            Err(_) => Err(KeepFault::Memory),
        }
    }

    /// Begins to keep all that waits as a group, and says what the program writes first. Then the
    /// program syncs.
    pub fn group(&mut self) -> Result<Write, AllocError>
        requires rest { self.old.task ≡ Rest }
        requires some { self.old.waiting ≢ [] }
        ensures begun { OnOk result (self.new ≡ keeping.group_begun self.old) }
        ensures write { IfOk result (WritesGroup self.old) }
        ensures err { OnErr result (self.new ≡ self.old) }
    {
        let bytes = group_of(self.alloc, self.waiting.as_slice())?;
        self.task = Task::Group {
            count: self.waiting.len() as u64,
        };
        Ok(Write {
            at: place_of(self.area, self.second) + self.gate + 1,
            bytes,
        })
    }

    /// What the program writes once the group is synced: its gate. Then it syncs again.
    pub fn gate(&self) -> Result<Write, AllocError>
        ensures { IfOk result (OpensGate self.now) }
    {
        Ok(Write {
            at: place_of(self.area, self.second) + self.gate,
            bytes: Vec::from_slice(self.alloc, &[OPEN])?,
        })
    }

    /// The gate was synced: the group is kept.
    pub fn group_kept(&mut self)
        ensures kept { (count : ℕ) → self.old.task ≡ Group count → self.new ≡ keeping.group_kept self.old count }
        ensures none { keeping.IsNoGroup self.old.task → self.new ≡ self.old }
    {
        if let Task::Group { count } = self.task {
            drop_front(&mut self.waiting, count);
            self.gate += count;
            self.task = Task::Rest;
        }
    }

    /// Begins to keep all that waits by this snapshot, which is of the state after it, and says
    /// what the program writes first, in the area that doesn't count. Then the program syncs.
    pub fn snapshot(&mut self, snapshot: &[u8]) -> Result<Write, KeepFault>
        requires { self.old.task ≡ Rest }
        ensures begun { OnOk result (self.new ≡ keeping.switch_begun self.old snapshot.now) }
        ensures write { IfOk result (WritesSnapshot self.old snapshot.now) }
        ensures full { IsErrOf result Full → IsTooLong self.old (length snapshot.now) }
        ensures err { OnErr result (self.new ≡ self.old) }
    {
        if self.area < 13 || self.area - 13 < snapshot.len() as u64 {
            return Err(KeepFault::Full);
        }
        let Ok(bytes) = area_of(self.alloc, snapshot) else {
            return Err(KeepFault::Memory);
        };
        self.task = Task::Switch {
            count: self.waiting.len() as u64,
            gate: bytes.len() as u64 - 1,
        };
        Ok(Write {
            at: place_of(self.area, !self.second),
            bytes,
        })
    }

    /// What the program writes once the snapshot is synced: the switch. Then it syncs again.
    pub fn switch(&self) -> Result<Write, AllocError>
        ensures { IfOk result (MovesSwitch self.now) }
    {
        let mark = if self.second { CLOSED } else { OPEN };
        Ok(Write {
            at: SWITCH_PLACE,
            bytes: Vec::from_slice(self.alloc, &[mark])?,
        })
    }

    /// The switch was synced: the other area counts, and what the snapshot has is kept.
    pub fn switched(&mut self)
        ensures kept { (count gate : ℕ) → self.old.task ≡ Switch count gate → self.new ≡ keeping.switched self.old count gate }
        ensures none { keeping.IsNoSwitch self.old.task → self.new ≡ self.old }
    {
        if let Task::Switch { count, gate } = self.task {
            drop_front(&mut self.waiting, count);
            self.second = !self.second;
            self.gate = gate;
            self.task = Task::Rest;
        }
    }
}
