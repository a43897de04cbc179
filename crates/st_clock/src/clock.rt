// The clocks that a node reads.
ghost use Rattle.std.specs.Prelude.{◌≡◌, ◌<◌, ℕ, List, Some, length};
ghost use Rattle.std.specs.declared.option.Option.{Option};
ghost use Rattle.st_base.specs.declared.ids.Stamp.{Stamp};
ghost use Rattle.st_clock.specs.Readings.{IsReading, Rise, Tells};

use st_base::Stamp;
use std::marker::Model;

/// A clock, which never fails. The rules: docs/PROTOCOL.md, chapter "Clocks of a node".
pub trait Clock {
    /// The last reading, or 0 before the first.
    ghost latest: { Self → ℕ };

    /// The readings to come, if the clock knows them; the last of them is repeated for ever.
    ghost readings: { Self → Option (List Stamp) };

    /// The next reading. It is never below an earlier one, and at most 2^62.
    fn now(&mut self) -> Stamp
        ensures rises { IsReading (latest self.old) (latest self.new) result }
        ensures told { Tells (readings self.old) (readings self.new) result };
}

/// A clock in memory, which returns the readings of a list one after another and then repeats the
/// last one. Contracts see it as its last reading and those to come.
#[derive(Drop)]
pub struct MemoryClock {
    readings: Vec<Stamp>,
    next: usize,
    latest: u64,
}

impl Model for MemoryClock {
    ghost use Rattle.std.specs.Prelude.{◌<◌, drop, length};
    ghost use Rattle.st_clock.specs.Readings as shown;
    ghost use Rattle.st_clock.specs.Readings.{Rise};

    ghost Value = { shown.MemoryClock };

    ghost view = { λ c. record { latest = c.latest; readings = drop c.next c.readings.items } };

    ghost invariant = { λ c. (c.next < length c.readings.items) × Rise c.latest (drop c.next c.readings.items) };
}

impl MemoryClock {
    /// A clock that returns these readings, in ticks, and then repeats the last one. They never
    /// fall, and none is above 2^62.
    pub fn new(readings: Vec<Stamp>) -> MemoryClock
        requires some { 0 < length readings.items }
        requires rising { Rise 0 readings.items }
        ensures { result ≡ record { latest = 0; readings = readings.items } }
    {
        MemoryClock {
            readings,
            next: 0,
            latest: 0,
        }
    }
}

impl Clock for MemoryClock {
    ghost latest = { λ c. c.latest };

    ghost readings = { λ c. Some c.readings };

    /// It takes no memory.
    fn now(&mut self) -> Stamp {
        let reading = self.readings[self.next];
        if self.next + 1 < self.readings.len() {
            self.next += 1;
        }
        self.latest = reading.0;
        reading
    }
}
