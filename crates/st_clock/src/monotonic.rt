// The clock of the machine.
ghost use Rattle.std.specs.Prelude.{◌≡◌, ◌≤◌, ◌^◌, None};

use crate::clock::Clock;
use st_base::Stamp;
use std::time::Clock as SystemClock;

/// The highest reading that a clock gives.
const LAST: u64 = 1 << 62;

/// A clock that counts the milliseconds of the machine's monotonic clock. It keeps its greatest
/// reading and returns it again if the machine's clock fails or went back, so it never fails and
/// never goes back. It does not say which readings come next: that the machine's clock runs in time
/// is not proved.
#[derive(Drop)]
pub struct MonotonicClock<S: SystemClock + Drop> {
    system: S,
    greatest: u64,
    ghost most: { greatest ≤ 2 ^ 62 },
}

impl<S: SystemClock + Drop> MonotonicClock<S> {
    /// A clock over the machine's clock `system`, not read yet.
    pub fn new(system: S) -> MonotonicClock<S>
        ensures latest { ⟦<MonotonicClock<S> as Clock>⟧.latest result ≡ 0 }
        ensures readings { ⟦<MonotonicClock<S> as Clock>⟧.readings result ≡ None }
    {
        MonotonicClock {
            system,
            greatest: 0,
        }
    }
}

impl<S: SystemClock + Drop> Clock for MonotonicClock<S> {
    ghost latest = { λ c. c.greatest };

    ghost readings = { λ _. None };

    /// It takes no memory.
    fn now(&mut self) -> Stamp {
        match self.system.monotonic() {
            Ok(time) => {
                let millis = time.as_millis().min(LAST as u128) as u64;
                self.greatest = self.greatest.max(millis);
                Stamp(self.greatest)
            }
            Err(_) => Stamp(self.greatest),
        }
    }
}
