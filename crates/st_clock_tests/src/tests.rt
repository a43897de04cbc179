use st_base::Stamp;
use st_clock::{Clock, MonotonicClock};
use std::cell::Cell;
use std::io::ErrorKind;
use std::test::Fail;
use std::time::{Clock as SystemClock, Duration};
use std::{io, thread};

/// A clock of a machine that goes back at the second reading and fails at the third.
#[derive(Drop)]
struct Unsteady {
    readings: Cell<u8>,
}

impl SystemClock for Unsteady {
    fn monotonic(&self) -> io::Result<Duration> {
        let reading = self.readings.get();
        self.readings.set(reading.wrapping_add(1));
        match reading {
            0 => Ok(Duration::from_millis(1_500)),
            1 => Ok(Duration::from_millis(900)),
            2 => Err(io::Error::from(ErrorKind::Other)),
            _ => Ok(Duration::from_secs(2)),
        }
    }

    fn since_1970(&self) -> io::Result<Duration> {
        Err(io::Error::from(ErrorKind::Other))
    }
}

#[test]
fn readings_are_milliseconds_and_never_fall(rt: HostRuntime) {
    let mut clock = MonotonicClock::new(Unsteady {
        readings: Cell::new(0),
    });
    assert_eq!(rt; clock.now(), Stamp(1_500));
    assert_eq!(rt; clock.now(), Stamp(1_500));
    assert_eq!(rt; clock.now(), Stamp(1_500));
    assert_eq!(rt; clock.now(), Stamp(2_000));
}

/// A fifth of a second is at least 200 readings, and on a busy machine less than 100,000:
/// microseconds would be more.
#[test]
fn readings_advance_by_about_a_thousand_a_second(rt: HostRuntime) {
    let mut clock = MonotonicClock::new(rt);
    let first = clock.now();
    thread::sleep(&rt, Duration::from_millis(200));
    let second = clock.now();
    let passed = second.0.saturating_sub(first.0);
    assert!(rt; passed >= 200);
    assert!(rt; passed < 100_000);
}
