// Moments of timers that a clock may read.
ghost use Rattle.std.specs.Prelude.{◌≡◌, ◌+◌};
ghost use Rattle.st_due.specs.Moments as moments;

use st_base::Stamp;

/// The greatest reading of a clock.
const LAST: u64 = 4_611_686_018_427_387_904;

/// The moment this many ticks after another one; none if no clock may read it.
pub fn after(start: Stamp, wait: u64) -> Option<u64>
    ensures { result ≡ moments.readable (start.0 + wait) }
{
    if start.0 <= LAST && wait <= LAST - start.0 {
        Some(start.0 + wait)
    } else {
        None
    }
}

/// The earlier of two moments, of which either may be missing.
pub fn sooner(first: Option<u64>, second: Option<u64>) -> Option<u64>
    ensures { result ≡ moments.sooner first second }
{
    match (first, second) {
        (None, second) => second,
        (first, None) => first,
        (Some(first), Some(second)) => Some(first.min(second)),
    }
}
