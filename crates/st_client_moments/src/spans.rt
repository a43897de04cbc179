// The first moment of a span, from a moment on.
ghost use Rattle.std.specs.Prelude.{◌≡◌, ◌+◌, ◌∷◌, [], nat_le};
ghost use Rattle.st_client_due.specs.Spans.{from_on, until};
ghost use Rattle.st_client_moments.specs.FirstMoments.{first_readable};
ghost use Rattle.st_due.specs.Moments.{readable};

use st_base::Stamp;
use st_due::after;

/// The greatest reading of a clock.
const LAST: u64 = 4_611_686_018_427_387_904;

/// A moment, if a clock may read it.
fn reading(moment: u64) -> Option<u64>
    ensures { result ≡ readable moment }
{
    if moment <= LAST { Some(moment) } else { None }
}

/// Whether a moment is at least this many ticks after another one.
fn is_past(from: Stamp, start: Stamp, wait: u64) -> bool
    ensures { result ≡ nat_le (start.0 + wait) from.0 }
{
    start.0 <= from.0 && wait <= from.0 - start.0
}

/// The first moment of all.
#[tactic(auto, using(crate::proofs::SpanMoments::first_at_once))]
pub fn at_once(from: Stamp) -> Option<u64>
    ensures { result ≡ first_readable from (from_on 0 ∷ []) }
{
    reading(from.0)
}

/// The first moment of those that are at least this many ticks after another one.
#[tactic(auto, using(crate::proofs::SpanMoments::first_since))]
pub fn since(from: Stamp, start: Stamp, wait: u64) -> Option<u64>
    ensures { result ≡ first_readable from (from_on (start.0 + wait) ∷ []) }
{
    if is_past(from, start, wait) {
        reading(from.0)
    } else {
        after(start, wait)
    }
}

/// The first moment of those that are fewer than this many ticks after another one.
#[tactic(auto, using(crate::proofs::SpanMoments::first_before))]
pub fn before(from: Stamp, start: Stamp, wait: u64) -> Option<u64>
    ensures { result ≡ first_readable from (until (start.0 + wait) ∷ []) }
{
    if is_past(from, start, wait) {
        None
    } else {
        reading(from.0)
    }
}
