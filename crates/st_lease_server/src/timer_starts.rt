// The starts of the timers that run, in order.
ghost use Rattle.std.specs.Prelude.{◌≡◌, filter, not};
ghost use Rattle.st_lease_server.specs.Starts.{is_past};

use st_base::{ClientId, Stamp};
use std::collections::BTreeSet;

/// The start of a timer, and its client.
pub type Start = (Stamp, ClientId);

/// Whether a timer that began so is over.
pub fn is_past(wait: u64, now: Stamp, start: Start) -> bool
    ensures { result ≡ is_past wait now start }
{
    start.0.0 <= now.0 && wait <= now.0 - start.0.0
}

/// Takes out the starts of the timers that are over.
pub fn drop_past(starts: &mut BTreeSet<Start>, wait: u64, now: Stamp)
    ensures { starts.new.keys ≡ filter (λ q. not (is_past wait now q)) starts.old.keys }
{
    starts.retain(|start| !is_past(wait, now, *start));
}
