// When a tick does something at a client.
ghost use Rattle.std.specs.Prelude.{◌≡◌, IfOk, slice_get};
ghost use Rattle.std.specs.List.{flat_map};
ghost use Rattle.std.specs.Option.{option_to_list};
ghost use Rattle.st_client_due.specs.ClientDue as moments;
ghost use Rattle.st_client_moments.specs.FirstMoments.{first_readable};
ghost use Rattle.st_due.specs.Moments.{readable_by};

use crate::turns::turn_due;
use st_base::Stamp;
use st_client::{ClientNode, ClientState};
use st_due::sooner;
use std::alloc::AllocError;

/// When a tick does something at the server of the association at a place, if there is one.
#[tactic(auto, using(crate::proofs::SpanMoments::first_alone))]
fn due_at(state: &ClientState, place: usize, from: Stamp) -> Result<Option<u64>, AllocError>
    ensures { IfOk result (λ o. o ≡ first_readable from (flat_map (moments.during_here state.now) (option_to_list (slice_get state.now.associations place)))) }
{
    match state.look(place) {
        None => Ok(None),
        Some(t) => turn_due(&t, from),
    }
}

/// When a tick does something at one of the servers.
fn running_due(state: &ClientState, from: Stamp) -> Result<Option<u64>, AllocError>
    ensures { IfOk result (λ o. o ≡ first_readable from (moments.busy_during state.now)) }
{
    let mut first = None;
    for i in 0..state.count() {
        let due = due_at(state, i, from)?;
        first = sooner(first, due);
    }
    Ok(first)
}

/// The first moment from this one on at which a tick does something; `None` if no clock may read
/// it, or if no tick does anything. A client that does not run has none. The moment is right until
/// the client's next step. An error means that memory ran out; nothing changes.
#[tactic(auto, using(crate::proofs::Crashed::crashed_rests))]
pub fn due(node: &ClientNode, from: Stamp) -> Result<Option<u64>, AllocError>
    ensures { IfOk result (λ o. o ≡ readable_by (moments.client_due node.now.state from)) }
{
    match node.state() {
        None => Ok(None),
        Some(state) => running_due(state, from),
    }
}
