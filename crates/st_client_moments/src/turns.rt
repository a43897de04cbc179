// When a tick does something at a server.
ghost use Rattle.std.specs.Prelude.{◌≡◌, ◌∷◌, [], Some, IfOk};
ghost use Rattle.st_client_due.specs.ClientDue as due;
ghost use Rattle.st_client_due.specs.Spans.{from_on};
ghost use Rattle.st_client_moments.specs.FirstMoments.{first_readable};

use crate::greetings::greeting_due;
use crate::operations::operations_due;
use crate::reductions::reductions_due;
use crate::requests::requests_due;
use crate::spans::since;
use crate::writes::writes_due;
use st_base::Stamp;
use st_client_association::TurnView;
use st_client_session::Session;
use st_due::sooner;
use std::alloc::AllocError;

/// When the lease is over.
fn end_due(t: &TurnView<'_>, session: &Session, from: Stamp) -> Option<u64>
    ensures { result ≡ first_readable from (from_on (due.lease_end_at t.now.config session.now.session.lease) ∷ []) }
{
    since(from, session.date(), t.config().lease)
}

/// When the lease is lost, a lock is reduced, a page is written or a request is sent.
fn due_with(t: &TurnView<'_>, session: &Session, from: Stamp) -> Result<Option<u64>, AllocError>
    ensures { IfOk result (λ o. o ≡ first_readable from (due.session_during t.now (Some session.now.session))) }
{
    let end = end_due(t, session, from);
    let reductions = reductions_due(t, session, from)?;
    let writes = writes_due(t, session, from)?;
    let requests = requests_due(t, session, from);
    Ok(sooner(end, sooner(reductions, sooner(writes, requests))))
}

/// When a tick does something with the session, or without one greets.
fn session_due(t: &TurnView<'_>, from: Stamp) -> Result<Option<u64>, AllocError>
    ensures { IfOk result (λ o. o ≡ first_readable from (due.session_during t.now t.now.here.session)) }
{
    match t.session() {
        None => Ok(greeting_due(t, from)),
        Some(session) => due_with(t, session, from),
    }
}

/// When a tick does something at the server.
#[tactic(auto, using(crate::proofs::SpanMoments::first_joined))]
pub fn turn_due(t: &TurnView<'_>, from: Stamp) -> Result<Option<u64>, AllocError>
    ensures { IfOk result (λ o. o ≡ first_readable from (due.during_at t.now)) }
{
    let operations = operations_due(t, from);
    let session = session_due(t, from)?;
    Ok(sooner(operations, session))
}
