// When a request is sent.
ghost use Rattle.std.specs.Prelude.{◌≡◌, ◌||◌};
ghost use Rattle.st_client_due.specs.ClientDue as due;
ghost use Rattle.st_client_due.specs.Spans.{from_on, if_so};
ghost use Rattle.st_client_moments.specs.FirstMoments.{first_readable};

use crate::spans::{at_once, since};
use crate::wants::asks_due;
use st_base::Stamp;
use st_client_association::TurnView;
use st_client_session::Session;
use st_due::sooner;

/// When a keep-alive is sent.
#[tactic(auto, using(crate::proofs::SpanMoments::first_added))]
fn keep_alive_due(t: &TurnView<'_>, session: &Session, from: Stamp) -> Option<u64>
    ensures { result ≡ first_readable from (due.kept_alive t.now.config session.now.session.lease) }
{
    let config = t.config();
    let date = session.date();
    let renew = since(from, date, config.renew);
    let quiesce = since(from, date, config.quiesce);
    let flush = since(from, date, config.flush);
    sooner(renew, sooner(quiesce, flush))
}

/// When the locks are reasserted, or a release is sent.
#[tactic(auto, using(crate::proofs::SomethingToAsk::release_first))]
fn duty_due(session: &Session, from: Stamp) -> Option<u64>
    ensures { result ≡ first_readable from (if_so (session.now.session.due || due.has_release session.now.session.releases) (from_on 0)) }
{
    if session.is_due() || session.first_release().is_some() {
        at_once(from)
    } else {
        None
    }
}

/// When a request is sent while none is outstanding.
fn new_request_due(t: &TurnView<'_>, session: &Session, from: Stamp) -> Option<u64>
    ensures { result ≡ first_readable from (due.new_request_during t.now session.now.session) }
{
    let duty = duty_due(session, from);
    let asks = asks_due(t, session, from);
    let keep_alive = keep_alive_due(t, session, from);
    sooner(duty, sooner(asks, keep_alive))
}

/// When the outstanding request is sent again, or with none a new one.
fn request_due(t: &TurnView<'_>, session: &Session, from: Stamp) -> Option<u64>
    ensures { result ≡ first_readable from (due.request_during t.now session.now.session session.now.session.requests.asked) }
{
    match session.sent() {
        None => new_request_due(t, session, from),
        Some(sent) => since(from, sent, t.config().retry),
    }
}

/// When a request is sent.
pub fn requests_due(t: &TurnView<'_>, session: &Session, from: Stamp) -> Option<u64>
    ensures { result ≡ first_readable from (due.requests_during t.now session.now.session) }
{
    if session.is_condemned() {
        None
    } else {
        request_due(t, session, from)
    }
}
