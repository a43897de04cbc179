// Replies to the outstanding request.
ghost use Rattle.std.specs.Prelude.{◌≡◌, ◌≤◌, ◌^◌, true, OnOk};
ghost use Rattle.st_client_association.specs.Turns.{session_of};
ghost use Rattle.st_client_rules.specs.Replies.{count_reply, counts, refuses, replied};
ghost use Rattle.st_rules.specs.ClientInvariants.{lasts_here};
ghost use Rattle.st_rules.specs.ClientReplies as replies;
ghost use Rattle.st_rules.specs.ClientState.{with_session};

use crate::bodies::{file_asked, fits, is_refusal, reasserts};
use crate::effects::effect;
use crate::epochs::note_lease;
use st_base::Stamp;
use st_client_association::SessionTurn;
use st_client_session::Session;
use st_messages::{Body, Header};
use std::alloc::AllocError;

/// Whether a reply counts: its number is the outstanding one, and it fits the request.
fn counts(session: &Session, number: u64, reply: &Body) -> bool
    ensures { result ≡ counts number reply.now session.now.session.requests.asked }
{
    match session.asked() {
        None => false,
        Some((asked, body)) => asked == number && fits(reply, body),
    }
}

/// Whether a reassertion is outstanding, and the reply refuses it.
fn refuses(session: &Session, reply: &Body) -> bool
    ensures { result ≡ refuses reply.now session.now.session.requests.asked }
{
    match session.asked() {
        None => false,
        Some((_, body)) => is_refusal(reply) && reasserts(body),
    }
}

/// The lease is renewed, if the reply's stamp is later than its date, and is noted then.
fn renew(turn: &mut SessionTurn, now: Stamp, stamp: Stamp) -> Result<(), AllocError>
    requires lasting { lasts_here turn.old.config now turn.old.here ≡ true }
    requires past { stamp.0 ≤ now.0 }
    requires reading { now.0 ≤ 2 ^ 62 }
    ensures { OnOk result (turn.new ≡ with_session (replies.with_renewed stamp (session_of turn.old)) (replies.note_renewal turn.old (session_of turn.old) stamp)) }
{
    let renews = turn.session().is_renewed_by(stamp);
    turn.renew(stamp, now);
    if renews { note_lease(turn) } else { Ok(()) }
}

/// A counting reply ends the request, renews the lease, and has its effect.
fn reply_to(
    turn: &mut SessionTurn,
    now: Stamp,
    stamp: Stamp,
    reply: &Body,
) -> Result<(), AllocError>
    requires lasting { lasts_here turn.old.config now turn.old.here ≡ true }
    requires past { stamp.0 ≤ now.0 }
    requires reading { now.0 ≤ 2 ^ 62 }
    ensures { OnOk result (turn.new ≡ replied turn.old now stamp reply.now (session_of turn.old).requests.asked) }
{
    let cutting = turn.session().cutting();
    if !turn.session().has_asked() {
        return Ok(());
    }
    match turn.end_request() {
        None => Ok(()),
        Some(asked) => {
            renew(turn, now, stamp)?;
            let file = file_asked(cutting, &asked);
            effect(turn, now, reply, file, &asked)
        }
    }
}

/// A refused reassertion condemns the lease; every other counting reply ends the request.
fn count_reply(
    turn: &mut SessionTurn,
    now: Stamp,
    stamp: Stamp,
    reply: &Body,
) -> Result<(), AllocError>
    requires lasting { lasts_here turn.old.config now turn.old.here ≡ true }
    requires past { stamp.0 ≤ now.0 }
    requires reading { now.0 ≤ 2 ^ 62 }
    ensures { OnOk result (turn.new ≡ count_reply turn.old now stamp reply.now (session_of turn.old).requests.asked) }
{
    if refuses(turn.session(), reply) {
        turn.condemn(now);
        Ok(())
    } else {
        reply_to(turn, now, stamp, reply)
    }
}

/// A reply of the session's epoch.
pub fn reply_of(
    turn: &mut SessionTurn,
    now: Stamp,
    h: Header,
    reply: &Body,
) -> Result<(), AllocError>
    requires lasting { lasts_here turn.old.config now turn.old.here ≡ true }
    requires past { h.stamp ≤ now.0 }
    requires reading { now.0 ≤ 2 ^ 62 }
    ensures { OnOk result (turn.new ≡ replies.reply_of turn.old (session_of turn.old) now h reply.now) }
{
    if counts(turn.session(), h.number, reply) {
        count_reply(turn, now, Stamp(h.stamp), reply)
    } else {
        Ok(())
    }
}
