// A server's message: by its header, its epoch, and what it says.
ghost use Rattle.std.specs.Prelude.{◌≡◌, ◌≤◌, ◌^◌, true, IfOk, OnOk};
ghost use Rattle.st_client_association.specs.Turns.{session_of};
ghost use Rattle.st_client_rules.specs.Replies.{demanded};
ghost use Rattle.st_messages.specs.declared.message.Body.TheVariants as bodies;
ghost use Rattle.st_rules.specs.ClientInvariants.{lasts_here};
ghost use Rattle.st_rules.specs.ClientReplies as replies;

use crate::effects::granted;
use crate::epochs::{of_other_epoch, without_session};
use crate::replies::reply_of;
use st_base::{Epoch, GrantNo, Mode, Stamp};
use st_client_association::{SessionTurn, Turn};
use st_messages::{Body, Header, Why};
use st_rules::Asked;
use std::alloc::AllocError;

#[tactic(auto, unfolding(st_rules::specs::ClientReplies::condemn))]
fn condemned(turn: &mut SessionTurn, now: Stamp) -> Result<(), AllocError>
    requires lasting { lasts_here turn.old.config now turn.old.here ≡ true }
    ensures { OnOk result (turn.new ≡ replies.condemn turn.old (session_of turn.old)) }
{
    turn.condemn(now);
    Ok(())
}

/// A refusal of the session's epoch: some condemn the lease, two are ignored, and the others are
/// replies.
fn nack(
    turn: &mut SessionTurn,
    now: Stamp,
    h: Header,
    why: Why,
    a: u64,
    b: u64,
    body: &Body,
) -> Result<(), AllocError>
    requires lasting { lasts_here turn.old.config now turn.old.here ≡ true }
    requires past { h.stamp ≤ now.0 }
    requires reading { now.0 ≤ 2 ^ 62 }
    requires body { body.now ≡ bodies.Nack why a b }
    ensures { OnOk result (turn.new ≡ replies.nack turn.old (session_of turn.old) now h why a b) }
{
    match why {
        Why::Suspect => condemned(turn, now),
        Why::NoSession => condemned(turn, now),
        Why::OtherEpoch => Ok(()),
        Why::Grace => Ok(()),
        Why::GraceOver => condemned(turn, now),
        Why::Conflict => condemned(turn, now),
        _ => reply_of(turn, now, h, body),
    }
}

/// What becomes of a demand, once the locks are as after it.
fn demand_as(turn: &mut SessionTurn, ino: u32, g: GrantNo, asked: Asked) -> Result<(), AllocError>
    ensures { OnOk result (turn.new ≡ demanded turn.old ino g asked) }
{
    match asked {
        Asked::Reduce => {
            let epoch = turn.session().epoch();
            turn.send(epoch.0, 0, 0, Body::DemandSeen { ino, g })
        }
        Asked::NotHeld => turn.release_unheld(ino, g),
        Asked::Stale => Ok(()),
    }
}

/// A demand.
#[tactic(auto, unfolding(st_rules::specs::ClientReplies::demand, st_rules::specs::ClientReplies::demand_by, st_rules::specs::ClientReplies::demand_as, st_rules::specs::ClientReplies::observe_demand))]
fn demand(turn: &mut SessionTurn, ino: u32, g: GrantNo, to: Mode) -> Result<(), AllocError>
    ensures { OnOk result (turn.new ≡ replies.demand turn.old (session_of turn.old) ino g to) }
{
    let asked = turn.demand(ino, g, to)?;
    demand_as(turn, ino, g, asked)
}

/// A message of the session's epoch, by what it says. A grant that answers no request has number 0,
/// and does nothing but grant.
#[tactic(auto, unfolding(st_rules::specs::ClientReplies::of_epoch, st_rules::specs::ClientReplies::grant_or_reply))]
fn of_epoch(turn: &mut SessionTurn, now: Stamp, h: Header, body: &Body) -> Result<(), AllocError>
    requires lasting { lasts_here turn.old.config now turn.old.here ≡ true }
    requires past { h.stamp ≤ now.0 }
    requires reading { now.0 ≤ 2 ^ 62 }
    ensures { OnOk result (turn.new ≡ replies.of_epoch turn.old (session_of turn.old) now h body.now) }
{
    match body {
        Body::Nack { why, a, b } => nack(turn, now, h, *why, *a, *b, body),
        Body::Granted { ino, g, mode } => {
            if h.number == 0 {
                granted(turn, *ino, *g, *mode)
            } else {
                reply_of(turn, now, h, body)
            }
        }
        Body::Demand { ino, g, to } => demand(turn, *ino, *g, *to),
        _ => reply_of(turn, now, h, body),
    }
}

/// Whether the message is from this server, of this life, and of no later stamp than now.
fn is_received(turn: &Turn, now: Stamp, h: Header) -> bool
    ensures { result ≡ replies.is_received turn.now now h }
{
    h.from == turn.node() && (h.life == turn.life().0 && h.stamp <= now.0)
}

/// A message to a session, by its epoch.
#[tactic(auto, unfolding(st_rules::specs::ClientReplies::with_a_session))]
fn take(turn: &mut SessionTurn, now: Stamp, h: Header, body: &Body) -> Result<(), AllocError>
    requires lasting { lasts_here turn.old.config now turn.old.here ≡ true }
    requires past { h.stamp ≤ now.0 }
    requires reading { now.0 ≤ 2 ^ 62 }
    ensures { OnOk result (turn.new ≡ replies.with_a_session turn.old (session_of turn.old) now h body.now) }
{
    if h.epoch == turn.session().epoch().0 {
        of_epoch(turn, now, h, body)
    } else {
        of_other_epoch(turn, Epoch(h.epoch), body)
    }
}

/// A message from the server, to a session or without one.
fn take_received(turn: Turn, now: Stamp, h: Header, body: &Body) -> Result<Turn, AllocError>
    requires lasting { lasts_here turn.config now turn.here ≡ true }
    requires past { h.stamp ≤ now.0 }
    requires reading { now.0 ≤ 2 ^ 62 }
    ensures { IfOk result (λ t. t ≡ replies.by_session turn now h body.now turn.here.session) }
{
    match turn.into_session() {
        Ok(mut turn) => {
            take(&mut turn, now, h, body)?;
            Ok(turn.into_turn())
        }
        Err(mut turn) => {
            without_session(&mut turn, now, h, body)?;
            Ok(turn)
        }
    }
}

/// A message, at a server: whether it is from there, and what it does. The lease is not over at
/// this moment, which is at most 2^62.
#[tactic(auto, unfolding(st_rules::specs::ClientReplies::receive_at))]
pub fn receive_at(turn: Turn, now: Stamp, h: Header, body: &Body) -> Result<Turn, AllocError>
    requires lasting { lasts_here turn.config now turn.here ≡ true }
    requires reading { now.0 ≤ 2 ^ 62 }
    ensures { IfOk result (λ t. t ≡ replies.receive_at now h body.now turn) }
{
    if is_received(&turn, now, h) {
        take_received(turn, now, h, body)
    } else {
        Ok(turn)
    }
}
