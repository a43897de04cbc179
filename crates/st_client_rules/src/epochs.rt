// Sessions that begin, and newer epochs of a server.
ghost use Rattle.std.specs.Prelude.{◌≡◌, ◌+◌, ◌≤◌, ◌<◌, ◌^◌, OnOk};
ghost use Rattle.st_client_association.specs.Turns.{session_of};
ghost use Rattle.st_rules.specs.ClientReplies as replies;

use st_base::{Epoch, Stamp};
use st_client_association::{SessionTurn, Turn};
use st_messages::{AppAnswer, Body, Header, Note, Why};
use st_operations::RequestingOperation;
use std::alloc::AllocError;

/// The lease is noted with its end.
#[tactic(auto, unfolding(st_rules::specs::ClientReplies::note_lease))]
pub fn note_lease(turn: &mut SessionTurn) -> Result<(), AllocError>
    ensures { OnOk result (turn.new ≡ replies.note_lease (session_of turn.old).lease turn.old) }
{
    let server = turn.turn().server();
    let end = turn.session().end();
    turn.note(Note::Leased { server, end })
}

#[tactic(auto, unfolding(st_rules::specs::ClientReplies::begin_session, st_rules::specs::ClientReplies::note_lease))]
fn begin_session(turn: &mut Turn, now: Stamp, epoch: Epoch, stamp: Stamp) -> Result<(), AllocError>
    requires past { stamp.0 ≤ now.0 }
    requires living { now.0 < stamp.0 + turn.old.config.lease }
    requires reading { now.0 ≤ 2 ^ 62 }
    ensures { OnOk result (turn.new ≡ replies.begin_session turn.old epoch stamp) }
{
    let server = turn.server();
    let end = turn.begin_session(epoch, stamp, now);
    turn.note(Note::Leased { server, end })
}

/// Without a session every message but a welcome is ignored. A welcome begins one, if the client
/// greets, and a lease of its stamp would not be over yet.
#[tactic(auto, unfolding(st_rules::specs::ClientReplies::without_session, st_rules::specs::ClientReplies::welcome))]
pub fn without_session(
    turn: &mut Turn,
    now: Stamp,
    h: Header,
    body: &Body,
) -> Result<(), AllocError>
    requires past { h.stamp ≤ now.0 }
    requires reading { now.0 ≤ 2 ^ 62 }
    ensures { OnOk result (turn.new ≡ replies.without_session turn.old now h body.now) }
{
    match body {
        Body::Welcome => {
            if turn.greeting().is_some() && now.0 - h.stamp < turn.config().lease {
                begin_session(turn, now, Epoch(h.epoch), Stamp(h.stamp))
            } else {
                Ok(())
            }
        }
        _ => Ok(()),
    }
}

/// A message of another epoch: only a refusal as of another epoch tells of a newer one, which the
/// session follows unless its lease was condemned.
#[tactic(auto, unfolding(st_rules::specs::ClientReplies::of_other_epoch, st_rules::specs::ClientReplies::newer_epoch, st_rules::specs::ClientReplies::follow_epoch))]
pub fn of_other_epoch(turn: &mut SessionTurn, epoch: Epoch, body: &Body) -> Result<(), AllocError>
    ensures { OnOk result (turn.new ≡ replies.of_other_epoch turn.old (session_of turn.old) epoch body.now) }
{
    match body {
        Body::Nack { why, .. } => match *why {
            Why::OtherEpoch => {
                let old = turn.session().epoch();
                if !(old.0 < epoch.0 && !turn.session().is_condemned()) {
                    return Ok(());
                }
                let server = turn.turn().server();
                turn.begin_epoch(epoch);
                turn.answer_each(
                    &RequestingOperation { server },
                    &AppAnswer::Uncertain(old.0, epoch.0),
                )
            }
            _ => Ok(()),
        },
        _ => Ok(()),
    }
}
