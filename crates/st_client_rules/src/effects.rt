// What a counting reply does, besides renewing the lease.
ghost use Rattle.std.specs.Prelude.{◌≡◌, IfOk, OnOk};
ghost use Rattle.st_client_association.specs.Turns.{session_of};
ghost use Rattle.st_rules.specs.ClientReplies as replies;

use crate::refusals::refused;
use st_base::{ExtentRow, GrantNo, Mode, Stamp};
use st_client_association::SessionTurn;
use st_client_session::Session;
use st_messages::{AppAnswer, Body, NameReply};
use st_operations::RequestingOperation;
use st_rules::HeldLock;
use std::alloc::AllocError;

/// A grant; the wait for the file is forgotten.
#[tactic(auto, unfolding(st_rules::specs::ClientReplies::granted))]
pub fn granted(turn: &mut SessionTurn, ino: u32, g: GrantNo, mode: Mode) -> Result<(), AllocError>
    ensures { OnOk result (turn.new ≡ replies.granted turn.old (session_of turn.old) ino g mode) }
{
    turn.forget_wait(ino);
    turn.grant(ino, g, mode)
}

fn is_grant(g: GrantNo, lock: Option<HeldLock>) -> bool
    ensures { result ≡ replies.is_grant g lock }
{
    match lock {
        None => false,
        Some(lock) => lock.g.0 == g.0,
    }
}

/// Whether the file's lock has the grant of the request.
fn is_current(session: &Session, asked: &Body) -> bool
    ensures { result ≡ replies.is_current session.now.session.locks asked.now }
{
    match asked {
        Body::Map { ino, g, .. } => is_grant(*g, session.lock(*ino)),
        Body::Allocate { ino, g, .. } => is_grant(*g, session.lock(*ino)),
        _ => false,
    }
}

/// The rows of a file, if its lock has the grant of the request. A map that found no rows makes its
/// page known as unmapped.
#[tactic(auto, unfolding(st_rules::specs::ClientReplies::extents, st_rules::specs::ClientReplies::learn))]
fn extents(
    turn: &mut SessionTurn,
    ino: u32,
    rows: &[ExtentRow],
    asked: &Body,
) -> Result<(), AllocError>
    ensures { OnOk result (turn.new ≡ replies.extents turn.old (session_of turn.old) ino rows.now asked.now) }
{
    if !is_current(turn.session(), asked) {
        return Ok(());
    }
    match asked {
        Body::Map { page, .. } => {
            if rows.is_empty() {
                turn.know_unmapped(ino, *page)
            } else {
                turn.know_rows(ino, rows)
            }
        }
        _ => turn.know_rows(ino, rows),
    }
}

fn name_answer(reply: &NameReply) -> Result<AppAnswer, AllocError>
    ensures { IfOk result (λ a. a ≡ replies.name_answer reply.now) }
{
    match reply {
        NameReply::Ino(ino) => Ok(AppAnswer::Named(*ino)),
        NameReply::Listed(rows) => Ok(AppAnswer::Listed(rows.copy()?)),
        NameReply::Refused(code) => Ok(AppAnswer::Refused(*code)),
    }
}

#[tactic(auto, unfolding(st_rules::specs::ClientReplies::drop_lock))]
fn drop_lock(turn: &mut SessionTurn, ino: u32, lock: HeldLock) -> Result<(), AllocError>
    ensures { OnOk result (turn.new ≡ replies.drop_lock turn.old (session_of turn.old) ino lock) }
{
    turn.drop_lock(ino);
    turn.queue_release(ino, lock.g, Mode::None)
}

/// The file that was removed, if one was: its lock is dropped.
#[tactic(auto, unfolding(st_rules::specs::ClientReplies::removed, st_rules::specs::ClientReplies::drop_held))]
fn removed(turn: &mut SessionTurn, file: Option<u32>) -> Result<(), AllocError>
    ensures { OnOk result (turn.new ≡ replies.removed turn.old (session_of turn.old) file) }
{
    match file {
        None => Ok(()),
        Some(ino) => match turn.session().lock(ino) {
            None => Ok(()),
            Some(lock) => drop_lock(turn, ino, lock),
        },
    }
}

// The prover needs this step by itself: `named` answers operations before it.
#[tactic(auto, unfolding(st_rules::specs::ClientReplies::named_as))]
fn named_as(turn: &mut SessionTurn, file: Option<u32>, reply: &NameReply) -> Result<(), AllocError>
    ensures { OnOk result (turn.new ≡ replies.named_as turn.old (session_of turn.old) file reply.now) }
{
    match reply {
        NameReply::Ino(_) => removed(turn, file),
        _ => Ok(()),
    }
}

#[tactic(auto, unfolding(st_rules::specs::ClientReplies::named, st_rules::specs::ClientState::answer_each))]
fn named(turn: &mut SessionTurn, file: Option<u32>, reply: &NameReply) -> Result<(), AllocError>
    ensures { OnOk result (turn.new ≡ replies.named turn.old (session_of turn.old) file reply.now) }
{
    let server = turn.turn().server();
    let answer = name_answer(reply)?;
    turn.answer_each(&RequestingOperation { server }, &answer)?;
    named_as(turn, file, reply)
}

/// The effect of a reply, with the body of the request that it ends and its file.
#[tactic(auto, unfolding(st_rules::specs::ClientReplies::effect, st_rules::specs::ClientReplies::queued, st_rules::specs::ClientReplies::acknowledged, st_rules::specs::ClientReplies::reasserted))]
pub fn effect(
    turn: &mut SessionTurn,
    now: Stamp,
    reply: &Body,
    file: Option<u32>,
    asked: &Body,
) -> Result<(), AllocError>
    ensures { OnOk result (turn.new ≡ replies.effect turn.old (session_of turn.old) now reply.now file asked.now) }
{
    match reply {
        Body::Granted { ino, g, mode } => granted(turn, *ino, *g, *mode),
        Body::Queued { ino, mode } => turn.queued(*ino, *mode, now),
        Body::Extents { ino, rows } => extents(turn, *ino, rows.as_slice(), asked),
        // The operation of a cut is answered.
        Body::Ack => {
            let server = turn.turn().server();
            turn.answer_each(&RequestingOperation { server }, &AppAnswer::Cut)
        }
        Body::Named(reply) => named(turn, file, reply),
        Body::Reasserted => {
            turn.reasserted();
            Ok(())
        }
        Body::Nack { why, a, b } => refused(turn, *why, *a, *b, file, asked),
        _ => Ok(()),
    }
}
