// A lease that is over.
ghost use Rattle.std.specs.Prelude.{◌≡◌, true, IfOk, OnOk};
ghost use Rattle.st_client_association.specs.Turns.{session_of};
ghost use Rattle.st_client_rules.specs.Inputs.{session_in};
ghost use Rattle.st_rules.specs.Client as client;

use st_base::{Epoch, Stamp};
use st_client_association::{SessionTurn, Turn};
use st_messages::{AppAnswer, Ask};
use st_operations::{OfServer, is_sent};
use st_rules::Operation;
use std::alloc::AllocError;

/// An operation whose request was sent is uncertain. A sync whose file has lost pages is answered
/// with them, and all others are quiesced.
#[tactic(auto, unfolding(st_rules::specs::Client::end_operation, st_rules::specs::Client::end_unsent, st_rules::specs::Client::end_sync))]
fn end_operation(turn: &mut Turn, epoch: Epoch, o: &Operation) -> Result<(), AllocError>
    ensures { OnOk result (turn.new ≡ client.end_operation turn.old (session_in epoch) o.now) }
{
    if is_sent(o) {
        turn.answer(o.op, AppAnswer::Uncertain(epoch.0, 0))
    } else {
        match &o.ask {
            Ask::Sync(file) => {
                if turn.has_lost(file.ino) {
                    turn.tell_lost(o.op, file.ino)
                } else {
                    turn.answer(o.op, AppAnswer::Quiesced)
                }
            }
            _ => turn.answer(o.op, AppAnswer::Quiesced),
        }
    }
}

/// The server's operations are answered, in order, and are no longer pending.
#[tactic(auto, unfolding(st_rules::specs::Client::end_operations, st_rules::specs::Client::end_each))]
fn end_operations(turn: &mut Turn, epoch: Epoch) -> Result<(), AllocError>
    ensures { OnOk result (turn.new ≡ client.end_operations turn.old (session_in epoch)) }
{
    let server = turn.server();
    let mut ended = turn.split_operations(&OfServer { server })?;
    while let Some(o) = ended.take_first() {
        end_operation(turn, epoch, &o)?;
    }
    Ok(())
}

/// A session whose lease is over.
#[tactic(auto, using(crate::proofs::Lost::lost_is))]
fn lose_session(turn: SessionTurn, now: Stamp) -> Result<Turn, AllocError>
    requires { client.is_over turn (session_of turn) now ≡ true }
    ensures { IfOk result (λ t. t ≡ client.lose_session turn (session_of turn)) }
{
    let epoch = turn.session().epoch();
    let mut turn = turn.discard(now)?;
    end_operations(&mut turn, epoch)?;
    Ok(turn)
}

/// The loss at a server: if a session's lease is over, everything that rested on it is
/// discarded.
pub fn lose(turn: Turn, now: Stamp) -> Result<Turn, AllocError>
    ensures { IfOk result (λ t. t ≡ client.lose now turn) }
{
    match turn.into_session() {
        Ok(turn) => {
            if turn.session().is_over(now) {
                lose_session(turn, now)
            } else {
                Ok(turn.into_turn())
            }
        }
        Err(turn) => Ok(turn),
    }
}
