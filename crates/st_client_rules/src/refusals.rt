// Refused requests: what is pending on the request's file, or on its page, is answered.
ghost use Rattle.std.specs.Prelude.{◌≡◌, OnOk};
ghost use Rattle.st_rules.specs.ClientReplies as replies;

use crate::bodies::{asks_cut_or_remove, page_asked};
use st_client_association::SessionTurn;
use st_messages::{AppAnswer, Body, Why};
use st_operations::{ChangesPage, RequestingOperation, WorksOn};
use std::alloc::AllocError;

#[tactic(auto, unfolding(st_rules::specs::ClientReplies::refuse_file))]
fn refuse_file(
    turn: &mut SessionTurn,
    answer: &AppAnswer,
    file: Option<u32>,
) -> Result<(), AllocError>
    ensures { OnOk result (turn.new ≡ replies.refuse_file turn.old answer.now file) }
{
    let server = turn.turn().server();
    match file {
        None => Ok(()),
        Some(ino) => turn.answer_each(&WorksOn { server, ino }, answer),
    }
}

/// What is pending is answered, by why the request was refused.
#[tactic(auto, unfolding(st_rules::specs::ClientReplies::refuse_as, st_rules::specs::ClientReplies::refuse_page, st_rules::specs::ClientReplies::refuse_holder))]
fn refuse_as(
    turn: &mut SessionTurn,
    why: Why,
    a: u64,
    b: u64,
    file: Option<u32>,
    asked: &Body,
) -> Result<(), AllocError>
    ensures { OnOk result (turn.new ≡ replies.refuse_as turn.old why a b file asked.now) }
{
    let server = turn.turn().server();
    match why {
        Why::NoFile => refuse_file(turn, &AppAnswer::NoFile, file),
        Why::TooManyLocks => refuse_file(turn, &AppAnswer::TooManyLocks, file),
        Why::NoSpace => match (file, page_asked(asked)) {
            (Some(ino), Some(page)) => turn.answer_each(
                &ChangesPage { server, ino, page },
                &AppAnswer::NoSpace(a, b),
            ),
            _ => Ok(()),
        },
        Why::NotHolder => {
            if asks_cut_or_remove(asked) {
                turn.answer_each(&RequestingOperation { server }, &AppAnswer::NotHolder)
            } else {
                Ok(())
            }
        }
        _ => Ok(()),
    }
}

/// A refused request; an operation that waited for it and was not answered is stuck.
#[tactic(auto, unfolding(st_rules::specs::ClientReplies::refused))]
pub fn refused(
    turn: &mut SessionTurn,
    why: Why,
    a: u64,
    b: u64,
    file: Option<u32>,
    asked: &Body,
) -> Result<(), AllocError>
    ensures { OnOk result (turn.new ≡ replies.refused turn.old why a b file asked.now) }
{
    refuse_as(turn, why, a, b, file, asked)?;
    turn.leave_stuck()
}
