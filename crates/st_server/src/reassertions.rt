// Reassertions in grace.
ghost use Rattle.std.specs.Prelude.{◌≡◌, true, IfOk, OnOk};
ghost use Rattle.st_messages.specs.Ranges.{are_locks};
ghost use Rattle.st_locks.specs.DemandStarts.{IsClient};
ghost use Rattle.st_reassert.specs.Acceptance.{is_older};
ghost use Rattle.st_rules.specs.Server as server;
ghost use Rattle.st_server.specs.RuleConditions.{AreServed};
ghost use Rattle.st_server.specs.Steps.{Keeps};
ghost use Rattle.st_server.specs.RefusalReplies.{IsRefusal};

use crate::greetings::sender;
use crate::turn::ServerTurn;
use st_base::{Epoch, Life, LockRows, Stamp};
use st_messages::{Body, Header, Why};
use st_reassert::ReassertRefusal;
use st_sessions::Taken;
use std::alloc::AllocError;

/// The reply that tells a refusal, or the error if memory ran out.
fn refused(refusal: ReassertRefusal) -> Result<Body, AllocError>
    ensures { IfOk result (λ body. IsRefusal refusal body) }
{
    match refusal {
        ReassertRefusal::GraceOver(start, now) => Ok(Body::Nack {
            why: Why::GraceOver,
            a: start.0,
            b: now.0,
        }),
        ReassertRefusal::Conflict(ino, holder) => Ok(Body::Nack {
            why: Why::Conflict,
            a: u64::from(ino),
            b: u64::from(holder.0),
        }),
        ReassertRefusal::NotHolder(ino, g) => Ok(Body::Nack {
            why: Why::NotHolder,
            a: u64::from(ino),
            b: g.0,
        }),
        ReassertRefusal::Memory => Err(AllocError),
    }
}

impl ServerTurn {
    /// A reassertion of a life that is new to the sessions.
    #[tactic(auto, unfolding(st_rules::specs::Server::reassert_new, st_rules::specs::Server::reassert_by, st_rules::specs::Server::crash))]
    fn reassert_new(&mut self, now: Stamp, h: Header, rows: &LockRows) -> Result<(), AllocError>
        requires client { IsClient (server.sender h) }
        requires fits { are_locks rows.now ≡ true }
        requires older { is_older self.old.state.locks (server.sender h) (server.life_in h) ≡ true }
        ensures ok { OnOk result (self.new ≡ server.reassert_new self.old now h rows.now) }
        ensures kept { Keeps self.old self.new }
    {
        match self.grace.accept(
            now,
            sender(h),
            Life(h.life),
            rows.as_slice(),
            &mut self.locks,
            &mut self.sessions,
        ) {
            Ok(()) => self.reply(h, Body::Reasserted),
            Err(refusal) => {
                let body = refused(refusal)?;
                self.reply(h, body)
            }
        }
    }

    /// What becomes of a request by its life and number, with a copy of the kept reply.
    pub(crate) fn take(&self, h: Header) -> Result<Taken<Body>, AllocError>
        ensures { IfOk result (λ taken. taken ≡ server.take self.now h) }
    {
        match self
            .sessions
            .take(sender(h), Life(h.life), Epoch(h.epoch), h.number)
        {
            Taken::OtherEpoch => Ok(Taken::OtherEpoch),
            Taken::NoSession => Ok(Taken::NoSession),
            Taken::Stale => Ok(Taken::Stale),
            Taken::Again(reply) => Ok(Taken::Again(reply.copy()?)),
            Taken::Fresh => Ok(Taken::Fresh),
            Taken::OutOfOrder => Ok(Taken::OutOfOrder),
        }
    }

    /// The reply that was kept, if the number is the last one.
    #[tactic(auto, unfolding(st_rules::specs::Server::reassert_again))]
    fn reassert_again(&mut self, h: Header, taken: Taken<Body>) -> Result<(), AllocError>
        ensures ok { OnOk result (self.new ≡ server.reassert_again self.old h taken) }
        ensures kept { Keeps self.old self.new }
    {
        match taken {
            Taken::Again(body) => self.reply(h, body),
            _ => Ok(()),
        }
    }

    /// A client reasserts its locks.
    #[tactic(auto, unfolding(st_rules::specs::Server::reassert))]
    pub(crate) fn reassert(
        &mut self,
        now: Stamp,
        h: Header,
        rows: &LockRows,
    ) -> Result<(), AllocError>
        requires client { IsClient (server.sender h) }
        requires fits { are_locks rows.now ≡ true }
        requires served { AreServed self.old.state }
        ensures ok { OnOk result (self.new ≡ server.reassert self.old now h rows.now) }
        ensures kept { Keeps self.old self.new }
    {
        if self.sessions.knows(sender(h), Life(h.life)) {
            let taken = self.take(h)?;
            self.reassert_again(h, taken)
        } else {
            self.reassert_new(now, h, rows)
        }
    }
}
