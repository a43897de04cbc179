// Requests on locks.
ghost use Rattle.std.specs.Prelude.{true, ◌≡◌, ◌+◌, ◌^◌, ◌<◌, IfOk, Some};
ghost use Rattle.st_locks.specs.Calls.{is_lock};
ghost use Rattle.st_locks.specs.DemandStarts.{IsClient};
ghost use Rattle.st_rules.specs.Server as server;
ghost use Rattle.st_server.specs.Steps.{Keeps, answered};
ghost use Rattle.st_server.specs.RefusalReplies.{no_file_body, not_holder_body};

use crate::greetings::sender;
use crate::turn::ServerTurn;
use st_base::{GrantNo, Life, Mode, Stamp};
use st_locks::{LockRefusal, Verdict};
use st_messages::{Body, Header, Why};
use std::alloc::AllocError;

/// What a client is told about its request for a lock.
fn verdict_body(ino: u32, mode: Mode, verdict: Verdict) -> Body
    ensures { result ≡ server.verdict_body ino mode verdict }
{
    match verdict {
        Verdict::Granted(g, held) => Body::Granted { ino, g, mode: held },
        Verdict::Queued(_) => Body::Queued { ino, mode },
    }
}

impl ServerTurn {
    /// A client asks for a lock on a file.
    #[tactic(auto, unfolding(st_rules::specs::Server::acquire_lock, st_rules::specs::Server::acquire_by, st_rules::specs::Server::crash))]
    fn acquire_lock(
        &mut self,
        now: Stamp,
        h: Header,
        ino: u32,
        mode: Mode,
    ) -> Result<Body, AllocError>
        requires client { IsClient (server.sender h) }
        requires lock { is_lock mode ≡ true }
        requires room { self.old.state.locks.grants + 1 < 2 ^ 32 }
        ensures ok { IfOk result (λ body. answered self.new (Some body) ≡ server.acquire_lock self.old now h ino mode) }
        ensures kept { Keeps self.old self.new }
    {
        let grants = !self.in_grace(now);
        let limit = self.locks.limit();
        match self
            .locks
            .acquire(sender(h), Life(h.life), ino, mode, grants)
        {
            Ok(verdict) => Ok(verdict_body(ino, mode, verdict)),
            Err(LockRefusal::TooManyLocks) => Ok(Body::Nack {
                why: Why::TooManyLocks,
                a: limit,
                b: 0,
            }),
            Err(_) => Err(AllocError),
        }
    }

    /// Whether the inode is a file.
    pub(crate) fn is_file(&self, ino: u32) -> bool
        ensures { result ≡ server.is_file self.now ino }
    {
        self.stable.names.is_file(ino)
    }

    /// A client asks for a lock.
    #[tactic(auto, unfolding(st_rules::specs::Server::acquire, st_rules::specs::Server::no_file))]
    pub(crate) fn acquire(
        &mut self,
        now: Stamp,
        h: Header,
        ino: u32,
        mode: Mode,
    ) -> Result<Body, AllocError>
        requires client { IsClient (server.sender h) }
        requires lock { is_lock mode ≡ true }
        requires room { self.old.state.locks.grants + 1 < 2 ^ 32 }
        ensures ok { IfOk result (λ body. answered self.new (Some body) ≡ server.acquire self.old now h ino mode) }
        ensures kept { Keeps self.old self.new }
    {
        if self.is_file(ino) {
            self.acquire_lock(now, h, ino, mode)
        } else {
            Ok(no_file(ino))
        }
    }

    /// A client lowers its lock.
    #[tactic(auto, unfolding(st_rules::specs::Server::released, st_rules::specs::Server::released_by, st_rules::specs::Server::crash))]
    pub(crate) fn released(&mut self, h: Header, ino: u32, g: GrantNo, to: Mode) -> Body
        ensures released { answered self.new (Some result) ≡ server.released self.old h ino g to }
        ensures kept { Keeps self.old self.new }
    {
        // The answer is the same whether a row was found or not.
        let _found = self.locks.released(sender(h), Life(h.life), ino, g, to);
        Body::Ack
    }

    /// Whether the client holds the file under this grant number, in this mode at least.
    pub(crate) fn holds(&self, h: Header, ino: u32, g: GrantNo, mode: Mode) -> bool
        ensures { result ≡ server.holds self.now h ino g mode }
    {
        match self.locks.row(sender(h), ino) {
            None => false,
            Some((held, m)) => held.0 == g.0 && m.covers(mode),
        }
    }
}

/// No file has this inode.
pub(crate) fn no_file(ino: u32) -> Body
    ensures { result ≡ no_file_body ino }
{
    Body::Nack {
        why: Why::NoFile,
        a: u64::from(ino),
        b: 0,
    }
}

/// The client does not hold the file so.
pub(crate) fn not_holder(ino: u32, g: GrantNo) -> Body
    ensures { result ≡ not_holder_body ino g }
{
    Body::Nack {
        why: Why::NotHolder,
        a: u64::from(ino),
        b: g.0,
    }
}
