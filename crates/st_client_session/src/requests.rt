// The requests of a session.
ghost use Rattle.std.specs.Prelude.{◌≡◌, ◌+◌, ◌<◌, ◌^◌, true, None, IfOk, OnOk, OnErr, option_map, is_some, nat_lt};
ghost use Rattle.st_client_session.specs.Sessions.{Again, TakesRelease, message, with_session};
ghost use Rattle.st_requests.specs.ServerRequests.{body_of, copied, ended, sent_of, shown};
ghost use Rattle.st_rules.specs.ClientReplies as replies;
ghost use Rattle.st_rules.specs.ClientState as client;

use crate::session::Session;
use st_base::{Epoch, GrantNo, Mode, Stamp};
use st_messages::{Body, Message};
use st_requests::{Reply, Requests};
use st_rules::Release;
use std::alloc::AllocError;

/// Whether a body is this release.
fn releases_as(body: &Body, ino: u32, g: GrantNo, to: Mode) -> bool
    ensures { result ≡ client.releases_as ino g to body.now }
{
    match body {
        Body::Released {
            ino: i,
            g: h,
            to: m,
        } => *i == ino && h.0 == g.0 && m.number() == to.number(),
        _ => false,
    }
}

/// Ends the outstanding request, and returns its body.
fn end_asked(requests: &mut Requests) -> Option<Body>
    requires { requests.old.requests.asked ≡ None → requests.old.under ≡ None }
    ensures body { result ≡ option_map body_of requests.old.requests.asked }
    ensures left { requests.new ≡ ended requests.old }
{
    let number = match requests.asked() {
        None => return None,
        Some((number, _)) => number,
    };
    match requests.reply(number) {
        Reply::Match(body) => Some(body),
        Reply::Other => unreachable!(),
    }
}

impl Session {
    /// The number and the body of the outstanding request, or `None` if there is none.
    pub fn asked(&self) -> Option<(u64, &Body)>
        ensures { option_map copied result ≡ option_map shown self.now.session.requests.asked }
    {
        self.requests.asked()
    }

    /// When the outstanding request was last sent, or `None` if there is none.
    pub fn sent(&self) -> Option<Stamp>
        ensures { result ≡ option_map sent_of self.now.session.requests.asked }
    {
        self.requests.sent()
    }

    /// Whether a request is outstanding.
    pub fn has_asked(&self) -> bool
        ensures { result ≡ is_some self.now.session.requests.asked }
    {
        self.requests.waiting()
    }

    /// Whether a number is left for one more request.
    pub fn has_room(&self) -> bool
        ensures { result ≡ nat_lt self.now.session.requests.next (2 ^ 62) }
    {
        self.requests.has_room()
    }

    /// Whether the outstanding request is this release.
    pub(crate) fn is_releasing(&self, ino: u32, g: GrantNo, to: Mode) -> bool
        ensures { result ≡ client.is_releasing ino g to self.now.session.requests.asked }
    {
        match self.requests.asked() {
            None => false,
            Some((_, body)) => releases_as(body, ino, g, to),
        }
    }

    /// Asks with the next number; the file that is cut or removed is busy. It returns the message
    /// to send. If the call runs out of memory, nothing changes.
    #[tactic(auto, unfolding(st_rules::specs::ClientState::asking))]
    pub fn ask(
        &mut self,
        body: Body,
        cutting: Option<u32>,
        now: Stamp,
    ) -> Result<Message, AllocError>
        requires free { self.old.session.requests.asked ≡ None }
        requires next { self.old.session.requests.next + 1 < 2 ^ 64 }
        ensures told { IfOk result (λ m. m ≡ message self.old self.old.session.requests.next body now) }
        ensures left { OnOk result (self.new ≡ with_session (record self.old.session { requests = client.asking self.old.session.requests body now; cutting = cutting }) self.old) }
        ensures err { OnErr result (self.new ≡ self.old) }
    {
        let message = self.requests.ask(self.life, self.epoch, body, now)?;
        self.cutting = cutting;
        Ok(message)
    }

    /// Ends the outstanding request, and returns its body. It does not allocate.
    pub fn end_request(&mut self) -> Option<Body>
        ensures body { result ≡ option_map body_of self.old.session.requests.asked }
        ensures left { self.new ≡ with_session (client.without_request self.old.session) self.old }
    {
        let body = end_asked(&mut self.requests);
        self.cutting = None;
        body
    }

    /// A newer epoch begins: requests, waits, releases and demands are forgotten, and the locks
    /// must be reasserted. It does not allocate.
    pub fn begin_epoch(&mut self, epoch: Epoch)
        ensures { self.new ≡ with_session (replies.in_epoch epoch self.old.session) self.old }
    {
        // The body of the request that was outstanding is dropped.
        let _body = self.requests.new_epoch();
        self.epoch = epoch;
        self.cutting = None;
        self.due = true;
        self.locks.forget_demands();
        self.waits.clear();
        self.releases.clear();
    }

    /// Asks again: the message of the outstanding request, sent now, or `None` if none is
    /// outstanding or it was last sent a short time ago. If the call runs out of memory, nothing
    /// changes.
    pub fn again(&mut self, now: Stamp) -> Result<Option<Message>, AllocError>
        ensures ok { IfOk result (λ m. Again self.old self.new m now self.old.session.requests.asked) }
        ensures err { OnErr result (self.new ≡ self.old) }
    {
        let message = self.requests.again(now)?;
        Ok(message)
    }

    /// Takes out the first release. It does not allocate.
    pub fn take_release(&mut self) -> Option<Release>
        ensures { TakesRelease self.old self.new result }
    {
        if self.releases.is_empty() {
            None
        } else {
            Some(self.releases.remove(0))
        }
    }
}
