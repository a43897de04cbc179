ghost use Rattle.std.specs.Prelude.{◌≡◌, ◌+◌, ◌<◌, ◌^◌, IfOk, None, OnErr, OnOk, nat_lt, option_map};
ghost use Rattle.st_base.specs.Nodes.{HasNode};
ghost use Rattle.st_requests.specs.ServerRequests as shown;

use crate::outstanding_request::OutstandingRequest;
use st_base::{ClientId, Epoch, Life, ServerId, Stamp};
use st_messages::{Body, Message};
use st_rules::Request;
use std::alloc::AllocError;
use std::marker::Model;

/// What a reply does to the outstanding request.
#[derive(Drop)]
pub enum Reply {
    /// It ends the outstanding request, whose body this is.
    Match(Body),
    /// Another request is outstanding, or none is.
    Other,
}

/// A client's requests to one server. Contracts see them as the client, the server, the time after
/// which an unanswered request is sent again, the life and the epoch of the outstanding request,
/// and the requests: the next number and the outstanding one.
#[derive(Drop)]
pub struct Requests {
    client: ClientId,
    server: ServerId,
    retry: u64,
    next: u64,
    asked: Option<OutstandingRequest>,
}

impl Model for Requests {
    ghost use Rattle.std.specs.Prelude.{◌<◌, option_map};
    ghost use Rattle.st_base.specs.Nodes.{HasNode};
    ghost use Rattle.st_requests.specs.ServerRequests.{ServerRequests};
    ghost use Rattle.st_requests.specs.OutstandingRequest.{request_of, under_of};

    ghost Value = { ServerRequests };

    ghost view = { λ r. record {
      client = r.client;
      server = r.server;
      retry = r.retry;
      under = option_map under_of r.asked;
      requests = record { next = r.next; asked = option_map request_of r.asked };
    } };

    ghost invariant = { λ r. HasNode r.server };
}

impl Requests {
    /// Nothing was asked yet. An unanswered request is sent again `retry` ticks after it was last
    /// sent.
    pub fn new(client: ClientId, server: ServerId, retry: u64) -> Requests
        requires node { HasNode server }
        ensures { result ≡ shown.no_requests client server retry }
    {
        Requests {
            client,
            server,
            retry,
            next: 1,
            asked: None,
        }
    }

    /// Whether a number is left for one more request. It does not allocate.
    pub fn has_room(&self) -> bool
        ensures { result ≡ nat_lt self.now.requests.next (2 ^ 62) }
    {
        self.next < 4_611_686_018_427_387_904
    }

    /// Asks in this life and epoch, with the next number. It returns the message to send. If the
    /// call runs out of memory, nothing changes.
    #[tactic(auto, unfolding(st_rules::specs::ClientState::asking))]
    pub fn ask(
        &mut self,
        life: Life,
        epoch: Epoch,
        body: Body,
        now: Stamp,
    ) -> Result<Message, AllocError>
        requires free { self.old.requests.asked ≡ None }
        requires next { self.old.requests.next + 1 < 2 ^ 64 }
        ensures told { IfOk result (λ m. m ≡ shown.asked_message (record { life = life; epoch = epoch }) body now self.old) }
        ensures left { OnOk result (self.new ≡ shown.asking (record { life = life; epoch = epoch }) body now self.old) }
        ensures err { OnErr result (self.new ≡ self.old) }
    {
        let asked = OutstandingRequest {
            life,
            epoch,
            request: Request {
                number: self.next,
                body,
                sent: now,
            },
        };
        let message = asked.message(self.client, self.server, now)?;
        self.next += 1;
        self.asked = Some(asked);
        Ok(message)
    }

    /// Asks again: the message of the outstanding request, sent now, or `None` if none is
    /// outstanding or it was last sent less than `retry` ticks ago. If the call runs out of memory,
    /// nothing changes.
    #[tactic(auto, unfolding(crate::specs::ServerRequests::again, crate::specs::ServerRequests::again_of, crate::specs::ServerRequests::again_if_due, crate::specs::ServerRequests::sent_again))]
    pub fn again(&mut self, now: Stamp) -> Result<Option<Message>, AllocError>
        ensures ok { IfOk result (λ m. shown.leaves_again m self.new ≡ shown.again self.old now) }
        ensures err { OnErr result (self.new ≡ self.old) }
    {
        let Some(asked) = &mut self.asked else {
            return Ok(None);
        };
        if !asked.is_due(self.retry, now) {
            return Ok(None);
        }
        let message = asked.message(self.client, self.server, now)?;
        asked.request.sent = now;
        Ok(Some(message))
    }

    /// Ends the outstanding request if it has this number. It does not allocate.
    #[tactic(auto, unfolding(crate::specs::ServerRequests::reply, crate::specs::ServerRequests::reply_to))]
    pub fn reply(&mut self, number: u64) -> Reply
        ensures { shown.leaves_reply result self.new ≡ shown.reply self.old number }
    {
        match self.asked.take() {
            None => Reply::Other,
            Some(asked) if asked.request.number == number => Reply::Match(asked.into_body()),
            Some(asked) => {
                self.asked = Some(asked);
                Reply::Other
            }
        }
    }

    /// The number and the body of the outstanding request, or `None` if there is none. It does not
    /// allocate.
    pub fn asked(&self) -> Option<(u64, &Body)>
        ensures { option_map shown.copied result ≡ shown.asked self.now }
    {
        let asked = self.asked.as_ref()?;
        Some((asked.request.number, &asked.request.body))
    }

    /// When the outstanding request was last sent, or `None` if there is none. It does not
    /// allocate.
    pub fn sent(&self) -> Option<Stamp>
        ensures { result ≡ shown.sent self.now }
    {
        let asked = self.asked.as_ref()?;
        Some(asked.request.sent)
    }

    /// Whether a request is outstanding. It does not allocate.
    pub fn waiting(&self) -> bool
        ensures { result ≡ shown.waiting self.now }
    {
        self.asked.is_some()
    }

    /// Begins a new epoch: the next number is 1 again. It returns the body of the outstanding
    /// request, which is given up, or `None` if there is none. It does not allocate.
    pub fn new_epoch(&mut self) -> Option<Body>
        ensures told { result ≡ shown.given_up self.old }
        ensures left { self.new ≡ shown.restarted self.old }
    {
        self.next = 1;
        let asked = self.asked.take()?;
        Some(asked.into_body())
    }
}
