// A request that was sent and not answered yet.
ghost use Rattle.std.specs.Prelude.{◌≡◌, ◌+◌, ◌<◌, IfOk};
ghost use Rattle.st_base.specs.Nodes.{HasNode};
ghost use Rattle.st_rules.specs.ClientState as client_state;
ghost use Rattle.st_requests.specs.OutstandingRequest.{under_of};
ghost use Rattle.st_requests.specs.ServerRequests as shown;

use st_base::{ClientId, Epoch, Life, ServerId, Stamp};
use st_messages::{Body, Header, Message};
use st_rules::Request;
use std::alloc::AllocError;

/// A request, with the life and the epoch under which it was asked.
#[derive(Drop)]
pub struct OutstandingRequest {
    pub life: Life,
    pub epoch: Epoch,
    pub request: Request,
}

impl OutstandingRequest {
    /// What precedes the request, if it is sent now.
    fn header(&self, client: ClientId, server: ServerId, now: Stamp) -> Header
        requires { HasNode server }
        ensures { result ≡ shown.header client server (under_of self.now) self.now.request.number now }
    {
        Header {
            from: client.0,
            to: server.node(),
            life: self.life.0,
            epoch: self.epoch.0,
            number: self.request.number,
            stamp: now.0,
        }
    }

    /// The message of the request, if it is sent now.
    pub fn message(
        &self,
        client: ClientId,
        server: ServerId,
        now: Stamp,
    ) -> Result<Message, AllocError>
        requires { HasNode server }
        ensures { IfOk result (λ m.
            m ≡ shown.message client server (under_of self.now) self.now.request.number self.now.request.body now) }
    {
        Ok(Message {
            header: self.header(client, server, now),
            body: self.request.body.copy()?,
        })
    }

    /// Whether the request was last sent `retry` ticks ago, or earlier.
    pub fn is_due(&self, retry: u64, now: Stamp) -> bool
        ensures { result ≡ client_state.is_again_due retry now self.now.request }
    {
        let sent = self.request.sent;
        sent.0 <= now.0 && retry <= now.0 - sent.0
    }

    pub fn into_body(self) -> Body
        ensures { result ≡ self.request.body }
    {
        self.request.body
    }
}
