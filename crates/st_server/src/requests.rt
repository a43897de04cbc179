// A message that comes: by its sender, its epoch and number, and its body.
ghost use Rattle.std.specs.Prelude.{◌≡◌, true, IfOk, OnOk, OnErr};
ghost use Rattle.st_messages.specs.Ranges.{is_body};
ghost use Rattle.st_locks.specs.DemandStarts.{IsClient};
ghost use Rattle.st_rules.specs.Server as server;
ghost use Rattle.st_server.specs.RuleConditions.{AreServed, has_body};
ghost use Rattle.st_server.specs.Room.{HasRoom};
ghost use Rattle.st_server.specs.Steps.{Fails, Keeps, answered};

use crate::greetings::sender;
use crate::turn::ServerTurn;
use st_base::Stamp;
use st_messages::{Body, Header, Why};
use st_rules::ServerInput;
use st_sessions::Taken;
use std::alloc::AllocError;

impl ServerTurn {
    /// The rule of a request whose number is the next one, and its reply.
    #[tactic(auto, using(crate::proofs::Distinct::lock_mode), unfolding(st_rules::specs::Server::rule, st_rules::specs::Server::keep_alive, st_messages::specs::Ranges::is_body))]
    fn rule(&mut self, now: Stamp, h: Header, body: &Body) -> Result<Option<Body>, AllocError>
        requires client { IsClient (server.sender h) }
        requires fits { is_body body.now ≡ true }
        requires room { HasRoom self.old.state }
        ensures ok { IfOk result (λ reply. answered self.new reply ≡ server.rule self.old now h body.now) }
        ensures err { OnErr result (Fails self.old self.new (server.rule self.old now h body.now).turn) }
    {
        match body {
            Body::KeepAlive => Ok(Some(Body::Ack)),
            Body::Acquire { ino, mode } => Ok(Some(self.acquire(now, h, *ino, *mode)?)),
            Body::Released { ino, g, to } => Ok(Some(self.released(h, *ino, *g, *to))),
            Body::Map { ino, g, page } => Ok(Some(self.map(h, *ino, *g, *page)?)),
            Body::Allocate {
                ino,
                g,
                page,
                count,
            } => Ok(Some(self.allocate(h, *ino, *g, *page, u32::from(*count))?)),
            Body::Cut { ino, g, from } => Ok(Some(self.cut(h, *ino, *g, *from)?)),
            Body::Name(op) => Ok(Some(self.name(h, op)?)),
            _ => Ok(None),
        }
    }

    /// If there is a reply, the number is the session's last one now, and the reply is kept and
    /// sent.
    #[tactic(auto, unfolding(st_rules::specs::Server::keep, st_rules::specs::Server::keep_and_reply, st_rules::specs::Server::crash))]
    fn keep(&mut self, h: Header, reply: Option<Body>) -> Result<(), AllocError>
        ensures ok { OnOk result (self.new ≡ server.keep h self.old reply) }
        ensures kept { Keeps self.old self.new }
    {
        match reply {
            None => Ok(()),
            Some(body) => {
                self.sessions.store(sender(h), h.number, &body)?;
                self.reply(h, body)
            }
        }
    }

    /// A request whose number is the next one is served, and its reply is kept.
    #[tactic(auto, unfolding(st_rules::specs::Server::serve))]
    fn serve(&mut self, now: Stamp, h: Header, body: &Body) -> Result<(), AllocError>
        requires client { IsClient (server.sender h) }
        requires fits { is_body body.now ≡ true }
        requires room { HasRoom self.old.state }
        ensures ok { OnOk result (self.new ≡ server.serve h (server.rule self.old now h body.now)) }
        ensures err { OnErr result (Fails self.old self.new (server.serve h (server.rule self.old now h body.now))) }
    {
        let reply = self.rule(now, h, body)?;
        self.keep(h, reply)
    }

    #[tactic(auto, unfolding(st_rules::specs::Server::refuse_epoch))]
    fn refuse_epoch(&mut self, h: Header) -> Result<(), AllocError>
        ensures ok { OnOk result (self.new ≡ server.refuse_epoch self.old h) }
        ensures kept { Keeps self.old self.new }
    {
        let epoch = self.stable.epoch;
        self.reply(
            h,
            Body::Nack {
                why: Why::OtherEpoch,
                a: h.epoch,
                b: epoch.0,
            },
        )
    }

    /// A request by its number: what becomes of it among the sessions.
    #[tactic(auto, unfolding(st_rules::specs::Server::request_by))]
    fn request_numbered(&mut self, now: Stamp, h: Header, body: &Body) -> Result<(), AllocError>
        requires client { IsClient (server.sender h) }
        requires fits { is_body body.now ≡ true }
        requires room { HasRoom self.old.state }
        ensures ok { OnOk result (self.new ≡ server.request_by self.old now h body.now (server.take self.old h)) }
        ensures err { OnErr result (Fails self.old self.new (server.request_by self.old now h body.now (server.take self.old h))) }
    {
        match self.take(h)? {
            Taken::OtherEpoch => self.refuse_epoch(h),
            Taken::NoSession => self.reply(
                h,
                Body::Nack {
                    why: Why::NoSession,
                    a: 0,
                    b: 0,
                },
            ),
            Taken::Stale => Ok(()),
            Taken::Again(kept) => self.reply(h, kept),
            Taken::OutOfOrder => Ok(()),
            Taken::Fresh => self.serve(now, h, body),
        }
    }

    /// A request of the present epoch, or of another one.
    #[tactic(auto, unfolding(st_rules::specs::Server::of_epoch, st_rules::specs::Server::request, st_messages::specs::Ranges::is_body))]
    fn of_epoch(&mut self, now: Stamp, h: Header, body: &Body) -> Result<(), AllocError>
        requires client { IsClient (server.sender h) }
        requires fits { is_body body.now ≡ true }
        requires room { HasRoom self.old.state }
        requires served { AreServed self.old.state }
        ensures ok { OnOk result (self.new ≡ server.of_epoch self.old now h body.now) }
        ensures err { OnErr result (Fails self.old self.new (server.of_epoch self.old now h body.now)) }
    {
        if h.epoch != self.stable.epoch.0 {
            return self.refuse_epoch(h);
        }
        match body {
            Body::Reassert(rows) => self.reassert(now, h, rows),
            _ => self.request_numbered(now, h, body),
        }
    }

    /// A message of a client that isn't a suspect, by its body.
    #[tactic(auto, unfolding(st_rules::specs::Server::by_body))]
    fn by_body(&mut self, now: Stamp, h: Header, body: &Body) -> Result<(), AllocError>
        requires client { IsClient (server.sender h) }
        requires fits { is_body body.now ≡ true }
        requires room { HasRoom self.old.state }
        requires served { AreServed self.old.state }
        ensures ok { OnOk result (self.new ≡ server.by_body self.old now h body.now) }
        ensures err { OnErr result (Fails self.old self.new (server.by_body self.old now h body.now)) }
    {
        match body {
            Body::Hello => self.hello(now, h),
            Body::DemandSeen { ino, g } => {
                self.demand_seen(h, *ino, *g);
                Ok(())
            }
            _ => self.of_epoch(now, h, body),
        }
    }

    /// Whether the message is from a client to this server.
    fn is_for(&self, h: Header) -> bool
        ensures { result ≡ server.is_for self.now.state h }
    {
        h.to == self.id.node() && (1 <= h.from && h.from <= 16)
    }

    /// A message comes. It is one of a suspect, or goes by its body.
    #[tactic(auto, unfolding(st_rules::specs::Server::receive, st_rules::specs::Server::receive_from, st_rules::specs::Server::by_suspicion))]
    fn receive(&mut self, now: Stamp, h: Header, body: &Body) -> Result<(), AllocError>
        requires fits { is_body body.now ≡ true }
        requires room { HasRoom self.old.state }
        requires served { AreServed self.old.state }
        ensures ok { OnOk result (self.new ≡ server.receive self.old now h body.now) }
        ensures err { OnErr result (Fails self.old self.new (server.receive self.old now h body.now)) }
    {
        if self.is_for(h) {
            match self.authority.started(sender(h)) {
                None => self.by_body(now, h, body),
                Some(start) => self.refuse_suspect(h, start, body),
            }
        } else {
            Ok(())
        }
    }

    /// The rule for the input.
    #[tactic(auto, unfolding(st_rules::specs::Server::take_input))]
    pub(crate) fn take_input(&mut self, now: Stamp, input: &ServerInput) -> Result<(), AllocError>
        requires fits { has_body input.now ≡ true }
        requires room { HasRoom self.old.state }
        requires served { AreServed self.old.state }
        ensures ok { OnOk result (self.new ≡ server.take_input self.old now input.now) }
        ensures err { OnErr result (Fails self.old self.new (server.take_input self.old now input.now)) }
    {
        match input {
            ServerInput::Tick => Ok(()),
            ServerInput::Control(message) => self.receive(now, message.header, &message.body),
        }
    }
}
