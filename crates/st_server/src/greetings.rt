// Greetings, and demands that were seen.
ghost use Rattle.std.specs.Prelude.{◌≡◌, OnOk};
ghost use Rattle.st_rules.specs.Server as server;
ghost use Rattle.st_server.specs.Steps.{Keeps};

use crate::turn::ServerTurn;
use st_base::{ClientId, GrantNo, Life, Stamp};
use st_messages::{Body, Header, Why};
use st_sessions::Hello;
use std::alloc::AllocError;

/// The client that sent a message.
pub(crate) fn sender(h: Header) -> ClientId
    ensures { result ≡ server.sender h }
{
    ClientId(h.from)
}

impl ServerTurn {
    pub(crate) fn in_grace(&self, now: Stamp) -> bool
        ensures { result ≡ server.in_grace self.now now }
    {
        self.grace.is_on(now)
    }

    /// Replies to a greeting. If a new session replaced a living one, its waits are dropped.
    #[tactic(auto, unfolding(st_rules::specs::Server::greet_as, st_rules::specs::Server::crash))]
    fn greet_as(&mut self, now: Stamp, h: Header, hello: Hello) -> Result<(), AllocError>
        ensures ok { OnOk result (self.new ≡ server.greet_as self.old now h hello) }
        ensures kept { Keeps self.old self.new }
    {
        match hello {
            Hello::Welcome => self.reply(h, Body::Welcome),
            Hello::Replaced => {
                self.locks.drop_waits(sender(h));
                self.reply(h, Body::Welcome)
            }
            Hello::Old => Ok(()),
            Hello::Wait => {
                self.suspect_client(now, sender(h))?;
                self.reply(
                    h,
                    Body::Nack {
                        why: Why::Suspect,
                        a: now.0,
                        b: 0,
                    },
                )
            }
        }
    }

    /// A greeting outside grace.
    #[tactic(auto, unfolding(st_rules::specs::Server::greet, st_rules::specs::Server::greet_by, st_rules::specs::Server::crash))]
    fn greet(&mut self, now: Stamp, h: Header) -> Result<(), AllocError>
        ensures ok { OnOk result (self.new ≡ server.greet self.old now h) }
        ensures kept { Keeps self.old self.new }
    {
        let client = sender(h);
        let rows = self.locks.has_rows(client);
        let hello = self.sessions.hello(client, Life(h.life), rows)?;
        self.greet_as(now, h, hello)
    }

    /// A client greets.
    #[tactic(auto, unfolding(st_rules::specs::Server::hello, st_rules::specs::Server::refuse_in_grace))]
    pub(crate) fn hello(&mut self, now: Stamp, h: Header) -> Result<(), AllocError>
        ensures ok { OnOk result (self.new ≡ server.hello self.old now h) }
        ensures kept { Keeps self.old self.new }
    {
        if self.in_grace(now) {
            let start = self.grace.start();
            self.reply(
                h,
                Body::Nack {
                    why: Why::Grace,
                    a: start.0,
                    b: 0,
                },
            )
        } else {
            self.greet(now, h)
        }
    }

    /// Whether the message belongs to this epoch and to its client's living session.
    fn is_served(&self, h: Header) -> bool
        ensures { result ≡ server.is_served self.now h }
    {
        h.epoch == self.stable.epoch.0 && self.sessions.serves(sender(h), Life(h.life))
    }

    /// A demand on a row no longer waits for an answer.
    #[tactic(auto, unfolding(st_rules::specs::Server::demand_seen, st_rules::specs::Server::observe_demand, st_rules::specs::Server::crash))]
    pub(crate) fn demand_seen(&mut self, h: Header, ino: u32, g: GrantNo)
        ensures seen { self.new ≡ server.demand_seen self.old h ino g }
        ensures kept { Keeps self.old self.new }
    {
        if self.is_served(h) {
            self.locks.answered(sender(h), ino, g);
        }
    }
}
