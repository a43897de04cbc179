// What a rule puts out: notes, and messages to clients.
ghost use Rattle.std.specs.Prelude.{◌≡◌, OnOk};
ghost use Rattle.st_rules.specs.Server as server;

use crate::turn::ServerTurn;
use st_base::{ClientId, Life};
use st_messages::{Body, Header, Message, Note, Output};
use std::alloc::AllocError;

impl ServerTurn {
    fn say(&mut self, output: Output) -> Result<(), AllocError>
        ensures ok { OnOk result (self.new ≡ server.say self.old output) }
        ensures same { self.new.state ≡ self.old.state }
    {
        self.out.push(output)?;
        Ok(())
    }

    pub(crate) fn note(&mut self, note: Note) -> Result<(), AllocError>
        ensures ok { OnOk result (self.new ≡ server.note self.old note) }
        ensures same { self.new.state ≡ self.old.state }
    {
        self.say(Output::Note(note))
    }

    fn send(&mut self, header: Header, body: Body) -> Result<(), AllocError>
        ensures ok { OnOk result (self.new ≡ server.send self.old header body) }
        ensures same { self.new.state ≡ self.old.state }
    {
        self.say(Output::Send(Message { header, body }))
    }

    /// Replies to the request with this header.
    #[tactic(auto, unfolding(st_rules::specs::Server::reply))]
    pub(crate) fn reply(&mut self, h: Header, body: Body) -> Result<(), AllocError>
        ensures ok { OnOk result (self.new ≡ server.reply self.old h body) }
        ensures same { self.new.state ≡ self.old.state }
    {
        let header = Header {
            from: self.id.node(),
            to: h.from,
            life: h.life,
            epoch: self.stable.epoch.0,
            number: h.number,
            stamp: h.stamp,
        };
        self.send(header, body)
    }

    /// Tells a client what it did not ask for.
    #[tactic(auto, unfolding(st_rules::specs::Server::tell))]
    pub(crate) fn tell(
        &mut self,
        client: ClientId,
        life: Life,
        body: Body,
    ) -> Result<(), AllocError>
        ensures ok { OnOk result (self.new ≡ server.tell self.old client life body) }
        ensures same { self.new.state ≡ self.old.state }
    {
        let header = Header {
            from: self.id.node(),
            to: client.0,
            life: life.0,
            epoch: self.stable.epoch.0,
            number: 0,
            stamp: 0,
        };
        self.send(header, body)
    }
}
