// Suspicion and theft.
ghost use Rattle.std.specs.Prelude.{◌≡◌, OnOk};
ghost use Rattle.st_rules.specs.Server as server;
ghost use Rattle.st_server.specs.Steps.{Keeps, stolen};

use crate::turn::ServerTurn;
use st_base::{ClientId, Life, Stamp};
use st_messages::{Body, Header, Note, Why};
use std::alloc::AllocError;

impl ServerTurn {
    /// Steals the locks of a client, whose session has this life.
    #[tactic(auto, unfolding(st_rules::specs::Server::crash))]
    fn steal_from(&mut self, client: ClientId, life: Life) -> Result<(), AllocError>
        ensures ok { OnOk result (self.new ≡ stolen self.old client life) }
        ensures kept { Keeps self.old self.new }
    {
        self.note(Note::Stolen { client, life })?;
        self.locks.forget(client);
        self.sessions.end(client);
        Ok(())
    }

    #[tactic(auto, unfolding(st_rules::specs::Server::steal))]
    fn steal(&mut self, client: ClientId) -> Result<(), AllocError>
        ensures ok { OnOk result (self.new ≡ server.steal self.old client) }
        ensures kept { Keeps self.old self.new }
    {
        match self.sessions.life(client) {
            None => Ok(()),
            Some(life) => self.steal_from(client, life),
        }
    }

    #[tactic(auto, unfolding(st_rules::specs::Server::steal_each))]
    fn steal_each(&mut self, clients: &[ClientId]) -> Result<(), AllocError>
        ensures ok { OnOk result (self.new ≡ server.steal_each clients.now self.old) }
        ensures kept { Keeps self.old self.new }
    {
        for client in clients {
            self.steal(*client)?;
        }
        Ok(())
    }

    /// The thefts of this moment: the locks of each suspect whose timer is over, in rising order.
    #[tactic(auto, unfolding(st_rules::specs::Server::thefts, st_rules::specs::Server::crash))]
    pub(crate) fn thefts(&mut self, now: Stamp) -> Result<(), AllocError>
        ensures ok { OnOk result (self.new ≡ server.thefts self.old now) }
        ensures kept { Keeps self.old self.new }
    {
        let clients = self.authority.over(now)?;
        self.steal_each(clients.as_slice())
    }

    /// Makes a client suspect: its timer starts now, and its waits are dropped.
    #[tactic(auto, unfolding(st_rules::specs::Server::suspect_client, st_rules::specs::Server::crash))]
    pub(crate) fn suspect_client(&mut self, now: Stamp, client: ClientId) -> Result<(), AllocError>
        ensures ok { OnOk result (self.new ≡ server.suspect_client self.old now client) }
        ensures kept { Keeps self.old self.new }
    {
        self.note(Note::Suspected { client, start: now })?;
        self.authority.suspect(client, now)?;
        self.locks.drop_waits(client);
        Ok(())
    }

    /// Refuses a suspect's message; a seen demand is ignored.
    #[tactic(auto, unfolding(st_rules::specs::Server::refuse_suspect))]
    pub(crate) fn refuse_suspect(
        &mut self,
        h: Header,
        start: Stamp,
        body: &Body,
    ) -> Result<(), AllocError>
        ensures ok { OnOk result (self.new ≡ server.refuse_suspect self.old h start body.now) }
        ensures kept { Keeps self.old self.new }
    {
        match body {
            Body::DemandSeen { .. } => Ok(()),
            _ => self.reply(
                h,
                Body::Nack {
                    why: Why::Suspect,
                    a: start.0,
                    b: 0,
                },
            ),
        }
    }
}
