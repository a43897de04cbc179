// Messages that are sent, and commands that are submitted.
ghost use Rattle.std.specs.Prelude.{◌≡◌, ◌≤◌, ◌+◌, true, OnOk, length};
ghost use Rattle.st_messages.specs.Ranges.{fits};
ghost use Rattle.st_rules.specs.Events as events;
ghost use Rattle.st_rules.specs.World as world;
ghost use Rattle.st_world_events.specs.Shapes.{issued_at, issues};
ghost use Rattle.st_world_events.specs.OutputEffects.{Keeps};

use crate::turn::{WorldTurn, site_at};
use st_base::{BlockAt, ClientId, Command};
use st_messages::Message;
use st_rules::{Carried, IssuedCommand, Observation};
use std::alloc::AllocError;

impl WorldTurn {
    /// Sends a message.
    #[tactic(auto, unfolding(st_rules::specs::Events::sends))]
    pub(crate) fn send(&mut self, message: Message) -> Result<(), AllocError>
        requires { fits message ≡ true }
        ensures exact { OnOk result (self.new ≡ events.sends self.old message) }
        ensures kept { Keeps self.old self.new }
    {
        let k = self.net.count() + 1;
        self.net.send(&message)?;
        self.observe(Observation::Sent { k, message })
    }

    fn carries(&self, client: ClientId, what: &Command) -> Option<Carried>
        ensures { result ≡ events.carries self.now.world client what.now }
    {
        match what {
            Command::Read { .. } => None,
            Command::Write { tag, .. } => Some(Carried {
                file: tag.file,
                page: tag.page,
                index: self.log.latest(client, tag.file, tag.page),
            }),
        }
    }

    fn issued(
        &self,
        client: ClientId,
        number: u64,
        at: BlockAt,
        what: &Command,
    ) -> Option<IssuedCommand>
        requires some { 1 ≤ length self.now.world.servers }
        requires few { length self.now.world.servers ≤ 4 }
        ensures { result ≡ issued_at self.now.world client number at what.now (world.site_of self.now.world client) }
    {
        match site_at(&self.clients, client) {
            None => None,
            Some(site) => {
                let server = self.server_of_disk(at);
                Some(IssuedCommand {
                    client,
                    number,
                    starts: site.starts(),
                    server,
                    life: site.life(server),
                    carries: self.carries(client, what),
                })
            }
        }
    }

    fn issue(
        &mut self,
        client: ClientId,
        number: u64,
        command: IssuedCommand,
        what: Command,
    ) -> Result<(), AllocError>
        ensures exact { OnOk result (self.new ≡ issues self.old client number command what) }
        ensures kept { Keeps self.old self.new }
    {
        let k = self.commands.count() + 1;
        self.commands.submit(command, what.copy()?)?;
        self.observe(Observation::Submitted {
            k,
            client,
            number,
            what,
        })
    }

    /// Submits a client's command, under its own number.
    #[tactic(auto, using(crate::proofs::Submits::submits_none, crate::proofs::Submits::submits_some))]
    pub(crate) fn submit(
        &mut self,
        client: ClientId,
        number: u64,
        at: BlockAt,
        what: Command,
    ) -> Result<(), AllocError>
        requires some { 1 ≤ length self.old.world.servers }
        requires few { length self.old.world.servers ≤ 4 }
        ensures exact { OnOk result (self.new ≡ events.submits self.old client (world.site_of self.old.world client) number at what) }
        ensures kept { Keeps self.old self.new }
    {
        match self.issued(client, number, at, &what) {
            None => Ok(()),
            Some(command) => self.issue(client, number, command, what),
        }
    }
}
