// The passes of a step: suspecting, granting and demanding.
ghost use Rattle.std.specs.Prelude.{◌≡◌, ◌+◌, ◌^◌, ◌<◌, OnOk, length};
ghost use Rattle.st_rules.specs.Server as server;
ghost use Rattle.st_server.specs.Room.{taken_locks};
ghost use Rattle.st_server.specs.Steps.{Keeps, demanded_one, granted_one};

use crate::turn::ServerTurn;
use st_base::{ClientId, Stamp};
use st_locks::Sent;
use st_messages::Body;
use st_rules::ServerInput;
use std::alloc::AllocError;

/// Whether time passed.
fn is_tick(input: &ServerInput) -> bool
    ensures { result ≡ server.is_tick input.now }
{
    match input {
        ServerInput::Tick => true,
        ServerInput::Control(_) => false,
    }
}

impl ServerTurn {
    #[tactic(auto, unfolding(st_rules::specs::Server::suspect_unless))]
    fn suspect_unless(&mut self, now: Stamp, client: ClientId) -> Result<(), AllocError>
        ensures ok { OnOk result (self.new ≡ server.suspect_unless self.old now client) }
        ensures kept { Keeps self.old self.new }
    {
        if self.authority.may_ack(client) {
            self.suspect_client(now, client)
        } else {
            Ok(())
        }
    }

    #[tactic(auto, unfolding(st_rules::specs::Server::suspect_each))]
    fn suspect_each(&mut self, now: Stamp, clients: &[ClientId]) -> Result<(), AllocError>
        ensures ok { OnOk result (self.new ≡ server.suspect_each now clients.now self.old) }
        ensures kept { Keeps self.old self.new }
    {
        for client in clients {
            self.suspect_unless(now, *client)?;
        }
        Ok(())
    }

    /// When time passes, each client that left a demand unanswered too long becomes suspect, in
    /// rising order.
    #[tactic(auto, unfolding(st_rules::specs::Server::suspecting_on, st_rules::specs::Server::suspecting))]
    pub(crate) fn suspecting_on(
        &mut self,
        now: Stamp,
        input: &ServerInput,
    ) -> Result<(), AllocError>
        ensures ok { OnOk result (self.new ≡ server.suspecting_on self.old now input.now) }
        ensures kept { Keeps self.old self.new }
    {
        match input {
            ServerInput::Tick => {
                let clients = self.locks.unanswered(now, &self.config)?;
                self.suspect_each(now, clients.as_slice())
            }
            ServerInput::Control(_) => Ok(()),
        }
    }

    fn tell_grant(&mut self, grant: Sent) -> Result<(), AllocError>
        ensures ok { OnOk result (self.new ≡ granted_one self.old grant) }
        ensures kept { Keeps self.old self.new }
    {
        let (client, life, ino, g, mode) = grant;
        self.tell(client, life, Body::Granted { ino, g, mode })
    }

    #[tactic(auto, unfolding(st_rules::specs::Server::tell_granted))]
    fn tell_granted(&mut self, granted: &[Sent]) -> Result<(), AllocError>
        ensures ok { OnOk result (self.new ≡ server.tell_granted granted.now self.old) }
        ensures kept { Keeps self.old self.new }
    {
        for grant in granted {
            self.tell_grant(*grant)?;
        }
        Ok(())
    }

    /// All grants that may be made; none in grace.
    #[tactic(auto, unfolding(st_rules::specs::Server::granting, st_rules::specs::Server::grant_waiting, st_rules::specs::Server::grant_by, st_rules::specs::Server::crash))]
    pub(crate) fn granting(&mut self, now: Stamp) -> Result<(), AllocError>
        requires { taken_locks self.old.state.locks < 2 ^ 32 }
        ensures ok { OnOk result (self.new ≡ server.granting self.old now) }
        ensures kept { Keeps self.old self.new }
    {
        if self.in_grace(now) {
            Ok(())
        } else {
            let granted = self.locks.next_grants()?;
            self.tell_granted(granted.as_slice())
        }
    }

    fn tell_demand(&mut self, demand: Sent) -> Result<(), AllocError>
        ensures ok { OnOk result (self.new ≡ demanded_one self.old demand) }
        ensures kept { Keeps self.old self.new }
    {
        let (client, life, ino, g, to) = demand;
        self.tell(client, life, Body::Demand { ino, g, to })
    }

    #[tactic(auto, unfolding(st_rules::specs::Server::tell_demanded))]
    fn tell_demanded(&mut self, due: &[Sent]) -> Result<(), AllocError>
        ensures ok { OnOk result (self.new ≡ server.tell_demanded due.now self.old) }
        ensures kept { Keeps self.old self.new }
    {
        for demand in due {
            self.tell_demand(*demand)?;
        }
        Ok(())
    }

    #[tactic(auto, unfolding(st_rules::specs::Server::demanding, st_rules::specs::Server::demand_by, st_rules::specs::Server::crash))]
    pub(crate) fn demanding(&mut self, now: Stamp, input: &ServerInput) -> Result<(), AllocError>
        ensures ok { OnOk result (self.new ≡ server.demanding self.old now input.now) }
        ensures kept { Keeps self.old self.new }
    {
        let tick = is_tick(input);
        let due = self
            .locks
            .demands_due(now, tick, self.authority.suspects(), &self.config)?;
        self.tell_demanded(due.as_slice())
    }
}
