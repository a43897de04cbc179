ghost use Rattle.std.specs.Prelude.{◌≡◌, true, false, IfOk, IsOk, OnOk, OnErr, length};
ghost use Rattle.std.specs.Bool.{OnTrue};
ghost use Rattle.std.specs.List.{list_any};
ghost use Rattle.st_base.specs.Config as settings;
ghost use Rattle.st_due.specs.Moments.{earliest, readable_by};
ghost use Rattle.st_due.specs.ServerDue.{thefts_at};
ghost use Rattle.st_rules.specs.Authority as authority;
ghost use Rattle.st_rules.specs.ServerInvariants.{are_rising};

use crate::timer_starts::{Start, drop_past, is_past};
use crate::timers::{clients_over, drop_over, place_timer, tell_clients, timer_of};
use st_base::{ClientId, Config, Stamp};
use st_clock::steal_wait;
use st_due::{after, sooner};
use st_rules::Suspect;
use std::alloc::{AllocError, Global};
use std::collections::BTreeSet;
use std::marker::Model;

/// The suspects of one server. Contracts see them as the steal wait and the list of the timers that
/// run, by rising client. It also keeps an ordered set of their starts, so that the earliest one
/// shows whether a timer is over.
#[derive(Drop)]
pub struct Authority {
    wait: u64,
    timers: Vec<Suspect>,
    clients: Vec<ClientId>,
    starts: BTreeSet<Start>,
}

impl Model for Authority {
    ghost use Rattle.std.specs.Prelude.{◌≡◌, true, map};
    ghost use Rattle.st_rules.specs.Authority as authority;
    ghost use Rattle.st_rules.specs.ServerInvariants.{are_rising};

    ghost Value = { authority.Authority };

    ghost view = { λ a. record { wait = a.wait; suspects = a.timers.items } };

    ghost use Rattle.st_lease_server.specs.Starts.{AreStarts};

    ghost invariant = { λ a. (are_rising a.timers.items ≡ true) × (a.clients.items ≡ map authority.client_of_suspect a.timers.items) × AreStarts a.timers.items a.starts };
}

impl Authority {
    /// No client is suspect yet. It does not allocate.
    #[tactic(auto, unfolding(st_rules::specs::ServerInvariants::are_rising))]
    pub fn new(alloc: Global, config: &Config) -> Authority
        requires checked { IsOk (settings.check config.now) }
        ensures none { result ≡ authority.no_suspects config.now }
    {
        Authority {
            wait: steal_wait(config),
            timers: Vec::new(alloc),
            clients: Vec::new(alloc),
            starts: BTreeSet::new(alloc),
        }
    }

    /// Makes the client suspect: its timer starts now. A timer that runs keeps its start. If the
    /// call runs out of memory, nothing changes.
    #[tactic(auto, unfolding(st_rules::specs::Authority::suspect))]
    pub fn suspect(&mut self, client: ClientId, now: Stamp) -> Result<(), AllocError>
        ensures ok { OnOk result (self.new ≡ authority.suspect self.old client now) }
        ensures err { OnErr result (self.new ≡ self.old) }
    {
        if self.may_ack(client) {
            return self.start(client, now);
        }
        Ok(())
    }

    /// Starts the timer of a client whose timer does not run.
    #[tactic(auto, unfolding(st_rules::specs::Authority::start_timer))]
    fn start(&mut self, client: ClientId, now: Stamp) -> Result<(), AllocError>
        requires { authority.may_ack self.old client ≡ true }
        ensures ok { OnOk result (self.new ≡ authority.start_timer self.old client now) }
        ensures err { OnErr result (self.new ≡ self.old) }
    {
        let timer = Suspect { client, start: now };
        self.clients.reserve(1)?;
        self.timers.reserve(1)?;
        self.starts.insert((now, client))?;
        place_timer(&mut self.timers, timer);
        tell_clients(&mut self.clients, &self.timers);
        Ok(())
    }

    /// Whether the server may acknowledge messages of the client: exactly while no timer of it
    /// runs. It does not allocate.
    pub fn may_ack(&self, client: ClientId) -> bool
        ensures { result ≡ authority.may_ack self.now client }
    {
        timer_of(&self.timers, client).is_none()
    }

    /// Since when the client's timer runs, or `None` if it does not run. It does not allocate.
    pub fn started(&self, client: ClientId) -> Option<Stamp>
        ensures { result ≡ authority.started self.now client }
    {
        let timer = timer_of(&self.timers, client)?;
        Some(timer.start)
    }

    /// Whether no timer is over. It looks only at the earliest one.
    fn none_over(&self, now: Stamp) -> bool
        ensures { OnTrue result (list_any (authority.is_over self.now.wait now) self.now.suspects ≡ false) }
    {
        match self.starts.first() {
            None => true,
            Some(first) => !is_past(self.wait, now, *first),
        }
    }

    /// Takes out the clients whose timers are over, which are those that started the steal wait ago
    /// or earlier, and returns them in rising order. If the call runs out of memory, nothing
    /// changes.
    #[tactic(auto, unfolding(st_rules::specs::Authority::over, st_rules::specs::Authority::still_running))]
    pub fn over(&mut self, now: Stamp) -> Result<Vec<ClientId>, AllocError>
        ensures told { IfOk result (λ v. v.items ≡ authority.over self.old now) }
        ensures left { OnOk result (self.new ≡ authority.still_running self.old now) }
        ensures err { OnErr result (self.new ≡ self.old) }
    {
        let alloc = *self.timers.allocator();
        if self.none_over(now) {
            let nobody = Vec::new(alloc);
            return Ok(nobody);
        }
        let over = clients_over(alloc, &self.timers, self.wait, now)?;
        drop_over(&mut self.timers, self.wait, now);
        drop_past(&mut self.starts, self.wait, now);
        tell_clients(&mut self.clients, &self.timers);
        Ok(over)
    }

    /// The moment at which the first timer is over; none if no clock may read it. It does not
    /// allocate.
    pub fn first_theft(&self) -> Option<u64>
        ensures { result ≡ readable_by (earliest (thefts_at self.now)) }
    {
        let mut first = None;
        for timer in self.timers.as_slice() {
            first = sooner(first, after(timer.start, self.wait));
        }
        first
    }

    /// How many clients are suspect.
    pub fn len(&self) -> usize
        ensures { result ≡ length self.now.suspects }
    {
        self.timers.len()
    }

    /// The clients whose timer runs, in rising order. It does not allocate.
    pub fn suspects(&self) -> &[ClientId]
        ensures suspects { result.now ≡ authority.suspects_of self.now }
        ensures rising { are_rising self.now.suspects ≡ true }
    {
        &self.clients
    }
}
