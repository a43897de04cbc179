ghost use Rattle.std.specs.Prelude.{◌≡◌, ◌<◌, ◌-◌, ◌^◌, [], IsOk, IfOk};
ghost use Rattle.st_base.specs.Config as settings;
ghost use Rattle.st_extents.specs.Layout.{IsWithinLimits};
ghost use Rattle.st_rules.specs.Server as server;
ghost use Rattle.st_server.specs.Room.{has_room};

use crate::stable::ServerStable;
use st_base::{Config, Epoch, ServerId, Stamp};
use st_extents::Extents;
use st_lease_server::Authority;
use st_locks::LockTable;
use st_messages::{Output, Outputs};
use st_namespace::Names;
use st_reassert::Grace;
use st_sessions::Sessions;
use std::alloc::{AllocError, Global};
use std::marker::Model;
use std::mem;

/// The parts of one server, with the outputs of the step so far. Contracts see them as a turn.
#[derive(Drop)]
pub struct ServerTurn {
    pub(crate) alloc: Global,
    pub(crate) id: ServerId,
    pub(crate) config: Config,
    pub(crate) stable: ServerStable,
    pub(crate) grace: Grace,
    pub(crate) sessions: Sessions,
    pub(crate) locks: LockTable,
    pub(crate) authority: Authority,
    pub(crate) out: Vec<Output>,
}

impl Model for ServerTurn {
    ghost use Rattle.st_rules.specs.Server as shared;
    ghost use Rattle.st_server.specs.Parts.{IsSettled, stable_of};

    ghost Value = { shared.ServerTurn };

    ghost view = { λ m. record {
      state = record {
        id = m.id;
        config = m.config;
        stable = stable_of m.stable;
        grace = m.grace;
        sessions = m.sessions;
        locks = m.locks;
        authority = m.authority;
      };
      out = m.out.items;
    } };

    ghost invariant = { λ m. IsSettled m.id m.config m.stable.epoch };
}

impl ServerTurn {
    /// A server that was never started before.
    #[tactic(auto, unfolding(st_rules::specs::Server::fresh_server))]
    pub(crate) fn fresh(
        alloc: Global,
        id: ServerId,
        config: Config,
        servers: u16,
        disks: u16,
        blocks: u32,
    ) -> Result<ServerTurn, AllocError>
        requires checked { IsOk (settings.check config) }
        requires limits { IsWithinLimits id.0 servers disks blocks }
        ensures { IfOk result (λ m. m ≡ server.turn (server.fresh_server id config servers disks blocks) []) }
    {
        let epoch = Epoch(1);
        let names = Names::fresh(alloc)?;
        let extents = Extents::new(alloc, id, servers, disks, blocks)?;
        Ok(ServerTurn {
            alloc,
            id,
            config,
            stable: ServerStable {
                epoch,
                names,
                extents,
            },
            grace: Grace::none(),
            sessions: Sessions::new(alloc, epoch),
            locks: LockTable::new(alloc, id, epoch),
            authority: Authority::new(alloc, &config),
            out: Vec::new(alloc),
        })
    }

    /// All but the stable part is lost, and the outputs so far.
    #[tactic(auto, unfolding(st_rules::specs::Server::crash))]
    pub(crate) fn crash(&mut self)
        ensures { self.new ≡ server.turn (server.crash self.old.state) [] }
    {
        let epoch = self.stable.epoch;
        self.grace = Grace::none();
        self.sessions = Sessions::new(self.alloc, epoch);
        self.locks = LockTable::new(self.alloc, self.id, epoch);
        self.authority = Authority::new(self.alloc, &self.config);
        self.out = Vec::new(self.alloc);
    }

    /// The next epoch begins, with grace.
    #[tactic(auto, unfolding(st_rules::specs::Server::start, st_rules::specs::Server::begin_epoch))]
    pub(crate) fn start(&mut self, now: Stamp)
        requires epochs { self.old.state.stable.epoch.0 < 2 ^ 32 - 1 }
        ensures { self.new ≡ server.turn (server.start self.old.state now) [] }
    {
        let next = Epoch(self.stable.epoch.0 + 1);
        self.stable.epoch = next;
        self.grace = Grace::begin(now, &self.config);
        self.sessions = Sessions::new(self.alloc, next);
        self.locks = LockTable::new(self.alloc, self.id, next);
        self.authority = Authority::new(self.alloc, &self.config);
        self.out = Vec::new(self.alloc);
    }

    /// Takes the outputs out.
    pub(crate) fn take_outputs(&mut self) -> Outputs
        ensures out { result ≡ self.old.out }
        ensures left { self.new ≡ server.turn self.old.state [] }
    {
        let out = mem::replace(&mut self.out, Vec::new(self.alloc));
        Outputs::from_vec(out)
    }

    /// Whether a step may be taken, as far as the counters go.
    pub(crate) fn has_room(&self) -> bool
        ensures { result ≡ has_room self.now.state }
    {
        self.locks.has_room_for_waiters()
            && (self.stable.names.next_ino() < 4_294_967_295
                && self.stable.extents.next_birth() <= 4_611_686_018_427_387_904)
    }
}
