// A server from what outlived its crash.
ghost use Rattle.std.specs.Prelude.{◌≡◌, []};
ghost use Rattle.st_rules.specs.Server as server;
ghost use Rattle.st_server.specs.Parts.{IsSettled, stable_of};
ghost use Rattle.st_server.specs.Restart.{crashed_server};

use crate::stable::ServerStable;
use crate::turn::ServerTurn;
use st_base::{Config, ServerId};
use st_lease_server::Authority;
use st_locks::LockTable;
use st_reassert::Grace;
use st_sessions::Sessions;
use std::alloc::Global;

impl ServerTurn {
    /// A server of which a crash left this stable part.
    pub(crate) fn restore(
        alloc: Global,
        id: ServerId,
        config: Config,
        stable: ServerStable,
    ) -> ServerTurn
        requires { IsSettled id config stable.epoch }
        ensures { result ≡ server.turn (crashed_server id config (stable_of stable)) [] }
    {
        let epoch = stable.epoch;
        ServerTurn {
            alloc,
            id,
            config,
            stable,
            grace: Grace::none(),
            sessions: Sessions::new(alloc, epoch),
            locks: LockTable::new(alloc, id, epoch),
            authority: Authority::new(alloc, &config),
            out: Vec::new(alloc),
        }
    }
}
