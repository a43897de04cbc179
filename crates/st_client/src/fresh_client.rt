// A client that was never started before.
ghost use Rattle.std.specs.Prelude.{◌≡◌, ◌≤◌, IsOk, IfOk};
ghost use Rattle.st_base.specs.Config as settings;
ghost use Rattle.st_rules.specs.Client as client;

use crate::state::ClientState;
use st_base::{ClientId, Config, Life, ServerId};
use std::alloc::{AllocError, Global};

impl ClientState {
    /// A client that was never started before: it is in life 1 at each server.
    #[tactic(auto, unfolding(st_rules::specs::Client::fresh_client, st_rules::specs::Extents::numbers), using(crate::proofs::Growing::numbers_more))]
    pub(crate) fn fresh(
        alloc: Global,
        id: ClientId,
        config: &Config,
        servers: u16,
    ) -> Result<ClientState, AllocError>
        requires checked { IsOk (settings.check config.now) }
        requires servers { servers ≤ 4 }
        ensures { IfOk result (λ s. s ≡ client.fresh_client id config.now servers) }
    {
        let mut state = ClientState::new(alloc, id, config)?;
        let mut server = 0;
        while server < servers {
            server += 1;
            state = state.with_server(ServerId(server), Life(1))?;
        }
        Ok(state)
    }
}
