// The servers and the lives of a client, which a crash keeps.
ghost use Rattle.std.specs.Prelude.{◌≡◌, ◌≤◌, ◌+◌, ◌++◌, true, length, vec_len, vec_capacity, IsOk, IfOk};
ghost use Rattle.std.specs.List.{list_all};
ghost use Rattle.st_base.specs.Config as settings;
ghost use Rattle.st_client.specs.Nodes.{crashed_client, crashed_lives, is_low, is_server, life_in};
ghost use Rattle.st_rules.specs.Client as client;

use crate::state::ClientState;
use st_base::{ClientId, Config, Life, ServerId};
use st_rules::LeaseLife;
use std::alloc::{AllocError, Global};

/// The life at a server, or life 0 if there is no such server.
pub(crate) fn life_among(servers: &[ServerId], lives: &[Life], server: ServerId) -> Life
    requires { length lives.now ≡ length servers.now }
    ensures { result ≡ life_in servers.now lives.now server }
{
    for i in 0..servers.len() {
        if servers[i].0 == server.0 {
            return lives[i];
        }
    }
    Life(0)
}

/// Whether each life may rise.
pub(crate) fn are_low(lives: &[Life]) -> bool
    ensures { result ≡ list_all is_low lives.now }
{
    lives.iter().all(|life| life.0 < 4_611_686_018_427_387_904)
}

/// Adds the lives of a client that is crashed, for which the list has room: no lease is held.
pub(crate) fn push_crashed(
    client: ClientId,
    servers: &[ServerId],
    lives: &[Life],
    found: &mut Vec<LeaseLife>,
)
    requires each { length lives.now ≡ length servers.now }
    requires room { vec_len found.old + length servers.now ≤ vec_capacity found.old }
    ensures { found.new.items ≡ found.old.items ++ crashed_lives client servers.now lives.now }
{
    for i in 0..servers.len() {
        found.push_reserved(LeaseLife {
            client,
            server: servers[i],
            life: lives[i],
            end: None,
            crashed: false,
        });
    }
}

/// A copy of these lives, with room for as many.
pub(crate) fn copied(alloc: Global, lives: &[Life]) -> Result<Vec<Life>, AllocError>
    ensures copy { IfOk result (λ v. v.items ≡ lives.now) }
    ensures room { IfOk result (λ v. length lives.now ≤ vec_capacity v) }
{
    let mut copy = Vec::with_capacity(alloc, lives.len())?;
    copy.extend_from_slice(lives)?;
    Ok(copy)
}

/// A client in the next life at each of these servers.
pub(crate) fn started(
    alloc: Global,
    id: ClientId,
    config: &Config,
    servers: &[ServerId],
    lives: &[Life],
) -> Result<ClientState, AllocError>
    requires checked { IsOk (settings.check config.now) }
    requires known { list_all is_server servers.now ≡ true }
    requires low { list_all is_low lives.now ≡ true }
    requires count { length lives.now ≡ length servers.now }
    ensures { IfOk result (λ s. s ≡ client.start (crashed_client id config.now servers.now lives.now)) }
{
    let mut state = ClientState::new(alloc, id, config)?;
    for i in 0..servers.len() {
        state = state.with_server(servers[i], Life(lives[i].0 + 1))?;
    }
    Ok(state)
}
