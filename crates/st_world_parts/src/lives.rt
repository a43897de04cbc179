// Clocks and lives, and the calls on them.
ghost use Rattle.std.specs.Prelude.{◌≡◌, ◌≤◌, ◌^◌, ◌++◌, ◌∷◌, [], true, filter, find, length, OnOk, OnErr};
ghost use Rattle.std.specs.List.{list_all};
ghost use Rattle.st_world_parts.specs.Clocks as clocked;
ghost use Rattle.st_world_parts.specs.Clocks.{clock_at, is_at_most, is_reached, is_step};
ghost use Rattle.st_rules.specs.Events.{advanced};
ghost use Rattle.st_rules.specs.World.{is_life_of};

use crate::clocks::{advance, clock_of};
use crate::firsts::{LifeKey, first, keep_first, life_key};
use crate::reached_ends::{is_ahead, keep_ahead, push_if, push_reached};
use indexmap::IndexMap;
use st_base::{ClientId, Life, ServerId, Stamp};
use st_rules::LeaseLife;
use std::alloc::{AllocError, Global};
use std::marker::Model;

/// The clocks of all nodes, clients in order and then servers in order, and the lives that ended,
/// each with the end of its lease. Contracts see the record of both lists. Beside these it keeps
/// the first life of each client, server and life, and the lives whose lease ends are above their
/// clients' clocks.
#[derive(Drop)]
pub struct Lives {
    clocks: Vec<Stamp>,
    ended: Vec<LeaseLife>,
    firsts: IndexMap<LifeKey, LeaseLife>,
    ahead: Vec<LeaseLife>,
}

impl Model for Lives {
    ghost use Rattle.st_world_parts.specs.Clocks as shown;
    ghost use Rattle.st_world_parts.specs.KeptLives.{IsKept};

    ghost Value = { shown.Lives };

    ghost view = { λ l. record { clocks = l.clocks.items; ended = l.ended.items } };

    ghost invariant = { λ l. IsKept l.clocks.items l.ended.items l.firsts l.ahead.items };
}

impl Lives {
    /// These clocks, and no life that ended. It does not allocate.
    pub fn new(alloc: Global, clocks: Vec<Stamp>) -> Lives
        ensures { result ≡ record { clocks = clocks.items; ended = [] } }
    {
        Lives {
            clocks,
            ended: Vec::new(alloc),
            firsts: IndexMap::new(alloc),
            ahead: Vec::new(alloc),
        }
    }

    /// Returns the clock of a number, from 1, or 0 if there is none.
    pub fn clock(&self, n: usize) -> Stamp
        ensures { result ≡ clock_at self.now.clocks n }
    {
        clock_of(&self.clocks, n)
    }

    /// Returns the life of a client at a server among those that ended. It is one look-up, and does
    /// not allocate.
    pub fn ended(&self, client: ClientId, server: ServerId, life: Life) -> Option<LeaseLife>
        ensures { result ≡ find (is_life_of client server life) self.now.ended }
    {
        first(&self.firsts, life_key(client, server, life))
    }

    /// Adds a life that ended. If it runs out of memory, nothing changes.
    pub fn end(&mut self, life: LeaseLife) -> Result<(), AllocError>
        ensures ok { OnOk result (self.new ≡ clocked.with_ended life self.old) }
        ensures err { OnErr result (self.new ≡ self.old) }
    {
        self.ended.reserve(1)?;
        self.firsts.reserve(1)?;
        push_if(&mut self.ahead, life, is_ahead(&self.clocks, &life))?;
        keep_first(&mut self.firsts, life);
        self.ended.push(life)?;
        Ok(())
    }

    /// Adds the lives that ended whose lease ends an advance reaches, in order. It skips only those
    /// whose lease ends are above their clients' clocks.
    pub fn reached(&self, steps: &[u64], found: &mut Vec<LeaseLife>) -> Result<(), AllocError>
        requires clocks { list_all (is_at_most (2 ^ 62)) self.now.clocks ≡ true }
        requires steps { list_all is_step steps.now ≡ true }
        ensures { OnOk result (found.new.items ≡ found.old.items ++ filter (is_reached self.now.clocks steps.now) self.now.ended) }
    {
        push_reached(&self.clocks, steps, &self.ahead, found)
    }

    /// Adds those of these lives whose lease ends an advance reaches, in order.
    pub fn reached_among(
        &self,
        steps: &[u64],
        lives: &[LeaseLife],
        found: &mut Vec<LeaseLife>,
    ) -> Result<(), AllocError>
        requires clocks { list_all (is_at_most (2 ^ 62)) self.now.clocks ≡ true }
        requires steps { list_all is_step steps.now ≡ true }
        ensures { OnOk result (found.new.items ≡ found.old.items ++ filter (is_reached self.now.clocks steps.now) lives.now) }
    {
        push_reached(&self.clocks, steps, lives, found)
    }

    /// All clocks advance. It does not allocate.
    pub fn advance(&mut self, steps: &[u64])
        requires each { length steps.now ≡ length self.old.clocks }
        requires clocks { list_all (is_at_most (2 ^ 62)) self.old.clocks ≡ true }
        requires steps { list_all is_step steps.now ≡ true }
        ensures { self.new ≡ clocked.with_clocks (advanced steps.now self.old.clocks) self.old }
    {
        advance(&mut self.clocks, steps);
        keep_ahead(&self.clocks, &mut self.ahead);
    }
}
