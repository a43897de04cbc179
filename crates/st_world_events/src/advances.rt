// Advances of the clocks.
ghost use Rattle.std.specs.Prelude.{◌≡◌, ◌≤◌, ◌^◌, ◌++◌, ◌==◌, [], true, false, None, IfOk, OnOk, length};
ghost use Rattle.std.specs.List.{list_all};
ghost use Rattle.st_world_parts.specs.Clocks.{is_at_most, is_step};
ghost use Rattle.st_rules.specs.Events as events;
ghost use Rattle.st_rules.specs.Leases.{drift_after, first_excess};
ghost use Rattle.st_world_events.specs.Advances.{IsAccepted};

use crate::client::WorldClient;
use crate::turn::WorldTurn;
use st_base::Config;
use st_clock::Drift;
use st_rules::LeaseLife;
use std::alloc::AllocError;
use std::mem;

/// Adds the present lives of all clients.
#[tactic(auto, unfolding(st_rules::specs::Events::present_lives))]
fn push_present(clients: &[WorldClient], found: &mut Vec<LeaseLife>) -> Result<(), AllocError>
    ensures { OnOk result (found.new.items ≡ found.old.items ++ events.present_lives clients.now) }
{
    for site in clients {
        site.push_lives(found)?;
    }
    Ok(())
}

/// The drift after an advance that was accepted.
fn raise(drift: &mut Drift, steps: &[u64], config: &Config)
    requires nodes { length steps.now ≡ length drift.old }
    requires rate { config.now.den ≤ 1048576 }
    requires grain { config.now.grain ≤ 2 ^ 40 }
    requires accepted { first_excess (drift_after drift.old steps.now config.now.num config.now.den) config.now.den config.now.grain ≡ None }
    ensures { drift.new ≡ drift_after drift.old steps.now config.now.num config.now.den }
{
    // It is accepted, so there is no verdict to look at.
    let _judged = drift.step(steps, config.num, config.den, config.grain);
}

impl WorldTurn {
    /// Adds the lives whose lease ends an advance reaches.
    #[tactic(auto, unfolding(st_rules::specs::Events::lives_reached), using(crate::proofs::Reached::reached_is))]
    fn reached(&mut self, steps: &[u64]) -> Result<Vec<LeaseLife>, AllocError>
        requires clocks { list_all (is_at_most (2 ^ 62)) self.old.world.clocks ≡ true }
        requires steps { list_all is_step steps.now ≡ true }
        ensures found { IfOk result (λ found. found.items ≡ events.lives_reached self.old.world steps.now) }
        ensures same { self.new ≡ self.old }
    {
        let mut present = mem::replace(&mut self.present, Vec::new(self.alloc));
        present.clear();
        push_present(&self.clients, &mut present)?;
        let mut found = Vec::new(self.alloc);
        self.lives
            .reached_among(steps, present.as_slice(), &mut found)?;
        self.lives.reached(steps, &mut found)?;
        self.present = present;
        Ok(found)
    }

    /// All clocks advance.
    #[tactic(auto, unfolding(st_rules::specs::Events::drift_with))]
    fn advance_clocks(&mut self, steps: &[u64])
        requires accepted { IsAccepted self.old.world steps.now }
        ensures { self.new ≡ events.world_turn (events.with_clocks steps.now self.old.world) self.old.seen }
    {
        if self.form != 1 {
            raise(&mut self.drift, steps, &self.config);
        }
        self.lives.advance(steps);
    }

    /// All clocks advance, and the entries of the lives whose lease ends are reached are gone.
    #[tactic(auto, unfolding(st_rules::specs::Events::advances))]
    pub(crate) fn advance(&mut self, steps: &[u64]) -> Result<(), AllocError>
        requires begins { self.old.seen ≡ [] }
        requires accepted { IsAccepted self.old.world steps.now }
        ensures { OnOk result (self.new ≡ events.advances self.old.world steps.now) }
    {
        let found = self.reached(steps)?;
        self.advance_clocks(steps);
        self.end_entries(found.as_slice())
    }
}
