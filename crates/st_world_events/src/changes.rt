// Losses of messages, cuts, effects and reports.
ghost use Rattle.std.specs.Prelude.{◌≡◌, ◌≤◌, [], OnOk, length};
ghost use Rattle.st_rules.specs.Events as events;
ghost use Rattle.st_rules.specs.FlatLog as flat_log;
ghost use Rattle.st_rules.specs.World as world;

use crate::turn::WorldTurn;
use st_base::NodeId;
use st_rules::{Carried, IssuedCommand};
use std::alloc::AllocError;

fn carried_by(command: Option<IssuedCommand>) -> Option<Carried>
    ensures { result ≡ events.carried_by command }
{
    match command {
        None => None,
        Some(command) => command.carries,
    }
}

impl WorldTurn {
    /// The message of this number is lost.
    #[tactic(auto, using(crate::proofs::Logged::loses_is))]
    pub(crate) fn lose_message(&mut self, k: u64)
        requires { self.old.seen ≡ [] }
        ensures { self.new ≡ events.quiet (events.loses_message self.old.world k (world.message_of self.old.world k)) }
    {
        self.net.lose(k);
    }

    /// A direction is cut.
    pub(crate) fn cut(&mut self, from: NodeId, to: NodeId) -> Result<(), AllocError>
        requires { self.old.seen ≡ [] }
        ensures { OnOk result (self.new ≡ events.quiet (events.with_cut from to self.old.world)) }
    {
        self.net.cut(from, to)?;
        Ok(())
    }

    /// A direction is healed.
    pub(crate) fn heal(&mut self, from: NodeId, to: NodeId)
        requires { self.old.seen ≡ [] }
        ensures { self.new ≡ events.quiet (events.without_cut from to self.old.world) }
    {
        self.net.heal(from, to);
    }

    /// What is carried becomes hard: the entry of this index, if there is one.
    #[tactic(auto, using(crate::proofs::Logged::hard_none, crate::proofs::Logged::hard_past))]
    fn harden(&mut self, index: u64) -> Result<(), AllocError>
        requires { self.old.seen ≡ [] }
        ensures { OnOk result (self.new ≡ events.marks self.old.world (flat_log.harden self.old.world.log index)) }
    {
        if index == 0 || index > self.log.count() {
            return Ok(());
        }
        self.harden_known(index)
    }

    #[tactic(auto, unfolding(st_rules::specs::Events::marks))]
    fn harden_known(&mut self, index: u64) -> Result<(), AllocError>
        requires begins { self.old.seen ≡ [] }
        requires some { 1 ≤ index }
        requires known { index ≤ length self.old.world.log }
        ensures { OnOk result (self.new ≡ events.marks self.old.world (flat_log.harden self.old.world.log index)) }
    {
        self.log.observe_harden(index, &mut self.seen)?;
        self.log.harden(index);
        Ok(())
    }

    /// The log when what is carried becomes hard.
    #[tactic(auto, using(crate::proofs::Logged::marks_nothing))]
    fn harden_carried(&mut self, carried: Option<Carried>) -> Result<(), AllocError>
        requires { self.old.seen ≡ [] }
        ensures { OnOk result (self.new ≡ events.marks self.old.world (events.log_hard self.old.world.log carried)) }
    {
        match carried {
            None => Ok(()),
            Some(carried) => self.harden(carried.index),
        }
    }

    /// The command of a number has its effect.
    #[tactic(auto, unfolding(st_rules::specs::Events::effects))]
    pub(crate) fn effect(&mut self, k: u64) -> Result<(), AllocError>
        requires { self.old.seen ≡ [] }
        ensures { OnOk result (self.new ≡ events.effects self.old.world k) }
    {
        let carried = carried_by(self.commands.issued(k));
        self.commands.effect(k)?;
        self.harden_carried(carried)
    }
}
