// The entries of the lives whose lease ends an advance reaches.
ghost use Rattle.std.specs.Prelude.{◌≡◌, [], OnOk};
ghost use Rattle.st_rules.specs.Events as events;

use crate::turn::WorldTurn;
use st_rules::LeaseLife;
use st_world_parts::Ending;
use std::alloc::AllocError;

impl WorldTurn {
    /// The log when the entries of these lives are gone.
    #[tactic(auto, unfolding(st_rules::specs::Events::marks), using(st_world_parts::proofs::Overs::all_ended))]
    pub(crate) fn end_entries(&mut self, lives: &[LeaseLife]) -> Result<(), AllocError>
        requires { self.old.seen ≡ [] }
        ensures { OnOk result (self.new ≡ events.marks self.old.world (events.log_ended_all self.old.world.commands lives.now self.old.world.log)) }
    {
        let marking = Ending {
            commands: &self.commands,
            lives,
        };
        self.log.observe(&marking, &mut self.seen)?;
        self.log.mark(&marking);
        Ok(())
    }
}
