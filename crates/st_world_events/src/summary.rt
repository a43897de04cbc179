// What is counted of a world.
ghost use Rattle.std.specs.Prelude.{◌≡◌};
ghost use Rattle.st_rules.specs.Events as events;

use crate::turn::WorldTurn;
use st_rules::Summary;
use st_world_parts::{Sort, count_of};

impl WorldTurn {
    /// Returns the counts of the run so far.
    #[tactic(auto, unfolding(st_rules::specs::Events::summary))]
    pub fn summary(&self) -> Summary
        ensures { result ≡ events.summary self.now.world }
    {
        Summary {
            events: self.events,
            sent: self.net.count(),
            commands: self.commands.count(),
            writes: count_of(&self.log, Sort::Changes),
            reads: self.reads,
            hard: count_of(&self.log, Sort::Hard),
            gone: count_of(&self.log, Sort::Gone),
            stolen: self.stolen,
        }
    }
}
