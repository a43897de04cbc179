// Answers to applications.
ghost use Rattle.std.specs.Prelude.{◌≡◌, ◌<◌, ◌^◌, ◌-◌, OnOk};
ghost use Rattle.st_rules.specs.Events as events;
ghost use Rattle.st_world_events.specs.OutputEffects.{Keeps};

use crate::turn::WorldTurn;
use st_base::ClientId;
use st_messages::AppAnswer;
use st_rules::Observation;
use std::alloc::AllocError;

impl WorldTurn {
    /// Answers an ask of a client.
    #[tactic(auto, unfolding(st_rules::specs::Events::answers_with))]
    pub(crate) fn answer(
        &mut self,
        client: ClientId,
        op: u32,
        answer: AppAnswer,
    ) -> Result<(), AllocError>
        requires { self.old.world.tally.reads < 2 ^ 64 - 1 }
        ensures exact { OnOk result (self.new ≡ events.answers_with self.old client op answer) }
        ensures kept { Keeps self.old self.new }
    {
        self.reads += match &answer {
            AppAnswer::Read(_) => 1,
            _ => 0,
        };
        self.observe(Observation::Answered { client, op, answer })
    }
}
