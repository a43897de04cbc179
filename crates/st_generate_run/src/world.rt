// The world as a judge of candidates.
ghost use Rattle.std.specs.Prelude.{◌≡◌, ◌<◌, ◌^◌, true, is_none, length};
ghost use Rattle.st_rules.specs.Admissible.{refusal};
ghost use Rattle.st_rules.specs.Safety.{is_event};

use crate::choice::Judge;
use st_messages::Event;
use st_world::World;

impl Judge for World {
    ghost world = { λ w. w };

    fn sent(&self) -> u64 {
        self.message_count()
    }

    fn submitted(&self) -> u64 {
        self.command_count()
    }

    fn admits(&self, event: &Event) -> bool {
        self.refusal(event).is_none()
    }
}
