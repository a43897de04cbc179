// How a step at each server would begin.
ghost use Rattle.std.specs.Prelude.{◌≡◌, [], slice_get};
ghost use Rattle.std.specs.Option.{option_map};
ghost use Rattle.st_rules.specs.ClientState.{client_turn, enter};

use crate::state::ClientState;
use st_client_association::TurnView;

impl ClientState {
    /// A step at the association at a place as it would begin, to look at.
    pub fn look(&self, place: usize) -> Option<TurnView<'_>>
        ensures { result ≡ option_map (enter (client_turn self.now [])) (slice_get self.now.associations place) }
    {
        match self.parts.associations.get(place) {
            None => None,
            Some(a) => Some(a.look(&self.parts.operations, self.parts.next_command)),
        }
    }
}
