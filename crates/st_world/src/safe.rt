// The runs that lead to a world are safe and are runs of the volume, by the laws of every run, and
// no counter of it is at its end, by the laws on counters.
ghost use Rattle.std.specs.Prelude.{◌≡◌, ◌<◌, ◌^◌, true, length};
ghost use Rattle.st_rules.specs.Safety.{is_event};
ghost use Rattle.st_world.specs.Counters.{CountersHaveRoom};
ghost use Rattle.st_world.specs.Safe.{GoesOnInTheVolume, GoesOnSafely, IsLedSafely};

use crate::parts::WorldParts;
use st_laws_bounds::{
    clients_count_few, clients_stay_within, locks_are_few, reads_are_few, servers_count_few,
    thefts_are_few,
};
use st_laws_safe::every_run_is_safe;
use st_laws_volume::every_run_is_a_run_of_the_volume;
use st_messages::Event;

impl WorldParts {
    /// A run leads to this world, and every run that leads to it is safe.
    pub(crate) fn runs_here_are_safe(&self)
        ensures { IsLedSafely self.now }
    {
        let _ = &self.broken;
        every_run_is_safe();
    }

    /// Every run that leads to this world is safe when this event follows, and is a run of the
    /// volume.
    pub(crate) fn runs_on_are_safe(&self, event: &Event)
        requires { is_event (length self.now.clocks) event.now ≡ true }
        ensures safe { GoesOnSafely self.now event.now }
        ensures volume { GoesOnInTheVolume self.now event.now }
    {
        every_run_is_safe();
        every_run_is_a_run_of_the_volume();
    }

    /// No counter of this world is at its end, since a run of fewer than 2^29 events leads to it.
    pub(crate) fn counters_have_room(&self)
        requires { self.now.tally.events < 2 ^ 29 }
        ensures { CountersHaveRoom self.now }
    {
        let _ = &self.broken;
        clients_count_few();
        clients_stay_within();
        servers_count_few();
        locks_are_few();
        reads_are_few();
        thefts_are_few();
    }
}
