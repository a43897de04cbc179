// What an event leaves of a world's shape.
ghost use Rattle.st_messages.specs.declared.event.Event.{Event};
ghost use Rattle.st_rules.specs.Events.{happens};
ghost use Rattle.st_rules.specs.World.{World};
ghost use Rattle.st_world.specs.Shapes.{HasSteps, SameShape};

/// An event changes neither the count of events nor how many nodes and clocks there are.
#[tactic(auto, using(crate::proofs::Shapes::happens_shape))]
pub fn events_keep_the_shape()
    ensures { (w : World) (e : Event) → HasSteps w e → SameShape w (happens w e).world }
{}
