ghost use Rattle.std.specs.Prelude.{◌≡◌, ◌<◌, ◌^◌, true, IfOk, OnOk, is_none, length};
ghost use Rattle.st_rules.specs.Generator.{chosen, fallback};
ghost use Rattle.st_rules.specs.Admissible.{refusal};
ghost use Rattle.st_rules.specs.Safety.{is_event};
ghost use Rattle.st_rules.specs.World.{World};
ghost use Rattle.st_generate_run.specs.Choice.{IsTry, found};

use crate::candidates::candidate;
use crate::draws::Draws;
use st_base::{ClientId, NodeId, ServerId};
use st_messages::Event;
use std::alloc::{AllocError, Global};

/// A world in which an event is chosen.
pub trait Judge {
    /// The world.
    ghost world: { Self → World };

    /// Returns how many messages were sent.
    fn sent(&self) -> u64
        ensures { result ≡ length (world self.now).net.messages };

    /// Returns how many commands were submitted.
    fn submitted(&self) -> u64
        ensures { result ≡ length (world self.now).commands };

    /// Returns true if the event is admissible.
    fn admits(&self, event: &Event) -> bool
        requires event { is_event (length (world self.now).clocks) event.now ≡ true }
        requires room { (world self.now).tally.events < 2 ^ 29 }
        ensures { result ≡ is_none (refusal (world self.now) event.now) };
}

/// A try. It returns true if there is a candidate and it is admissible; the candidate is in
/// `event` then.
fn try_one<J: Judge>(
    draws: &mut Draws,
    event: &mut Event,
    judge: &J,
    alloc: Global,
) -> Result<bool, AllocError>
    requires nodes { length (J.world judge.now).clocks ≡ 5 }
    requires room { (J.world judge.now).tally.events < 2 ^ 29 }
    ensures { IfOk result (λ b. IsTry (J.world judge.now) draws.old (found b event.new) draws.new) }
{
    if candidate(draws, event, alloc, judge.sent(), judge.submitted())? {
        Ok(judge.admits(&*event))
    } else {
        Ok(false)
    }
}

/// The heal of c1's messages to s1.
pub(crate) fn fallback_event() -> Event
    ensures { result ≡ fallback }
{
    Event::Heal(NodeId::Client(ClientId(1)), NodeId::Server(ServerId(1)))
}

/// Chooses the next event, in a world of five nodes, and writes it into `event`: the first
/// admissible one of 16 candidates, or else the heal of c1's messages to s1.
pub fn choose<J: Judge>(
    draws: &mut Draws,
    event: &mut Event,
    judge: &J,
    alloc: Global,
) -> Result<(), AllocError>
    requires nodes { length (J.world judge.now).clocks ≡ 5 }
    requires room { (J.world judge.now).tally.events < 2 ^ 29 }
    ensures { OnOk result ((event.new, draws.new) ≡ chosen (J.world judge.now) draws.old) }
{
    for _i in 0..16_u32 {
        if try_one(draws, event, judge, alloc)? {
            return Ok(());
        }
    }
    *event = fallback_event();
    Ok(())
}
