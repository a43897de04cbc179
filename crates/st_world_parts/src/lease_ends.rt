// The entries of the lives whose lease ends an advance reaches.
ghost use Rattle.std.specs.Prelude.{◌≡◌};
ghost use Rattle.st_model.specs.Walks.{marked_fate};
ghost use Rattle.st_rules.specs.FlatLog as flat_log;
ghost use Rattle.st_world_parts.specs.LifeEnds.{ended_by, ends};

use crate::commands::Commands;
use st_model::Marking;
use st_rules::{Cause, Fate, LeaseLife, LogOwner};

/// The entries of these lives are gone, each with the cause of its page: one marking for all lives.
#[derive(Clone, Copy)]
pub struct Ending<'a> {
    pub commands: &'a Commands,
    pub lives: &'a [LeaseLife],
}

#[tactic(auto, unfolding(st_rules::specs::Events::cause_at_end))]
fn ended_by(commands: &Commands, life: &LeaseLife, of: LogOwner) -> Fate
    ensures { result ≡ ended_by commands.now.commands life.now of }
{
    if !(of.client.0 == life.client.0
        && (of.file.server.0 == life.server.0 && of.life.0 == life.life.0))
    {
        return Fate::Pending;
    }
    if life.crashed {
        return Fate::Gone(Cause::Crash);
    }
    Fate::Gone(Cause::Failed(commands.last_write(LogOwner {
        client: life.client,
        life: life.life,
        file: of.file,
        page: of.page,
    })))
}

fn is_pending(fate: Fate) -> bool
    ensures { result ≡ flat_log.is_pending fate }
{
    match fate {
        Fate::Pending => true,
        Fate::Hard => false,
        Fate::Gone(_) => false,
    }
}

fn fate_after(commands: &Commands, lives: &[LeaseLife], of: LogOwner) -> Fate
    ensures { result ≡ ends commands.now.commands lives.now of }
{
    for life in lives {
        let fate = ended_by(commands, life, of);
        if !is_pending(fate) {
            return fate;
        }
    }
    Fate::Pending
}

impl<'a> Marking for Ending<'a> {
    ghost use Rattle.st_world_parts.specs.LifeEnds.{becomes_at};

    ghost becomes = { λ m. becomes_at m.commands.now.commands m.lives.now };

    fn fate_of(&self, _number: u64, of: LogOwner) -> Fate {
        fate_after(self.commands, self.lives, of)
    }
}
