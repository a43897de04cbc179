// The end of a report, once the source has ended.
ghost use Rattle.std.specs.Prelude.{◌≡◌, IfOk};
ghost use Rattle.st_rules.specs.Events as rules;
ghost use Rattle.st_runs.specs.Replay.{behind};
ghost use Rattle.st_replay.specs.Ends.{HasCauses, Reports};
ghost use Rattle.st_replay.specs.States.{IsHere, from_here};
ghost use Rattle.st_replay.specs.Streams.{one};

use crate::fault::ReplayFault;
use crate::last_lines::conclude;
use crate::player::Player;
use crate::sinks::{flush, refuse};
use st_link::Sink;
use st_rules::Summary;
use st_world::World;

/// Plays what is left at the end of the source, and writes the end of the report.
pub(crate) fn finish<O: Sink>(
    player: &mut Player,
    held: &[u8],
    out: &mut O,
) -> Result<(Summary, World), ReplayFault>
    requires here { IsHere player.old.world player.old.reader player.old.line }
    ensures exact { Reports result (O.written out.old) (O.written out.new)
        (behind player.old.text.items (from_here player.old.world player.old.reader player.old.line (one held.now))) }
    ensures counts { IfOk result (λ r. r.0 ≡ rules.summary r.1) }
    ensures causes { HasCauses result 0 0 (O.faults out.old) (O.faults out.new) }
{
    match conclude(player, held) {
        Ok(summary) => match player.world.take() {
            Some(world) => match flush(out, &mut player.text) {
                Ok(()) => Ok((summary, world)),
                Err(_) => Err(ReplayFault::Write),
            },
            None => unreachable!(),
        },
        Err(stop) => Err(refuse(out, &mut player.text, stop)),
    }
}
