// A piece of the source: the lines that are whole with it are played, and the bytes after them
// held.
ghost use Rattle.std.specs.Prelude.{◌≡◌, ◌+◌, ◌≤◌, ◌<◌, ◌∷◌, ◌++◌, [], ℕ, List, OnOk, length};
ghost use Rattle.st_schedule.specs.declared.fault.ScheduleRefusal.TheVariants.{LineTooLong};
ghost use Rattle.st_runs.specs.declared.fault.LineRefusal.TheVariants as why;
ghost use Rattle.st_runs.specs.Schedule.{lines_of};
ghost use Rattle.st_runs.specs.Replay.{behind};
ghost use Rattle.st_replay.specs.States.{EndsAt, Feeds, Goes, HasNone, IsHere, OnStop, from_here, needs};

use crate::fault::Stop;
use crate::lines::{after, before, newline};
use crate::player::Player;
use st_runs::LineRefusal;
use st_schedule::ScheduleRefusal;

/// The most bytes of a line.
const MOST_BYTES: usize = 256;

/// Plays the line of the bytes that are held and of these.
fn play_whole(player: &mut Player, held: &mut Vec<u8>, part: &[u8]) -> Result<(), Stop>
    requires here { IsHere player.old.world player.old.reader player.old.line }
    ensures goes { OnOk result (Goes player.old.text.items player.old.world player.old.reader player.old.line
        player.new.text.items player.new.world player.new.reader player.new.line ((held.old.items ++ part.now) ∷ [])) }
    ensures stops { OnStop result (λ n f. (ls : List (List ℕ)) → EndsAt player.new.text.items n f
        (behind player.old.text.items (from_here player.old.world player.old.reader player.old.line ((held.old.items ++ part.now) ∷ ls)))) }
    ensures number { OnOk result (player.new.line ≡ player.old.line + 1) }
    ensures here { OnOk result (IsHere player.new.world player.new.reader player.new.line) }
    ensures room { OnOk result (length (held.old.items ++ part.now) + 1 + needs player.new.reader ≤ needs player.old.reader) }
    ensures empty { OnOk result (held.new.items ≡ []) }
{
    if held.is_empty() {
        return player.play(part);
    }
    held.extend_from_slice(part)?;
    player.play(held.as_slice())?;
    held.clear();
    Ok(())
}

/// Holds these bytes, which belong to the line of this number, after those that are held.
fn hold(line: u64, held: &mut Vec<u8>, rest: &[u8]) -> Result<(), Stop>
    requires few { length held.old.items ≤ 256 }
    ensures held { OnOk result (held.new.items ≡ held.old.items ++ rest.now) }
    ensures few { OnOk result (length held.new.items ≤ 256) }
    ensures stops { OnStop result (λ n f. (n ≡ line) × (f ≡ why.Schedule LineTooLong) × (256 < length (held.old.items ++ rest.now))) }
{
    if held.len() + rest.len() > MOST_BYTES {
        return Err(Stop::Line(line, LineRefusal::Schedule(ScheduleRefusal::LineTooLong)));
    }
    held.extend_from_slice(rest)?;
    Ok(())
}

/// Plays the lines that are whole with this piece, and holds the bytes after them: at most 256.
pub(crate) fn feed(player: &mut Player, held: &mut Vec<u8>, piece: &[u8]) -> Result<(), Stop>
    requires here { IsHere player.old.world player.old.reader player.old.line }
    requires none { HasNone held.old.items }
    requires few { length held.old.items ≤ 256 }
    ensures fed { OnOk result (Feeds player.old.text.items player.old.world player.old.reader player.old.line held.old.items
        player.new.text.items player.new.world player.new.reader player.new.line held.new.items piece.now) }
    ensures stops { OnStop result (λ n f. (more : List ℕ) → EndsAt player.new.text.items n f
        (behind player.old.text.items (from_here player.old.world player.old.reader player.old.line (lines_of ((held.old.items ++ piece.now) ++ more))))) }
{
    let mut rest = piece;
    while let Some(at) = newline(rest) {
        match play_whole(player, held, before(rest, at)) {
            Ok(()) => rest = after(rest, at),
            Err(stop) => return Err(stop),
        }
    }
    hold(player.line, held, rest)
}
