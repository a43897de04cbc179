// The last line of a report: of a run that went through the end, or of a line that stopped it.
ghost use Rattle.std.specs.Prelude.{◌≡◌, ◌++◌, [], IfOk, OnOk, Ok};
ghost use Rattle.st_rules.specs.Events as rules;
ghost use Rattle.st_runs.specs.Replay.{Stopped, behind, last_line, line_refusal};
ghost use Rattle.st_replay.specs.States.{EndsAt, Goes, IsHere, OnStop, from_here};
ghost use Rattle.st_replay.specs.Streams.{Concludes, EndsWhole, one};
ghost use Rattle.st_rules.specs.Report.{refused, ended};

use crate::fault::Stop;
use crate::player::Player;
use st_base::ConfigRefusal;
use st_report::{put_ended, put_field, put_refusal, put_refused, put_text};
use st_rules::Summary;
use st_runs::LineRefusal;
use st_schedule::ScheduleRefusal;
use st_world::World;
use std::alloc::AllocError;

/// Appends why a line is refused.
#[tactic(auto, unfolding(st_runs::specs::Replay::line_refusal))]
fn put_why(text: &mut Vec<u8>, refusal: &LineRefusal) -> Result<(), AllocError>
    ensures { OnOk result (text.new.items ≡ text.old.items ++ line_refusal refusal.now) }
{
    match refusal {
        LineRefusal::World(refusal) => put_refusal(text, *refusal),
        LineRefusal::Schedule(refusal) => match refusal {
            ScheduleRefusal::Syntax(column) => {
                put_text(text, b" Syntax")?;
                put_field(text, *column)
            }
            ScheduleRefusal::Number(column) => {
                put_text(text, b" Number")?;
                put_field(text, *column)
            }
            ScheduleRefusal::LineTooLong => put_text(text, b" LineTooLong 256"),
            ScheduleRefusal::NoHead => put_text(text, b" NoHead"),
            ScheduleRefusal::NoEnd => put_text(text, b" NoEnd"),
            ScheduleRefusal::AfterEnd => put_text(text, b" AfterEnd"),
            ScheduleRefusal::TooMany => put_text(text, b" TooMany 100000"),
            ScheduleRefusal::Config(refusal) => match refusal {
                ConfigRefusal::Order => put_text(text, b" Config Order"),
                ConfigRefusal::Rate => put_text(text, b" Config Rate"),
                ConfigRefusal::TooLong => put_text(text, b" Config TooLong"),
                ConfigRefusal::Demand => put_text(text, b" Config Demand"),
                ConfigRefusal::Grain => put_text(text, b" Config Grain"),
            },
            ScheduleRefusal::Memory => Ok(()),
        },
    }
}

/// Appends the last line of a report that stops at the line of this number.
#[tactic(auto, unfolding(st_runs::specs::Replay::last_line, st_rules::specs::Report::refused))]
pub(crate) fn put_stopped(
    text: &mut Vec<u8>,
    line: u64,
    refusal: &LineRefusal,
) -> Result<(), AllocError>
    ensures { OnOk result (text.new.items ≡ text.old.items ++ last_line (Stopped line refusal.now)) }
{
    put_refused(text, line)?;
    put_why(text, refusal)?;
    put_text(text, b"\n")
}

/// Plays the line that the bytes at the end of a schedule are, if there are any.
fn play_rest(player: &mut Player, held: &[u8]) -> Result<(), Stop>
    requires here { IsHere player.old.world player.old.reader player.old.line }
    ensures goes { OnOk result (Goes player.old.text.items player.old.world player.old.reader player.old.line
        player.new.text.items player.new.world player.new.reader player.new.line (one held.now)) }
    ensures stops { OnStop result (λ n f. EndsAt player.new.text.items n f
        (behind player.old.text.items (from_here player.old.world player.old.reader player.old.line (one held.now)))) }
    ensures here { OnOk result (IsHere player.new.world player.new.reader player.new.line) }
{
    match held {
        [] => Ok(()),
        _ => player.play(held),
    }
}

/// Appends the last line of a report that goes through the end.
#[tactic(auto, unfolding(st_runs::specs::Replay::last_line))]
fn put_whole(text: &mut Vec<u8>, world: &World) -> Result<Summary, Stop>
    ensures summary { IfOk result (λ s. s ≡ rules.summary world.now) }
    ensures text { OnOk result (text.new.items ≡ text.old.items ++ ended (rules.summary world.now)) }
    ensures memory { OnStop result (λ n f. ⊥) }
{
    let summary = world.summary();
    put_ended(text, summary)?;
    Ok(summary)
}

/// Ends the report of lines that were all played.
fn end(player: &mut Player) -> Result<Summary, Stop>
    requires here { IsHere player.old.world player.old.reader player.old.line }
    ensures whole { IfOk result (λ s. EndsWhole player.old.text.items player.new.text.items s player.old.world player.old.reader player.old.line) }
    ensures stops { OnStop result (λ n f. EndsAt player.new.text.items n f
        (behind player.old.text.items (from_here player.old.world player.old.reader player.old.line []))) }
    ensures world { OnOk result (player.new.world ≡ player.old.world) }
{
    match player.reader.finish() {
        Err(refusal) => Err(Stop::Line(player.line, LineRefusal::Schedule(refusal))),
        Ok(()) => match &player.world {
            Some(world) => put_whole(&mut player.text, world),
            None => unreachable!(),
        },
    }
}

/// Plays the bytes that are left at the end of a schedule, and ends its report.
pub(crate) fn conclude(player: &mut Player, held: &[u8]) -> Result<Summary, Stop>
    requires here { IsHere player.old.world player.old.reader player.old.line }
    ensures whole { IfOk result (λ s. Concludes player.old.text.items player.new.text.items s player.new.world
        (from_here player.old.world player.old.reader player.old.line (one held.now))) }
    ensures stops { OnStop result (λ n f. EndsAt player.new.text.items n f
        (behind player.old.text.items (from_here player.old.world player.old.reader player.old.line (one held.now)))) }
{
    match play_rest(player, held) {
        Ok(()) => end(player),
        Err(stop) => Err(stop),
    }
}
