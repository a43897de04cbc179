// A whole replay: the source is taken to its end, and the report written as the run goes on.
ghost use Rattle.std.specs.Prelude.{◌≡◌, IfOk, IfSome};
ghost use Rattle.std.specs.Io.KnownBytes.{IsAtEnd};
ghost use Rattle.st_rules.specs.Events as rules;
ghost use Rattle.st_replay.specs.Ends.{Completes, HasCauses, IsCutOff, OnRead, Reports};
ghost use Rattle.st_replay.specs.VolumeRuns.{RunsInTheVolume};
ghost use Rattle.st_runs.specs.Replay.{replay_of};
ghost use Rattle.st_runs.specs.Safe.{RunsSafely};
ghost use Rattle.st_runs.specs.Schedule.{lines_of};

use crate::fault::ReplayFault;
use crate::pieces::feed;
use crate::player::Player;
use crate::report_end::finish;
use crate::sinks::{flush, refuse};
use crate::{schedules_run_in_the_volume, schedules_run_safely};
use st_link::{Sink, Source};
use st_rules::Summary;
use st_world::World;
use std::alloc::Global;

/// Replays a schedule: reads it from `input` in pieces of at most 4,096 bytes, runs each line as
/// soon as it is whole, and writes the report to `out`; what is observed of the lines of a piece is
/// written before the next piece is read. Neither the schedule nor the report is kept: between two
/// reads at most 256 bytes of the schedule are held. It hands back the counts of the run, and the
/// world that it led to.
///
/// It returns `Line` if a line is refused, and then the report ends with that line's refusal;
/// `Read` and `Write` if a read or a write failed, and `Memory` if memory ran out.
pub fn replay<I: Source, O: Sink>(
    alloc: Global,
    input: &mut I,
    out: &mut O,
) -> Result<(Summary, World), ReplayFault>
    // The report over all the bytes that the source held: all of it if the replay went through
    // or stopped at a line, and otherwise a prefix of it.
    ensures report { IfSome (I.left input.old) (λ bytes. Reports result (O.written out.old) (O.written out.new) (replay_of bytes)) }
    ensures counts { IfOk result (λ r. r.0 ≡ rules.summary r.1) }
    ensures through { IfOk result (λ r. IsAtEnd (I.left input.new)) }
    // After `Read`: the head's line and the observations of the lines whose newlines were taken, of
    // which none is refused.
    ensures read { OnRead result (IsCutOff (I.left input.old) (I.left input.new) (O.written out.old) (O.written out.new)) }
    // `Read` and `Write` come only if a count of faults rose; at `Ok` and at `Line` none did.
    ensures causes { HasCauses result (I.faults input.old) (I.faults input.new) (O.faults out.old) (O.faults out.new) }
    // A schedule that goes through its end is refused at no line.
    ensures complete { IfSome (I.left input.old) (λ bytes. Completes result (replay_of bytes).last) }
    // The run of which the report tells is safe: every step of it keeps every promise.
    ensures safe { IfSome (I.left input.old) (λ bytes. RunsSafely (lines_of bytes)) }
    // And it is a run of the volume.
    ensures volume { IfSome (I.left input.old) (λ bytes. RunsInTheVolume (lines_of bytes)) }
{
    schedules_run_safely();
    schedules_run_in_the_volume();
    let mut player = Player::new(alloc);
    let mut held = Vec::new(alloc);
    let mut room = [0u8; 4096];
    'pieces: loop {
        let Ok(n) = input.take(&mut room) else {
            return Err(ReplayFault::Read);
        };
        if n == 0 {
            return finish(&mut player, held.as_slice(), out);
        }
        match feed(&mut player, &mut held, &room[..n]) {
            Ok(()) => {}
            Err(stop) => return Err(refuse(out, &mut player.text, stop)),
        }
        match flush(out, &mut player.text) {
            Ok(()) => {}
            Err(_) => return Err(ReplayFault::Write),
        }
    }
}
