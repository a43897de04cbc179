// The program: what its words ask for, what that runs over which streams, and the status that it
// ends with.
ghost use Rattle.std.specs.Prelude.{◌≡◌, IfSome};
ghost use Rattle.st_promises.specs.Safe.{IsAllPromised};
ghost use Rattle.st_replay.specs.VolumeRuns.{RunsInTheVolume};
ghost use Rattle.st_runs.specs.Safe.{RunsSafely};
ghost use Rattle.st_runs.specs.Schedule.{lines_of};
ghost use Rattle.st_tank.specs.Jobs.{Does, IsExplained, IsRefused, GetsText};
ghost use Rattle.st_tank.specs.Scripts.{IsPlayed, played, status_scripted};
ghost use Rattle.st_tank.specs.Status.{status_in, status_made};
ghost use Rattle.st_tank.specs.Uses.{clock_use, link_use, stream_use};
ghost use Rattle.st_tank.specs.Words as words_of;
ghost use Rattle.st_tank.specs.declared.words.Command.TheVariants as commands;

use crate::node_service::serve_node;
use crate::node_words::name_of;
use crate::words::{Command, Job, job_of};
use st_clock::Clock;
use st_link::{Link, Sink, Source, put_all};
use st_replay::{
    ReplayFault, Summary, WorkFault, World, all_is_promised, generate, put_work, replay,
    schedules_run_in_the_volume, schedules_run_safely,
};
use st_script::ScriptFault;
use st_script_containers::{move_containers, snap};
use st_script_journal::{MemoryStore, journal};
use st_script_shared::shared;
use std::alloc::Global;

const USAGE: &[u8] =
    b"usage: tank replay | generate N SEED | work N SEED | node server|client ID NAME | journal | move | snap | shared\n";

/// The number of bytes of a journal's store.
const STORE_SIZE: u64 = 4_194_304;

/// The status of a replay that ended so.
fn status_of_replay(ended: &Result<(Summary, World), ReplayFault>) -> u8
    ensures { result ≡ status_in ended.now }
{
    match ended {
        Ok(_) => 0,
        Err(ReplayFault::Line(..)) => 1,
        Err(ReplayFault::Read) => 3,
        Err(ReplayFault::Write) => 4,
        Err(ReplayFault::Memory) => 5,
    }
}

/// The status of a text that was made.
fn status_of_made<T: Drop>(made: Result<T, WorkFault>) -> u8
    ensures { result ≡ status_made made }
{
    match made {
        Ok(_) => 0,
        Err(WorkFault::Write) => 4,
        Err(WorkFault::Memory) => 5,
    }
}

/// The status of a script that ended so.
fn status_of_script<T: Drop>(ended: Result<T, ScriptFault>) -> u8
    ensures { result ≡ status_scripted ended }
{
    match ended {
        Ok(_) => 0,
        Err(ScriptFault::Line(_)) => 1,
        Err(ScriptFault::Read) => 3,
        Err(ScriptFault::Write) => 4,
        Err(ScriptFault::Memory) => 5,
    }
}

/// Plays a script of a journal, in a store of zeros. Returns the status.
#[tactic(auto, unfolding(crate::specs::Scripts::played))]
fn play_journal<I: Source, O: Sink>(alloc: Global, input: &mut I, out: &mut O) -> u8
    ensures { IsPlayed result (stream_use I.left I.faults input.old input.new) (stream_use O.written O.faults out.old out.new) (played commands.Journal) }
{
    let fails = Vec::new(alloc);
    match MemoryStore::new(alloc, STORE_SIZE, fails) {
        Ok(store) => status_of_script(journal(alloc, input, out, store)),
        Err(_) => 5,
    }
}

/// Plays a script. Returns the status.
#[tactic(auto, unfolding(crate::specs::Scripts::played))]
fn play_script<I: Source, O: Sink>(
    alloc: Global,
    command: Command,
    input: &mut I,
    out: &mut O,
) -> u8
    ensures { IsPlayed result (stream_use I.left I.faults input.old input.new) (stream_use O.written O.faults out.old out.new) (played command) }
{
    match command {
        Command::Journal => play_journal(alloc, input, out),
        Command::Move => status_of_script(move_containers(alloc, input, out)),
        Command::Snap => status_of_script(snap(alloc, input, out)),
        Command::Shared => status_of_script(shared(alloc, input, out)),
    }
}

/// Writes the usage to the error sink. Returns 2, or 4 if a call of the sink failed.
#[tactic(auto, unfolding(crate::specs::Words::USAGE))]
fn refuse<E: Sink>(err: &mut E) -> u8
    ensures { IsRefused result (stream_use E.written E.faults err.old err.new) }
{
    match put_all(err, USAGE) {
        Ok(()) => 2,
        Err(_) => 4,
    }
}

/// Writes a text to the error sink: all of it, unless a call of the sink fails.
fn tell<E: Sink>(err: &mut E, text: &[u8])
    ensures { GetsText (stream_use E.written E.faults err.old err.new) text.now }
{
    match put_all(err, text) {
        Ok(()) => {}
        Err(_) => {}
    }
}

/// Writes to the error sink the text of a status, if the status is a failure. Returns the status.
#[tactic(auto, unfolding(crate::specs::Words::fault_text))]
fn explained<E: Sink>(err: &mut E, status: u8) -> u8
    ensures same { result ≡ status }
    ensures explained { IsExplained result (stream_use E.written E.faults err.old err.new) }
{
    match status {
        3 => tell(err, b"tank: read failed\n"),
        4 => tell(err, b"tank: write failed\n"),
        5 => tell(err, b"tank: out of memory\n"),
        _ => {}
    }
    status
}

/// The program. With the one word `replay` it reads a schedule from `input` and writes the
/// schedule's report to `out`; with `generate N SEED` it writes the schedule of that length and
/// seed, and with `work N SEED` the last line of its report. With `journal`, `move`, `snap` or
/// `shared` it reads a script from `input` and writes its text to `out`. It returns 0 if the
/// schedule or the script was read and run through its end, or the text was written; 1 if a line
/// was refused, 3 for a failed read, 4 for a failed write, and 5 if memory ran out. With the words
/// `node server ID NAME` or `node client ID NAME` it attaches `link` at NAME and serves that node
/// over it, on the readings of `clock`: 0 if the stream ended at a frame's boundary, 1 if the
/// run stopped, 5 if memory ran out, and 6 if the link failed. All other words are wrong: 2.
/// If the text of 1 or 2 cannot be written to `err` it is 4. `docs/PROTOCOL.md`, "The program",
/// has the texts that are written to `err`.
pub fn run<I: Source, O: Sink, E: Sink, L: Link, C: Clock>(
    alloc: Global,
    words: &[String],
    input: &mut I,
    out: &mut O,
    err: &mut E,
    link: &mut L,
    clock: &mut C,
) -> u8
    // What the words ask for is done, and nothing else.
    ensures does { Does (words_of.job_of words.now) (words_of.name_of words.now) result
        (stream_use I.left I.faults input.old input.new) (stream_use O.written O.faults out.old out.new) (stream_use E.written E.faults err.old err.new)
        (link_use L.left L.written L.attached L.Source.faults link.old link.new) (clock_use C.readings clock.old clock.new) }
    // The run of which the report tells is safe: every step of it keeps every promise. Old messages
    // change nothing, in any run.
    ensures safe { IfSome (I.left input.old) (λ bytes. RunsSafely (lines_of bytes)) }
    // It is a run of the volume: what applications see of it is what they see of one sequential
    // file system.
    ensures volume { IfSome (I.left input.old) (λ bytes. RunsInTheVolume (lines_of bytes)) }
    ensures promised { IsAllPromised }
{
    schedules_run_safely();
    schedules_run_in_the_volume();
    all_is_promised();
    match job_of(words) {
        None => refuse(err),
        Some(Job::Replay) => {
            let ended = replay(alloc, input, out);
            explained(err, status_of_replay(&ended))
        }
        Some(Job::Script(command)) => explained(err, play_script(alloc, command, input, out)),
        Some(Job::Generate(n, seed)) => {
            explained(err, status_of_made(generate(alloc, seed, n, out)))
        }
        Some(Job::Work(n, seed)) => explained(err, status_of_made(put_work(alloc, seed, n, out))),
        Some(Job::Node(id)) => serve_node(alloc, id, name_of(words), err, link, clock),
    }
}
