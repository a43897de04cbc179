// What the lines of a script say.
ghost use Rattle.std.specs.Prelude.{◌≡◌, ◌<◌, ℕ, List, Some, IfOk, IfSome};
ghost use Rattle.std.specs.Io.KnownBytes.{prepend_known};
ghost use Rattle.st_schedule_words.specs.Words.{split};
ghost use Rattle.st_script.specs.Ahead.{Heads, ReadsOn, StopCauses};
ghost use Rattle.st_script.specs.States.{IsBegun, IsRead};
ghost use Rattle.st_script.specs.Scripts as scripts;

use crate::fault::Stop;
use crate::pieces::{first_bytes, next_line, pass_line};
use crate::script::Script;
use st_link::Source;
use st_schedule::{ReadError, is_long};
use st_schedule_words::is;
use std::alloc::Global;

/// The most events of a script.
const MOST_EVENTS: u64 = 10_000;

/// Reads a line after that many events: an event, or none if it is the line `end`.
#[tactic(auto, unfolding(crate::specs::Scripts::read_line))]
fn read_line<S: Script>(alloc: Global, done: u64, line: &[u8]) -> Result<Option<S::Event>, Stop>
    ensures exact { IsRead result (scripts.read_line S.rules done line.now) }
    ensures few { IfOk result (λ e. IfSome e (λ x. done < 10000)) }
{
    if is_long(line) {
        Err(Stop::Malformed)
    } else if is(line, b"end") {
        Ok(None)
    } else {
        match S::event(alloc, line) {
            Ok(event) => {
                if done < MOST_EVENTS {
                    Ok(Some(event))
                } else {
                    Err(Stop::Malformed)
                }
            }
            Err(ReadError::Memory) => Err(Stop::Memory),
            Err(ReadError::Fault(_)) => Err(Stop::Malformed),
        }
    }
}

/// Reads the next line of a source after that many events: an event, or none if it is the line
/// `end`. If the source has ended, the line is missing.
pub(crate) fn next_event<S: Script, I: Source>(
    alloc: Global,
    done: u64,
    held: &mut Vec<u8>,
    input: &mut I,
) -> Result<Option<S::Event>, Stop>
    ensures exact { (bytes : List ℕ) → prepend_known held.old.items (I.left input.old) ≡ Some bytes →
        ReadsOn S.rules done bytes (prepend_known held.new.items (I.left input.new)) result }
    ensures few { IfOk result (λ e. IfSome e (λ x. done < 10000)) }
    ensures causes { StopCauses result (I.faults input.old) (I.faults input.new) }
{
    match next_line(held, input) {
        Ok(Some(n)) => {
            let read = read_line::<S>(alloc, done, first_bytes(held.as_slice(), n));
            pass_line(held, n);
            read
        }
        Ok(None) => Err(Stop::Malformed),
        Err(stop) => Err(stop),
    }
}

/// Begins a script by its first line.
#[tactic(auto, unfolding(crate::specs::Scripts::first_line))]
fn begin<S: Script>(alloc: Global, line: &[u8]) -> Result<S, Stop>
    ensures { IsBegun (S.stands 0) result (scripts.first_line S.head line.now) }
{
    if is_long(line) {
        return Err(Stop::Malformed);
    }
    match S::begin(alloc, line) {
        Ok(script) => Ok(script),
        Err(ReadError::Memory) => Err(Stop::Memory),
        Err(ReadError::Fault(_)) => Err(Stop::Malformed),
    }
}

/// Begins a script by the first line of a source. If the source has none, it is missing.
pub(crate) fn next_head<S: Script, I: Source>(
    alloc: Global,
    held: &mut Vec<u8>,
    input: &mut I,
) -> Result<S, Stop>
    ensures exact { (bytes : List ℕ) → prepend_known held.old.items (I.left input.old) ≡ Some bytes →
        Heads (S.stands 0) S.head S.rules bytes (prepend_known held.new.items (I.left input.new)) result }
    ensures causes { StopCauses result (I.faults input.old) (I.faults input.new) }
{
    match next_line(held, input) {
        Ok(Some(n)) => {
            let begun = begin::<S>(alloc, first_bytes(held.as_slice(), n));
            pass_line(held, n);
            begun
        }
        Ok(None) => Err(Stop::Malformed),
        Err(stop) => Err(stop),
    }
}
