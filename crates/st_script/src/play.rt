// The lines of a script: each is played, and its answer written, up to the end or to the line that
// stops it.
ghost use Rattle.std.specs.Prelude.{ℕ, List, ◌≡◌, ◌≤◌, ◌<◌, ◌+◌, ◌++◌, OnOk, OnErr, IfErr, Err, Some};
ghost use Rattle.std.specs.Io.KnownBytes.{Appends, IsAtEnd, prepend_known};
ghost use Rattle.st_link.specs.Prefixes.{AppendsPrefix};
ghost use Rattle.st_schedule_words.specs.Lines.{lines_of};
ghost use Rattle.st_script.specs.Ends.{HasCauses, Refuses, Reports, WriteCauses, Writes};
ghost use Rattle.st_script.specs.Scripts as scripts;
ghost use Rattle.st_script.specs.Scripts.{answer_lines, stopped_text};

use crate::fault::{ScriptFault, Stop};
use crate::lines::next_event;
use crate::pieces::next_line;
use crate::script::Script;
use st_link::{Sink, Source, put_all};
use st_report::{put_refused, put_text};
use std::alloc::{AllocError, Global};

/// Writes a text.
fn write<O: Sink>(out: &mut O, text: &[u8]) -> Result<(), ScriptFault>
    ensures exact { Writes result (O.written out.old) (O.written out.new) text.now }
    ensures cause { WriteCauses result (O.faults out.old) (O.faults out.new) }
{
    match put_all(out, text) {
        Ok(()) => Ok(()),
        Err(_) => Err(ScriptFault::Write),
    }
}

/// Appends the line of a script that stops at this line.
#[tactic(auto, unfolding(st_rules::specs::Report::refused))]
fn put_stopped(text: &mut Vec<u8>, line: u64) -> Result<(), AllocError>
    ensures { OnOk result (text.new.items ≡ text.old.items ++ stopped_text line) }
{
    put_refused(text, line)?;
    put_text(text, b" Malformed\n")
}

/// Ends the text of a script that stops at this line.
pub(crate) fn refuse<O: Sink>(alloc: Global, line: u64, out: &mut O) -> ScriptFault
    ensures exact { Refuses result line (O.written out.old) (O.written out.new) }
    ensures cause { WriteCauses (Err result) (O.faults out.old) (O.faults out.new) }
{
    let mut text = Vec::new(alloc);
    let Ok(()) = put_stopped(&mut text, line) else {
        return ScriptFault::Memory;
    };
    match put_all(out, text.as_slice()) {
        Ok(()) => ScriptFault::Line(line),
        Err(_) => ScriptFault::Write,
    }
}

/// Plays an event after that many others, and writes its answers.
fn play_event<S: Script, O: Sink>(
    alloc: Global,
    script: &mut S,
    done: u64,
    event: S::Event,
    out: &mut O,
) -> Result<(), ScriptFault>
    requires few { done < 10000 }
    ensures exact { (s : S.State) → S.stands done s script.old →
        Writes result (O.written out.old) (O.written out.new) (answer_lines (done + 1) (S.rules.answers s event)) }
    ensures stands { (s : S.State) → S.stands done s script.old → OnOk result (S.stands (done + 1) (S.rules.next s event) script.new) }
    ensures cause { WriteCauses result (O.faults out.old) (O.faults out.new) }
{
    let mut text = Vec::new(alloc);
    script.play(alloc, done, event, &mut text)?;
    write(out, text.as_slice())
}

/// Writes the last line, after this number of events.
fn write_last<S: Script, O: Sink>(
    alloc: Global,
    script: &S,
    done: u64,
    out: &mut O,
) -> Result<(), ScriptFault>
    ensures exact { (s : S.State) → S.stands done s script.now → Writes result (O.written out.old) (O.written out.new) (S.rules.last done s) }
    ensures cause { WriteCauses result (O.faults out.old) (O.faults out.new) }
{
    let mut text = Vec::new(alloc);
    script.finish(done, &mut text)?;
    write(out, text.as_slice())
}

/// Ends a script at the line `end`, which has this number, with the bytes after it.
fn conclude<S: Script, I: Source, O: Sink>(
    alloc: Global,
    script: &S,
    done: u64,
    line: u64,
    held: &mut Vec<u8>,
    input: &mut I,
    out: &mut O,
) -> Result<(), ScriptFault>
    requires { line ≤ 10002 }
    ensures exact { (s : S.State) → S.stands done s script.now → (bytes : List ℕ) → prepend_known held.old.items (I.left input.old) ≡ Some bytes →
        Reports (λ t. S.stands done t script.now) result (O.written out.old) (O.written out.new) (scripts.ended S.rules done line s (lines_of bytes)) }
    ensures through { OnOk result (IsAtEnd (I.left input.new)) }
    ensures causes { HasCauses result (I.faults input.old) (I.faults input.new) (O.faults out.old) (O.faults out.new) }
{
    match next_line(held, input) {
        Ok(None) => write_last(alloc, script, done, out),
        Ok(Some(_)) => Err(refuse(alloc, line + 1, out)),
        Err(Stop::Malformed) => Err(refuse(alloc, line + 1, out)),
        Err(Stop::Read) => Err(ScriptFault::Read),
        Err(Stop::Memory) => Err(ScriptFault::Memory),
    }
}

/// Plays the lines of a source, the first of which has this number, up to the end, and writes the
/// answers of each before it takes more.
pub(crate) fn play_lines<S: Script, I: Source, O: Sink>(
    alloc: Global,
    script: &mut S,
    first: u64,
    held: &mut Vec<u8>,
    input: &mut I,
    out: &mut O,
) -> Result<(), ScriptFault>
    requires { first ≤ 2 }
    ensures exact { (s : S.State) → S.stands 0 s script.old → (bytes : List ℕ) → prepend_known held.old.items (I.left input.old) ≡ Some bytes →
        Reports (λ t. (n : ℕ) × S.stands n t script.new) result (O.written out.old) (O.written out.new) (scripts.play_from S.rules 0 first s (lines_of bytes)) }
    ensures through { OnOk result (IsAtEnd (I.left input.new)) }
    ensures causes { HasCauses result (I.faults input.old) (I.faults input.new) (O.faults out.old) (O.faults out.new) }
{
    let mut done = 0u64;
    'lines: loop {
        match next_event::<S, I>(alloc, done, held, input) {
            Ok(Some(event)) => match play_event(alloc, script, done, event, out) {
                Ok(()) => {}
                Err(fault) => return Err(fault),
            },
            Ok(None) => return conclude(alloc, script, done, first + done, held, input, out),
            Err(Stop::Malformed) => return Err(refuse(alloc, first + done, out)),
            Err(Stop::Read) => return Err(ScriptFault::Read),
            Err(Stop::Memory) => return Err(ScriptFault::Memory),
        }
        done += 1;
    }
}
