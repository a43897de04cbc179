// A whole script: taken in pieces, played line by line, and answered.
ghost use Rattle.std.specs.Prelude.{ℕ, ⊤, OnOk, IfSome};
ghost use Rattle.std.specs.Io.KnownBytes.{IsAtEnd};
ghost use Rattle.st_script.specs.Ends.{HasCauses, Reports};
ghost use Rattle.st_script.specs.Scripts as scripts;

use crate::fault::{ScriptFault, Stop};
use crate::lines::next_head;
use crate::play::{play_lines, refuse};
use crate::script::Script;
use st_link::{Sink, Source};
use std::alloc::Global;

/// Runs a script that has no first line, from the state of `script`: takes it from `input` in
/// pieces of at most 4,096 bytes, plays its events one after another, and writes the answers of
/// each to `out` before it takes more. At most a piece and a line are held. A line that is too long
/// is refused at its 257th byte, wherever its newline is.
///
/// It returns `Line` if a line is malformed: none of the command's, longer than 256 bytes, event
/// 10,001, or after the line `end`; the text ends with the line of this refusal then. If `end`
/// is missing, it is the line after the last one. It returns `Read` and `Write` if a read or a
/// write failed, and `Memory` if memory ran out. After an error other than `Line` nothing is
/// promised about `script`.
pub fn run<S: Script, I: Source, O: Sink>(
    alloc: Global,
    script: &mut S,
    input: &mut I,
    out: &mut O,
) -> Result<(), ScriptFault>
    // The text over all the bytes that the source held: all of it if the script went through its
    // end or stopped at a line, and otherwise a prefix of it.
    ensures report { (s : S.State) → S.stands 0 s script.old → IfSome (I.left input.old) (λ bytes.
        Reports (λ t. (n : ℕ) × S.stands n t script.new) result (O.written out.old) (O.written out.new) (scripts.script_from S.rules s bytes)) }
    ensures through { OnOk result (IsAtEnd (I.left input.new)) }
    // `Read` and `Write` come only if a count of faults rose; at `Ok` and at `Line` none did.
    ensures causes { HasCauses result (I.faults input.old) (I.faults input.new) (O.faults out.old) (O.faults out.new) }
{
    let mut held = Vec::new(alloc);
    play_lines(alloc, script, 1, &mut held, input, out)
}

/// Runs a script that has a first line, taken from `input`, and writes its answers to `out`, as
/// `run` does.
///
/// It returns what `run` does; a first line that is not the command's is malformed, and if there is
/// none line 1 is missing.
pub fn run_headed<S: Script, I: Source, O: Sink>(
    alloc: Global,
    input: &mut I,
    out: &mut O,
) -> Result<(), ScriptFault>
    // The text over all the bytes that the source held: all of it if the script went through its
    // end or stopped at a line, and otherwise a prefix of it.
    ensures report { IfSome (I.left input.old) (λ bytes.
        Reports (λ t. ⊤) result (O.written out.old) (O.written out.new) (scripts.script_of S.head S.rules bytes)) }
    ensures through { OnOk result (IsAtEnd (I.left input.new)) }
    // `Read` and `Write` come only if a count of faults rose; at `Ok` and at `Line` none did.
    ensures causes { HasCauses result (I.faults input.old) (I.faults input.new) (O.faults out.old) (O.faults out.new) }
{
    let mut held = Vec::new(alloc);
    match next_head::<S, I>(alloc, &mut held, input) {
        Ok(mut script) => play_lines(alloc, &mut script, 2, &mut held, input, out),
        Err(Stop::Malformed) => Err(refuse(alloc, 1, out)),
        Err(Stop::Read) => Err(ScriptFault::Read),
        Err(Stop::Memory) => Err(ScriptFault::Memory),
    }
}
