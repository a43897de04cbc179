// The script of a metadata journal: its state, and what each event does and answers.
ghost use Rattle.std.specs.Prelude.{◌≡◌, ◌++◌, ◌∷◌, [], ℕ, OnOk, IsOk, IfErr, IfOk, IfSome, Some};
ghost use Rattle.std.specs.Io.KnownBytes.{IsAtEnd};
ghost use Rattle.st_script.specs.Ends.{HasCauses};
ghost use Rattle.st_script_journal.specs.JournalRuns.{HasChanges, IsFreshStore, Leaves, Stands};
ghost use Rattle.st_script_journal.specs.JournalScripts as scripts;
ghost use Rattle.st_script_journal.specs.JournalScripts.{JournalState, fresh_journal};
ghost use Rattle.st_script.specs.Scripts.{answer_lines, script_from};
ghost use Rattle.st_script.specs.declared.fault.ScriptFault.TheVariants.{Memory};

use crate::journal_event::{JournalEvent, RangedChange, SetStop, journal_event};
use crate::journal_run::Running;
use crate::journal_text::{put_change, put_state};
use st_journal::MemoryStore;
use st_link::{Sink, Source};
use st_schedule::{ReadError, unknown_word};
use st_script::{Script, ScriptFault, run};
use std::alloc::{AllocError, Global};

/// A script of a journal: the journal that is running, which exists until memory runs out.
#[derive(Drop)]
pub struct JournalScript {
    running: Option<Running>,
}

/// Plays a change, and appends its answer.
fn play_change(
    alloc: Global,
    script: &mut JournalScript,
    number: u64,
    change: &RangedChange,
    text: &mut Vec<u8>,
) -> Result<(), AllocError>
    ensures text { (s : JournalState) → Stands s script.old.running → OnOk result (text.new.items ≡ text.old.items
        ++ answer_lines number (scripts.change_answer s change.now ∷ [])) }
    ensures stands { (s : JournalState) → Stands s script.old.running → OnOk result (Stands (scripts.after_change s change.now) script.new.running) }
{
    let Some(running) = script.running.take() else {
        return Err(AllocError);
    };
    let (running, answer) = running.change(alloc, change)?;
    script.running = Some(running);
    put_change(text, number, answer)
}

/// Plays a stop.
fn play_stop(script: &mut JournalScript, stop: SetStop) -> Result<(), AllocError>
    ensures { (s : JournalState) → Stands s script.old.running → OnOk result (Stands (scripts.after_stop s stop) script.new.running) }
{
    match &mut script.running {
        Some(running) => {
            running.set_stop(stop);
            Ok(())
        }
        None => Err(AllocError),
    }
}

impl Script for JournalScript {
    ghost use Rattle.st_script_journal.specs.JournalRuns.{Stands};
    ghost use Rattle.st_script_journal.specs.JournalScripts.{JournalState, head, journal_rules};

    type Event = JournalEvent;

    ghost State = { JournalState };

    ghost head = { head };

    ghost rules = { journal_rules };

    ghost stands = { λ n s x. Stands s x.running };

    fn begin(_alloc: Global, line: &[u8]) -> Result<JournalScript, ReadError> {
        Err(unknown_word(line))
    }

    fn event(alloc: Global, line: &[u8]) -> Result<JournalEvent, ReadError> {
        journal_event(alloc, line)
    }

    #[tactic(auto, unfolding(crate::specs::JournalScripts::next, crate::specs::JournalScripts::answers))]
    fn play(
        &mut self,
        alloc: Global,
        done: u64,
        event: JournalEvent,
        text: &mut Vec<u8>,
    ) -> Result<(), AllocError> {
        match event {
            JournalEvent::Change(change) => play_change(alloc, self, done + 1, &change, text),
            JournalEvent::Stop(stop) => play_stop(self, stop),
        }
    }

    #[tactic(auto, unfolding(crate::specs::JournalScripts::last))]
    fn finish(&self, _events: u64, text: &mut Vec<u8>) -> Result<(), AllocError> {
        match &self.running {
            Some(running) => put_state(text, running.stable()),
            None => Err(AllocError),
        }
    }
}

/// Begins a script of a journal in a store of zeros.
fn begin(alloc: Global, store: MemoryStore) -> Result<JournalScript, AllocError>
    requires { IsFreshStore store }
    ensures { IfOk result (λ x. Stands fresh_journal x.running) }
{
    match Running::begin(alloc, store) {
        Ok(running) => Ok(JournalScript {
            running: Some(running),
        }),
        Err(_) => Err(AllocError),
    }
}

/// The store of a script that went through its end.
fn store_of(script: JournalScript) -> Result<MemoryStore, ScriptFault>
    ensures store { (s : JournalState) → Stands s script.running → IfOk result (HasChanges s) }
    ensures there { (s : JournalState) → Stands s script.running → IsOk result }
    ensures fault { IfErr result (λ f. f ≡ Memory) }
{
    match script.running {
        Some(running) => Ok(running.into_store()),
        None => Err(ScriptFault::Memory),
    }
}

/// Runs a script from its state, and gives its store.
fn run_script<I: Source, O: Sink>(
    alloc: Global,
    script: JournalScript,
    input: &mut I,
    out: &mut O,
) -> Result<MemoryStore, ScriptFault>
    ensures report { (s : JournalState) → Stands s script.running → IfSome (I.left input.old) (λ bytes.
        Leaves result (O.written out.old) (O.written out.new) (script_from scripts.journal_rules s bytes)) }
    ensures through { OnOk result (IsAtEnd (I.left input.new)) }
    ensures causes { HasCauses result (I.faults input.old) (I.faults input.new) (O.faults out.old) (O.faults out.new) }
{
    let mut script = script;
    match run(alloc, &mut script, input, out) {
        Ok(()) => store_of(script),
        Err(fault) => Err(fault),
    }
}

/// Runs a script of a journal: events `epoch`, `allocate I P N`, `cut I P`, `create D NAME`,
/// `mkdir D NAME`, `remove D NAME`, `rename D NAME T NAME2` and `stop M B`, and `end`.
/// `docs/PROTOCOL.md`, "Scripts", has their answers. The store has 4 MiB of zeros, none of its
/// calls fails, and no stop is set. It is given back with the journal of exactly the changes
/// that were answered `ok` or `stopped kept`, in their order. Otherwise it returns what `run` does.
pub fn journal<I: Source, O: Sink>(
    alloc: Global,
    input: &mut I,
    out: &mut O,
    store: MemoryStore,
) -> Result<MemoryStore, ScriptFault>
    requires fresh { IsFreshStore store }
    ensures report { IfSome (I.left input.old) (λ bytes.
        Leaves result (O.written out.old) (O.written out.new) (script_from scripts.journal_rules fresh_journal bytes)) }
    ensures through { OnOk result (IsAtEnd (I.left input.new)) }
    ensures causes { HasCauses result (I.faults input.old) (I.faults input.new) (O.faults out.old) (O.faults out.new) }
{
    match begin(alloc, store) {
        Ok(script) => run_script(alloc, script, input, out),
        Err(_) => Err(ScriptFault::Memory),
    }
}
