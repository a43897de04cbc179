ghost use Rattle.std.specs.Prelude.{◌≡◌, ◌<◌, ◌+◌, ◌++◌, OnOk};
ghost use Rattle.st_schedule.specs.Parser.{Gives};
ghost use Rattle.st_schedule_words.specs.Words.{split};
ghost use Rattle.st_script.specs.Ends.{Begins};
ghost use Rattle.st_script.specs.Scripts.{answer_lines};

use st_schedule::ReadError;
use std::alloc::{AllocError, Global};

/// A command that plays scripts: the first line, the events that a line may spell, and what each is
/// answered. A command whose scripts have no first line refuses every one.
pub trait Script: Drop {
    ghost use Rattle.std.specs.Prelude.{List, ℕ, Result};
    ghost use Rattle.st_schedule.specs.declared.fault.Fault.{Fault};
    ghost use Rattle.st_script.specs.Scripts.{Rules};

    type Event: Drop;

    /// The state of a script.
    ghost State: { Type 0 };

    /// The state that the words of a first line begin.
    ghost head: { List (List ℕ) → Result State Fault };

    /// The rules of the command.
    ghost rules: { Rules State Self.Event };

    /// The value stands for this state, after that many events.
    ghost stands: { ℕ → State → Self → Type 0 };

    /// Begins a script by its first line, of at most 256 bytes.
    fn begin(alloc: Global, line: &[u8]) -> Result<Self, ReadError>
        ensures { Begins (stands 0) result (head (split line.now)) };

    /// Reads the event of a line of at most 256 bytes.
    fn event(alloc: Global, line: &[u8]) -> Result<Self::Event, ReadError>
        ensures { Gives (λ e. e) result (rules.event (split line.now)) };

    /// Plays an event after that many others, fewer than 10,000, and appends its answers. After an
    /// error nothing is promised about the value and the text.
    fn play(
        &mut self,
        alloc: Global,
        done: u64,
        event: Self::Event,
        text: &mut Vec<u8>,
    ) -> Result<(), AllocError>
        requires few { done < 10000 }
        ensures text { (s : State) → stands done s self.old → OnOk result (text.new.items ≡ text.old.items ++ answer_lines (done + 1) (rules.answers s event)) }
        ensures stands { (s : State) → stands done s self.old → OnOk result (stands (done + 1) (rules.next s event) self.new) };

    /// Appends the last line, after that many events.
    fn finish(&self, events: u64, text: &mut Vec<u8>) -> Result<(), AllocError>
        ensures { (s : State) → stands events s self.now → OnOk result (text.new.items ≡ text.old.items ++ rules.last events s) };
}
