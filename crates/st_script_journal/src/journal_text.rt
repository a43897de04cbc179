// The lines that answer the events of a journal.
ghost use Rattle.std.specs.Prelude.{◌≡◌, ◌++◌, ◌∷◌, [], OnOk};
ghost use Rattle.st_journal.specs.Parts.{stable_of};
ghost use Rattle.st_script_journal.specs.JournalRuns.{answer_text};
ghost use Rattle.st_script_journal.specs.JournalScripts as scripts;
ghost use Rattle.st_script_journal.specs.JournalScripts.{IsAnswered};
ghost use Rattle.st_script.specs.Scripts.{answer_lines};

use crate::journal_run::JournalAnswer;
use st_base::NameRefusal;
use st_journal::{ChangeRefusal, Stable};
use st_report::{put_field, put_text};
use st_script::{begin_answer, end_answer, put_answer};
use std::alloc::AllocError;

/// The number of a refusal of names.
fn number_of(refusal: NameRefusal) -> u64
    ensures { result ≡ scripts.number_of refusal }
{
    match refusal {
        NameRefusal::NoEntry => 1,
        NameRefusal::Exists => 2,
        NameRefusal::NotDir => 3,
        NameRefusal::IsDir => 4,
        NameRefusal::NotEmpty => 5,
        NameRefusal::Cycle => 6,
        NameRefusal::BadName => 7,
        NameRefusal::TooMany => 8,
        NameRefusal::Memory => 0,
    }
}

/// Appends the line of a change that is refused. It fails if the refusal is lack of memory.
fn put_refused_change(
    text: &mut Vec<u8>,
    number: u64,
    refusal: ChangeRefusal,
) -> Result<(), AllocError>
    ensures { OnOk result (IsAnswered refusal × (text.new.items ≡ text.old.items ++ answer_lines number (scripts.refusal refusal ∷ []))) }
{
    begin_answer(text, number)?;
    match refusal {
        ChangeRefusal::Names(why) => {
            put_text(text, b" refused")?;
            put_field(text, number_of(why))?;
        }
        ChangeRefusal::NoFile(_) => put_text(text, b" nofile")?,
        ChangeRefusal::NoSpace { free, asked } => {
            put_text(text, b" nospace")?;
            put_field(text, free)?;
            put_field(text, asked)?;
        }
        ChangeRefusal::Memory => return Err(AllocError),
    }
    end_answer(text)
}

/// Appends the line of a change. It fails if the answer is lack of memory.
pub(crate) fn put_change(
    text: &mut Vec<u8>,
    number: u64,
    answer: JournalAnswer,
) -> Result<(), AllocError>
    ensures { OnOk result (text.new.items ≡ text.old.items ++ answer_lines number (answer_text answer ∷ [])) }
{
    match answer {
        JournalAnswer::Done => put_answer(text, number, b" ok"),
        JournalAnswer::Refused(refusal) => put_refused_change(text, number, refusal),
        JournalAnswer::Stopped(kept) => {
            if kept {
                put_answer(text, number, b" stopped kept")
            } else {
                put_answer(text, number, b" stopped lost")
            }
        }
    }
}

/// Appends a text, and a number after a space.
fn put_count(text: &mut Vec<u8>, name: &[u8], count: u64) -> Result<(), AllocError>
    ensures { OnOk result (text.new.items ≡ text.old.items ++ scripts.counted_text name.now count) }
{
    put_text(text, name)?;
    put_field(text, count)
}

fn put_numbers(
    text: &mut Vec<u8>,
    epoch: u64,
    entries: u64,
    mapped: u64,
    free: u64,
    birth: u64,
) -> Result<(), AllocError>
    ensures { OnOk result (text.new.items ≡ text.old.items ++ scripts.state_text epoch entries mapped free birth) }
{
    put_count(text, b"state epoch", epoch)?;
    put_count(text, b" entries", entries)?;
    put_count(text, b" mapped", mapped)?;
    put_count(text, b" free", free)?;
    put_count(text, b" next", birth)?;
    put_text(text, b"\n")
}

/// Appends the last line.
pub(crate) fn put_state(text: &mut Vec<u8>, stable: &Stable) -> Result<(), AllocError>
    ensures { OnOk result (text.new.items ≡ text.old.items ++ scripts.stable_text (stable_of stable.now)) }
{
    let entries = u64::from(stable.names.entries());
    let mapped = u64::from(stable.extents.mapped());
    let free = u64::from(stable.extents.free());
    let birth = stable.extents.next_birth();
    put_numbers(text, stable.epoch.0, entries, mapped, free, birth)
}
