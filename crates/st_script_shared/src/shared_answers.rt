// The lines that answer the events of a shared file.
ghost use Rattle.std.specs.Prelude.{◌≡◌, ◌∷◌, ◌++◌, [], OnOk};
ghost use Rattle.st_rules.specs.Report.{field};
ghost use Rattle.st_script.specs.Scripts.{answer_lines};
ghost use Rattle.st_script_shared.specs.SharedCalls.{done_answer, number_answer};
ghost use Rattle.st_script_shared.specs.SharedScripts as scripts;
ghost use Rattle.st_shared.specs.Calls.{shown_result};

use st_base::ClientId;
use st_report::{put_field, put_page, put_text};
use st_script::{begin_answer, end_answer};
use st_shared::{DiskRefusal, SharedAnswer, SharedRefusal};
use std::alloc::AllocError;

/// Appends a word and a number.
fn put_one(text: &mut Vec<u8>, word: &[u8], n: u64) -> Result<(), AllocError>
    ensures { OnOk result (text.new.items ≡ text.old.items ++ (word.now ++ field n)) }
{
    put_text(text, word)?;
    put_field(text, n)
}

/// Appends a refusal; if it is lack of memory, appends nothing.
fn put_refusal(text: &mut Vec<u8>, refusal: SharedRefusal) -> Result<(), AllocError>
    ensures { OnOk result (text.new.items ≡ text.old.items ++ scripts.refusal refusal) }
{
    match refusal {
        SharedRefusal::Held(client) => put_one(text, b" held", u64::from(client.0)),
        SharedRefusal::NotIn => put_text(text, b" notin"),
        SharedRefusal::Busy(n) => put_one(text, b" busy", n),
        SharedRefusal::Late(n) => put_one(text, b" late", n),
        SharedRefusal::SharedBy(client) => put_one(text, b" shared", u64::from(client.0)),
        SharedRefusal::Stopped(client) => put_one(text, b" stopped", u64::from(client.0)),
        SharedRefusal::NotStopped(client) => put_one(text, b" notstopped", u64::from(client.0)),
        SharedRefusal::Disk(DiskRefusal::NoCommand(n)) => put_one(text, b" nocommand", n),
        SharedRefusal::Disk(DiskRefusal::Twice(n)) => put_one(text, b" twice", n),
        SharedRefusal::Disk(DiskRefusal::NotEffected(n)) => put_one(text, b" noteffected", n),
        SharedRefusal::Disk(DiskRefusal::Reported(n)) => put_one(text, b" reported", n),
        SharedRefusal::Disk(DiskRefusal::Memory) => Ok(()),
        SharedRefusal::NoPage(page) => put_one(text, b" nopage", u64::from(page.0)),
        SharedRefusal::NoLock => put_text(text, b" nolock"),
        SharedRefusal::Memory => Ok(()),
    }
}

/// Appends the line of an event that has nothing to tell.
pub(crate) fn done_line(
    text: &mut Vec<u8>,
    number: u64,
    answer: Result<(), SharedRefusal>,
) -> Result<(), AllocError>
    ensures { OnOk result (text.new.items ≡ text.old.items ++ answer_lines number (scripts.answer_text (done_answer answer) ∷ [])) }
{
    begin_answer(text, number)?;
    match answer {
        Ok(()) => put_text(text, b" ok")?,
        Err(refusal) => put_refusal(text, refusal)?,
    }
    end_answer(text)
}

/// Appends the line of an event that submits a command.
pub(crate) fn number_line(
    text: &mut Vec<u8>,
    number: u64,
    answer: Result<u64, SharedRefusal>,
) -> Result<(), AllocError>
    ensures { OnOk result (text.new.items ≡ text.old.items ++ answer_lines number (scripts.answer_text (number_answer answer) ∷ [])) }
{
    begin_answer(text, number)?;
    match answer {
        Ok(n) => put_one(text, b" command", n)?,
        Err(refusal) => put_refusal(text, refusal)?,
    }
    end_answer(text)
}

/// Appends the line of a report.
pub(crate) fn told_line(
    text: &mut Vec<u8>,
    number: u64,
    answer: Result<SharedAnswer<'_>, SharedRefusal>,
) -> Result<(), AllocError>
    ensures { OnOk result (text.new.items ≡ text.old.items ++ answer_lines number (scripts.answer_text (shown_result answer.entry) ∷ [])) }
{
    begin_answer(text, number)?;
    match answer {
        Ok(SharedAnswer::Hard) => put_text(text, b" hard")?,
        Ok(SharedAnswer::Read(bytes)) => {
            put_text(text, b" read")?;
            put_page(text, bytes)?;
        }
        Ok(SharedAnswer::Failed) => put_text(text, b" failed")?,
        Ok(SharedAnswer::Silent) => put_text(text, b" silent")?,
        Err(refusal) => put_refusal(text, refusal)?,
    }
    end_answer(text)
}

fn refusal_line(text: &mut Vec<u8>, number: u64, refusal: SharedRefusal) -> Result<(), AllocError>
    ensures { OnOk result (text.new.items ≡ text.old.items ++ answer_lines number (scripts.refusal refusal ∷ [])) }
{
    begin_answer(text, number)?;
    put_refusal(text, refusal)?;
    end_answer(text)
}

/// Appends the line of an effect that is refused; one that is done has no line.
pub(crate) fn effect_line(
    text: &mut Vec<u8>,
    number: u64,
    answer: Result<(), SharedRefusal>,
) -> Result<(), AllocError>
    ensures { OnOk result (text.new.items ≡ text.old.items ++ answer_lines number (scripts.effect_answers (done_answer answer))) }
{
    match answer {
        Ok(()) => Ok(()),
        Err(refusal) => refusal_line(text, number, refusal),
    }
}

/// Appends the line of an event of a client that is not there.
pub(crate) fn absent_line(
    text: &mut Vec<u8>,
    number: u64,
    client: ClientId,
) -> Result<(), AllocError>
    ensures { OnOk result (text.new.items ≡ text.old.items ++ answer_lines number (scripts.no_client client ∷ [])) }
{
    begin_answer(text, number)?;
    put_text(text, b" noclient")?;
    put_field(text, u64::from(client.0))?;
    end_answer(text)
}
