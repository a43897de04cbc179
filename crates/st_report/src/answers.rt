ghost use Rattle.std.specs.Prelude.{◌≡◌, ◌++◌, OnOk};
ghost use Rattle.std.specs.List.{flat_map};
ghost use Rattle.st_rules.specs.Report as text;

use crate::names::put_name_rows;
use crate::runs::put_page;
use crate::words::{put_behind, put_field, put_numbered, put_text};
use st_base::LostRow;
use st_messages::AppAnswer;
use std::alloc::AllocError;

fn put_each_lost_row(out: &mut Vec<u8>, rows: &[LostRow]) -> Result<(), AllocError>
    ensures { OnOk result (out.new.items ≡ out.old.items ++ flat_map text.lost_row rows.now) }
{
    for r in rows {
        put_field(out, u64::from(r.page.0))?;
        put_behind(out, b':', r.command)?;
    }
    Ok(())
}

/// Appends a word and two numbers.
fn put_pair(out: &mut Vec<u8>, word: &[u8], a: u64, b: u64) -> Result<(), AllocError>
    ensures { OnOk result (out.new.items ≡ out.old.items ++ (word.now ++ text.field a ++ text.field b)) }
{
    put_numbered(out, word, a)?;
    put_field(out, b)
}

/// Appends an answer. It is a function of its own for the prover, which doesn't join these texts to
/// those of the line inside the match.
#[tactic(auto, unfolding(st_rules::specs::Report::answer))]
pub(crate) fn put_answer(out: &mut Vec<u8>, answer: &AppAnswer) -> Result<(), AllocError>
    ensures { OnOk result (out.new.items ≡ out.old.items ++ text.answer answer.now) }
{
    match answer {
        AppAnswer::Written => put_text(out, b" written"),
        AppAnswer::Read(bytes) => {
            put_text(out, b" read")?;
            put_page(out, bytes)
        }
        AppAnswer::Hard => put_text(out, b" hard"),
        AppAnswer::Cut => put_text(out, b" cut"),
        AppAnswer::Named(ino) => put_numbered(out, b" named", u64::from(*ino)),
        AppAnswer::Listed(rows) => {
            put_text(out, b" listed")?;
            put_name_rows(out, rows.as_slice())
        }
        AppAnswer::Refused(code) => put_numbered(out, b" refused", u64::from(*code)),
        AppAnswer::Quiesced => put_text(out, b" quiesced"),
        AppAnswer::NoFile => put_text(out, b" nofile"),
        AppAnswer::NoSpace(free, asked) => put_pair(out, b" nospace", *free, *asked),
        AppAnswer::DiskFault(number) => put_numbered(out, b" diskfault", *number),
        AppAnswer::OpsFull => put_text(out, b" opsfull"),
        AppAnswer::Uncertain(old, new) => put_pair(out, b" uncertain", *old, *new),
        AppAnswer::Lost(rows) => {
            put_text(out, b" lost")?;
            put_field(out, rows.len() as u64)?;
            put_each_lost_row(out, rows.as_slice())
        }
        AppAnswer::DirtyFull => put_text(out, b" dirtyfull"),
        AppAnswer::NotHolder => put_text(out, b" notholder"),
        AppAnswer::TooManyLocks => put_text(out, b" toomanylocks"),
    }
}
