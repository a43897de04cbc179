ghost use Rattle.std.specs.Prelude.{◌≡◌, ◌++◌, OnOk};
ghost use Rattle.st_rules.specs.Report as text;

use crate::words::{put_behind, put_number, put_text};
use st_base::PageBytes;
use std::alloc::AllocError;

fn put_run(out: &mut Vec<u8>, count: u64, byte: u8) -> Result<(), AllocError>
    ensures { OnOk result (out.new.items ≡ out.old.items ++ text.one_run count byte) }
{
    put_number(out, count)?;
    put_behind(out, b'x', u64::from(byte))
}

/// Appends the runs of these bytes, which `first` precedes.
fn put_runs_from(out: &mut Vec<u8>, first: u8, bytes: &[u8]) -> Result<(), AllocError>
    ensures { OnOk result (out.new.items ≡ out.old.items ++ text.runs_from 1 first bytes.now) }
{
    let mut count = 1u64;
    let mut byte = first;
    for b in bytes {
        if *b == byte {
            count += 1;
        } else {
            put_run(out, count, byte)?;
            out.push(b',')?;
            count = 1;
            byte = *b;
        }
    }
    put_run(out, count, byte)
}

/// Appends the runs of equal bytes in these bytes.
#[tactic(auto, unfolding(st_rules::specs::Report::runs))]
pub(crate) fn put_runs(out: &mut Vec<u8>, bytes: &[u8]) -> Result<(), AllocError>
    ensures { OnOk result (out.new.items ≡ out.old.items ++ text.runs bytes.now) }
{
    match bytes {
        [] => Ok(()),
        [first, rest @ ..] => {
            out.push(b' ')?;
            put_runs_from(out, *first, rest)
        }
    }
}

/// Appends the runs of equal bytes in a page. It counts no bytes of a page of one byte repeated.
pub fn put_page(out: &mut Vec<u8>, bytes: &PageBytes) -> Result<(), AllocError>
    ensures { OnOk result (out.new.items ≡ out.old.items ++ text.runs bytes.now) }
{
    match bytes.repeated() {
        Some(byte) => {
            put_text(out, b" ")?;
            put_run(out, 4096, byte)
        }
        None => put_runs(out, bytes.as_slice()),
    }
}
