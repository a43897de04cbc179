ghost use Rattle.std.specs.Prelude.{◌≡◌, ◌++◌, OnOk};
ghost use Rattle.st_rules.specs.Report as text;

use crate::runs::put_page;
use crate::words::{put_field, put_text};
use st_base::{BlockAt, Command};
use std::alloc::AllocError;

fn put_block(out: &mut Vec<u8>, at: BlockAt) -> Result<(), AllocError>
    ensures { OnOk result (out.new.items ≡ out.old.items ++ text.block at) }
{
    put_field(out, u64::from(at.disk.0))?;
    put_field(out, u64::from(at.block))
}

/// Appends a command. It is a function of its own for the prover, which doesn't join these texts to
/// those of the line inside the match.
#[tactic(auto, unfolding(st_rules::specs::Report::command))]
pub(crate) fn put_command(out: &mut Vec<u8>, what: &Command) -> Result<(), AllocError>
    ensures { OnOk result (out.new.items ≡ out.old.items ++ text.command what.now) }
{
    match what {
        Command::Read { at } => {
            put_block(out, *at)?;
            put_text(out, b" r")
        }
        Command::Write { at, tag, bytes } => {
            put_block(out, *at)?;
            put_text(out, b" w")?;
            put_field(out, u64::from(tag.file.ino))?;
            put_field(out, u64::from(tag.page.0))?;
            put_field(out, tag.birth)?;
            put_page(out, bytes)
        }
    }
}
