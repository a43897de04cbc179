// The last line of a report that goes through its end.
ghost use Rattle.std.specs.Prelude.{◌≡◌, ◌++◌, OnOk};
ghost use Rattle.st_rules.specs.Report as text;

use crate::words::{put_numbered, put_text};
use st_rules::Summary;
use std::alloc::AllocError;

/// Appends the last line of the report of a schedule that went through its end.
#[tactic(auto, unfolding(st_rules::specs::Report::ended))]
pub fn put_ended(out: &mut Vec<u8>, s: Summary) -> Result<(), AllocError>
    ensures { OnOk result (out.new.items ≡ out.old.items ++ text.ended s) }
{
    put_numbered(out, b"end events", s.events)?;
    put_numbered(out, b" sent", s.sent)?;
    put_numbered(out, b" commands", s.commands)?;
    put_numbered(out, b" writes", s.writes)?;
    put_numbered(out, b" reads", s.reads)?;
    put_numbered(out, b" hard", s.hard)?;
    put_numbered(out, b" gone", s.gone)?;
    put_numbered(out, b" stolen", s.stolen)?;
    put_text(out, b"\n")
}
