// What is asked of names, and what answers it, in a report.
ghost use Rattle.std.specs.Prelude.{◌≡◌, ◌++◌, OnOk};
ghost use Rattle.st_rules.specs.Report as text;

use crate::words::{put_field, put_number, put_text};
use st_base::{Name, NameRow};
use st_messages::{NameOp, NameReply};
use std::alloc::AllocError;

fn put_name(out: &mut Vec<u8>, name: &[u8]) -> Result<(), AllocError>
    ensures { OnOk result (out.new.items ≡ out.old.items ++ text.name name.now) }
{
    out.push(b' ')?;
    put_text(out, name)
}

/// Appends the number of a request on names, its directory and a name in it.
fn put_entry(out: &mut Vec<u8>, number: u64, dir: u32, name: &Name) -> Result<(), AllocError>
    ensures { OnOk result (out.new.items ≡ out.old.items ++ (text.field number ++ text.field dir ++ text.name name.now)) }
{
    put_field(out, number)?;
    put_field(out, u64::from(dir))?;
    put_name(out, name.as_slice())
}

pub(crate) fn put_name_op(out: &mut Vec<u8>, op: &NameOp) -> Result<(), AllocError>
    ensures { OnOk result (out.new.items ≡ out.old.items ++ text.name_op op.now) }
{
    match op {
        NameOp::Lookup { dir, name } => put_entry(out, 1, *dir, name),
        NameOp::Create { dir, name } => put_entry(out, 2, *dir, name),
        NameOp::Mkdir { dir, name } => put_entry(out, 3, *dir, name),
        NameOp::Remove { dir, name, g } => {
            put_entry(out, 4, *dir, name)?;
            put_field(out, g.0)
        }
        NameOp::Rename {
            dir,
            name,
            dir2,
            name2,
        } => {
            put_entry(out, 5, *dir, name)?;
            put_field(out, u64::from(*dir2))?;
            put_name(out, name2.as_slice())
        }
        NameOp::List { dir, after } => {
            put_field(out, 6)?;
            put_field(out, u64::from(*dir))?;
            match after.as_slice() {
                [] => put_text(out, b" -"),
                after => put_name(out, after),
            }
        }
    }
}

#[tactic(auto, unfolding(st_rules::specs::Report::kind_of_row))]
fn kind_of(directory: bool) -> u64
    ensures { result ≡ text.kind_of_row directory }
{
    if directory { 2 } else { 1 }
}

/// Appends the entries of a listing.
pub(crate) fn put_name_rows(out: &mut Vec<u8>, rows: &[NameRow]) -> Result<(), AllocError>
    ensures { OnOk result (out.new.items ≡ out.old.items ++ text.name_rows rows.now) }
{
    put_field(out, rows.len() as u64)?;
    for r in rows {
        put_field(out, u64::from(r.ino))?;
        out.push(b':')?;
        put_number(out, kind_of(r.directory))?;
        out.push(b':')?;
        put_text(out, r.name.as_slice())?;
    }
    Ok(())
}

pub(crate) fn put_name_reply(out: &mut Vec<u8>, reply: &NameReply) -> Result<(), AllocError>
    ensures { OnOk result (out.new.items ≡ out.old.items ++ text.name_reply reply.now) }
{
    match reply {
        NameReply::Ino(ino) => {
            put_field(out, 0)?;
            put_field(out, u64::from(*ino))
        }
        NameReply::Listed(rows) => {
            put_field(out, 1)?;
            put_name_rows(out, rows.as_slice())
        }
        NameReply::Refused(code) => {
            put_field(out, 2)?;
            put_field(out, u64::from(*code))
        }
    }
}
