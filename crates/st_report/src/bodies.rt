// The fields of the body of a message in the line of that message.
ghost use Rattle.std.specs.Prelude.{◌≡◌, ◌++◌, OnOk};
ghost use Rattle.std.specs.List.{flat_map};
ghost use Rattle.st_base.specs.Mode.{number_of};
ghost use Rattle.st_rules.specs.Report as text;

use crate::names::{put_name_op, put_name_reply};
use crate::words::put_field;
use st_base::{ExtentRow, GrantNo, Mode, PageNo};
use st_messages::{Body, Why};
use std::alloc::AllocError;

/// The word of a message's kind, after a space. Messages between a node and its own surroundings
/// have none.
pub(crate) fn kind(body: &Body) -> &'static str
    ensures { result.now ≡ text.kind body.now }
{
    match body {
        Body::Hello => " hello",
        Body::KeepAlive => " keepalive",
        Body::Acquire { .. } => " acquire",
        Body::Released { .. } => " released",
        Body::Map { .. } => " map",
        Body::Allocate { .. } => " allocate",
        Body::Cut { .. } => " cut",
        Body::Name(_) => " name",
        Body::Reassert(_) => " reassert",
        Body::DemandSeen { .. } => " demandseen",
        Body::Welcome => " welcome",
        Body::Ack => " ack",
        Body::Nack { .. } => " nack",
        Body::Granted { .. } => " granted",
        Body::Queued { .. } => " queued",
        Body::Demand { .. } => " demand",
        Body::Extents { .. } => " extents",
        Body::Named(_) => " named",
        Body::Reasserted => " reasserted",
        _ => "",
    }
}

fn number_of_why(why: Why) -> u64
    ensures { result ≡ text.number_of_why why }
{
    match why {
        Why::Suspect => 1,
        Why::NoSession => 2,
        Why::OtherEpoch => 3,
        Why::Grace => 4,
        Why::GraceOver => 5,
        Why::Conflict => 6,
        Why::NotHolder => 7,
        Why::NoFile => 8,
        Why::NoSpace => 9,
        Why::TooManyLocks => 10,
    }
}

fn put_two(out: &mut Vec<u8>, a: u64, b: u64) -> Result<(), AllocError>
    ensures { OnOk result (out.new.items ≡ out.old.items ++ (text.field a ++ text.field b)) }
{
    put_field(out, a)?;
    put_field(out, b)
}

fn put_three(out: &mut Vec<u8>, a: u64, b: u64, c: u64) -> Result<(), AllocError>
    ensures { OnOk result (out.new.items ≡ out.old.items ++ (text.field a ++ text.field b ++ text.field c)) }
{
    put_two(out, a, b)?;
    put_field(out, c)
}

/// Appends a file, a grant of its lock and a mode.
fn put_lock(out: &mut Vec<u8>, ino: u32, g: GrantNo, mode: Mode) -> Result<(), AllocError>
    ensures { OnOk result (out.new.items ≡ out.old.items ++ (text.field ino ++ text.field g.0 ++ text.field (number_of mode))) }
{
    put_three(out, u64::from(ino), g.0, u64::from(mode.number()))
}

/// Appends a file, a grant of its lock and a page.
fn put_page_of(out: &mut Vec<u8>, ino: u32, g: GrantNo, page: PageNo) -> Result<(), AllocError>
    ensures { OnOk result (out.new.items ≡ out.old.items ++ (text.field ino ++ text.field g.0 ++ text.field page.0)) }
{
    put_three(out, u64::from(ino), g.0, u64::from(page.0))
}

fn put_each_lock_row(out: &mut Vec<u8>, rows: &[(u32, GrantNo, Mode)]) -> Result<(), AllocError>
    ensures { OnOk result (out.new.items ≡ out.old.items ++ flat_map text.lock_row rows.now) }
{
    for r in rows {
        put_lock(out, r.0, r.1, r.2)?;
    }
    Ok(())
}

fn put_each_extent_row(out: &mut Vec<u8>, rows: &[ExtentRow]) -> Result<(), AllocError>
    ensures { OnOk result (out.new.items ≡ out.old.items ++ flat_map text.extent_row rows.now) }
{
    for r in rows {
        put_three(
            out,
            u64::from(r.page.0),
            u64::from(r.at.disk.0),
            u64::from(r.at.block),
        )?;
        put_field(out, r.birth)?;
    }
    Ok(())
}

/// Appends the fields of a body, in the order of the wire.
#[tactic(auto, unfolding(st_rules::specs::Report::fields))]
pub(crate) fn put_fields(out: &mut Vec<u8>, body: &Body) -> Result<(), AllocError>
    ensures { OnOk result (out.new.items ≡ out.old.items ++ text.fields body.now) }
{
    match body {
        Body::Acquire { ino, mode } => put_two(out, u64::from(*ino), u64::from(mode.number())),
        Body::Released { ino, g, to } => put_lock(out, *ino, *g, *to),
        Body::Map { ino, g, page } => put_page_of(out, *ino, *g, *page),
        Body::Allocate {
            ino,
            g,
            page,
            count,
        } => {
            put_page_of(out, *ino, *g, *page)?;
            put_field(out, u64::from(*count))
        }
        Body::Cut { ino, g, from } => put_page_of(out, *ino, *g, *from),
        Body::Name(op) => put_name_op(out, op),
        Body::Reassert(rows) => {
            put_field(out, rows.len() as u64)?;
            put_each_lock_row(out, rows.as_slice())
        }
        Body::DemandSeen { ino, g } => put_two(out, u64::from(*ino), g.0),
        Body::Nack { why, a, b } => put_three(out, number_of_why(*why), *a, *b),
        Body::Granted { ino, g, mode } => put_lock(out, *ino, *g, *mode),
        Body::Queued { ino, mode } => put_two(out, u64::from(*ino), u64::from(mode.number())),
        Body::Demand { ino, g, to } => put_lock(out, *ino, *g, *to),
        Body::Extents { ino, rows } => {
            put_two(out, u64::from(*ino), rows.len() as u64)?;
            put_each_extent_row(out, rows.as_slice())
        }
        Body::Named(reply) => put_name_reply(out, reply),
        _ => Ok(()),
    }
}
