// The bytes of a message: the fields of its kind, in order.
ghost use Rattle.std.specs.Prelude.{◌≡◌, ◌++◌, true, IfOk, OnOk};
ghost use Rattle.st_messages.specs.Ranges as fits;
ghost use Rattle.st_codec.specs.Spelling as spells;
ghost use Rattle.st_codec_fields.specs.Spelling as field_spells;

use crate::kind_bytes::{number_of, version_of};
use crate::local_encoder::{put_answer, put_ask, put_command, put_disk_result};
use st_base::{BlockAt, Command, GrantNo, Mode, PageNo};
use st_codec_fields::{
    put_block, put_byte, put_extents, put_grant, put_locks, put_mode, put_name_op, put_name_reply,
    put_word16, put_word32, put_word64,
};
use st_messages::{Body, Header, Message, Why};
use std::alloc::{AllocError, Global};

/// Returns the number of the reason on the wire.
fn why_number(why: Why) -> u8
    ensures { result ≡ spells.why_number why }
{
    match why {
        Why::Suspect => 1,
        Why::NoSession => 2,
        Why::OtherEpoch => 3,
        Why::Grace => 4,
        Why::GraceOver => 5,
        Why::Conflict => 6,
        Why::NotHolder => 7,
        Why::NoFile => 8,
        Why::NoSpace => 9,
        Why::TooManyLocks => 10,
    }
}

fn put_wish(out: &mut Vec<u8>, ino: u32, mode: Mode) -> Result<(), AllocError>
    ensures { OnOk result (out.new.items ≡ out.old.items ++ (field_spells.word32 ino ++ field_spells.mode mode)) }
{
    put_word32(out, ino)?;
    put_mode(out, mode)
}

fn put_lock(out: &mut Vec<u8>, ino: u32, g: GrantNo, mode: Mode) -> Result<(), AllocError>
    ensures { OnOk result (out.new.items ≡ out.old.items ++ (field_spells.word32 ino ++ field_spells.grant g ++ field_spells.mode mode)) }
{
    put_word32(out, ino)?;
    put_grant(out, g)?;
    put_mode(out, mode)
}

fn put_place(out: &mut Vec<u8>, ino: u32, g: GrantNo, page: PageNo) -> Result<(), AllocError>
    ensures { OnOk result (out.new.items ≡ out.old.items ++ (field_spells.word32 ino ++ field_spells.grant g ++ field_spells.word32 page.0)) }
{
    put_word32(out, ino)?;
    put_grant(out, g)?;
    put_word32(out, page.0)
}

fn put_run(
    out: &mut Vec<u8>,
    ino: u32,
    g: GrantNo,
    page: PageNo,
    count: u16,
) -> Result<(), AllocError>
    ensures { OnOk result (out.new.items ≡ out.old.items ++ (field_spells.word32 ino ++ field_spells.grant g ++ field_spells.word32 page.0 ++ field_spells.word16 count)) }
{
    put_word32(out, ino)?;
    put_grant(out, g)?;
    put_word32(out, page.0)?;
    put_word16(out, count)
}

fn put_nack(out: &mut Vec<u8>, why: Why, a: u64, b: u64) -> Result<(), AllocError>
    ensures { OnOk result (out.new.items ≡ out.old.items ++ (field_spells.byte (spells.why_number why) ++ field_spells.word64 a ++ field_spells.word64 b)) }
{
    put_byte(out, why_number(why))?;
    put_word64(out, a)?;
    put_word64(out, b)
}

fn put_submit(out: &mut Vec<u8>, number: u64, at: BlockAt, what: &Command) -> Result<(), AllocError>
    ensures { OnOk result (out.new.items ≡ out.old.items ++ (field_spells.word64 number ++ field_spells.block at ++ spells.command what.now)) }
{
    put_word64(out, number)?;
    put_block(out, at)?;
    put_command(out, what)
}

#[tactic(auto, unfolding(crate::specs::Spelling::body, st_messages::specs::Ranges::is_body))]
fn put_body(out: &mut Vec<u8>, body: &Body) -> Result<(), AllocError>
    requires { fits.is_body body.now ≡ true }
    ensures { OnOk result (out.new.items ≡ out.old.items ++ spells.body body.now) }
{
    match body {
        Body::Acquire { ino, mode } => put_wish(out, *ino, *mode),
        Body::Released { ino, g, to } => put_lock(out, *ino, *g, *to),
        Body::Map { ino, g, page } => put_place(out, *ino, *g, *page),
        Body::Allocate {
            ino,
            g,
            page,
            count,
        } => put_run(out, *ino, *g, *page, *count),
        Body::Cut { ino, g, from } => put_place(out, *ino, *g, *from),
        Body::Name(op) => put_name_op(out, op),
        Body::Reassert(rows) => put_locks(out, rows),
        Body::DemandSeen { ino, g } => {
            put_word32(out, *ino)?;
            put_grant(out, *g)
        }
        Body::Nack { why, a, b } => put_nack(out, *why, *a, *b),
        Body::Granted { ino, g, mode } => put_lock(out, *ino, *g, *mode),
        Body::Queued { ino, mode } => put_wish(out, *ino, *mode),
        Body::Demand { ino, g, to } => put_lock(out, *ino, *g, *to),
        Body::Extents { ino, rows } => {
            put_word32(out, *ino)?;
            put_extents(out, rows)
        }
        Body::Named(reply) => put_name_reply(out, reply),
        Body::App { op, ask } => {
            put_word32(out, *op)?;
            put_ask(out, ask)
        }
        Body::AppDone { op, answer } => {
            put_word32(out, *op)?;
            put_answer(out, answer)
        }
        Body::Submit { command, at, what } => put_submit(out, *command, *at, what),
        Body::Done { command, result } => {
            put_word64(out, *command)?;
            put_disk_result(out, result)
        }
        Body::Hello | Body::KeepAlive | Body::Welcome => Ok(()),
        Body::Ack | Body::Reasserted | Body::Tick => Ok(()),
    }
}

#[tactic(auto, unfolding(crate::specs::Spelling::header, crate::specs::Spelling::nodes, crate::specs::Spelling::ages, crate::specs::Spelling::marks))]
fn put_header(out: &mut Vec<u8>, header: &Header) -> Result<(), AllocError>
    ensures { OnOk result (out.new.items ≡ out.old.items ++ spells.header header.now) }
{
    put_word16(out, header.from)?;
    put_word16(out, header.to)?;
    put_word64(out, header.life)?;
    put_word64(out, header.epoch)?;
    put_word64(out, header.number)?;
    put_word64(out, header.stamp)
}

/// Appends the bytes of a message, as `docs/PROTOCOL.md`, "Wire", gives them table by table.
#[tactic(auto, unfolding(crate::specs::Spelling::spelling, crate::specs::Spelling::kind, st_messages::specs::Ranges::fits))]
pub fn put_message(out: &mut Vec<u8>, message: &Message) -> Result<(), AllocError>
    requires { fits.fits message.now ≡ true }
    ensures { OnOk result (out.new.items ≡ out.old.items ++ spells.spelling message.now) }
{
    let kind = message.body.kind();
    put_byte(out, version_of(kind))?;
    put_byte(out, number_of(kind))?;
    put_header(out, &message.header)?;
    put_body(out, &message.body)
}

/// Returns the bytes of a message, as `put_message` appends them.
pub fn encode(alloc: Global, message: &Message) -> Result<Vec<u8>, AllocError>
    requires { fits.fits message.now ≡ true }
    ensures { IfOk result (λ bytes. bytes.items ≡ spells.spelling message.now) }
{
    // most messages are shorter
    let mut out = Vec::with_capacity(alloc, 64)?;
    put_message(&mut out, message)?;
    Ok(out)
}
