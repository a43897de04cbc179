// The bytes of a message of version 3.
ghost use Rattle.std.specs.Prelude.{◌≡◌, ◌++◌, true, IfOk, OnOk};
ghost use Rattle.st_codec.specs.Spelling as plain;
ghost use Rattle.st_third.specs.Messages as third;

use crate::kind_bytes::number_of;
use crate::plain_body::{put_header, put_plain};
use crate::row::{put_extents, put_locks};
use st_codec_fields::{put_byte, put_word16, put_word32};
use st_messages::{Body, Header, Kind};
use st_third::ThirdMessage;
use std::alloc::{AllocError, Global};

#[tactic(auto, unfolding(st_third::specs::Messages::front))]
fn put_front(out: &mut Vec<u8>, kind: Kind, header: &Header) -> Result<(), AllocError>
    ensures { OnOk result (out.new.items ≡ out.old.items ++ third.front kind header.now) }
{
    put_byte(out, 3)?;
    put_byte(out, number_of(kind))?;
    put_header(out, header)
}

#[tactic(auto, unfolding(st_codec::specs::Spelling::body, st_third::specs::Messages::is_body))]
fn put_body(alloc: Global, out: &mut Vec<u8>, body: &Body) -> Result<(), AllocError>
    requires { third.is_body body.now ≡ true }
    ensures { OnOk result (out.new.items ≡ out.old.items ++ plain.body body.now) }
{
    match body {
        Body::Reassert(rows) => put_locks(out, rows),
        Body::Extents { ino, rows } => {
            put_word32(out, *ino)?;
            put_extents(out, rows)
        }
        _ => put_plain(alloc, out, body),
    }
}

/// Appends the bytes of a message, as `docs/PROTOCOL.md`, "Messages of version 3", says.
#[tactic(auto, unfolding(st_third::specs::Messages::spelling, st_third::specs::Messages::fits))]
pub fn put_message(
    alloc: Global,
    out: &mut Vec<u8>,
    message: &ThirdMessage,
) -> Result<(), AllocError>
    requires { third.fits message.now ≡ true }
    ensures { OnOk result (out.new.items ≡ out.old.items ++ third.spelling message.now) }
{
    match message {
        ThirdMessage::Plain(message) => {
            put_front(out, message.body.kind(), &message.header)?;
            put_body(alloc, out, &message.body)
        }
        ThirdMessage::Leave(header, op, server) => {
            put_front(out, Kind::App, header)?;
            put_word32(out, *op)?;
            put_byte(out, 7)?;
            put_word16(out, server.0)
        }
        ThirdMessage::Left(header, op) => {
            put_front(out, Kind::AppDone, header)?;
            put_word32(out, *op)?;
            put_byte(out, 7)
        }
        ThirdMessage::Unsynced(header, op, ino) => {
            put_front(out, Kind::AppDone, header)?;
            put_word32(out, *op)?;
            put_byte(out, 27)?;
            put_word32(out, *ino)
        }
    }
}

/// Returns the bytes of a message, as `put_message` appends them.
pub fn encode(alloc: Global, message: &ThirdMessage) -> Result<Vec<u8>, AllocError>
    requires { third.fits message.now ≡ true }
    ensures { IfOk result (λ bytes. bytes.items ≡ third.spelling message.now) }
{
    let mut out = Vec::new(alloc);
    put_message(alloc, &mut out, message)?;
    Ok(out)
}
