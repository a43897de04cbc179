// Bodies that version 1 or 2 has too. `st_codec` reads and writes whole messages, so such a body
// goes through it after a header of its version; each header has 38 bytes with the version and the
// kind, so a fault has the same place.
ghost use Rattle.std.specs.Prelude.{◌≡◌, ◌⊎◌, ◌++◌, ◌+◌, true, IfOk, OnOk, length};
ghost use Rattle.st_codec.specs.Spelling as spells;
ghost use Rattle.st_messages.specs.Kinds as kinds;
ghost use Rattle.st_messages.specs.Ranges as fits;
ghost use Rattle.st_third_codec.specs.Decoder as reading;

use crate::kind_bytes::{number_of, version_of};
use st_codec::{CodecRefusal, decode, encode};
use st_codec_fields::{put_byte, put_word16, put_word64};
use st_messages::{Body, Header, Kind, Message, Need, Party};
use st_third::ThirdMessage;
use std::alloc::{AllocError, Global};

/// Appends a header.
#[tactic(auto, unfolding(st_codec::specs::Spelling::header, st_codec::specs::Spelling::nodes, st_codec::specs::Spelling::ages, st_codec::specs::Spelling::marks))]
pub(crate) fn put_header(out: &mut Vec<u8>, header: &Header) -> Result<(), AllocError>
    ensures { OnOk result (out.new.items ≡ out.old.items ++ spells.header header.now) }
{
    put_word16(out, header.from)?;
    put_word16(out, header.to)?;
    put_word64(out, header.life)?;
    put_word64(out, header.epoch)?;
    put_word64(out, header.number)?;
    put_word64(out, header.stamp)
}

/// Returns one of the party's nodes.
fn node_of(party: Party) -> u16
    ensures { kinds.includes party result ≡ true }
{
    match party {
        Party::Client | Party::Node => 1,
        Party::Server => 32_769,
        Party::Surroundings => 0,
    }
}

/// Returns a number that a header may have.
fn number_for(need: Need) -> u64
    ensures { kinds.allows need result ≡ true }
{
    match need {
        Need::Zero | Need::Any => 0,
        Need::Positive => 1,
    }
}

/// Returns a header that version 1 allows for this kind.
#[tactic(auto, unfolding(st_messages::specs::Ranges::is_header))]
fn some_header(kind: Kind) -> Header
    ensures { fits.is_header kind result ≡ true }
{
    Header {
        from: node_of(kind.sender()),
        to: node_of(kind.receiver()),
        life: number_for(kind.life()),
        epoch: number_for(kind.epoch()),
        number: number_for(kind.request()),
        stamp: number_for(kind.stamp()),
    }
}

/// Returns the bytes of this body after this header, in the version of its kind.
#[tactic(auto, unfolding(st_codec::specs::Spelling::kind))]
fn after_header(
    alloc: Global,
    kind: Kind,
    header: &Header,
    body: &[u8],
) -> Result<Vec<u8>, AllocError>
    ensures { IfOk result (λ bytes. bytes.items ≡ spells.kind kind ++ spells.header header.now ++ body.now) }
{
    let mut bytes = Vec::new(alloc);
    put_byte(&mut bytes, version_of(kind))?;
    put_byte(&mut bytes, number_of(kind))?;
    put_header(&mut bytes, header)?;
    bytes.extend_from_slice(body)?;
    Ok(bytes)
}

/// Returns the message with this header and the body of this kind that the bytes spell, or the
/// first fault.
pub(crate) fn decode_plain(
    alloc: Global,
    kind: Kind,
    header: Header,
    body: &[u8],
) -> Result<ThirdMessage, CodecRefusal>
    ensures { (result ≡ reading.told (38 + length body.now) (reading.whole (reading.plain_at kind header body.now))) ⊎ (result ≡ Err CodecRefusal.Memory) }
{
    let first = some_header(kind);
    let bytes = match after_header(alloc, kind, &first, body) {
        Ok(bytes) => bytes,
        Err(_) => return Err(CodecRefusal::Memory),
    };
    match decode(alloc, bytes.as_slice()) {
        Ok(message) => {
            let body = message.body;
            Ok(ThirdMessage::Plain(Message { header, body }))
        }
        Err(refusal) => Err(refusal),
    }
}

/// Appends a body.
pub(crate) fn put_plain(alloc: Global, out: &mut Vec<u8>, body: &Body) -> Result<(), AllocError>
    requires { fits.is_body body.now ≡ true }
    ensures { OnOk result (out.new.items ≡ out.old.items ++ spells.body body.now) }
{
    let message = Message {
        header: some_header(body.kind()),
        body: body.copy()?,
    };
    let bytes = encode(alloc, &message)?;
    let (_, text) = bytes.as_slice().split_at(38);
    out.extend_from_slice(text)
}
