// A message of version 3 from its bytes, with the first fault from the left.
ghost use Rattle.std.specs.Prelude.{◌≡◌, ◌⊎◌, ◌+◌, IfOk, List, ℕ, length};
ghost use Rattle.st_codec.specs.Decoder as plain;
ghost use Rattle.st_codec_fields.specs.Decoder as fields;
ghost use Rattle.st_third.specs.Messages as third;
ghost use Rattle.st_third_codec.specs.Decoder as reading;

use crate::kind_bytes::kind_of;
use crate::plain_body::decode_plain;
use crate::row::{read_extents, read_locks};
use st_base::ServerId;
use st_codec::CodecRefusal;
use st_codec_fields::{
    Fault, ReadError, out_of_range, read_byte, read_ino, read_word16, read_word16_in, read_word32,
    read_word64,
};
use st_messages::{Body, Header, Kind, Message, Need, Party};
use st_third::ThirdMessage;
use std::alloc::Global;

/// The version and the kind of a message. An ask to patch is of the kind of the other asks.
#[tactic(auto, unfolding(crate::specs::Decoder::kind_at, crate::specs::Decoder::version_at))]
fn read_kind(bytes: &[u8]) -> Result<(Kind, &[u8]), ReadError>
    ensures { fields.Gives (λ x. (x.0, x.1.now)) result (reading.kind_at bytes.now) }
{
    let (version, rest) = read_byte(bytes)?;
    if version != 3 {
        return Err(ReadError::Fault(Fault::Version));
    }
    let (number, rest) = read_byte(rest)?;
    match kind_of(number) {
        Some(kind) => Ok((kind, rest)),
        None => Err(ReadError::Fault(Fault::Kind)),
    }
}

/// Returns whether the node with this number is one of the party's.
fn includes(party: Party, node: u16) -> bool
    ensures { result ≡ third.includes party node }
{
    match party {
        Party::Client => 1 <= node && node <= 64,
        Party::Server => 32_769 <= node && node <= 32_776,
        Party::Node => (1 <= node && node <= 64) || (32_769 <= node && node <= 32_776),
        Party::Surroundings => node == 0,
    }
}

#[tactic(auto, unfolding(crate::specs::Decoder::party_at))]
fn read_party(party: Party, bytes: &[u8]) -> Result<(u16, &[u8]), ReadError>
    ensures { fields.Gives (λ x. (x.0, x.1.now)) result (reading.party_at party bytes.now) }
{
    let (node, rest) = read_word16(bytes)?;
    if !includes(party, node) {
        return Err(out_of_range(bytes));
    }
    Ok((node, rest))
}

#[tactic(auto, unfolding(st_codec::specs::Decoder::needed_at))]
fn read_needed(need: Need, bytes: &[u8]) -> Result<(u64, &[u8]), ReadError>
    ensures { fields.Gives (λ x. (x.0, x.1.now)) result (plain.needed_at need bytes.now) }
{
    let (number, rest) = read_word64(bytes)?;
    if !need.allows(number) {
        return Err(out_of_range(bytes));
    }
    Ok((number, rest))
}

#[tactic(auto, unfolding(crate::specs::Decoder::header_at, crate::specs::Decoder::nodes_at, st_codec::specs::Decoder::ages_at, st_codec::specs::Decoder::marks_at))]
fn read_header(kind: Kind, bytes: &[u8]) -> Result<(Header, &[u8]), ReadError>
    ensures { fields.Gives (λ x. (x.0, x.1.now)) result (reading.header_at kind bytes.now) }
{
    let (from, rest) = read_party(kind.sender(), bytes)?;
    let (to, rest) = read_party(kind.receiver(), rest)?;
    let (life, rest) = read_needed(kind.life(), rest)?;
    let (epoch, rest) = read_needed(kind.epoch(), rest)?;
    let (number, rest) = read_needed(kind.request(), rest)?;
    let (stamp, rest) = read_needed(kind.stamp(), rest)?;
    let header = Header {
        from,
        to,
        life,
        epoch,
        number,
        stamp,
    };
    Ok((header, rest))
}

#[tactic(auto, unfolding(crate::specs::Decoder::front_at))]
fn read_front(bytes: &[u8]) -> Result<((Kind, Header), &[u8]), ReadError>
    ensures { fields.Gives (λ x. (x.0, x.1.now)) result (reading.front_at bytes.now) }
{
    let (kind, rest) = read_kind(bytes)?;
    let (header, rest) = read_header(kind, rest)?;
    Ok(((kind, header), rest))
}

#[tactic(auto, unfolding(crate::specs::Decoder::reassert_at))]
fn read_reassert(
    alloc: Global,
    header: Header,
    bytes: &[u8],
) -> Result<(ThirdMessage, &[u8]), ReadError>
    ensures { fields.Gives (λ x. (x.0, x.1.now)) result (reading.reassert_at header bytes.now) }
{
    let (rows, rest) = read_locks(alloc, bytes)?;
    let body = Body::Reassert(rows);
    Ok((ThirdMessage::Plain(Message { header, body }), rest))
}

#[tactic(auto, unfolding(crate::specs::Decoder::extents_body_at))]
fn read_extents_body(
    alloc: Global,
    header: Header,
    bytes: &[u8],
) -> Result<(ThirdMessage, &[u8]), ReadError>
    ensures { fields.Gives (λ x. (x.0, x.1.now)) result (reading.extents_body_at header bytes.now) }
{
    let (ino, rest) = read_ino(bytes)?;
    let (rows, rest) = read_extents(alloc, rest)?;
    let body = Body::Extents { ino, rows };
    Ok((ThirdMessage::Plain(Message { header, body }), rest))
}

#[tactic(auto, unfolding(crate::specs::Decoder::leave_at))]
fn read_leave(header: Header, bytes: &[u8]) -> Result<(ThirdMessage, &[u8]), ReadError>
    ensures { fields.Gives (λ x. (x.0, x.1.now)) result (reading.leave_at header bytes.now) }
{
    let (op, rest) = read_word32(bytes)?;
    let (_, rest) = read_byte(rest)?;
    let (server, rest) = read_word16_in(1, 65_535, rest)?;
    Ok((ThirdMessage::Leave(header, op, ServerId(server)), rest))
}

#[tactic(auto, unfolding(crate::specs::Decoder::left_at))]
fn read_left(header: Header, bytes: &[u8]) -> Result<(ThirdMessage, &[u8]), ReadError>
    ensures { fields.Gives (λ x. (x.0, x.1.now)) result (reading.left_at header bytes.now) }
{
    let (op, rest) = read_word32(bytes)?;
    let (_, rest) = read_byte(rest)?;
    Ok((ThirdMessage::Left(header, op), rest))
}

#[tactic(auto, unfolding(crate::specs::Decoder::unsynced_at))]
fn read_unsynced(header: Header, bytes: &[u8]) -> Result<(ThirdMessage, &[u8]), ReadError>
    ensures { fields.Gives (λ x. (x.0, x.1.now)) result (reading.unsynced_at header bytes.now) }
{
    let (op, rest) = read_word32(bytes)?;
    let (_, rest) = read_byte(rest)?;
    let (ino, rest) = read_ino(rest)?;
    Ok((ThirdMessage::Unsynced(header, op, ino), rest))
}

/// Returns the fault as a refusal of a message of `len` bytes.
fn refusal_of(len: usize, fault: Fault) -> CodecRefusal
    ensures { result ≡ plain.refusal_of len fault }
{
    match fault {
        Fault::Short => CodecRefusal::Short,
        Fault::Long => CodecRefusal::Long,
        Fault::Kind => CodecRefusal::Kind,
        Fault::Value(left) => CodecRefusal::Value(len.saturating_sub(left) as u64),
        Fault::Version => CodecRefusal::Version,
    }
}

/// Returns what was read of a message of `len` bytes, if no byte is left.
fn whole(
    len: usize,
    read: Result<(ThirdMessage, &[u8]), ReadError>,
) -> Result<ThirdMessage, CodecRefusal>
    ensures { (r : fields.Read ThirdMessage) → fields.Gives (λ x. (x.0, x.1.now)) read.entry r → (result ≡ reading.told len (reading.whole r)) ⊎ (result ≡ Err CodecRefusal.Memory) }
{
    match read {
        Ok((message, rest)) => {
            if rest.is_empty() {
                Ok(message)
            } else {
                Err(CodecRefusal::Long)
            }
        }
        Err(ReadError::Memory) => Err(CodecRefusal::Memory),
        Err(ReadError::Fault(fault)) => Err(refusal_of(len, fault)),
    }
}

/// Returns the byte that says which ask or answer a body is; 0 if it has fewer bytes.
fn number_in(body: &[u8]) -> u8
    ensures { result ≡ reading.number_in body.now }
{
    match body.get(4) {
        Some(number) => *number,
        None => 0,
    }
}

#[tactic(auto, unfolding(crate::specs::Decoder::ask_numbered))]
fn decode_ask(alloc: Global, header: Header, body: &[u8]) -> Result<ThirdMessage, CodecRefusal>
    ensures { (result ≡ reading.told (38 + length body.now) (reading.whole (reading.ask_numbered (reading.number_in body.now) header body.now))) ⊎ (result ≡ Err CodecRefusal.Memory) }
{
    match number_in(body) {
        6 => decode_plain(alloc, Kind::Patch, header, body),
        7 => whole(38 + body.len(), read_leave(header, body)),
        _ => decode_plain(alloc, Kind::App, header, body),
    }
}

#[tactic(auto, unfolding(crate::specs::Decoder::answer_numbered))]
fn decode_answer(alloc: Global, header: Header, body: &[u8]) -> Result<ThirdMessage, CodecRefusal>
    ensures { (result ≡ reading.told (38 + length body.now) (reading.whole (reading.answer_numbered (reading.number_in body.now) header body.now))) ⊎ (result ≡ Err CodecRefusal.Memory) }
{
    match number_in(body) {
        7 => whole(38 + body.len(), read_left(header, body)),
        27 => whole(38 + body.len(), read_unsynced(header, body)),
        _ => decode_plain(alloc, Kind::AppDone, header, body),
    }
}

/// Returns the message whose front was read and that has this body, or the first fault.
#[tactic(auto, unfolding(crate::specs::Decoder::body_at))]
fn decode_body(
    alloc: Global,
    kind: Kind,
    header: Header,
    body: &[u8],
) -> Result<ThirdMessage, CodecRefusal>
    ensures { (result ≡ reading.told (38 + length body.now) (reading.whole (reading.body_at kind header body.now))) ⊎ (result ≡ Err CodecRefusal.Memory) }
{
    let len = 38 + body.len();
    match kind {
        Kind::Reassert => whole(len, read_reassert(alloc, header, body)),
        Kind::Extents => whole(len, read_extents_body(alloc, header, body)),
        Kind::App => decode_ask(alloc, header, body),
        Kind::AppDone => decode_answer(alloc, header, body),
        _ => decode_plain(alloc, kind, header, body),
    }
}

/// Returns the message of version 3 that the bytes spell (`docs/PROTOCOL.md`, "Messages of version
/// 3"), or the first fault from the left; every other version is `CodecRefusal::Version`.
#[tactic(auto, unfolding(crate::specs::Decoder::decoded, crate::specs::Decoder::message_at))]
pub fn decode(alloc: Global, bytes: &[u8]) -> Result<ThirdMessage, CodecRefusal>
    // What is decoded is spelled so, each byte of it, and fits.
    ensures found { IfOk result (λ m. third.Spells bytes.now m) }
    // What spells a message gives this message, unless memory runs out.
    ensures only { (m : ThirdMessage) → third.Spells bytes.now m → (result ≡ Ok m) ⊎ (result ≡ Err CodecRefusal.Memory) }
    // Which fault it is.
    ensures exact { (result ≡ reading.decoded bytes.now) ⊎ (result ≡ Err CodecRefusal.Memory) }
{
    match read_front(bytes) {
        Ok(((kind, header), body)) => decode_body(alloc, kind, header, body),
        Err(ReadError::Memory) => Err(CodecRefusal::Memory),
        Err(ReadError::Fault(fault)) => Err(refusal_of(bytes.len(), fault)),
    }
}
