// A message from its bytes, field by field from the left, with the first fault that is met.
ghost use Rattle.std.specs.Prelude.{◌≡◌, ◌⊎◌, IfOk};
ghost use Rattle.st_codec.specs.Grammar.{Spells};
ghost use Rattle.st_codec.specs.Decoder as reading;
ghost use Rattle.st_codec_fields.specs.Decoder as fields;

use crate::kind_bytes::kind_of;
use crate::local_decoder::{read_answer, read_ask, read_command, read_disk_result, read_patch};
use crate::refusal::{CodecRefusal, refusal_of};
use st_codec_fields::{
    Fault, ReadError, out_of_range, read_any_block, read_byte, read_extents, read_grant, read_ino,
    read_locks, read_mode, read_name_op, read_name_reply, read_page, read_word16, read_word32,
    read_word64,
};
use st_messages::range::is_count;
use st_messages::{Body, Header, Kind, Message, Need, Party, Why};
use std::alloc::Global;

/// A reason, by its number.
#[tactic(auto, unfolding(crate::specs::Decoder::why_at))]
fn read_why(bytes: &[u8]) -> Result<(Why, &[u8]), ReadError>
    ensures { fields.Gives (λ x. (x.0, x.1.now)) result (reading.why_at bytes.now) }
{
    let (number, rest) = read_byte(bytes)?;
    let why = match number {
        1 => Why::Suspect,
        2 => Why::NoSession,
        3 => Why::OtherEpoch,
        4 => Why::Grace,
        5 => Why::GraceOver,
        6 => Why::Conflict,
        7 => Why::NotHolder,
        8 => Why::NoFile,
        9 => Why::NoSpace,
        10 => Why::TooManyLocks,
        _ => return Err(out_of_range(bytes)),
    };
    Ok((why, rest))
}

#[tactic(auto, unfolding(crate::specs::Decoder::released_at))]
fn read_released(bytes: &[u8]) -> Result<(Body, &[u8]), ReadError>
    ensures { fields.Gives (λ x. (x.0, x.1.now)) result (reading.released_at bytes.now) }
{
    let (ino, rest) = read_ino(bytes)?;
    let (g, rest) = read_grant(rest)?;
    let (to, rest) = read_mode(0, 1, rest)?;
    Ok((Body::Released { ino, g, to }, rest))
}

#[tactic(auto, unfolding(crate::specs::Decoder::map_at))]
fn read_map(bytes: &[u8]) -> Result<(Body, &[u8]), ReadError>
    ensures { fields.Gives (λ x. (x.0, x.1.now)) result (reading.map_at bytes.now) }
{
    let (ino, rest) = read_ino(bytes)?;
    let (g, rest) = read_grant(rest)?;
    let (page, rest) = read_page(0, rest)?;
    Ok((Body::Map { ino, g, page }, rest))
}

#[tactic(auto, unfolding(crate::specs::Decoder::allocate_at, crate::specs::Decoder::count_at))]
fn read_allocate(bytes: &[u8]) -> Result<(Body, &[u8]), ReadError>
    ensures { fields.Gives (λ x. (x.0, x.1.now)) result (reading.allocate_at bytes.now) }
{
    let (ino, rest) = read_ino(bytes)?;
    let (g, rest) = read_grant(rest)?;
    let (page, counted) = read_page(0, rest)?;
    let (count, rest) = read_word16(counted)?;
    if !is_count(page.0, count) {
        return Err(out_of_range(counted));
    }
    let body = Body::Allocate {
        ino,
        g,
        page,
        count,
    };
    Ok((body, rest))
}

#[tactic(auto, unfolding(crate::specs::Decoder::cut_at))]
fn read_cut(bytes: &[u8]) -> Result<(Body, &[u8]), ReadError>
    ensures { fields.Gives (λ x. (x.0, x.1.now)) result (reading.cut_at bytes.now) }
{
    let (ino, rest) = read_ino(bytes)?;
    let (g, rest) = read_grant(rest)?;
    let (from, rest) = read_page(0, rest)?;
    Ok((Body::Cut { ino, g, from }, rest))
}

#[tactic(auto, unfolding(crate::specs::Decoder::demand_seen_at))]
fn read_demand_seen(bytes: &[u8]) -> Result<(Body, &[u8]), ReadError>
    ensures { fields.Gives (λ x. (x.0, x.1.now)) result (reading.demand_seen_at bytes.now) }
{
    let (ino, rest) = read_ino(bytes)?;
    let (g, rest) = read_grant(rest)?;
    Ok((Body::DemandSeen { ino, g }, rest))
}

#[tactic(auto, unfolding(crate::specs::Decoder::nack_at))]
fn read_nack(bytes: &[u8]) -> Result<(Body, &[u8]), ReadError>
    ensures { fields.Gives (λ x. (x.0, x.1.now)) result (reading.nack_at bytes.now) }
{
    let (why, rest) = read_why(bytes)?;
    let (a, rest) = read_word64(rest)?;
    let (b, rest) = read_word64(rest)?;
    Ok((Body::Nack { why, a, b }, rest))
}

#[tactic(auto, unfolding(crate::specs::Decoder::granted_at))]
fn read_granted(bytes: &[u8]) -> Result<(Body, &[u8]), ReadError>
    ensures { fields.Gives (λ x. (x.0, x.1.now)) result (reading.granted_at bytes.now) }
{
    let (ino, rest) = read_ino(bytes)?;
    let (g, rest) = read_grant(rest)?;
    let (mode, rest) = read_mode(1, 2, rest)?;
    Ok((Body::Granted { ino, g, mode }, rest))
}

#[tactic(auto, unfolding(crate::specs::Decoder::demand_at))]
fn read_demand(bytes: &[u8]) -> Result<(Body, &[u8]), ReadError>
    ensures { fields.Gives (λ x. (x.0, x.1.now)) result (reading.demand_at bytes.now) }
{
    let (ino, rest) = read_ino(bytes)?;
    let (g, rest) = read_grant(rest)?;
    let (to, rest) = read_mode(0, 1, rest)?;
    Ok((Body::Demand { ino, g, to }, rest))
}

#[tactic(auto, unfolding(crate::specs::Decoder::extents_body_at))]
fn read_extents_body(alloc: Global, bytes: &[u8]) -> Result<(Body, &[u8]), ReadError>
    ensures { fields.Gives (λ x. (x.0, x.1.now)) result (reading.extents_body_at bytes.now) }
{
    let (ino, rest) = read_ino(bytes)?;
    let (rows, rest) = read_extents(alloc, rest)?;
    Ok((Body::Extents { ino, rows }, rest))
}

#[tactic(auto, unfolding(crate::specs::Decoder::app_at))]
fn read_app(alloc: Global, bytes: &[u8]) -> Result<(Body, &[u8]), ReadError>
    ensures { fields.Gives (λ x. (x.0, x.1.now)) result (reading.app_at bytes.now) }
{
    let (op, rest) = read_word32(bytes)?;
    let (ask, rest) = read_ask(alloc, rest)?;
    Ok((Body::App { op, ask }, rest))
}

#[tactic(auto, unfolding(crate::specs::Decoder::app_patch_at))]
fn read_app_patch(alloc: Global, bytes: &[u8]) -> Result<(Body, &[u8]), ReadError>
    ensures { fields.Gives (λ x. (x.0, x.1.now)) result (reading.app_patch_at bytes.now) }
{
    let (op, rest) = read_word32(bytes)?;
    let (ask, rest) = read_patch(alloc, rest)?;
    Ok((Body::App { op, ask }, rest))
}

#[tactic(auto, unfolding(crate::specs::Decoder::app_done_at))]
fn read_app_done(alloc: Global, bytes: &[u8]) -> Result<(Body, &[u8]), ReadError>
    ensures { fields.Gives (λ x. (x.0, x.1.now)) result (reading.app_done_at bytes.now) }
{
    let (op, rest) = read_word32(bytes)?;
    let (answer, rest) = read_answer(alloc, rest)?;
    Ok((Body::AppDone { op, answer }, rest))
}

#[tactic(auto, unfolding(crate::specs::Decoder::submit_at))]
fn read_submit(alloc: Global, bytes: &[u8]) -> Result<(Body, &[u8]), ReadError>
    ensures { fields.Gives (λ x. (x.0, x.1.now)) result (reading.submit_at bytes.now) }
{
    let (command, rest) = read_word64(bytes)?;
    let (at, rest) = read_any_block(rest)?;
    let (what, rest) = read_command(alloc, at, rest)?;
    Ok((Body::Submit { command, at, what }, rest))
}

#[tactic(auto, unfolding(crate::specs::Decoder::done_at))]
fn read_done(alloc: Global, bytes: &[u8]) -> Result<(Body, &[u8]), ReadError>
    ensures { fields.Gives (λ x. (x.0, x.1.now)) result (reading.done_at bytes.now) }
{
    let (command, rest) = read_word64(bytes)?;
    let (result, rest) = read_disk_result(alloc, rest)?;
    Ok((Body::Done { command, result }, rest))
}

#[tactic(auto, unfolding(crate::specs::Decoder::body_at, crate::specs::Decoder::acquire_at, crate::specs::Decoder::name_body_at, crate::specs::Decoder::reassert_at, crate::specs::Decoder::queued_at, crate::specs::Decoder::named_at))]
fn read_body(alloc: Global, kind: Kind, bytes: &[u8]) -> Result<(Body, &[u8]), ReadError>
    ensures { fields.Gives (λ x. (x.0, x.1.now)) result (reading.body_at kind bytes.now) }
{
    match kind {
        Kind::Hello => Ok((Body::Hello, bytes)),
        Kind::KeepAlive => Ok((Body::KeepAlive, bytes)),
        Kind::Acquire => {
            let (ino, rest) = read_ino(bytes)?;
            let (mode, rest) = read_mode(1, 2, rest)?;
            Ok((Body::Acquire { ino, mode }, rest))
        }
        Kind::Released => read_released(bytes),
        Kind::Map => read_map(bytes),
        Kind::Allocate => read_allocate(bytes),
        Kind::Cut => read_cut(bytes),
        Kind::Name => {
            let (op, rest) = read_name_op(alloc, bytes)?;
            Ok((Body::Name(op), rest))
        }
        Kind::Reassert => {
            let (rows, rest) = read_locks(alloc, bytes)?;
            Ok((Body::Reassert(rows), rest))
        }
        Kind::DemandSeen => read_demand_seen(bytes),
        Kind::Welcome => Ok((Body::Welcome, bytes)),
        Kind::Ack => Ok((Body::Ack, bytes)),
        Kind::Nack => read_nack(bytes),
        Kind::Granted => read_granted(bytes),
        Kind::Queued => {
            let (ino, rest) = read_ino(bytes)?;
            let (mode, rest) = read_mode(1, 2, rest)?;
            Ok((Body::Queued { ino, mode }, rest))
        }
        Kind::Demand => read_demand(bytes),
        Kind::Extents => read_extents_body(alloc, bytes),
        Kind::Named => {
            let (reply, rest) = read_name_reply(alloc, bytes)?;
            Ok((Body::Named(reply), rest))
        }
        Kind::Reasserted => Ok((Body::Reasserted, bytes)),
        Kind::Tick => Ok((Body::Tick, bytes)),
        Kind::App => read_app(alloc, bytes),
        Kind::Patch => read_app_patch(alloc, bytes),
        Kind::AppDone => read_app_done(alloc, bytes),
        Kind::Submit => read_submit(alloc, bytes),
        Kind::Done => read_done(alloc, bytes),
    }
}

/// The version and the kind of a message.
#[tactic(auto, unfolding(crate::specs::Decoder::kind_at, crate::specs::Decoder::version_at))]
fn read_kind(bytes: &[u8]) -> Result<(Kind, &[u8]), ReadError>
    ensures { fields.Gives (λ x. (x.0, x.1.now)) result (reading.kind_at bytes.now) }
{
    let (version, rest) = read_byte(bytes)?;
    if version < 1 || 2 < version {
        return Err(ReadError::Fault(Fault::Version));
    }
    let (number, rest) = read_byte(rest)?;
    match kind_of(version, number) {
        Some(kind) => Ok((kind, rest)),
        None => Err(ReadError::Fault(Fault::Kind)),
    }
}

#[tactic(auto, unfolding(crate::specs::Decoder::party_at))]
fn read_party(party: Party, bytes: &[u8]) -> Result<(u16, &[u8]), ReadError>
    ensures { fields.Gives (λ x. (x.0, x.1.now)) result (reading.party_at party bytes.now) }
{
    let (node, rest) = read_word16(bytes)?;
    if !party.includes(node) {
        return Err(out_of_range(bytes));
    }
    Ok((node, rest))
}

#[tactic(auto, unfolding(crate::specs::Decoder::needed_at))]
fn read_needed(need: Need, bytes: &[u8]) -> Result<(u64, &[u8]), ReadError>
    ensures { fields.Gives (λ x. (x.0, x.1.now)) result (reading.needed_at need bytes.now) }
{
    let (number, rest) = read_word64(bytes)?;
    if !need.allows(number) {
        return Err(out_of_range(bytes));
    }
    Ok((number, rest))
}

#[tactic(auto, unfolding(crate::specs::Decoder::header_at, crate::specs::Decoder::nodes_at, crate::specs::Decoder::ages_at, crate::specs::Decoder::marks_at))]
fn read_header(kind: Kind, bytes: &[u8]) -> Result<(Header, &[u8]), ReadError>
    ensures { fields.Gives (λ x. (x.0, x.1.now)) result (reading.header_at kind bytes.now) }
{
    let (from, rest) = read_party(kind.sender(), bytes)?;
    let (to, rest) = read_party(kind.receiver(), rest)?;
    let (life, rest) = read_needed(kind.life(), rest)?;
    let (epoch, rest) = read_needed(kind.epoch(), rest)?;
    let (number, rest) = read_needed(kind.request(), rest)?;
    let (stamp, rest) = read_needed(kind.stamp(), rest)?;
    let header = Header {
        from,
        to,
        life,
        epoch,
        number,
        stamp,
    };
    Ok((header, rest))
}

#[tactic(auto, unfolding(crate::specs::Decoder::message_at))]
pub(crate) fn read_message(alloc: Global, bytes: &[u8]) -> Result<Message, ReadError>
    ensures { fields.Gives (λ m. m) result (reading.message_at bytes.now) }
{
    let (kind, rest) = read_kind(bytes)?;
    let (header, rest) = read_header(kind, rest)?;
    let (body, rest) = read_body(alloc, kind, rest)?;
    if !rest.is_empty() {
        return Err(ReadError::Fault(Fault::Long));
    }
    Ok(Message { header, body })
}

/// Returns the message that the bytes spell (`docs/PROTOCOL.md`, "Wire"), or the first fault from
/// the left. It allocates only for the lists of the message.
#[tactic(auto, unfolding(crate::specs::Decoder::decoded))]
pub fn decode(alloc: Global, bytes: &[u8]) -> Result<Message, CodecRefusal>
    // What is decoded is spelled so, each byte of it, and fits.
    ensures found { IfOk result (λ m. Spells bytes.now m) }
    // What spells a message gives this message, unless memory runs out.
    ensures only { (m : Message) → Spells bytes.now m → (result ≡ Ok m) ⊎ (result ≡ Err CodecRefusal.Memory) }
    // Which fault it is.
    ensures exact { (result ≡ reading.decoded bytes.now) ⊎ (result ≡ Err CodecRefusal.Memory) }
{
    match read_message(alloc, bytes) {
        Ok(message) => Ok(message),
        Err(ReadError::Memory) => Err(CodecRefusal::Memory),
        Err(ReadError::Fault(fault)) => Err(refusal_of(bytes.len(), fault)),
    }
}
