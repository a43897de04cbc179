// Frames in a stream of bytes: which one comes first, and what is left after it.
ghost use Rattle.std.specs.Prelude.{◌≡◌, ◌≤◌, ◌+◌, ℕ, true, IfOk, IfSome, OnOk, OnErr, None, length};
ghost use Rattle.st_messages.specs.Ranges as fits;
ghost use Rattle.st_codec.specs.Frames as frames;

use crate::decoder::decode;
use crate::refusal::CodecRefusal;
use st_messages::Message;
use std::alloc::{AllocError, Global};
use std::marker::Model;

/// What a stream of frames begins with.
#[derive(Clone, Copy, Debug, PartialEq, Eq)]
pub enum Front {
    /// Less than a whole frame.
    Partial,
    /// A length above 65,536.
    TooLong(u32),
    /// A frame with this number of bytes after its length.
    Whole(usize),
}

/// Returns what the bytes begin with: less than a whole frame, a length above 65,536, or a whole
/// frame. Only the length is read.
#[tactic(auto, unfolding(crate::specs::Frames::front))]
pub fn front_of(rest: &[u8]) -> Front
    ensures front { result ≡ frames.front rest.now }
    ensures whole { (n : ℕ) → result ≡ Front.Whole n → 4 + n ≤ length rest.now }
{
    if rest.len() < 4 {
        return Front::Partial;
    }
    let (head, body) = rest.split_at(4);
    let number = u32::from_be_bytes([head[0], head[1], head[2], head[3]]);
    if 65_536 < number {
        return Front::TooLong(number);
    }
    if body.len() < number as usize {
        return Front::Partial;
    }
    Front::Whole(number as usize)
}

/// Reads messages from a stream of frames that arrives in pieces of any size. Contracts see it as
/// the offset of the next frame, the bytes that are held, and the refusal, once one was returned.
/// `docs/PROTOCOL.md`, "Wire", describes frames.
#[derive(Drop)]
pub struct FrameReader {
    alloc: Global,
    bytes: Vec<u8>,
    start: usize,
    offset: u64,
    refusal: Option<CodecRefusal>,
}

impl Model for FrameReader {
    ghost use Rattle.std.specs.Prelude.{◌≤◌, length, drop};
    ghost use Rattle.st_codec.specs.Frames.{Frames};

    ghost Value = { Frames };

    ghost view = { λ r. record { offset = r.offset; rest = drop r.start r.bytes.items; refusal = r.refusal } };

    ghost invariant = { λ r. r.start ≤ length r.bytes.items };
}

impl FrameReader {
    pub fn new(alloc: Global) -> FrameReader
        ensures { result ≡ frames.fresh }
    {
        FrameReader {
            alloc,
            bytes: Vec::new(alloc),
            start: 0,
            offset: 0,
            refusal: None,
        }
    }

    /// Returns the offset in the stream of the frame that is next or was refused.
    pub fn offset(&self) -> u64
        ensures { result ≡ self.now.offset }
    {
        self.offset
    }

    /// Returns the number of bytes of the stream that are held from that offset.
    pub fn held(&self) -> usize
        ensures { result ≡ length self.now.rest }
    {
        self.bytes.len() - self.start
    }

    fn rest(&self) -> &[u8]
        ensures { result.now ≡ self.now.rest }
    {
        let (_, rest) = self.bytes.split_at(self.start);
        rest
    }

    /// Drops the bytes that were read once they are at least half of all bytes, so that each byte
    /// is moved only a few times.
    fn compact(&mut self) -> Result<(), AllocError>
        ensures { self.new ≡ self.old }
    {
        if self.start < self.bytes.len() - self.start || self.start == 0 {
            return Ok(());
        }
        self.bytes = Vec::from_slice(self.alloc, self.rest())?;
        self.start = 0;
        Ok(())
    }

    /// Takes the next piece of the stream. If it runs out of memory, nothing changes.
    pub fn feed(&mut self, piece: &[u8]) -> Result<(), AllocError>
        ensures fed { OnOk result (self.new ≡ frames.fed self.old piece.now) }
        ensures memory { OnErr result (self.new ≡ self.old) }
    {
        self.compact()?;
        self.bytes.extend_from_slice(piece)?;
        Ok(())
    }

    #[tactic(auto, unfolding(crate::specs::Frames::next_whole))]
    fn next_whole(
        &mut self,
        len: usize,
    ) -> Result<Option<Result<Message, CodecRefusal>>, AllocError>
        requires whole { 4 + len ≤ length self.old.rest }
        requires open { self.old.refusal ≡ None }
        ensures answer { IfOk result (λ answer. (self.new, answer) ≡ frames.next_whole self.old len) }
        ensures fits { IfOk result (λ answer. IfSome answer (λ read. IfOk read (λ m. fits.fits m ≡ true))) }
        ensures memory { OnErr result (self.new ≡ self.old) }
    {
        let (_, body) = self.rest().split_at(4);
        let (message, _) = body.split_at(len);
        match decode(self.alloc, message) {
            Ok(message) => {
                self.start += 4 + len;
                self.offset = self.offset.saturating_add(4 + len as u64);
                Ok(Some(Ok(message)))
            }
            Err(CodecRefusal::Memory) => Err(AllocError),
            Err(refusal) => {
                self.refusal = Some(refusal);
                Ok(Some(Err(refusal)))
            }
        }
    }

    /// Returns the next message, which fits; or the refusal of its frame, which it returns from
    /// then on; or none if less than a whole frame is held. If it runs out of memory, nothing
    /// changes.
    #[tactic(auto, unfolding(crate::specs::Frames::next))]
    pub fn next(&mut self) -> Result<Option<Result<Message, CodecRefusal>>, AllocError>
        ensures answer { IfOk result (λ answer. (self.new, answer) ≡ frames.next self.old) }
        ensures fits { IfOk result (λ answer. IfSome answer (λ read. IfOk read (λ m. fits.fits m ≡ true))) }
        ensures memory { OnErr result (self.new ≡ self.old) }
    {
        if let Some(refusal) = self.refusal {
            return Ok(Some(Err(refusal)));
        }
        match front_of(self.rest()) {
            Front::Partial => Ok(None),
            Front::TooLong(length) => {
                let refusal = CodecRefusal::FrameTooLong(length);
                self.refusal = Some(refusal);
                Ok(Some(Err(refusal)))
            }
            Front::Whole(len) => self.next_whole(len),
        }
    }
}
