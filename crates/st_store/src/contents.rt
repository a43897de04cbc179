// The bytes of a store in memory, with the record of what was written and synced.
ghost use Rattle.std.specs.Prelude.{◌≡◌, ◌≤◌, ◌+◌, IfOk, OnOk, OnErr, length, take, drop, replicate};
ghost use Rattle.st_store.specs.InMemory as memory;
ghost use Rattle.st_store.specs.Invariants.{AreInside};
ghost use Rattle.st_store.specs.Store.{written};

use crate::history::{Piece, Span, StoreCall};
use std::alloc::{AllocError, Global};
use std::marker::Model;

/// The bytes of a store in memory. Contracts see how many they are, the recorded calls, and the
/// byte that a stop since the last of them left in the unsynced ranges.
#[derive(Drop)]
pub struct Contents {
    alloc: Global,
    bytes: Vec<u8>,
    history: Vec<StoreCall>,
    loose: Vec<Span>,
    fill: Option<u8>,
}

impl Model for Contents {
    ghost use Rattle.std.specs.Prelude.{length};
    ghost use Rattle.st_store.specs.InMemory as memory;
    ghost use Rattle.st_store.specs.Invariants.{IsKept};

    ghost Value = { memory.Contents };

    ghost view = { λ c. record { size = length c.bytes.items; history = c.history.items; fill = c.fill } };

    ghost invariant = { λ c. IsKept (record { size = length c.bytes.items; history = c.history.items; fill = c.fill }) c.bytes.items c.loose.items };
}

/// Writes bytes over those from a place on.
fn put(bytes: &mut [u8], at: usize, new: &[u8])
    requires { at + length new.now ≤ length bytes.old }
    ensures { bytes.new ≡ written bytes.old at new.now }
{
    bytes[at..at + new.len()].copy_from_slice(new);
}

/// Makes each byte of a range this one.
fn fill_span(bytes: &mut [u8], span: Span, byte: u8)
    requires { span.at + span.count ≤ length bytes.old }
    ensures { bytes.new ≡ written bytes.old span.at (replicate span.count byte) }
{
    let at = span.at as usize;
    bytes[at..at + span.count as usize].fill(byte);
}

/// Makes each byte of these ranges this one.
fn fill_spans(bytes: &mut [u8], spans: &[Span], byte: u8)
    requires { AreInside (length bytes.old) spans.now }
    ensures { bytes.new ≡ memory.filled byte spans.now bytes.old }
{
    for place in 0..spans.len() {
        fill_span(bytes, spans[place], byte);
    }
}

impl Contents {
    /// Zeros, and no recorded call.
    pub fn new(alloc: Global, size: u64) -> Result<Contents, AllocError>
        ensures { IfOk result (λ c. c ≡ memory.fresh_contents size) }
    {
        Ok(Contents {
            alloc,
            bytes: vec![in alloc; 0u8; size as usize]?,
            history: Vec::new(alloc),
            loose: Vec::new(alloc),
            fill: None,
        })
    }

    /// The bytes.
    pub fn as_slice(&self) -> &[u8]
        ensures { result.now ≡ (memory.held self.now).seen }
    {
        self.bytes.as_slice()
    }

    /// The recorded calls, the oldest first.
    pub fn history(&self) -> &[StoreCall]
        ensures { result.now ≡ self.now.history }
    {
        self.history.as_slice()
    }

    /// How many bytes there are.
    pub fn len(&self) -> u64
        ensures size { result ≡ self.now.size }
        ensures seen { result ≡ length (memory.held self.now).seen }
    {
        self.bytes.len() as u64
    }

    /// Copies the bytes from `at` on.
    pub fn read(&self, at: u64, room: &mut [u8])
        requires { at + length room.old ≤ self.now.size }
        ensures { room.new ≡ take (length room.old) (drop at (memory.held self.now).seen) }
    {
        let (_, rest) = self.bytes.as_slice().split_at(at as usize);
        let (part, _) = rest.split_at(room.len());
        room.copy_from_slice(part);
    }

    /// Writes bytes, and records it. If it runs out of memory for the record, it changes nothing.
    pub fn write(&mut self, at: u64, new: &[u8]) -> Result<(), AllocError>
        requires { at + length new.now ≤ self.old.size }
        ensures ok { OnOk result (self.new ≡ memory.with_write self.old at new.now) }
        ensures err { OnErr result (self.new ≡ self.old) }
    {
        self.history.reserve(1)?;
        self.loose.reserve(1)?;
        let piece = Piece::from_slice(self.alloc, new)?;
        let call = StoreCall::Write {
            fill: self.fill,
            at,
            piece,
        };
        self.history.push(call).unwrap();
        let span = Span {
            at,
            count: new.len() as u64,
        };
        self.loose.push(span).unwrap();
        self.fill = None;
        put(&mut self.bytes, at as usize, new);
        Ok(())
    }

    /// Records that all is synced. If it runs out of memory for the record, it changes nothing.
    pub fn sync(&mut self) -> Result<(), AllocError>
        ensures ok { OnOk result (self.new ≡ memory.with_sync self.old) }
        ensures err { OnErr result (self.new ≡ self.old) }
    {
        self.history.reserve(1)?;
        let call = StoreCall::Sync { fill: self.fill };
        self.history.push(call).unwrap();
        self.loose.clear();
        self.fill = None;
        Ok(())
    }

    /// Each byte that was written since the last sync becomes this one. It takes no memory.
    pub fn fill(&mut self, byte: u8)
        ensures { self.new ≡ memory.with_fill self.old byte }
    {
        fill_spans(&mut self.bytes, self.loose.as_slice(), byte);
        self.fill = Some(byte);
    }
}
