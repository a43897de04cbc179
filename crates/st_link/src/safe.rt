// A source and a sink that never fail.
ghost use Rattle.std.specs.Prelude.{◌≡◌, Some, None, Ok, min, length, take};
ghost use Rattle.std.specs.Io.{ReadsAtMost};
ghost use Rattle.std.specs.Io.KnownBytes.{ReadConsumes};
ghost use Rattle.st_link.specs.Causes.{HasCause};

use crate::link::{Failed, Sink, Source};
use std::marker::Model;

/// A source over bytes in memory that never fails: its count of faults is always 0. Contracts see
/// it as the list of the bytes that are left.
#[derive(Drop)]
pub struct SafeSource {
    bytes: Vec<u8>,
    at: usize,
}

impl Model for SafeSource {
    ghost use Rattle.std.specs.Prelude.{◌≤◌, ℕ, List, length, drop};

    ghost Value = { List ℕ };

    ghost view = { λ s. drop s.at s.bytes.items };

    ghost invariant = { λ s. s.at ≤ length s.bytes.items };
}

/// A sink that never fails, since it drops each piece. It does not know its bytes, and its count of
/// faults is always 0. A sink that keeps what is written can run out of memory, as `MemorySink`
/// can.
#[derive(Clone, Copy, Debug)]
pub struct SafeSink;

impl SafeSource {
    /// Makes a source of these bytes.
    pub fn new(bytes: Vec<u8>) -> SafeSource
        ensures { result ≡ bytes.items }
    {
        SafeSource { bytes, at: 0 }
    }
}

// Copies the first bytes to the front of `room`, as many as it can hold, and returns their number.
fn copy_front(room: &mut [u8], bytes: &[u8]) -> usize
    ensures count { result ≡ min (length bytes.now) (length room.old) }
    ensures copied { take result room.new ≡ take result bytes.now }
{
    let n = bytes.len().min(room.len());
    room[..n].copy_from_slice(&bytes[..n]);
    n
}

impl Source for SafeSource {
    ghost left = { λ s. Some s };

    ghost faults = { λ _. 0 };

    /// It takes all bytes that are left, or as many of them as `room` can hold.
    fn take(&mut self, room: &mut [u8]) -> Result<usize, Failed>
        ensures bound { ReadsAtMost result room.new }
        ensures bytes { ReadConsumes (Some self.old) (Some self.new) result room.new }
        ensures cause { HasCause 0 0 result }
        ensures count { result ≡ Ok (min (length self.old) (length room.old)) }
    {
        let n = copy_front(room, &self.bytes[self.at..]);
        self.at += n;
        Ok(n)
    }
}

impl Sink for SafeSink {
    ghost written = { λ _. None };

    ghost faults = { λ _. 0 };

    fn put(&mut self, piece: &[u8]) -> Result<usize, Failed> {
        Ok(piece.len())
    }
}
