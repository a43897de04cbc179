// One call of a reader or a writer of the standard library, and a ghost relation that a failed call
// gives.
ghost use Rattle.std.specs.Prelude.{ℕ, List, OnErr};
ghost use Rattle.std.specs.declared.option.Option.{Option};
ghost use Rattle.std.specs.Io.{ReadsAtMost, WritesAtMost};
ghost use Rattle.std.specs.Io.KnownBytes.{ReadConsumes, WriteAppends};
ghost use Rattle.st_link.specs.Refusals.{OnRefusal};

use std::io::{Read, Result, Write};

/// A reader of the standard library. Code that is generic over it can prove `failed` only from a
/// failed call.
pub trait ReadCall {
    /// The bytes that are still left, if the reader knows them.
    ghost left: { Self → Option (List ℕ) };

    /// A call that found the first state and left the second returned an error.
    ghost failed: { Self → Self → Type 0 };

    /// Calls the reader once.
    fn call(&mut self, room: &mut [u8]) -> Result<usize>
        ensures bound { ReadsAtMost result room.new }
        ensures bytes { ReadConsumes (left self.old) (left self.new) result room.new }
        ensures failed { OnErr result (failed self.old self.new) };
}

/// A writer of the standard library. Code that is generic over it can prove `failed` only from a
/// failed call.
pub trait WriteCall {
    /// The bytes that were written, if the writer knows them.
    ghost written: { Self → Option (List ℕ) };

    /// A call that found the first state and left the second returned an error, or wrote no byte of
    /// a piece that has some.
    ghost failed: { Self → Self → Type 0 };

    /// Calls the writer once.
    fn call(&mut self, piece: &[u8]) -> Result<usize>
        ensures bound { WritesAtMost result piece.now }
        ensures bytes { WriteAppends (written self.old) (written self.new) result piece.now }
        ensures failed { OnRefusal result piece.now (failed self.old self.new) };
}

impl<R: Read> ReadCall for R {
    ghost use Rattle.std.specs.Prelude.{⊤};

    ghost left = { λ r. R.remaining r };

    ghost failed = { λ _ _. ⊤ };

    fn call(&mut self, room: &mut [u8]) -> Result<usize> {
        self.read(room)
    }
}

impl<W: Write> WriteCall for W {
    ghost use Rattle.std.specs.Prelude.{⊤};

    ghost written = { λ w. W.contents w };

    ghost failed = { λ _ _. ⊤ };

    fn call(&mut self, piece: &[u8]) -> Result<usize> {
        self.write(piece)
    }
}
