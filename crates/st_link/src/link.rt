// The traits, and their one error.
ghost use Rattle.std.specs.Prelude.{◌≡◌, ℕ, List, ◌<◌, IfOk, OnOk, OnErr, length};
ghost use Rattle.std.specs.declared.option.Option.{Option};
ghost use Rattle.std.specs.Io.{ReadsAtMost, WritesAtMost};
ghost use Rattle.std.specs.Io.KnownBytes.{ReadConsumes, WriteAppends};
ghost use Rattle.st_link.specs.Causes.{HasCause};
ghost use Rattle.st_link.specs.Names.{Attaches, MayAttach};

use thiserror::Error;

/// A read or a write failed. It moved no byte.
#[derive(Clone, Copy, Debug, PartialEq, Eq, Error)]
#[error("the stream failed")]
pub struct Failed;

/// A source of bytes. docs/PROTOCOL.md, "Sources and sinks", has the rules.
pub trait Source {
    /// The bytes that are still left, if the source knows them.
    ghost left: { Self → Option (List ℕ) };

    /// The number of calls that failed, or 2^64 - 1 if there were more.
    ghost faults: { Self → ℕ };

    /// Moves the first bytes that are left to the front of `room`, and returns their number. If
    /// `room` is not empty, it returns 0 exactly if no byte is left. A failed call moves none. The
    /// contents of `room` after the moved bytes, and all of `room` after a failure, are
    /// unspecified.
    fn take(&mut self, room: &mut [u8]) -> Result<usize, Failed>
        ensures bound { ReadsAtMost result room.new }
        ensures bytes { ReadConsumes (left self.old) (left self.new) result room.new }
        ensures cause { HasCause (faults self.old) (faults self.new) result };
}

/// A sink of bytes. docs/PROTOCOL.md, "Sources and sinks", has the rules.
pub trait Sink {
    /// The bytes that were written, if the sink knows them.
    ghost written: { Self → Option (List ℕ) };

    /// The number of calls that failed, or 2^64 - 1 if there were more.
    ghost faults: { Self → ℕ };

    /// Writes the first bytes of `piece`, and returns their number: at least one if `piece` is not
    /// empty. A failed call writes none.
    fn put(&mut self, piece: &[u8]) -> Result<usize, Failed>
        ensures bound { WritesAtMost result piece.now }
        ensures some { IfOk result (λ n. 0 < length piece.now → 0 < n) }
        ensures bytes { WriteAppends (written self.old) (written self.new) result piece.now }
        ensures cause { HasCause (faults self.old) (faults self.new) result };
}

/// A source and a sink in one: the end of a stream that goes both ways. docs/PROTOCOL.md, "Sources
/// and sinks", has the rules.
pub trait Link: Source + Sink {
    /// The names that `attach` was called with, if the link knows them.
    ghost attached: { Self → Option (List (List ℕ)) };

    /// Attaches the link at this name. If it fails, the link may not tell the name.
    fn attach(&mut self, name: &str) -> Result<(), Failed>
        ensures called { OnOk result (Attaches (attached self.old) (attached self.new) name.now) }
        ensures told { OnErr result (MayAttach (attached self.old) (attached self.new) name.now) }
        ensures left { Self.left self.new ≡ Self.left self.old }
        ensures written { Self.written self.new ≡ Self.written self.old }
        ensures cause { HasCause (Self.Source.faults self.old) (Self.Source.faults self.new) result };

    /// Takes as `take` does, and leaves what was written and the names.
    fn receive(&mut self, room: &mut [u8]) -> Result<usize, Failed>
        ensures bound { ReadsAtMost result room.new }
        ensures bytes { ReadConsumes (Self.left self.old) (Self.left self.new) result room.new }
        ensures written { Self.written self.new ≡ Self.written self.old }
        ensures names { attached self.new ≡ attached self.old }
        ensures cause { HasCause (Self.Source.faults self.old) (Self.Source.faults self.new) result };

    /// Writes as `put` does, and leaves what is left and the names.
    fn send(&mut self, piece: &[u8]) -> Result<usize, Failed>
        ensures bound { WritesAtMost result piece.now }
        ensures some { IfOk result (λ n. 0 < length piece.now → 0 < n) }
        ensures bytes { WriteAppends (Self.written self.old) (Self.written self.new) result piece.now }
        ensures left { Self.left self.new ≡ Self.left self.old }
        ensures names { attached self.new ≡ attached self.old }
        ensures cause { HasCause (Self.Source.faults self.old) (Self.Source.faults self.new) result };

    /// The link has one count of faults.
    ghost one_count: { (x : Self) → Self.Source.faults x ≡ Self.Sink.faults x };
}
