// The adapters over std's readers and writers.
ghost use Rattle.std.specs.Prelude.{◌≡◌, ◌<◌, IfOk, OnErr, length};
ghost use Rattle.std.specs.Io.{ReadsAtMost, WritesAtMost};
ghost use Rattle.std.specs.Io.KnownBytes.{ReadConsumes, WriteAppends};
ghost use Rattle.st_link.specs.Causes.{HasCause};

use crate::calls::{ReadCall, WriteCall};
use crate::link::{Failed, Sink, Source};
use std::marker::Model;

/// A source over a reader. Each error of the reader is a failure, and is counted; nothing else is a
/// failure. It knows the bytes that the reader knows: a standard stream, a file and a socket know
/// none. Contracts see the reader and the count.
#[derive(Drop)]
pub struct ReaderSource<R: ReadCall + Drop> {
    reader: R,
    faults: u64,
}

impl<R: ReadCall + Drop> Model for ReaderSource<R> {
    ghost use Rattle.st_link.specs.Adapters.{Adapted};

    ghost Value = { Adapted R };

    ghost view = { λ s. record { stream = s.reader; faults = s.faults } };
}

/// A sink over a writer. Each error of the writer is a failure, and so is a write that takes no
/// byte of a piece that has some; both are counted, and nothing else is a failure. It knows the
/// bytes that the writer knows. It never flushes, so the writer should have no buffer of its own.
/// Contracts see the writer and the count.
#[derive(Drop)]
pub struct WriterSink<W: WriteCall + Drop> {
    writer: W,
    faults: u64,
}

impl<W: WriteCall + Drop> Model for WriterSink<W> {
    ghost use Rattle.st_link.specs.Adapters.{Adapted};

    ghost Value = { Adapted W };

    ghost view = { λ s. record { stream = s.writer; faults = s.faults } };
}

impl<R: ReadCall + Drop> ReaderSource<R> {
    /// Makes a source over this reader, with a count of 0.
    pub fn new(reader: R) -> ReaderSource<R>
        ensures { result ≡ record { stream = reader; faults = 0 } }
    {
        ReaderSource { reader, faults: 0 }
    }
}

impl<R: ReadCall + Drop> Source for ReaderSource<R> {
    ghost left = { λ s. R.left s.stream };

    ghost faults = { λ s. s.faults };

    /// Calls the reader once. It fails only if that call returned an error.
    fn take(&mut self, room: &mut [u8]) -> Result<usize, Failed>
        ensures bound { ReadsAtMost result room.new }
        ensures bytes { ReadConsumes (R.left self.old.stream) (R.left self.new.stream) result room.new }
        ensures cause { HasCause self.old.faults self.new.faults result }
        ensures failed { OnErr result (R.failed self.old.stream self.new.stream) }
    {
        match self.reader.call(room) {
            Ok(n) => Ok(n),
            Err(_) => {
                self.faults = self.faults.saturating_add(1);
                Err(Failed)
            }
        }
    }
}

impl<W: WriteCall + Drop> WriterSink<W> {
    /// Makes a sink over this writer, with a count of 0.
    pub fn new(writer: W) -> WriterSink<W>
        ensures { result ≡ record { stream = writer; faults = 0 } }
    {
        WriterSink { writer, faults: 0 }
    }
}

impl<W: WriteCall + Drop> Sink for WriterSink<W> {
    ghost written = { λ s. W.written s.stream };

    ghost faults = { λ s. s.faults };

    /// Calls the writer once. It fails only if that call returned an error, or took no byte of a
    /// piece that has some.
    fn put(&mut self, piece: &[u8]) -> Result<usize, Failed>
        ensures bound { WritesAtMost result piece.now }
        ensures some { IfOk result (λ n. 0 < length piece.now → 0 < n) }
        ensures bytes { WriteAppends (W.written self.old.stream) (W.written self.new.stream) result piece.now }
        ensures cause { HasCause self.old.faults self.new.faults result }
        ensures failed { OnErr result (W.failed self.old.stream self.new.stream) }
    {
        match self.writer.call(piece) {
            Ok(n) if n > 0 || piece.is_empty() => Ok(n),
            _ => {
                self.faults = self.faults.saturating_add(1);
                Err(Failed)
            }
        }
    }
}
