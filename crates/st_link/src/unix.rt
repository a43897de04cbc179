// The link over one stream of a Unix socket.
ghost use Rattle.std.specs.Prelude.{◌≡◌, ◌≤◌, ◌<◌, false, None, IsTrue, IfOk, OnOk, OnErr, length};
ghost use Rattle.std.specs.Io.{ReadsAtMost, WritesAtMost};
ghost use Rattle.std.specs.Io.KnownBytes.{ReadConsumes, WriteAppends};
ghost use Rattle.st_link.specs.Causes.{HasCause};
ghost use Rattle.st_link.specs.InMemory.{raised};
ghost use Rattle.st_link.specs.Names.{Attaches, MayAttach};
ghost use Rattle.st_link.specs.UnixLink as shown;

use crate::link::{Failed, Link, Sink, Source};
use std::fs::Files;
use std::io::{Read, Write};
use std::marker::Model;
use std::net::Net;
use std::os::unix::net::{UnixListener, UnixStream};

/// A link over one stream, which is accepted once at a path. It knows no bytes and no names: what a
/// socket gives and takes is not proved. A call without a stream fails, and each error of the
/// system is a failure; each failure is counted. Contracts see whether it has a stream, and the
/// count.
#[derive(Drop)]
pub struct UnixLink<R: Files + Net + Drop> {
    runtime: R,
    stream: Option<UnixStream>,
    faults: u64,
}

impl<R: Files + Net + Drop> Model for UnixLink<R> {
    ghost use Rattle.std.specs.Prelude.{is_some};
    ghost use Rattle.st_link.specs.UnixLink as shown;

    ghost Value = { shown.UnixLink };

    ghost view = { λ l. record { has_stream = is_some l.stream; faults = l.faults } };
}

impl<R: Files + Net + Drop> UnixLink<R> {
    /// Makes a link that has no stream yet.
    pub fn new(runtime: R) -> UnixLink<R>
        ensures { result ≡ record { has_stream = false; faults = 0 } }
    {
        UnixLink {
            runtime,
            stream: None,
            faults: 0,
        }
    }

    // Counts a fault.
    fn fail(&mut self) -> Failed
        ensures counted { self.new ≡ record self.old { faults = raised self.old.faults } }
        ensures later { self.old.faults ≤ self.new.faults }
    {
        self.faults = self.faults.saturating_add(1);
        Failed
    }

    /// Accepts one stream of the listener: the link reads and writes it from now on. If it
    /// fails, the link keeps the stream that it had.
    pub fn adopt(&mut self, listener: UnixListener) -> Result<(), Failed>
        ensures cause { HasCause self.old.faults self.new.faults result }
        ensures adopted { OnOk result (IsTrue self.new.has_stream) }
        ensures err { OnErr result (self.new ≡ record self.old { faults = raised self.old.faults }) }
    {
        match listener.accept() {
            Ok((stream, _)) => {
                self.stream = Some(stream);
                Ok(())
            }
            Err(_) => Err(self.fail()),
        }
    }
}

impl<R: Files + Net + Drop> Source for UnixLink<R> {
    ghost left = { λ _. None };

    ghost faults = { λ l. l.faults };

    /// Reads once. Without a stream it fails.
    fn take(&mut self, room: &mut [u8]) -> Result<usize, Failed>
        ensures bound { ReadsAtMost result room.new }
        ensures bytes { ReadConsumes None None result room.new }
        ensures cause { HasCause self.old.faults self.new.faults result }
        ensures stream { OnOk result (IsTrue self.old.has_stream) }
        ensures ok { OnOk result (self.new ≡ self.old) }
        ensures err { OnErr result (self.new ≡ record self.old { faults = raised self.old.faults }) }
    {
        match &mut self.stream {
            Some(stream) => match stream.read(room) {
                Ok(n) => Ok(n),
                Err(_) => Err(self.fail()),
            },
            None => Err(self.fail()),
        }
    }
}

impl<R: Files + Net + Drop> Sink for UnixLink<R> {
    ghost written = { λ _. None };

    ghost faults = { λ l. l.faults };

    /// Writes once. Without a stream it fails.
    fn put(&mut self, piece: &[u8]) -> Result<usize, Failed>
        ensures bound { WritesAtMost result piece.now }
        ensures some { IfOk result (λ n. 0 < length piece.now → 0 < n) }
        ensures bytes { WriteAppends None None result piece.now }
        ensures cause { HasCause self.old.faults self.new.faults result }
        ensures stream { OnOk result (IsTrue self.old.has_stream) }
        ensures ok { OnOk result (self.new ≡ self.old) }
        ensures err { OnErr result (self.new ≡ record self.old { faults = raised self.old.faults }) }
    {
        match &mut self.stream {
            Some(stream) => match stream.write(piece) {
                Ok(n) if n > 0 || piece.is_empty() => Ok(n),
                _ => Err(self.fail()),
            },
            None => Err(self.fail()),
        }
    }
}

impl<R: Files + Net + Drop> Link for UnixLink<R> {
    ghost use Rattle.std.specs.Prelude.{refl};

    ghost attached = { λ _. None };

    ghost one_count = { λ x. refl };

    /// Binds a listener at this path, and adopts the first stream that comes. If it fails, the
    /// link keeps the stream that it had.
    fn attach(&mut self, name: &str) -> Result<(), Failed>
        ensures called { OnOk result (Attaches None None name.now) }
        ensures told { OnErr result (MayAttach None None name.now) }
        ensures cause { HasCause self.old.faults self.new.faults result }
        ensures adopted { OnOk result (IsTrue self.new.has_stream) }
        ensures err { OnErr result (self.new ≡ record self.old { faults = raised self.old.faults }) }
    {
        match UnixListener::bind(&self.runtime, name) {
            Ok(listener) => self.adopt(listener),
            Err(_) => Err(self.fail()),
        }
    }

    /// Reads once. Without a stream it fails.
    fn receive(&mut self, room: &mut [u8]) -> Result<usize, Failed>
        ensures bound { ReadsAtMost result room.new }
        ensures bytes { ReadConsumes None None result room.new }
        ensures cause { HasCause self.old.faults self.new.faults result }
        ensures stream { OnOk result (IsTrue self.old.has_stream) }
        ensures ok { OnOk result (self.new ≡ self.old) }
        ensures err { OnErr result (self.new ≡ record self.old { faults = raised self.old.faults }) }
    {
        self.take(room)
    }

    /// Writes once. Without a stream it fails.
    fn send(&mut self, piece: &[u8]) -> Result<usize, Failed>
        ensures bound { WritesAtMost result piece.now }
        ensures some { IfOk result (λ n. 0 < length piece.now → 0 < n) }
        ensures bytes { WriteAppends None None result piece.now }
        ensures cause { HasCause self.old.faults self.new.faults result }
        ensures stream { OnOk result (IsTrue self.old.has_stream) }
        ensures ok { OnOk result (self.new ≡ self.old) }
        ensures err { OnErr result (self.new ≡ record self.old { faults = raised self.old.faults }) }
    {
        self.put(piece)
    }
}
