// The calls that write a whole text, and read one.
ghost use Rattle.std.specs.Prelude.{◌≡◌, ◌<◌, ◌≤◌, OnOk, OnErr, IfOk, length};
ghost use Rattle.std.specs.Io.KnownBytes.{Consumes, Appends, IsAtEnd};
ghost use Rattle.st_link.specs.Causes.{HasCause, Rose};
ghost use Rattle.st_link.specs.Prefixes.{AppendsPrefix, LosesFront, LosesSome};
ghost use Rattle.st_link.specs.declared.whole_texts.ReadFault.TheVariants.{Memory, Fault};

use crate::link::{Failed, Link, Sink, Source};
use std::alloc::{AllocError, Global};
use thiserror::Error;

/// Why `read_up_to` failed.
#[derive(Clone, Copy, Debug, PartialEq, Eq, Error)]
pub enum ReadFault {
    /// The source failed.
    #[error("the stream failed")]
    Fault,
    /// There was no memory for the bytes that the source gave.
    #[error("no memory is left")]
    Memory,
}

impl From<AllocError> for ReadFault {
    ghost from_gives = { λ _ e. e ≡ Memory };

    fn from(_: AllocError) -> ReadFault {
        ReadFault::Memory
    }
}

impl From<Failed> for ReadFault {
    ghost from_gives = { λ _ e. e ≡ Fault };

    fn from(_: Failed) -> ReadFault {
        ReadFault::Fault
    }
}

/// Writes all of the bytes. If the sink fails, it returns `Failed`, and some of the first bytes
/// were written, maybe none.
pub fn put_all<S: Sink>(sink: &mut S, bytes: &[u8]) -> Result<(), Failed>
    ensures ok { OnOk result (Appends (S.written sink.old) (S.written sink.new) bytes.now) }
    ensures failed { OnErr result (AppendsPrefix (S.written sink.old) (S.written sink.new) bytes.now) }
    ensures cause { HasCause (S.faults sink.old) (S.faults sink.new) result }
{
    let mut done = 0;
    while done < bytes.len() {
        let n = sink.put(&bytes[done..])?;
        done += n;
    }
    Ok(())
}

/// Writes all of the bytes to a link. If the link fails, it returns `Failed`, and some of the first
/// bytes were written, maybe none.
pub fn send_all<L: Link>(link: &mut L, bytes: &[u8]) -> Result<(), Failed>
    ensures ok { OnOk result (Appends (L.written link.old) (L.written link.new) bytes.now) }
    ensures failed { OnErr result (AppendsPrefix (L.written link.old) (L.written link.new) bytes.now) }
    ensures left { L.left link.new ≡ L.left link.old }
    ensures names { L.attached link.new ≡ L.attached link.old }
    ensures cause { HasCause (L.Source.faults link.old) (L.Source.faults link.new) result }
{
    let mut done = 0;
    while done < bytes.len() {
        let n = link.send(&bytes[done..])?;
        done += n;
    }
    Ok(())
}

/// Reads to the end of the source, or until it has read `limit` bytes. It returns `Fault` if a read
/// failed, and `Memory` if it ran out of memory for bytes that it had read. After an error the
/// bytes that were read are lost.
pub fn read_up_to<S: Source>(
    alloc: Global,
    source: &mut S,
    limit: usize,
) -> Result<Vec<u8>, ReadFault>
    ensures ok { IfOk result (λ b. Consumes (S.left source.old) (S.left source.new) b.items) }
    ensures most { IfOk result (λ b. length b.items ≤ limit) }
    ensures end { IfOk result (λ b. length b.items < limit → IsAtEnd (S.left source.new)) }
    ensures lost { OnErr result (LosesFront (S.left source.old) (S.left source.new)) }
    ensures later { S.faults source.old ≤ S.faults source.new }
    ensures still { OnOk result (S.faults source.new ≡ S.faults source.old) }
    ensures cause { result ≡ Err Fault → Rose (S.faults source.old) (S.faults source.new) }
    ensures memory { result ≡ Err Memory → LosesSome (S.left source.old) (S.left source.new) }
{
    let mut bytes = Vec::new(alloc);
    let mut room = [0u8; 4096];
    'reads: while bytes.len() < limit {
        let want = room.len().min(limit - bytes.len());
        let piece = &mut room[..want];
        let n = source.take(piece)?;
        if n == 0 {
            return Ok(bytes);
        }
        bytes.extend_from_slice(&piece[..n])?;
    }
    Ok(bytes)
}
