// What the bytes of a journal stand for.
ghost use Rattle.std.specs.Prelude.{◌≡◌, ◌≤◌, ◌<◌, IfOk, IfErr, IfSome, length};
ghost use Rattle.st_extents.specs.Layout.{IsWithinLimits};
ghost use Rattle.st_embed.specs.Journals.{NotRead, Reads};
ghost use Rattle.st_journal.specs.OpenedJournal.{fresh_of};
ghost use Rattle.st_store.specs.InMemory as memory;

use st_base::ServerId;
use st_journal::{Journal, JournalFault, MemoryStore, Stable, Store};
use std::alloc::Global;

/// What was read of a journal: its stable part, where the gate after its changes is, and how many
/// changes there are.
#[derive(Drop)]
pub struct Read {
    pub(crate) stable: Stable,
    pub(crate) gate: u64,
    pub(crate) changes: u64,
}

/// Why a journal was not read.
#[derive(Clone, Copy)]
pub enum ReadFault {
    /// The open gate at this place has no change after it that applies.
    Damaged(u64),
    Memory,
}

/// A store with these bytes.
fn store_of(alloc: Global, bytes: &[u8]) -> Option<MemoryStore>
    ensures { IfSome result (λ s. (memory.held s.contents).seen ≡ bytes.now) }
{
    let Ok(mut store) = MemoryStore::new(alloc, bytes.len() as u64, Vec::new(alloc)) else {
        return None;
    };
    match store.write(0, bytes) {
        Ok(()) => Some(store),
        Err(_) => None,
    }
}

/// Reads the changes of a journal.
pub(crate) fn read_journal(
    alloc: Global,
    bytes: &[u8],
    server: ServerId,
    servers: u16,
    disks: u16,
    blocks: u32,
) -> Result<Read, ReadFault>
    requires limits { IsWithinLimits server.0 servers disks blocks }
    requires some { 1 ≤ length bytes.now }
    requires small { length bytes.now < 4294967296 }
    ensures ok { IfOk result (Reads (fresh_of server servers disks blocks) bytes.now) }
    ensures err { IfErr result (NotRead (fresh_of server servers disks blocks) bytes.now) }
{
    let Some(store) = store_of(alloc, bytes) else {
        return Err(ReadFault::Memory);
    };
    match Journal::open(alloc, store, server, servers, disks, blocks) {
        Ok((journal, stable)) => Ok(Read {
            stable,
            gate: journal.gate(),
            changes: journal.changes(),
        }),
        Err((_, JournalFault::Damaged { at })) => Err(ReadFault::Damaged(at)),
        Err((_, _)) => Err(ReadFault::Memory),
    }
}
