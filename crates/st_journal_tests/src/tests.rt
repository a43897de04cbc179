ghost use Rattle.std.specs.Prelude.{◌≡◌, ◌≤◌, ◌<◌, IfOk, OnOk, length};
ghost use Rattle.st_store.specs.InMemory.{held};
ghost use Rattle.st_journal_tests.specs.States.{HasState};

use st_base::{Epoch, ServerId};
use st_journal::{Change, Journal, JournalFault, MemoryStore, Stable, Store};
use std::alloc::{AllocError, Global};
use std::test::Fail;

/// Opens the journal of a server with one disk.
fn open(alloc: Global, store: MemoryStore) -> Result<(Journal<MemoryStore>, Stable), AllocError>
    requires some { 1 ≤ length (held store.contents).seen }
    requires small { length (held store.contents).seen < 4294967296 }
    ensures { IfOk result (λ x. HasState (held x.0.store.contents).seen) }
{
    match Journal::open(alloc, store, ServerId(1), 1, 1, 64) {
        Ok(opened) => Ok(opened),
        Err(_) => Err(AllocError),
    }
}

/// Appends a new epoch.
fn append_epoch(journal: &mut Journal<MemoryStore>) -> Result<(), JournalFault>
    requires { HasState (held journal.old.store.contents).seen }
{
    journal.append(&Change::Epoch)
}

#[test]
fn an_appended_change_is_read_again(rt: HostRuntime) -> Result<(), Fail> {
    let alloc = rt.alloc();
    let store = MemoryStore::new(alloc, 64, Vec::new(alloc))?;
    assert_eq!(rt; store.size(), 64);
    let (mut journal, stable) = open(alloc, store)?;
    assert_eq!(rt; journal.changes(), 0);
    assert_eq!(rt; stable.epoch, Epoch(0));
    assert!(rt; append_epoch(&mut journal).is_ok());
    assert_eq!(rt; journal.changes(), 1);
    let store = journal.into_store();
    assert_eq!(rt; store.size(), 64);
    let (journal, stable) = open(alloc, store)?;
    assert_eq!(rt; journal.changes(), 1);
    assert_eq!(rt; stable.epoch, Epoch(1));
    Ok(())
}
