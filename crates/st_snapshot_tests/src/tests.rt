use st_base::{Epoch, FileId, PageNo, ServerId};
use st_extents::Extents;
use st_namespace::Names;
use st_snapshot::{SnapshotFault, Stable, read_snapshot, snapshot_of};
use std::alloc::{AllocError, Global};
use std::test::Fail;

/// Names with two entries more than a fresh server's, and one fewer.
fn names(alloc: Global) -> Result<Names, AllocError> {
    let mut names = Names::fresh(alloc)?;
    if names.next_ino() > 100 || names.mkdir(1, b"made").is_err() {
        return Err(AllocError);
    }
    if names.next_ino() > 100 || names.create(10, b"a-file").is_err() {
        return Err(AllocError);
    }
    if names.remove(1, b"f3").is_err() {
        return Err(AllocError);
    }
    Ok(names)
}

/// Extents of five births, of which three pages are left.
fn extents(alloc: Global) -> Result<Extents, AllocError> {
    let mut extents = Extents::new(alloc, ServerId(1), 2, 4, 64)?;
    let file = FileId {
        server: ServerId(1),
        ino: 2,
    };
    if extents.next_birth() > 100 || extents.allocate(file, PageNo(0), 5).is_err() {
        return Err(AllocError);
    }
    extents.release_from(file, PageNo(3));
    Ok(extents)
}

/// The snapshot of these names and extents in epoch 7.
fn made(alloc: Global) -> Result<Vec<u8>, AllocError> {
    snapshot_of(alloc, Epoch(7), &names(alloc)?, &extents(alloc)?)
}

/// What is read of bytes.
fn read(alloc: Global, bytes: &[u8]) -> Result<Stable, SnapshotFault> {
    read_snapshot(alloc, bytes, ServerId(1), 2, 4, 64)
}

/// What is answered of bytes that are not read.
fn refused(alloc: Global, bytes: &[u8]) -> Option<SnapshotFault> {
    match read(alloc, bytes) {
        Ok(_) => None,
        Err(fault) => Some(fault),
    }
}

#[test]
fn a_snapshot_is_read_as_it_was_made(rt: HostRuntime) -> Result<(), Fail> {
    let alloc = rt.alloc();
    let bytes = made(alloc)?;
    let Ok(stable) = read(alloc, bytes.as_slice()) else {
        assert!(rt; false);
        return Ok(());
    };
    assert_eq!(rt; stable.epoch.0, 7);
    assert_eq!(rt; stable.names.entries(), 9);
    assert_eq!(rt; stable.names.next_ino(), 12);
    assert_eq!(rt; stable.names.lookup(10, b"a-file"), Ok(11));
    assert_eq!(rt; stable.extents.mapped(), 3);
    assert_eq!(rt; stable.extents.next_birth(), 6);
    let again = snapshot_of(alloc, stable.epoch, &stable.names, &stable.extents)?;
    assert_eq!(rt; again.as_slice(), bytes.as_slice());
    Ok(())
}

/// Whether the first bytes of a snapshot are refused, at a place that they have.
fn is_cut(alloc: Global, bytes: &[u8]) -> bool {
    match refused(alloc, bytes) {
        Some(SnapshotFault::NoCounters) => bytes.len() < 32,
        Some(SnapshotFault::NoEntry { at } | SnapshotFault::NoPage { at }) => {
            32 <= at && at <= bytes.len() as u64
        }
        _ => false,
    }
}

#[test]
fn a_snapshot_that_is_cut_is_refused(rt: HostRuntime) -> Result<(), Fail> {
    let alloc = rt.alloc();
    let bytes = made(alloc)?;
    for end in 0..bytes.len() {
        assert!(rt; is_cut(alloc, &bytes[..end]));
    }
    Ok(())
}

#[test]
fn what_is_no_snapshot_is_refused_at_its_place(rt: HostRuntime) -> Result<(), Fail> {
    let alloc = rt.alloc();
    let mut bytes = made(alloc)?;
    let end = bytes.len() as u64;
    bytes.push(0)?;
    assert_eq!(rt;
        refused(alloc, bytes.as_slice()),
        Some(SnapshotFault::Longer { at: end })
    );
    assert!(rt; bytes.len() > 48);
    if bytes.len() > 48 {
        bytes[48] = 2;
    }
    assert_eq!(rt;
        refused(alloc, bytes.as_slice()),
        Some(SnapshotFault::NoEntry { at: 32 })
    );
    Ok(())
}
