ghost use Rattle.std.specs.Prelude.{IsOk};
ghost use Rattle.st_base.specs.Config.{check};
ghost use Rattle.st_extents.specs.Layout.{IsWithinLimits};

use st_base::{Config, ServerId, Stamp};
use st_kept_opening::{Identity, KeptFault, Opening, open_server};
use st_new_file::{Header, KeepFault, MADE_PLACE, Stable, new_file};
use std::alloc::{AllocError, Global};
use std::test::Fail;

pub(crate) fn identity() -> Identity
    ensures limits { IsWithinLimits result.server.0 result.servers result.disks result.blocks }
    ensures checked { IsOk (check result.settings) }
{
    Identity {
        server: ServerId(1),
        servers: 2,
        disks: 4,
        blocks: 64,
        settings: Config {
            lease: 100,
            renew: 40,
            quiesce: 60,
            flush: 80,
            demand: 20,
            retry: 10,
            num: 1,
            den: 1,
            grain: 0,
        },
    }
}

/// What is written at the beginning of a file whose areas have this many bytes each, for a server
/// with this stable part.
fn front(alloc: Global, area: u32, stable: &Stable) -> Result<Vec<u8>, KeepFault> {
    let header = Header {
        area,
        identity: identity(),
    };
    new_file(alloc, &header, 0, stable)
}

/// What is written at the beginning of such a file, for a server that never began an epoch.
fn fresh_front(alloc: Global, area: u32) -> Result<Vec<u8>, KeepFault> {
    match Stable::fresh(alloc, ServerId(1), 2, 4, 64) {
        Ok(stable) => front(alloc, area, &stable),
        Err(_) => Err(KeepFault::Memory),
    }
}

/// A file that begins with these bytes, and has this mark.
fn marked(alloc: Global, front: &[u8], mark: u8) -> Result<Vec<u8>, AllocError> {
    let mut file = Vec::new(alloc);
    file.extend_from_slice(front)?;
    file.resize(6112, 0)?;
    if let Some(made) = file.get_mut(MADE_PLACE as usize) {
        *made = mark;
    }
    Ok(file)
}

/// The file of a server that never began an epoch. Its areas have 3,000 bytes each, and it has this
/// mark.
pub(crate) fn file(alloc: Global, mark: u8) -> Result<Vec<u8>, AllocError> {
    match fresh_front(alloc, 3000) {
        Ok(front) => marked(alloc, front.as_slice(), mark),
        Err(_) => Err(AllocError),
    }
}

fn opened(alloc: Global, file: &[u8]) -> Result<Opening, KeptFault> {
    open_server(alloc, file, &identity(), Stamp(5))
}

/// The epoch of a server that runs, and tells its change.
fn epoch_of(opening: &Opening) -> Option<u64> {
    let node = opening.server.node();
    if node.running() && opening.server.changed().is_some() {
        Some(node.stable().epoch.0)
    } else {
        None
    }
}

#[test]
fn a_new_file_is_opened_in_the_first_epoch(rt: HostRuntime) -> Result<(), Fail> {
    let alloc = rt.alloc();
    let made = file(alloc, 255)?;
    let Ok(opening) = opened(alloc, made.as_slice()) else {
        assert!(rt; false);
        return Ok(());
    };
    assert_eq!(rt; epoch_of(&opening), Some(1));
    assert_eq!(rt; opening.journal.waiting(), 0);
    Ok(())
}

#[test]
fn a_file_with_a_closed_mark_was_not_made(rt: HostRuntime) -> Result<(), Fail> {
    let alloc = rt.alloc();
    let blank = file(alloc, 0)?;
    assert!(rt; matches!(opened(alloc, blank.as_slice()), Err(KeptFault::Unmade)));
    Ok(())
}

#[test]
fn a_short_area_is_told(rt: HostRuntime) -> Result<(), Fail> {
    assert!(rt; matches!(fresh_front(rt.alloc(), 100), Err(KeepFault::Full)));
    Ok(())
}
