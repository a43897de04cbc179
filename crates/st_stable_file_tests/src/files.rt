ghost use Rattle.st_extents.specs.Layout.{IsWithinLimits};

use st_base::{Config, Epoch, ServerId};
use st_extents::Extents;
use st_journal_bytes::{FileFault, Header, HeaderFault, Identity, file_of};
use st_namespace::Names;
use st_stable_file::{OpenFault, open_file, snapshot_bytes};
use std::alloc::{AllocError, Global};
use std::test::Fail;

fn identity() -> Identity
    ensures { IsWithinLimits result.server.0 result.servers result.disks result.blocks }
{
    Identity {
        server: ServerId(1),
        servers: 2,
        disks: 4,
        blocks: 64,
        settings: Config {
            lease: 100,
            renew: 40,
            quiesce: 60,
            flush: 80,
            demand: 20,
            retry: 10,
            num: 1,
            den: 1,
            grain: 0,
        },
    }
}

/// A file with a snapshot of epoch 3 at moment 5, whose mark is this one.
fn file(alloc: Global, mark: u8) -> Result<Vec<u8>, AllocError> {
    let names = Names::fresh(alloc)?;
    let extents = Extents::new(alloc, ServerId(1), 2, 4, 64)?;
    let snapshot = snapshot_bytes(alloc, 5, Epoch(3), &names, &extents)?;
    if snapshot.len() > 1000 {
        return Err(AllocError);
    }
    let header = Header {
        area: 1100,
        identity: identity(),
    };
    let front = file_of(alloc, &header, snapshot.as_slice())?;
    let mut file = vec![in alloc; 0u8; 2312]?;
    let count = front.len();
    if count < 112 || count > 2312 {
        return Err(AllocError);
    }
    file[..count].copy_from_slice(front.as_slice());
    file[110] = mark;
    Ok(file)
}

#[test]
fn a_file_is_opened_as_what_it_stands_for(rt: HostRuntime) -> Result<(), Fail> {
    let alloc = rt.alloc();
    let file = file(alloc, 255)?;
    let Ok(Some(found)) = open_file(alloc, file.as_slice(), &identity(), 5) else {
        assert!(rt; false);
        return Ok(());
    };
    assert_eq!(rt; found.area.stable.epoch.0, 3);
    assert_eq!(rt; found.area.end.records, 0);
    assert!(rt; !found.current.second);
    Ok(())
}

#[test]
fn what_is_no_such_file_is_told(rt: HostRuntime) -> Result<(), Fail> {
    let alloc = rt.alloc();
    let made = file(alloc, 255)?;
    let earlier = open_file(alloc, made.as_slice(), &identity(), 4);
    assert!(rt; matches!(earlier, Err(OpenFault::Earlier { last: 5 })));
    let mut wanted = identity();
    wanted.settings.lease = 99;
    let other = open_file(alloc, made.as_slice(), &wanted, 5);
    let settings = HeaderFault::OtherSettings;
    assert!(rt;
        matches!(other, Err(OpenFault::File(FileFault::BadHeader(found))) if found == settings)
    );
    let blank = file(alloc, 0)?;
    assert!(rt; matches!(open_file(alloc, blank.as_slice(), &identity(), 5), Ok(None)));
    Ok(())
}
