// Names and extents are the same again if they are restored from their own lists.
use st_base::{FileId, PageNo, ServerId};
use st_extents::Extents;
use st_namespace::Names;
use std::test::Fail;

#[test]
fn names_are_restored(rt: HostRuntime) -> Result<(), Fail> {
    let alloc = rt.alloc();
    let names = Names::fresh(alloc)?;
    let rows = names.rows()?;
    let Ok(again) = Names::restore(alloc, rows.as_slice(), names.next_ino(), names.limit()) else {
        assert!(rt; false);
        return Ok(());
    };
    assert_eq!(rt; again.next_ino(), names.next_ino());
    assert_eq!(rt; again.rows()?.len(), rows.len());
    Ok(())
}

#[test]
fn extents_are_restored(rt: HostRuntime) -> Result<(), Fail> {
    let alloc = rt.alloc();
    let mut extents = Extents::new(alloc, ServerId(1), 1, 1, 8)?;
    let file = FileId {
        server: ServerId(1),
        ino: 2,
    };
    if extents.next_birth() > 100 || extents.allocate(file, PageNo(0), 5).is_err() {
        assert!(rt; false);
        return Ok(());
    }
    let rows = extents.rows(alloc)?;
    let Ok(again) = Extents::restore(alloc, ServerId(1), 1, 1, 8, rows.as_slice(), 5) else {
        assert!(rt; false);
        return Ok(());
    };
    assert_eq!(rt; again.next_birth(), extents.next_birth());
    assert_eq!(rt; again.rows(alloc)?.len(), 5);
    Ok(())
}
