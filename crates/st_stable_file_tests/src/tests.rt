ghost use Rattle.std.specs.Prelude.{◌≡◌, true};
ghost use Rattle.st_journal.specs.Changes.{fits};

use st_base::{Epoch, PageNo, ServerId};
use st_extents::Extents;
use st_journal::Change;
use st_journal_bytes::{opened_of, put_part};
use st_namespace::Names;
use st_stable_file::{OpenedArea, StableFault, change_bytes, open_area, snapshot_bytes};
use std::alloc::{AllocError, Global};
use std::test::Fail;

/// An area with a snapshot of epoch 3 at moment 5, without its closed gate.
fn area(alloc: Global) -> Result<Vec<u8>, AllocError> {
    let names = Names::fresh(alloc)?;
    let extents = Extents::new(alloc, ServerId(1), 2, 4, 64)?;
    let snapshot = snapshot_bytes(alloc, 5, Epoch(3), &names, &extents)?;
    let mut area = Vec::new(alloc);
    if snapshot.len() > 1000 {
        return Err(AllocError);
    }
    put_part(&mut area, snapshot.as_slice())?;
    Ok(area)
}

/// Appends a change after an open gate.
fn push_change(
    alloc: Global,
    area: &mut Vec<u8>,
    moment: u64,
    change: &Change,
) -> Result<(), AllocError>
    requires { fits change.now ≡ true }
{
    let bytes = change_bytes(alloc, moment, change)?;
    if bytes.len() > 1000 {
        return Err(AllocError);
    }
    let opened = opened_of(alloc, bytes.as_slice())?;
    area.extend_from_slice(opened.as_slice())
}

#[tactic(auto, unfolding(st_journal::specs::Changes::fits))]
fn push_epoch(alloc: Global, area: &mut Vec<u8>, moment: u64) -> Result<(), AllocError> {
    push_change(alloc, area, moment, &Change::Epoch)
}

#[tactic(auto, unfolding(st_journal::specs::Changes::fits))]
fn push_pages(
    alloc: Global,
    area: &mut Vec<u8>,
    moment: u64,
    file: bool,
) -> Result<(), AllocError> {
    if file {
        let change = Change::Allocate {
            ino: 2,
            page: PageNo(0),
            count: 2,
        };
        return push_change(alloc, area, moment, &change);
    }
    let change = Change::Allocate {
        ino: 1,
        page: PageNo(0),
        count: 2,
    };
    push_change(alloc, area, moment, &change)
}

/// What is opened.
fn opened(alloc: Global, area: &[u8]) -> Result<OpenedArea, StableFault> {
    if area.len() > 4000 {
        return Err(StableFault::Memory);
    }
    open_area(alloc, area, ServerId(1), 2, 4, 64)
}

/// What is answered of an area that is not opened.
fn refused(alloc: Global, area: &[u8]) -> Option<StableFault> {
    match opened(alloc, area) {
        Ok(_) => None,
        Err(fault) => Some(fault),
    }
}

#[test]
fn an_area_is_opened_as_what_it_stands_for(rt: HostRuntime) -> Result<(), Fail> {
    let alloc = rt.alloc();
    let mut area = area(alloc)?;
    push_epoch(alloc, &mut area, 6)?;
    push_pages(alloc, &mut area, 6, true)?;
    push_epoch(alloc, &mut area, 8)?;
    let gate = area.len() as u64;
    area.push(0)?;
    let Ok(found) = opened(alloc, area.as_slice()) else {
        assert!(rt; false);
        return Ok(());
    };
    assert_eq!(rt; found.stable.epoch.0, 5);
    assert_eq!(rt; found.stable.extents.mapped(), 2);
    assert_eq!(rt; found.stable.names.entries(), 8);
    assert_eq!(rt; found.end.gate, gate);
    assert_eq!(rt; found.end.records, 3);
    assert_eq!(rt; found.end.moment, 8);
    Ok(())
}

#[test]
fn a_change_that_does_not_apply_is_damage_at_its_gate(rt: HostRuntime) -> Result<(), Fail> {
    let alloc = rt.alloc();
    let mut area = area(alloc)?;
    push_epoch(alloc, &mut area, 6)?;
    let gate = area.len() as u64;
    push_pages(alloc, &mut area, 6, false)?;
    area.push(0)?;
    assert_eq!(rt;
        refused(alloc, area.as_slice()),
        Some(StableFault::Damaged { at: gate })
    );
    Ok(())
}

#[test]
fn an_earlier_change_is_damage_at_its_gate(rt: HostRuntime) -> Result<(), Fail> {
    let alloc = rt.alloc();
    let mut area = area(alloc)?;
    push_epoch(alloc, &mut area, 7)?;
    let gate = area.len() as u64;
    push_epoch(alloc, &mut area, 6)?;
    area.push(0)?;
    assert_eq!(rt;
        refused(alloc, area.as_slice()),
        Some(StableFault::Damaged { at: gate })
    );
    Ok(())
}
