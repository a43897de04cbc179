use st_base::{PageBytes, PageNo, ServerId};
use st_move::Mover;
use st_shared::{ClientId, SharedAnswer, SharedFile};
use st_snap::Volume;
use std::alloc::{AllocError, Global};
use std::test::Fail;

/// The first byte of a page.
fn byte_of(page: &PageBytes) -> u8 {
    let _len = page.len();
    *page.get(0)
}

/// Whether a container takes an update.
fn is_added(alloc: Global) -> bool {
    match Mover::new(alloc, ServerId(1), 2, 1) {
        Ok(mut mover) => mover.put(1, b"a").is_ok(),
        Err(_) => false,
    }
}

#[test]
fn a_container_takes_updates(rt: HostRuntime) -> Result<(), Fail> {
    assert!(rt; is_added(rt.alloc()));
    Ok(())
}

fn is_written(volume: &mut Volume, byte: u8) -> bool {
    volume.write(2, PageNo(0), &PageBytes::filled(byte)).is_ok()
}

fn is_taken(volume: &mut Volume) -> bool {
    volume.take().is_ok()
}

/// Whether an image shows this byte, or the volume for image 0.
fn shows(volume: &Volume, image: u32, byte: u8) -> bool {
    match volume.read(image, 2, PageNo(0)) {
        Ok(Some(page)) => byte_of(page) == byte,
        Ok(None) => false,
        Err(_) => false,
    }
}

/// A volume whose page was written, shown in an image, and written again.
fn written_twice(alloc: Global) -> Result<Option<Volume>, AllocError> {
    let mut volume = Volume::new(alloc, ServerId(1), 2)?;
    let done = is_written(&mut volume, 7) && is_taken(&mut volume) && is_written(&mut volume, 8);
    if done { Ok(Some(volume)) } else { Ok(None) }
}

#[test]
fn an_image_shows_what_it_was_taken_of(rt: HostRuntime) -> Result<(), Fail> {
    let volume = written_twice(rt.alloc())?;
    assert!(rt; volume.is_some());
    if let Some(volume) = volume {
        assert!(rt; shows(&volume, 1, 7));
        assert!(rt; shows(&volume, 0, 8));
    }
    Ok(())
}

fn is_entered(file: &mut SharedFile) -> bool {
    file.enter(ClientId(1)).is_ok()
}

fn is_submitted(file: &mut SharedFile) -> bool {
    file.write(ClientId(1), PageNo(0), &PageBytes::filled(7))
        .is_ok()
}

fn is_asked(file: &mut SharedFile) -> bool {
    file.read(ClientId(1), PageNo(0)).is_ok()
}

fn is_effected(file: &mut SharedFile, n: u64) -> bool {
    file.effect(n).is_ok()
}

/// Whether the report of the command tells this byte.
fn tells(file: &mut SharedFile, n: u64, byte: u8) -> bool {
    match file.report(n, true) {
        Ok(SharedAnswer::Read(page)) => byte_of(page) == byte,
        _ => false,
    }
}

fn is_locked(alloc: Global) -> bool {
    let mut file = SharedFile::new(alloc, 4);
    file.lock(ClientId(1)).is_ok()
}

#[test]
fn a_shared_file_is_written_and_read(rt: HostRuntime) -> Result<(), Fail> {
    let mut file = SharedFile::new(rt.alloc(), 4);
    assert!(rt; is_entered(&mut file));
    assert!(rt; is_submitted(&mut file) && is_asked(&mut file));
    assert!(rt; is_effected(&mut file, 1) && is_effected(&mut file, 2));
    assert!(rt; tells(&mut file, 2, 7));
    assert!(rt; is_locked(rt.alloc()));
    Ok(())
}
