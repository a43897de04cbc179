ghost use Rattle.std.specs.Prelude.{◌≡◌, length};

use st_base::{Config, ServerId};
use st_held_steps::HeldSteps;
use st_journal_bytes::{
    AREAS_PLACE, AreaEnd, Current, FileFault, Header, HeaderFault, Identity, MADE_PLACE,
    MomentFault, check_moment, current_area, dated_of, file_of, last_moment, read_area, read_file,
};
use st_kept_journal::{JournalKeeper, KeepFault, Task, Write};
use std::alloc::{AllocError, Global};
use std::test::Fail;

/// How many bytes an area of the file has.
const AREA: u32 = 800;

fn identity() -> Identity {
    Identity {
        server: ServerId(1),
        servers: 2,
        disks: 4,
        blocks: 64,
        settings: Config {
            lease: 100,
            renew: 40,
            quiesce: 60,
            flush: 80,
            demand: 20,
            retry: 10,
            num: 1,
            den: 1,
            grain: 0,
        },
    }
}

/// Writes bytes at a place of the file, if it has such a place.
fn put(file: &mut [u8], at: u64, bytes: &[u8]) -> bool {
    let count = bytes.len();
    let size = file.len();
    if count > size || at > (size - count) as u64 {
        return false;
    }
    let at = at as usize;
    file[at..at + count].copy_from_slice(bytes);
    true
}

/// Does a write, if there was memory for it.
fn do_write(file: &mut [u8], write: Result<Write, AllocError>) -> bool {
    match write {
        Ok(write) => put(file, write.at, write.bytes.as_slice()),
        Err(_) => false,
    }
}

/// What is opened.
fn opened(file: &[u8], wanted: &Identity) -> Option<(Current, AreaEnd)> {
    let Ok(Some(current)) = read_file(file, wanted) else {
        return None;
    };
    match read_area(current_area(file, &current)) {
        Ok(end) => Some((current, end)),
        Err(_) => None,
    }
}

/// A new file, with a snapshot of some bytes.
fn new_file(alloc: Global) -> Result<Vec<u8>, AllocError> {
    let header = Header {
        area: AREA,
        identity: identity(),
    };
    let mut file = vec![in alloc; 0u8; 112 + 2 * AREA as usize]?;
    let front = file_of(alloc, &header, b"the state at the start")?;
    if put(&mut file, 0, front.as_slice()) && put(&mut file, MADE_PLACE, &[255]) {
        Ok(file)
    } else {
        Err(AllocError)
    }
}

/// Keeps some records as a group.
fn keep_group(file: &mut [u8], keeper: &mut JournalKeeper, first: u8, count: u8) -> bool {
    for n in 0..count {
        if keeper.add(&[first, n]).is_err() {
            return false;
        }
    }
    if keeper.task() != Task::Rest || keeper.waiting() == 0 {
        return false;
    }
    let write = keeper.group();
    if !do_write(file, write) || !do_write(file, keeper.gate()) {
        return false;
    }
    keeper.group_kept();
    true
}

/// Keeps what waits by a snapshot.
fn keep_snapshot(file: &mut [u8], keeper: &mut JournalKeeper) -> bool {
    if keeper.task() != Task::Rest {
        return false;
    }
    let Ok(write) = keeper.snapshot(b"the state with its births") else {
        return false;
    };
    if !put(file, write.at, write.bytes.as_slice()) || !do_write(file, keeper.switch()) {
        return false;
    }
    keeper.switched();
    true
}

/// Whether a byte of the file is read by whoever opens it.
fn is_read(at: usize, current: Current, end: AreaEnd) -> bool {
    let at = at as u64;
    let start = if current.second {
        AREAS_PLACE + u64::from(current.header.area)
    } else {
        AREAS_PLACE
    };
    at < AREAS_PLACE || start <= at && at - start <= end.gate
}

/// Whether a file with one byte changed is refused; or the byte is not read, and the file is opened
/// as it was.
fn is_refused(file: &[u8], at: usize, current: Current, end: AreaEnd) -> bool {
    match opened(file, &identity()) {
        None => is_read(at, current, end),
        Some((found, read)) => !is_read(at, current, end) && found == current && read == end,
    }
}

/// Flips each bit of a file up to the end of its first area, or after it, and says whether each
/// such file is refused as it must be.
fn all_refused(file: &mut [u8], first: bool, current: Current, end: AreaEnd) -> bool {
    for at in 0..file.len() {
        if (at < 912) != first {
            continue;
        }
        for bit in 0..8u32 {
            let byte = file[at];
            file[at] = byte ^ (1 << bit);
            if !is_refused(file, at, current, end) {
                return false;
            }
            file[at] = byte;
        }
    }
    true
}

#[test]
fn groups_and_a_snapshot_are_read_again(rt: HostRuntime) -> Result<(), Fail> {
    let alloc = rt.alloc();
    let mut file = new_file(alloc)?;
    let Some((current, end)) = opened(&file, &identity()) else {
        assert!(rt; false);
        return Ok(());
    };
    assert!(rt; !current.second);
    assert_eq!(rt; end.records, 0);
    let mut keeper = JournalKeeper::new(alloc, 800, false, 34);
    assert_eq!(rt; end.gate, 34);
    assert!(rt; keep_group(&mut file, &mut keeper, 1, 20));
    assert!(rt; keep_snapshot(&mut file, &mut keeper));
    assert!(rt; keep_group(&mut file, &mut keeper, 2, 30));
    assert!(rt; keep_group(&mut file, &mut keeper, 3, 20));
    let found = opened(&file, &identity());
    assert!(rt; found.is_some_and(|found| found.0.second && found.1.records == 50));
    Ok(())
}

/// A file whose second area counts, with a snapshot and 50 records.
fn long_file(alloc: Global) -> Result<Vec<u8>, AllocError> {
    let mut file = new_file(alloc)?;
    let mut keeper = JournalKeeper::new(alloc, 800, false, 34);
    if keep_group(&mut file, &mut keeper, 1, 20)
        && keep_snapshot(&mut file, &mut keeper)
        && keep_group(&mut file, &mut keeper, 2, 50)
    {
        Ok(file)
    } else {
        Err(AllocError)
    }
}

#[test]
fn each_bit_that_flips_in_front_is_refused(rt: HostRuntime) -> Result<(), Fail> {
    let mut file = long_file(rt.alloc())?;
    let Some((current, end)) = opened(&file, &identity()) else {
        assert!(rt; false);
        return Ok(());
    };
    assert_eq!(rt; end.records, 50);
    assert!(rt; all_refused(&mut file, true, current, end));
    Ok(())
}

#[test]
fn each_bit_that_flips_in_what_counts_is_refused(rt: HostRuntime) -> Result<(), Fail> {
    let mut file = long_file(rt.alloc())?;
    let Some((current, end)) = opened(&file, &identity()) else {
        assert!(rt; false);
        return Ok(());
    };
    assert!(rt; current.second);
    assert!(rt; all_refused(&mut file, false, current, end));
    Ok(())
}

/// What is answered of a file whose journal is not the one that is wanted.
fn refusal_of(file: &[u8], wanted: &Identity) -> Option<HeaderFault> {
    match read_file(file, wanted) {
        Err(FileFault::BadHeader(fault)) => Some(fault),
        _ => None,
    }
}

#[test]
fn another_journal_is_told(rt: HostRuntime) -> Result<(), Fail> {
    let file = new_file(rt.alloc())?;
    let mut wanted = identity();
    wanted.settings.lease = 99;
    assert_eq!(rt;
        refusal_of(&file, &wanted),
        Some(HeaderFault::OtherSettings)
    );
    wanted.blocks = 65;
    assert_eq!(rt; refusal_of(&file, &wanted), Some(HeaderFault::OtherShape));
    wanted.server = ServerId(2);
    assert_eq!(rt;
        refusal_of(&file, &wanted),
        Some(HeaderFault::OtherServer(ServerId(1)))
    );
    Ok(())
}

#[test]
fn a_full_area_takes_no_record(rt: HostRuntime) -> Result<(), Fail> {
    let alloc = rt.alloc();
    let mut keeper = JournalKeeper::new(alloc, 64, false, 20);
    assert!(rt; keeper.add(b"seventeen bytes  ").is_ok());
    assert!(rt; keeper.is_half_full());
    assert!(rt; keeper.add(b"").is_ok());
    assert_eq!(rt; keeper.add(b""), Err(KeepFault::Full));
    Ok(())
}

/// A file whose snapshot was made at moment 5, and its record at this moment.
fn dated_file(alloc: Global, moment: u64) -> Result<Vec<u8>, AllocError> {
    let header = Header {
        area: AREA,
        identity: identity(),
    };
    let mut file = vec![in alloc; 0u8; 112 + 2 * AREA as usize]?;
    let snapshot = dated_of(alloc, 5, b"the state")?;
    if snapshot.len() > 100 {
        return Err(AllocError);
    }
    let front = file_of(alloc, &header, snapshot.as_slice())?;
    let mut keeper = JournalKeeper::new(alloc, 800, false, 29);
    let change = dated_of(alloc, moment, b"a change")?;
    if !put(&mut file, 0, front.as_slice()) || !put(&mut file, MADE_PLACE, &[255]) {
        return Err(AllocError);
    }
    if keeper.add(change.as_slice()).is_err() {
        return Err(AllocError);
    }
    if keeper.task() != Task::Rest || keeper.waiting() == 0 {
        return Err(AllocError);
    }
    let write = keeper.group();
    if do_write(&mut file, write) && do_write(&mut file, keeper.gate()) {
        Ok(file)
    } else {
        Err(AllocError)
    }
}

/// The moment of the last change in a file.
fn moment_in(file: &[u8]) -> Option<u64> {
    let Ok(Some(current)) = read_file(file, &identity()) else {
        return None;
    };
    match last_moment(current_area(file, &current)) {
        Ok(last) => last,
        Err(_) => None,
    }
}

#[test]
fn a_journal_has_the_moment_of_its_last_change(rt: HostRuntime) -> Result<(), Fail> {
    let alloc = rt.alloc();
    assert_eq!(rt; moment_in(&dated_file(alloc, 7)?), Some(7));
    assert_eq!(rt; moment_in(&dated_file(alloc, 5)?), Some(5));
    assert_eq!(rt; moment_in(&dated_file(alloc, 4)?), None);
    assert_eq!(rt; check_moment(Some(7), 7), Ok(()));
    assert_eq!(rt;
        check_moment(Some(7), 6),
        Err(MomentFault::Earlier { last: 7 })
    );
    assert_eq!(rt; check_moment(None, 6), Err(MomentFault::Undated));
    Ok(())
}

/// Takes a step that gives this, if one may be taken.
fn push_step(held: &mut HeldSteps<u64>, what: u64, changed: bool) -> Result<(), AllocError> {
    if !held.may_step() {
        return Err(AllocError);
    }
    if held.push(what, changed).is_err() {
        return Err(AllocError);
    }
    Ok(())
}

#[test]
fn a_step_is_given_once_its_change_is_kept(rt: HostRuntime) -> Result<(), Fail> {
    let mut held = HeldSteps::new(rt.alloc(), 2);
    push_step(&mut held, 1, true)?;
    push_step(&mut held, 2, false)?;
    push_step(&mut held, 3, true)?;
    assert_eq!(rt; held.may_step(), false);
    assert_eq!(rt; held.pop(), None);
    held.keep(1);
    assert_eq!(rt; held.pop(), Some(1));
    assert_eq!(rt; held.pop(), Some(2));
    assert_eq!(rt; held.pop(), None);
    assert_eq!(rt; held.waiting(), 1);
    Ok(())
}
