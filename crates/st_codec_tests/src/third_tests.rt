use crate::tests::{bytes_of, full, sum_of, words_of};
use crate::third_table::{FAULTS, MESSAGES};
use crate::wire_table;
use st_third_codec::{CodecRefusal, decode, encode};
use std::alloc::{AllocError, Global};
use std::io;
use std::test::*;

/// Whether the bytes are read, and written again as they were.
fn comes_back(alloc: Global, bytes: &[u8]) -> Result<bool, AllocError> {
    match decode(alloc, bytes) {
        Ok(message) => Ok(encode(alloc, &message)?.as_slice() == bytes),
        Err(_) => Ok(false),
    }
}

/// The same message in version 3.
fn in_version_3(alloc: Global, line: &str) -> Result<Vec<u8>, AllocError> {
    let bytes = bytes_of(alloc, line)?;
    let mut moved = Vec::new(alloc);
    moved.push(3)?;
    if let Some((_, rest)) = bytes.as_slice().split_first() {
        moved.extend_from_slice(rest)?;
    }
    Ok(moved)
}

#[test]
fn version_3_has_the_messages_of_the_others(rt: HostRuntime) -> io::Result<()> {
    for line in wire_table::MESSAGES.lines() {
        let bytes = in_version_3(rt.alloc(), line)?;
        assert!(rt; comes_back(rt.alloc(), bytes.as_slice())?, "{line}");
    }
    Ok(())
}

#[test]
fn version_3_has_its_own_messages(rt: HostRuntime) -> io::Result<()> {
    for line in MESSAGES.lines() {
        let bytes = bytes_of(rt.alloc(), line)?;
        assert!(rt; comes_back(rt.alloc(), bytes.as_slice())?, "{line}");
    }
    Ok(())
}

#[test]
fn each_fault_of_version_3_is_the_first(rt: HostRuntime) -> io::Result<()> {
    for line in FAULTS.lines() {
        if let Some((runs, want)) = line.split_once(" = ") {
            let bytes = bytes_of(rt.alloc(), runs)?;
            match decode(rt.alloc(), bytes.as_slice()) {
                Ok(_) => assert!(rt; false, "{line}"),
                Err(refusal) => {
                    let got = words_of(rt.alloc(), refusal)?;
                    assert!(rt; got.as_str() == want, "{line}");
                }
            }
        }
    }
    assert!(rt; matches!(decode(rt.alloc(), &[]), Err(CodecRefusal::Short)));
    Ok(())
}

#[test]
fn a_full_reassertion_is_read_and_written(rt: HostRuntime) -> io::Result<()> {
    let locks = full(rt.alloc(), "03 09 up 10 00", 1, 4_096, "00*7 08 02")?;
    assert_eq!(rt; locks.len(), 53_288);
    assert_eq!(rt; sum_of(locks.as_slice()), 4_296);
    assert!(rt; comes_back(rt.alloc(), locks.as_slice())?);
    Ok(())
}
