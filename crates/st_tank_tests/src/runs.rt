// The program over memory.
use crate::one_byte_source::OneByteSource;
use st_base::Stamp;
use st_clock::MemoryClock;
use st_link::{MemoryLink, MemorySink, MemorySource};
use st_tank::run;
use std::alloc::{AllocError, Global};
use std::process::Abort;
use std::test::Fail;

/// Joins texts.
pub fn joined(alloc: Global, parts: &[&str]) -> Result<String, AllocError> {
    let mut text = String::new(alloc);
    for part in parts {
        text.push_str(part)?;
    }
    Ok(text)
}

/// Words of a call.
pub fn words_of(alloc: Global, words: &[&str]) -> Result<Vec<String>, AllocError> {
    let mut all = Vec::new(alloc);
    for word in words {
        all.push(String::from_str(alloc, word)?)?;
    }
    Ok(all)
}

/// A clock that always reads 0.
pub fn still(alloc: Global) -> Result<MemoryClock, AllocError> {
    Ok(MemoryClock::new(Vec::from_slice(alloc, &[Stamp(0)])?))
}

/// A schedule that comes one byte a call; the take of this number fails, and none if it is 0.
pub fn dripping(alloc: Global, schedule: &str, failing: u64) -> Result<OneByteSource, AllocError> {
    let bytes = Vec::from_slice(alloc, schedule.as_bytes())?;
    let failing = Vec::from_slice(alloc, &[failing])?;
    Ok(OneByteSource {
        rest: MemorySource::new(bytes, failing),
    })
}

/// Replays a schedule, asserts its report and its complaint, and returns its status.
pub fn replays(
    rt: &(impl Abort + AllocGlobal),
    input: &mut OneByteSource,
    report: &str,
    complaint: &str,
) -> Result<u8, Fail> {
    let alloc = rt.alloc();
    let words = words_of(alloc, &["replay"])?;
    let mut out = MemorySink::new(alloc, Vec::new(alloc));
    let mut err = MemorySink::new(alloc, Vec::new(alloc));
    let mut link = MemoryLink::new(alloc, Vec::new(alloc), Vec::new(alloc));
    let mut clock = still(alloc)?;
    let status = run(
        alloc, &words, input, &mut out, &mut err, &mut link, &mut clock,
    );
    assert_eq!(rt; out.as_slice(), report.as_bytes());
    assert_eq!(rt; err.as_slice(), complaint.as_bytes());
    Ok(status)
}
