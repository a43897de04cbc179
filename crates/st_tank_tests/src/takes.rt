// A schedule that comes one byte a take; each take fails in turn.
use crate::runs::{dripping, joined, replays};
use crate::texts::{HEAD, ONE_SIDED_CUT, ONE_SIDED_CUT_REPORT, WRITTEN, WRITTEN_REPORT};
use std::alloc::{AllocError, Global};
use std::test::Fail;

/// The event of a line of a report: 0 for the first line, and above all events for the last one.
fn event_of(line: &str) -> u64 {
    if line == "tank report 1" {
        return 0;
    }
    match line.split_once(' ') {
        Some((number, _rest)) => number.parse::<u64>().unwrap_or(u64::MAX),
        None => u64::MAX,
    }
}

/// The lines of a report whose events are at most this one.
fn up_to(alloc: Global, report: &str, event: u64) -> Result<String, AllocError> {
    let mut text = String::new(alloc);
    for line in report.lines() {
        if event_of(line) <= event {
            text.push_str(line)?;
            text.push_str("\n")?;
        }
    }
    Ok(text)
}

/// What is written of a schedule whose first `taken` bytes were taken: the lines of the events
/// whose newlines are among them.
fn front(alloc: Global, schedule: &str, report: &str, taken: usize) -> Result<String, AllocError> {
    let lines = schedule
        .as_bytes()
        .iter()
        .take(taken)
        .filter(|byte| **byte == b'\n')
        .count();
    match (lines as u64).checked_sub(1) {
        None => Ok(String::new(alloc)),
        Some(event) => up_to(alloc, report, event),
    }
}

#[test]
fn each_take_fails_in_turn(rt: HostRuntime) -> Result<(), Fail> {
    let schedule = joined(rt.alloc(), &[HEAD, WRITTEN, ONE_SIDED_CUT])?;
    let report = joined(rt.alloc(), &[WRITTEN_REPORT, ONE_SIDED_CUT_REPORT])?;
    // the last take finds the end
    for taken in 0..=schedule.len() {
        let call = (taken as u64).saturating_add(1);
        let mut input = dripping(rt.alloc(), schedule.as_str(), call)?;
        let text = front(rt.alloc(), schedule.as_str(), report.as_str(), taken)?;
        let status = replays(&rt, &mut input, text.as_str(), "tank: read failed\n")?;
        assert_eq!(rt; status, 3, "take {call}");
    }
    let mut input = dripping(rt.alloc(), schedule.as_str(), 0)?;
    let status = replays(&rt, &mut input, report.as_str(), "")?;
    assert_eq!(rt; status, 0);
    Ok(())
}
