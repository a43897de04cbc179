// The program over memory, when calls of the source, the sink, the link or the error sink fail.
use crate::frames::{GREETING, WELCOME};
use crate::runs::{joined, still, words_of};
use crate::texts::{HEAD, ONE_SIDED_CUT, ONE_SIDED_CUT_REPORT, USAGE, WRITTEN, WRITTEN_REPORT};
use st_link::{MemoryLink, MemorySink, MemorySource};
use st_tank::run;
use std::alloc::{AllocError, Global};
use std::process::Abort;
use std::test::Fail;

/// For the source, the sink, the link and the error sink, the number of the call that fails; 0 is
/// none.
#[derive(Clone, Copy)]
pub struct Failing {
    pub source: u64,
    pub sink: u64,
    pub link: u64,
    pub err: u64,
}

/// No call fails.
pub const NONE: Failing = Failing {
    source: 0,
    sink: 0,
    link: 0,
    err: 0,
};

/// What a run is given, and what it leaves if no call fails.
#[derive(Clone, Copy)]
pub struct Case<'a> {
    pub words: &'a [&'a str],
    pub schedule: &'a [u8],
    pub frames: &'a [u8],
    pub status: u8,
    pub report: &'a str,
    pub sent: &'a [u8],
    pub complaint: &'a str,
}

/// What a run left: its status, its report, what it sent over the link, and its complaint.
#[derive(Drop)]
pub struct Left {
    pub status: u8,
    out: MemorySink,
    link: MemoryLink,
    err: MemorySink,
}

impl Left {
    /// Whether the run wrote and sent all that it should, and complained so.
    pub fn is_whole(&self, case: &Case<'_>, complaint: &str) -> bool {
        self.out.as_slice() == case.report.as_bytes()
            && self.link.as_slice() == case.sent
            && self.err.as_slice() == complaint.as_bytes()
    }

    /// Whether the run wrote and sent a prefix of what it should, and complained so.
    pub fn is_front(&self, case: &Case<'_>, complaint: &str) -> bool {
        case.report.as_bytes().starts_with(self.out.as_slice())
            && case.sent.starts_with(self.link.as_slice())
            && self.err.as_slice() == complaint.as_bytes()
    }
}

/// Runs the program with these words over this schedule and these frames.
pub fn run_failing(alloc: Global, case: &Case<'_>, failing: Failing) -> Result<Left, AllocError> {
    let words = words_of(alloc, case.words)?;
    let bytes = Vec::from_slice(alloc, case.schedule)?;
    let mut input = MemorySource::new(bytes, Vec::from_slice(alloc, &[failing.source])?);
    let mut out = MemorySink::new(alloc, Vec::from_slice(alloc, &[failing.sink])?);
    let mut err = MemorySink::new(alloc, Vec::from_slice(alloc, &[failing.err])?);
    let frames = Vec::from_slice(alloc, case.frames)?;
    let mut link = MemoryLink::new(alloc, frames, Vec::from_slice(alloc, &[failing.link])?);
    let mut clock = still(alloc)?;
    let status = run(
        alloc, &words, &mut input, &mut out, &mut err, &mut link, &mut clock,
    );
    Ok(Left {
        status,
        out,
        link,
        err,
    })
}

/// An object of which a call fails.
#[derive(Clone, Copy, PartialEq, Eq)]
enum Object {
    Source,
    Sink,
    Link,
    Err,
}

/// The call of this number of an object fails.
fn failing_at(object: Object, call: u64) -> Failing {
    match object {
        Object::Source => Failing {
            source: call,
            ..NONE
        },
        Object::Sink => Failing { sink: call, ..NONE },
        Object::Link => Failing { link: call, ..NONE },
        Object::Err => Failing { err: call, ..NONE },
    }
}

/// The status and the complaint if a call of an object fails.
fn ending(object: Object) -> (u8, &'static str) {
    match object {
        Object::Source => (3, "tank: read failed\n"),
        Object::Sink => (4, "tank: write failed\n"),
        Object::Link => (6, "tank: link failed\n"),
        Object::Err => (4, ""),
    }
}

/// Each of these calls of an object fails in turn. If the complaint can't be written, all that
/// comes before it was.
fn each_of(
    rt: &(impl Abort + AllocGlobal),
    case: &Case<'_>,
    object: Object,
    calls: u64,
) -> Result<(), Fail> {
    let (status, complaint) = ending(object);
    for call in 1..=calls {
        let left = run_failing(rt.alloc(), case, failing_at(object, call))?;
        assert_eq!(rt; left.status, status, "call {call}");
        assert!(rt; left.is_front(case, complaint), "call {call}");
        assert!(rt;
            object != Object::Err || left.is_whole(case, complaint),
            "call {call}"
        );
    }
    Ok(())
}

/// These are all of the calls: no object has one more.
fn no_more_calls(
    rt: &(impl Abort + AllocGlobal),
    case: &Case<'_>,
    calls: Failing,
) -> Result<(), Fail> {
    let failing = Failing {
        source: calls.source.saturating_add(1),
        sink: calls.sink.saturating_add(1),
        link: calls.link.saturating_add(1),
        err: calls.err.saturating_add(1),
    };
    let left = run_failing(rt.alloc(), case, failing)?;
    assert_eq!(rt; left.status, case.status);
    assert!(rt; left.is_whole(case, case.complaint));
    Ok(())
}

/// Each of these calls of each object fails in turn, and there are no more.
fn each_fails(
    rt: &(impl Abort + AllocGlobal),
    case: &Case<'_>,
    calls: Failing,
) -> Result<(), Fail> {
    each_of(rt, case, Object::Source, calls.source)?;
    each_of(rt, case, Object::Sink, calls.sink)?;
    each_of(rt, case, Object::Link, calls.link)?;
    each_of(rt, case, Object::Err, calls.err)?;
    no_more_calls(rt, case, calls)
}

/// A case over a schedule that is only a head.
fn begun<'a>(
    words: &'a [&'a str],
    frames: &'a [u8],
    status: u8,
    sent: &'a [u8],
    complaint: &'a str,
) -> Case<'a> {
    Case {
        words,
        schedule: HEAD.as_bytes(),
        frames,
        status,
        report: "",
        sent,
        complaint,
    }
}

/// A replay, a node, a node whose stream is cut, and wrong arguments, with how many calls of each
/// object they make.
#[test]
fn each_call_fails_in_turn(rt: HostRuntime) -> Result<(), Fail> {
    let schedule = joined(rt.alloc(), &[HEAD, WRITTEN, ONE_SIDED_CUT])?;
    let report = joined(rt.alloc(), &[WRITTEN_REPORT, ONE_SIDED_CUT_REPORT])?;
    let replay = Case {
        words: &["replay"],
        schedule: schedule.as_bytes(),
        frames: GREETING,
        status: 0,
        report: report.as_str(),
        sent: b"",
        complaint: "",
    };
    let calls = Failing {
        source: 2,
        sink: 2,
        ..NONE
    };
    each_fails(&rt, &replay, calls)?;
    let node: &[&str] = &["node", "server", "1", "s1"];
    let whole = begun(node, GREETING, 0, WELCOME, "");
    each_fails(&rt, &whole, Failing { link: 4, ..NONE })?;
    let cut = begun(node, &GREETING[..41], 1, b"", "tank: frame cut at 0\n");
    let calls = Failing {
        link: 3,
        err: 1,
        ..NONE
    };
    each_fails(&rt, &cut, calls)?;
    let wrong = begun(&["node"], GREETING, 2, b"", USAGE);
    each_fails(&rt, &wrong, Failing { err: 1, ..NONE })
}
