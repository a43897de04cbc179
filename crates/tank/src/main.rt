//! The program `tank`: it hands the standard streams, a link, a clock and the words of the command
//! line to the top call, and ends with its status. `docs/PROTOCOL.md`, "The program".
#![tactic(auto)]

use st_clock::MonotonicClock;
use st_link::{ReaderSource, UnixLink, WriterSink, put_all};
use st_tank::run;
use std::alloc::AllocError;
use std::env;
use std::io::ErrorKind;
use std::process::ExitCode;
use std::rt::Env;

/// The words after the program's name; if one of them isn't text, there are none, and no words are
/// wrong arguments.
fn words(rt: &(impl Env + AllocGlobal)) -> Result<Vec<String>, AllocError> {
    let mut words = Vec::new(rt.alloc());
    match env::args(rt) {
        Ok(args) => {
            for word in args.skip(1) {
                words.push(word)?;
            }
            Ok(words)
        }
        Err(e) if e.kind() == ErrorKind::OutOfMemory => Err(AllocError),
        Err(_) => Ok(words),
    }
}

fn main(rt: HostRuntime) -> ExitCode {
    let mut err = WriterSink::new(rt.stderr());
    let Ok(words) = words(&rt) else {
        let _ = put_all(&mut err, b"tank: out of memory\n");
        return ExitCode::from(5);
    };
    let mut input = ReaderSource::new(rt.stdin());
    let mut out = WriterSink::new(rt.stdout());
    let mut link = UnixLink::new(rt);
    let mut clock = MonotonicClock::new(rt);
    let status = run(
        rt.alloc(),
        &words,
        &mut input,
        &mut out,
        &mut err,
        &mut link,
        &mut clock,
    );
    ExitCode::from(status)
}
