ghost use Rattle.std.specs.Prelude.{◌≡◌, [], OnOk, OnErr};
ghost use Rattle.std.specs.Io.KnownBytes.{Appends};
ghost use Rattle.st_link.specs.Causes.{HasCause};
ghost use Rattle.st_link.specs.Prefixes.{AppendsPrefix};
ghost use Rattle.st_replay.specs.Streams.{Refuses, RefusalCauses};

use crate::fault::{ReplayFault, Stop};
use crate::last_lines::put_stopped;
use st_link::{Failed, Sink, put_all};

/// Writes the text, and empties it.
pub(crate) fn flush<O: Sink>(out: &mut O, text: &mut Vec<u8>) -> Result<(), Failed>
    ensures ok { OnOk result (Appends (O.written out.old) (O.written out.new) text.old.items) }
    ensures empty { OnOk result (text.new.items ≡ []) }
    ensures failed { OnErr result (AppendsPrefix (O.written out.old) (O.written out.new) text.old.items) }
    ensures cause { HasCause (O.faults out.old) (O.faults out.new) result }
{
    match put_all(out, text.as_slice()) {
        Ok(()) => {
            text.clear();
            Ok(())
        }
        Err(failed) => Err(failed),
    }
}

/// Ends a report that was stopped.
pub(crate) fn refuse<O: Sink>(out: &mut O, text: &mut Vec<u8>, stop: Stop) -> ReplayFault
    ensures exact { Refuses result stop (O.written out.old) (O.written out.new) text.old.items }
    ensures causes { RefusalCauses result (O.faults out.old) (O.faults out.new) }
{
    match stop {
        Stop::Line(line, refusal) => {
            let Ok(()) = put_stopped(text, line, &refusal) else {
                return ReplayFault::Memory;
            };
            match flush(out, text) {
                Ok(()) => ReplayFault::Line(line, refusal),
                Err(_) => ReplayFault::Write,
            }
        }
        Stop::Memory => ReplayFault::Memory,
    }
}
