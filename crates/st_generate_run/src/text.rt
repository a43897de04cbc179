// The text of a generated schedule, which is written in pieces.
ghost use Rattle.std.specs.Prelude.{◌≡◌, ◌++◌, [], codes, OnOk, OnErr};
ghost use Rattle.std.specs.Io.KnownBytes.{Appends};
ghost use Rattle.st_generate.specs.GeneratedText.{event_line, head_line};
ghost use Rattle.st_link.specs.Causes.{HasCause};
ghost use Rattle.st_link.specs.Prefixes.{AppendsPrefix};

use st_link::{Failed, Sink, put_all};
use st_messages::Event;
use st_report::put_text;
use st_schedule::put_line;
use std::alloc::AllocError;

/// The text is written as soon as it has at least `LONG` bytes.
pub(crate) const LONG: usize = 4096;

/// Appends the line of the head.
pub(crate) fn put_head(text: &mut Vec<u8>) -> Result<(), AllocError>
    ensures { OnOk result (text.new.items ≡ text.old.items ++ head_line) }
{
    put_text(text, b"tank 1 1000 500 700 850 100 50 101 100 3 2 2 64\n")
}

/// Appends the line of an event.
pub(crate) fn put_event(text: &mut Vec<u8>, event: &Event) -> Result<(), AllocError>
    ensures { OnOk result (text.new.items ≡ text.old.items ++ event_line event.now) }
{
    put_line(text, event)?;
    put_text(text, b"\n")
}

/// Appends the line of the end.
pub(crate) fn put_end(text: &mut Vec<u8>) -> Result<(), AllocError>
    ensures { OnOk result (text.new.items ≡ text.old.items ++ codes "end\n") }
{
    put_text(text, b"end\n")
}

/// Writes the text, and empties it.
pub(crate) fn flush<O: Sink>(out: &mut O, text: &mut Vec<u8>) -> Result<(), Failed>
    ensures ok { OnOk result (Appends (O.written out.old) (O.written out.new) text.old.items) }
    ensures empty { OnOk result (text.new.items ≡ []) }
    ensures failed { OnErr result (AppendsPrefix (O.written out.old) (O.written out.new) text.old.items) }
    ensures cause { HasCause (O.faults out.old) (O.faults out.new) result }
{
    match put_all(out, text.as_slice()) {
        Ok(()) => {
            text.clear();
            Ok(())
        }
        Err(failed) => Err(failed),
    }
}
