ghost use Rattle.std.specs.Prelude.{◌≡◌, ◌++◌, OnOk};
ghost use Rattle.st_rules.specs.Report as text;

use crate::bodies::{kind, put_fields};
use crate::words::{put_field, put_party, put_text};
use st_messages::Message;
use std::alloc::AllocError;

/// Appends a message. It is a function of its own for the prover, which doesn't join more texts
/// than these at once.
pub(crate) fn put_message(out: &mut Vec<u8>, m: &Message) -> Result<(), AllocError>
    ensures { OnOk result (out.new.items ≡ out.old.items ++ text.message m.now) }
{
    put_party(out, m.header.from)?;
    put_party(out, m.header.to)?;
    put_text(out, kind(&m.body).as_bytes())?;
    put_field(out, m.header.life)?;
    put_field(out, m.header.epoch)?;
    put_field(out, m.header.number)?;
    put_field(out, m.header.stamp)?;
    put_fields(out, &m.body)
}
