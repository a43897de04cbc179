// What is checked before a step.
ghost use Rattle.std.specs.Prelude.{◌≡◌, is_some};
ghost use Rattle.st_durable.specs.Durable as durable;
ghost use Rattle.st_kept_histories.specs.Kept as kept;

use st_base::Stamp;
use st_messages::{Body, NameOp};
use st_rules::ServerInput;

/// The latest moment of a step: 2^62.
const LAST_MOMENT: u64 = 4_611_686_018_427_387_904;

/// Whether a step may be taken at this moment, after one at the last moment.
pub(crate) fn is_in_time(last: u64, now: Stamp) -> bool
    ensures { result ≡ kept.is_in_time last now }
{
    last <= now.0 && now.0 <= LAST_MOMENT
}

/// Whether a request on names asks for a change.
fn asks_of_names(op: &NameOp) -> bool
    ensures { result ≡ is_some (durable.asked_of_names op.now) }
{
    match op {
        NameOp::Lookup { .. } | NameOp::List { .. } => false,
        NameOp::Create { .. }
        | NameOp::Mkdir { .. }
        | NameOp::Remove { .. }
        | NameOp::Rename { .. } => true,
    }
}

/// Whether an input asks for a change.
pub(crate) fn asks(input: &ServerInput) -> bool
    ensures { result ≡ is_some (durable.asked input.now) }
{
    match input {
        ServerInput::Tick => false,
        ServerInput::Control(message) => match &message.body {
            Body::Allocate { .. } | Body::Cut { .. } => true,
            Body::Name(op) => asks_of_names(op),
            _ => false,
        },
    }
}
