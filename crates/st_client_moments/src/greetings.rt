// When a server is greeted.
ghost use Rattle.std.specs.Prelude.{◌≡◌};
ghost use Rattle.st_client_due.specs.ClientDue as due;
ghost use Rattle.st_client_moments.specs.FirstMoments.{first_readable};

use crate::spans::{at_once, since};
use st_base::Stamp;
use st_client_association::TurnView;
use st_operations::OfServer;

/// When the server is greeted: an operation waits for it, and the last greeting is old.
pub fn greeting_due(t: &TurnView<'_>, from: Stamp) -> Option<u64>
    ensures { result ≡ first_readable from (due.greeting_during t.now) }
{
    let here = OfServer { server: t.server() };
    if !t.operations().any(&here) {
        return None;
    }
    match t.greeting() {
        None => at_once(from),
        Some(at) => since(from, at, t.config().retry),
    }
}
