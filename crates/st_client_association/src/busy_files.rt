// Files at which a client must not work: those that are demanded, and those that are busy.
ghost use Rattle.std.specs.Prelude.{◌≡◌};
ghost use Rattle.st_rules.specs.ClientState as client;

use st_base::ServerId;
use st_client_session::Session;
use st_operations::{Operations, SentOn, is_file};

/// Whether a cut or a remove of the file was sent and not answered: it is the outstanding request
/// of the session, or one of these operations. The server is the session's.
pub fn is_busy(operations: &Operations, server: ServerId, session: &Session, ino: u32) -> bool
    ensures { result ≡ client.is_busy operations.now server session.now.session ino }
{
    is_file(ino, session.cutting()) || operations.any(&SentOn { server, ino })
}

/// Whether a file is neither demanded nor busy. The server is the session's.
pub fn is_open(operations: &Operations, server: ServerId, session: &Session, ino: u32) -> bool
    ensures { result ≡ client.is_open operations.now server session.now.session ino }
{
    !session.is_demanded(ino) && !is_busy(operations, server, session, ino)
}
