// When a demanded lock is reduced.
ghost use Rattle.std.specs.Prelude.{◌≡◌, ◌||◌, IfOk, is_some};
ghost use Rattle.std.specs.List.{list_any};
ghost use Rattle.st_client_due.specs.ClientDue as due;
ghost use Rattle.st_client_moments.specs.FirstMoments.{first_readable};
ghost use Rattle.st_rules.specs.ClientLocks as locks;

use crate::spans::at_once;
use st_base::Stamp;
use st_client_association::{TurnView, is_busy};
use st_client_session::Session;
use std::alloc::AllocError;

/// Whether a reduction of the file gives a lock back: one is held, and is demanded.
fn is_given(session: &Session, ino: u32) -> bool
    ensures { result ≡ is_some (locks.reduce session.now.session.locks ino).given }
{
    session.is_demanded(ino) && session.lock(ino).is_some()
}

/// Whether the file's lock is reduced: it has no dirty page and no outstanding command, isn't busy,
/// and gives a lock back.
fn is_reduced(t: &TurnView<'_>, session: &Session, ino: u32) -> bool
    ensures { result ≡ due.is_reduced t.now session.now.session ino }
{
    (t.is_idle(ino) && !is_busy(t.operations(), t.server(), session, ino)) && is_given(session, ino)
}

/// Whether one of the two is so.
fn either(first: bool, second: bool) -> bool
    ensures { result ≡ (first || second) }
{
    first || second
}

/// Whether the lock of one of these files is reduced.
fn is_one_reduced(t: &TurnView<'_>, session: &Session, files: &[u32]) -> bool
    ensures { result ≡ list_any (due.is_reduced t.now session.now.session) files.now }
{
    let mut found = false;
    for ino in files {
        found = either(found, is_reduced(t, session, *ino));
    }
    found
}

/// When the first demanded lock is reduced.
pub fn reductions_due(
    t: &TurnView<'_>,
    session: &Session,
    from: Stamp,
) -> Result<Option<u64>, AllocError>
    ensures { IfOk result (λ o. o ≡ first_readable from (due.reductions_during t.now session.now.session)) }
{
    let files = session.demanded_files()?;
    if is_one_reduced(t, session, files.as_slice()) {
        Ok(at_once(from))
    } else {
        Ok(None)
    }
}
