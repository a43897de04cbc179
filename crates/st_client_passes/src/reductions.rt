// Reductions: a demanded file that is idle and not busy is reduced to what is demanded.
ghost use Rattle.std.specs.Prelude.{◌≡◌, OnOk};
ghost use Rattle.st_client_association.specs.Turns.{session_of};
ghost use Rattle.st_rules.specs.ClientLocks as locks;
ghost use Rattle.st_rules.specs.ClientPasses as passes;

use st_base::{GrantNo, Mode, PageNo};
use st_client_association::{SessionTurn, Turn, is_busy};
use st_client_session::Session;
use std::alloc::AllocError;

#[tactic(auto, unfolding(st_rules::specs::ClientPasses::reduce_to))]
fn reduce_to(t: &mut SessionTurn, ino: u32, g: GrantNo, to: Mode) -> Result<(), AllocError>
    ensures { OnOk result (t.new ≡ passes.reduce_to t.old (session_of t.old) ino g to) }
{
    t.release(ino, g, to)?;
    match to {
        // The lock is gone, and the clean pages and extents of the file go too.
        Mode::None => {
            t.forget_from(ino, PageNo(0));
            Ok(())
        }
        _ => Ok(()),
    }
}

#[tactic(auto, unfolding(st_rules::specs::ClientPasses::reduce_by, st_rules::specs::ClientPasses::reduce_given))]
fn reduce_by(t: &mut SessionTurn, ino: u32) -> Result<(), AllocError>
    ensures { OnOk result (t.new ≡ passes.reduce_by t.old (session_of t.old) ino (locks.reduce (session_of t.old).locks ino)) }
{
    match t.reduce_lock(ino) {
        None => Ok(()),
        Some((g, to)) => reduce_to(t, ino, g, to),
    }
}

/// Whether the file has no dirty page and no outstanding command, and isn't busy.
pub fn may_reduce(t: &Turn, session: &Session, ino: u32) -> bool
    ensures { result ≡ passes.may_reduce t.now session.now.session ino }
{
    t.is_idle(ino) && !is_busy(t.operations(), t.server(), session, ino)
}

/// A demanded file that may be reduced.
fn reduce(t: &mut SessionTurn, ino: u32) -> Result<(), AllocError>
    ensures { OnOk result (t.new ≡ passes.reduce t.old ino t.old.here.session) }
{
    if may_reduce(t.turn(), t.session(), ino) {
        reduce_by(t, ino)
    } else {
        Ok(())
    }
}

#[tactic(auto, unfolding(st_rules::specs::ClientPasses::reduce_each))]
fn reduce_each(t: &mut SessionTurn, files: &[u32]) -> Result<(), AllocError>
    ensures { OnOk result (t.new ≡ passes.reduce_each files.now t.old) }
{
    for ino in files {
        reduce(t, *ino)?;
    }
    Ok(())
}

/// The demanded files, in rising order.
#[tactic(auto, unfolding(st_rules::specs::ClientPasses::reductions))]
fn reduce_all(t: &mut SessionTurn) -> Result<(), AllocError>
    ensures { OnOk result (t.new ≡ passes.reductions t.old) }
{
    let files = t.session().demanded_files()?;
    reduce_each(t, files.as_slice())
}

/// Reductions, by rising file. If no file is demanded there are none.
pub fn reductions(t: &mut SessionTurn) -> Result<(), AllocError>
    ensures { OnOk result (t.new ≡ passes.reductions t.old) }
{
    if t.session().has_demands() {
        reduce_all(t)
    } else {
        Ok(())
    }
}
