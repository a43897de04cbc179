// Writes of dirty pages to their disks.
ghost use Rattle.std.specs.Prelude.{◌≡◌, false, true, OnOk, Some};
ghost use Rattle.std.specs.Option.{option_map_or};
ghost use Rattle.st_client_association.specs.Turns.{session_of};
ghost use Rattle.st_rules.specs.ClientInvariants.{lasts_here};
ghost use Rattle.st_rules.specs.declared.pages.DirtyPage.{DirtyPage};
ghost use Rattle.st_rules.specs.ClientLease as leases;
ghost use Rattle.st_rules.specs.ClientPages as pages;
ghost use Rattle.st_rules.specs.ClientPasses as passes;
ghost use Rattle.st_client_passes.specs.PassConditions.{MayRest, drains_at};

use st_base::{Mode, PageNo, ServerId, Stamp};
use st_client_association::{DirtyRow, SessionTurn, Turn};
use st_client_session::Session;
use st_operations::{CutOn, SyncOn, Test, is_cut_or_name, is_of, is_sent, is_sync};
use st_rules::{Operation, StandingKind};
use std::alloc::AllocError;

/// The operations of a server that wait for pages to be hard: syncs, and unsent cuts and names.
#[derive(Clone, Copy)]
struct WantsWrites {
    server: ServerId,
}

impl Test<Operation> for WantsWrites {
    ghost use Rattle.st_client_passes.specs.PassConditions.{wants_writes};

    ghost passes = { λ t o. wants_writes t.server o };

    fn test(&self, operation: &Operation) -> bool {
        is_of(self.server, operation)
            && (is_sync(&operation.ask) || (is_cut_or_name(&operation.ask) && !is_sent(operation)))
    }
}

/// Whether the file is demanded, has a pending sync, or has a pending unsent cut or remove and an
/// exclusive lock.
pub fn is_wanted(t: &Turn, session: &Session, ino: u32) -> bool
    ensures { result ≡ passes.is_wanted t.now session.now.session ino }
{
    let sync = SyncOn {
        server: t.server(),
        ino,
    };
    let cut = CutOn {
        server: t.server(),
        ino,
    };
    session.is_demanded(ino)
        || (t.operations().any(&sync)
            || (session.mode(ino).covers(Mode::X) && t.operations().any(&cut)))
}

/// Whether all dirty pages are submitted: the lease is in flush.
fn drains(session: &Session, now: Stamp) -> bool
    ensures { result ≡ leases.may_drain (leases.standing_of session.now.of.config session.now.session.lease now) }
{
    match session.standing(now) {
        StandingKind::Drain => true,
        _ => false,
    }
}

#[tactic(auto, unfolding(st_rules::specs::ClientPasses::is_due))]
fn is_due(t: &SessionTurn, now: Stamp, tick: bool, page: &DirtyRow<'_>) -> bool
    ensures { result ≡ passes.is_due t.now (session_of t.now) now tick page.now }
{
    if drains(t.session(), now) {
        !page.has_failed()
    } else {
        is_wanted(t.turn(), t.session(), page.ino()) && (!page.has_failed() || tick)
    }
}

/// The page, which is dirty and not being written, is written if it is known to lie.
#[tactic(auto, unfolding(st_rules::specs::ClientPasses::write_out, st_rules::specs::ClientPasses::write_out_at))]
fn write_out(t: &mut SessionTurn, now: Stamp, ino: u32, page: PageNo) -> Result<(), AllocError>
    requires lasting { lasts_here t.old.config now t.old.here ≡ true }
    requires free { pages.is_being_written t.old.here.store.commands ino page ≡ false }
    ensures { OnOk result ((d : DirtyPage) → pages.dirty_of t.old.here.store.pages ino page ≡ Some d → t.new ≡ passes.write_out t.old d) }
{
    match t.turn().mapping(ino, page) {
        None => Ok(()),
        Some(mapping) => {
            t.submit_write(now, ino, page, mapping)?;
            Ok(())
        }
    }
}

/// Whether the dirty page at a place must be written now. It isn't if no page of the place is
/// dirty.
fn is_place_due(t: &SessionTurn, now: Stamp, tick: bool, ino: u32, page: PageNo) -> bool
    ensures { result ≡ option_map_or (passes.is_writable t.now (session_of t.now) now tick) (pages.dirty_of t.now.here.store.pages ino page) false }
{
    match t.turn().dirty(ino, page) {
        None => false,
        Some(dirty) => {
            !t.turn().is_being_written(dirty.ino(), dirty.page()) && is_due(t, now, tick, &dirty)
        }
    }
}

/// The page of a place, if it is dirty and due.
fn write_page(
    t: &mut SessionTurn,
    now: Stamp,
    tick: bool,
    ino: u32,
    page: PageNo,
) -> Result<(), AllocError>
    requires lasting { lasts_here t.old.config now t.old.here ≡ true }
    ensures { OnOk result (t.new ≡ passes.write_page t.old (session_of t.old) now tick (pages.dirty_of t.old.here.store.pages ino page)) }
{
    if is_place_due(t, now, tick, ino, page) {
        write_out(t, now, ino, page)
    } else {
        Ok(())
    }
}

#[tactic(auto, unfolding(st_rules::specs::ClientPasses::write_each))]
fn write_each(
    t: &mut SessionTurn,
    now: Stamp,
    tick: bool,
    places: &[(u32, PageNo)],
) -> Result<(), AllocError>
    requires lasting { lasts_here t.old.config now t.old.here ≡ true }
    ensures { OnOk result (t.new ≡ passes.write_each (session_of t.old) now tick places.now t.old) }
{
    for place in places {
        write_page(t, now, tick, place.0, place.1)?;
    }
    Ok(())
}

/// The dirty pages, by rising file and page.
fn write_all(t: &mut SessionTurn, now: Stamp, tick: bool) -> Result<(), AllocError>
    requires lasting { lasts_here t.old.config now t.old.here ≡ true }
    ensures { OnOk result (t.new ≡ passes.writes_by t.old now tick (Some (session_of t.old))) }
{
    let places = t.turn().dirty_places()?;
    write_each(t, now, tick, places.as_slice())
}

/// Whether a file is wanted: one is demanded, or an operation waits for its pages.
fn wants(t: &Turn, session: &Session) -> bool
    ensures { result ≡ false → MayRest t.now session.now.session }
{
    let here = WantsWrites { server: t.server() };
    session.has_demands() || t.operations().any(&here)
}

/// In other phases than flush: if no file is wanted, no page is looked at.
fn write_wanted(t: &mut SessionTurn, now: Stamp, tick: bool) -> Result<(), AllocError>
    requires lasting { lasts_here t.old.config now t.old.here ≡ true }
    requires other { drains_at t.old now ≡ false }
    ensures { OnOk result (t.new ≡ passes.writes now tick t.old) }
{
    if wants(t.turn(), t.session()) {
        write_all(t, now, tick)
    } else {
        Ok(())
    }
}

/// Writes. In flush all dirty pages are looked at.
pub fn writes(t: &mut SessionTurn, now: Stamp, tick: bool) -> Result<(), AllocError>
    requires lasting { lasts_here t.old.config now t.old.here ≡ true }
    ensures { OnOk result (t.new ≡ passes.writes now tick t.old) }
{
    if drains(t.session(), now) {
        write_all(t, now, tick)
    } else {
        write_wanted(t, now, tick)
    }
}
