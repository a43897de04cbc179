// When a dirty page is written.
ghost use Rattle.std.specs.Prelude.{◌≡◌, IfOk};
ghost use Rattle.std.specs.List.{flat_map};
ghost use Rattle.st_client_due.specs.ClientDue as due;
ghost use Rattle.st_client_due.specs.Spans.{from_on, if_so, until};
ghost use Rattle.st_client_moments.specs.FirstMoments.{first_readable};
ghost use Rattle.st_rules.specs.ClientPasses as passes;

use crate::spans::{before, since};
use st_base::{Mode, PageNo, Stamp};
use st_client_association::{DirtyRow, TurnView};
use st_client_session::Session;
use st_due::sooner;
use st_operations::{CutOn, SyncOn};
use std::alloc::AllocError;

/// Whether the file's dirty pages are written before flush: the file is demanded, or a sync, a cut
/// or a remove waits for its pages.
fn is_wanted(t: &TurnView<'_>, session: &Session, ino: u32) -> bool
    ensures { result ≡ passes.is_wanted t.now session.now.session ino }
{
    let sync = SyncOn {
        server: t.server(),
        ino,
    };
    let cut = CutOn {
        server: t.server(),
        ino,
    };
    session.is_demanded(ino)
        || (t.operations().any(&sync)
            || (session.mode(ino).covers(Mode::X) && t.operations().any(&cut)))
}

/// When the page is written because its file is wanted.
fn wanted_due(t: &TurnView<'_>, session: &Session, ino: u32, from: Stamp) -> Option<u64>
    ensures { result ≡ first_readable from (if_so (passes.is_wanted t.now session.now.session ino) (until (due.flush_at t.now.config session.now.session.lease))) }
{
    if is_wanted(t, session, ino) {
        before(from, session.date(), t.config().flush)
    } else {
        None
    }
}

/// When the page is written because the lease is in its flush phase.
fn flush_due(t: &TurnView<'_>, session: &Session, page: &DirtyRow<'_>, from: Stamp) -> Option<u64>
    ensures { result ≡ first_readable from (if_so (passes.is_unfailed page.now) (from_on (due.flush_at t.now.config session.now.session.lease))) }
{
    if page.has_failed() {
        None
    } else {
        since(from, session.date(), t.config().flush)
    }
}

/// When the dirty page is written, if a write of it may begin: it has a block, and is not being
/// written.
#[tactic(auto, using(crate::proofs::SpanMoments::first_joined))]
fn dirty_due(t: &TurnView<'_>, session: &Session, page: &DirtyRow<'_>, from: Stamp) -> Option<u64>
    ensures { result ≡ first_readable from (due.dirty_during t.now session.now.session page.now) }
{
    if !t.is_being_written(page.ino(), page.page()) && t.is_mapped(page.ino(), page.page()) {
        sooner(
            wanted_due(t, session, page.ino(), from),
            flush_due(t, session, page, from),
        )
    } else {
        None
    }
}

/// When the page of this place is written.
fn place_due(t: &TurnView<'_>, session: &Session, place: (u32, PageNo), from: Stamp) -> Option<u64>
    ensures { result ≡ first_readable from (due.place_during t.now session.now.session place) }
{
    match t.dirty(place.0, place.1) {
        None => None,
        Some(page) => dirty_due(t, session, &page, from),
    }
}

/// When the first page of these places is written.
fn places_due(
    t: &TurnView<'_>,
    session: &Session,
    places: &[(u32, PageNo)],
    from: Stamp,
) -> Option<u64>
    ensures { result ≡ first_readable from (flat_map (due.place_during t.now session.now.session) places.now) }
{
    let mut first = None;
    for place in places {
        first = sooner(first, place_due(t, session, *place, from));
    }
    first
}

/// When the first dirty page is written.
pub fn writes_due(
    t: &TurnView<'_>,
    session: &Session,
    from: Stamp,
) -> Result<Option<u64>, AllocError>
    ensures { IfOk result (λ o. o ≡ first_readable from (due.writes_during t.now session.now.session)) }
{
    let places = t.dirty_places()?;
    Ok(places_due(t, session, places.as_slice(), from))
}
