// When a pending operation is answered, or a page is fetched for it.
ghost use Rattle.std.specs.Prelude.{◌≡◌, Some, not, slice_get};
ghost use Rattle.std.specs.List.{flat_map};
ghost use Rattle.std.specs.Option.{option_to_list};
ghost use Rattle.st_client_due.specs.ClientDue as due;
ghost use Rattle.st_client_due.specs.Spans.{from_on, if_so, until};
ghost use Rattle.st_client_moments.specs.FirstMoments.{first_readable};
ghost use Rattle.st_rules.specs.ClientPasses as passes;
ghost use Rattle.st_rules.specs.ClientState.{is_sent};

use crate::spans::{at_once, before, since};
use st_base::{FileId, Mode, PageNo, Stamp};
use st_client_association::TurnView;
use st_client_passes::{holds, is_open_file};
use st_client_session::Session;
use st_due::sooner;
use st_messages::Ask;
use st_operations::{file_of, is_of, is_sent};
use st_rules::{KnownExtent, Operation};

/// Whether the page is mapped, and may be changed.
fn may_write(t: &TurnView<'_>, session: &Session, file: FileId, page: PageNo) -> bool
    ensures { result ≡ passes.may_write t.now session.now.session file page }
{
    holds(session, Mode::X, file) && t.is_mapped(file.ino, page)
}

/// Whether the page is patched or fetched.
fn is_patched(t: &TurnView<'_>, session: &Session, file: FileId, page: PageNo) -> bool
    ensures { result ≡ due.is_patched t.now session.now.session file page }
{
    may_write(t, session, file, page)
        && (t.is_cached(file.ino, page)
            || (t.is_mapped(file.ino, page) && !t.is_being_read(file.ino, page)))
}

/// Whether a page of which this is known is read as zeros, or fetched.
fn is_found(t: &TurnView<'_>, file: FileId, page: PageNo, known: Option<KnownExtent>) -> bool
    ensures { result ≡ due.is_found t.now file page known }
{
    match known {
        None => false,
        Some(extent) => !(extent.mapping.is_some() && t.is_being_read(file.ino, page)),
    }
}

/// Whether the page is read or fetched.
fn is_read(t: &TurnView<'_>, session: &Session, file: FileId, page: PageNo) -> bool
    ensures { result ≡ due.is_read t.now session.now.session file page }
{
    holds(session, Mode::S, file)
        && (t.is_cached(file.ino, page) || is_found(t, file, page, t.known(file.ino, page)))
}

/// Whether an ask is served while the lease permits it.
fn is_served(t: &TurnView<'_>, session: &Session, ask: &Ask) -> bool
    ensures { result ≡ due.is_served t.now.operations t.now session.now.session ask.now }
{
    if !is_open_file(t.operations(), t.server(), session, file_of(ask)) {
        return false;
    }
    match ask {
        Ask::Write(file, page, _) => may_write(t, session, *file, *page),
        Ask::Patch(file, page, _, _) => is_patched(t, session, *file, *page),
        Ask::Read(file, page) => is_read(t, session, *file, *page),
        _ => false,
    }
}

/// When the operation is served: before quiesce.
#[tactic(auto, using(crate::proofs::SpanMoments::min_sum, crate::proofs::SpanMoments::never_before))]
fn served_due(t: &TurnView<'_>, session: &Session, o: &Operation, from: Stamp) -> Option<u64>
    ensures { result ≡ first_readable from (if_so (due.is_served t.now.operations t.now session.now.session o.now.ask) (until (due.quiesce_at t.now.config session.now.session.lease))) }
{
    if !is_served(t, session, &o.ask) {
        return None;
    }
    if session.is_condemned() {
        return None;
    }
    let config = t.config();
    before(from, session.date(), config.quiesce.min(config.flush))
}

/// When the operation is answered because the lease is in quiesce.
#[tactic(auto, using(crate::proofs::SpanMoments::min_sum))]
fn quiesced_due(t: &TurnView<'_>, session: &Session, o: &Operation, from: Stamp) -> Option<u64>
    ensures { result ≡ first_readable from (if_so (not (is_sent o.now)) (from_on (due.quiesce_at t.now.config session.now.session.lease))) }
{
    if is_sent(o) {
        return None;
    }
    if session.is_condemned() {
        return at_once(from);
    }
    let config = t.config();
    since(from, session.date(), config.quiesce.min(config.flush))
}

/// When the operation is served or answered with this session.
#[tactic(auto, using(crate::proofs::SpanMoments::first_joined))]
fn due_with(t: &TurnView<'_>, session: &Session, o: &Operation, from: Stamp) -> Option<u64>
    ensures { result ≡ first_readable from (due.served_during t.now.operations t.now o.now (Some session.now.session)) }
{
    sooner(
        served_due(t, session, o, from),
        quiesced_due(t, session, o, from),
    )
}

/// When the operation is answered, or a page is fetched for it, at this server.
fn operation_due(t: &TurnView<'_>, o: &Operation, from: Stamp) -> Option<u64>
    ensures { result ≡ first_readable from (due.operation_during t.now.operations t.now o.now) }
{
    if !is_of(t.server(), o) {
        return None;
    }
    match &o.ask {
        Ask::Sync(file) => {
            if t.is_hard(file.ino) {
                at_once(from)
            } else {
                None
            }
        }
        _ => match t.session() {
            None => None,
            Some(session) => due_with(t, session, o, from),
        },
    }
}

/// When the operation at a place, if there is one, is answered, or a page is fetched for it.
#[tactic(auto, using(crate::proofs::SpanMoments::first_alone))]
fn due_at(t: &TurnView<'_>, place: usize, from: Stamp) -> Option<u64>
    ensures { result ≡ first_readable from (flat_map (due.operation_during t.now.operations t.now) (option_to_list (slice_get t.now.operations place))) }
{
    match t.operations().get(place) {
        None => None,
        Some(o) => operation_due(t, o, from),
    }
}

/// When the first operation is answered, or the first page is fetched for one.
pub fn operations_due(t: &TurnView<'_>, from: Stamp) -> Option<u64>
    ensures { result ≡ first_readable from (due.operations_during t.now) }
{
    let mut first = None;
    for i in 0..t.operations().len() {
        first = sooner(first, due_at(t, i, from));
    }
    first
}
