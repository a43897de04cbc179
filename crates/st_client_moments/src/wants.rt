// When an operation has something to ask.
ghost use Rattle.std.specs.Prelude.{◌≡◌, is_some, slice_get};
ghost use Rattle.std.specs.List.{flat_map};
ghost use Rattle.std.specs.Option.{option_to_list};
ghost use Rattle.st_client_due.specs.ClientDue as due;
ghost use Rattle.st_client_due.specs.Spans.{from_on, if_so};
ghost use Rattle.st_client_moments.specs.FirstMoments.{first_readable};
ghost use Rattle.st_rules.specs.ClientLocks as locks;
ghost use Rattle.st_rules.specs.ClientPasses as passes;

use crate::spans::{at_once, since};
use st_base::{GrantNo, Mode, Stamp};
use st_client_association::TurnView;
use st_client_passes::{is_open_file, need};
use st_client_session::Session;
use st_due::sooner;
use st_messages::Ask;
use st_operations::{file_of, is_of, is_sent};
use st_rules::Operation;

/// When the lock on the file is asked for.
fn lock_due(t: &TurnView<'_>, session: &Session, ino: u32, mode: Mode, from: Stamp) -> Option<u64>
    ensures { result ≡ first_readable from (due.lock_during t.now session.now.session ino mode) }
{
    match session.wait_of(ino) {
        None => at_once(from),
        Some(wait) => {
            if wait.mode.covers(mode) {
                since(from, wait.at, t.config().retry)
            } else {
                at_once(from)
            }
        }
    }
}

/// Whether an ask with the lock that it needs has something to ask.
#[tactic(auto, using(crate::proofs::SomethingToAsk::map_wanted, crate::proofs::SomethingToAsk::block_wanted, crate::proofs::SomethingToAsk::cut_wanted), unfolding(st_rules::specs::ClientPasses::want_held))]
fn asks_held(t: &TurnView<'_>, ask: &Ask, ino: u32, g: GrantNo) -> bool
    ensures { result ≡ is_some (passes.want_held t.now ask.now ino g) }
{
    match ask {
        Ask::Read(_, page) => !(t.is_cached(ino, *page) || t.known(ino, *page).is_some()),
        Ask::Write(_, page, _) => !t.is_mapped(ino, *page),
        Ask::Patch(_, page, _, _) => !t.is_mapped(ino, *page),
        Ask::Cut(_, _) => t.is_idle(ino),
        Ask::Name(_, _) => t.is_idle(ino),
        Ask::Sync(_) => false,
    }
}

/// When an ask on a file asks, with a lock or without.
fn due_on(t: &TurnView<'_>, session: &Session, ask: &Ask, ino: u32, from: Stamp) -> Option<u64>
    ensures { result ≡ first_readable from (due.wanted_by t.now session.now.session ask.now ino (locks.lock_of session.now.session.locks ino)) }
{
    match session.lock(ino) {
        None => lock_due(t, session, ino, need(ask), from),
        Some(lock) => {
            if !lock.mode.covers(need(ask)) {
                lock_due(t, session, ino, need(ask), from)
            } else if asks_held(t, ask, ino, lock.g) {
                at_once(from)
            } else {
                None
            }
        }
    }
}

/// When an ask on no file asks: it is for a name.
#[tactic(auto, unfolding(st_rules::specs::ClientPasses::want_name))]
fn name_due(ask: &Ask, from: Stamp) -> Option<u64>
    ensures { result ≡ first_readable from (if_so (is_some (passes.want_name ask.now)) (from_on 0)) }
{
    match ask {
        Ask::Name(_, _) => at_once(from),
        _ => None,
    }
}

/// When an ask has something to ask.
fn ask_due(t: &TurnView<'_>, session: &Session, ask: &Ask, from: Stamp) -> Option<u64>
    ensures { result ≡ first_readable from (due.wanted_during t.now session.now.session ask.now) }
{
    match ask {
        Ask::Sync(_) => None,
        _ => match file_of(ask) {
            None => name_due(ask, from),
            Some(ino) => due_on(t, session, ask, ino, from),
        },
    }
}

/// When the operation has something to ask: it is of this server, was not sent, and is on a file
/// that is neither demanded nor busy, or on none.
fn operation_due(t: &TurnView<'_>, session: &Session, o: &Operation, from: Stamp) -> Option<u64>
    ensures { result ≡ first_readable from (due.asked_during t.now session.now.session o.now) }
{
    let server = t.server();
    if is_of(server, o)
        && (!is_sent(o) && is_open_file(t.operations(), server, session, file_of(&o.ask)))
    {
        ask_due(t, session, &o.ask, from)
    } else {
        None
    }
}

/// When the operation at a place, if there is one, has something to ask.
#[tactic(auto, using(crate::proofs::SpanMoments::first_alone))]
fn due_at(t: &TurnView<'_>, session: &Session, place: usize, from: Stamp) -> Option<u64>
    ensures { result ≡ first_readable from (flat_map (due.asked_during t.now session.now.session) (option_to_list (slice_get t.now.operations place))) }
{
    match t.operations().get(place) {
        None => None,
        Some(o) => operation_due(t, session, o, from),
    }
}

/// When the first operation has something to ask.
pub fn asks_due(t: &TurnView<'_>, session: &Session, from: Stamp) -> Option<u64>
    ensures { result ≡ first_readable from (flat_map (due.asked_during t.now session.now.session) t.now.operations) }
{
    let mut first = None;
    for i in 0..t.operations().len() {
        first = sooner(first, due_at(t, session, i, from));
    }
    first
}
