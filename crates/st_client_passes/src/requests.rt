// Requests to a server: the outstanding one again, or a new one.
ghost use Rattle.std.specs.Prelude.{◌≡◌, false, true, OnOk};
ghost use Rattle.st_client_association.specs.Turns.{session_of};
ghost use Rattle.st_rules.specs.ClientPasses as passes;
ghost use Rattle.st_rules.specs.ClientState as client_state;
ghost use Rattle.st_client_passes.specs.Requests.{asking_at, is_free, marked_if};

use crate::next_request::first_asking;
use crate::wants::Wanted;
use st_base::{LockRows, PageNo, Stamp};
use st_client_association::SessionTurn;
use st_messages::Body;
use st_rules::Phase;
use std::alloc::AllocError;

/// A keep-alive, from renewal on.
#[tactic(auto, unfolding(st_rules::specs::ClientPasses::keep_alive))]
fn keep_alive(t: &mut SessionTurn, now: Stamp) -> Result<(), AllocError>
    requires free { is_free t.old ≡ true }
    ensures { OnOk result (t.new ≡ passes.keep_alive t.old (session_of t.old) now) }
{
    match t.session().phase(now) {
        Phase::Renewal => t.ask(now, Body::KeepAlive, None),
        Phase::Quiesce => t.ask(now, Body::KeepAlive, None),
        Phase::Flush => t.ask(now, Body::KeepAlive, None),
        _ => Ok(()),
    }
}

/// The request of the operation at a place was sent, if it is its own.
fn mark_if(t: &mut SessionTurn, own: bool, place: usize) -> Result<(), AllocError>
    ensures { OnOk result (t.new ≡ client_state.with_operations (marked_if own place t.old.operations) t.old) }
{
    if own { t.mark_sent(place) } else { Ok(()) }
}

/// The clean pages and extents of a file that is cut are dropped.
fn cut(t: &mut SessionTurn, cut: Option<(u32, PageNo)>)
    ensures { t.new ≡ client_state.with_store (passes.cut_store cut t.old.here.store) t.old }
{
    match cut {
        None => {}
        Some((ino, page)) => t.forget_from(ino, page),
    }
}

fn file_cut(cut: Option<(u32, PageNo)>) -> Option<u32>
    ensures { result ≡ passes.file_cut cut }
{
    match cut {
        None => None,
        Some((ino, _)) => Some(ino),
    }
}

/// The request of the operation at a place.
#[tactic(auto, unfolding(st_rules::specs::ClientPasses::ask_for))]
fn ask_for(t: &mut SessionTurn, now: Stamp, place: usize, wanted: Wanted) -> Result<(), AllocError>
    requires free { is_free t.old ≡ true }
    ensures { OnOk result (t.new ≡ passes.ask_for t.old (session_of t.old) now (asking_at t.old.operations (place, wanted))) }
{
    mark_if(t, wanted.own, place)?;
    cut(t, wanted.cut);
    t.ask(now, wanted.body, file_cut(wanted.cut))
}

/// What the first operation asks that asks, or a keep-alive.
fn ask_for_or(t: &mut SessionTurn, now: Stamp) -> Result<(), AllocError>
    requires free { is_free t.old ≡ true }
    ensures { OnOk result (t.new ≡ passes.ask_for_or t.old (session_of t.old) now (passes.first_asking t.old (session_of t.old) now t.old.operations)) }
{
    match first_asking(t.turn(), t.session(), now)? {
        None => keep_alive(t, now),
        Some((place, wanted)) => ask_for(t, now, place, wanted),
    }
}

#[tactic(auto, unfolding(st_rules::specs::ClientPasses::ask_next))]
fn ask_next(t: &mut SessionTurn, now: Stamp) -> Result<(), AllocError>
    requires free { is_free t.old ≡ true }
    ensures { OnOk result (t.new ≡ passes.ask_next t.old (session_of t.old) now) }
{
    if t.session().is_serving(now) {
        ask_for_or(t, now)
    } else {
        keep_alive(t, now)
    }
}

/// A release, or whatever else is due.
fn ask_by(t: &mut SessionTurn, now: Stamp) -> Result<(), AllocError>
    requires free { is_free t.old ≡ true }
    ensures { OnOk result (t.new ≡ passes.ask_by t.old (session_of t.old) now (session_of t.old).releases) }
{
    match t.take_release() {
        None => ask_next(t, now),
        Some(release) => {
            let body = Body::Released {
                ino: release.ino,
                g: release.g,
                to: release.to,
            };
            t.ask(now, body, None)
        }
    }
}

/// All locks are reasserted, if that is due.
#[tactic(auto, unfolding(st_rules::specs::ClientPasses::ask_new, st_rules::specs::ClientPasses::reassert))]
fn ask_new(t: &mut SessionTurn, now: Stamp) -> Result<(), AllocError>
    requires free { is_free t.old ≡ true }
    ensures { OnOk result (t.new ≡ passes.ask_new t.old (session_of t.old) now) }
{
    if t.session().is_due() {
        let rows = LockRows::from_vec(t.session().all_locks()?);
        t.ask(now, Body::Reassert(rows), None)
    } else {
        ask_by(t, now)
    }
}

/// The outstanding request once more: on a tick, when it is old.
fn repeat(t: &mut SessionTurn, now: Stamp, tick: bool) -> Result<(), AllocError>
    requires waiting { is_free t.old ≡ false }
    ensures { OnOk result (t.new ≡ passes.requests_at t.old (session_of t.old) now tick (session_of t.old).requests.asked) }
{
    if tick { t.ask_again(now) } else { Ok(()) }
}

/// With one outstanding, or none.
fn requests_at(t: &mut SessionTurn, now: Stamp, tick: bool) -> Result<(), AllocError>
    ensures { OnOk result (t.new ≡ passes.requests_at t.old (session_of t.old) now tick (session_of t.old).requests.asked) }
{
    if t.session().has_asked() {
        repeat(t, now, tick)
    } else {
        ask_new(t, now)
    }
}

/// Requests, under a lease that is not condemned. With a session the client doesn't greet.
pub fn requests(t: &mut SessionTurn, now: Stamp, tick: bool) -> Result<(), AllocError>
    ensures { OnOk result (t.new ≡ passes.requests now tick (passes.greeting now tick t.old)) }
{
    if t.session().is_condemned() {
        Ok(())
    } else {
        requests_at(t, now, tick)
    }
}
