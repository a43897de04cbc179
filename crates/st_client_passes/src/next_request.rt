// What the pending operations ask of a server: the first that asks is sent.
ghost use Rattle.std.specs.Prelude.{◌≡◌, IfOk, slice_get};
ghost use Rattle.std.specs.Option.{option_map};
ghost use Rattle.st_rules.specs.ClientLocks as locks;
ghost use Rattle.st_rules.specs.ClientPasses as passes;
ghost use Rattle.st_client_passes.specs.Requests.{asked_at, asking_at};

use crate::greetings::has_passed;
use crate::operations::is_open_file;
use crate::wants::{Wanted, on_behalf, wanted_cut, wanted_itself};
use st_base::{GrantNo, Mode, NameAsk, PageNo, Stamp};
use st_client_association::Turn;
use st_client_session::Session;
use st_messages::{Ask, Body, NameOp};
use st_operations::{file_of, is_of, is_sent};
use st_rules::{LockWait, Operation};
use std::alloc::AllocError;

/// The mode that an operation needs: a read shared, and all else exclusive.
pub fn need(ask: &Ask) -> Mode
    ensures { result ≡ passes.need ask.now }
{
    match ask {
        Ask::Read(_, _) => Mode::S,
        _ => Mode::X,
    }
}

/// Whether a lock must be asked for: no wait is known, or its mode is lower, or it was reported
/// long ago.
fn is_wait_old(t: &Turn, now: Stamp, mode: Mode, wait: Option<LockWait>) -> bool
    ensures { result ≡ passes.is_wait_old t.now.config now mode wait }
{
    match wait {
        None => true,
        Some(wait) => !wait.mode.covers(mode) || has_passed(t.retry(), wait.at, now),
    }
}

#[tactic(auto, unfolding(st_rules::specs::ClientPasses::want_lock))]
fn want_lock(t: &Turn, session: &Session, now: Stamp, ino: u32, mode: Mode) -> Option<Wanted>
    ensures { result ≡ passes.want_lock t.now session.now.session now ino mode }
{
    if is_wait_old(t, now, mode, session.wait_of(ino)) {
        on_behalf(Body::Acquire { ino, mode })
    } else {
        None
    }
}

#[tactic(auto, unfolding(st_rules::specs::ClientPasses::want_block))]
fn want_block(t: &Turn, ino: u32, g: GrantNo, page: PageNo) -> Option<Wanted>
    ensures { result ≡ passes.want_block t.now ino g page }
{
    if t.mapping(ino, page).is_some() {
        None
    } else {
        on_behalf(Body::Allocate {
            ino,
            g,
            page,
            count: 1,
        })
    }
}

#[tactic(auto, unfolding(st_rules::specs::ClientPasses::want_cut))]
fn want_cut(t: &Turn, ino: u32, body: Body, page: PageNo) -> Option<Wanted>
    ensures { result ≡ passes.want_cut t.now ino body page }
{
    if t.is_idle(ino) {
        wanted_cut(body, ino, page)
    } else {
        None
    }
}

/// An ask for a name, as it is sent; a remove names the grant of the file.
fn name_op(ask: &NameAsk, g: GrantNo) -> Result<NameOp, AllocError>
    ensures { IfOk result (λ op. op ≡ passes.name_op ask.now g) }
{
    match ask {
        NameAsk::Lookup { dir, name } => Ok(NameOp::Lookup {
            dir: *dir,
            name: name.copy()?,
        }),
        NameAsk::Create { dir, name } => Ok(NameOp::Create {
            dir: *dir,
            name: name.copy()?,
        }),
        NameAsk::Mkdir { dir, name } => Ok(NameOp::Mkdir {
            dir: *dir,
            name: name.copy()?,
        }),
        NameAsk::Remove { dir, name, ino: _ } => Ok(NameOp::Remove {
            dir: *dir,
            name: name.copy()?,
            g,
        }),
        NameAsk::Rename {
            dir,
            name,
            dir2,
            name2,
        } => Ok(NameOp::Rename {
            dir: *dir,
            name: name.copy()?,
            dir2: *dir2,
            name2: name2.copy()?,
        }),
        NameAsk::List { dir, after } => Ok(NameOp::List {
            dir: *dir,
            after: after.copy()?,
        }),
    }
}

/// What an ask with the lock that it needs asks.
#[tactic(auto, unfolding(st_rules::specs::ClientPasses::want_held, st_rules::specs::ClientPasses::want_map))]
pub fn want_held(t: &Turn, ask: &Ask, ino: u32, g: GrantNo) -> Result<Option<Wanted>, AllocError>
    ensures { IfOk result (λ w. w ≡ passes.want_held t.now ask.now ino g) }
{
    match ask {
        Ask::Read(_, page) => {
            if t.is_cached(ino, *page) || t.known(ino, *page).is_some() {
                Ok(None)
            } else {
                Ok(on_behalf(Body::Map {
                    ino,
                    g,
                    page: *page,
                }))
            }
        }
        Ask::Write(_, page, _) => Ok(want_block(t, ino, g, *page)),
        Ask::Patch(_, page, _, _) => Ok(want_block(t, ino, g, *page)),
        Ask::Cut(_, page) => Ok(want_cut(
            t,
            ino,
            Body::Cut {
                ino,
                g,
                from: *page,
            },
            *page,
        )),
        Ask::Name(_, name) => Ok(want_cut(t, ino, Body::Name(name_op(name, g)?), PageNo(0))),
        Ask::Sync(_) => Ok(None),
    }
}

#[tactic(auto, unfolding(st_rules::specs::ClientPasses::want_on, st_rules::specs::ClientPasses::want_by, st_rules::specs::ClientPasses::want_under))]
fn want_on(
    t: &Turn,
    session: &Session,
    now: Stamp,
    ask: &Ask,
    ino: u32,
) -> Result<Option<Wanted>, AllocError>
    ensures { IfOk result (λ w. w ≡ passes.want_on t.now session.now.session now ask.now ino) }
{
    match session.lock(ino) {
        None => Ok(want_lock(t, session, now, ino, need(ask))),
        Some(lock) => {
            if lock.mode.covers(need(ask)) {
                want_held(t, ask, ino, lock.g)
            } else {
                Ok(want_lock(t, session, now, ino, need(ask)))
            }
        }
    }
}

/// An ask for a name that doesn't remove a file.
#[tactic(auto, unfolding(st_rules::specs::ClientPasses::want_name))]
pub fn want_name(ask: &Ask) -> Result<Option<Wanted>, AllocError>
    ensures { IfOk result (λ w. w ≡ passes.want_name ask.now) }
{
    match ask {
        Ask::Name(_, name) => Ok(wanted_itself(Body::Name(name_op(name, GrantNo(0))?))),
        _ => Ok(None),
    }
}

/// Whether the operation is of this server, was not sent, and is on a file that is neither demanded
/// nor busy, or on none.
pub fn may_ask(t: &Turn, session: &Session, o: &Operation) -> bool
    ensures { result ≡ passes.may_ask t.now session.now.session o.now }
{
    let server = t.server();
    is_of(server, o)
        && (!is_sent(o) && is_open_file(t.operations(), server, session, file_of(&o.ask)))
}

#[tactic(auto, unfolding(st_rules::specs::ClientPasses::asked_by, st_rules::specs::ClientPasses::want, st_rules::specs::ClientPasses::want_at))]
fn asked_by(
    t: &Turn,
    session: &Session,
    now: Stamp,
    o: &Operation,
) -> Result<Option<Wanted>, AllocError>
    ensures { IfOk result (λ w. w ≡ passes.asked_by t.now session.now.session now o.now) }
{
    if !may_ask(t, session, o) {
        return Ok(None);
    }
    match &o.ask {
        Ask::Sync(_) => Ok(None),
        ask => match file_of(ask) {
            None => want_name(ask),
            Some(ino) => want_on(t, session, now, ask, ino),
        },
    }
}

/// What the operation at a place asks.
fn asked_at(
    t: &Turn,
    session: &Session,
    now: Stamp,
    place: usize,
) -> Result<Option<Wanted>, AllocError>
    ensures { IfOk result (λ w. w ≡ asked_at t.now session.now.session now (slice_get t.now.operations place)) }
{
    match t.operations().get(place) {
        None => Ok(None),
        Some(o) => asked_by(t, session, now, o),
    }
}

/// The place of the first operation that asks, and what it asks.
pub fn first_asking(
    t: &Turn,
    session: &Session,
    now: Stamp,
) -> Result<Option<(usize, Wanted)>, AllocError>
    ensures { IfOk result (λ found. option_map (asking_at t.now.operations) found ≡ passes.first_asking t.now session.now.session now t.now.operations) }
{
    for i in 0..t.operations().len() {
        match asked_at(t, session, now, i)? {
            Some(wanted) => return Ok(Some((i, wanted))),
            None => {}
        }
    }
    Ok(None)
}
