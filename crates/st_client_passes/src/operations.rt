// The pass over the pending operations: each is answered, or stays pending.
ghost use Rattle.std.specs.Prelude.{◌≡◌, ◌+◌, ◌<◌, ◌^◌, [], true, if◌then◌else◌, length, remove, slice_get, IfOk, IfSome, OnOk};
ghost use Rattle.std.specs.List.{list_any};
ghost use Rattle.st_client_association.specs.Turns.{has_session, session_of};
ghost use Rattle.st_operations.specs.PendingOperations.{is_fit};
ghost use Rattle.st_rules.specs.ClientPasses as passes;
ghost use Rattle.st_rules.specs.ClientState as client_state;
ghost use Rattle.st_rules.specs.ClientState.{is_of};
ghost use Rattle.st_client_passes.specs.PassConditions.{is_serving_at, put_back};

use crate::page_changes::{answer, patch, write};
use crate::page_reads::read;
use st_base::{ServerId, Stamp};
use st_client_association::{SessionTurn, Turn, is_open};
use st_client_session::Session;
use st_messages::{AppAnswer, Ask};
use st_operations::{OfServer, Operations, file_of, is_of, is_sent};
use st_rules::Operation;
use std::alloc::AllocError;

/// Whether the file, if there is one, is neither demanded nor busy by these operations.
pub fn is_open_file(
    all: &Operations,
    server: ServerId,
    session: &Session,
    file: Option<u32>,
) -> bool
    ensures { result ≡ client_state.is_open_file all.now server session.now.session file }
{
    match file {
        None => true,
        Some(ino) => is_open(all, server, session, ino),
    }
}

/// An operation on a file that is neither demanded nor busy is served; in quiesce or later one that
/// was not sent is answered so.
#[tactic(auto, using(crate::proofs::Asks::patch_range), unfolding(st_rules::specs::ClientPasses::serve_open, st_rules::specs::ClientPasses::operate_under, st_rules::specs::ClientPasses::serve, st_rules::specs::ClientPasses::quiesce))]
fn operate_under(
    all: &Operations,
    t: &mut SessionTurn,
    now: Stamp,
    o: &Operation,
) -> Result<bool, AllocError>
    requires fit { is_fit o.now ≡ true }
    ensures left { OnOk result (t.new.operations ≡ t.old.operations) }
    ensures held { has_session t.old ≡ true }
    ensures stays { IfOk result (λ stays. put_back o.now stays t.new ≡ passes.operate_under all.now t.old (session_of t.old) now o.now) }
{
    if t.session().is_serving(now) {
        if !is_open_file(all, t.turn().server(), t.session(), file_of(&o.ask)) {
            return Ok(true);
        }
        match &o.ask {
            Ask::Write(file, page, bytes) => write(t, now, o, *file, *page, bytes),
            Ask::Patch(file, page, at, bytes) => patch(t, now, o, *file, *page, *at, bytes),
            Ask::Read(file, page) => read(t, now, o, *file, *page),
            _ => Ok(true),
        }
    } else if is_sent(o) {
        Ok(true)
    } else {
        answer(t, o, AppAnswer::Quiesced)
    }
}

// The prover needs this step by itself: the next one goes by the kind of the ask.
fn operate_by(
    all: &Operations,
    t: &mut SessionTurn,
    now: Stamp,
    o: &Operation,
) -> Result<bool, AllocError>
    requires fit { is_fit o.now ≡ true }
    ensures left { OnOk result (t.new.operations ≡ t.old.operations) }
    ensures stays { IfOk result (λ stays. put_back o.now stays t.new ≡ passes.operate_by all.now t.old now o.now t.old.here.session) }
{
    operate_under(all, t, now, o)
}

/// Whether the operation stays pending, after what is done for it. A sync is hard if its file has
/// no dirty page and no outstanding write.
#[tactic(auto, unfolding(st_rules::specs::ClientPasses::operate, st_rules::specs::ClientPasses::operate_on, st_rules::specs::ClientPasses::sync))]
fn stays(
    all: &Operations,
    t: &mut SessionTurn,
    now: Stamp,
    o: &Operation,
) -> Result<bool, AllocError>
    requires fit { is_fit o.now ≡ true }
    ensures left { OnOk result (t.new.operations ≡ t.old.operations) }
    ensures stays { IfOk result (λ stays. put_back o.now stays t.new ≡ passes.operate all.now t.old now o.now) }
{
    if !is_of(t.turn().server(), o) {
        return Ok(true);
    }
    match &o.ask {
        Ask::Sync(file) => {
            if t.turn().is_hard(file.ino) {
                answer(t, o, AppAnswer::Hard)
            } else {
                Ok(true)
            }
        }
        _ => operate_by(all, t, now, o),
    }
}

/// Whether the operation at a place stays pending, after what is done for it.
fn stays_at(
    sent: &Operations,
    t: &mut SessionTurn,
    now: Stamp,
    all: &Operations,
    place: usize,
) -> Result<bool, AllocError>
    ensures left { OnOk result (t.new.operations ≡ t.old.operations) }
    ensures stays { IfOk result (λ stays. IfSome (slice_get all.now place) (λ o. put_back o stays t.new ≡ passes.operate sent.now t.old now o)) }
{
    match all.get(place) {
        None => Ok(true),
        Some(o) => stays(sent, t, now, o),
    }
}

/// The operation at a place stays there or is no longer pending. Returns the place of the next one.
fn settle(all: &mut Operations, place: usize, stays: bool) -> usize
    requires within { place < length all.old }
    requires small { place < 2 ^ 63 }
    ensures left { all.new ≡ (if stays then all.old else remove all.old place) }
    ensures next { result ≡ (if stays then place + 1 else place) }
{
    if stays {
        place + 1
    } else {
        all.remove(place);
        place
    }
}

/// The operations go through the pass, in order; each stays in its place, or is no longer pending.
fn operate_each(
    sent: &Operations,
    t: &mut SessionTurn,
    now: Stamp,
    all: &mut Operations,
) -> Result<(), AllocError>
    requires { t.old.operations ≡ [] }
    ensures { OnOk result (client_state.with_operations all.new t.new ≡ passes.operate_each sent.now now all.old t.old) }
{
    let mut place = 0;
    while place < all.len() {
        let stays = stays_at(sent, t, now, all, place)?;
        place = settle(all, place, stays);
    }
    Ok(())
}

/// All pending operations go through the pass; those of other servers stay.
#[tactic(auto, unfolding(st_rules::specs::ClientPasses::operations))]
fn operate_all(t: &mut SessionTurn, now: Stamp) -> Result<(), AllocError>
    ensures { OnOk result (t.new ≡ passes.operations now t.old) }
{
    let sent = t.turn().operations().copy_sent()?;
    let mut all = t.take_operations();
    operate_each(&sent, t, now, &mut all)?;
    t.set_operations(all);
    Ok(())
}

/// Whether an operation of this server is pending.
fn has_operations(t: &Turn) -> bool
    ensures { result ≡ list_any (is_of t.now.here.server) t.now.operations }
{
    let here = OfServer { server: t.server() };
    t.operations().any(&here)
}

/// Operations, with a session. If none of this server is pending, all stay.
pub fn operations(t: &mut SessionTurn, now: Stamp) -> Result<(), AllocError>
    ensures { OnOk result (t.new ≡ passes.operations now t.old) }
{
    if has_operations(t.turn()) {
        operate_all(t, now)
    } else {
        Ok(())
    }
}
