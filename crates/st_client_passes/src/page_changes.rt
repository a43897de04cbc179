// Writes and patches of pages.
ghost use Rattle.std.specs.Prelude.{◌≡◌, ◌+◌, ◌≤◌, true, IfOk, OnOk, length};
ghost use Rattle.st_client_association.specs.Turns.{session_of};
ghost use Rattle.st_rules.specs.ClientPages as pages;
ghost use Rattle.st_rules.specs.ClientPasses as passes;
ghost use Rattle.st_rules.specs.ClientState as client_state;
ghost use Rattle.st_rules.specs.FlatLog.{overlay};
ghost use Rattle.st_client_passes.specs.PassConditions.{is_serving_at, put_back};

use crate::page_reads::fetch;
use st_base::{FileId, Mode, PageBytes, PageNo, Stamp};
use st_client_association::{SessionTurn, Turn};
use st_client_session::Session;
use st_messages::{AppAnswer, Note, PatchBytes};
use st_rules::Operation;
use std::alloc::{AllocError, Global};

/// Answers the operation, which is no longer pending.
pub fn answer(t: &mut SessionTurn, o: &Operation, a: AppAnswer) -> Result<bool, AllocError>
    ensures left { OnOk result (t.new.operations ≡ t.old.operations) }
    ensures stays { IfOk result (λ stays. put_back o.now stays t.new ≡ passes.answer o.now a t.old) }
{
    t.answer(o.op, a)?;
    Ok(false)
}

/// A page is changed to these bytes and noted, or too many others are dirty.
#[tactic(auto, unfolding(st_rules::specs::ClientPasses::change_page, st_rules::specs::ClientPasses::change_by, st_rules::specs::ClientPasses::change))]
fn change_page(
    t: &mut SessionTurn,
    now: Stamp,
    o: &Operation,
    file: FileId,
    page: PageNo,
    bytes: &PageBytes,
    note: Note,
) -> Result<bool, AllocError>
    requires serving { is_serving_at t.old now ≡ true }
    ensures left { OnOk result (t.new.operations ≡ t.old.operations) }
    ensures stays { IfOk result (λ stays. put_back o.now stays t.new ≡ passes.change_page t.old o.now file page bytes.now note) }
{
    if t.change_page(now, file.ino, page, bytes, note)? {
        answer(t, o, AppAnswer::Written)
    } else {
        answer(t, o, AppAnswer::DirtyFull)
    }
}

/// Whether the file is held in this mode.
pub fn holds(session: &Session, mode: Mode, file: FileId) -> bool
    ensures { result ≡ passes.holds session.now.session mode file }
{
    session.mode(file.ino).covers(mode)
}

/// Whether the page is mapped, and may be changed.
pub fn may_write(t: &Turn, session: &Session, file: FileId, page: PageNo) -> bool
    ensures { result ≡ passes.may_write t.now session.now.session file page }
{
    holds(session, Mode::X, file) && t.mapping(file.ino, page).is_some()
}

#[tactic(auto, unfolding(st_rules::specs::ClientPasses::write))]
pub fn write(
    t: &mut SessionTurn,
    now: Stamp,
    o: &Operation,
    file: FileId,
    page: PageNo,
    bytes: &PageBytes,
) -> Result<bool, AllocError>
    requires serving { is_serving_at t.old now ≡ true }
    ensures left { OnOk result (t.new.operations ≡ t.old.operations) }
    ensures stays { IfOk result (λ stays. put_back o.now stays t.new ≡ passes.write t.old (session_of t.old) o.now file page bytes.now) }
{
    if may_write(t.turn(), t.session(), file, page) {
        let note = Note::Accepted {
            file,
            page,
            bytes: bytes.copy()?,
        };
        change_page(t, now, o, file, page, bytes, note)
    } else {
        Ok(true)
    }
}

/// The page with these bytes in place of its own from index `at` on.
#[tactic(auto, unfolding(st_rules::specs::FlatLog::overlay))]
fn patched(
    alloc: Global,
    old: &PageBytes,
    at: u16,
    bytes: &PatchBytes,
) -> Result<PageBytes, AllocError>
    requires { at + length bytes.now ≤ 4096 }
    ensures { IfOk result (λ page. page ≡ overlay at bytes.now old.now) }
{
    let mut whole = [0; 4096];
    old.write_to(&mut whole);
    let bytes = bytes.as_slice();
    let at = at as usize;
    whole[at..at + bytes.len()].copy_from_slice(bytes);
    PageBytes::from_slice(alloc, &whole)
}

/// The page is changed to the patched one.
#[tactic(auto, unfolding(st_rules::specs::ClientPasses::patch_bytes))]
fn patch_bytes(
    t: &mut SessionTurn,
    now: Stamp,
    o: &Operation,
    file: FileId,
    page: PageNo,
    at: u16,
    bytes: &PatchBytes,
    old: &PageBytes,
) -> Result<bool, AllocError>
    requires serving { is_serving_at t.old now ≡ true }
    requires range { at + length bytes.now ≤ 4096 }
    ensures left { OnOk result (t.new.operations ≡ t.old.operations) }
    ensures stays { IfOk result (λ stays. put_back o.now stays t.new ≡ passes.patch_bytes t.old o.now file page at bytes.now old.now) }
{
    let whole = patched(t.turn().alloc(), old, at, bytes)?;
    let note = Note::Patched {
        file,
        page,
        at,
        bytes: bytes.copy()?,
    };
    change_page(t, now, o, file, page, &whole, note)
}

/// The page's bytes are cached, or are fetched.
#[tactic(auto, unfolding(st_rules::specs::ClientPasses::patch, st_rules::specs::ClientPasses::patch_at))]
pub fn patch(
    t: &mut SessionTurn,
    now: Stamp,
    o: &Operation,
    file: FileId,
    page: PageNo,
    at: u16,
    bytes: &PatchBytes,
) -> Result<bool, AllocError>
    requires serving { is_serving_at t.old now ≡ true }
    requires range { at + length bytes.now ≤ 4096 }
    ensures left { OnOk result (t.new.operations ≡ t.old.operations) }
    ensures stays { IfOk result (λ stays. put_back o.now stays t.new ≡ passes.patch t.old (session_of t.old) o.now file page at bytes.now) }
{
    if may_write(t.turn(), t.session(), file, page) {
        match t.base(now, file.ino, page)? {
            None => fetch(t, now, o, file, page),
            Some(old) => patch_bytes(t, now, o, file, page, at, bytes, &old),
        }
    } else {
        Ok(true)
    }
}
