// Reads of pages, and what they fetch from the disks.
ghost use Rattle.std.specs.Prelude.{◌≡◌, true, None, IfOk, OnOk};
ghost use Rattle.st_client_association.specs.Turns.{session_of};
ghost use Rattle.st_rules.specs.ClientPages as pages;
ghost use Rattle.st_rules.specs.ClientPasses as passes;
ghost use Rattle.st_client_passes.specs.PassConditions.{is_serving_at, put_back};

use crate::page_changes::{answer, holds};
use st_base::{FileId, Mode, PageBytes, PageNo, Stamp};
use st_client_association::SessionTurn;
use st_messages::AppAnswer;
use st_rules::{KnownExtent, Operation};
use std::alloc::AllocError;

/// A page that is mapped and not cached is read from its disk, unless that is under way. The
/// operation stays pending.
#[tactic(auto, unfolding(st_rules::specs::ClientPasses::fetch, st_rules::specs::ClientPasses::fetch_at, st_rules::specs::ClientPasses::fetch_mapped, st_rules::specs::ClientPasses::submit_read, st_rules::specs::ClientPasses::submit_command))]
pub fn fetch(
    t: &mut SessionTurn,
    now: Stamp,
    o: &Operation,
    file: FileId,
    page: PageNo,
) -> Result<bool, AllocError>
    requires serving { is_serving_at t.old now ≡ true }
    requires missing { pages.cached t.old.here.store.pages file.ino page ≡ None }
    ensures left { OnOk result (t.new.operations ≡ t.old.operations) }
    ensures stays { IfOk result (λ stays. put_back o.now stays t.new ≡ passes.fetch t.old o.now file page) }
{
    match t.turn().mapping(file.ino, page) {
        None => Ok(true),
        Some(mapping) => {
            if t.turn().is_being_read(file.ino, page) {
                Ok(true)
            } else {
                t.submit_read(now, file.ino, page, mapping)?;
                Ok(true)
            }
        }
    }
}

/// A read of a page that the file's lock covers: of its bytes if it is dirty or clean, of zeros if
/// it is known as unmapped. A page that is known as mapped is fetched. The operation stays pending
/// while the file isn't held, or the page isn't cached.
#[tactic(auto, unfolding(st_rules::specs::ClientPasses::read, st_rules::specs::ClientPasses::read_at, st_rules::specs::ClientPasses::read_cached, st_rules::specs::ClientPasses::read_uncached, st_rules::specs::ClientPasses::read_known))]
pub fn read(
    t: &mut SessionTurn,
    now: Stamp,
    o: &Operation,
    file: FileId,
    page: PageNo,
) -> Result<bool, AllocError>
    requires serving { is_serving_at t.old now ≡ true }
    ensures left { OnOk result (t.new.operations ≡ t.old.operations) }
    ensures stays { IfOk result (λ stays. put_back o.now stays t.new ≡ passes.read t.old (session_of t.old) o.now file page) }
{
    if !holds(t.session(), Mode::S, file) {
        return Ok(true);
    }
    match t.read(now, file.ino, page)? {
        Some(bytes) => answer(t, o, AppAnswer::Read(bytes)),
        None => match t.turn().known(file.ino, page) {
            None => Ok(true),
            Some(KnownExtent { mapping: None, .. }) => {
                answer(t, o, AppAnswer::Read(PageBytes::filled(0)))
            }
            Some(
                KnownExtent {
                    mapping: Some(_),
                    ..
                },
            ) => fetch(t, now, o, file, page),
        },
    }
}
