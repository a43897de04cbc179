// The disk commands of a shared file.
ghost use Rattle.std.specs.Prelude.{◌≡◌, Some, None, Ok, IsOk, IfOk, OnOk, OnErr};
ghost use Rattle.st_rules.specs.Disks as disks_of;
ghost use Rattle.st_disk.specs.Calls.{SameSize};
ghost use Rattle.st_shared.specs.Shared as rules;
ghost use Rattle.st_shared.specs.Calls.{RefusesAs};

use crate::issuers::Issuer;
use st_base::{BlockAt, ClientId, DiskId, FileId, PageNo, ServerId, Tag};
use st_disk::{DiskRefusal, Disks, Report};
use std::alloc::AllocError;

/// The disk of a shared file.
const DISK: DiskId = DiskId(1);

/// A shared file.
pub const FILE: FileId = FileId {
    server: ServerId(1),
    ino: 2,
};

/// The block of a page.
pub fn block_of(page: PageNo) -> BlockAt
    ensures { result ≡ rules.block_of page }
{
    BlockAt {
        disk: DISK,
        block: page.0,
    }
}

/// The tag of a page's block.
pub fn tag_of(page: PageNo) -> Tag
    ensures { result ≡ rules.tag_of page }
{
    Tag {
        file: FILE,
        page,
        birth: 1,
    }
}

/// Whether the command of this number was not reported.
fn is_open(disks: &Disks, n: u64) -> bool
    ensures { result ≡ rules.is_open (disks_of.command disks.now n) }
{
    match disks.standing(n) {
        None => false,
        Some(state) => state.report == Report::Open,
    }
}

/// The least unreported command of the client.
#[tactic(auto, unfolding(crate::specs::Shared::busy_above))]
pub fn busy_command(disks: &Disks, issuers: &[Issuer], client: ClientId) -> Option<u64>
    ensures { result ≡ rules.busy_above disks.now client 0 issuers.now }
{
    for i in 0..issuers.len() {
        let n = i as u64 + 1;
        if issuers[i].client == client && is_open(disks, n) {
            return Some(n);
        }
    }
    None
}

/// Why the disk refuses the effect of the command of this number, if it does. It takes no memory.
#[tactic(auto, unfolding(st_rules::specs::Disks::disks_open))]
pub fn effect_refusal(disks: &Disks, n: u64) -> Option<DiskRefusal>
    ensures { RefusesAs result (disks_of.effect disks.now n) }
{
    let Some(state) = disks.standing(n) else {
        return Some(DiskRefusal::NoCommand(n));
    };
    if state.report != Report::Open {
        return Some(DiskRefusal::Reported(n));
    }
    if state.effected {
        return Some(DiskRefusal::Twice(n));
    }
    None
}

/// Gives a command its effect, which the disk does not refuse.
pub fn give_effect(disks: &mut Disks, n: u64) -> Result<(), AllocError>
    requires { IsOk (disks_of.effect disks.old n) }
    ensures ok { OnOk result (disks_of.effect disks.old n ≡ Ok disks.new) }
    ensures err { OnErr result (disks.new ≡ disks.old) }
    ensures size { SameSize disks.old disks.new }
{
    match disks.effect(n) {
        Ok(()) => Ok(()),
        Err(_) => Err(AllocError),
    }
}
