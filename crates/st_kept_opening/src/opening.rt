// A server that is opened on the bytes of its journal's file.
ghost use Rattle.std.specs.Prelude.{◌≡◌, ◌≤◌, ◌^◌, IfErr, IfOk, IsOk};
ghost use Rattle.st_base.specs.Config as settings;
ghost use Rattle.st_extents.specs.Layout.{IsWithinLimits};
ghost use Rattle.st_kept_histories.specs.Opened.{NotOpened, OpensServer};

use crate::begun::begin;
use st_base::Stamp;
use st_durable::DurableServer;
use st_journal_bytes::Identity;
use st_kept_histories::KeptFault;
use st_kept_journal::JournalKeeper;
use st_server_states::a_server_has_a_format;
use st_stable_file::{OpenFault, OpenedArea, OpenedFile, StableFault, open_file};
use std::alloc::Global;

/// A server in its next epoch, and the keeper of its journal.
#[derive(Drop)]
pub struct Opening {
    pub server: DurableServer,
    pub journal: JournalKeeper,
}

/// Opens the file of the journal that is wanted, and begins the server's next epoch. `now` is a
/// reading of the server's clock. The server's number is from 1 to the number of servers, which is
/// at most 4; there are at least as many disks as servers, and at most 8, of 1 to 4,096 blocks
/// each.
///
/// # Errors
/// `Unmade` if the file was not made; `File` if it is not opened; `NoEpoch` if what it stands for
/// begins no epoch and has what a server has that never began one; `Epochs` if no epoch is left;
/// `NotTold` if messages can't tell its names and pages; and `Memory`.
pub fn open_server(
    alloc: Global,
    bytes: &[u8],
    wanted: &Identity,
    now: Stamp,
) -> Result<Opening, KeptFault>
    requires checked { IsOk (settings.check wanted.now.settings) }
    requires limits { IsWithinLimits wanted.now.server.0 wanted.now.servers wanted.now.disks wanted.now.blocks }
    requires time { now.0 ≤ 2 ^ 62 }
    ensures ok { IfOk result (λ o. OpensServer bytes.now wanted.now now o.server o.journal) }
    ensures err { IfErr result (NotOpened bytes.now wanted.now now) }
{
    a_server_has_a_format();
    let found = match open_file(alloc, bytes, wanted, now.0) {
        Ok(found) => found,
        Err(OpenFault::Area(StableFault::Memory)) => return Err(KeptFault::Memory),
        Err(fault) => return Err(KeptFault::File(fault)),
    };
    let Some(OpenedFile { current, area }) = found else {
        return Err(KeptFault::Unmade);
    };
    let OpenedArea { stable, end } = area;
    let server = begin(alloc, wanted, now, stable)?;
    let size = u64::from(current.header.area);
    let journal = JournalKeeper::new(alloc, size, current.second, end.gate);
    Ok(Opening { server, journal })
}
