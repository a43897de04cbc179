// The file of a journal: its header and its marks, and the area that counts.
ghost use Rattle.std.specs.Prelude.{◌≡◌, ◌≤◌, IfErr, IfNone, IfOk, IfSome};
ghost use Rattle.st_extents.specs.Layout.{IsWithinLimits};
ghost use Rattle.st_journal_bytes.specs.Files.{IsMadeFile, IsUnmade};
ghost use Rattle.st_journal_bytes.specs.Moments.{Dated};
ghost use Rattle.st_journal_file.specs.Layout.{area_of};
ghost use Rattle.st_rules.specs.Server as machine;
ghost use Rattle.st_stable_file.specs.Opened as areas;
ghost use Rattle.st_stable_file.specs.OpenedFile.{IsFileOpenedAs, IsNoArea, IsOpenedTo, NotOpens, OpensFile, StandsForStable, shape_of};

use crate::area::{OpenedArea, open_area};
use crate::fault::StableFault;
use st_journal_bytes::{Current, FileFault, Identity, current_area, read_file};
use std::alloc::Global;
use thiserror::Error;

/// A file that was made: its header, which area counts, and what that area stands for.
#[derive(Drop)]
pub struct OpenedFile {
    pub current: Current,
    pub area: OpenedArea,
}

/// Why the file of a journal is not opened, in the order of the checks.
#[derive(Clone, Copy, Debug, PartialEq, Eq, Error)]
pub enum OpenFault {
    #[error("{0}")]
    File(FileFault),
    #[error("{0}, in the area that counts")]
    Area(StableFault),
    #[error("the journal's last change was made at {last}, which is later")]
    Earlier { last: u64 },
}

/// Opens the area that counts.
fn open_current(
    alloc: Global,
    bytes: &[u8],
    wanted: &Identity,
    current: Current,
) -> Result<OpenedFile, OpenFault>
    requires limits { IsWithinLimits wanted.now.server.0 wanted.now.servers wanted.now.disks wanted.now.blocks }
    requires made { IsMadeFile bytes.now wanted.now current }
    ensures current { IfOk result (λ o. o.current ≡ current) }
    ensures ok { IfOk result (λ o. (m : IsMadeFile bytes.now wanted.now current) → areas.Opens (shape_of wanted.now) (area_of current.second m.file) o.area) }
    ensures err { IfErr result (IsNoArea bytes.now wanted.now) }
    ensures exact { (m : IsMadeFile bytes.now wanted.now current) (state : Dated machine.Stable) → areas.CanBeOpened (shape_of wanted.now) (area_of current.second m.file) state → IsOpenedTo state result }
{
    let area = current_area(bytes, &current);
    match open_area(
        alloc,
        area,
        wanted.server,
        wanted.servers,
        wanted.disks,
        wanted.blocks,
    ) {
        Ok(area) => Ok(OpenedFile { current, area }),
        Err(fault) => Err(OpenFault::Area(fault)),
    }
}

/// Opens the file of the journal that is wanted: what the area that counts stands for; `None` if
/// the file was not made yet. `now` is a reading of the server's clock. The world has 1 to 4
/// servers, a disk for each of them and at most 8 disks, of 1 to 4,096 blocks each.
///
/// # Errors
/// `File` if the header or a mark is not the one that is wanted; `Area` if the area that counts is
/// not opened, or memory ran out; and `Earlier` if now is before the last change.
pub fn open_file(
    alloc: Global,
    bytes: &[u8],
    wanted: &Identity,
    now: u64,
) -> Result<Option<OpenedFile>, OpenFault>
    requires { IsWithinLimits wanted.now.server.0 wanted.now.servers wanted.now.disks wanted.now.blocks }
    ensures made { IfOk result (λ o. IfSome o (OpensFile bytes.now wanted.now now)) }
    ensures unmade { IfOk result (λ o. IfNone o (IsUnmade bytes.now)) }
    ensures err { IfErr result (NotOpens bytes.now wanted.now now) }
    // What a file stands for is opened.
    ensures exact { (state : Dated machine.Stable) → StandsForStable bytes.now wanted.now now state → IsFileOpenedAs state result }
{
    let found = match read_file(bytes, wanted) {
        Ok(found) => found,
        Err(fault) => return Err(OpenFault::File(fault)),
    };
    let Some(current) = found else {
        return Ok(None);
    };
    let opened = open_current(alloc, bytes, wanted, current)?;
    let last = opened.area.end.moment;
    if now < last {
        return Err(OpenFault::Earlier { last });
    }
    Ok(Some(opened))
}
