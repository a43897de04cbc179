// The mapped pages.
ghost use Rattle.std.specs.Prelude.{◌≡◌, ◌≤◌, ◌<◌, ◌+◌, ◌++◌, [], IfErr, IfOk, OnOk, length};
ghost use Rattle.std.specs.List.{AllByRecursion};
ghost use Rattle.st_snapshot.specs.Snapshots as snapshots;
ghost use Rattle.st_snapshot.specs.Snapshots.{PageFits, rows};
ghost use Rattle.st_snapshot.specs.Reading.{AreRead, IsNoPage};

use crate::fault::SnapshotFault;
use st_base::{BlockAt, DiskId, FileId, PageNo, ServerId};
use st_journal_bytes::{
    put_word16, put_word32, put_word64, split_word16, split_word32, split_word64,
};
use st_rules::Extent;
use std::alloc::AllocError;

#[tactic(auto, unfolding(crate::specs::Snapshots::page))]
fn put_page(out: &mut Vec<u8>, row: &Extent) -> Result<(), AllocError>
    ensures bytes { OnOk result (out.new.items ≡ out.old.items ++ snapshots.page row.now) }
    ensures fits { OnOk result (PageFits row.now) }
{
    put_word16(out, row.file.server.0)?;
    put_word32(out, row.file.ino)?;
    put_word32(out, row.page.0)?;
    put_word16(out, row.at.disk.0)?;
    put_word32(out, row.at.block)?;
    put_word64(out, row.birth)?;
    Ok(())
}

/// Appends these mapped pages, one after another.
pub fn put_pages(out: &mut Vec<u8>, pages: &[Extent]) -> Result<(), AllocError>
    ensures bytes { OnOk result (out.new.items ≡ out.old.items ++ rows snapshots.page pages.now) }
    ensures fits { OnOk result (AllByRecursion PageFits pages.now) }
{
    for place in 0..pages.len() {
        put_page(out, &pages[place])?;
    }
    Ok(())
}

/// The mapped page in front, and the bytes after it.
#[tactic(auto, unfolding(crate::specs::Snapshots::page))]
fn split_page(bytes: &[u8]) -> (Extent, &[u8])
    requires { 24 ≤ length bytes.now }
    ensures bytes { bytes.now ≡ snapshots.page result.0 ++ result.1.now }
    ensures fits { PageFits result.0 }
{
    let (server, rest) = split_word16(bytes);
    let (ino, rest) = split_word32(rest);
    let (page, rest) = split_word32(rest);
    let (disk, rest) = split_word16(rest);
    let (block, rest) = split_word32(rest);
    let (birth, rest) = split_word64(rest);
    let row = Extent {
        file: FileId {
            server: ServerId(server),
            ino,
        },
        page: PageNo(page),
        at: BlockAt {
            disk: DiskId(disk),
            block,
        },
        birth,
    };
    (row, rest)
}

/// Reads this many mapped pages from the front, and gives the bytes after them. The bytes are the
/// last ones of a snapshot of `whole` bytes.
pub fn read_pages<'a>(
    pages: &mut Vec<Extent>,
    bytes: &'a [u8],
    count: u32,
    whole: usize,
) -> Result<&'a [u8], SnapshotFault>
    requires none { pages.old.items ≡ [] }
    requires within { length bytes.now ≤ whole }
    ensures ok { IfOk result (λ rest. AreRead snapshots.page PageFits bytes.now count pages.new.items rest.now) }
    ensures err { IfErr result (IsNoPage bytes.now count whole) }
{
    let mut rest = bytes;
    for _place in 0..count {
        let at = (whole - rest.len()) as u64;
        if rest.len() < 24 {
            return Err(SnapshotFault::NoPage { at });
        }
        let (row, more) = split_page(rest);
        let Ok(()) = pages.push(row) else {
            return Err(SnapshotFault::Memory);
        };
        rest = more;
    }
    Ok(rest)
}
