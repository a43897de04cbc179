use crate::draws::Draws;
use st_base::{BlockAt, DiskId, FileId, PageNo, ServerId};
use st_extents::{ExtentRefusal, Extents, Run, RunKey};
use std::alloc::{AllocError, Global};
use std::test::Fail;

/// A mapped page. Its block is counted over the disks of the server.
#[derive(Clone, Copy)]
struct Row {
    ino: u32,
    page: u32,
    block: u32,
    birth: u64,
}

/// The extents of a server with three disks of sixteen blocks, which are disks 2, 5 and 8, as plain
/// rows.
#[derive(Drop)]
struct Plain {
    rows: Vec<Row>,
    births: u64,
}

fn file(ino: u32) -> FileId {
    FileId {
        server: ServerId(2),
        ino,
    }
}

/// The block and the birth of a page.
fn mapped(rows: &[Row], ino: u32, page: u32) -> Option<(u32, u64)> {
    rows.iter()
        .copied()
        .find(|row| row.ino == ino && row.page == page)
        .map(|row| (row.block, row.birth))
}

/// The blocks on which no page lies, in order.
fn free_blocks(alloc: Global, rows: &[Row]) -> Result<Vec<u32>, AllocError> {
    let mut blocks = Vec::new(alloc);
    for block in 0..48 {
        if !rows.iter().any(|row| row.block == block) {
            blocks.push(block)?;
        }
    }
    Ok(blocks)
}

/// The pages of a range that have no block.
fn unmapped(
    alloc: Global,
    rows: &[Row],
    ino: u32,
    page: u32,
    count: u32,
) -> Result<Vec<u32>, AllocError> {
    let mut pages = Vec::new(alloc);
    for place in 0..count {
        let next = page.wrapping_add(place);
        if mapped(rows, ino, next).is_none() {
            pages.push(next)?;
        }
    }
    Ok(pages)
}

impl Plain {
    /// Maps a page to the first of these blocks.
    fn place(&mut self, ino: u32, page: u32, blocks: &[u32]) -> Result<(), AllocError> {
        self.births = self.births.wrapping_add(1);
        if let Some(block) = blocks.first().copied() {
            self.rows.push(Row {
                ino,
                page,
                block,
                birth: self.births,
            })?;
        }
        Ok(())
    }

    /// Maps the pages of a range, or returns how many blocks are free and how many were asked for.
    fn allocate(
        &mut self,
        alloc: Global,
        ino: u32,
        page: u32,
        count: u32,
    ) -> Result<Option<(u64, u64)>, AllocError> {
        let pages = unmapped(alloc, self.rows.as_slice(), ino, page, count)?;
        let free = free_blocks(alloc, self.rows.as_slice())?;
        if free.len() < pages.len() {
            return Ok(Some((free.len() as u64, pages.len() as u64)));
        }
        for page in pages.iter().copied() {
            let blocks = free_blocks(alloc, self.rows.as_slice())?;
            self.place(ino, page, blocks.as_slice())?;
        }
        Ok(None)
    }
}

fn number(at: BlockAt) -> u32 {
    (u32::from(at.disk.0) / 3)
        .wrapping_mul(16)
        .wrapping_add(at.block)
}

/// Whether a row goes on where the one before it ends: the next page, block and birth, on the same
/// disk.
fn follows(before: Option<Row>, row: Row) -> bool {
    match before {
        Some(last) => {
            last.ino == row.ino
                && last.page.wrapping_add(1) == row.page
                && last.block.wrapping_add(1) == row.block
                && row.block % 16 != 0
                && last.birth.wrapping_add(1) == row.birth
        }
        None => false,
    }
}

/// The runs of plain rows, in rising order.
fn runs_of(alloc: Global, rows: &[Row]) -> Result<Vec<(RunKey, Run)>, AllocError> {
    let mut sorted = Vec::from_slice(alloc, rows)?;
    sorted.sort_by_key(|row| (row.ino, row.page))?;
    let mut runs: Vec<(RunKey, Run)> = Vec::new(alloc);
    let mut before = None;
    for row in sorted.iter().copied() {
        if !follows(before, row) {
            let at = BlockAt {
                disk: DiskId((2 + row.block / 16 % 3 * 3) as u16),
                block: row.block % 16,
            };
            let run = Run {
                length: 1,
                at,
                birth: row.birth,
            };
            runs.push(((file(row.ino), PageNo(row.page)), run))?;
        } else if let Some(last) = runs.last_mut() {
            last.1.length = last.1.length.wrapping_add(1);
        }
        before = Some(row);
    }
    Ok(runs)
}

/// Whether the runs are those of the plain rows.
fn same_runs(alloc: Global, extents: &Extents, rows: &[Row]) -> Result<bool, AllocError> {
    let wanted = runs_of(alloc, rows)?;
    let mut rest = wanted.iter();
    for (key, run) in extents.runs().iter() {
        match rest.next() {
            Some(next) if next.0 == *key && next.1 == *run => {}
            _ => return Ok(false),
        }
    }
    Ok(rest.next().is_none())
}

/// Whether the blocks on none of the runs are these, and are counted.
fn same_free(extents: &Extents, blocks: &[u32]) -> bool {
    let mut count = 0usize;
    for block in 0..48u32 {
        let taken = extents.runs().iter().any(|(_key, run)| {
            let first = number(run.at);
            first <= block && block < first.wrapping_add(run.length)
        });
        if !taken {
            if blocks.get(count).copied() != Some(block) {
                return false;
            }
            count = count.wrapping_add(1);
        }
    }
    count == blocks.len() && extents.free() as usize == count
}

/// One call on both; whether the answers are the same.
fn same(
    alloc: Global,
    extents: &mut Extents,
    plain: &mut Plain,
    draws: &mut Draws,
) -> Result<bool, AllocError> {
    let ino = 2 + draws.draw(6) as u32;
    let page = draws.draw(12) as u32;
    if draws.draw(3) == 0 {
        extents.release_from(file(ino), PageNo(page));
        plain.rows.retain(|row| row.ino != ino || row.page < page);
        return Ok(true);
    }
    let count = draws.draw(6) as u32;
    if extents.next_birth() > 1_000_000 {
        return Ok(false);
    }
    let wanted = plain.allocate(alloc, ino, page, count)?;
    match extents.allocate(file(ino), PageNo(page), count) {
        Ok(()) => Ok(wanted.is_none()),
        Err(ExtentRefusal::NoSpace { free, asked }) => Ok(wanted == Some((free, asked))),
        Err(ExtentRefusal::Memory) => Err(AllocError),
    }
}

/// Whether both know the same of a page, and have the same counts, free blocks and runs.
fn agree(
    alloc: Global,
    extents: &Extents,
    plain: &Plain,
    ino: u32,
    page: u32,
) -> Result<bool, AllocError> {
    let told = extents
        .map(file(ino), PageNo(page))
        .map(|(at, birth)| (number(at), birth));
    let free = free_blocks(alloc, plain.rows.as_slice())?;
    Ok(
        told == mapped(plain.rows.as_slice(), ino, page)
            && same_free(extents, free.as_slice())
            && extents.mapped() as usize == plain.rows.len()
            && extents.next_birth() == plain.births.wrapping_add(1)
            && same_runs(alloc, extents, plain.rows.as_slice())?,
    )
}

#[test]
fn extents_are_plain_rows(rt: HostRuntime) -> Result<(), Fail> {
    let mut extents = Extents::new(rt.alloc(), ServerId(2), 3, 8, 16)?;
    let mut plain = Plain {
        rows: Vec::new(rt.alloc()),
        births: 0,
    };
    let mut draws = Draws::new(1);
    for _step in 0..10_000 {
        let agreed = same(rt.alloc(), &mut extents, &mut plain, &mut draws)?;
        assert!(rt; agreed);
        let ino = 2 + draws.draw(6) as u32;
        let page = draws.draw(18) as u32;
        let told = agree(rt.alloc(), &extents, &plain, ino, page)?;
        assert!(rt; told);
    }
    Ok(())
}
