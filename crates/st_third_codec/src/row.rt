// The bytes of rows whose count or range is wider in version 3, both ways.
ghost use Rattle.std.specs.Prelude.{◌≡◌, ◌++◌, ◌≤◌, ◌<◌, ◌^◌, ℕ, true, List, OnOk, Result, length};
ghost use Rattle.st_codec_fields.specs.Decoder as fields;
ghost use Rattle.st_codec_fields.specs.Spelling as spells;
ghost use Rattle.st_codec_fields.specs.declared.fault.Fault.{Fault};
ghost use Rattle.st_third.specs.Messages as fits;
ghost use Rattle.st_third_codec.specs.Decoder as reading;

use st_base::{BlockAt, DiskId, ExtentRow, ExtentRows, GrantNo, LockRows, Mode, Rows};
use st_codec_fields::{
    ReadError, out_of_range, put_block, put_grant, put_mode, put_word16, put_word32, put_word64,
    read_grant, read_mode, read_page, read_word16_in, read_word32, read_word64,
};
use st_messages::range::within;
use st_messages::row::Row;
use std::alloc::{AllocError, Global};

/// The bytes of a row.
pub(crate) trait WideRow: Row {
    ghost spell: { Self → List ℕ };

    fn put(&self, out: &mut Vec<u8>) -> Result<(), AllocError>
        ensures { OnOk result (out.new.items ≡ out.old.items ++ spell self.now) };

    /// Reads a row, whose key is at least this number, and returns it with the bytes after it.
    ghost row_at: { ℕ → List ℕ → Result (Self × List ℕ) Fault };

    fn read(least: u64, bytes: &[u8]) -> Result<(Self, &[u8]), ReadError>
        ensures { fields.Gives (λ x. (x.0, x.1.now)) result (row_at least bytes.now) };
}

impl WideRow for (u32, GrantNo, Mode) {
    ghost spell = { spells.lock_row };

    ghost row_at = { fields.lock_row_at };

    #[tactic(auto, unfolding(st_codec_fields::specs::Spelling::lock_row))]
    fn put(&self, out: &mut Vec<u8>) -> Result<(), AllocError> {
        put_word32(out, self.0)?;
        put_grant(out, self.1)?;
        put_mode(out, self.2)?;
        Ok(())
    }

    #[tactic(auto, unfolding(st_codec_fields::specs::Decoder::lock_row_at))]
    fn read(least: u64, bytes: &[u8]) -> Result<(Self, &[u8]), ReadError> {
        let (ino, rest) = read_word32_in(least, 4_294_967_295, bytes)?;
        let (g, rest) = read_grant(rest)?;
        let (mode, rest) = read_mode(1, 2, rest)?;
        Ok(((ino, g, mode), rest))
    }
}

impl WideRow for ExtentRow {
    ghost spell = { spells.extent_row };

    ghost row_at = { reading.extent_row_at };

    #[tactic(auto, unfolding(st_codec_fields::specs::Spelling::extent_row))]
    fn put(&self, out: &mut Vec<u8>) -> Result<(), AllocError> {
        put_word32(out, self.page.0)?;
        put_block(out, self.at)?;
        put_word64(out, self.birth)?;
        Ok(())
    }

    #[tactic(auto, unfolding(crate::specs::Decoder::extent_row_at))]
    fn read(least: u64, bytes: &[u8]) -> Result<(Self, &[u8]), ReadError> {
        let (page, rest) = read_page(least, bytes)?;
        let (at, rest) = read_block(rest)?;
        let (birth, rest) = read_word64(rest)?;
        Ok((ExtentRow { page, at, birth }, rest))
    }
}

/// Reads a number of four bytes in this range.
#[tactic(auto, unfolding(st_codec_fields::specs::Decoder::word32_in))]
fn read_word32_in(least: u64, most: u64, bytes: &[u8]) -> Result<(u32, &[u8]), ReadError>
    ensures { fields.Gives (λ x. (x.0, x.1.now)) result (fields.word32_in least most bytes.now) }
{
    let (number, rest) = read_word32(bytes)?;
    if !within(least, most, u64::from(number)) {
        return Err(out_of_range(bytes));
    }
    Ok((number, rest))
}

/// Reads a block of one of sixteen disks.
#[tactic(auto, unfolding(crate::specs::Decoder::block_at))]
fn read_block(bytes: &[u8]) -> Result<(BlockAt, &[u8]), ReadError>
    ensures { fields.Gives (λ x. (x.0, x.1.now)) result (reading.block_at bytes.now) }
{
    let (disk, rest) = read_word16_in(1, 16, bytes)?;
    let (block, rest) = read_word32_in(0, 268_435_455, rest)?;
    let disk = DiskId(disk);
    Ok((BlockAt { disk, block }, rest))
}

fn put_rows<T: WideRow>(out: &mut Vec<u8>, rows: &Rows<T>) -> Result<(), AllocError>
    requires { length rows.now < 2 ^ 16 }
    ensures { OnOk result (out.new.items ≡ out.old.items ++ spells.rows T.spell rows.now) }
{
    put_word16(out, rows.len() as u16)?;
    for row in rows.as_slice() {
        row.put(out)?;
    }
    Ok(())
}

fn read_rows<T: WideRow + Drop>(
    alloc: Global,
    count: u16,
    least: u64,
    bytes: &[u8],
) -> Result<(Rows<T>, &[u8]), ReadError>
    ensures { fields.Gives (λ x. (x.0, x.1.now)) result (fields.rows_at T.row_at T.next count least bytes.now) }
{
    let mut rows = Vec::new(alloc);
    let mut least = least;
    let mut rest = bytes;
    for _ in 0..count {
        let (row, after): (T, &[u8]) = T::read(least, rest)?;
        least = row.next();
        rows.push(row)?;
        rest = after;
    }
    Ok((Rows::from_vec(rows), rest))
}

/// Appends the rows of locks, at most 4,096.
#[tactic(auto, unfolding(st_third::specs::Messages::are_locks))]
pub(crate) fn put_locks(out: &mut Vec<u8>, rows: &LockRows) -> Result<(), AllocError>
    requires { fits.are_locks rows.now ≡ true }
    ensures { OnOk result (out.new.items ≡ out.old.items ++ spells.rows spells.lock_row rows.now) }
{
    put_rows(out, rows)
}

/// Appends the rows of extents, at most 64.
#[tactic(auto, unfolding(st_third::specs::Messages::are_extents))]
pub(crate) fn put_extents(out: &mut Vec<u8>, rows: &ExtentRows) -> Result<(), AllocError>
    requires { fits.are_extents rows.now ≡ true }
    ensures { OnOk result (out.new.items ≡ out.old.items ++ spells.rows spells.extent_row rows.now) }
{
    put_rows(out, rows)
}

/// Reads the rows of locks, at most 4,096.
#[tactic(auto, unfolding(crate::specs::Decoder::locks_at))]
pub(crate) fn read_locks(alloc: Global, bytes: &[u8]) -> Result<(LockRows, &[u8]), ReadError>
    ensures { fields.Gives (λ x. (x.0, x.1.now)) result (reading.locks_at bytes.now) }
{
    let (count, rest) = read_word16_in(0, 4_096, bytes)?;
    read_rows(alloc, count, 1, rest)
}

/// Reads the rows of extents, at most 64.
#[tactic(auto, unfolding(crate::specs::Decoder::extents_at))]
pub(crate) fn read_extents(alloc: Global, bytes: &[u8]) -> Result<(ExtentRows, &[u8]), ReadError>
    ensures { fields.Gives (λ x. (x.0, x.1.now)) result (reading.extents_at bytes.now) }
{
    let (count, rest) = read_word16_in(0, 64, bytes)?;
    read_rows(alloc, count, 0, rest)
}
