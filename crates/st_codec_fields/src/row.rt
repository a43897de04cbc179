// The bytes of rows, both ways.
ghost use Rattle.std.specs.Prelude.{◌≡◌, ◌++◌, ◌∷◌, ◌≤◌, ℕ, true, List, OnOk, Result, length, All};
ghost use Rattle.st_messages.specs.Ranges as fits;
ghost use Rattle.st_codec_fields.specs.Decoder as reading;
ghost use Rattle.st_codec_fields.specs.Spelling as spells;
ghost use Rattle.st_codec_fields.specs.declared.fault.Fault.{Fault};

use crate::fault::ReadError;
use crate::field::{
    read_block, read_byte_in, read_grant, read_mode, read_name, read_page, read_word16_in,
    read_word32_in, read_word64,
};
use crate::field_encoder::{
    put_block, put_byte, put_grant, put_mode, put_name, put_word16, put_word32, put_word64,
};
use st_base::{
    ExtentRow, ExtentRows, GrantNo, LockRows, LostRow, LostRows, Mode, NameRow, NameRows, Rows,
};
use st_messages::row::Row;
use std::alloc::{AllocError, Global};

/// The bytes of a row of a message.
pub(crate) trait RowBytes: Row {
    ghost spell: { Self → List ℕ };

    fn put(&self, out: &mut Vec<u8>) -> Result<(), AllocError>
        requires { (least : ℕ) × (Self.is_row least self.now ≡ true) }
        ensures { OnOk result (out.new.items ≡ out.old.items ++ spell self.now) };

    /// Reads a row, whose key is at least this number, and returns it with the bytes after it.
    ghost row_at: { ℕ → List ℕ → Result (Self × List ℕ) Fault };

    fn read(alloc: Global, least: u64, bytes: &[u8]) -> Result<(Self, &[u8]), ReadError>
        ensures { reading.Gives (λ x. (x.0, x.1.now)) result (row_at least bytes.now) };
}

impl RowBytes for (u32, GrantNo, Mode) {
    ghost spell = { spells.lock_row };

    ghost row_at = { reading.lock_row_at };

    #[tactic(auto, unfolding(crate::specs::Spelling::lock_row))]
    fn put(&self, out: &mut Vec<u8>) -> Result<(), AllocError> {
        put_word32(out, self.0)?;
        put_grant(out, self.1)?;
        put_mode(out, self.2)?;
        Ok(())
    }

    #[tactic(auto, unfolding(crate::specs::Decoder::lock_row_at))]
    fn read(_alloc: Global, least: u64, bytes: &[u8]) -> Result<(Self, &[u8]), ReadError> {
        let (ino, rest) = read_word32_in(least, 4_294_967_295, bytes)?;
        let (g, rest) = read_grant(rest)?;
        let (mode, rest) = read_mode(1, 2, rest)?;
        Ok(((ino, g, mode), rest))
    }
}

impl RowBytes for ExtentRow {
    ghost spell = { spells.extent_row };

    ghost row_at = { reading.extent_row_at };

    #[tactic(auto, unfolding(crate::specs::Spelling::extent_row))]
    fn put(&self, out: &mut Vec<u8>) -> Result<(), AllocError> {
        put_word32(out, self.page.0)?;
        put_block(out, self.at)?;
        put_word64(out, self.birth)?;
        Ok(())
    }

    #[tactic(auto, unfolding(crate::specs::Decoder::extent_row_at))]
    fn read(_alloc: Global, least: u64, bytes: &[u8]) -> Result<(Self, &[u8]), ReadError> {
        let (page, rest) = read_page(least, bytes)?;
        let (at, rest) = read_block(rest)?;
        let (birth, rest) = read_word64(rest)?;
        Ok((ExtentRow { page, at, birth }, rest))
    }
}

impl RowBytes for LostRow {
    ghost spell = { spells.lost_row };

    ghost row_at = { reading.lost_row_at };

    #[tactic(auto, unfolding(crate::specs::Spelling::lost_row))]
    fn put(&self, out: &mut Vec<u8>) -> Result<(), AllocError> {
        put_word32(out, self.page.0)?;
        put_word64(out, self.command)?;
        Ok(())
    }

    #[tactic(auto, unfolding(crate::specs::Decoder::lost_row_at))]
    fn read(_alloc: Global, least: u64, bytes: &[u8]) -> Result<(Self, &[u8]), ReadError> {
        let (page, rest) = read_page(least, bytes)?;
        let (command, rest) = read_word64(rest)?;
        Ok((LostRow { page, command }, rest))
    }
}

impl RowBytes for NameRow {
    ghost spell = { spells.name_row };

    ghost row_at = { reading.name_row_at };

    #[tactic(auto, unfolding(crate::specs::Spelling::name_row))]
    fn put(&self, out: &mut Vec<u8>) -> Result<(), AllocError> {
        put_word32(out, self.ino)?;
        put_byte(out, entry_number(self.directory))?;
        put_name(out, &self.name)?;
        Ok(())
    }

    #[tactic(auto, unfolding(crate::specs::Decoder::name_row_at))]
    fn read(alloc: Global, least: u64, bytes: &[u8]) -> Result<(Self, &[u8]), ReadError> {
        let (ino, rest) = read_word32_in(least, 4_294_967_295, bytes)?;
        let (directory, rest) = read_entry(rest)?;
        let (name, rest) = read_name(alloc, 1, 64, rest)?;
        let row = NameRow {
            ino,
            directory,
            name,
        };
        Ok((row, rest))
    }
}

fn entry_number(directory: bool) -> u8
    ensures { result ≡ spells.entry_number directory }
{
    if directory { 2 } else { 1 }
}

pub(crate) fn put_rows<T: RowBytes>(out: &mut Vec<u8>, rows: &Rows<T>) -> Result<(), AllocError>
    requires count { length rows.now ≤ 1024 }
    requires each { All (λ r. (least : ℕ) × (T.is_row least r ≡ true)) rows.now }
    ensures { OnOk result (out.new.items ≡ out.old.items ++ spells.rows T.spell rows.now) }
{
    put_word16(out, rows.len() as u16)?;
    for row in rows.as_slice() {
        row.put(out)?;
    }
    Ok(())
}

/// Appends the rows of locks, at most 1,024.
#[tactic(auto, unfolding(st_messages::specs::Ranges::are_locks))]
pub fn put_locks(out: &mut Vec<u8>, rows: &LockRows) -> Result<(), AllocError>
    requires { fits.are_locks rows.now ≡ true }
    ensures { OnOk result (out.new.items ≡ out.old.items ++ spells.rows spells.lock_row rows.now) }
{
    put_rows(out, rows)
}

/// Appends the rows of extents, at most 64.
#[tactic(auto, unfolding(st_messages::specs::Ranges::are_extents))]
pub fn put_extents(out: &mut Vec<u8>, rows: &ExtentRows) -> Result<(), AllocError>
    requires { fits.are_extents rows.now ≡ true }
    ensures { OnOk result (out.new.items ≡ out.old.items ++ spells.rows spells.extent_row rows.now) }
{
    put_rows(out, rows)
}

/// Appends the rows of lost pages, 1 to 1,024.
#[tactic(auto, unfolding(st_messages::specs::Ranges::are_lost))]
pub fn put_lost(out: &mut Vec<u8>, rows: &LostRows) -> Result<(), AllocError>
    requires { fits.are_lost rows.now ≡ true }
    ensures { OnOk result (out.new.items ≡ out.old.items ++ spells.rows spells.lost_row rows.now) }
{
    put_rows(out, rows)
}

/// Appends the rows of names, at most 256.
#[tactic(auto, unfolding(st_messages::specs::Ranges::are_names))]
pub fn put_names(out: &mut Vec<u8>, rows: &NameRows) -> Result<(), AllocError>
    requires { fits.are_names rows.now ≡ true }
    ensures { OnOk result (out.new.items ≡ out.old.items ++ spells.rows spells.name_row rows.now) }
{
    put_rows(out, rows)
}

/// Reads whether an entry is a directory.
#[tactic(auto, unfolding(crate::specs::Decoder::entry_at))]
fn read_entry(bytes: &[u8]) -> Result<(bool, &[u8]), ReadError>
    ensures { reading.Gives (λ x. (x.0, x.1.now)) result (reading.entry_at bytes.now) }
{
    let (number, rest) = read_byte_in(1, 2, bytes)?;
    Ok((2 <= number, rest))
}

fn read_rows<T: RowBytes + Drop>(
    alloc: Global,
    count: u16,
    least: u64,
    bytes: &[u8],
) -> Result<(Rows<T>, &[u8]), ReadError>
    ensures { reading.Gives (λ x. (x.0, x.1.now)) result (reading.rows_at T.row_at T.next count least bytes.now) }
{
    let mut rows = Vec::new(alloc);
    let mut least = least;
    let mut rest = bytes;
    for _ in 0..count {
        let (row, after): (T, &[u8]) = T::read(alloc, least, rest)?;
        least = row.next();
        rows.push(row)?;
        rest = after;
    }
    Ok((Rows::from_vec(rows), rest))
}

/// Reads the rows of locks, at most 1,024 from the front of the bytes. Returns it and the bytes
/// after it, or the first fault.
#[tactic(auto, unfolding(crate::specs::Decoder::locks_at))]
pub fn read_locks(alloc: Global, bytes: &[u8]) -> Result<(LockRows, &[u8]), ReadError>
    ensures { reading.Gives (λ x. (x.0, x.1.now)) result (reading.locks_at bytes.now) }
{
    let (count, rest) = read_word16_in(0, 1_024, bytes)?;
    read_rows(alloc, count, 1, rest)
}

/// Reads the rows of extents, at most 64 from the front of the bytes. Returns it and the bytes
/// after it, or the first fault.
#[tactic(auto, unfolding(crate::specs::Decoder::extents_at))]
pub fn read_extents(alloc: Global, bytes: &[u8]) -> Result<(ExtentRows, &[u8]), ReadError>
    ensures { reading.Gives (λ x. (x.0, x.1.now)) result (reading.extents_at bytes.now) }
{
    let (count, rest) = read_word16_in(0, 64, bytes)?;
    read_rows(alloc, count, 0, rest)
}

/// Reads the rows of lost pages, 1 to 1,024 from the front of the bytes. Returns it and the bytes
/// after it, or the first fault.
#[tactic(auto, unfolding(crate::specs::Decoder::lost_at))]
pub fn read_lost(alloc: Global, bytes: &[u8]) -> Result<(LostRows, &[u8]), ReadError>
    ensures { reading.Gives (λ x. (x.0, x.1.now)) result (reading.lost_at bytes.now) }
{
    let (count, rest) = read_word16_in(1, 1_024, bytes)?;
    read_rows(alloc, count, 0, rest)
}

/// Reads the rows of names, at most 256 from the front of the bytes. Returns it and the bytes after
/// it, or the first fault.
#[tactic(auto, unfolding(crate::specs::Decoder::names_at))]
pub fn read_names(alloc: Global, bytes: &[u8]) -> Result<(NameRows, &[u8]), ReadError>
    ensures { reading.Gives (λ x. (x.0, x.1.now)) result (reading.names_at bytes.now) }
{
    let (count, rest) = read_word16_in(0, 256, bytes)?;
    read_rows(alloc, count, 1, rest)
}
