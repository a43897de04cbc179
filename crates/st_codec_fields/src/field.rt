// Fields from their bytes: numbers, places, names and pages, each with the fault that it may have.
ghost use Rattle.std.specs.Prelude.{◌≡◌, ◌≤◌, IfOk, length};
ghost use Rattle.st_codec_fields.specs.Decoder as reading;

use crate::fault::{Fault, ReadError};
use st_base::{BlockAt, DiskId, FileId, GrantNo, Mode, Name, PageBytes, PageNo, ServerId, Tag};
use st_messages::PatchBytes;
use st_messages::range::within;
use std::alloc::Global;

/// Returns the fault of a field that begins where these bytes begin.
pub fn out_of_range(bytes: &[u8]) -> ReadError
    ensures { result ≡ reading.out_of_range bytes.now }
{
    ReadError::Fault(Fault::Value(bytes.len()))
}

/// Reads a byte from the front of the bytes. Returns it and the bytes after it, or the first fault.
pub fn read_byte(bytes: &[u8]) -> Result<(u8, &[u8]), ReadError>
    ensures { reading.Gives (λ x. (x.0, x.1.now)) result (reading.byte_at bytes.now) }
{
    match bytes {
        [] => Err(ReadError::Fault(Fault::Short)),
        [byte, rest @ ..] => Ok((*byte, rest)),
    }
}

/// Reads a number of two bytes from the front of the bytes. Returns it and the bytes after it, or
/// the first fault.
#[tactic(auto, unfolding(crate::specs::Decoder::word16_at))]
pub fn read_word16(bytes: &[u8]) -> Result<(u16, &[u8]), ReadError>
    ensures { reading.Gives (λ x. (x.0, x.1.now)) result (reading.word16_at bytes.now) }
{
    if bytes.len() < 2 {
        return Err(ReadError::Fault(Fault::Short));
    }
    let (front, rest) = bytes.split_at(2);
    let number = u16::from_be_bytes([front[0], front[1]]);
    Ok((number, rest))
}

/// Reads a number of four bytes from the front of the bytes. Returns it and the bytes after it, or
/// the first fault.
#[tactic(auto, unfolding(crate::specs::Decoder::word32_at))]
pub fn read_word32(bytes: &[u8]) -> Result<(u32, &[u8]), ReadError>
    ensures { reading.Gives (λ x. (x.0, x.1.now)) result (reading.word32_at bytes.now) }
{
    if bytes.len() < 4 {
        return Err(ReadError::Fault(Fault::Short));
    }
    let (front, rest) = bytes.split_at(4);
    let number = u32::from_be_bytes([front[0], front[1], front[2], front[3]]);
    Ok((number, rest))
}

/// Reads a number of eight bytes from the front of the bytes. Returns it and the bytes after it, or
/// the first fault.
#[tactic(auto, unfolding(crate::specs::Decoder::word64_at))]
pub fn read_word64(bytes: &[u8]) -> Result<(u64, &[u8]), ReadError>
    ensures { reading.Gives (λ x. (x.0, x.1.now)) result (reading.word64_at bytes.now) }
{
    if bytes.len() < 8 {
        return Err(ReadError::Fault(Fault::Short));
    }
    let (front, rest) = bytes.split_at(8);
    let number = u64::from_be_bytes([
        front[0], front[1], front[2], front[3], front[4], front[5], front[6], front[7],
    ]);
    Ok((number, rest))
}

/// Reads a byte from `least` to `most`.
#[tactic(auto, unfolding(crate::specs::Decoder::byte_in))]
pub(crate) fn read_byte_in(least: u64, most: u64, bytes: &[u8]) -> Result<(u8, &[u8]), ReadError>
    ensures { reading.Gives (λ x. (x.0, x.1.now)) result (reading.byte_in least most bytes.now) }
{
    let (number, rest) = read_byte(bytes)?;
    if !within(least, most, u64::from(number)) {
        return Err(out_of_range(bytes));
    }
    Ok((number, rest))
}

/// Reads a number of two bytes in this range from the front of the bytes. Returns it and the bytes
/// after it, or the first fault.
#[tactic(auto, unfolding(crate::specs::Decoder::word16_in))]
pub fn read_word16_in(least: u64, most: u64, bytes: &[u8]) -> Result<(u16, &[u8]), ReadError>
    ensures number { reading.Gives (λ x. (x.0, x.1.now)) result (reading.word16_in least most bytes.now) }
    ensures least { IfOk result (λ x. least ≤ x.0) }
    ensures most { IfOk result (λ x. x.0 ≤ most) }
{
    let (number, rest) = read_word16(bytes)?;
    if !within(least, most, u64::from(number)) {
        return Err(out_of_range(bytes));
    }
    Ok((number, rest))
}

#[tactic(auto, unfolding(crate::specs::Decoder::word32_in))]
pub(crate) fn read_word32_in(least: u64, most: u64, bytes: &[u8]) -> Result<(u32, &[u8]), ReadError>
    ensures { reading.Gives (λ x. (x.0, x.1.now)) result (reading.word32_in least most bytes.now) }
{
    let (number, rest) = read_word32(bytes)?;
    if !within(least, most, u64::from(number)) {
        return Err(out_of_range(bytes));
    }
    Ok((number, rest))
}

/// Reads an inode above 0 from the front of the bytes. Returns it and the bytes after it, or the
/// first fault.
pub fn read_ino(bytes: &[u8]) -> Result<(u32, &[u8]), ReadError>
    ensures { reading.Gives (λ x. (x.0, x.1.now)) result (reading.ino_at bytes.now) }
{
    read_word32_in(1, 4_294_967_295, bytes)
}

/// Reads a grant's number from the front of the bytes. Returns it and the bytes after it, or the
/// first fault.
#[tactic(auto, unfolding(crate::specs::Decoder::grant_at))]
pub fn read_grant(bytes: &[u8]) -> Result<(GrantNo, &[u8]), ReadError>
    ensures { reading.Gives (λ x. (x.0, x.1.now)) result (reading.grant_at bytes.now) }
{
    let (number, rest) = read_word64(bytes)?;
    Ok((GrantNo(number), rest))
}

/// Reads a page number that is at least `least`.
#[tactic(auto, unfolding(crate::specs::Decoder::page_at))]
pub fn read_page(least: u64, bytes: &[u8]) -> Result<(PageNo, &[u8]), ReadError>
    ensures { reading.Gives (λ x. (x.0, x.1.now)) result (reading.page_at least bytes.now) }
{
    let (number, rest) = read_word32_in(least, 1_048_575, bytes)?;
    Ok((PageNo(number), rest))
}

fn mode_numbered(number: u8) -> Mode
    ensures { result ≡ reading.mode_numbered number }
{
    match number {
        0 => Mode::None,
        1 => Mode::S,
        _ => Mode::X,
    }
}

/// Reads a mode in this range from the front of the bytes. Returns it and the bytes after it, or
/// the first fault.
#[tactic(auto, unfolding(crate::specs::Decoder::mode_at))]
pub fn read_mode(least: u64, most: u64, bytes: &[u8]) -> Result<(Mode, &[u8]), ReadError>
    ensures { reading.Gives (λ x. (x.0, x.1.now)) result (reading.mode_at least most bytes.now) }
{
    let (number, rest) = read_byte_in(least, most, bytes)?;
    Ok((mode_numbered(number), rest))
}

fn read_text(len: usize, bytes: &[u8]) -> Result<(&[u8], &[u8]), ReadError>
    ensures text { reading.Gives (λ x. (x.0.now, x.1.now)) result (reading.text_at len bytes.now) }
    ensures long { IfOk result (λ x. length x.0.now ≡ len) }
{
    if bytes.len() < len {
        return Err(ReadError::Fault(Fault::Short));
    }
    Ok(bytes.split_at(len))
}

#[tactic(auto, unfolding(crate::specs::Decoder::name_at))]
pub(crate) fn read_name(
    alloc: Global,
    least: u64,
    most: u64,
    bytes: &[u8],
) -> Result<(Name, &[u8]), ReadError>
    ensures { reading.Gives (λ x. (x.0, x.1.now)) result (reading.name_at least most bytes.now) }
{
    let (len, rest) = read_byte_in(least, most, bytes)?;
    let (text, rest) = read_text(len as usize, rest)?;
    Ok((Name::from_slice(alloc, text)?, rest))
}

/// Reads the bytes of a page from the front of the bytes. Returns it and the bytes after it, or the
/// first fault.
#[tactic(auto, unfolding(crate::specs::Decoder::whole_page_at))]
pub fn read_whole_page(alloc: Global, bytes: &[u8]) -> Result<(PageBytes, &[u8]), ReadError>
    ensures { reading.Gives (λ x. (x.0, x.1.now)) result (reading.whole_page_at bytes.now) }
{
    let (text, rest) = read_text(4096, bytes)?;
    let page = PageBytes::from_slice(alloc, text)?;
    Ok((page, rest))
}

/// Reads the bytes of a patch that begins at this byte of its page from the front of the bytes.
/// Returns it and the bytes after it, or the first fault.
#[tactic(auto, unfolding(crate::specs::Decoder::patch_bytes_at))]
pub fn read_patch_bytes(
    alloc: Global,
    at: u16,
    bytes: &[u8],
) -> Result<(PatchBytes, &[u8]), ReadError>
    ensures { reading.Gives (λ x. (x.0, x.1.now)) result (reading.patch_bytes_at at bytes.now) }
{
    let most = 4_096u64.saturating_sub(u64::from(at));
    let (len, rest) = read_word16_in(1, most, bytes)?;
    let (text, rest) = read_text(len as usize, rest)?;
    Ok((PatchBytes::from_vec(Vec::from_slice(alloc, text)?), rest))
}

/// Reads a file from the front of the bytes. Returns it and the bytes after it, or the first fault.
#[tactic(auto, unfolding(crate::specs::Decoder::file_at))]
pub fn read_file(least: u64, bytes: &[u8]) -> Result<(FileId, &[u8]), ReadError>
    ensures { reading.Gives (λ x. (x.0, x.1.now)) result (reading.file_at least bytes.now) }
{
    let (server, rest) = read_word16_in(least, 65_535, bytes)?;
    let (ino, rest) = read_word32_in(least, 4_294_967_295, rest)?;
    let server = ServerId(server);
    Ok((FileId { server, ino }, rest))
}

#[tactic(auto, unfolding(crate::specs::Decoder::block_at))]
pub(crate) fn read_block(bytes: &[u8]) -> Result<(BlockAt, &[u8]), ReadError>
    ensures { reading.Gives (λ x. (x.0, x.1.now)) result (reading.block_at bytes.now) }
{
    let (disk, rest) = read_word16_in(1, 8, bytes)?;
    let (block, rest) = read_word32_in(0, 4_095, rest)?;
    let disk = DiskId(disk);
    Ok((BlockAt { disk, block }, rest))
}

/// Reads a block of any numbers from the front of the bytes. Returns it and the bytes after it, or
/// the first fault.
#[tactic(auto, unfolding(crate::specs::Decoder::any_block_at))]
pub fn read_any_block(bytes: &[u8]) -> Result<(BlockAt, &[u8]), ReadError>
    ensures { reading.Gives (λ x. (x.0, x.1.now)) result (reading.any_block_at bytes.now) }
{
    let (disk, rest) = read_word16(bytes)?;
    let (block, rest) = read_word32(rest)?;
    let disk = DiskId(disk);
    Ok((BlockAt { disk, block }, rest))
}

/// Reads a tag from the front of the bytes. Returns it and the bytes after it, or the first fault.
#[tactic(auto, unfolding(crate::specs::Decoder::tag_at))]
pub fn read_tag(least: u64, bytes: &[u8]) -> Result<(Tag, &[u8]), ReadError>
    ensures { reading.Gives (λ x. (x.0, x.1.now)) result (reading.tag_at least bytes.now) }
{
    let (file, rest) = read_file(least, bytes)?;
    let (page, rest) = read_page(0, rest)?;
    let (birth, rest) = read_word64(rest)?;
    Ok((Tag { file, page, birth }, rest))
}
