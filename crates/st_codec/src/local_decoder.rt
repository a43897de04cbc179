// Asks, answers, and disk commands with their results, from their bytes.
ghost use Rattle.std.specs.Prelude.{◌≡◌};
ghost use Rattle.st_codec.specs.Decoder as reading;
ghost use Rattle.st_codec_fields.specs.Decoder as fields;

use st_base::{BlockAt, Command, FileId, PageBytes, PageNo, ServerId, Tag};
use st_codec_fields::{
    Fault, ReadError, read_byte, read_file, read_ino, read_lost, read_name_ask, read_names,
    read_page, read_patch_bytes, read_tag, read_whole_page, read_word16_in, read_word64,
};
use st_messages::{AppAnswer, Ask, DiskResult};
use std::alloc::Global;

#[tactic(auto, unfolding(crate::specs::Decoder::file_page_at))]
fn read_file_page(bytes: &[u8]) -> Result<((FileId, PageNo), &[u8]), ReadError>
    ensures { fields.Gives (λ x. (x.0, x.1.now)) result (reading.file_page_at bytes.now) }
{
    let (file, rest) = read_file(1, bytes)?;
    let (page, rest) = read_page(0, rest)?;
    Ok(((file, page), rest))
}

#[tactic(auto, unfolding(crate::specs::Decoder::write_at))]
fn read_write(alloc: Global, bytes: &[u8]) -> Result<(Ask, &[u8]), ReadError>
    ensures { fields.Gives (λ x. (x.0, x.1.now)) result (reading.write_at bytes.now) }
{
    let (file, rest) = read_file(1, bytes)?;
    let (page, rest) = read_page(0, rest)?;
    let (text, rest) = read_whole_page(alloc, rest)?;
    Ok((Ask::Write(file, page, text), rest))
}

/// A request of version 1.
#[tactic(auto, unfolding(crate::specs::Decoder::ask_at, crate::specs::Decoder::ask_numbered, crate::specs::Decoder::ask_names_at))]
pub(crate) fn read_ask(alloc: Global, bytes: &[u8]) -> Result<(Ask, &[u8]), ReadError>
    ensures { fields.Gives (λ x. (x.0, x.1.now)) result (reading.ask_at bytes.now) }
{
    let (number, rest) = read_byte(bytes)?;
    match number {
        1 => read_write(alloc, rest),
        2 => {
            let ((file, page), rest) = read_file_page(rest)?;
            Ok((Ask::Read(file, page), rest))
        }
        3 => {
            let (file, rest) = read_file(1, rest)?;
            Ok((Ask::Sync(file), rest))
        }
        4 => {
            let ((file, page), rest) = read_file_page(rest)?;
            Ok((Ask::Cut(file, page), rest))
        }
        5 => {
            let (server, rest) = read_word16_in(1, 65_535, rest)?;
            let (ask, rest) = read_name_ask(alloc, rest)?;
            Ok((Ask::Name(ServerId(server), ask), rest))
        }
        _ => Err(ReadError::Fault(Fault::Value(bytes.len()))),
    }
}

/// The request of version 2.
#[tactic(auto, unfolding(crate::specs::Decoder::patch_at, crate::specs::Decoder::patch_numbered, crate::specs::Decoder::patch_fields_at))]
pub(crate) fn read_patch(alloc: Global, bytes: &[u8]) -> Result<(Ask, &[u8]), ReadError>
    ensures { fields.Gives (λ x. (x.0, x.1.now)) result (reading.patch_at bytes.now) }
{
    let (number, rest) = read_byte(bytes)?;
    if number != 6 {
        return Err(ReadError::Fault(Fault::Value(bytes.len())));
    }
    let (file, rest) = read_file(1, rest)?;
    let (page, rest) = read_page(0, rest)?;
    let (at, rest) = read_word16_in(0, 4_095, rest)?;
    let (text, rest) = read_patch_bytes(alloc, at, rest)?;
    Ok((Ask::Patch(file, page, at, text), rest))
}

#[tactic(auto, unfolding(crate::specs::Decoder::two_words_at))]
fn read_two_words(bytes: &[u8]) -> Result<((u64, u64), &[u8]), ReadError>
    ensures { fields.Gives (λ x. (x.0, x.1.now)) result (reading.two_words_at bytes.now) }
{
    let (a, rest) = read_word64(bytes)?;
    let (b, rest) = read_word64(rest)?;
    Ok(((a, b), rest))
}

#[tactic(auto, unfolding(crate::specs::Decoder::plain_answer))]
fn read_plain_answer(number: u8, left: usize, bytes: &[u8]) -> Result<(AppAnswer, &[u8]), ReadError>
    ensures { fields.Gives (λ x. (x.0, x.1.now)) result (reading.plain_answer number left bytes.now) }
{
    match number {
        0 => Ok((AppAnswer::Written, bytes)),
        2 => Ok((AppAnswer::Hard, bytes)),
        3 => Ok((AppAnswer::Cut, bytes)),
        17 => Ok((AppAnswer::Quiesced, bytes)),
        18 => Ok((AppAnswer::NoFile, bytes)),
        21 => Ok((AppAnswer::OpsFull, bytes)),
        24 => Ok((AppAnswer::DirtyFull, bytes)),
        25 => Ok((AppAnswer::NotHolder, bytes)),
        26 => Ok((AppAnswer::TooManyLocks, bytes)),
        _ => Err(ReadError::Fault(Fault::Value(left))),
    }
}

#[tactic(auto, unfolding(crate::specs::Decoder::answer_at, crate::specs::Decoder::answer_numbered))]
pub(crate) fn read_answer(alloc: Global, bytes: &[u8]) -> Result<(AppAnswer, &[u8]), ReadError>
    ensures { fields.Gives (λ x. (x.0, x.1.now)) result (reading.answer_at bytes.now) }
{
    let (number, rest) = read_byte(bytes)?;
    match number {
        1 => {
            let (text, rest) = read_whole_page(alloc, rest)?;
            Ok((AppAnswer::Read(text), rest))
        }
        4 => {
            let (ino, rest) = read_ino(rest)?;
            Ok((AppAnswer::Named(ino), rest))
        }
        5 => {
            let (rows, rest) = read_names(alloc, rest)?;
            Ok((AppAnswer::Listed(rows), rest))
        }
        6 => {
            let (code, rest) = read_byte(rest)?;
            Ok((AppAnswer::Refused(code), rest))
        }
        19 => {
            let ((free, asked), rest) = read_two_words(rest)?;
            Ok((AppAnswer::NoSpace(free, asked), rest))
        }
        20 => {
            let (command, rest) = read_word64(rest)?;
            Ok((AppAnswer::DiskFault(command), rest))
        }
        22 => {
            let ((old, new), rest) = read_two_words(rest)?;
            Ok((AppAnswer::Uncertain(old, new), rest))
        }
        23 => {
            let (rows, rest) = read_lost(alloc, rest)?;
            Ok((AppAnswer::Lost(rows), rest))
        }
        _ => read_plain_answer(number, bytes.len(), rest),
    }
}

#[tactic(auto, unfolding(crate::specs::Decoder::tagged_page_at))]
fn read_tagged_page(
    alloc: Global,
    least: u64,
    bytes: &[u8],
) -> Result<((Tag, PageBytes), &[u8]), ReadError>
    ensures { fields.Gives (λ x. (x.0, x.1.now)) result (reading.tagged_page_at least bytes.now) }
{
    let (tag, rest) = read_tag(least, bytes)?;
    let (text, rest) = read_whole_page(alloc, rest)?;
    Ok(((tag, text), rest))
}

/// A command on this block.
#[tactic(auto, unfolding(crate::specs::Decoder::command_at, crate::specs::Decoder::command_numbered))]
pub(crate) fn read_command(
    alloc: Global,
    at: BlockAt,
    bytes: &[u8],
) -> Result<(Command, &[u8]), ReadError>
    ensures { fields.Gives (λ x. (x.0, x.1.now)) result (reading.command_at at bytes.now) }
{
    let (number, rest) = read_byte(bytes)?;
    match number {
        0 => Ok((Command::Read { at }, rest)),
        1 => {
            let ((tag, bytes), rest) = read_tagged_page(alloc, 1, rest)?;
            Ok((Command::Write { at, tag, bytes }, rest))
        }
        _ => Err(ReadError::Fault(Fault::Value(bytes.len()))),
    }
}

#[tactic(auto, unfolding(crate::specs::Decoder::disk_result_at, crate::specs::Decoder::result_numbered))]
pub(crate) fn read_disk_result(
    alloc: Global,
    bytes: &[u8],
) -> Result<(DiskResult, &[u8]), ReadError>
    ensures { fields.Gives (λ x. (x.0, x.1.now)) result (reading.disk_result_at bytes.now) }
{
    let (number, rest) = read_byte(bytes)?;
    match number {
        0 => Ok((DiskResult::Failed, rest)),
        1 => Ok((DiskResult::WriteDone, rest)),
        2 => {
            let ((tag, text), rest) = read_tagged_page(alloc, 0, rest)?;
            Ok((DiskResult::ReadDone(tag, text), rest))
        }
        _ => Err(ReadError::Fault(Fault::Value(bytes.len()))),
    }
}
