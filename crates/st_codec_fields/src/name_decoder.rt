// What is asked of names, and what answers it, from its bytes.
ghost use Rattle.std.specs.Prelude.{◌≡◌};
ghost use Rattle.st_codec_fields.specs.Decoder as reading;

use crate::fault::{Fault, ReadError};
use crate::field::{read_byte, read_byte_in, read_grant, read_ino, read_name, read_word32};
use crate::row::read_names;
use st_base::{Name, NameAsk};
use st_messages::{NameOp, NameReply};
use std::alloc::Global;

/// A directory and a name in it.
#[tactic(auto, unfolding(crate::specs::Decoder::dir_name_at))]
fn read_dir_name(alloc: Global, least: u64, bytes: &[u8]) -> Result<((u32, Name), &[u8]), ReadError>
    ensures { reading.Gives (λ x. (x.0, x.1.now)) result (reading.dir_name_at least bytes.now) }
{
    let (dir, rest) = read_ino(bytes)?;
    let (name, rest) = read_name(alloc, least, 255, rest)?;
    Ok(((dir, name), rest))
}

#[tactic(auto, unfolding(crate::specs::Decoder::remove_at))]
fn read_remove(alloc: Global, bytes: &[u8]) -> Result<(NameOp, &[u8]), ReadError>
    ensures { reading.Gives (λ x. (x.0, x.1.now)) result (reading.remove_at bytes.now) }
{
    let (dir, rest) = read_ino(bytes)?;
    let (name, rest) = read_name(alloc, 1, 255, rest)?;
    let (g, rest) = read_grant(rest)?;
    Ok((NameOp::Remove { dir, name, g }, rest))
}

#[tactic(auto, unfolding(crate::specs::Decoder::rename_at))]
fn read_rename(alloc: Global, bytes: &[u8]) -> Result<(NameOp, &[u8]), ReadError>
    ensures { reading.Gives (λ x. (x.0, x.1.now)) result (reading.rename_at bytes.now) }
{
    let ((dir, name), rest) = read_dir_name(alloc, 1, bytes)?;
    let ((dir2, name2), rest) = read_dir_name(alloc, 1, rest)?;
    let op = NameOp::Rename {
        dir,
        name,
        dir2,
        name2,
    };
    Ok((op, rest))
}

#[tactic(auto, unfolding(crate::specs::Decoder::op_numbered))]
fn read_op_numbered(
    alloc: Global,
    number: u8,
    left: usize,
    bytes: &[u8],
) -> Result<(NameOp, &[u8]), ReadError>
    ensures { reading.Gives (λ x. (x.0, x.1.now)) result (reading.op_numbered number left bytes.now) }
{
    match number {
        1 => {
            let ((dir, name), rest) = read_dir_name(alloc, 1, bytes)?;
            Ok((NameOp::Lookup { dir, name }, rest))
        }
        2 => {
            let ((dir, name), rest) = read_dir_name(alloc, 1, bytes)?;
            Ok((NameOp::Create { dir, name }, rest))
        }
        3 => {
            let ((dir, name), rest) = read_dir_name(alloc, 1, bytes)?;
            Ok((NameOp::Mkdir { dir, name }, rest))
        }
        4 => read_remove(alloc, bytes),
        5 => read_rename(alloc, bytes),
        6 => {
            let ((dir, after), rest) = read_dir_name(alloc, 0, bytes)?;
            Ok((NameOp::List { dir, after }, rest))
        }
        _ => Err(ReadError::Fault(Fault::Value(left))),
    }
}

/// Reads an operation on names from the front of the bytes. Returns it and the bytes after it, or
/// the first fault.
#[tactic(auto, unfolding(crate::specs::Decoder::name_op_at))]
pub fn read_name_op(alloc: Global, bytes: &[u8]) -> Result<(NameOp, &[u8]), ReadError>
    ensures { reading.Gives (λ x. (x.0, x.1.now)) result (reading.name_op_at bytes.now) }
{
    let (number, rest) = read_byte(bytes)?;
    read_op_numbered(alloc, number, bytes.len(), rest)
}

#[tactic(auto, unfolding(crate::specs::Decoder::remove_ask_at))]
fn read_remove_ask(alloc: Global, bytes: &[u8]) -> Result<(NameAsk, &[u8]), ReadError>
    ensures { reading.Gives (λ x. (x.0, x.1.now)) result (reading.remove_ask_at bytes.now) }
{
    let (dir, rest) = read_ino(bytes)?;
    let (name, rest) = read_name(alloc, 1, 255, rest)?;
    let (ino, rest) = read_word32(rest)?;
    Ok((NameAsk::Remove { dir, name, ino }, rest))
}

#[tactic(auto, unfolding(crate::specs::Decoder::rename_ask_at))]
fn read_rename_ask(alloc: Global, bytes: &[u8]) -> Result<(NameAsk, &[u8]), ReadError>
    ensures { reading.Gives (λ x. (x.0, x.1.now)) result (reading.rename_ask_at bytes.now) }
{
    let ((dir, name), rest) = read_dir_name(alloc, 1, bytes)?;
    let ((dir2, name2), rest) = read_dir_name(alloc, 1, rest)?;
    let ask = NameAsk::Rename {
        dir,
        name,
        dir2,
        name2,
    };
    Ok((ask, rest))
}

#[tactic(auto, unfolding(crate::specs::Decoder::name_ask_numbered))]
fn read_ask_numbered(
    alloc: Global,
    number: u8,
    left: usize,
    bytes: &[u8],
) -> Result<(NameAsk, &[u8]), ReadError>
    ensures { reading.Gives (λ x. (x.0, x.1.now)) result (reading.name_ask_numbered number left bytes.now) }
{
    match number {
        1 => {
            let ((dir, name), rest) = read_dir_name(alloc, 1, bytes)?;
            Ok((NameAsk::Lookup { dir, name }, rest))
        }
        2 => {
            let ((dir, name), rest) = read_dir_name(alloc, 1, bytes)?;
            Ok((NameAsk::Create { dir, name }, rest))
        }
        3 => {
            let ((dir, name), rest) = read_dir_name(alloc, 1, bytes)?;
            Ok((NameAsk::Mkdir { dir, name }, rest))
        }
        4 => read_remove_ask(alloc, bytes),
        5 => read_rename_ask(alloc, bytes),
        6 => {
            let ((dir, after), rest) = read_dir_name(alloc, 0, bytes)?;
            Ok((NameAsk::List { dir, after }, rest))
        }
        _ => Err(ReadError::Fault(Fault::Value(left))),
    }
}

/// Reads an ask on names from the front of the bytes. Returns it and the bytes after it, or the
/// first fault.
#[tactic(auto, unfolding(crate::specs::Decoder::name_ask_at))]
pub fn read_name_ask(alloc: Global, bytes: &[u8]) -> Result<(NameAsk, &[u8]), ReadError>
    ensures { reading.Gives (λ x. (x.0, x.1.now)) result (reading.name_ask_at bytes.now) }
{
    let (number, rest) = read_byte(bytes)?;
    read_ask_numbered(alloc, number, bytes.len(), rest)
}

#[tactic(auto, unfolding(crate::specs::Decoder::reply_numbered))]
fn read_reply_numbered(
    alloc: Global,
    number: u8,
    left: usize,
    bytes: &[u8],
) -> Result<(NameReply, &[u8]), ReadError>
    ensures { reading.Gives (λ x. (x.0, x.1.now)) result (reading.reply_numbered number left bytes.now) }
{
    match number {
        0 => {
            let (ino, rest) = read_ino(bytes)?;
            Ok((NameReply::Ino(ino), rest))
        }
        1 => {
            let (rows, rest) = read_names(alloc, bytes)?;
            Ok((NameReply::Listed(rows), rest))
        }
        2 => {
            let (code, rest) = read_byte_in(1, 8, bytes)?;
            Ok((NameReply::Refused(code), rest))
        }
        _ => Err(ReadError::Fault(Fault::Value(left))),
    }
}

/// Reads the reply to an operation on names from the front of the bytes. Returns it and the bytes
/// after it, or the first fault.
#[tactic(auto, unfolding(crate::specs::Decoder::name_reply_at))]
pub fn read_name_reply(alloc: Global, bytes: &[u8]) -> Result<(NameReply, &[u8]), ReadError>
    ensures { reading.Gives (λ x. (x.0, x.1.now)) result (reading.name_reply_at bytes.now) }
{
    let (number, rest) = read_byte(bytes)?;
    read_reply_numbered(alloc, number, bytes.len(), rest)
}
