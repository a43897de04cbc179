// The rows of answers as structs.
ghost use Rattle.std.specs.Prelude.{◌≡◌, ◌≤◌, IfOk, IfErr, OnErr, map, length, take, drop, replicate};
ghost use Rattle.st_host_frames.specs.Answers as answers;
ghost use Rattle.st_host_frames.specs.Answers.{answer_in, entries_by, entries_of, lost_pages_by, lost_pages_of};
ghost use Rattle.st_host_frames.specs.Results.{Gives, NotPut, Puts};

use crate::answer::read_answer;
use crate::fault::HostFault;
use crate::written::write_first;
use st_base::{LostRow, NameRow};
use st_messages::AppAnswer;
use std::alloc::{AllocError, Global};

/// An entry of a directory. Zeros follow its name, which has at most 64 bytes.
#[repr(C)]
#[derive(Clone, Copy)]
pub struct TankEntry {
    /// The number of bytes of its name.
    pub length: usize,
    pub ino: u32,
    /// 1 if it is a directory, and otherwise 0.
    pub directory: u32,
    pub name: [u8; 64],
}

/// A page whose bytes were lost, and the number of the command that should have written it, or 0 if
/// there was none.
#[repr(C)]
#[derive(Clone, Copy)]
pub struct TankLostPage {
    pub command: u64,
    pub page: u32,
}

/// These bytes, and zeros after them.
fn filled_up(bytes: &[u8]) -> [u8; 64]
    requires { length bytes.now ≤ 64 }
    ensures first { take (length bytes.now) result ≡ bytes.now }
    ensures others { drop (length bytes.now) result ≡ drop (length bytes.now) (replicate 64 0) }
{
    let mut name = [0u8; 64];
    name[..bytes.len()].copy_from_slice(bytes);
    name
}

/// The first 64 bytes.
fn front(bytes: &[u8]) -> &[u8]
    requires { 64 ≤ length bytes.now }
    ensures first { result.now ≡ take 64 bytes.now }
    ensures long { length result.now ≡ 64 }
{
    let (front, _) = bytes.split_at(64);
    front
}

/// The first 64 bytes of a name, and zeros after it.
fn name_shown(bytes: &[u8]) -> [u8; 64]
    ensures { result ≡ answers.name_shown bytes.now }
{
    if bytes.len() < 64 {
        return filled_up(bytes);
    }
    filled_up(front(bytes))
}

/// An entry as a struct.
fn entry_of(row: &NameRow) -> TankEntry
    ensures { result ≡ answers.entry_of row.now }
{
    TankEntry {
        length: row.name.len(),
        ino: row.ino,
        directory: if row.directory { 1 } else { 0 },
        name: name_shown(row.name.as_slice()),
    }
}

/// A lost page as a struct.
fn lost_page_of(row: &LostRow) -> TankLostPage
    ensures { result ≡ answers.lost_page_of row.now }
{
    TankLostPage {
        command: row.command,
        page: row.page.0,
    }
}

fn lost_pages(alloc: Global, rows: &[LostRow]) -> Result<Vec<TankLostPage>, AllocError>
    ensures { IfOk result (λ v. v.items ≡ map answers.lost_page_of rows.now) }
{
    let mut shown = Vec::new(alloc);
    for i in 0..rows.len() {
        shown.push(lost_page_of(&rows[i]))?;
    }
    Ok(shown)
}

fn entries(alloc: Global, rows: &[NameRow]) -> Result<Vec<TankEntry>, AllocError>
    ensures { IfOk result (λ v. v.items ≡ map answers.entry_of rows.now) }
{
    let mut shown = Vec::new(alloc);
    for i in 0..rows.len() {
        shown.push(entry_of(&rows[i]))?;
    }
    Ok(shown)
}

fn shown_entries(alloc: Global, answer: &AppAnswer) -> Result<Vec<TankEntry>, HostFault>
    ensures { Gives (λ v. v.items) result (entries_of answer.now) }
{
    match answer {
        AppAnswer::Listed(rows) => Ok(entries(alloc, rows.as_slice())?),
        _ => Err(HostFault::OtherKind),
    }
}

fn shown_lost_pages(alloc: Global, answer: &AppAnswer) -> Result<Vec<TankLostPage>, HostFault>
    ensures { Gives (λ v. v.items) result (lost_pages_of answer.now) }
{
    match answer {
        AppAnswer::Lost(rows) => Ok(lost_pages(alloc, rows.as_slice())?),
        _ => Err(HostFault::OtherKind),
    }
}

/// Writes to the front of a buffer the entries that the answer of a frame lists, and returns how
/// many there are. `Frame` comes before `OtherKind`, and both before `Room`.
#[tactic(auto, using(crate::proofs::Faults::fails_then, crate::proofs::Faults::then_fails, crate::proofs::Faults::then_is, crate::proofs::Faults::is_put, crate::proofs::Faults::not_due, crate::proofs::Faults::not_put))]
pub fn decode_entries(
    alloc: Global,
    frame: &[u8],
    out: &mut [TankEntry],
) -> Result<usize, HostFault>
    ensures ok { IfOk result (Puts (entries_by (answer_in frame.now)) out.old out.new) }
    ensures err { IfErr result (NotPut (entries_by (answer_in frame.now)) (length out.old)) }
    ensures kept { OnErr result (out.new ≡ out.old) }
{
    let answered = read_answer(alloc, frame)?;
    let entries = shown_entries(alloc, &answered.answer)?;
    write_first(entries.as_slice(), out)
}

/// Writes to the front of a buffer the lost pages that the answer of a frame tells, and returns how
/// many there are. `Frame` comes before `OtherKind`, and both before `Room`.
#[tactic(auto, using(crate::proofs::Faults::fails_then, crate::proofs::Faults::then_fails, crate::proofs::Faults::then_is, crate::proofs::Faults::is_put, crate::proofs::Faults::not_due, crate::proofs::Faults::not_put))]
pub fn decode_lost_pages(
    alloc: Global,
    frame: &[u8],
    out: &mut [TankLostPage],
) -> Result<usize, HostFault>
    ensures ok { IfOk result (Puts (lost_pages_by (answer_in frame.now)) out.old out.new) }
    ensures err { IfErr result (NotPut (lost_pages_by (answer_in frame.now)) (length out.old)) }
    ensures kept { OnErr result (out.new ≡ out.old) }
{
    let answered = read_answer(alloc, frame)?;
    let pages = shown_lost_pages(alloc, &answered.answer)?;
    write_first(pages.as_slice(), out)
}
