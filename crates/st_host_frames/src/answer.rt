// Answers as structs.
ghost use Rattle.std.specs.Prelude.{◌≡◌, IfOk, IfErr, OnErr, Ok, length};
ghost use Rattle.st_host_frames.specs.Answers as answers;
ghost use Rattle.st_host_frames.specs.Answers.{Shows, answer_in, page_by};
ghost use Rattle.st_host_frames.specs.Results.{Gives, NotPut, Wrote};

use crate::fault::HostFault;
use crate::frame::read_frame;
use crate::page_room::write_page;
use st_messages::{AppAnswer, Body, Message};
use std::alloc::Global;

/// An answer to an application.
#[repr(C)]
#[derive(Clone, Copy)]
pub struct TankAnswer {
    /// The number of the ask.
    pub op: u64,
    /// The inode number of an entry, the number of a refusal, free blocks, the failed command or
    /// the old epoch; 0 for other answers.
    pub first: u64,
    /// The blocks that were requested, or the new epoch; 0 for other answers.
    pub second: u64,
    /// How many bytes of a page there are: 4,096 or 0.
    pub page: usize,
    /// How many rows there are.
    pub rows: usize,
    /// Its kind, with the number that it has on the wire.
    pub answer: u32,
    /// The client from which it comes.
    pub client: u16,
}

/// An answer, the number of its ask, and the client from which it comes.
#[derive(Drop)]
pub struct Answered {
    pub(crate) client: u16,
    pub(crate) op: u32,
    pub(crate) answer: AppAnswer,
}

/// Reads the answer of a frame.
pub(crate) fn read_answer(alloc: Global, frame: &[u8]) -> Result<Answered, HostFault>
    ensures { Gives (λ a. a) result (answer_in frame.now) }
{
    match read_frame(alloc, frame)? {
        Ok(
            Message {
                header,
                body: Body::AppDone { op, answer },
            },
        ) => Ok(Answered {
            client: header.from,
            op,
            answer,
        }),
        Ok(_) => Err(HostFault::OtherKind),
        Err(fault) => Err(HostFault::Frame(fault)),
    }
}

/// The number of an answer on the wire.
fn number_of(answer: &AppAnswer) -> u32
    ensures { result ≡ answers.number_of answer.now }
{
    match answer {
        AppAnswer::Written => 0,
        AppAnswer::Read(_) => 1,
        AppAnswer::Hard => 2,
        AppAnswer::Cut => 3,
        AppAnswer::Named(_) => 4,
        AppAnswer::Listed(_) => 5,
        AppAnswer::Refused(_) => 6,
        AppAnswer::Quiesced => 17,
        AppAnswer::NoFile => 18,
        AppAnswer::NoSpace(_, _) => 19,
        AppAnswer::DiskFault(_) => 20,
        AppAnswer::OpsFull => 21,
        AppAnswer::Uncertain(_, _) => 22,
        AppAnswer::Lost(_) => 23,
        AppAnswer::DirtyFull => 24,
        AppAnswer::NotHolder => 25,
        AppAnswer::TooManyLocks => 26,
    }
}

fn first_of(answer: &AppAnswer) -> u64
    ensures { result ≡ answers.first_of answer.now }
{
    match answer {
        AppAnswer::Named(ino) => u64::from(*ino),
        AppAnswer::Refused(code) => u64::from(*code),
        AppAnswer::NoSpace(free, _) => *free,
        AppAnswer::DiskFault(command) => *command,
        AppAnswer::Uncertain(old, _) => *old,
        _ => 0,
    }
}

fn second_of(answer: &AppAnswer) -> u64
    ensures { result ≡ answers.second_of answer.now }
{
    match answer {
        AppAnswer::NoSpace(_, asked) => *asked,
        AppAnswer::Uncertain(_, new) => *new,
        _ => 0,
    }
}

fn rows_of(answer: &AppAnswer) -> usize
    ensures { result ≡ answers.rows_of answer.now }
{
    match answer {
        AppAnswer::Listed(rows) => rows.len(),
        AppAnswer::Lost(rows) => rows.len(),
        _ => 0,
    }
}

/// Writes the page of an answer, if it has one, and returns how many bytes that are.
fn write_answer_page(answer: &AppAnswer, out: &mut [u8]) -> Result<usize, HostFault>
    ensures ok { IfOk result (Wrote (answers.page_of answer.now) out.old out.new) }
    ensures err { IfErr result (NotPut (Ok (answers.page_of answer.now)) (length out.old)) }
    ensures kept { OnErr result (out.new ≡ out.old) }
{
    match answer {
        AppAnswer::Read(page) => write_page(page, out),
        _ => Ok(0),
    }
}

/// Shows the answer of a frame. The page that was read comes first in the buffer. The rows of an
/// answer are shown by `decode_entries` and `decode_lost_pages`. `Frame` comes before `OtherKind`,
/// and both before `Room`.
#[tactic(auto, using(crate::proofs::Faults::fails_then, crate::proofs::Faults::then_is, crate::proofs::Faults::not_due, crate::proofs::Faults::not_put))]
pub fn decode_answer(alloc: Global, frame: &[u8], page: &mut [u8]) -> Result<TankAnswer, HostFault>
    ensures ok { IfOk result (Shows frame.now page.old page.new) }
    ensures err { IfErr result (NotPut (page_by (answer_in frame.now)) (length page.old)) }
    ensures kept { OnErr result (page.new ≡ page.old) }
{
    let answered = read_answer(alloc, frame)?;
    let count = write_answer_page(&answered.answer, page)?;
    Ok(TankAnswer {
        op: u64::from(answered.op),
        first: first_of(&answered.answer),
        second: second_of(&answered.answer),
        page: count,
        rows: rows_of(&answered.answer),
        answer: number_of(&answered.answer),
        client: answered.client,
    })
}
