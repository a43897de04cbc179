// The line of each observation.
ghost use Rattle.std.specs.Prelude.{◌≡◌, ◌++◌, OnOk};
ghost use Rattle.st_rules.specs.Report as text;
ghost use Rattle.st_rules.specs.declared.observation.Observation.TheVariants as seen;

use crate::answers::put_answer;
use crate::commands::put_command;
use crate::messages::put_message;
use crate::runs::{put_page, put_runs};
use crate::words::{
    put_client, put_field, put_file, put_number, put_numbered, put_server, put_text,
};
use st_base::{ClientId, Command, FileId, PageBytes, PageNo, ServerId};
use st_messages::{AppAnswer, Message, PatchBytes};
use st_rules::{Cause, Observation};
use std::alloc::AllocError;

#[tactic(auto, unfolding(st_rules::specs::Report::observation))]
fn put_sent(out: &mut Vec<u8>, k: u64, message: &Message) -> Result<(), AllocError>
    ensures { OnOk result (out.new.items ≡ out.old.items ++ text.observation (seen.Sent k message.now)) }
{
    put_text(out, b" send")?;
    put_field(out, k)?;
    put_message(out, message)
}

#[tactic(auto, unfolding(st_rules::specs::Report::observation))]
fn put_submitted(
    out: &mut Vec<u8>,
    k: u64,
    client: ClientId,
    number: u64,
    what: &Command,
) -> Result<(), AllocError>
    ensures { OnOk result (out.new.items ≡ out.old.items ++ text.observation (seen.Submitted k client number what.now)) }
{
    put_numbered(out, b" submit", k)?;
    put_client(out, client)?;
    put_field(out, number)?;
    put_command(out, what)
}

#[tactic(auto, unfolding(st_rules::specs::Report::observation))]
fn put_answered(
    out: &mut Vec<u8>,
    client: ClientId,
    op: u32,
    answer: &AppAnswer,
) -> Result<(), AllocError>
    ensures { OnOk result (out.new.items ≡ out.old.items ++ text.observation (seen.Answered client op answer.now)) }
{
    put_text(out, b" answer")?;
    put_client(out, client)?;
    put_field(out, u64::from(op))?;
    put_answer(out, answer)
}

/// Appends a word, the number of a log entry, its client, its file and its page.
fn put_entry(
    out: &mut Vec<u8>,
    word: &[u8],
    index: u64,
    client: ClientId,
    file: FileId,
    page: PageNo,
) -> Result<(), AllocError>
    ensures { OnOk result (out.new.items ≡ out.old.items ++ (word.now ++ text.field index ++ text.client client ++ text.file file ++ text.field page.0)) }
{
    put_numbered(out, word, index)?;
    put_client(out, client)?;
    put_file(out, file)?;
    put_field(out, u64::from(page.0))
}

#[tactic(auto, unfolding(st_rules::specs::Report::observation))]
fn put_wrote(
    out: &mut Vec<u8>,
    index: u64,
    client: ClientId,
    file: FileId,
    page: PageNo,
    bytes: &PageBytes,
) -> Result<(), AllocError>
    ensures { OnOk result (out.new.items ≡ out.old.items ++ text.observation (seen.Wrote index client file page bytes.now)) }
{
    put_entry(out, b" write", index, client, file, page)?;
    put_page(out, bytes)
}

#[tactic(auto, unfolding(st_rules::specs::Report::observation))]
fn put_patched(
    out: &mut Vec<u8>,
    index: u64,
    client: ClientId,
    file: FileId,
    page: PageNo,
    at: u16,
    bytes: &PatchBytes,
) -> Result<(), AllocError>
    ensures { OnOk result (out.new.items ≡ out.old.items ++ text.observation (seen.Patched index client file page at bytes.now)) }
{
    put_entry(out, b" patch", index, client, file, page)?;
    put_field(out, u64::from(at))?;
    put_runs(out, bytes.as_slice())
}

#[tactic(auto, unfolding(st_rules::specs::Report::observation))]
fn put_cut(out: &mut Vec<u8>, index: u64, file: FileId, from: PageNo) -> Result<(), AllocError>
    ensures { OnOk result (out.new.items ≡ out.old.items ++ text.observation (seen.CutAt index file from)) }
{
    put_numbered(out, b" cut", index)?;
    put_file(out, file)?;
    put_field(out, u64::from(from.0))
}

#[tactic(auto, unfolding(st_rules::specs::Report::observation))]
fn put_dropped(out: &mut Vec<u8>, index: u64, cause: Cause) -> Result<(), AllocError>
    ensures { OnOk result (out.new.items ≡ out.old.items ++ text.observation (seen.Dropped index cause)) }
{
    put_numbered(out, b" drop", index)?;
    match cause {
        Cause::Crash => put_text(out, b" crash"),
        Cause::Failed(k) => put_numbered(out, b" failed", k),
    }
}

/// Appends a word, a client, a server and a number.
fn put_at_server(
    out: &mut Vec<u8>,
    word: &[u8],
    client: ClientId,
    server: ServerId,
    n: u64,
) -> Result<(), AllocError>
    ensures { OnOk result (out.new.items ≡ out.old.items ++ (word.now ++ text.client client ++ text.server server ++ text.field n)) }
{
    put_text(out, word)?;
    put_client(out, client)?;
    put_server(out, server)?;
    put_field(out, n)
}

/// Appends a word, a server, a client and a number.
fn put_of_client(
    out: &mut Vec<u8>,
    word: &[u8],
    server: ServerId,
    client: ClientId,
    n: u64,
) -> Result<(), AllocError>
    ensures { OnOk result (out.new.items ≡ out.old.items ++ (word.now ++ text.server server ++ text.client client ++ text.field n)) }
{
    put_text(out, word)?;
    put_server(out, server)?;
    put_client(out, client)?;
    put_field(out, n)
}

#[tactic(auto, unfolding(st_rules::specs::Report::observation))]
fn put_observation(out: &mut Vec<u8>, o: &Observation) -> Result<(), AllocError>
    ensures { OnOk result (out.new.items ≡ out.old.items ++ text.observation o.now) }
{
    match o {
        Observation::Sent { k, message } => put_sent(out, *k, message),
        Observation::Submitted {
            k,
            client,
            number,
            what,
        } => put_submitted(out, *k, *client, *number, what),
        Observation::Answered { client, op, answer } => put_answered(out, *client, *op, answer),
        Observation::Wrote {
            index,
            client,
            file,
            page,
            bytes,
        } => put_wrote(out, *index, *client, *file, *page, bytes),
        Observation::Patched {
            index,
            client,
            file,
            page,
            at,
            bytes,
        } => put_patched(out, *index, *client, *file, *page, *at, bytes),
        Observation::CutAt { index, file, from } => put_cut(out, *index, *file, *from),
        Observation::Hardened(index) => put_numbered(out, b" hard", *index),
        Observation::Dropped { index, cause } => put_dropped(out, *index, *cause),
        Observation::Leased {
            client,
            server,
            end,
        } => put_at_server(out, b" lease", *client, *server, end.0),
        Observation::Lost {
            client,
            server,
            life,
        } => put_at_server(out, b" lost", *client, *server, life.0),
        Observation::Suspected {
            server,
            client,
            start,
        } => put_of_client(out, b" suspect", *server, *client, start.0),
        Observation::Stolen {
            server,
            client,
            life,
        } => put_of_client(out, b" steal", *server, *client, life.0),
    }
}

/// Appends a line for each observation of the event of this number.
#[tactic(auto, unfolding(st_rules::specs::Report::line))]
pub fn put_lines(out: &mut Vec<u8>, event: u64, seen: &[Observation]) -> Result<(), AllocError>
    ensures { OnOk result (out.new.items ≡ out.old.items ++ text.lines event seen.now) }
{
    for o in seen {
        put_number(out, event)?;
        put_observation(out, o)?;
        put_text(out, b"\n")?;
    }
    Ok(())
}

/// Appends the line that follows an accepted head.
pub fn put_opening(out: &mut Vec<u8>) -> Result<(), AllocError>
    ensures { OnOk result (out.new.items ≡ out.old.items ++ text.opening) }
{
    put_text(out, b"tank report 1\n")
}
