// The events of a shared file, from their lines.
ghost use Rattle.std.specs.Prelude.{◌≡◌};
ghost use Rattle.st_schedule.specs.Parser.{Gives};
ghost use Rattle.st_schedule_words.specs.Words.{split, words_behind};
ghost use Rattle.st_script_shared.specs.SharedScripts as scripts;

use st_base::{ClientId, PageNo};
use st_schedule::{ReadError, ends, number_at, result_at, split_word, unknown_word};
use st_schedule_words::is;

/// The greatest number of a client.
const MOST_CLIENT: u64 = 16;

/// The greatest page number.
const MOST_PAGE: u64 = 1_048_575;

/// The greatest number of a command.
const MOST_NUMBER: u64 = 4_294_967_295;

/// A first line: how many clients there are, and how many blocks.
#[derive(Clone, Copy, Debug, PartialEq, Eq)]
pub struct SharedHead {
    pub clients: u16,
    pub blocks: u32,
}

/// What a client does that isn't a command.
#[derive(Clone, Copy, Debug, PartialEq, Eq)]
pub enum ClientAct {
    Enter,
    Leave,
    Lock,
    Unlock,
    Crash,
    Expire,
}

/// An event of a script of a shared file.
#[derive(Clone, Copy, Debug, PartialEq, Eq)]
pub enum SharedEvent {
    /// What a client does that isn't a command.
    Client(ClientAct, ClientId),
    /// A client submits a write that fills a page with a byte.
    Write(ClientId, PageNo, u8),
    /// A client submits a read of a page.
    Read(ClientId, PageNo),
    /// The command of this number has its effect.
    Effect(u64),
    /// The command of this number is reported, as done or as failed.
    Report(u64, bool),
}

/// Reads a first line: the numbers of clients and of blocks.
#[tactic(auto, unfolding(crate::specs::SharedScripts::head, crate::specs::SharedScripts::counts_at))]
pub(crate) fn counts_of(line: &[u8]) -> Result<SharedHead, ReadError>
    ensures { Gives scripts.fresh result (scripts.head (split line.now)) }
{
    let (word, rest) = split_word(line);
    if is(word, b"shared") {
        let (clients, rest) = number_at(1, MOST_CLIENT, rest)?;
        let (blocks, rest) = number_at(1, 4096, rest)?;
        ends(rest)?;
        Ok(SharedHead {
            clients: clients as u16,
            blocks: blocks as u32,
        })
    } else {
        Err(unknown_word(line))
    }
}

#[tactic(auto, unfolding(crate::specs::SharedScripts::client_at))]
fn client_at(rest: &[u8]) -> Result<(ClientId, &[u8]), ReadError>
    ensures { Gives (λ x. (x.0, words_behind x.1.now)) result (scripts.client_at (words_behind rest.now)) }
{
    let (client, rest) = number_at(1, MOST_CLIENT, rest)?;
    Ok((ClientId(client as u16), rest))
}

#[tactic(auto, unfolding(crate::specs::SharedScripts::page_at))]
fn page_at(rest: &[u8]) -> Result<(PageNo, &[u8]), ReadError>
    ensures { Gives (λ x. (x.0, words_behind x.1.now)) result (scripts.page_at (words_behind rest.now)) }
{
    let (page, rest) = number_at(0, MOST_PAGE, rest)?;
    Ok((PageNo(page as u32), rest))
}

#[tactic(auto, unfolding(crate::specs::SharedScripts::act_at))]
fn act_at(act: ClientAct, rest: &[u8]) -> Result<SharedEvent, ReadError>
    ensures { Gives (λ x. x) result (scripts.act_at act (words_behind rest.now)) }
{
    let (client, rest) = client_at(rest)?;
    ends(rest)?;
    Ok(SharedEvent::Client(act, client))
}

/// Reads the event of a line.
#[tactic(auto, unfolding(crate::specs::SharedScripts::event, crate::specs::SharedScripts::event_of, crate::specs::SharedScripts::stop_of, crate::specs::SharedScripts::command_of, crate::specs::SharedScripts::write_at, crate::specs::SharedScripts::read_at, crate::specs::SharedScripts::effect_at, crate::specs::SharedScripts::report_at))]
pub(crate) fn shared_event(line: &[u8]) -> Result<SharedEvent, ReadError>
    ensures { Gives (λ x. x) result (scripts.event (split line.now)) }
{
    let (word, rest) = split_word(line);
    if is(word, b"enter") {
        act_at(ClientAct::Enter, rest)
    } else if is(word, b"leave") {
        act_at(ClientAct::Leave, rest)
    } else if is(word, b"lock") {
        act_at(ClientAct::Lock, rest)
    } else if is(word, b"unlock") {
        act_at(ClientAct::Unlock, rest)
    } else if is(word, b"crash") {
        act_at(ClientAct::Crash, rest)
    } else if is(word, b"expire") {
        act_at(ClientAct::Expire, rest)
    } else if is(word, b"write") {
        let (client, rest) = client_at(rest)?;
        let (page, rest) = page_at(rest)?;
        let (byte, rest) = number_at(0, 255, rest)?;
        ends(rest)?;
        Ok(SharedEvent::Write(client, page, byte as u8))
    } else if is(word, b"read") {
        let (client, rest) = client_at(rest)?;
        let (page, rest) = page_at(rest)?;
        ends(rest)?;
        Ok(SharedEvent::Read(client, page))
    } else if is(word, b"effect") {
        let (command, rest) = number_at(1, MOST_NUMBER, rest)?;
        ends(rest)?;
        Ok(SharedEvent::Effect(command))
    } else if is(word, b"report") {
        let (command, rest) = number_at(1, MOST_NUMBER, rest)?;
        let (ok, rest) = result_at(rest)?;
        ends(rest)?;
        Ok(SharedEvent::Report(command, ok))
    } else {
        Err(unknown_word(line))
    }
}
