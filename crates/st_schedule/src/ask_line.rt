// Asks, from the words of their lines.
ghost use Rattle.st_schedule_words.specs.Words.{words_behind};
ghost use Rattle.st_schedule.specs.Parser.{Gives};
ghost use Rattle.st_schedule.specs.Parser as reading;

use crate::fault::ReadError;
use crate::next_word::{after_at, ask_verb_at, client_at, file_at, name_at, number_at, place_at};
use crate::verb::AskVerb;
use st_base::{FileId, Name, NameAsk, PageBytes};
use st_messages::{Ask, Event, PatchBytes};
use st_schedule_words::MOST_NUMBER;
use std::alloc::Global;

/// A directory and a name in it.
#[tactic(auto, unfolding(crate::specs::Parser::entry_at))]
fn entry_at(alloc: Global, rest: &[u8]) -> Result<((FileId, Name), &[u8]), ReadError>
    ensures { Gives (λ x. (x.0, words_behind x.1.now)) result (reading.entry_at (words_behind rest.now)) }
{
    let (directory, rest) = file_at(rest)?;
    let (name, rest) = name_at(alloc, rest)?;
    Ok(((directory, name), rest))
}

/// A patch of one byte repeated; its place and its length are within the page.
#[tactic(auto, unfolding(crate::specs::Parser::patch_at, crate::specs::Parser::range_at))]
fn patch_at(alloc: Global, rest: &[u8]) -> Result<(Ask, &[u8]), ReadError>
    ensures { Gives (λ x. (x.0, words_behind x.1.now)) result (reading.patch_at (words_behind rest.now)) }
{
    let ((file, page), rest) = place_at(rest)?;
    let (at, rest) = number_at(0, 4095, rest)?;
    let (len, rest) = number_at(1, 4096 - at, rest)?;
    let (byte, rest) = number_at(0, 255, rest)?;
    let bytes = vec![in alloc; byte as u8; len as usize]?;
    Ok((
        Ask::Patch(file, page, at as u16, PatchBytes::from_vec(bytes)),
        rest,
    ))
}

#[tactic(auto, unfolding(crate::specs::Parser::rename_at))]
fn rename_at(alloc: Global, rest: &[u8]) -> Result<(Ask, &[u8]), ReadError>
    ensures { Gives (λ x. (x.0, words_behind x.1.now)) result (reading.rename_at (words_behind rest.now)) }
{
    let ((directory, name), rest) = entry_at(alloc, rest)?;
    let (dir2, rest) = number_at(1, MOST_NUMBER, rest)?;
    let (name2, rest) = name_at(alloc, rest)?;
    let ask = NameAsk::Rename {
        dir: directory.ino,
        name,
        dir2: dir2 as u32,
        name2,
    };
    Ok((Ask::Name(directory.server, ask), rest))
}

/// What is asked by this verb and the words after it.
#[tactic(auto, unfolding(crate::specs::Parser::asked_at, crate::specs::Parser::write_at, crate::specs::Parser::read_at, crate::specs::Parser::sync_at, crate::specs::Parser::cut_at, crate::specs::Parser::lookup_at, crate::specs::Parser::create_at, crate::specs::Parser::mkdir_at, crate::specs::Parser::remove_at, crate::specs::Parser::list_at))]
fn asked_at(alloc: Global, verb: AskVerb, rest: &[u8]) -> Result<(Ask, &[u8]), ReadError>
    ensures { Gives (λ x. (x.0, words_behind x.1.now)) result (reading.asked_at verb (words_behind rest.now)) }
{
    match verb {
        AskVerb::Write => {
            let ((file, page), rest) = place_at(rest)?;
            let (byte, rest) = number_at(0, 255, rest)?;
            Ok((Ask::Write(file, page, PageBytes::filled(byte as u8)), rest))
        }
        AskVerb::Read => {
            let ((file, page), rest) = place_at(rest)?;
            Ok((Ask::Read(file, page), rest))
        }
        AskVerb::Sync => {
            let (file, rest) = file_at(rest)?;
            Ok((Ask::Sync(file), rest))
        }
        AskVerb::Cut => {
            let ((file, page), rest) = place_at(rest)?;
            Ok((Ask::Cut(file, page), rest))
        }
        AskVerb::Patch => patch_at(alloc, rest),
        AskVerb::Lookup => {
            let ((FileId { server, ino: dir }, name), rest) = entry_at(alloc, rest)?;
            Ok((Ask::Name(server, NameAsk::Lookup { dir, name }), rest))
        }
        AskVerb::Create => {
            let ((FileId { server, ino: dir }, name), rest) = entry_at(alloc, rest)?;
            Ok((Ask::Name(server, NameAsk::Create { dir, name }), rest))
        }
        AskVerb::Mkdir => {
            let ((FileId { server, ino: dir }, name), rest) = entry_at(alloc, rest)?;
            Ok((Ask::Name(server, NameAsk::Mkdir { dir, name }), rest))
        }
        AskVerb::Remove => {
            let ((FileId { server, ino: dir }, name), rest) = entry_at(alloc, rest)?;
            let (ino, rest) = number_at(0, MOST_NUMBER, rest)?;
            let ino = ino as u32;
            Ok((Ask::Name(server, NameAsk::Remove { dir, name, ino }), rest))
        }
        AskVerb::Rename => rename_at(alloc, rest),
        AskVerb::List => {
            let (FileId { server, ino: dir }, rest) = file_at(rest)?;
            let (after, rest) = after_at(alloc, rest)?;
            Ok((Ask::Name(server, NameAsk::List { dir, after }), rest))
        }
    }
}

/// The event of a line `app`: what an application asks of a client.
#[tactic(auto, unfolding(crate::specs::Parser::app_at))]
pub(crate) fn app_at(alloc: Global, form: u8, rest: &[u8]) -> Result<(Event, &[u8]), ReadError>
    ensures { Gives (λ x. (x.0, words_behind x.1.now)) result (reading.app_at form (words_behind rest.now)) }
{
    let (client, rest) = client_at(rest)?;
    let (verb, rest) = ask_verb_at(form, rest)?;
    let (ask, rest) = asked_at(alloc, verb, rest)?;
    Ok((Event::App { client, ask }, rest))
}
