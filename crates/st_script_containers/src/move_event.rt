// The events of containers that move, from their lines.
ghost use Rattle.std.specs.Prelude.{◌≡◌, ◌≤◌, IfOk, true};
ghost use Rattle.std.specs.List.{list_all};
ghost use Rattle.st_move.specs.Updates.{is_update};
ghost use Rattle.st_schedule.specs.Parser.{Gives};
ghost use Rattle.st_schedule_words.specs.Words as words;
ghost use Rattle.st_schedule_words.specs.Words.{split, words_behind};
ghost use Rattle.st_script_containers.specs.MoveScripts as scripts;

use st_base::ServerId;
use st_move::{MoveEvent, Update};
use st_schedule::{Fault, ReadError, ends, number_at, split_word, unknown_word, word_at};
use st_schedule_words::is;
use std::alloc::Global;

/// The greatest number of a server.
const MOST_SERVER: u64 = 4;

/// The greatest number of a container.
const MOST_CONTAINER: u64 = 99;

/// The greatest number of a message.
const MOST_NUMBER: u64 = 4_294_967_295;

#[tactic(auto, unfolding(crate::specs::MoveScripts::server_at))]
fn server_at(rest: &[u8]) -> Result<(ServerId, &[u8]), ReadError>
    ensures { Gives (λ x. (x.0, words_behind x.1.now)) result (scripts.server_at (words_behind rest.now)) }
{
    let (s, rest) = number_at(1, MOST_SERVER, rest)?;
    Ok((ServerId(s as u16), rest))
}

/// A server and a container.
#[tactic(auto, unfolding(crate::specs::MoveScripts::place_at))]
fn place_at(rest: &[u8]) -> Result<((ServerId, u32), &[u8]), ReadError>
    ensures { Gives (λ x. (x.0, words_behind x.1.now)) result (scripts.place_at (words_behind rest.now)) }
{
    let (s, rest) = server_at(rest)?;
    let (c, rest) = number_at(1, MOST_CONTAINER, rest)?;
    Ok(((s, c as u32), rest))
}

fn are_visible(word: &[u8]) -> bool
    ensures { result ≡ list_all words.is_visible word.now }
{
    word.iter().all(|b| 33 <= *b && *b <= 126)
}

/// Whether the word has 1 to 64 visible bytes.
fn is_update_text(word: &[u8]) -> bool
    ensures text { result ≡ scripts.is_update_text word.now }
    ensures update { result ≡ true → is_update word.now ≡ true }
{
    1 <= word.len() && word.len() <= 64 && are_visible(word)
}

/// The text of an update.
#[tactic(auto, unfolding(crate::specs::MoveScripts::update_at))]
fn update_at(alloc: Global, rest: &[u8]) -> Result<(Update, &[u8]), ReadError>
    ensures { Gives (λ x. (x.0, words_behind x.1.now)) result (scripts.update_at (words_behind rest.now)) }
{
    let (word, after) = word_at(rest)?;
    if !is_update_text(word) {
        return Err(match rest {
            [] => ReadError::Fault(Fault::Syntax(0)),
            [_, behind @ ..] => unknown_word(behind),
        });
    }
    let update = Update::from_slice(alloc, word)?;
    Ok((update, after))
}

/// A server and a container, and no more.
#[tactic(auto, unfolding(crate::specs::MoveScripts::place_alone))]
fn place_alone(rest: &[u8]) -> Result<(ServerId, u32), ReadError>
    ensures { Gives (λ x. x) result (scripts.place_alone (words_behind rest.now)) }
{
    let (at, rest) = place_at(rest)?;
    ends(rest)?;
    Ok(at)
}

/// The number of a message, and no more.
#[tactic(auto, unfolding(crate::specs::MoveScripts::message_alone))]
fn message_alone(rest: &[u8]) -> Result<u32, ReadError>
    ensures { Gives (λ x. x) result (scripts.message_alone (words_behind rest.now)) }
{
    let (k, rest) = number_at(1, MOST_NUMBER, rest)?;
    ends(rest)?;
    Ok(k as u32)
}

/// Reads the event of a line.
#[tactic(auto, unfolding(crate::specs::MoveScripts::event, crate::specs::MoveScripts::event_of, crate::specs::MoveScripts::put_at, crate::specs::MoveScripts::list_at, crate::specs::MoveScripts::lock_at, crate::specs::MoveScripts::unlock_at, crate::specs::MoveScripts::other_of, crate::specs::MoveScripts::order_at, crate::specs::MoveScripts::tick_at, crate::specs::MoveScripts::deliver_at, crate::specs::MoveScripts::lose_at))]
pub(crate) fn move_event(alloc: Global, line: &[u8]) -> Result<MoveEvent, ReadError>
    ensures { Gives (λ x. x) result (scripts.event (split line.now)) }
{
    let (word, rest) = split_word(line);
    if is(word, b"put") {
        let ((s, c), rest) = place_at(rest)?;
        let (update, rest) = update_at(alloc, rest)?;
        ends(rest)?;
        Ok(MoveEvent::Put(s, c, update))
    } else if is(word, b"list") {
        let (s, c) = place_alone(rest)?;
        Ok(MoveEvent::List(s, c))
    } else if is(word, b"lock") {
        let (s, c) = place_alone(rest)?;
        Ok(MoveEvent::Lock(s, c))
    } else if is(word, b"unlock") {
        let (s, c) = place_alone(rest)?;
        Ok(MoveEvent::Unlock(s, c))
    } else if is(word, b"order") {
        let ((s, c), rest) = place_at(rest)?;
        let (to, rest) = server_at(rest)?;
        ends(rest)?;
        Ok(MoveEvent::Order(s, c, to))
    } else if is(word, b"tick") {
        let (s, rest) = server_at(rest)?;
        ends(rest)?;
        Ok(MoveEvent::Tick(s))
    } else if is(word, b"deliver") {
        Ok(MoveEvent::Deliver(message_alone(rest)?))
    } else if is(word, b"lose") {
        Ok(MoveEvent::Lose(message_alone(rest)?))
    } else {
        Err(unknown_word(line))
    }
}

/// Reads a first line: how many servers there are, and how many containers.
#[tactic(auto, unfolding(crate::specs::MoveScripts::head, crate::specs::MoveScripts::counts_at))]
pub(crate) fn counts_of(line: &[u8]) -> Result<(u16, u32), ReadError>
    ensures value { Gives scripts.fresh result (scripts.head (split line.now)) }
    ensures range { IfOk result (λ x. (2 ≤ x.0) × (x.1 ≤ 64)) }
{
    let (word, rest) = split_word(line);
    if is(word, b"move") {
        let (servers, rest) = number_at(2, MOST_SERVER, rest)?;
        let (containers, rest) = number_at(1, 64, rest)?;
        ends(rest)?;
        Ok((servers as u16, containers as u32))
    } else {
        Err(unknown_word(line))
    }
}
