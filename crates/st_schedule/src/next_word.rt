// The next word of a line as a number, a node, a file, a name or a choice; or its column, if it
// is none.
ghost use Rattle.std.specs.Prelude.{◌≡◌, ◌≤◌, IfOk};
ghost use Rattle.st_schedule_words.specs.Words.{split, words_behind};
ghost use Rattle.st_schedule_words.specs.Words as words;
ghost use Rattle.st_schedule.specs.Parser.{Gives};
ghost use Rattle.st_schedule.specs.Parser as reading;

use crate::fault::{Fault, ReadError};
use crate::verb::{AskVerb, ask_verb_of};
use st_base::{ClientId, FileId, Name, NodeId, PageNo};
use st_schedule_words::{
    client_word, file_word, in_range, is, is_name, is_number, node_of, split_word,
};
use std::alloc::Global;

/// The greatest page number.
const MOST_PAGE: u64 = 1_048_575;

/// The number of bytes from the first byte of the next word to the end of the line.
#[tactic(auto, using(st_schedule_words::proofs::Words::left_behind))]
fn left(rest: &[u8]) -> usize
    ensures { result ≡ words.left (words_behind rest.now) }
{
    rest.len().saturating_sub(1)
}

/// The fault of a word that is wrong, missing or superfluous.
pub(crate) fn syntax(rest: &[u8]) -> ReadError
    ensures { result ≡ ReadError.Fault (Fault.Syntax (words.left (words_behind rest.now))) }
{
    ReadError::Fault(Fault::Syntax(left(rest)))
}

/// The fault of a line whose first word is none of those that may be there.
#[tactic(auto, using(st_schedule_words::proofs::Words::left_split))]
pub fn unknown_word(line: &[u8]) -> ReadError
    ensures { result ≡ ReadError.Fault (Fault.Syntax (words.left (split line.now))) }
{
    ReadError::Fault(Fault::Syntax(line.len()))
}

/// The next word of a line, and what follows it. `rest` is what follows a word: nothing, or a space
/// and more. A line without another word is `Syntax`.
pub fn word_at(rest: &[u8]) -> Result<(&[u8], &[u8]), ReadError>
    ensures { Gives (λ x. (x.0.now, words_behind x.1.now)) result (reading.word_at (words_behind rest.now)) }
{
    match rest {
        [] => Err(syntax(rest)),
        [_, after @ ..] => Ok(split_word(after)),
    }
}

/// The next word of a line as a number from `least` to `most`, and what follows it. A word of
/// digits with a leading zero, or out of range, is `Number`; another word, or none, is `Syntax`.
#[tactic(auto, unfolding(crate::specs::Parser::number_at))]
pub fn number_at(least: u64, most: u64, rest: &[u8]) -> Result<(u64, &[u8]), ReadError>
    ensures value { Gives (λ x. (x.0, words_behind x.1.now)) result (reading.number_at least most (words_behind rest.now)) }
    ensures range { IfOk result (λ x. (least ≤ x.0) × (x.0 ≤ most)) }
{
    let (word, after) = word_at(rest)?;
    if !is_number(word) {
        return Err(syntax(rest));
    }
    match in_range(least, most, word) {
        Some(n) => Ok((n, after)),
        None => Err(ReadError::Fault(Fault::Number(left(rest)))),
    }
}

#[tactic(auto, unfolding(crate::specs::Parser::node_at))]
pub(crate) fn node_at(rest: &[u8]) -> Result<(NodeId, &[u8]), ReadError>
    ensures { Gives (λ x. (x.0, words_behind x.1.now)) result (reading.node_at (words_behind rest.now)) }
{
    let (word, after) = word_at(rest)?;
    match node_of(word) {
        Some(node) => Ok((node, after)),
        None => Err(syntax(rest)),
    }
}

#[tactic(auto, unfolding(crate::specs::Parser::client_at))]
pub(crate) fn client_at(rest: &[u8]) -> Result<(ClientId, &[u8]), ReadError>
    ensures { Gives (λ x. (x.0, words_behind x.1.now)) result (reading.client_at (words_behind rest.now)) }
{
    let (word, after) = word_at(rest)?;
    match client_word(word) {
        Some(client) => Ok((client, after)),
        None => Err(syntax(rest)),
    }
}

#[tactic(auto, unfolding(crate::specs::Parser::file_at))]
pub(crate) fn file_at(rest: &[u8]) -> Result<(FileId, &[u8]), ReadError>
    ensures { Gives (λ x. (x.0, words_behind x.1.now)) result (reading.file_at (words_behind rest.now)) }
{
    let (word, after) = word_at(rest)?;
    match file_word(word) {
        Some(file) => Ok((file, after)),
        None => Err(syntax(rest)),
    }
}

/// The next word of a line as a name, of 1 to 100 visible bytes, and what follows it. Another word,
/// or none, is `Syntax`.
#[tactic(auto, unfolding(crate::specs::Parser::name_at))]
pub fn name_at(alloc: Global, rest: &[u8]) -> Result<(Name, &[u8]), ReadError>
    ensures { Gives (λ x. (x.0, words_behind x.1.now)) result (reading.name_at (words_behind rest.now)) }
{
    let (word, after) = word_at(rest)?;
    if !is_name(word) {
        return Err(syntax(rest));
    }
    let name = Name::from_slice(alloc, word)?;
    Ok((name, after))
}

/// A name, or `-`, which stands for the empty name at the beginning of a directory.
#[tactic(auto, unfolding(crate::specs::Parser::after_at))]
pub(crate) fn after_at(alloc: Global, rest: &[u8]) -> Result<(Name, &[u8]), ReadError>
    ensures { Gives (λ x. (x.0, words_behind x.1.now)) result (reading.after_at (words_behind rest.now)) }
{
    let (word, after) = word_at(rest)?;
    if !is_name(word) {
        return Err(syntax(rest));
    }
    let name = Name::from_slice(alloc, if is(word, b"-") { &[] } else { word })?;
    Ok((name, after))
}

/// The next word of a line as a result, `ok` or `fail`, and what follows it. Another word, or none,
/// is `Syntax`.
#[tactic(auto, unfolding(crate::specs::Parser::result_at))]
pub fn result_at(rest: &[u8]) -> Result<(bool, &[u8]), ReadError>
    ensures { Gives (λ x. (x.0, words_behind x.1.now)) result (reading.result_at (words_behind rest.now)) }
{
    let (word, after) = word_at(rest)?;
    if is(word, b"ok") {
        Ok((true, after))
    } else if is(word, b"fail") {
        Ok((false, after))
    } else {
        Err(syntax(rest))
    }
}

#[tactic(auto, unfolding(crate::specs::Parser::ask_verb_at))]
pub(crate) fn ask_verb_at(form: u8, rest: &[u8]) -> Result<(AskVerb, &[u8]), ReadError>
    ensures { Gives (λ x. (x.0, words_behind x.1.now)) result (reading.ask_verb_at form (words_behind rest.now)) }
{
    let (word, after) = word_at(rest)?;
    match ask_verb_of(form, word) {
        Some(verb) => Ok((verb, after)),
        None => Err(syntax(rest)),
    }
}

#[tactic(auto, unfolding(crate::specs::Parser::form_at))]
pub(crate) fn form_at(rest: &[u8]) -> Result<(u8, &[u8]), ReadError>
    ensures { Gives (λ x. (x.0, words_behind x.1.now)) result (reading.form_at (words_behind rest.now)) }
{
    let (word, after) = word_at(rest)?;
    if is(word, b"1") {
        Ok((1, after))
    } else if is(word, b"2") {
        Ok((2, after))
    } else {
        Err(syntax(rest))
    }
}

/// A file and a page of it.
#[tactic(auto, unfolding(crate::specs::Parser::place_at))]
pub(crate) fn place_at(rest: &[u8]) -> Result<((FileId, PageNo), &[u8]), ReadError>
    ensures { Gives (λ x. (x.0, words_behind x.1.now)) result (reading.place_at (words_behind rest.now)) }
{
    let (file, rest) = file_at(rest)?;
    let (page, rest) = number_at(0, MOST_PAGE, rest)?;
    Ok(((file, PageNo(page as u32)), rest))
}

/// The end of a line. A further word is `Syntax`.
#[tactic(auto, using(crate::proofs::LineEnds::too_much), unfolding(crate::specs::Parser::ends))]
pub fn ends(rest: &[u8]) -> Result<(), ReadError>
    ensures { Gives (λ x. x) result (reading.ends (words_behind rest.now)) }
{
    if rest.is_empty() {
        Ok(())
    } else {
        Err(syntax(rest))
    }
}
