// The words for events and asks.
ghost use Rattle.std.specs.Prelude.{◌≡◌};
ghost use Rattle.st_schedule.specs.Parser as reading;

use st_schedule_words::is;

/// The first word of a line after the head.
#[derive(Clone, Copy, Debug, PartialEq, Eq)]
pub enum Verb {
    Adv,
    Tick,
    App,
    Deliver,
    Lose,
    Cut,
    Heal,
    Effect,
    Report,
    Crash,
    Start,
}

/// The word that says what an application asks.
#[derive(Clone, Copy, Debug, PartialEq, Eq)]
pub enum AskVerb {
    Write,
    Read,
    Sync,
    Cut,
    Patch,
    Lookup,
    Create,
    Mkdir,
    Remove,
    Rename,
    List,
}

pub(crate) fn verb_of(word: &[u8]) -> Option<Verb>
    ensures { result ≡ reading.verb_of word.now }
{
    if is(word, b"adv") {
        Some(Verb::Adv)
    } else if is(word, b"tick") {
        Some(Verb::Tick)
    } else if is(word, b"app") {
        Some(Verb::App)
    } else if is(word, b"deliver") {
        Some(Verb::Deliver)
    } else if is(word, b"lose") {
        Some(Verb::Lose)
    } else if is(word, b"cut") {
        Some(Verb::Cut)
    } else if is(word, b"heal") {
        Some(Verb::Heal)
    } else if is(word, b"effect") {
        Some(Verb::Effect)
    } else if is(word, b"report") {
        Some(Verb::Report)
    } else if is(word, b"crash") {
        Some(Verb::Crash)
    } else if is(word, b"start") {
        Some(Verb::Start)
    } else {
        None
    }
}

/// The ask that a word names; a patch only under the second form.
pub(crate) fn ask_verb_of(form: u8, word: &[u8]) -> Option<AskVerb>
    ensures { result ≡ reading.ask_verb_of form word.now }
{
    if is(word, b"write") {
        Some(AskVerb::Write)
    } else if is(word, b"read") {
        Some(AskVerb::Read)
    } else if is(word, b"sync") {
        Some(AskVerb::Sync)
    } else if is(word, b"cut") {
        Some(AskVerb::Cut)
    } else if form == 2 && is(word, b"patch") {
        Some(AskVerb::Patch)
    } else if is(word, b"lookup") {
        Some(AskVerb::Lookup)
    } else if is(word, b"create") {
        Some(AskVerb::Create)
    } else if is(word, b"mkdir") {
        Some(AskVerb::Mkdir)
    } else if is(word, b"remove") {
        Some(AskVerb::Remove)
    } else if is(word, b"rename") {
        Some(AskVerb::Rename)
    } else if is(word, b"list") {
        Some(AskVerb::List)
    } else {
        None
    }
}
