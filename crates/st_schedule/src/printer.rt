// The text of a head and of each event.
ghost use Rattle.std.specs.Prelude.{◌≡◌, ◌∷◌, ◌++◌, IfOk, OnOk, get_or, length, map};
ghost use Rattle.st_schedule_words.specs.Words.{line_of, spaced};
ghost use Rattle.st_schedule.specs.Grammar as grammar;
ghost use Rattle.st_schedule.specs.Reader.{IsReadAs};

use st_base::{ClientId, FileId, NameAsk, NodeId, PageBytes, PageNo, ServerId};
use st_messages::{Ask, Event};
use st_report::{put_field, put_number};
use std::alloc::{AllocError, Global};

/// The bytes that are reserved for a line. Only lines of names and of increments that differ are
/// longer.
const USUAL: usize = 40;

/// Appends a space and a word.
fn put_word(out: &mut Vec<u8>, word: &[u8]) -> Result<(), AllocError>
    ensures { OnOk result (out.new.items ≡ out.old.items ++ 32 ∷ word.now) }
{
    out.push(b' ')?;
    out.extend_from_slice(word)
}

fn put_node(out: &mut Vec<u8>, node: NodeId) -> Result<(), AllocError>
    ensures { OnOk result (out.new.items ≡ out.old.items ++ 32 ∷ grammar.node_text node) }
{
    match node {
        NodeId::Client(client) => {
            put_word(out, b"c")?;
            put_number(out, u64::from(client.0))
        }
        NodeId::Server(server) => {
            put_word(out, b"s")?;
            put_number(out, u64::from(server.0))
        }
    }
}

fn put_file(out: &mut Vec<u8>, server: u16, ino: u32) -> Result<(), AllocError>
    ensures { OnOk result (out.new.items ≡ out.old.items ++ 32 ∷ grammar.file_text server ino) }
{
    put_field(out, u64::from(server))?;
    out.push(b':')?;
    put_number(out, u64::from(ino))
}

fn put_place(out: &mut Vec<u8>, file: FileId, page: PageNo) -> Result<(), AllocError>
    ensures { OnOk result (out.new.items ≡ out.old.items ++ spaced (grammar.place_words file page)) }
{
    put_file(out, file.server.0, file.ino)?;
    put_field(out, u64::from(page.0))
}

/// The first of these bytes, or 0 if there is none.
fn byte_of(bytes: &[u8]) -> u8
    ensures { result ≡ grammar.byte_of bytes.now }
{
    match bytes {
        [] => 0,
        [b, ..] => *b,
    }
}

/// Appends a verb, a directory and the name of an entry in it.
fn put_entry(
    out: &mut Vec<u8>,
    verb: &[u8],
    server: u16,
    dir: u32,
    name: &[u8],
) -> Result<(), AllocError>
    ensures { OnOk result (out.new.items ≡ out.old.items ++ spaced (grammar.entry_words verb.now server dir name.now)) }
{
    put_word(out, verb)?;
    put_file(out, server, dir)?;
    put_word(out, name)
}

#[tactic(auto, unfolding(crate::specs::Grammar::name_words))]
fn put_name(out: &mut Vec<u8>, server: u16, ask: &NameAsk) -> Result<(), AllocError>
    ensures { OnOk result (out.new.items ≡ out.old.items ++ spaced (grammar.name_words server ask.now)) }
{
    match ask {
        NameAsk::Lookup { dir, name } => put_entry(out, b"lookup", server, *dir, name.as_slice()),
        NameAsk::Create { dir, name } => put_entry(out, b"create", server, *dir, name.as_slice()),
        NameAsk::Mkdir { dir, name } => put_entry(out, b"mkdir", server, *dir, name.as_slice()),
        NameAsk::Remove { dir, name, ino } => {
            put_entry(out, b"remove", server, *dir, name.as_slice())?;
            put_field(out, u64::from(*ino))
        }
        NameAsk::Rename {
            dir,
            name,
            dir2,
            name2,
        } => {
            put_entry(out, b"rename", server, *dir, name.as_slice())?;
            put_field(out, u64::from(*dir2))?;
            put_word(out, name2.as_slice())
        }
        NameAsk::List { dir, after } => {
            put_word(out, b"list")?;
            put_file(out, server, *dir)?;
            match after.as_slice() {
                [] => put_word(out, b"-"),
                after => put_word(out, after),
            }
        }
    }
}

#[tactic(auto, unfolding(crate::specs::Grammar::ask_words))]
fn put_ask(out: &mut Vec<u8>, ask: &Ask) -> Result<(), AllocError>
    ensures { OnOk result (out.new.items ≡ out.old.items ++ spaced (grammar.ask_words ask.now)) }
{
    match ask {
        Ask::Write(file, page, bytes) => {
            put_word(out, b"write")?;
            put_place(out, *file, *page)?;
            // For its clause `page`: there are 4,096 bytes, so there is a first one.
            let _len = bytes.len();
            put_field(out, u64::from(*bytes.get(0)))
        }
        Ask::Read(file, page) => {
            put_word(out, b"read")?;
            put_place(out, *file, *page)
        }
        Ask::Sync(file) => {
            put_word(out, b"sync")?;
            put_file(out, file.server.0, file.ino)
        }
        Ask::Cut(file, page) => {
            put_word(out, b"cut")?;
            put_place(out, *file, *page)
        }
        Ask::Name(server, ask) => put_name(out, server.0, ask),
        Ask::Patch(file, page, at, bytes) => {
            put_word(out, b"patch")?;
            put_place(out, *file, *page)?;
            put_field(out, u64::from(*at))?;
            put_field(out, bytes.len() as u64)?;
            put_field(out, u64::from(byte_of(bytes.as_slice())))
        }
    }
}

fn first_step(steps: &[u64]) -> u64
    ensures { result ≡ get_or steps.now 0 0 }
{
    match steps {
        [] => 0,
        [d, ..] => *d,
    }
}

fn are_equal(steps: &[u64]) -> bool
    ensures { result ≡ grammar.are_equal steps.now }
{
    let first = first_step(steps);
    steps.iter().all(|d| *d == first)
}

/// Appends the increments, or one if all are equal.
fn put_steps(out: &mut Vec<u8>, steps: &[u64]) -> Result<(), AllocError>
    ensures { OnOk result (out.new.items ≡ out.old.items ++ spaced (grammar.steps_words steps.now)) }
{
    if are_equal(steps) {
        return put_field(out, first_step(steps));
    }
    for d in steps {
        put_field(out, *d)?;
    }
    Ok(())
}

/// Appends the words after the verb.
#[tactic(auto, unfolding(crate::specs::Grammar::words_after))]
fn put_rest(out: &mut Vec<u8>, event: &Event) -> Result<(), AllocError>
    ensures { OnOk result (out.new.items ≡ out.old.items ++ spaced (grammar.words_after event.now)) }
{
    match event {
        Event::Tick(node) | Event::Crash(node) | Event::Start(node) => put_node(out, *node),
        Event::App { client, ask } => {
            put_node(out, NodeId::Client(*client))?;
            put_ask(out, ask)
        }
        Event::Deliver(k) | Event::Lose(k) | Event::Effect(k) => put_field(out, *k),
        Event::Cut(from, to) | Event::Heal(from, to) => {
            put_node(out, *from)?;
            put_node(out, *to)
        }
        Event::Advance(steps) => put_steps(out, steps.as_slice()),
        Event::Report { k, ok } => {
            put_field(out, *k)?;
            put_word(out, if *ok { b"ok" } else { b"fail" })
        }
    }
}

/// Appends the line that spells this event, as `print` gives it.
pub fn put_line(out: &mut Vec<u8>, event: &Event) -> Result<(), AllocError>
    ensures { OnOk result (out.new.items ≡ out.old.items ++ line_of (grammar.words event.now)) }
{
    let verb: &[u8] = match event {
        Event::Tick(_) => b"tick",
        Event::App { .. } => b"app",
        Event::Deliver(_) => b"deliver",
        Event::Lose(_) => b"lose",
        Event::Cut(_, _) => b"cut",
        Event::Heal(_, _) => b"heal",
        Event::Advance(_) => b"adv",
        Event::Effect(_) => b"effect",
        Event::Report { .. } => b"report",
        Event::Crash(_) => b"crash",
        Event::Start(_) => b"start",
    };
    out.extend_from_slice(verb)?;
    put_rest(out, event)
}

/// The line that spells this event; an advance whose increments are all equal gets the short line.
/// A write or a patch is printed by its first byte, so the line of a page that is not one byte
/// repeated does not spell it.
#[tactic(auto, using(crate::proofs::PrintedLines::read_as))]
pub fn print(alloc: Global, event: &Event) -> Result<Vec<u8>, AllocError>
    ensures words { IfOk result (λ line. line.items ≡ line_of (grammar.words event.now)) }
    // After every head with which the event has a line, it is read back as the same event.
    ensures back { IfOk result (λ line. IsReadAs line.items event.now) }
{
    let mut out = Vec::with_capacity(alloc, USUAL)?;
    put_line(&mut out, event)?;
    Ok(out)
}
