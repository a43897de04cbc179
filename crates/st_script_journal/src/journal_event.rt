// The events of a journal, from their lines.
ghost use Rattle.std.specs.Prelude.{◌≡◌, ◌≤◌, true};
ghost use Rattle.st_journal.specs.Changes.{is_ranged};
ghost use Rattle.st_schedule.specs.Parser.{Gives};
ghost use Rattle.st_schedule_words.specs.Words.{split, words_behind};
ghost use Rattle.st_script_journal.specs.JournalScripts as scripts;

use st_base::PageNo;
use st_journal::Change;
use st_schedule::{ReadError, ends, name_at, number_at, split_word, unknown_word};
use st_schedule_words::is;
use std::alloc::Global;
use std::marker::Model;

/// The greatest number of an inode.
const MOST_NUMBER: u64 = 4_294_967_295;

/// The greatest page number.
const MOST_PAGE: u64 = 1_048_575;

/// A change whose numbers are in their ranges. Contracts see the change.
#[derive(Drop)]
pub struct RangedChange {
    change: Change,
}

impl Model for RangedChange {
    ghost use Rattle.std.specs.Prelude.{◌≡◌, true};
    ghost use Rattle.st_journal.specs.Changes.{is_ranged};
    ghost use Rattle.st_journal.specs.declared.change.Change.{Change};

    ghost Value = { Change };

    ghost view = { λ r. r.change };

    ghost invariant = { λ r. is_ranged r.change ≡ true };
}

impl RangedChange {
    fn new(change: Change) -> RangedChange
        requires { is_ranged change ≡ true }
        ensures { result ≡ change }
    {
        RangedChange { change }
    }

    /// The change.
    pub fn get(&self) -> &Change
        ensures change { result.now ≡ self.now }
        ensures ranged { is_ranged result.now ≡ true }
    {
        &self.change
    }
}

/// A stop of the store in one of the four calls of an append.
#[derive(Drop)]
pub struct SetStop {
    call: u64,
    byte: u8,
}

impl Model for SetStop {
    ghost use Rattle.std.specs.Prelude.{◌≤◌};
    ghost use Rattle.st_script_journal.specs.Stops as stops;

    ghost Value = { stops.SetStop };

    ghost view = { λ p. record { call = p.call; byte = p.byte } };

    ghost invariant = { λ p. (1 ≤ p.call) × (p.call ≤ 4) };
}

impl SetStop {
    fn new(call: u64, byte: u8) -> SetStop
        requires { (1 ≤ call) × (call ≤ 4) }
        ensures { result ≡ record { call = call; byte = byte } }
    {
        SetStop { call, byte }
    }

    /// The number of the call, from 1 to 4.
    pub fn call(&self) -> u64
        ensures call { result ≡ self.now.call }
        ensures range { (1 ≤ result) × (result ≤ 4) }
    {
        self.call
    }

    /// What each byte holds then that was not synced.
    pub fn byte(&self) -> u8
        ensures { result ≡ self.now.byte }
    {
        self.byte
    }
}

/// An event of a script of a journal.
#[derive(Drop)]
pub enum JournalEvent {
    /// A change is applied, and then appended.
    Change(RangedChange),
    /// The store stops in the next append.
    Stop(SetStop),
}

#[tactic(auto, unfolding(crate::specs::JournalScripts::allocate_at, st_journal::specs::Changes::is_ranged, st_rules::specs::Keys::page_no))]
fn allocate_at(rest: &[u8]) -> Result<JournalEvent, ReadError>
    ensures { Gives (λ x. x) result (scripts.allocate_at (words_behind rest.now)) }
{
    let (ino, rest) = number_at(1, MOST_NUMBER, rest)?;
    let (page, rest) = number_at(0, MOST_PAGE, rest)?;
    // The last page is 1,048,575.
    let most = if 1_048_512 < page {
        1_048_576 - page
    } else {
        64
    };
    let (count, rest) = number_at(1, most, rest)?;
    ends(rest)?;
    Ok(JournalEvent::Change(RangedChange::new(Change::Allocate {
        ino: ino as u32,
        page: PageNo(page as u32),
        count: count as u16,
    })))
}

#[tactic(auto, unfolding(crate::specs::JournalScripts::create_at, st_journal::specs::Changes::is_ranged))]
fn create_at(alloc: Global, rest: &[u8]) -> Result<JournalEvent, ReadError>
    ensures { Gives (λ x. x) result (scripts.create_at (words_behind rest.now)) }
{
    let (dir, rest) = number_at(1, MOST_NUMBER, rest)?;
    let (name, rest) = name_at(alloc, rest)?;
    ends(rest)?;
    Ok(JournalEvent::Change(RangedChange::new(Change::Create {
        dir: dir as u32,
        name,
    })))
}

#[tactic(auto, unfolding(crate::specs::JournalScripts::mkdir_at, st_journal::specs::Changes::is_ranged))]
fn mkdir_at(alloc: Global, rest: &[u8]) -> Result<JournalEvent, ReadError>
    ensures { Gives (λ x. x) result (scripts.mkdir_at (words_behind rest.now)) }
{
    let (dir, rest) = number_at(1, MOST_NUMBER, rest)?;
    let (name, rest) = name_at(alloc, rest)?;
    ends(rest)?;
    Ok(JournalEvent::Change(RangedChange::new(Change::Mkdir {
        dir: dir as u32,
        name,
    })))
}

#[tactic(auto, unfolding(crate::specs::JournalScripts::remove_at, st_journal::specs::Changes::is_ranged))]
fn remove_at(alloc: Global, rest: &[u8]) -> Result<JournalEvent, ReadError>
    ensures { Gives (λ x. x) result (scripts.remove_at (words_behind rest.now)) }
{
    let (dir, rest) = number_at(1, MOST_NUMBER, rest)?;
    let (name, rest) = name_at(alloc, rest)?;
    ends(rest)?;
    Ok(JournalEvent::Change(RangedChange::new(Change::Remove {
        dir: dir as u32,
        name,
    })))
}

#[tactic(auto, unfolding(crate::specs::JournalScripts::rename_at, st_journal::specs::Changes::is_ranged))]
fn rename_at(alloc: Global, rest: &[u8]) -> Result<JournalEvent, ReadError>
    ensures { Gives (λ x. x) result (scripts.rename_at (words_behind rest.now)) }
{
    let (dir, rest) = number_at(1, MOST_NUMBER, rest)?;
    let (name, rest) = name_at(alloc, rest)?;
    let (dir2, rest) = number_at(1, MOST_NUMBER, rest)?;
    let (name2, rest) = name_at(alloc, rest)?;
    ends(rest)?;
    Ok(JournalEvent::Change(RangedChange::new(Change::Rename {
        dir: dir as u32,
        name,
        dir2: dir2 as u32,
        name2,
    })))
}

/// Reads the event of a line.
#[tactic(auto, unfolding(crate::specs::JournalScripts::event, crate::specs::JournalScripts::event_of, crate::specs::JournalScripts::epoch_at, crate::specs::JournalScripts::cut_at, crate::specs::JournalScripts::stop_at, st_journal::specs::Changes::is_ranged, st_rules::specs::Keys::page_no))]
pub(crate) fn journal_event(alloc: Global, line: &[u8]) -> Result<JournalEvent, ReadError>
    ensures { Gives (λ x. x) result (scripts.event (split line.now)) }
{
    let (word, rest) = split_word(line);
    if is(word, b"epoch") {
        ends(rest)?;
        Ok(JournalEvent::Change(RangedChange::new(Change::Epoch)))
    } else if is(word, b"allocate") {
        allocate_at(rest)
    } else if is(word, b"cut") {
        let (ino, rest) = number_at(1, MOST_NUMBER, rest)?;
        let (from, rest) = number_at(0, MOST_PAGE, rest)?;
        ends(rest)?;
        Ok(JournalEvent::Change(RangedChange::new(Change::Cut {
            ino: ino as u32,
            from: PageNo(from as u32),
        })))
    } else if is(word, b"create") {
        create_at(alloc, rest)
    } else if is(word, b"mkdir") {
        mkdir_at(alloc, rest)
    } else if is(word, b"remove") {
        remove_at(alloc, rest)
    } else if is(word, b"rename") {
        rename_at(alloc, rest)
    } else if is(word, b"stop") {
        let (call, rest) = number_at(1, 4, rest)?;
        let (byte, rest) = number_at(0, 255, rest)?;
        ends(rest)?;
        Ok(JournalEvent::Stop(SetStop::new(call, byte as u8)))
    } else {
        Err(unknown_word(line))
    }
}
