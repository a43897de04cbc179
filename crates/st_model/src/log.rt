ghost use Rattle.std.specs.Prelude.{◌≡◌, ◌+◌, ◌≤◌, ◌++◌, ◌∷◌, [], true, IfOk, IfSome, OnOk, OnErr, Some, length};
ghost use Rattle.std.specs.Option.{option_map};
ghost use Rattle.st_base.specs.Page.{filled};
ghost use Rattle.st_model.specs.PagePlaces as by_page;
ghost use Rattle.st_model.specs.LogInvariants.{IsInPage, IsWhole};
ghost use Rattle.st_model.specs.LastEntries.{LastTells};
ghost use Rattle.st_model.specs.Walks as walks;
ghost use Rattle.st_rules.specs.Events as events;
ghost use Rattle.st_rules.specs.FlatLog as flat_log;

use crate::client_pages::{ClientPage, client_page};
use crate::file_pages::{FilePage, Places, add, file_page, slice_at};
use crate::marking::{Crashing, Hardening, Losing, Marking, Spare};
use crate::marks::{mark_places, seen_of};
use crate::pages::{clear, last_among, option_of, page_after};
use indexmap::IndexMap;
use st_base::{ClientId, FileId, Life, PageBytes, PageNo};
use st_messages::PatchBytes;
use st_rules::{Cause, Change, EntryHead, Fate, LogEntry, LogOwner, Observation};
use std::alloc::{AllocError, Global};
use std::marker::Model;

/// All changes of pages that were accepted, in the order of acceptance, numbered from 1. Contracts
/// see it as the list of its entries. In addition to the entries it keeps the places of the pending
/// ones, the number of each client's latest entry to each page, the places of each page's writes
/// and patches, and the places of each file's cuts. No call looks at all entries.
#[derive(Drop)]
pub struct FlatLog {
    entries: Vec<LogEntry>,
    pending: Vec<usize>,
    latest: IndexMap<ClientPage, u64>,
    pages: IndexMap<FilePage, Places>,
    cuts: IndexMap<FilePage, Places>,
    zeros: PageBytes,
}

impl Model for FlatLog {
    ghost use Rattle.std.specs.Prelude.{List};
    ghost use Rattle.st_model.specs.LogParts.{IsKept};
    ghost use Rattle.st_rules.specs.declared.log.LogEntry.{LogEntry};

    ghost Value = { List LogEntry };

    ghost view = { λ l. l.entries.items };

    ghost invariant = { λ l. IsKept l.zeros l.entries.items l.pending.items l.latest l.pages l.cuts };
}

fn page_of<'a>(entry: &'a LogEntry, zeros: &'a PageBytes) -> &'a PageBytes
    requires whole { IsWhole (flat_log.head_of entry.now) }
    requires zeros { zeros.now ≡ filled 0 }
    ensures { result.now ≡ flat_log.bytes_of entry.now.change }
{
    match &entry.change {
        Change::Write(bytes) => bytes,
        Change::Patch(_, _) => unreachable!(),
        Change::Cut => zeros,
    }
}

fn head_by(of: LogOwner, change: &Change) -> EntryHead
    ensures { result ≡ flat_log.head_by of change.now }
{
    let LogOwner {
        client,
        life,
        file,
        page,
    } = of;
    match change {
        Change::Write(_) => EntryHead::Write {
            client,
            life,
            file,
            page,
        },
        Change::Patch(_, _) => EntryHead::Patch {
            client,
            life,
            file,
            page,
        },
        Change::Cut => EntryHead::Cut { file, from: page },
    }
}

impl FlatLog {
    /// Makes an empty log. It does not allocate.
    pub fn new(alloc: Global) -> FlatLog
        ensures { result ≡ [] }
    {
        FlatLog {
            entries: Vec::new(alloc),
            pending: Vec::new(alloc),
            latest: IndexMap::new(alloc),
            pages: IndexMap::new(alloc),
            cuts: IndexMap::new(alloc),
            zeros: PageBytes::filled(0),
        }
    }

    /// Adds a pending entry, and returns its number. If it runs out of memory, the log is
    /// unchanged.
    fn push(&mut self, of: LogOwner, change: Change) -> Result<u64, AllocError>
        requires bytes { by_page.is_bytes change ≡ true }
        requires range { IsInPage change }
        ensures entry { OnOk result (self.new ≡ self.old ++ flat_log.pending of change ∷ []) }
        ensures number { IfOk result (λ n. n ≡ length self.old + 1) }
        ensures err { OnErr result (self.new ≡ self.old) }
    {
        self.latest.reserve(1)?;
        self.pending.reserve(1)?;
        self.entries.reserve(1)?;
        let alloc = *self.entries.allocator();
        add(
            &mut self.pages,
            file_page(of.file, of.page),
            self.entries.len(),
            alloc,
        )?;
        let entry = LogEntry {
            of,
            change,
            fate: Fate::Pending,
        };
        self.entries.push(entry).unwrap();
        let number = self.entries.len() as u64;
        self.pending.push(self.entries.len() - 1).unwrap();
        // The number that was there is dropped; room was reserved.
        let _old = self
            .latest
            .insert(client_page(of.client, of.file, of.page), number)
            .unwrap();
        Ok(number)
    }

    /// Adds a pending write of a whole page, and returns its number. The log shares the page's
    /// bytes. If it runs out of memory, the log is unchanged.
    #[tactic(auto, unfolding(st_rules::specs::FlatLog::accept))]
    pub fn accept(
        &mut self,
        client: ClientId,
        life: Life,
        file: FileId,
        page: PageNo,
        bytes: &PageBytes,
    ) -> Result<u64, AllocError>
        ensures entry { OnOk result (self.new ≡ flat_log.accept self.old client life file page bytes.now) }
        ensures number { IfOk result (λ n. n ≡ length self.old + 1) }
        ensures err { OnErr result (self.new ≡ self.old) }
    {
        let change = Change::Write(bytes.copy()?);
        let of = LogOwner {
            client,
            life,
            file,
            page,
        };
        self.push(of, change)
    }

    /// Adds a pending patch, which replaces the bytes of the page from index `at`, and returns its
    /// number. A patch has at least one byte: no message and no line of a schedule has a patch of
    /// none, and `PatchBytes` cannot hold it. If it runs out of memory, the log is unchanged.
    #[tactic(auto, unfolding(st_rules::specs::FlatLog::patch))]
    pub fn patch(
        &mut self,
        client: ClientId,
        life: Life,
        file: FileId,
        page: PageNo,
        at: u16,
        bytes: &[u8],
    ) -> Result<u64, AllocError>
        requires some { 1 ≤ length bytes.now }
        requires range { at + length bytes.now ≤ 4096 }
        ensures entry { OnOk result (self.new ≡ flat_log.patch self.old client life file page at bytes.now) }
        ensures number { IfOk result (λ n. n ≡ length self.old + 1) }
        ensures err { OnErr result (self.new ≡ self.old) }
    {
        let bytes = PatchBytes::from_vec(Vec::from_slice(*self.entries.allocator(), bytes)?);
        let of = LogOwner {
            client,
            life,
            file,
            page,
        };
        self.push(of, Change::Patch(at, bytes))
    }

    /// Adds a cut of a file's pages from page `from`, which is hard at once, and returns its
    /// number. If it runs out of memory, the log is unchanged.
    #[tactic(auto, unfolding(st_rules::specs::FlatLog::cut))]
    pub fn cut(&mut self, file: FileId, from: PageNo) -> Result<u64, AllocError>
        ensures entry { OnOk result (self.new ≡ flat_log.cut self.old file from) }
        ensures number { IfOk result (λ n. n ≡ length self.old + 1) }
        ensures err { OnErr result (self.new ≡ self.old) }
    {
        self.latest.reserve(1)?;
        self.entries.reserve(1)?;
        let alloc = *self.entries.allocator();
        add(
            &mut self.cuts,
            file_page(file, PageNo(0)),
            self.entries.len(),
            alloc,
        )?;
        let entry = LogEntry {
            of: LogOwner {
                client: ClientId(0),
                life: Life(0),
                file,
                page: from,
            },
            change: Change::Cut,
            fate: Fate::Hard,
        };
        self.entries.push(entry).unwrap();
        let number = self.entries.len() as u64;
        // The number that was there is dropped; room was reserved.
        let _old = self
            .latest
            .insert(client_page(ClientId(0), file, from), number)
            .unwrap();
        Ok(number)
    }

    /// Marks the pending entries; no other entry is read. It does not allocate.
    pub fn mark<M: Marking>(&mut self, marking: &M)
        ensures { self.new ≡ walks.mark_from (M.becomes marking.now) 1 self.old }
    {
        let kept = mark_places(&mut self.entries, &mut self.pending, marking);
        self.pending.truncate(kept);
    }

    /// Adds what is observed when the pending entries are marked so, by rising number. If it runs
    /// out of memory, `seen` may hold a part of it.
    pub fn observe<M: Marking>(
        &self,
        marking: &M,
        seen: &mut Vec<Observation>,
    ) -> Result<(), AllocError>
        ensures { OnOk result (seen.new.items ≡ seen.old.items ++ walks.marks_seen (M.becomes marking.now) self.now) }
    {
        seen_of(&self.entries, &self.pending, marking, seen)
    }

    /// Makes the entry hard if it is pending, and so each earlier pending write and patch of the
    /// same client, life, file and page. It reads only the pending entries, and does not allocate.
    pub fn harden(&mut self, index: u64)
        requires some { 1 ≤ index }
        requires known { index ≤ length self.old }
        ensures { self.new ≡ flat_log.harden self.old index }
    {
        let of = self.entries[(index - 1) as usize].of;
        self.mark(&Hardening { index, of });
    }

    /// Adds what is observed when this entry hardens. If it runs out of memory, `seen` may hold a
    /// part of it.
    pub fn observe_harden(&self, index: u64, seen: &mut Vec<Observation>) -> Result<(), AllocError>
        requires some { 1 ≤ index }
        requires known { index ≤ length self.now }
        ensures { OnOk result (seen.new.items ≡ seen.old.items ++ events.fates_from 1 self.now (flat_log.harden self.now index)) }
    {
        let of = self.entries[(index - 1) as usize].of;
        self.observe(&Hardening { index, of }, seen)
    }

    /// Makes the entry gone with this cause if it is pending. It reads only the pending entries,
    /// and does not allocate.
    #[tactic(auto, using(crate::proofs::Markings::gone_is))]
    pub fn gone(&mut self, index: u64, cause: Cause)
        requires some { 1 ≤ index }
        requires known { index ≤ length self.old }
        ensures { self.new ≡ flat_log.gone self.old index cause }
    {
        self.mark(&Losing { index, cause });
    }

    /// Makes the pending entries of a client that crashed gone, except those that a spare names. It
    /// reads only the pending entries, and does not allocate.
    #[tactic(auto, using(crate::proofs::Markings::drop_picked_is))]
    pub fn crash(&mut self, client: ClientId, spared: &[Spare])
        ensures { self.new ≡ walks.without_crashed client spared.now self.old }
    {
        self.mark(&Crashing { client, spared });
    }

    /// Adds what is observed when this client crashes. If it runs out of memory, `seen` may hold a
    /// part of it.
    #[tactic(auto, using(crate::proofs::Markings::drop_picked_is))]
    pub fn observe_crash(
        &self,
        client: ClientId,
        spared: &[Spare],
        seen: &mut Vec<Observation>,
    ) -> Result<(), AllocError>
        ensures { OnOk result (seen.new.items ≡ seen.old.items ++ events.fates_from 1 self.now (walks.without_crashed client spared.now self.now)) }
    {
        self.observe(&Crashing { client, spared }, seen)
    }

    /// Returns the number of the client's latest entry to a page, or 0. It is one look-up, and does
    /// not allocate.
    pub fn latest(&self, client: ClientId, file: FileId, page: PageNo) -> u64
        ensures { result ≡ events.latest self.now client file page }
    {
        match self.latest.get(&client_page(client, file, page)) {
            Some(number) => *number,
            None => 0,
        }
    }

    /// Returns the number of the last entry that touches the page and is not gone, if there is one.
    /// It reads only the page's writes and patches and the file's cuts, the last ones first, and
    /// does not allocate.
    pub fn last(&self, file: FileId, page: PageNo) -> Option<u64>
        ensures last { result ≡ flat_log.last self.now file page }
        ensures content { LastTells self.now file page result }
    {
        let changes = slice_at(&self.pages, file_page(file, page));
        let of_page = last_among(&self.entries, changes, file, page);
        let cuts = slice_at(&self.cuts, file_page(file, PageNo(0)));
        let of_cuts = last_among(&self.entries, cuts, file, page);
        option_of(of_page.max(of_cuts))
    }

    /// Returns the bytes of a write, or zeros for a cut. The entry must not be a patch; `entry`
    /// tells which it is.
    pub fn bytes(&self, index: u64) -> &PageBytes
        requires whole { IfSome (option_map flat_log.head_of (flat_log.entry_at self.now index)) IsWhole }
        requires some { 1 ≤ index }
        requires known { index ≤ length self.now }
        ensures { option_map (λ (e : LogEntry). flat_log.bytes_of e.change) (flat_log.entry_at self.now index) ≡ Some result.now }
    {
        page_of(&self.entries[(index - 1) as usize], &self.zeros)
    }

    /// Writes the bytes of a page into a slice of 4,096 bytes: zeros, changed by the entries that
    /// touch the page and are not gone, in order. It reads only its writes and patches and the
    /// file's cuts, and does not allocate.
    pub fn content(&self, file: FileId, page: PageNo, into: &mut [u8])
        requires { length into.old ≡ 4096 }
        ensures { into.new ≡ flat_log.content self.now file page }
    {
        let changes = slice_at(&self.pages, file_page(file, page));
        let cuts = slice_at(&self.cuts, file_page(file, PageNo(0)));
        let from = last_among(&self.entries, cuts, file, page);
        clear(into);
        page_after(&self.entries, changes, from, file, page, into);
    }

    /// Returns the fate of an entry.
    pub fn fate(&self, index: u64) -> Fate
        requires some { 1 ≤ index }
        requires known { index ≤ length self.now }
        ensures { option_map (λ (e : LogEntry). e.fate) (flat_log.entry_at self.now index) ≡ Some result }
    {
        self.entries[(index - 1) as usize].fate
    }

    /// Returns the number of entries.
    pub fn count(&self) -> u64
        ensures { result ≡ length self.now }
    {
        self.entries.len() as u64
    }

    /// Returns what an entry is, without its bytes. It does not allocate.
    pub fn entry(&self, index: u64) -> EntryHead
        requires some { 1 ≤ index }
        requires known { index ≤ length self.now }
        ensures { option_map flat_log.head_of (flat_log.entry_at self.now index) ≡ Some result }
    {
        let entry = &self.entries[(index - 1) as usize];
        head_by(entry.of, &entry.change)
    }
}
