// The store of a step: look-ups, and what its rules change.
ghost use Rattle.std.specs.Prelude.{◌≡◌, IfOk, OnOk, is_some, length};
ghost use Rattle.st_rules.specs.ClientPages as pages;
ghost use Rattle.st_rules.specs.ClientReplies as replies;
ghost use Rattle.st_rules.specs.ClientState as client;

use crate::dirty_row::DirtyRow;
use crate::session_turn::SessionTurn;
use crate::turn::Turn;
use st_base::{ExtentRow, PageNo};
use st_rules::{KnownExtent, MappedBlock};
use std::alloc::AllocError;

impl Turn {
    /// Whether the file has no dirty page and no outstanding write.
    pub fn is_hard(&self, ino: u32) -> bool
        ensures { result ≡ pages.is_hard self.now.here.store ino }
    {
        self.here.store.is_hard(ino)
    }

    /// Whether the file has no dirty page and no outstanding command.
    pub fn is_idle(&self, ino: u32) -> bool
        ensures { result ≡ pages.is_idle self.now.here.store ino }
    {
        self.here.store.is_idle(ino)
    }

    /// The known mapping of a page.
    pub fn mapping(&self, ino: u32, page: PageNo) -> Option<MappedBlock>
        ensures { result ≡ pages.mapping_of self.now.here.store.extents ino page }
    {
        self.here.store.mapping(ino, page)
    }

    /// What is known of a page.
    pub fn known(&self, ino: u32, page: PageNo) -> Option<KnownExtent>
        ensures { result ≡ pages.known_of self.now.here.store.extents ino page }
    {
        self.here.store.known(ino, page)
    }

    /// Whether a page is dirty or clean. A clean page stays in its place.
    pub fn is_cached(&self, ino: u32, page: PageNo) -> bool
        ensures { result ≡ is_some (pages.cached self.now.here.store.pages ino page) }
    {
        self.here.store.is_cached(ino, page)
    }

    /// Whether a read of the page is outstanding.
    pub fn is_being_read(&self, ino: u32, page: PageNo) -> bool
        ensures { result ≡ pages.is_being_read self.now.here.store.commands ino page }
    {
        self.here.store.is_being_read(ino, page)
    }

    /// Whether a write of the page is outstanding.
    pub fn is_being_written(&self, ino: u32, page: PageNo) -> bool
        ensures { result ≡ pages.is_being_written self.now.here.store.commands ino page }
    {
        self.here.store.is_being_written(ino, page)
    }

    /// The dirty page, without its bytes.
    pub fn dirty(&self, ino: u32, page: PageNo) -> Option<DirtyRow<'_>>
        ensures { result ≡ pages.dirty_of self.now.here.store.pages ino page }
    {
        match self.here.store.dirty_page(ino, page) {
            None => None,
            Some(page) => Some(DirtyRow::of(page)),
        }
    }

    /// How many pages are dirty.
    pub fn dirty_count(&self) -> usize
        ensures { result ≡ length self.now.here.store.pages.dirty }
    {
        self.here.store.dirty_count()
    }

    /// The places of all dirty pages, by rising file and page.
    pub fn dirty_places(&self) -> Result<Vec<(u32, PageNo)>, AllocError>
        ensures { IfOk result (λ v. v.items ≡ pages.dirty_places self.now.here.store.pages) }
    {
        self.here.store.dirty_places()
    }
}

impl SessionTurn {
    /// The page is known to have no block.
    pub fn know_unmapped(&mut self, ino: u32, page: PageNo) -> Result<(), AllocError>
        ensures { OnOk result (self.new ≡ client.with_store (replies.with_unmapped ino page self.old.here.store) self.old) }
    {
        let turn = &mut self.turn;
        turn.here.store.know(KnownExtent {
            ino,
            page,
            mapping: None,
        })
    }

    /// Told rows of a file are known.
    pub fn know_rows(&mut self, ino: u32, rows: &[ExtentRow]) -> Result<(), AllocError>
        ensures { OnOk result (self.new ≡ client.with_store (replies.with_extents_known ino rows.now self.old.here.store) self.old) }
    {
        let turn = &mut self.turn;
        turn.here.store.know_rows(ino, rows)
    }
}
