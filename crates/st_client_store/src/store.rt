ghost use Rattle.std.specs.Prelude.{◌≡◌, ◌<◌, ◌+◌, ◌^◌, true, false, None, Some, IfOk, OnOk, OnErr, is_some, length, nat_lt, slice_get};
ghost use Rattle.std.specs.Option.{option_copied, option_map};
ghost use Rattle.st_flush.specs.Calls.{AreApart, told, told_on};
ghost use Rattle.st_rules.specs.ClientPages as pages;
ghost use Rattle.st_rules.specs.declared.client.IoKind.TheVariants as kinds;
ghost use Rattle.st_client_store.specs.Stores.{AreMatched, Changes, Ends, empty_store_of, with_commands, with_pages, with_store};

use st_base::{ExtentRow, PageBytes, PageNo, ServerId};
use st_flush::Flusher;
use st_lease_client::{CommandLoss, CommandsGone, PageLoss, PagesGone, SubmitPermit, UsePermit};
use st_page_cache::{CacheRefusal, KnownExtents, Page, PageCache};
use st_rules::{DirtyPage, Ended, IoKind, KnownExtent, MappedBlock};
use std::alloc::{AllocError, Global};
use std::marker::Model;

/// All that a client has of one server's disks. Contracts see the server and the definitions'
/// store.
#[derive(Drop)]
pub struct Store {
    extents: KnownExtents,
    pages: PageCache,
    commands: Flusher,
}

impl Model for Store {
    ghost use Rattle.std.specs.Prelude.{◌≡◌};
    ghost use Rattle.st_client_store.specs.Stores.{AreMatched, ServerStore};

    ghost Value = { ServerStore };

    ghost view = { λ s. record {
      server = s.pages.server;
      store = record { extents = s.extents; pages = s.pages.pages; commands = s.commands.commands };
    } };

    ghost invariant = { λ s. (s.commands.server ≡ s.pages.server) × AreMatched s.pages.pages.dirty s.commands.commands };
}

impl Store {
    /// Nothing of this server's disks.
    pub fn new(alloc: Global, server: ServerId) -> Result<Store, AllocError>
        ensures { IfOk result (λ s. s ≡ empty_store_of server) }
    {
        Ok(Store {
            extents: KnownExtents::new(alloc),
            pages: PageCache::new(alloc, server)?,
            commands: Flusher::new(alloc, server)?,
        })
    }

    /// The dirty pages and the outstanding commands match.
    pub fn dirty_count(&self) -> usize
        ensures count { result ≡ length self.now.store.pages.dirty }
        ensures matched { AreMatched self.now.store.pages.dirty self.now.store.commands }
    {
        // Read for what always holds of a store: its commands match its dirty pages.
        let _commands = &self.commands;
        self.pages.dirty_count()
    }

    /// How many pages are clean.
    pub fn clean_count(&self) -> usize
        ensures { result ≡ length self.now.store.pages.clean }
    {
        self.pages.clean_count()
    }

    /// How many disk commands are outstanding.
    pub fn command_count(&self) -> usize
        ensures { result ≡ length self.now.store.commands }
    {
        self.commands.len()
    }

    /// The dirty page at a place of the list.
    pub fn dirty_at(&self, i: usize) -> &DirtyPage
        requires { i < length self.now.store.pages.dirty }
        ensures { slice_get self.now.store.pages.dirty i ≡ Some result.now }
    {
        self.pages.dirty_at(i)
    }

    /// What is known of a page.
    pub fn known(&self, ino: u32, page: PageNo) -> Option<KnownExtent>
        ensures { result ≡ pages.known_of self.now.store.extents ino page }
    {
        self.extents.get(ino, page)
    }

    /// The known mapping of a page.
    pub fn mapping(&self, ino: u32, page: PageNo) -> Option<MappedBlock>
        ensures { result ≡ pages.mapping_of self.now.store.extents ino page }
    {
        self.extents.mapping(ino, page)
    }

    /// Whether a page is dirty or clean. A clean page stays in its place.
    pub fn is_cached(&self, ino: u32, page: PageNo) -> bool
        ensures { result ≡ is_some (pages.cached self.now.store.pages ino page) }
    {
        self.pages.is_cached(ino, page)
    }

    /// The bytes that a patch of a page changes: `None` if the page is neither dirty nor clean.
    /// A clean page stays in its place. The bytes are shared.
    pub fn base(
        &self,
        permit: &UsePermit,
        ino: u32,
        page: PageNo,
    ) -> Result<Option<PageBytes>, AllocError>
        requires { permit.now.server ≡ self.now.server }
        ensures { IfOk result (λ bytes. bytes ≡ pages.cached self.now.store.pages ino page) }
    {
        match self.pages.base(permit, ino, page) {
            None => Ok(None),
            Some(bytes) => Ok(Some(bytes.copy()?)),
        }
    }

    /// The dirty page.
    pub fn dirty_page(&self, ino: u32, page: PageNo) -> Option<&DirtyPage>
        ensures { option_copied result ≡ pages.dirty_of self.now.store.pages ino page }
    {
        self.pages.dirty_page(ino, page)
    }

    /// The places of all dirty pages, by rising file and page.
    pub fn dirty_places(&self) -> Result<Vec<(u32, PageNo)>, AllocError>
        ensures { IfOk result (λ v. v.items ≡ pages.dirty_places self.now.store.pages) }
    {
        self.pages.dirty_places()
    }

    /// The version of the dirty page, or 0.
    pub fn version(&self, ino: u32, page: PageNo) -> u64
        ensures { result ≡ pages.version_of self.now.store.pages ino page }
    {
        self.pages.version(ino, page)
    }

    /// The number of the page's outstanding write, or `None` if it has none.
    pub fn write_on(&self, ino: u32, page: PageNo) -> Option<u64>
        ensures { result ≡ option_map pages.number_of_command (pages.write_on self.now.store.commands ino page) }
    {
        self.commands.write_on(ino, page)
    }

    /// The file, the page and the kind of the command of this number, or `None` if it is not
    /// outstanding.
    pub fn command(&self, number: u64) -> Option<(u32, PageNo, IoKind)>
        ensures { result ≡ option_map told (pages.command_of self.now.store.commands number) }
    {
        self.commands.of(number)
    }

    /// The number and the kind of the page's command, or `None` if it has none.
    pub fn command_on(&self, ino: u32, page: PageNo) -> Option<(u64, IoKind)>
        ensures command { result ≡ option_map told_on (pages.command_on self.now.store.commands ino page) }
        ensures apart { AreApart self.now.store.commands }
    {
        self.commands.on(ino, page)
    }

    /// Whether a read of the page is outstanding.
    pub fn is_being_read(&self, ino: u32, page: PageNo) -> bool
        ensures { result ≡ pages.is_being_read self.now.store.commands ino page }
    {
        self.commands.is_being_read(ino, page)
    }

    /// Whether a write of the page is outstanding.
    pub fn is_being_written(&self, ino: u32, page: PageNo) -> bool
        ensures { result ≡ pages.is_being_written self.now.store.commands ino page }
    {
        self.commands.is_being_written(ino, page)
    }

    /// Whether a version is left for one more change of a page.
    pub fn has_room(&self) -> bool
        ensures { result ≡ nat_lt self.now.store.pages.next_version (2 ^ 62) }
    {
        self.pages.next_version() < 4_611_686_018_427_387_904
    }

    /// Whether the file has no dirty page and no outstanding command.
    pub fn is_idle(&self, ino: u32) -> bool
        ensures { result ≡ pages.is_idle self.now.store ino }
    {
        !self.pages.has_dirty(ino) && !self.commands.outstanding(ino)
    }

    /// Whether the file has no dirty page and no outstanding write.
    pub fn is_hard(&self, ino: u32) -> bool
        ensures { result ≡ pages.is_hard self.now.store ino }
    {
        !self.pages.has_dirty(ino) && !self.commands.has_write_on(ino)
    }

    /// This is known of a page, in place of anything else.
    pub fn know(&mut self, extent: KnownExtent) -> Result<(), AllocError>
        ensures ok { OnOk result (self.new ≡ with_store (record self.old.store { extents = pages.with_known extent self.old.store.extents }) self.old) }
        ensures err { OnErr result (self.new ≡ self.old) }
    {
        self.extents.know(extent)
    }

    /// Told rows of a file are known, one after another.
    pub fn know_rows(&mut self, ino: u32, rows: &[ExtentRow]) -> Result<(), AllocError>
        ensures ok { OnOk result (self.new ≡ with_store (record self.old.store { extents = pages.with_known_rows ino rows.now self.old.store.extents }) self.old) }
        ensures err { OnErr result (self.new ≡ self.old) }
    {
        self.extents.know_rows(ino, rows)
    }

    /// The file is forgotten from this page on: its clean pages, and what is known of them. It does
    /// not allocate.
    #[tactic(auto, unfolding(st_rules::specs::ClientPages::forget_from, st_rules::specs::ClientPages::drop_from))]
    pub fn forget_from(&mut self, ino: u32, page: PageNo)
        ensures { self.new ≡ with_store (pages.forget_from self.old.store ino page) self.old }
    {
        self.extents.forget_from(ino, page);
        self.pages.drop_from(ino, page);
    }

    /// Reads a page: `None` if it is neither dirty nor clean. A clean page becomes the newest
    /// one. The bytes are shared.
    pub fn read(
        &mut self,
        permit: &UsePermit,
        ino: u32,
        page: PageNo,
    ) -> Result<Option<PageBytes>, AllocError>
        requires { permit.now.server ≡ self.old.server }
        ensures used { self.new ≡ with_pages (pages.use_page self.old.store.pages ino page) self.old }
        ensures bytes { IfOk result (λ bytes. bytes ≡ pages.cached self.old.store.pages ino page) }
    {
        match self.pages.read(permit, ino, page) {
            Page::Miss => Ok(None),
            Page::Hit(bytes) => Ok(Some(bytes.copy()?)),
        }
    }

    /// Changes a page: it is dirty with these bytes, and an outstanding read of it is forgotten. It
    /// is refused exactly if 64 other pages are dirty. The bytes are shared.
    pub fn change(
        &mut self,
        permit: &UsePermit,
        ino: u32,
        page: PageNo,
        bytes: &PageBytes,
    ) -> Result<(), CacheRefusal>
        requires server { permit.now.server ≡ self.old.server }
        requires room { self.old.store.pages.next_version + 1 < 2 ^ 64 }
        ensures { Changes self.old self.new result ino page (pages.write self.old.store.pages ino page bytes.now) }
    {
        match self.pages.write(permit, ino, page, bytes) {
            Ok(()) => {
                self.commands.forget_read(ino, page);
                Ok(())
            }
            Err(refusal) => Err(refusal),
        }
    }

    /// A read of a page becomes outstanding under this number, which no outstanding command has.
    /// The page is not dirty, and is not being read. The permit is spent also if memory runs out;
    /// then nothing changes.
    pub fn begin_read(
        &mut self,
        permit: SubmitPermit<'_>,
        number: u64,
        ino: u32,
        page: PageNo,
    ) -> Result<(), AllocError>
        requires server { permit.server ≡ self.old.server }
        requires clean { pages.dirty_of self.old.store.pages ino page ≡ None }
        requires page { pages.is_being_read self.old.store.commands ino page ≡ false }
        requires number { pages.command_of self.old.store.commands number ≡ None }
        ensures ok { OnOk result (self.new ≡ with_commands (pages.begin_command self.old.store.commands number ino page kinds.Read) self.old) }
        ensures err { OnErr result (self.new ≡ self.old) }
    {
        self.commands
            .submit(permit, number, ino, page, IoKind::Read)?;
        Ok(())
    }

    /// A write of this version of a dirty page becomes outstanding under this number, which no
    /// outstanding command has. The page is not being written. The permit is spent also if memory
    /// runs out; then nothing changes.
    pub fn begin_write(
        &mut self,
        permit: SubmitPermit<'_>,
        number: u64,
        ino: u32,
        page: PageNo,
        version: u64,
    ) -> Result<(), AllocError>
        requires server { permit.server ≡ self.old.server }
        requires dirty { is_some (pages.dirty_of self.old.store.pages ino page) ≡ true }
        requires page { pages.is_being_written self.old.store.commands ino page ≡ false }
        requires number { pages.command_of self.old.store.commands number ≡ None }
        ensures ok { OnOk result (self.new ≡ with_commands (pages.begin_command self.old.store.commands number ino page (kinds.Write version)) self.old) }
        ensures err { OnErr result (self.new ≡ self.old) }
    {
        self.commands
            .submit(permit, number, ino, page, IoKind::Write(version))?;
        Ok(())
    }

    /// A command ended, as done or as failed; `version` is that of its page now. It is no longer
    /// outstanding. It does not allocate.
    pub fn done(&mut self, number: u64, ok: bool, version: u64) -> Ended
        ensures { Ends self.old self.new result (pages.end_command self.old.store.commands number ok version) }
    {
        self.commands.done(number, ok, version)
    }

    /// A page that is not dirty becomes the newest clean one with these bytes. The bytes are
    /// shared.
    #[tactic(auto, unfolding(st_rules::specs::ClientPages::fill))]
    pub fn fill(&mut self, ino: u32, page: PageNo, bytes: &PageBytes) -> Result<(), AllocError>
        requires { pages.dirty_of self.old.store.pages ino page ≡ None }
        ensures ok { OnOk result (self.new ≡ with_pages (pages.fill self.old.store.pages ino page bytes.now) self.old) }
        ensures err { OnErr result (self.new ≡ self.old) }
    {
        self.pages.fill(ino, page, bytes)?;
        Ok(())
    }

    /// The dirty page becomes the newest clean one, if it is dirty. No command for it is
    /// outstanding. The bytes are shared.
    pub fn harden(&mut self, ino: u32, page: PageNo) -> Result<(), AllocError>
        requires { pages.command_on self.old.store.commands ino page ≡ None }
        ensures ok { OnOk result (self.new ≡ with_pages (pages.harden self.old.store.pages ino page) self.old) }
        ensures err { OnErr result (self.new ≡ self.old) }
    {
        self.pages.harden(ino, page)?;
        Ok(())
    }

    /// The command is the last one that failed for the page, if it is dirty. It does not
    /// allocate.
    pub fn fail(&mut self, ino: u32, page: PageNo, command: u64)
        ensures { self.new ≡ with_pages (pages.fail self.old.store.pages ino page command) self.old }
    {
        self.pages.fail(ino, page, command);
    }

    /// The lease is lost: nothing is left. It does not allocate.
    pub fn clear(&mut self, pages: PageLoss, commands: CommandLoss) -> (PagesGone, CommandsGone)
        requires pages { pages.server ≡ self.old.server }
        requires commands { commands.server ≡ self.old.server }
        ensures left { self.new ≡ empty_store_of self.old.server }
        ensures pages { result.0 ≡ pages }
        ensures commands { result.1 ≡ commands }
    {
        self.extents.clear();
        let commands = self.commands.clear(commands);
        let pages = self.pages.clear(pages);
        (pages, commands)
    }
}
