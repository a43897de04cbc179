// Pages that are used and changed with a session, and reads from the disks.
ghost use Rattle.std.specs.Prelude.{◌≡◌, true, false, None, IfOk, OnOk};
ghost use Rattle.st_client_association.specs.Turns.{Changes, Reads, session_of, with_pages};
ghost use Rattle.st_rules.specs.ClientInvariants.{lasts_here};
ghost use Rattle.st_rules.specs.ClientPages as pages;
ghost use Rattle.st_rules.specs.ClientPasses as passes;
ghost use Rattle.st_rules.specs.ClientState as client;

use crate::outputs::count;
use crate::session_turn::SessionTurn;
use st_base::{Command, PageBytes, PageNo, Stamp};
use st_client_store::CacheRefusal;
use st_messages::{Note, Output};
use st_rules::MappedBlock;
use std::alloc::AllocError;

impl SessionTurn {
    /// Reads a page, which is used.
    fn read_page(
        &mut self,
        now: Stamp,
        ino: u32,
        page: PageNo,
    ) -> Result<Option<PageBytes>, AllocError>
        requires { client.is_serving self.old.config (session_of self.old) now ≡ true }
        ensures used { self.new ≡ with_pages (pages.use_page self.old.here.store.pages ino page) self.old }
        ensures bytes { IfOk result (λ bytes. bytes ≡ pages.cached self.old.here.store.pages ino page) }
    {
        let turn = &mut self.turn;
        let here = &mut *turn.here;
        match &mut here.session {
            Some(session) => session.read(now, &mut here.store, ino, page),
            None => unreachable!(),
        }
    }

    /// Reads a page: `None` if it is neither dirty nor clean; then nothing changes. A clean page
    /// becomes the newest one. The bytes are shared.
    pub fn read(
        &mut self,
        now: Stamp,
        ino: u32,
        page: PageNo,
    ) -> Result<Option<PageBytes>, AllocError>
        requires { client.is_serving self.old.config (session_of self.old) now ≡ true }
        ensures { IfOk result (λ bytes. Reads self.old self.new bytes ino page) }
    {
        self.read_page(now, ino, page)
    }

    /// The bytes that a patch of a page changes: `None` if the page is neither dirty nor clean.
    /// The bytes are shared.
    pub fn base(
        &mut self,
        now: Stamp,
        ino: u32,
        page: PageNo,
    ) -> Result<Option<PageBytes>, AllocError>
        requires { client.is_serving self.old.config (session_of self.old) now ≡ true }
        ensures bytes { IfOk result (λ bytes. bytes ≡ pages.cached self.old.here.store.pages ino page) }
        ensures stays { self.new ≡ self.old }
    {
        let turn = &mut self.turn;
        let here = &mut *turn.here;
        match &mut here.session {
            Some(session) => session.base(now, &here.store, ino, page),
            None => unreachable!(),
        }
    }

    /// A read of a page is submitted. The page is not dirty, and is not being read.
    #[tactic(auto, unfolding(st_rules::specs::ClientPasses::submit_read, st_rules::specs::ClientPasses::submit_command))]
    pub fn submit_read(
        &mut self,
        now: Stamp,
        ino: u32,
        page: PageNo,
        mapping: MappedBlock,
    ) -> Result<(), AllocError>
        requires lasting { lasts_here self.old.config now self.old.here ≡ true }
        requires clean { pages.dirty_of self.old.here.store.pages ino page ≡ None }
        requires unread { pages.is_being_read self.old.here.store.commands ino page ≡ false }
        ensures { OnOk result (self.new ≡ passes.submit_read self.old ino page mapping) }
    {
        let turn = &mut self.turn;
        let number = turn.next_command;
        turn.out.push(Output::Submit {
            command: number,
            at: mapping.at,
            what: Command::Read { at: mapping.at },
        })?;
        // For its clause `small`: numbers of commands have room for one more output.
        let _count = count(&turn.out);
        let here = &mut *turn.here;
        match &mut here.session {
            Some(session) => session.begin_read(now, &mut here.store, number, ino, page)?,
            None => unreachable!(),
        }
        turn.next_command = number + 1;
        Ok(())
    }

    /// Changes a page, with this note. `false` if 64 others are dirty; then nothing changes. The
    /// bytes are shared.
    pub fn change_page(
        &mut self,
        now: Stamp,
        ino: u32,
        page: PageNo,
        bytes: &PageBytes,
        note: Note,
    ) -> Result<bool, AllocError>
        requires { client.is_serving self.old.config (session_of self.old) now ≡ true }
        ensures { IfOk result (λ v. Changes self.old self.new v ino page bytes.now note) }
    {
        let turn = &mut self.turn;
        // For its clause `small`: numbers of commands have room for one more output.
        let _count = count(&turn.out);
        turn.out.reserve(1)?;
        let here = &mut *turn.here;
        let changed = match &mut here.session {
            Some(session) => session.change(now, &mut here.store, ino, page, bytes),
            None => unreachable!(),
        };
        match changed {
            Ok(()) => {
                turn.out.push_reserved(Output::Note(note));
                Ok(true)
            }
            Err(CacheRefusal::DirtyFull) => Ok(false),
            Err(CacheRefusal::Memory) => Err(AllocError),
        }
    }
}
