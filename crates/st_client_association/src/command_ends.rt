// Commands that end, and what they make of their pages.
ghost use Rattle.std.specs.Prelude.{◌≡◌, None, OnOk};
ghost use Rattle.st_client_association.specs.Turns.{with_pages};
ghost use Rattle.st_flush.specs.Calls.{AreApart};
ghost use Rattle.st_rules.specs.ClientPages as pages;
ghost use Rattle.st_rules.specs.ClientState as client;
ghost use Rattle.st_client_store.specs.Stores.{AreMatched};

use crate::turn::Turn;
use st_base::{PageBytes, PageNo};
use st_rules::{Ended, PageCommand};
use std::alloc::AllocError;

impl Turn {
    /// The command of this number, if it is outstanding. The commands match the dirty pages, and
    /// are apart.
    pub fn command(&self, number: u64) -> Option<PageCommand>
        ensures command { result ≡ pages.command_of self.now.here.store.commands number }
        ensures matched { AreMatched self.now.here.store.pages.dirty self.now.here.store.commands }
        ensures apart { AreApart self.now.here.store.commands }
    {
        // For the clauses `matched` of the first and `apart` of the second: the commands match the
        // dirty pages, and are apart.
        let _dirty = self.here.store.dirty_count();
        let _on = self.here.store.command_on(0, PageNo(0));
        match self.here.store.command(number) {
            None => None,
            Some((ino, page, kind)) => Some(PageCommand {
                number,
                ino,
                page,
                kind,
            }),
        }
    }

    /// The version of the dirty page, or 0.
    pub fn version(&self, ino: u32, page: PageNo) -> u64
        ensures { result ≡ pages.version_of self.now.here.store.pages ino page }
    {
        self.here.store.version(ino, page)
    }

    /// A command ended, as done or as failed; `version` is that of its page now. It is no longer
    /// outstanding. It does not allocate.
    pub fn end_command(&mut self, number: u64, ok: bool, version: u64) -> Ended
        ensures ended { result ≡ (pages.end_command self.old.here.store.commands number ok version).ended }
        ensures left { self.new ≡ client.with_store (record self.old.here.store { commands = (pages.end_command self.old.here.store.commands number ok version).commands }) self.old }
    {
        self.here.store.done(number, ok, version)
    }

    /// A page that is not dirty becomes the newest clean one with these bytes. The bytes are
    /// shared.
    pub fn fill(&mut self, ino: u32, page: PageNo, bytes: &PageBytes) -> Result<(), AllocError>
        requires { pages.dirty_of self.old.here.store.pages ino page ≡ None }
        ensures { OnOk result (self.new ≡ with_pages (pages.fill self.old.here.store.pages ino page bytes.now) self.old) }
    {
        self.here.store.fill(ino, page, bytes)?;
        Ok(())
    }

    /// The dirty page becomes the newest clean one, if it is dirty. No command for it is
    /// outstanding. The bytes are shared.
    pub fn harden(&mut self, ino: u32, page: PageNo) -> Result<(), AllocError>
        requires { pages.command_on self.old.here.store.commands ino page ≡ None }
        ensures { OnOk result (self.new ≡ with_pages (pages.harden self.old.here.store.pages ino page) self.old) }
    {
        self.here.store.harden(ino, page)?;
        Ok(())
    }

    /// The command is the last one that failed for the page, if it is dirty. It does not
    /// allocate.
    pub fn fail(&mut self, ino: u32, page: PageNo, command: u64)
        ensures { self.new ≡ with_pages (pages.fail self.old.here.store.pages ino page command) self.old }
    {
        self.here.store.fail(ino, page, command);
    }
}
