ghost use Rattle.std.specs.Prelude.{◌≡◌, ◌+◌, ◌≤◌, ◌^◌, ◌&&◌, None, true, IfOk, OnOk, OnErr, length};
ghost use Rattle.std.specs.Option.{option_map};
ghost use Rattle.std.specs.List.{list_any};
ghost use Rattle.st_rules.specs.ClientPages as pages;
ghost use Rattle.st_rules.specs.ServerInvariants.{are_once};
ghost use Rattle.st_flush.specs.Calls.{AreApart, Ends, is_taken_in, may_begin, no_commands_of, same_page_write, told, told_on, with_begun, with_commands};

use crate::picks::{
    InRange, NotNumbered, NotReadOf, Numbered, OfPage, OnFile, ReadOf, WriteOf, WriteOn,
    any_command, find_command,
};
use st_base::{PageNo, ServerId};
use st_lease_client::{CommandLoss, CommandsGone, DrainPermit, Receipt, SubmitPermit};
use st_rules::{Ended, IoKind, PageCommand};
use st_tables::Ordered;
use std::alloc::{AllocError, Global};
use std::marker::Model;

/// The outstanding disk commands of a client for one server's files. Contracts see them as the
/// server and the list of the commands in the order in which they were submitted.
#[derive(Drop)]
pub struct Flusher {
    server: ServerId,
    commands: Ordered<PageCommand>,
}

impl Model for Flusher {
    ghost use Rattle.st_flush.specs.Calls.{ServerCommands};

    ghost Value = { ServerCommands };

    ghost use Rattle.st_flush.specs.Calls.{AreApart};

    ghost view = { λ f. record { server = f.server; commands = f.commands } };

    ghost invariant = { λ f. AreApart f.commands };
}

/// How a command ended, if the page is at this version now.
fn ended_as(command: PageCommand, ok: bool, version: u64) -> Ended
    ensures { result ≡ pages.ended_as command ok version }
{
    if !ok {
        return Ended::Failed;
    }
    match command.kind {
        IoKind::Read => Ended::Filled,
        IoKind::Write(written) => {
            if written == version {
                Ended::Hard
            } else {
                Ended::Redirty
            }
        }
    }
}

/// Whether a later write is of the same page.
fn comes_again(write: (u32, PageNo, u64), later: &[(u32, PageNo, u64)]) -> bool
    ensures { result ≡ list_any (same_page_write write) later.now }
{
    later
        .iter()
        .any(|other| other.0 == write.0 && other.1.0 == write.1.0)
}

/// Whether the pages of these writes differ.
fn differ(writes: &[(u32, PageNo, u64)]) -> bool
    ensures { result ≡ are_once same_page_write writes.now }
{
    for i in 0..writes.len() {
        if comes_again(writes[i], &writes[i + 1..]) {
            return false;
        }
    }
    true
}

/// Both.
fn both(a: bool, b: bool) -> bool
    ensures { result ≡ a && b }
{
    a && b
}

impl Flusher {
    /// No command is outstanding.
    #[tactic(auto, unfolding(st_rules::specs::ServerInvariants::are_once))]
    pub fn new(alloc: Global, server: ServerId) -> Result<Flusher, AllocError>
        ensures { IfOk result (λ f. f ≡ no_commands_of server) }
    {
        Ok(Flusher {
            server,
            commands: Ordered::new(alloc),
        })
    }

    /// How many commands are outstanding.
    pub fn len(&self) -> usize
        ensures { result ≡ length self.now.commands }
    {
        self.commands.len()
    }

    /// The file, the page and the kind of the command of this number, or `None` if it is not
    /// outstanding. It does not allocate.
    pub fn of(&self, number: u64) -> Option<(u32, PageNo, IoKind)>
        ensures { result ≡ option_map told (pages.command_of self.now.commands number) }
    {
        let command = find_command(&self.commands, &Numbered { number })?;
        Some((command.ino, command.page, command.kind))
    }

    /// The number and the kind of the page's command, or `None` if it has none. It does not
    /// allocate.
    pub fn on(&self, ino: u32, page: PageNo) -> Option<(u64, IoKind)>
        ensures command { result ≡ option_map told_on (pages.command_on self.now.commands ino page) }
        ensures apart { AreApart self.now.commands }
    {
        let command = find_command(&self.commands, &OfPage { ino, page })?;
        Some((command.number, command.kind))
    }

    /// The number of the page's outstanding write, or `None` if it has none.
    pub fn write_on(&self, ino: u32, page: PageNo) -> Option<u64>
        ensures { result ≡ option_map pages.number_of_command (pages.write_on self.now.commands ino page) }
    {
        let command = find_command(&self.commands, &WriteOf { ino, page })?;
        Some(command.number)
    }

    /// Whether a read of the page is outstanding.
    pub fn is_being_read(&self, ino: u32, page: PageNo) -> bool
        ensures { result ≡ pages.is_being_read self.now.commands ino page }
    {
        any_command(&self.commands, &ReadOf { ino, page })
    }

    /// Whether a write of the page is outstanding.
    pub fn is_being_written(&self, ino: u32, page: PageNo) -> bool
        ensures { result ≡ pages.is_being_written self.now.commands ino page }
    {
        any_command(&self.commands, &WriteOf { ino, page })
    }

    /// Whether a command for a page of the file is outstanding.
    pub fn outstanding(&self, ino: u32) -> bool
        ensures { result ≡ pages.is_outstanding self.now.commands ino }
    {
        any_command(&self.commands, &OnFile { ino })
    }

    /// Whether a write of a page of the file is outstanding.
    pub fn has_write_on(&self, ino: u32) -> bool
        ensures { result ≡ pages.has_write_on self.now.commands ino }
    {
        any_command(&self.commands, &WriteOn { ino })
    }

    /// A command ended, as done or as failed; `version` is that of its page now. It returns what
    /// became of it: `Unknown` if no outstanding command has the number; `Failed` if it
    /// failed; `Filled` of a read; and of a write `Hard` if it wrote this version, and otherwise
    /// `Redirty`. It is no longer outstanding. It does not allocate.
    #[tactic(auto, unfolding(st_rules::specs::ClientPages::end_command, st_rules::specs::ClientPages::end_at))]
    pub fn done(&mut self, number: u64, ok: bool, version: u64) -> Ended
        ensures { Ends self.old self.new result (pages.end_command self.old.commands number ok version) }
    {
        match find_command(&self.commands, &Numbered { number }) {
            None => Ended::Unknown,
            Some(command) => {
                self.commands.retain(&NotNumbered { number });
                ended_as(command, ok, version)
            }
        }
    }

    /// Forgets an outstanding read of the page. It does not allocate.
    #[tactic(auto, unfolding(st_rules::specs::ClientPages::forget_read))]
    pub fn forget_read(&mut self, ino: u32, page: PageNo)
        ensures { self.new ≡ with_commands (pages.forget_read self.old.commands ino page) self.old }
    {
        self.commands.retain(&NotReadOf { ino, page });
    }

    /// A command becomes outstanding.
    #[tactic(auto, unfolding(st_rules::specs::ClientPages::begin_command))]
    fn begin(&mut self, command: PageCommand) -> Result<(), AllocError>
        requires page { pages.command_on self.old.commands command.ino command.page ≡ None }
        requires number { pages.command_of self.old.commands command.number ≡ None }
        ensures ok { OnOk result (self.new ≡ with_begun command.number command.ino command.page command.kind self.old) }
        ensures err { OnErr result (self.new ≡ self.old) }
    {
        self.commands.push(command)?;
        Ok(())
    }

    /// A command of this number becomes outstanding. Its page has none, and no outstanding command
    /// has the number. The permit is spent also if memory runs out; then nothing changes.
    pub fn submit(
        &mut self,
        permit: SubmitPermit<'_>,
        number: u64,
        ino: u32,
        page: PageNo,
        kind: IoKind,
    ) -> Result<(), AllocError>
        requires server { permit.server ≡ self.old.server }
        requires page { pages.command_on self.old.commands ino page ≡ None }
        requires number { pages.command_of self.old.commands number ≡ None }
        ensures ok { OnOk result (self.new ≡ with_begun number ino page kind self.old) }
        ensures err { OnErr result (self.new ≡ self.old) }
    {
        permit.spend();
        self.begin(PageCommand {
            number,
            ino,
            page,
            kind,
        })
    }

    /// Whether the page of one of these writes has an outstanding command.
    fn any_taken(&self, writes: &[(u32, PageNo, u64)]) -> bool
        ensures { result ≡ list_any (is_taken_in self.now.commands) writes.now }
    {
        writes.iter().any(|write| {
            let page = OfPage {
                ino: write.0,
                page: write.1,
            };
            find_command(&self.commands, &page).is_some()
        })
    }

    /// Whether writes of these files, pages and versions may begin, numbered from `first` on: their
    /// pages differ and have no outstanding command, and no outstanding command has one of the
    /// numbers.
    pub fn may_begin(&self, writes: &[(u32, PageNo, u64)], first: u64) -> bool
        ensures { result ≡ may_begin self.now.commands writes.now first }
    {
        let many = writes.len();
        let numbered = any_command(&self.commands, &InRange { first, many });
        both(differ(writes), both(!self.any_taken(writes), !numbered))
    }

    /// Writes of these files, pages and versions become outstanding, numbered one after another.
    #[tactic(auto, unfolding(st_rules::specs::ClientPages::begin_writes))]
    fn begin_all(&mut self, writes: &[(u32, PageNo, u64)], first: u64) -> Result<(), AllocError>
        requires may { may_begin self.old.commands writes.now first ≡ true }
        requires numbers { first + length writes.now ≤ 2 ^ 64 }
        ensures server { self.new.server ≡ self.old.server }
        ensures ok { OnOk result (self.new ≡ with_commands (pages.begin_writes self.old.commands writes.now first) self.old) }
    {
        for i in 0..writes.len() {
            let (ino, page, version) = writes[i];
            self.begin(PageCommand {
                number: first + i as u64,
                ino,
                page,
                kind: IoKind::Write(version),
            })?;
        }
        Ok(())
    }

    /// Writes of these files, pages and versions become outstanding, numbered from `first` on in
    /// the list's order. The pages differ and have no outstanding command, and no outstanding
    /// command has one of the numbers. The permit is spent and its receipt is handed back even if
    /// memory runs out; then nothing is promised about the commands.
    pub fn submit_all(
        &mut self,
        permit: DrainPermit,
        writes: &[(u32, PageNo, u64)],
        first: u64,
    ) -> (Receipt, Result<(), AllocError>)
        requires server { permit.server ≡ self.old.server }
        requires may { may_begin self.old.commands writes.now first ≡ true }
        requires numbers { first + length writes.now ≤ 2 ^ 64 }
        ensures receipt { result.0 ≡ permit }
        ensures server { self.new.server ≡ self.old.server }
        ensures ok { OnOk result.1 (self.new ≡ with_commands (pages.begin_writes self.old.commands writes.now first) self.old) }
    {
        let begun = self.begin_all(writes, first);
        (permit.spend(), begun)
    }

    /// Forgets all commands, at a loss. It does not allocate.
    pub fn clear(&mut self, loss: CommandLoss) -> CommandsGone
        requires { loss.server ≡ self.old.server }
        ensures commands { self.new ≡ no_commands_of self.old.server }
        ensures gone { result ≡ loss }
    {
        self.commands.clear();
        loss.done()
    }
}
