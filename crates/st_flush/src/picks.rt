// Commands that a test picks, among those that are outstanding.
ghost use Rattle.std.specs.Prelude.{◌≡◌, find};
ghost use Rattle.std.specs.List.{list_any};
ghost use Rattle.st_rules.specs.ClientPages as pages;

use st_base::PageNo;
use st_rules::{IoKind, PageCommand};
use st_tables::{Ordered, Test};

/// Whether a command writes.
pub fn is_write(kind: IoKind) -> bool
    ensures { result ≡ pages.is_write kind }
{
    match kind {
        IoKind::Read => false,
        IoKind::Write(_) => true,
    }
}

/// The command of this number.
#[derive(Clone, Copy)]
pub struct Numbered {
    pub number: u64,
}

impl Test<PageCommand> for Numbered {
    ghost use Rattle.st_rules.specs.ClientPages.{is_numbered};

    ghost passes = { λ t c. is_numbered t.number c };

    fn test(&self, command: &PageCommand) -> bool {
        command.number == self.number
    }
}

/// The commands of other numbers.
#[derive(Clone, Copy)]
pub struct NotNumbered {
    pub number: u64,
}

impl Test<PageCommand> for NotNumbered {
    ghost use Rattle.std.specs.Prelude.{not};
    ghost use Rattle.st_rules.specs.ClientPages.{is_numbered};

    ghost passes = { λ t c. not (is_numbered t.number c) };

    fn test(&self, command: &PageCommand) -> bool {
        command.number != self.number
    }
}

/// The command of this page.
#[derive(Clone, Copy)]
pub struct OfPage {
    pub ino: u32,
    pub page: PageNo,
}

impl Test<PageCommand> for OfPage {
    ghost use Rattle.st_rules.specs.ClientPages.{is_command_of};

    ghost passes = { λ t c. is_command_of t.ino t.page c };

    fn test(&self, command: &PageCommand) -> bool {
        command.ino == self.ino && command.page.0 == self.page.0
    }
}

/// The read of this page.
#[derive(Clone, Copy)]
pub struct ReadOf {
    pub ino: u32,
    pub page: PageNo,
}

impl Test<PageCommand> for ReadOf {
    ghost use Rattle.st_rules.specs.ClientPages.{is_read_of};

    ghost passes = { λ t c. is_read_of t.ino t.page c };

    fn test(&self, command: &PageCommand) -> bool {
        !is_write(command.kind) && command.ino == self.ino && command.page.0 == self.page.0
    }
}

/// All but the read of this page.
#[derive(Clone, Copy)]
pub struct NotReadOf {
    pub ino: u32,
    pub page: PageNo,
}

impl Test<PageCommand> for NotReadOf {
    ghost use Rattle.std.specs.Prelude.{not};
    ghost use Rattle.st_rules.specs.ClientPages.{is_read_of};

    ghost passes = { λ t c. not (is_read_of t.ino t.page c) };

    fn test(&self, command: &PageCommand) -> bool {
        is_write(command.kind) || command.ino != self.ino || command.page.0 != self.page.0
    }
}

/// The write of this page.
#[derive(Clone, Copy)]
pub struct WriteOf {
    pub ino: u32,
    pub page: PageNo,
}

impl Test<PageCommand> for WriteOf {
    ghost use Rattle.st_rules.specs.ClientPages.{is_write_of};

    ghost passes = { λ t c. is_write_of t.ino t.page c };

    fn test(&self, command: &PageCommand) -> bool {
        is_write(command.kind) && command.ino == self.ino && command.page.0 == self.page.0
    }
}

/// The commands for this file's pages.
#[derive(Clone, Copy)]
pub struct OnFile {
    pub ino: u32,
}

impl Test<PageCommand> for OnFile {
    ghost use Rattle.st_rules.specs.ClientPages.{is_command_on};

    ghost passes = { λ t c. is_command_on t.ino c };

    fn test(&self, command: &PageCommand) -> bool {
        command.ino == self.ino
    }
}

/// The writes of this file's pages.
#[derive(Clone, Copy)]
pub struct WriteOn {
    pub ino: u32,
}

impl Test<PageCommand> for WriteOn {
    ghost use Rattle.st_rules.specs.ClientPages.{is_write_on};

    ghost passes = { λ t c. is_write_on t.ino c };

    fn test(&self, command: &PageCommand) -> bool {
        is_write(command.kind) && command.ino == self.ino
    }
}

/// The commands of this many numbers from the first one on.
#[derive(Clone, Copy)]
pub struct InRange {
    pub first: u64,
    pub many: usize,
}

impl Test<PageCommand> for InRange {
    ghost use Rattle.st_flush.specs.Calls.{is_in_range};

    ghost passes = { λ t c. is_in_range t.first t.many c };

    fn test(&self, command: &PageCommand) -> bool {
        self.first <= command.number && command.number - self.first < self.many as u64
    }
}

/// The first command that the test picks.
pub fn find_command<T: Test<PageCommand>>(
    commands: &Ordered<PageCommand>,
    test: &T,
) -> Option<PageCommand>
    ensures { result ≡ find (T.passes test.now) commands.now }
{
    for i in 0..commands.len() {
        let command = commands.get(i).copied()?;
        if test.test(&command) {
            return Some(command);
        }
    }
    None
}

/// Whether the test picks a command.
pub fn any_command<T: Test<PageCommand>>(commands: &Ordered<PageCommand>, test: &T) -> bool
    ensures { result ≡ list_any (T.passes test.now) commands.now }
{
    find_command(commands, test).is_some()
}
