// A command as the disks keep it: one row, whether it reads or writes.
ghost use Rattle.std.specs.Prelude.{◌≡◌, IfOk};
ghost use Rattle.std.specs.Option.{option_map};
ghost use Rattle.st_base.specs.declared.disk.Command.TheVariants.{Read};
ghost use Rattle.st_disk.specs.Calls.{IsWrite, shown};
ghost use Rattle.st_disk.specs.CommandStates.{standing_of};
ghost use Rattle.st_disk.specs.Kept.{is_effected};
ghost use Rattle.st_rules.specs.Disks as disks;

use crate::commands::CommandState;
use st_base::{BlockAt, Command, FileId, PageBytes, PageNo, ServerId, Tag};
use st_rules::{Block, Report};
use std::alloc::AllocError;
use std::marker::Model;

/// The tag of a block that was never written.
pub const FRESH_TAG: Tag = Tag {
    file: FileId {
        server: ServerId(0),
        ino: 0,
    },
    page: PageNo(0),
    birth: 0,
};

/// Whether a command reads or writes, and whether it had its effect.
#[derive(Clone, Copy, Debug, PartialEq, Eq)]
pub enum Stage {
    Read,
    Sampled,
    Write,
    Written,
}

/// Whether a command had its effect.
fn is_effected(stage: Stage) -> bool
    ensures { result ≡ is_effected stage }
{
    match stage {
        Stage::Read => false,
        Stage::Sampled => true,
        Stage::Write => false,
        Stage::Written => true,
    }
}

/// A command, with the tag and the bytes that it writes, or those that it found at its effect.
/// Before its effect the tag and the bytes of a read say nothing. Contracts see the definitions'
/// command.
#[derive(Drop)]
pub struct KeptCommand {
    at: BlockAt,
    tag: Tag,
    bytes: PageBytes,
    stage: Stage,
    report: Report,
}

impl Model for KeptCommand {
    ghost use Rattle.st_rules.specs.declared.disks.DiskCommand.{DiskCommand};
    ghost use Rattle.st_disk.specs.Kept.{command_kept};

    ghost Value = { DiskCommand };

    ghost view = { λ c. command_kept c.stage c.at c.tag c.bytes c.report };
}

impl KeptCommand {
    /// A command that has no effect yet. It does not allocate.
    pub fn new(command: Command) -> KeptCommand
        ensures { result ≡ disks.new_command command }
    {
        match command {
            Command::Read { at } => KeptCommand {
                at,
                tag: FRESH_TAG,
                bytes: PageBytes::filled(0),
                stage: Stage::Read,
                report: Report::Open,
            },
            Command::Write { at, tag, bytes } => KeptCommand {
                at,
                tag,
                bytes,
                stage: Stage::Write,
                report: Report::Open,
            },
        }
    }

    /// The state of the command.
    pub fn state(&self) -> CommandState
        ensures { result ≡ standing_of self.now }
    {
        CommandState {
            effected: is_effected(self.stage),
            report: self.report,
        }
    }

    /// What must be read or written. The page is shared.
    pub fn what(&self) -> Result<Command, AllocError>
        ensures { IfOk result (λ what. what ≡ self.now.what) }
    {
        match self.stage {
            Stage::Read => Ok(Command::Read { at: self.at }),
            Stage::Sampled => Ok(Command::Read { at: self.at }),
            Stage::Write => Ok(Command::Write {
                at: self.at,
                tag: self.tag,
                bytes: self.bytes.copy()?,
            }),
            Stage::Written => Ok(Command::Write {
                at: self.at,
                tag: self.tag,
                bytes: self.bytes.copy()?,
            }),
        }
    }

    /// The tag and the bytes that a read found at its effect.
    pub fn sample(&self) -> Option<(Tag, &PageBytes)>
        ensures { option_map (λ s. (s.0, s.1.now)) result ≡ option_map shown self.now.sample }
    {
        match self.stage {
            Stage::Sampled => Some((self.tag, &self.bytes)),
            _ => None,
        }
    }

    /// The read of this block has its effect: it found the block so.
    pub fn find(&mut self, found: Block)
        requires { self.old.what ≡ Read found.at }
        ensures { self.new ≡ disks.sampled found self.old }
    {
        self.at = found.at;
        self.tag = found.tag;
        self.bytes = found.bytes;
        self.stage = Stage::Sampled;
    }

    /// The write has its effect.
    pub fn write(&mut self)
        requires { IsWrite self.old.what }
        ensures { self.new ≡ disks.effected self.old }
    {
        self.stage = Stage::Written;
    }

    /// The command is reported, with success or failure.
    pub fn close(&mut self, ok: bool)
        ensures { self.new ≡ disks.reported ok self.old }
    {
        self.report = report_of(ok);
    }
}

fn report_of(ok: bool) -> Report
    ensures { result ≡ disks.report_of ok }
{
    if ok {
        Report::Succeeded
    } else {
        Report::Failed
    }
}
