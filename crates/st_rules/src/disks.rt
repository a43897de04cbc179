ghost use Rattle.std.specs.Prelude.{◌≡◌, IfOk};

use st_base::{BlockAt, Command, PageBytes, Tag};
use std::alloc::AllocError;

/// A block of a disk, with its tag and its bytes.
#[derive(Drop)]
pub struct Block {
    pub at: BlockAt,
    pub tag: Tag,
    pub bytes: PageBytes,
}

/// Whether a disk command was reported, and how.
#[derive(Clone, Copy, Debug, PartialEq, Eq)]
pub enum Report {
    Open,
    Succeeded,
    Failed,
}

/// A disk command: whether it had its effect, how it was reported, and the block that a read found
/// at its effect.
#[derive(Drop)]
pub struct DiskCommand {
    pub what: Command,
    pub effected: bool,
    pub report: Report,
    pub sample: Option<Block>,
}

/// Why the effect or the report of a disk command is refused. The value is the command's number.
#[derive(Clone, Copy, Debug, PartialEq, Eq)]
pub enum CommandRefusal {
    NoCommand(u64),
    /// It had its effect, or was reported, before.
    Twice(u64),
    /// It had no effect, so it cannot be reported as a success.
    NotEffected(u64),
    /// It was reported, so it can no longer have an effect.
    Reported(u64),
}

impl Block {
    /// Returns a copy of the block. Its page is shared.
    pub fn copy(&self) -> Result<Block, AllocError>
        ensures { IfOk result (λ b. b ≡ self.now) }
    {
        Ok(Block {
            at: self.at,
            tag: self.tag,
            bytes: self.bytes.copy()?,
        })
    }
}

fn copy_sample(sample: &Option<Block>) -> Result<Option<Block>, AllocError>
    ensures { IfOk result (λ s. s ≡ sample.now) }
{
    match sample {
        None => Ok(None),
        Some(block) => Ok(Some(block.copy()?)),
    }
}

impl DiskCommand {
    /// Returns a copy of the command. Its pages are shared.
    pub fn copy(&self) -> Result<DiskCommand, AllocError>
        ensures { IfOk result (λ c. c ≡ self.now) }
    {
        Ok(DiskCommand {
            what: self.what.copy()?,
            effected: self.effected,
            report: self.report,
            sample: copy_sample(&self.sample)?,
        })
    }
}
