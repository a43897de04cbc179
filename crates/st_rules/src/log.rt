ghost use Rattle.std.specs.Prelude.{◌≡◌, IfOk};

use st_base::{ClientId, FileId, Life, PageBytes, PageNo};
use st_messages::PatchBytes;
use std::alloc::AllocError;

/// Why an entry of the log is gone: its client crashed, or the disk command with this number should
/// have written it and failed.
#[derive(Clone, Copy, Debug, PartialEq, Eq)]
pub enum Cause {
    Crash,
    Failed(u64),
}

/// The fate of an entry of the log.
#[derive(Clone, Copy, Debug, PartialEq, Eq)]
pub enum Fate {
    Pending,
    Hard,
    Gone(Cause),
}

/// The client and the life of an entry of the log, and the page that it changes. A cut has client 0
/// and life 0, and the first page that it drops.
#[derive(Clone, Copy, Debug, PartialEq, Eq)]
pub struct LogOwner {
    pub client: ClientId,
    pub life: Life,
    pub file: FileId,
    pub page: PageNo,
}

/// How an entry of the log changes a page.
#[derive(Drop)]
pub enum Change {
    Write(PageBytes),
    /// The index of the first byte in the page, and the bytes.
    Patch(u16, PatchBytes),
    Cut,
}

/// An entry of the log.
#[derive(Drop)]
pub struct LogEntry {
    pub of: LogOwner,
    pub change: Change,
    pub fate: Fate,
}

/// An entry of the log without its bytes and its fate.
#[derive(Clone, Copy, Debug, PartialEq, Eq)]
pub enum EntryHead {
    Write {
        client: ClientId,
        life: Life,
        file: FileId,
        page: PageNo,
    },
    Patch {
        client: ClientId,
        life: Life,
        file: FileId,
        page: PageNo,
    },
    Cut {
        file: FileId,
        from: PageNo,
    },
}

impl Change {
    /// Returns a copy of the change. A page is shared.
    pub fn copy(&self) -> Result<Change, AllocError>
        ensures { IfOk result (λ c. c ≡ self.now) }
    {
        match self {
            Change::Write(bytes) => Ok(Change::Write(bytes.copy()?)),
            Change::Patch(at, bytes) => Ok(Change::Patch(*at, bytes.copy()?)),
            Change::Cut => Ok(Change::Cut),
        }
    }
}

impl LogEntry {
    /// Returns a copy of the entry. A page is shared.
    pub fn copy(&self) -> Result<LogEntry, AllocError>
        ensures { IfOk result (λ e. e ≡ self.now) }
    {
        Ok(LogEntry {
            of: self.of,
            change: self.change.copy()?,
            fate: self.fate,
        })
    }
}
