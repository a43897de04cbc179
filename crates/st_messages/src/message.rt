// Messages: the header, and the bodies of all kinds.
ghost use Rattle.std.specs.Prelude.{◌≡◌, IfOk};

use crate::answer::AppAnswer;
use crate::ask::Ask;
use st_base::{
    BlockAt, Command, ExtentRows, GrantNo, LockRows, Mode, Name, NameRows, PageBytes, PageNo, Tag,
};
use std::alloc::AllocError;

/// The header of a message. The node number of a client is its own number, that of a server is its
/// number plus 32,768, and 0 is the node's own surroundings.
#[derive(Clone, Copy, Debug, PartialEq, Eq)]
pub struct Header {
    pub from: u16,
    pub to: u16,
    pub life: u64,
    pub epoch: u64,
    pub number: u64,
    pub stamp: u64,
}

/// Why a server refuses a request. The number of a reason is its position in this list, from 1.
#[derive(Clone, Copy, Debug, PartialEq, Eq)]
pub enum Why {
    Suspect,
    NoSession,
    OtherEpoch,
    Grace,
    GraceOver,
    Conflict,
    NotHolder,
    NoFile,
    NoSpace,
    TooManyLocks,
}

/// A client's request on a server's names.
#[derive(Drop)]
pub enum NameOp {
    Lookup {
        dir: u32,
        name: Name,
    },
    Create {
        dir: u32,
        name: Name,
    },
    Mkdir {
        dir: u32,
        name: Name,
    },
    /// `g` is the number of the grant under which the client holds the file, or 0 for a directory.
    Remove {
        dir: u32,
        name: Name,
        g: GrantNo,
    },
    Rename {
        dir: u32,
        name: Name,
        dir2: u32,
        name2: Name,
    },
    List {
        dir: u32,
        after: Name,
    },
}

/// A server's reply to a request on its names.
#[derive(Drop)]
pub enum NameReply {
    Ino(u32),
    Listed(NameRows),
    /// The number of the refusal, from 1 to 8.
    Refused(u8),
}

/// How a disk command ended.
#[derive(Drop)]
pub enum DiskResult {
    Failed,
    WriteDone,
    ReadDone(Tag, PageBytes),
}

/// The body of a message, one variant per kind.
#[derive(Clone, Drop)]
pub enum Body {
    Hello,
    KeepAlive,
    Acquire {
        ino: u32,
        mode: Mode,
    },
    Released {
        ino: u32,
        g: GrantNo,
        to: Mode,
    },
    Map {
        ino: u32,
        g: GrantNo,
        page: PageNo,
    },
    Allocate {
        ino: u32,
        g: GrantNo,
        page: PageNo,
        count: u16,
    },
    Cut {
        ino: u32,
        g: GrantNo,
        from: PageNo,
    },
    Name(NameOp),
    Reassert(LockRows),
    DemandSeen {
        ino: u32,
        g: GrantNo,
    },
    Welcome,
    Ack,
    Nack {
        why: Why,
        a: u64,
        b: u64,
    },
    Granted {
        ino: u32,
        g: GrantNo,
        mode: Mode,
    },
    Queued {
        ino: u32,
        mode: Mode,
    },
    Demand {
        ino: u32,
        g: GrantNo,
        to: Mode,
    },
    Extents {
        ino: u32,
        rows: ExtentRows,
    },
    Named(NameReply),
    Reasserted,
    Tick,
    App {
        op: u32,
        ask: Ask,
    },
    AppDone {
        op: u32,
        answer: AppAnswer,
    },
    Submit {
        command: u64,
        at: BlockAt,
        what: Command,
    },
    Done {
        command: u64,
        result: DiskResult,
    },
}

/// A message of the protocol.
#[derive(Drop)]
pub struct Message {
    pub header: Header,
    pub body: Body,
}

impl Clone for NameOp {
    ghost is_clone = { λ o c. c ≡ o };

    fn clone(&self) -> Result<NameOp, AllocError> {
        self.copy()
    }
}

impl NameOp {
    /// Returns a copy of the request.
    pub fn copy(&self) -> Result<NameOp, AllocError>
        ensures { IfOk result (λ o. o ≡ self.now) }
    {
        match self {
            NameOp::Lookup { dir, name } => Ok(NameOp::Lookup {
                dir: *dir,
                name: name.copy()?,
            }),
            NameOp::Create { dir, name } => Ok(NameOp::Create {
                dir: *dir,
                name: name.copy()?,
            }),
            NameOp::Mkdir { dir, name } => Ok(NameOp::Mkdir {
                dir: *dir,
                name: name.copy()?,
            }),
            NameOp::Remove { dir, name, g } => Ok(NameOp::Remove {
                dir: *dir,
                name: name.copy()?,
                g: *g,
            }),
            NameOp::Rename {
                dir,
                name,
                dir2,
                name2,
            } => Ok(NameOp::Rename {
                dir: *dir,
                name: name.copy()?,
                dir2: *dir2,
                name2: name2.copy()?,
            }),
            NameOp::List { dir, after } => Ok(NameOp::List {
                dir: *dir,
                after: after.copy()?,
            }),
        }
    }
}

impl Clone for NameReply {
    ghost is_clone = { λ r c. c ≡ r };

    fn clone(&self) -> Result<NameReply, AllocError> {
        self.copy()
    }
}

impl NameReply {
    /// Returns a copy of the reply.
    pub fn copy(&self) -> Result<NameReply, AllocError>
        ensures { IfOk result (λ r. r ≡ self.now) }
    {
        match self {
            NameReply::Ino(ino) => Ok(NameReply::Ino(*ino)),
            NameReply::Listed(rows) => Ok(NameReply::Listed(rows.copy()?)),
            NameReply::Refused(code) => Ok(NameReply::Refused(*code)),
        }
    }
}

impl Clone for DiskResult {
    ghost is_clone = { λ d c. c ≡ d };

    fn clone(&self) -> Result<DiskResult, AllocError> {
        self.copy()
    }
}

impl DiskResult {
    /// Returns a copy of the result. A page is shared.
    pub fn copy(&self) -> Result<DiskResult, AllocError>
        ensures { IfOk result (λ r. r ≡ self.now) }
    {
        match self {
            DiskResult::Failed => Ok(DiskResult::Failed),
            DiskResult::WriteDone => Ok(DiskResult::WriteDone),
            DiskResult::ReadDone(tag, bytes) => Ok(DiskResult::ReadDone(*tag, bytes.copy()?)),
        }
    }
}

impl Body {
    /// Returns a copy of the body. A page is shared.
    pub fn copy(&self) -> Result<Body, AllocError>
        ensures { IfOk result (λ b. b ≡ self.now) }
    {
        self.clone()
    }
}

impl Clone for Message {
    ghost is_clone = { λ m c. c ≡ m };

    fn clone(&self) -> Result<Message, AllocError> {
        self.copy()
    }
}

impl Message {
    /// Returns a copy of the message. A page is shared.
    pub fn copy(&self) -> Result<Message, AllocError>
        ensures { IfOk result (λ m. m ≡ self.now) }
    {
        Ok(Message {
            header: self.header,
            body: self.body.copy()?,
        })
    }
}
