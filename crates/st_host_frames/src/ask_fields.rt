// The ask that a struct means.
ghost use Rattle.std.specs.Prelude.{◌≡◌, Some};
ghost use Rattle.st_host_frames.specs.Asks as specs_of;
ghost use Rattle.st_host_frames.specs.Asks.{measured};
ghost use Rattle.st_host_frames.specs.Results.{Gives};
ghost use Rattle.st_messages.specs.declared.ask.Ask.TheVariants as asks;

use crate::fault::HostFault;
use st_base::{FileId, Name, NameAsk, PageBytes, PageNo, ServerId};
use st_messages::{Ask, PatchBytes};
use std::alloc::Global;

/// An ask of an application. Fields that it doesn't need may have any value.
#[repr(C)]
#[derive(Clone, Copy)]
pub struct TankAsk {
    /// The number under which its answer comes. It is used once.
    pub op: u64,
    /// Its kind: 1 write, 2 read, 3 sync, 4 cut, 6 patch; on names 81 lookup, 82 create, 83 mkdir,
    /// 84 remove, 85 rename, 86 list.
    pub ask: u32,
    /// The inode number of the file, or that of the directory.
    pub ino: u32,
    /// The page; for a cut the first that goes.
    pub page: u32,
    /// For a removal the inode number of the file, or 0 for a directory; for a renaming that of the
    /// new directory.
    pub other: u32,
    /// The file's server.
    pub server: u16,
    /// For a patch, the first byte in the page.
    pub at: u16,
    /// The client to which it goes.
    pub client: u16,
}

/// The file of an ask.
fn file_of(ask: &TankAsk) -> FileId
    ensures { result ≡ specs_of.file_of ask.now }
{
    FileId {
        server: ServerId(ask.server),
        ino: ask.ino,
    }
}

/// The ask on names that a struct means, if it is one.
#[tactic(auto, unfolding(crate::specs::Asks::name_asked))]
fn name_ask_of(
    alloc: Global,
    ask: &TankAsk,
    bytes: &[u8],
    other: &[u8],
) -> Result<Option<NameAsk>, HostFault>
    ensures { Gives (λ x. x) result (specs_of.as_asked (specs_of.name_asked ask.now bytes.now other.now)) }
{
    let dir = ask.ino;
    let name = Name::from_slice(alloc, bytes)?;
    match ask.ask {
        81 => Ok(Some(NameAsk::Lookup { dir, name })),
        82 => Ok(Some(NameAsk::Create { dir, name })),
        83 => Ok(Some(NameAsk::Mkdir { dir, name })),
        84 => Ok(Some(NameAsk::Remove {
            dir,
            name,
            ino: ask.other,
        })),
        85 => Ok(Some(NameAsk::Rename {
            dir,
            name,
            dir2: ask.other,
            name2: Name::from_slice(alloc, other)?,
        })),
        86 => Ok(Some(NameAsk::List { dir, after: name })),
        _ => Ok(None),
    }
}

/// The ask that a struct means.
#[tactic(auto, unfolding(crate::specs::Asks::asked))]
pub(crate) fn ask_of(
    alloc: Global,
    ask: &TankAsk,
    bytes: &[u8],
    other: &[u8],
) -> Result<Ask, HostFault>
    ensures { Gives (λ x. x) result (measured (specs_of.asked ask.now bytes.now other.now)) }
{
    match ask.ask {
        1 => {
            if bytes.len() != 4_096 {
                return Err(HostFault::Range);
            }
            let page = PageBytes::from_slice(alloc, bytes)?;
            Ok(Ask::Write(file_of(ask), PageNo(ask.page), page))
        }
        2 => Ok(Ask::Read(file_of(ask), PageNo(ask.page))),
        3 => Ok(Ask::Sync(file_of(ask))),
        4 => Ok(Ask::Cut(file_of(ask), PageNo(ask.page))),
        6 => {
            if bytes.len() < 1 || 4_096 < bytes.len() {
                return Err(HostFault::Range);
            }
            let patch = PatchBytes::from_vec(Vec::from_slice(alloc, bytes)?);
            Ok(Ask::Patch(file_of(ask), PageNo(ask.page), ask.at, patch))
        }
        _ => match name_ask_of(alloc, ask, bytes, other)? {
            Some(names) => Ok(Ask::Name(ServerId(ask.server), names)),
            None => Err(HostFault::Unknown),
        },
    }
}
