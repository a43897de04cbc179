ghost use Rattle.std.specs.Prelude.{◌≡◌};
ghost use Rattle.st_host_frames.specs.Messages as messages;

use st_base::{FileId, PageNo, ServerId, Tag};

/// The tag of a block: the page whose bytes it holds, and the birth of the mapping under which it
/// was written.
#[repr(C)]
#[derive(Clone, Copy)]
pub struct TankTag {
    pub birth: u64,
    pub ino: u32,
    pub page: u32,
    pub server: u16,
}

/// The tag that a struct means.
pub(crate) fn tag_of(tag: TankTag) -> Tag
    ensures { result ≡ messages.tag_of tag }
{
    Tag {
        file: FileId {
            server: ServerId(tag.server),
            ino: tag.ino,
        },
        page: PageNo(tag.page),
        birth: tag.birth,
    }
}
