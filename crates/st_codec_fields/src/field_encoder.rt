// The bytes of fields: numbers with their highest byte first, places, names and pages.
ghost use Rattle.std.specs.Prelude.{◌≡◌, ◌++◌, ◌≤◌, ◌<◌, ◌^◌, OnOk, length};
ghost use Rattle.st_codec_fields.specs.Spelling as spells;

use st_base::{BlockAt, FileId, GrantNo, Mode, Name, Tag};
use std::alloc::AllocError;

/// Appends a number of two bytes.
#[tactic(auto, unfolding(crate::specs::Spelling::word16))]
pub fn put_word16(out: &mut Vec<u8>, number: u16) -> Result<(), AllocError>
    ensures { OnOk result (out.new.items ≡ out.old.items ++ spells.word16 number) }
{
    out.extend_from_slice(&number.to_be_bytes())
}

/// Appends a number of four bytes.
#[tactic(auto, unfolding(crate::specs::Spelling::word32))]
pub fn put_word32(out: &mut Vec<u8>, number: u32) -> Result<(), AllocError>
    ensures { OnOk result (out.new.items ≡ out.old.items ++ spells.word32 number) }
{
    out.extend_from_slice(&number.to_be_bytes())
}

/// Appends a number of eight bytes.
#[tactic(auto, unfolding(crate::specs::Spelling::word64))]
pub fn put_word64(out: &mut Vec<u8>, number: u64) -> Result<(), AllocError>
    ensures { OnOk result (out.new.items ≡ out.old.items ++ spells.word64 number) }
{
    out.extend_from_slice(&number.to_be_bytes())
}

/// Appends a byte.
pub fn put_byte(out: &mut Vec<u8>, byte: u8) -> Result<(), AllocError>
    ensures { OnOk result (out.new.items ≡ out.old.items ++ spells.byte byte) }
{
    Ok(out.push(byte)?)
}

/// Appends a grant's number.
pub fn put_grant(out: &mut Vec<u8>, g: GrantNo) -> Result<(), AllocError>
    ensures { OnOk result (out.new.items ≡ out.old.items ++ spells.grant g) }
{
    put_word64(out, g.0)
}

/// Appends a mode in this range.
pub fn put_mode(out: &mut Vec<u8>, mode: Mode) -> Result<(), AllocError>
    ensures { OnOk result (out.new.items ≡ out.old.items ++ spells.mode mode) }
{
    put_byte(out, mode.number())
}

#[tactic(auto, unfolding(crate::specs::Spelling::name))]
pub(crate) fn put_name(out: &mut Vec<u8>, name: &Name) -> Result<(), AllocError>
    requires { length name.now ≤ 255 }
    ensures { OnOk result (out.new.items ≡ out.old.items ++ spells.name name.now) }
{
    put_byte(out, name.len() as u8)?;
    out.extend_from_slice(name.as_slice())
}

/// Appends a file.
#[tactic(auto, unfolding(crate::specs::Spelling::file))]
pub fn put_file(out: &mut Vec<u8>, file: FileId) -> Result<(), AllocError>
    ensures { OnOk result (out.new.items ≡ out.old.items ++ spells.file file) }
{
    put_word16(out, file.server.0)?;
    put_word32(out, file.ino)
}

/// Appends a block.
#[tactic(auto, unfolding(crate::specs::Spelling::block))]
pub fn put_block(out: &mut Vec<u8>, at: BlockAt) -> Result<(), AllocError>
    ensures { OnOk result (out.new.items ≡ out.old.items ++ spells.block at) }
{
    put_word16(out, at.disk.0)?;
    put_word32(out, at.block)
}

/// Appends a tag.
#[tactic(auto, unfolding(crate::specs::Spelling::tag))]
pub fn put_tag(out: &mut Vec<u8>, tag: Tag) -> Result<(), AllocError>
    ensures { OnOk result (out.new.items ≡ out.old.items ++ spells.tag tag) }
{
    put_file(out, tag.file)?;
    put_word32(out, tag.page.0)?;
    put_word64(out, tag.birth)?;
    Ok(())
}
