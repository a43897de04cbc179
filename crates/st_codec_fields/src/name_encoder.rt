// The bytes of what is asked of names, and of what answers it.
ghost use Rattle.std.specs.Prelude.{◌≡◌, ◌++◌, ◌≤◌, true, length, OnOk};
ghost use Rattle.st_messages.specs.Ranges as fits;
ghost use Rattle.st_codec_fields.specs.Spelling as spells;

use crate::field_encoder::{put_byte, put_grant, put_name, put_word32};
use crate::row::put_names;
use st_base::{GrantNo, Name, NameAsk};
use st_messages::{NameOp, NameReply};
use std::alloc::AllocError;

fn put_entry(out: &mut Vec<u8>, op: u8, dir: u32, name: &Name) -> Result<(), AllocError>
    requires { length name.now ≤ 255 }
    ensures { OnOk result (out.new.items ≡ out.old.items ++ (spells.byte op ++ spells.word32 dir ++ spells.name name.now)) }
{
    put_byte(out, op)?;
    put_word32(out, dir)?;
    put_name(out, name)?;
    Ok(())
}

fn put_remove(out: &mut Vec<u8>, dir: u32, name: &Name, g: GrantNo) -> Result<(), AllocError>
    requires { length name.now ≤ 255 }
    ensures { OnOk result (out.new.items ≡ out.old.items ++ (spells.byte 4 ++ spells.word32 dir ++ spells.name name.now ++ spells.grant g)) }
{
    put_entry(out, 4, dir, name)?;
    put_grant(out, g)?;
    Ok(())
}

fn put_remove_ask(out: &mut Vec<u8>, dir: u32, name: &Name, ino: u32) -> Result<(), AllocError>
    requires { length name.now ≤ 255 }
    ensures { OnOk result (out.new.items ≡ out.old.items ++ (spells.byte 4 ++ spells.word32 dir ++ spells.name name.now ++ spells.word32 ino)) }
{
    put_entry(out, 4, dir, name)?;
    put_word32(out, ino)?;
    Ok(())
}

fn put_rename(
    out: &mut Vec<u8>,
    dir: u32,
    name: &Name,
    dir2: u32,
    name2: &Name,
) -> Result<(), AllocError>
    requires from { length name.now ≤ 255 }
    requires to { length name2.now ≤ 255 }
    ensures { OnOk result (out.new.items ≡ out.old.items ++ (spells.byte 5 ++ spells.two_entries dir name.now dir2 name2.now)) }
{
    put_entry(out, 5, dir, name)?;
    put_word32(out, dir2)?;
    put_name(out, name2)?;
    Ok(())
}

/// Appends an operation on names.
#[tactic(auto, unfolding(crate::specs::Spelling::name_op, st_messages::specs::Ranges::is_name_op))]
pub fn put_name_op(out: &mut Vec<u8>, op: &NameOp) -> Result<(), AllocError>
    requires { fits.is_name_op op.now ≡ true }
    ensures { OnOk result (out.new.items ≡ out.old.items ++ spells.name_op op.now) }
{
    match op {
        NameOp::Lookup { dir, name } => put_entry(out, 1, *dir, name),
        NameOp::Create { dir, name } => put_entry(out, 2, *dir, name),
        NameOp::Mkdir { dir, name } => put_entry(out, 3, *dir, name),
        NameOp::Remove { dir, name, g } => put_remove(out, *dir, name, *g),
        NameOp::Rename {
            dir,
            name,
            dir2,
            name2,
        } => put_rename(out, *dir, name, *dir2, name2),
        NameOp::List { dir, after } => put_entry(out, 6, *dir, after),
    }
}

/// Appends an ask on names.
#[tactic(auto, unfolding(crate::specs::Spelling::name_ask, st_messages::specs::Ranges::is_name_ask))]
pub fn put_name_ask(out: &mut Vec<u8>, ask: &NameAsk) -> Result<(), AllocError>
    requires { fits.is_name_ask ask.now ≡ true }
    ensures { OnOk result (out.new.items ≡ out.old.items ++ spells.name_ask ask.now) }
{
    match ask {
        NameAsk::Lookup { dir, name } => put_entry(out, 1, *dir, name),
        NameAsk::Create { dir, name } => put_entry(out, 2, *dir, name),
        NameAsk::Mkdir { dir, name } => put_entry(out, 3, *dir, name),
        NameAsk::Remove { dir, name, ino } => put_remove_ask(out, *dir, name, *ino),
        NameAsk::Rename {
            dir,
            name,
            dir2,
            name2,
        } => put_rename(out, *dir, name, *dir2, name2),
        NameAsk::List { dir, after } => put_entry(out, 6, *dir, after),
    }
}

/// Appends the reply to an operation on names.
#[tactic(auto, unfolding(crate::specs::Spelling::name_reply, st_messages::specs::Ranges::is_name_reply))]
pub fn put_name_reply(out: &mut Vec<u8>, reply: &NameReply) -> Result<(), AllocError>
    requires { fits.is_name_reply reply.now ≡ true }
    ensures { OnOk result (out.new.items ≡ out.old.items ++ spells.name_reply reply.now) }
{
    match reply {
        NameReply::Ino(ino) => {
            put_byte(out, 0)?;
            put_word32(out, *ino)?;
            Ok(())
        }
        NameReply::Listed(rows) => {
            put_byte(out, 1)?;
            put_names(out, rows)?;
            Ok(())
        }
        NameReply::Refused(code) => {
            put_byte(out, 2)?;
            put_byte(out, *code)?;
            Ok(())
        }
    }
}
