// The bytes of asks, of answers, and of disk commands with their results.
ghost use Rattle.std.specs.Prelude.{◌≡◌, ◌++◌, ◌≤◌, true, length, OnOk};
ghost use Rattle.st_messages.specs.Ranges as fits;
ghost use Rattle.st_codec.specs.Spelling as spells;
ghost use Rattle.st_codec_fields.specs.Spelling as field_spells;

use st_base::{Command, FileId, PageBytes, PageNo, Tag};
use st_codec_fields::{
    put_byte, put_file, put_lost, put_name_ask, put_names, put_tag, put_word16, put_word32,
    put_word64,
};
use st_messages::{AppAnswer, Ask, DiskResult, PatchBytes};
use std::alloc::AllocError;

fn put_ask_place(out: &mut Vec<u8>, ask: u8, file: FileId, page: PageNo) -> Result<(), AllocError>
    ensures { OnOk result (out.new.items ≡ out.old.items ++ (field_spells.byte ask ++ field_spells.file file ++ field_spells.word32 page.0)) }
{
    put_byte(out, ask)?;
    put_file(out, file)?;
    put_word32(out, page.0)
}

fn put_patch(
    out: &mut Vec<u8>,
    file: FileId,
    page: PageNo,
    at: u16,
    bytes: &PatchBytes,
) -> Result<(), AllocError>
    ensures { OnOk result (out.new.items ≡ out.old.items ++ (field_spells.byte 6 ++ spells.patch file page at bytes.now)) }
{
    put_ask_place(out, 6, file, page)?;
    put_word16(out, at)?;
    let piece = bytes.as_slice();
    put_word16(out, piece.len() as u16)?;
    out.extend_from_slice(piece)
}

#[tactic(auto, unfolding(crate::specs::Spelling::ask, st_messages::specs::Ranges::is_ask))]
pub(crate) fn put_ask(out: &mut Vec<u8>, ask: &Ask) -> Result<(), AllocError>
    requires { fits.is_ask ask.now ≡ true }
    ensures { OnOk result (out.new.items ≡ out.old.items ++ spells.ask ask.now) }
{
    match ask {
        Ask::Write(file, page, bytes) => {
            put_ask_place(out, 1, *file, *page)?;
            bytes.put(out)
        }
        Ask::Read(file, page) => put_ask_place(out, 2, *file, *page),
        Ask::Sync(file) => {
            put_byte(out, 3)?;
            put_file(out, *file)
        }
        Ask::Cut(file, page) => put_ask_place(out, 4, *file, *page),
        Ask::Name(server, ask) => {
            put_byte(out, 5)?;
            put_word16(out, server.0)?;
            put_name_ask(out, ask)
        }
        Ask::Patch(file, page, at, bytes) => put_patch(out, *file, *page, *at, bytes),
    }
}

fn put_two(out: &mut Vec<u8>, tag: u8, a: u64, b: u64) -> Result<(), AllocError>
    ensures { OnOk result (out.new.items ≡ out.old.items ++ (field_spells.byte tag ++ field_spells.word64 a ++ field_spells.word64 b)) }
{
    put_byte(out, tag)?;
    put_word64(out, a)?;
    put_word64(out, b)
}

#[tactic(auto, unfolding(crate::specs::Spelling::answer, st_messages::specs::Ranges::is_answer))]
pub(crate) fn put_answer(out: &mut Vec<u8>, answer: &AppAnswer) -> Result<(), AllocError>
    requires { fits.is_answer answer.now ≡ true }
    ensures { OnOk result (out.new.items ≡ out.old.items ++ spells.answer answer.now) }
{
    match answer {
        AppAnswer::Written => put_byte(out, 0),
        AppAnswer::Read(bytes) => {
            put_byte(out, 1)?;
            bytes.put(out)
        }
        AppAnswer::Hard => put_byte(out, 2),
        AppAnswer::Cut => put_byte(out, 3),
        AppAnswer::Named(ino) => {
            put_byte(out, 4)?;
            put_word32(out, *ino)
        }
        AppAnswer::Listed(rows) => {
            put_byte(out, 5)?;
            put_names(out, rows)
        }
        AppAnswer::Refused(code) => {
            put_byte(out, 6)?;
            put_byte(out, *code)
        }
        AppAnswer::Quiesced => put_byte(out, 17),
        AppAnswer::NoFile => put_byte(out, 18),
        AppAnswer::NoSpace(free, asked) => put_two(out, 19, *free, *asked),
        AppAnswer::DiskFault(command) => {
            put_byte(out, 20)?;
            put_word64(out, *command)
        }
        AppAnswer::OpsFull => put_byte(out, 21),
        AppAnswer::Uncertain(old, new) => put_two(out, 22, *old, *new),
        AppAnswer::Lost(rows) => {
            put_byte(out, 23)?;
            put_lost(out, rows)
        }
        AppAnswer::DirtyFull => put_byte(out, 24),
        AppAnswer::NotHolder => put_byte(out, 25),
        AppAnswer::TooManyLocks => put_byte(out, 26),
    }
}

fn put_tagged(out: &mut Vec<u8>, kind: u8, tag: Tag, bytes: &PageBytes) -> Result<(), AllocError>
    ensures { OnOk result (out.new.items ≡ out.old.items ++ (field_spells.byte kind ++ field_spells.tag tag ++ bytes.now)) }
{
    put_byte(out, kind)?;
    put_tag(out, tag)?;
    bytes.put(out)
}

#[tactic(auto, unfolding(crate::specs::Spelling::command))]
pub(crate) fn put_command(out: &mut Vec<u8>, command: &Command) -> Result<(), AllocError>
    ensures { OnOk result (out.new.items ≡ out.old.items ++ spells.command command.now) }
{
    match command {
        Command::Read { at: _ } => put_byte(out, 0),
        Command::Write { at: _, tag, bytes } => put_tagged(out, 1, *tag, bytes),
    }
}

#[tactic(auto, unfolding(crate::specs::Spelling::disk_result))]
pub(crate) fn put_disk_result(out: &mut Vec<u8>, ending: &DiskResult) -> Result<(), AllocError>
    ensures { OnOk result (out.new.items ≡ out.old.items ++ spells.disk_result ending.now) }
{
    match ending {
        DiskResult::Failed => put_byte(out, 0),
        DiskResult::WriteDone => put_byte(out, 1),
        DiskResult::ReadDone(tag, bytes) => put_tagged(out, 2, *tag, bytes),
    }
}
