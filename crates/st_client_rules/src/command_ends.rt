// The ends of disk commands.
ghost use Rattle.std.specs.Prelude.{◌≡◌, true, None, Some, IfOk, OnOk};
ghost use Rattle.st_flush.specs.Calls.{AreApart};
ghost use Rattle.st_rules.specs.Client as rules;
ghost use Rattle.st_rules.specs.ClientPages as pages;
ghost use Rattle.st_client_store.specs.Stores.{AreMatched};
ghost use Rattle.st_client_rules.specs.CommandEnds.{is_clean, is_free};

use st_base::{FileId, PageBytes, PageNo, Tag};
use st_client_association::Turn;
use st_messages::AppAnswer;
use st_operations::{ReadsPage, SyncOn};
use st_rules::{Ended, IoKind, PageCommand};
use std::alloc::AllocError;

/// What a read found: the block's bytes if its tag is that of the known mapping, and otherwise
/// zeros. The bytes are shared.
#[tactic(auto, unfolding(st_rules::specs::ClientPages::found, st_rules::specs::ClientPages::found_at, st_rules::specs::ClientPages::found_under))]
fn found(
    t: &Turn,
    file: FileId,
    page: PageNo,
    tag: Tag,
    bytes: &PageBytes,
) -> Result<PageBytes, AllocError>
    ensures { IfOk result (λ b. b ≡ pages.found t.now.here.store.extents file page tag bytes.now) }
{
    match t.mapping(file.ino, page) {
        None => Ok(PageBytes::filled(0)),
        Some(mapping) => {
            if (tag.file.server.0 == file.server.0 && tag.file.ino == file.ino)
                && (tag.page.0 == page.0 && tag.birth == mapping.birth)
            {
                bytes.copy()
            } else {
                Ok(PageBytes::filled(0))
            }
        }
    }
}

/// If the page was not changed since, that is its failed command.
#[tactic(auto, unfolding(st_rules::specs::Client::mark_failed))]
fn mark_failed(t: &mut Turn, c: PageCommand, version: u64)
    ensures { t.new ≡ rules.mark_failed t.old c version }
{
    if t.dirty(c.ino, c.page).is_some() && t.version(c.ino, c.page) == version {
        t.fail(c.ino, c.page, c.number);
    }
}

/// The reads and patches that are pending on the page are answered.
fn read_failed(t: &mut Turn, c: PageCommand) -> Result<(), AllocError>
    ensures { OnOk result (t.new ≡ rules.failed_as t.old c IoKind.Read) }
{
    let test = ReadsPage {
        server: t.server(),
        ino: c.ino,
        page: c.page,
    };
    t.answer_each(&test, &AppAnswer::DiskFault(c.number))
}

/// The syncs that are pending on the file are answered.
fn write_failed(t: &mut Turn, c: PageCommand, version: u64) -> Result<(), AllocError>
    ensures { OnOk result (t.new ≡ rules.failed_as t.old c (IoKind.Write version)) }
{
    mark_failed(t, c, version);
    let test = SyncOn {
        server: t.server(),
        ino: c.ino,
    };
    t.answer_each(&test, &AppAnswer::DiskFault(c.number))
}

/// By how the command ended.
#[tactic(auto, unfolding(st_rules::specs::Client::finish_as, st_rules::specs::Client::filled_by, st_rules::specs::Client::hardened))]
fn finish_as(
    t: &mut Turn,
    c: PageCommand,
    block: &Option<(Tag, PageBytes)>,
    ended: Ended,
) -> Result<(), AllocError>
    requires clean { ended ≡ Ended.Filled → is_clean t.old c ≡ true }
    requires free { ended ≡ Ended.Hard → is_free t.old c ≡ true }
    ensures { OnOk result (t.new ≡ rules.finish_as t.old c block.now ended) }
{
    match ended {
        Ended::Unknown => Ok(()),
        // The page that was read becomes the newest clean one.
        Ended::Filled => match block {
            None => Ok(()),
            Some((tag, bytes)) => {
                let file = t.file(c.ino);
                let bytes = found(t, file, c.page, *tag, bytes)?;
                t.fill(c.ino, c.page, &bytes)
            }
        },
        // The page that was written becomes the newest clean one.
        Ended::Hard => t.harden(c.ino, c.page),
        Ended::Redirty => Ok(()),
        Ended::Failed => match c.kind {
            IoKind::Read => read_failed(t, c),
            IoKind::Write(version) => write_failed(t, c, version),
        },
    }
}

/// Done, with what was found, or failed.
#[tactic(auto, unfolding(st_rules::specs::Client::finish_command, st_rules::specs::Client::ended_by))]
fn finish_command(
    t: &mut Turn,
    c: PageCommand,
    ok: bool,
    block: &Option<(Tag, PageBytes)>,
) -> Result<(), AllocError>
    requires outstanding { pages.command_of t.old.here.store.commands c.number ≡ Some c }
    ensures { OnOk result (t.new ≡ rules.finish_command t.old c ok block.now) }
{
    // For its clauses `matched` and `apart`: no other outstanding command writes the page, unless
    // it is not dirty.
    let _c = t.command(c.number);
    let version = t.version(c.ino, c.page);
    let ended = t.end_command(c.number, ok, version);
    finish_as(t, c, block, ended)
}

/// Whether it is a result of this kind of command: a read finds a block, and a write finds none.
fn is_result_of(kind: IoKind, block: &Option<(Tag, PageBytes)>) -> bool
    ensures { result ≡ rules.is_result_of kind block.now }
{
    match kind {
        IoKind::Read => block.is_some(),
        IoKind::Write(_) => block.is_none(),
    }
}

#[tactic(auto, unfolding(st_rules::specs::Client::finish_by, st_rules::specs::Client::done_by))]
fn finish_by(
    t: &mut Turn,
    c: PageCommand,
    ended: &Option<Option<(Tag, PageBytes)>>,
) -> Result<(), AllocError>
    requires outstanding { pages.command_of t.old.here.store.commands c.number ≡ Some c }
    ensures { OnOk result (t.new ≡ rules.finish_by t.old c ended.now) }
{
    match ended {
        None => finish_command(t, c, false, &None),
        Some(block) => {
            if is_result_of(c.kind, block) {
                finish_command(t, c, true, block)
            } else {
                Ok(())
            }
        }
    }
}

/// A command of this number ended, if it is outstanding at this server: it failed (`None`), it
/// wrote its block (`Some(None)`), or it read this tag and these bytes.
#[tactic(auto, unfolding(st_rules::specs::Client::finish, st_rules::specs::Client::finish_at))]
pub fn finish(
    t: &mut Turn,
    number: u64,
    ended: &Option<Option<(Tag, PageBytes)>>,
) -> Result<(), AllocError>
    ensures { OnOk result (t.new ≡ rules.finish number ended.now t.old) }
{
    match t.command(number) {
        None => Ok(()),
        Some(c) => finish_by(t, c, ended),
    }
}
