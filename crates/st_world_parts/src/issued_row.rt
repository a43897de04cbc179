// Who issued a command, as one row of small fields.
ghost use Rattle.std.specs.Prelude.{◌≡◌};
ghost use Rattle.st_world_parts.specs.IssuedRows.{carried_in};

use st_base::{ClientId, FileId, Life, PageNo, ServerId};
use st_rules::{Carried, IssuedCommand};
use std::marker::Model;

/// Who issued a command, and which entry it carries: of this index, and of this page of a file of
/// this owner. If a command carries nothing, these four say nothing. Contracts see the
/// definitions' command.
#[derive(Drop)]
pub struct IssuedRow {
    number: u64,
    starts: u64,
    life: Life,
    index: u64,
    ino: u32,
    page: PageNo,
    client: ClientId,
    server: ServerId,
    owner: ServerId,
    carries: bool,
}

impl Model for IssuedRow {
    ghost use Rattle.st_rules.specs.declared.world.IssuedCommand.{IssuedCommand};
    ghost use Rattle.st_world_parts.specs.IssuedRows.{carried_in};

    ghost Value = { IssuedCommand };

    ghost view = { λ r. record {
      client = r.client;
      number = r.number;
      starts = r.starts;
      server = r.server;
      life = r.life;
      carries = carried_in r.carries r.owner r.ino r.page r.index;
    } };
}

/// The entry that a command carries, if it carries one.
fn carried_in(carries: bool, owner: ServerId, ino: u32, page: PageNo, index: u64) -> Option<Carried>
    ensures { result ≡ carried_in carries owner ino page index }
{
    if carries {
        Some(Carried {
            file: FileId { server: owner, ino },
            page,
            index,
        })
    } else {
        None
    }
}

impl IssuedRow {
    /// The row of a command.
    pub fn new(command: &IssuedCommand) -> IssuedRow
        ensures { result ≡ command.now }
    {
        match command.carries {
            None => IssuedRow {
                number: command.number,
                starts: command.starts,
                life: command.life,
                index: 0,
                ino: 0,
                page: PageNo(0),
                client: command.client,
                server: command.server,
                owner: ServerId(0),
                carries: false,
            },
            Some(carried) => IssuedRow {
                number: command.number,
                starts: command.starts,
                life: command.life,
                index: carried.index,
                ino: carried.file.ino,
                page: carried.page,
                client: command.client,
                server: command.server,
                owner: carried.file.server,
                carries: true,
            },
        }
    }

    /// The command of the row.
    pub fn command(&self) -> IssuedCommand
        ensures { result ≡ self.now }
    {
        IssuedCommand {
            client: self.client,
            number: self.number,
            starts: self.starts,
            server: self.server,
            life: self.life,
            carries: carried_in(self.carries, self.owner, self.ino, self.page, self.index),
        }
    }
}
