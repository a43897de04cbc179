// The commands, and the calls on them.
ghost use Rattle.std.specs.Prelude.{◌≡◌, ◌<◌, ◌^◌, length, IfOk, OnOk, OnErr};
ghost use Rattle.std.specs.List.{list_any, zip};
ghost use Rattle.std.specs.Option.{option_map};
ghost use Rattle.st_world_parts.specs.Commands as issued;
ghost use Rattle.st_world_parts.specs.OutstandingCommands.{open_from};
ghost use Rattle.st_world_parts.specs.Commands.{SameOpen, Spares};
ghost use Rattle.st_disk.specs.CommandStates.{standing_of};
ghost use Rattle.st_rules.specs.Admissible as admissible;
ghost use Rattle.st_rules.specs.Disks as rules;
ghost use Rattle.st_rules.specs.Events as events;
ghost use Rattle.st_rules.specs.World.{numbered};

use crate::issued_row::IssuedRow;
use crate::outstanding::{any_write_of, close};
use crate::owners::{OwnerKey, number_of, put_number};
use crate::spares::{owner_of, spares_of};
use indexmap::IndexMap;
use st_base::{ClientId, Command, Life, PageBytes, ServerId, Tag};
use st_disk::{CommandState, DiskRefusal, Disks};
use st_model::Spare;
use st_rules::{IssuedCommand, LogOwner};
use std::alloc::{AllocError, Global};
use std::marker::Model;

/// The disks of a world, and every command that was issued to them, by its number from 1. Contracts
/// see the record of the disks and the list of who issued each command. Beside these it keeps the
/// places of the commands that were not reported, and the number of the last write command of each
/// owner.
#[derive(Drop)]
pub struct Commands {
    disks: Disks,
    issued: Vec<IssuedRow>,
    outstanding: Vec<usize>,
    last: IndexMap<OwnerKey, u64>,
}

impl Model for Commands {
    ghost use Rattle.st_world_parts.specs.Commands as shown;
    ghost use Rattle.st_world_parts.specs.Commands.{IsKept};

    ghost Value = { shown.Commands };

    ghost view = { λ c. record { disks = c.disks; commands = c.issued.items } };

    ghost invariant = { λ c. IsKept c.disks c.issued.items c.outstanding.items c.last };
}

/// Gives the command of this number its effect, if it may have one.
fn give_effect(disks: &mut Disks, k: u64) -> Result<(), AllocError>
    ensures ok { OnOk result (disks.new ≡ events.disks_after disks.old (rules.effect disks.old k)) }
    ensures err { OnErr result (disks.new ≡ disks.old) }
    ensures kept { SameOpen disks.old disks.new }
{
    match disks.effect(k) {
        Ok(()) => Ok(()),
        Err(DiskRefusal::Memory) => Err(AllocError),
        Err(_) => Ok(()),
    }
}

/// Reports the command of this number, if it may be reported so, and takes it out of those that
/// were not reported.
fn report(disks: &mut Disks, outstanding: &mut Vec<usize>, k: u64, ok: bool)
    requires { outstanding.old.items ≡ open_from 0 disks.old.commands }
    ensures done { disks.new ≡ events.disks_after disks.old (rules.done disks.old k ok) }
    ensures outstanding { outstanding.new.items ≡ open_from 0 disks.new.commands }
    ensures each { length disks.new.commands ≡ length disks.old.commands }
{
    match disks.done(k, ok) {
        Ok(()) => close(outstanding, (k - 1) as usize),
        Err(_) => {}
    }
}

impl Commands {
    /// Makes this number of disks with this number of blocks each. No command was issued. It does
    /// not allocate.
    pub fn new(alloc: Global, disks: u16, blocks: u32) -> Commands
        ensures { result ≡ issued.fresh disks blocks }
    {
        Commands {
            disks: Disks::new(alloc, disks, blocks),
            issued: Vec::new(alloc),
            outstanding: Vec::new(alloc),
            last: IndexMap::new(alloc),
        }
    }

    /// Returns the number of commands.
    pub fn count(&self) -> u64
        ensures count { result ≡ length self.now.commands }
        ensures small { result < 2 ^ 63 }
    {
        self.issued.len() as u64
    }

    /// Returns who issued the command of this number, if there is one.
    pub fn issued(&self, k: u64) -> Option<IssuedCommand>
        ensures { result ≡ numbered self.now.commands k }
    {
        if k == 0 {
            return None;
        }
        match self.issued.get((k - 1) as usize) {
            None => None,
            Some(row) => Some(row.command()),
        }
    }

    /// Returns the state of the command of this number, if there is one.
    pub fn standing(&self, k: u64) -> Option<CommandState>
        ensures { result ≡ option_map standing_of (rules.command self.now.disks k) }
    {
        self.disks.standing(k)
    }

    /// Issues a command: it is the last one, and its number is the count of commands.
    pub fn submit(&mut self, command: IssuedCommand, what: Command) -> Result<(), AllocError>
        ensures ok { OnOk result (self.new ≡ issued.submit command what self.old) }
        ensures err { OnErr result (self.new ≡ self.old) }
    {
        self.issued.reserve(1)?;
        self.outstanding.reserve(1)?;
        self.last.reserve(1)?;
        let number = self.disks.submit(what)?;
        self.issued.push(IssuedRow::new(&command))?;
        self.outstanding.push(self.issued.len() - 1)?;
        match command.carries {
            None => Ok(()),
            Some(carried) => {
                put_number(&mut self.last, owner_of(&command, carried), number);
                Ok(())
            }
        }
    }

    /// Gives the command of this number its effect, if it may have one.
    pub fn effect(&mut self, k: u64) -> Result<(), AllocError>
        ensures ok { OnOk result (self.new ≡ issued.effect k self.old) }
        ensures err { OnErr result (self.new ≡ self.old) }
    {
        give_effect(&mut self.disks, k)
    }

    /// Reports the command of this number, if it may be reported so. It does not allocate.
    pub fn done(&mut self, k: u64, ok: bool)
        ensures { self.new ≡ issued.done k ok self.old }
    {
        report(&mut self.disks, &mut self.outstanding, k, ok);
    }

    /// Returns how the command of this number ended: it failed, or it wrote, or it read this tag
    /// and these bytes.
    pub fn result(&self, k: u64, ok: bool) -> Result<Option<Option<(Tag, PageBytes)>>, AllocError>
        ensures { IfOk result (λ r. r ≡ events.result_of ok (rules.sample self.now.disks k)) }
    {
        if !ok {
            return Ok(None);
        }
        match self.disks.sample(k) {
            None => Ok(Some(None)),
            Some((tag, bytes)) => Ok(Some(Some((tag, bytes.copy()?)))),
        }
    }

    /// Returns the number of the last write command of an owner's page, or 0. It is one look-up,
    /// and does not allocate.
    pub fn last_write(&self, of: LogOwner) -> u64
        ensures { result ≡ events.last_write self.now.commands of }
    {
        number_of(&self.last, of)
    }

    /// Returns what the commands that were not reported carry.
    pub fn spares(&self) -> Result<Vec<Spare>, AllocError>
        ensures { IfOk result (λ found. Spares found.items self.now) }
    {
        spares_of(*self.issued.allocator(), &self.issued, &self.outstanding)
    }

    /// Whether a write of this instance of the client, in this life at the server, isn't reported.
    /// It does not allocate.
    pub fn has_write_out(&self, client: ClientId, server: ServerId, starts: u64, life: Life) -> bool
        ensures { result ≡ list_any (admissible.is_write_out client server starts life) (zip self.now.commands self.now.disks.commands) }
    {
        any_write_of(
            &self.issued,
            &self.outstanding,
            client,
            server,
            starts,
            life,
        )
    }
}
