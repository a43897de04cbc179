// What the commands that were not reported carry.
ghost use Rattle.std.specs.Prelude.{◌≡◌, ◌<◌, ◌++◌, true, IfOk, OnOk, length};
ghost use Rattle.std.specs.List.{list_all};
ghost use Rattle.st_rules.specs.World as world;
ghost use Rattle.st_world_parts.specs.OutstandingCommands.{is_below, spare_of, spares_at};

use crate::issued_row::IssuedRow;
use st_model::Spare;
use st_rules::{Carried, IssuedCommand, LogOwner};
use std::alloc::{AllocError, Global};

/// The owner of the entry that a command carries.
pub fn owner_of(command: &IssuedCommand, carried: Carried) -> LogOwner
    ensures { result ≡ world.owner_carried command.now carried }
{
    LogOwner {
        client: command.client,
        life: command.life,
        file: carried.file,
        page: carried.page,
    }
}

fn push_spare(found: &mut Vec<Spare>, command: &IssuedCommand) -> Result<(), AllocError>
    ensures { OnOk result (found.new.items ≡ found.old.items ++ spare_of command.now command.now.carries) }
{
    match command.carries {
        None => Ok(()),
        Some(carried) => {
            found.push(Spare {
                index: carried.index,
                owner: owner_of(command, carried),
            })?;
            Ok(())
        }
    }
}

/// What the commands at these places carry, in order.
pub fn spares_of(
    alloc: Global,
    issued: &[IssuedRow],
    outstanding: &[usize],
) -> Result<Vec<Spare>, AllocError>
    requires { list_all (is_below (length issued.now)) outstanding.now ≡ true }
    ensures { IfOk result (λ found. found.items ≡ spares_at issued.now outstanding.now) }
{
    let mut found = Vec::new(alloc);
    for i in 0..outstanding.len() {
        let row = &issued[outstanding[i]];
        push_spare(&mut found, &row.command())?;
    }
    Ok(found)
}
