// The commands, by their numbers from 1.
ghost use Rattle.std.specs.Prelude.{◌≡◌, ◌<◌, Some, length, set, slice_get};
ghost use Rattle.std.specs.Option.{option_copied, option_map};
ghost use Rattle.st_disk.specs.CommandStates.{standing_of};
ghost use Rattle.st_rules.specs.declared.disks.DiskCommand.{DiskCommand};
ghost use Rattle.st_rules.specs.Disks as disks;
ghost use Rattle.st_base.specs.declared.disk.Command.TheVariants.{Read};
ghost use Rattle.st_disk.specs.Calls.{IsIndex, IsWrite};

use crate::kept::KeptCommand;
use st_rules::{Block, Report};

/// The state of a command: whether it had its effect, and how it was reported.
#[derive(Clone, Copy, Debug, PartialEq, Eq)]
pub struct CommandState {
    pub effected: bool,
    pub report: Report,
}

/// The state of a command, if there is one.
pub fn standing_of(command: Option<&KeptCommand>) -> Option<CommandState>
    ensures { result ≡ option_map standing_of (option_copied command.entry) }
{
    match command {
        None => None,
        Some(command) => Some(command.state()),
    }
}

/// The index of the command with this number, if there is one.
pub fn index_of(commands: &[KeptCommand], n: u64) -> Option<usize>
    ensures { IsIndex commands.now n result }
{
    if n == 0 || n > commands.len() as u64 {
        return None;
    }
    Some((n - 1) as usize)
}

/// The command with this number, if there is one.
pub fn command_at(commands: &[KeptCommand], n: u64) -> Option<&KeptCommand>
    ensures { option_copied result ≡ disks.command_at commands.now n }
{
    if n == 0 {
        return None;
    }
    commands.get((n - 1) as usize)
}

/// Marks a read as effected, with the block that it found.
pub fn sample_command(commands: &mut Vec<KeptCommand>, index: usize, found: Block)
    requires there { index < length commands.old.items }
    requires reads { (c : DiskCommand) → slice_get commands.old.items index ≡ Some c → c.what ≡ Read found.at }
    ensures { (c : DiskCommand) → slice_get commands.old.items index ≡ Some c → commands.new.items ≡ set commands.old.items index (disks.sampled found c) }
{
    let command = &mut commands[index];
    command.find(found);
}

/// Marks a write as effected.
pub fn effect_command(commands: &mut Vec<KeptCommand>, index: usize)
    requires there { index < length commands.old.items }
    requires writes { (c : DiskCommand) → slice_get commands.old.items index ≡ Some c → IsWrite c.what }
    ensures { (c : DiskCommand) → slice_get commands.old.items index ≡ Some c → commands.new.items ≡ set commands.old.items index (disks.effected c) }
{
    let command = &mut commands[index];
    command.write();
}

/// Marks a command as reported, with success or failure.
pub fn report_command(commands: &mut Vec<KeptCommand>, index: usize, ok: bool)
    requires { index < length commands.old.items }
    ensures { (c : DiskCommand) → slice_get commands.old.items index ≡ Some c → commands.new.items ≡ set commands.old.items index (disks.reported ok c) }
{
    let command = &mut commands[index];
    command.close(ok);
}
