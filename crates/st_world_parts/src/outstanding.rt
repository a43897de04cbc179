// The commands that were not reported.
ghost use Rattle.std.specs.Prelude.{◌≡◌, ◌==◌, not, filter, length, true, is_some, ◌&&◌};
ghost use Rattle.std.specs.List.{list_all, list_any};
ghost use Rattle.st_rules.specs.Admissible.{is_command_of};
ghost use Rattle.st_world_parts.specs.OutstandingCommands.{is_below, is_write_of};

use crate::issued_row::IssuedRow;
use st_base::{ClientId, Life, ServerId};

/// Takes a place out of those of the commands that were not reported.
pub fn close(outstanding: &mut Vec<usize>, k: usize)
    ensures { outstanding.new.items ≡ filter (λ x. not (x == k)) outstanding.old.items }
{
    outstanding.retain(|x| *x != k);
}

/// Whether one of the commands at these places is a write of this instance of the client, in this
/// life at the server.
pub fn any_write_of(
    issued: &[IssuedRow],
    outstanding: &[usize],
    client: ClientId,
    server: ServerId,
    starts: u64,
    life: Life,
) -> bool
    requires { list_all (is_below (length issued.now)) outstanding.now ≡ true }
    ensures { result ≡ list_any (is_write_of client server starts life issued.now) outstanding.now }
{
    for i in 0..outstanding.len() {
        let command = issued[outstanding[i]].command();
        if command.client.0 == client.0
            && command.starts == starts
            && command.server.0 == server.0
            && command.life.0 == life.0
            && command.carries.is_some()
        {
            return true;
        }
    }
    false
}
