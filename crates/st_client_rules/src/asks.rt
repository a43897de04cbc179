// Asks of applications.
ghost use Rattle.std.specs.Prelude.{◌≡◌, true, OnOk};
ghost use Rattle.st_client_rules.specs.Inputs.{synced};
ghost use Rattle.st_messages.specs.Ranges.{is_ask};
ghost use Rattle.st_rules.specs.Client as client;

use st_base::FileId;
use st_client_association::Turn;
use st_messages::Ask;
use std::alloc::AllocError;

#[tactic(auto, unfolding(st_rules::specs::Client::enqueue))]
fn enqueue(turn: &mut Turn, op: u32, ask: Ask) -> Result<(), AllocError>
    requires { is_ask ask ≡ true }
    ensures { OnOk result (turn.new ≡ client.enqueue turn.old op ask) }
{
    turn.enqueue(op, ask)
}

/// A sync is answered with lost pages at once.
#[tactic(auto, unfolding(st_rules::specs::Client::take_sync))]
fn take_sync(turn: &mut Turn, op: u32, ask: Ask, file: FileId) -> Result<(), AllocError>
    requires { is_ask ask ≡ true }
    ensures { OnOk result (turn.new ≡ client.take_sync turn.old op ask file) }
{
    if turn.has_lost(file.ino) {
        turn.tell_lost(op, file.ino)
    } else {
        enqueue(turn, op, ask)
    }
}

/// The file of a sync.
fn file_synced(ask: &Ask) -> Option<FileId>
    ensures { result ≡ synced ask.now }
{
    match ask {
        Ask::Sync(file) => Some(*file),
        _ => None,
    }
}

/// An ask at its server.
pub fn take_ask(turn: &mut Turn, op: u32, ask: Ask) -> Result<(), AllocError>
    requires { is_ask ask ≡ true }
    ensures { OnOk result (turn.new ≡ client.take_ask op ask turn.old) }
{
    match file_synced(&ask) {
        Some(file) => take_sync(turn, op, ask, file),
        None => enqueue(turn, op, ask),
    }
}
