// From which moment on a tick at the node of a handle does something.
ghost use Rattle.std.specs.Prelude.{◌≡◌, ◌≢◌};
ghost use Rattle.tank_c.specs.Calls.{stamp};
ghost use Rattle.tank_c.specs.Codes.{DONE, NO_MEMORY};
ghost use Rattle.tank_c.specs.Due.{client_due_told, moment_told, server_due_told};

use crate::codes::NO_MEMORY;
use st_embed::{EmbeddedClient, EmbeddedServer, Stamp};

/// The number that is told for no moment.
const NEVER: u64 = 18_446_744_073_709_551_615;

/// A moment, or the number for none.
fn told(moment: Option<u64>) -> u64
    ensures { result ≡ moment_told moment }
{
    match moment {
        Some(moment) => moment,
        None => NEVER,
    }
}

/// The first moment from this one on at which a tick does something.
pub(crate) fn due_client(client: &EmbeddedClient, from: u64, due: &mut u64) -> u32
    ensures done { result ≡ DONE → due.new ≡ client_due_told client.now (stamp from) }
    ensures refused { result ≢ DONE → (result ≡ NO_MEMORY) × (due.new ≡ 0) }
{
    match client.due(Stamp(from)) {
        Ok(moment) => {
            *due = told(moment);
            0
        }
        Err(_) => {
            *due = 0;
            NO_MEMORY
        }
    }
}

/// From which moment on a tick does something.
pub(crate) fn due_server(server: &EmbeddedServer, due: &mut u64) -> u32
    ensures done { result ≡ DONE → due.new ≡ server_due_told server.now }
    ensures refused { result ≢ DONE → (result ≡ NO_MEMORY) × (due.new ≡ 0) }
{
    match server.due() {
        Ok(moment) => {
            *due = told(moment);
            0
        }
        Err(_) => {
            *due = 0;
            NO_MEMORY
        }
    }
}
