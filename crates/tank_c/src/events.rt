// What the last step of the node of a handle told beside its frames.
ghost use Rattle.std.specs.Prelude.{◌≡◌, ◌≢◌, Ok, length};
ghost use Rattle.st_embed.specs.Events.{events_in};
ghost use Rattle.st_host_frames.specs.Results.{Puts};
ghost use Rattle.tank_c.specs.Codes.{DONE};
ghost use Rattle.tank_c.specs.FrameCalls.{Unwritten};

use crate::codes::{host_code, host_room};
use st_embed::{EmbeddedClient, EmbeddedServer, TankEvent};

/// The events of a client's last step.
pub(crate) fn client_events(
    client: &EmbeddedClient,
    out: &mut [TankEvent],
    count: &mut usize,
) -> u32
    ensures done { result ≡ DONE → Puts (Ok (events_in client.now.outputs)) out.old out.new count.new }
    ensures refused { result ≢ DONE → Unwritten (Ok (events_in client.now.outputs)) (length out.old) result count.new }
    ensures kept { result ≢ DONE → out.new ≡ out.old }
{
    match client.events(out) {
        Ok(n) => {
            *count = n;
            0
        }
        Err(fault) => {
            *count = host_room(fault);
            host_code(fault)
        }
    }
}

/// The events of a server's last step.
pub(crate) fn server_events(
    server: &EmbeddedServer,
    out: &mut [TankEvent],
    count: &mut usize,
) -> u32
    ensures done { result ≡ DONE → Puts (Ok (events_in server.now.outputs)) out.old out.new count.new }
    ensures refused { result ≢ DONE → Unwritten (Ok (events_in server.now.outputs)) (length out.old) result count.new }
    ensures kept { result ≢ DONE → out.new ≡ out.old }
{
    match server.events(out) {
        Ok(n) => {
            *count = n;
            0
        }
        Err(fault) => {
            *count = host_room(fault);
            host_code(fault)
        }
    }
}
