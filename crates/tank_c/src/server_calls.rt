// What the calls at a server do to the server that the handle holds.
ghost use Rattle.std.specs.Prelude.{◌≡◌, ◌≢◌, Some};
ghost use Rattle.tank_c.specs.ServerCalls.{NoServerRecord, NoServerStep, NoServerTake, ServerSteps, ServerTakes, TellsRecord, server_told, untold};
ghost use Rattle.tank_c.specs.Codes.{DONE};

use crate::codes::{NO_MEMORY, SHORT_ROOM, server_code, server_place};
use st_embed::{EmbeddedServer, Stamp};

/// The number of a server, how many servers there are, how many disks, and how many blocks each
/// has.
#[repr(C)]
#[derive(Clone, Copy)]
pub struct TankShape {
    pub id: u16,
    pub servers: u16,
    pub disks: u16,
    pub blocks: u32,
}

/// What a step of a server returns: the place in its frame of what is refused; and 1 if a record
/// must be kept in the journal before frames are taken.
#[repr(C)]
#[derive(Clone, Copy)]
pub struct TankServerStepped {
    pub at: u64,
    pub record: u32,
}

/// A record of the journal: the place of the gate before it, and how many bytes it has.
#[repr(C)]
#[derive(Clone, Copy)]
pub struct TankRecord {
    pub gate: u64,
    pub size: usize,
}

/// What is returned if there is no step.
pub(crate) fn no_step() -> TankServerStepped
    ensures { result ≡ server_told 0 0 }
{
    TankServerStepped { at: 0, record: 0 }
}

/// What is returned if there is no record.
pub(crate) fn no_record() -> TankRecord
    ensures { result ≡ untold }
{
    TankRecord { gate: 0, size: 0 }
}

/// A step.
pub(crate) fn step_server(
    server: &mut EmbeddedServer,
    now: u64,
    frame: &[u8],
    step: &mut TankServerStepped,
) -> u32
    ensures done { result ≡ DONE → ServerSteps (Some server.old) (Some server.new) now frame.now step.new }
    ensures refused { result ≢ DONE → NoServerStep (Some server.old) (Some server.new) now frame.now result step.new }
{
    match server.step(Stamp(now), frame) {
        Ok(changed) => {
            step.at = 0;
            step.record = if changed { 1 } else { 0 };
            0
        }
        Err(refusal) => {
            step.at = server_place(refusal);
            step.record = 0;
            server_code(refusal)
        }
    }
}

/// The record that must be kept.
pub(crate) fn record_server(server: &EmbeddedServer, out: &mut [u8], told: &mut TankRecord) -> u32
    ensures done { result ≡ DONE → TellsRecord (Some server.now) out.old out.new told.new }
    ensures refused { result ≢ DONE → NoServerRecord (Some server.now) out.old out.new told.new result }
{
    match server.record() {
        Ok(bytes) => {
            told.gate = server.gate();
            told.size = bytes.len();
            if out.len() < bytes.len() {
                return SHORT_ROOM;
            }
            out[..bytes.len()].copy_from_slice(bytes.as_slice());
            0
        }
        Err(_) => {
            *told = no_record();
            NO_MEMORY
        }
    }
}

/// Bytes are taken out.
pub(crate) fn take_server(server: &mut EmbeddedServer, out: &mut [u8], count: &mut usize) -> u32
    ensures done { result ≡ DONE → ServerTakes (Some server.old) (Some server.new) out.old out.new count.new }
    ensures refused { result ≢ DONE → NoServerTake (Some server.old) result × (server.new ≡ server.old) × (out.new ≡ out.old) × (count.new ≡ 0) }
{
    match server.take(out) {
        Ok(n) => {
            *count = n;
            0
        }
        Err(refusal) => {
            *count = 0;
            server_code(refusal)
        }
    }
}
