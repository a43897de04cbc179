// What the calls at a client do to the client that the handle holds.
ghost use Rattle.std.specs.Prelude.{◌≡◌, ◌≢◌, Some};
ghost use Rattle.tank_c.specs.Calls.{ClientSteps, NoClientStep, ClientTakes, client_told, settings_of};
ghost use Rattle.tank_c.specs.Codes.{DONE, NO_MEMORY};
ghost use Rattle.tank_c.specs.Codes as codes;

use crate::codes::{NO_MEMORY, step_code, step_place};
use st_embed::{Config, EmbeddedClient, Phase, Stamp};

/// The settings of a world, in ticks except for `num` and `den`.
#[repr(C)]
#[derive(Clone, Copy)]
pub struct TankSettings {
    pub lease: u64,
    pub renew: u64,
    pub quiesce: u64,
    pub flush: u64,
    pub demand: u64,
    pub retry: u64,
    pub num: u64,
    pub den: u64,
    pub grain: u64,
}

/// What a step tells: the place in its frame of what is refused, and 1 if a life at a server has
/// changed.
#[repr(C)]
#[derive(Clone, Copy)]
pub struct TankClientStepped {
    pub at: u64,
    pub new_lives: u32,
}

/// What a client has at a server: its life, 0 if there is no such server; the phase of its lease, 0
/// if it has none; the end of its lease, 0 if it has none; and 1 if it has dirty pages.
#[repr(C)]
#[derive(Clone, Copy)]
pub struct TankAssociation {
    pub life: u64,
    pub lease_end: u64,
    pub phase: u32,
    pub dirty: u32,
}

/// What is returned if there is no step.
pub(crate) fn no_step() -> TankClientStepped
    ensures { result ≡ client_told 0 0 }
{
    TankClientStepped {
        at: 0,
        new_lives: 0,
    }
}

/// The settings of a world.
pub(crate) fn config_of(settings: &TankSettings) -> Config
    ensures { result ≡ settings_of settings.now }
{
    Config {
        lease: settings.lease,
        renew: settings.renew,
        quiesce: settings.quiesce,
        flush: settings.flush,
        demand: settings.demand,
        retry: settings.retry,
        num: settings.num,
        den: settings.den,
        grain: settings.grain,
    }
}

/// 1 if it is true.
pub(crate) fn flag(yes: bool) -> u32
    ensures { result ≡ codes.flag yes }
{
    if yes { 1 } else { 0 }
}

/// The number of a phase.
pub(crate) fn phase_code(phase: Option<Phase>) -> u32
    ensures { result ≡ codes.of_phase_held phase }
{
    match phase {
        None => 0,
        Some(Phase::Valid) => 1,
        Some(Phase::Renewal) => 2,
        Some(Phase::Quiesce) => 3,
        Some(Phase::Flush) => 4,
        Some(Phase::Expired) => 5,
    }
}

/// The end of a lease.
pub(crate) fn end_of(end: Option<Stamp>) -> u64
    ensures { result ≡ codes.end_held end }
{
    match end {
        None => 0,
        Some(end) => end.0,
    }
}

/// A step.
pub(crate) fn step_client(
    client: &mut EmbeddedClient,
    now: u64,
    frame: &[u8],
    step: &mut TankClientStepped,
) -> u32
    ensures done { result ≡ DONE → ClientSteps (Some client.old) (Some client.new) now frame.now step.new }
    ensures refused { result ≢ DONE → NoClientStep (Some client.old) (Some client.new) now frame.now result step.new }
{
    match client.step(Stamp(now), frame) {
        Ok(another) => {
            step.at = 0;
            step.new_lives = flag(another);
            0
        }
        Err(refusal) => {
            step.at = step_place(refusal);
            step.new_lives = 0;
            step_code(refusal)
        }
    }
}

/// Bytes are taken out.
pub(crate) fn take_client(client: &mut EmbeddedClient, out: &mut [u8], count: &mut usize) -> u32
    ensures done { result ≡ DONE → ClientTakes (Some client.old) (Some client.new) out.old out.new count.new }
    ensures refused { result ≢ DONE → (result ≡ NO_MEMORY) × (client.new ≡ client.old) × (out.new ≡ out.old) × (count.new ≡ 0) }
{
    match client.take(out) {
        Ok(n) => {
            *count = n;
            0
        }
        Err(_) => {
            *count = 0;
            NO_MEMORY
        }
    }
}
