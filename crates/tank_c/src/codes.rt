// The numbers of results. `include/tank.h` has their names and texts.
ghost use Rattle.std.specs.Prelude.{◌≡◌, ◌≢◌};
ghost use Rattle.tank_c.specs.Codes as codes;

use st_embed::{
    CodecRefusal, ConfigRefusal, FrameFault, OpenFault, ServerFault, ServerRefusal, StepRefusal,
};
use st_host_frames::HostFault;

pub(crate) const DONE: u32 = 0;

pub(crate) const BUSY: u32 = 1;

pub(crate) const ABSENT: u32 = 2;

pub(crate) const NO_MEMORY: u32 = 3;

pub(crate) const SHORT_ROOM: u32 = 10;

/// The number of a frame's fault.
fn frame_code(fault: FrameFault) -> u32
    ensures { result ≡ codes.of_frame fault }
{
    match fault {
        FrameFault::Cut => 16,
        FrameFault::Extra => 17,
        FrameFault::Refused(CodecRefusal::Short) => 18,
        FrameFault::Refused(CodecRefusal::Long) => 19,
        FrameFault::Refused(CodecRefusal::Kind) => 20,
        FrameFault::Refused(CodecRefusal::Value(_)) => 21,
        FrameFault::Refused(CodecRefusal::Version) => 22,
        FrameFault::Refused(CodecRefusal::FrameTooLong(_)) => 23,
        FrameFault::Refused(CodecRefusal::Memory) => NO_MEMORY,
    }
}

/// The number of a step's refusal.
pub(crate) fn step_code(refusal: StepRefusal) -> u32
    ensures exact { result ≡ codes.of_step refusal }
    ensures some { result ≢ 0 }
{
    match refusal {
        StepRefusal::Memory => NO_MEMORY,
        StepRefusal::Crashed => 4,
        StepRefusal::Starved => 5,
        StepRefusal::Untaken => 6,
        StepRefusal::Time => 7,
        StepRefusal::Full => 8,
        StepRefusal::Frame(fault) => frame_code(fault),
    }
}

/// The place that a step's refusal tells: the byte of the message, or the length, if it tells one.
pub(crate) fn step_place(refusal: StepRefusal) -> u64
    ensures { result ≡ codes.place_of_step refusal }
{
    match refusal {
        StepRefusal::Frame(FrameFault::Refused(CodecRefusal::Value(at))) => at,
        StepRefusal::Frame(FrameFault::Refused(CodecRefusal::FrameTooLong(length))) => {
            u64::from(length)
        }
        _ => 0,
    }
}

/// The number of a fault of settings.
fn settings_code(refusal: ConfigRefusal) -> u32
    ensures { result ≡ codes.of_settings refusal }
{
    match refusal {
        ConfigRefusal::Order => 32,
        ConfigRefusal::Rate => 33,
        ConfigRefusal::TooLong => 34,
        ConfigRefusal::Demand => 35,
        ConfigRefusal::Grain => 36,
    }
}

/// The number of why a client is not opened.
pub(crate) fn open_code(fault: OpenFault) -> u32
    ensures exact { result ≡ codes.of_open fault }
    ensures some { result ≢ 0 }
{
    match fault {
        OpenFault::Memory => NO_MEMORY,
        OpenFault::Settings(refusal) => settings_code(refusal),
        OpenFault::Number => 37,
        OpenFault::Servers => 38,
        OpenFault::Lives => 39,
    }
}

/// The number of why a step of a server is refused.
pub(crate) fn server_code(refusal: ServerRefusal) -> u32
    ensures exact { result ≡ codes.of_server_step refusal }
    ensures some { result ≢ 0 }
{
    match refusal {
        ServerRefusal::Unkept => 9,
        ServerRefusal::Step(refusal) => step_code(refusal),
        ServerRefusal::JournalFull => 11,
    }
}

/// The place that it tells.
pub(crate) fn server_place(refusal: ServerRefusal) -> u64
    ensures { result ≡ codes.place_of_server_step refusal }
{
    match refusal {
        ServerRefusal::Step(refusal) => step_place(refusal),
        _ => 0,
    }
}

/// The number of why a server is not opened.
pub(crate) fn server_open_code(fault: ServerFault) -> u32
    ensures exact { result ≡ codes.of_server_open fault }
    ensures some { result ≢ 0 }
{
    match fault {
        ServerFault::Memory => NO_MEMORY,
        ServerFault::Settings(refusal) => settings_code(refusal),
        ServerFault::Time => 7,
        ServerFault::Full => 11,
        ServerFault::Shape => 40,
        ServerFault::Size => 41,
        ServerFault::Damaged(_) => 42,
        ServerFault::NoEpoch => 43,
        ServerFault::Epochs => 44,
    }
}

/// The place in the journal that it tells.
pub(crate) fn server_open_place(fault: ServerFault) -> u64
    ensures { result ≡ codes.place_of_server_open fault }
{
    match fault {
        ServerFault::Damaged(at) => at,
        _ => 0,
    }
}

/// The number of why a struct has no frame, or a frame no struct.
pub(crate) fn host_code(fault: HostFault) -> u32
    ensures exact { result ≡ codes.of_host fault }
    ensures some { result ≢ 0 }
{
    match fault {
        HostFault::Memory => NO_MEMORY,
        HostFault::Room(_) => SHORT_ROOM,
        HostFault::Unknown => 12,
        HostFault::Range => 13,
        HostFault::OtherKind => 14,
        HostFault::Frame(fault) => frame_code(fault),
    }
}

/// What a buffer that is too short must have room for; 0 for other faults.
pub(crate) fn host_room(fault: HostFault) -> usize
    ensures { result ≡ codes.room_of_host fault }
{
    match fault {
        HostFault::Room(needed) => needed,
        _ => 0,
    }
}
