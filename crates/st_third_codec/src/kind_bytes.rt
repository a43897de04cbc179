// The byte of each kind. In version 3 an ask to patch has that of every other ask.
ghost use Rattle.std.specs.Prelude.{◌≡◌};
ghost use Rattle.st_codec.specs.KindBytes as kind_bytes;

use st_messages::Kind;

/// Returns the version of a kind in the first two forms.
pub(crate) fn version_of(kind: Kind) -> u8
    ensures { result ≡ kind_bytes.version_of kind }
{
    match kind {
        Kind::Patch => 2,
        _ => 1,
    }
}

/// Returns the kind byte.
pub(crate) fn number_of(kind: Kind) -> u8
    ensures { result ≡ kind_bytes.number_of kind }
{
    match kind {
        Kind::Hello => 1,
        Kind::KeepAlive => 2,
        Kind::Acquire => 3,
        Kind::Released => 4,
        Kind::Map => 5,
        Kind::Allocate => 6,
        Kind::Cut => 7,
        Kind::Name => 8,
        Kind::Reassert => 9,
        Kind::DemandSeen => 10,
        Kind::Welcome => 32,
        Kind::Ack => 33,
        Kind::Nack => 34,
        Kind::Granted => 35,
        Kind::Queued => 36,
        Kind::Demand => 37,
        Kind::Extents => 38,
        Kind::Named => 39,
        Kind::Reasserted => 40,
        Kind::Tick => 64,
        Kind::App | Kind::Patch => 65,
        Kind::AppDone => 66,
        Kind::Submit => 67,
        Kind::Done => 68,
    }
}

/// Returns the kind that has this byte.
#[tactic(auto, unfolding(st_codec::specs::KindBytes::kind_of))]
pub(crate) fn kind_of(number: u8) -> Option<Kind>
    ensures { result ≡ kind_bytes.kind_of 1 number }
{
    let kind = match number {
        1 => Kind::Hello,
        2 => Kind::KeepAlive,
        3 => Kind::Acquire,
        4 => Kind::Released,
        5 => Kind::Map,
        6 => Kind::Allocate,
        7 => Kind::Cut,
        8 => Kind::Name,
        9 => Kind::Reassert,
        10 => Kind::DemandSeen,
        32 => Kind::Welcome,
        33 => Kind::Ack,
        34 => Kind::Nack,
        35 => Kind::Granted,
        36 => Kind::Queued,
        37 => Kind::Demand,
        38 => Kind::Extents,
        39 => Kind::Named,
        40 => Kind::Reasserted,
        64 => Kind::Tick,
        65 => Kind::App,
        66 => Kind::AppDone,
        67 => Kind::Submit,
        68 => Kind::Done,
        _ => return None,
    };
    Some(kind)
}
