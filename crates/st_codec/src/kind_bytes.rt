ghost use Rattle.std.specs.Prelude.{◌≡◌};
ghost use Rattle.st_codec.specs.KindBytes as kind_bytes;

use st_messages::Kind;

const KINDS: [Kind; 25] = [
    Kind::Hello,
    Kind::KeepAlive,
    Kind::Acquire,
    Kind::Released,
    Kind::Map,
    Kind::Allocate,
    Kind::Cut,
    Kind::Name,
    Kind::Reassert,
    Kind::DemandSeen,
    Kind::Welcome,
    Kind::Ack,
    Kind::Nack,
    Kind::Granted,
    Kind::Queued,
    Kind::Demand,
    Kind::Extents,
    Kind::Named,
    Kind::Reasserted,
    Kind::Tick,
    Kind::App,
    Kind::Patch,
    Kind::AppDone,
    Kind::Submit,
    Kind::Done,
];

/// Returns the version byte.
pub(crate) fn version_of(kind: Kind) -> u8
    ensures { result ≡ kind_bytes.version_of kind }
{
    match kind {
        Kind::Patch => 2,
        _ => 1,
    }
}

/// Returns the kind byte.
pub(crate) fn number_of(kind: Kind) -> u8
    ensures { result ≡ kind_bytes.number_of kind }
{
    match kind {
        Kind::Hello => 1,
        Kind::KeepAlive => 2,
        Kind::Acquire => 3,
        Kind::Released => 4,
        Kind::Map => 5,
        Kind::Allocate => 6,
        Kind::Cut => 7,
        Kind::Name => 8,
        Kind::Reassert => 9,
        Kind::DemandSeen => 10,
        Kind::Welcome => 32,
        Kind::Ack => 33,
        Kind::Nack => 34,
        Kind::Granted => 35,
        Kind::Queued => 36,
        Kind::Demand => 37,
        Kind::Extents => 38,
        Kind::Named => 39,
        Kind::Reasserted => 40,
        Kind::Tick => 64,
        Kind::App => 65,
        Kind::Patch => 65,
        Kind::AppDone => 66,
        Kind::Submit => 67,
        Kind::Done => 68,
    }
}

/// Returns the kind that has these two bytes.
#[tactic(auto, unfolding(crate::specs::KindBytes::kind_of))]
pub(crate) fn kind_of(version: u8, number: u8) -> Option<Kind>
    ensures { result ≡ kind_bytes.kind_of version number }
{
    KINDS
        .iter()
        .copied()
        .find(|k| version_of(*k) == version && number_of(*k) == number)
}
