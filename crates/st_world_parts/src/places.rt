// Where the messages lie in the buffer.
ghost use Rattle.std.specs.Prelude.{◌≡◌, ◌<◌, ◌≤◌, ◌+◌, ◌-◌, IfOk, false, length, option_map, set};
ghost use Rattle.st_rules.specs.World.{numbered};
ghost use Rattle.st_world_parts.specs.Pieces.{head_at, with_lost};

use std::alloc::AllocError;

/// Where the spelling of a message lies in the buffer, the message's nodes, and whether it is lost.
#[derive(Clone, Copy, Debug, PartialEq, Eq)]
pub struct SentPlace {
    pub start: u32,
    pub len: u32,
    pub from: u16,
    pub to: u16,
    pub lost: bool,
}

/// The nodes of a message, as its header has them, and whether the message is lost.
#[derive(Clone, Copy, Debug, PartialEq, Eq)]
pub struct MessageEnds {
    pub from: u16,
    pub to: u16,
    pub lost: bool,
}

/// The place of a spelling of this length after that many bytes. It refuses if either is 2^32 or
/// more.
pub fn place_behind(bytes: usize, len: usize, from: u16, to: u16) -> Result<SentPlace, AllocError>
    ensures { IfOk result (λ p. p ≡ record { start = bytes; len = len; from = from; to = to; lost = false }) }
{
    if bytes > 4_294_967_295 || len > 4_294_967_295 {
        return Err(AllocError);
    }
    Ok(SentPlace {
        start: bytes as u32,
        len: len as u32,
        from,
        to,
        lost: false,
    })
}

/// The place of a message, by its number from 1.
pub fn place_of(places: &[SentPlace], k: u64) -> Option<SentPlace>
    ensures { result ≡ numbered places.now k }
{
    if k == 0 {
        return None;
    }
    places.get((k - 1) as usize).copied()
}

/// The nodes of the message at a place.
pub fn head_of(place: Option<SentPlace>) -> Option<MessageEnds>
    ensures { result ≡ option_map head_at place }
{
    match place {
        None => None,
        Some(place) => Some(MessageEnds {
            from: place.from,
            to: place.to,
            lost: place.lost,
        }),
    }
}

/// The message of this number is lost.
pub fn lose(places: &mut Vec<SentPlace>, k: u64)
    ensures { places.new.items ≡ with_lost k places.old.items }
{
    if k == 0 || k > places.len() as u64 {
        return;
    }
    let place = &mut places[(k - 1) as usize];
    place.lost = true;
}
