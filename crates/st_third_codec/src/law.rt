ghost use Rattle.std.specs.Prelude.{◌≡◌, ◌<◌, ◌≤◌, ◌++◌, true, ℕ, List, Err, length};
ghost use Rattle.st_codec.specs.Decoder as plain;
ghost use Rattle.st_codec.specs.Spelling as spells;
ghost use Rattle.st_third.specs.Messages as third;
ghost use Rattle.st_third_codec.specs.Decoder as reading;

use st_codec::CodecRefusal;
use st_messages::Message;
use st_third::ThirdMessage;

/// A message has at most one spelling, and bytes spell at most one message.
pub fn one_spelling()
    ensures message { (m : ThirdMessage) (a b : List ℕ) → third.Spells a m → third.Spells b m → a ≡ b }
    ensures bytes { (bytes : List ℕ) (m n : ThirdMessage) → third.Spells bytes m → third.Spells bytes n → m ≡ n }
{}

/// Bytes that follow a message are refused by a fault of their own (`Long`).
pub fn bytes_that_follow()
    ensures { (m : ThirdMessage) (after : List ℕ) → third.fits m ≡ true → 0 < length after → reading.decoded (third.spelling m ++ after) ≡ Err CodecRefusal.Long }
{}

/// A decoder of the first two forms refuses every message of version 3 by `Version`, and `decode`
/// refuses every message of theirs so.
pub fn versions_are_apart()
    ensures third { (m : ThirdMessage) → plain.decoded (third.spelling m) ≡ Err CodecRefusal.Version }
    ensures first { (m : Message) → reading.decoded (spells.spelling m) ≡ Err CodecRefusal.Version }
{}

/// Every message that fits has room in a frame.
pub fn fits_a_frame()
    ensures { (m : ThirdMessage) → third.fits m ≡ true → length (third.spelling m) ≤ 65536 }
{}
