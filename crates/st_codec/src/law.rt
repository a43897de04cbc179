ghost use Rattle.std.specs.Prelude.{◌≡◌, ◌<◌, ◌≤◌, ◌++◌, true, ℕ, List, Some, None, Ok, Err, length};
ghost use Rattle.st_codec.specs.Grammar.{Spells};
ghost use Rattle.st_messages.specs.Ranges as fits;
ghost use Rattle.st_codec.specs.Frames as frames;
ghost use Rattle.st_codec.specs.Decoder as reading;
ghost use Rattle.st_messages.specs.Sizes as sizes;
ghost use Rattle.st_codec.specs.Spelling as spells;
ghost use Rattle.st_codec.specs.Stream as streams;

use crate::refusal::CodecRefusal;
use st_messages::Message;

/// A message has at most one spelling, and bytes spell at most one message.
pub fn one_spelling()
    ensures message { (m : Message) (a b : List ℕ) → Spells a m → Spells b m → a ≡ b }
    ensures bytes { (bytes : List ℕ) (m n : Message) → Spells bytes m → Spells bytes n → m ≡ n }
{}

/// Bytes that follow a message are refused by a fault of their own (`Long`).
pub fn bytes_that_follow()
    ensures { (m : Message) (after : List ℕ) → fits.fits m ≡ true → 0 < length after → reading.decoded (spells.spelling m ++ after) ≡ Err CodecRefusal.Long }
{}

/// The length of a message's spelling follows from its fields.
pub fn spelled_size()
    ensures { (m : Message) → length (spells.spelling m) ≡ sizes.size_of m }
{}

/// Every message that fits has room in a frame.
pub fn fits_a_frame()
    ensures { (m : Message) → fits.fits m ≡ true → sizes.size_of m ≤ 65536 }
{}

/// What a reader of frames returns does not depend on how the stream was cut into pieces.
pub fn frames_in_any_pieces()
    // After any pieces and calls of `next` the stream so far is the frames of the messages given,
    // and what is held.
    ensures reads { (moves : List streams.Move) → streams.ReadsAfter moves }
    // No other messages are: if no frame of a message begins the rests, they and the messages
    // are the same.
    ensures once { (stream : List ℕ) (ms ns : List Message) (r q : List ℕ) → streams.ReadsOnce stream ms ns r q }
    // If `next` gives no message, no frame of a message begins what is held.
    ensures ends { (s : frames.Frames) → streams.EndsWhereNoneIs s }
    // A frame's message is given, whatever follows.
    ensures gives { (m : Message) (after : List ℕ) (s : frames.Frames) → streams.GivesNext m after s }
{}
