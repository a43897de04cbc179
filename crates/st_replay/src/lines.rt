ghost use Rattle.std.specs.Prelude.{◌≡◌, ◌+◌, ◌<◌, take, drop, length};
ghost use Rattle.st_replay.specs.States.{IsFirst};

use memchr::memchr;

/// The place of the first newline.
pub(crate) fn newline(bytes: &[u8]) -> Option<usize>
    ensures { IsFirst bytes.now result }
{
    memchr(b'\n', bytes)
}

/// The bytes before this place.
pub(crate) fn before(bytes: &[u8], at: usize) -> &[u8]
    requires { at < length bytes.now }
    ensures { result.now ≡ take at bytes.now }
{
    &bytes[..at]
}

/// The bytes after this place.
pub(crate) fn after(bytes: &[u8], at: usize) -> &[u8]
    requires { at < length bytes.now }
    ensures exact { result.now ≡ drop (at + 1) bytes.now }
    ensures fewer { length result.now < length bytes.now }
{
    &bytes[at + 1..]
}
