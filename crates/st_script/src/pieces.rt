// The lines of a source, which is taken in pieces: at most a piece and a line are held.
ghost use Rattle.std.specs.Prelude.{◌≡◌, ◌≤◌, ◌+◌, ◌++◌, ℕ, List, Some, IfErr, IfOk, IfNone, IfSome, length, take, drop};
ghost use Rattle.std.specs.Io.KnownBytes.{IsAtEnd, prepend_known};
ghost use Rattle.st_script.specs.Ahead.{Finds, IsFault, IsFirst, StopCauses, TakesPiece};

use crate::fault::Stop;
use memchr::memchr;
use st_link::Source;

/// The most bytes of a line.
const LONGEST_LINE: usize = 256;

/// The place of the first newline.
fn newline(bytes: &[u8]) -> Option<usize>
    ensures { IsFirst bytes.now result }
{
    memchr(b'\n', bytes)
}

/// Takes a piece of a source after the bytes that are held, and returns how many bytes it has: 0
/// if the source has ended.
fn take_piece<I: Source>(held: &mut Vec<u8>, input: &mut I) -> Result<usize, Stop>
    ensures fault { IfErr result IsFault }
    ensures piece { IfOk result (TakesPiece (I.left input.old) (I.left input.new) held.old.items held.new.items) }
    ensures causes { StopCauses result (I.faults input.old) (I.faults input.new) }
{
    let mut room = [0u8; 4096];
    let Ok(n) = input.take(&mut room) else {
        return Err(Stop::Read);
    };
    held.extend_from_slice(&room[..n])?;
    Ok(n)
}

/// The bytes that are left at the end of a source are its last line, if there are any.
fn last_line(held: &[u8]) -> Option<usize>
    ensures some { IfSome result (λ n. (n ≡ length held.now) × (1 ≤ n)) }
    ensures none { IfNone result (length held.now ≡ 0) }
{
    match held {
        [] => None,
        _ => Some(held.len()),
    }
}

/// How many bytes the next line has, which is held then: `None` if the source has ended. A line
/// without a newline is malformed as soon as it has more bytes than a line may have.
pub(crate) fn next_line<I: Source>(held: &mut Vec<u8>, input: &mut I) -> Result<Option<usize>, Stop>
    ensures found { (bytes : List ℕ) → prepend_known held.old.items (I.left input.old) ≡ Some bytes → Finds bytes held.new.items (I.left input.new) result }
    ensures within { IfOk result (λ o. IfSome o (λ n. n ≤ length held.new.items)) }
    ensures end { IfOk result (λ o. IfNone o (IsAtEnd (I.left input.new))) }
    ensures causes { StopCauses result (I.faults input.old) (I.faults input.new) }
{
    'pieces: loop {
        if let Some(at) = newline(held.as_slice()) {
            return Ok(Some(at));
        }
        if held.len() > LONGEST_LINE {
            return Err(Stop::Malformed);
        }
        match take_piece(held, input) {
            Ok(n) => {
                if n == 0 {
                    return Ok(last_line(held.as_slice()));
                }
            }
            Err(stop) => return Err(stop),
        }
    }
}

/// This many of the first bytes.
pub(crate) fn first_bytes(bytes: &[u8], n: usize) -> &[u8]
    requires { n ≤ length bytes.now }
    ensures { result.now ≡ take n bytes.now }
{
    &bytes[..n]
}

/// Lets go of the line that is held first, which has that many bytes, and of its newline, which the
/// last line may lack.
pub(crate) fn pass_line(held: &mut Vec<u8>, n: usize)
    requires { n ≤ length held.old.items }
    ensures { held.new.items ≡ drop (n + 1) held.old.items }
{
    if n == held.len() {
        held.clear();
        return;
    }
    let left = held.len() - (n + 1);
    held.as_mut_slice().copy_within(n + 1.., 0);
    held.truncate(left);
}
