// Parts: some bytes with their number in front, and a sum of either.
ghost use Rattle.std.specs.Prelude.{◌≡◌, ◌<◌, ◌^◌, ◌++◌, List, ℕ, IfNone, IfSome, OnOk, length, option_map};
ghost use Rattle.st_journal_bytes.specs.Plain.{plain};
ghost use Rattle.st_journal_bytes.specs.Reading as reading;
ghost use Rattle.st_journal_file.specs.Layout.{part, word32};

use crate::words::{after_front, put_word32, read_text, read_word32};
use st_crc32c::crc32c;
use std::alloc::AllocError;

/// Appends a part with these bytes.
#[tactic(auto, unfolding(st_journal_file::specs::Layout::part, st_journal_file::specs::Layout::word32))]
pub fn put_part(out: &mut Vec<u8>, body: &[u8]) -> Result<(), AllocError>
    requires { length body.now < 2 ^ 32 }
    ensures { OnOk result (out.new.items ≡ out.old.items ++ part plain body.now) }
{
    let count = (body.len() as u32).to_be_bytes();
    out.extend_from_slice(&count)?;
    put_word32(out, crc32c(&count))?;
    out.extend_from_slice(body)?;
    put_word32(out, crc32c(body))?;
    Ok(())
}

/// The bytes after the sum of some bytes.
#[tactic(auto, unfolding(crate::specs::Reading::after_sum, st_journal_file::specs::Layout::word32))]
fn after_sum<'a>(summed: &[u8], bytes: &'a [u8]) -> Option<&'a [u8]>
    ensures { option_map (λ x. x.now) result ≡ reading.after_sum summed.now bytes.now }
{
    after_front(&crc32c(summed).to_be_bytes(), bytes)
}

/// What `read_part` reads, as one equation: its clauses speak of every part that may be there.
#[tactic(auto, unfolding(crate::specs::Reading::part_at, st_journal_file::specs::Layout::word32))]
fn part_at(bytes: &[u8]) -> Option<(&[u8], &[u8])>
    ensures { option_map (λ x. (x.0.now, x.1.now)) result ≡ reading.part_at bytes.now }
{
    let (count, rest) = read_word32(bytes)?;
    let rest = after_sum(&count.to_be_bytes(), rest)?;
    let (body, rest) = read_text(count as usize, rest)?;
    let rest = after_sum(body, rest)?;
    Some((body, rest))
}

/// The bytes of the part in front, and the bytes after it; or `None`, if there is no part, or one
/// of which a byte is another one.
pub fn read_part(bytes: &[u8]) -> Option<(&[u8], &[u8])>
    ensures found { IfSome result (λ x. bytes.now ≡ part plain x.0.now ++ x.1.now) }
    ensures short { IfSome result (λ x. length x.0.now < 2 ^ 32) }
    ensures none { IfNone result ((body rest : List ℕ) → length body < 2 ^ 32 → bytes.now ≡ part plain body ++ rest → ⊥) }
{
    part_at(bytes)
}
