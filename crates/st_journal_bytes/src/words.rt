// Numbers and other fields at the front of some bytes.
ghost use Rattle.std.specs.Prelude.{◌≡◌, ◌≤◌, ◌+◌, ◌++◌, OnOk, length, option_map};
ghost use Rattle.st_journal_bytes.specs.Reading as reading;
ghost use Rattle.st_journal_bytes.specs.Words as words;
ghost use Rattle.st_journal_file.specs.Layout.{word32};

use std::alloc::AllocError;

/// Appends a number of two bytes, the highest one first.
#[tactic(auto, unfolding(crate::specs::Words::word16))]
pub fn put_word16(out: &mut Vec<u8>, number: u16) -> Result<(), AllocError>
    ensures { OnOk result (out.new.items ≡ out.old.items ++ words.word16 number) }
{
    out.extend_from_slice(&number.to_be_bytes())
}

/// Appends a number of four bytes, the highest one first.
#[tactic(auto, unfolding(st_journal_file::specs::Layout::word32))]
pub fn put_word32(out: &mut Vec<u8>, number: u32) -> Result<(), AllocError>
    ensures { OnOk result (out.new.items ≡ out.old.items ++ word32 number) }
{
    out.extend_from_slice(&number.to_be_bytes())
}

/// Appends a number of eight bytes, the highest one first.
#[tactic(auto, unfolding(crate::specs::Words::word64))]
pub fn put_word64(out: &mut Vec<u8>, number: u64) -> Result<(), AllocError>
    ensures { OnOk result (out.new.items ≡ out.old.items ++ words.word64 number) }
{
    out.extend_from_slice(&number.to_be_bytes())
}

/// The number that eight bytes spell.
pub(crate) fn word64_of(bytes: &[u8]) -> u64
    requires { length bytes.now ≡ 8 }
    ensures { words.word64 result ≡ bytes.now }
{
    u64::from_be_bytes([
        bytes[0], bytes[1], bytes[2], bytes[3], bytes[4], bytes[5], bytes[6], bytes[7],
    ])
}

/// A number of two bytes, and the bytes after it.
#[tactic(auto, using(crate::proofs::Numbers::front_16))]
pub fn split_word16(bytes: &[u8]) -> (u16, &[u8])
    requires { 2 ≤ length bytes.now }
    ensures front { bytes.now ≡ words.word16 result.0 ++ result.1.now }
    ensures rest { length result.1.now + 2 ≡ length bytes.now }
{
    let (front, rest) = bytes.split_at(2);
    (u16::from_be_bytes([front[0], front[1]]), rest)
}

/// A number of four bytes, and the bytes after it.
#[tactic(auto, using(crate::proofs::Numbers::front_32))]
pub fn split_word32(bytes: &[u8]) -> (u32, &[u8])
    requires { 4 ≤ length bytes.now }
    ensures front { bytes.now ≡ word32 result.0 ++ result.1.now }
    ensures rest { length result.1.now + 4 ≡ length bytes.now }
{
    let (front, rest) = bytes.split_at(4);
    let number = u32::from_be_bytes([front[0], front[1], front[2], front[3]]);
    (number, rest)
}

/// A number of eight bytes, and the bytes after it.
pub fn split_word64(bytes: &[u8]) -> (u64, &[u8])
    requires { 8 ≤ length bytes.now }
    ensures front { bytes.now ≡ words.word64 result.0 ++ result.1.now }
    ensures rest { length result.1.now + 8 ≡ length bytes.now }
{
    let (front, rest) = bytes.split_at(8);
    (word64_of(front), rest)
}

#[tactic(auto, unfolding(crate::specs::Reading::word32_at))]
pub(crate) fn read_word32(bytes: &[u8]) -> Option<(u32, &[u8])>
    ensures { option_map (λ x. (x.0, x.1.now)) result ≡ reading.word32_at bytes.now }
{
    if bytes.len() < 4 {
        return None;
    }
    let (front, rest) = bytes.split_at(4);
    let number = u32::from_be_bytes([front[0], front[1], front[2], front[3]]);
    Some((number, rest))
}

pub(crate) fn read_text(len: usize, bytes: &[u8]) -> Option<(&[u8], &[u8])>
    ensures { option_map (λ x. (x.0.now, x.1.now)) result ≡ reading.text_at len bytes.now }
{
    if bytes.len() < len {
        return None;
    }
    Some(bytes.split_at(len))
}

/// The bytes after these ones, if they are in front.
pub(crate) fn after_front<'a>(front: &[u8], bytes: &'a [u8]) -> Option<&'a [u8]>
    ensures { option_map (λ x. x.now) result ≡ reading.after_front front.now bytes.now }
{
    bytes.strip_prefix(front)
}
