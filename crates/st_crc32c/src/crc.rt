ghost use Rattle.std.specs.Prelude.{◌≡◌, ◌<◌, ◌^◌};
ghost use Rattle.st_crc32c.specs.Crc as crc;

/// The polynomial, its highest power in the lowest bit.
const POLYNOMIAL: u32 = 2_197_175_160;

/// The lowest bit is divided out.
#[tactic(auto, unfolding(crate::specs::Crc::bit_out), using(crate::proofs::Bits::small))]
fn bit_out(c: u32) -> u32
    ensures { result ≡ crc.bit_out c }
{
    (c / 2) ^ ((c % 2) * POLYNOMIAL)
}

/// The eight lowest bits are divided out.
#[tactic(auto, unfolding(crate::specs::Crc::byte_out))]
fn byte_out(c: u32) -> u32
    ensures { result ≡ crc.byte_out c }
{
    let c = bit_out(bit_out(bit_out(bit_out(c))));
    bit_out(bit_out(bit_out(bit_out(c))))
}

/// The remainder after more bytes, if it was this one before them. It begins as 2^32 - 1.
pub fn after(c: u32, bytes: &[u8]) -> u32
    ensures { result ≡ crc.after_bytes c bytes.now }
{
    let mut c = c;
    for byte in bytes {
        c = byte_out(c ^ u32::from(*byte));
    }
    c
}

/// The sum of some bytes.
#[tactic(auto, unfolding(crate::specs::Crc::crc32c))]
pub fn crc32c(bytes: &[u8]) -> u32
    ensures { result ≡ crc.crc32c bytes.now }
{
    after(u32::MAX, bytes) ^ u32::MAX
}
