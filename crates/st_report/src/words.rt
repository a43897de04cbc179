ghost use Rattle.std.specs.Prelude.{◌≡◌, ◌+◌, ◌%◌, ◌<◌, ◌∷◌, ◌++◌, IsTrue, OnOk};
ghost use Rattle.std.specs.Fmt.{decimal};
ghost use Rattle.st_rules.specs.Report as text;
ghost use Rattle.st_rules.specs.World.{node_at};

use itoa::Buffer;
use st_base::{ClientId, FileId, NodeId, ServerId};
use std::alloc::AllocError;

/// Appends these bytes.
pub fn put_text(out: &mut Vec<u8>, bytes: &[u8]) -> Result<(), AllocError>
    ensures { OnOk result (out.new.items ≡ out.old.items ++ bytes.now) }
{
    out.extend_from_slice(bytes)
}

/// The bytes that a number of at most five digits takes at most, with a byte before it.
const ROOM: usize = 6;

/// Whether a number has at most five digits, and there is room for it and a byte before it.
fn is_short(out: &Vec<u8>, n: u64) -> bool
    ensures { IsTrue result → n < 100000 }
{
    n < 100_000 && ROOM <= out.capacity() - out.len()
}

/// The last digit of a number.
fn digit(n: u64) -> u8
    ensures { result ≡ 48 + n % 10 }
{
    b'0' + (n % 10) as u8
}

/// Appends a number of any length.
#[cold]
#[inline(never)]
fn put_long(out: &mut Vec<u8>, n: u64) -> Result<(), AllocError>
    ensures { OnOk result (out.new.items ≡ out.old.items ++ decimal n) }
{
    let mut buffer = Buffer::new();
    out.extend_from_slice(buffer.format(n).as_bytes())
}

/// Appends a number in decimal. Most numbers of a report have at most five digits.
#[tactic(auto, using(std::proofs::lemmas::Fmt::decimal_digit, crate::proofs::Digits::two, crate::proofs::Digits::three, crate::proofs::Digits::four, crate::proofs::Digits::five))]
pub fn put_number(out: &mut Vec<u8>, n: u64) -> Result<(), AllocError>
    ensures { OnOk result (out.new.items ≡ out.old.items ++ decimal n) }
{
    if !is_short(out, n) {
        return put_long(out, n);
    }
    if n < 10 {
        return out.extend_from_slice(&[b'0' + n as u8]);
    }
    let (d, c, b, a) = (digit(n), digit(n / 10), digit(n / 100), digit(n / 1000));
    if n < 100 {
        out.extend_from_slice(&[c, d])
    } else if n < 1000 {
        out.extend_from_slice(&[b, c, d])
    } else if n < 10_000 {
        out.extend_from_slice(&[a, b, c, d])
    } else {
        out.extend_from_slice(&[digit(n / 10_000), a, b, c, d])
    }
}

/// Appends a byte and a number in decimal.
#[tactic(auto, using(std::proofs::lemmas::Fmt::decimal_digit, crate::proofs::Digits::two, crate::proofs::Digits::three, crate::proofs::Digits::four, crate::proofs::Digits::five))]
pub(crate) fn put_behind(out: &mut Vec<u8>, front: u8, n: u64) -> Result<(), AllocError>
    ensures { OnOk result (out.new.items ≡ out.old.items ++ front ∷ decimal n) }
{
    if !is_short(out, n) {
        out.push(front)?;
        return put_long(out, n);
    }
    if n < 10 {
        return out.extend_from_slice(&[front, b'0' + n as u8]);
    }
    let (d, c, b, a) = (digit(n), digit(n / 10), digit(n / 100), digit(n / 1000));
    if n < 100 {
        out.extend_from_slice(&[front, c, d])
    } else if n < 1000 {
        out.extend_from_slice(&[front, b, c, d])
    } else if n < 10_000 {
        out.extend_from_slice(&[front, a, b, c, d])
    } else {
        out.extend_from_slice(&[front, digit(n / 10_000), a, b, c, d])
    }
}

/// Appends a space and a number.
pub fn put_field(out: &mut Vec<u8>, n: u64) -> Result<(), AllocError>
    ensures { OnOk result (out.new.items ≡ out.old.items ++ text.field n) }
{
    put_behind(out, b' ', n)
}

/// Appends a word and a number.
pub(crate) fn put_numbered(out: &mut Vec<u8>, word: &[u8], n: u64) -> Result<(), AllocError>
    ensures { OnOk result (out.new.items ≡ out.old.items ++ (word.now ++ text.field n)) }
{
    put_text(out, word)?;
    put_field(out, n)
}

/// Appends a space and a number of up to 128 bits.
pub(crate) fn put_wide_field(out: &mut Vec<u8>, n: u128) -> Result<(), AllocError>
    ensures { OnOk result (out.new.items ≡ out.old.items ++ text.field n) }
{
    let mut buffer = Buffer::new();
    out.push(b' ')?;
    out.extend_from_slice(buffer.format(n).as_bytes())
}

pub(crate) fn put_client(out: &mut Vec<u8>, c: ClientId) -> Result<(), AllocError>
    ensures { OnOk result (out.new.items ≡ out.old.items ++ text.client c) }
{
    put_text(out, b" c")?;
    put_number(out, u64::from(c.0))
}

pub(crate) fn put_server(out: &mut Vec<u8>, s: ServerId) -> Result<(), AllocError>
    ensures { OnOk result (out.new.items ≡ out.old.items ++ text.server s) }
{
    put_text(out, b" s")?;
    put_number(out, u64::from(s.0))
}

pub(crate) fn put_node(out: &mut Vec<u8>, n: NodeId) -> Result<(), AllocError>
    ensures { OnOk result (out.new.items ≡ out.old.items ++ text.node n) }
{
    match n {
        NodeId::Client(c) => put_client(out, c),
        NodeId::Server(s) => put_server(out, s),
    }
}

/// Appends the node of a number in a message.
#[tactic(auto, unfolding(st_rules::specs::World::node_at))]
pub(crate) fn put_party(out: &mut Vec<u8>, n: u16) -> Result<(), AllocError>
    ensures { OnOk result (out.new.items ≡ out.old.items ++ text.node (node_at n)) }
{
    if n <= 16 {
        put_client(out, ClientId(n))
    } else {
        put_server(out, ServerId(n.saturating_sub(ServerId::BASE)))
    }
}

pub(crate) fn put_file(out: &mut Vec<u8>, file: FileId) -> Result<(), AllocError>
    ensures { OnOk result (out.new.items ≡ out.old.items ++ text.file file) }
{
    put_field(out, u64::from(file.server.0))?;
    put_behind(out, b':', u64::from(file.ino))
}
