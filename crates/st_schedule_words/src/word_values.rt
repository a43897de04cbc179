// The value of a word: a number, a node, a file or a name.
ghost use Rattle.std.specs.Prelude.{◌≡◌, ◌∷◌, ◌≤◌, ◌<◌, ◌^◌, ◌==◌, IfSome, length, position};
ghost use Rattle.std.specs.List.{list_all};
ghost use Rattle.std.specs.Str.{bytes_eq};
ghost use Rattle.st_schedule_words.specs.Words as words;

use st_base::{ClientId, FileId, NodeId, ServerId};

/// The most bytes of a line.
const LONGEST_LINE: usize = 256;

/// The greatest number of a client or a server in a word.
const MOST_NODE: u64 = 99;

/// The greatest number of a file's server in a word.
const MOST_SERVER: u64 = 65_535;

/// The greatest value of most numbers in a line.
pub const MOST_NUMBER: u64 = 4_294_967_295;

/// Whether a line has more than 256 bytes.
pub fn is_long(line: &[u8]) -> bool
    ensures { result ≡ words.is_long line.now }
{
    LONGEST_LINE < line.len()
}

/// The first word of a line, and what follows it: nothing, or a space and more.
pub fn split_word(bytes: &[u8]) -> (&[u8], &[u8])
    ensures { words.split bytes.now ≡ result.0.now ∷ words.words_behind result.1.now }
{
    let mut at = 0;
    while at < bytes.len() {
        if bytes[at] == b' ' {
            return (&bytes[..at], &bytes[at..]);
        }
        at += 1;
    }
    (bytes, &bytes[bytes.len()..])
}

/// Whether the word is this one.
pub fn is(word: &[u8], text: &[u8]) -> bool
    ensures { result ≡ bytes_eq word.now text.now }
{
    word.len() == text.len() && word == text
}

fn is_digit(b: u8) -> bool
    ensures { result ≡ words.is_digit b }
{
    b'0' <= b && b <= b'9'
}

fn are_digits(word: &[u8]) -> bool
    ensures { result ≡ list_all words.is_digit word.now }
{
    word.iter().all(|b| is_digit(*b))
}

/// Whether the word is not empty and all its bytes are digits.
pub fn is_number(word: &[u8]) -> bool
    ensures { result ≡ words.is_number word.now }
{
    !word.is_empty() && are_digits(word)
}

fn has_leading_zero(word: &[u8]) -> bool
    ensures { result ≡ words.has_leading_zero word.now }
{
    match word {
        [] => false,
        [b, rest @ ..] => *b == b'0' && !rest.is_empty(),
    }
}

/// The value of these digits, if it is at most `most`.
#[tactic(auto, using(crate::proofs::Words::value_above))]
fn value_up_to(most: u64, word: &[u8]) -> Option<u64>
    ensures { result ≡ words.at_most most (words.value word.now) }
{
    let mut n = 0u64;
    for b in word {
        let next = u128::from(n) * 10 + u128::from(b.saturating_sub(b'0'));
        if next > u128::from(most) {
            return None;
        }
        n = next as u64;
    }
    Some(n)
}

/// The value of a word of digits, if it has no leading zero and is from `least` to `most`.
pub fn in_range(least: u64, most: u64, word: &[u8]) -> Option<u64>
    ensures value { result ≡ words.in_range least most word.now }
    ensures range { IfSome result (λ n. (least ≤ n) × (n ≤ most)) }
{
    if has_leading_zero(word) {
        return None;
    }
    let n = value_up_to(most, word)?;
    if least <= n { Some(n) } else { None }
}

/// The value of a number that is a part of a longer word.
fn plain(least: u64, most: u64, word: &[u8]) -> Option<u64>
    ensures value { result ≡ words.plain least most word.now }
    ensures range { IfSome result (λ n. (least ≤ n) × (n ≤ most)) }
{
    if is_number(word) {
        in_range(least, most, word)
    } else {
        None
    }
}

/// The node that a word names: `c` or `s`, and a number from 1 to 99.
pub fn node_of(word: &[u8]) -> Option<NodeId>
    ensures { result ≡ words.node_of word.now }
{
    match word {
        [b'c', rest @ ..] => {
            let n = plain(1, MOST_NODE, rest)?;
            Some(NodeId::Client(ClientId(n as u16)))
        }
        [b's', rest @ ..] => {
            let n = plain(1, MOST_NODE, rest)?;
            Some(NodeId::Server(ServerId(n as u16)))
        }
        _ => None,
    }
}

/// The client that a word names, as a node's word.
pub fn client_word(word: &[u8]) -> Option<ClientId>
    ensures { result ≡ words.client_word word.now }
{
    match node_of(word)? {
        NodeId::Client(client) => Some(client),
        NodeId::Server(_) => None,
    }
}

fn colon(word: &[u8]) -> Option<usize>
    ensures place { result ≡ position (λ b. b == 58) word.now }
    ensures inside { IfSome result (λ at. at < length word.now) }
{
    word.iter().position(|b| *b == b':')
}

/// The file that the parts on both sides of a colon name.
fn file_parted(word: &[u8], colon: usize) -> Option<FileId>
    requires { colon < length word.now }
    ensures { result ≡ words.file_parted word.now colon }
{
    match plain(1, MOST_SERVER, &word[..colon]) {
        None => None,
        Some(server) => file_in(server as u16, plain(1, MOST_NUMBER, &word[colon + 1..])),
    }
}

fn file_in(server: u16, ino: Option<u64>) -> Option<FileId>
    requires { IfSome ino (λ i. i < 2 ^ 32) }
    ensures { result ≡ words.file_in server ino }
{
    match ino {
        None => None,
        Some(ino) => Some(FileId {
            server: ServerId(server),
            ino: ino as u32,
        }),
    }
}

/// The file that a word names: a server's number, a colon and an inode.
pub fn file_word(word: &[u8]) -> Option<FileId>
    ensures { result ≡ words.file_word word.now }
{
    match colon(word) {
        None => None,
        Some(at) => file_parted(word, at),
    }
}

fn is_visible(b: u8) -> bool
    ensures { result ≡ words.is_visible b }
{
    33 <= b && b <= 126
}

fn are_visible(word: &[u8]) -> bool
    ensures { result ≡ list_all words.is_visible word.now }
{
    word.iter().all(|b| is_visible(*b))
}

/// Whether the word has 1 to 100 visible bytes.
pub fn is_name(word: &[u8]) -> bool
    ensures { result ≡ words.is_name word.now }
{
    !word.is_empty() && word.len() <= 100 && are_visible(word)
}
