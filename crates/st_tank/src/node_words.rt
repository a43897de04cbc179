// The words of a call.
ghost use Rattle.std.specs.Prelude.{◌≡◌, ◌≤◌, IfSome, map, string_bytes};
ghost use Rattle.st_tank.specs.KnownNodes.{IsKnown};
ghost use Rattle.st_tank.specs.NodeWords as words_of;

use st_base::{ClientId, NodeId, ServerId};

fn server_number(word: &[u8]) -> Option<u16>
    ensures exact { result ≡ words_of.server_number word.now }
    ensures least { IfSome result (λ n. 1 ≤ n) }
    ensures most { IfSome result (λ n. n ≤ 4) }
{
    match word {
        [digit] => {
            if b'1' <= *digit && *digit <= b'4' {
                Some(u16::from(*digit - 48))
            } else {
                None
            }
        }
        _ => None,
    }
}

fn client_number(word: &[u8]) -> Option<u16>
    ensures exact { result ≡ words_of.client_number word.now }
    ensures least { IfSome result (λ n. 1 ≤ n) }
    ensures most { IfSome result (λ n. n ≤ 16) }
{
    match word {
        [digit] => {
            if b'1' <= *digit && *digit <= b'9' {
                Some(u16::from(*digit - 48))
            } else {
                None
            }
        }
        [ten, digit] => {
            if *ten == b'1' && (b'0' <= *digit && *digit <= b'6') {
                Some(u16::from(*digit - 38))
            } else {
                None
            }
        }
        _ => None,
    }
}

fn numbered(kind: &[u8], word: &[u8]) -> Option<NodeId>
    ensures exact { result ≡ words_of.numbered kind.now word.now }
    ensures known { IfSome result IsKnown }
{
    if kind == b"server".as_slice() {
        match server_number(word) {
            Some(number) => Some(NodeId::Server(ServerId(number))),
            None => None,
        }
    } else if kind == b"client".as_slice() {
        match client_number(word) {
            Some(number) => Some(NodeId::Client(ClientId(number))),
            None => None,
        }
    } else {
        None
    }
}

fn is_name(name: &[u8]) -> bool
    ensures { result ≡ words_of.is_name name.now }
{
    match name {
        [] => false,
        [first, ..] => *first != b'-' && name.len() <= 100,
    }
}

/// The node that these words start, if they are `node server ID NAME` with an ID from 1 to 4, or
/// `node client ID NAME` with an ID from 1 to 16, and a right NAME.
pub fn node_of(words: &[String]) -> Option<NodeId>
    ensures exact { result ≡ words_of.node_of (map string_bytes words.now) }
    ensures known { IfSome result IsKnown }
{
    match words {
        [first, kind, id, name] => {
            if first.as_bytes() == b"node".as_slice() && is_name(name.as_bytes()) {
                numbered(kind.as_bytes(), id.as_bytes())
            } else {
                None
            }
        }
        _ => None,
    }
}

/// The name among the words of a node; none among other words.
pub fn name_of(words: &[String]) -> &str
    ensures { result.now ≡ words_of.name_in (map string_bytes words.now) }
{
    match words {
        [_, _, _, name] => name.as_str(),
        _ => "",
    }
}
