// The rows of the table.
use std::str;

/// A row: a call's words, each with a newline after it; what comes on its input and its link; its
/// status; and what it must write to its output, its link and its error output.
#[derive(Clone, Copy)]
pub struct Row<'a> {
    pub name: &'a [u8],
    pub status: u64,
    pub words: &'a [u8],
    pub input: &'a [u8],
    pub frames: &'a [u8],
    pub output: &'a [u8],
    pub sent: &'a [u8],
    pub complaint: &'a [u8],
}

/// The bytes before the first byte of this value, and those after it.
pub fn before(bytes: &[u8], end: u8) -> Option<(&[u8], &[u8])> {
    for place in 0..bytes.len() {
        if bytes[place] == end {
            let (front, rest) = bytes.split_at(place);
            return Some((front, &rest[1..]));
        }
    }
    None
}

/// A number and the space after it, and what follows.
fn number(bytes: &[u8]) -> Option<(u64, &[u8])> {
    let (digits, rest) = before(bytes, b' ')?;
    let text = str::from_utf8(digits).ok()?;
    let number = text.parse::<u64>().ok()?;
    Some((number, rest))
}

/// The first bytes, as many as this, and what follows.
fn piece(count: u64, bytes: &[u8]) -> Option<(&[u8], &[u8])> {
    if (bytes.len() as u64) < count {
        return None;
    }
    Some(bytes.split_at(count as usize))
}

/// The first row of a table, and the others. A row begins with a line: the status, how many bytes
/// each of the six parts has, and the name. The parts follow.
pub fn row_at(table: &[u8]) -> Option<(Row<'_>, &[u8])> {
    let (status, rest) = number(table)?;
    let (words, rest) = number(rest)?;
    let (input, rest) = number(rest)?;
    let (frames, rest) = number(rest)?;
    let (output, rest) = number(rest)?;
    let (sent, rest) = number(rest)?;
    let (complaint, rest) = number(rest)?;
    let (name, rest) = before(rest, b'\n')?;
    let (words, rest) = piece(words, rest)?;
    let (input, rest) = piece(input, rest)?;
    let (frames, rest) = piece(frames, rest)?;
    let (output, rest) = piece(output, rest)?;
    let (sent, rest) = piece(sent, rest)?;
    let (complaint, rest) = piece(complaint, rest)?;
    let row = Row {
        name,
        status,
        words,
        input,
        frames,
        output,
        sent,
        complaint,
    };
    Some((row, rest))
}
