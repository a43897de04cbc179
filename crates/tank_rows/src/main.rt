//! The rows of the program. Each is a call of its top call over memory, with the words, the input
//! and the frames of the row, and must leave the status and the texts of the row. The table comes
//! on the standard input; `tools/rows/program_rows.py` writes it.
#![tactic(auto)]

mod row;

use row::{Row, before, row_at};
use st_base::Stamp;
use st_clock::MemoryClock;
use st_link::{MemoryLink, MemorySink, MemorySource, ReaderSource, read_up_to};
use st_tank::run;
use std::alloc::{AllocError, Global};
use std::{io, str};

/// The most bytes of the table.
const MOST: usize = 64_000_000;

/// The text of a word. The table has only words that are text.
fn word_of(alloc: Global, word: &[u8]) -> Result<String, AllocError> {
    match str::from_utf8(word) {
        Ok(text) => String::from_str(alloc, text),
        Err(_) => String::from_str(alloc, "not a text"),
    }
}

/// The words of a call.
fn words_of(alloc: Global, lines: &[u8]) -> Result<Vec<String>, AllocError> {
    let mut words = Vec::new(alloc);
    let mut left = lines;
    for _ in 0..lines.len() {
        let Some((word, rest)) = before(left, b'\n') else {
            return Ok(words);
        };
        words.push(word_of(alloc, word)?)?;
        left = rest;
    }
    Ok(words)
}

/// Whether a call leaves what its row says.
fn is_right(alloc: Global, row: &Row<'_>) -> Result<bool, AllocError> {
    let words = words_of(alloc, row.words)?;
    let mut input = MemorySource::new(Vec::from_slice(alloc, row.input)?, Vec::new(alloc));
    let mut out = MemorySink::new(alloc, Vec::new(alloc));
    let mut err = MemorySink::new(alloc, Vec::new(alloc));
    let frames = Vec::from_slice(alloc, row.frames)?;
    let mut link = MemoryLink::new(alloc, frames, Vec::new(alloc));
    let mut clock = MemoryClock::new(Vec::from_slice(alloc, &[Stamp(0)])?);
    let status = run(
        alloc, &words, &mut input, &mut out, &mut err, &mut link, &mut clock,
    );
    Ok(
        u64::from(status) == row.status
            && out.as_slice() == row.output
            && link.as_slice() == row.sent
            && err.as_slice() == row.complaint,
    )
}

fn main(rt: HostRuntime) -> io::Result<()> {
    let mut input = ReaderSource::new(rt.stdin());
    let Ok(table) = read_up_to(rt.alloc(), &mut input, MOST) else {
        println!(rt; "rows: the table can't be read")?;
        return Ok(());
    };
    let mut left = table.as_slice();
    let mut passed: u64 = 0;
    for _ in 0..table.len() {
        let Some((row, rest)) = row_at(left) else {
            break;
        };
        left = rest;
        if is_right(rt.alloc(), &row)? {
            passed = passed.saturating_add(1);
        } else {
            let name = word_of(rt.alloc(), row.name)?;
            println!(rt; "rows: {name}: goes otherwise")?;
        }
    }
    println!(rt; "rows: {passed} passed, {} bytes left over", left.len())?;
    Ok(())
}
