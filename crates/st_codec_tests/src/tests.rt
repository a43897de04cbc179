use crate::wire_table::{FAULTS, MESSAGES};
use st_codec::{CodecRefusal, FrameReader, decode, encode};
use st_messages::Message;
use std::alloc::{AllocError, Global};
use std::io;
use std::test::*;

fn push_runs(bytes: &mut Vec<u8>, runs: &str) -> Result<(), AllocError> {
    for word in runs.split(' ') {
        let (byte, count) = match word.split_once('*') {
            Some((byte, count)) => (byte, count.parse::<u32>().unwrap_or(0)),
            None => (word, 1u32),
        };
        let value = u8::from_str_radix(byte, 16).unwrap_or(0);
        for _ in 0..count {
            bytes.push(value)?;
        }
    }
    Ok(())
}

/// What a word of the table stands for.
fn meaning(word: &str) -> &str {
    match word {
        "up" => "00 03 80 02 00*7 02 00*7 05 00*7 07 00*7 09",
        "down" => "80 02 00 03 00*7 02 00*7 05 00*7 07 00*7 09",
        "plain" => "80 02 00 03 00*7 02 00*7 05 00*15 09",
        "quiet" => "80 02 00 03 00*7 02 00*7 05 00*16",
        "in" => "00*3 03 00*32",
        "out" => "00 03 00*34",
        runs => runs,
    }
}

/// The bytes of a line of the table.
pub(crate) fn bytes_of(alloc: Global, line: &str) -> Result<Vec<u8>, AllocError> {
    let mut bytes = Vec::new(alloc);
    for word in line.split(' ') {
        push_runs(&mut bytes, meaning(word))?;
    }
    Ok(bytes)
}

/// The words of a refusal.
pub(crate) fn words_of(alloc: Global, refusal: CodecRefusal) -> Result<String, AllocError> {
    match refusal {
        CodecRefusal::Short => format!(in alloc; "Short"),
        CodecRefusal::Long => format!(in alloc; "Long"),
        CodecRefusal::Kind => format!(in alloc; "Kind"),
        CodecRefusal::Version => format!(in alloc; "Version"),
        CodecRefusal::Value(place) => format!(in alloc; "Value {place}"),
        CodecRefusal::FrameTooLong(length) => format!(in alloc; "FrameTooLong {length}"),
        CodecRefusal::Memory => format!(in alloc; "Memory"),
    }
}

/// Whether the bytes are read, and written again as they were.
fn comes_back(alloc: Global, bytes: &[u8]) -> Result<bool, AllocError> {
    match decode(alloc, bytes) {
        Ok(message) => Ok(message.fits() && encode(alloc, &message)?.as_slice() == bytes),
        Err(_) => Ok(false),
    }
}

#[test]
fn every_message_is_read_and_written(rt: HostRuntime) -> io::Result<()> {
    for line in MESSAGES.lines() {
        let bytes = bytes_of(rt.alloc(), line)?;
        assert!(rt; comes_back(rt.alloc(), bytes.as_slice())?, "{line}");
    }
    Ok(())
}

#[test]
fn each_fault_is_the_first(rt: HostRuntime) -> io::Result<()> {
    for line in FAULTS.lines() {
        if let Some((runs, want)) = line.split_once(" = ") {
            let bytes = bytes_of(rt.alloc(), runs)?;
            match decode(rt.alloc(), bytes.as_slice()) {
                Ok(_) => assert!(rt; false, "{line}"),
                Err(refusal) => {
                    let got = words_of(rt.alloc(), refusal)?;
                    assert!(rt; got.as_str() == want, "{line}");
                }
            }
        }
    }
    assert!(rt; matches!(decode(rt.alloc(), &[]), Err(CodecRefusal::Short)));
    Ok(())
}

/// A message whose list has this many rows: the front, and a number that rises and these runs for
/// each.
pub(crate) fn full(
    alloc: Global,
    front: &str,
    first: u16,
    count: u16,
    row: &str,
) -> Result<Vec<u8>, AllocError> {
    let mut bytes = bytes_of(alloc, front)?;
    for i in 0..count {
        push_runs(&mut bytes, "00*2")?;
        bytes.extend_from_slice(&first.wrapping_add(i).to_be_bytes())?;
        push_runs(&mut bytes, row)?;
    }
    Ok(bytes)
}

fn longest(alloc: Global) -> Result<Vec<u8>, AllocError> {
    full(alloc, "01 27 down 01 01 00", 1, 256, "01 40 6e*64")
}

pub(crate) fn sum_of(bytes: &[u8]) -> u16 {
    let mut sum = 0u16;
    for byte in bytes {
        sum = sum.wrapping_add(u16::from(*byte));
    }
    sum
}

/// Whether the bytes come back, and have this length and this sum.
fn is_full(alloc: Global, bytes: &[u8], len: usize, sum: u16) -> Result<bool, AllocError> {
    Ok(bytes.len() == len && sum_of(bytes) == sum && comes_back(alloc, bytes)?)
}

#[test]
fn full_lists_are_read_and_written(rt: HostRuntime) -> io::Result<()> {
    let alloc = rt.alloc();
    let locks = full(alloc, "01 09 up 04 00", 1, 1_024, "00*7 08 02")?;
    assert!(rt; is_full(alloc, locks.as_slice(), 13_352, 11_438)?);
    let extents = full(
        alloc,
        "01 26 down 00*3 04 00 40",
        0,
        64,
        "00 03 00*3 09 00*7 08",
    )?;
    assert!(rt; is_full(alloc, extents.as_slice(), 1_196, 3_559)?);
    let lost = full(alloc, "01 42 out 00*4 17 04 00", 0, 1_024, "00*7 08")?;
    assert!(rt; is_full(alloc, lost.as_slice(), 12_333, 9_313)?);
    let names = longest(alloc)?;
    assert!(rt; is_full(alloc, names.as_slice(), 17_961, 16_711)?);
    Ok(())
}

#[test]
fn a_message_that_is_cut_is_short(rt: HostRuntime) -> io::Result<()> {
    let bytes = longest(rt.alloc())?;
    for len in 0..bytes.len() {
        let cut = decode(rt.alloc(), &bytes[..len]);
        assert!(rt; matches!(cut, Err(CodecRefusal::Short)));
    }
    Ok(())
}

/// Feeds these bytes one by one, and says whether no frame came before the last.
fn feed_each(reader: &mut FrameReader, bytes: &[u8]) -> Result<bool, AllocError> {
    for byte in bytes {
        if reader.next()?.is_some() || reader.offset() != 0 {
            return Ok(false);
        }
        reader.feed(&[*byte])?;
    }
    Ok(true)
}

/// Whether the next message is spelled so.
fn gives(alloc: Global, reader: &mut FrameReader, bytes: &[u8]) -> Result<bool, AllocError> {
    match reader.next()? {
        Some(Ok(message)) => { Ok(message.fits() && encode(alloc, &message)?.as_slice() == bytes) }
        _ => Ok(false),
    }
}

fn is_too_long(reader: &mut FrameReader) -> Result<bool, AllocError> {
    match reader.next()? {
        Some(Err(refusal)) => Ok(refusal == CodecRefusal::FrameTooLong(65_537)),
        _ => Ok(false),
    }
}

/// The first hello of a client.
fn first_hello(alloc: Global) -> Result<Vec<u8>, AllocError> {
    bytes_of(alloc, "01*2 00 01 80 01 00*7 01 00*24")
}

/// The frame of a message of 38 bytes.
fn framed(alloc: Global, message: &[u8]) -> Result<Vec<u8>, AllocError> {
    let mut frame = bytes_of(alloc, "00*3 26")?;
    frame.extend_from_slice(message)?;
    Ok(frame)
}

/// Whether the reader holds all of the first piece of a frame and gives nothing, and then the
/// message.
fn comes_in_two(
    alloc: Global,
    first: &[u8],
    second: &[u8],
    message: &[u8],
) -> Result<bool, AllocError> {
    let mut reader = FrameReader::new(alloc);
    reader.feed(first)?;
    if reader.next()?.is_some() || reader.held() != first.len() || reader.offset() != 0 {
        return Ok(false);
    }
    reader.feed(second)?;
    gives(alloc, &mut reader, message)
}

#[test]
fn a_frame_comes_in_two_pieces(rt: HostRuntime) -> io::Result<()> {
    let hello = first_hello(rt.alloc())?;
    let frame = framed(rt.alloc(), hello.as_slice())?;
    assert_eq!(rt; frame.len(), 42);
    for len in 0..frame.len() {
        let (first, second) = frame.split_at(len);
        assert!(rt; comes_in_two(rt.alloc(), first, second, hello.as_slice())?);
    }
    Ok(())
}

#[test]
fn a_frame_comes_byte_by_byte(rt: HostRuntime) -> io::Result<()> {
    let hello = first_hello(rt.alloc())?;
    let frame = framed(rt.alloc(), hello.as_slice())?;
    let mut reader = FrameReader::new(rt.alloc());
    assert!(rt; feed_each(&mut reader, frame.as_slice())?);
    assert!(rt; gives(rt.alloc(), &mut reader, hello.as_slice())?);
    assert_eq!(rt; reader.offset(), 42);
    assert_eq!(rt; reader.held(), 0);
    Ok(())
}

#[test]
fn a_refusal_stays(rt: HostRuntime) -> io::Result<()> {
    let mut reader = FrameReader::new(rt.alloc());
    reader.feed(&[0, 1, 0, 1])?;
    assert!(rt; is_too_long(&mut reader)?);
    assert!(rt; is_too_long(&mut reader)?);
    assert_eq!(rt; reader.offset(), 0);
    assert_eq!(rt; reader.held(), 4);
    Ok(())
}
