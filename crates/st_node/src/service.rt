// A node that is served over a link.
ghost use Rattle.std.specs.Prelude.{◌≡◌, ◌≢◌, ◌≤◌, ◌+◌, true, false, IfOk, IfSome, OnOk, length};
ghost use Rattle.std.specs.Io.KnownBytes.{IsAtEnd};
ghost use Rattle.st_codec.specs.Frames.{fed};
ghost use Rattle.st_node.specs.declared.fault.NodeFault.TheVariants.{Memory};
ghost use Rattle.st_node.specs.Room.{HasRoomFor};
ghost use Rattle.st_node.specs.Runs.{MOST, end_at, node_run};
ghost use Rattle.st_node.specs.Service.{Breaks, Carries, GoesOn, HasCauses, IsIdle, OfReadings, OnStop, Pieces, Serves, StopsAt, room_for};

use crate::fault::NodeFault;
use crate::node::Node;
use st_clock::Clock;
use st_codec::FrameReader;
use st_link::{Link, send_all};
use std::alloc::Global;

/// The most frames that a node takes.
const MOST_FRAMES: u32 = 1_048_576;

/// Handles the next frame, if it is whole and one more may come, with one reading of the clock, and
/// returns whether it did.
fn handle_next<C: Clock>(
    reader: &mut FrameReader,
    left: &mut u32,
    clock: &mut C,
    node: &mut Node,
    text: &mut Vec<u8>,
) -> Result<bool, NodeFault>
    requires room { HasRoomFor left.old node.old }
    ensures goes { OnOk result (Carries (C.readings clock.old) (C.readings clock.new)
        (GoesOn left.old node.old reader.old text.old.items left.new node.new reader.new text.new.items)) }
    ensures stops { OnStop result (λ stop. Carries (C.readings clock.old) (C.readings clock.new)
        (StopsAt left.old node.old reader.old text.old.items node.new text.new.items stop)) }
    ensures room { OnOk result (HasRoomFor left.new node.new) }
    ensures few { OnOk result (length reader.old.rest + room_for left.new ≤ length reader.new.rest + room_for left.old) }
    ensures one { IfOk result (λ more. more ≡ true → left.new + 1 ≡ left.old) }
    ensures idle { IfOk result (λ more. more ≡ false → IsIdle left.new reader.new) }
{
    if *left == 0 {
        return if reader.held() > 0 {
            Err(NodeFault::TooManyFrames)
        } else {
            Ok(false)
        };
    }
    match reader.next() {
        Ok(Some(Ok(message))) => {
            let now = clock.now();
            node.handle(now, message, text)?;
            *left -= 1;
            Ok(true)
        }
        Ok(Some(Err(refusal))) => Err(NodeFault::Frame(reader.offset(), refusal)),
        Ok(None) => Ok(false),
        Err(_) => Err(NodeFault::Memory),
    }
}

/// Handles the frames that are whole, each with one reading of the clock, until none is or no more
/// may come.
fn handle_frames<C: Clock>(
    reader: &mut FrameReader,
    left: &mut u32,
    clock: &mut C,
    node: &mut Node,
    text: &mut Vec<u8>,
) -> Result<(), NodeFault>
    requires room { HasRoomFor left.old node.old }
    ensures goes { OnOk result (Carries (C.readings clock.old) (C.readings clock.new)
        (GoesOn left.old node.old reader.old text.old.items left.new node.new reader.new text.new.items)) }
    ensures stops { OnStop result (λ stop. Carries (C.readings clock.old) (C.readings clock.new)
        (StopsAt left.old node.old reader.old text.old.items node.new text.new.items stop)) }
    ensures room { OnOk result (HasRoomFor left.new node.new) }
    ensures few { OnOk result (length reader.old.rest + room_for left.new ≤ length reader.new.rest + room_for left.old) }
    ensures idle { OnOk result (IsIdle left.new reader.new) }
{
    'frames: loop {
        match handle_next(reader, left, clock, node, text) {
            Ok(true) => {}
            Ok(false) => return Ok(()),
            Err(stop) => return Err(stop),
        }
    }
}

/// Whether memory ran out.
fn is_memory(handled: &Result<(), NodeFault>) -> bool
    ensures yes { result ≡ true → handled.now ≡ Err Memory }
    ensures no { result ≡ false → handled.now ≢ Err Memory }
{
    match handled {
        Ok(()) => false,
        Err(NodeFault::Memory) => true,
        Err(NodeFault::Frame(..)) => false,
        Err(NodeFault::Cut(_)) => false,
        Err(NodeFault::TooManyFrames) => false,
        Err(NodeFault::Read) => false,
        Err(NodeFault::Write) => false,
    }
}

/// Handles a piece of the stream, and writes what comes of it.
fn serve_piece<L: Link, C: Clock>(
    alloc: Global,
    link: &mut L,
    reader: &mut FrameReader,
    left: &mut u32,
    clock: &mut C,
    node: &mut Node,
    piece: &[u8],
) -> Result<(), NodeFault>
    requires room { HasRoomFor left.old node.old }
    ensures piece { Pieces result left.old node.old (fed reader.old piece.now) (C.readings clock.old) (C.readings clock.new)
        (L.written link.old) (L.written link.new) left.new node.new reader.new }
    ensures left { L.left link.new ≡ L.left link.old }
    ensures names { L.attached link.new ≡ L.attached link.old }
    ensures causes { HasCauses result (L.Source.faults link.old) (L.Source.faults link.new) }
    ensures room { OnOk result (HasRoomFor left.new node.new) }
    ensures few { OnOk result (length reader.old.rest + length piece.now + room_for left.new ≤ length reader.new.rest + room_for left.old) }
{
    let mut text = Vec::new(alloc);
    reader.feed(piece)?;
    let handled = handle_frames(reader, left, clock, node, &mut text);
    if is_memory(&handled) {
        return Err(NodeFault::Memory);
    }
    match send_all(link, &text) {
        Ok(()) => handled,
        Err(_) => Err(NodeFault::Write),
    }
}

/// Why a stream that ends here was not served to a frame's boundary.
fn finish(reader: &FrameReader) -> Result<(), NodeFault>
    ensures { result ≡ end_at reader.now.offset reader.now.rest }
{
    if reader.held() > 0 {
        Err(NodeFault::Cut(reader.offset()))
    } else {
        Ok(())
    }
}

/// Serves a node over a link: takes frames from it in any pieces, handles each message with one
/// reading of the clock, and writes a frame for each message that the node sends. A frame that
/// isn't an input of the node is ignored without a step. What comes of a piece is written before
/// more is taken.
///
/// # Errors
/// `Frame` at the first frame that spells no message or is too long, `Cut` if the stream ends
/// inside a frame, and `TooManyFrames` if frame 1,048,577 begins; `Read` and `Write` if the link
/// failed, and `Memory` if memory ran out.
#[tactic(auto, unfolding(crate::specs::Runs::MOST))]
pub fn serve<L: Link, C: Clock>(
    alloc: Global,
    link: &mut L,
    clock: &mut C,
    node: &mut Node,
) -> Result<(), NodeFault>
    requires room { HasRoomFor MOST node.old }
    // The run over all the bytes that the link held, if it tells them, at the clock's readings:
    // those to come if the clock tells them, and otherwise some readings. All of it if the
    // stream ended or the run stopped, and then the clock has the readings that the run left;
    // otherwise a prefix of what is written in it.
    ensures run { IfSome (L.left link.old) (λ bytes. OfReadings (C.readings clock.old) (λ readings.
        Serves result (L.written link.old) (L.written link.new) node.new (C.readings clock.new) (node_run node.old readings bytes))) }
    ensures through { OnOk result (IsAtEnd (L.left link.new)) }
    // After `Read` and `Write` the node and the clock are as after the run over the bytes that were
    // taken; of what it writes a front was written, and after `Read` all.
    ensures breaks { OfReadings (C.readings clock.old) (λ readings.
        Breaks result node.old node.new readings (C.readings clock.new) (L.left link.old) (L.left link.new) (L.written link.old) (L.written link.new)) }
    // `Read` and `Write` come only if the count of faults rose; elsewhere but at `Memory` it
    // stayed.
    ensures causes { HasCauses result (L.Source.faults link.old) (L.Source.faults link.new) }
    // The link is attached at no name.
    ensures names { L.attached link.new ≡ L.attached link.old }
{
    let mut reader = FrameReader::new(alloc);
    let mut left = MOST_FRAMES;
    let mut room = [0u8; 4096];
    'pieces: loop {
        let Ok(n) = link.receive(&mut room) else {
            return Err(NodeFault::Read);
        };
        if n == 0 {
            return finish(&reader);
        }
        match serve_piece(alloc, link, &mut reader, &mut left, clock, node, &room[..n]) {
            Ok(()) => {}
            Err(stop) => return Err(stop),
        }
    }
}
