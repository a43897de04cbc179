// The status and the text of each end.
ghost use Rattle.std.specs.Prelude.{◌≡◌, ◌≤◌, ◌++◌, Err, OnOk};
ghost use Rattle.st_node.specs.declared.fault.NodeFault.TheVariants.{Memory};
ghost use Rattle.st_tank.specs.NodeEnds as ends;
ghost use Rattle.st_tank.specs.NodeEnds.{IsTold, MayTell};

use st_codec::CodecRefusal;
use st_link::{Sink, put_all};
use st_node::NodeFault;
use st_report::{put_field, put_text};
use std::alloc::{AllocError, Global};

fn put_refusal(out: &mut Vec<u8>, refusal: CodecRefusal) -> Result<(), AllocError>
    ensures { OnOk result (out.new.items ≡ out.old.items ++ ends.refusal_text refusal) }
{
    match refusal {
        CodecRefusal::Short => put_text(out, b" Short"),
        CodecRefusal::Long => put_text(out, b" Long"),
        CodecRefusal::Kind => put_text(out, b" Kind"),
        CodecRefusal::Value(at) => {
            put_text(out, b" Value")?;
            put_field(out, at)
        }
        CodecRefusal::Version => put_text(out, b" Version"),
        CodecRefusal::FrameTooLong(length) => {
            put_text(out, b" FrameTooLong")?;
            put_field(out, u64::from(length))
        }
        CodecRefusal::Memory => Ok(()),
    }
}

fn put_frame_end(out: &mut Vec<u8>, at: u64, refusal: CodecRefusal) -> Result<(), AllocError>
    ensures { OnOk result (out.new.items ≡ out.old.items ++ ends.frame_text at refusal) }
{
    put_text(out, b"tank: frame at")?;
    put_field(out, at)?;
    put_refusal(out, refusal)?;
    put_text(out, b"\n")
}

/// Appends a place and the end of its line. The prover needs this split.
fn put_place(out: &mut Vec<u8>, at: u64) -> Result<(), AllocError>
    ensures { OnOk result (out.new.items ≡ out.old.items ++ ends.place_text at) }
{
    put_field(out, at)?;
    put_text(out, b"\n")
}

fn put_cut_end(out: &mut Vec<u8>, at: u64) -> Result<(), AllocError>
    ensures { OnOk result (out.new.items ≡ out.old.items ++ ends.cut_text at) }
{
    put_text(out, b"tank: frame cut at")?;
    put_place(out, at)
}

/// The status of an end.
fn end_status(ended: Result<(), NodeFault>) -> u8
    ensures { result ≡ ends.end_status ended }
{
    match ended {
        Ok(()) => 0,
        Err(NodeFault::Frame(..)) => 1,
        Err(NodeFault::Cut(_)) => 1,
        Err(NodeFault::TooManyFrames) => 1,
        Err(NodeFault::Read) => 6,
        Err(NodeFault::Write) => 6,
        Err(NodeFault::Memory) => 5,
    }
}

/// Writes the text of an end, and returns the status.
fn tell_text<E: Sink>(err: &mut E, text: &[u8], ended: Result<(), NodeFault>) -> u8
    requires text { text.now ≡ ends.end_text ended }
    requires some { 1 ≤ ends.end_status ended }
    ensures { IsTold ended result (E.written err.old) (E.written err.new) (E.faults err.old) (E.faults err.new) }
{
    let status = end_status(ended);
    match put_all(err, text) {
        Ok(()) => status,
        Err(_) => { if status == 1 { 4 } else { status } }
    }
}

/// Tells that memory ran out.
#[tactic(auto, unfolding(crate::specs::NodeEnds::end_text))]
fn tell_memory<E: Sink>(err: &mut E) -> u8
    ensures { IsTold (Err Memory) result (E.written err.old) (E.written err.new) (E.faults err.old) (E.faults err.new) }
{
    tell_text(err, b"tank: out of memory\n", Err(NodeFault::Memory))
}

/// Reports a stop at a frame, whose text was made unless memory ran out. Returns what was reported,
/// and the status.
fn tell_stop<E: Sink>(
    err: &mut E,
    made: Result<(), AllocError>,
    text: &[u8],
    stop: NodeFault,
) -> (Result<(), NodeFault>, u8)
    requires made { OnOk made (text.now ≡ ends.end_text (Err stop)) }
    requires stop { ends.end_status (Err stop) ≡ 1 }
    ensures may { MayTell (Err stop) result.0 }
    ensures told { IsTold result.0 result.1 (E.written err.old) (E.written err.new) (E.faults err.old) (E.faults err.new) }
{
    match made {
        Ok(()) => {
            let status = tell_text(err, text, Err(stop));
            (Err(stop), status)
        }
        Err(_) => {
            let status = tell_memory(err);
            (Err(NodeFault::Memory), status)
        }
    }
}

/// Writes the text of an end. Returns what was reported, and the status: if memory runs out for a
/// text of status 1, that is reported.
#[tactic(auto, unfolding(crate::specs::NodeEnds::end_text), using(crate::proofs::NodeTold::nothing_told))]
pub(crate) fn tell<E: Sink>(
    alloc: Global,
    err: &mut E,
    ended: Result<(), NodeFault>,
) -> (Result<(), NodeFault>, u8)
    ensures may { MayTell ended result.0 }
    ensures told { IsTold result.0 result.1 (E.written err.old) (E.written err.new) (E.faults err.old) (E.faults err.new) }
{
    let mut text = Vec::new(alloc);
    match ended {
        Ok(()) => (Ok(()), 0),
        Err(NodeFault::Frame(at, refusal)) => {
            let made = put_frame_end(&mut text, at, refusal);
            tell_stop(err, made, text.as_slice(), NodeFault::Frame(at, refusal))
        }
        Err(NodeFault::Cut(at)) => {
            let made = put_cut_end(&mut text, at);
            tell_stop(err, made, text.as_slice(), NodeFault::Cut(at))
        }
        Err(NodeFault::TooManyFrames) => {
            let status = tell_text(
                err,
                b"tank: too many frames\n",
                Err(NodeFault::TooManyFrames),
            );
            (Err(NodeFault::TooManyFrames), status)
        }
        Err(NodeFault::Read) => {
            let status = tell_text(err, b"tank: link failed\n", Err(NodeFault::Read));
            (Err(NodeFault::Read), status)
        }
        Err(NodeFault::Write) => {
            let status = tell_text(err, b"tank: link failed\n", Err(NodeFault::Write));
            (Err(NodeFault::Write), status)
        }
        Err(NodeFault::Memory) => {
            let status = tell_memory(err);
            (Err(NodeFault::Memory), status)
        }
    }
}
