// Disk commands as structs.
ghost use Rattle.std.specs.Prelude.{◌≡◌, IfOk, IfErr, OnErr, Ok, length};
ghost use Rattle.st_host_frames.specs.Commands as commands;
ghost use Rattle.st_host_frames.specs.Commands.{Shows, command_in, page_by};
ghost use Rattle.st_host_frames.specs.Results.{Gives, NotPut, Wrote};

use crate::fault::HostFault;
use crate::frame::read_frame;
use crate::page_room::write_page;
use crate::tag::TankTag;
use st_base::{BlockAt, Command};
use st_messages::{Body, Message};
use std::alloc::Global;

/// A disk command. A write has its tag, and a page.
#[repr(C)]
#[derive(Clone, Copy)]
pub struct TankCommand {
    /// The number that its end must have.
    pub number: u64,
    pub tag: TankTag,
    /// How many bytes of a page there are: 4,096 or 0.
    pub page: usize,
    /// 0 for a read and 1 for a write.
    pub command: u32,
    pub block: u32,
    pub disk: u16,
    /// The client from which it comes.
    pub client: u16,
}

/// A disk command, its number and block, and the client from which it comes.
#[derive(Drop)]
pub struct Submitted {
    pub(crate) client: u16,
    pub(crate) number: u64,
    pub(crate) at: BlockAt,
    pub(crate) what: Command,
}

/// Reads the disk command of a frame.
fn read_submitted(alloc: Global, frame: &[u8]) -> Result<Submitted, HostFault>
    ensures { Gives (λ s. s) result (command_in frame.now) }
{
    match read_frame(alloc, frame)? {
        Ok(
            Message {
                header,
                body: Body::Submit { command, at, what },
            },
        ) => Ok(Submitted {
            client: header.from,
            number: command,
            at,
            what,
        }),
        Ok(_) => Err(HostFault::OtherKind),
        Err(fault) => Err(HostFault::Frame(fault)),
    }
}

/// The number of a command on the wire.
fn number_of(command: &Command) -> u32
    ensures { result ≡ commands.number_of command.now }
{
    match command {
        Command::Read { .. } => 0,
        Command::Write { .. } => 1,
    }
}

/// The tag of a write as a struct, or zeros for a read.
fn tag_by(command: &Command) -> TankTag
    ensures { result ≡ commands.tag_by command.now }
{
    match command {
        Command::Read { .. } => TankTag {
            birth: 0,
            ino: 0,
            page: 0,
            server: 0,
        },
        Command::Write { tag, .. } => TankTag {
            birth: tag.birth,
            ino: tag.file.ino,
            page: tag.page.0,
            server: tag.file.server.0,
        },
    }
}

/// Writes the page of a command, if it has one, and returns how many bytes that are.
fn write_command_page(command: &Command, out: &mut [u8]) -> Result<usize, HostFault>
    ensures ok { IfOk result (Wrote (commands.page_of command.now) out.old out.new) }
    ensures err { IfErr result (NotPut (Ok (commands.page_of command.now)) (length out.old)) }
    ensures kept { OnErr result (out.new ≡ out.old) }
{
    match command {
        Command::Read { .. } => Ok(0),
        Command::Write { bytes, .. } => write_page(bytes, out),
    }
}

/// Shows the disk command of a frame. The page of a write comes first in the buffer. `Frame` comes
/// before `OtherKind`, and both before `Room`.
#[tactic(auto, using(crate::proofs::Faults::fails_then, crate::proofs::Faults::then_is, crate::proofs::Faults::not_due, crate::proofs::Faults::not_put))]
pub fn decode_command(
    alloc: Global,
    frame: &[u8],
    page: &mut [u8],
) -> Result<TankCommand, HostFault>
    ensures ok { IfOk result (Shows frame.now page.old page.new) }
    ensures err { IfErr result (NotPut (page_by (command_in frame.now)) (length page.old)) }
    ensures kept { OnErr result (page.new ≡ page.old) }
{
    let submitted = read_submitted(alloc, frame)?;
    let count = write_command_page(&submitted.what, page)?;
    Ok(TankCommand {
        number: submitted.number,
        tag: tag_by(&submitted.what),
        page: count,
        command: number_of(&submitted.what),
        block: submitted.at.block,
        disk: submitted.at.disk.0,
        client: submitted.client,
    })
}
