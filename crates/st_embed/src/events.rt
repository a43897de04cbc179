// What a step tells the program around its node beside frames, as plain structs.
ghost use Rattle.std.specs.Prelude.{◌≡◌, ◌++◌, IfOk, IfErr, OnOk, OnErr, Ok, length, option_to_list};
ghost use Rattle.st_embed.specs.Events as events;
ghost use Rattle.st_host_frames.specs.Results.{NotPut, Puts};

use st_base::{FileId, PageNo};
use st_host_frames::HostFault;
use st_messages::{Body, Note, Output};
use std::alloc::{AllocError, Global};

/// What a step tells beside its frames. `event` says which of the other fields are told; these have
/// the value 0 otherwise.
#[repr(C)]
#[derive(Clone, Copy)]
pub struct TankEvent {
    /// The life of a session that began or was stolen, or of a lease that was lost.
    pub life: u64,
    /// The start of a suspect's timer, or the end of a lease.
    pub moment: u64,
    /// The number of a grant.
    pub grant: u64,
    /// Its kind.
    pub event: u32,
    pub ino: u32,
    /// The page that was written, or the first one that was cut off.
    pub page: u32,
    /// The mode of a grant: 1 shared, 2 exclusive.
    pub mode: u32,
    pub client: u16,
    pub server: u16,
}

/// An event of this number, of which nothing else is told.
fn plain(event: u32) -> TankEvent
    ensures { result ≡ events.plain event }
{
    TankEvent {
        life: 0,
        moment: 0,
        grant: 0,
        event,
        ino: 0,
        page: 0,
        mode: 0,
        client: 0,
        server: 0,
    }
}

/// An event of a client's life.
fn of_life(event: u32, client: u16, life: u64) -> TankEvent
    ensures { result ≡ record (events.plain event) { client = client; life = life } }
{
    let mut told = plain(event);
    told.client = client;
    told.life = life;
    told
}

/// An event of a page.
fn of_page(event: u32, file: FileId, page: PageNo) -> TankEvent
    ensures { result ≡ record (events.plain event) { server = file.server.0; ino = file.ino; page = page.0 } }
{
    let mut told = plain(event);
    told.server = file.server.0;
    told.ino = file.ino;
    told.page = page.0;
    told
}

/// The event of a note.
fn event_of_note(note: &Note) -> Option<TankEvent>
    ensures { result ≡ events.event_of_note note.now }
{
    match note {
        Note::Suspected { client, start } => {
            let mut told = plain(1);
            told.client = client.0;
            told.moment = start.0;
            Some(told)
        }
        Note::Stolen { client, life } => Some(of_life(2, client.0, life.0)),
        Note::CutDone { file, from } => Some(of_page(3, *file, *from)),
        Note::Leased { server, end } => {
            let mut told = plain(6);
            told.server = server.0;
            told.moment = end.0;
            Some(told)
        }
        Note::Lost { server, life } => {
            let mut told = plain(7);
            told.server = server.0;
            told.life = life.0;
            Some(told)
        }
        Note::Accepted { file, page, .. } => Some(of_page(8, *file, *page)),
        Note::Patched { file, page, .. } => Some(of_page(8, *file, *page)),
    }
}

/// The event of an output, if it is one.
fn event_of(output: &Output) -> Option<TankEvent>
    ensures { result ≡ events.event_of output.now }
{
    match output {
        Output::Note(note) => event_of_note(note),
        Output::Send(message) => match &message.body {
            Body::Granted { ino, g, mode } => {
                let mut told = plain(4);
                told.client = message.header.to;
                told.ino = *ino;
                told.grant = g.0;
                told.mode = u32::from(mode.number());
                Some(told)
            }
            Body::Welcome => Some(of_life(5, message.header.to, message.header.life)),
            _ => None,
        },
        _ => None,
    }
}

/// Puts the event of an output last, if it is one.
fn push_event(told: &mut Vec<TankEvent>, output: &Output) -> Result<(), AllocError>
    ensures { OnOk result (told.new.items ≡ told.old.items ++ option_to_list (events.event_of output.now)) }
{
    match event_of(output) {
        None => Ok(()),
        Some(event) => {
            told.push(event)?;
            Ok(())
        }
    }
}

fn events_in(alloc: Global, outputs: &[Output]) -> Result<Vec<TankEvent>, AllocError>
    ensures { IfOk result (λ v. v.items ≡ events.events_in outputs.now) }
{
    let mut told = Vec::new(alloc);
    for i in 0..outputs.len() {
        push_event(&mut told, &outputs[i])?;
    }
    Ok(told)
}

/// Writes to the front of a buffer what these outputs of a step tell, in order, and returns how
/// many events there are. `Room` if the buffer is too short.
pub(crate) fn write_events(
    alloc: Global,
    outputs: &[Output],
    out: &mut [TankEvent],
) -> Result<usize, HostFault>
    ensures ok { IfOk result (Puts (Ok (events.events_in outputs.now)) out.old out.new) }
    ensures err { IfErr result (NotPut (Ok (events.events_in outputs.now)) (length out.old)) }
    ensures kept { OnErr result (out.new ≡ out.old) }
{
    let told = events_in(alloc, outputs)?;
    let count = told.len();
    if out.len() < count {
        return Err(HostFault::Room(count));
    }
    out[..count].copy_from_slice(told.as_slice());
    Ok(count)
}
