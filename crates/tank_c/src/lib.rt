//! The nodes for C. `include/tank.h` declares and describes the calls.
#![tactic(auto)]

ghost use Rattle.std.specs.Prelude.{◌≡◌, ◌≢◌, None, Ok, is_some, length};
ghost use Rattle.tank_c.specs.Calls.{ClientOpens, ClientSteps, ClientTakes, NoClientOpened, NoClientStep, TellsOf, client_not_taken};
ghost use Rattle.tank_c.specs.Codes.{ABSENT, DONE, VERSION};
ghost use Rattle.tank_c.specs.Counts.{TellsClientCounts, TellsOwed, TellsServerCounts};
ghost use Rattle.tank_c.specs.Due.{TellsClientDue, TellsServerDue, client_not_told, not_told};
ghost use Rattle.tank_c.specs.Events.{ClientTells, NoClientEvents, NoServerEvents, ServerTells};
ghost use Rattle.tank_c.specs.FrameCalls.{NoFront, Unshown, Unwritten};
ghost use Rattle.tank_c.specs.FrameCalls as shown;
ghost use Rattle.st_host_frames.specs.Answers.{answer_in, entries_by, lost_pages_by};
ghost use Rattle.st_host_frames.specs.Answers as answers;
ghost use Rattle.st_host_frames.specs.Asks.{ask_frame};
ghost use Rattle.st_host_frames.specs.Commands.{command_in};
ghost use Rattle.st_host_frames.specs.Commands as commands;
ghost use Rattle.st_host_frames.specs.Ends.{done_frame};
ghost use Rattle.st_host_frames.specs.Fronts.{frame_at};
ghost use Rattle.st_host_frames.specs.Messages.{tick_frame};
ghost use Rattle.st_host_frames.specs.Results.{Puts};
ghost use Rattle.tank_c.specs.ServerCalls.{NoServerOpened, NoServerRecord, NoServerStep, NoServerTake, ServerKept, ServerOpens, ServerSteps, ServerTakes, TellsRecord, epoch_of};

mod box_pointer;
mod client_calls;
pub mod client_slot;
mod codes;
mod counts;
mod due;
mod events;
mod server_calls;
pub mod server_slot;

use crate::box_pointer::BoxPointer;
use crate::client_calls::{config_of, end_of, flag, phase_code, step_client, take_client};
use crate::client_slot::ClientSlot;
use crate::codes::{
    ABSENT, BUSY, DONE, NO_MEMORY, host_code, host_room, open_code, server_open_code,
    server_open_place,
};
use crate::due::{due_client, due_server};
use crate::events::{client_events, server_events};
use crate::server_calls::{record_server, step_server, take_server};
use crate::server_slot::ServerSlot;
pub use client_calls::{TankAssociation, TankClientStepped, TankSettings};
pub use counts::{TankClientCounted, TankServerCounted};
pub use server_calls::{TankRecord, TankServerStepped, TankShape};
use st_embed::{ClientId, EmbeddedClient, EmbeddedServer, ServerId, Shape, Stamp, TankEvent};
use st_host_frames::{
    TankAnswer, TankAsk, TankCommand, TankDone, TankEntry, TankFrame, TankLostPage, TankTag,
    decode_answer, decode_command, decode_entries, decode_lost_pages, encode_ask, encode_done,
    encode_tick, front_of,
};
use std::alloc::Global;
use std::mem;

/// The version of these calls: a hundred times the major number, and the minor number.
/// `include/tank.h` says when which one rises.
#[unsafe(no_mangle)]
pub extern "C" fn tank_version() -> u32
    ensures { result ≡ VERSION }
{
    100
}

/// A client that C keeps: all zero before it is opened.
#[repr(C)]
#[derive(Drop)]
pub struct TankClient {
    slot: ClientSlot,
    full: bool,
    pub ghost agrees: { full ≡ is_some slot.value },
}

/// Opens a client.
#[unsafe(no_mangle)]
pub extern "C" fn tank_client_open(
    client: &mut TankClient,
    alloc: Global,
    settings: &TankSettings,
    id: u16,
    lives: &[u64],
) -> u32
    ensures opened { result ≡ DONE → ClientOpens client.old.slot.value client.new.slot.value id settings.now lives.now }
    ensures refused { result ≢ DONE → NoClientOpened client.old.slot.value client.new.slot.value id settings.now lives.now result }
{
    if client.full {
        return BUSY;
    }
    match EmbeddedClient::open(alloc, ClientId(id), &config_of(settings), lives) {
        Ok(opened) => match Box::new(alloc, opened) {
            Ok(held) => {
                client.slot = ClientSlot::of(BoxPointer::of(held));
                client.full = true;
                DONE
            }
            Err(_) => NO_MEMORY,
        },
        Err(fault) => open_code(fault),
    }
}

/// Takes a step of a client.
#[unsafe(no_mangle)]
pub extern "C" fn tank_client_step(
    client: &mut TankClient,
    alloc: Global,
    now: u64,
    frame: &[u8],
    step: &mut TankClientStepped,
) -> u32
    ensures done { result ≡ DONE → ClientSteps client.old.slot.value client.new.slot.value now frame.now step.new }
    ensures refused { result ≢ DONE → NoClientStep client.old.slot.value client.new.slot.value now frame.now result step.new }
{
    if !client.full {
        *step = client_calls::no_step();
        return ABSENT;
    }
    let mut held = mem::replace(&mut client.slot, ClientSlot::empty())
        .into_loose(alloc)
        .into_box();
    let code = step_client(&mut held, now, frame, step);
    client.slot = ClientSlot::of(BoxPointer::of(held));
    code
}

/// Takes bytes of a client's frames out.
#[unsafe(no_mangle)]
pub extern "C" fn tank_client_take(
    client: &mut TankClient,
    alloc: Global,
    out: &mut [u8],
    count: &mut usize,
) -> u32
    ensures done { result ≡ DONE → ClientTakes client.old.slot.value client.new.slot.value out.old out.new count.new }
    ensures refused { result ≢ DONE → result ≡ client_not_taken client.old.slot.value }
    ensures same { result ≢ DONE → client.new.slot.value ≡ client.old.slot.value }
    ensures kept { result ≢ DONE → out.new ≡ out.old }
    ensures none { result ≢ DONE → count.new ≡ 0 }
{
    if !client.full {
        *count = 0;
        return ABSENT;
    }
    let mut held = mem::replace(&mut client.slot, ClientSlot::empty())
        .into_loose(alloc)
        .into_box();
    let code = take_client(&mut held, out, count);
    client.slot = ClientSlot::of(BoxPointer::of(held));
    code
}

/// Tells what a client has at a server.
#[unsafe(no_mangle)]
pub extern "C" fn tank_client_at(
    client: &mut TankClient,
    alloc: Global,
    server: u16,
    now: u64,
    association: &mut TankAssociation,
) -> u32
    ensures told { result ≡ DONE → TellsOf client.old.slot.value server now association.new }
    ensures absent { result ≢ DONE → (result ≡ ABSENT) × (client.old.slot.value ≡ None) × (association.new ≡ association.old) }
    ensures same { client.new.slot.value ≡ client.old.slot.value }
{
    if !client.full {
        return ABSENT;
    }
    let held = mem::replace(&mut client.slot, ClientSlot::empty())
        .into_loose(alloc)
        .into_box();
    let server = ServerId(server);
    *association = TankAssociation {
        life: held.life(server).0,
        lease_end: end_of(held.lease_end(server)),
        phase: phase_code(held.phase(server, Stamp(now))),
        dirty: flag(held.has_dirty(server)),
    };
    client.slot = ClientSlot::of(BoxPointer::of(held));
    DONE
}

/// Tells how much a client has of a server.
#[unsafe(no_mangle)]
pub extern "C" fn tank_client_counts(
    client: &mut TankClient,
    alloc: Global,
    server: u16,
    counted: &mut TankClientCounted,
) -> u32
    ensures told { result ≡ DONE → TellsClientCounts client.old.slot.value server counted.new }
    ensures absent { result ≢ DONE → (result ≡ ABSENT) × (client.old.slot.value ≡ None) × (counted.new ≡ counted.old) }
    ensures same { client.new.slot.value ≡ client.old.slot.value }
{
    if !client.full {
        return ABSENT;
    }
    let held = mem::replace(&mut client.slot, ClientSlot::empty())
        .into_loose(alloc)
        .into_box();
    let counts = held.counts(ServerId(server));
    *counted = TankClientCounted {
        locks: counts.locks,
        waits: counts.waits,
        dirty: counts.dirty,
        clean: counts.clean,
        commands: counts.commands,
        pending: counts.pending,
    };
    client.slot = ClientSlot::of(BoxPointer::of(held));
    DONE
}

/// Tells whether an operation of a client waits for a file of a server.
#[unsafe(no_mangle)]
pub extern "C" fn tank_client_owes(
    client: &mut TankClient,
    alloc: Global,
    server: u16,
    ino: u32,
    is_owed: &mut u32,
) -> u32
    ensures told { result ≡ DONE → TellsOwed client.old.slot.value server ino is_owed.new }
    ensures absent { result ≢ DONE → (result ≡ ABSENT) × (client.old.slot.value ≡ None) × (is_owed.new ≡ 0) }
    ensures same { client.new.slot.value ≡ client.old.slot.value }
{
    if !client.full {
        *is_owed = 0;
        return ABSENT;
    }
    let held = mem::replace(&mut client.slot, ClientSlot::empty())
        .into_loose(alloc)
        .into_box();
    *is_owed = flag(held.is_awaited(ServerId(server), ino));
    client.slot = ClientSlot::of(BoxPointer::of(held));
    DONE
}

/// Tells the first moment from this one on at which a tick at a client does something.
#[unsafe(no_mangle)]
pub extern "C" fn tank_client_due(
    client: &mut TankClient,
    alloc: Global,
    from: u64,
    due: &mut u64,
) -> u32
    ensures told { result ≡ DONE → TellsClientDue client.old.slot.value from due.new }
    ensures refused { result ≢ DONE → (result ≡ client_not_told client.old.slot.value) × (due.new ≡ 0) }
    ensures same { client.new.slot.value ≡ client.old.slot.value }
{
    if !client.full {
        *due = 0;
        return ABSENT;
    }
    let held = mem::replace(&mut client.slot, ClientSlot::empty())
        .into_loose(alloc)
        .into_box();
    let code = due_client(&held, from, due);
    client.slot = ClientSlot::of(BoxPointer::of(held));
    code
}

/// Tells what the last step of a client told beside its frames.
#[unsafe(no_mangle)]
pub extern "C" fn tank_client_events(
    client: &mut TankClient,
    alloc: Global,
    events: &mut [TankEvent],
    count: &mut usize,
) -> u32
    ensures done { result ≡ DONE → ClientTells client.old.slot.value events.old events.new count.new }
    ensures refused { result ≢ DONE → NoClientEvents client.old.slot.value (length events.old) result count.new }
    ensures kept { result ≢ DONE → events.new ≡ events.old }
    ensures same { client.new.slot.value ≡ client.old.slot.value }
{
    if !client.full {
        *count = 0;
        return ABSENT;
    }
    let held = mem::replace(&mut client.slot, ClientSlot::empty())
        .into_loose(alloc)
        .into_box();
    let code = client_events(&held, events, count);
    client.slot = ClientSlot::of(BoxPointer::of(held));
    code
}

/// Closes a client; a handle that is not open stays so.
#[unsafe(no_mangle)]
pub extern "C" fn tank_client_close(client: &mut TankClient, alloc: Global)
    ensures { client.new.slot.value ≡ None }
{
    if client.full {
        let held = mem::replace(&mut client.slot, ClientSlot::empty())
            .into_loose(alloc)
            .into_box();
        client.full = false;
        drop(held);
    }
}

/// A server that C keeps: all zero before it is opened.
#[repr(C)]
#[derive(Drop)]
pub struct TankServer {
    slot: ServerSlot,
    full: bool,
    pub ghost agrees: { full ≡ is_some slot.value },
}

/// Opens a server on the bytes of its journal.
#[unsafe(no_mangle)]
pub extern "C" fn tank_server_open(
    server: &mut TankServer,
    alloc: Global,
    settings: &TankSettings,
    shape: &TankShape,
    now: u64,
    journal: &[u8],
    at: &mut u64,
) -> u32
    ensures opened { result ≡ DONE → ServerOpens server.old.slot.value server.new.slot.value settings.now shape.now now journal.now at.new }
    ensures refused { result ≢ DONE → NoServerOpened server.old.slot.value server.new.slot.value settings.now shape.now now journal.now result at.new }
{
    *at = 0;
    if server.full {
        return BUSY;
    }
    let within = Shape {
        servers: shape.servers,
        disks: shape.disks,
        blocks: shape.blocks,
    };
    match EmbeddedServer::open(
        alloc,
        ServerId(shape.id),
        &config_of(settings),
        within,
        Stamp(now),
        journal,
    ) {
        Ok(opened) => match Box::new(alloc, opened) {
            Ok(held) => {
                server.slot = ServerSlot::of(BoxPointer::of(held));
                server.full = true;
                DONE
            }
            Err(_) => NO_MEMORY,
        },
        Err(fault) => {
            *at = server_open_place(fault);
            server_open_code(fault)
        }
    }
}

/// Takes a step of a server.
#[unsafe(no_mangle)]
pub extern "C" fn tank_server_step(
    server: &mut TankServer,
    alloc: Global,
    now: u64,
    frame: &[u8],
    step: &mut TankServerStepped,
) -> u32
    ensures done { result ≡ DONE → ServerSteps server.old.slot.value server.new.slot.value now frame.now step.new }
    ensures refused { result ≢ DONE → NoServerStep server.old.slot.value server.new.slot.value now frame.now result step.new }
{
    if !server.full {
        *step = server_calls::no_step();
        return ABSENT;
    }
    let mut held = mem::replace(&mut server.slot, ServerSlot::empty())
        .into_loose(alloc)
        .into_box();
    let code = step_server(&mut held, now, frame, step);
    server.slot = ServerSlot::of(BoxPointer::of(held));
    code
}

/// Gives the record that must be kept.
#[unsafe(no_mangle)]
pub extern "C" fn tank_server_record(
    server: &mut TankServer,
    alloc: Global,
    out: &mut [u8],
    told: &mut TankRecord,
) -> u32
    ensures done { result ≡ DONE → TellsRecord server.old.slot.value out.old out.new told.new }
    ensures refused { result ≢ DONE → NoServerRecord server.old.slot.value out.old out.new told.new result }
    ensures same { server.new.slot.value ≡ server.old.slot.value }
{
    if !server.full {
        *told = server_calls::no_record();
        return ABSENT;
    }
    let held = mem::replace(&mut server.slot, ServerSlot::empty())
        .into_loose(alloc)
        .into_box();
    let code = record_server(&held, out, told);
    server.slot = ServerSlot::of(BoxPointer::of(held));
    code
}

/// Says that the record was kept.
#[unsafe(no_mangle)]
pub extern "C" fn tank_server_kept(server: &mut TankServer, alloc: Global) -> u32
    ensures { ServerKept server.old.slot.value server.new.slot.value result }
{
    if !server.full {
        return ABSENT;
    }
    let mut held = mem::replace(&mut server.slot, ServerSlot::empty())
        .into_loose(alloc)
        .into_box();
    held.kept();
    server.slot = ServerSlot::of(BoxPointer::of(held));
    DONE
}

/// Takes bytes of a server's frames out.
#[unsafe(no_mangle)]
pub extern "C" fn tank_server_take(
    server: &mut TankServer,
    alloc: Global,
    out: &mut [u8],
    count: &mut usize,
) -> u32
    ensures done { result ≡ DONE → ServerTakes server.old.slot.value server.new.slot.value out.old out.new count.new }
    ensures refused { result ≢ DONE → NoServerTake server.old.slot.value result }
    ensures same { result ≢ DONE → server.new.slot.value ≡ server.old.slot.value }
    ensures kept { result ≢ DONE → out.new ≡ out.old }
    ensures none { result ≢ DONE → count.new ≡ 0 }
{
    if !server.full {
        *count = 0;
        return ABSENT;
    }
    let mut held = mem::replace(&mut server.slot, ServerSlot::empty())
        .into_loose(alloc)
        .into_box();
    let code = take_server(&mut held, out, count);
    server.slot = ServerSlot::of(BoxPointer::of(held));
    code
}

/// Tells a server's epoch; 0 if the handle is not open.
#[unsafe(no_mangle)]
pub extern "C" fn tank_server_epoch(server: &mut TankServer, alloc: Global) -> u64
    ensures epoch { result ≡ epoch_of server.old.slot.value }
    ensures same { server.new.slot.value ≡ server.old.slot.value }
{
    if !server.full {
        return 0;
    }
    let held = mem::replace(&mut server.slot, ServerSlot::empty())
        .into_loose(alloc)
        .into_box();
    let epoch = held.epoch().0;
    server.slot = ServerSlot::of(BoxPointer::of(held));
    epoch
}

/// Tells how much a server has.
#[unsafe(no_mangle)]
pub extern "C" fn tank_server_counts(
    server: &mut TankServer,
    alloc: Global,
    counted: &mut TankServerCounted,
) -> u32
    ensures told { result ≡ DONE → TellsServerCounts server.old.slot.value counted.new }
    ensures absent { result ≢ DONE → (result ≡ ABSENT) × (server.old.slot.value ≡ None) × (counted.new ≡ counted.old) }
    ensures same { server.new.slot.value ≡ server.old.slot.value }
{
    if !server.full {
        return ABSENT;
    }
    let held = mem::replace(&mut server.slot, ServerSlot::empty())
        .into_loose(alloc)
        .into_box();
    let counts = held.counts();
    *counted = TankServerCounted {
        sessions: counts.sessions,
        locks: counts.locks,
        waits: counts.waits,
        suspects: counts.suspects,
        names: counts.names,
        mapped: counts.mapped,
        free: counts.free,
        journal: held.gate(),
        journal_size: held.size(),
    };
    server.slot = ServerSlot::of(BoxPointer::of(held));
    DONE
}

/// Tells from which moment on a tick at a server does something.
#[unsafe(no_mangle)]
pub extern "C" fn tank_server_due(server: &mut TankServer, alloc: Global, due: &mut u64) -> u32
    ensures told { result ≡ DONE → TellsServerDue server.old.slot.value due.new }
    ensures refused { result ≢ DONE → (result ≡ not_told server.old.slot.value) × (due.new ≡ 0) }
    ensures same { server.new.slot.value ≡ server.old.slot.value }
{
    if !server.full {
        *due = 0;
        return ABSENT;
    }
    let held = mem::replace(&mut server.slot, ServerSlot::empty())
        .into_loose(alloc)
        .into_box();
    let code = due_server(&held, due);
    server.slot = ServerSlot::of(BoxPointer::of(held));
    code
}

/// Tells what the last step of a server told beside its frames.
#[unsafe(no_mangle)]
pub extern "C" fn tank_server_events(
    server: &mut TankServer,
    alloc: Global,
    events: &mut [TankEvent],
    count: &mut usize,
) -> u32
    ensures done { result ≡ DONE → ServerTells server.old.slot.value events.old events.new count.new }
    ensures refused { result ≢ DONE → NoServerEvents server.old.slot.value (length events.old) result count.new }
    ensures kept { result ≢ DONE → events.new ≡ events.old }
    ensures same { server.new.slot.value ≡ server.old.slot.value }
{
    if !server.full {
        *count = 0;
        return ABSENT;
    }
    let held = mem::replace(&mut server.slot, ServerSlot::empty())
        .into_loose(alloc)
        .into_box();
    let code = server_events(&held, events, count);
    server.slot = ServerSlot::of(BoxPointer::of(held));
    code
}

/// Closes a server; a handle that is not open stays so.
#[unsafe(no_mangle)]
pub extern "C" fn tank_server_close(server: &mut TankServer, alloc: Global)
    ensures { server.new.slot.value ≡ None }
{
    if server.full {
        let held = mem::replace(&mut server.slot, ServerSlot::empty())
            .into_loose(alloc)
            .into_box();
        server.full = false;
        drop(held);
    }
}

/// Describes the frame with which bytes begin.
#[unsafe(no_mangle)]
pub extern "C" fn tank_frame_at(bytes: &[u8], frame: &mut TankFrame) -> u32
    ensures done { result ≡ DONE → frame_at bytes.now ≡ Ok frame.new }
    ensures refused { result ≢ DONE → NoFront bytes.now result frame.new }
{
    match front_of(bytes) {
        Ok(found) => {
            *frame = found;
            DONE
        }
        Err(fault) => {
            *frame = TankFrame {
                size: 0,
                version: 0,
                kind: 0,
                from: 0,
                to: 0,
            };
            host_code(fault)
        }
    }
}

/// Writes the frame of a tick for a node.
#[unsafe(no_mangle)]
pub extern "C" fn tank_encode_tick(
    alloc: Global,
    node: u16,
    out: &mut [u8],
    count: &mut usize,
) -> u32
    ensures done { result ≡ DONE → Puts (tick_frame node) out.old out.new count.new }
    ensures refused { result ≢ DONE → Unwritten (tick_frame node) (length out.old) result count.new }
    ensures kept { result ≢ DONE → out.new ≡ out.old }
{
    match encode_tick(alloc, node, out) {
        Ok(n) => {
            *count = n;
            DONE
        }
        Err(fault) => {
            *count = host_room(fault);
            host_code(fault)
        }
    }
}

/// Writes the frame of an ask.
#[unsafe(no_mangle)]
pub extern "C" fn tank_encode_ask(
    alloc: Global,
    ask: &TankAsk,
    bytes: &[u8],
    other: &[u8],
    out: &mut [u8],
    count: &mut usize,
) -> u32
    ensures done { result ≡ DONE → Puts (ask_frame ask.now bytes.now other.now) out.old out.new count.new }
    ensures refused { result ≢ DONE → Unwritten (ask_frame ask.now bytes.now other.now) (length out.old) result count.new }
    ensures kept { result ≢ DONE → out.new ≡ out.old }
{
    match encode_ask(alloc, ask, bytes, other, out) {
        Ok(n) => {
            *count = n;
            DONE
        }
        Err(fault) => {
            *count = host_room(fault);
            host_code(fault)
        }
    }
}

/// Writes the frame of the end of a disk command.
#[unsafe(no_mangle)]
pub extern "C" fn tank_encode_done(
    alloc: Global,
    done: &TankDone,
    page: &[u8],
    out: &mut [u8],
    count: &mut usize,
) -> u32
    ensures done { result ≡ DONE → Puts (done_frame done.now page.now) out.old out.new count.new }
    ensures refused { result ≢ DONE → Unwritten (done_frame done.now page.now) (length out.old) result count.new }
    ensures kept { result ≢ DONE → out.new ≡ out.old }
{
    match encode_done(alloc, done, page, out) {
        Ok(n) => {
            *count = n;
            DONE
        }
        Err(fault) => {
            *count = host_room(fault);
            host_code(fault)
        }
    }
}

/// Shows the answer of a frame.
#[unsafe(no_mangle)]
pub extern "C" fn tank_decode_answer(
    alloc: Global,
    frame: &[u8],
    answer: &mut TankAnswer,
    page: &mut [u8],
) -> u32
    ensures done { result ≡ DONE → answers.Shows frame.now page.old page.new answer.new }
    ensures refused { result ≢ DONE → Unshown (answers.page_by (answer_in frame.now)) (length page.old) result answer.new shown.no_answer }
    ensures kept { result ≢ DONE → page.new ≡ page.old }
{
    match decode_answer(alloc, frame, page) {
        Ok(found) => {
            *answer = found;
            DONE
        }
        Err(fault) => {
            *answer = TankAnswer {
                op: 0,
                first: 0,
                second: 0,
                page: 0,
                rows: 0,
                answer: 0,
                client: 0,
            };
            host_code(fault)
        }
    }
}

/// Shows the entries that the answer of a frame lists.
#[unsafe(no_mangle)]
pub extern "C" fn tank_decode_entries(
    alloc: Global,
    frame: &[u8],
    out: &mut [TankEntry],
    count: &mut usize,
) -> u32
    ensures done { result ≡ DONE → Puts (entries_by (answer_in frame.now)) out.old out.new count.new }
    ensures refused { result ≢ DONE → Unwritten (entries_by (answer_in frame.now)) (length out.old) result count.new }
    ensures kept { result ≢ DONE → out.new ≡ out.old }
{
    match decode_entries(alloc, frame, out) {
        Ok(n) => {
            *count = n;
            DONE
        }
        Err(fault) => {
            *count = host_room(fault);
            host_code(fault)
        }
    }
}

/// Shows the lost pages that the answer of a frame tells.
#[unsafe(no_mangle)]
pub extern "C" fn tank_decode_lost_pages(
    alloc: Global,
    frame: &[u8],
    out: &mut [TankLostPage],
    count: &mut usize,
) -> u32
    ensures done { result ≡ DONE → Puts (lost_pages_by (answer_in frame.now)) out.old out.new count.new }
    ensures refused { result ≢ DONE → Unwritten (lost_pages_by (answer_in frame.now)) (length out.old) result count.new }
    ensures kept { result ≢ DONE → out.new ≡ out.old }
{
    match decode_lost_pages(alloc, frame, out) {
        Ok(n) => {
            *count = n;
            DONE
        }
        Err(fault) => {
            *count = host_room(fault);
            host_code(fault)
        }
    }
}

/// Shows the disk command of a frame.
#[unsafe(no_mangle)]
pub extern "C" fn tank_decode_command(
    alloc: Global,
    frame: &[u8],
    command: &mut TankCommand,
    page: &mut [u8],
) -> u32
    ensures done { result ≡ DONE → commands.Shows frame.now page.old page.new command.new }
    ensures refused { result ≢ DONE → Unshown (commands.page_by (command_in frame.now)) (length page.old) result command.new shown.no_command }
    ensures kept { result ≢ DONE → page.new ≡ page.old }
{
    match decode_command(alloc, frame, page) {
        Ok(found) => {
            *command = found;
            DONE
        }
        Err(fault) => {
            *command = TankCommand {
                number: 0,
                tag: TankTag {
                    birth: 0,
                    ino: 0,
                    page: 0,
                    server: 0,
                },
                page: 0,
                command: 0,
                block: 0,
                disk: 0,
                client: 0,
            };
            host_code(fault)
        }
    }
}
