ghost use Rattle.std.specs.Prelude.{◌≤◌, ◌^◌, None, IfOk};
ghost use Rattle.st_node.specs.Room.{HasRoomFor};
ghost use Rattle.st_node.specs.Runs.{MOST};

use crate::rows::ROWS;
use st_base::{ClientId, Config, ServerId, Stamp};
use st_clock::Clock;
use st_codec::{CodecRefusal, decode, encode};
use st_embed::{EmbeddedClient, EmbeddedServer, Shape};
use st_link::{Failed, Link, MemoryLink, Sink, Source, UnixLink};
use st_messages::Output;
use st_node::{Node, NodeFault, serve};
use st_server::{ServerNode, answers_are_named};
use std::alloc::{AllocError, Global};
use std::fs;
use std::io::{Read, Write};
use std::net::Shutdown;
use std::os::unix::net::{UnixListener, UnixStream};
use std::test::*;

/// The highest reading of a clock.
const LAST: u64 = 4_611_686_018_427_387_904;

const CONFIG: Config = Config {
    lease: 10_000,
    renew: 5_000,
    quiesce: 7_000,
    flush: 8_500,
    demand: 1_000,
    retry: 500,
    num: 101,
    den: 100,
    grain: 1,
};

/// Settings with a short lease, for streams in which time goes by.
const SHORT: Config = Config {
    lease: 100,
    renew: 50,
    quiesce: 70,
    flush: 85,
    demand: 10,
    retry: 5,
    num: 3,
    den: 2,
    grain: 2,
};

/// The frame of a greeting, by which client 1 begins its first life at server 1.
const GREETING: &str = "00*3 26 01*2 00 01 80 01 00*7 01 00*24";

/// The frame of the answer.
const WELCOME: &str = "00*3 26 01 20 80 01 00 01 00*7 01 00*7 01 00*16";

/// The frame of a read of page 0 of file 1:2, and of a welcome to client 1.
const ASK_AND_WELCOME: &str =
    "00*3 35 01 41 00*3 01 00*35 01 02 00 01 00*3 02 00*7 26 01 20 80 01 00 01 00*7 01 00*7 01 00*16";

/// The frame of the answer that client 1 waits for the file.
const QUEUED: &str = "00*3 2b 01 24 80 01 00 01 00*7 01 00*7 01 00*7 01 00*11 02 01";

/// The frames of client 1's greeting, of its request of the lock, and of its release of file 2,025.
const RELEASED: &str =
    "00*3 26 01*2 00 01 80 01 00*7 01 00*27 2b 01 03 00 01 80 01 00*7 01 00*7 01 00*7 01 00*11 02 01 00*3 33 01 04 00 01 80 01 00*7 01 00*7 01 00*7 02 00*10 07 e9 00*6 07 e9 00";

/// Server 1, client 1, or client 3 of two servers with a short lease.
fn fresh(alloc: Global, kind: &str) -> Result<Node, AllocError>
    ensures { IfOk result (λ n. HasRoomFor MOST n) }
{
    match kind {
        "client" => Node::client(alloc, ClientId(1), &CONFIG, 4),
        "two" => Node::client(alloc, ClientId(3), &SHORT, 2),
        _ => Node::server(alloc, ServerId(1), &CONFIG, 4, 4, 4096),
    }
}

/// Appends the bytes of a run, `HH` or `HH*COUNT`.
fn push_run(bytes: &mut Vec<u8>, run: &str) -> Result<(), AllocError> {
    let (byte, count) = match run.split_once('*') {
        Some((byte, count)) => (byte, count.parse::<u32>().unwrap_or(0)),
        None => (run, 1u32),
    };
    let value = u8::from_str_radix(byte, 16).unwrap_or(0);
    for _ in 0..count {
        bytes.push(value)?;
    }
    Ok(())
}

/// Appends the bytes of these runs.
fn push_runs(bytes: &mut Vec<u8>, runs: &str) -> Result<(), AllocError> {
    for run in runs.split(' ') {
        push_run(bytes, run)?;
    }
    Ok(())
}

/// The bytes of these runs, or none for `-`.
fn bytes_of(alloc: Global, runs: &str) -> Result<Vec<u8>, AllocError> {
    let mut bytes = Vec::new(alloc);
    if runs != "-" {
        push_runs(&mut bytes, runs)?;
    }
    Ok(bytes)
}

/// A clock that gives the readings of a list, none below an earlier one.
#[derive(Drop)]
struct Listed {
    readings: Vec<u64>,
    next: usize,
    latest: u64,
    ghost most: { latest ≤ 2 ^ 62 },
}

impl Clock for Listed {
    ghost latest = { λ c. c.latest };

    ghost readings = { λ _. None };

    fn now(&mut self) -> Stamp {
        let listed = match self.readings.get(self.next) {
            Some(reading) => *reading,
            None => self.latest,
        };
        self.next = self.next.saturating_add(1);
        self.latest = self.latest.max(listed.min(LAST));
        Stamp(self.latest)
    }
}

/// A link over bytes in memory that gives one byte in each call. It does not know its bytes.
#[derive(Drop)]
struct Slow {
    link: MemoryLink,
}

impl Source for Slow {
    ghost left = { λ _. None };

    ghost faults = { λ s. s.link.faults };

    fn take(&mut self, room: &mut [u8]) -> Result<usize, Failed> {
        match room {
            [] => self.link.take(room),
            _ => self.link.take(&mut room[..1]),
        }
    }
}

impl Sink for Slow {
    ghost written = { λ _. None };

    ghost faults = { λ s. s.link.faults };

    fn put(&mut self, piece: &[u8]) -> Result<usize, Failed> {
        self.link.put(piece)
    }
}

impl Link for Slow {
    ghost use Rattle.std.specs.Prelude.{refl};

    ghost attached = { λ _. None };

    ghost one_count = { λ x. refl };

    fn attach(&mut self, name: &str) -> Result<(), Failed> {
        self.link.attach(name)
    }

    fn receive(&mut self, room: &mut [u8]) -> Result<usize, Failed> {
        self.take(room)
    }

    fn send(&mut self, piece: &[u8]) -> Result<usize, Failed> {
        self.put(piece)
    }
}

fn refusal_text(alloc: Global, refusal: CodecRefusal) -> Result<String, AllocError> {
    match refusal {
        CodecRefusal::Short => format!(in alloc; "Short"),
        CodecRefusal::Long => format!(in alloc; "Long"),
        CodecRefusal::Kind => format!(in alloc; "Kind"),
        CodecRefusal::Value(at) => format!(in alloc; "Value {at}"),
        CodecRefusal::Version => format!(in alloc; "Version"),
        CodecRefusal::FrameTooLong(length) => format!(in alloc; "FrameTooLong {length}"),
        CodecRefusal::Memory => format!(in alloc; "Memory"),
    }
}

/// Why a node stopped, in a row's words.
fn told(alloc: Global, served: Result<(), NodeFault>) -> Result<String, AllocError> {
    match served {
        Ok(()) => format!(in alloc; "ok"),
        Err(NodeFault::Frame(at, refusal)) => {
            let text = refusal_text(alloc, refusal)?;
            format!(in alloc; "frame at {} {}", at, text.as_str())
        }
        Err(NodeFault::Cut(at)) => format!(in alloc; "frame cut at {at}"),
        Err(NodeFault::TooManyFrames) => format!(in alloc; "too many frames"),
        Err(NodeFault::Read) => format!(in alloc; "read"),
        Err(NodeFault::Write) => format!(in alloc; "write"),
        Err(NodeFault::Memory) => format!(in alloc; "memory"),
    }
}

/// Serves a fresh node of this kind over this link, by a clock that gives these readings.
fn serve_fresh<L: Link>(
    alloc: Global,
    kind: &str,
    link: &mut L,
    readings: &str,
) -> Result<Result<(), NodeFault>, AllocError> {
    let mut listed = Vec::new(alloc);
    for word in readings.split(' ') {
        listed.push(word.parse::<u64>().unwrap_or(0))?;
    }
    let mut clock = Listed {
        readings: listed,
        next: 0,
        latest: 0,
    };
    let mut node = fresh(alloc, kind)?;
    Ok(serve(alloc, link, &mut clock, &mut node))
}

/// Whether a node that gets these bytes, in large pieces and byte by byte, writes what is wanted
/// and stops as is wanted.
fn is_served(
    alloc: Global,
    kind: &str,
    readings: &str,
    bytes: &[u8],
    want: &[u8],
    why: &str,
) -> Result<bool, AllocError> {
    let mut link = MemoryLink::new(alloc, Vec::from_slice(alloc, bytes)?, Vec::new(alloc));
    let served = serve_fresh(alloc, kind, &mut link, readings)?;
    let mut slow = Slow {
        link: MemoryLink::new(alloc, Vec::from_slice(alloc, bytes)?, Vec::new(alloc)),
    };
    let slowly = serve_fresh(alloc, kind, &mut slow, readings)?;
    Ok(
        told(alloc, served)?.as_str() == why
            && told(alloc, slowly)?.as_str() == why
            && link.as_slice() == want
            && slow.link.as_slice() == want,
    )
}

/// Whether a row's stream is served as it says.
fn is_right(alloc: Global, text: &str) -> Result<bool, AllocError> {
    let mut parts = text.split(" | ");
    let _name = parts.next();
    let Some(kind) = parts.next() else {
        return Ok(false);
    };
    let Some(readings) = parts.next() else {
        return Ok(false);
    };
    let Some(bytes) = parts.next() else {
        return Ok(false);
    };
    let Some(want) = parts.next() else {
        return Ok(false);
    };
    let Some(why) = parts.next() else {
        return Ok(false);
    };
    let bytes = bytes_of(alloc, bytes)?;
    let want = bytes_of(alloc, want)?;
    is_served(
        alloc,
        kind,
        readings,
        bytes.as_slice(),
        want.as_slice(),
        why,
    )
}

/// Hostile frames, frames that aren't an input, one reading for each frame, drawn frames, some with
/// a flipped bit, and a client of two servers.
#[test]
fn streams_are_served_as_an_independent_reading_serves_them(rt: HostRuntime) -> Result<(), Fail> {
    for row in ROWS.lines() {
        let right = is_right(rt.alloc(), row)?;
        assert!(rt; right, "{row}");
    }
    Ok(())
}

/// A client is granted 1,025 locks. It holds 1,024 of them, and releases the last one once it may.
#[test]
fn a_client_releases_what_it_cannot_hold(rt: HostRuntime) -> Result<(), Fail> {
    let mut bytes = bytes_of(rt.alloc(), ASK_AND_WELCOME)?;
    for ino in 1001..2026u32 {
        // A grant that nobody asked for; its number is the file's.
        push_runs(
            &mut bytes,
            "00*3 33 01 23 80 01 00 01 00*7 01 00*7 01 00*16",
        )?;
        bytes.extend_from_slice(&ino.to_be_bytes())?;
        bytes.extend_from_slice(&u64::from(ino).to_be_bytes())?;
        bytes.push(1)?;
    }
    push_runs(&mut bytes, QUEUED)?;
    let want = bytes_of(rt.alloc(), RELEASED)?;
    let right = is_served(
        rt.alloc(),
        "client",
        "0",
        bytes.as_slice(),
        want.as_slice(),
        "ok",
    )?;
    assert!(rt; right);
    Ok(())
}

/// A reassertion of file 2's exclusive lock, which client 1 held before the crash, and its answer,
/// from an independent reading.
const REASSERTION: &str =
    "01 09 00 01 80 01 00*7 01 00*7 02 00*7 01 00*9 01 00*3 02 00*3 01 00*3 01 02";

const REASSERTED: &str = "01 28 80 01 00 01 00*7 01 00*7 02 00*7 01 00*8";

/// Another client's of the same file, in conflict, and its answer.
const CONFLICT: &str =
    "01 09 00 02 80 01 00*7 01 00*7 02 00*7 01 00*9 01 00*3 02 00*3 01 00*3 01*2";

const IN_CONFLICT: &str = "01 22 80 01 00 02 00*7 01 00*7 02 00*7 01 00*8 06 00*7 02 00*7 01";

/// The same client's of a lock that no earlier epoch granted, and its answer.
const NEVER_GRANTED: &str =
    "01 09 00 02 80 01 00*7 01 00*7 02 00*7 01 00*9 01 00*3 02 00*3 02 00*3 01*2";

const NOT_GRANTED: &str =
    "01 22 80 01 00 02 00*7 01 00*7 02 00*7 01 00*8 07 00*7 02 00*3 02 00*3 01";

/// A server that crashed. Nothing is known of it, so the prover does not unfold its disks.
fn crashed(alloc: Global) -> Result<ServerNode, AllocError> {
    let mut server = ServerNode::fresh(alloc, ServerId(1), &CONFIG, 4, 4, 4096)?;
    server.crash();
    Ok(server)
}

/// Starts a server that does not run, if it may be started.
fn start(server: &mut ServerNode) -> Result<bool, AllocError> {
    if server.running() || server.stable().epoch.0 >= 4_294_967_295 {
        return Ok(false);
    }
    server.start(Stamp(0))?;
    Ok(true)
}

/// Whether a server that runs answers the message of these bytes with that of the others.
fn answers(
    alloc: Global,
    server: &mut ServerNode,
    told: &str,
    want: &str,
) -> Result<bool, AllocError> {
    let told = bytes_of(alloc, told)?;
    let want = bytes_of(alloc, want)?;
    let Ok(message) = decode(alloc, told.as_slice()) else {
        return Ok(false);
    };
    if !server.running() || !server.has_room() || !message.fits() {
        return Ok(false);
    }
    let Ok(outputs) = answers_are_named(server, Stamp(0), message) else {
        return Ok(false);
    };
    let [Output::Send(answer)] = outputs.as_slice() else {
        return Ok(false);
    };
    Ok(answer.fits() && encode(alloc, answer)?.as_slice() == want.as_slice())
}

/// Whether a server that crashed is started, takes the reassertion, and refuses the two others.
fn is_right_again(alloc: Global) -> Result<bool, AllocError> {
    let mut server = crashed(alloc)?;
    if !start(&mut server)? {
        return Ok(false);
    }
    let taken = answers(alloc, &mut server, REASSERTION, REASSERTED)?;
    let refused = answers(alloc, &mut server, CONFLICT, IN_CONFLICT)?;
    let unknown = answers(alloc, &mut server, NEVER_GRANTED, NOT_GRANTED)?;
    Ok(taken && refused && unknown)
}

#[test]
fn a_server_that_was_restarted_answers_reassertions(rt: HostRuntime) -> Result<(), Fail> {
    let right = is_right_again(rt.alloc())?;
    assert!(rt; right);
    Ok(())
}

/// A greeting comes over a socket, and the answer goes back over it.
#[test]
fn a_node_is_served_over_a_socket(rt: HostRuntime) -> Result<(), Fail> {
    let path = "a_node_over_a_socket";
    let _ = fs::remove_file(&rt, path);
    let listener = UnixListener::bind(&rt, path)?;
    let mut stream = UnixStream::connect(&rt, path)?;
    stream.write_all(bytes_of(rt.alloc(), GREETING)?.as_slice())?;
    stream.shutdown(Shutdown::Write)?;
    let mut link = UnixLink::new(rt);
    let adopted = link.adopt(listener);
    assert!(rt; adopted.is_ok());
    let served = serve_fresh(rt.alloc(), "server", &mut link, "0")?;
    assert!(rt; served.is_ok());
    drop(link);
    let mut answer = Vec::new(rt.alloc());
    stream.read_to_end(&mut answer)?;
    let want = bytes_of(rt.alloc(), WELCOME)?;
    assert_eq!(rt; answer.as_slice(), want.as_slice());
    fs::remove_file(&rt, path)?;
    Ok(())
}

/// How many bytes must be taken out of a client inside another program that was just opened.
fn left_of_client(alloc: Global) -> Result<usize, AllocError> {
    match EmbeddedClient::open(alloc, ClientId(1), &CONFIG, &[0]) {
        Ok(mut client) => client.left(),
        Err(_) => Err(AllocError),
    }
}

/// How many bytes must be taken out of a server inside another program that was just opened.
fn left_of_server(alloc: Global) -> Result<usize, AllocError> {
    let shape = Shape {
        servers: 1,
        disks: 1,
        blocks: 64,
    };
    match EmbeddedServer::open(alloc, ServerId(1), &CONFIG, shape, Stamp(0), &[0; 1024]) {
        Ok(mut server) => server.left(),
        Err(_) => Err(AllocError),
    }
}

#[test]
fn nothing_must_be_taken_out_at_first(rt: HostRuntime) -> Result<(), Fail> {
    assert_eq!(rt; left_of_client(rt.alloc())?, 0);
    assert_eq!(rt; left_of_server(rt.alloc())?, 0);
    Ok(())
}
