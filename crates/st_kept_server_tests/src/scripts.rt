// A server whose changes are kept in groups, driven by scripts over a file in memory. Each letter
// of a script is a call or an event:
//
//     h  the client greets the server in a new life      w  what must be written next is written
//     m  it makes a directory with a new name            s  what was written is synced
//     t  a tick, after any grace                         f  all that may be taken is taken
//     k  twenty directories are made, and each is kept   c  a crash that loses what was not synced
//                                                        x  a crash that keeps it
ghost use Rattle.std.specs.Prelude.{◌≡◌, ◌≤◌, ◌^◌};
ghost use Rattle.st_server.specs.RuleConditions.{comes_fit};

use crate::openings::{file, identity};
use st_base::{Name, Stamp};
use st_kept_server::{KeptServer, Write};
use st_messages::{Body, Header, Message, NameOp, NameReply, Output};
use st_rules::ServerInput;
use std::alloc::{AllocError, Global};
use std::test::Fail;

/// How many names a server has from the start.
const FIRST_NAMES: u64 = 8;

/// Why a script doesn't reach its end.
#[derive(Clone, Copy, Debug, PartialEq, Eq)]
enum Fault {
    Memory,
    Open,
    Step,
    Write,
    Letter,
}

impl From<AllocError> for Fault {
    fn from(_e: AllocError) -> Fault {
        Fault::Memory
    }
}

/// A server, and the file of its journal as the program sees it and as it was last synced; its
/// clock; the life of its client, and how many requests it sent in it; how many directories were
/// made; and how many replies to their makers were taken.
#[derive(Drop)]
struct Bench {
    alloc: Global,
    server: KeptServer,
    seen: Vec<u8>,
    synced: Vec<u8>,
    now: u64,
    life: u64,
    sent: u64,
    made: u8,
    taken: u32,
}

fn server_on(alloc: Global, file: &[u8], now: u64) -> Result<KeptServer, Fault>
    requires { now ≤ 2 ^ 62 }
{
    match KeptServer::open(alloc, file, &identity(), Stamp(now), 4) {
        Ok(server) => Ok(server),
        Err(_) => Err(Fault::Open),
    }
}

fn begun(alloc: Global) -> Result<Bench, Fault> {
    let seen = file(alloc, 255)?;
    let synced = Vec::from_slice(alloc, seen.as_slice())?;
    let server = server_on(alloc, seen.as_slice(), 5)?;
    Ok(Bench {
        alloc,
        server,
        seen,
        synced,
        now: 5,
        life: 1,
        sent: 0,
        made: 0,
        taken: 0,
    })
}

/// Does a write at its place of the file, if there is such a place.
fn put(file: &mut [u8], write: &Write) -> bool {
    let count = write.bytes.len();
    let size = file.len();
    if count > size || write.at > (size - count) as u64 {
        return false;
    }
    let at = write.at as usize;
    file[at..at + count].copy_from_slice(write.bytes.as_slice());
    true
}

/// How many of these outputs tell a client that its directory was made.
fn replies(outputs: &[Output]) -> u32 {
    let mut count = 0u32;
    for output in outputs {
        if let Output::Send(message) = output {
            if matches!(message.body, Body::Named(NameReply::Ino(_))) {
                count = count.saturating_add(1);
            }
        }
    }
    count
}

/// Whether the message of an input is in its ranges.
fn is_ranged(input: &ServerInput) -> bool
    ensures { result ≡ comes_fit input.now }
{
    match input {
        ServerInput::Tick => true,
        ServerInput::Control(message) => message.fits(),
    }
}

impl Bench {
    /// A header of the client's next message.
    fn header(&self, epoch: u64, number: u64) -> Header {
        Header {
            from: 1,
            to: 32_769,
            life: self.life,
            epoch,
            number,
            stamp: self.now,
        }
    }

    /// A step, a moment after the last one.
    fn step(&mut self, input: ServerInput) -> Result<(), Fault> {
        self.now = self.now.saturating_add(1);
        if !is_ranged(&input) {
            return Err(Fault::Step);
        }
        match self.server.step(Stamp(self.now), input) {
            Ok(()) => Ok(()),
            Err(_) => Err(Fault::Step),
        }
    }

    fn greet(&mut self) -> Result<(), Fault> {
        self.sent = 0;
        let header = self.header(0, 0);
        self.step(ServerInput::Control(Message {
            header,
            body: Body::Hello,
        }))
    }

    fn make(&mut self) -> Result<(), Fault> {
        self.sent = self.sent.saturating_add(1);
        self.made = self.made.wrapping_add(1);
        let name = Name::from_slice(
            self.alloc,
            &[b'a' + self.made / 26 % 26, b'a' + self.made % 26],
        )?;
        let header = self.header(self.server.node().stable().epoch.0, self.sent);
        self.step(ServerInput::Control(Message {
            header,
            body: Body::Name(NameOp::Mkdir { dir: 1, name }),
        }))
    }

    fn tick(&mut self) -> Result<(), Fault> {
        self.now = self.now.saturating_add(1000);
        self.step(ServerInput::Tick)
    }

    fn write(&mut self) -> Result<(), Fault> {
        match self.server.write() {
            Ok(Some(write)) => {
                if put(self.seen.as_mut_slice(), &write) {
                    Ok(())
                } else {
                    Err(Fault::Write)
                }
            }
            Ok(None) => Ok(()),
            Err(_) => Err(Fault::Memory),
        }
    }

    fn sync(&mut self) -> Result<(), Fault> {
        self.synced = Vec::from_slice(self.alloc, self.seen.as_slice())?;
        self.server.synced();
        Ok(())
    }

    /// Takes the outputs of one step, and tells whether there was one.
    fn take(&mut self) -> bool {
        match self.server.take() {
            Some(outputs) => {
                self.taken = self.taken.saturating_add(replies(outputs.as_slice()));
                true
            }
            None => false,
        }
    }

    /// All that may be taken is taken.
    fn take_all(&mut self) {
        for _ in 0..8 {
            self.take();
        }
    }

    /// Twenty directories are made, and each is kept.
    fn keep_many(&mut self) -> Result<(), Fault> {
        for _ in 0..20 {
            self.make()?;
            self.write()?;
            self.sync()?;
            self.write()?;
            self.sync()?;
            self.take_all();
        }
        Ok(())
    }

    /// A crash: the server is opened again on what is left of the file.
    fn crash(&mut self) -> Result<(), Fault> {
        self.now = self.now.saturating_add(1);
        if self.now > 4_611_686_018_427_387_904 {
            return Err(Fault::Open);
        }
        self.server = server_on(self.alloc, self.synced.as_slice(), self.now)?;
        self.seen = Vec::from_slice(self.alloc, self.synced.as_slice())?;
        self.life = self.life.saturating_add(1);
        Ok(())
    }

    fn play(&mut self, letter: u8) -> Result<(), Fault> {
        match letter {
            b'h' => self.greet(),
            b'm' => self.make(),
            b't' => self.tick(),
            b'w' => self.write(),
            b's' => self.sync(),
            b'f' => {
                self.take_all();
                Ok(())
            }
            b'k' => self.keep_many(),
            b'c' => self.crash(),
            b'x' => {
                self.synced = Vec::from_slice(self.alloc, self.seen.as_slice())?;
                self.crash()
            }
            _ => Err(Fault::Letter),
        }
    }
}

/// What a script comes to: how many replies to makers of directories were taken, how many changes
/// wait to be kept, and how many directories the server has that clients made.
fn play(alloc: Global, script: &[u8]) -> Result<(u32, u64, u64), Fault> {
    let mut bench = begun(alloc)?;
    for letter in script {
        bench.play(*letter)?;
    }
    let made = bench
        .server
        .node()
        .counts()
        .names
        .saturating_sub(FIRST_NAMES);
    Ok((bench.taken, bench.server.waiting(), made))
}

/// A script, and what it comes to.
struct Row {
    script: &'static [u8],
    taken: u32,
    waiting: u64,
    made: u64,
}

const ROWS: [Row; 14] = [
    // Nothing is given before the change that begins the epoch is kept.
    Row {
        script: b"hf",
        taken: 0,
        waiting: 1,
        made: 0,
    },
    Row {
        script: b"wswshf",
        taken: 0,
        waiting: 0,
        made: 0,
    },
    // A group of three changes is two writes and two syncs; what was made meanwhile waits.
    Row {
        script: b"wswshmmmwf",
        taken: 0,
        waiting: 3,
        made: 3,
    },
    Row {
        script: b"wswshmmmwsf",
        taken: 0,
        waiting: 3,
        made: 3,
    },
    Row {
        script: b"wswshmmmwswf",
        taken: 0,
        waiting: 3,
        made: 3,
    },
    Row {
        script: b"wswshmmmwswsf",
        taken: 3,
        waiting: 0,
        made: 3,
    },
    Row {
        script: b"wswshmwmsmwsf",
        taken: 1,
        waiting: 2,
        made: 3,
    },
    // A crash loses what was not kept, and what is kept stays.
    Row {
        script: b"wswshmmwsc",
        taken: 0,
        waiting: 1,
        made: 0,
    },
    Row {
        script: b"wswshmmwswc",
        taken: 0,
        waiting: 1,
        made: 0,
    },
    Row {
        script: b"wswshmmwswx",
        taken: 0,
        waiting: 1,
        made: 2,
    },
    Row {
        script: b"wswshmmwswsfcwswsthmwswsf",
        taken: 3,
        waiting: 0,
        made: 3,
    },
    // The area becomes half full, and snapshots take over.
    Row {
        script: b"wswshkkkk",
        taken: 80,
        waiting: 0,
        made: 80,
    },
    Row {
        script: b"wswshkkkkkmwc",
        taken: 100,
        waiting: 1,
        made: 100,
    },
    // More changes than may wait.
    Row {
        script: b"wswshmmmm",
        taken: 0,
        waiting: 4,
        made: 4,
    },
];

#[test]
fn scripts_come_to_what_they_should(rt: HostRuntime) -> Result<(), Fail> {
    let alloc = rt.alloc();
    for row in ROWS.iter() {
        let Ok(found) = play(alloc, row.script) else {
            assert!(rt; false);
            return Ok(());
        };
        assert_eq!(rt; found, (row.taken, row.waiting, row.made));
    }
    Ok(())
}

#[test]
fn a_step_waits_if_too_many_changes_wait(rt: HostRuntime) -> Result<(), Fail> {
    assert!(rt; matches!(play(rt.alloc(), b"wswshmmmmm"), Err(Fault::Step)));
    Ok(())
}
