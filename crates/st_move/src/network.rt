// A network of servers between which containers move.
ghost use Rattle.std.specs.Prelude.{◌≡◌, ◌≤◌, ◌<◌, ◌+◌, ◌^◌, IfOk, OnOk, length};
ghost use Rattle.st_move.specs.Network.{AreKept, IsReached, turned};
ghost use Rattle.st_move.specs.World as worlds;

use crate::parts::MoveWorld;
use crate::world::{MoveAnswer, MoveEvent};
use std::alloc::{AllocError, Global};
use std::marker::Model;

/// Servers with containers, their lock tables, and every message that was sent between them.
/// Contracts see it as the world of the definitions and the number of events that led to it.
#[derive(Drop)]
pub struct MoveNetwork {
    parts: MoveWorld,
    events: u64,
    broken: bool,
}

impl Model for MoveNetwork {
    ghost use Rattle.std.specs.Prelude.{◌≡◌, false};
    ghost use Rattle.st_move.specs.Network as shown;
    ghost use Rattle.st_move.specs.Network.{IsReached};

    ghost Value = { shown.MoveNetwork };

    ghost view = { λ n. record { world = n.parts; events = n.events } };

    ghost invariant = { λ n. n.broken ≡ false → IsReached (record { world = n.parts; events = n.events }) };
}

impl MoveNetwork {
    /// Servers 1 to `servers`, of which there is one at least, with containers 1 to `containers`,
    /// fewer than 1,024, as they begin.
    pub fn new(alloc: Global, servers: u16, containers: u32) -> Result<MoveNetwork, AllocError>
        requires some { 1 ≤ servers }
        requires few { containers < 1024 }
        ensures world { IfOk result (λ n. n.world ≡ worlds.fresh_world servers containers) }
        ensures events { IfOk result (λ n. n.events ≡ 0) }
        ensures reached { IfOk result IsReached }
        ensures kept { IfOk result AreKept }
    {
        let parts = MoveWorld::new(alloc, servers, containers)?;
        Ok(MoveNetwork {
            parts,
            events: 0,
            broken: false,
        })
    }

    /// One event happens. The result is what is answered to it, in order. If memory runs out
    /// nothing is known of the network, and every later event runs out of memory too: discard it.
    ///
    /// A put takes the time of a copy of its update, and each 32nd one of a container that of a
    /// pointer for each 32 of its updates. An order, a list and a delivered message take constant
    /// time, since updates are shared; a lock and an unlock that of the lock table; a tick looks at
    /// every container, and takes constant time for an image.
    pub fn happens(&mut self, event: &MoveEvent) -> Result<Vec<MoveAnswer>, AllocError>
        requires { self.old.events < 2 ^ 31 }
        ensures exact { IfOk result (λ v. worlds.happens self.old.world event.now ≡ turned self.new.world v.items) }
        ensures events { OnOk result (self.new.events ≡ self.old.events + 1) }
        ensures reached { OnOk result (IsReached self.new) }
        ensures kept { OnOk result (AreKept self.new) }
    {
        if self.broken {
            return Err(AllocError);
        }
        match self.parts.happens(event) {
            Ok(answers) => {
                self.events += 1;
                Ok(answers)
            }
            Err(error) => {
                self.broken = true;
                Err(error)
            }
        }
    }

    /// Returns how many events happened.
    pub fn event_count(&self) -> u64
        ensures { result ≡ self.now.events }
    {
        self.events
    }

    /// Returns how many messages were sent.
    pub fn sent_count(&self) -> u64
        ensures { result ≡ length self.now.world.sent }
    {
        self.parts.sent_count()
    }
}
