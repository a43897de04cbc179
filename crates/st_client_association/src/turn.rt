ghost use Rattle.std.specs.Prelude.{◌≡◌, ◌+◌, ◌<◌, ◌≤◌, ◌^◌};
ghost use Rattle.st_client_association.specs.Turns.{has_session, most_of};
ghost use Rattle.st_rules.specs.ClientLease as leases;
ghost use Rattle.st_rules.specs.ClientPasses as passes;
ghost use Rattle.st_rules.specs.ClientReplies as replies;
ghost use Rattle.st_rules.specs.Keys.{server_node};

use crate::association::AssociationParts;
use st_base::{ClientId, Config, Epoch, FileId, Life, ServerId, Stamp};
use st_client_session::Session;
use st_messages::Output;
use st_operations::Operations;
use std::alloc::Global;
use std::marker::Model;

/// A step so far, at one server: what the client has of the server, its pending operations, and the
/// outputs. Contracts see it as the definitions' turn.
#[derive(Drop)]
pub struct Turn {
    pub(crate) alloc: Global,
    pub(crate) here: Box<AssociationParts>,
    pub(crate) operations: Operations,
    pub(crate) next_command: u64,
    pub(crate) out: Vec<Output>,
}

impl Model for Turn {
    ghost use Rattle.std.specs.Prelude.{option_map};
    ghost use Rattle.st_client_association.specs.Turns.{IsTurn, told_session};
    ghost use Rattle.st_rules.specs.ClientState as shared;

    ghost Value = { shared.Turn };

    ghost view = { λ t. record {
      id = t.here.value.id;
      config = t.here.value.config;
      here = record {
        server = t.here.value.server;
        life = t.here.value.life;
        greeting = t.here.value.greeting;
        session = option_map told_session t.here.value.session;
        store = t.here.value.store.store;
        lost = t.here.value.lost;
      };
      operations = t.operations;
      next_command = t.next_command;
      out = t.out.items;
    } };

    ghost invariant = { λ t. IsTurn t.here.value.id t.here.value.config t.here.value.server t.here.value.life t.here.value.session t.here.value.store t.next_command t.out.items };
}

impl Turn {
    /// The allocator.
    pub fn alloc(&self) -> Global {
        self.alloc
    }

    /// The client's number.
    pub fn id(&self) -> ClientId
        ensures { result ≡ self.now.id }
    {
        self.here.id
    }

    /// The settings.
    pub fn config(&self) -> &Config
        ensures { result.now ≡ self.now.config }
    {
        &self.here.config
    }

    /// The server.
    pub fn server(&self) -> ServerId
        ensures { result ≡ self.now.here.server }
    {
        self.here.server
    }

    /// The life at the server.
    pub fn life(&self) -> Life
        ensures life { result ≡ self.now.here.life }
        ensures below { self.now.here.life.0 < most_of self.now.out }
    {
        self.here.life
    }

    /// How long an unanswered message stays before it is sent again.
    pub fn retry(&self) -> u64
        ensures { result ≡ self.now.config.retry }
    {
        self.here.config.retry
    }

    /// The client greeted now.
    pub fn set_greeting(&mut self, now: Stamp)
        ensures { self.new ≡ passes.with_greeting now self.old }
    {
        self.here.greeting = Some(now);
    }

    /// When the client greeted, if it waits for an answer.
    pub fn greeting(&self) -> Option<Stamp>
        ensures { result ≡ self.now.here.greeting }
    {
        self.here.greeting
    }

    /// A file of the server.
    pub fn file(&self, ino: u32) -> FileId
        ensures { result ≡ passes.file self.now ino }
    {
        FileId {
            server: self.here.server,
            ino,
        }
    }

    /// The server's number as a node.
    pub fn node(&self) -> u16
        ensures { result ≡ server_node self.now.here.server }
    {
        self.here.server.node()
    }

    /// A session begins in this epoch. Its lease has this stamp, and is not over yet; this returns
    /// the moment from which it is.
    pub fn begin_session(&mut self, epoch: Epoch, stamp: Stamp, now: Stamp) -> Stamp
        requires past { stamp.0 ≤ now.0 }
        requires living { now.0 < stamp.0 + self.old.config.lease }
        requires reading { now.0 ≤ 2 ^ 62 }
        ensures end { result ≡ leases.end_of self.old.config (leases.new_lease stamp) }
        ensures begun { self.new ≡ replies.begin_here (replies.new_session epoch stamp) self.old }
    {
        let here = &mut *self.here;
        let session = Session::begin(
            self.alloc,
            here.id,
            here.server,
            here.life,
            &here.config,
            epoch,
            stamp,
            now,
        );
        let end = session.end();
        here.greeting = None;
        here.session = Some(session);
        end
    }

    /// Whether there is a session.
    pub(crate) fn has_session(&self) -> bool
        ensures { result ≡ has_session self.now }
    {
        self.here.session.is_some()
    }
}
