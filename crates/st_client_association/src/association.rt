ghost use Rattle.std.specs.Prelude.{◌≡◌, ◌<◌, IsOk, IfOk};
ghost use Rattle.st_base.specs.Config as settings;
ghost use Rattle.st_base.specs.Nodes.{HasNode};
ghost use Rattle.st_client_association.specs.Associations.{IsCounted, left_as};
ghost use Rattle.st_rules.specs.Client as client;

use crate::turn::Turn;
use st_base::{ClientId, Config, Life, ServerId, Stamp};
use st_client_session::Session;
use st_client_store::{LostPages, Store};
use st_messages::Output;
use st_operations::Operations;
use std::alloc::{AllocError, Global};
use std::marker::Model;

/// What an association is made of. It stays where it is while a step takes the association and
/// gives it back.
#[derive(Drop)]
pub(crate) struct AssociationParts {
    pub(crate) id: ClientId,
    pub(crate) config: Config,
    pub(crate) server: ServerId,
    pub(crate) life: Life,
    pub(crate) greeting: Option<Stamp>,
    pub(crate) session: Option<Session>,
    pub(crate) store: Store,
    pub(crate) lost: LostPages,
}

/// What a client has of one server. Contracts see the client, the settings, and the definitions'
/// association.
#[derive(Drop)]
pub struct Association {
    pub(crate) here: Box<AssociationParts>,
}

impl Model for Association {
    ghost use Rattle.std.specs.Prelude.{option_map};
    ghost use Rattle.st_client_association.specs.Associations.{ClientAssociation, IsAssociation};
    ghost use Rattle.st_client_association.specs.Turns.{told_session};

    ghost Value = { ClientAssociation };

    ghost view = { λ a. record {
      id = a.here.value.id;
      config = a.here.value.config;
      here = record {
        server = a.here.value.server;
        life = a.here.value.life;
        greeting = a.here.value.greeting;
        session = option_map told_session a.here.value.session;
        store = a.here.value.store.store;
        lost = a.here.value.lost;
      };
    } };

    ghost invariant = { λ a. IsAssociation a.here.value.id a.here.value.config a.here.value.server a.here.value.life a.here.value.session a.here.value.store };
}

impl Association {
    /// A client in this life at the server, without anything of it. The server's number is below
    /// 32,768.
    pub fn new(
        alloc: Global,
        id: ClientId,
        config: &Config,
        server: ServerId,
        life: Life,
    ) -> Result<Association, AllocError>
        requires checked { IsOk (settings.check config.now) }
        requires node { HasNode server }
        ensures { IfOk result (λ a. a ≡ record { id = id; config = config.now; here = client.association_of life server }) }
    {
        let parts = AssociationParts {
            id,
            config: *config,
            server,
            life,
            greeting: None,
            session: None,
            store: Store::new(alloc, server)?,
            lost: LostPages::new(alloc),
        };
        Ok(Association {
            here: Box::new(alloc, parts)?,
        })
    }

    /// The server.
    pub fn server(&self) -> ServerId
        ensures { result ≡ self.now.here.server }
    {
        self.here.server
    }

    /// A step at this association begins, with the pending operations, the next command's number
    /// and the outputs so far.
    pub fn enter(
        self,
        alloc: Global,
        operations: Operations,
        next_command: u64,
        out: Vec<Output>,
    ) -> Turn
        requires counted { IsCounted self.here next_command out.items }
        ensures { result ≡ record { id = self.id; config = self.config; here = self.here; operations = operations; next_command = next_command; out = out.items } }
    {
        let Association { here } = self;
        Turn {
            alloc,
            here,
            operations,
            next_command,
            out,
        }
    }
}

impl Turn {
    /// The step leaves the association: it returns this, the pending operations, the next command's
    /// number and the outputs.
    pub fn leave(self) -> (Association, Operations, u64, Vec<Output>)
        ensures left { left_as result.0 result.1 result.2 result.3.items ≡ self }
        ensures counted { IsCounted result.0.here result.2 result.3.items }
    {
        let Turn {
            alloc: _,
            here,
            operations,
            next_command,
            out,
        } = self;
        (Association { here }, operations, next_command, out)
    }
}
