// A client that runs, between its steps.
ghost use Rattle.std.specs.Prelude.{◌≡◌, ◌≤◌, ◌+◌, ◌^◌, ◌++◌, [], true, map, length, vec_len, vec_capacity, ◌∷◌, ◌<◌, IsOk, IfOk};
ghost use Rattle.std.specs.List.{list_all};
ghost use Rattle.std.specs.Option.{option_copied, option_map};
ghost use Rattle.st_base.specs.Config as settings;
ghost use Rattle.st_base.specs.declared.ids.ServerId.{ServerId};
ghost use Rattle.st_base.specs.Nodes.{HasNode};
ghost use Rattle.st_client.specs.Ends.{end_in};
ghost use Rattle.st_client.specs.Inputs.{comes_fit};
ghost use Rattle.st_client.specs.Nodes.{association_told, is_server, server_at, with_more};
ghost use Rattle.st_client.specs.Room.{HasRoom, has_room};
ghost use Rattle.st_rules.specs.Client as client;
ghost use Rattle.st_rules.specs.ClientState.{client_turn};
ghost use Rattle.st_rules.specs.World as world;

use crate::ends::LeaseEnds;
use crate::parts::ClientParts;
use crate::turn::ClientTurn;
use st_base::{ClientId, Config, Life, ServerId, Stamp};
use st_client_association::Association;
use st_messages::Outputs;
use st_operations::Operations;
use st_rules::{ClientInput, LeaseLife, Phase};
use std::alloc::{AllocError, Global};
use std::marker::Model;
use std::mem;

/// A client that runs, between its steps. Contracts see the definitions' client.
#[derive(Drop)]
pub struct ClientState {
    pub(crate) parts: Box<ClientParts>,
}

impl Model for ClientState {
    ghost use Rattle.st_client.specs.Machines.{client_of};
    ghost use Rattle.st_client.specs.Nodes.{IsResting};
    ghost use Rattle.st_rules.specs.ClientState as shared;

    ghost Value = { shared.ClientState };

    ghost view = { λ s. client_of s.parts.value };

    ghost invariant = { λ s. IsResting s.parts.value };
}

impl ClientState {
    /// A step begins.
    fn begin(self) -> ClientTurn
        requires { HasRoom self }
        ensures { result ≡ client_turn self [] }
    {
        let ClientState { parts } = self;
        ClientTurn { parts }
    }

    /// A step: what it leaves, and its outputs.
    #[inline(always)]
    pub(crate) fn step(
        self,
        now: Stamp,
        input: &ClientInput,
    ) -> Result<(ClientState, Outputs), AllocError>
        requires time { now.0 ≤ 2 ^ 62 }
        requires fits { comes_fit input.now ≡ true }
        requires room { HasRoom self }
        ensures { IfOk result (λ r. client_turn r.0 r.1 ≡ client.client_step self now input.now) }
    {
        let machine = self.begin().step(now, input)?;
        Ok(machine.rest())
    }

    /// The servers, in order.
    pub(crate) fn servers(&self) -> Result<Vec<ServerId>, AllocError>
        ensures { IfOk result (λ v. v.items ≡ map server_at self.now.associations) }
    {
        let mut servers = Vec::new(self.parts.alloc);
        for a in self.parts.associations.iter() {
            servers.push(a.server())?;
        }
        Ok(servers)
    }

    /// Writes the lives anew, in place of those that were there.
    pub(crate) fn tell_lives(&self, lives: &mut Vec<Life>)
        requires { length self.now.associations ≤ vec_capacity lives.old }
        ensures told { lives.new.items ≡ client.lives self.now }
        ensures room { vec_capacity lives.new ≡ vec_capacity lives.old }
    {
        lives.clear();
        for a in self.parts.associations.iter() {
            lives.push_reserved(a.life());
        }
    }

    /// Whether a step may be taken, as far as the counters go.
    pub(crate) fn has_room(&self) -> bool
        ensures { result ≡ has_room self.now }
    {
        let mut each = true;
        for a in self.parts.associations.iter() {
            each = each && a.has_room();
        }
        self.parts.next_command < 4_611_686_018_427_387_904 && each
    }

    /// The association with a server.
    pub(crate) fn at(&self, server: ServerId) -> Option<&Association>
        ensures { option_copied result ≡ option_map (association_told self.now.id self.now.config) (client.association_with self.now server) }
    {
        for a in self.parts.associations.iter() {
            if a.server().0 == server.0 {
                return Some(a);
            }
        }
        None
    }

    /// The phase of the lease at a server, if one is held.
    pub(crate) fn phase(&self, server: ServerId, now: Stamp) -> Option<Phase>
        ensures { result ≡ client.phase_with self.now server now }
    {
        match self.at(server) {
            Some(a) => a.phase(now),
            None => None,
        }
    }

    /// The end of the lease at a server, if one is held.
    pub(crate) fn lease_end(&self, server: ServerId) -> Option<Stamp>
        ensures { result ≡ client.lease_end_with self.now server }
    {
        match self.at(server) {
            Some(a) => a.lease_end(),
            None => None,
        }
    }

    /// How many servers there are.
    pub fn count(&self) -> usize
        ensures { result ≡ length self.now.associations }
    {
        self.parts.associations.len()
    }

    /// The ends of the leases at all servers.
    pub(crate) fn lease_ends(&self) -> LeaseEnds
        requires { list_all is_server (map server_at self.now.associations) ≡ true }
        ensures { (s : ServerId) → end_in result s ≡ client.lease_end_with self.now s }
    {
        let mut ends = LeaseEnds::none();
        let mut i = self.count();
        while i > 0 {
            i -= 1;
            let a = &self.parts.associations[i];
            ends.put(a.server(), a.lease_end());
        }
        ends
    }

    /// Whether a page of the server is dirty.
    pub(crate) fn has_dirty(&self, server: ServerId) -> bool
        ensures { result ≡ client.has_dirty_with self.now server }
    {
        match self.at(server) {
            Some(a) => a.has_dirty(),
            None => false,
        }
    }

    /// Adds its present lives, with the ends of their leases, for which the list has room.
    pub(crate) fn push_lives(&self, found: &mut Vec<LeaseLife>)
        requires { vec_len found.old + length self.now.associations ≤ vec_capacity found.old }
        ensures { found.new.items ≡ found.old.items ++ world.lives_of self.now }
    {
        for a in self.parts.associations.iter() {
            found.push_reserved(LeaseLife {
                client: self.parts.id,
                server: a.server(),
                life: a.life(),
                end: a.lease_end(),
                crashed: false,
            });
        }
    }

    /// A client without servers.
    pub(crate) fn new(
        alloc: Global,
        id: ClientId,
        config: &Config,
    ) -> Result<ClientState, AllocError>
        ensures { IfOk result (λ s. s ≡ record { id = id; config = config.now; associations = []; operations = []; next_command = 1 }) }
    {
        let parts = ClientParts {
            alloc,
            id,
            config: *config,
            associations: Vec::new(alloc),
            operations: Operations::new(alloc),
            next_command: 1,
            out: Vec::new(alloc),
        };
        Ok(ClientState {
            parts: Box::new(alloc, parts)?,
        })
    }

    /// One more server, of which the client has nothing in this life.
    pub(crate) fn with_server(self, server: ServerId, life: Life) -> Result<ClientState, AllocError>
        requires checked { IsOk (settings.check self.config) }
        requires node { HasNode server }
        ensures { IfOk result (λ s. s ≡ with_more (client.association_of life server ∷ []) self) }
    {
        let ClientState { mut parts } = self;
        let here: &mut ClientParts = &mut parts;
        let a = Association::new(here.alloc, here.id, &here.config, server, life)?;
        here.associations.push(a)?;
        Ok(ClientState { parts })
    }
}

impl ClientTurn {
    /// A step ends: what the machine rests in, and its outputs.
    pub(crate) fn rest(self) -> (ClientState, Outputs)
        ensures { client_turn result.0 result.1 ≡ self }
    {
        let ClientTurn { mut parts } = self;
        let here: &mut ClientParts = &mut parts;
        let out = mem::replace(&mut here.out, Vec::new(here.alloc));
        let state = ClientState { parts };
        (state, Outputs::from_vec(out))
    }
}
