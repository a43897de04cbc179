// The ends of a client's leases.
ghost use Rattle.std.specs.Prelude.{◌≡◌, ◌≤◌, ◌∷◌, [], None, cond};
ghost use Rattle.st_base.specs.declared.ids.ServerId.{ServerId};
ghost use Rattle.st_client.specs.Ends.{end_in};
ghost use Rattle.st_rules.specs.Keys.{same_server};

use st_base::{ServerId, Stamp};

/// The ends of a client's leases, by server.
#[derive(Clone, Copy)]
pub struct LeaseEnds {
    pub ends: [Option<Stamp>; 4],
}

impl LeaseEnds {
    /// No lease is held.
    pub(crate) fn none() -> LeaseEnds
        ensures { result ≡ record { ends = None ∷ None ∷ None ∷ None ∷ [] } }
    {
        LeaseEnds {
            ends: [None, None, None, None],
        }
    }

    /// The lease at a server has this end.
    pub(crate) fn put(&mut self, server: ServerId, end: Option<Stamp>)
        requires first { 1 ≤ server.0 }
        requires last { server.0 ≤ 4 }
        ensures { (s : ServerId) → end_in self.new s ≡ cond (same_server server s) end (end_in self.old s) }
    {
        self.ends[(server.0 - 1) as usize] = end;
    }

    /// The end of the lease at a server.
    pub fn at(&self, server: ServerId) -> Option<Stamp>
        ensures { result ≡ end_in self.now server }
    {
        if server.0 == 0 || server.0 > 4 {
            return None;
        }
        self.ends[(server.0 - 1) as usize]
    }
}
