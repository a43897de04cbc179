// The pointer to a server on the heap, in a form that C can keep.
ghost use Rattle.std.specs.Prelude.{◌≡◌, Option, Some, None, IsSome};
ghost use Rattle.st_embed.specs.Servers.{EmbeddedServer};
ghost use Rattle.tank_c.specs.Slots.{server_owns};

use crate::box_pointer::BoxPointer;
use st_embed::EmbeddedServer;
use std::alloc::Global;
use std::marker::Model;

/// The place of a server, or null.
#[repr(C)]
#[derive(Drop)]
pub struct ServerSlot {
    at: *mut (),
    pub ghost value: { Option EmbeddedServer },
}

impl Model for ServerSlot {
    ghost also_owns = { λ s. server_owns s.at s.value };
}

impl ServerSlot {
    pub(crate) fn empty() -> ServerSlot
        ensures { result.value ≡ None }
    {
        ServerSlot {
            at: std::ptr::null_mut(),
        }
    }

    pub(crate) fn of(server: BoxPointer<EmbeddedServer, Global>) -> ServerSlot
        ensures { result.value ≡ Some server.value }
    {
        let BoxPointer { at, alloc: _ } = server;
        ServerSlot { at: at as *mut () }
    }

    pub(crate) fn into_loose(self, alloc: Global) -> BoxPointer<EmbeddedServer, Global>
        requires { IsSome self.value }
        ensures { Some result.value ≡ self.value }
    {
        let ServerSlot { at } = self;
        BoxPointer {
            at: at as *mut EmbeddedServer,
            alloc,
        }
    }
}
