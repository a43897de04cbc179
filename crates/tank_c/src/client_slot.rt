// The pointer to a client on the heap, in a form that C can keep.
ghost use Rattle.std.specs.Prelude.{◌≡◌, Option, Some, None, IsSome};
ghost use Rattle.st_embed.specs.Clients.{EmbeddedClient};
ghost use Rattle.tank_c.specs.Slots.{client_owns};

use crate::box_pointer::BoxPointer;
use st_embed::EmbeddedClient;
use std::alloc::Global;
use std::marker::Model;

/// The place of a client, or null.
#[repr(C)]
#[derive(Drop)]
pub struct ClientSlot {
    at: *mut (),
    pub ghost value: { Option EmbeddedClient },
}

impl Model for ClientSlot {
    ghost also_owns = { λ s. client_owns s.at s.value };
}

impl ClientSlot {
    pub(crate) fn empty() -> ClientSlot
        ensures { result.value ≡ None }
    {
        ClientSlot {
            at: std::ptr::null_mut(),
        }
    }

    pub(crate) fn of(client: BoxPointer<EmbeddedClient, Global>) -> ClientSlot
        ensures { result.value ≡ Some client.value }
    {
        let BoxPointer { at, alloc: _ } = client;
        ClientSlot { at: at as *mut () }
    }

    pub(crate) fn into_loose(self, alloc: Global) -> BoxPointer<EmbeddedClient, Global>
        requires { IsSome self.value }
        ensures { Some result.value ≡ self.value }
    {
        let ClientSlot { at } = self;
        BoxPointer {
            at: at as *mut EmbeddedClient,
            alloc,
        }
    }
}
