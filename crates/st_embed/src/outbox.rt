// Bytes that must be taken out.
ghost use Rattle.std.specs.Prelude.{◌≡◌, ◌++◌, [], true, OnOk, OnErr, length};
ghost use Rattle.st_embed.specs.FramePieces.{Takes, are_sent, frames_of};

use st_base::ClientId;
use st_messages::Output;
use st_node::{put_client_outputs, put_server_outputs};
use std::alloc::{AllocError, Global};
use std::marker::Model;

/// Whose outputs they are.
#[derive(Clone, Copy)]
pub enum Sender {
    Client(ClientId),
    Server,
}

/// Bytes that must be taken out, the first ones first. Contracts see those that are left.
#[derive(Drop)]
pub(crate) struct Outbox {
    bytes: Vec<u8>,
    taken: usize,
}

impl Model for Outbox {
    ghost use Rattle.std.specs.Prelude.{List, ℕ, ◌≤◌, drop, length};

    ghost Value = { List ℕ };

    ghost view = { λ o. drop o.taken o.bytes.items };

    ghost invariant = { λ o. o.taken ≤ length o.bytes.items };
}

/// Appends the frames of these outputs, in order.
fn put_frames(out: &mut Vec<u8>, sender: Sender, outputs: &[Output]) -> Result<(), AllocError>
    requires sent { are_sent sender outputs.now ≡ true }
    ensures { OnOk result (out.new.items ≡ out.old.items ++ frames_of sender outputs.now) }
{
    match sender {
        Sender::Client(id) => put_client_outputs(out, id, outputs),
        Sender::Server => put_server_outputs(out, outputs),
    }
}

impl Outbox {
    /// Nothing is left. It does not allocate.
    pub(crate) fn new(alloc: Global) -> Outbox
        ensures { result ≡ [] }
    {
        Outbox {
            bytes: Vec::new(alloc),
            taken: 0,
        }
    }

    /// How many bytes are left.
    pub(crate) fn len(&self) -> usize
        ensures { result ≡ length self.now }
    {
        self.bytes.len() - self.taken
    }

    /// Takes the first bytes out, as many as there is room for, and returns how many.
    pub(crate) fn take(&mut self, out: &mut [u8]) -> usize
        ensures { Takes self.old self.new out.old out.new result }
    {
        let n = out.len().min(self.bytes.len() - self.taken);
        out[..n].copy_from_slice(&self.bytes[self.taken..self.taken + n]);
        self.taken += n;
        n
    }

    /// The frames of these outputs take the place of what was left. An error leaves nothing.
    pub(crate) fn put(&mut self, sender: Sender, outputs: &[Output]) -> Result<(), AllocError>
        requires sent { are_sent sender outputs.now ≡ true }
        ensures ok { OnOk result (self.new ≡ frames_of sender outputs.now) }
        ensures err { OnErr result (self.new ≡ []) }
    {
        self.bytes.clear();
        self.taken = 0;
        match put_frames(&mut self.bytes, sender, outputs) {
            Ok(()) => Ok(()),
            Err(fault) => {
                self.bytes.clear();
                Err(fault)
            }
        }
    }
}
