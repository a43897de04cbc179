ghost use Rattle.std.specs.Prelude.{◌≡◌, IfOk};

use st_messages::Message;
use std::alloc::AllocError;

/// An input of a server.
#[derive(Drop)]
pub enum ServerInput {
    /// Time passed.
    Tick,
    Control(Message),
}

impl ServerInput {
    /// Returns a copy of the input.
    pub fn copy(&self) -> Result<ServerInput, AllocError>
        ensures { IfOk result (λ i. i ≡ self.now) }
    {
        match self {
            ServerInput::Tick => Ok(ServerInput::Tick),
            ServerInput::Control(message) => Ok(ServerInput::Control(message.copy()?)),
        }
    }
}
