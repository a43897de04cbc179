use st_base::{ClientId, ServerId};
use st_messages::Event;
use st_rules::ClientInput;

/// An event of a world of the third form.
#[derive(Drop)]
pub enum ThirdEvent {
    /// An event that the other forms have too.
    Plain(Event),
    /// A client is asked to leave a server.
    Leave(ClientId, ServerId),
}

/// What a client of the third form takes.
#[derive(Drop)]
pub enum ThirdInput {
    /// What a client of the other forms takes too.
    Plain(ClientInput),
    /// The ask with this number: the client is asked to leave this server.
    Leave(u32, ServerId),
}
