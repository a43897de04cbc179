// The network, and the calls on it.
ghost use Rattle.std.specs.Prelude.{◌≡◌, ◌≤◌, ◌<◌, ◌^◌, ◌+◌, ◌++◌, ◌∷◌, [], true, not, filter, length, option_map, IfOk, IfSome, OnOk, OnErr};
ghost use Rattle.std.specs.List.{list_any};
ghost use Rattle.st_messages.specs.Ranges as fits;
ghost use Rattle.st_world_parts.specs.Pieces as pieces;
ghost use Rattle.st_rules.specs.Admissible.{is_link};
ghost use Rattle.st_rules.specs.World as world;

use crate::cuts;
use crate::places::{MessageEnds, SentPlace, head_of, lose, place_behind, place_of};
use st_base::NodeId;
use st_codec::{CodecRefusal, decode, put_message};
use st_messages::Message;
use st_rules::CutLink;
use std::alloc::{AllocError, Global};
use std::marker::Model;

/// Every message that was sent, by its number from 1, and the directions that are cut. Messages are
/// kept as their spelling, one after another. Contracts see the record of the messages, the cuts
/// and the number of bytes.
#[derive(Drop)]
pub struct Network {
    bytes: Vec<u8>,
    places: Vec<SentPlace>,
    cuts: Vec<CutLink>,
    /// A list whose room the next message is spelled in.
    spelled: Vec<u8>,
}

impl Model for Network {
    ghost use Rattle.std.specs.Prelude.{length};
    ghost use Rattle.st_rules.specs.World.{Net};

    ghost Value = { Net };

    ghost use Rattle.st_world_parts.specs.Pieces.{messages_at, ArePlaces};

    ghost view = { λ n. record { messages = messages_at n.bytes.items n.places.items; cuts = n.cuts.items; bytes = length n.bytes.items } };

    ghost invariant = { λ n. ArePlaces n.bytes.items n.places.items };
}

fn slice_at(bytes: &[u8], place: SentPlace) -> &[u8]
    requires { place.start + place.len ≤ length bytes.now }
    ensures { result.now ≡ pieces.piece bytes.now place }
{
    let start = place.start as usize;
    &bytes[start..start + place.len as usize]
}

fn read(alloc: Global, bytes: &[u8]) -> Result<Message, AllocError>
    requires { pieces.IsSpelled bytes.now }
    ensures message { IfOk result (λ m. m ≡ pieces.message_in bytes.now) }
    ensures fits { IfOk result (λ m. fits.fits m ≡ true) }
{
    match decode(alloc, bytes) {
        Ok(message) => Ok(message),
        Err(CodecRefusal::Memory) => Err(AllocError),
        Err(_) => unreachable!(),
    }
}

impl Network {
    /// Makes a network to which nothing was sent and in which nothing is cut. It does not allocate.
    pub fn new(alloc: Global) -> Network
        ensures { result ≡ world.fresh_net }
    {
        Network {
            bytes: Vec::new(alloc),
            places: Vec::new(alloc),
            cuts: Vec::new(alloc),
            spelled: Vec::new(alloc),
        }
    }

    /// Returns the number of messages.
    pub fn count(&self) -> u64
        ensures count { result ≡ length self.now.messages }
        ensures small { result < 2 ^ 63 }
    {
        self.places.len() as u64
    }

    /// Returns the number of bytes of all messages.
    pub fn bytes(&self) -> u64
        ensures { result ≡ self.now.bytes }
    {
        self.bytes.len() as u64
    }

    /// Returns the nodes of the message of this number, and whether it is lost. It decodes nothing
    /// and does not allocate.
    pub fn head(&self, k: u64) -> Option<MessageEnds>
        ensures { result ≡ option_map pieces.head_of (world.numbered self.now.messages k) }
    {
        head_of(place_of(&self.places, k))
    }

    /// Returns the message of this number, read from its bytes.
    pub fn message(&self, k: u64) -> Result<Option<Message>, AllocError>
        ensures message { IfOk result (λ m. m ≡ option_map pieces.message_sent (world.numbered self.now.messages k)) }
        ensures fits { IfOk result (λ m. IfSome m (λ x. fits.fits x ≡ true)) }
    {
        match place_of(&self.places, k) {
            None => Ok(None),
            Some(place) => {
                let message = read(*self.bytes.allocator(), slice_at(&self.bytes, place))?;
                Ok(Some(message))
            }
        }
    }

    /// Returns the bytes of the message of this number: the one spelling of the message. It does
    /// not allocate.
    pub fn spelled(&self, k: u64) -> Option<&[u8]>
        ensures { option_map (λ b. b.now) result ≡ option_map pieces.spelling_sent (world.numbered self.now.messages k) }
    {
        match place_of(&self.places, k) {
            None => None,
            Some(place) => Some(slice_at(&self.bytes, place)),
        }
    }

    /// Sends a message: it is the last one, and its number is the count of messages. If it runs out
    /// of memory, nothing changes.
    pub fn send(&mut self, message: &Message) -> Result<(), AllocError>
        requires { fits.fits message.now ≡ true }
        ensures ok { OnOk result (self.new ≡ pieces.sent message.now self.old) }
        ensures err { OnErr result (self.new ≡ self.old) }
    {
        self.spelled.clear();
        put_message(&mut self.spelled, message)?;
        let header = &message.header;
        let place = place_behind(self.bytes.len(), self.spelled.len(), header.from, header.to)?;
        self.places.reserve(1)?;
        self.bytes.reserve(self.spelled.len())?;
        self.bytes.extend_from_slice(&self.spelled)?;
        self.places.push(place)?;
        Ok(())
    }

    /// The message of this number is lost. If there is no such message, nothing changes.
    pub fn lose(&mut self, k: u64)
        ensures { self.new ≡ pieces.lost k self.old }
    {
        lose(&mut self.places, k);
    }

    /// Whether no message from the first node to the second is delivered.
    pub fn is_cut(&self, from: NodeId, to: NodeId) -> bool
        ensures { result ≡ list_any (is_link from to) self.now.cuts }
    {
        cuts::is_cut(&self.cuts, from, to)
    }

    /// Cuts the direction from the first node to the second.
    pub fn cut(&mut self, from: NodeId, to: NodeId) -> Result<(), AllocError>
        ensures { OnOk result (self.new ≡ pieces.with_cut from to self.old) }
    {
        cuts::cut(&mut self.cuts, from, to)
    }

    /// Heals the direction from the first node to the second.
    pub fn heal(&mut self, from: NodeId, to: NodeId)
        ensures { self.new ≡ pieces.without_cut from to self.old }
    {
        cuts::heal(&mut self.cuts, from, to);
    }
}
