// The rules at each server: losses, messages, asks, ends of commands, and the passes.
ghost use Rattle.std.specs.Prelude.{◌≡◌, ◌==◌, true};
ghost use Rattle.st_rules.specs.Keys.{same_server, server_node};

use crate::rule::Rule;
use st_base::{PageBytes, ServerId, Stamp, Tag};
use st_client_association::{Association, Turn};
use st_client_passes::passes;
use st_client_rules::{finish, lose, receive_at, take_ask};
use st_messages::{Ask, Header, Message};
use st_operations::{Operations, server_of};
use std::alloc::AllocError;

/// Whether a message is from a server.
fn is_from(header: &Header, server: ServerId) -> bool
    ensures { result ≡ (header.now.from == server_node server) }
{
    u32::from(header.from) == server.node_as_u32()
}

/// Whether two servers are the same.
fn is_same(a: ServerId, b: ServerId) -> bool
    ensures { result ≡ same_server a b }
{
    a.0 == b.0
}

/// The loss.
#[derive(Clone, Copy)]
pub struct Lose {
    pub now: Stamp,
}

impl Rule for Lose {
    ghost use Rattle.std.specs.Prelude.{true};
    ghost use Rattle.st_rules.specs.Client as client;

    ghost run = { λ r t. client.lose r.now t };

    ghost is_ready = { λ r k a. true };

    fn touches(&self, a: &Association, _operations: &Operations) -> bool {
        a.is_over(self.now)
    }

    fn apply(&self, turn: Turn) -> Result<Turn, AllocError> {
        lose(turn, self.now)
    }
}

/// The end of a disk command.
#[derive(Clone, Copy)]
pub struct Finish<'a> {
    pub number: u64,
    pub result: &'a Option<Option<(Tag, PageBytes)>>,
}

impl<'a> Rule for Finish<'a> {
    ghost use Rattle.std.specs.Prelude.{true};
    ghost use Rattle.st_rules.specs.Client as client;

    ghost run = { λ r t. client.finish r.number r.result.now t };

    ghost is_ready = { λ r k a. true };

    fn touches(&self, a: &Association, _operations: &Operations) -> bool {
        a.has_command(self.number)
    }

    fn apply(&self, mut turn: Turn) -> Result<Turn, AllocError> {
        finish(&mut turn, self.number, self.result)?;
        Ok(turn)
    }
}

/// A message.
#[derive(Clone, Copy)]
pub struct Receive<'a> {
    pub now: Stamp,
    pub message: &'a Message,
}

impl<'a> Rule for Receive<'a> {
    ghost use Rattle.std.specs.Prelude.{◌&&◌, ◌^◌, nat_le};
    ghost use Rattle.st_rules.specs.ClientInvariants.{lasts_here};
    ghost use Rattle.st_rules.specs.ClientReplies as replies;

    ghost run = { λ r t. replies.receive_at r.now r.message.now.header r.message.now.body t };

    ghost is_ready = { λ r k a. nat_le r.now.0 (2 ^ 62) && lasts_here k r.now a };

    fn touches(&self, a: &Association, _operations: &Operations) -> bool {
        is_from(&self.message.header, a.server())
    }

    fn apply(&self, turn: Turn) -> Result<Turn, AllocError> {
        receive_at(turn, self.now, self.message.header, &self.message.body)
    }
}

/// The passes.
#[derive(Clone, Copy)]
pub struct Passes {
    pub now: Stamp,
    pub tick: bool,
}

impl Rule for Passes {
    ghost use Rattle.st_rules.specs.ClientInvariants.{lasts_here};
    ghost use Rattle.st_rules.specs.ClientPasses as passes;

    ghost run = { λ r t. passes.passes r.now r.tick t };

    ghost is_ready = { λ r k a. lasts_here k r.now a };

    fn touches(&self, a: &Association, operations: &Operations) -> bool {
        let server = a.server();
        let all = a.takes_all(self.now, self.tick);
        operations.any_may_act(server, all) || a.is_awake(self.now, self.tick)
    }

    fn apply(&self, turn: Turn) -> Result<Turn, AllocError> {
        passes(turn, self.now, self.tick)
    }
}

/// An ask.
#[derive(Clone, Copy)]
pub struct TakeAsk<'a> {
    pub op: u32,
    pub ask: &'a Ask,
}

impl<'a> Rule for TakeAsk<'a> {
    ghost use Rattle.st_messages.specs.Ranges.{is_ask};
    ghost use Rattle.st_rules.specs.Client as client;
    ghost use Rattle.st_rules.specs.ClientState.{only_at, server_of};

    ghost run = { λ r t. only_at (server_of r.ask.now) (client.take_ask r.op r.ask.now) t };

    ghost is_ready = { λ r k a. is_ask r.ask.now };

    fn touches(&self, a: &Association, _operations: &Operations) -> bool {
        is_same(a.server(), server_of(self.ask))
    }

    #[tactic(auto, unfolding(st_rules::specs::ClientState::only_at))]
    fn apply(&self, mut turn: Turn) -> Result<Turn, AllocError> {
        if turn.server().0 == server_of(self.ask).0 {
            take_ask(&mut turn, self.op, self.ask.copy()?)?;
            Ok(turn)
        } else {
            Ok(turn)
        }
    }
}
