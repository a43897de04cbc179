// A whole step of a client: losses, the rule for the input, and the passes at each server in turn.
ghost use Rattle.std.specs.Prelude.{◌≡◌, ◌==◌, ◌≤◌, ◌^◌, true, [], IfOk};
ghost use Rattle.st_client.specs.Inputs.{comes_fit};
ghost use Rattle.st_messages.specs.Ranges.{is_ask};
ghost use Rattle.st_rules.specs.Client as client;
ghost use Rattle.st_rules.specs.ClientInvariants.{all_last};
ghost use Rattle.st_rules.specs.ClientPasses as passes;
ghost use Rattle.st_rules.specs.ClientReplies as replies;
ghost use Rattle.st_rules.specs.ClientState as each;

use crate::rules::{Finish, Lose, Passes, Receive, TakeAsk};
use crate::turn::ClientTurn;
use st_base::{PageBytes, ServerId, Stamp, Tag};
use st_messages::{AppAnswer, Ask, Header, Message, Output};
use st_operations::server_of;
use st_rules::ClientInput;
use std::alloc::AllocError;

impl ClientTurn {
    /// The losses.
    #[tactic(auto, unfolding(st_rules::specs::Client::losses), using(crate::proofs::AllLast::losses_last, crate::proofs::AllLast::all_same))]
    pub(crate) fn losses(self, now: Stamp) -> Result<ClientTurn, AllocError>
        ensures rule { IfOk result (λ m. m ≡ client.losses self now) }
        ensures last { IfOk result (λ m. all_last m.state now ≡ true) }
    {
        self.at_each(&Lose { now })
    }

    /// A message, at each server.
    #[tactic(auto, unfolding(st_rules::specs::ClientReplies::receive_here))]
    fn receive_here(self, now: Stamp, message: &Message) -> Result<ClientTurn, AllocError>
        requires last { all_last self.state now ≡ true }
        requires time { now.0 ≤ 2 ^ 62 }
        ensures rule { IfOk result (λ t. t ≡ replies.receive_here self now message.now.header message.now.body) }
        ensures last { IfOk result (λ t. all_last t.state now ≡ true) }
    {
        self.at_each(&Receive { now, message })
    }

    /// Whether a message is addressed to this client.
    fn is_to(&self, header: &Header) -> bool
        ensures { result ≡ (header.now.to == self.now.state.id.0) }
    {
        header.to == self.parts.id.0
    }

    /// A message, if it is addressed to this client.
    #[tactic(auto, unfolding(st_rules::specs::ClientReplies::receive))]
    pub(crate) fn receive(self, now: Stamp, message: &Message) -> Result<ClientTurn, AllocError>
        requires last { all_last self.state now ≡ true }
        requires time { now.0 ≤ 2 ^ 62 }
        ensures rule { IfOk result (λ t. t ≡ replies.receive self now message.now.header message.now.body) }
        ensures last { IfOk result (λ t. all_last t.state now ≡ true) }
    {
        if self.is_to(&message.header) {
            self.receive_here(now, message)
        } else {
            Ok(self)
        }
    }

    /// The end of a disk command.
    #[tactic(auto, unfolding(st_rules::specs::Client::done))]
    pub(crate) fn done(
        self,
        now: Stamp,
        number: u64,
        ended: &Option<Option<(Tag, PageBytes)>>,
    ) -> Result<ClientTurn, AllocError>
        requires last { all_last self.state now ≡ true }
        ensures rule { IfOk result (λ t. t ≡ client.done self number ended.now) }
        ensures last { IfOk result (λ t. all_last t.state now ≡ true) }
    {
        self.at_each(&Finish {
            number,
            result: ended,
        })
    }

    /// An answer at once.
    pub(crate) fn answer_at_once(
        self,
        now: Stamp,
        op: u32,
        answer: AppAnswer,
    ) -> Result<ClientTurn, AllocError>
        requires last { all_last self.state now ≡ true }
        ensures rule { IfOk result (λ t. t ≡ client.answered_at_once self op answer) }
        ensures last { IfOk result (λ t. all_last t.state now ≡ true) }
    {
        let ClientTurn { mut parts } = self;
        parts.out.push(Output::Answer { op, answer })?;
        Ok(ClientTurn { parts })
    }

    /// An ask, at its server.
    pub(crate) fn ask_each(self, now: Stamp, op: u32, ask: &Ask) -> Result<ClientTurn, AllocError>
        requires last { all_last self.state now ≡ true }
        requires fits { is_ask ask.now ≡ true }
        ensures rule { IfOk result (λ t. t ≡ each.at_each (each.only_at (each.server_of ask.now) (client.take_ask op ask.now)) self) }
        ensures last { IfOk result (λ t. all_last t.state now ≡ true) }
    {
        self.at_each(&TakeAsk { op, ask })
    }

    /// Whether the server is one of this world.
    fn is_configured(&self, server: ServerId) -> bool
        ensures { result ≡ client.is_configured self.now.state server }
    {
        let mut found = false;
        for a in self.parts.associations.iter() {
            found = found || a.server().0 == server.0;
        }
        found
    }

    /// Whether no more operations may be pending.
    fn is_full(&self) -> bool
        ensures { result ≡ client.is_full self.now.state }
    {
        self.parts.operations.is_full()
    }

    /// An ask for which there is a place.
    #[tactic(auto, unfolding(st_rules::specs::Client::app_known))]
    fn app_known(self, now: Stamp, op: u32, ask: &Ask) -> Result<ClientTurn, AllocError>
        requires last { all_last self.state now ≡ true }
        requires fits { is_ask ask.now ≡ true }
        ensures rule { IfOk result (λ t. t ≡ client.app_known self op ask.now) }
        ensures last { IfOk result (λ t. all_last t.state now ≡ true) }
    {
        if self.is_configured(server_of(ask)) {
            self.ask_each(now, op, ask)
        } else {
            self.answer_at_once(now, op, AppAnswer::NoFile)
        }
    }

    /// An ask.
    #[tactic(auto, unfolding(st_rules::specs::Client::app))]
    fn app(self, now: Stamp, op: u32, ask: &Ask) -> Result<ClientTurn, AllocError>
        requires last { all_last self.state now ≡ true }
        requires fits { is_ask ask.now ≡ true }
        ensures rule { IfOk result (λ t. t ≡ client.app self op ask.now) }
        ensures last { IfOk result (λ t. all_last t.state now ≡ true) }
    {
        if self.is_full() {
            self.answer_at_once(now, op, AppAnswer::OpsFull)
        } else {
            self.app_known(now, op, ask)
        }
    }

    /// The rule for the input.
    #[tactic(auto, unfolding(st_rules::specs::Client::take_input))]
    fn take_input(self, now: Stamp, input: &ClientInput) -> Result<ClientTurn, AllocError>
        requires last { all_last self.state now ≡ true }
        requires time { now.0 ≤ 2 ^ 62 }
        requires fits { comes_fit input.now ≡ true }
        ensures rule { IfOk result (λ t. t ≡ client.take_input self now input.now) }
        ensures last { IfOk result (λ t. all_last t.state now ≡ true) }
    {
        match input {
            ClientInput::Tick => Ok(self),
            ClientInput::App { op, ask } => self.app(now, *op, ask),
            ClientInput::Control(message) => self.receive(now, message),
            ClientInput::Done { command, result } => self.done(now, *command, result),
        }
    }

    /// The passes at each server.
    #[tactic(auto, unfolding(st_rules::specs::Client::work))]
    pub(crate) fn work(self, now: Stamp, tick: bool) -> Result<ClientTurn, AllocError>
        requires last { all_last self.state now ≡ true }
        ensures rule { IfOk result (λ t. t ≡ each.at_each (passes.passes now tick) self) }
    {
        self.at_each(&Passes { now, tick })
    }

    /// The losses, the rule for the input, and then the passes at each server in turn.
    #[tactic(auto, unfolding(st_rules::specs::Client::client_step, st_rules::specs::Client::work))]
    pub(crate) fn step(self, now: Stamp, input: &ClientInput) -> Result<ClientTurn, AllocError>
        requires time { now.0 ≤ 2 ^ 62 }
        requires fits { comes_fit input.now ≡ true }
        requires empty { self.out ≡ [] }
        ensures { IfOk result (λ t. t ≡ client.client_step self.state now input.now) }
    {
        let tick = is_tick(input);
        let machine = self.losses(now)?;
        let machine = machine.take_input(now, input)?;
        machine.work(now, tick)
    }
}

/// Whether time passed.
fn is_tick(input: &ClientInput) -> bool
    ensures { result ≡ client.is_tick input.now }
{
    match input {
        ClientInput::Tick => true,
        _ => false,
    }
}
