// What a rule puts out: notes, answers and messages.
ghost use Rattle.std.specs.Prelude.{◌≡◌, ◌<◌, ◌^◌, OnOk, length};
ghost use Rattle.st_rules.specs.ClientState as client;

use crate::session_turn::SessionTurn;
use crate::turn::Turn;
use st_messages::{AppAnswer, Body, Header, Message, Note, Output};
use std::alloc::AllocError;

/// How many outputs there are.
pub(crate) fn count(out: &Vec<Output>) -> usize
    ensures len { result ≡ length out.now.items }
    ensures small { result < 2 ^ 63 }
{
    out.len()
}

impl Turn {
    pub(crate) fn say(&mut self, output: Output) -> Result<(), AllocError>
        ensures { OnOk result (self.new ≡ client.say self.old output) }
    {
        self.out.push(output)?;
        Ok(())
    }

    /// One more note.
    pub fn note(&mut self, note: Note) -> Result<(), AllocError>
        ensures { OnOk result (self.new ≡ client.note self.old note) }
    {
        self.say(Output::Note(note))
    }

    /// One more answer.
    pub fn answer(&mut self, op: u32, answer: AppAnswer) -> Result<(), AllocError>
        ensures { OnOk result (self.new ≡ client.answered self.old op answer) }
    {
        self.say(Output::Answer { op, answer })
    }

    /// What precedes a message to the server.
    fn header(&self, epoch: u64, number: u64, stamp: u64) -> Header
        ensures { result ≡ client.header_of self.now epoch number stamp }
    {
        Header {
            from: self.here.id.0,
            to: self.here.server.node(),
            life: self.here.life.0,
            epoch,
            number,
            stamp,
        }
    }

    /// One more message to the server.
    #[tactic(auto, unfolding(st_rules::specs::ClientState::send))]
    pub fn send(
        &mut self,
        epoch: u64,
        number: u64,
        stamp: u64,
        body: Body,
    ) -> Result<(), AllocError>
        ensures { OnOk result (self.new ≡ client.send self.old epoch number stamp body) }
    {
        let header = self.header(epoch, number, stamp);
        self.say(Output::Send(Message { header, body }))
    }
}

impl SessionTurn {
    /// One more note.
    pub fn note(&mut self, note: Note) -> Result<(), AllocError>
        ensures { OnOk result (self.new ≡ client.note self.old note) }
    {
        let turn = &mut self.turn;
        turn.out.push(Output::Note(note))?;
        Ok(())
    }

    /// One more message to the server.
    #[tactic(auto, unfolding(st_rules::specs::ClientState::send))]
    pub fn send(
        &mut self,
        epoch: u64,
        number: u64,
        stamp: u64,
        body: Body,
    ) -> Result<(), AllocError>
        ensures { OnOk result (self.new ≡ client.send self.old epoch number stamp body) }
    {
        let turn = &mut self.turn;
        let header = turn.header(epoch, number, stamp);
        turn.out.push(Output::Send(Message { header, body }))?;
        Ok(())
    }
}
