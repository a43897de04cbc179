// Notes of nodes, and the outputs of a step.
ghost use Rattle.std.specs.Prelude.{◌≡◌, ◌≤◌, ◌<◌, ◌+◌, ◌^◌, ◌-◌, true, OnOk, length};
ghost use Rattle.std.specs.List.{list_all};
ghost use Rattle.st_client.specs.Inputs.{is_sent};
ghost use Rattle.st_rules.specs.ClientState.{ClientState};
ghost use Rattle.st_rules.specs.Events as events;
ghost use Rattle.st_server.specs.Invariants as sound;
ghost use Rattle.st_world_events.specs.Ends.{HasEnds};
ghost use Rattle.st_world_events.specs.OutputEffects.{Keeps, SameNodes};

use crate::turn::WorldTurn;
use st_base::{ClientId, FileId, Life, PageBytes, PageNo, ServerId};
use st_client::LeaseEnds;
use st_messages::{Note, Output, Outputs, PatchBytes};
use st_rules::{LeaseLife, Observation};
use std::alloc::AllocError;

impl WorldTurn {
    /// An accepted write joins the log.
    #[tactic(auto, unfolding(st_rules::specs::Events::accepts))]
    fn accept(
        &mut self,
        client: ClientId,
        file: FileId,
        page: PageNo,
        bytes: PageBytes,
    ) -> Result<(), AllocError>
        ensures exact { OnOk result (self.new ≡ events.accepts self.old client file page bytes) }
        ensures kept { Keeps self.old self.new }
    {
        let life = self.present_life(client, file.server);
        let index = self.log.accept(client, life, file, page, &bytes)?;
        self.observe(Observation::Wrote {
            index,
            client,
            file,
            page,
            bytes,
        })
    }

    /// An accepted patch joins the log.
    #[tactic(auto, unfolding(st_rules::specs::Events::patches))]
    fn patch(
        &mut self,
        client: ClientId,
        file: FileId,
        page: PageNo,
        at: u16,
        bytes: PatchBytes,
    ) -> Result<(), AllocError>
        requires { at + length bytes ≤ 4096 }
        ensures exact { OnOk result (self.new ≡ events.patches self.old client file page at bytes) }
        ensures kept { Keeps self.old self.new }
    {
        let life = self.present_life(client, file.server);
        let index = self
            .log
            .patch(client, life, file, page, at, bytes.as_slice())?;
        self.observe(Observation::Patched {
            index,
            client,
            file,
            page,
            at,
            bytes,
        })
    }

    /// A lease that was lost leaves its life, with the end that it had.
    #[tactic(auto, unfolding(st_rules::specs::Events::loses))]
    fn lose(
        &mut self,
        client: ClientId,
        ends: &LeaseEnds,
        server: ServerId,
        life: Life,
    ) -> Result<(), AllocError>
        ensures exact { (before : ClientState) → HasEnds before ends.now → OnOk result (self.new ≡ events.loses self.old client before server life) }
        ensures kept { Keeps self.old self.new }
    {
        self.lives.end(LeaseLife {
            client,
            server,
            life,
            end: ends.at(server),
            crashed: false,
        })?;
        self.observe(Observation::Lost {
            client,
            server,
            life,
        })
    }

    /// An output of a client, whose leases had these ends before its step.
    #[tactic(auto, unfolding(st_rules::specs::Events::client_says, st_rules::specs::Events::client_notes))]
    pub(crate) fn client_say(
        &mut self,
        client: ClientId,
        ends: &LeaseEnds,
        output: Output,
    ) -> Result<(), AllocError>
        requires some { 1 ≤ length self.old.world.servers }
        requires few { length self.old.world.servers ≤ 4 }
        requires reads { self.old.world.tally.reads < 2 ^ 64 - 1 }
        requires sent { is_sent output ≡ true }
        ensures exact { (before : ClientState) → HasEnds before ends.now → OnOk result (self.new ≡ events.client_says self.old client before output) }
        ensures kept { Keeps self.old self.new }
    {
        match output {
            Output::Send(message) => self.send(message),
            Output::Submit { command, at, what } => self.submit(client, command, at, what),
            Output::Answer { op, answer } => self.answer(client, op, answer),
            Output::Note(note) => match note {
                Note::Leased { server, end } => self.observe(Observation::Leased {
                    client,
                    server,
                    end,
                }),
                Note::Lost { server, life } => self.lose(client, ends, server, life),
                Note::Accepted { file, page, bytes } => self.accept(client, file, page, bytes),
                Note::Patched {
                    file,
                    page,
                    at,
                    bytes,
                } => self.patch(client, file, page, at, bytes),
                Note::Suspected { .. } => Ok(()),
                Note::Stolen { .. } => Ok(()),
                Note::CutDone { .. } => Ok(()),
            },
        }
    }

    /// An output of a server. A theft is counted, and a cut that was done joins the log.
    #[tactic(auto, unfolding(st_rules::specs::Events::server_says, st_rules::specs::Events::server_notes, st_rules::specs::Events::cuts))]
    pub(crate) fn server_say(&mut self, server: ServerId, output: Output) -> Result<(), AllocError>
        requires stolen { self.old.world.tally.stolen < 2 ^ 64 - 1 }
        requires sent { sound.is_sent output ≡ true }
        ensures exact { OnOk result (self.new ≡ events.server_says self.old server output) }
        ensures kept { Keeps self.old self.new }
    {
        match output {
            Output::Send(message) => self.send(message),
            Output::Note(note) => match note {
                Note::Suspected { client, start } => self.observe(Observation::Suspected {
                    server,
                    client,
                    start,
                }),
                Note::Stolen { client, life } => {
                    self.stolen += 1;
                    self.observe(Observation::Stolen {
                        server,
                        client,
                        life,
                    })
                }
                Note::CutDone { file, from } => {
                    let index = self.log.cut(file, from)?;
                    self.observe(Observation::CutAt { index, file, from })
                }
                Note::Leased { .. } => Ok(()),
                Note::Lost { .. } => Ok(()),
                Note::Accepted { .. } => Ok(()),
                Note::Patched { .. } => Ok(()),
            },
            Output::Submit { .. } => Ok(()),
            Output::Answer { .. } => Ok(()),
        }
    }

    /// The outputs of a client, in order, whose leases had these ends before its step.
    #[tactic(auto, unfolding(st_rules::specs::Events::client_says_all))]
    pub(crate) fn client_say_all(
        &mut self,
        client: ClientId,
        ends: &LeaseEnds,
        outputs: Outputs,
    ) -> Result<(), AllocError>
        requires some { 1 ≤ length self.old.world.servers }
        requires few { length self.old.world.servers ≤ 4 }
        requires reads { self.old.world.tally.reads < 2 ^ 63 }
        requires sent { list_all is_sent outputs ≡ true }
        ensures exact { (before : ClientState) → HasEnds before ends.now → OnOk result (self.new ≡ events.client_says_all client before outputs self.old) }
        ensures kept { OnOk result (SameNodes self.old self.new) }
    {
        let mut outputs = outputs.into_vec();
        while !outputs.is_empty() {
            let output = outputs.remove(0);
            self.client_say(client, ends, output)?;
        }
        Ok(())
    }

    /// The outputs of a server, in order.
    #[tactic(auto, unfolding(st_rules::specs::Events::server_says_all))]
    pub(crate) fn server_say_all(
        &mut self,
        server: ServerId,
        outputs: Outputs,
    ) -> Result<(), AllocError>
        requires stolen { self.old.world.tally.stolen < 2 ^ 63 }
        requires sent { list_all sound.is_sent outputs ≡ true }
        ensures { OnOk result (self.new ≡ events.server_says_all server outputs self.old) }
    {
        let mut outputs = outputs.into_vec();
        while !outputs.is_empty() {
            let output = outputs.remove(0);
            self.server_say(server, output)?;
        }
        Ok(())
    }
}
