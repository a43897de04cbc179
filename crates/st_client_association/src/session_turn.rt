// A step at a server with a session: what its reductions, writes and requests change.
ghost use Rattle.std.specs.Prelude.{◌≡◌, true, false, None, Some, IfOk, IfErr, OnOk, is_some};
ghost use Rattle.st_client_association.specs.Turns.{Reduces, SendsAgain, TakesRelease, again_if_due, has_session, parties_of, session_of};
ghost use Rattle.st_operations.specs.PendingOperations.{marked};
ghost use Rattle.st_rules.specs.ClientInvariants.{lasts_here};
ghost use Rattle.st_rules.specs.ClientPages as pages;
ghost use Rattle.st_rules.specs.ClientPasses as passes;
ghost use Rattle.st_rules.specs.ClientState as client;
ghost use Rattle.st_rules.specs.declared.pages.DirtyPage.{DirtyPage};

use crate::outputs::count;
use crate::turn::Turn;
use st_base::{Command, GrantNo, Mode, PageNo, Stamp, Tag};
use st_client_session::Session;
use st_messages::{Body, Message, Output};
use st_rules::{DirtyPage, MappedBlock, Release};
use std::alloc::AllocError;
use std::marker::Model;

/// A step at a server with which there is a session. Contracts see it as the definitions' turn.
#[derive(Drop)]
pub struct SessionTurn {
    pub(crate) turn: Turn,
}

impl Model for SessionTurn {
    ghost use Rattle.std.specs.Prelude.{◌≡◌, true};
    ghost use Rattle.st_client_association.specs.Turns.{has_session};
    ghost use Rattle.st_rules.specs.ClientState as shared;

    ghost Value = { shared.Turn };

    ghost view = { λ t. t.turn };

    ghost invariant = { λ t. has_session t.turn ≡ true };
}

impl Turn {
    /// The step with its session in hand, or as it is if there is none.
    pub fn into_session(self) -> Result<SessionTurn, Turn>
        ensures with { IfOk result (λ t. (t ≡ self) × (has_session self ≡ true)) }
        ensures without { IfErr result (λ t. (t ≡ self) × (has_session self ≡ false)) }
    {
        if self.has_session() {
            Ok(SessionTurn { turn: self })
        } else {
            Err(self)
        }
    }
}

impl SessionTurn {
    /// The step, with or without a session.
    pub fn into_turn(self) -> Turn
        ensures { result ≡ self }
    {
        let SessionTurn { turn } = self;
        turn
    }

    /// The step, to look at what needs no session.
    pub fn turn(&self) -> &Turn
        ensures { result.now ≡ self.now }
    {
        &self.turn
    }

    /// The session.
    pub fn session(&self) -> &Session
        ensures is { result.now ≡ record { of = parties_of self.now.id self.now.here.server self.now.here.life self.now.config; session = session_of self.now } }
        ensures held { has_session self.now ≡ true }
    {
        let turn = &self.turn;
        match &turn.here.session {
            Some(session) => session,
            None => unreachable!(),
        }
    }

    /// The request of the operation at a place was sent.
    pub fn mark_sent(&mut self, place: usize) -> Result<(), AllocError>
        ensures { OnOk result (self.new ≡ client.with_operations (marked place self.old.operations) self.old) }
    {
        let turn = &mut self.turn;
        turn.operations.mark_sent(place)
    }

    /// The file is forgotten from this page on. It does not allocate.
    pub fn forget_from(&mut self, ino: u32, page: PageNo)
        ensures { self.new ≡ client.with_store (pages.forget_from self.old.here.store ino page) self.old }
    {
        let turn = &mut self.turn;
        turn.here.store.forget_from(ino, page);
    }

    /// The lock of a demanded file is reduced to what is demanded. It returns the lock's grant and
    /// that mode. It does not allocate.
    pub fn reduce_lock(&mut self, ino: u32) -> Option<(GrantNo, Mode)>
        ensures reduced { Reduces self.old self.new result ino }
        ensures held { has_session self.old ≡ true }
    {
        let turn = &mut self.turn;
        match &mut turn.here.session {
            Some(session) => session.reduce(ino),
            None => unreachable!(),
        }
    }

    /// The wait for the file is forgotten, and its release goes last.
    pub fn release(&mut self, ino: u32, g: GrantNo, to: Mode) -> Result<(), AllocError>
        ensures { OnOk result (self.new ≡ client.with_session (passes.released (session_of self.old) ino g to) self.old) }
    {
        self.forget_wait(ino);
        let turn = &mut self.turn;
        match &mut turn.here.session {
            Some(session) => session.queue_release(ino, g, to),
            None => unreachable!(),
        }
    }

    /// Takes out the first release. It does not allocate.
    pub fn take_release(&mut self) -> Option<Release>
        ensures { TakesRelease self.old result self.new }
    {
        let turn = &mut self.turn;
        match &mut turn.here.session {
            Some(session) => session.take_release(),
            None => unreachable!(),
        }
    }

    /// A request is sent, with the next number; the file that it cuts or removes is busy.
    #[tactic(auto, unfolding(st_rules::specs::ClientPasses::ask, st_rules::specs::ClientState::send))]
    pub fn ask(&mut self, now: Stamp, body: Body, cutting: Option<u32>) -> Result<(), AllocError>
        requires { (session_of self.old).requests.asked ≡ None }
        ensures { OnOk result (self.new ≡ passes.ask self.old (session_of self.old) now body cutting) }
    {
        let turn = &mut self.turn;
        // For its clause `small`: the number of the next request has room.
        let _count = count(&turn.out);
        turn.out.reserve(1)?;
        let message = match &mut turn.here.session {
            Some(session) => session.ask(body, cutting, now)?,
            None => unreachable!(),
        };
        turn.out.push_reserved(Output::Send(message));
        Ok(())
    }

    /// The message of the outstanding request, sent now, if it was last sent long ago.
    fn again(&mut self, now: Stamp) -> Result<Option<Message>, AllocError>
        ensures { IfOk result (λ m. SendsAgain self.old self.new m now (session_of self.old).requests.asked) }
    {
        let turn = &mut self.turn;
        let message = match &mut turn.here.session {
            Some(session) => session.again(now)?,
            None => unreachable!(),
        };
        Ok(message)
    }

    /// The outstanding request is sent once more, if it was last sent long ago.
    pub fn ask_again(&mut self, now: Stamp) -> Result<(), AllocError>
        ensures { OnOk result (self.new ≡ again_if_due self.old (session_of self.old) now (session_of self.old).requests.asked) }
    {
        match self.again(now)? {
            None => Ok(()),
            Some(message) => {
                let turn = &mut self.turn;
                turn.out.push(Output::Send(message))?;
                Ok(())
            }
        }
    }

    /// A write of a dirty page is submitted. The page is not being written.
    #[tactic(auto, unfolding(st_rules::specs::ClientPasses::submit_write, st_rules::specs::ClientPasses::submit_command))]
    pub fn submit_write(
        &mut self,
        now: Stamp,
        ino: u32,
        page: PageNo,
        mapping: MappedBlock,
    ) -> Result<(), AllocError>
        requires lasting { lasts_here self.old.config now self.old.here ≡ true }
        requires unwritten { pages.is_being_written self.old.here.store.commands ino page ≡ false }
        ensures { OnOk result ((d : DirtyPage) → pages.dirty_of self.old.here.store.pages ino page ≡ Some d → self.new ≡ passes.submit_write self.old d mapping) }
    {
        let Some(dirty) = self.turn.here.store.dirty_page(ino, page) else {
            return Ok(());
        };
        let dirty = dirty.copy()?;
        self.submit_dirty(now, dirty, mapping)
    }

    /// A write of this dirty page is submitted.
    #[tactic(auto, unfolding(st_rules::specs::ClientPasses::submit_write, st_rules::specs::ClientPasses::submit_command))]
    fn submit_dirty(
        &mut self,
        now: Stamp,
        dirty: DirtyPage,
        mapping: MappedBlock,
    ) -> Result<(), AllocError>
        requires lasting { lasts_here self.old.config now self.old.here ≡ true }
        requires dirty { is_some (pages.dirty_of self.old.here.store.pages dirty.ino dirty.page) ≡ true }
        requires unwritten { pages.is_being_written self.old.here.store.commands dirty.ino dirty.page ≡ false }
        ensures { OnOk result (self.new ≡ passes.submit_write self.old dirty mapping) }
    {
        let turn = &mut self.turn;
        let number = turn.next_command;
        let (ino, page, version) = (dirty.ino, dirty.page, dirty.version);
        let tag = Tag {
            file: turn.file(ino),
            page,
            birth: mapping.birth,
        };
        turn.out.push(Output::Submit {
            command: number,
            at: mapping.at,
            what: Command::Write {
                at: mapping.at,
                tag,
                bytes: dirty.bytes,
            },
        })?;
        // For its clause `small`: numbers of commands have room for one more output.
        let _count = count(&turn.out);
        let here = &mut *turn.here;
        match &mut here.session {
            Some(session) => session.begin_write(now, &mut here.store, number, ino, page, version)?,
            None => unreachable!(),
        }
        turn.next_command = number + 1;
        Ok(())
    }
}
