ghost use Rattle.std.specs.Prelude.{◌≡◌, false, true, IfOk, IfErr};
ghost use Rattle.st_client_association.specs.Turns.{has_session, parties_of, session_of};
ghost use Rattle.st_third_turn.specs.Steps.{IsPlaced, shown};

use crate::aside::Aside;
use st_base::ServerId;
use st_client_association::{SessionTurn, Turn};
use st_client_session::Session;
use std::marker::Model;

/// A step of the third form at a server with which there is a session. It keeps all outputs of the
/// other forms in one list, since they bound the client's counters. Contracts see the definitions'
/// step.
#[derive(Drop)]
pub struct SessionStep {
    pub(crate) turn: SessionTurn,
    pub(crate) aside: Aside,
}

impl Model for SessionStep {
    ghost use Rattle.st_third.specs.State as third;
    ghost use Rattle.st_third_turn.specs.Steps.{IsPlaced, shown};

    ghost Value = { third.ThirdTurn };

    ghost view = { λ t. shown t.turn t.aside };

    ghost invariant = { λ t. IsPlaced t.aside.words t.aside.start t.turn.out };
}

impl SessionStep {
    /// The session.
    pub fn session(&self) -> &Session
        ensures is { result.now ≡ record { of = parties_of self.now.plain.id self.now.plain.here.server self.now.plain.here.life self.now.plain.config; session = session_of self.now.plain } }
        ensures held { has_session self.now.plain ≡ true }
    {
        self.turn.session()
    }

    /// The server.
    pub fn server(&self) -> ServerId
        ensures { result ≡ self.now.plain.here.server }
    {
        self.turn.turn().server()
    }
}

/// A step of the third form at a server, with a session or without one. Contracts see the
/// definitions' step.
#[derive(Drop)]
pub struct Step {
    pub(crate) turn: Turn,
    pub(crate) aside: Aside,
}

impl Model for Step {
    ghost use Rattle.st_third.specs.State as third;
    ghost use Rattle.st_third_turn.specs.Steps.{IsPlaced, shown};

    ghost Value = { third.ThirdTurn };

    ghost view = { λ t. shown t.turn t.aside };

    ghost invariant = { λ t. IsPlaced t.aside.words t.aside.start t.turn.out };
}

impl Step {
    /// A step at an association begins. The words come before its outputs.
    pub fn enter(turn: Turn, aside: Aside) -> Step
        requires placed { IsPlaced aside.words aside.start turn.out }
        ensures { result ≡ shown turn aside }
    {
        Step { turn, aside }
    }

    /// The step leaves the association.
    pub fn leave(self) -> (Turn, Aside)
        ensures left { shown result.0 result.1 ≡ self }
        ensures placed { IsPlaced result.1.words result.1.start result.0.out }
    {
        let Step { turn, aside } = self;
        (turn, aside)
    }

    /// The step with its session in hand, or as it is if there is none.
    pub fn into_session(self) -> Result<SessionStep, Step>
        ensures with { IfOk result (λ t. (t ≡ self) × (has_session self.plain ≡ true)) }
        ensures without { IfErr result (λ t. (t ≡ self) × (has_session self.plain ≡ false)) }
    {
        let Step { turn, aside } = self;
        match turn.into_session() {
            Ok(turn) => Ok(SessionStep { turn, aside }),
            Err(turn) => Err(Step { turn, aside }),
        }
    }
}

impl SessionStep {
    /// The step, with or without a session.
    pub fn into_step(self) -> Step
        ensures { result ≡ self }
    {
        let SessionStep { turn, aside } = self;
        Step {
            turn: turn.into_turn(),
            aside,
        }
    }
}
