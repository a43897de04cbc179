// What steps give, until it may be taken.
ghost use Rattle.std.specs.Prelude.{◌≡◌, ◌+◌, ◌<◌, ◌^◌, [], true, IfErr, OnErr, OnOk};
ghost use Rattle.st_held_steps.specs.Held as held;

use std::alloc::{AllocFailed, Global};
use std::collections::VecDeque;
use std::marker::Model;

/// What a step gave, and how many changes were made by it and before it.
#[derive(Drop)]
pub struct Marked<T: Drop> {
    pub what: T,
    pub changes: u64,
}

/// What steps gave and nobody took yet. Contracts see it, how many changes were made, how many of
/// them are kept, and how many may wait to be kept.
#[derive(Drop)]
pub struct HeldSteps<T: Drop> {
    steps: VecDeque<Marked<T>>,
    made: u64,
    kept: u64,
    limit: u64,
}

impl<T: Drop> Model for HeldSteps<T> {
    ghost use Rattle.st_held_steps.specs.Held.{Held, IsHeld};

    ghost Value = { Held T };

    ghost view = { λ h. record { steps = h.steps.items; made = h.made; kept = h.kept; limit = h.limit } };

    ghost invariant = { λ h. IsHeld h.made h.kept h.limit };
}

impl<T: Drop> HeldSteps<T> {
    /// No step was taken. At most this many changes may wait to be kept. It does not allocate.
    pub fn new(alloc: Global, limit: u64) -> HeldSteps<T>
        requires { limit < 2 ^ 62 }
        ensures { result ≡ record { steps = []; made = 0; kept = 0; limit = limit } }
    {
        HeldSteps {
            steps: VecDeque::new(alloc),
            made: 0,
            kept: 0,
            limit,
        }
    }

    /// How many changes wait to be kept.
    pub fn waiting(&self) -> u64
        ensures { result + self.now.kept ≡ self.now.made }
    {
        self.made - self.kept
    }

    /// Whether a step may be taken: fewer changes wait than may wait.
    pub fn may_step(&self) -> bool
        ensures { result ≡ held.may_step self.now }
    {
        self.made < self.kept + self.limit && self.made < 4_611_686_018_427_387_904
    }

    /// A step was taken, gave this, and made a change or none. An error gives it back, and changes
    /// nothing.
    pub fn push(&mut self, what: T, changed: bool) -> Result<(), AllocFailed<Marked<T>>>
        requires { held.may_step self.old ≡ true }
        ensures ok { OnOk result (self.new ≡ held.stepped self.old what changed) }
        ensures err { OnErr result (self.new ≡ self.old) }
        ensures back { IfErr result (λ f. f.value.what ≡ what) }
    {
        let changes = if changed { self.made + 1 } else { self.made };
        self.steps.push_back(Marked { what, changes })?;
        self.made = changes;
        Ok(())
    }

    /// This many more changes are kept, at most all that wait.
    pub fn keep(&mut self, count: u64)
        ensures { self.new ≡ held.kept_more self.old count }
    {
        if count < self.made - self.kept {
            self.kept += count;
        } else {
            self.kept = self.made;
        }
    }

    /// Whether the change of the first step is kept, and each change before it.
    fn is_ready(&self) -> bool
        ensures { result ≡ held.is_ready self.now.kept self.now.steps }
    {
        if self.steps.len() == 0 {
            return false;
        }
        self.steps[0].changes <= self.kept
    }

    /// What the first step gave, if its change is kept, and each change before it.
    #[tactic(auto, using(crate::proofs::Ready::gives_none, crate::proofs::Ready::leaves_all, crate::proofs::Ready::gives_first, crate::proofs::Ready::leaves_others))]
    pub fn pop(&mut self) -> Option<T>
        ensures given { result ≡ held.first_ready self.old.kept self.old.steps }
        ensures left { self.new ≡ record self.old { steps = held.others self.old.kept self.old.steps } }
    {
        if !self.is_ready() {
            return None;
        }
        match self.steps.pop_front() {
            Some(Marked { what, .. }) => Some(what),
            None => None,
        }
    }
}
