ghost use Rattle.std.specs.Prelude.{◌≡◌, [], reverse};

use crate::beside::Beside;
use crate::words::Word;
use st_third::{Leave, Limits};
use std::marker::Model;

/// What a step of the third form has beside one of the first two: the limits, the pending leaves,
/// what is beside the association, how many changes wait for room, and the words of the third form
/// among the outputs of the step.
#[derive(Drop)]
pub struct Aside {
    pub(crate) limits: Limits,
    pub(crate) leaves: Vec<Leave>,
    pub(crate) beside: Beside,
    pub(crate) room: usize,
    /// The words of the third form so far, in order.
    pub(crate) words: Vec<Word>,
    /// How many outputs of the other forms came before what the present rules say.
    pub(crate) start: usize,
}

impl Model for Aside {
    ghost use Rattle.std.specs.Prelude.{reverse};
    ghost use Rattle.st_third_turn.specs.Steps as steps;

    ghost Value = { steps.Aside };

    ghost view = { λ a. record {
      limits = a.limits;
      leaves = a.leaves.items;
      beside = a.beside;
      room = a.room;
      words = reverse a.words.items;
      start = a.start;
    } };
}

impl Aside {
    /// A step begins after these words and after so many outputs of the other forms.
    pub fn new(
        limits: &Limits,
        leaves: Vec<Leave>,
        beside: Beside,
        words: Vec<Word>,
        start: usize,
    ) -> Aside
        ensures { result ≡ record { limits = limits.now; leaves = leaves.items; beside = beside; room = 0; words = reverse words.items; start = start } }
    {
        Aside {
            limits: *limits,
            leaves,
            beside,
            room: 0,
            words,
            start,
        }
    }

    /// The step ends: the pending leaves, what is beside the association, and the words.
    pub fn into_parts(self) -> (Vec<Leave>, Beside, Vec<Word>)
        ensures leaves { result.0.items ≡ self.leaves }
        ensures beside { result.1 ≡ self.beside }
        ensures words { reverse result.2.items ≡ self.words }
    {
        let Aside {
            limits: _,
            leaves,
            beside,
            room: _,
            words,
            start: _,
        } = self;
        (leaves, beside, words)
    }

    /// A rule ran out of memory: what the step said is given up with it. It does not allocate.
    pub(crate) fn give_up(&mut self)
        ensures words { self.new.words ≡ [] }
        ensures start { self.new.start ≡ 0 }
    {
        self.words.clear();
        self.start = 0;
    }
}
