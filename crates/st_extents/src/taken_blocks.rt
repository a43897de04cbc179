ghost use Rattle.std.specs.Prelude.{◌≡◌, ◌≤◌, ◌<◌, ◌^◌, ℕ, Bool, true, false, not, replicate, set, get_or, filter, length, IfOk};

use crate::free_runs::{
    FreeRun, all_free, ends_above, first_free, give, position, take, take_first,
};
use std::alloc::{AllocError, Global};
use std::collections::VecDeque;
use std::marker::Model;

/// Which of some places are taken. Contracts see one truth value for each place. The free places
/// are kept as runs, so the first one is found at once, and giving one back is a binary search in
/// the runs.
#[derive(Drop)]
pub struct TakenBlocks {
    places: u32,
    runs: VecDeque<FreeRun>,
    free: usize,
}

impl Model for TakenBlocks {
    ghost use Rattle.std.specs.Prelude.{List, Bool};
    ghost use Rattle.std.specs.VecDeque.{deque_capacity};
    ghost use Rattle.st_extents.specs.FreeRuns.{IsFreeTable, taken_from};

    ghost Value = { List Bool };

    ghost view = { λ t. taken_from t.runs.items 0 t.places };

    ghost invariant = { λ t. IsFreeTable t.places t.free (deque_capacity t.runs) t.runs.items };
}

impl TakenBlocks {
    /// This number of places, of which none is taken. It takes the memory that any of them may need
    /// to be given back.
    pub fn new(alloc: Global, places: usize) -> Result<TakenBlocks, AllocError>
        requires { places < 2 ^ 32 }
        ensures { IfOk result (λ t. t ≡ replicate places false) }
    {
        let count = places as u32;
        Ok(TakenBlocks {
            places: count,
            runs: all_free(alloc, count)?,
            free: places,
        })
    }

    /// How many places are not taken.
    pub fn free(&self) -> usize
        ensures free { result ≡ length (filter not self.now) }
        ensures few { result ≤ length self.now }
    {
        self.free
    }

    /// The first place that is not taken, or the number of places.
    pub fn first(&self) -> usize
        ensures before { (j : ℕ) → j < result → get_or self.now j false ≡ true }
        ensures within { result ≤ length self.now }
        ensures open { result < length self.now → get_or self.now result true ≡ false }
    {
        first_free(&self.runs, self.places) as usize
    }

    /// Takes the first place that is not taken.
    pub fn take(&mut self, place: usize)
        requires first { (j : ℕ) → j < place → get_or self.old j false ≡ true }
        requires within { place < length self.old }
        requires open { get_or self.old place true ≡ false }
        ensures { self.new ≡ set self.old place true }
    {
        take_first(&mut self.runs, place as u32);
        self.free -= 1;
    }

    /// Whether a place is taken.
    pub fn is_taken(&self, place: usize) -> bool
        requires { place < length self.now }
        ensures { (d : Bool) → result ≡ get_or self.now place d }
    {
        let index = position(&self.runs, place as u32);
        !ends_above(&self.runs, index, place as u32)
    }

    /// Takes a place that is not taken, whichever it is.
    pub fn take_at(&mut self, place: usize)
        requires within { place < length self.old }
        requires open { get_or self.old place true ≡ false }
        ensures { self.new ≡ set self.old place true }
    {
        let index = position(&self.runs, place as u32);
        take(&mut self.runs, index, place as u32);
        self.free -= 1;
    }

    /// Gives a place back. It takes no memory.
    pub fn give(&mut self, place: usize)
        requires within { place < length self.old }
        ensures { self.new ≡ set self.old place false }
    {
        let index = position(&self.runs, place as u32);
        if ends_above(&self.runs, index, place as u32) {
            return;
        }
        give(&mut self.runs, index, place as u32);
        self.free += 1;
    }
}
