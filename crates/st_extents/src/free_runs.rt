// Runs of free places, by falling start.
ghost use Rattle.std.specs.Prelude.{◌≡◌, ◌≤◌, ◌<◌, ◌+◌, ◌*◌, ◌^◌, ◌∷◌, ◌==◌, [], ℕ, true, false, set, take, drop, get_or, length, if◌then◌else◌, IfOk};
ghost use Rattle.std.specs.VecDeque.{deque_capacity, deque_len};
ghost use Rattle.st_extents.specs.declared.free_runs.FreeRun.{FreeRun};
ghost use Rattle.st_extents.specs.FreeRuns as free;

use std::alloc::{AllocError, Global};
use std::collections::VecDeque;

/// Free places one after another: the first one, and the one after the last.
#[derive(Clone, Copy, Debug, PartialEq, Eq)]
pub struct FreeRun {
    pub start: u32,
    pub end: u32,
}

/// The runs of this many places, all of which are free, with room for one run more than can exist.
pub fn all_free(alloc: Global, places: u32) -> Result<VecDeque<FreeRun>, AllocError>
    ensures runs { IfOk result (λ v. v.items ≡ (if places == 0 then [] else record { start = 0; end = places } ∷ [])) }
    ensures room { IfOk result (λ v. places + 1 < 2 * deque_capacity v) }
{
    let mut runs = VecDeque::with_capacity(alloc, places as usize / 2 + 2)?;
    if places != 0 {
        let room: Result<_, _> = runs.push_back(FreeRun {
            start: 0,
            end: places,
        });
        room.unwrap();
    }
    Ok(runs)
}

/// The first free place, or this number if there is none.
pub fn first_free(runs: &VecDeque<FreeRun>, places: u32) -> u32
    ensures { result ≡ free.first_of places runs.now.items }
{
    let count = runs.len();
    if count == 0 {
        return places;
    }
    runs[count - 1].start
}

/// Where the runs end that begin above the place.
pub fn position(runs: &VecDeque<FreeRun>, place: u32) -> usize
    ensures within { result ≤ length runs.now.items }
    ensures behind { (n : ℕ) → place < n → place < free.first_of n (take result runs.now.items) }
    ensures begun { free.BeginsUpTo place (drop result runs.now.items) }
{
    let mut low = 0;
    let mut high = runs.len();
    'halves: while low < high {
        let middle = low + (high - low) / 2;
        if place < runs[middle].start {
            low = middle + 1;
        } else {
            high = middle;
        }
    }
    low
}

/// Whether there is a run there, and the place is below its end.
pub fn ends_above(runs: &VecDeque<FreeRun>, index: usize, place: u32) -> bool
    ensures { result ≡ free.ends_above place (drop index runs.now.items) }
{
    if index < runs.len() {
        place < runs[index].end
    } else {
        false
    }
}

/// Whether there is a run there, and it ends at the place.
fn ends_at(runs: &VecDeque<FreeRun>, index: usize, place: u32) -> bool
    ensures { result ≡ free.ends_at place (drop index runs.now.items) }
{
    if index < runs.len() {
        runs[index].end == place
    } else {
        false
    }
}

/// Whether there is a run before this index, and it begins at the place, which is not 0.
fn begins_at(runs: &VecDeque<FreeRun>, index: usize, place: u32) -> bool
    requires within { index ≤ length runs.now.items }
    requires some { 1 ≤ place }
    ensures { result ≡ free.begins_at place (take index runs.now.items) }
{
    if index == 0 {
        false
    } else {
        runs[index - 1].start == place
    }
}

/// Writes one run.
fn write(runs: &mut VecDeque<FreeRun>, index: usize, run: FreeRun)
    requires { index < length runs.old.items }
    ensures items { runs.new.items ≡ set runs.old.items index run }
    ensures room { deque_capacity runs.old ≤ deque_capacity runs.new }
{
    runs[index] = run;
}

/// Takes the first free place from the runs.
pub fn take_first(runs: &mut VecDeque<FreeRun>, place: u32)
    requires some { 1 ≤ length runs.old.items }
    requires first { free.first_of 0 runs.old.items ≡ place }
    requires fits { place + 1 < 2 ^ 32 }
    ensures taken { free.IsTakenFrom place runs.old.items runs.new.items }
    ensures room { deque_capacity runs.old ≤ deque_capacity runs.new }
{
    let last = runs.len() - 1;
    let end = runs[last].end;
    if end == place + 1 {
        // The run is empty now.
        let _gone = runs.pop_back();
    } else {
        write(
            runs,
            last,
            FreeRun {
                start: place + 1,
                end,
            },
        );
    }
}

/// Takes a place out of a run that has places on both sides of it.
fn split(runs: &mut VecDeque<FreeRun>, index: usize, place: u32, whole: FreeRun)
    requires within { index < length runs.old.items }
    requires there { (d : FreeRun) → get_or runs.old.items index d ≡ whole }
    requires below { whole.start < place }
    requires above { place + 1 < whole.end }
    requires space { deque_len runs.old < deque_capacity runs.old }
    ensures taken { free.IsTakenFrom place runs.old.items runs.new.items }
    ensures room { deque_capacity runs.old ≤ deque_capacity runs.new }
{
    let done: Result<_, _> = runs.insert(
        index,
        FreeRun {
            start: place + 1,
            end: whole.end,
        },
    );
    done.unwrap();
    write(
        runs,
        index + 1,
        FreeRun {
            start: whole.start,
            end: place,
        },
    );
}

/// Takes the only place of the run there.
fn take_whole(runs: &mut VecDeque<FreeRun>, index: usize, place: u32)
    requires within { index < length runs.old.items }
    requires start { (d : FreeRun) → (get_or runs.old.items index d).start ≡ place }
    requires end { (d : FreeRun) → (get_or runs.old.items index d).end ≡ place + 1 }
    ensures taken { free.IsTakenFrom place runs.old.items runs.new.items }
    ensures room { deque_capacity runs.old ≤ deque_capacity runs.new }
{
    // The run is empty now.
    let Some(_gone) = runs.remove(index) else {
        unreachable!()
    };
}

/// Takes the first place of the run there.
fn take_low(runs: &mut VecDeque<FreeRun>, index: usize, place: u32, whole: FreeRun)
    requires within { index < length runs.old.items }
    requires there { (d : FreeRun) → get_or runs.old.items index d ≡ whole }
    requires start { whole.start ≡ place }
    requires above { place < whole.end }
    ensures taken { free.IsTakenFrom place runs.old.items runs.new.items }
    ensures room { deque_capacity runs.old ≤ deque_capacity runs.new }
{
    if whole.end == place + 1 {
        take_whole(runs, index, place);
    } else {
        write(
            runs,
            index,
            FreeRun {
                start: place + 1,
                end: whole.end,
            },
        );
    }
}

/// Takes a place of the run there that is not its first one.
fn take_high(runs: &mut VecDeque<FreeRun>, index: usize, place: u32, whole: FreeRun)
    requires within { index < length runs.old.items }
    requires there { (d : FreeRun) → get_or runs.old.items index d ≡ whole }
    requires below { whole.start < place }
    requires above { place < whole.end }
    requires space { deque_len runs.old < deque_capacity runs.old }
    ensures taken { free.IsTakenFrom place runs.old.items runs.new.items }
    ensures room { deque_capacity runs.old ≤ deque_capacity runs.new }
{
    if whole.end == place + 1 {
        write(
            runs,
            index,
            FreeRun {
                start: whole.start,
                end: place,
            },
        );
    } else {
        split(runs, index, place, whole);
    }
}

/// Takes a place out of the run there, which has it.
pub fn take(runs: &mut VecDeque<FreeRun>, index: usize, place: u32)
    requires within { index < length runs.old.items }
    requires there { (d : FreeRun) → free.holds place (get_or runs.old.items index d) ≡ true }
    requires space { deque_len runs.old < deque_capacity runs.old }
    ensures taken { free.IsTakenFrom place runs.old.items runs.new.items }
    ensures room { deque_capacity runs.old ≤ deque_capacity runs.new }
{
    let whole = runs[index];
    if whole.start == place {
        take_low(runs, index, place, whole);
    } else {
        take_high(runs, index, place, whole);
    }
}

/// Puts the place in by joining the run there and the one before it, between which it lies.
fn join(runs: &mut VecDeque<FreeRun>, index: usize, place: u32)
    requires some { 1 ≤ index }
    requires within { index < length runs.old.items }
    requires above { free.begins_at (place + 1) (take index runs.old.items) ≡ true }
    requires below { free.ends_at place (drop index runs.old.items) ≡ true }
    ensures given { free.IsGivenTo place runs.old.items runs.new.items }
    ensures room { deque_capacity runs.old ≤ deque_capacity runs.new }
{
    let end = runs[index - 1].end;
    let Some(low) = runs.remove(index) else {
        unreachable!()
    };
    write(
        runs,
        index - 1,
        FreeRun {
            start: low.start,
            end,
        },
    );
}

/// Puts the place before the run before this index.
fn extend_down(runs: &mut VecDeque<FreeRun>, index: usize, place: u32)
    requires some { 1 ≤ index }
    requires within { index ≤ length runs.old.items }
    requires gap { free.IsGap place (take index runs.old.items) (drop index runs.old.items) }
    requires above { free.begins_at (place + 1) (take index runs.old.items) ≡ true }
    requires below { free.ends_at place (drop index runs.old.items) ≡ false }
    ensures given { free.IsGivenTo place runs.old.items runs.new.items }
    ensures room { deque_capacity runs.old ≤ deque_capacity runs.new }
{
    let end = runs[index - 1].end;
    write(runs, index - 1, FreeRun { start: place, end });
}

/// Puts the place after the run there.
fn extend_up(runs: &mut VecDeque<FreeRun>, index: usize, place: u32)
    requires within { index < length runs.old.items }
    requires fits { place + 1 < 2 ^ 32 }
    requires gap { free.IsGap place (take index runs.old.items) (drop index runs.old.items) }
    requires above { free.begins_at (place + 1) (take index runs.old.items) ≡ false }
    requires below { free.ends_at place (drop index runs.old.items) ≡ true }
    ensures given { free.IsGivenTo place runs.old.items runs.new.items }
    ensures room { deque_capacity runs.old ≤ deque_capacity runs.new }
{
    let start = runs[index].start;
    write(
        runs,
        index,
        FreeRun {
            start,
            end: place + 1,
        },
    );
}

/// Puts the place in as a run of its own.
fn insert(runs: &mut VecDeque<FreeRun>, index: usize, place: u32)
    requires within { index ≤ length runs.old.items }
    requires fits { place + 1 < 2 ^ 32 }
    requires gap { free.IsGap place (take index runs.old.items) (drop index runs.old.items) }
    requires above { free.begins_at (place + 1) (take index runs.old.items) ≡ false }
    requires below { free.ends_at place (drop index runs.old.items) ≡ false }
    requires space { deque_len runs.old < deque_capacity runs.old }
    ensures given { free.IsGivenTo place runs.old.items runs.new.items }
    ensures room { deque_capacity runs.old ≤ deque_capacity runs.new }
{
    let done: Result<_, _> = runs.insert(
        index,
        FreeRun {
            start: place,
            end: place + 1,
        },
    );
    done.unwrap();
}

/// Puts in a place that lies between the runs before this index and those from it on. It takes no
/// memory.
pub fn give(runs: &mut VecDeque<FreeRun>, index: usize, place: u32)
    requires within { index ≤ length runs.old.items }
    requires fits { place + 1 < 2 ^ 32 }
    requires gap { free.IsGap place (take index runs.old.items) (drop index runs.old.items) }
    requires space { deque_len runs.old < deque_capacity runs.old }
    ensures given { free.IsGivenTo place runs.old.items runs.new.items }
    ensures room { deque_capacity runs.old ≤ deque_capacity runs.new }
{
    let above = begins_at(runs, index, place + 1);
    let below = ends_at(runs, index, place);
    if above && below {
        join(runs, index, place);
    } else if above {
        extend_down(runs, index, place);
    } else if below {
        extend_up(runs, index, place);
    } else {
        insert(runs, index, place);
    }
}
