// Lives whose lease ends are reached, or are still ahead.
ghost use Rattle.std.specs.Prelude.{◌≡◌, ◌++◌, ◌∷◌, [], ◌+◌, ◌≤◌, ◌^◌, true, filter, if◌then◌else◌, length, unwrap_or, OnOk, OnErr};
ghost use Rattle.std.specs.List.{list_all};
ghost use Rattle.st_world_parts.specs.Clocks.{clock_at, is_ahead, is_at_most, is_reached, is_step, step_at};
ghost use Rattle.st_rules.specs.Admissible.{reaches};

use crate::clocks::clock_of;
use st_base::Stamp;
use st_rules::LeaseLife;
use std::alloc::AllocError;

/// Whether a life's lease end is above its client's clock.
pub fn is_ahead(clocks: &[Stamp], life: &LeaseLife) -> bool
    ensures { result ≡ is_ahead clocks.now life.now }
{
    match life.end {
        None => false,
        Some(end) => clock_of(clocks, life.client.0 as usize).0 < end.0,
    }
}

/// Whether a clock reaches a lease end by this increment. A clock is at most 2^62, and an increment
/// below 2^32.
pub fn reaches(clock: Stamp, step: u64, end: Option<Stamp>) -> bool
    requires clock { clock.0 ≤ 2 ^ 62 }
    requires step { step ≤ 2 ^ 32 }
    ensures { result ≡ reaches clock step end }
{
    match end {
        None => false,
        Some(end) => clock.0 < end.0 && end.0 <= clock.0 + step,
    }
}

/// The increment of a clock, or 0 if there is none.
pub fn step_of(steps: &[u64], n: usize) -> u64
    ensures { result ≡ step_at steps.now n }
{
    if n == 0 || n > steps.len() {
        return 0;
    }
    steps[n - 1]
}

/// Whether an advance reaches a life's lease end.
pub fn is_reached(clocks: &[Stamp], steps: &[u64], life: &LeaseLife) -> bool
    requires clocks { list_all (is_at_most (2 ^ 62)) clocks.now ≡ true }
    requires steps { list_all is_step steps.now ≡ true }
    ensures { result ≡ is_reached clocks.now steps.now life.now }
{
    let n = life.client.0 as usize;
    reaches(clock_of(clocks, n), step_of(steps, n), life.end)
}

/// Adds a life if the test holds. If it runs out of memory, nothing changes.
pub fn push_if(found: &mut Vec<LeaseLife>, life: LeaseLife, yes: bool) -> Result<(), AllocError>
    ensures ok { OnOk result (found.new.items ≡ found.old.items ++ (if yes then life ∷ [] else [])) }
    ensures err { OnErr result (found.new.items ≡ found.old.items) }
{
    if yes {
        found.push(life)?;
        Ok(())
    } else {
        Ok(())
    }
}

/// Adds the lives whose lease ends an advance reaches, in order.
pub fn push_reached(
    clocks: &[Stamp],
    steps: &[u64],
    lives: &[LeaseLife],
    found: &mut Vec<LeaseLife>,
) -> Result<(), AllocError>
    requires clocks { list_all (is_at_most (2 ^ 62)) clocks.now ≡ true }
    requires steps { list_all is_step steps.now ≡ true }
    ensures { OnOk result (found.new.items ≡ found.old.items ++ filter (is_reached clocks.now steps.now) lives.now) }
{
    for life in lives {
        push_if(found, *life, is_reached(clocks, steps, life))?;
    }
    Ok(())
}

/// Leaves the lives whose lease ends are above their clients' clocks.
pub fn keep_ahead(clocks: &[Stamp], lives: &mut Vec<LeaseLife>)
    ensures { lives.new.items ≡ filter (is_ahead clocks.now) lives.old.items }
{
    lives.retain(|life| is_ahead(clocks, life));
}
