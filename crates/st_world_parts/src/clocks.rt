// The clocks, clients in order and then servers in order.
ghost use Rattle.std.specs.Prelude.{◌≡◌, ◌≤◌, ◌^◌, ◌-◌, true, length, unwrap_or};
ghost use Rattle.std.specs.List.{list_all};
ghost use Rattle.st_world_parts.specs.Clocks.{clock_at, is_at_most, is_step};
ghost use Rattle.st_rules.specs.Events.{advanced};

use st_base::Stamp;

/// The clock of a number, from 1, or 0 if there is none.
pub fn clock_of(clocks: &[Stamp], n: usize) -> Stamp
    ensures { result ≡ clock_at clocks.now n }
{
    if n == 0 || n > clocks.len() {
        return Stamp(0);
    }
    clocks[n - 1]
}

/// All clocks advance.
#[tactic(auto, unfolding(st_rules::specs::Events::advanced))]
pub fn advance(clocks: &mut [Stamp], steps: &[u64])
    requires each { length steps.now ≡ length clocks.old }
    requires clocks { list_all (is_at_most (2 ^ 62)) clocks.old ≡ true }
    requires steps { list_all is_step steps.now ≡ true }
    ensures exact { clocks.new ≡ advanced steps.now clocks.old }
    ensures len { length clocks.new ≡ length clocks.old }
{
    for i in 0..steps.len() {
        clocks[i].0 += steps[i];
    }
}
