ghost use Rattle.std.specs.Prelude.{ℕ, ◌<◌};
ghost use Rattle.st_base.specs.declared.config.Config.{Config};
ghost use Rattle.st_rules.specs.Leases.{AcceptedIsInBound, InBoundIsAccepted, InBoundIsRated, IsStealWait, RatedIsInBound, steal_wait};

/// The phase of a lease at a moment.
#[derive(Clone, Copy, Debug, PartialEq, Eq)]
pub enum Phase {
    Valid,
    Renewal,
    Quiesce,
    Flush,
    Expired,
}

/// The first pair of nodes, by position, in which node `m`'s clock ran ahead of the clock of node
/// `n` by more than the bound. `excess` is `den` times the gain of `m`, minus `num` times the gain
/// of `n`.
#[derive(Clone, Copy, Debug, PartialEq, Eq)]
pub struct Excess {
    pub m: usize,
    pub n: usize,
    pub excess: u128,
}

/// The steal wait is long enough, and no shorter wait is.
pub fn steal_wait_is_least()
    ensures { (k : Config) → 0 < k.den → IsStealWait k (steal_wait k) }
{}

/// Advances that are all accepted keep the clocks in bound over every interval.
pub fn accepted_advances_are_in_bound()
    ensures { AcceptedIsInBound }
{}

/// Advances that keep the clocks in bound over every interval are all accepted.
pub fn advances_in_bound_are_accepted()
    ensures { InBoundIsAccepted }
{}

/// Advances that are each in bound keep the clocks in bound over every interval.
pub fn rated_advances_are_in_bound()
    ensures { RatedIsInBound }
{}

/// Without a grain, if all clocks run, advances that keep the clocks in bound over every
/// interval are each in bound.
pub fn advances_in_bound_are_rated()
    ensures { InBoundIsRated }
{}
