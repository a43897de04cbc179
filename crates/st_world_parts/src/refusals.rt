// What the tests of events share.
ghost use Rattle.std.specs.Prelude.{◌≡◌, ◌&&◌, ◌||◌, not};
ghost use Rattle.st_rules.specs.Admissible as admissible;
ghost use Rattle.st_rules.specs.Admissible.{stands};

use st_base::Stamp;
use st_disk::CommandState;
use st_rules::{Report, WorldRefusal};

/// The refusal, if the test holds.
#[tactic(auto, unfolding(st_rules::specs::Admissible::stands))]
pub fn stands(test: bool, refusal: WorldRefusal) -> Option<WorldRefusal>
    ensures { result ≡ stands test refusal }
{
    if test { Some(refusal) } else { None }
}

/// The refusal of an effect on a disk at this moment of its client's clock, under a lease of this
/// end: from the end on it is late.
pub fn late_at(clock: Stamp, end: Option<Stamp>) -> Option<WorldRefusal>
    ensures { result ≡ admissible.late_at clock end }
{
    match end {
        None => None,
        Some(end) => stands(end.0 <= clock.0, WorldRefusal::LateDisk(clock, end)),
    }
}

fn is_open(report: Report) -> bool
    ensures { result ≡ admissible.is_open report }
{
    match report {
        Report::Open => true,
        Report::Succeeded => false,
        Report::Failed => false,
    }
}

/// Whether a command has no further effect: it had its effect, or it was reported.
pub fn is_done(standing: CommandState) -> bool
    ensures { result ≡ (standing.effected || not (admissible.is_open standing.report)) }
{
    standing.effected || !is_open(standing.report)
}

/// Whether a command is not reported so: it was reported, or it would be reported as done and had
/// no effect.
pub fn is_told(ok: bool, standing: CommandState) -> bool
    ensures { result ≡ (not (admissible.is_open standing.report) || (ok && not standing.effected)) }
{
    !is_open(standing.report) || (ok && !standing.effected)
}
