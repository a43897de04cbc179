// All that a client does at a server at the end of a step.
ghost use Rattle.std.specs.Prelude.{◌≡◌, true, IfOk, OnOk};
ghost use Rattle.st_rules.specs.ClientInvariants.{lasts_here};
ghost use Rattle.st_rules.specs.ClientPasses as passes;

use crate::greetings::greet;
use crate::operations::operations;
use crate::reductions::reductions;
use crate::requests::requests;
use crate::writes::writes;
use st_base::Stamp;
use st_client_association::{SessionTurn, Turn};
use std::alloc::AllocError;

/// With a session: operations, reductions, writes and requests.
#[tactic(auto, unfolding(st_rules::specs::ClientPasses::passes))]
fn with_session(t: &mut SessionTurn, now: Stamp, tick: bool) -> Result<(), AllocError>
    requires { lasts_here t.old.config now t.old.here ≡ true }
    ensures { OnOk result (t.new ≡ passes.passes now tick t.old) }
{
    operations(t, now)?;
    reductions(t)?;
    writes(t, now, tick)?;
    requests(t, now, tick)
}

/// What is done at a server at the end of a step: with a session operations, reductions, writes
/// and requests; without one the syncs of hard files are answered, and the client greets. `tick`
/// says whether the input of the step was one. The lease at the server is not over.
pub fn passes(t: Turn, now: Stamp, tick: bool) -> Result<Turn, AllocError>
    requires lasting { lasts_here t.config now t.here ≡ true }
    ensures { IfOk result (λ u. u ≡ passes.passes now tick t) }
{
    match t.into_session() {
        Ok(mut t) => {
            with_session(&mut t, now, tick)?;
            Ok(t.into_turn())
        }
        Err(mut t) => {
            t.answer_hard_syncs()?;
            greet(&mut t, now, tick)?;
            Ok(t)
        }
    }
}
