// A rule for one association, as it is done at each server in turn.
ghost use Rattle.std.specs.Prelude.{◌≡◌, true, false, IfOk};
ghost use Rattle.st_client.specs.IdleRules.{IsIdle};
ghost use Rattle.st_client.specs.Machines.{Advances};

use st_client_association::{Association, Turn};
use st_operations::Operations;
use std::alloc::AllocError;

/// A rule at an association, and what it needs of it.
pub trait Rule {
    ghost use Rattle.std.specs.Prelude.{Bool};
    ghost use Rattle.st_base.specs.declared.config.Config as settings;
    ghost use Rattle.st_rules.specs.ClientState as shared;

    ghost run: { Self → shared.Turn → shared.Turn };

    ghost is_ready: { Self → settings.Config → shared.Association → Bool };

    /// Whether the rule may do anything at an association, with these pending operations.
    fn touches(&self, a: &Association, operations: &Operations) -> bool
        ensures { result ≡ false → IsIdle (run self.now) operations.now a.now };

    /// The step after the rule at an association.
    fn apply(&self, turn: Turn) -> Result<Turn, AllocError>
        requires { is_ready self.now turn.config turn.here ≡ true }
        ensures run { IfOk result (λ t. t ≡ run self.now turn) }
        ensures advances { IfOk result (λ t. Advances turn t) };
}
