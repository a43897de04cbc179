// Changes of an operation's stage, each made in place.
use crate::asks::is_asked;
use st_base::ServerId;
use st_rules::{Operation, Stage};
use st_tables::Change;

/// The operation's request was sent.
#[derive(Clone, Copy)]
pub struct Sending;

impl Change<Operation> for Sending {
    ghost use Rattle.st_rules.specs.ClientState.{at_stage};
    ghost use Rattle.st_rules.specs.declared.client.Stage.TheVariants.{Sent};

    ghost changed = { λ c o. at_stage Sent o };

    fn change(&self, operation: &mut Operation) {
        operation.stage = Stage::Sent;
    }
}

/// The operation of the server's outstanding request is stuck.
#[derive(Clone, Copy)]
pub struct Sticking {
    pub server: ServerId,
}

impl Change<Operation> for Sticking {
    ghost use Rattle.st_operations.specs.PendingOperations.{stuck};

    ghost changed = { λ c o. stuck c.server o };

    fn change(&self, operation: &mut Operation) {
        if is_asked(self.server, operation) {
            operation.stage = Stage::Stuck;
        }
    }
}
