// Operations that no leave of their server precedes, and the leave that no operation precedes.
ghost use Rattle.std.specs.Prelude.{◌≡◌};
ghost use Rattle.std.specs.List.{list_any};
ghost use Rattle.st_third.specs.State as third;

use crate::step::SessionStep;
use st_base::ServerId;
use st_operations::{Operations, Test, is_of};
use st_rules::Operation;
use st_third::Leave;

/// Whether it is a leave of this server, with a number below this one.
fn is_leave_before(server: ServerId, op: u32, leave: &Leave) -> bool
    ensures { result ≡ third.is_leave_before server op leave.now }
{
    leave.server.0 == server.0 && leave.op < op
}

/// Whether a leave of this server has a number below this one.
fn any_leave_before(leaves: &[Leave], server: ServerId, op: u32) -> bool
    ensures { result ≡ list_any (third.is_leave_before server op) leaves.now }
{
    leaves
        .iter()
        .any(|leave| is_leave_before(server, op, leave))
}

/// Whether the operation is one of this server, and no leave of the server is pending before it.
pub fn is_active(leaves: &[Leave], server: ServerId, operation: &Operation) -> bool
    ensures { result ≡ third.is_active leaves.now server operation.now }
{
    is_of(server, operation) && !any_leave_before(leaves, server, operation.op)
}

/// The operations of this server with a number below this one.
#[derive(Clone, Copy)]
struct Before {
    server: ServerId,
    op: u32,
}

impl Test<Operation> for Before {
    ghost use Rattle.st_third.specs.State.{is_before};

    ghost passes = { λ t o. is_before t.server t.op o };

    fn test(&self, operation: &Operation) -> bool {
        is_of(self.server, operation) && operation.op < self.op
    }
}

/// Whether it is a leave of this server that no operation of the server precedes.
fn is_first_leave(server: ServerId, operations: &Operations, leave: &Leave) -> bool
    ensures { result ≡ third.is_first_leave server operations.now leave.now }
{
    leave.server.0 == server.0
        && !operations.any(&Before {
            server,
            op: leave.op,
        })
}

/// Whether there is such a leave.
fn any_first_leave(leaves: &[Leave], server: ServerId, operations: &Operations) -> bool
    ensures { result ≡ list_any (third.is_first_leave server operations.now) leaves.now }
{
    leaves
        .iter()
        .any(|leave| is_first_leave(server, operations, leave))
}

impl SessionStep {
    /// Whether the first pending operation of the server is a leave.
    pub fn is_leaving(&self) -> bool
        ensures { result ≡ third.is_leaving self.now }
    {
        any_first_leave(
            self.aside.leaves.as_slice(),
            self.server(),
            self.turn.turn().operations(),
        )
    }
}
