// From which moment on a tick does something.
ghost use Rattle.std.specs.Prelude.{◌≡◌, IfOk, if◌then◌else◌, None};
ghost use Rattle.st_due.specs.Moments as moments;
ghost use Rattle.st_due.specs.Moments.{earliest, readable_by};
ghost use Rattle.st_due.specs.ServerDue.{grants_at, server_due, suspicions_at};

use crate::turn::ServerTurn;
use st_due::sooner;
use std::alloc::AllocError;

/// When a grant is made at the end of grace, if there is one to make.
fn grant_due(may: bool, end: Option<u64>) -> Option<u64>
    ensures { result ≡ if may then end else None }
{
    if may { end } else { None }
}

/// The first of these moments.
fn first_of(
    thefts: Option<u64>,
    suspicions: Option<u64>,
    grants: Option<u64>,
    demands: Option<u64>,
) -> Option<u64>
    ensures { result ≡ moments.sooner thefts (moments.sooner suspicions (moments.sooner grants demands)) }
{
    sooner(thefts, sooner(suspicions, sooner(grants, demands)))
}

impl ServerTurn {
    /// From which moment on a client is suspected.
    fn first_suspicion(&self) -> Option<u64>
        ensures { result ≡ readable_by (earliest (suspicions_at self.now.state.config self.now.state.authority self.now.state.locks)) }
    {
        self.locks
            .first_overdue(&self.config, self.authority.suspects())
    }

    /// From which moment on a lock is granted.
    fn first_grant(&self) -> Result<Option<u64>, AllocError>
        ensures { IfOk result (λ o. o ≡ readable_by (earliest (grants_at self.now.state.grace self.now.state.locks))) }
    {
        let may = self.locks.may_grant_one()?;
        Ok(grant_due(may, self.grace.end()))
    }

    /// From which moment on a tick does something; none if no clock may read it.
    pub(crate) fn due(&self) -> Result<Option<u64>, AllocError>
        ensures { IfOk result (λ o. o ≡ readable_by (server_due self.now.state)) }
    {
        let grants = self.first_grant()?;
        let demands = self
            .locks
            .first_demand(&self.config, self.authority.suspects())?;
        let thefts = self.authority.first_theft();
        let suspicions = self.first_suspicion();
        Ok(first_of(thefts, suspicions, grants, demands))
    }
}
