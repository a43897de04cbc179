ghost use Rattle.std.specs.Prelude.{◌≡◌, IsOk, true};
ghost use Rattle.std.specs.List.{IsDistinct, list_all};
ghost use Rattle.st_base.specs.Config as settings;
ghost use Rattle.st_due.specs.Moments.{readable};
ghost use Rattle.st_due.specs.ServerDue.{grace_end};
ghost use Rattle.st_locks.specs.Calls.{is_lock_row, same_file};
ghost use Rattle.st_locks.specs.DemandStarts.{IsClient};
ghost use Rattle.st_rules.specs.Grace as grace;
ghost use Rattle.st_reassert.specs.Acceptance.{Accepts, is_older};

use crate::acceptance::accept_rows;
use crate::refusal::ReassertRefusal;
use st_base::{ClientId, Config, GrantNo, Life, Mode, Stamp};
use st_clock::steal_wait;
use st_due::after;
use st_locks::LockTable;
use st_sessions::Sessions;
use std::marker::Model;

/// When a grace began, and how long it lasts.
#[derive(Clone, Copy)]
struct Period {
    start: Stamp,
    wait: u64,
}

/// The grace of one epoch of a server, or that it has none. Contracts see it as an option of the
/// grace's start and length.
#[derive(Drop)]
pub struct Grace {
    period: Option<Period>,
}

impl Model for Grace {
    ghost use Rattle.std.specs.Prelude.{Option};
    ghost use Rattle.st_rules.specs.Grace as grace;
    ghost use Rattle.st_reassert.specs.Periods.{grace_of};

    ghost Value = { Option grace.Grace };

    ghost view = { λ g. grace_of g.period };
}

impl Grace {
    /// An epoch without grace.
    pub fn none() -> Grace
        ensures { result ≡ grace.no_grace }
    {
        Grace { period: None }
    }

    /// Grace begins now, and lasts for the steal wait.
    pub fn begin(now: Stamp, config: &Config) -> Grace
        requires checked { IsOk (settings.check config.now) }
        ensures exact { result ≡ grace.begin_grace now config.now }
    {
        Grace {
            period: Some(Period {
                start: now,
                wait: steal_wait(config),
            }),
        }
    }

    /// Whether grace is on at this moment. It does not allocate.
    pub fn is_on(&self, now: Stamp) -> bool
        ensures { result ≡ grace.is_on self.now now }
    {
        match self.period {
            None => false,
            Some(period) => is_within(period, now),
        }
    }

    /// The moment from which on grace is over, which is 0 if there is none; none if no clock may
    /// read it. It does not allocate.
    pub fn end(&self) -> Option<u64>
        ensures { result ≡ readable (grace_end self.now) }
    {
        match self.period {
            None => Some(0),
            Some(period) => after(period.start, period.wait),
        }
    }

    /// When the grace of this epoch began, or 0 if it has none. It does not allocate.
    pub fn start(&self) -> Stamp
        ensures { result ≡ grace.grace_start self.now }
    {
        match self.period {
            None => Stamp(0),
            Some(period) => period.start,
        }
    }

    /// Accepts the rows that a client reasserts in this life: they are installed, and its session
    /// is made. It is refused, in this order: if grace isn't on (`GraceOver`); at the first row
    /// with a grant number that no earlier epoch gave (`NotHolder`); if the client itself has rows,
    /// at the least file of them (`Conflict`); and at the first row that conflicts with another
    /// client's (`Conflict`). A refusal changes nothing. If the call runs out of memory, nothing is
    /// promised about the locks and the sessions.
    #[tactic(auto, unfolding(st_rules::specs::Grace::accept))]
    pub fn accept(
        &self,
        now: Stamp,
        client: ClientId,
        life: Life,
        rows: &[(u32, GrantNo, Mode)],
        locks: &mut LockTable,
        sessions: &mut Sessions,
    ) -> Result<(), ReassertRefusal>
        requires client { IsClient client }
        requires distinct { IsDistinct same_file rows.now }
        requires modes { list_all is_lock_row rows.now ≡ true }
        requires older { is_older locks.old client life ≡ true }
        ensures { Accepts (record { locks = locks.old; sessions = sessions.old }) (record { locks = locks.new; sessions = sessions.new }) result
            (grace.accept self.now now client life rows.now locks.old sessions.old) }
    {
        if self.is_on(now) {
            accept_rows(client, life, rows, locks, sessions)
        } else {
            Err(ReassertRefusal::GraceOver(self.start(), now))
        }
    }
}

/// Whether a grace is still on.
fn is_within(period: Period, now: Stamp) -> bool
    ensures { result ≡ grace.is_within (record { start = period.start; wait = period.wait }) now }
{
    now.0 < period.start.0 || now.0 - period.start.0 < period.wait
}
