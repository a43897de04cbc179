// The moments at which the demanding pass looks at files again.
ghost use Rattle.std.specs.Prelude.{◌≡◌, ◌+◌, ◌<◌, ◌==◌, ℕ, IfSome, IfNone, OnOk, OnErr, [], false, true, length};
ghost use Rattle.std.specs.List.{list_any};
ghost use Rattle.st_base.specs.declared.ids.Stamp.{Stamp};
ghost use Rattle.st_locks.specs.SettledFiles.{IsQuiet, KeepsAll, KeepsOthers, Wakes, is_kept, is_old, is_timed};

use crate::touched_files::TouchedFiles;
use st_base::Stamp;
use st_lock_tables::{Pass, passed};
use st_rules::RowDemand;
use std::alloc::{AllocError, Global};
use std::collections::BTreeSet;
use std::marker::Model;

/// Moments, and of each a file in whose way a demand was sent then. Contracts see the list of both.
#[derive(Drop)]
pub(crate) struct WakeTimes {
    moments: BTreeSet<(Stamp, u32)>,
}

impl Model for WakeTimes {
    ghost use Rattle.std.specs.Prelude.{List, ℕ};
    ghost use Rattle.st_base.specs.declared.ids.Stamp.{Stamp};

    ghost Value = { List (Stamp × ℕ) };

    ghost view = { λ w. w.moments.keys };
}

impl WakeTimes {
    pub fn new(alloc: Global) -> WakeTimes
        ensures { result ≡ [] }
    {
        WakeTimes {
            moments: BTreeSet::new(alloc),
        }
    }

    /// The file is looked at again once this moment is old.
    fn keep(&mut self, ino: u32, sent: Stamp) -> Result<(), AllocError>
        ensures all { OnOk result (KeepsAll self.old self.new) }
        ensures kept { OnOk result (is_kept self.new ino sent ≡ true) }
    {
        self.moments.insert((sent, ino))?;
        Ok(())
    }

    /// The file is looked at again once its demand is old, if it has one.
    pub fn keep_demand(&mut self, ino: u32, demand: Option<RowDemand>) -> Result<(), AllocError>
        ensures all { OnOk result (KeepsAll self.old self.new) }
        ensures timed { OnOk result (is_timed self.new ino demand ≡ true) }
    {
        match demand {
            None => Ok(()),
            Some(demand) => self.keep(ino, demand.sent),
        }
    }

    /// Takes out the first moment if it is old, and gives its file.
    fn pop_old(&mut self, pass: Pass) -> Option<u32>
        ensures others { IfSome result (λ ino. KeepsOthers ino self.old self.new) }
        ensures fewer { IfSome result (λ ino. length self.new < length self.old) }
        ensures none { IfNone result (list_any (is_old pass.config pass.now) self.new ≡ false) }
        ensures same { IfNone result (self.new ≡ self.old) }
    {
        let first = *self.moments.first()?;
        if passed(first.0, pass.config.retry, pass.now) {
            self.moments.pop_first();
            Some(first.1)
        } else {
            None
        }
    }

    /// Each file of which a moment is old is touched, and these moments are taken out.
    fn wake_old(&mut self, marks: &mut TouchedFiles, pass: Pass) -> Result<(), AllocError>
        ensures kept { Wakes marks.old self.old marks.new self.new }
        ensures quiet { OnOk result (list_any (is_old pass.config pass.now) self.new ≡ false) }
    {
        loop {
            marks.reserve_one()?;
            match self.pop_old(pass) {
                None => return Ok(()),
                Some(ino) => marks.keep(ino),
            }
        }
    }

    /// On a tick each file of which a moment is old is touched.
    pub fn wake(&mut self, marks: &mut TouchedFiles, pass: Pass) -> Result<(), AllocError>
        ensures kept { Wakes marks.old self.old marks.new self.new }
        ensures quiet { OnOk result (IsQuiet pass.config pass.now pass.tick self.new) }
    {
        if pass.tick {
            self.wake_old(marks, pass)
        } else {
            Ok(())
        }
    }
}
