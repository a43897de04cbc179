// Which calls of a store in memory fail, and in which one it stops.
ghost use Rattle.std.specs.Prelude.{◌≡◌, ◌≤◌, ◌==◌};
ghost use Rattle.std.specs.List.{list_any};
ghost use Rattle.st_store.specs.Plans as plans;

use st_link::Failed;

/// A stop: in how many calls it comes, counting the next one as 1, and the byte that unsynced bytes
/// become. At 0 it does not come.
#[derive(Clone, Copy, Debug, PartialEq, Eq)]
pub struct Stop {
    pub left: u64,
    pub byte: u8,
}

/// What becomes of a call: it works; it fails and changes nothing; or the store stops in it.
#[derive(Clone, Copy, Debug, PartialEq, Eq)]
pub enum Outcome {
    Works,
    Fails,
    Stops(u8),
}

/// The number of calls so far, the numbers of the calls that fail, the number of faults so far, the
/// stop that is set, and whether the store has stopped.
#[derive(Drop)]
pub struct Plan {
    pub calls: u64,
    pub failing: Vec<u64>,
    pub faults: u64,
    pub stop: Option<Stop>,
    pub stopped: bool,
}

/// The stop with one call less to come.
fn counted_down(stop: Option<Stop>) -> Option<Stop>
    ensures { result ≡ plans.counted_down stop }
{
    match stop {
        None => None,
        Some(stop) => Some(Stop {
            left: stop.left.saturating_sub(1),
            byte: stop.byte,
        }),
    }
}

/// Whether the call of this number is one that fails.
fn is_listed(failing: &[u64], call: u64) -> bool
    ensures { result ≡ list_any (λ n. n == call) failing.now }
{
    failing.iter().any(|n| *n == call)
}

impl Plan {
    /// No call fails but those with these numbers.
    pub fn new(failing: Vec<u64>) -> Plan
        ensures { result ≡ plans.fresh failing }
    {
        Plan {
            calls: 0,
            failing,
            faults: 0,
            stop: None,
            stopped: false,
        }
    }

    /// What becomes of the next call.
    fn outcome(&self) -> Outcome
        ensures { result ≡ plans.outcome self.now }
    {
        if self.stopped {
            return Outcome::Fails;
        }
        match self.stop {
            Some(stop) if stop.left == 1 => Outcome::Stops(stop.byte),
            _ => {
                if is_listed(self.failing.as_slice(), self.calls.saturating_add(1)) {
                    Outcome::Fails
                } else {
                    Outcome::Works
                }
            }
        }
    }

    /// Counts a call, and says what becomes of it.
    pub fn call(&mut self) -> Outcome
        ensures outcome { result ≡ plans.outcome self.old }
        ensures counted { self.new ≡ plans.counted self.old }
    {
        let outcome = self.outcome();
        self.calls = self.calls.saturating_add(1);
        self.stop = counted_down(self.stop);
        outcome
    }

    /// Counts a fault.
    pub fn fail(&mut self) -> Failed
        ensures failed { self.new ≡ plans.failed self.old }
        ensures later { self.old.faults ≤ self.new.faults }
    {
        self.faults = self.faults.saturating_add(1);
        Failed
    }

    /// The store stops.
    pub fn halt(&mut self)
        ensures { self.new ≡ plans.halted self.old }
    {
        self.stopped = true;
    }

    /// Sets the stop, in place of an earlier one.
    pub fn stop(&mut self, call: u64, byte: u8)
        ensures { self.new ≡ plans.with_stop self.old call byte }
    {
        self.stop = Some(Stop { left: call, byte });
    }

    /// Takes the stop out.
    pub fn restart(&mut self)
        ensures { self.new ≡ plans.restarted self.old }
    {
        self.stop = None;
        self.stopped = false;
    }
}
