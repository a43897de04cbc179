// A store as the journal sees it: what it reads as, and what a crash may leave.
ghost use Rattle.std.specs.Prelude.{◌≡◌, ◌≤◌, ◌+◌, ℕ, List, Result, length, take, drop, OnOk};
ghost use Rattle.st_link.specs.Causes.{HasCause};
ghost use Rattle.st_link.specs.declared.link.Failed.{Failed};
ghost use Rattle.st_store.specs.Store.{Elapses, Follows, IsWithin, Only, Torn, written};

use st_link::Failed;

/// Bytes that outlive a crash. A range that was written since the last sync that succeeded may hold
/// any bytes after a crash, also if the write failed; all other bytes stay. `docs/PROTOCOL.md`,
/// "A metadata journal", has the rules.
pub trait Store {
    /// The bytes that the store reads as.
    ghost seen: { Self → List ℕ };

    /// What a crash at this moment may leave.
    ghost may_leave: { Self → List ℕ → Type 0 };

    /// The moment, as a number that does not fall.
    ghost moment: { Self → ℕ };

    /// What a crash at some moment from that one on might have left, during a call or between two.
    ghost left_since: { Self → ℕ → List ℕ → Type 0 };

    /// The number of calls that failed, or 2^64 - 1 if there were more.
    ghost faults: { Self → ℕ };

    /// What a write of these bytes at this place did, as far as the store tells.
    ghost writes: { Self → ℕ → List ℕ → Result Unit Failed → Self → Type 0 };

    /// What a sync did, as far as the store tells.
    ghost syncs: { Self → Result Unit Failed → Self → Type 0 };

    /// What no call changes, as far as the store tells.
    ghost keeps: { Self → Self → Type 0 };

    /// The number of bytes.
    fn size(&self) -> u64
        ensures { result ≡ length (seen self.now) };

    /// Fills `room` with the bytes from `at` on. A failed read leaves any bytes in `room`.
    fn read(&mut self, at: u64, room: &mut [u8]) -> Result<(), Failed>
        requires { at + length room.old ≤ length (seen self.old) }
        ensures bytes { OnOk result (room.new ≡ take (length room.old) (drop at (seen self.old))) }
        ensures seen { OnOk result (seen self.new ≡ seen self.old) }
        ensures crash { IsWithin (may_leave self.old) (may_leave self.new) }
        ensures time { Elapses (moment self.old) (moment self.new) (left_since self.old) (left_since self.new) (may_leave self.new) }
        ensures kept { keeps self.old self.new }
        ensures cause { HasCause (faults self.old) (faults self.new) result };

    /// Writes the bytes from `at` on, over what is there. Until a sync, and after a failure, a
    /// crash may leave any bytes in the range.
    fn write(&mut self, at: u64, bytes: &[u8]) -> Result<(), Failed>
        requires { at + length bytes.now ≤ length (seen self.old) }
        ensures exact { writes self.old at bytes.now result self.new }
        ensures bytes { OnOk result (seen self.new ≡ written (seen self.old) at bytes.now) }
        ensures crash { Follows (Torn at (length bytes.now)) (may_leave self.old) (may_leave self.new) }
        ensures time { Elapses (moment self.old) (moment self.new) (left_since self.old) (left_since self.new) (may_leave self.new) }
        ensures kept { keeps self.old self.new }
        ensures cause { HasCause (faults self.old) (faults self.new) result };

    /// If it succeeds, a crash leaves what the store reads as, until the next write.
    fn sync(&mut self) -> Result<(), Failed>
        ensures exact { syncs self.old result self.new }
        ensures durable { OnOk result (Only (seen self.old) (may_leave self.new)) }
        ensures seen { OnOk result (seen self.new ≡ seen self.old) }
        ensures crash { IsWithin (may_leave self.old) (may_leave self.new) }
        ensures time { Elapses (moment self.old) (moment self.new) (left_since self.old) (left_since self.new) (may_leave self.new) }
        ensures kept { keeps self.old self.new }
        ensures cause { HasCause (faults self.old) (faults self.new) result };

    /// What the store reads as is one of the contents that a crash may leave.
    ghost stands: { (s : Self) → may_leave s (seen s) };

    /// A crash leaves as many bytes.
    ghost one_size: { (s : Self) (c : List ℕ) → may_leave s c → length c ≡ length (seen s) };

    /// This moment is one of those since an earlier one.
    ghost counts_now: { (s : Self) (t : ℕ) (c : List ℕ) → t ≤ moment s → may_leave s c → left_since s t c };

    /// Since this moment there is no other.
    ghost only_now: { (s : Self) (c : List ℕ) → left_since s (moment s) c → may_leave s c };

    /// Without a call nothing is changed.
    ghost keeps_all: { (s : Self) → keeps s s };

    /// One call more keeps it too.
    ghost keeps_on: { (a b c : Self) → keeps a b → keeps b c → keeps a c };
}
