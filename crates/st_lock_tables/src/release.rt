// What takes locks and waits away, and the answer to a demand.
ghost use Rattle.std.specs.Prelude.{◌≡◌, ◌≤◌, ◌<◌, ◌+◌, ◌^◌, ◌++◌, ◌∷◌, ◌&&◌, [], IfOk, IfSome, OnOk, OnErr, Some, find, filter, map, not, length, slice_get, None, false, nat_lt, nat_le, ◌==◌, if◌then◌else◌};
ghost use Rattle.std.specs.List.{IsDistinct, list_any};
ghost use Rattle.std.specs.Option.{option_copied, option_map, option_to_list};
ghost use Rattle.st_rules.specs.Keys as keys;
ghost use Rattle.st_rules.specs.Locks as locks;
ghost use Rattle.st_lock_tables.specs.DemandStarts.{IsClient, KeepsSince, since_of_demand};
ghost use Rattle.st_lock_tables.specs.Calls.{Answers, Gives, Installs, demanding, granting, same_file, told, with_one};

use crate::table::PlainTable;
use st_base::{ClientId, GrantNo, Life, Mode};
use st_rules::{LockRow, RowDemand};

#[tactic(auto, unfolding(st_rules::specs::Locks::unless_met))]
fn demand_lowered(demand: Option<RowDemand>) -> Option<RowDemand>
    ensures lowered { result ≡ locks.demand_lowered demand }
    ensures quiet { since_of_demand result ≡ None }
{
    match demand {
        None => None,
        Some(d) => {
            if d.to.number() == 1 {
                None
            } else {
                Some(RowDemand {
                    to: d.to,
                    sent: d.sent,
                    since: None,
                })
            }
        }
    }
}

/// A row that is shared.
#[tactic(auto, unfolding(st_rules::specs::Locks::lowered))]
fn lowered(row: LockRow) -> LockRow
    ensures lowered { result ≡ locks.lowered row }
    ensures same { (result.client ≡ row.client) × (result.ino ≡ row.ino) }
    ensures quiet { since_of_demand result.demand ≡ None }
{
    LockRow {
        ino: row.ino,
        client: row.client,
        life: row.life,
        g: row.g,
        mode: Mode::S,
        demand: demand_lowered(row.demand),
    }
}

fn demand_answered(demand: Option<RowDemand>) -> Option<RowDemand>
    ensures answered { result ≡ option_map locks.answered_demand demand }
    ensures quiet { since_of_demand result ≡ None }
{
    match demand {
        None => None,
        Some(d) => Some(RowDemand {
            to: d.to,
            sent: d.sent,
            since: None,
        }),
    }
}

/// A row whose demand was seen.
#[tactic(auto, unfolding(st_rules::specs::Locks::answered_row))]
fn seen(row: LockRow) -> LockRow
    ensures seen { result ≡ locks.answered_row row }
    ensures same { (result.client ≡ row.client) × (result.ino ≡ row.ino) }
    ensures quiet { since_of_demand result.demand ≡ None }
{
    LockRow {
        ino: row.ino,
        client: row.client,
        life: row.life,
        g: row.g,
        mode: row.mode,
        demand: demand_answered(row.demand),
    }
}

impl PlainTable {
    /// All rows and waits of the client go.
    #[tactic(auto, unfolding(st_rules::specs::Locks::forget))]
    pub fn forget(&mut self, client: ClientId)
        ensures { self.new ≡ locks.forget self.old client }
    {
        self.rows.forget(client);
        self.waits.forget(client);
    }

    /// All waits of the client go.
    #[tactic(auto, unfolding(st_rules::specs::Locks::drop_waits))]
    pub fn drop_waits(&mut self, client: ClientId)
        ensures { self.new ≡ locks.drop_waits self.old client }
    {
        self.waits.forget(client);
    }

    /// All waits for the file go.
    #[tactic(auto, unfolding(st_rules::specs::Locks::drop_file_waits))]
    pub fn drop_file_waits(&mut self, ino: u32)
        ensures { self.new ≡ locks.drop_file_waits self.old ino }
    {
        self.waits.drop_on(ino);
    }

    /// The client's row, lowered or gone.
    #[tactic(auto, unfolding(st_rules::specs::Locks::release_to))]
    fn release_to(&mut self, client: ClientId, ino: u32, row: LockRow, to: Mode)
        requires found { locks.row_of self.old client ino ≡ Some row }
        requires same { (row.client ≡ client) × (row.ino ≡ ino) }
        ensures { self.new ≡ locks.release_to self.old client ino to }
    {
        match to {
            Mode::None => self.rows.remove(client, ino, row),
            Mode::S => self.rows.change(lowered(row), row),
            Mode::X => self.rows.change(lowered(row), row),
        }
    }

    /// The client lowers its lock of the file to this mode; false exactly if it has none of this
    /// life and grant number.
    #[tactic(auto, unfolding(st_rules::specs::Locks::released, st_rules::specs::Locks::released_at, st_rules::specs::Locks::release, st_rules::specs::Locks::not_released))]
    pub fn released(&mut self, client: ClientId, life: Life, ino: u32, g: GrantNo, to: Mode) -> bool
        ensures { locks.released self.old client life ino g to ≡ record { locks = self.new; found = result } }
    {
        match self.row_at(client, ino) {
            None => false,
            Some(row) => {
                if row.life.0 == life.0 && row.g.0 == g.0 {
                    self.release_to(client, ino, row, to);
                    true
                } else {
                    false
                }
            }
        }
    }

    /// The demand on the client's row of the file and grant number waits for no answer.
    #[tactic(auto, unfolding(st_rules::specs::Locks::demand_seen))]
    pub fn answered(&mut self, client: ClientId, ino: u32, g: GrantNo)
        ensures { self.new ≡ locks.demand_seen self.old client ino g }
    {
        // For its clause `distinct`: a client has one row of a file.
        let _rows = self.rows.len();
        if let Some(row) = self.row_at(client, ino) {
            if row.g.0 == g.0 {
                self.rows.change(seen(row), row);
            }
        }
    }
}
