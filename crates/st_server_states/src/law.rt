ghost use Rattle.std.specs.Prelude.{◌≡◌, Some};
ghost use Rattle.st_extents.specs.Layout.{IsWithinLimits, Shape};
ghost use Rattle.st_journal.specs.Stable.{fresh};
ghost use Rattle.st_journal.specs.declared.change.Change.{Change};
ghost use Rattle.st_rules.specs.Server.{Stable};
ghost use Rattle.st_server_states.specs.States.{Keeps, MayHave, states};
ghost use Rattle.st_snapshot.specs.Snapshots.{HasShape};
ghost use Rattle.st_stable_file.specs.Formats.{IsOfStables};
ghost use Rattle.st_stable_file.specs.Stables.{changed};

/// The stable parts that a server may have are the states of a format for a journal's file, of
/// which `st_stable_file::a_stable_file_outlives_crashes` speaks.
pub fn a_server_has_a_format()
    // A server that never began an epoch has one,
    ensures fresh { (s : Shape) → IsWithinLimits s.server.0 s.servers s.disks s.blocks → MayHave s (fresh s) }
    // changes keep what always holds of them,
    ensures keeps { (s : Shape) → Keeps s }
    // and no change makes another shape of any stable part.
    ensures shape { (s : Shape) (t u : Stable) (x : Change) → HasShape s t → changed t x ≡ Some u → HasShape s u }
    ensures format { (s : Shape) (k : Keeps s) → IsOfStables s (states s k) }
{}
