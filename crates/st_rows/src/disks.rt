ghost use Rattle.std.specs.Prelude.{◌≡◌, ◌∷◌, [], true, false, Ok, Err, Some, None};
ghost use Rattle.st_base.specs.Page.{filled};
ghost use Rattle.st_rules.specs.declared.disks.CommandRefusal.TheVariants.{NoCommand, NotEffected, Reported, Twice};
ghost use Rattle.st_rules.specs.Disks as disks;
ghost use Rattle.st_rows.specs.Disks.{block_of, after_effect, after_read, after_report, after_write, before};
ghost use Rattle.st_rows.specs.Tables.{tag};
ghost use Rattle.st_rows.specs.Words.{at};

/// A write takes effect as a whole; a read samples the block as it is then; a fresh block has birth
/// 0 and zeros.
#[tactic(auto, unfolding(crate::specs::Disks::disk_rows_open))]
pub fn commands_take_effect()
    ensures fresh { disks.block before (at 1 3) ≡ record { at = at 1 3; tag = disks.fresh_tag; bytes = filled 0 } }
    ensures read { disks.effect before 1 ≡ Ok after_read }
    ensures sampled { disks.sample after_read 1 ≡ Some (record { at = at 1 3; tag = disks.fresh_tag; bytes = filled 0 }) }
    ensures written { disks.effect before 2 ≡ Ok after_write }
    ensures block { disks.block after_write (at 1 3) ≡ record { at = at 1 3; tag = tag 2 0 1; bytes = filled 77 } }
    ensures overwritten { disks.block (disks.with_block (block_of 5) after_write) (at 1 3) ≡ block_of 5 }
    ensures other_block { disks.block (disks.with_block (block_of 5) after_write) (at 1 4) ≡ disks.fresh_block (at 1 4) }
    ensures unread { disks.sample before 1 ≡ None }
{}

/// The refusals of an effect and of a report, in their order.
#[tactic(auto, unfolding(crate::specs::Disks::disk_rows_open))]
pub fn commands_are_refused()
    ensures none { disks.effect before 3 ≡ Err (NoCommand 3) }
    ensures zero { disks.effect before 0 ≡ Err (NoCommand 0) }
    ensures twice { disks.effect after_effect 2 ≡ Err (Twice 2) }
    ensures reported_first { disks.effect after_report 2 ≡ Err (Reported 2) }
    ensures no_report { disks.done before 3 true ≡ Err (NoCommand 3) }
    ensures without_effect { disks.done before 2 true ≡ Err (NotEffected 2) }
    ensures done { disks.done after_effect 2 true ≡ Ok after_report }
    ensures done_twice { disks.done after_report 2 false ≡ Err (Twice 2) }
{}
