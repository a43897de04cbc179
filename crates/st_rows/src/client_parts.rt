ghost use Rattle.std.specs.Prelude.{◌≡◌, ◌∷◌, [], None, Some, false, true};
ghost use Rattle.st_base.specs.declared.mode.Mode.TheVariants as modes;
ghost use Rattle.st_rules.specs.Client as client;
ghost use Rattle.st_rules.specs.ClientLease as leases;
ghost use Rattle.st_rules.specs.ClientLocks as locks;
ghost use Rattle.st_rules.specs.ClientPages as pages;
ghost use Rattle.st_rules.specs.declared.client.Asked.TheVariants as becomes;
ghost use Rattle.st_rules.specs.declared.client.ClientInput.TheVariants.{App, Done, Tick};
ghost use Rattle.st_rules.specs.declared.client.Ended.TheVariants as ends;
ghost use Rattle.st_rules.specs.declared.client.IoKind.TheVariants as kinds;
ghost use Rattle.st_rules.specs.declared.client.StandingKind.TheVariants as standings;
ghost use Rattle.st_rules.specs.declared.lease.Phase.TheVariants as phases;
ghost use Rattle.st_rows.specs.ClientScript.{Given, Restarted, client_of, left};
ghost use Rattle.st_rows.specs.ClientTables.{condemned, dirty_client, held, lost_of, one_lock, unsorted_pages};
ghost use Rattle.st_rows.specs.ClientWords.{lost_row, server};
ghost use Rattle.st_rows.specs.Script.{settings};
ghost use Rattle.st_rows.specs.Words.{g, life, page, stamp};

/// What a lease permits at each age, on both sides of every bound.
#[tactic(auto, unfolding(crate::specs::ClientTables::client_tables_open))]
pub fn a_lease_permits_by_its_age()
    ensures none { leases.standing settings None (stamp 0) ≡ standings.Idle }
    ensures young { leases.standing settings (held 10) (stamp 509) ≡ standings.Serve }
    ensures renewing { leases.standing settings (held 10) (stamp 709) ≡ standings.Serve }
    ensures quiet { leases.standing settings (held 10) (stamp 710) ≡ standings.Hold }
    ensures flushing { leases.standing settings (held 10) (stamp 860) ≡ standings.Drain }
    ensures last { leases.standing settings (held 10) (stamp 1009) ≡ standings.Drain }
    ensures over { leases.standing settings (held 10) (stamp 1010) ≡ standings.Lost }
    ensures condemned { leases.standing settings (condemned 10) (stamp 10) ≡ standings.Hold }
    ensures condemned_flushes { leases.standing settings (condemned 10) (stamp 860) ≡ standings.Drain }
    ensures reads { leases.may_use standings.Serve ≡ true }
    ensures holds { leases.may_use standings.Hold ≡ false }
    ensures writes { leases.may_submit standings.Hold ≡ true }
    ensures drains { leases.may_submit standings.Drain ≡ true }
    ensures stops { leases.may_submit standings.Lost ≡ false }
    ensures idles { leases.may_submit standings.Idle ≡ false }
{}

/// A lease is renewed only by a later stamp, and not when it is condemned.
#[tactic(auto, unfolding(crate::specs::ClientTables::client_tables_open))]
pub fn a_lease_is_renewed_by_later_stamps()
    ensures later { leases.renewed (stamp 11) (leases.new_lease (stamp 10)) ≡ leases.new_lease (stamp 11) }
    ensures same { leases.is_renewal (stamp 10) (leases.new_lease (stamp 10)) ≡ false }
    ensures condemned { leases.is_renewal (stamp 11) (leases.condemned (leases.new_lease (stamp 10))) ≡ false }
{}

/// What a client tells the world of its lease and pages, with a session and without one.
#[tactic(auto, unfolding(crate::specs::ClientTables::client_tables_open))]
pub fn a_client_tells_of_its_leases()
    ensures phase { client.phase_with (dirty_client 1) (server 1) (stamp 850) ≡ Some phases.Flush }
    ensures end { client.lease_end_with (dirty_client 1) (server 1) ≡ Some (stamp 1000) }
    ensures dirty { client.has_dirty_with (dirty_client 1) (server 1) ≡ true }
    ensures hard { client.has_dirty_with (left ((Given 850 Tick) ∷ (Given 850 (Done 1 (Some None))) ∷ []) (dirty_client 1)) (server 1) ≡ false }
    ensures no_phase { client.phase_with (client_of 2) (server 2) (stamp 0) ≡ None }
    ensures no_end { client.lease_end_with (client_of 2) (server 2) ≡ None }
    ensures lost { client.lives (left ((Given 1000 Tick) ∷ []) (dirty_client 1)) ≡ life 2 ∷ [] }
    ensures started { client.lives (left (Restarted ∷ Restarted ∷ []) (client_of 2)) ≡ life 3 ∷ life 3 ∷ [] }
{}

/// Lost pages of a file are reported once, by rising page; those of other files stay.
#[tactic(auto, unfolding(crate::specs::ClientTables::client_tables_open))]
pub fn lost_pages_are_told_by_rising_page()
    ensures rising { pages.told_rows unsorted_pages 2 ≡ lost_row 1 0 ∷ lost_row 4 9 ∷ lost_row 7 2 ∷ [] }
    ensures left { pages.told_rows (pages.untold unsorted_pages 2) 2 ≡ [] }
    ensures others { pages.told_rows (pages.untold unsorted_pages 2) 3 ≡ lost_row 0 5 ∷ [] }
    ensures replaced { pages.told_rows (pages.with_lost (lost_of 2 4 6) unsorted_pages) 2 ≡ lost_row 1 0 ∷ lost_row 4 6 ∷ lost_row 7 2 ∷ [] }
{}

/// A lock is installed, demanded and reduced only by grant numbers.
#[tactic(auto, unfolding(crate::specs::ClientTables::client_tables_open))]
pub fn a_lock_goes_by_grant_numbers()
    ensures same { locks.install_grant one_lock 2 (g 4294967297) modes.S ≡ one_lock }
    ensures later { locks.mode_of (locks.install_grant one_lock 2 (g 4294967298) modes.S) 2 ≡ modes.S }
    ensures stale { (locks.demand one_lock 2 (g 4294967296) modes.None).asked ≡ becomes.Stale }
    ensures unheld { (locks.demand one_lock 3 (g 1) modes.None).asked ≡ becomes.NotHeld }
    ensures reduced { (locks.reduce (locks.demand one_lock 2 (g 4294967298) modes.S).locks 2).given ≡ Some (g 4294967298, modes.S) }
    ensures undemanded { (locks.reduce one_lock 2).given ≡ None }
    ensures dropped { locks.mode_of (locks.drop_lock one_lock 2) 2 ≡ modes.None }
{}

/// Commands end by their numbers, and a write by its version.
#[tactic(auto, unfolding(crate::specs::ClientTables::client_tables_open))]
pub fn a_command_ends_once()
    ensures unknown { (pages.end_command [] 1 true 1).ended ≡ ends.Unknown }
    ensures hard { (pages.end_command (pages.begin_command [] 1 2 (page 0) (kinds.Write 4)) 1 true 4).ended ≡ ends.Hard }
    ensures dirty_again { (pages.end_command (pages.begin_command [] 1 2 (page 0) (kinds.Write 4)) 1 true 5).ended ≡ ends.Redirty }
    ensures failed { (pages.end_command (pages.begin_command [] 1 2 (page 0) (kinds.Write 4)) 1 false 4).ended ≡ ends.Failed }
    ensures filled { (pages.end_command (pages.begin_command [] 1 2 (page 0) kinds.Read) 1 true 0).ended ≡ ends.Filled }
    ensures gone { (pages.end_command (pages.begin_command [] 1 2 (page 0) kinds.Read) 1 true 0).commands ≡ [] }
    ensures all { pages.begin_writes [] ((2, page 0, 4) ∷ (2, page 1, 5) ∷ []) 7
        ≡ pages.begin_command (pages.begin_command [] 7 2 (page 0) (kinds.Write 4)) 8 2 (page 1) (kinds.Write 5) }
{}
