//! The grant under which an entry of the log was accepted: its server sent it to its client.
#![tactic(auto)]

ghost use Rattle.st_laws_entries.specs.EntryGrants.{EntriesAreGranted};
ghost use Rattle.st_laws_leases.specs.Sides.Law.{InEveryRun};

/// In every run the grant number under which an entry joins the log was given by a message
/// `granted` of the file's server, for that file. It went to the client whose write or patch the
/// entry is; for a cut, to the client that had the file's exclusive row. So the order of locks, of
/// which `ChangesGoInTheOrderOfLocks` speaks, is an order of grants that servers sent.
pub fn entries_are_granted()
    ensures { InEveryRun EntriesAreGranted }
{}
