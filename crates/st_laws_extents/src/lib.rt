//! Clients know where pages lie as their servers have it; so reads return the last writes, and the
//! pages hold, in every run.
#![tactic(auto)]

ghost use Rattle.st_promises.specs.Held.{DisksHoldWhatIsHard};
ghost use Rattle.st_laws_extents.specs.CutRequests.EndedLives.{GoesBetween};
ghost use Rattle.st_laws_extents.specs.CutRequests.FreshRequests.{FreshAreOutstanding};
ghost use Rattle.st_laws_extents.specs.CutRequests.Law.{CutsAreAsked};
ghost use Rattle.st_laws_extents.specs.CutRequests.NamedGrants.{NumbersNameFiles};
ghost use Rattle.st_laws_extents.specs.ExtentReplies.Law.{AskedAfter, InRunsAsked, IsAsked};
ghost use Rattle.st_laws_extents.specs.ExtentReplies.Maps.{MapsAt};
ghost use Rattle.st_laws_extents.specs.ExtentReplies.Steps.{StepsTell};
ghost use Rattle.st_laws_extents.specs.Known.Current.{OldGrantsStayGone};
ghost use Rattle.st_laws_extents.specs.Known.Law.{InRunsTold, IsTold, KnownAfter, SubmitsAt};
ghost use Rattle.st_laws_extents.specs.Known.ToldExtents.{RepliesTellExtents};
ghost use Rattle.st_laws_leases.specs.Sides.Law.{InEveryRun};
ghost use Rattle.st_laws_pages.specs.Disks.Runs.{PagesAfter};
ghost use Rattle.st_laws_requests.specs.Replies.ServedRequests.{ReassertionsNew, RepliesAfter};
ghost use Rattle.st_rules.specs.Safety.{ReadsReturnLastWrites};

/// In every run each reassertion that comes to a server in its grace finds no ended session of its
/// life.
pub fn reassertions_are_new()
    ensures { InEveryRun ReassertionsNew }
{}

/// In every run, for each message of a server that ends a request, one of these holds: it is of an
/// earlier epoch; the server's session of its life reached its number; or it answers a reassertion,
/// with a refusal or under a number beyond the first.
pub fn replies_are_reached()
    ensures { InEveryRun RepliesAfter }
{}

/// In every state that the machine of a server and its clients can reach, a grant's number was
/// given to a client on one file; and each row and each lock of the client has a number that was
/// given on its file.
pub fn numbers_name_files()
    ensures { NumbersNameFiles }
{}

/// In every run, before each step: a message with the next number of its client's session, of its
/// life and epoch, is the outstanding request of that client, if it runs and its lease there is
/// not over.
pub fn fresh_requests_are_outstanding()
    ensures { InEveryRun FreshAreOutstanding }
{}

/// In every run each cut that a step logs is asked: the only client that has the file, with a lock
/// of it under a lease that is not over, has a request for the cut outstanding, from that page or
/// an earlier one, or one to remove the file.
pub fn cuts_are_asked()
    ensures { InEveryRun CutsAreAsked }
{}

/// Every event of every run leaves servers in no earlier epoch, and their sessions go on in the
/// same epoch; and each message that it sends is of a server, or of a client in the life that it
/// has at the server that it is for, or in the next one.
pub fn events_go_on()
    ensures { InEveryRun GoesBetween }
{}

/// In every run in which replies that are received tell extents as their servers have them: what a
/// client that runs knows of where the pages of a server's files lie, under a lease that is not
/// over, is as that server has it; and each write that a step submits goes to there.
pub fn known_extents()
    ensures known { InRunsTold KnownAfter }
    ensures submits { InRunsTold SubmitsAt }
{}

/// In a step of a server, for each reply of extents that is sent or kept: it was kept before, or it
/// answers the message that comes in and each of its rows is an extent that the server has after
/// the step.
pub fn replies_tell_extents()
    ensures { RepliesTellExtents }
{}

/// In a session whose locks have the greatest grants that were seen of their files: after a grant,
/// a demand, a reduction or a drop the greatest grants seen have not fallen, and each lock with a
/// grant that was seen before was there before.
pub fn old_grants_stay_gone()
    ensures { OldGrantsStayGone }
{}

/// A server's step leaves extents as they were, or as the rule of the one request leaves them that
/// it serves; and each reply that it sends or keeps and that tells extents was kept before, or
/// tells them as the step leaves them.
pub fn steps_tell_extents()
    ensures { StepsTell }
{}

/// In every run in which each outstanding request goes on under its lock, or is new: what a server
/// sent or keeps in reply to an outstanding request for extents, whose lock the client holds under
/// a lease that lasts, tells the extents that the server has.
pub fn replies_tell_present_extents()
    ensures { InRunsAsked AskedAfter }
{}

/// In every such run each reply of extents that a client receives, to its outstanding request,
/// under the lock under which it asked, tells the extents that the server has; what clients know of
/// where pages lie is right; and each write that is submitted goes there.
pub fn known_extents_are_told()
    ensures told { InRunsAsked IsTold }
    ensures known { InRunsAsked KnownAfter }
    ensures submits { InRunsAsked SubmitsAt }
{}

/// In every such run a map's reply that a client receives, under the lock under which it asked, and
/// that reports no block, is right: the server has none for the page.
pub fn unmapped_pages_are_told()
    ensures { InRunsAsked MapsAt }
{}

/// In every run, for a request that is outstanding after a step, under a lock that its client has
/// and a lease that lasts: it was outstanding so before the step, or no reply of extents was sent
/// or kept under its number.
pub fn requests_go_on()
    ensures { InEveryRun IsAsked }
{}

/// In every run what a server sent or keeps in reply to an outstanding request for extents, whose
/// lock the client holds under a lease that lasts, tells the extents that the server has.
pub fn replies_tell_extents_in_every_run()
    ensures { InEveryRun AskedAfter }
{}

/// In every run each reply of extents that a client receives, to its outstanding request, under the
/// lock under which it asked, has the extents that the server has; what clients know of where
/// pages lie is right; each write that is submitted goes there; and a map's reply that reports no
/// block is right.
pub fn extents_are_known_in_every_run()
    ensures told { InEveryRun IsTold }
    ensures known { InEveryRun KnownAfter }
    ensures submits { InEveryRun SubmitsAt }
    ensures maps { InEveryRun MapsAt }
{}

/// In every run reads return the last writes, and what is on the disks is what the log says is
/// hard.
pub fn runs_read()
    ensures reads { InEveryRun ReadsReturnLastWrites }
    ensures pages { InEveryRun PagesAfter }
{}

/// In every run the disks hold of each page what the log says is hard.
pub fn disks_hold()
    ensures { InEveryRun DisksHoldWhatIsHard }
{}
