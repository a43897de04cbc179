//! What clients have cached is what the log says, and nobody else writes beside a lock, lives that
//! ended included.
#![tactic(auto)]

ghost use Rattle.st_laws_leases.specs.Sides.Law.{InEveryRun};
ghost use Rattle.st_laws_reads.specs.Copies.Law.{ChangesAreHeld, ChangesLieUnderLocks, OperationsKeepCopies, StepsAnswerRight, StepsKeepCopies};
ghost use Rattle.st_laws_reads.specs.Copies.World.{ClocksKeepCopies, DropsKeepCopies, EffectsKeepCopies, EntriesKeepCopies, EventsKeepCopies, RestartsKeepCopies, RestsStay};
ghost use Rattle.st_laws_reads.specs.FrozenLives.PendingEntries.{FrozenAreAlone, FrozenBegin, FrozenLivesStandAlone, EventsKeepFrozen};
ghost use Rattle.st_laws_reads.specs.FrozenLives.Frozen.{CrashesLeaveLives, LivesStandAlone, PathsKeepLives};
ghost use Rattle.st_laws_reads.specs.OpenWrites.StandAlone.{OpenWritesStandAlone};
ghost use Rattle.st_laws_reads.specs.AllClients.CutFiles.{RunsClear};
ghost use Rattle.st_laws_reads.specs.AllClients.Events.{OthersKeepCopies};
ghost use Rattle.st_laws_reads.specs.AllClients.Law.{PendingPagesStandAlone};
ghost use Rattle.st_laws_reads.specs.AllClients.OwnEntries.{LockedPagesAreOwn, LockedPagesAreSettled};
ghost use Rattle.st_laws_reads.specs.AllClients.World.{TakingsKeepCopies};

/// The pass over the operations keeps the copies: pages have the bytes of the log, and reads are
/// answered by it.
pub fn operations_keep_copies()
    ensures { OperationsKeepCopies }
{}

/// A whole step of a client, whatever comes, keeps the copies at all its servers, under what other
/// laws owe of it.
pub fn steps_keep_copies()
    ensures { StepsKeepCopies }
{}

/// In the world, a client whose outputs are right by the log answers its reads with the last
/// writes, and a sync `hard` only if the writes of the asker's present life to the file are
/// hard.
pub fn steps_answer_right()
    ensures { StepsAnswerRight }
{}

/// Each page that a client's step changed is dirty after the step, under an exclusive lock.
pub fn changes_are_held()
    ensures { ChangesAreHeld }
{}

/// In the world, after a client's step, each write or patch that the step logged is by a client
/// whose lease lasts and which has an exclusive lock on the file; and its page is dirty.
pub fn changes_are_under_locks()
    ensures { ChangesLieUnderLocks }
{}

/// In the world, consider an event at which a client that runs takes an input: a tick, an ask, a
/// message or the end of a command. It keeps the client's copies, by the log of the world that it
/// leaves, under what other laws owe of it. An entry of nobody or of another client, on a file of
/// which this client has no lock, leaves its copies. So does the effect of a disk command, and so
/// does the drop of entries of others or of its earlier lives, on such files. A client that crashes
/// and starts has its copies again: there are none. All this is about servers at which its lease
/// is not over, since a lease that is over is lost before anything else is done; so what holds at a
/// moment holds later. A client that does not run goes on to rest.
pub fn events_keep_copies()
    ensures own { EventsKeepCopies }
    ensures entries { EntriesKeepCopies }
    ensures effects { EffectsKeepCopies }
    ensures drops { DropsKeepCopies }
    ensures restarts { RestartsKeepCopies }
    ensures rests { RestsStay }
    ensures clocks { ClocksKeepCopies }
{}

/// In a world in which all holds, while an entry of a running client's present life is pending,
/// no other client has a lock on its file under a lease that is not over.
pub fn pending_pages_stand_alone()
    ensures { PendingPagesStandAlone }
{}

/// Nothing is pending of a page that is not dirty at a client that runs, while that client has a
/// lock on the file under a lease that is not over: what the disks give for the page is then its
/// content.
pub fn locked_pages_are_settled()
    ensures { LockedPagesAreSettled }
{}

/// Then what is pending of a page belongs only to that client's present life.
pub fn locked_pages_are_own()
    ensures { LockedPagesAreOwn }
{}

/// Consider an event at which a client takes an input: a tick, an ask, a message or the end of a
/// command. It keeps the copies of all clients, its own and the others', if everything holds before
/// it and after it, under what other laws owe only of that client.
pub fn takings_keep_copies()
    ensures { TakingsKeepCopies }
{}

/// Every other event keeps the copies of all clients: crashes and starts, effects of disk commands,
/// steps of servers and advances, if each cut is of a file that no client has in use, and what
/// is pending of lives that are over stands alone.
pub fn others_keep_copies()
    ensures { OthersKeepCopies }
{}

/// In every run, while a client asks a server to cut or to remove a file, it has nothing of the
/// file cached from that page on.
pub fn runs_clear()
    ensures { RunsClear }
{}

/// In the machine, a life that a crash ended is frozen beside its client's later lives up to its
/// lease end; and while it has an exclusive lock on a file, no client has a lock on the file under
/// a lease that lasts.
pub fn lives_stand_still()
    ensures paths { PathsKeepLives }
    ensures crashes { CrashesLeaveLives }
    ensures alone { LivesStandAlone }
{}

/// What is pending of lives that are over stands alone: the lives of pending entries that a crash
/// ended are frozen, with an exclusive lock on the file, from the start of a run on and through
/// every event, if what is pending of present lives is dirty before it; and so no client that
/// runs has a lock on the file, under a lease that is not over.
pub fn frozen_lives_stand_alone()
    ensures begin { FrozenBegin }
    ensures steps { EventsKeepFrozen }
    ensures alone { FrozenLivesStandAlone }
{}

/// In every run, at each of its steps what is pending of lives that are over leaves no client that
/// runs a lock on its file under a lease that is not over.
pub fn frozen_are_alone()
    ensures { InEveryRun FrozenAreAlone }
{}

/// In a world in which all holds, while a write command of a running client's present life may
/// still have its effect, no other client that runs has a lock on its file under a lease that is
/// not over.
pub fn open_writes_stand_alone()
    ensures { OpenWritesStandAlone }
{}
