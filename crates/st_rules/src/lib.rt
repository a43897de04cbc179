//! The protocol's definitions, and the plain rows and answers that they use.
//! `docs/PROTOCOL.md` tells each rule in words, under the name above its definition in `specs/`.
#![tactic(auto)]

mod authority;
mod client;
mod disks;
mod extents;
mod input;
mod lease;
mod locks;
mod log;
mod names;
mod node;
mod observation;
mod pages;
mod run;
mod sessions;
mod world;

pub use authority::{AcceptRefusal, Suspect};
pub use client::{
    Asked, CleanPage, ClientInput, DemandedFile, Ended, HeldLock, IoKind, KnownExtent, LockWait,
    LostPage, MappedBlock, Operation, PageCommand, Release, Request, SeenGrant, Stage,
    StandingKind, WriteRefusal,
};
pub use disks::{Block, CommandRefusal, DiskCommand, Report};
pub use extents::{AllocateRefusal, Extent};
pub use input::ServerInput;
pub use lease::{
    Excess, Phase, accepted_advances_are_in_bound, advances_in_bound_are_accepted,
    advances_in_bound_are_rated, rated_advances_are_in_bound, steal_wait_is_least,
};
pub use locks::{AcquireRefusal, InstallRefusal, LockRow, RowDemand, Verdict, Waiter};
pub use log::{Cause, Change, EntryHead, Fate, LogEntry, LogOwner};
pub use names::{EntryRefusal, NameEntry};
pub use node::StepRefusal;
pub use observation::{Observation, Summary, WorldRefusal};
pub use pages::DirtyPage;
pub use run::{runs_go_on_in_parts, steps_are_the_run, traced_runs_are_runs};
pub use sessions::{Hello, Session, SessionState, Taken};
pub use world::{Carried, CutLink, FlushStep, IssuedCommand, LeaseLife, SentMessage};
