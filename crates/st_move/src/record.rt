// What a server has of a container, and what the calls do to it.
ghost use Rattle.std.specs.Prelude.{◌≡◌, ◌<◌, ◌+◌, IfOk, OnOk, OnErr, Ok, Some, true, ℕ, ◌^◌};
ghost use Rattle.st_move.specs.Calls as calls;
ghost use Rattle.st_move.specs.Containers as containers;
ghost use Rattle.st_move.specs.Updates.{is_update};

use crate::refusal::MoveRefusal;
use crate::updates::Updates;
use st_base::ServerId;
use std::alloc::{AllocError, Global};

/// The state of a container at a server that has a record of it.
#[derive(Clone, Copy, Debug, PartialEq, Eq)]
pub enum ContainerState {
    /// The server holds it.
    Holding,
    /// The server holds it until its lock rows are gone, and then sends it to this server.
    Leaving(ServerId),
    /// The server sent it to this server, and does not know whether it was taken.
    Sent(ServerId),
    /// This server took it.
    Gone(ServerId),
}

/// What a server has of a container: the container's version, its state, and its updates, of which
/// there are none once it is gone. The version is 1 at first, and one more after each move.
#[derive(Drop)]
pub struct ContainerRecord {
    pub version: u64,
    pub state: ContainerState,
    pub updates: Updates,
}

/// A message between servers, of a container and a version of it.
#[derive(Drop)]
pub enum MoveMessage {
    /// The container with its updates.
    Image(u32, u64, Updates),
    /// An image of this version came.
    Taken(u32, u64),
}

impl MoveMessage {
    /// Returns a copy of the message.
    pub(crate) fn copy(&self) -> Result<MoveMessage, AllocError>
        ensures { IfOk result (λ m. m ≡ self.now) }
    {
        match self {
            MoveMessage::Image(c, version, updates) => {
                Ok(MoveMessage::Image(*c, *version, updates.copy()?))
            }
            MoveMessage::Taken(c, version) => Ok(MoveMessage::Taken(*c, *version)),
        }
    }
}

fn is_holding(state: ContainerState) -> bool
    ensures { result ≡ containers.is_holding state }
{
    match state {
        ContainerState::Holding => true,
        ContainerState::Leaving(_) => false,
        ContainerState::Sent(_) => false,
        ContainerState::Gone(_) => false,
    }
}

fn is_leaving(state: ContainerState) -> bool
    ensures { result ≡ containers.is_leaving state }
{
    match state {
        ContainerState::Holding => false,
        ContainerState::Leaving(_) => true,
        ContainerState::Sent(_) => false,
        ContainerState::Gone(_) => false,
    }
}

impl ContainerRecord {
    /// Whether the container is served.
    pub(crate) fn is_holding(&self) -> bool
        ensures { result ≡ containers.is_holding self.now.state }
    {
        is_holding(self.state)
    }

    /// Whether the container is about to move.
    pub(crate) fn is_leaving(&self) -> bool
        ensures { result ≡ containers.is_leaving self.now.state }
    {
        is_leaving(self.state)
    }

    /// Whether the updates may be listed.
    #[tactic(auto, unfolding(crate::specs::Containers::unless_sent))]
    pub(crate) fn may_list(&self) -> Result<(), MoveRefusal>
        ensures { calls.allowed self.now result ≡ containers.unless_sent self.now self.now.state }
    {
        match self.state {
            ContainerState::Holding => Ok(()),
            ContainerState::Leaving(_) => Ok(()),
            ContainerState::Sent(to) => Err(MoveRefusal::Redirect(to, self.version)),
            ContainerState::Gone(to) => Err(MoveRefusal::Redirect(to, self.version)),
        }
    }

    /// Whether a put or an order may come.
    #[tactic(auto, unfolding(crate::specs::Containers::unless_leaving, crate::specs::Containers::unless_sent))]
    pub(crate) fn may_change(&self) -> Result<(), MoveRefusal>
        ensures { calls.allowed self.now result ≡ containers.unless_leaving self.now self.now.state }
    {
        match self.state {
            ContainerState::Holding => Ok(()),
            ContainerState::Leaving(to) => Err(MoveRefusal::Leaving(to)),
            ContainerState::Sent(to) => Err(MoveRefusal::Redirect(to, self.version)),
            ContainerState::Gone(to) => Err(MoveRefusal::Redirect(to, self.version)),
        }
    }

    /// One more update, if it may come.
    #[tactic(auto, unfolding(crate::specs::Containers::updated, crate::specs::Containers::updated_with, crate::specs::Containers::changeable))]
    fn put(&mut self, update: &[u8]) -> Result<u32, MoveRefusal>
        requires { is_update update.now ≡ true }
        ensures { calls.Counts calls.count_in self.old self.new result (containers.updated update.now (containers.changeable (Ok self.old))) }
    {
        self.may_change()?;
        self.updates.push(update)
    }

    /// The container must leave, if it may and should go to another server.
    #[tactic(auto, unfolding(crate::specs::Containers::ordered, crate::specs::Containers::changeable))]
    fn order(&mut self, server: ServerId, to: ServerId) -> Result<(), MoveRefusal>
        ensures { calls.Answers self.old self.new result (containers.ordered server to (containers.changeable (Ok self.old))) }
    {
        self.may_change()?;
        if to.0 == server.0 {
            return Err(MoveRefusal::Same);
        }
        self.state = ContainerState::Leaving(to);
        Ok(())
    }
}

/// One more update of a record.
#[tactic(auto, unfolding(crate::specs::Containers::found_at, crate::specs::Containers::updated, crate::specs::Containers::changeable, crate::specs::Calls::there))]
pub(crate) fn put_in(entry: &mut Option<ContainerRecord>, update: &[u8]) -> Result<u32, MoveRefusal>
    requires { is_update update.now ≡ true }
    ensures { (c : ℕ) → calls.Counts calls.count_of entry.old entry.new result (calls.there (containers.updated update.now (containers.changeable (containers.found_at c (Some entry.old))))) }
{
    match entry {
        None => Err(MoveRefusal::Absent),
        Some(record) => record.put(update),
    }
}

/// The record's container must leave.
#[tactic(auto, unfolding(crate::specs::Containers::found_at, crate::specs::Containers::ordered, crate::specs::Containers::changeable, crate::specs::Calls::there))]
pub(crate) fn order_in(
    entry: &mut Option<ContainerRecord>,
    server: ServerId,
    to: ServerId,
) -> Result<(), MoveRefusal>
    ensures { (c : ℕ) → calls.Answers entry.old entry.new result (calls.there (containers.ordered server to (containers.changeable (containers.found_at c (Some entry.old))))) }
{
    match entry {
        None => Err(MoveRefusal::Absent),
        Some(record) => record.order(server, to),
    }
}

/// An image came.
#[tactic(auto, unfolding(crate::specs::Containers::with_image))]
pub(crate) fn take_image(
    entry: &mut Option<ContainerRecord>,
    version: u64,
    updates: &Updates,
) -> Result<(), AllocError>
    ensures ok { OnOk result (entry.new ≡ containers.with_image version updates.now entry.old) }
    ensures err { OnErr result (entry.new ≡ entry.old) }
{
    let above = match entry {
        None => true,
        Some(record) => record.version < version,
    };
    if above {
        let updates = updates.copy()?;
        *entry = Some(ContainerRecord {
            version,
            state: ContainerState::Holding,
            updates,
        });
    }
    Ok(())
}

/// An answer came.
#[tactic(auto, unfolding(crate::specs::Containers::answered, crate::specs::Containers::gone_by))]
pub(crate) fn take_answer(entry: &mut Option<ContainerRecord>, alloc: Global, version: u64)
    ensures { entry.new ≡ containers.answered version entry.old }
{
    if let Some(record) = entry {
        if record.version == version {
            if let ContainerState::Sent(to) = record.state {
                record.state = ContainerState::Gone(to);
                record.updates = Updates::new(alloc);
            }
        }
    }
}

/// The record is sent on, or stays as it is.
#[tactic(auto, unfolding(crate::specs::Containers::sent_if, crate::specs::Containers::sent_on))]
pub(crate) fn send_if(entry: &mut Option<ContainerRecord>, yes: bool)
    requires { containers.has_next entry.old ≡ true }
    ensures { entry.new ≡ containers.sent_if yes entry.old }
{
    if !yes {
        return;
    }
    if let Some(record) = entry {
        if let ContainerState::Leaving(to) = record.state {
            record.version += 1;
            record.state = ContainerState::Sent(to);
        }
    }
}
