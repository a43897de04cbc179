// What a server sends on a tick.
ghost use Rattle.std.specs.Prelude.{◌≡◌, ◌++◌, ◌<◌, ◌^◌, ◌+◌, IfOk, OnOk, length, true};
ghost use Rattle.std.specs.List.{list_all};
ghost use Rattle.st_move.specs.Calls as calls;
ghost use Rattle.st_move.specs.Containers as containers;

use crate::record::{ContainerRecord, ContainerState, MoveMessage, send_if};
use st_base::ServerId;
use st_locks::LockTable;
use std::alloc::{AllocError, Global};

/// Whether a client has a lock row of the container.
fn is_locked(locks: &LockTable, c: u32) -> Result<bool, AllocError>
    ensures { IfOk result (λ b. b ≡ containers.is_locked locks.now c) }
{
    let holders = locks.holders(c)?;
    Ok(!holders.is_empty())
}

/// Whether the record leaves now.
fn leaves(locks: &LockTable, c: u32, entry: &Option<ContainerRecord>) -> Result<bool, AllocError>
    ensures { IfOk result (λ b. b ≡ containers.leaves locks.now c entry.now) }
{
    match entry {
        None => Ok(false),
        Some(record) => {
            if record.is_leaving() {
                Ok(!is_locked(locks, c)?)
            } else {
                Ok(false)
            }
        }
    }
}

/// Which records leave now.
#[tactic(auto, unfolding(crate::specs::Calls::leaving_from))]
pub(crate) fn leaving(
    alloc: Global,
    locks: &LockTable,
    records: &[Option<ContainerRecord>],
) -> Result<Vec<bool>, AllocError>
    requires { length records.now < 2 ^ 32 }
    ensures { IfOk result (λ v. v.items ≡ calls.leaving_from locks.now 0 records.now) }
{
    let mut found = Vec::new(alloc);
    for place in 0..records.len() {
        found.push(leaves(locks, place as u32 + 1, &records[place])?)?;
    }
    Ok(found)
}

/// The image that the record sends, if it leaves now or was sent before.
#[tactic(auto, unfolding(crate::specs::Containers::image_of, crate::specs::Containers::image_by, crate::specs::Containers::sent_if, crate::specs::Containers::sent_on), using(std::proofs::lemmas::Grind::common_steps))]
fn push_image(
    images: &mut Vec<(ServerId, MoveMessage)>,
    c: u32,
    entry: &Option<ContainerRecord>,
    yes: bool,
) -> Result<(), AllocError>
    requires { containers.has_next entry.now ≡ true }
    ensures { OnOk result (images.new.items ≡ images.old.items ++ containers.image_of c (containers.sent_if yes entry.now)) }
{
    let Some(record) = entry else {
        return Ok(());
    };
    match record.state {
        ContainerState::Holding => Ok(()),
        ContainerState::Gone(_) => Ok(()),
        ContainerState::Sent(to) => {
            let image = MoveMessage::Image(c, record.version, record.updates.copy()?);
            images.push((to, image))?;
            Ok(())
        }
        ContainerState::Leaving(to) => {
            if !yes {
                return Ok(());
            }
            let image = MoveMessage::Image(c, record.version + 1, record.updates.copy()?);
            images.push((to, image))?;
            Ok(())
        }
    }
}

/// The number of the container at this place.
fn number_of(place: usize) -> u32
    requires { place + 1 < 2 ^ 32 }
    ensures { result ≡ place + 1 }
{
    place as u32 + 1
}

/// The images that are sent, if these records leave.
pub(crate) fn images(
    alloc: Global,
    records: &[Option<ContainerRecord>],
    leaving: &[bool],
) -> Result<Vec<(ServerId, MoveMessage)>, AllocError>
    requires few { length records.now < 2 ^ 32 }
    requires same { length leaving.now ≡ length records.now }
    requires next { list_all containers.has_next records.now ≡ true }
    ensures { IfOk result (λ v. v.items ≡ containers.images_from 0 (calls.sent_by leaving.now records.now)) }
{
    let mut images = Vec::new(alloc);
    for place in 0..records.len() {
        let c = number_of(place);
        push_image(&mut images, c, &records[place], leaving[place])?;
    }
    Ok(images)
}

/// These records are sent on.
pub(crate) fn send(records: &mut [Option<ContainerRecord>], leaving: &[bool])
    requires same { length leaving.now ≡ length records.old }
    requires next { list_all containers.has_next records.old ≡ true }
    ensures { records.new ≡ calls.sent_by leaving.now records.old }
{
    for place in 0..records.len() {
        send_if(&mut records[place], leaving[place]);
    }
}
