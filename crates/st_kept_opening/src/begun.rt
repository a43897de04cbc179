// A server in its next epoch, from what the file of its journal stands for.
ghost use Rattle.std.specs.Prelude.{◌≡◌, ◌≢◌, ◌≤◌, ◌<◌, ◌^◌, IfErr, IfOk, IsOk, OnOk, Some, true, false};
ghost use Rattle.st_base.specs.Config as settings;
ghost use Rattle.st_durable.specs.Durable.{Tells};
ghost use Rattle.st_extents.specs.Layout.{IsWithinLimits};
ghost use Rattle.st_journal.specs.Parts.{stable_of};
ghost use Rattle.st_journal.specs.Stable.{fresh};
ghost use Rattle.st_journal.specs.declared.change.Change.TheVariants as kinds;
ghost use Rattle.st_kept_histories.specs.Opened.{AreTold, NotBegun, begun};
ghost use Rattle.st_snapshot.specs.Snapshots.{HasShape};
ghost use Rattle.st_stable_file.specs.OpenedFile.{shape_of};

use crate::told::{are_told_names, are_told_pages};
use st_base::Stamp;
use st_durable::{DurableServer, ServerStable};
use st_journal_bytes::Identity;
use st_kept_histories::KeptFault;
use st_namespace::Names;
use st_rules::NameEntry;
use st_stable_file::Stable;
use std::alloc::{AllocError, Global};

fn is_same_entry(entry: &NameEntry, other: &NameEntry) -> bool
    ensures yes { result ≡ true → entry.now ≡ other.now }
    ensures no { result ≡ false → entry.now ≢ other.now }
{
    entry.dir == other.dir
        && entry.ino == other.ino
        && entry.directory == other.directory
        && entry.name.as_slice() == other.name.as_slice()
}

fn are_same_entries(entries: &[NameEntry], others: &[NameEntry]) -> bool
    ensures yes { result ≡ true → entries.now ≡ others.now }
    ensures no { result ≡ false → entries.now ≢ others.now }
{
    if entries.len() != others.len() {
        return false;
    }
    for place in 0..entries.len() {
        if !is_same_entry(&entries[place], &others[place]) {
            return false;
        }
    }
    true
}

/// Whether the names of two servers are the same.
#[tactic(auto, using(crate::proofs::Opened::names_same))]
fn are_same_names(some: &Names, other: &Names) -> Result<bool, AllocError>
    ensures yes { IfOk result (λ b. b ≡ true → some.now ≡ other.now) }
    ensures no { IfOk result (λ b. b ≡ false → some.now ≢ other.now) }
{
    if some.next_ino() != other.next_ino() {
        return Ok(false);
    }
    if some.limit() != other.limit() {
        return Ok(false);
    }
    let entries = some.rows()?;
    let others = other.rows()?;
    Ok(are_same_entries(entries.as_slice(), others.as_slice()))
}

/// Whether this is the stable part of a server that never began an epoch. It has epoch 0, and is
/// that of a server in this world.
fn is_fresh(alloc: Global, stable: &Stable, wanted: &Identity) -> Result<bool, AllocError>
    requires shape { HasShape (shape_of wanted.now) (stable_of stable.now) }
    requires first { (stable_of stable.now).epoch.0 ≡ 0 }
    ensures yes { IfOk result (λ b. b ≡ true → stable_of stable.now ≡ fresh (shape_of wanted.now)) }
    ensures no { IfOk result (λ b. b ≡ false → stable_of stable.now ≢ fresh (shape_of wanted.now)) }
{
    let named = are_same_names(&stable.names, &Names::fresh(alloc)?)?;
    Ok(named && stable.extents.next_birth() == 1 && stable.extents.mapped() == 0)
}

/// A server in its first epoch.
fn first_begun(
    alloc: Global,
    wanted: &Identity,
    now: Stamp,
    stable: &Stable,
) -> Result<DurableServer, KeptFault>
    requires checked { IsOk (settings.check wanted.now.settings) }
    requires limits { IsWithinLimits wanted.now.server.0 wanted.now.servers wanted.now.disks wanted.now.blocks }
    requires shape { HasShape (shape_of wanted.now) (stable_of stable.now) }
    requires first { (stable_of stable.now).epoch.0 ≡ 0 }
    ensures node { IfOk result (λ d. d.node ≡ begun wanted.now now (stable_of stable.now)) }
    ensures changed { IfOk result (λ d. d.changed ≡ Some kinds.Epoch) }
    ensures told { IfOk result (λ d. Tells (stable_of stable.now) d.node.state.stable (Some kinds.Epoch)) }
    ensures err { IfErr result (NotBegun wanted.now (stable_of stable.now)) }
{
    match is_fresh(alloc, stable, wanted) {
        Ok(true) => {}
        Ok(false) => return Err(KeptFault::NoEpoch),
        Err(_) => return Err(KeptFault::Memory),
    }
    match DurableServer::fresh(
        alloc,
        wanted.server,
        &wanted.settings,
        wanted.servers,
        wanted.disks,
        wanted.blocks,
    ) {
        Ok(server) => Ok(server),
        Err(_) => Err(KeptFault::Memory),
    }
}

/// Whether the names and the pages can be told in messages.
fn is_told(alloc: Global, stable: &Stable) -> Result<bool, AllocError>
    requires disks { (stable_of stable.now).extents.disks ≤ 8 }
    requires blocks { (stable_of stable.now).extents.blocks ≤ 4096 }
    ensures yes { IfOk result (λ b. b ≡ true → AreTold (stable_of stable.now)) }
    ensures no { IfOk result (λ b. b ≡ false → AreTold (stable_of stable.now) → ⊥) }
{
    let named = are_told_names(&stable.names)?;
    let mapped = are_told_pages(alloc, &stable.extents)?;
    Ok(named && mapped)
}

/// The server that crashed with this stable part, in its next epoch.
fn restarted(
    alloc: Global,
    wanted: &Identity,
    now: Stamp,
    stable: Stable,
) -> Result<DurableServer, KeptFault>
    requires checked { IsOk (settings.check wanted.now.settings) }
    requires limits { IsWithinLimits wanted.now.server.0 wanted.now.servers wanted.now.disks wanted.now.blocks }
    requires time { now.0 ≤ 2 ^ 62 }
    requires shape { HasShape (shape_of wanted.now) (stable_of stable) }
    requires some { 1 ≤ (stable_of stable).epoch.0 }
    ensures node { IfOk result (λ d. d.node ≡ begun wanted.now now (stable_of stable)) }
    ensures changed { IfOk result (λ d. d.changed ≡ Some kinds.Epoch) }
    ensures told { IfOk result (λ d. Tells (stable_of stable) d.node.state.stable (Some kinds.Epoch)) }
    ensures err { IfErr result (NotBegun wanted.now (stable_of stable)) }
{
    if stable.epoch.0 >= 4_294_967_295 {
        return Err(KeptFault::Epochs);
    }
    match is_told(alloc, &stable) {
        Ok(true) => {}
        Ok(false) => return Err(KeptFault::NotTold),
        Err(_) => return Err(KeptFault::Memory),
    }
    let Stable {
        epoch,
        names,
        extents,
    } = stable;
    let stable = ServerStable {
        epoch,
        names,
        extents,
    };
    let mut server = DurableServer::restore(alloc, wanted.server, &wanted.settings, stable);
    match server.start(now) {
        Ok(()) => Ok(server),
        Err(_) => Err(KeptFault::Memory),
    }
}

/// The server with this stable part, in its next epoch.
pub(crate) fn begin(
    alloc: Global,
    wanted: &Identity,
    now: Stamp,
    stable: Stable,
) -> Result<DurableServer, KeptFault>
    requires checked { IsOk (settings.check wanted.now.settings) }
    requires limits { IsWithinLimits wanted.now.server.0 wanted.now.servers wanted.now.disks wanted.now.blocks }
    requires time { now.0 ≤ 2 ^ 62 }
    requires shape { HasShape (shape_of wanted.now) (stable_of stable) }
    ensures node { IfOk result (λ d. d.node ≡ begun wanted.now now (stable_of stable)) }
    ensures changed { IfOk result (λ d. d.changed ≡ Some kinds.Epoch) }
    ensures told { IfOk result (λ d. Tells (stable_of stable) d.node.state.stable (Some kinds.Epoch)) }
    ensures err { IfErr result (NotBegun wanted.now (stable_of stable)) }
{
    if stable.epoch.0 == 0 {
        return first_begun(alloc, wanted, now, &stable);
    }
    restarted(alloc, wanted, now, stable)
}
