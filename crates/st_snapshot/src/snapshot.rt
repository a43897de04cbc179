// Snapshots of a server's stable part.
ghost use Rattle.std.specs.Prelude.{◌≡◌, IfErr, IfOk, OnOk};
ghost use Rattle.st_extents.specs.Layout.{IsWithinLimits};
ghost use Rattle.st_extents.specs.Ownership.{IsOwned};
ghost use Rattle.st_journal.specs.Parts.{stable_of};
ghost use Rattle.st_namespace.specs.Order.{IsInOrder};
ghost use Rattle.st_rules.specs.Server as machine;
ghost use Rattle.st_snapshot.specs.Snapshots as snapshots;
ghost use Rattle.st_snapshot.specs.Snapshots.{CanBe, Fits, HasShape};
ghost use Rattle.st_snapshot.specs.Reading as reading;
ghost use Rattle.st_snapshot.specs.Reading.{ArePartsOf, HasNoParts, IsReadAs, IsRefused};

use crate::counters::{Counters, LENGTH, put_counters, split_counters};
use crate::entry::{put_entries, read_entries};
use crate::fault::SnapshotFault;
use crate::page::{put_pages, read_pages};
use st_base::{Epoch, ServerId};
use st_extents::{Extents, RestoreRefusal as ExtentsRefusal};
use st_journal::Stable;
use st_namespace::{Names, RestoreRefusal as NamesRefusal};
use st_rules::{Extent, NameEntry};
use std::alloc::{AllocError, Global};

/// The bytes of a stable part with this epoch, these names and these extents.
pub fn snapshot_of(
    alloc: Global,
    epoch: Epoch,
    names: &Names,
    extents: &Extents,
) -> Result<Vec<u8>, AllocError>
    ensures bytes { IfOk result (λ v. v.items ≡ snapshots.snapshot (record { epoch = epoch; names = names.now; extents = extents.now })) }
    ensures fits { OnOk result (Fits (record { epoch = epoch; names = names.now; extents = extents.now })) }
    ensures right { OnOk result (CanBe (record { epoch = epoch; names = names.now; extents = extents.now })) }
{
    let entries = names.rows()?;
    let pages = extents.rows(alloc)?;
    let counters = Counters {
        epoch: epoch.0,
        births: extents.next_birth() - 1,
        next: names.next_ino(),
        limit: names.limit(),
        entries: names.entries(),
        pages: extents.mapped(),
    };
    let mut out = Vec::new(alloc);
    put_counters(&mut out, &counters)?;
    put_entries(&mut out, entries.as_slice())?;
    put_pages(&mut out, pages.as_slice())?;
    Ok(out)
}

/// What the bytes of a snapshot say.
#[derive(Drop)]
struct SnapshotParts {
    counters: Counters,
    entries: Vec<NameEntry>,
    pages: Vec<Extent>,
}

/// Reads the bytes of a snapshot to their end.
fn read_parts(alloc: Global, bytes: &[u8]) -> Result<SnapshotParts, SnapshotFault>
    ensures ok { IfOk result (λ p. ArePartsOf bytes.now p.counters p.entries.items p.pages.items) }
    ensures err { IfErr result (HasNoParts bytes.now) }
{
    if bytes.len() < LENGTH {
        return Err(SnapshotFault::NoCounters);
    }
    let (counters, rest) = split_counters(bytes);
    let mut entries = Vec::new(alloc);
    let behind = read_entries(alloc, &mut entries, rest, counters.entries, bytes.len())?;
    let mut pages = Vec::new(alloc);
    let more = read_pages(&mut pages, behind, counters.pages, bytes.len())?;
    if !more.is_empty() {
        let at = (bytes.len() - more.len()) as u64;
        return Err(SnapshotFault::Longer { at });
    }
    Ok(SnapshotParts {
        counters,
        entries,
        pages,
    })
}

fn names_fault(refusal: NamesRefusal) -> SnapshotFault
    ensures { result ≡ reading.names_fault refusal }
{
    match refusal {
        NamesRefusal::Memory => SnapshotFault::Memory,
        other => SnapshotFault::Names(other),
    }
}

fn extents_fault(refusal: ExtentsRefusal) -> SnapshotFault
    ensures { result ≡ reading.extents_fault refusal }
{
    match refusal {
        ExtentsRefusal::Memory => SnapshotFault::Memory,
        other => SnapshotFault::Extents(other),
    }
}

/// The stable part of which a snapshot says this, if it can be a server's.
fn restored(
    alloc: Global,
    read: &SnapshotParts,
    server: ServerId,
    servers: u16,
    disks: u16,
    blocks: u32,
) -> Result<Stable, SnapshotFault>
    requires { IsWithinLimits server.0 servers disks blocks }
    ensures ok { IfOk result (λ s. stable_of s ≡ reading.stable_with (record { server = server; servers = servers; disks = disks; blocks = blocks }) read.now.counters read.now.entries.items read.now.pages.items) }
    ensures order { IfOk result (λ s. IsInOrder s.names) }
    ensures owned { IfOk result (λ s. IsOwned s.extents) }
    ensures err { IfErr result (reading.IsNotRestored (reading.stable_with (record { server = server; servers = servers; disks = disks; blocks = blocks }) read.now.counters read.now.entries.items read.now.pages.items)) }
{
    let counters = read.counters;
    let entries = read.entries.as_slice();
    let pages = read.pages.as_slice();
    let names = match Names::restore(alloc, entries, counters.next, counters.limit) {
        Ok(names) => names,
        Err(refusal) => return Err(names_fault(refusal)),
    };
    let births = counters.births;
    match Extents::restore(alloc, server, servers, disks, blocks, pages, births) {
        Ok(extents) => Ok(Stable {
            epoch: Epoch(counters.epoch),
            names,
            extents,
        }),
        Err(refusal) => Err(extents_fault(refusal)),
    }
}

/// Reads and restores.
fn read_restored(
    alloc: Global,
    bytes: &[u8],
    server: ServerId,
    servers: u16,
    disks: u16,
    blocks: u32,
) -> Result<Stable, SnapshotFault>
    requires { IsWithinLimits server.0 servers disks blocks }
    ensures bytes { IfOk result (λ s. bytes.now ≡ snapshots.snapshot (stable_of s)) }
    ensures fits { IfOk result (λ s. Fits (stable_of s)) }
    ensures shape { IfOk result (λ s. HasShape (record { server = server; servers = servers; disks = disks; blocks = blocks }) (stable_of s)) }
    ensures order { IfOk result (λ s. IsInOrder s.names) }
    ensures owned { IfOk result (λ s. IsOwned s.extents) }
    ensures err { IfErr result (IsRefused (record { server = server; servers = servers; disks = disks; blocks = blocks }) bytes.now) }
{
    let read = read_parts(alloc, bytes)?;
    restored(alloc, &read, server, servers, disks, blocks)
}

/// The stable part of which these bytes are the snapshot, at a server in a world of this shape:
/// `server` is from 1 to `servers`, which is at most 4; there are `servers` to 8 disks of 1 to
/// 4,096 `blocks` each.
///
/// # Errors
/// `NoCounters`, `NoEntry`, `NoPage` and `Longer` if the bytes aren't a snapshot; `Names` and
/// `Extents` if no server has such names or extents; and `Memory`.
pub fn read_snapshot(
    alloc: Global,
    bytes: &[u8],
    server: ServerId,
    servers: u16,
    disks: u16,
    blocks: u32,
) -> Result<Stable, SnapshotFault>
    requires { IsWithinLimits server.0 servers disks blocks }
    ensures bytes { IfOk result (λ s. bytes.now ≡ snapshots.snapshot (stable_of s)) }
    ensures fits { IfOk result (λ s. Fits (stable_of s)) }
    ensures shape { IfOk result (λ s. HasShape (record { server = server; servers = servers; disks = disks; blocks = blocks }) (stable_of s)) }
    ensures order { IfOk result (λ s. IsInOrder s.names) }
    ensures owned { IfOk result (λ s. IsOwned s.extents) }
    ensures err { IfErr result (IsRefused (record { server = server; servers = servers; disks = disks; blocks = blocks }) bytes.now) }
    // What a snapshot was made of is what is read of it.
    ensures exact { (t : machine.Stable) → Fits t → CanBe t → HasShape (record { server = server; servers = servers; disks = disks; blocks = blocks }) t → bytes.now ≡ snapshots.snapshot t → IsReadAs t result }
{
    read_restored(alloc, bytes, server, servers, disks, blocks)
}
