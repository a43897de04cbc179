// An area: the stable part of its snapshot, and the changes after it.
ghost use Rattle.std.specs.Prelude.{◌≡◌, ◌<◌, ◌≤◌, ◌^◌, ◌++◌, IfErr, IfNone, IfOk, IfSome, OnErr, length};
ghost use Rattle.st_extents.specs.Layout.{IsWithinLimits};
ghost use Rattle.st_journal.specs.Parts.{stable_of};
ghost use Rattle.st_journal_bytes.specs.Areas.{IsClosed, IsUnread};
ghost use Rattle.st_journal_bytes.specs.Moments.{Dated};
ghost use Rattle.st_journal_bytes.specs.Plain.{plain};
ghost use Rattle.st_journal_file.specs.Layout.{opened};
ghost use Rattle.st_rules.specs.Server as machine;
ghost use Rattle.st_stable_file.specs.declared.fault.StableFault.TheVariants as faults;
ghost use Rattle.st_stable_file.specs.Opened.{AreAllApplied, AreNotApplied, CanBeOpened, IsNoSnapshot, IsNotOpened, IsOpenedAs, IsSnapshot, Opens};

use crate::change::apply_record;
use crate::fault::StableFault;
use st_base::ServerId;
use st_journal::Stable;
use st_journal_bytes::{read_dated, read_gate, read_part};
use st_snapshot::{SnapshotFault, read_snapshot};
use std::alloc::Global;

/// Where the closed gate after the changes of an area is, counted from the first byte of the area;
/// how many changes there are, and the moment of the last one, or of the snapshot if there is none.
#[derive(Clone, Copy, Debug, PartialEq, Eq)]
pub struct ChangesEnd {
    pub gate: u64,
    pub records: u64,
    pub moment: u64,
}

/// What an area stands for: a stable part, and where its changes end.
#[derive(Drop)]
pub struct OpenedArea {
    pub stable: Stable,
    pub end: ChangesEnd,
}

/// What is at a gate, as `read_gate` says it.
fn gate_at(bytes: &[u8], at: u64) -> Result<Option<(&[u8], &[u8])>, StableFault>
    ensures found { IfOk result (λ o. IfSome o (λ x. bytes.now ≡ opened plain x.0.now ++ x.1.now)) }
    ensures closed { IfOk result (λ o. IfNone o (IsClosed bytes.now)) }
    ensures unread { OnErr result (IsUnread bytes.now) }
    ensures fault { IfErr result (λ f. f ≡ faults.Damaged at) }
{
    match read_gate(bytes, at) {
        Ok(found) => Ok(found),
        Err(damaged) => Err(StableFault::Damaged { at: damaged.at }),
    }
}

/// Applies changes to their end. The bytes are the last ones of an area of `whole` bytes.
fn apply_all(
    alloc: Global,
    stable: &mut Stable,
    first: u64,
    bytes: &[u8],
    whole: usize,
) -> Result<ChangesEnd, StableFault>
    requires within { length bytes.now ≤ whole }
    requires small { whole < 2 ^ 32 }
    ensures ok { IfOk result (λ e. (d : Dated machine.Stable) → d.made ≡ stable_of stable.old → d.moment ≡ first → AreAllApplied bytes.now d whole (stable_of stable.new) e) }
    ensures err { IfErr result (λ f. (d : Dated machine.Stable) → d.made ≡ stable_of stable.old → d.moment ≡ first → AreNotApplied bytes.now d whole f) }
{
    let mut rest = bytes;
    let mut at = (whole - bytes.len()) as u64;
    let mut records = 0;
    let mut moment = first;
    'changes: while let Some((record_bytes, more)) = gate_at(rest, at)? {
        moment = apply_record(alloc, stable, moment, record_bytes, at)?;
        at += (rest.len() - more.len()) as u64;
        records += 1;
        rest = more;
    }
    Ok(ChangesEnd {
        gate: at,
        records,
        moment,
    })
}

/// The stable part of a snapshot, and the moment at which it was made.
fn read_stable(
    alloc: Global,
    bytes: &[u8],
    server: ServerId,
    servers: u16,
    disks: u16,
    blocks: u32,
) -> Result<(Stable, u64), StableFault>
    requires { IsWithinLimits server.0 servers disks blocks }
    ensures ok { IfOk result (λ x. IsSnapshot (record { server = server; servers = servers; disks = disks; blocks = blocks }) bytes.now (stable_of x.0) x.1) }
    ensures err { IfErr result (IsNoSnapshot (record { server = server; servers = servers; disks = disks; blocks = blocks }) bytes.now) }
{
    let Some((moment, bytes)) = read_dated(bytes) else {
        return Err(StableFault::Snapshot(SnapshotFault::NoCounters));
    };
    match read_snapshot(alloc, bytes, server, servers, disks, blocks) {
        Ok(stable) => Ok((stable, moment)),
        Err(SnapshotFault::Memory) => Err(StableFault::Memory),
        Err(fault) => Err(StableFault::Snapshot(fault)),
    }
}

/// Reads an area.
fn read_area(
    alloc: Global,
    area: &[u8],
    server: ServerId,
    servers: u16,
    disks: u16,
    blocks: u32,
) -> Result<OpenedArea, StableFault>
    requires limits { IsWithinLimits server.0 servers disks blocks }
    requires small { length area.now < 2 ^ 32 }
    ensures ok { IfOk result (Opens (record { server = server; servers = servers; disks = disks; blocks = blocks }) area.now) }
    ensures err { IfErr result (IsNotOpened (record { server = server; servers = servers; disks = disks; blocks = blocks }) area.now) }
{
    let Some((snapshot_bytes, rest)) = read_part(area) else {
        return Err(StableFault::Damaged { at: 0 });
    };
    let (mut stable, moment) = read_stable(alloc, snapshot_bytes, server, servers, disks, blocks)?;
    let end = apply_all(alloc, &mut stable, moment, rest, area.len())?;
    Ok(OpenedArea { stable, end })
}

/// Opens an area of less than 2^32 bytes: what its changes make of its snapshot, at a server in a
/// world of this shape. `server` is from 1 to `servers`, which is at most 4; there are `servers` to
/// 8 disks of 1 to 4,096 `blocks` each.
///
/// # Errors
/// `Snapshot` if the snapshot is none of a stable part; `Damaged`; and `Memory`.
pub fn open_area(
    alloc: Global,
    area: &[u8],
    server: ServerId,
    servers: u16,
    disks: u16,
    blocks: u32,
) -> Result<OpenedArea, StableFault>
    requires limits { IsWithinLimits server.0 servers disks blocks }
    requires small { length area.now < 2 ^ 32 }
    ensures ok { IfOk result (Opens (record { server = server; servers = servers; disks = disks; blocks = blocks }) area.now) }
    ensures err { IfErr result (IsNotOpened (record { server = server; servers = servers; disks = disks; blocks = blocks }) area.now) }
    // What an area stands for is opened, if its snapshot is of what a server may have.
    ensures exact { (state : Dated machine.Stable) → CanBeOpened (record { server = server; servers = servers; disks = disks; blocks = blocks }) area.now state → IsOpenedAs state result }
{
    read_area(alloc, area, server, servers, disks, blocks)
}
