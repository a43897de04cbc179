// The numbers with which a snapshot begins.
ghost use Rattle.std.specs.Prelude.{◌≡◌, ◌≤◌, ◌+◌, ◌++◌, OnOk, length};
ghost use Rattle.st_snapshot.specs.Snapshots as snapshots;
ghost use Rattle.st_snapshot.specs.Snapshots.{CountersFit};

use st_journal_bytes::{put_word32, put_word64, split_word32, split_word64};
use std::alloc::AllocError;

/// The epoch, how many births there were, the next inode, how many inodes may live, and how many
/// entries and mapped pages follow.
#[derive(Clone, Copy, Debug, PartialEq, Eq)]
pub struct Counters {
    pub epoch: u64,
    pub births: u64,
    pub next: u32,
    pub limit: u32,
    pub entries: u32,
    pub pages: u32,
}

/// How many bytes the counters have.
pub const LENGTH: usize = 32;

#[tactic(auto, unfolding(crate::specs::Snapshots::counters))]
pub fn put_counters(out: &mut Vec<u8>, counters: &Counters) -> Result<(), AllocError>
    ensures bytes { OnOk result (out.new.items ≡ out.old.items ++ snapshots.counters counters.now) }
    ensures fits { OnOk result (CountersFit counters.now) }
{
    put_word64(out, counters.epoch)?;
    put_word64(out, counters.births)?;
    put_word32(out, counters.next)?;
    put_word32(out, counters.limit)?;
    put_word32(out, counters.entries)?;
    put_word32(out, counters.pages)?;
    Ok(())
}

/// The counters, and the bytes after them.
#[tactic(auto, unfolding(crate::specs::Snapshots::counters))]
pub fn split_counters(bytes: &[u8]) -> (Counters, &[u8])
    requires { 32 ≤ length bytes.now }
    ensures bytes { bytes.now ≡ snapshots.counters result.0 ++ result.1.now }
    ensures fits { CountersFit result.0 }
{
    let (epoch, rest) = split_word64(bytes);
    let (births, rest) = split_word64(rest);
    let (next, rest) = split_word32(rest);
    let (limit, rest) = split_word32(rest);
    let (entries, rest) = split_word32(rest);
    let (pages, rest) = split_word32(rest);
    let counters = Counters {
        epoch,
        births,
        next,
        limit,
        entries,
        pages,
    };
    (counters, rest)
}
