// Runs by where they begin.
ghost use Rattle.std.specs.Prelude.{◌≡◌, ◌≤◌, IfSome, IsSome, OnOk, OnErr, Some, None, cond};
ghost use Rattle.std.specs.BTreeMap.{IsOrdered};
ghost use Rattle.st_extents.specs.Runs.{IsLastUpTo, IsRunUpTo, RunKey, run_at, run_order, same_start, shorter};

use st_base::{BlockAt, FileId, PageNo};
use std::alloc::AllocError;
use std::collections::BTreeMap;

/// Where a run begins: its file and its first page.
pub type RunKey = (FileId, PageNo);

/// Pages of one file one after another, on blocks of one disk one after another, under births one
/// after another: how many there are, and the block and the birth of the first one.
#[derive(Clone, Copy, Debug, PartialEq, Eq)]
pub struct Run {
    pub length: u32,
    pub at: BlockAt,
    pub birth: u64,
}

/// Runs by where they begin.
pub type RunMap = BTreeMap<RunKey, Run>;

/// The last run of the file that begins at this page or before it.
pub fn last_up_to(map: &RunMap, file: FileId, page: PageNo) -> Option<(RunKey, Run)>
    ensures found { IfSome result (IsRunUpTo map.now.entries file page) }
    ensures last { IsLastUpTo map.now.entries file page result }
{
    match map.range((file, PageNo(0))..=(file, page)).next_back() {
        Some((key, run)) => Some((*key, *run)),
        None => None,
    }
}

/// Puts a run in the place of the one that begins there, or beside the others. An error changes
/// nothing, and comes only if none begins there.
pub fn put(map: &mut RunMap, key: RunKey, run: Run) -> Result<(), AllocError>
    ensures ok { OnOk result ((q : RunKey) → run_at map.new.entries q ≡ cond (same_start key q) (Some run) (run_at map.old.entries q)) }
    ensures err { OnErr result (map.new.entries ≡ map.old.entries) }
    ensures absent { OnErr result (run_at map.old.entries key ≡ None) }
    ensures ordered { IsOrdered run_order map.new }
{
    map.insert(key, run)?;
    Ok(())
}

/// Writes a run over the one that begins there. It takes no memory.
fn write(map: &mut RunMap, key: RunKey, run: Run)
    requires { IsSome (run_at map.old.entries key) }
    ensures written { (q : RunKey) → run_at map.new.entries q ≡ cond (same_start key q) (Some run) (run_at map.old.entries q) }
    ensures ordered { IsOrdered run_order map.new }
{
    let done: Result<_, _> = map.insert(key, run);
    // The run that was there is dropped; its key is there, so no memory is taken.
    let _old = done.unwrap();
}

fn take_out(map: &mut RunMap, key: RunKey)
    ensures gone { (q : RunKey) → run_at map.new.entries q ≡ cond (same_start key q) None (run_at map.old.entries q) }
    ensures ordered { IsOrdered run_order map.new }
{
    map.remove(&key);
}

/// Takes the last page off the run that begins there. It takes no memory.
pub fn shorten(map: &mut RunMap, key: RunKey, run: Run)
    requires found { run_at map.old.entries key ≡ Some run }
    requires some { 1 ≤ run.length }
    ensures cut { (q : RunKey) → run_at map.new.entries q ≡ cond (same_start key q) (shorter run) (run_at map.old.entries q) }
    ensures ordered { IsOrdered run_order map.new }
{
    if run.length == 1 {
        take_out(map, key);
    } else {
        write(
            map,
            key,
            Run {
                length: run.length - 1,
                at: run.at,
                birth: run.birth,
            },
        );
    }
}
