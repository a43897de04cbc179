// How many entries of a log are of a sort.
ghost use Rattle.std.specs.Prelude.{◌≡◌, ◌≤◌, filter, length};
ghost use Rattle.st_rules.specs.Events as events;
ghost use Rattle.st_rules.specs.FlatLog as flat_log;
ghost use Rattle.st_world_parts.specs.Sorts.{head_changes, one_if, picks, picks_by};

use st_model::FlatLog;
use st_rules::{EntryHead, Fate};

/// Entries that are counted: writes and patches, those of them that are hard, and entries that are
/// gone.
#[derive(Clone, Copy)]
pub enum Sort {
    Changes,
    Hard,
    Gone,
}

fn head_changes(head: EntryHead) -> bool
    ensures { result ≡ head_changes head }
{
    match head {
        EntryHead::Write { .. } => true,
        EntryHead::Patch { .. } => true,
        EntryHead::Cut { .. } => false,
    }
}

fn is_hard(fate: Fate) -> bool
    ensures { result ≡ events.is_hard_fate fate }
{
    match fate {
        Fate::Pending => false,
        Fate::Hard => true,
        Fate::Gone(_) => false,
    }
}

fn counts(fate: Fate) -> bool
    ensures { result ≡ flat_log.counts fate }
{
    match fate {
        Fate::Pending => true,
        Fate::Hard => true,
        Fate::Gone(_) => false,
    }
}

fn picks(sort: Sort, head: EntryHead, fate: Fate) -> bool
    ensures { result ≡ picks_by sort head fate }
{
    match sort {
        Sort::Changes => head_changes(head),
        Sort::Hard => head_changes(head) && is_hard(fate),
        Sort::Gone => !counts(fate),
    }
}

fn one_if(picked: bool) -> u64
    ensures exact { result ≡ one_if picked }
    ensures most { result ≤ 1 }
{
    if picked { 1 } else { 0 }
}

/// How many entries are of a sort.
pub fn count_of(log: &FlatLog, sort: Sort) -> u64
    ensures { result ≡ length (filter (picks sort) log.now) }
{
    let mut found = 0;
    for i in 0..log.count() {
        let head = log.entry(i + 1);
        let fate = log.fate(i + 1);
        found += one_if(picks(sort, head, fate));
    }
    found
}
