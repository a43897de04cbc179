// What the entries of a log say about one page: the last one that counts, and the bytes that they
// give.
ghost use Rattle.std.specs.Prelude.{◌≡◌, ◌+◌, ◌<◌, ◌≤◌, ◌&&◌, if◌then◌else◌, nat_le, ℕ, length, get_or, max};
ghost use Rattle.st_base.specs.Page.{filled};
ghost use Rattle.st_model.specs.PagePlaces as by_page;
ghost use Rattle.st_model.specs.LogInvariants.{AreInPages, IsInPage};
ghost use Rattle.st_rules.specs.FlatLog as flat_log;

use st_base::{FileId, PageBytes, PageNo};
use st_rules::{Change, Fate, LogEntry};

fn reaches(change: &Change, from: PageNo, page: PageNo) -> bool
    ensures { result ≡ flat_log.reaches change.now from page }
{
    match change {
        Change::Write(_) => from.0 == page.0,
        Change::Patch(_, _) => from.0 == page.0,
        Change::Cut => from.0 <= page.0,
    }
}

fn counts(fate: Fate) -> bool
    ensures { result ≡ flat_log.counts fate }
{
    match fate {
        Fate::Pending => true,
        Fate::Hard => true,
        Fate::Gone(_) => false,
    }
}

fn matters(entry: &LogEntry, file: FileId, page: PageNo) -> bool
    ensures { result ≡ flat_log.matters file page entry.now }
{
    let of = entry.of;
    ((of.file.server.0 == file.server.0 && of.file.ino == file.ino)
        && reaches(&entry.change, of.page, page))
        && counts(entry.fate)
}

/// Returns the number of the last entry at these places that touches the page and is not gone, or
/// 0. It stops at the first such place from the back.
pub(crate) fn last_among(entries: &[LogEntry], places: &[usize], file: FileId, page: PageNo) -> u64
    requires { (i : ℕ) → i < length places.now → get_or places.now i 0 < length entries.now }
    ensures { result ≡ by_page.last_place (flat_log.matters file page) entries.now 0 places.now }
{
    let n = places.len();
    for i in 0..n {
        let k = places[n - 1 - i];
        if matters(&entries[k], file, page) {
            return k as u64 + 1;
        }
    }
    0
}

/// Returns a number that is not 0, or `None` for 0.
pub(crate) fn option_of(n: u64) -> Option<u64>
    ensures { result ≡ by_page.option_of n }
{
    if n == 0 {
        return None;
    }
    Some(n)
}

/// Writes zeros.
pub(crate) fn clear(into: &mut [u8])
    requires { length into.old ≡ 4096 }
    ensures { into.new ≡ filled 0 }
{
    PageBytes::filled(0).write_to(into);
}

#[tactic(auto, unfolding(st_rules::specs::FlatLog::overlay))]
fn put(into: &mut [u8], at: usize, bytes: &[u8])
    requires { at + length bytes.now ≤ length into.old }
    ensures { into.new ≡ flat_log.overlay at bytes.now into.old }
{
    into[at..at + bytes.len()].copy_from_slice(bytes);
}

#[tactic(auto, unfolding(st_rules::specs::FlatLog::after))]
fn put_entry(entry: &LogEntry, k: u64, from: u64, file: FileId, page: PageNo, into: &mut [u8])
    requires whole { length into.old ≡ 4096 }
    requires range { IsInPage entry.now.change }
    ensures { into.new ≡ (if nat_le from k then flat_log.after file page entry.now into.old else into.old) }
{
    if from <= k && matters(entry, file, page) {
        match &entry.change {
            Change::Write(bytes) => bytes.write_to(into),
            Change::Patch(at, bytes) => put(into, *at as usize, bytes.as_slice()),
            Change::Cut => clear(into),
        }
    }
}

/// Tells whether nothing of the page is left from before the entry at place `k`: a write that is
/// not gone.
fn covers(entry: &LogEntry, k: u64, from: u64, file: FileId, page: PageNo) -> bool
    ensures { result ≡ nat_le from k && (flat_log.matters file page entry.now && by_page.is_write entry.now.change) }
{
    from <= k && (matters(entry, file, page) && matches!(entry.change, Change::Write(_)))
}

/// Returns the index, among the places, of the last write of the page that is not gone, or 0. The
/// page does not depend on the entries at the places before it.
fn last_write(
    entries: &[LogEntry],
    places: &[usize],
    from: u64,
    file: FileId,
    page: PageNo,
) -> usize
    requires { (i : ℕ) → i < length places.now → get_or places.now i 0 < length entries.now }
    ensures skips { by_page.Skips from file page entries.now places.now result }
    ensures most { result ≤ length places.now }
{
    let n = places.len();
    for i in 0..n {
        let k = places[n - 1 - i];
        if covers(&entries[k], k as u64, from, file, page) {
            return n - 1 - i;
        }
    }
    0
}

/// Changes a page by the entries at these places, except the places below `from`. It reads the
/// entries from the last write that is not gone on.
pub(crate) fn page_after(
    entries: &[LogEntry],
    places: &[usize],
    from: u64,
    file: FileId,
    page: PageNo,
    into: &mut [u8],
)
    requires places { (i : ℕ) → i < length places.now → get_or places.now i 0 < length entries.now }
    requires ranges { AreInPages entries.now }
    requires whole { length into.old ≡ 4096 }
    ensures { into.new ≡ by_page.page_after from file page entries.now into.old places.now }
{
    let start = last_write(entries, places, from, file, page);
    for i in start..places.len() {
        let k = places[i];
        put_entry(&entries[k], k as u64, from, file, page, into);
    }
}
