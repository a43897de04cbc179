ghost use Rattle.std.specs.Prelude.{◌≡◌, ◌≤◌, ◌<◌, ◌++◌, ◌∷◌, [], ℕ, OnOk, OnErr, IfOk, IfSome, IfNone, find, filter, get_or, is_some, length, map, not, take, true, false, if◌then◌else◌, option_map, All};
ghost use Rattle.std.specs.List.{list_any};
ghost use Rattle.std.specs.Option.{option_copied, option_to_list};
ghost use Rattle.st_rules.specs.Names as names;
ghost use Rattle.st_rules.specs.declared.names.NameEntry.{NameEntry};
ghost use Rattle.st_namespace.specs.StoredEntries.{AreByName, AreRising, dir_in, dir_of, entries_of, has_number, mark_in, moved_to, stands_before, stands_behind};
ghost use Rattle.st_namespace.specs.declared.entries.Inode.{Inode};

use crate::listing::rows_from;
use crate::name_bytes::is_below;
use st_base::{Name, NameRow};
use st_rules::NameEntry;
use std::alloc::{AllocError, Global};
use std::marker::Model;

/// What is kept of an inode beside its entry: its number, the directory of its entry, and whether
/// it is a directory.
#[derive(Clone, Copy, Debug, PartialEq, Eq)]
pub struct Inode {
    pub ino: u32,
    pub dir: u32,
    pub directory: bool,
}

/// The place of the first inode whose number is not below this one, or how many there are. The
/// numbers rise.
fn place_of_ino(inodes: &[Inode], ino: u32) -> usize
    requires { AreRising inodes.now }
    ensures within { result ≤ length inodes.now }
    ensures below { (j : ℕ) (d : Inode) → j < result → (get_or inodes.now j d).ino < ino }
    ensures above { (j : ℕ) (d : Inode) → result ≤ j → j < length inodes.now → ino ≤ (get_or inodes.now j d).ino }
{
    let mut low = 0;
    let mut high = inodes.len();
    'halves: while low < high {
        let middle = low + (high - low) / 2;
        if inodes[middle].ino < ino {
            low = middle + 1;
        } else {
            high = middle;
        }
    }
    low
}

/// The inode of this number, if there is one. The numbers rise.
fn inode_at(inodes: &[Inode], ino: u32) -> Option<Inode>
    requires { AreRising inodes.now }
    ensures { result ≡ find (has_number ino) inodes.now }
{
    let place = place_of_ino(inodes, ino);
    if place >= inodes.len() {
        return None;
    }
    let inode = inodes[place];
    if inode.ino == ino { Some(inode) } else { None }
}

/// Whether the inode is a directory, if there is one.
fn mark_of(inode: Option<Inode>) -> Option<bool>
    ensures { result ≡ option_map mark_in inode }
{
    inode.map(|n| n.directory)
}

/// The directory of the inode's entry, if there is one.
fn dir_in(inode: Option<Inode>) -> Option<u32>
    ensures { result ≡ option_map dir_in inode }
{
    inode.map(|n| n.dir)
}

/// Takes out the inode of this number. The numbers rise.
fn drop_inode(inodes: &mut Vec<Inode>, ino: u32)
    requires { AreRising inodes.old.items }
    ensures { inodes.new.items ≡ filter (λ n. not (has_number ino n)) inodes.old.items }
{
    let place = place_of_ino(inodes.as_slice(), ino);
    if place >= inodes.len() {
        return;
    }
    if inodes[place].ino != ino {
        return;
    }
    // The inode is dropped.
    let _inode = inodes.remove(place);
}

/// Puts the inode of this number into another directory. The numbers rise.
fn move_inode(inodes: &mut Vec<Inode>, ino: u32, dir: u32)
    requires { AreRising inodes.old.items }
    ensures { inodes.new.items ≡ map (λ n. if has_number ino n then moved_to dir n else n) inodes.old.items }
{
    let place = place_of_ino(inodes.as_slice(), ino);
    if place >= inodes.len() {
        return;
    }
    let inode = inodes[place];
    if inode.ino != ino {
        return;
    }
    inodes[place] = Inode {
        ino: inode.ino,
        dir,
        directory: inode.directory,
    };
}

#[tactic(auto, unfolding(st_rules::specs::Names::name_below, st_rules::specs::Names::byte_below))]
fn is_before(entry: &NameEntry, dir: u32, name: &[u8]) -> bool
    ensures { result ≡ stands_before dir name.now entry.now }
{
    if entry.dir == dir {
        is_below(entry.name.as_slice(), name)
    } else {
        entry.dir < dir
    }
}

fn is_entry_at(dir: u32, name: &[u8], entry: &NameEntry) -> bool
    ensures { result ≡ names.is_entry_at dir name.now entry.now }
{
    entry.dir == dir && entry.name.as_slice() == name
}

/// The place of the first entry that doesn't come before this name in this directory, or how many
/// there are.
fn place_of(sorted: &[NameEntry], dir: u32, name: &[u8]) -> usize
    requires { AreByName sorted.now }
    ensures within { result ≤ length sorted.now }
    ensures before { (j : ℕ) (d : NameEntry) → j < result → stands_before dir name.now (get_or sorted.now j d) ≡ true }
    ensures behind { (j : ℕ) (d : NameEntry) → result ≤ j → j < length sorted.now → stands_before dir name.now (get_or sorted.now j d) ≡ false }
{
    let mut low = 0;
    let mut high = sorted.len();
    'halves: while low < high {
        let middle = low + (high - low) / 2;
        if is_before(&sorted[middle], dir, name) {
            low = middle + 1;
        } else {
            high = middle;
        }
    }
    low
}

/// The place of the entry with this name in a directory, if there is one.
fn found_at(sorted: &[NameEntry], dir: u32, name: &[u8]) -> Option<usize>
    requires { AreByName sorted.now }
    ensures within { IfSome result (λ k. k < length sorted.now) }
    ensures there { IfSome result (λ k. (d : NameEntry) → names.is_entry_at dir name.now (get_or sorted.now k d) ≡ true) }
    ensures none { IfNone result (list_any (names.is_entry_at dir name.now) sorted.now ≡ false) }
{
    let place = place_of(sorted, dir, name);
    if place >= sorted.len() {
        return None;
    }
    if is_entry_at(dir, name, &sorted[place]) {
        Some(place)
    } else {
        None
    }
}

/// Whether a directory has entries.
fn has_entries(sorted: &[NameEntry], dir: u32) -> bool
    requires { AreByName sorted.now }
    ensures { result ≡ list_any (names.is_in dir) sorted.now }
{
    let place = place_of(sorted, dir, b"".as_slice());
    if place >= sorted.len() {
        return false;
    }
    sorted[place].dir == dir
}

/// The place of the first entry that comes after this name in this directory, or how many there
/// are.
fn place_behind(sorted: &[NameEntry], dir: u32, name: &[u8]) -> usize
    requires { AreByName sorted.now }
    ensures within { result ≤ length sorted.now }
    ensures before { (j : ℕ) (d : NameEntry) → j < result → stands_behind dir name.now (get_or sorted.now j d) ≡ false }
    ensures behind { (j : ℕ) (d : NameEntry) → result ≤ j → j < length sorted.now → stands_behind dir name.now (get_or sorted.now j d) ≡ true }
{
    let place = place_of(sorted, dir, name);
    if place >= sorted.len() {
        return place;
    }
    if is_entry_at(dir, name, &sorted[place]) {
        place + 1
    } else {
        place
    }
}

/// The entry of an inode, if there is one, of entries in any order.
fn entry_of(sorted: &[NameEntry], ino: u32) -> Option<&NameEntry>
    ensures { option_copied result ≡ find (names.is_of_ino ino) sorted.now }
{
    sorted.iter().find(|entry| entry.ino == ino)
}

/// Appends a copy of an entry, if there is one.
fn push_copy(rows: &mut Vec<NameEntry>, entry: Option<&NameEntry>) -> Result<(), AllocError>
    ensures { OnOk result (rows.new.items ≡ rows.old.items ++ option_to_list (option_copied entry.entry)) }
{
    match entry {
        Some(entry) => Ok(rows.push(entry.copy()?)?),
        None => Ok(()),
    }
}

/// The entries of these inodes, in their order.
fn rows_of(
    alloc: Global,
    inodes: &[Inode],
    sorted: &[NameEntry],
) -> Result<Vec<NameEntry>, AllocError>
    ensures { IfOk result (λ v. v.items ≡ entries_of inodes.now sorted.now) }
{
    let mut rows = Vec::new(alloc);
    for place in 0..inodes.len() {
        let entry = entry_of(sorted, inodes[place].ino);
        push_copy(&mut rows, entry)?;
    }
    Ok(rows)
}

/// The entries of one server, found by their inodes, and by their names in their directories.
/// Contracts see the list of the entries by rising inode.
#[derive(Drop)]
pub struct Entries {
    inodes: Vec<Inode>,
    sorted: Vec<NameEntry>,
}

impl Model for Entries {
    ghost use Rattle.std.specs.Prelude.{List};
    ghost use Rattle.st_rules.specs.declared.names.NameEntry.{NameEntry};
    ghost use Rattle.st_namespace.specs.StoredEntries.{Stores, entries_of};

    ghost Value = { List NameEntry };

    ghost view = { λ s. entries_of s.inodes.items s.sorted.items };

    ghost invariant = { λ s. Stores (entries_of s.inodes.items s.sorted.items) s.inodes.items s.sorted.items };
}

impl Entries {
    /// No entries.
    pub fn new(alloc: Global) -> Entries
        ensures { result ≡ [] }
    {
        Entries {
            inodes: Vec::new(alloc),
            sorted: Vec::new(alloc),
        }
    }

    /// How many entries there are.
    pub fn len(&self) -> usize
        ensures { result ≡ length self.now }
    {
        self.inodes.len()
    }

    /// The allocator that the entries are kept in.
    pub fn alloc(&self) -> Global {
        *self.sorted.allocator()
    }

    /// All entries, in the order of their inodes. The time is quadratic in their number.
    pub fn rows(&self) -> Result<Vec<NameEntry>, AllocError>
        ensures { IfOk result (λ v. v.items ≡ self.now) }
    {
        rows_of(self.alloc(), self.inodes.as_slice(), self.sorted.as_slice())
    }

    /// Whether an inode is a directory, if there is an entry of it.
    pub fn kind_of(&self, ino: u32) -> Option<bool>
        ensures { result ≡ option_map names.directory_mark (find (names.is_of_ino ino) self.now) }
    {
        mark_of(inode_at(self.inodes.as_slice(), ino))
    }

    /// The directory of the entry of an inode, if there is one.
    pub fn dir_of(&self, ino: u32) -> Option<u32>
        ensures { result ≡ option_map dir_of (find (names.is_of_ino ino) self.now) }
    {
        dir_in(inode_at(self.inodes.as_slice(), ino))
    }

    /// The entry with this name in a directory, if there is one.
    pub fn get(&self, dir: u32, name: &[u8]) -> Option<&NameEntry>
        ensures { option_copied result ≡ find (names.is_entry_at dir name.now) self.now }
    {
        match found_at(self.sorted.as_slice(), dir, name) {
            None => None,
            Some(place) => Some(&self.sorted[place]),
        }
    }

    /// Whether a directory has entries.
    pub fn has_entries(&self, dir: u32) -> bool
        ensures { result ≡ list_any (names.is_in dir) self.now }
    {
        has_entries(self.sorted.as_slice(), dir)
    }

    /// Adds an entry of a higher inode than the others, whose name is new in its directory. An
    /// error changes nothing.
    pub fn push(&mut self, entry: NameEntry) -> Result<(), AllocError>
        requires high { All (λ e. e.ino < entry.ino) self.old }
        requires fresh { is_some (find (names.is_entry_at entry.dir entry.name) self.old) ≡ false }
        ensures ok { OnOk result (self.new ≡ self.old ++ entry ∷ []) }
        ensures err { OnErr result (self.new ≡ self.old) }
    {
        self.inodes.reserve(1)?;
        self.sorted.reserve(1)?;
        let inode = Inode {
            ino: entry.ino,
            dir: entry.dir,
            directory: entry.directory,
        };
        let place = place_of(self.sorted.as_slice(), entry.dir, entry.name.as_slice());
        self.sorted.insert(place, entry).unwrap();
        self.inodes.push(inode).unwrap();
        Ok(())
    }

    /// Removes the entry with this name in a directory. It takes no memory.
    pub fn remove(&mut self, dir: u32, name: &[u8])
        ensures { self.new ≡ filter (λ e. not (names.is_entry_at dir name.now e)) self.old }
    {
        let Some(place) = found_at(self.sorted.as_slice(), dir, name) else {
            return;
        };
        let entry = self.sorted.remove(place);
        drop_inode(&mut self.inodes, entry.ino);
    }

    /// Gives the entry with this name in a directory the name `name2` in the directory `dir2`,
    /// which is new there. It takes no memory.
    pub fn rename(&mut self, dir: u32, name: &[u8], dir2: u32, name2: Name)
        requires { is_some (find (names.is_entry_at dir2 name2) self.old) ≡ false }
        ensures { self.new ≡ map (names.move_entry dir name.now dir2 name2) self.old }
    {
        let Some(place) = found_at(self.sorted.as_slice(), dir, name) else {
            return;
        };
        let entry = self.sorted.remove(place);
        move_inode(&mut self.inodes, entry.ino, dir2);
        let place2 = place_of(self.sorted.as_slice(), dir2, name2.as_slice());
        let moved = NameEntry {
            dir: dir2,
            name: name2,
            ino: entry.ino,
            directory: entry.directory,
        };
        self.sorted.insert(place2, moved).unwrap();
    }

    /// The first 256 entries of a directory above a name, in rising order.
    pub fn rows_above(
        &self,
        alloc: Global,
        dir: u32,
        after: &[u8],
    ) -> Result<Vec<NameRow>, AllocError>
        ensures { IfOk result (λ v. v.items ≡ take 256 (names.by_name (map names.name_row (filter (names.is_listed dir after.now) self.now)))) }
    {
        let start = place_behind(self.sorted.as_slice(), dir, after);
        rows_from(alloc, self.sorted.as_slice(), start, dir)
    }
}
