ghost use Rattle.std.specs.Prelude.{◌≡◌, ◌+◌, ◌-◌, ◌<◌, ◌≤◌, ◌^◌, IfOk, IfErr, OnOk, OnErr, ◌&&◌, Bool, length, is_some, false, option_map, Ok};
ghost use Rattle.std.specs.Option.{option_copied};
ghost use Rattle.st_base.specs.declared.names.NameRefusal.TheVariants as refusals;
ghost use Rattle.st_rules.specs.Names as names;
ghost use Rattle.st_namespace.specs.Answers.{Changes, ChangesInPlace, IsTold, answer, as_told, ino_and_mark, ino_told};
ghost use Rattle.st_namespace.specs.Order.{IsInOrder};
ghost use Rattle.st_namespace.specs.Restored.{IsRefused, names_of};
ghost use Rattle.st_namespace.specs.StoredEntries.{dir_of};

use crate::entries::Entries;
use crate::name_bytes::is_good;
use crate::restored::{RestoreRefusal, restored};
use st_base::{Name, NameRefusal, NameRow};
use st_rules::{EntryRefusal, NameEntry};
use std::alloc::{AllocError, Global};
use std::marker::Model;

const ROOT: u32 = 1;

/// The names of one server. Contracts see them as the list of their entries, the next inode number,
/// and how many inodes may live.
#[derive(Drop)]
pub struct Names {
    entries: Entries,
    next: u32,
    limit: u32,
}

impl Model for Names {
    ghost use Rattle.st_rules.specs.Names as names;
    ghost use Rattle.st_namespace.specs.Order.{IsKept};

    ghost Value = { names.Names };

    ghost view = { λ n. record { entries = n.entries; next = n.next; limit = n.limit } };

    ghost invariant = { λ n. IsKept (record { entries = n.entries; next = n.next; limit = n.limit }) };
}

/// A refusal of the rules, as the calls tell it.
fn told(refusal: EntryRefusal) -> NameRefusal
    ensures { result ≡ as_told refusal }
{
    match refusal {
        EntryRefusal::NoEntry => NameRefusal::NoEntry,
        EntryRefusal::Exists => NameRefusal::Exists,
        EntryRefusal::NotDir => NameRefusal::NotDir,
        EntryRefusal::IsDir => NameRefusal::IsDir,
        EntryRefusal::NotEmpty => NameRefusal::NotEmpty,
        EntryRefusal::Cycle => NameRefusal::Cycle,
        EntryRefusal::BadName => NameRefusal::BadName,
        EntryRefusal::TooMany => NameRefusal::TooMany,
    }
}

/// One of the files of a fresh server.
fn fresh_file(alloc: Global, ino: u8) -> Result<NameEntry, AllocError>
    requires { ino ≤ 9 }
    ensures { IfOk result (λ e. e ≡ names.fresh_file ino) }
{
    Ok(NameEntry {
        dir: ROOT,
        name: Name::from_slice(alloc, &[b'f', b'0' + ino])?,
        ino: u32::from(ino),
        directory: false,
    })
}

/// The files of a fresh server.
#[tactic(auto, unfolding(st_rules::specs::Names::fresh_names))]
fn fresh_files(alloc: Global) -> Result<Entries, AllocError>
    ensures { IfOk result (λ es. es ≡ names.fresh_names.entries) }
{
    let mut entries = Entries::new(alloc);
    for ino in 2..10u8 {
        entries.push(fresh_file(alloc, ino)?)?;
    }
    Ok(entries)
}

impl Names {
    /// The names of a fresh server: the root, and the files 2 to 9, named `f2` to `f9`, in it.
    #[tactic(auto, unfolding(st_rules::specs::Names::fresh_names))]
    pub fn fresh(alloc: Global) -> Result<Names, AllocError>
        ensures fresh { IfOk result (λ n. n ≡ names.fresh_names) }
        ensures order { IfOk result IsInOrder }
    {
        let entries = fresh_files(alloc)?;
        Ok(Names {
            entries,
            next: 10,
            limit: 4096,
        })
    }

    /// The names of a server with these entries in the order of their inodes, `next` as its next
    /// inode number, and room for `limit` inodes, the root among them. It refuses whatever no
    /// server's names can be.
    pub fn restore(
        alloc: Global,
        rows: &[NameEntry],
        next: u32,
        limit: u32,
    ) -> Result<Names, RestoreRefusal>
        ensures ok { IfOk result (λ n. n ≡ names_of rows.now next limit) }
        ensures order { IfOk result IsInOrder }
        ensures err { IfErr result (λ r. IsRefused r (names_of rows.now next limit)) }
    {
        if rows.len() >= limit as usize {
            return Err(RestoreRefusal::TooMany);
        }
        let entries = restored(alloc, rows, next)?;
        Ok(Names {
            entries,
            next,
            limit,
        })
    }

    /// The directory of the entry of an inode, if there is one.
    fn dir_above(&self, ino: u32) -> Option<u32>
        ensures { result ≡ option_map dir_of (names.entry_of_ino self.now ino) }
    {
        self.entries.dir_of(ino)
    }

    fn entry_at(&self, dir: u32, name: &[u8]) -> Option<&NameEntry>
        ensures { option_copied result ≡ names.entry_at self.now dir name.now }
    {
        self.entries.get(dir, name)
    }

    fn has_entry(&self, dir: u32, name: &[u8]) -> bool
        ensures { result ≡ is_some (names.entry_at self.now dir name.now) }
    {
        self.entry_at(dir, name).is_some()
    }

    /// Whether an inode of this server is a directory; `None` if the server has no such inode.
    fn kind_of(&self, ino: u32) -> Option<bool>
        ensures { result ≡ names.kind_of self.now ino }
    {
        if ino == ROOT {
            return Some(true);
        }
        self.entries.kind_of(ino)
    }

    fn dir_refusal(&self, dir: u32) -> Option<EntryRefusal>
        ensures { result ≡ names.dir_refusal self.now dir }
    {
        match self.kind_of(dir) {
            None => Some(EntryRefusal::NoEntry),
            Some(false) => Some(EntryRefusal::NotDir),
            Some(true) => None,
        }
    }

    #[tactic(auto, unfolding(st_rules::specs::Names::place_refusal))]
    fn place_refusal(&self, dir: u32, name: &[u8]) -> Option<EntryRefusal>
        ensures { result ≡ names.place_refusal self.now dir name.now }
    {
        match self.dir_refusal(dir) {
            Some(refusal) => Some(refusal),
            None => {
                if is_good(name) {
                    None
                } else {
                    Some(EntryRefusal::BadName)
                }
            }
        }
    }

    /// Whether the inode is a file of this server.
    pub fn is_file(&self, ino: u32) -> bool
        ensures { result ≡ names.is_file self.now ino }
    {
        match self.kind_of(ino) {
            None => false,
            Some(directory) => !directory,
        }
    }

    /// The inode of a name in a directory. It takes no memory.
    #[tactic(auto, unfolding(st_rules::specs::Names::lookup, st_rules::specs::Names::lookup_at))]
    pub fn lookup(&self, dir: u32, name: &[u8]) -> Result<u32, NameRefusal>
        ensures { result ≡ answer (names.lookup self.now dir name.now) }
    {
        match self.place_refusal(dir, name) {
            Some(refusal) => Err(told(refusal)),
            None => match self.entry_at(dir, name) {
                None => Err(NameRefusal::NoEntry),
                Some(entry) => Ok(entry.ino),
            },
        }
    }

    /// Whether a directory is `top` or lies under it. It climbs at most as many steps as there are
    /// entries.
    fn is_under(&self, top: u32, dir: u32) -> bool
        ensures { result ≡ names.is_under self.now top dir }
    {
        let mut at = dir;
        for _step in 0..self.entries() {
            if at == top {
                return true;
            }
            let Some(above) = self.dir_above(at) else {
                return false;
            };
            at = above;
        }
        at == top
    }

    #[tactic(auto, unfolding(st_rules::specs::Names::added))]
    fn push(&mut self, dir: u32, name: Name, directory: bool) -> Result<u32, NameRefusal>
        requires next { self.old.next < 2 ^ 32 - 1 }
        requires room { names.live_inodes self.old < self.old.limit }
        requires free { is_some (names.entry_at self.old dir name) ≡ false }
        ensures ok { IfOk result (λ ino. record { names = self.new; ino = ino } ≡ names.added self.old dir name directory) }
        ensures err { OnErr result (self.new ≡ self.old) }
        ensures memory { IfErr result (λ r. r ≡ refusals.Memory) }
        ensures order { IsInOrder self.new }
    {
        let ino = self.next;
        let entry = NameEntry {
            dir,
            name,
            ino,
            directory,
        };
        let Ok(()) = self.entries.push(entry) else {
            return Err(NameRefusal::Memory);
        };
        self.next += 1;
        Ok(ino)
    }

    /// What adding an entry would answer if memory lasted: the next inode number, or why the entry
    /// is refused. It takes no memory.
    #[tactic(auto, unfolding(st_rules::specs::Names::add, st_rules::specs::Names::add_at, st_rules::specs::Names::add_beside, st_rules::specs::Names::add_new, st_rules::specs::Names::added))]
    pub fn check_add(&self, dir: u32, name: &[u8]) -> Result<u32, NameRefusal>
        ensures { (directory : Bool) → result ≡ ino_told (names.add self.now dir name.now directory) }
    {
        if let Some(refusal) = self.place_refusal(dir, name) {
            return Err(told(refusal));
        }
        if self.has_entry(dir, name) {
            return Err(NameRefusal::Exists);
        }
        if self.limit <= self.entries() + 1 {
            return Err(NameRefusal::TooMany);
        }
        Ok(self.next)
    }

    /// Adds an entry with the next inode number. An error changes nothing.
    fn add(&mut self, dir: u32, name: &[u8], directory: bool) -> Result<u32, NameRefusal>
        requires { self.old.next < 2 ^ 32 - 1 }
        ensures exact { Changes self.old self.new result (names.add self.old dir name.now directory) }
        ensures order { IsInOrder self.new }
    {
        self.check_add(dir, name)?;
        let alloc = self.entries.alloc();
        let Ok(name) = Name::from_slice(alloc, name) else {
            return Err(NameRefusal::Memory);
        };
        self.push(dir, name, directory)
    }

    /// Creates a file, and returns its inode.
    #[tactic(auto, unfolding(st_rules::specs::Names::create))]
    pub fn create(&mut self, dir: u32, name: &[u8]) -> Result<u32, NameRefusal>
        requires { self.old.next < 2 ^ 32 - 1 }
        ensures exact { Changes self.old self.new result (names.create self.old dir name.now) }
        ensures order { IsInOrder self.new }
    {
        self.add(dir, name, false)
    }

    /// Makes a directory, and returns its inode.
    #[tactic(auto, unfolding(st_rules::specs::Names::mkdir))]
    pub fn mkdir(&mut self, dir: u32, name: &[u8]) -> Result<u32, NameRefusal>
        requires { self.old.next < 2 ^ 32 - 1 }
        ensures exact { Changes self.old self.new result (names.mkdir self.old dir name.now) }
        ensures order { IsInOrder self.new }
    {
        self.add(dir, name, true)
    }

    /// The inode of an entry, and whether it is a directory.
    fn found(&self, dir: u32, name: &[u8]) -> Option<(u32, bool)>
        ensures { result ≡ option_map ino_and_mark (names.entry_at self.now dir name.now) }
    {
        match self.entry_at(dir, name) {
            None => None,
            Some(entry) => Some((entry.ino, entry.directory)),
        }
    }

    fn is_full(&self, ino: u32, directory: bool) -> bool
        ensures { result ≡ (directory && names.has_entries self.now ino) }
    {
        directory && self.entries.has_entries(ino)
    }

    /// What `remove` would answer. It takes no memory.
    pub fn check_remove(&self, dir: u32, name: &[u8]) -> Result<u32, NameRefusal>
        ensures { result ≡ ino_told (names.remove self.now dir name.now) }
    {
        if let Some(refusal) = self.place_refusal(dir, name) {
            return Err(told(refusal));
        }
        let Some((ino, directory)) = self.found(dir, name) else {
            return Err(NameRefusal::NoEntry);
        };
        if self.is_full(ino, directory) {
            return Err(NameRefusal::NotEmpty);
        }
        Ok(ino)
    }

    /// Removes an entry, and returns its inode; a directory must be empty. It takes no memory.
    pub fn remove(&mut self, dir: u32, name: &[u8]) -> Result<u32, NameRefusal>
        ensures exact { ChangesInPlace self.old self.new result (names.remove self.old dir name.now) }
        ensures order { IsInOrder self.new }
    {
        let ino = self.check_remove(dir, name)?;
        self.entries.remove(dir, name);
        Ok(ino)
    }

    fn comes_under_itself(&self, ino: u32, directory: bool, dir2: u32) -> bool
        ensures { result ≡ (directory && names.is_under self.now ino dir2) }
    {
        directory && self.is_under(ino, dir2)
    }

    /// The inode of an entry that may move, or the refusal, if both directories and both names
    /// are good.
    fn moved(&self, dir: u32, name: &[u8], dir2: u32, name2: &[u8]) -> Result<u32, NameRefusal>
        ensures told { result ≡ ino_told (names.rename_found self.now dir name.now dir2 name2.now (names.entry_at self.now dir name.now)) }
        ensures free { OnOk result (is_some (names.entry_at self.now dir2 name2.now) ≡ false) }
    {
        let Some((ino, directory)) = self.found(dir, name) else {
            return Err(NameRefusal::NoEntry);
        };
        if self.has_entry(dir2, name2) {
            return Err(NameRefusal::Exists);
        }
        if self.comes_under_itself(ino, directory, dir2) {
            return Err(NameRefusal::Cycle);
        }
        Ok(ino)
    }

    /// What `rename` would answer if memory lasted. It takes no memory.
    pub fn check_rename(
        &self,
        dir: u32,
        name: &[u8],
        dir2: u32,
        name2: &[u8],
    ) -> Result<u32, NameRefusal>
        ensures told { result ≡ ino_told (names.rename self.now dir name.now dir2 name2.now) }
        ensures free { OnOk result (is_some (names.entry_at self.now dir2 name2.now) ≡ false) }
    {
        if let Some(refusal) = self.place_refusal(dir, name) {
            return Err(told(refusal));
        }
        if let Some(refusal) = self.place_refusal(dir2, name2) {
            return Err(told(refusal));
        }
        self.moved(dir, name, dir2, name2)
    }

    /// Gives an entry another name in another directory, and returns its inode, which stays.
    pub fn rename(
        &mut self,
        dir: u32,
        name: &[u8],
        dir2: u32,
        name2: &[u8],
    ) -> Result<u32, NameRefusal>
        ensures exact { Changes self.old self.new result (names.rename self.old dir name.now dir2 name2.now) }
        ensures order { IsInOrder self.new }
    {
        let ino = self.check_rename(dir, name, dir2, name2)?;
        let alloc = self.entries.alloc();
        let Ok(name2) = Name::from_slice(alloc, name2) else {
            return Err(NameRefusal::Memory);
        };
        self.entries.rename(dir, name, dir2, name2);
        Ok(ino)
    }

    /// The entries of a directory whose names are above `after`, compared byte by byte, in rising
    /// order; at most the first 256.
    #[tactic(auto, unfolding(st_rules::specs::Names::list, st_rules::specs::Names::list_at))]
    pub fn list(&self, dir: u32, after: &[u8]) -> Result<Vec<NameRow>, NameRefusal>
        ensures rows { IfOk result (λ rows. names.list self.now dir after.now ≡ Ok rows.items) }
        ensures refused { IfErr result (λ r. IsTold r (names.list self.now dir after.now)) }
    {
        if let Some(refusal) = self.dir_refusal(dir) {
            return Err(told(refusal));
        }
        let alloc = self.entries.alloc();
        match self.entries.rows_above(alloc, dir, after) {
            Err(_) => Err(NameRefusal::Memory),
            Ok(rows) => Ok(rows),
        }
    }

    /// How many entries there are.
    pub fn entries(&self) -> u32
        ensures { result ≡ length self.now.entries }
    {
        self.entries.len() as u32
    }

    /// The number that the next new inode gets. No number is used twice.
    pub fn next_ino(&self) -> u32
        ensures { result ≡ self.now.next }
    {
        self.next
    }

    /// All entries, in the order of their inodes.
    pub fn rows(&self) -> Result<Vec<NameEntry>, AllocError>
        ensures rows { IfOk result (λ v. v.items ≡ self.now.entries) }
        ensures order { OnOk result (IsInOrder self.now) }
    {
        self.entries.rows()
    }

    /// How many inodes may live, the root among them.
    pub fn limit(&self) -> u32
        ensures { result ≡ self.now.limit }
    {
        self.limit
    }
}
