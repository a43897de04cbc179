// The files that were touched since a pass last walked them.
ghost use Rattle.std.specs.Prelude.{◌≡◌, ◌==◌, ◌&&◌, ℕ, IfOk, false};
ghost use Rattle.std.specs.List.{list_any};
ghost use Rattle.st_rules.specs.Keys as keys;
ghost use Rattle.st_locks.specs.SettledFiles.{IsClear, IsFull, Marks, MarksAll, is_marked};

use st_tables::rising;
use std::alloc::{AllocError, Global};
use std::marker::Model;

/// How many files calls note one by one. If they touch more, all files count as touched, until a
/// pass has walked them.
const MOST: usize = 64;

/// The files that were touched: those of a list, or all. Contracts see the list and whether it is
/// all.
#[derive(Drop)]
pub(crate) struct TouchedFiles {
    all: bool,
    files: Vec<u32>,
}

impl Model for TouchedFiles {
    ghost use Rattle.st_locks.specs.SettledFiles as shown;

    ghost Value = { shown.TouchedFiles };

    ghost view = { λ t. record { all = t.all; files = t.files.items } };
}

fn has(files: &[u32], ino: u32) -> bool
    ensures { result ≡ list_any (λ k. k == ino) files.now }
{
    files.iter().any(|k| *k == ino)
}

/// The same files, in the room of the spare list.
fn same(files: &[u32], mut spare: Vec<u32>) -> Result<Vec<u32>, AllocError>
    ensures { IfOk result (λ v. v.items ≡ files.now) }
{
    spare.clear();
    spare.extend_from_slice(files)?;
    Ok(spare)
}

impl TouchedFiles {
    pub fn new(alloc: Global) -> TouchedFiles
        ensures { IsClear result }
    {
        TouchedFiles {
            all: false,
            files: Vec::new(alloc),
        }
    }

    /// Whether the file was touched.
    pub fn has(&self, ino: u32) -> bool
        ensures { result ≡ is_marked self.now ino }
    {
        self.all || has(self.files.as_slice(), ino)
    }

    /// Whether all files were touched.
    pub fn is_all(&self) -> bool
        ensures { result ≡ self.now.all }
    {
        self.all
    }

    /// The files of the list, in rising order. If there is at most one, the room of the spare
    /// list is used.
    pub fn rising(&self, alloc: Global, spare: Vec<u32>) -> Result<Vec<u32>, AllocError>
        ensures { IfOk result (λ v. v.items ≡ keys.rising self.now.files) }
    {
        if self.files.len() < 2 {
            same(self.files.as_slice(), spare)
        } else {
            rising(alloc, self.files.as_slice())
        }
    }

    /// Reserves room for one more file. If there is no room for a file, all files count as touched.
    pub fn reserve_one(&mut self) -> Result<(), AllocError>
        ensures { self.new ≡ self.old }
    {
        self.files.reserve(1)?;
        Ok(())
    }

    /// Reserves room for as many files as calls note one by one.
    pub fn reserve(&mut self) -> Result<(), AllocError>
        ensures { self.new ≡ self.old }
    {
        if self.files.len() < MOST {
            self.files.reserve(MOST - self.files.len())?;
            Ok(())
        } else {
            Ok(())
        }
    }

    /// Puts a file last in the list. It takes no memory: if the list is full, all files are
    /// touched.
    pub fn keep(&mut self, ino: u32)
        ensures { Marks ino self.old self.new }
    {
        if self.files.len() < self.files.capacity() {
            if self.files.push(ino).is_err() {
                self.all = true;
            }
        } else {
            self.all = true;
        }
    }

    /// Puts a file last in the list if it has fewer than 64; otherwise all files are touched.
    fn keep_few(&mut self, ino: u32)
        ensures { Marks ino self.old self.new }
    {
        if self.files.len() < MOST {
            self.keep(ino);
        } else {
            self.touch_all();
        }
    }

    /// The file was touched. If the list has 64 files already, all files are touched: a call
    /// never looks through more.
    pub fn touch(&mut self, ino: u32)
        ensures { Marks ino self.old self.new }
    {
        if !self.has(ino) {
            self.keep_few(ino);
        }
    }

    /// The file was touched, if this is true.
    pub fn touch_if(&mut self, ino: u32, yes: bool)
        ensures { MarksAll (λ j. yes && (ino == j)) self.old self.new }
    {
        if yes {
            self.touch(ino);
        }
    }

    /// All files were touched.
    pub fn touch_all(&mut self)
        ensures { IsFull self.new }
    {
        self.all = true;
    }

    /// A pass walked all files that were touched.
    pub fn clear(&mut self)
        ensures { IsClear self.new }
    {
        self.all = false;
        self.files.clear();
    }
}
