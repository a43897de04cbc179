ghost use Rattle.std.specs.Prelude.{◌≡◌, ◌∷◌, [], ◌++◌, true, false, Ok, Err, codes, is_ok};
ghost use Rattle.st_rules.specs.declared.names.EntryRefusal.TheVariants.{BadName, Cycle, Exists, NoEntry, NotDir, NotEmpty, TooMany};
ghost use Rattle.st_rules.specs.Names as names;
ghost use Rattle.st_rows.specs.Directories.{crowded, deep, entry_in, named};
ghost use Rattle.st_rows.specs.Words.{entry};

/// Good names, by their bytes and their length.
#[tactic(auto, unfolding(crate::specs::Directories::directories_open))]
pub fn names_are_good_or_bad()
    ensures all { names.is_good (codes "aZ09._-") ≡ true }
    ensures none { names.is_good [] ≡ false }
    ensures dot { names.is_good (codes ".") ≡ false }
    ensures dots { names.is_good (codes "..") ≡ false }
    ensures three_dots { names.is_good (codes "...") ≡ true }
    ensures slash { names.is_good (codes "a/b") ≡ false }
    ensures longest { names.is_good (codes "0123456789012345678901234567890123456789012345678901234567890123") ≡ true }
    ensures too_long { names.is_good (codes "01234567890123456789012345678901234567890123456789012345678901234") ≡ false }
{}

/// Refusals come in their order: of the directory, of the name, of the second place, of the entry.
#[tactic(auto, unfolding(crate::specs::Directories::directories_open))]
pub fn name_refusals_have_an_order()
    ensures no_inode { names.lookup deep 99 (codes "/") ≡ Err NoEntry }
    ensures no_directory { names.lookup deep 2 (codes "/") ≡ Err NotDir }
    ensures bad_name { names.lookup deep 1 (codes "/") ≡ Err BadName }
    ensures missing { names.lookup deep 1 (codes "x") ≡ Err NoEntry }
    ensures second_place { names.rename deep 1 (codes "x") 2 (codes "/") ≡ Err NotDir }
    ensures second_name { names.rename deep 1 (codes "x") 1 (codes "/") ≡ Err BadName }
    ensures wanted { names.rename deep 1 (codes "x") 1 (codes "f2") ≡ Err NoEntry }
    ensures same_entry { names.rename deep 1 (codes "f2") 1 (codes "f2") ≡ Err Exists }
    ensures under_itself { names.rename deep 1 (codes "d") 11 (codes "d") ≡ Err Cycle }
    ensures into_itself { names.rename deep 1 (codes "d") 10 (codes "x") ≡ Err Cycle }
    ensures not_empty { names.remove deep 1 (codes "d") ≡ Err NotEmpty }
    ensures exists { names.mkdir deep 10 (codes "e") ≡ Err Exists }
{}

/// A listing begins above the given name, in the order of bytes.
#[tactic(auto, unfolding(crate::specs::Directories::directories_open))]
pub fn listings_begin_above_a_name()
    ensures above { names.list deep 10 (codes "e") ≡ Ok (entry 12 false (codes "ee") ∷ []) }
    ensures all { names.list deep 10 [] ≡ Ok (entry 13 false (codes "Z") ∷ entry 11 true (codes "e") ∷ entry 12 false (codes "ee") ∷ []) }
    ensures no_directory { names.list deep 12 [] ≡ Err NotDir }
{}

/// An entry is added with the next inode number, moved with its own, and removed.
#[tactic(auto, unfolding(crate::specs::Directories::directories_open))]
pub fn entries_come_and_go()
    ensures added { names.create (named [] 14) 1 (codes "a") ≡ Ok (record { names = named (entry_in 1 (codes "a") 14 false ∷ []) 15; ino = 14 }) }
    ensures moved { names.rename (named (entry_in 1 (codes "d") 10 true ∷ entry_in 1 (codes "a") 14 false ∷ []) 15) 1 (codes "a") 10 (codes "b")
        ≡ Ok (record { names = named (entry_in 1 (codes "d") 10 true ∷ entry_in 10 (codes "b") 14 false ∷ []) 15; ino = 14 }) }
    ensures directory_moved { names.rename (named (entry_in 1 (codes "d") 10 true ∷ entry_in 10 (codes "e") 11 true ∷ []) 15) 10 (codes "e") 1 (codes "b")
        ≡ Ok (record { names = named (entry_in 1 (codes "d") 10 true ∷ entry_in 1 (codes "b") 11 true ∷ []) 15; ino = 11 }) }
    ensures removed { names.remove (named (entry_in 1 (codes "a") 14 false ∷ []) 15) 1 (codes "a") ≡ Ok (record { names = named [] 15; ino = 14 }) }
{}

/// There are 4,096 live inodes at most, with the root.
#[tactic(auto, unfolding(crate::specs::Directories::directories_open))]
pub fn inodes_are_counted()
    ensures last { is_ok (names.create (crowded 4094) 1 (codes "a")) ≡ true }
    ensures full { names.create (crowded 4095) 1 (codes "a") ≡ Err TooMany }
    ensures exists_first { names.create (crowded 4095) 1 (codes "dA") ≡ Err Exists }
{}
