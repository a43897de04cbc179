ghost use Rattle.std.specs.Prelude.{◌≡◌, ◌∷◌, [], Ok, Err, Some, None};
ghost use Rattle.st_rules.specs.declared.extents.AllocateRefusal.TheVariants.{NoSpace};
ghost use Rattle.st_rules.specs.Extents as extents;
ghost use Rattle.st_rows.specs.Tables.{mapped, second_file, second_server};
ghost use Rattle.st_rows.specs.Words.{at, page};

/// The blocks of a server's own disks are given by least disk and block, and births go on.
#[tactic(auto, unfolding(crate::specs::Tables::tables_open))]
pub fn blocks_are_given_in_order()
    ensures own { extents.free_blocks (second_server [] 0) ≡ at 2 0 ∷ at 2 1 ∷ at 4 0 ∷ at 4 1 ∷ [] }
    ensures given { extents.allocate (second_server (mapped 2 1 (at 2 0) 5 ∷ []) 6) (second_file 2) (page 0) 3
        ≡ Ok (second_server (mapped 2 1 (at 2 0) 5 ∷ mapped 2 0 (at 2 1) 7 ∷ mapped 2 2 (at 4 0) 8 ∷ []) 8) }
    ensures all_mapped { extents.allocate (second_server (mapped 2 1 (at 2 0) 5 ∷ []) 6) (second_file 2) (page 1) 1
        ≡ Ok (second_server (mapped 2 1 (at 2 0) 5 ∷ []) 6) }
    ensures refused { extents.allocate (second_server (mapped 2 1 (at 2 0) 5 ∷ []) 6) (second_file 2) (page 0) 5 ≡ Err (NoSpace 3 4) }
{}

/// A release unmaps the file's pages from its first one on, and frees their blocks.
#[tactic(auto, unfolding(crate::specs::Tables::tables_open))]
pub fn blocks_are_freed()
    ensures released { extents.release_from (second_server (mapped 2 0 (at 2 0) 1 ∷ mapped 2 1 (at 2 1) 2 ∷ mapped 3 1 (at 4 0) 3
        ∷ mapped 2 2 (at 4 1) 4 ∷ []) 4) (second_file 2) (page 1)
        ≡ second_server (mapped 2 0 (at 2 0) 1 ∷ mapped 3 1 (at 4 0) 3 ∷ []) 4 }
    ensures found { extents.map_page (second_server (mapped 3 1 (at 4 0) 3 ∷ []) 4) (second_file 3) (page 1) ≡ Some (at 4 0, 3) }
    ensures missing { extents.map_page (second_server (mapped 3 1 (at 4 0) 3 ∷ []) 4) (second_file 3) (page 2) ≡ None }
{}
