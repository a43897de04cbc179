// Written by tools/rows/client_rows.py.
ghost use Rattle.std.specs.Prelude.{◌≡◌, ◌∷◌, [], Some};
ghost use Rattle.st_base.specs.Page.{filled};
ghost use Rattle.st_base.specs.declared.mode.Mode.TheVariants as modes;
ghost use Rattle.st_messages.specs.declared.answer.AppAnswer.TheVariants as answers;
ghost use Rattle.st_messages.specs.declared.ask.Ask.TheVariants as asks;
ghost use Rattle.st_messages.specs.declared.message.Body.TheVariants as bodies;
ghost use Rattle.st_messages.specs.declared.output.Note.TheVariants as notes;
ghost use Rattle.st_rules.specs.declared.client.ClientInput.TheVariants.{App, Done};
ghost use Rattle.st_rows.specs.ClientScript.{Given, said};
ghost use Rattle.st_rows.specs.ClientTables.{clean_client, dirty_client, locked_client};
ghost use Rattle.st_rows.specs.ClientWords.{answer, noted, on, reads, says, tag_of, told};
ghost use Rattle.st_rows.specs.Words.{g, page};

/// With 64 dirty pages a write of another page is refused, and of one of them accepted; a patch of
/// another page is refused when the page is there.
#[tactic(auto, unfolding(crate::specs::ClientTables::client_tables_open))]
pub fn a_sixty_fifth_dirty_page_is_one_too_many()
    ensures { said (
        (Given 0 (App 1 (asks.Write (on 1 2) (page 64) (filled 9))))
        ∷ (Given 0 (App 2 (asks.Write (on 1 2) (page 63) (filled 9))))
        ∷ (Given 0 (App 3 (asks.Patch (on 1 2) (page 64) 0 (9 ∷ []))))
        ∷ (Given 0 (Done 1 (Some (Some (tag_of 1 2 64 65, (filled 5))))))
        ∷ []) (dirty_client 64)
        ≡ answer 1 answers.DirtyFull
        ∷ noted (notes.Accepted (on 1 2) (page 63) (filled 9))
        ∷ answer 2 answers.Written
        ∷ reads 1 1 64
        ∷ answer 3 answers.DirtyFull
        ∷ [] }
{}

/// Of more than 256 clean pages the one that was used longest ago goes, and is read anew.
#[tactic(auto, unfolding(crate::specs::ClientTables::client_tables_open))]
pub fn a_page_that_was_not_used_leaves_the_clean_ones()
    ensures { said (
        (Given 0 (App 1 (asks.Read (on 1 2) (page 255))))
        ∷ (Given 0 (App 2 (asks.Read (on 1 2) (page 256))))
        ∷ (Given 0 (Done 1 (Some (Some (tag_of 1 2 256 257, (filled 5))))))
        ∷ (Given 0 (App 3 (asks.Read (on 1 2) (page 255))))
        ∷ (Given 0 (App 4 (asks.Read (on 1 2) (page 253))))
        ∷ (Given 0 (App 5 (asks.Read (on 1 2) (page 254))))
        ∷ []) (clean_client 256)
        ≡ answer 1 (answers.Read (filled 7))
        ∷ reads 1 1 256
        ∷ answer 2 (answers.Read (filled 5))
        ∷ answer 3 (answers.Read (filled 7))
        ∷ answer 4 (answers.Read (filled 7))
        ∷ reads 2 1 254
        ∷ [] }
{}

/// With 1,024 locks a grant of another file is released, and one of a file that has a lock is
/// installed.
#[tactic(auto, unfolding(crate::specs::ClientTables::client_tables_open))]
pub fn a_grant_without_a_place_is_given_back()
    ensures { said (
        (Given 0 (told 1 1 1 0 0 (bodies.Granted 2025 (g 2025) modes.S)))
        ∷ (Given 0 (told 1 1 1 3 0 bodies.Ack))
        ∷ (Given 0 (told 1 1 1 0 0 (bodies.Granted 2025 (g 2025) modes.S)))
        ∷ (Given 0 (told 1 1 1 0 0 (bodies.Granted 2024 (g 3000) modes.X)))
        ∷ (Given 0 (App 1 (asks.Write (on 1 2024) (page 0) (filled 1))))
        ∷ []) (locked_client 1024)
        ≡ says 1 1 1 3 0 (bodies.Released 2025 (g 2025) modes.None)
        ∷ says 1 1 1 4 0 (bodies.Allocate 2024 (g 3000) (page 0) 1)
        ∷ [] }
{}
