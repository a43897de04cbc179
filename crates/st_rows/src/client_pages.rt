// Written by tools/rows/client_rows.py.
ghost use Rattle.std.specs.Prelude.{◌≡◌, ◌∷◌, [], None, Some};
ghost use Rattle.st_base.specs.Page.{filled};
ghost use Rattle.st_base.specs.declared.mode.Mode.TheVariants as modes;
ghost use Rattle.st_messages.specs.declared.answer.AppAnswer.TheVariants as answers;
ghost use Rattle.st_messages.specs.declared.ask.Ask.TheVariants as asks;
ghost use Rattle.st_messages.specs.declared.message.Body.TheVariants as bodies;
ghost use Rattle.st_messages.specs.declared.output.Note.TheVariants as notes;
ghost use Rattle.st_rules.specs.FlatLog.{overlay};
ghost use Rattle.st_rules.specs.declared.client.ClientInput.TheVariants.{App, Done, Tick};
ghost use Rattle.st_rows.specs.ClientScript.{Given, client_of, said};
ghost use Rattle.st_rows.specs.ClientWords.{answer, noted, on, reads, says, server, tag_of, told, writes};
ghost use Rattle.st_rows.specs.Words.{extent, g, page, stamp};

/// A sync is told that the write failed; a later one waits until a tick submits the page again.
#[tactic(auto, unfolding(crate::specs::ClientScript::client_script_open))]
pub fn a_failed_write_is_submitted_again()
    ensures { said (
        (Given 0 (App 1 (asks.Write (on 1 2) (page 0) (filled 77))))
        ∷ (Given 0 (told 1 1 1 0 0 bodies.Welcome))
        ∷ (Given 0 (told 1 1 1 1 0 (bodies.Granted 2 (g 4294967297) modes.X)))
        ∷ (Given 0 (told 1 1 1 2 0 (bodies.Extents 2 (extent 0 1 0 1 ∷ []))))
        ∷ (Given 0 (App 2 (asks.Sync (on 1 2))))
        ∷ (Given 0 (Done 1 None))
        ∷ (Given 0 (App 3 (asks.Sync (on 1 2))))
        ∷ (Given 0 Tick)
        ∷ (Given 0 (Done 2 (Some None)))
        ∷ []) (client_of 1)
        ≡ says 1 1 0 0 0 bodies.Hello
        ∷ noted (notes.Leased (server 1) (stamp 1000))
        ∷ says 1 1 1 1 0 (bodies.Acquire 2 modes.X)
        ∷ says 1 1 1 2 0 (bodies.Allocate 2 (g 4294967297) (page 0) 1)
        ∷ noted (notes.Accepted (on 1 2) (page 0) (filled 77))
        ∷ answer 1 answers.Written
        ∷ writes 1 1 0 1 2 0 1 (filled 77)
        ∷ answer 2 (answers.DiskFault 1)
        ∷ writes 2 1 0 1 2 0 1 (filled 77)
        ∷ answer 3 answers.Hard
        ∷ [] }
{}

/// In flush the pages without a failed command are written, by rising file and page, and the others
/// are not.
#[tactic(auto, unfolding(crate::specs::ClientScript::client_script_open))]
pub fn a_failed_write_waits_out_the_flush()
    ensures { said (
        (Given 0 (App 1 (asks.Write (on 1 3) (page 0) (filled 77))))
        ∷ (Given 0 (told 1 1 1 0 0 bodies.Welcome))
        ∷ (Given 0 (told 1 1 1 1 0 (bodies.Granted 3 (g 4294967297) modes.X)))
        ∷ (Given 0 (told 1 1 1 2 0 (bodies.Extents 3 (extent 0 1 0 1 ∷ []))))
        ∷ (Given 0 (told 1 1 1 0 0 (bodies.Extents 3 (extent 1 1 1 2 ∷ []))))
        ∷ (Given 0 (App 2 (asks.Write (on 1 3) (page 1) (filled 1))))
        ∷ (Given 0 (told 1 1 1 3 0 (bodies.Extents 3 (extent 1 1 1 2 ∷ []))))
        ∷ (Given 0 (told 1 1 1 0 0 (bodies.Granted 2 (g 4294967298) modes.X)))
        ∷ (Given 0 (App 3 (asks.Write (on 1 2) (page 5) (filled 2))))
        ∷ (Given 0 (told 1 1 1 4 0 (bodies.Extents 2 (extent 4 1 4 5 ∷ extent 5 1 5 6 ∷ []))))
        ∷ (Given 0 (App 4 (asks.Write (on 1 2) (page 4) (filled 3))))
        ∷ (Given 0 (App 5 (asks.Sync (on 1 3))))
        ∷ (Given 0 (Done 2 None))
        ∷ (Given 0 (Done 1 (Some None)))
        ∷ (Given 0 (App 6 (asks.Write (on 1 3) (page 0) (filled 4))))
        ∷ (Given 849 Tick)
        ∷ (Given 850 Tick)
        ∷ (Given 851 Tick)
        ∷ []) (client_of 1)
        ≡ says 1 1 0 0 0 bodies.Hello
        ∷ noted (notes.Leased (server 1) (stamp 1000))
        ∷ says 1 1 1 1 0 (bodies.Acquire 3 modes.X)
        ∷ says 1 1 1 2 0 (bodies.Allocate 3 (g 4294967297) (page 0) 1)
        ∷ noted (notes.Accepted (on 1 3) (page 0) (filled 77))
        ∷ answer 1 answers.Written
        ∷ says 1 1 1 3 0 (bodies.Allocate 3 (g 4294967297) (page 1) 1)
        ∷ noted (notes.Accepted (on 1 3) (page 1) (filled 1))
        ∷ answer 2 answers.Written
        ∷ says 1 1 1 4 0 (bodies.Allocate 2 (g 4294967298) (page 5) 1)
        ∷ noted (notes.Accepted (on 1 2) (page 5) (filled 2))
        ∷ answer 3 answers.Written
        ∷ noted (notes.Accepted (on 1 2) (page 4) (filled 3))
        ∷ answer 4 answers.Written
        ∷ writes 1 1 0 1 3 0 1 (filled 77)
        ∷ writes 2 1 1 1 3 1 2 (filled 1)
        ∷ answer 5 (answers.DiskFault 2)
        ∷ noted (notes.Accepted (on 1 3) (page 0) (filled 4))
        ∷ answer 6 answers.Written
        ∷ says 1 1 1 5 849 bodies.KeepAlive
        ∷ writes 3 1 4 1 2 4 5 (filled 3)
        ∷ writes 4 1 5 1 2 5 6 (filled 2)
        ∷ writes 5 1 0 1 3 0 1 (filled 4)
        ∷ [] }
{}

/// A write that is done for an older version leaves the page dirty; so does one that fails, and
/// marks nothing.
#[tactic(auto, unfolding(crate::specs::ClientScript::client_script_open))]
pub fn a_page_that_was_changed_since_stays_dirty()
    ensures { said (
        (Given 0 (App 1 (asks.Write (on 1 2) (page 0) (filled 77))))
        ∷ (Given 0 (told 1 1 1 0 0 bodies.Welcome))
        ∷ (Given 0 (told 1 1 1 1 0 (bodies.Granted 2 (g 4294967297) modes.X)))
        ∷ (Given 0 (told 1 1 1 2 0 (bodies.Extents 2 (extent 0 1 0 1 ∷ []))))
        ∷ (Given 0 (App 2 (asks.Sync (on 1 2))))
        ∷ (Given 0 (App 3 (asks.Write (on 1 2) (page 0) (filled 78))))
        ∷ (Given 0 (Done 1 (Some None)))
        ∷ (Given 0 (App 4 (asks.Write (on 1 2) (page 0) (filled 79))))
        ∷ (Given 0 (Done 2 None))
        ∷ (Given 0 (App 5 (asks.Sync (on 1 2))))
        ∷ (Given 0 (Done 3 (Some None)))
        ∷ []) (client_of 1)
        ≡ says 1 1 0 0 0 bodies.Hello
        ∷ noted (notes.Leased (server 1) (stamp 1000))
        ∷ says 1 1 1 1 0 (bodies.Acquire 2 modes.X)
        ∷ says 1 1 1 2 0 (bodies.Allocate 2 (g 4294967297) (page 0) 1)
        ∷ noted (notes.Accepted (on 1 2) (page 0) (filled 77))
        ∷ answer 1 answers.Written
        ∷ writes 1 1 0 1 2 0 1 (filled 77)
        ∷ noted (notes.Accepted (on 1 2) (page 0) (filled 78))
        ∷ answer 3 answers.Written
        ∷ writes 2 1 0 1 2 0 1 (filled 78)
        ∷ noted (notes.Accepted (on 1 2) (page 0) (filled 79))
        ∷ answer 4 answers.Written
        ∷ answer 2 (answers.DiskFault 2)
        ∷ writes 3 1 0 1 2 0 1 (filled 79)
        ∷ answer 5 answers.Hard
        ∷ [] }
{}

/// A patch of a page that is mapped and not cached waits for its read, of which there is one.
#[tactic(auto, unfolding(crate::specs::ClientScript::client_script_open))]
pub fn a_patch_reads_its_page_first()
    ensures { said (
        (Given 0 (App 1 (asks.Patch (on 1 2) (page 0) 0 (9 ∷ []))))
        ∷ (Given 0 (told 1 1 1 0 0 bodies.Welcome))
        ∷ (Given 0 (told 1 1 1 1 0 (bodies.Granted 2 (g 4294967297) modes.X)))
        ∷ (Given 0 (told 1 1 1 2 0 (bodies.Extents 2 (extent 0 1 0 1 ∷ []))))
        ∷ (Given 0 (App 2 (asks.Read (on 1 2) (page 0))))
        ∷ (Given 0 (Done 1 (Some (Some (tag_of 0 0 0 0, (filled 0))))))
        ∷ (Given 0 (App 3 (asks.Sync (on 1 2))))
        ∷ []) (client_of 1)
        ≡ says 1 1 0 0 0 bodies.Hello
        ∷ noted (notes.Leased (server 1) (stamp 1000))
        ∷ says 1 1 1 1 0 (bodies.Acquire 2 modes.X)
        ∷ says 1 1 1 2 0 (bodies.Allocate 2 (g 4294967297) (page 0) 1)
        ∷ reads 1 1 0
        ∷ noted (notes.Patched (on 1 2) (page 0) 0 (9 ∷ []))
        ∷ answer 1 answers.Written
        ∷ answer 2 (answers.Read (overlay 0 (9 ∷ []) (filled 0)))
        ∷ writes 2 1 0 1 2 0 1 (overlay 0 (9 ∷ []) (filled 0))
        ∷ [] }
{}

/// A patch of a dirty page is accepted at once, and the page is written whole.
#[tactic(auto, unfolding(crate::specs::ClientScript::client_script_open))]
pub fn a_patch_over_a_dirty_page()
    ensures { said (
        (Given 0 (App 1 (asks.Write (on 1 2) (page 0) (filled 77))))
        ∷ (Given 0 (told 1 1 1 0 0 bodies.Welcome))
        ∷ (Given 0 (told 1 1 1 1 0 (bodies.Granted 2 (g 4294967297) modes.X)))
        ∷ (Given 0 (told 1 1 1 2 0 (bodies.Extents 2 (extent 0 1 0 1 ∷ []))))
        ∷ (Given 0 (App 2 (asks.Patch (on 1 2) (page 0) 4094 (5 ∷ 5 ∷ []))))
        ∷ (Given 0 (App 3 (asks.Read (on 1 2) (page 0))))
        ∷ (Given 0 (App 4 (asks.Sync (on 1 2))))
        ∷ []) (client_of 1)
        ≡ says 1 1 0 0 0 bodies.Hello
        ∷ noted (notes.Leased (server 1) (stamp 1000))
        ∷ says 1 1 1 1 0 (bodies.Acquire 2 modes.X)
        ∷ says 1 1 1 2 0 (bodies.Allocate 2 (g 4294967297) (page 0) 1)
        ∷ noted (notes.Accepted (on 1 2) (page 0) (filled 77))
        ∷ answer 1 answers.Written
        ∷ noted (notes.Patched (on 1 2) (page 0) 4094 (5 ∷ 5 ∷ []))
        ∷ answer 2 answers.Written
        ∷ answer 3 (answers.Read (overlay 4094 (5 ∷ 5 ∷ []) (filled 77)))
        ∷ writes 1 1 0 1 2 0 1 (overlay 4094 (5 ∷ 5 ∷ []) (filled 77))
        ∷ [] }
{}

/// What a read finds counts if the block's tag is the page's and its birth is the known one;
/// otherwise the page is zeros. Results of another kind and of unknown commands are ignored.
#[tactic(auto, unfolding(crate::specs::ClientScript::client_script_open))]
pub fn a_block_of_another_birth_is_zeros()
    ensures { said (
        (Given 0 (App 1 (asks.Read (on 1 2) (page 0))))
        ∷ (Given 0 (told 1 1 1 0 0 bodies.Welcome))
        ∷ (Given 0 (told 1 1 1 1 0 (bodies.Granted 2 (g 4294967297) modes.S)))
        ∷ (Given 0 (told 1 1 1 2 0 (bodies.Extents 2 (extent 0 1 0 7 ∷ extent 1 1 1 8 ∷ []))))
        ∷ (Given 0 (App 2 (asks.Read (on 1 2) (page 1))))
        ∷ (Given 0 (Done 1 (Some None)))
        ∷ (Given 0 (Done 3 (Some (Some (tag_of 1 2 0 7, (filled 5))))))
        ∷ (Given 0 (Done 1 (Some (Some (tag_of 1 2 0 6, (filled 5))))))
        ∷ (Given 0 (Done 2 (Some (Some (tag_of 1 2 1 8, (filled 6))))))
        ∷ []) (client_of 1)
        ≡ says 1 1 0 0 0 bodies.Hello
        ∷ noted (notes.Leased (server 1) (stamp 1000))
        ∷ says 1 1 1 1 0 (bodies.Acquire 2 modes.S)
        ∷ says 1 1 1 2 0 (bodies.Map 2 (g 4294967297) (page 0))
        ∷ reads 1 1 0
        ∷ reads 2 1 1
        ∷ answer 1 (answers.Read (filled 0))
        ∷ answer 2 (answers.Read (filled 6))
        ∷ [] }
{}

/// A failed read is reported to the reads and patches of its page, and the next one reads again.
#[tactic(auto, unfolding(crate::specs::ClientScript::client_script_open))]
pub fn a_failed_read_answers_who_waits_for_it()
    ensures { said (
        (Given 0 (App 1 (asks.Read (on 1 2) (page 0))))
        ∷ (Given 0 (told 1 1 1 0 0 bodies.Welcome))
        ∷ (Given 0 (told 1 1 1 1 0 (bodies.Granted 2 (g 4294967297) modes.X)))
        ∷ (Given 0 (told 1 1 1 2 0 (bodies.Extents 2 (extent 0 1 0 1 ∷ extent 1 1 1 2 ∷ []))))
        ∷ (Given 0 (App 2 (asks.Patch (on 1 2) (page 0) 1 (1 ∷ []))))
        ∷ (Given 0 (App 3 (asks.Patch (on 1 2) (page 1) 1 (1 ∷ []))))
        ∷ (Given 0 (App 4 (asks.Sync (on 1 2))))
        ∷ (Given 0 (Done 1 None))
        ∷ (Given 0 (App 5 (asks.Read (on 1 2) (page 0))))
        ∷ []) (client_of 1)
        ≡ says 1 1 0 0 0 bodies.Hello
        ∷ noted (notes.Leased (server 1) (stamp 1000))
        ∷ says 1 1 1 1 0 (bodies.Acquire 2 modes.S)
        ∷ says 1 1 1 2 0 (bodies.Map 2 (g 4294967297) (page 0))
        ∷ reads 1 1 0
        ∷ reads 2 1 1
        ∷ answer 4 answers.Hard
        ∷ answer 1 (answers.DiskFault 1)
        ∷ answer 2 (answers.DiskFault 1)
        ∷ reads 3 1 0
        ∷ [] }
{}

/// A page that is written while it is read: the read is forgotten, and its result is ignored.
#[tactic(auto, unfolding(crate::specs::ClientScript::client_script_open))]
pub fn a_write_forgets_the_read_of_its_page()
    ensures { said (
        (Given 0 (App 1 (asks.Read (on 1 2) (page 0))))
        ∷ (Given 0 (told 1 1 1 0 0 bodies.Welcome))
        ∷ (Given 0 (told 1 1 1 1 0 (bodies.Granted 2 (g 4294967297) modes.X)))
        ∷ (Given 0 (told 1 1 1 2 0 (bodies.Extents 2 (extent 0 1 0 1 ∷ []))))
        ∷ (Given 0 (App 2 (asks.Write (on 1 2) (page 0) (filled 5))))
        ∷ (Given 0 (Done 1 (Some (Some (tag_of 1 2 0 1, (filled 6))))))
        ∷ (Given 0 (App 3 (asks.Read (on 1 2) (page 0))))
        ∷ []) (client_of 1)
        ≡ says 1 1 0 0 0 bodies.Hello
        ∷ noted (notes.Leased (server 1) (stamp 1000))
        ∷ says 1 1 1 1 0 (bodies.Acquire 2 modes.S)
        ∷ says 1 1 1 2 0 (bodies.Map 2 (g 4294967297) (page 0))
        ∷ reads 1 1 0
        ∷ noted (notes.Accepted (on 1 2) (page 0) (filled 5))
        ∷ answer 2 answers.Written
        ∷ answer 1 (answers.Read (filled 5))
        ∷ answer 3 (answers.Read (filled 5))
        ∷ [] }
{}

/// Extents that were asked under a grant other than the lock's are not known.
#[tactic(auto, unfolding(crate::specs::ClientScript::client_script_open))]
pub fn extents_of_an_older_grant_are_not_learned()
    ensures { said (
        (Given 0 (App 1 (asks.Read (on 1 2) (page 0))))
        ∷ (Given 0 (told 1 1 1 0 0 bodies.Welcome))
        ∷ (Given 0 (told 1 1 1 1 0 (bodies.Granted 2 (g 4294967297) modes.S)))
        ∷ (Given 0 (told 1 1 1 0 0 (bodies.Granted 2 (g 4294967298) modes.S)))
        ∷ (Given 0 (told 1 1 1 2 0 (bodies.Extents 2 (extent 0 1 0 1 ∷ []))))
        ∷ (Given 0 (told 1 1 1 3 0 (bodies.Extents 2 [])))
        ∷ []) (client_of 1)
        ≡ says 1 1 0 0 0 bodies.Hello
        ∷ noted (notes.Leased (server 1) (stamp 1000))
        ∷ says 1 1 1 1 0 (bodies.Acquire 2 modes.S)
        ∷ says 1 1 1 2 0 (bodies.Map 2 (g 4294967297) (page 0))
        ∷ says 1 1 1 3 0 (bodies.Map 2 (g 4294967298) (page 0))
        ∷ answer 1 (answers.Read (filled 0))
        ∷ [] }
{}
