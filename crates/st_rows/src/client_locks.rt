// Written by tools/rows/client_rows.py.
ghost use Rattle.std.specs.Prelude.{◌≡◌, ◌∷◌, [], None, Some};
ghost use Rattle.st_base.specs.Page.{filled};
ghost use Rattle.st_base.specs.declared.mode.Mode.TheVariants as modes;
ghost use Rattle.st_messages.specs.declared.answer.AppAnswer.TheVariants as answers;
ghost use Rattle.st_messages.specs.declared.ask.Ask.TheVariants as asks;
ghost use Rattle.st_messages.specs.declared.message.Body.TheVariants as bodies;
ghost use Rattle.st_messages.specs.declared.output.Note.TheVariants as notes;
ghost use Rattle.st_rules.specs.declared.client.ClientInput.TheVariants.{App, Done};
ghost use Rattle.st_rows.specs.ClientScript.{Given, client_of, said};
ghost use Rattle.st_rows.specs.ClientWords.{answer, noted, on, reads, says, server, tag_of, told, writes};
ghost use Rattle.st_rows.specs.Words.{extent, g, page, stamp};

/// A lock that was given up is not held again by an older grant; its request ends, and another one
/// is sent.
#[tactic(auto, unfolding(crate::specs::ClientScript::client_script_open))]
pub fn a_grant_below_the_greatest_seen_is_not_installed()
    ensures { said (
        (Given 0 (App 1 (asks.Write (on 1 2) (page 0) (filled 77))))
        ∷ (Given 0 (told 1 1 1 0 0 bodies.Welcome))
        ∷ (Given 0 (told 1 1 1 1 0 (bodies.Granted 2 (g 4294967297) modes.X)))
        ∷ (Given 0 (told 1 1 1 2 0 (bodies.Extents 2 (extent 0 1 0 1 ∷ []))))
        ∷ (Given 0 (App 2 (asks.Sync (on 1 2))))
        ∷ (Given 0 (Done 1 (Some None)))
        ∷ (Given 0 (told 1 1 1 0 0 (bodies.Demand 2 (g 4294967298) modes.None)))
        ∷ (Given 0 (told 1 1 1 3 0 bodies.Ack))
        ∷ (Given 0 (App 3 (asks.Read (on 1 2) (page 0))))
        ∷ (Given 0 (told 1 1 1 0 0 (bodies.Granted 2 (g 4294967297) modes.X)))
        ∷ (Given 0 (told 1 1 1 4 0 (bodies.Granted 2 (g 4294967298) modes.X)))
        ∷ (Given 0 (told 1 1 1 5 0 (bodies.Granted 2 (g 4294967299) modes.S)))
        ∷ []) (client_of 1)
        ≡ says 1 1 0 0 0 bodies.Hello
        ∷ noted (notes.Leased (server 1) (stamp 1000))
        ∷ says 1 1 1 1 0 (bodies.Acquire 2 modes.X)
        ∷ says 1 1 1 2 0 (bodies.Allocate 2 (g 4294967297) (page 0) 1)
        ∷ noted (notes.Accepted (on 1 2) (page 0) (filled 77))
        ∷ answer 1 answers.Written
        ∷ writes 1 1 0 1 2 0 1 (filled 77)
        ∷ answer 2 answers.Hard
        ∷ says 1 1 1 0 0 (bodies.DemandSeen 2 (g 4294967298))
        ∷ says 1 1 1 3 0 (bodies.Released 2 (g 4294967298) modes.None)
        ∷ says 1 1 1 4 0 (bodies.Acquire 2 modes.S)
        ∷ says 1 1 1 5 0 (bodies.Acquire 2 modes.S)
        ∷ says 1 1 1 6 0 (bodies.Map 2 (g 4294967299) (page 0))
        ∷ [] }
{}

/// A demand of a lock that is not held is answered by its release, once; the grant that comes later
/// is not installed.
#[tactic(auto, unfolding(crate::specs::ClientScript::client_script_open))]
pub fn a_demand_may_come_before_its_grant()
    ensures { said (
        (Given 0 (App 1 (asks.Read (on 1 2) (page 0))))
        ∷ (Given 0 (told 1 1 1 0 0 bodies.Welcome))
        ∷ (Given 0 (told 1 1 1 0 0 (bodies.Demand 2 (g 4294967297) modes.None)))
        ∷ (Given 0 (told 1 1 1 0 0 (bodies.Demand 2 (g 4294967297) modes.None)))
        ∷ (Given 0 (told 1 1 1 1 0 (bodies.Granted 2 (g 4294967297) modes.S)))
        ∷ (Given 0 (told 1 1 1 0 0 (bodies.Demand 2 (g 4294967297) modes.None)))
        ∷ (Given 0 (told 1 1 1 2 0 bodies.Ack))
        ∷ (Given 0 (told 1 1 1 0 0 (bodies.Demand 2 (g 4294967297) modes.S)))
        ∷ []) (client_of 1)
        ≡ says 1 1 0 0 0 bodies.Hello
        ∷ noted (notes.Leased (server 1) (stamp 1000))
        ∷ says 1 1 1 1 0 (bodies.Acquire 2 modes.S)
        ∷ says 1 1 1 2 0 (bodies.Released 2 (g 4294967297) modes.None)
        ∷ says 1 1 1 3 0 (bodies.Acquire 2 modes.S)
        ∷ [] }
{}

/// A demand to share waits for the dirty page; then the lock is shared, its page can still be read,
/// and a write asks for the lock anew.
#[tactic(auto, unfolding(crate::specs::ClientScript::client_script_open))]
pub fn a_lock_is_reduced_to_shared_and_keeps_its_pages()
    ensures { said (
        (Given 0 (App 1 (asks.Write (on 1 2) (page 0) (filled 77))))
        ∷ (Given 0 (told 1 1 1 0 0 bodies.Welcome))
        ∷ (Given 0 (told 1 1 1 1 0 (bodies.Granted 2 (g 4294967297) modes.X)))
        ∷ (Given 0 (told 1 1 1 2 0 (bodies.Extents 2 (extent 0 1 0 1 ∷ []))))
        ∷ (Given 0 (told 1 1 1 0 0 (bodies.Demand 2 (g 4294967297) modes.S)))
        ∷ (Given 0 (App 2 (asks.Read (on 1 2) (page 0))))
        ∷ (Given 0 (Done 1 (Some None)))
        ∷ (Given 0 (told 1 1 1 3 0 bodies.Ack))
        ∷ (Given 0 (App 3 (asks.Write (on 1 2) (page 0) (filled 5))))
        ∷ []) (client_of 1)
        ≡ says 1 1 0 0 0 bodies.Hello
        ∷ noted (notes.Leased (server 1) (stamp 1000))
        ∷ says 1 1 1 1 0 (bodies.Acquire 2 modes.X)
        ∷ says 1 1 1 2 0 (bodies.Allocate 2 (g 4294967297) (page 0) 1)
        ∷ noted (notes.Accepted (on 1 2) (page 0) (filled 77))
        ∷ answer 1 answers.Written
        ∷ says 1 1 1 0 0 (bodies.DemandSeen 2 (g 4294967297))
        ∷ writes 1 1 0 1 2 0 1 (filled 77)
        ∷ says 1 1 1 3 0 (bodies.Released 2 (g 4294967297) modes.S)
        ∷ answer 2 (answers.Read (filled 77))
        ∷ says 1 1 1 4 0 (bodies.Acquire 2 modes.X)
        ∷ [] }
{}

/// A demand of the whole lock: the pages go with it.
#[tactic(auto, unfolding(crate::specs::ClientScript::client_script_open))]
pub fn a_lock_is_reduced_to_none_with_its_pages()
    ensures { said (
        (Given 0 (App 1 (asks.Write (on 1 2) (page 0) (filled 77))))
        ∷ (Given 0 (told 1 1 1 0 0 bodies.Welcome))
        ∷ (Given 0 (told 1 1 1 1 0 (bodies.Granted 2 (g 4294967297) modes.X)))
        ∷ (Given 0 (told 1 1 1 2 0 (bodies.Extents 2 (extent 0 1 0 1 ∷ []))))
        ∷ (Given 0 (App 2 (asks.Sync (on 1 2))))
        ∷ (Given 0 (Done 1 (Some None)))
        ∷ (Given 0 (told 1 1 1 0 0 (bodies.Demand 2 (g 4294967297) modes.None)))
        ∷ (Given 0 (App 3 (asks.Read (on 1 2) (page 0))))
        ∷ (Given 0 (told 1 1 1 3 0 bodies.Ack))
        ∷ (Given 0 (told 1 1 1 4 0 (bodies.Granted 2 (g 4294967298) modes.S)))
        ∷ []) (client_of 1)
        ≡ says 1 1 0 0 0 bodies.Hello
        ∷ noted (notes.Leased (server 1) (stamp 1000))
        ∷ says 1 1 1 1 0 (bodies.Acquire 2 modes.X)
        ∷ says 1 1 1 2 0 (bodies.Allocate 2 (g 4294967297) (page 0) 1)
        ∷ noted (notes.Accepted (on 1 2) (page 0) (filled 77))
        ∷ answer 1 answers.Written
        ∷ writes 1 1 0 1 2 0 1 (filled 77)
        ∷ answer 2 answers.Hard
        ∷ says 1 1 1 0 0 (bodies.DemandSeen 2 (g 4294967297))
        ∷ says 1 1 1 3 0 (bodies.Released 2 (g 4294967297) modes.None)
        ∷ says 1 1 1 4 0 (bodies.Acquire 2 modes.S)
        ∷ says 1 1 1 5 0 (bodies.Map 2 (g 4294967298) (page 0))
        ∷ [] }
{}

/// A demanded file is not idle while one of its pages is read; then its lock goes, and the read
/// asks for it anew.
#[tactic(auto, unfolding(crate::specs::ClientScript::client_script_open))]
pub fn a_read_that_is_out_holds_up_a_reduction()
    ensures { said (
        (Given 0 (App 1 (asks.Read (on 1 2) (page 0))))
        ∷ (Given 0 (told 1 1 1 0 0 bodies.Welcome))
        ∷ (Given 0 (told 1 1 1 1 0 (bodies.Granted 2 (g 4294967297) modes.S)))
        ∷ (Given 0 (told 1 1 1 2 0 (bodies.Extents 2 (extent 0 1 0 1 ∷ []))))
        ∷ (Given 0 (told 1 1 1 0 0 (bodies.Demand 2 (g 4294967297) modes.None)))
        ∷ (Given 0 (App 2 (asks.Sync (on 1 9))))
        ∷ (Given 0 (Done 1 (Some (Some (tag_of 1 2 0 1, (filled 5))))))
        ∷ (Given 0 (App 3 (asks.Sync (on 1 9))))
        ∷ (Given 0 (told 1 1 1 3 0 bodies.Ack))
        ∷ []) (client_of 1)
        ≡ says 1 1 0 0 0 bodies.Hello
        ∷ noted (notes.Leased (server 1) (stamp 1000))
        ∷ says 1 1 1 1 0 (bodies.Acquire 2 modes.S)
        ∷ says 1 1 1 2 0 (bodies.Map 2 (g 4294967297) (page 0))
        ∷ reads 1 1 0
        ∷ says 1 1 1 0 0 (bodies.DemandSeen 2 (g 4294967297))
        ∷ answer 2 answers.Hard
        ∷ says 1 1 1 3 0 (bodies.Released 2 (g 4294967297) modes.None)
        ∷ answer 3 answers.Hard
        ∷ says 1 1 1 4 0 (bodies.Acquire 2 modes.S)
        ∷ [] }
{}

/// A demanded file is not reduced while it is cut; of two demands that come meanwhile the lesser
/// holds, and there is one release.
#[tactic(auto, unfolding(crate::specs::ClientScript::client_script_open))]
pub fn a_cut_that_is_out_holds_up_a_reduction()
    ensures { said (
        (Given 0 (App 1 (asks.Write (on 1 2) (page 0) (filled 77))))
        ∷ (Given 0 (told 1 1 1 0 0 bodies.Welcome))
        ∷ (Given 0 (told 1 1 1 1 0 (bodies.Granted 2 (g 4294967297) modes.X)))
        ∷ (Given 0 (told 1 1 1 2 0 (bodies.Extents 2 (extent 0 1 0 1 ∷ []))))
        ∷ (Given 0 (App 2 (asks.Sync (on 1 2))))
        ∷ (Given 0 (Done 1 (Some None)))
        ∷ (Given 0 (App 3 (asks.Cut (on 1 2) (page 1))))
        ∷ (Given 0 (told 1 1 1 0 0 (bodies.Demand 2 (g 4294967297) modes.S)))
        ∷ (Given 0 (told 1 1 1 0 0 (bodies.Demand 2 (g 4294967297) modes.None)))
        ∷ (Given 0 (told 1 1 1 3 0 bodies.Ack))
        ∷ (Given 0 (told 1 1 1 4 0 bodies.Ack))
        ∷ []) (client_of 1)
        ≡ says 1 1 0 0 0 bodies.Hello
        ∷ noted (notes.Leased (server 1) (stamp 1000))
        ∷ says 1 1 1 1 0 (bodies.Acquire 2 modes.X)
        ∷ says 1 1 1 2 0 (bodies.Allocate 2 (g 4294967297) (page 0) 1)
        ∷ noted (notes.Accepted (on 1 2) (page 0) (filled 77))
        ∷ answer 1 answers.Written
        ∷ writes 1 1 0 1 2 0 1 (filled 77)
        ∷ answer 2 answers.Hard
        ∷ says 1 1 1 3 0 (bodies.Cut 2 (g 4294967297) (page 1))
        ∷ says 1 1 1 0 0 (bodies.DemandSeen 2 (g 4294967297))
        ∷ says 1 1 1 0 0 (bodies.DemandSeen 2 (g 4294967297))
        ∷ answer 3 answers.Cut
        ∷ says 1 1 1 4 0 (bodies.Released 2 (g 4294967297) modes.None)
        ∷ [] }
{}

/// Of two demands the lesser holds, with the later grant; a demand of an earlier grant is ignored.
#[tactic(auto, unfolding(crate::specs::ClientScript::client_script_open))]
pub fn the_lesser_demand_holds()
    ensures { said (
        (Given 0 (App 1 (asks.Write (on 1 2) (page 0) (filled 77))))
        ∷ (Given 0 (told 1 1 1 0 0 bodies.Welcome))
        ∷ (Given 0 (told 1 1 1 1 0 (bodies.Granted 2 (g 4294967297) modes.X)))
        ∷ (Given 0 (told 1 1 1 2 0 (bodies.Extents 2 (extent 0 1 0 1 ∷ []))))
        ∷ (Given 0 (told 1 1 1 0 0 (bodies.Demand 2 (g 4294967298) modes.None)))
        ∷ (Given 0 (told 1 1 1 0 0 (bodies.Demand 2 (g 4294967299) modes.S)))
        ∷ (Given 0 (told 1 1 1 0 0 (bodies.Demand 2 (g 4294967298) modes.None)))
        ∷ (Given 0 (Done 1 (Some None)))
        ∷ []) (client_of 1)
        ≡ says 1 1 0 0 0 bodies.Hello
        ∷ noted (notes.Leased (server 1) (stamp 1000))
        ∷ says 1 1 1 1 0 (bodies.Acquire 2 modes.X)
        ∷ says 1 1 1 2 0 (bodies.Allocate 2 (g 4294967297) (page 0) 1)
        ∷ noted (notes.Accepted (on 1 2) (page 0) (filled 77))
        ∷ answer 1 answers.Written
        ∷ says 1 1 1 0 0 (bodies.DemandSeen 2 (g 4294967298))
        ∷ writes 1 1 0 1 2 0 1 (filled 77)
        ∷ says 1 1 1 0 0 (bodies.DemandSeen 2 (g 4294967299))
        ∷ says 1 1 1 3 0 (bodies.Released 2 (g 4294967299) modes.None)
        ∷ [] }
{}

/// A later grant of a demanded file is installed, and its demand is forgotten.
#[tactic(auto, unfolding(crate::specs::ClientScript::client_script_open))]
pub fn a_grant_forgets_the_demand()
    ensures { said (
        (Given 0 (App 1 (asks.Write (on 1 2) (page 0) (filled 77))))
        ∷ (Given 0 (told 1 1 1 0 0 bodies.Welcome))
        ∷ (Given 0 (told 1 1 1 1 0 (bodies.Granted 2 (g 4294967297) modes.X)))
        ∷ (Given 0 (told 1 1 1 2 0 (bodies.Extents 2 (extent 0 1 0 1 ∷ []))))
        ∷ (Given 0 (told 1 1 1 0 0 (bodies.Demand 2 (g 4294967297) modes.None)))
        ∷ (Given 0 (told 1 1 1 0 0 (bodies.Granted 2 (g 4294967298) modes.X)))
        ∷ (Given 0 (Done 1 (Some None)))
        ∷ (Given 0 (App 2 (asks.Read (on 1 2) (page 0))))
        ∷ []) (client_of 1)
        ≡ says 1 1 0 0 0 bodies.Hello
        ∷ noted (notes.Leased (server 1) (stamp 1000))
        ∷ says 1 1 1 1 0 (bodies.Acquire 2 modes.X)
        ∷ says 1 1 1 2 0 (bodies.Allocate 2 (g 4294967297) (page 0) 1)
        ∷ noted (notes.Accepted (on 1 2) (page 0) (filled 77))
        ∷ answer 1 answers.Written
        ∷ says 1 1 1 0 0 (bodies.DemandSeen 2 (g 4294967297))
        ∷ writes 1 1 0 1 2 0 1 (filled 77)
        ∷ answer 2 (answers.Read (filled 77))
        ∷ [] }
{}

/// A lock that is waited for is asked for again, when the wait is old or a higher mode is needed.
#[tactic(auto, unfolding(crate::specs::ClientScript::client_script_open))]
pub fn a_wait_is_asked_again_when_it_is_old()
    ensures { said (
        (Given 0 (App 1 (asks.Read (on 1 2) (page 0))))
        ∷ (Given 0 (told 1 1 1 0 0 bodies.Welcome))
        ∷ (Given 10 (told 1 1 1 1 0 (bodies.Queued 2 modes.S)))
        ∷ (Given 59 (App 2 (asks.Read (on 1 2) (page 1))))
        ∷ (Given 60 (App 3 (asks.Read (on 1 2) (page 2))))
        ∷ (Given 70 (told 1 1 1 2 60 (bodies.Queued 2 modes.S)))
        ∷ (Given 70 (App 4 (asks.Write (on 1 2) (page 3) (filled 1))))
        ∷ (Given 80 (told 1 1 1 3 70 (bodies.Queued 2 modes.X)))
        ∷ (Given 90 (told 1 1 1 0 0 (bodies.Granted 2 (g 4294967297) modes.X)))
        ∷ []) (client_of 1)
        ≡ says 1 1 0 0 0 bodies.Hello
        ∷ noted (notes.Leased (server 1) (stamp 1000))
        ∷ says 1 1 1 1 0 (bodies.Acquire 2 modes.S)
        ∷ says 1 1 1 2 60 (bodies.Acquire 2 modes.S)
        ∷ noted (notes.Leased (server 1) (stamp 1060))
        ∷ says 1 1 1 3 70 (bodies.Acquire 2 modes.X)
        ∷ noted (notes.Leased (server 1) (stamp 1070))
        ∷ says 1 1 1 4 90 (bodies.Map 2 (g 4294967297) (page 0))
        ∷ [] }
{}

/// To be told to wait for a lock that is held already changes nothing.
#[tactic(auto, unfolding(crate::specs::ClientScript::client_script_open))]
pub fn a_held_lock_is_not_waited_for()
    ensures { said (
        (Given 0 (App 1 (asks.Read (on 1 2) (page 0))))
        ∷ (Given 0 (told 1 1 1 0 0 bodies.Welcome))
        ∷ (Given 0 (told 1 1 1 0 0 (bodies.Granted 2 (g 4294967297) modes.X)))
        ∷ (Given 0 (told 1 1 1 1 0 (bodies.Queued 2 modes.S)))
        ∷ (Given 0 (told 1 1 1 2 0 (bodies.Extents 2 [])))
        ∷ []) (client_of 1)
        ≡ says 1 1 0 0 0 bodies.Hello
        ∷ noted (notes.Leased (server 1) (stamp 1000))
        ∷ says 1 1 1 1 0 (bodies.Acquire 2 modes.S)
        ∷ says 1 1 1 2 0 (bodies.Map 2 (g 4294967297) (page 0))
        ∷ answer 1 (answers.Read (filled 0))
        ∷ [] }
{}
