// Written by tools/rows/client_rows.py.
ghost use Rattle.std.specs.Prelude.{◌≡◌, ◌∷◌, [], None, Some, codes, false, true};
ghost use Rattle.st_base.specs.Page.{filled};
ghost use Rattle.st_base.specs.declared.mode.Mode.TheVariants as modes;
ghost use Rattle.st_base.specs.declared.names.NameAsk.TheVariants as names;
ghost use Rattle.st_messages.specs.declared.answer.AppAnswer.TheVariants as answers;
ghost use Rattle.st_messages.specs.declared.ask.Ask.TheVariants as asks;
ghost use Rattle.st_messages.specs.declared.message.Body.TheVariants as bodies;
ghost use Rattle.st_messages.specs.declared.message.NameOp.TheVariants as ops;
ghost use Rattle.st_messages.specs.declared.message.NameReply.TheVariants as replies;
ghost use Rattle.st_messages.specs.declared.message.Why.TheVariants as why;
ghost use Rattle.st_messages.specs.declared.output.Note.TheVariants as notes;
ghost use Rattle.st_rules.specs.declared.client.ClientInput.TheVariants.{App, Done, Tick};
ghost use Rattle.st_rows.specs.ClientScript.{Given, client_of, said};
ghost use Rattle.st_rows.specs.ClientWords.{answer, noted, on, says, server, told, writes};
ghost use Rattle.st_rows.specs.Words.{entry, extent, g, life, page, stamp};

/// With 16 operations pending the next is answered at once, also one of a server that is not there.
#[tactic(auto, unfolding(crate::specs::ClientScript::client_script_open))]
pub fn a_seventeenth_operation_is_one_too_many()
    ensures { said (
        (Given 0 (App 1 (asks.Read (on 1 2) (page 0))))
        ∷ (Given 0 (App 2 (asks.Read (on 1 2) (page 0))))
        ∷ (Given 0 (App 3 (asks.Read (on 1 2) (page 0))))
        ∷ (Given 0 (App 4 (asks.Read (on 1 2) (page 0))))
        ∷ (Given 0 (App 5 (asks.Read (on 1 2) (page 0))))
        ∷ (Given 0 (App 6 (asks.Read (on 1 2) (page 0))))
        ∷ (Given 0 (App 7 (asks.Read (on 1 2) (page 0))))
        ∷ (Given 0 (App 8 (asks.Read (on 1 2) (page 0))))
        ∷ (Given 0 (App 9 (asks.Read (on 1 2) (page 0))))
        ∷ (Given 0 (App 10 (asks.Read (on 1 2) (page 0))))
        ∷ (Given 0 (App 11 (asks.Read (on 1 2) (page 0))))
        ∷ (Given 0 (App 12 (asks.Read (on 1 2) (page 0))))
        ∷ (Given 0 (App 13 (asks.Read (on 1 2) (page 0))))
        ∷ (Given 0 (App 14 (asks.Read (on 1 2) (page 0))))
        ∷ (Given 0 (App 15 (asks.Read (on 1 2) (page 0))))
        ∷ (Given 0 (App 16 (asks.Read (on 1 2) (page 0))))
        ∷ (Given 0 (App 17 (asks.Sync (on 4 9))))
        ∷ []) (client_of 1)
        ≡ says 1 1 0 0 0 bodies.Hello
        ∷ answer 17 answers.OpsFull
        ∷ [] }
{}

/// An ask of a server that is not configured; a sync without dirty pages needs no session.
#[tactic(auto, unfolding(crate::specs::ClientScript::client_script_open))]
pub fn a_server_that_is_not_there_has_no_files()
    ensures { said (
        (Given 0 (App 1 (asks.Read (on 2 2) (page 0))))
        ∷ (Given 0 (App 2 (asks.Sync (on 1 2))))
        ∷ (Given 0 (App 3 (asks.Name (server 7) (names.Lookup 1 (codes "f2")))))
        ∷ []) (client_of 1)
        ≡ answer 1 answers.NoFile
        ∷ answer 2 answers.Hard
        ∷ answer 3 answers.NoFile
        ∷ [] }
{}

/// A cut waits until the file is idle, is busy until it is answered, and leaves pages that are
/// unmapped.
#[tactic(auto, unfolding(crate::specs::ClientScript::client_script_open))]
pub fn a_file_is_cut()
    ensures { said (
        (Given 0 (App 1 (asks.Write (on 1 2) (page 0) (filled 77))))
        ∷ (Given 0 (told 1 1 1 0 0 bodies.Welcome))
        ∷ (Given 0 (told 1 1 1 1 0 (bodies.Granted 2 (g 4294967297) modes.X)))
        ∷ (Given 0 (told 1 1 1 2 0 (bodies.Extents 2 (extent 0 1 0 1 ∷ []))))
        ∷ (Given 0 (App 2 (asks.Cut (on 1 2) (page 0))))
        ∷ (Given 0 (Done 1 (Some None)))
        ∷ (Given 0 (App 3 (asks.Read (on 1 2) (page 0))))
        ∷ (Given 0 (App 4 (asks.Cut (on 1 2) (page 1))))
        ∷ (Given 0 (told 1 1 1 3 0 bodies.Ack))
        ∷ (Given 0 (told 1 1 1 4 0 bodies.Ack))
        ∷ (Given 0 (told 1 1 1 5 0 (bodies.Extents 2 [])))
        ∷ []) (client_of 1)
        ≡ says 1 1 0 0 0 bodies.Hello
        ∷ noted (notes.Leased (server 1) (stamp 1000))
        ∷ says 1 1 1 1 0 (bodies.Acquire 2 modes.X)
        ∷ says 1 1 1 2 0 (bodies.Allocate 2 (g 4294967297) (page 0) 1)
        ∷ noted (notes.Accepted (on 1 2) (page 0) (filled 77))
        ∷ answer 1 answers.Written
        ∷ writes 1 1 0 1 2 0 1 (filled 77)
        ∷ says 1 1 1 3 0 (bodies.Cut 2 (g 4294967297) (page 0))
        ∷ answer 2 answers.Cut
        ∷ says 1 1 1 4 0 (bodies.Map 2 (g 4294967297) (page 0))
        ∷ [] }
{}

/// A removed file's lock is released, and one that was not removed is kept.
#[tactic(auto, unfolding(crate::specs::ClientScript::client_script_open))]
pub fn a_file_is_removed()
    ensures { said (
        (Given 0 (App 1 (asks.Write (on 1 2) (page 0) (filled 77))))
        ∷ (Given 0 (told 1 1 1 0 0 bodies.Welcome))
        ∷ (Given 0 (told 1 1 1 1 0 (bodies.Granted 2 (g 4294967297) modes.X)))
        ∷ (Given 0 (told 1 1 1 2 0 (bodies.Extents 2 (extent 0 1 0 1 ∷ []))))
        ∷ (Given 0 (App 2 (asks.Sync (on 1 2))))
        ∷ (Given 0 (Done 1 (Some None)))
        ∷ (Given 0 (App 3 (asks.Name (server 1) (names.Remove 1 (codes "f2") 2))))
        ∷ (Given 0 (told 1 1 1 3 0 (bodies.Named (replies.Refused 1))))
        ∷ (Given 0 (App 4 (asks.Name (server 1) (names.Remove 1 (codes "f2") 2))))
        ∷ (Given 0 (told 1 1 1 4 0 (bodies.Named (replies.Ino 2))))
        ∷ (Given 0 (told 1 1 1 5 0 bodies.Ack))
        ∷ (Given 0 (App 5 (asks.Read (on 1 2) (page 0))))
        ∷ []) (client_of 1)
        ≡ says 1 1 0 0 0 bodies.Hello
        ∷ noted (notes.Leased (server 1) (stamp 1000))
        ∷ says 1 1 1 1 0 (bodies.Acquire 2 modes.X)
        ∷ says 1 1 1 2 0 (bodies.Allocate 2 (g 4294967297) (page 0) 1)
        ∷ noted (notes.Accepted (on 1 2) (page 0) (filled 77))
        ∷ answer 1 answers.Written
        ∷ writes 1 1 0 1 2 0 1 (filled 77)
        ∷ answer 2 answers.Hard
        ∷ says 1 1 1 3 0 (bodies.Name (ops.Remove 1 (codes "f2") (g 4294967297)))
        ∷ answer 3 (answers.Refused 1)
        ∷ says 1 1 1 4 0 (bodies.Name (ops.Remove 1 (codes "f2") (g 4294967297)))
        ∷ answer 4 (answers.Named 2)
        ∷ says 1 1 1 5 0 (bodies.Released 2 (g 4294967297) modes.None)
        ∷ says 1 1 1 6 0 (bodies.Acquire 2 modes.S)
        ∷ [] }
{}

/// A demand that comes while the file is removed is seen; the removed file's lock is released once,
/// and its demand is forgotten.
#[tactic(auto, unfolding(crate::specs::ClientScript::client_script_open))]
pub fn a_file_is_removed_while_it_is_demanded()
    ensures { said (
        (Given 0 (App 1 (asks.Write (on 1 2) (page 0) (filled 77))))
        ∷ (Given 0 (told 1 1 1 0 0 bodies.Welcome))
        ∷ (Given 0 (told 1 1 1 1 0 (bodies.Granted 2 (g 4294967297) modes.X)))
        ∷ (Given 0 (told 1 1 1 2 0 (bodies.Extents 2 (extent 0 1 0 1 ∷ []))))
        ∷ (Given 0 (App 2 (asks.Sync (on 1 2))))
        ∷ (Given 0 (Done 1 (Some None)))
        ∷ (Given 0 (App 3 (asks.Name (server 1) (names.Remove 1 (codes "f2") 2))))
        ∷ (Given 0 (App 4 (asks.Read (on 1 2) (page 0))))
        ∷ (Given 0 (told 1 1 1 0 0 (bodies.Demand 2 (g 4294967297) modes.None)))
        ∷ (Given 0 (told 1 1 1 3 0 (bodies.Named (replies.Ino 2))))
        ∷ (Given 0 (told 1 1 1 4 0 bodies.Ack))
        ∷ []) (client_of 1)
        ≡ says 1 1 0 0 0 bodies.Hello
        ∷ noted (notes.Leased (server 1) (stamp 1000))
        ∷ says 1 1 1 1 0 (bodies.Acquire 2 modes.X)
        ∷ says 1 1 1 2 0 (bodies.Allocate 2 (g 4294967297) (page 0) 1)
        ∷ noted (notes.Accepted (on 1 2) (page 0) (filled 77))
        ∷ answer 1 answers.Written
        ∷ writes 1 1 0 1 2 0 1 (filled 77)
        ∷ answer 2 answers.Hard
        ∷ says 1 1 1 3 0 (bodies.Name (ops.Remove 1 (codes "f2") (g 4294967297)))
        ∷ says 1 1 1 0 0 (bodies.DemandSeen 2 (g 4294967297))
        ∷ answer 3 (answers.Named 2)
        ∷ says 1 1 1 4 0 (bodies.Released 2 (g 4294967297) modes.None)
        ∷ says 1 1 1 5 0 (bodies.Acquire 2 modes.S)
        ∷ [] }
{}

/// Names need no lock; a directory is removed without one, with grant number 0.
#[tactic(auto, unfolding(crate::specs::ClientScript::client_script_open))]
pub fn names_are_answered()
    ensures { said (
        (Given 0 (App 1 (asks.Name (server 1) (names.Mkdir 1 (codes "d")))))
        ∷ (Given 0 (told 1 1 1 0 0 bodies.Welcome))
        ∷ (Given 0 (App 2 (asks.Name (server 1) (names.Remove 1 (codes "d") 0))))
        ∷ (Given 0 (App 3 (asks.Name (server 1) (names.Rename 1 (codes "a") 10 (codes "b")))))
        ∷ (Given 0 (App 4 (asks.Name (server 1) (names.List 1 (codes "f2")))))
        ∷ (Given 0 (told 1 1 1 1 0 (bodies.Named (replies.Ino 10))))
        ∷ (Given 0 (told 1 1 1 2 0 (bodies.Named (replies.Refused 5))))
        ∷ (Given 0 (told 1 1 1 3 0 (bodies.Named (replies.Ino 11))))
        ∷ (Given 0 (told 1 1 1 4 0 (bodies.Named (replies.Listed (entry 10 true (codes "d") ∷ entry 3 false (codes "f3") ∷ [])))))
        ∷ []) (client_of 1)
        ≡ says 1 1 0 0 0 bodies.Hello
        ∷ noted (notes.Leased (server 1) (stamp 1000))
        ∷ says 1 1 1 1 0 (bodies.Name (ops.Mkdir 1 (codes "d")))
        ∷ answer 1 (answers.Named 10)
        ∷ says 1 1 1 2 0 (bodies.Name (ops.Remove 1 (codes "d") (g 0)))
        ∷ answer 2 (answers.Refused 5)
        ∷ says 1 1 1 3 0 (bodies.Name (ops.Rename 1 (codes "a") 10 (codes "b")))
        ∷ answer 3 (answers.Named 11)
        ∷ says 1 1 1 4 0 (bodies.Name (ops.List 1 (codes "f2")))
        ∷ answer 4 (answers.Listed (entry 10 true (codes "d") ∷ entry 3 false (codes "f3") ∷ []))
        ∷ [] }
{}

/// No file: all reads, writes, patches, cuts and removes of it, and not its syncs; the same for
/// too many locks.
#[tactic(auto, unfolding(crate::specs::ClientScript::client_script_open))]
pub fn a_refused_file_answers_all_its_operations()
    ensures { said (
        (Given 0 (App 1 (asks.Write (on 1 2) (page 0) (filled 77))))
        ∷ (Given 0 (told 1 1 1 0 0 bodies.Welcome))
        ∷ (Given 0 (told 1 1 1 1 0 (bodies.Granted 2 (g 4294967297) modes.X)))
        ∷ (Given 0 (told 1 1 1 2 0 (bodies.Extents 2 (extent 0 1 0 1 ∷ []))))
        ∷ (Given 0 (App 2 (asks.Read (on 1 3) (page 0))))
        ∷ (Given 0 (App 3 (asks.Write (on 1 3) (page 0) (filled 1))))
        ∷ (Given 0 (App 4 (asks.Cut (on 1 3) (page 0))))
        ∷ (Given 0 (App 5 (asks.Name (server 1) (names.Remove 1 (codes "f3") 3))))
        ∷ (Given 0 (App 6 (asks.Patch (on 1 3) (page 0) 1 (1 ∷ []))))
        ∷ (Given 0 (App 7 (asks.Read (on 1 4) (page 0))))
        ∷ (Given 0 (App 8 (asks.Sync (on 1 2))))
        ∷ (Given 0 (told 1 1 1 3 0 (bodies.Nack why.NoFile 2 0)))
        ∷ (Given 0 (told 1 1 1 4 0 (bodies.Nack why.TooManyLocks 1024 0)))
        ∷ []) (client_of 1)
        ≡ says 1 1 0 0 0 bodies.Hello
        ∷ noted (notes.Leased (server 1) (stamp 1000))
        ∷ says 1 1 1 1 0 (bodies.Acquire 2 modes.X)
        ∷ says 1 1 1 2 0 (bodies.Allocate 2 (g 4294967297) (page 0) 1)
        ∷ noted (notes.Accepted (on 1 2) (page 0) (filled 77))
        ∷ answer 1 answers.Written
        ∷ says 1 1 1 3 0 (bodies.Acquire 3 modes.S)
        ∷ writes 1 1 0 1 2 0 1 (filled 77)
        ∷ answer 2 answers.NoFile
        ∷ answer 3 answers.NoFile
        ∷ answer 4 answers.NoFile
        ∷ answer 5 answers.NoFile
        ∷ answer 6 answers.NoFile
        ∷ says 1 1 1 4 0 (bodies.Acquire 4 modes.S)
        ∷ answer 7 answers.TooManyLocks
        ∷ [] }
{}

/// No space: the writes and patches of the page that should have been mapped, and no others.
#[tactic(auto, unfolding(crate::specs::ClientScript::client_script_open))]
pub fn no_space_answers_the_writes_of_the_page()
    ensures { said (
        (Given 0 (App 1 (asks.Write (on 1 2) (page 0) (filled 77))))
        ∷ (Given 0 (told 1 1 1 0 0 bodies.Welcome))
        ∷ (Given 0 (told 1 1 1 1 0 (bodies.Granted 2 (g 4294967297) modes.X)))
        ∷ (Given 0 (told 1 1 1 2 0 (bodies.Extents 2 (extent 0 1 0 1 ∷ []))))
        ∷ (Given 0 (App 2 (asks.Write (on 1 2) (page 1) (filled 1))))
        ∷ (Given 0 (App 3 (asks.Patch (on 1 2) (page 1) 0 (3 ∷ []))))
        ∷ (Given 0 (App 4 (asks.Write (on 1 2) (page 2) (filled 1))))
        ∷ (Given 0 (told 1 1 1 3 0 (bodies.Nack why.NoSpace 0 1)))
        ∷ []) (client_of 1)
        ≡ says 1 1 0 0 0 bodies.Hello
        ∷ noted (notes.Leased (server 1) (stamp 1000))
        ∷ says 1 1 1 1 0 (bodies.Acquire 2 modes.X)
        ∷ says 1 1 1 2 0 (bodies.Allocate 2 (g 4294967297) (page 0) 1)
        ∷ noted (notes.Accepted (on 1 2) (page 0) (filled 77))
        ∷ answer 1 answers.Written
        ∷ says 1 1 1 3 0 (bodies.Allocate 2 (g 4294967297) (page 1) 1)
        ∷ answer 2 (answers.NoSpace 0 1)
        ∷ answer 3 (answers.NoSpace 0 1)
        ∷ says 1 1 1 4 0 (bodies.Allocate 2 (g 4294967297) (page 2) 1)
        ∷ [] }
{}

/// A cut that is refused for its holder is answered; a map that is refused so is asked again.
#[tactic(auto, unfolding(crate::specs::ClientScript::client_script_open))]
pub fn not_the_holder()
    ensures { said (
        (Given 0 (App 1 (asks.Write (on 1 2) (page 0) (filled 77))))
        ∷ (Given 0 (told 1 1 1 0 0 bodies.Welcome))
        ∷ (Given 0 (told 1 1 1 1 0 (bodies.Granted 2 (g 4294967297) modes.X)))
        ∷ (Given 0 (told 1 1 1 2 0 (bodies.Extents 2 (extent 0 1 0 1 ∷ []))))
        ∷ (Given 0 (App 2 (asks.Sync (on 1 2))))
        ∷ (Given 0 (Done 1 (Some None)))
        ∷ (Given 0 (App 3 (asks.Cut (on 1 2) (page 3))))
        ∷ (Given 0 (App 4 (asks.Read (on 1 2) (page 1))))
        ∷ (Given 0 (told 1 1 1 3 0 (bodies.Nack why.NotHolder 2 4294967297)))
        ∷ (Given 0 (told 1 1 1 4 0 (bodies.Nack why.NotHolder 2 4294967297)))
        ∷ []) (client_of 1)
        ≡ says 1 1 0 0 0 bodies.Hello
        ∷ noted (notes.Leased (server 1) (stamp 1000))
        ∷ says 1 1 1 1 0 (bodies.Acquire 2 modes.X)
        ∷ says 1 1 1 2 0 (bodies.Allocate 2 (g 4294967297) (page 0) 1)
        ∷ noted (notes.Accepted (on 1 2) (page 0) (filled 77))
        ∷ answer 1 answers.Written
        ∷ writes 1 1 0 1 2 0 1 (filled 77)
        ∷ answer 2 answers.Hard
        ∷ says 1 1 1 3 0 (bodies.Cut 2 (g 4294967297) (page 3))
        ∷ answer 3 answers.NotHolder
        ∷ says 1 1 1 4 0 (bodies.Map 2 (g 4294967297) (page 1))
        ∷ says 1 1 1 5 0 (bodies.Map 2 (g 4294967297) (page 1))
        ∷ [] }
{}

/// A cut that is refused for space is not answered, and stays sent until the lease is lost; its
/// file stays busy.
#[tactic(auto, unfolding(crate::specs::ClientScript::client_script_open))]
pub fn a_refusal_may_answer_nobody()
    ensures { said (
        (Given 0 (App 1 (asks.Write (on 1 2) (page 0) (filled 77))))
        ∷ (Given 0 (told 1 1 1 0 0 bodies.Welcome))
        ∷ (Given 0 (told 1 1 1 1 0 (bodies.Granted 2 (g 4294967297) modes.X)))
        ∷ (Given 0 (told 1 1 1 2 0 (bodies.Extents 2 (extent 0 1 0 1 ∷ []))))
        ∷ (Given 0 (App 2 (asks.Sync (on 1 2))))
        ∷ (Given 0 (Done 1 (Some None)))
        ∷ (Given 0 (App 3 (asks.Cut (on 1 2) (page 3))))
        ∷ (Given 0 (told 1 1 1 3 0 (bodies.Nack why.NoSpace 0 1)))
        ∷ (Given 0 (App 4 (asks.Read (on 1 2) (page 0))))
        ∷ (Given 0 (App 5 (asks.Name (server 1) (names.Lookup 1 (codes "f2")))))
        ∷ (Given 0 (told 1 1 2 4 0 (bodies.Nack why.OtherEpoch 1 2)))
        ∷ (Given 1000 Tick)
        ∷ []) (client_of 1)
        ≡ says 1 1 0 0 0 bodies.Hello
        ∷ noted (notes.Leased (server 1) (stamp 1000))
        ∷ says 1 1 1 1 0 (bodies.Acquire 2 modes.X)
        ∷ says 1 1 1 2 0 (bodies.Allocate 2 (g 4294967297) (page 0) 1)
        ∷ noted (notes.Accepted (on 1 2) (page 0) (filled 77))
        ∷ answer 1 answers.Written
        ∷ writes 1 1 0 1 2 0 1 (filled 77)
        ∷ answer 2 answers.Hard
        ∷ says 1 1 1 3 0 (bodies.Cut 2 (g 4294967297) (page 3))
        ∷ says 1 1 1 4 0 (bodies.Name (ops.Lookup 1 (codes "f2")))
        ∷ answer 5 (answers.Uncertain 1 2)
        ∷ says 1 1 2 1 0 (bodies.Reassert ((2, g 4294967297, modes.X) ∷ []))
        ∷ noted (notes.Lost (server 1) (life 1))
        ∷ answer 3 (answers.Uncertain 2 0)
        ∷ answer 4 answers.Quiesced
        ∷ [] }
{}
