// Written by tools/rows/client_rows.py.
ghost use Rattle.std.specs.Prelude.{◌≡◌, ◌∷◌, [], None, Some, codes};
ghost use Rattle.st_base.specs.Page.{filled};
ghost use Rattle.st_base.specs.declared.mode.Mode.TheVariants as modes;
ghost use Rattle.st_base.specs.declared.names.NameAsk.TheVariants as names;
ghost use Rattle.st_messages.specs.declared.answer.AppAnswer.TheVariants as answers;
ghost use Rattle.st_messages.specs.declared.ask.Ask.TheVariants as asks;
ghost use Rattle.st_messages.specs.declared.message.Body.TheVariants as bodies;
ghost use Rattle.st_messages.specs.declared.message.NameOp.TheVariants as ops;
ghost use Rattle.st_messages.specs.declared.output.Note.TheVariants as notes;
ghost use Rattle.st_rules.specs.declared.client.ClientInput.TheVariants.{App, Done, Tick};
ghost use Rattle.st_rows.specs.ClientScript.{Given, Restarted, client_of, said};
ghost use Rattle.st_rows.specs.ClientWords.{answer, between, lost_row, noted, on, says, server, told, writes};
ghost use Rattle.st_rows.specs.Words.{extent, g, life, page, stamp};

/// A write asks for a session, a lock and a block, and is accepted; a read finds it.
#[tactic(auto, unfolding(crate::specs::ClientScript::client_script_open))]
pub fn a_write_is_read_back()
    ensures { said (
        (Given 0 (App 1 (asks.Write (on 1 2) (page 0) (filled 77))))
        ∷ (Given 0 (told 1 1 1 0 0 bodies.Welcome))
        ∷ (Given 0 (told 1 1 1 1 0 (bodies.Granted 2 (g 4294967297) modes.X)))
        ∷ (Given 0 (told 1 1 1 2 0 (bodies.Extents 2 (extent 0 1 0 1 ∷ []))))
        ∷ (Given 0 (App 2 (asks.Read (on 1 2) (page 0))))
        ∷ []) (client_of 1)
        ≡ says 1 1 0 0 0 bodies.Hello
        ∷ noted (notes.Leased (server 1) (stamp 1000))
        ∷ says 1 1 1 1 0 (bodies.Acquire 2 modes.X)
        ∷ says 1 1 1 2 0 (bodies.Allocate 2 (g 4294967297) (page 0) 1)
        ∷ noted (notes.Accepted (on 1 2) (page 0) (filled 77))
        ∷ answer 1 answers.Written
        ∷ answer 2 (answers.Read (filled 77))
        ∷ [] }
{}

/// The lease has the date of the greeting, not of the welcome's arrival.
#[tactic(auto, unfolding(crate::specs::ClientScript::client_script_open))]
pub fn a_lease_is_dated_from_the_greeting()
    ensures { said (
        (Given 100 (App 1 (asks.Write (on 1 2) (page 0) (filled 77))))
        ∷ (Given 400 (told 1 1 1 0 100 bodies.Welcome))
        ∷ []) (client_of 1)
        ≡ says 1 1 0 0 100 bodies.Hello
        ∷ noted (notes.Leased (server 1) (stamp 1100))
        ∷ says 1 1 1 1 400 (bodies.Acquire 2 modes.X)
        ∷ [] }
{}

/// A welcome to a greeting that is a lease ago is ignored; the client greets again, and the next
/// one begins a session one tick before that.
#[tactic(auto, unfolding(crate::specs::ClientScript::client_script_open))]
pub fn a_late_welcome_is_passed_over()
    ensures { said (
        (Given 0 (App 1 (asks.Read (on 1 2) (page 0))))
        ∷ (Given 1000 (told 1 1 1 0 0 bodies.Welcome))
        ∷ (Given 1000 Tick)
        ∷ (Given 1999 (told 1 1 1 0 1000 bodies.Welcome))
        ∷ []) (client_of 1)
        ≡ says 1 1 0 0 0 bodies.Hello
        ∷ says 1 1 0 0 1000 bodies.Hello
        ∷ noted (notes.Leased (server 1) (stamp 2000))
        ∷ answer 1 answers.Quiesced
        ∷ says 1 1 1 1 1999 bodies.KeepAlive
        ∷ [] }
{}

/// A greeting is sent once more on a tick, when it is old, and not for a second operation.
#[tactic(auto, unfolding(crate::specs::ClientScript::client_script_open))]
pub fn greetings_are_repeated_on_old_ticks()
    ensures { said (
        (Given 0 (App 1 (asks.Read (on 1 2) (page 0))))
        ∷ (Given 60 (App 2 (asks.Read (on 1 2) (page 1))))
        ∷ (Given 49 Tick)
        ∷ (Given 50 Tick)
        ∷ (Given 99 Tick)
        ∷ []) (client_of 1)
        ≡ says 1 1 0 0 0 bodies.Hello
        ∷ says 1 1 0 0 50 bodies.Hello
        ∷ [] }
{}

/// Messages to others, of servers that are not there, of other lives, of later stamps, of other
/// epochs, and without a session.
#[tactic(auto, unfolding(crate::specs::ClientScript::client_script_open))]
pub fn strange_messages_are_passed_over()
    ensures { said (
        (Given 10 (App 1 (asks.Read (on 1 2) (page 0))))
        ∷ (Given 10 (between 32769 2 1 1 0 10 bodies.Welcome))
        ∷ (Given 10 (told 2 1 1 0 10 bodies.Welcome))
        ∷ (Given 10 (told 1 2 1 0 10 bodies.Welcome))
        ∷ (Given 10 (told 1 1 1 0 11 bodies.Welcome))
        ∷ (Given 10 (told 1 1 1 0 0 (bodies.Granted 2 (g 4294967297) modes.X)))
        ∷ (Given 10 (told 1 1 1 0 10 bodies.Welcome))
        ∷ (Given 10 (told 1 1 1 0 10 bodies.Welcome))
        ∷ (Given 10 (told 1 1 2 1 10 (bodies.Granted 2 (g 4294967297) modes.S)))
        ∷ (Given 10 (told 1 1 1 2 10 (bodies.Granted 2 (g 4294967297) modes.S)))
        ∷ (Given 10 (told 1 1 1 1 10 (bodies.Granted 3 (g 4294967297) modes.S)))
        ∷ (Given 10 (told 1 1 1 1 10 bodies.Ack))
        ∷ []) (client_of 1)
        ≡ says 1 1 0 0 10 bodies.Hello
        ∷ noted (notes.Leased (server 1) (stamp 1010))
        ∷ says 1 1 1 1 10 (bodies.Acquire 2 modes.S)
        ∷ [] }
{}

/// A keep-alive is sent from the age of renewal on, and no tick before; its acknowledgement renews
/// the lease from its sending.
#[tactic(auto, unfolding(crate::specs::ClientScript::client_script_open))]
pub fn keep_alives_begin_with_renewal()
    ensures { said (
        (Given 0 (App 1 (asks.Write (on 1 2) (page 0) (filled 77))))
        ∷ (Given 0 (told 1 1 1 0 0 bodies.Welcome))
        ∷ (Given 0 (told 1 1 1 1 0 (bodies.Granted 2 (g 4294967297) modes.X)))
        ∷ (Given 0 (told 1 1 1 2 0 (bodies.Extents 2 (extent 0 1 0 1 ∷ []))))
        ∷ (Given 499 Tick)
        ∷ (Given 500 Tick)
        ∷ (Given 600 (told 1 1 1 3 500 bodies.Ack))
        ∷ (Given 999 Tick)
        ∷ (Given 1000 Tick)
        ∷ []) (client_of 1)
        ≡ says 1 1 0 0 0 bodies.Hello
        ∷ noted (notes.Leased (server 1) (stamp 1000))
        ∷ says 1 1 1 1 0 (bodies.Acquire 2 modes.X)
        ∷ says 1 1 1 2 0 (bodies.Allocate 2 (g 4294967297) (page 0) 1)
        ∷ noted (notes.Accepted (on 1 2) (page 0) (filled 77))
        ∷ answer 1 answers.Written
        ∷ says 1 1 1 3 500 bodies.KeepAlive
        ∷ noted (notes.Leased (server 1) (stamp 1500))
        ∷ says 1 1 1 4 1000 bodies.KeepAlive
        ∷ [] }
{}

/// In renewal an operation asks first, and of several the first in order that has something to ask;
/// with nothing to ask a keep-alive is sent.
#[tactic(auto, unfolding(crate::specs::ClientScript::client_script_open))]
pub fn operations_speak_before_keep_alives()
    ensures { said (
        (Given 0 (App 1 (asks.Write (on 1 2) (page 0) (filled 77))))
        ∷ (Given 0 (told 1 1 1 0 0 bodies.Welcome))
        ∷ (Given 0 (told 1 1 1 1 0 (bodies.Granted 2 (g 4294967297) modes.X)))
        ∷ (Given 0 (told 1 1 1 2 0 (bodies.Extents 2 (extent 0 1 0 1 ∷ []))))
        ∷ (Given 500 (App 2 (asks.Read (on 1 2) (page 0))))
        ∷ (Given 500 (told 1 1 1 3 500 bodies.Ack))
        ∷ (Given 1000 (App 3 (asks.Sync (on 1 2))))
        ∷ (Given 1000 (Done 1 (Some None)))
        ∷ (Given 1000 (told 1 1 1 4 1000 bodies.Ack))
        ∷ (Given 1500 (told 1 1 1 0 0 (bodies.Granted 3 (g 4294967298) modes.S)))
        ∷ (Given 1500 (App 4 (asks.Read (on 1 2) (page 0))))
        ∷ (Given 1500 (told 1 1 1 5 1500 bodies.Ack))
        ∷ (Given 2000 (App 5 (asks.Read (on 1 3) (page 0))))
        ∷ (Given 2000 (App 6 (asks.Read (on 1 4) (page 0))))
        ∷ (Given 2000 (told 1 1 1 6 2000 (bodies.Extents 3 [])))
        ∷ []) (client_of 1)
        ≡ says 1 1 0 0 0 bodies.Hello
        ∷ noted (notes.Leased (server 1) (stamp 1000))
        ∷ says 1 1 1 1 0 (bodies.Acquire 2 modes.X)
        ∷ says 1 1 1 2 0 (bodies.Allocate 2 (g 4294967297) (page 0) 1)
        ∷ noted (notes.Accepted (on 1 2) (page 0) (filled 77))
        ∷ answer 1 answers.Written
        ∷ answer 2 (answers.Read (filled 77))
        ∷ says 1 1 1 3 500 bodies.KeepAlive
        ∷ noted (notes.Leased (server 1) (stamp 1500))
        ∷ writes 1 1 0 1 2 0 1 (filled 77)
        ∷ says 1 1 1 4 1000 bodies.KeepAlive
        ∷ answer 3 answers.Hard
        ∷ noted (notes.Leased (server 1) (stamp 2000))
        ∷ says 1 1 1 5 1500 bodies.KeepAlive
        ∷ answer 4 (answers.Read (filled 77))
        ∷ noted (notes.Leased (server 1) (stamp 2500))
        ∷ says 1 1 1 6 2000 (bodies.Map 3 (g 4294967298) (page 0))
        ∷ noted (notes.Leased (server 1) (stamp 3000))
        ∷ answer 5 (answers.Read (filled 0))
        ∷ says 1 1 1 7 2000 (bodies.Acquire 4 modes.S)
        ∷ [] }
{}

/// The outstanding request is sent once more on a tick, when it is old, with its number and a new
/// stamp; a reply to the first sending counts.
#[tactic(auto, unfolding(crate::specs::ClientScript::client_script_open))]
pub fn requests_are_repeated_on_old_ticks()
    ensures { said (
        (Given 0 (App 1 (asks.Read (on 1 2) (page 0))))
        ∷ (Given 0 (told 1 1 1 0 0 bodies.Welcome))
        ∷ (Given 49 Tick)
        ∷ (Given 60 (App 2 (asks.Read (on 1 2) (page 1))))
        ∷ (Given 60 Tick)
        ∷ (Given 109 Tick)
        ∷ (Given 109 (told 1 1 1 1 60 (bodies.Granted 2 (g 4294967297) modes.S)))
        ∷ []) (client_of 1)
        ≡ says 1 1 0 0 0 bodies.Hello
        ∷ noted (notes.Leased (server 1) (stamp 1000))
        ∷ says 1 1 1 1 0 (bodies.Acquire 2 modes.S)
        ∷ says 1 1 1 1 60 (bodies.Acquire 2 modes.S)
        ∷ noted (notes.Leased (server 1) (stamp 1060))
        ∷ says 1 1 1 2 109 (bodies.Map 2 (g 4294967297) (page 0))
        ∷ [] }
{}

/// In quiesce nothing new is served; at the end the lease is lost, before the message is taken.
#[tactic(auto, unfolding(crate::specs::ClientScript::client_script_open))]
pub fn a_lease_that_is_over_is_lost()
    ensures { said (
        (Given 0 (App 1 (asks.Write (on 1 2) (page 0) (filled 77))))
        ∷ (Given 0 (told 1 1 1 0 0 bodies.Welcome))
        ∷ (Given 0 (told 1 1 1 1 0 (bodies.Granted 2 (g 4294967297) modes.X)))
        ∷ (Given 0 (told 1 1 1 2 0 (bodies.Extents 2 (extent 0 1 0 1 ∷ []))))
        ∷ (Given 699 (App 2 (asks.Read (on 1 2) (page 0))))
        ∷ (Given 699 (told 1 1 1 3 699 bodies.Ack))
        ∷ (Given 700 (App 3 (asks.Read (on 1 2) (page 0))))
        ∷ (Given 700 (App 4 (asks.Sync (on 1 2))))
        ∷ (Given 849 Tick)
        ∷ (Given 1000 (told 1 1 1 4 699 bodies.Ack))
        ∷ (Given 1000 (App 5 (asks.Read (on 1 3) (page 0))))
        ∷ []) (client_of 1)
        ≡ says 1 1 0 0 0 bodies.Hello
        ∷ noted (notes.Leased (server 1) (stamp 1000))
        ∷ says 1 1 1 1 0 (bodies.Acquire 2 modes.X)
        ∷ says 1 1 1 2 0 (bodies.Allocate 2 (g 4294967297) (page 0) 1)
        ∷ noted (notes.Accepted (on 1 2) (page 0) (filled 77))
        ∷ answer 1 answers.Written
        ∷ answer 2 (answers.Read (filled 77))
        ∷ says 1 1 1 3 699 bodies.KeepAlive
        ∷ noted (notes.Leased (server 1) (stamp 1699))
        ∷ answer 3 (answers.Read (filled 77))
        ∷ writes 1 1 0 1 2 0 1 (filled 77)
        ∷ says 1 1 1 4 1000 (bodies.Acquire 3 modes.S)
        ∷ [] }
{}

/// At a loss each dirty page is reported with the command that failed, the one that was out, or
/// none; what was sent is uncertain, a second sync is quiesced.
#[tactic(auto, unfolding(crate::specs::ClientScript::client_script_open))]
pub fn lost_pages_are_told_once()
    ensures { said (
        (Given 0 (App 1 (asks.Write (on 1 2) (page 0) (filled 77))))
        ∷ (Given 0 (told 1 1 1 0 0 bodies.Welcome))
        ∷ (Given 0 (told 1 1 1 1 0 (bodies.Granted 2 (g 4294967297) modes.X)))
        ∷ (Given 0 (told 1 1 1 2 0 (bodies.Extents 2 (extent 0 1 0 1 ∷ []))))
        ∷ (Given 0 (told 1 1 1 0 0 (bodies.Granted 3 (g 4294967298) modes.S)))
        ∷ (Given 0 (App 2 (asks.Write (on 1 2) (page 1) (filled 78))))
        ∷ (Given 0 (told 1 1 1 3 0 (bodies.Extents 2 (extent 1 1 1 2 ∷ extent 2 1 2 3 ∷ []))))
        ∷ (Given 0 (App 3 (asks.Sync (on 1 2))))
        ∷ (Given 0 (Done 2 None))
        ∷ (Given 0 (App 4 (asks.Write (on 1 2) (page 2) (filled 79))))
        ∷ (Given 0 (App 5 (asks.Name (server 1) (names.Create 1 (codes "n")))))
        ∷ (Given 0 (App 6 (asks.Sync (on 1 2))))
        ∷ (Given 0 (App 7 (asks.Sync (on 1 2))))
        ∷ (Given 0 (App 8 (asks.Read (on 1 4) (page 0))))
        ∷ (Given 0 (App 9 (asks.Name (server 1) (names.Create 1 (codes "m")))))
        ∷ (Given 1000 Tick)
        ∷ (Given 1000 (App 10 (asks.Sync (on 1 2))))
        ∷ []) (client_of 1)
        ≡ says 1 1 0 0 0 bodies.Hello
        ∷ noted (notes.Leased (server 1) (stamp 1000))
        ∷ says 1 1 1 1 0 (bodies.Acquire 2 modes.X)
        ∷ says 1 1 1 2 0 (bodies.Allocate 2 (g 4294967297) (page 0) 1)
        ∷ noted (notes.Accepted (on 1 2) (page 0) (filled 77))
        ∷ answer 1 answers.Written
        ∷ says 1 1 1 3 0 (bodies.Allocate 2 (g 4294967297) (page 1) 1)
        ∷ noted (notes.Accepted (on 1 2) (page 1) (filled 78))
        ∷ answer 2 answers.Written
        ∷ writes 1 1 0 1 2 0 1 (filled 77)
        ∷ writes 2 1 1 1 2 1 2 (filled 78)
        ∷ answer 3 (answers.DiskFault 2)
        ∷ noted (notes.Accepted (on 1 2) (page 2) (filled 79))
        ∷ answer 4 answers.Written
        ∷ says 1 1 1 4 0 (bodies.Name (ops.Create 1 (codes "n")))
        ∷ writes 3 1 2 1 2 2 3 (filled 79)
        ∷ noted (notes.Lost (server 1) (life 1))
        ∷ answer 5 (answers.Uncertain 1 0)
        ∷ answer 6 (answers.Lost (lost_row 0 1 ∷ lost_row 1 2 ∷ lost_row 2 3 ∷ []))
        ∷ answer 7 answers.Quiesced
        ∷ answer 8 answers.Quiesced
        ∷ answer 9 answers.Quiesced
        ∷ answer 10 answers.Hard
        ∷ [] }
{}

/// A page whose write failed and is outstanding once more is reported as lost with the one that
/// failed.
#[tactic(auto, unfolding(crate::specs::ClientScript::client_script_open))]
pub fn a_failed_command_is_told_before_the_outstanding_one()
    ensures { said (
        (Given 0 (App 1 (asks.Write (on 1 2) (page 0) (filled 77))))
        ∷ (Given 0 (told 1 1 1 0 0 bodies.Welcome))
        ∷ (Given 0 (told 1 1 1 1 0 (bodies.Granted 2 (g 4294967297) modes.X)))
        ∷ (Given 0 (told 1 1 1 2 0 (bodies.Extents 2 (extent 0 1 0 1 ∷ []))))
        ∷ (Given 0 (App 2 (asks.Sync (on 1 2))))
        ∷ (Given 0 (Done 1 None))
        ∷ (Given 0 (App 3 (asks.Sync (on 1 2))))
        ∷ (Given 0 Tick)
        ∷ (Given 1000 Tick)
        ∷ []) (client_of 1)
        ≡ says 1 1 0 0 0 bodies.Hello
        ∷ noted (notes.Leased (server 1) (stamp 1000))
        ∷ says 1 1 1 1 0 (bodies.Acquire 2 modes.X)
        ∷ says 1 1 1 2 0 (bodies.Allocate 2 (g 4294967297) (page 0) 1)
        ∷ noted (notes.Accepted (on 1 2) (page 0) (filled 77))
        ∷ answer 1 answers.Written
        ∷ writes 1 1 0 1 2 0 1 (filled 77)
        ∷ answer 2 (answers.DiskFault 1)
        ∷ writes 2 1 0 1 2 0 1 (filled 77)
        ∷ noted (notes.Lost (server 1) (life 1))
        ∷ answer 3 (answers.Lost (lost_row 0 1 ∷ []))
        ∷ [] }
{}

/// Without a sync at the loss the next one of the file reports it, and the one after it is hard at
/// once, without a session.
#[tactic(auto, unfolding(crate::specs::ClientScript::client_script_open))]
pub fn a_later_sync_is_told_lost_pages()
    ensures { said (
        (Given 0 (App 1 (asks.Write (on 1 2) (page 0) (filled 77))))
        ∷ (Given 0 (told 1 1 1 0 0 bodies.Welcome))
        ∷ (Given 0 (told 1 1 1 1 0 (bodies.Granted 2 (g 4294967297) modes.X)))
        ∷ (Given 0 (told 1 1 1 2 0 (bodies.Extents 2 (extent 0 1 0 1 ∷ []))))
        ∷ (Given 1000 Tick)
        ∷ (Given 1000 (App 2 (asks.Sync (on 1 3))))
        ∷ (Given 1000 (App 3 (asks.Sync (on 1 2))))
        ∷ (Given 1000 (App 4 (asks.Sync (on 1 2))))
        ∷ []) (client_of 1)
        ≡ says 1 1 0 0 0 bodies.Hello
        ∷ noted (notes.Leased (server 1) (stamp 1000))
        ∷ says 1 1 1 1 0 (bodies.Acquire 2 modes.X)
        ∷ says 1 1 1 2 0 (bodies.Allocate 2 (g 4294967297) (page 0) 1)
        ∷ noted (notes.Accepted (on 1 2) (page 0) (filled 77))
        ∷ answer 1 answers.Written
        ∷ noted (notes.Lost (server 1) (life 1))
        ∷ answer 2 answers.Hard
        ∷ answer 3 (answers.Lost (lost_row 0 0 ∷ []))
        ∷ answer 4 answers.Hard
        ∷ [] }
{}

/// A page that is lost again replaces its row; the next life begins with nothing.
#[tactic(auto, unfolding(crate::specs::ClientScript::client_script_open))]
pub fn two_losses_are_told_together()
    ensures { said (
        (Given 0 (App 1 (asks.Write (on 1 2) (page 0) (filled 77))))
        ∷ (Given 0 (told 1 1 1 0 0 bodies.Welcome))
        ∷ (Given 0 (told 1 1 1 1 0 (bodies.Granted 2 (g 4294967297) modes.X)))
        ∷ (Given 0 (told 1 1 1 2 0 (bodies.Extents 2 (extent 0 1 0 1 ∷ []))))
        ∷ (Given 1000 Tick)
        ∷ (Given 1000 (App 2 (asks.Write (on 1 2) (page 0) (filled 5))))
        ∷ (Given 1000 (told 1 2 1 0 1000 bodies.Welcome))
        ∷ (Given 1000 (told 1 2 1 1 1000 (bodies.Granted 2 (g 4294967298) modes.X)))
        ∷ (Given 1000 (told 1 2 1 2 1000 (bodies.Extents 2 (extent 0 1 0 1 ∷ extent 1 1 1 2 ∷ []))))
        ∷ (Given 1000 (App 3 (asks.Write (on 1 2) (page 1) (filled 6))))
        ∷ (Given 1850 Tick)
        ∷ (Given 1850 (Done 1 (Some None)))
        ∷ (Given 2000 Tick)
        ∷ (Given 2000 (App 4 (asks.Sync (on 1 2))))
        ∷ []) (client_of 1)
        ≡ says 1 1 0 0 0 bodies.Hello
        ∷ noted (notes.Leased (server 1) (stamp 1000))
        ∷ says 1 1 1 1 0 (bodies.Acquire 2 modes.X)
        ∷ says 1 1 1 2 0 (bodies.Allocate 2 (g 4294967297) (page 0) 1)
        ∷ noted (notes.Accepted (on 1 2) (page 0) (filled 77))
        ∷ answer 1 answers.Written
        ∷ noted (notes.Lost (server 1) (life 1))
        ∷ says 1 2 0 0 1000 bodies.Hello
        ∷ noted (notes.Leased (server 1) (stamp 2000))
        ∷ says 1 2 1 1 1000 (bodies.Acquire 2 modes.X)
        ∷ says 1 2 1 2 1000 (bodies.Allocate 2 (g 4294967298) (page 0) 1)
        ∷ noted (notes.Accepted (on 1 2) (page 0) (filled 5))
        ∷ answer 2 answers.Written
        ∷ noted (notes.Accepted (on 1 2) (page 1) (filled 6))
        ∷ answer 3 answers.Written
        ∷ writes 1 1 0 1 2 0 1 (filled 5)
        ∷ writes 2 1 1 1 2 1 2 (filled 6)
        ∷ says 1 2 1 3 1850 bodies.KeepAlive
        ∷ noted (notes.Lost (server 1) (life 2))
        ∷ answer 4 (answers.Lost (lost_row 0 0 ∷ lost_row 1 2 ∷ []))
        ∷ [] }
{}

/// Losses come first, and then the passes, each server after the other.
#[tactic(auto, unfolding(crate::specs::ClientScript::client_script_open))]
pub fn servers_go_in_rising_order()
    ensures { said (
        (Given 0 (App 1 (asks.Read (on 2 2) (page 0))))
        ∷ (Given 0 (App 2 (asks.Read (on 1 2) (page 0))))
        ∷ (Given 0 (told 2 1 1 0 0 bodies.Welcome))
        ∷ (Given 0 (told 1 1 1 0 0 bodies.Welcome))
        ∷ (Given 1000 Tick)
        ∷ (Given 1000 (App 3 (asks.Read (on 2 2) (page 0))))
        ∷ (Given 1000 (App 4 (asks.Read (on 1 2) (page 0))))
        ∷ (Given 1050 Tick)
        ∷ []) (client_of 2)
        ≡ says 2 1 0 0 0 bodies.Hello
        ∷ says 1 1 0 0 0 bodies.Hello
        ∷ noted (notes.Leased (server 2) (stamp 1000))
        ∷ says 2 1 1 1 0 (bodies.Acquire 2 modes.S)
        ∷ noted (notes.Leased (server 1) (stamp 1000))
        ∷ says 1 1 1 1 0 (bodies.Acquire 2 modes.S)
        ∷ noted (notes.Lost (server 1) (life 1))
        ∷ answer 2 answers.Quiesced
        ∷ noted (notes.Lost (server 2) (life 1))
        ∷ answer 1 answers.Quiesced
        ∷ says 2 2 0 0 1000 bodies.Hello
        ∷ says 1 2 0 0 1000 bodies.Hello
        ∷ says 1 2 0 0 1050 bodies.Hello
        ∷ says 2 2 0 0 1050 bodies.Hello
        ∷ [] }
{}

/// A crash leaves nothing but the lives, and a start raises them.
#[tactic(auto, unfolding(crate::specs::ClientScript::client_script_open))]
pub fn a_start_begins_new_lives()
    ensures { said (
        (Given 0 (App 1 (asks.Write (on 1 2) (page 0) (filled 77))))
        ∷ (Given 0 (told 1 1 1 0 0 bodies.Welcome))
        ∷ (Given 0 (told 1 1 1 1 0 (bodies.Granted 2 (g 4294967297) modes.X)))
        ∷ (Given 0 (told 1 1 1 2 0 (bodies.Extents 2 (extent 0 1 0 1 ∷ []))))
        ∷ (Given 0 (App 2 (asks.Read (on 2 2) (page 0))))
        ∷ Restarted
        ∷ (Given 5 (App 3 (asks.Sync (on 1 2))))
        ∷ (Given 5 (App 4 (asks.Read (on 1 2) (page 0))))
        ∷ (Given 5 (told 1 2 1 0 5 bodies.Welcome))
        ∷ []) (client_of 2)
        ≡ says 1 1 0 0 0 bodies.Hello
        ∷ noted (notes.Leased (server 1) (stamp 1000))
        ∷ says 1 1 1 1 0 (bodies.Acquire 2 modes.X)
        ∷ says 1 1 1 2 0 (bodies.Allocate 2 (g 4294967297) (page 0) 1)
        ∷ noted (notes.Accepted (on 1 2) (page 0) (filled 77))
        ∷ answer 1 answers.Written
        ∷ says 2 1 0 0 0 bodies.Hello
        ∷ answer 3 answers.Hard
        ∷ says 1 2 0 0 5 bodies.Hello
        ∷ noted (notes.Leased (server 1) (stamp 1005))
        ∷ says 1 2 1 1 5 (bodies.Acquire 2 modes.S)
        ∷ [] }
{}
