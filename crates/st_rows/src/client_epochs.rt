// Written by tools/rows/client_rows.py.
ghost use Rattle.std.specs.Prelude.{◌≡◌, ◌∷◌, [], codes};
ghost use Rattle.st_base.specs.Page.{filled};
ghost use Rattle.st_base.specs.declared.mode.Mode.TheVariants as modes;
ghost use Rattle.st_base.specs.declared.names.NameAsk.TheVariants as names;
ghost use Rattle.st_messages.specs.declared.answer.AppAnswer.TheVariants as answers;
ghost use Rattle.st_messages.specs.declared.ask.Ask.TheVariants as asks;
ghost use Rattle.st_messages.specs.declared.message.Body.TheVariants as bodies;
ghost use Rattle.st_messages.specs.declared.message.NameOp.TheVariants as ops;
ghost use Rattle.st_messages.specs.declared.message.NameReply.TheVariants as replies;
ghost use Rattle.st_messages.specs.declared.message.Why.TheVariants as why;
ghost use Rattle.st_messages.specs.declared.output.Note.TheVariants as notes;
ghost use Rattle.st_rules.specs.declared.client.ClientInput.TheVariants.{App, Tick};
ghost use Rattle.st_rows.specs.ClientScript.{Given, client_of, said};
ghost use Rattle.st_rows.specs.ClientWords.{answer, noted, on, says, server, told, writes};
ghost use Rattle.st_rows.specs.Words.{extent, g, page, stamp};

/// A newer epoch gives up the outstanding request, whose operation is uncertain; the locks are
/// reasserted, and pages stay.
#[tactic(auto, unfolding(crate::specs::ClientScript::client_script_open))]
pub fn a_new_epoch_gives_up_the_request()
    ensures { said (
        (Given 0 (App 1 (asks.Write (on 1 2) (page 0) (filled 77))))
        ∷ (Given 0 (told 1 1 1 0 0 bodies.Welcome))
        ∷ (Given 0 (told 1 1 1 1 0 (bodies.Granted 2 (g 4294967297) modes.X)))
        ∷ (Given 0 (told 1 1 1 2 0 (bodies.Extents 2 (extent 0 1 0 1 ∷ []))))
        ∷ (Given 10 (App 2 (asks.Name (server 1) (names.Create 1 (codes "n")))))
        ∷ (Given 20 (told 1 1 2 3 10 (bodies.Nack why.OtherEpoch 1 2)))
        ∷ (Given 20 (told 1 1 1 3 10 (bodies.Named (replies.Ino 10))))
        ∷ (Given 20 (told 1 1 2 1 10 bodies.Reasserted))
        ∷ (Given 20 (told 1 1 2 1 20 bodies.Reasserted))
        ∷ (Given 30 (App 3 (asks.Read (on 1 2) (page 0))))
        ∷ (Given 40 (told 1 1 2 2 20 (bodies.Nack why.OtherEpoch 1 2)))
        ∷ []) (client_of 1)
        ≡ says 1 1 0 0 0 bodies.Hello
        ∷ noted (notes.Leased (server 1) (stamp 1000))
        ∷ says 1 1 1 1 0 (bodies.Acquire 2 modes.X)
        ∷ says 1 1 1 2 0 (bodies.Allocate 2 (g 4294967297) (page 0) 1)
        ∷ noted (notes.Accepted (on 1 2) (page 0) (filled 77))
        ∷ answer 1 answers.Written
        ∷ says 1 1 1 3 10 (bodies.Name (ops.Create 1 (codes "n")))
        ∷ answer 2 (answers.Uncertain 1 2)
        ∷ says 1 1 2 1 20 (bodies.Reassert ((2, g 4294967297, modes.X) ∷ []))
        ∷ noted (notes.Leased (server 1) (stamp 1010))
        ∷ answer 3 (answers.Read (filled 77))
        ∷ [] }
{}

/// Waits, releases and demands are forgotten, and the locks are reasserted once more if a second
/// epoch comes first.
#[tactic(auto, unfolding(crate::specs::ClientScript::client_script_open))]
pub fn a_new_epoch_forgets_what_was_under_way()
    ensures { said (
        (Given 0 (App 1 (asks.Write (on 1 2) (page 0) (filled 77))))
        ∷ (Given 0 (told 1 1 1 0 0 bodies.Welcome))
        ∷ (Given 0 (told 1 1 1 1 0 (bodies.Granted 2 (g 4294967297) modes.X)))
        ∷ (Given 0 (told 1 1 1 2 0 (bodies.Extents 2 (extent 0 1 0 1 ∷ []))))
        ∷ (Given 0 (told 1 1 1 0 0 (bodies.Granted 3 (g 4294967298) modes.S)))
        ∷ (Given 0 (App 2 (asks.Read (on 1 4) (page 0))))
        ∷ (Given 0 (told 1 1 1 3 0 (bodies.Queued 4 modes.S)))
        ∷ (Given 0 (App 3 (asks.Write (on 1 3) (page 0) (filled 1))))
        ∷ (Given 0 (told 1 1 1 0 0 (bodies.Demand 2 (g 4294967297) modes.None)))
        ∷ (Given 0 (told 1 1 1 0 0 (bodies.Demand 5 (g 4294967299) modes.None)))
        ∷ (Given 0 (told 1 1 2 0 0 (bodies.Nack why.OtherEpoch 1 2)))
        ∷ (Given 0 (told 1 1 3 0 0 (bodies.Nack why.OtherEpoch 2 3)))
        ∷ (Given 0 (told 1 1 2 1 0 bodies.Reasserted))
        ∷ (Given 0 (told 1 1 3 1 0 bodies.Reasserted))
        ∷ []) (client_of 1)
        ≡ says 1 1 0 0 0 bodies.Hello
        ∷ noted (notes.Leased (server 1) (stamp 1000))
        ∷ says 1 1 1 1 0 (bodies.Acquire 2 modes.X)
        ∷ says 1 1 1 2 0 (bodies.Allocate 2 (g 4294967297) (page 0) 1)
        ∷ noted (notes.Accepted (on 1 2) (page 0) (filled 77))
        ∷ answer 1 answers.Written
        ∷ says 1 1 1 3 0 (bodies.Acquire 4 modes.S)
        ∷ says 1 1 1 4 0 (bodies.Acquire 3 modes.X)
        ∷ says 1 1 1 0 0 (bodies.DemandSeen 2 (g 4294967297))
        ∷ writes 1 1 0 1 2 0 1 (filled 77)
        ∷ says 1 1 2 1 0 (bodies.Reassert ((2, g 4294967297, modes.X) ∷ (3, g 4294967298, modes.S) ∷ []))
        ∷ says 1 1 3 1 0 (bodies.Reassert ((2, g 4294967297, modes.X) ∷ (3, g 4294967298, modes.S) ∷ []))
        ∷ says 1 1 3 2 0 (bodies.Acquire 4 modes.S)
        ∷ [] }
{}

/// A refusal of the reassertion condemns the lease: nothing more is asked, what is pending is
/// quiesced, and in flush pages are written.
#[tactic(auto, unfolding(crate::specs::ClientScript::client_script_open))]
pub fn a_refused_reassertion_condemns()
    ensures { said (
        (Given 0 (App 1 (asks.Write (on 1 2) (page 0) (filled 77))))
        ∷ (Given 0 (told 1 1 1 0 0 bodies.Welcome))
        ∷ (Given 0 (told 1 1 1 1 0 (bodies.Granted 2 (g 4294967297) modes.X)))
        ∷ (Given 0 (told 1 1 1 2 0 (bodies.Extents 2 (extent 0 1 0 1 ∷ []))))
        ∷ (Given 0 (told 1 1 2 0 0 (bodies.Nack why.OtherEpoch 1 2)))
        ∷ (Given 0 (told 1 1 2 1 0 (bodies.Nack why.NotHolder 2 4294967297)))
        ∷ (Given 0 (App 2 (asks.Read (on 1 2) (page 0))))
        ∷ (Given 500 Tick)
        ∷ (Given 500 (told 1 1 3 1 0 (bodies.Nack why.OtherEpoch 2 3)))
        ∷ (Given 850 Tick)
        ∷ []) (client_of 1)
        ≡ says 1 1 0 0 0 bodies.Hello
        ∷ noted (notes.Leased (server 1) (stamp 1000))
        ∷ says 1 1 1 1 0 (bodies.Acquire 2 modes.X)
        ∷ says 1 1 1 2 0 (bodies.Allocate 2 (g 4294967297) (page 0) 1)
        ∷ noted (notes.Accepted (on 1 2) (page 0) (filled 77))
        ∷ answer 1 answers.Written
        ∷ says 1 1 2 1 0 (bodies.Reassert ((2, g 4294967297, modes.X) ∷ []))
        ∷ answer 2 answers.Quiesced
        ∷ writes 1 1 0 1 2 0 1 (filled 77)
        ∷ [] }
{}

/// Refused as a suspect, the client hopes for no renewal; the same of a life without a session, of
/// a late reassertion, and of a conflict. Two refusals are ignored.
#[tactic(auto, unfolding(crate::specs::ClientScript::client_script_open))]
pub fn a_suspect_is_condemned()
    ensures { said (
        (Given 0 (App 1 (asks.Read (on 1 2) (page 0))))
        ∷ (Given 0 (told 1 1 1 0 0 bodies.Welcome))
        ∷ (Given 0 (told 1 1 1 1 0 (bodies.Nack why.Grace 0 0)))
        ∷ (Given 0 (told 1 1 1 1 0 (bodies.Nack why.OtherEpoch 1 1)))
        ∷ (Given 0 (told 1 1 1 9 0 (bodies.Nack why.Suspect 0 0)))
        ∷ (Given 0 (App 2 (asks.Read (on 2 2) (page 0))))
        ∷ (Given 0 (told 2 1 1 0 0 bodies.Welcome))
        ∷ (Given 0 (told 2 1 1 1 0 (bodies.Nack why.Grace 0 0)))
        ∷ (Given 0 (told 2 1 1 1 0 (bodies.Nack why.OtherEpoch 1 1)))
        ∷ (Given 0 (told 2 1 1 9 0 (bodies.Nack why.NoSession 0 0)))
        ∷ (Given 0 (App 3 (asks.Read (on 3 2) (page 0))))
        ∷ (Given 0 (told 3 1 1 0 0 bodies.Welcome))
        ∷ (Given 0 (told 3 1 1 1 0 (bodies.Nack why.Grace 0 0)))
        ∷ (Given 0 (told 3 1 1 1 0 (bodies.Nack why.OtherEpoch 1 1)))
        ∷ (Given 0 (told 3 1 1 9 0 (bodies.Nack why.GraceOver 0 0)))
        ∷ (Given 0 (App 4 (asks.Read (on 4 2) (page 0))))
        ∷ (Given 0 (told 4 1 1 0 0 bodies.Welcome))
        ∷ (Given 0 (told 4 1 1 1 0 (bodies.Nack why.Grace 0 0)))
        ∷ (Given 0 (told 4 1 1 1 0 (bodies.Nack why.OtherEpoch 1 1)))
        ∷ (Given 0 (told 4 1 1 9 0 (bodies.Nack why.Conflict 0 0)))
        ∷ (Given 60 Tick)
        ∷ []) (client_of 4)
        ≡ says 1 1 0 0 0 bodies.Hello
        ∷ noted (notes.Leased (server 1) (stamp 1000))
        ∷ says 1 1 1 1 0 (bodies.Acquire 2 modes.S)
        ∷ answer 1 answers.Quiesced
        ∷ says 2 1 0 0 0 bodies.Hello
        ∷ noted (notes.Leased (server 2) (stamp 1000))
        ∷ says 2 1 1 1 0 (bodies.Acquire 2 modes.S)
        ∷ answer 2 answers.Quiesced
        ∷ says 3 1 0 0 0 bodies.Hello
        ∷ noted (notes.Leased (server 3) (stamp 1000))
        ∷ says 3 1 1 1 0 (bodies.Acquire 2 modes.S)
        ∷ answer 3 answers.Quiesced
        ∷ says 4 1 0 0 0 bodies.Hello
        ∷ noted (notes.Leased (server 4) (stamp 1000))
        ∷ says 4 1 1 1 0 (bodies.Acquire 2 modes.S)
        ∷ answer 4 answers.Quiesced
        ∷ [] }
{}
