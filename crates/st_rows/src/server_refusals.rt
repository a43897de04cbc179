ghost use Rattle.std.specs.Prelude.{◌≡◌, ◌∷◌, [], codes};
ghost use Rattle.st_base.specs.declared.mode.Mode.TheVariants as modes;
ghost use Rattle.st_messages.specs.declared.message.Body.TheVariants as bodies;
ghost use Rattle.st_messages.specs.declared.message.NameOp.TheVariants as ops;
ghost use Rattle.st_messages.specs.declared.message.Why.TheVariants as why;
ghost use Rattle.st_rows.specs.CrowdedServers.{crowded_server};
ghost use Rattle.st_rows.specs.Script.{Input, said, server_with};
ghost use Rattle.st_rows.specs.Words.{from, g, page, to};

/// A cut and a remove under a shared lock; a map, an allocation and a cut of an inode that isn't a
/// file.
#[tactic(auto, unfolding(crate::specs::Script::script_open))]
pub fn cuts_and_removes_want_the_exclusive_lock()
    ensures { said (
        (Input 0 (from 1 1 0 0 0 bodies.Hello))
        ∷ (Input 0 (from 1 1 1 1 0 (bodies.Acquire 2 modes.S)))
        ∷ (Input 0 (from 1 1 1 2 0 (bodies.Cut 2 (g 4294967297) (page 0))))
        ∷ (Input 0 (from 1 1 1 3 0 (bodies.Name (ops.Remove 1 (codes "f2") (g 4294967297)))))
        ∷ (Input 0 (from 1 1 1 4 0 (bodies.Map 99 (g 4294967297) (page 0))))
        ∷ (Input 0 (from 1 1 1 5 0 (bodies.Allocate 99 (g 4294967297) (page 0) 1)))
        ∷ (Input 0 (from 1 1 1 6 0 (bodies.Cut 99 (g 4294967297) (page 0))))
        ∷ []) (server_with 8)
        ≡ to 1 1 1 0 0 bodies.Welcome
        ∷ to 1 1 1 1 0 (bodies.Granted 2 (g 4294967297) modes.S)
        ∷ to 1 1 1 2 0 (bodies.Nack why.NotHolder 2 4294967297)
        ∷ to 1 1 1 3 0 (bodies.Nack why.NotHolder 2 4294967297)
        ∷ to 1 1 1 4 0 (bodies.Nack why.NoFile 99 0)
        ∷ to 1 1 1 5 0 (bodies.Nack why.NoFile 99 0)
        ∷ to 1 1 1 6 0 (bodies.Nack why.NoFile 99 0)
        ∷ [] }
{}

/// A client with locks on 1,024 files gets no other one.
#[tactic(auto, unfolding(crate::specs::Script::script_open))]
pub fn a_lock_may_be_one_too_many()
    ensures { said (
        (Input 0 (from 1 1 1 1 0 (bodies.Acquire 2 modes.S)))
        ∷ []) (crowded_server 1024)
        ≡ to 1 1 1 1 0 (bodies.Nack why.TooManyLocks 1024 0)
        ∷ [] }
{}
