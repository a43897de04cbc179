ghost use Rattle.std.specs.Prelude.{◌≡◌, ◌∷◌, [], true, false, codes};
ghost use Rattle.st_base.specs.declared.mode.Mode.TheVariants as modes;
ghost use Rattle.st_messages.specs.declared.message.Body.TheVariants as bodies;
ghost use Rattle.st_messages.specs.declared.message.NameOp.TheVariants as ops;
ghost use Rattle.st_messages.specs.declared.message.NameReply.TheVariants as replies;
ghost use Rattle.st_messages.specs.declared.message.Why.TheVariants as why;
ghost use Rattle.st_messages.specs.declared.output.Note.TheVariants as notes;
ghost use Rattle.st_rules.specs.declared.input.ServerInput.TheVariants.{Tick};
ghost use Rattle.st_rows.specs.Script.{Input, Restart, grainy_server, said, server_with};
ghost use Rattle.st_rows.specs.Words.{c, entry, extent, file, from, g, life, noted, page, posted, stamp, to};

/// A request without a session, and one of another epoch, are refused.
#[tactic(auto, unfolding(crate::specs::Script::script_open))]
pub fn requests_without_a_session_are_refused()
    ensures { said (
        (Input 0 (from 1 1 1 1 0 bodies.KeepAlive))
        ∷ (Input 0 (from 1 1 0 0 0 bodies.Hello))
        ∷ (Input 0 (from 1 1 2 1 0 bodies.KeepAlive))
        ∷ (Input 0 (from 1 2 1 1 0 bodies.KeepAlive))
        ∷ []) (server_with 8)
        ≡ to 1 1 1 1 0 (bodies.Nack why.NoSession 0 0)
        ∷ to 1 1 1 0 0 bodies.Welcome
        ∷ to 1 1 1 1 0 (bodies.Nack why.OtherEpoch 2 1)
        ∷ to 1 2 1 1 0 (bodies.Nack why.NoSession 0 0)
        ∷ [] }
{}

/// A request is served once and answered again with its kept reply; other numbers than the next are
/// ignored.
#[tactic(auto, unfolding(crate::specs::Script::script_open))]
pub fn a_request_is_served_once()
    ensures { said (
        (Input 0 (from 1 1 0 0 0 bodies.Hello))
        ∷ (Input 5 (from 1 1 1 2 5 bodies.KeepAlive))
        ∷ (Input 5 (from 1 1 1 1 5 (bodies.Acquire 2 modes.X)))
        ∷ (Input 7 (from 1 1 1 1 7 (bodies.Acquire 2 modes.X)))
        ∷ (Input 7 (from 1 1 1 2 7 (bodies.Released 2 (g 4294967297) modes.None)))
        ∷ (Input 7 (from 1 1 1 1 7 (bodies.Acquire 2 modes.X)))
        ∷ (Input 7 (from 1 1 1 2 8 (bodies.Released 2 (g 4294967297) modes.None)))
        ∷ []) (server_with 8)
        ≡ to 1 1 1 0 0 bodies.Welcome
        ∷ to 1 1 1 1 5 (bodies.Granted 2 (g 4294967297) modes.X)
        ∷ to 1 1 1 1 7 (bodies.Granted 2 (g 4294967297) modes.X)
        ∷ to 1 1 1 2 7 bodies.Ack
        ∷ to 1 1 1 2 8 bodies.Ack
        ∷ [] }
{}

/// Release, then a map under an old grant number; a file that is none.
#[tactic(auto, unfolding(crate::specs::Script::script_open))]
pub fn an_unheld_file_is_no_holder()
    ensures { said (
        (Input 0 (from 1 1 0 0 0 bodies.Hello))
        ∷ (Input 0 (from 1 1 1 1 0 (bodies.Acquire 2 modes.X)))
        ∷ (Input 0 (from 1 1 1 2 0 (bodies.Released 2 (g 4294967298) modes.None)))
        ∷ (Input 0 (from 1 1 1 3 0 (bodies.Map 2 (g 4294967297) (page 0))))
        ∷ (Input 0 (from 1 1 1 4 0 (bodies.Released 2 (g 4294967297) modes.None)))
        ∷ (Input 0 (from 1 1 1 5 0 (bodies.Map 2 (g 4294967297) (page 0))))
        ∷ (Input 0 (from 1 1 1 6 0 (bodies.Acquire 1 modes.S)))
        ∷ (Input 0 (from 1 1 1 7 0 (bodies.Acquire 99 modes.S)))
        ∷ []) (server_with 8)
        ≡ to 1 1 1 0 0 bodies.Welcome
        ∷ to 1 1 1 1 0 (bodies.Granted 2 (g 4294967297) modes.X)
        ∷ to 1 1 1 2 0 bodies.Ack
        ∷ to 1 1 1 3 0 (bodies.Extents 2 [])
        ∷ to 1 1 1 4 0 bodies.Ack
        ∷ to 1 1 1 5 0 (bodies.Nack why.NotHolder 2 4294967297)
        ∷ to 1 1 1 6 0 (bodies.Nack why.NoFile 1 0)
        ∷ to 1 1 1 7 0 (bodies.Nack why.NoFile 99 0)
        ∷ [] }
{}

/// A demand, its release, the wait that is granted; the release once more changes nothing.
#[tactic(auto, unfolding(crate::specs::Script::script_open))]
pub fn a_repeated_release_changes_nothing()
    ensures { said (
        (Input 0 (from 1 1 0 0 0 bodies.Hello))
        ∷ (Input 0 (from 1 1 1 1 0 (bodies.Acquire 2 modes.X)))
        ∷ (Input 0 (from 2 1 0 0 0 bodies.Hello))
        ∷ (Input 0 (from 2 1 1 1 0 (bodies.Acquire 2 modes.X)))
        ∷ (Input 0 (from 1 1 1 2 0 (bodies.Released 2 (g 4294967297) modes.None)))
        ∷ (Input 0 (from 1 1 1 3 0 (bodies.Acquire 2 modes.X)))
        ∷ (Input 0 (from 1 1 1 2 0 (bodies.Released 2 (g 4294967297) modes.None)))
        ∷ (Input 0 (from 2 1 1 0 0 (bodies.DemandSeen 2 (g 4294967298))))
        ∷ (Input 0 (from 2 1 1 2 0 (bodies.Released 2 (g 4294967298) modes.None)))
        ∷ (Input 0 (from 1 1 1 2 0 (bodies.Released 2 (g 4294967297) modes.None)))
        ∷ []) (server_with 8)
        ≡ to 1 1 1 0 0 bodies.Welcome
        ∷ to 1 1 1 1 0 (bodies.Granted 2 (g 4294967297) modes.X)
        ∷ to 2 1 1 0 0 bodies.Welcome
        ∷ to 2 1 1 1 0 (bodies.Queued 2 modes.X)
        ∷ to 1 1 1 0 0 (bodies.Demand 2 (g 4294967297) modes.None)
        ∷ to 1 1 1 2 0 bodies.Ack
        ∷ to 2 1 1 0 0 (bodies.Granted 2 (g 4294967298) modes.X)
        ∷ to 1 1 1 3 0 (bodies.Queued 2 modes.X)
        ∷ to 2 1 1 0 0 (bodies.Demand 2 (g 4294967298) modes.None)
        ∷ to 2 1 1 2 0 bodies.Ack
        ∷ to 1 1 1 0 0 (bodies.Granted 2 (g 4294967299) modes.X)
        ∷ [] }
{}

/// A demand to share is sent; sent again when it is old, only on a tick; and lowered if the
/// first waiter's mode is raised.
#[tactic(auto, unfolding(crate::specs::Script::script_open))]
pub fn a_demand_is_lowered()
    ensures { said (
        (Input 0 (from 1 1 0 0 0 bodies.Hello))
        ∷ (Input 0 (from 1 1 1 1 0 (bodies.Acquire 2 modes.X)))
        ∷ (Input 0 (from 2 1 0 0 0 bodies.Hello))
        ∷ (Input 0 (from 2 1 1 1 0 (bodies.Acquire 2 modes.S)))
        ∷ (Input 10 (from 1 1 1 0 0 (bodies.DemandSeen 2 (g 4294967297))))
        ∷ (Input 49 Tick)
        ∷ (Input 50 Tick)
        ∷ (Input 60 (from 2 1 1 2 0 (bodies.Acquire 2 modes.X)))
        ∷ (Input 109 Tick)
        ∷ (Input 149 Tick)
        ∷ (Input 150 Tick)
        ∷ []) (server_with 8)
        ≡ to 1 1 1 0 0 bodies.Welcome
        ∷ to 1 1 1 1 0 (bodies.Granted 2 (g 4294967297) modes.X)
        ∷ to 2 1 1 0 0 bodies.Welcome
        ∷ to 2 1 1 1 0 (bodies.Queued 2 modes.S)
        ∷ to 1 1 1 0 0 (bodies.Demand 2 (g 4294967297) modes.S)
        ∷ to 1 1 1 0 0 (bodies.Demand 2 (g 4294967297) modes.S)
        ∷ to 2 1 1 2 0 (bodies.Queued 2 modes.X)
        ∷ to 1 1 1 0 0 (bodies.Demand 2 (g 4294967297) modes.None)
        ∷ to 1 1 1 0 0 (bodies.Demand 2 (g 4294967297) modes.None)
        ∷ noted (notes.Suspected (c 1) (stamp 150))
        ∷ [] }
{}

/// A holder that shares its lock lets the waiter in; readers share; a writer then demands both, in
/// rising order.
#[tactic(auto, unfolding(crate::specs::Script::script_open))]
pub fn a_lock_is_shared()
    ensures { said (
        (Input 0 (from 1 1 0 0 0 bodies.Hello))
        ∷ (Input 0 (from 1 1 1 1 0 (bodies.Acquire 2 modes.X)))
        ∷ (Input 0 (from 2 1 0 0 0 bodies.Hello))
        ∷ (Input 0 (from 2 1 1 1 0 (bodies.Acquire 2 modes.S)))
        ∷ (Input 0 (from 1 1 1 2 0 (bodies.Released 2 (g 4294967297) modes.S)))
        ∷ (Input 0 (from 3 1 0 0 0 bodies.Hello))
        ∷ (Input 0 (from 3 1 1 1 0 (bodies.Acquire 2 modes.X)))
        ∷ (Input 0 (from 1 1 1 3 0 (bodies.Acquire 2 modes.X)))
        ∷ (Input 0 (from 2 1 1 2 0 (bodies.Released 2 (g 4294967298) modes.None)))
        ∷ (Input 0 (from 1 1 1 4 0 (bodies.Released 2 (g 4294967297) modes.None)))
        ∷ []) (server_with 8)
        ≡ to 1 1 1 0 0 bodies.Welcome
        ∷ to 1 1 1 1 0 (bodies.Granted 2 (g 4294967297) modes.X)
        ∷ to 2 1 1 0 0 bodies.Welcome
        ∷ to 2 1 1 1 0 (bodies.Queued 2 modes.S)
        ∷ to 1 1 1 0 0 (bodies.Demand 2 (g 4294967297) modes.S)
        ∷ to 1 1 1 2 0 bodies.Ack
        ∷ to 2 1 1 0 0 (bodies.Granted 2 (g 4294967298) modes.S)
        ∷ to 3 1 1 0 0 bodies.Welcome
        ∷ to 3 1 1 1 0 (bodies.Queued 2 modes.X)
        ∷ to 1 1 1 0 0 (bodies.Demand 2 (g 4294967297) modes.None)
        ∷ to 2 1 1 0 0 (bodies.Demand 2 (g 4294967298) modes.None)
        ∷ to 1 1 1 3 0 (bodies.Queued 2 modes.X)
        ∷ to 2 1 1 2 0 bodies.Ack
        ∷ to 1 1 1 4 0 bodies.Ack
        ∷ to 3 1 1 0 0 (bodies.Granted 2 (g 4294967299) modes.X)
        ∷ to 3 1 1 0 0 (bodies.Demand 2 (g 4294967299) modes.None)
        ∷ [] }
{}

/// An unanswered demand: the timer starts after 100 ticks, and the lock is stolen after 1,010 more
/// and not before. The suspect is refused meanwhile, and its session is ended then.
#[tactic(auto, unfolding(crate::specs::Script::script_open))]
pub fn a_theft_comes_at_the_timers_end()
    ensures { said (
        (Input 0 (from 1 1 0 0 0 bodies.Hello))
        ∷ (Input 0 (from 1 1 1 1 0 (bodies.Acquire 2 modes.X)))
        ∷ (Input 0 (from 2 1 0 0 0 bodies.Hello))
        ∷ (Input 0 (from 2 1 1 1 0 (bodies.Acquire 2 modes.S)))
        ∷ (Input 99 Tick)
        ∷ (Input 100 Tick)
        ∷ (Input 500 (from 1 1 1 2 500 bodies.KeepAlive))
        ∷ (Input 500 (from 1 1 1 0 0 (bodies.DemandSeen 2 (g 4294967297))))
        ∷ (Input 1109 Tick)
        ∷ (Input 1110 Tick)
        ∷ (Input 1110 (from 1 1 1 2 1110 bodies.KeepAlive))
        ∷ (Input 1110 (from 1 1 0 0 1110 bodies.Hello))
        ∷ (Input 1110 (from 1 2 0 0 1110 bodies.Hello))
        ∷ []) (server_with 8)
        ≡ to 1 1 1 0 0 bodies.Welcome
        ∷ to 1 1 1 1 0 (bodies.Granted 2 (g 4294967297) modes.X)
        ∷ to 2 1 1 0 0 bodies.Welcome
        ∷ to 2 1 1 1 0 (bodies.Queued 2 modes.S)
        ∷ to 1 1 1 0 0 (bodies.Demand 2 (g 4294967297) modes.S)
        ∷ to 1 1 1 0 0 (bodies.Demand 2 (g 4294967297) modes.S)
        ∷ noted (notes.Suspected (c 1) (stamp 100))
        ∷ to 1 1 1 2 500 (bodies.Nack why.Suspect 100 0)
        ∷ noted (notes.Stolen (c 1) (life 1))
        ∷ to 2 1 1 0 0 (bodies.Granted 2 (g 4294967298) modes.S)
        ∷ to 1 2 1 0 1110 bodies.Welcome
        ∷ [] }
{}

/// Clocks with a grain of 5: five ticks more.
#[tactic(auto, unfolding(crate::specs::Script::script_open))]
pub fn a_theft_waits_for_the_grain()
    ensures { said (
        (Input 0 (from 1 1 0 0 0 bodies.Hello))
        ∷ (Input 0 (from 1 1 1 1 0 (bodies.Acquire 2 modes.X)))
        ∷ (Input 0 (from 2 1 0 0 0 bodies.Hello))
        ∷ (Input 0 (from 2 1 1 1 0 (bodies.Acquire 2 modes.S)))
        ∷ (Input 100 Tick)
        ∷ (Input 1114 Tick)
        ∷ (Input 1115 Tick)
        ∷ []) grainy_server
        ≡ to 1 1 1 0 0 bodies.Welcome
        ∷ to 1 1 1 1 0 (bodies.Granted 2 (g 4294967297) modes.X)
        ∷ to 2 1 1 0 0 bodies.Welcome
        ∷ to 2 1 1 1 0 (bodies.Queued 2 modes.S)
        ∷ to 1 1 1 0 0 (bodies.Demand 2 (g 4294967297) modes.S)
        ∷ noted (notes.Suspected (c 1) (stamp 100))
        ∷ noted (notes.Stolen (c 1) (life 1))
        ∷ to 2 1 1 0 0 (bodies.Granted 2 (g 4294967298) modes.S)
        ∷ [] }
{}

/// A demand that was seen starts no timer; one that is sent once more must be seen again.
#[tactic(auto, unfolding(crate::specs::Script::script_open))]
pub fn a_seen_demand_starts_no_timer()
    ensures { said (
        (Input 0 (from 1 1 0 0 0 bodies.Hello))
        ∷ (Input 0 (from 1 1 1 1 0 (bodies.Acquire 2 modes.X)))
        ∷ (Input 0 (from 2 1 0 0 0 bodies.Hello))
        ∷ (Input 0 (from 2 1 1 1 0 (bodies.Acquire 2 modes.S)))
        ∷ (Input 0 (from 1 1 1 0 0 (bodies.DemandSeen 2 (g 4294967297))))
        ∷ (Input 100 Tick)
        ∷ (Input 199 Tick)
        ∷ (Input 200 Tick)
        ∷ []) (server_with 8)
        ≡ to 1 1 1 0 0 bodies.Welcome
        ∷ to 1 1 1 1 0 (bodies.Granted 2 (g 4294967297) modes.X)
        ∷ to 2 1 1 0 0 bodies.Welcome
        ∷ to 2 1 1 1 0 (bodies.Queued 2 modes.S)
        ∷ to 1 1 1 0 0 (bodies.Demand 2 (g 4294967297) modes.S)
        ∷ to 1 1 1 0 0 (bodies.Demand 2 (g 4294967297) modes.S)
        ∷ to 1 1 1 0 0 (bodies.Demand 2 (g 4294967297) modes.S)
        ∷ noted (notes.Suspected (c 1) (stamp 200))
        ∷ [] }
{}

/// A seen demand of another epoch, of another life or under another grant number answers nothing,
/// so the timer starts.
#[tactic(auto, unfolding(crate::specs::Script::script_open))]
pub fn a_seen_demand_is_of_this_epoch_and_life()
    ensures { said (
        (Input 0 (from 1 1 0 0 0 bodies.Hello))
        ∷ (Input 0 (from 1 1 1 1 0 (bodies.Acquire 2 modes.X)))
        ∷ (Input 0 (from 2 1 0 0 0 bodies.Hello))
        ∷ (Input 0 (from 2 1 1 1 0 (bodies.Acquire 2 modes.S)))
        ∷ (Input 0 (from 1 1 2 0 0 (bodies.DemandSeen 2 (g 4294967297))))
        ∷ (Input 0 (from 1 2 1 0 0 (bodies.DemandSeen 2 (g 4294967297))))
        ∷ (Input 0 (from 1 1 1 0 0 (bodies.DemandSeen 2 (g 4294967298))))
        ∷ (Input 100 Tick)
        ∷ []) (server_with 8)
        ≡ to 1 1 1 0 0 bodies.Welcome
        ∷ to 1 1 1 1 0 (bodies.Granted 2 (g 4294967297) modes.X)
        ∷ to 2 1 1 0 0 bodies.Welcome
        ∷ to 2 1 1 1 0 (bodies.Queued 2 modes.S)
        ∷ to 1 1 1 0 0 (bodies.Demand 2 (g 4294967297) modes.S)
        ∷ noted (notes.Suspected (c 1) (stamp 100))
        ∷ [] }
{}

/// A greeting of a later life while the locks of the elder one are there starts the timer; without
/// locks it replaces the session; an older one is ignored.
#[tactic(auto, unfolding(crate::specs::Script::script_open))]
pub fn a_later_life_waits_for_its_elder()
    ensures { said (
        (Input 0 (from 1 1 0 0 0 bodies.Hello))
        ∷ (Input 0 (from 1 1 1 1 0 (bodies.Acquire 2 modes.X)))
        ∷ (Input 0 (from 2 3 0 0 0 bodies.Hello))
        ∷ (Input 0 (from 2 4 0 0 0 bodies.Hello))
        ∷ (Input 0 (from 2 3 0 0 0 bodies.Hello))
        ∷ (Input 40 (from 1 2 0 0 40 bodies.Hello))
        ∷ (Input 1049 Tick)
        ∷ (Input 1050 Tick)
        ∷ (Input 1050 (from 1 2 0 0 1050 bodies.Hello))
        ∷ []) (server_with 8)
        ≡ to 1 1 1 0 0 bodies.Welcome
        ∷ to 1 1 1 1 0 (bodies.Granted 2 (g 4294967297) modes.X)
        ∷ to 2 3 1 0 0 bodies.Welcome
        ∷ to 2 4 1 0 0 bodies.Welcome
        ∷ noted (notes.Suspected (c 1) (stamp 40))
        ∷ to 1 2 1 0 40 (bodies.Nack why.Suspect 40 0)
        ∷ noted (notes.Stolen (c 1) (life 1))
        ∷ to 1 2 1 0 1050 bodies.Welcome
        ∷ [] }
{}

/// A suspect's wait is dropped, and the next waiter is granted.
#[tactic(auto, unfolding(crate::specs::Script::script_open))]
pub fn a_suspects_waits_are_dropped()
    ensures { said (
        (Input 0 (from 1 1 0 0 0 bodies.Hello))
        ∷ (Input 0 (from 2 1 0 0 0 bodies.Hello))
        ∷ (Input 0 (from 3 1 0 0 0 bodies.Hello))
        ∷ (Input 0 (from 1 1 1 1 0 (bodies.Acquire 2 modes.X)))
        ∷ (Input 0 (from 2 1 1 1 0 (bodies.Acquire 3 modes.X)))
        ∷ (Input 0 (from 2 1 1 2 0 (bodies.Acquire 2 modes.X)))
        ∷ (Input 0 (from 3 1 1 1 0 (bodies.Acquire 3 modes.X)))
        ∷ (Input 0 (from 1 1 1 0 0 (bodies.DemandSeen 2 (g 4294967297))))
        ∷ (Input 100 Tick)
        ∷ (Input 100 (from 3 1 1 2 0 (bodies.Acquire 2 modes.S)))
        ∷ (Input 100 (from 1 1 1 2 0 (bodies.Released 2 (g 4294967297) modes.None)))
        ∷ []) (server_with 8)
        ≡ to 1 1 1 0 0 bodies.Welcome
        ∷ to 2 1 1 0 0 bodies.Welcome
        ∷ to 3 1 1 0 0 bodies.Welcome
        ∷ to 1 1 1 1 0 (bodies.Granted 2 (g 4294967297) modes.X)
        ∷ to 2 1 1 1 0 (bodies.Granted 3 (g 4294967298) modes.X)
        ∷ to 2 1 1 2 0 (bodies.Queued 2 modes.X)
        ∷ to 1 1 1 0 0 (bodies.Demand 2 (g 4294967297) modes.None)
        ∷ to 3 1 1 1 0 (bodies.Queued 3 modes.X)
        ∷ to 2 1 1 0 0 (bodies.Demand 3 (g 4294967298) modes.None)
        ∷ noted (notes.Suspected (c 2) (stamp 100))
        ∷ to 3 1 1 2 0 (bodies.Queued 2 modes.S)
        ∷ to 1 1 1 2 0 bodies.Ack
        ∷ to 3 1 1 0 0 (bodies.Granted 2 (g 4294967299) modes.S)
        ∷ [] }
{}

/// After a restart a greeting waits, a lock is reasserted, and the same reassertion gets its kept
/// reply. New locks wait for the end of grace.
#[tactic(auto, unfolding(crate::specs::Script::script_open))]
pub fn locks_are_reasserted_in_grace()
    ensures { said (
        (Input 0 (from 1 1 0 0 0 bodies.Hello))
        ∷ (Input 0 (from 1 1 1 1 0 (bodies.Acquire 2 modes.X)))
        ∷ (Restart 100)
        ∷ (Input 500 (from 1 1 1 3 500 bodies.KeepAlive))
        ∷ (Input 500 (from 2 1 0 0 500 bodies.Hello))
        ∷ (Input 500 (from 1 1 2 1 500 (bodies.Reassert ((2, g 4294967297, modes.X) ∷ []))))
        ∷ (Input 501 (from 1 1 2 1 501 (bodies.Reassert ((2, g 4294967297, modes.X) ∷ []))))
        ∷ (Input 501 (from 1 1 2 2 501 (bodies.Acquire 3 modes.S)))
        ∷ (Input 1109 Tick)
        ∷ (Input 1110 Tick)
        ∷ (Input 1110 (from 2 1 0 0 1110 bodies.Hello))
        ∷ []) (server_with 8)
        ≡ to 1 1 1 0 0 bodies.Welcome
        ∷ to 1 1 1 1 0 (bodies.Granted 2 (g 4294967297) modes.X)
        ∷ to 1 1 2 3 500 (bodies.Nack why.OtherEpoch 1 2)
        ∷ to 2 1 2 0 500 (bodies.Nack why.Grace 100 0)
        ∷ to 1 1 2 1 500 bodies.Reasserted
        ∷ to 1 1 2 1 501 bodies.Reasserted
        ∷ to 1 1 2 2 501 (bodies.Queued 3 modes.S)
        ∷ to 1 1 2 0 0 (bodies.Granted 3 (g 8589934593) modes.S)
        ∷ to 2 1 2 0 1110 bodies.Welcome
        ∷ [] }
{}

/// A reassertion of another epoch; a grant number of this epoch; a conflict with the holder, the
/// least one; and when grace is over.
#[tactic(auto, unfolding(crate::specs::Script::script_open))]
pub fn a_reassertion_is_refused_in_order()
    ensures { said (
        (Restart 0)
        ∷ (Input 0 (from 1 1 1 1 0 (bodies.Reassert ((2, g 4294967297, modes.X) ∷ []))))
        ∷ (Input 0 (from 1 1 2 1 0 (bodies.Reassert ((2, g 4294967297, modes.S) ∷ (3, g 4294967298, modes.S) ∷ []))))
        ∷ (Input 0 (from 2 1 2 1 0 (bodies.Reassert ((2, g 4294967297, modes.S) ∷ []))))
        ∷ (Input 0 (from 3 1 2 1 0 (bodies.Reassert ((2, g 4294967297, modes.X) ∷ (3, g 8589934592, modes.S) ∷ []))))
        ∷ (Input 0 (from 3 1 2 1 0 (bodies.Reassert ((2, g 4294967297, modes.X) ∷ (3, g 8589934591, modes.S) ∷ []))))
        ∷ (Input 0 (from 3 1 2 1 0 (bodies.Reassert ((3, g 4294967297, modes.X) ∷ []))))
        ∷ (Input 0 (from 1 2 2 1 0 (bodies.Reassert ((4, g 4294967299, modes.X) ∷ []))))
        ∷ (Input 1010 (from 3 1 2 1 0 (bodies.Reassert [])))
        ∷ []) (server_with 8)
        ≡ to 1 1 2 1 0 (bodies.Nack why.OtherEpoch 1 2)
        ∷ to 1 1 2 1 0 bodies.Reasserted
        ∷ to 2 1 2 1 0 bodies.Reasserted
        ∷ to 3 1 2 1 0 (bodies.Nack why.NotHolder 3 8589934592)
        ∷ to 3 1 2 1 0 (bodies.Nack why.Conflict 2 1)
        ∷ to 3 1 2 1 0 (bodies.Nack why.Conflict 3 1)
        ∷ to 1 2 2 1 0 (bodies.Nack why.Conflict 2 1)
        ∷ to 3 1 2 1 0 (bodies.Nack why.GraceOver 0 1010)
        ∷ [] }
{}

/// A fresh server has no grace, and its start is reported as 0.
#[tactic(auto, unfolding(crate::specs::Script::script_open))]
pub fn grace_is_over_without_a_start()
    ensures { said (
        (Input 0 (from 1 1 1 1 0 (bodies.Reassert [])))
        ∷ []) (server_with 8)
        ≡ to 1 1 1 1 0 (bodies.Nack why.GraceOver 0 0)
        ∷ [] }
{}

/// One block: allocated; no space for a second file, nor for two pages; a removed file frees it,
/// and its next birth is 2.
#[tactic(auto, unfolding(crate::specs::Script::script_open))]
pub fn a_block_is_given_again_under_a_new_birth()
    ensures { said (
        (Input 0 (from 1 1 0 0 0 bodies.Hello))
        ∷ (Input 0 (from 1 1 1 1 0 (bodies.Acquire 2 modes.X)))
        ∷ (Input 0 (from 1 1 1 2 0 (bodies.Allocate 2 (g 4294967297) (page 0) 1)))
        ∷ (Input 0 (from 1 1 1 3 0 (bodies.Acquire 3 modes.X)))
        ∷ (Input 0 (from 1 1 1 4 0 (bodies.Allocate 3 (g 4294967298) (page 0) 1)))
        ∷ (Input 0 (from 1 1 1 5 0 (bodies.Allocate 2 (g 4294967297) (page 0) 3)))
        ∷ (Input 0 (from 1 1 1 6 0 (bodies.Name (ops.Remove 1 (codes "f2") (g 4294967297)))))
        ∷ (Input 0 (from 1 1 1 7 0 (bodies.Acquire 2 modes.S)))
        ∷ (Input 0 (from 1 1 1 8 0 (bodies.Allocate 3 (g 4294967298) (page 0) 1)))
        ∷ (Input 0 (from 1 1 1 9 0 (bodies.Released 2 (g 4294967297) modes.None)))
        ∷ []) (server_with 1)
        ≡ to 1 1 1 0 0 bodies.Welcome
        ∷ to 1 1 1 1 0 (bodies.Granted 2 (g 4294967297) modes.X)
        ∷ to 1 1 1 2 0 (bodies.Extents 2 (extent 0 1 0 1 ∷ []))
        ∷ to 1 1 1 3 0 (bodies.Granted 3 (g 4294967298) modes.X)
        ∷ to 1 1 1 4 0 (bodies.Nack why.NoSpace 0 1)
        ∷ to 1 1 1 5 0 (bodies.Nack why.NoSpace 0 2)
        ∷ noted (notes.CutDone (file 2) (page 0))
        ∷ to 1 1 1 6 0 (bodies.Named (replies.Ino 2))
        ∷ to 1 1 1 7 0 (bodies.Nack why.NoFile 2 0)
        ∷ to 1 1 1 8 0 (bodies.Extents 3 (extent 0 1 0 2 ∷ []))
        ∷ to 1 1 1 9 0 bodies.Ack
        ∷ [] }
{}

/// A cut wants the exclusive lock, and unmaps the pages from its first one on.
#[tactic(auto, unfolding(crate::specs::Script::script_open))]
pub fn a_cut_unmaps_the_pages_from_there_on()
    ensures { said (
        (Input 0 (from 1 1 0 0 0 bodies.Hello))
        ∷ (Input 0 (from 1 1 1 1 0 (bodies.Acquire 2 modes.S)))
        ∷ (Input 0 (from 1 1 1 2 0 (bodies.Allocate 2 (g 4294967297) (page 0) 1)))
        ∷ (Input 0 (from 1 1 1 3 0 (bodies.Acquire 2 modes.X)))
        ∷ (Input 0 (from 1 1 1 4 0 (bodies.Allocate 2 (g 4294967298) (page 2) 3)))
        ∷ (Input 0 (from 1 1 1 5 0 (bodies.Allocate 2 (g 4294967298) (page 1) 2)))
        ∷ (Input 0 (from 1 1 1 6 0 (bodies.Cut 2 (g 4294967298) (page 3))))
        ∷ (Input 0 (from 1 1 1 7 0 (bodies.Allocate 2 (g 4294967298) (page 0) 5)))
        ∷ (Input 0 (from 1 1 1 8 0 (bodies.Map 2 (g 4294967298) (page 4))))
        ∷ (Input 0 (from 1 1 1 9 0 (bodies.Map 2 (g 4294967298) (page 5))))
        ∷ []) (server_with 8)
        ≡ to 1 1 1 0 0 bodies.Welcome
        ∷ to 1 1 1 1 0 (bodies.Granted 2 (g 4294967297) modes.S)
        ∷ to 1 1 1 2 0 (bodies.Nack why.NotHolder 2 4294967297)
        ∷ to 1 1 1 3 0 (bodies.Granted 2 (g 4294967298) modes.X)
        ∷ to 1 1 1 4 0 (bodies.Extents 2 (extent 2 1 0 1 ∷ extent 3 1 1 2 ∷ extent 4 1 2 3 ∷ []))
        ∷ to 1 1 1 5 0 (bodies.Extents 2 (extent 1 1 3 4 ∷ extent 2 1 0 1 ∷ []))
        ∷ noted (notes.CutDone (file 2) (page 3))
        ∷ to 1 1 1 6 0 bodies.Ack
        ∷ to 1 1 1 7 0 (bodies.Extents 2 (extent 0 1 1 5 ∷ extent 1 1 3 4 ∷ extent 2 1 0 1 ∷ extent 3 1 2 6 ∷ extent 4 1 4 7 ∷ []))
        ∷ to 1 1 1 8 0 (bodies.Extents 2 (extent 4 1 4 7 ∷ []))
        ∷ to 1 1 1 9 0 (bodies.Extents 2 [])
        ∷ [] }
{}

/// The entry is there; a directory; a rename into itself; a removed directory must be empty and
/// wants grant number 0; a file wants its lock; a list above a name.
#[tactic(auto, unfolding(crate::specs::Script::script_open))]
pub fn names_are_served()
    ensures { said (
        (Input 0 (from 1 1 0 0 0 bodies.Hello))
        ∷ (Input 0 (from 1 1 1 1 0 (bodies.Name (ops.Create 1 (codes "f2")))))
        ∷ (Input 0 (from 1 1 1 2 0 (bodies.Name (ops.Mkdir 1 (codes "d")))))
        ∷ (Input 0 (from 1 1 1 3 0 (bodies.Name (ops.Mkdir 10 (codes "e")))))
        ∷ (Input 0 (from 1 1 1 4 0 (bodies.Name (ops.Rename 1 (codes "d") 11 (codes "x")))))
        ∷ (Input 0 (from 1 1 1 5 0 (bodies.Name (ops.Rename 1 (codes "d") 10 (codes "x")))))
        ∷ (Input 0 (from 1 1 1 6 0 (bodies.Name (ops.Remove 1 (codes "d") (g 0)))))
        ∷ (Input 0 (from 1 1 1 7 0 (bodies.Name (ops.Remove 10 (codes "e") (g 5)))))
        ∷ (Input 0 (from 1 1 1 8 0 (bodies.Name (ops.Remove 10 (codes "e") (g 0)))))
        ∷ (Input 0 (from 1 1 1 9 0 (bodies.Name (ops.Lookup 11 (codes "a")))))
        ∷ (Input 0 (from 1 1 1 10 0 (bodies.Name (ops.Lookup 2 (codes "a")))))
        ∷ (Input 0 (from 1 1 1 11 0 (bodies.Name (ops.Lookup 1 (codes "a/b")))))
        ∷ (Input 0 (from 1 1 1 12 0 (bodies.Name (ops.Create 10 (codes "g")))))
        ∷ (Input 0 (from 1 1 1 13 0 (bodies.Name (ops.Rename 10 (codes "g") 1 (codes "F")))))
        ∷ (Input 0 (from 1 1 1 14 0 (bodies.Name (ops.Remove 1 (codes "f3") (g 0)))))
        ∷ (Input 0 (from 1 1 1 15 0 (bodies.Name (ops.List 1 (codes "f8")))))
        ∷ (Input 0 (from 1 1 1 16 0 (bodies.Name (ops.List 1 (codes "E")))))
        ∷ (Input 0 (from 1 1 1 17 0 (bodies.Name (ops.List 99 []))))
        ∷ (Input 0 (from 1 1 1 18 0 (bodies.Name (ops.List 3 []))))
        ∷ []) (server_with 8)
        ≡ to 1 1 1 0 0 bodies.Welcome
        ∷ to 1 1 1 1 0 (bodies.Named (replies.Refused 2))
        ∷ to 1 1 1 2 0 (bodies.Named (replies.Ino 10))
        ∷ to 1 1 1 3 0 (bodies.Named (replies.Ino 11))
        ∷ to 1 1 1 4 0 (bodies.Named (replies.Refused 6))
        ∷ to 1 1 1 5 0 (bodies.Named (replies.Refused 6))
        ∷ to 1 1 1 6 0 (bodies.Named (replies.Refused 5))
        ∷ to 1 1 1 7 0 (bodies.Named (replies.Refused 4))
        ∷ to 1 1 1 8 0 (bodies.Named (replies.Ino 11))
        ∷ to 1 1 1 9 0 (bodies.Named (replies.Refused 1))
        ∷ to 1 1 1 10 0 (bodies.Named (replies.Refused 3))
        ∷ to 1 1 1 11 0 (bodies.Named (replies.Refused 7))
        ∷ to 1 1 1 12 0 (bodies.Named (replies.Ino 12))
        ∷ to 1 1 1 13 0 (bodies.Named (replies.Ino 12))
        ∷ to 1 1 1 14 0 (bodies.Nack why.NotHolder 3 0)
        ∷ to 1 1 1 15 0 (bodies.Named (replies.Listed (entry 9 false (codes "f9") ∷ [])))
        ∷ to 1 1 1 16 0 (bodies.Named (replies.Listed (entry 12 false (codes "F") ∷ entry 10 true (codes "d") ∷ entry 2 false (codes "f2")
        ∷ entry 3 false (codes "f3") ∷ entry 4 false (codes "f4") ∷ entry 5 false (codes "f5") ∷ entry 6 false (codes "f6")
        ∷ entry 7 false (codes "f7") ∷ entry 8 false (codes "f8") ∷ entry 9 false (codes "f9") ∷ [])))
        ∷ to 1 1 1 17 0 (bodies.Named (replies.Refused 1))
        ∷ to 1 1 1 18 0 (bodies.Named (replies.Refused 3))
        ∷ [] }
{}

/// Messages to another server, or not from a client, are ignored.
#[tactic(auto, unfolding(crate::specs::Script::script_open))]
pub fn messages_of_others_are_passed_over()
    ensures { said (
        (Input 0 (posted 1 32770 bodies.Hello))
        ∷ (Input 0 (posted 0 32769 bodies.Hello))
        ∷ (Input 0 (posted 17 32769 bodies.Hello))
        ∷ (Input 0 (posted 32770 32769 bodies.Hello))
        ∷ (Input 0 (posted 16 32769 bodies.Hello))
        ∷ []) (server_with 8)
        ≡ to 16 1 1 0 0 bodies.Welcome
        ∷ [] }
{}
