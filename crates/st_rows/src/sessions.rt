ghost use Rattle.std.specs.Prelude.{◌≡◌, ◌∷◌, [], true, false, Some, None};
ghost use Rattle.st_messages.specs.declared.message.Body.TheVariants.{Ack, Reasserted};
ghost use Rattle.st_rules.specs.declared.sessions.Hello.TheVariants as hellos;
ghost use Rattle.st_rules.specs.declared.sessions.Taken.TheVariants as takes;
ghost use Rattle.st_rules.specs.Sessions.{end, hello, reasserted, store, take};
ghost use Rattle.st_rows.specs.Tables.{living, past, sessions};
ghost use Rattle.st_rows.specs.Words.{c, epoch, life};

/// Each case of a greeting.
#[tactic(auto, unfolding(crate::specs::Tables::tables_open))]
pub fn greetings_have_cases()
    ensures first { hello (sessions []) (c 1) (life 3) false ≡ record { sessions = sessions (living 1 3 0 None ∷ []); hello = hellos.Welcome } }
    ensures lower { hello (sessions (living 1 3 2 None ∷ [])) (c 1) (life 2) true
        ≡ record { sessions = sessions (living 1 3 2 None ∷ []); hello = hellos.Old } }
    ensures same { hello (sessions (living 1 3 2 None ∷ [])) (c 1) (life 3) true
        ≡ record { sessions = sessions (living 1 3 2 None ∷ []); hello = hellos.Welcome } }
    ensures waits { hello (sessions (living 1 3 2 None ∷ [])) (c 1) (life 4) true
        ≡ record { sessions = sessions (living 1 3 2 None ∷ []); hello = hellos.Wait } }
    ensures replaces { hello (sessions (living 1 3 2 None ∷ [])) (c 1) (life 4) false
        ≡ record { sessions = sessions (living 1 4 0 None ∷ []); hello = hellos.Replaced } }
    ensures ended_same { hello (sessions (past 1 3 ∷ [])) (c 1) (life 3) false ≡ record { sessions = sessions (past 1 3 ∷ []); hello = hellos.Old } }
    ensures ended_higher { hello (sessions (past 1 3 ∷ [])) (c 1) (life 4) false
        ≡ record { sessions = sessions (living 1 4 0 None ∷ []); hello = hellos.Welcome } }
{}

/// Each case of a request.
#[tactic(auto, unfolding(crate::specs::Tables::tables_open))]
pub fn requests_have_cases()
    ensures other_epoch { take (sessions (living 1 3 2 (Some Ack) ∷ [])) (c 1) (life 3) (epoch 2) 3 ≡ takes.OtherEpoch }
    ensures none { take (sessions []) (c 1) (life 3) (epoch 1) 3 ≡ takes.NoSession }
    ensures life_above { take (sessions (past 1 3 ∷ [])) (c 1) (life 4) (epoch 1) 1 ≡ takes.NoSession }
    ensures life_below { take (sessions (living 1 3 2 (Some Ack) ∷ [])) (c 1) (life 2) (epoch 1) 3 ≡ takes.Stale }
    ensures ended { take (sessions (past 1 3 ∷ [])) (c 1) (life 3) (epoch 1) 1 ≡ takes.Stale }
    ensures below { take (sessions (living 1 3 2 (Some Ack) ∷ [])) (c 1) (life 3) (epoch 1) 1 ≡ takes.Stale }
    ensures again { take (sessions (living 1 3 2 (Some Ack) ∷ [])) (c 1) (life 3) (epoch 1) 2 ≡ takes.Again Ack }
    ensures fresh { take (sessions (living 1 3 2 (Some Ack) ∷ [])) (c 1) (life 3) (epoch 1) 3 ≡ takes.Fresh }
    ensures above { take (sessions (living 1 3 2 (Some Ack) ∷ [])) (c 1) (life 3) (epoch 1) 4 ≡ takes.OutOfOrder }
{}

/// Replies are kept, a reassertion counts as the first request, and a theft ends a session.
#[tactic(auto, unfolding(crate::specs::Tables::tables_open))]
pub fn sessions_change()
    ensures kept { store (sessions (living 1 3 2 None ∷ living 2 3 2 None ∷ [])) (c 2) 3 Ack ≡ sessions (living 1 3 2 None ∷ living 2 3 3 (Some Ack) ∷ []) }
    ensures reasserted { reasserted (sessions (past 1 3 ∷ living 2 3 2 None ∷ [])) (c 1) (life 4)
        ≡ sessions (living 1 4 1 (Some Reasserted) ∷ living 2 3 2 None ∷ []) }
    ensures ended { end (sessions (living 1 3 2 None ∷ [])) (c 1) ≡ sessions (past 1 3 ∷ []) }
{}
