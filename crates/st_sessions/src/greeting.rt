// What becomes of a greeting.
ghost use Rattle.std.specs.Prelude.{◌≡◌, true, false};
ghost use Rattle.std.specs.Option.{option_copied};
ghost use Rattle.st_base.specs.declared.ids.ClientId.{ClientId};
ghost use Rattle.st_rules.specs.Sessions as sessions;
ghost use Rattle.st_rules.specs.Sessions.{Sessions};
ghost use Rattle.st_sessions.specs.Calls.{judged};

use st_base::Life;
use st_rules::{Hello, Session, SessionState};

/// What becomes of a greeting, and whether a new session begins with it.
#[derive(Clone, Copy)]
pub struct Judgement {
    pub hello: Hello,
    pub begins: bool,
}

const fn stays(hello: Hello) -> Judgement
    ensures { result ≡ record { hello = hello; begins = false } }
{
    Judgement {
        hello,
        begins: false,
    }
}

const fn begins(hello: Hello) -> Judgement
    ensures { result ≡ record { hello = hello; begins = true } }
{
    Judgement {
        hello,
        begins: true,
    }
}

/// Whether a session serves requests.
pub fn is_live(session: &Session) -> bool
    ensures { result ≡ sessions.is_live session.now }
{
    match session.state {
        SessionState::Live { .. } => true,
        SessionState::Ended => false,
    }
}

/// A greeting against a session, which is living or ended. `rows` tells whether the client has
/// locks.
#[tactic(auto, unfolding(st_rules::specs::Sessions::sessions_open))]
fn judge_by(session: &Session, life: Life, rows: bool) -> Judgement
    ensures { (t : Sessions) (c : ClientId) → sessions.hello_by t c life rows session.now ≡ judged result t c life }
{
    if !is_live(session) {
        if life.0 <= session.life.0 {
            return stays(Hello::Old);
        }
        return begins(Hello::Welcome);
    }
    if life.0 < session.life.0 {
        return stays(Hello::Old);
    }
    if life.0 == session.life.0 {
        return stays(Hello::Welcome);
    }
    if rows {
        return stays(Hello::Wait);
    }
    begins(Hello::Replaced)
}

/// A greeting of a client with this session, or without one.
#[tactic(auto, unfolding(st_rules::specs::Sessions::hello_at))]
pub fn judge(session: Option<&Session>, life: Life, rows: bool) -> Judgement
    ensures { (t : Sessions) (c : ClientId) → sessions.hello_at t c life rows (option_copied session.entry) ≡ judged result t c life }
{
    match session {
        Some(session) => judge_by(session, life, rows),
        None => begins(Hello::Welcome),
    }
}
