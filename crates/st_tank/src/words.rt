// The words of a call.
ghost use Rattle.std.specs.Prelude.{◌≡◌, ◌≤◌, IfSome, map, string_bytes};
ghost use Rattle.st_schedule_words.specs.Words as words;
ghost use Rattle.st_tank.specs.NodeWords as services;
ghost use Rattle.st_tank.specs.Words as words_of;
ghost use Rattle.st_tank.specs.Words.{IsInRange};

use crate::node_words::node_of;
use st_base::NodeId;
use st_schedule_words::{in_range, is_number};

const REPLAY: &[u8] = b"replay";

const JOURNAL: &[u8] = b"journal";

const MOVE: &[u8] = b"move";

const SNAP: &[u8] = b"snap";

const SHARED: &[u8] = b"shared";

const GENERATE: &[u8] = b"generate";

const WORK: &[u8] = b"work";

/// The most events of a schedule.
const MOST_EVENTS: u64 = 100_000;

/// The commands that play a script.
#[derive(Clone, Copy, Debug, PartialEq, Eq)]
pub(crate) enum Command {
    Journal,
    Move,
    Snap,
    Shared,
}

/// What a call should do: replay a schedule, play a script, write the text or the counts of the
/// schedule that a length and a seed give, or serve a node.
#[derive(Clone, Copy, Debug, PartialEq, Eq)]
pub(crate) enum Job {
    Replay,
    Script(Command),
    Generate(u32, u64),
    Work(u32, u64),
    Node(NodeId),
}

/// The value of a word of digits without a leading zero, if it is at most `most`.
fn number(most: u64, word: &[u8]) -> Option<u64>
    ensures value { result ≡ words.plain 0 most word.now }
    ensures range { IfSome result (λ n. (0 ≤ n) × (n ≤ most)) }
{
    if is_number(word) {
        in_range(0, most, word)
    } else {
        None
    }
}

/// What a word asks for by itself: a replay, or a script.
fn alone(word: &[u8]) -> Option<Job>
    ensures exact { result ≡ words_of.alone word.now }
    ensures range { IfSome result IsInRange }
{
    if word == REPLAY {
        Some(Job::Replay)
    } else if word == JOURNAL {
        Some(Job::Script(Command::Journal))
    } else if word == MOVE {
        Some(Job::Script(Command::Move))
    } else if word == SNAP {
        Some(Job::Script(Command::Snap))
    } else if word == SHARED {
        Some(Job::Script(Command::Shared))
    } else {
        None
    }
}

/// What a word asks for with a length and a seed.
fn numbered(word: &[u8], n: &[u8], seed: &[u8]) -> Option<Job>
    ensures exact { result ≡ words_of.numbered word.now (words_of.length_of n.now) (words_of.seed_of seed.now) }
    ensures range { IfSome result IsInRange }
{
    let Some(n) = number(MOST_EVENTS, n) else {
        return None;
    };
    let Some(seed) = number(u64::MAX, seed) else {
        return None;
    };
    if word == GENERATE {
        Some(Job::Generate(n as u32, seed))
    } else if word == WORK {
        Some(Job::Work(n as u32, seed))
    } else {
        None
    }
}

fn served(words: &[String]) -> Option<Job>
    ensures exact { result ≡ words_of.served (services.node_of (map string_bytes words.now)) }
    ensures range { IfSome result IsInRange }
{
    match node_of(words) {
        Some(id) => Some(Job::Node(id)),
        None => None,
    }
}

/// What these words ask for, if they are right.
pub(crate) fn job_of(words: &[String]) -> Option<Job>
    ensures exact { result ≡ words_of.job_in (map string_bytes words.now) }
    ensures range { IfSome result IsInRange }
{
    match words {
        [word] => alone(word.as_bytes()),
        [word, n, seed] => numbered(word.as_bytes(), n.as_bytes(), seed.as_bytes()),
        [_, _, _, _] => served(words),
        _ => None,
    }
}
