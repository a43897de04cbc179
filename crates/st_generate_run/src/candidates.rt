// Candidates. Each is written into the place of the event that is chosen.
ghost use Rattle.std.specs.Prelude.{◌≡◌, ◌≤◌, IfOk, OnOk, Some};
ghost use Rattle.st_generate_run.specs.Choice.{found};
ghost use Rattle.st_rules.specs.Generator as generator;

use crate::draws::Draws;
use st_base::{PageBytes, Rows};
use st_messages::{Ask, Event};
use std::alloc::{AllocError, Global};

/// Each clock advances by itself.
#[tactic(auto, unfolding(st_rules::specs::Generator::uneven_advance, st_rules::specs::Generator::state_after))]
fn uneven_advance(draws: &mut Draws, event: &mut Event, alloc: Global) -> Result<(), AllocError>
    ensures { OnOk result ((Some event.new, draws.new) ≡ generator.uneven_advance draws.old) }
{
    let first = draws.increment();
    let second = draws.increment();
    let third = draws.increment();
    let fourth = draws.increment();
    let fifth = draws.increment();
    let steps = vec![in alloc; first, second, third, fourth, fifth]?;
    *event = Event::Advance(Rows::from_vec(steps));
    Ok(())
}

#[tactic(auto, unfolding(st_rules::specs::Generator::tick))]
fn tick(draws: &mut Draws, event: &mut Event)
    ensures { (Some event.new, draws.new) ≡ generator.tick draws.old }
{
    *event = Event::Tick(draws.node());
}

/// A client is asked to write a page of one byte, to read a page or to sync a file.
#[tactic(auto, unfolding(st_rules::specs::Generator::candidate_of, st_rules::specs::Generator::ask_write, st_rules::specs::Generator::ask_read, st_rules::specs::Generator::ask_sync, st_rules::specs::Generator::state_after))]
fn ask(draws: &mut Draws, event: &mut Event, kind: u64)
    requires least { 4 ≤ kind }
    requires most { kind ≤ 6 }
    ensures { (Some event.new, draws.new) ≡ generator.candidate_of 0 0 kind draws.old }
{
    let client = draws.client();
    let file = draws.file();
    match kind {
        4 => {
            let page = draws.page();
            let byte = draws.byte();
            let ask = Ask::Write(file, page, PageBytes::filled(byte));
            *event = Event::App { client, ask };
        }
        5 => {
            let page = draws.page();
            let ask = Ask::Read(file, page);
            *event = Event::App { client, ask };
        }
        _ => {
            let ask = Ask::Sync(file);
            *event = Event::App { client, ask };
        }
    }
}

/// One of the last 12 messages is delivered. It returns false if none was sent.
#[tactic(auto, unfolding(st_rules::specs::Generator::deliver))]
fn deliver(draws: &mut Draws, event: &mut Event, sent: u64) -> bool
    ensures { (found result event.new, draws.new) ≡ generator.deliver sent draws.old }
{
    match draws.recent(sent, 12) {
        None => false,
        Some(k) => {
            *event = Event::Deliver(k);
            true
        }
    }
}

/// One of the last 6 commands has its effect, is reported as a success, or is reported, one in
/// eight as a failure. It returns false if none was submitted.
#[tactic(auto, unfolding(st_rules::specs::Generator::candidate_of, st_rules::specs::Generator::effect, st_rules::specs::Generator::report_success, st_rules::specs::Generator::report, st_rules::specs::Generator::outcome))]
fn command(draws: &mut Draws, event: &mut Event, submitted: u64, kind: u64) -> bool
    requires least { 11 ≤ kind }
    requires most { kind ≤ 13 }
    ensures { (found result event.new, draws.new) ≡ generator.candidate_of 0 submitted kind draws.old }
{
    match draws.recent(submitted, 6) {
        None => false,
        Some(k) => match kind {
            11 => {
                *event = Event::Effect(k);
                true
            }
            12 => {
                *event = Event::Report { k, ok: true };
                true
            }
            _ => {
                let ok = draws.draw(8) != 0;
                *event = Event::Report { k, ok };
                true
            }
        },
    }
}

/// A loss, a cut or a heal. It returns false if a message should be lost and none was sent.
#[tactic(auto, unfolding(st_rules::specs::Generator::network, st_rules::specs::Generator::lose, st_rules::specs::Generator::cut, st_rules::specs::Generator::heal, st_rules::specs::Generator::state_after))]
fn network(draws: &mut Draws, event: &mut Event, sent: u64) -> bool
    ensures { (found result event.new, draws.new) ≡ generator.network sent draws.old }
{
    match draws.draw(3) {
        0 => match draws.recent(sent, 12) {
            None => false,
            Some(k) => {
                *event = Event::Lose(k);
                true
            }
        },
        1 => {
            let from = draws.node();
            let to = draws.node();
            *event = Event::Cut(from, to);
            true
        }
        _ => {
            let from = draws.node();
            let to = draws.node();
            *event = Event::Heal(from, to);
            true
        }
    }
}

/// A crash, a start or a tick.
#[tactic(auto, unfolding(st_rules::specs::Generator::crash_or_start, st_rules::specs::Generator::crash, st_rules::specs::Generator::start))]
fn crash_or_start(draws: &mut Draws, event: &mut Event)
    ensures { (Some event.new, draws.new) ≡ generator.crash_or_start draws.old }
{
    match draws.draw(20) {
        0 => *event = Event::Crash(draws.node()),
        1..=9 => *event = Event::Start(draws.node()),
        _ => tick(draws, event),
    }
}

/// Draws a candidate for an event, if `sent` messages were sent and `submitted` commands
/// submitted, and writes it into `event`. It returns false if there is none; nothing is promised
/// about `event` then. Only an advance takes memory.
#[tactic(auto, unfolding(st_rules::specs::Generator::candidate, st_rules::specs::Generator::candidate_of, st_rules::specs::Generator::even_advance))]
pub fn candidate(
    draws: &mut Draws,
    event: &mut Event,
    alloc: Global,
    sent: u64,
    submitted: u64,
) -> Result<bool, AllocError>
    ensures { IfOk result (λ b. (found b event.new, draws.new) ≡ generator.candidate sent submitted draws.old) }
{
    let kind = draws.draw(16);
    match kind {
        // All clocks advance alike.
        0 => {
            let step = 1 + draws.draw(60);
            let steps = vec![in alloc; step, step, step, step, step]?;
            *event = Event::Advance(Rows::from_vec(steps));
            Ok(true)
        }
        1 => {
            uneven_advance(draws, event, alloc)?;
            Ok(true)
        }
        2 | 3 => {
            tick(draws, event);
            Ok(true)
        }
        4..=6 => {
            ask(draws, event, kind);
            Ok(true)
        }
        7..=10 => Ok(deliver(draws, event, sent)),
        11..=13 => Ok(command(draws, event, submitted, kind)),
        14 => Ok(network(draws, event, sent)),
        _ => {
            crash_or_start(draws, event);
            Ok(true)
        }
    }
}
