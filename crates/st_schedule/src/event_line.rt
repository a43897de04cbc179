// Events from the words of their lines; asks have a file of their own.
ghost use Rattle.std.specs.Prelude.{◌≡◌};
ghost use Rattle.st_schedule_words.specs.Words.{split, words_behind};
ghost use Rattle.st_schedule.specs.Grammar.{least_step as least_step_of};
ghost use Rattle.st_schedule.specs.Parser.{Gives};
ghost use Rattle.st_schedule.specs.Parser as reading;

use crate::ask_line::app_at;
use crate::fault::ReadError;
use crate::next_word::{ends, node_at, number_at, result_at, unknown_word};
use crate::verb::{Verb, verb_of};
use st_base::NodeId;
use st_messages::{Event, Steps};
use st_schedule_words::{MOST_NUMBER, is, split_word};
use std::alloc::Global;

/// A line with one increment gives it to every node; a line with more words has one increment for
/// each node.
#[tactic(auto, using(crate::proofs::Increments::more_words), unfolding(crate::specs::Parser::steps_of))]
fn steps_of<'a>(
    alloc: Global,
    least: u64,
    nodes: usize,
    step: u64,
    all: &'a [u8],
    rest: &'a [u8],
) -> Result<(Vec<u64>, &'a [u8]), ReadError>
    ensures { Gives (λ x. (x.0.items, words_behind x.1.now)) result (reading.steps_of least nodes step (words_behind all.now) (words_behind rest.now)) }
{
    if rest.is_empty() {
        let steps = vec![in alloc; step; nodes]?;
        return Ok((steps, rest));
    }
    let mut steps = Vec::new(alloc);
    let mut after = all;
    for _ in 0..nodes {
        let (step, behind) = number_at(least, MOST_NUMBER, after)?;
        steps.push(step)?;
        after = behind;
    }
    Ok((steps, after))
}

#[tactic(auto, unfolding(crate::specs::Parser::link_at))]
fn link_at(rest: &[u8]) -> Result<((NodeId, NodeId), &[u8]), ReadError>
    ensures { Gives (λ x. (x.0, words_behind x.1.now)) result (reading.link_at (words_behind rest.now)) }
{
    let (from, rest) = node_at(rest)?;
    let (to, rest) = node_at(rest)?;
    Ok(((from, to), rest))
}

/// The event of a line whose first word is this verb. Under the first form the least increment is
/// 1, under the second 0.
#[tactic(auto, unfolding(crate::specs::Parser::event_at, crate::specs::Parser::advance_at, crate::specs::Parser::tick_at, crate::specs::Parser::deliver_at, crate::specs::Parser::lose_at, crate::specs::Parser::cut_link_at, crate::specs::Parser::heal_at, crate::specs::Parser::effect_at, crate::specs::Parser::report_at, crate::specs::Parser::crash_at, crate::specs::Parser::start_at))]
fn event_at(
    alloc: Global,
    form: u8,
    nodes: usize,
    verb: Verb,
    rest: &[u8],
) -> Result<(Event, &[u8]), ReadError>
    ensures { Gives (λ x. (x.0, words_behind x.1.now)) result (reading.event_at form nodes verb (words_behind rest.now)) }
{
    match verb {
        Verb::Adv => {
            let least = if form == 1 { 1 } else { 0 };
            let (step, after) = number_at(least, MOST_NUMBER, rest)?;
            let (steps, rest) = steps_of(alloc, least, nodes, step, rest, after)?;
            Ok((Event::Advance(Steps::from_vec(steps)), rest))
        }
        Verb::Tick => {
            let (node, rest) = node_at(rest)?;
            Ok((Event::Tick(node), rest))
        }
        Verb::App => app_at(alloc, form, rest),
        Verb::Deliver => {
            let (k, rest) = number_at(1, MOST_NUMBER, rest)?;
            Ok((Event::Deliver(k), rest))
        }
        Verb::Lose => {
            let (k, rest) = number_at(1, MOST_NUMBER, rest)?;
            Ok((Event::Lose(k), rest))
        }
        Verb::Cut => {
            let ((from, to), rest) = link_at(rest)?;
            Ok((Event::Cut(from, to), rest))
        }
        Verb::Heal => {
            let ((from, to), rest) = link_at(rest)?;
            Ok((Event::Heal(from, to), rest))
        }
        Verb::Effect => {
            let (k, rest) = number_at(1, MOST_NUMBER, rest)?;
            Ok((Event::Effect(k), rest))
        }
        Verb::Report => {
            let (k, rest) = number_at(1, MOST_NUMBER, rest)?;
            let (ok, rest) = result_at(rest)?;
            Ok((Event::Report { k, ok }, rest))
        }
        Verb::Crash => {
            let (node, rest) = node_at(rest)?;
            Ok((Event::Crash(node), rest))
        }
        Verb::Start => {
            let (node, rest) = node_at(rest)?;
            Ok((Event::Start(node), rest))
        }
    }
}

/// The event that a line spells, or none if it is the line `end`.
#[tactic(auto, unfolding(crate::specs::Parser::line_event, crate::specs::Parser::end_of, crate::specs::Parser::event_of, crate::specs::Parser::verb_in))]
pub(crate) fn line_event(
    alloc: Global,
    form: u8,
    nodes: usize,
    line: &[u8],
) -> Result<Option<Event>, ReadError>
    ensures { Gives (λ x. x) result (reading.line_event form nodes (split line.now)) }
{
    let (word, rest) = split_word(line);
    if is(word, b"end") {
        ends(rest)?;
        return Ok(None);
    }
    match verb_of(word) {
        Some(verb) => {
            let (event, rest) = event_at(alloc, form, nodes, verb, rest)?;
            ends(rest)?;
            Ok(Some(event))
        }
        None => Err(unknown_word(line)),
    }
}
