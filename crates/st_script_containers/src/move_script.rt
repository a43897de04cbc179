// The script of containers that move: its state, and what each event does and answers.
ghost use Rattle.std.specs.Prelude.{◌≡◌, ◌++◌, ◌∷◌, [], OnOk, ⊤, IfSome, flat_map, map};
ghost use Rattle.std.specs.Io.KnownBytes.{IsAtEnd};
ghost use Rattle.st_move.specs.Law.{NoUpdateIsLost};
ghost use Rattle.st_rules.specs.Report.{field};
ghost use Rattle.st_script.specs.Ends.{HasCauses, Reports};
ghost use Rattle.st_script_containers.specs.MoveScripts as scripts;
ghost use Rattle.st_script.specs.Scripts.{answer_lines, script_of};

use crate::move_event::{counts_of, move_event};
use st_base::ServerId;
use st_link::{Sink, Source};
use st_move::{
    MoveAnswer, MoveEvent, MoveMessage, MoveNetwork, MoveRefusal, SentMove, Update, Updates,
    no_update_is_lost,
};
use st_report::{put_field, put_number, put_text};
use st_schedule::ReadError;
use st_script::{Script, ScriptFault, begin_answer, end_answer, run_headed};
use std::alloc::{AllocError, Global};

/// A script of servers between which containers move, by its network.
#[derive(Drop)]
pub struct MoveScript {
    network: MoveNetwork,
}

/// Appends a text and a number after a space.
fn put_with(text: &mut Vec<u8>, word: &[u8], number: u64) -> Result<(), AllocError>
    ensures { OnOk result (text.new.items ≡ text.old.items ++ (word.now ++ field number)) }
{
    put_text(text, word)?;
    put_field(text, number)
}

/// Appends a server after a space.
fn put_server(text: &mut Vec<u8>, s: ServerId) -> Result<(), AllocError>
    ensures { OnOk result (text.new.items ≡ text.old.items ++ scripts.server_text s) }
{
    put_text(text, b" s")?;
    put_number(text, u64::from(s.0))
}

/// Appends a refusal.
#[tactic(auto, unfolding(crate::specs::MoveScripts::refusal))]
fn put_why(text: &mut Vec<u8>, refusal: MoveRefusal) -> Result<(), AllocError>
    ensures { OnOk result (text.new.items ≡ text.old.items ++ scripts.refusal refusal) }
{
    match refusal {
        MoveRefusal::NoContainer(c) => put_with(text, b" nocontainer", u64::from(c)),
        MoveRefusal::Absent => put_text(text, b" absent"),
        MoveRefusal::Leaving(to) => put_with(text, b" leaving", u64::from(to.0)),
        MoveRefusal::Redirect(to, version) => {
            put_with(text, b" redirect", u64::from(to.0))?;
            put_field(text, version)
        }
        MoveRefusal::Full(bytes) => put_with(text, b" full", bytes),
        MoveRefusal::Same => put_text(text, b" same"),
        MoveRefusal::Memory => Ok(()),
    }
}

/// Appends a message that is sent, under its number.
#[tactic(auto, unfolding(crate::specs::MoveScripts::message))]
fn put_sent(text: &mut Vec<u8>, k: u64, sent: &SentMove) -> Result<(), AllocError>
    ensures { OnOk result (text.new.items ≡ text.old.items ++ scripts.sent k sent.now) }
{
    put_with(text, b" send", k)?;
    put_server(text, sent.from)?;
    put_server(text, sent.to)?;
    match &sent.message {
        MoveMessage::Image(c, version, updates) => {
            put_with(text, b" image", u64::from(*c))?;
            put_field(text, *version)?;
            put_field(text, updates.len() as u64)
        }
        MoveMessage::Taken(c, version) => {
            put_with(text, b" taken", u64::from(*c))?;
            put_field(text, *version)
        }
    }
}

/// Appends an update after a space.
fn put_update(text: &mut Vec<u8>, update: &Update) -> Result<(), AllocError>
    ensures { OnOk result (text.new.items ≡ text.old.items ++ scripts.word update.now) }
{
    put_text(text, b" ")?;
    put_text(text, update.as_slice())
}

/// Appends updates, each after a space.
fn put_updates(text: &mut Vec<u8>, updates: &Updates) -> Result<(), AllocError>
    ensures { OnOk result (text.new.items ≡ text.old.items ++ flat_map scripts.word updates.now) }
{
    for i in 0..updates.len() {
        put_update(text, updates.get(i))?;
    }
    Ok(())
}

/// Appends the answer to a list.
fn put_listed(text: &mut Vec<u8>, updates: &Updates) -> Result<(), AllocError>
    ensures { OnOk result (text.new.items ≡ text.old.items ++ scripts.listed updates.now) }
{
    put_text(text, b" list")?;
    put_updates(text, updates)
}

/// Appends an answer.
#[tactic(auto, unfolding(crate::specs::MoveScripts::answer))]
fn put_answer(text: &mut Vec<u8>, answer: &MoveAnswer) -> Result<(), AllocError>
    ensures { OnOk result (text.new.items ≡ text.old.items ++ scripts.answer answer.now) }
{
    match answer {
        MoveAnswer::Done => put_text(text, b" ok"),
        MoveAnswer::Counted(updates) => put_with(text, b" ok", u64::from(*updates)),
        MoveAnswer::Listed(updates) => put_listed(text, updates),
        MoveAnswer::Refused(why) => put_why(text, *why),
        MoveAnswer::NoServer(s) => put_with(text, b" noserver", u64::from(s.0)),
        MoveAnswer::NoLock => put_text(text, b" nolock"),
        MoveAnswer::NoMessage(k) => put_with(text, b" nomessage", u64::from(*k)),
        MoveAnswer::LostMessage(k) => put_with(text, b" lostmessage", u64::from(*k)),
        MoveAnswer::Sends(k, sent) => put_sent(text, *k, sent),
    }
}

/// Appends the line of an answer.
fn put_line(text: &mut Vec<u8>, number: u64, answer: &MoveAnswer) -> Result<(), AllocError>
    ensures { OnOk result (text.new.items ≡ text.old.items ++ answer_lines number (scripts.answer answer.now ∷ [])) }
{
    begin_answer(text, number)?;
    put_answer(text, answer)?;
    end_answer(text)
}

/// Appends the lines of the answers to an event.
fn put_lines(text: &mut Vec<u8>, number: u64, answers: &[MoveAnswer]) -> Result<(), AllocError>
    ensures { OnOk result (text.new.items ≡ text.old.items ++ answer_lines number (map scripts.answer answers.now)) }
{
    for answer in answers {
        put_line(text, number, answer)?;
    }
    Ok(())
}

/// Appends the last line: the number of events, and of messages that were sent.
fn put_last(text: &mut Vec<u8>, events: u64, sent: u64) -> Result<(), AllocError>
    ensures { OnOk result (text.new.items ≡ text.old.items ++ scripts.last_text events sent) }
{
    put_with(text, b"end events", events)?;
    put_with(text, b" sent", sent)?;
    put_text(text, b"\n")
}

impl Script for MoveScript {
    ghost use Rattle.std.specs.Prelude.{◌≡◌};
    ghost use Rattle.st_move.specs.Network as shown;
    ghost use Rattle.st_script_containers.specs.MoveScripts.{head, move_rules};

    type Event = MoveEvent;

    ghost State = { shown.MoveNetwork };

    ghost head = { head };

    ghost rules = { move_rules };

    ghost stands = { λ n s x. (s ≡ x.network) × (s.events ≡ n) };

    fn begin(alloc: Global, line: &[u8]) -> Result<MoveScript, ReadError> {
        let (servers, containers) = counts_of(line)?;
        let network = MoveNetwork::new(alloc, servers, containers)?;
        Ok(MoveScript { network })
    }

    fn event(alloc: Global, line: &[u8]) -> Result<MoveEvent, ReadError> {
        move_event(alloc, line)
    }

    fn play(
        &mut self,
        _alloc: Global,
        done: u64,
        event: MoveEvent,
        text: &mut Vec<u8>,
    ) -> Result<(), AllocError> {
        // A script that is played from its beginning has played as many events as came before.
        if self.network.event_count() != done {
            return Err(AllocError);
        }
        let answers = self.network.happens(&event)?;
        put_lines(text, done + 1, answers.as_slice())
    }

    fn finish(&self, events: u64, text: &mut Vec<u8>) -> Result<(), AllocError> {
        put_last(text, events, self.network.sent_count())
    }
}

/// Runs a script of containers that move: a first line `move SERVERS CONTAINERS`, events
/// `put S C TEXT`, `list S C`, `lock S C`, `unlock S C`, `order S C TO`, `tick S`, `deliver K` and
/// `lose K`, and `end`. `docs/PROTOCOL.md`, "Scripts", has their answers. It returns what
/// `run_headed` does.
pub fn move_containers<I: Source, O: Sink>(
    alloc: Global,
    input: &mut I,
    out: &mut O,
) -> Result<(), ScriptFault>
    ensures report { IfSome (I.left input.old) (λ bytes.
        Reports (λ t. ⊤) result (O.written out.old) (O.written out.new) (script_of scripts.head scripts.move_rules bytes)) }
    ensures through { OnOk result (IsAtEnd (I.left input.new)) }
    ensures causes { HasCauses result (I.faults input.old) (I.faults input.new) (O.faults out.old) (O.faults out.new) }
    // Whatever the lines say, no accepted update is lost.
    ensures kept { NoUpdateIsLost }
{
    no_update_is_lost();
    run_headed::<MoveScript, I, O>(alloc, input, out)
}
