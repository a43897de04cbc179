// The script of a shared file: its state, and what each event does and answers.
ghost use Rattle.std.specs.Prelude.{◌≡◌, ◌++◌, OnOk, IfSome, IfNone, ⊤};
ghost use Rattle.std.specs.Io.KnownBytes.{IsAtEnd};
ghost use Rattle.st_base.specs.Page.{filled};
ghost use Rattle.st_locks.specs.DemandStarts.{IsClient};
ghost use Rattle.st_script.specs.Ends.{HasCauses, Reports};
ghost use Rattle.st_script.specs.Scripts.{answer_lines, script_of};
ghost use Rattle.st_script_shared.specs.SharedCalls.{Performs, done_answer, lacks, number_answer};
ghost use Rattle.st_script_shared.specs.SharedCalls as calls;
ghost use Rattle.st_script_shared.specs.SharedScripts as scripts;
ghost use Rattle.st_script_shared.specs.SharedScripts.{EveryScriptIsRight};
ghost use Rattle.st_shared.specs.History as history;

use crate::shared_answers::{absent_line, done_line, effect_line, number_line, told_line};
use crate::shared_event::{ClientAct, SharedEvent, counts_of, shared_event};
use st_base::{ClientId, PageBytes, PageNo};
use st_link::{Sink, Source};
use st_report::{put_field, put_text};
use st_schedule::ReadError;
use st_script::{Script, ScriptFault, run_headed};
use st_shared::{SharedFile, SharedRefusal, every_history_is_right};
use std::alloc::{AllocError, Global};

/// A script of a shared file, by how many clients there are, and the file.
#[derive(Drop)]
pub struct SharedScript {
    clients: u16,
    file: SharedFile,
}

/// Appends the last line: the number of events, and of commands.
fn put_last(text: &mut Vec<u8>, events: u64, commands: u64) -> Result<(), AllocError>
    ensures { OnOk result (text.new.items ≡ text.old.items ++ scripts.last_text events commands) }
{
    put_text(text, b"end events")?;
    put_field(text, events)?;
    put_text(text, b" commands")?;
    put_field(text, commands)?;
    put_text(text, b"\n")
}

fn is_memory(refusal: SharedRefusal) -> bool
    ensures { result ≡ calls.is_memory refusal }
{
    match refusal {
        SharedRefusal::Memory => true,
        _ => false,
    }
}

fn lacks_done(answer: Result<(), SharedRefusal>) -> bool
    ensures { result ≡ lacks answer }
{
    match answer {
        Ok(()) => false,
        Err(refusal) => is_memory(refusal),
    }
}

fn lacks_number(answer: Result<u64, SharedRefusal>) -> bool
    ensures { result ≡ lacks answer }
{
    match answer {
        Ok(_) => false,
        Err(refusal) => is_memory(refusal),
    }
}

fn enter(file: &mut SharedFile, client: ClientId) -> Result<(), SharedRefusal>
    ensures { Performs file.old file.new (history.Enter client) (lacks result) (done_answer result) }
{
    file.enter(client)
}

fn leave(file: &mut SharedFile, client: ClientId) -> Result<(), SharedRefusal>
    ensures { Performs file.old file.new (history.Leave client) (lacks result) (done_answer result) }
{
    file.leave(client)
}

fn lock(file: &mut SharedFile, client: ClientId) -> Result<(), SharedRefusal>
    requires client { IsClient client }
    ensures { Performs file.old file.new (history.Lock client) (lacks result) (done_answer result) }
{
    file.lock(client)
}

fn unlock(file: &mut SharedFile, client: ClientId) -> Result<(), SharedRefusal>
    ensures { Performs file.old file.new (history.Unlock client) (lacks result) (done_answer result) }
{
    file.unlock(client)
}

fn crash(file: &mut SharedFile, client: ClientId) -> Result<(), SharedRefusal>
    ensures { Performs file.old file.new (history.Crash client) (lacks result) (done_answer result) }
{
    file.crash(client)
}

fn expire(file: &mut SharedFile, client: ClientId) -> Result<(), SharedRefusal>
    ensures { Performs file.old file.new (history.Expire client) (lacks result) (done_answer result) }
{
    file.expire(client)
}

/// What a client does that isn't a command.
fn act(file: &mut SharedFile, what: ClientAct, client: ClientId) -> Result<(), SharedRefusal>
    requires client { IsClient client }
    ensures { Performs file.old file.new (scripts.act_call what client) (lacks result) (done_answer result) }
{
    match what {
        ClientAct::Enter => enter(file, client),
        ClientAct::Leave => leave(file, client),
        ClientAct::Lock => lock(file, client),
        ClientAct::Unlock => unlock(file, client),
        ClientAct::Crash => crash(file, client),
        ClientAct::Expire => expire(file, client),
    }
}

fn write(
    file: &mut SharedFile,
    client: ClientId,
    page: PageNo,
    bytes: &PageBytes,
) -> Result<u64, SharedRefusal>
    ensures { Performs file.old file.new (history.Write client page bytes.now) (lacks result) (number_answer result) }
{
    file.write(client, page, bytes)
}

fn read(file: &mut SharedFile, client: ClientId, page: PageNo) -> Result<u64, SharedRefusal>
    ensures { Performs file.old file.new (history.Read client page) (lacks result) (number_answer result) }
{
    file.read(client, page)
}

fn effect(file: &mut SharedFile, n: u64) -> Result<(), SharedRefusal>
    ensures { Performs file.old file.new (history.Effect n) (lacks result) (done_answer result) }
{
    file.effect(n)
}

fn play_act(
    file: &mut SharedFile,
    number: u64,
    what: ClientAct,
    client: ClientId,
    text: &mut Vec<u8>,
) -> Result<(), AllocError>
    requires client { IsClient client }
    ensures text { OnOk result (text.new.items ≡ text.old.items ++ answer_lines number (calls.printed_on file.old (scripts.act_call what client))) }
    ensures stands { OnOk result (file.new ≡ calls.left_by file.old (scripts.act_call what client)) }
{
    let answer = act(file, what, client);
    if lacks_done(answer) {
        return Err(AllocError);
    }
    done_line(text, number, answer)
}

fn play_bytes(
    file: &mut SharedFile,
    number: u64,
    client: ClientId,
    page: PageNo,
    bytes: &PageBytes,
    text: &mut Vec<u8>,
) -> Result<(), AllocError>
    ensures text { OnOk result (text.new.items ≡ text.old.items ++ answer_lines number (calls.printed_on file.old (history.Write client page bytes.now))) }
    ensures stands { OnOk result (file.new ≡ calls.left_by file.old (history.Write client page bytes.now)) }
{
    let answer = write(file, client, page, bytes);
    if lacks_number(answer) {
        return Err(AllocError);
    }
    number_line(text, number, answer)
}

fn play_read(
    file: &mut SharedFile,
    number: u64,
    client: ClientId,
    page: PageNo,
    text: &mut Vec<u8>,
) -> Result<(), AllocError>
    ensures text { OnOk result (text.new.items ≡ text.old.items ++ answer_lines number (calls.printed_on file.old (history.Read client page))) }
    ensures stands { OnOk result (file.new ≡ calls.left_by file.old (history.Read client page)) }
{
    let answer = read(file, client, page);
    if lacks_number(answer) {
        return Err(AllocError);
    }
    number_line(text, number, answer)
}

fn play_effect(
    file: &mut SharedFile,
    number: u64,
    n: u64,
    text: &mut Vec<u8>,
) -> Result<(), AllocError>
    ensures text { OnOk result (text.new.items ≡ text.old.items ++ answer_lines number (calls.printed_on file.old (history.Effect n))) }
    ensures stands { OnOk result (file.new ≡ calls.left_by file.old (history.Effect n)) }
{
    let answer = effect(file, n);
    if lacks_done(answer) {
        return Err(AllocError);
    }
    effect_line(text, number, answer)
}

fn play_report(
    file: &mut SharedFile,
    number: u64,
    n: u64,
    ok: bool,
    text: &mut Vec<u8>,
) -> Result<(), AllocError>
    ensures text { OnOk result (text.new.items ≡ text.old.items ++ answer_lines number (calls.printed_on file.old (history.Report n ok))) }
    ensures stands { OnOk result (file.new ≡ calls.left_by file.old (history.Report n ok)) }
{
    told_line(text, number, file.report(n, ok))
}

/// Plays an event whose client, if it has one, is there.
fn play_there(
    file: &mut SharedFile,
    number: u64,
    event: SharedEvent,
    text: &mut Vec<u8>,
) -> Result<(), AllocError>
    requires client { IfSome (scripts.client_of event) IsClient }
    ensures text { OnOk result (text.new.items ≡ text.old.items ++ answer_lines number (calls.printed_on file.old (scripts.call_of event))) }
    ensures stands { OnOk result (file.new ≡ calls.left_by file.old (scripts.call_of event)) }
{
    match event {
        SharedEvent::Client(what, client) => play_act(file, number, what, client, text),
        SharedEvent::Write(client, page, byte) => {
            play_bytes(file, number, client, page, &PageBytes::filled(byte), text)
        }
        SharedEvent::Read(client, page) => play_read(file, number, client, page, text),
        SharedEvent::Effect(n) => play_effect(file, number, n, text),
        SharedEvent::Report(n, ok) => play_report(file, number, n, ok, text),
    }
}

/// The client of an event, if it has one that is not there.
fn absent(clients: u16, event: SharedEvent) -> Option<ClientId>
    ensures absent { result ≡ scripts.absent clients (scripts.client_of event) }
    ensures there { IfNone result (IfSome (scripts.client_of event) IsClient) }
{
    let client = match event {
        SharedEvent::Client(_, client) => client,
        SharedEvent::Write(client, _, _) => client,
        SharedEvent::Read(client, _) => client,
        SharedEvent::Effect(_) | SharedEvent::Report(_, _) => return None,
    };
    if 1 <= client.0 && client.0 <= 16 && client.0 <= clients {
        None
    } else {
        Some(client)
    }
}

impl Script for SharedScript {
    ghost use Rattle.std.specs.Prelude.{◌≡◌};
    ghost use Rattle.st_script_shared.specs.SharedScripts.{SharedState, head, shared_rules};

    type Event = SharedEvent;

    ghost State = { SharedState };

    ghost head = { head };

    ghost rules = { shared_rules };

    ghost stands = { λ n s x. (s.clients ≡ x.clients) × (s.traced.state ≡ x.file) };

    fn begin(alloc: Global, line: &[u8]) -> Result<SharedScript, ReadError> {
        let counts = counts_of(line)?;
        let file = SharedFile::new(alloc, counts.blocks);
        Ok(SharedScript {
            clients: counts.clients,
            file,
        })
    }

    fn event(_alloc: Global, line: &[u8]) -> Result<SharedEvent, ReadError> {
        shared_event(line)
    }

    fn play(
        &mut self,
        _alloc: Global,
        done: u64,
        event: SharedEvent,
        text: &mut Vec<u8>,
    ) -> Result<(), AllocError> {
        let number = done + 1;
        match absent(self.clients, event) {
            Some(client) => absent_line(text, number, client),
            None => play_there(&mut self.file, number, event, text),
        }
    }

    fn finish(&self, events: u64, text: &mut Vec<u8>) -> Result<(), AllocError> {
        put_last(text, events, self.file.commands())
    }
}

/// The calls and answers of every script are right: what a report gets, the lock and who is in, and
/// effects, as `st_shared::every_history_is_right` says. This holds for a script that stops, too.
pub fn every_script_is_right()
    ensures { EveryScriptIsRight }
{
    every_history_is_right();
}

/// Runs a script of a shared file: a first line `shared CLIENTS BLOCKS`, events `enter C`,
/// `leave C`, `lock C`, `unlock C`, `crash C`, `expire C`, `write C P B`, `read C P`, `effect K`,
/// `report K ok` and `report K fail`, and `end`. `docs/PROTOCOL.md`, "Scripts", has their answers.
/// It returns what `run_headed` does.
pub fn shared<I: Source, O: Sink>(
    alloc: Global,
    input: &mut I,
    out: &mut O,
) -> Result<(), ScriptFault>
    ensures report { IfSome (I.left input.old) (λ bytes.
        Reports (λ t. ⊤) result (O.written out.old) (O.written out.new) (script_of scripts.head scripts.shared_rules bytes)) }
    // The calls and answers of every list of events are right, those of this script among them.
    ensures right { EveryScriptIsRight }
    ensures through { OnOk result (IsAtEnd (I.left input.new)) }
    ensures causes { HasCauses result (I.faults input.old) (I.faults input.new) (O.faults out.old) (O.faults out.new) }
{
    every_script_is_right();
    run_headed::<SharedScript, I, O>(alloc, input, out)
}
