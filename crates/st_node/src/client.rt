// What a client does with a message that came over a link.
ghost use Rattle.std.specs.Prelude.{◌≡◌, ◌≤◌, ◌+◌, ◌++◌, ◌^◌, ℕ, true, OnOk, IfSome};
ghost use Rattle.std.specs.List.{list_all, flat_map};
ghost use Rattle.st_client.specs.Inputs.{comes_fit, is_sent};
ghost use Rattle.st_codec.specs.Stream.{message_frame};
ghost use Rattle.st_messages.specs.Ranges.{fits};
ghost use Rattle.st_rules.specs.Client as machine;
ghost use Rattle.st_node.specs.Room.{ClientHasRoom};
ghost use Rattle.st_node.specs.Runs as runs;
ghost use Rattle.st_node.specs.declared.node.Node.TheVariants as nodes;

use crate::frames::put_frame;
use st_base::{ClientId, PageBytes, Stamp, Tag};
use st_client::ClientNode;
use st_laws_bounds::client_steps_raise_little;
use st_messages::{Body, DiskResult, Header, Message, Output, Party, StepFault};
use st_rules::ClientInput;
use std::alloc::AllocError;

/// How a disk command ended, as a client takes it.
fn disk_end(end: DiskResult) -> Option<Option<(Tag, PageBytes)>>
    ensures { result ≡ runs.disk_end end }
{
    match end {
        DiskResult::Failed => None,
        DiskResult::WriteDone => Some(None),
        DiskResult::ReadDone(tag, bytes) => Some(Some((tag, bytes))),
    }
}

/// The input of a client that a message to it is.
#[tactic(auto, unfolding(st_messages::specs::Ranges::fits, st_messages::specs::Ranges::is_body))]
fn own_input(message: Message) -> ClientInput
    requires { fits message ≡ true }
    ensures exact { result ≡ runs.client_own message.body message }
    ensures fits { comes_fit result ≡ true }
{
    let Message { header, body } = message;
    match body {
        Body::App { op, ask } => ClientInput::App { op, ask },
        Body::Done { command, result } => ClientInput::Done {
            command,
            result: disk_end(result),
        },
        other => ClientInput::Control(Message {
            header,
            body: other,
        }),
    }
}

/// The input of a client that the message is, if it is one.
pub fn input_of(message: Message) -> Option<ClientInput>
    requires { fits message ≡ true }
    ensures exact { result ≡ runs.client_input message }
    ensures fits { IfSome result (λ i. comes_fit i ≡ true) }
{
    match message.body.kind().receiver() {
        Party::Node => Some(ClientInput::Tick),
        Party::Client => Some(own_input(message)),
        _ => None,
    }
}

/// A message to a client's own surroundings.
fn local(id: ClientId, body: Body) -> Message
    ensures { result ≡ runs.local id body }
{
    Message {
        header: Header {
            from: id.0,
            to: 0,
            life: 0,
            epoch: 0,
            number: 0,
            stamp: 0,
        },
        body,
    }
}

/// Appends the frame of a message to a client's own surroundings. A message without a spelling
/// returns the error for memory.
fn put_local(out: &mut Vec<u8>, id: ClientId, body: Body) -> Result<(), AllocError>
    ensures { OnOk result (out.new.items ≡ out.old.items ++ message_frame (runs.local id body)) }
{
    let message = local(id, body);
    if !message.fits() {
        return Err(AllocError);
    }
    put_frame(out, &message)
}

/// Appends the frame of an output.
fn put_output(out: &mut Vec<u8>, id: ClientId, output: &Output) -> Result<(), AllocError>
    requires { is_sent output.now ≡ true }
    ensures { OnOk result (out.new.items ≡ out.old.items ++ runs.client_frame id output.now) }
{
    match output {
        Output::Send(message) => put_frame(out, message),
        Output::Submit { command, at, what } => {
            let what = what.copy()?;
            put_local(
                out,
                id,
                Body::Submit {
                    command: *command,
                    at: *at,
                    what,
                },
            )
        }
        Output::Answer { op, answer } => {
            let answer = answer.copy()?;
            put_local(out, id, Body::AppDone { op: *op, answer })
        }
        Output::Note(_) => Ok(()),
    }
}

/// Appends the frames of a client's outputs, in order. After an error nothing is known of the
/// bytes.
pub fn put_outputs(out: &mut Vec<u8>, id: ClientId, outputs: &[Output]) -> Result<(), AllocError>
    requires { list_all is_sent outputs.now ≡ true }
    ensures { OnOk result (out.new.items ≡ out.old.items ++ flat_map (runs.client_frame id) outputs.now) }
{
    let mut rest = outputs;
    while let [first, after @ ..] = rest {
        put_output(out, id, first)?;
        rest = after;
    }
    Ok(())
}

/// Takes a step, and appends the frames of its outputs.
fn step(
    client: &mut ClientNode,
    now: Stamp,
    input: ClientInput,
    out: &mut Vec<u8>,
) -> Result<(), AllocError>
    requires time { now.0 ≤ 2 ^ 62 }
    requires fits { comes_fit input ≡ true }
    requires room { ClientHasRoom 1 client.old }
    ensures room { (k : ℕ) → ClientHasRoom (k + 1) client.old → OnOk result (ClientHasRoom k client.new) }
    ensures node { OnOk result (nodes.Client client.new ≡ (runs.client_stepped client.old (machine.node_step client.old now input)).node) }
    ensures out { OnOk result (out.new.items ≡ out.old.items ++ (runs.client_stepped client.old (machine.node_step client.old now input)).out) }
{
    client_steps_raise_little();
    let id = client.id();
    match client.step(now, input) {
        Ok(outputs) => put_outputs(out, id, outputs.as_slice()),
        Err(StepFault::Memory) => Err(AllocError),
        Err(StepFault::Crashed) => Ok(()),
    }
}

/// Takes a message at this moment: one step if it is an input of the client, and nothing else.
/// Appends the frames of what goes out.
#[tactic(auto, unfolding(crate::specs::Runs::handle))]
pub(crate) fn handle_client(
    client: &mut ClientNode,
    now: Stamp,
    message: Message,
    out: &mut Vec<u8>,
) -> Result<(), AllocError>
    requires time { now.0 ≤ 2 ^ 62 }
    requires fits { fits message ≡ true }
    requires room { ClientHasRoom 1 client.old }
    ensures room { (k : ℕ) → ClientHasRoom (k + 1) client.old → OnOk result (ClientHasRoom k client.new) }
    ensures node { OnOk result (nodes.Client client.new ≡ (runs.handle (nodes.Client client.old) now message).node) }
    ensures out { OnOk result (out.new.items ≡ out.old.items ++ (runs.handle (nodes.Client client.old) now message).out) }
{
    if message.header.to != client.id().0 {
        return Ok(());
    }
    match input_of(message) {
        Some(input) => step(client, now, input, out),
        None => Ok(()),
    }
}
