// What a server does with a message that came over a link.
ghost use Rattle.std.specs.Prelude.{◌≡◌, ◌≤◌, ◌+◌, ◌++◌, ◌^◌, ℕ, true, OnOk, IfSome};
ghost use Rattle.std.specs.List.{list_all, flat_map};
ghost use Rattle.st_messages.specs.Ranges.{fits};
ghost use Rattle.st_rules.specs.Server as machine;
ghost use Rattle.st_server.specs.RuleConditions.{comes_fit};
ghost use Rattle.st_server.specs.Invariants.{is_sent};
ghost use Rattle.st_node.specs.Room.{ServerHasRoom};
ghost use Rattle.st_node.specs.Runs as runs;
ghost use Rattle.st_node.specs.declared.node.Node.TheVariants as nodes;

use crate::frames::put_frame;
use st_base::Stamp;
use st_messages::{Message, Output, Party, StepFault};
use st_rules::ServerInput;
use st_server::ServerNode;
use std::alloc::AllocError;

/// The input of a server that the message is, if it is one.
pub fn input_of(message: Message) -> Option<ServerInput>
    requires { fits message ≡ true }
    ensures exact { result ≡ runs.server_input message }
    ensures fits { IfSome result (λ i. comes_fit i ≡ true) }
{
    match message.body.kind().receiver() {
        Party::Node => Some(ServerInput::Tick),
        Party::Server => Some(ServerInput::Control(message)),
        _ => None,
    }
}

/// Appends the frame of an output.
fn put_output(out: &mut Vec<u8>, output: &Output) -> Result<(), AllocError>
    requires { is_sent output.now ≡ true }
    ensures { OnOk result (out.new.items ≡ out.old.items ++ runs.server_frame output.now) }
{
    match output {
        Output::Send(message) => put_frame(out, message),
        _ => Ok(()),
    }
}

/// Appends the frames of a server's outputs, in order. After an error nothing is known of the
/// bytes.
pub fn put_outputs(out: &mut Vec<u8>, outputs: &[Output]) -> Result<(), AllocError>
    requires { list_all is_sent outputs.now ≡ true }
    ensures { OnOk result (out.new.items ≡ out.old.items ++ flat_map runs.server_frame outputs.now) }
{
    let mut rest = outputs;
    while let [first, after @ ..] = rest {
        put_output(out, first)?;
        rest = after;
    }
    Ok(())
}

/// Takes a step, and appends the frames of its outputs.
fn step(
    server: &mut ServerNode,
    now: Stamp,
    input: ServerInput,
    out: &mut Vec<u8>,
) -> Result<(), AllocError>
    requires time { now.0 ≤ 2 ^ 62 }
    requires fits { comes_fit input ≡ true }
    requires room { ServerHasRoom 1 server.old }
    ensures room { (k : ℕ) → ServerHasRoom (k + 1) server.old → OnOk result (ServerHasRoom k server.new) }
    ensures node { OnOk result (nodes.Server server.new ≡ (runs.server_stepped server.old (machine.node_step server.old now input)).node) }
    ensures out { OnOk result (out.new.items ≡ out.old.items ++ (runs.server_stepped server.old (machine.node_step server.old now input)).out) }
{
    // For its clause `sound`: that a step grows the counters little holds of a server whose parts
    // are sound.
    let _running = server.running();
    match server.step(now, input) {
        Ok(outputs) => put_outputs(out, outputs.as_slice()),
        Err(StepFault::Memory) => Err(AllocError),
        Err(StepFault::Crashed) => Ok(()),
    }
}

/// Takes a message at this moment: one step if it is an input of the server, and nothing else.
/// Appends the frames of what the server sends.
#[tactic(auto, unfolding(crate::specs::Runs::handle))]
pub(crate) fn handle_server(
    server: &mut ServerNode,
    now: Stamp,
    message: Message,
    out: &mut Vec<u8>,
) -> Result<(), AllocError>
    requires time { now.0 ≤ 2 ^ 62 }
    requires fits { fits message ≡ true }
    requires room { ServerHasRoom 1 server.old }
    ensures room { (k : ℕ) → ServerHasRoom (k + 1) server.old → OnOk result (ServerHasRoom k server.new) }
    ensures node { OnOk result (nodes.Server server.new ≡ (runs.handle (nodes.Server server.old) now message).node) }
    ensures out { OnOk result (out.new.items ≡ out.old.items ++ (runs.handle (nodes.Server server.old) now message).out) }
{
    if u32::from(message.header.to) != server.id().node_as_u32() {
        return Ok(());
    }
    match input_of(message) {
        Some(input) => step(server, now, input, out),
        None => Ok(()),
    }
}
