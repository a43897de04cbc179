// A server that tells what each step changes in its stable part.
ghost use Rattle.std.specs.Prelude.{◌≡◌, ◌≤◌, ◌<◌, ◌-◌, ◌^◌, false, true, ◌==◌, if◌then◌else◌, IsOk, IfOk, OnOk, OnErr, Some, None};
ghost use Rattle.std.specs.List.{list_all};
ghost use Rattle.std.specs.Option.{option_copied};
ghost use Rattle.st_base.specs.Config as settings;
ghost use Rattle.st_extents.specs.Layout.{IsWithinLimits};
ghost use Rattle.st_journal.specs.Stable as journal;
ghost use Rattle.st_journal.specs.declared.change.Change.TheVariants.{Epoch};
ghost use Rattle.st_rules.specs.Names as names;
ghost use Rattle.st_rules.specs.Server as server;
ghost use Rattle.st_durable.specs.Durable as durable;
ghost use Rattle.st_durable.specs.Durable.{IsAsked, IsMade, IsOwn, Tells};
ghost use Rattle.st_server.specs.Parts.{stable_of};
ghost use Rattle.st_server.specs.RuleConditions.{comes_fit};
ghost use Rattle.st_server.specs.Restart.{IsStable, crashed_node};
ghost use Rattle.st_server.specs.Room.{HasRoom};
ghost use Rattle.st_server.specs.Invariants.{is_sent};
ghost use Rattle.st_server.specs.Steps.{Steps};

use st_base::{Config, Name, ServerId, Stamp};
use st_journal::Change;
use st_messages::{Body, NameOp, Outputs, StepFault};
use st_namespace::Names;
use st_rules::ServerInput;
use st_server::{ServerNode, ServerStable};
use std::alloc::{AllocError, Global};
use std::marker::Model;

/// A server whose stable part must outlive a crash of the machine: each step and each start tells
/// the one change that it made to it. Contracts see it as its node, and that change.
#[derive(Drop)]
pub struct DurableServer {
    node: ServerNode,
    changed: Option<Change>,
}

impl Model for DurableServer {
    ghost use Rattle.st_durable.specs.Durable as shown;
    ghost use Rattle.st_durable.specs.Durable.{IsOwn};

    ghost Value = { shown.DurableServer };

    ghost view = { λ d. record { node = d.node; changed = d.changed } };

    ghost invariant = { λ d. IsOwn d.node.state };
}

/// The change that a request on names asks for, if it is one that changes them.
fn asked_of_names(op: &NameOp) -> Result<Option<Change>, AllocError>
    ensures { IfOk result (λ change. change ≡ durable.asked_of_names op.now) }
{
    match op {
        NameOp::Create { dir, name } => Ok(Some(Change::Create {
            dir: *dir,
            name: name.copy()?,
        })),
        NameOp::Mkdir { dir, name } => Ok(Some(Change::Mkdir {
            dir: *dir,
            name: name.copy()?,
        })),
        NameOp::Remove { dir, name, .. } => Ok(Some(Change::Remove {
            dir: *dir,
            name: name.copy()?,
        })),
        NameOp::Rename {
            dir,
            name,
            dir2,
            name2,
        } => Ok(Some(Change::Rename {
            dir: *dir,
            name: name.copy()?,
            dir2: *dir2,
            name2: name2.copy()?,
        })),
        NameOp::Lookup { .. } | NameOp::List { .. } => Ok(None),
    }
}

/// The change that an input asks for, with copies of its names.
fn asked(input: &ServerInput) -> Result<Option<Change>, AllocError>
    ensures { IfOk result (λ change. change ≡ durable.asked input.now) }
{
    match input {
        ServerInput::Tick => Ok(None),
        ServerInput::Control(message) => match &message.body {
            Body::Allocate {
                ino,
                page,
                count,
                ..
            } => Ok(Some(Change::Allocate {
                ino: *ino,
                page: *page,
                count: *count,
            })),
            Body::Cut { ino, from, .. } => Ok(Some(Change::Cut {
                ino: *ino,
                from: *from,
            })),
            Body::Name(op) => asked_of_names(op),
            _ => Ok(None),
        },
    }
}

/// A number that stays the same exactly if the change leaves the stable part as it was.
fn mark(stable: &ServerStable, change: &Change) -> u64
    ensures { result ≡ durable.mark (stable_of stable.now) change.now }
{
    match change {
        Change::Epoch => stable.epoch.0,
        Change::Allocate { .. } => stable.extents.next_birth(),
        Change::Cut { .. } => u64::from(stable.extents.mapped()),
        Change::Create { .. } | Change::Mkdir { .. } => u64::from(stable.names.next_ino()),
        Change::Remove { dir, name } | Change::Rename { dir, name, .. } => {
            match stable.names.lookup(*dir, name.as_slice()) {
                Ok(_) => 1,
                Err(_) => 0,
            }
        }
    }
}

/// What a step returns, and the change that it made.
#[derive(Drop)]
struct Stepped {
    outputs: Result<Outputs, StepFault>,
    changed: Option<Change>,
}

/// The change, if its mark moved.
fn if_moved(before: u64, after: u64, change: Change) -> Option<Change>
    ensures { result ≡ (if after == before then None else Some change) }
{
    if after == before { None } else { Some(change) }
}

/// A step for an input that asks for this change.
fn step_asked(node: &mut ServerNode, now: Stamp, input: ServerInput, change: Change) -> Stepped
    requires time { now.0 ≤ 2 ^ 62 }
    requires fits { comes_fit input ≡ true }
    requires room { HasRoom node.old.state }
    requires own { IsOwn node.old.state }
    requires asks { durable.asked input ≡ Some change }
    ensures exact { Steps node.old node.new result.outputs (server.node_step node.old now input) }
    ensures sent { IfOk result.outputs (λ out. list_all is_sent out ≡ true) }
    ensures told { Tells node.old.state.stable node.new.state.stable result.changed }
    ensures asked { IsAsked input result.changed }
    ensures own { IsOwn node.new.state }
{
    let before = mark(node.stable(), &change);
    let outputs = node.step(now, input);
    let after = mark(node.stable(), &change);
    let changed = if_moved(before, after, change);
    Stepped { outputs, changed }
}

/// A step for an input that asks for no change.
fn step_unasked(node: &mut ServerNode, now: Stamp, input: ServerInput) -> Stepped
    requires time { now.0 ≤ 2 ^ 62 }
    requires fits { comes_fit input ≡ true }
    requires room { HasRoom node.old.state }
    requires own { IsOwn node.old.state }
    requires asks { durable.asked input ≡ None }
    ensures exact { Steps node.old node.new result.outputs (server.node_step node.old now input) }
    ensures sent { IfOk result.outputs (λ out. list_all is_sent out ≡ true) }
    ensures told { Tells node.old.state.stable node.new.state.stable result.changed }
    ensures asked { IsAsked input result.changed }
    ensures own { IsOwn node.new.state }
{
    let outputs = node.step(now, input);
    Stepped {
        outputs,
        changed: None,
    }
}

/// A step of a node that ran out of memory before anything was changed.
fn step_starved(node: &mut ServerNode, now: Stamp, input: ServerInput) -> Stepped
    requires own { IsOwn node.old.state }
    ensures exact { Steps node.old node.new result.outputs (server.node_step node.old now input) }
    ensures sent { IfOk result.outputs (λ out. list_all is_sent out ≡ true) }
    ensures told { Tells node.old.state.stable node.new.state.stable result.changed }
    ensures asked { IsAsked input result.changed }
    ensures own { IsOwn node.new.state }
{
    node.crash();
    Stepped {
        outputs: Err(StepFault::Memory),
        changed: None,
    }
}

/// A step, and the change that it made.
#[tactic(auto, unfolding(st_rules::specs::Server::node_step))]
fn step_told(node: &mut ServerNode, now: Stamp, input: ServerInput) -> Stepped
    requires time { now.0 ≤ 2 ^ 62 }
    requires fits { comes_fit input ≡ true }
    requires room { HasRoom node.old.state }
    requires own { IsOwn node.old.state }
    ensures exact { Steps node.old node.new result.outputs (server.node_step node.old now input) }
    ensures sent { IfOk result.outputs (λ out. list_all is_sent out ≡ true) }
    ensures told { Tells node.old.state.stable node.new.state.stable result.changed }
    ensures asked { IsAsked input result.changed }
    ensures own { IsOwn node.new.state }
{
    if node.running() {
        match asked(&input) {
            Ok(Some(change)) => step_asked(node, now, input, change),
            Ok(None) => step_unasked(node, now, input),
            Err(_) => step_starved(node, now, input),
        }
    } else {
        Stepped {
            outputs: Err(StepFault::Crashed),
            changed: None,
        }
    }
}

/// A node that does not run is started, and the change that this made.
fn start_told(node: &mut ServerNode, now: Stamp) -> Result<Change, AllocError>
    requires crashed { node.old.running ≡ false }
    requires epochs { node.old.state.stable.epoch.0 < 2 ^ 32 - 1 }
    requires time { now.0 ≤ 2 ^ 62 }
    requires own { IsOwn node.old.state }
    ensures started { OnOk result (node.new ≡ server.start_node node.old now) }
    ensures kept { OnErr result (node.new ≡ node.old) }
    ensures epoch { IfOk result (λ change. change ≡ Epoch) }
    ensures told { OnOk result (IsMade node.old.state.stable node.new.state.stable Epoch) }
    ensures own { IsOwn node.new.state }
{
    node.start(now)?;
    Ok(Change::Epoch)
}

impl DurableServer {
    /// A server that was never started before: it runs, in epoch 1 and without grace. Its change is
    /// the one that begins this epoch. `id` is from 1 to `servers`, which is at most 4.
    pub fn fresh(
        alloc: Global,
        id: ServerId,
        config: &Config,
        servers: u16,
        disks: u16,
        blocks: u32,
    ) -> Result<DurableServer, AllocError>
        requires checked { IsOk (settings.check config.now) }
        requires limits { IsWithinLimits id.0 servers disks blocks }
        ensures node { IfOk result (λ d. d.node ≡ server.fresh_node id config.now servers disks blocks) }
        ensures changed { IfOk result (λ d. d.changed ≡ Some Epoch) }
        ensures told { IfOk result (λ d. Tells (journal.fresh (record { server = id; servers = servers; disks = disks; blocks = blocks })) d.node.state.stable d.changed) }
    {
        Ok(DurableServer {
            node: ServerNode::fresh(alloc, id, config, servers, disks, blocks)?,
            changed: Some(Change::Epoch),
        })
    }

    /// A server of which a crash left this stable part. It does not run, and no change is reported;
    /// `start` begins its next epoch. `id` is from 1 to 4.
    pub fn restore(
        alloc: Global,
        id: ServerId,
        config: &Config,
        stable: ServerStable,
    ) -> DurableServer
        requires checked { IsOk (settings.check config.now) }
        requires some { 1 ≤ id.0 }
        requires known { id.0 ≤ 4 }
        requires stable { IsStable (stable_of stable) }
        requires own { stable.extents.server ≡ id }
        ensures node { result.node ≡ crashed_node id config.now (stable_of stable) }
        ensures changed { result.changed ≡ None }
    {
        DurableServer {
            node: ServerNode::restore(alloc, id, config, stable),
            changed: None,
        }
    }

    /// The node.
    pub fn node(&self) -> &ServerNode
        ensures node { result.now ≡ self.now.node }
        ensures own { IsOwn self.now.node.state }
    {
        &self.node
    }

    /// The one change that the last step or start made to the stable part; `None` exactly if it
    /// left that part as it was.
    pub fn changed(&self) -> Option<&Change>
        ensures { option_copied result ≡ self.now.changed }
    {
        self.changed.as_ref()
    }

    /// The node crashes: only its stable part is left, and it does not run. The change is still
    /// told.
    pub fn crash(&mut self)
        ensures { self.new ≡ record self.old { node = server.crash_node self.old.node } }
    {
        self.node.crash();
    }

    /// A node that does not run is started: its epoch rises, which is the change, and grace begins.
    /// If memory runs out the node stays as it was.
    pub fn start(&mut self, now: Stamp) -> Result<(), AllocError>
        requires crashed { self.old.node.running ≡ false }
        requires epochs { self.old.node.state.stable.epoch.0 < 2 ^ 32 - 1 }
        requires time { now.0 ≤ 2 ^ 62 }
        ensures started { OnOk result (self.new.node ≡ server.start_node self.old.node now) }
        ensures kept { OnErr result (self.new.node ≡ self.old.node) }
        ensures changed { OnOk result (self.new.changed ≡ Some Epoch) }
        ensures told { Tells self.old.node.state.stable self.new.node.state.stable self.new.changed }
    {
        match start_told(&mut self.node, now) {
            Ok(change) => {
                self.changed = Some(change);
                Ok(())
            }
            Err(fault) => {
                self.changed = None;
                Err(fault)
            }
        }
    }

    /// Takes a step at this moment, and returns its outputs in order. Moments never fall. The
    /// change that it made is reported whatever it returns; it must be kept before any of the
    /// outputs is sent.
    ///
    /// # Errors
    /// `Crashed` if the node does not run; then nothing changes. `Memory` if memory runs out:
    /// then the node is crashed, and its stable part is that from before the step or that which the
    /// step leaves.
    pub fn step(&mut self, now: Stamp, input: ServerInput) -> Result<Outputs, StepFault>
        requires time { now.0 ≤ 2 ^ 62 }
        requires fits { comes_fit input ≡ true }
        requires room { HasRoom self.old.node.state }
        ensures exact { Steps self.old.node self.new.node result (server.node_step self.old.node now input) }
        ensures sent { IfOk result (λ out. list_all is_sent out ≡ true) }
        ensures told { Tells self.old.node.state.stable self.new.node.state.stable self.new.changed }
        ensures asked { IsAsked input self.new.changed }
    {
        let Stepped { outputs, changed } = step_told(&mut self.node, now, input);
        self.changed = changed;
        outputs
    }
}
