ghost use Rattle.std.specs.Prelude.{ℕ, List};
ghost use Rattle.st_base.specs.declared.ids.Stamp.{Stamp};
ghost use Rattle.st_messages.specs.declared.message.Message.{Message};
ghost use Rattle.st_node.specs.Whole.{RunsThrough, StopsByBytes};
ghost use Rattle.st_node.specs.declared.node.Node.{Node};

/// A stream of whole frames, at most as many as a node takes, is run through: each message is
/// handled once, in order.
#[tactic(auto, using(crate::proofs::Whole::runs_through))]
pub fn whole_frames_run_through()
    ensures { (n : Node) (readings : List Stamp) (ms : List Message) → RunsThrough n readings ms }
{}

/// Only the bytes of a stream determine why a run over it stops, and at which offset: every
/// node and every clock's readings have the same stop.
#[tactic(auto, using(crate::proofs::Stops::stops_by_bytes))]
pub fn bytes_tell_why_a_run_stops()
    ensures { (bytes : List ℕ) → StopsByBytes bytes }
{}
