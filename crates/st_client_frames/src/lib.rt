//! A client's rules at a server don't read what was said before them in the step: they only say
//! more. So a step may keep all its outputs in one list, whichever part of them a rule is given.
#![tactic(auto)]

ghost use Rattle.std.specs.Prelude.{ℕ, Bool, List, Option};
ghost use Rattle.st_base.specs.declared.disk.Tag.{Tag};
ghost use Rattle.st_base.specs.declared.ids.Epoch.{Epoch};
ghost use Rattle.st_base.specs.declared.ids.FileId.{FileId};
ghost use Rattle.st_base.specs.declared.ids.GrantNo.{GrantNo};
ghost use Rattle.st_base.specs.declared.ids.PageNo.{PageNo};
ghost use Rattle.st_base.specs.declared.ids.Stamp.{Stamp};
ghost use Rattle.st_client_frames.specs.Frames.{IsFramed};
ghost use Rattle.st_messages.specs.declared.answer.AppAnswer.{AppAnswer};
ghost use Rattle.st_messages.specs.declared.ask.Ask.{Ask};
ghost use Rattle.st_messages.specs.declared.message.Body.{Body};
ghost use Rattle.st_messages.specs.declared.output.Note.{Note};
ghost use Rattle.st_rules.specs.Client as rules;
ghost use Rattle.st_rules.specs.ClientLease.{ClientLease};
ghost use Rattle.st_rules.specs.ClientLocks as locks;
ghost use Rattle.st_rules.specs.ClientPages.{Pages};
ghost use Rattle.st_rules.specs.ClientPasses as passes;
ghost use Rattle.st_rules.specs.ClientPasses.{Asking};
ghost use Rattle.st_rules.specs.ClientReplies as replies;
ghost use Rattle.st_rules.specs.ClientState.{ClientSession};
ghost use Rattle.st_rules.specs.declared.client.Asked.{Asked};
ghost use Rattle.st_rules.specs.declared.client.Ended.{Ended};
ghost use Rattle.st_rules.specs.declared.client.Operation.{Operation};
ghost use Rattle.st_rules.specs.declared.client.PageCommand.{PageCommand};
ghost use Rattle.st_rules.specs.declared.pages.DirtyPage.{DirtyPage};

/// The passes at the end of a step.
pub fn passes_only_say_more()
    ensures sync { (o : Operation) (f : FileId) → IsFramed (λ t. passes.sync t o f) }
    ensures quiesce { (o : Operation) → IsFramed (λ t. passes.quiesce t o) }
    ensures change { (o : Operation) (f : FileId) (p : PageNo) (n : Note) (ps : Pages) → IsFramed (λ t. passes.change t o f p n ps) }
    ensures fetch { (o : Operation) (f : FileId) (p : PageNo) → IsFramed (λ t. passes.fetch t o f p) }
    ensures read { (s : ClientSession) (o : Operation) (f : FileId) (p : PageNo) → IsFramed (λ t. passes.read t s o f p) }
    ensures reduce { (s : ClientSession) (ino : ℕ) (r : locks.Reduced) → IsFramed (λ t. passes.reduce_by t s ino r) }
    ensures write_out { (d : DirtyPage) → IsFramed (λ t. passes.write_out t d) }
    ensures hello { (now : Stamp) → IsFramed (λ t. passes.hello t now) }
    ensures ask_for { (s : ClientSession) (now : Stamp) (a : Option Asking) → IsFramed (λ t. passes.ask_for_or t s now a) }
    ensures requests { (now : Stamp) (tick : Bool) → IsFramed (passes.requests now tick) }
{}

/// The rules for messages.
pub fn replies_only_say_more()
    ensures lease { (l : ClientLease) → IsFramed (replies.note_lease l) }
    ensures condemn { (s : ClientSession) → IsFramed (λ t. replies.condemn t s) }
    ensures epoch { (s : ClientSession) (epoch : Epoch) (body : Body) → IsFramed (λ t. replies.of_other_epoch t s epoch body) }
    ensures refuse { (a : AppAnswer) (file : Option ℕ) → IsFramed (λ t. replies.refuse_file t a file) }
    ensures end { (s : ClientSession) (stamp : Stamp) → IsFramed (λ t. replies.end_request t s stamp) }
    ensures count { (s : ClientSession) (now stamp : Stamp) (reply asked : Body) → IsFramed (λ t. replies.count_reply t s now stamp reply asked) }
    ensures demand { (s : ClientSession) (ino : ℕ) (g : GrantNo) (a : Asked) → IsFramed (λ t. replies.demand_as t s ino g a) }
    ensures observe { (s : ClientSession) (ino : ℕ) (g : GrantNo) → IsFramed (λ t. replies.observe_demand t s ino g) }
{}

/// Asks, the ends of commands, and the ends of operations at a loss.
pub fn inputs_only_say_more()
    ensures ask { (op : ℕ) (ask : Ask) → IsFramed (rules.take_ask op ask) }
    ensures mark { (c : PageCommand) (version : ℕ) → IsFramed (λ t. rules.mark_failed t c version) }
    ensures finish { (c : PageCommand) (block : Option (Tag × List ℕ)) (ended : Ended) → IsFramed (λ t. rules.finish_as t c block ended) }
    ensures end { (s : ClientSession) (o : Operation) → IsFramed (λ t. rules.end_operation t s o) }
{}
