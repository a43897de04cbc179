ghost use Rattle.std.specs.Prelude.{◌≡◌, ◌<◌, List, ℕ, length};
ghost use Rattle.st_base.specs.declared.config.Config.{Config};
ghost use Rattle.st_base.specs.declared.ids.ServerId.{ServerId};
ghost use Rattle.st_base.specs.declared.ids.Stamp.{Stamp};
ghost use Rattle.st_embed.specs.KeptJournal.{CanBeOpened, IsKeptIn, MayBeLeft, written_by};
ghost use Rattle.st_embed.specs.Servers.{EmbeddedServer, IsOfServer, Opens, Steps, kept, start_of, to_keep};
ghost use Rattle.st_embed.specs.declared.server.Shape.{Shape};
ghost use Rattle.st_extents.specs.Layout.{IsWithinLimits};
ghost use Rattle.st_journal.specs.Journal.{StandsFor};
ghost use Rattle.st_journal.specs.declared.change.Change.{Change};
ghost use Rattle.st_rules.specs.Server.{ServerNode, Stable, crash_node};
ghost use Rattle.st_server.specs.Restart.{crashed_node};

/// A journal that is kept as told outlives a crash at any moment. What is left of it can be opened,
/// which gives the server that crashed and was started, with every change whose frames could be
/// taken.
#[tactic(auto, using(crate::proofs::KeptJournal::opened_is_kept, crate::proofs::KeptJournal::step_keeps, crate::proofs::KeptJournal::taken_keeps, crate::proofs::KeptJournal::written_keeps, crate::proofs::KeptJournal::can_be_opened, crate::proofs::KeptJournal::is_a_crash))]
pub fn a_journal_outlives_crashes()
    // An opened server's journal stands for it, with the change that begins its epoch still to be
    // kept.
    ensures opened { (id : ServerId) (k : Config) (w : Shape) (now : Stamp) (bytes : List ℕ) (e : EmbeddedServer) → Opens id k w now bytes e → IsKeptIn id w bytes e }
    // A step changes nothing of that,
    ensures stepped { (id : ServerId) (w : Shape) (bytes : List ℕ) (old new : EmbeddedServer) (now : Stamp) (frame : List ℕ) → IsKeptIn id w bytes old → Steps old new now frame → IsKeptIn id w bytes new }
    // nor does it when bytes are taken out,
    ensures taken { (id : ServerId) (w : Shape) (bytes left : List ℕ) (e : EmbeddedServer) → IsKeptIn id w bytes e → IsKeptIn id w bytes (record e { left = left }) }
    // and it stands for the server with a change that was written.
    ensures written { (id : ServerId) (w : Shape) (bytes : List ℕ) (e : EmbeddedServer) → IsKeptIn id w bytes e → IsKeptIn id w (written_by (to_keep e) e.gate bytes) (kept e) }
    // What a crash leaves, also while a change is written, can be opened. It is the server that
    // crashed and was started, with the change that had to be kept, or as before it.
    ensures crashed { (id : ServerId) (w : Shape) (bytes left : List ℕ) (e : EmbeddedServer) → IsKeptIn id w bytes e → MayBeLeft (to_keep e) e.gate bytes left → CanBeOpened id w bytes left e }
    // That is what a crash leaves of a node.
    ensures is_crash { (n : ServerNode) → crash_node n ≡ crashed_node n.state.id n.state.config n.state.stable }
{}

/// What a journal of less than 2^32 bytes stands for is a stable part that its server may have.
pub fn journals_are_of_servers()
    ensures { (id : ServerId) (w : Shape) (bytes : List ℕ) (xs : List Change) (t : Stable) → IsWithinLimits id.0 w.servers w.disks w.blocks → length bytes < 4294967296 → StandsFor (start_of id w) bytes xs t → IsOfServer id t }
{}
