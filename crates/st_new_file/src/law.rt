// What a new file is in the histories of journals' files, and what a file is that is opened.
ghost use Rattle.std.specs.Prelude.{◌≡◌, ◌≤◌, ◌+◌, ◌++◌, List, [], ℕ, length};
ghost use Rattle.st_extents.specs.Layout.{Shape};
ghost use Rattle.st_journal_bytes.specs.Files.{IsFile};
ghost use Rattle.st_journal_bytes.specs.Headers.{HeaderFits, header};
ghost use Rattle.st_journal_bytes.specs.Moments.{Dated, dated};
ghost use Rattle.st_journal_bytes.specs.declared.header.Header.{Header};
ghost use Rattle.st_journal_file.specs.Histories as phases;
ghost use Rattle.st_journal_file.specs.Histories.{IsFormed, IsReached};
ghost use Rattle.st_journal_file.specs.Layout.{File};
ghost use Rattle.st_kept_histories.specs.Histories.{IsFileOf, Past};
ghost use Rattle.st_kept_histories.specs.Kept.{snapshot_of};
ghost use Rattle.st_new_file.specs.NewFile.{new_file};
ghost use Rattle.st_server_states.specs.States.{Keeps, State, states};

/// A new file begins the histories of a server's journal: what `new_file` says to write forms the
/// file, and the bytes of a file in these histories are those of the journal that its header names.
pub fn new_files_begin_histories()
    ensures formed { (s : Shape) (k : Keeps s) (start : Dated (State s)) (h : Header) (bytes rest : List ℕ) (b : File)
        → bytes ≡ new_file h start.moment start.made.stable ++ rest → IsFile bytes h.area b → length (snapshot_of start.moment start.made.stable) + 13 ≤ h.area
        → IsFormed (dated (states s k)) start (header h) b }
    ensures opened { (s : Shape) (k : Keeps s) (start : Dated (State s)) (h : Header) (bytes : List ℕ) (p : Past s)
        → HeaderFits h → IsReached (dated (states s k)) start (header h) p → p.phase ≡ phases.Idle → p.waiting ≡ [] → IsFile bytes h.area p.seen
        → IsFileOf s h.identity bytes p }
{}
