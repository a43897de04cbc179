// What is asked: its server and its file, and which kind it is.
ghost use Rattle.std.specs.Prelude.{◌≡◌};
ghost use Rattle.st_rules.specs.ClientPasses as passes;
ghost use Rattle.st_rules.specs.ClientState as client_state;
ghost use Rattle.st_operations.specs.AwaitedGrants.{is_served_under};

use st_base::{Mode, NameAsk, PageNo, ServerId};
use st_messages::Ask;
use st_rules::{Operation, Stage};

/// The server that is asked.
pub fn server_of(ask: &Ask) -> ServerId
    ensures { result ≡ client_state.server_of ask.now }
{
    match ask {
        Ask::Write(file, _, _) => file.server,
        Ask::Read(file, _) => file.server,
        Ask::Sync(file) => file.server,
        Ask::Cut(file, _) => file.server,
        Ask::Name(server, _) => *server,
        Ask::Patch(file, _, _, _) => file.server,
    }
}

/// An inode that is meant; a directory is meant by none.
#[tactic(auto, unfolding(st_rules::specs::ClientState::meant))]
fn meant(ino: u32) -> Option<u32>
    ensures { result ≡ client_state.meant ino }
{
    if ino == 0 { None } else { Some(ino) }
}

fn file_of_name(ask: &NameAsk) -> Option<u32>
    ensures { result ≡ client_state.file_of_name ask.now }
{
    match ask {
        NameAsk::Remove { ino, .. } => meant(*ino),
        _ => None,
    }
}

/// The inode of the file of an ask, if it is on a file.
pub fn file_of(ask: &Ask) -> Option<u32>
    ensures { result ≡ client_state.file_of ask.now }
{
    match ask {
        Ask::Write(file, _, _) => Some(file.ino),
        Ask::Read(file, _) => Some(file.ino),
        Ask::Sync(file) => Some(file.ino),
        Ask::Cut(file, _) => Some(file.ino),
        Ask::Name(_, name) => file_of_name(name),
        Ask::Patch(file, _, _, _) => Some(file.ino),
    }
}

/// Whether it is this file.
pub fn is_file(ino: u32, file: Option<u32>) -> bool
    ensures { result ≡ client_state.is_file ino file }
{
    match file {
        None => false,
        Some(i) => i == ino,
    }
}

/// Whether a sync is asked.
pub fn is_sync(ask: &Ask) -> bool
    ensures { result ≡ client_state.is_sync ask.now }
{
    match ask {
        Ask::Sync(_) => true,
        _ => false,
    }
}

/// Whether a cut or a name is asked.
pub fn is_cut_or_name(ask: &Ask) -> bool
    ensures { result ≡ client_state.is_cut_or_name ask.now }
{
    match ask {
        Ask::Cut(_, _) => true,
        Ask::Name(_, _) => true,
        _ => false,
    }
}

/// The mode of the lock that an ask on a file needs: a read shared, and all else exclusive.
fn need(ask: &Ask) -> Mode
    ensures { result ≡ passes.need ask.now }
{
    match ask {
        Ask::Read(_, _) => Mode::S,
        _ => Mode::X,
    }
}

/// Whether no lock is held, or one that the ask needs.
pub fn is_served_under(mode: Mode, ask: &Ask) -> bool
    ensures { result ≡ is_served_under mode ask.now }
{
    mode.number() == 0 || mode.covers(need(ask))
}

/// Whether a page of this file is written or patched.
pub fn changes_page(server: ServerId, ino: u32, page: PageNo, ask: &Ask) -> bool
    ensures { result ≡ client_state.changes_page server ino page ask.now }
{
    match ask {
        Ask::Write(file, at, _) => file.server.0 == server.0 && (file.ino == ino && at.0 == page.0),
        Ask::Patch(file, at, _, _) => {
            file.server.0 == server.0 && (file.ino == ino && at.0 == page.0)
        }
        _ => false,
    }
}

/// Whether a page of this file is read or patched.
pub fn reads_page(server: ServerId, ino: u32, page: PageNo, ask: &Ask) -> bool
    ensures { result ≡ client_state.reads_page server ino page ask.now }
{
    match ask {
        Ask::Read(file, at) => file.server.0 == server.0 && (file.ino == ino && at.0 == page.0),
        Ask::Patch(file, at, _, _) => {
            file.server.0 == server.0 && (file.ino == ino && at.0 == page.0)
        }
        _ => false,
    }
}

/// Whether the operation's request was sent.
pub fn is_sent(operation: &Operation) -> bool
    ensures { result ≡ client_state.is_sent operation.now }
{
    match operation.stage {
        Stage::Unsent => false,
        Stage::Sent => true,
        Stage::Stuck => true,
    }
}

/// Whether the operation's request is the outstanding one of its server.
fn is_asked_at(stage: Stage) -> bool
    ensures { result ≡ client_state.is_asked_at stage }
{
    match stage {
        Stage::Sent => true,
        _ => false,
    }
}

/// Whether the operation is one of this server.
pub fn is_of(server: ServerId, operation: &Operation) -> bool
    ensures { result ≡ client_state.is_of server operation.now }
{
    server_of(&operation.ask).0 == server.0
}

/// Whether the operation is on this file.
pub fn is_on(server: ServerId, ino: u32, operation: &Operation) -> bool
    ensures { result ≡ client_state.is_on server ino operation.now }
{
    is_of(server, operation) && is_file(ino, file_of(&operation.ask))
}

/// Whether the operation is the one of the server's outstanding request.
pub fn is_asked(server: ServerId, operation: &Operation) -> bool
    ensures { result ≡ client_state.is_asked server operation.now }
{
    is_of(server, operation) && is_asked_at(operation.stage)
}
