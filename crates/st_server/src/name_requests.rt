// Requests on names.
ghost use Rattle.std.specs.Prelude.{◌≡◌, ◌≢◌, ◌-◌, ◌^◌, ◌<◌, IfOk, OnErr, Some};
ghost use Rattle.st_base.specs.declared.names.NameRefusal.TheVariants as refusals;
ghost use Rattle.st_rules.specs.Names as names;
ghost use Rattle.st_rules.specs.Server as server;
ghost use Rattle.st_server.specs.Steps.{Keeps, answered, names_of};
ghost use Rattle.st_server.specs.RefusalReplies as told;

use crate::lock_requests::not_holder;
use crate::turn::ServerTurn;
use st_base::{GrantNo, Mode, Name, NameRefusal, NameRows, PageNo};
use st_messages::{Body, Header, NameOp, NameReply, Note, Output};
use std::alloc::AllocError;

/// The number of a refusal in a reply.
fn number_of(refusal: NameRefusal) -> u8
    ensures { result ≡ told.number_of refusal }
{
    match refusal {
        NameRefusal::NoEntry => 1,
        NameRefusal::Exists => 2,
        NameRefusal::NotDir => 3,
        NameRefusal::IsDir => 4,
        NameRefusal::NotEmpty => 5,
        NameRefusal::Cycle => 6,
        NameRefusal::BadName => 7,
        NameRefusal::TooMany => 8,
        NameRefusal::Memory => 0,
    }
}

/// The reply that tells a refusal, or the error if memory ran out.
fn refused(refusal: NameRefusal) -> Result<Body, AllocError>
    ensures { IfOk result (λ body. (body ≡ told.refused refusal) × (refusal ≢ refusals.Memory)) }
{
    match refusal {
        NameRefusal::Memory => Err(AllocError),
        _ => Ok(Body::Named(NameReply::Refused(number_of(refusal)))),
    }
}

impl ServerTurn {
    #[tactic(auto, unfolding(st_rules::specs::Server::name_found, st_rules::specs::Server::name_refused))]
    fn lookup(&self, dir: u32, name: &Name) -> Result<Body, AllocError>
        ensures { IfOk result (λ body. answered self.now (Some body) ≡ server.name_found self.now (names.lookup (names_of self.now) dir name.now)) }
    {
        match self.stable.names.lookup(dir, name.as_slice()) {
            Ok(ino) => Ok(Body::Named(NameReply::Ino(ino))),
            Err(refusal) => refused(refusal),
        }
    }

    #[tactic(auto, unfolding(st_rules::specs::Server::name_changed, st_rules::specs::Server::name_refused, st_rules::specs::Server::crash))]
    fn create(&mut self, dir: u32, name: &Name) -> Result<Body, AllocError>
        requires { self.old.state.stable.names.next < 2 ^ 32 - 1 }
        ensures ok { IfOk result (λ body. answered self.new (Some body) ≡ server.name_changed self.old (names.create (names_of self.old) dir name.now)) }
        ensures kept { OnErr result (Keeps self.old self.new) }
    {
        match self.stable.names.create(dir, name.as_slice()) {
            Ok(ino) => Ok(Body::Named(NameReply::Ino(ino))),
            Err(refusal) => refused(refusal),
        }
    }

    #[tactic(auto, unfolding(st_rules::specs::Server::name_changed, st_rules::specs::Server::name_refused, st_rules::specs::Server::crash))]
    fn mkdir(&mut self, dir: u32, name: &Name) -> Result<Body, AllocError>
        requires { self.old.state.stable.names.next < 2 ^ 32 - 1 }
        ensures ok { IfOk result (λ body. answered self.new (Some body) ≡ server.name_changed self.old (names.mkdir (names_of self.old) dir name.now)) }
        ensures kept { OnErr result (Keeps self.old self.new) }
    {
        match self.stable.names.mkdir(dir, name.as_slice()) {
            Ok(ino) => Ok(Body::Named(NameReply::Ino(ino))),
            Err(refusal) => refused(refusal),
        }
    }

    #[tactic(auto, unfolding(st_rules::specs::Server::name_changed, st_rules::specs::Server::name_refused, st_rules::specs::Server::crash))]
    fn rename(&mut self, dir: u32, name: &Name, dir2: u32, name2: &Name) -> Result<Body, AllocError>
        ensures ok { IfOk result (λ body. answered self.new (Some body) ≡ server.name_changed self.old (names.rename (names_of self.old) dir name.now dir2 name2.now)) }
        ensures kept { OnErr result (Keeps self.old self.new) }
    {
        match self
            .stable
            .names
            .rename(dir, name.as_slice(), dir2, name2.as_slice())
        {
            Ok(ino) => Ok(Body::Named(NameReply::Ino(ino))),
            Err(refusal) => refused(refusal),
        }
    }

    #[tactic(auto, unfolding(st_rules::specs::Server::names_listed, st_rules::specs::Server::name_refused))]
    fn list(&self, dir: u32, after: &Name) -> Result<Body, AllocError>
        ensures { IfOk result (λ body. answered self.now (Some body) ≡ server.names_listed self.now (names.list (names_of self.now) dir after.now)) }
    {
        match self.stable.names.list(dir, after.as_slice()) {
            Ok(rows) => Ok(Body::Named(NameReply::Listed(NameRows::from_vec(rows)))),
            Err(refusal) => refused(refusal),
        }
    }

    /// Removes a directory, which must be empty.
    #[tactic(auto, unfolding(st_rules::specs::Server::remove_dir, st_rules::specs::Server::name_changed, st_rules::specs::Server::name_refused, st_rules::specs::Server::crash))]
    fn remove_dir(&mut self, dir: u32, name: &Name, g: GrantNo) -> Result<Body, AllocError>
        ensures ok { IfOk result (λ body. answered self.new (Some body) ≡ server.remove_dir self.old dir name.now g) }
        ensures kept { OnErr result (Keeps self.old self.new) }
    {
        if g.0 == 0 {
            match self.stable.names.remove(dir, name.as_slice()) {
                Ok(ino) => Ok(Body::Named(NameReply::Ino(ino))),
                Err(refusal) => refused(refusal),
            }
        } else {
            Ok(Body::Named(NameReply::Refused(4)))
        }
    }

    /// A file is removed, with its pages and waits, and that is noted. Only the first step may run
    /// out of memory.
    #[tactic(auto, unfolding(st_rules::specs::Server::remove_by, st_rules::specs::Server::cut_whole, st_rules::specs::Server::cut_pages, st_rules::specs::Server::name_refused, st_rules::specs::Server::crash))]
    fn remove_whole(&mut self, dir: u32, name: &Name) -> Result<Body, AllocError>
        ensures ok { IfOk result (λ body. answered self.new (Some body) ≡ server.remove_by self.old (names.remove (names_of self.old) dir name.now)) }
        ensures kept { OnErr result (Keeps self.old self.new) }
    {
        self.out.reserve(1)?;
        match self.stable.names.remove(dir, name.as_slice()) {
            Ok(ino) => {
                let file = self.file(ino);
                self.locks.drop_file_waits(ino);
                self.stable.extents.release_from(file, PageNo(0));
                self.out.push_reserved(Output::Note(Note::CutDone {
                    file,
                    from: PageNo(0),
                }));
                Ok(Body::Named(NameReply::Ino(ino)))
            }
            Err(refusal) => refused(refusal),
        }
    }

    #[tactic(auto, unfolding(st_rules::specs::Server::remove_file, st_rules::specs::Server::not_holder))]
    fn remove_file(
        &mut self,
        h: Header,
        dir: u32,
        name: &Name,
        g: GrantNo,
        ino: u32,
    ) -> Result<Body, AllocError>
        ensures ok { IfOk result (λ body. answered self.new (Some body) ≡ server.remove_file self.old h dir name.now g ino) }
        ensures kept { OnErr result (Keeps self.old self.new) }
    {
        if self.holds(h, ino, g, Mode::X) {
            self.remove_whole(dir, name)
        } else {
            Ok(not_holder(ino, g))
        }
    }

    /// A client removes an entry.
    #[tactic(auto, unfolding(st_rules::specs::Server::remove, st_rules::specs::Server::remove_found, st_rules::specs::Server::remove_ino, st_rules::specs::Server::name_refused))]
    fn remove(&mut self, h: Header, dir: u32, name: &Name, g: GrantNo) -> Result<Body, AllocError>
        ensures ok { IfOk result (λ body. answered self.new (Some body) ≡ server.remove self.old h dir name.now g) }
        ensures kept { OnErr result (Keeps self.old self.new) }
    {
        match self.stable.names.lookup(dir, name.as_slice()) {
            Ok(ino) => {
                if self.is_file(ino) {
                    self.remove_file(h, dir, name, g, ino)
                } else {
                    self.remove_dir(dir, name, g)
                }
            }
            Err(refusal) => refused(refusal),
        }
    }

    /// A client's request on names.
    #[tactic(auto, unfolding(st_rules::specs::Server::name))]
    pub(crate) fn name(&mut self, h: Header, op: &NameOp) -> Result<Body, AllocError>
        requires { self.old.state.stable.names.next < 2 ^ 32 - 1 }
        ensures ok { IfOk result (λ body. answered self.new (Some body) ≡ server.name self.old h op.now) }
        ensures kept { OnErr result (Keeps self.old self.new) }
    {
        match op {
            NameOp::Lookup { dir, name } => self.lookup(*dir, name),
            NameOp::Create { dir, name } => self.create(*dir, name),
            NameOp::Mkdir { dir, name } => self.mkdir(*dir, name),
            NameOp::Remove { dir, name, g } => self.remove(h, *dir, name, *g),
            NameOp::Rename {
                dir,
                name,
                dir2,
                name2,
            } => self.rename(*dir, name, *dir2, name2),
            NameOp::List { dir, after } => self.list(*dir, after),
        }
    }
}
