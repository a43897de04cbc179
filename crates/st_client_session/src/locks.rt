// The locks of a session, its waits and its releases.
ghost use Rattle.std.specs.Prelude.{◌≡◌, ◌∷◌, ◌++◌, [], true, Some, None, IfOk, OnOk, OnErr, slice_get};
ghost use Rattle.st_client_session.specs.Sessions.{with_session};
ghost use Rattle.st_rules.specs.Client.{is_any};
ghost use Rattle.st_rules.specs.ClientLocks as locks;
ghost use Rattle.st_rules.specs.ClientReplies as replies;
ghost use Rattle.st_rules.specs.ClientState as client;

use crate::lists::{drop_wait, has_release, put_wait, wait_of};
use crate::session::Session;
use st_base::{GrantNo, Mode, Stamp};
use st_messages::Body;
use st_rules::{Asked, HeldLock, LockWait, Release};
use std::alloc::AllocError;

impl Session {
    /// The lock on the file, if one is held.
    pub fn lock(&self, ino: u32) -> Option<HeldLock>
        ensures { result ≡ locks.lock_of self.now.session.locks ino }
    {
        self.locks.lock(ino)
    }

    /// The mode in which the file is held.
    pub fn mode(&self, ino: u32) -> Mode
        ensures { result ≡ locks.mode_of self.now.session.locks ino }
    {
        self.locks.mode(ino)
    }

    /// Whether the file is demanded.
    pub fn is_demanded(&self, ino: u32) -> bool
        ensures { result ≡ locks.is_demanded self.now.session.locks ino }
    {
        self.locks.demanded(ino)
    }

    /// Whether a file is demanded. It does not allocate.
    pub fn has_demands(&self) -> bool
        ensures { result ≡ is_any self.now.session.locks.demanded }
    {
        self.locks.has_demands()
    }

    /// The files that are demanded, in rising order.
    pub fn demanded_files(&self) -> Result<Vec<u32>, AllocError>
        ensures { IfOk result (λ v. v.items ≡ locks.demanded_files self.now.session.locks) }
    {
        self.locks.demanded_files()
    }

    /// All locks, by rising file.
    pub fn all_locks(&self) -> Result<Vec<(u32, GrantNo, Mode)>, AllocError>
        ensures { IfOk result (λ v. v.items ≡ locks.all_locks self.now.session.locks) }
    {
        self.locks.all()
    }

    /// The wait for the file, if one was reported.
    pub fn wait_of(&self, ino: u32) -> Option<LockWait>
        ensures { result ≡ client.wait_of self.now.session.waits ino }
    {
        wait_of(&self.waits, ino)
    }

    /// The first release that must be sent.
    pub fn first_release(&self) -> Option<Release>
        ensures { result ≡ slice_get self.now.session.releases 0 }
    {
        self.releases.first().copied()
    }

    /// The wait for the file is forgotten. It does not allocate.
    pub fn forget_wait(&mut self, ino: u32)
        ensures { self.new ≡ with_session (client.forget_wait ino self.old.session) self.old }
    {
        drop_wait(&mut self.waits, ino);
    }

    /// A release goes last. If the call runs out of memory, nothing changes.
    pub fn queue_release(&mut self, ino: u32, g: GrantNo, to: Mode) -> Result<(), AllocError>
        ensures ok { OnOk result (self.new ≡ with_session (client.with_release ino g to self.old.session) self.old) }
        ensures err { OnErr result (self.new ≡ self.old) }
    {
        self.releases.reserve(1)?;
        self.releases.push_reserved(Release { ino, g, to });
        Ok(())
    }

    /// A grant above the greatest seen is given back: its release goes last.
    #[tactic(auto, unfolding(st_rules::specs::ClientReplies::decline))]
    fn decline(&mut self, ino: u32, g: GrantNo) -> Result<(), AllocError>
        requires { locks.is_above_seen self.old.session.locks ino g ≡ true }
        ensures ok { OnOk result (self.new ≡ with_session (replies.decline self.old.session ino g) self.old) }
        ensures asked { self.new.session.requests ≡ self.old.session.requests }
        ensures err { OnErr result (self.new ≡ self.old) }
    {
        self.releases.reserve(1)?;
        self.locks.observe(ino, g)?;
        self.releases.push_reserved(Release {
            ino,
            g,
            to: Mode::None,
        });
        Ok(())
    }

    /// A grant above the greatest seen, for which there is a place.
    #[tactic(auto, unfolding(st_rules::specs::ClientReplies::accept_grant, st_rules::specs::ClientLocks::install_grant))]
    fn accept_grant(&mut self, ino: u32, g: GrantNo, mode: Mode) -> Result<(), AllocError>
        requires { locks.is_above_seen self.old.session.locks ino g ≡ true }
        ensures ok { OnOk result (self.new ≡ with_session (replies.accept_grant self.old.session ino g mode) self.old) }
        ensures asked { self.new.session.requests ≡ self.old.session.requests }
        ensures err { OnErr result (self.new ≡ self.old) }
    {
        // Whether the cache took the lock is not asked: the grant is above the greatest seen.
        let _taken = self.locks.install(ino, g, mode)?;
        Ok(())
    }

    #[tactic(auto, unfolding(st_rules::specs::ClientReplies::grant_new))]
    fn grant_new(&mut self, ino: u32, g: GrantNo, mode: Mode) -> Result<(), AllocError>
        requires { locks.is_above_seen self.old.session.locks ino g ≡ true }
        ensures ok { OnOk result (self.new ≡ with_session (replies.grant_new self.old.session ino g mode) self.old) }
        ensures asked { self.new.session.requests ≡ self.old.session.requests }
        ensures err { OnErr result (self.new ≡ self.old) }
    {
        if self.locks.has_place(ino) {
            self.accept_grant(ino, g, mode)
        } else {
            self.decline(ino, g)
        }
    }

    /// A grant: above the greatest seen it is installed if there is a place for it, and
    /// otherwise declined. If the call runs out of memory, nothing changes.
    #[tactic(auto, unfolding(st_rules::specs::ClientReplies::grant))]
    pub fn grant(&mut self, ino: u32, g: GrantNo, mode: Mode) -> Result<(), AllocError>
        ensures ok { OnOk result (self.new ≡ with_session (replies.grant self.old.session ino g mode) self.old) }
        ensures asked { self.new.session.requests ≡ self.old.session.requests }
        ensures err { OnErr result (self.new ≡ self.old) }
    {
        if self.locks.is_above_seen(ino, g) {
            self.grant_new(ino, g, mode)
        } else {
            Ok(())
        }
    }

    /// A wait is known, in place of an earlier one for the file. If the call runs out of memory,
    /// nothing changes.
    #[tactic(auto, unfolding(st_rules::specs::ClientReplies::wait_told))]
    fn wait_told(&mut self, ino: u32, mode: Mode, now: Stamp) -> Result<(), AllocError>
        ensures ok { OnOk result (self.new ≡ with_session (replies.wait_told self.old.session ino mode now) self.old) }
        ensures asked { self.new.session.requests ≡ self.old.session.requests }
        ensures err { OnErr result (self.new ≡ self.old) }
    {
        self.waits.reserve(1)?;
        put_wait(&mut self.waits, LockWait { ino, mode, at: now });
        Ok(())
    }

    /// A wait was reported now, if the held mode is lower. If the call runs out of memory, nothing
    /// changes.
    #[tactic(auto, unfolding(st_rules::specs::ClientReplies::wait_unless_held))]
    pub fn queued(&mut self, ino: u32, mode: Mode, now: Stamp) -> Result<(), AllocError>
        ensures ok { OnOk result (self.new ≡ with_session (replies.wait_unless_held self.old.session ino mode now) self.old) }
        ensures asked { self.new.session.requests ≡ self.old.session.requests }
        ensures err { OnErr result (self.new ≡ self.old) }
    {
        if self.locks.mode(ino).covers(mode) {
            Ok(())
        } else {
            self.wait_told(ino, mode, now)
        }
    }

    /// A demand on the file's lock. If the call runs out of memory, nothing changes.
    pub fn demand(&mut self, ino: u32, g: GrantNo, to: Mode) -> Result<Asked, AllocError>
        ensures asked { IfOk result (λ asked. asked ≡ (locks.demand self.old.session.locks ino g to).asked) }
        ensures ok { OnOk result (self.new ≡ with_session (client.with_cache (locks.demand self.old.session.locks ino g to).locks self.old.session) self.old) }
        ensures err { OnErr result (self.new ≡ self.old) }
    {
        let asked = self.locks.demand(ino, g, to)?;
        Ok(asked)
    }

    /// Whether a release of the file under this grant must be sent or outstanding.
    fn has_release(&self, ino: u32, g: GrantNo) -> bool
        ensures { result ≡ replies.has_release self.now.session ino g }
    {
        has_release(&self.releases, ino, g, Mode::None) || self.is_releasing(ino, g, Mode::None)
    }

    /// The release of a file without a lock goes last, unless it is there or outstanding. If the
    /// call runs out of memory, nothing changes.
    #[tactic(auto, unfolding(st_rules::specs::ClientReplies::release_unheld))]
    pub fn release_unheld(&mut self, ino: u32, g: GrantNo) -> Result<(), AllocError>
        ensures ok { OnOk result (self.new ≡ with_session (replies.release_unheld self.old.session ino g) self.old) }
        ensures asked { self.new.session.requests ≡ self.old.session.requests }
        ensures err { OnErr result (self.new ≡ self.old) }
    {
        if self.has_release(ino, g) {
            Ok(())
        } else {
            self.queue_release(ino, g, Mode::None)
        }
    }

    /// The lock of a demanded file is reduced to what is demanded. It returns the lock's grant and
    /// that mode. It does not allocate.
    pub fn reduce(&mut self, ino: u32) -> Option<(GrantNo, Mode)>
        ensures given { result ≡ (locks.reduce self.old.session.locks ino).given }
        ensures left { self.new ≡ with_session (client.with_cache (locks.reduce self.old.session.locks ino).locks self.old.session) self.old }
    {
        self.locks.reduce(ino)
    }

    /// The file's lock goes, and its demand with it. It does not allocate.
    pub fn drop_lock(&mut self, ino: u32)
        ensures { self.new ≡ with_session (client.with_cache (locks.drop_lock self.old.session.locks ino) self.old.session) self.old }
    {
        self.locks.drop_lock(ino);
    }
}
