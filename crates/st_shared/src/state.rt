// The state of a shared file: its calls are the rules of the definitions.
ghost use Rattle.std.specs.Prelude.{◌≡◌, true, Some, None, Ok, IsOk, IfOk, OnOk, OnErr, length};
ghost use Rattle.st_locks.specs.DemandStarts.{IsClient};
ghost use Rattle.st_shared.specs.Shared as rules;
ghost use Rattle.st_shared.specs.Shared.{fresh_shared};
ghost use Rattle.st_rules.specs.Disks.{sample};
ghost use Rattle.st_rules.specs.World.{numbered};
ghost use Rattle.st_shared.specs.Calls.{Checks, Does, DoesOrLacks, Numbers, shown};

use crate::answer::SharedAnswer;
use crate::commands::{block_of, busy_command, effect_refusal, give_effect, tag_of};
use crate::issuers::{Issuer, expire_issuer, is_expired, is_silenced, issuer_of, stop_issuer};
use crate::members::{Member, drop_member, is_stopped, least_member, member_of, stop_member};
use crate::refusal::SharedRefusal;
use crate::rows::{drop_lock, holder, is_holder, new_table, take_lock};
use st_base::{ClientId, Command, PageBytes, PageNo};
use st_disk::Disks;
use st_locks::LockTable;
use std::alloc::{AllocError, Global};
use std::marker::Model;

/// The clients that are in, the lock table, whose each command is, and the disk. Contracts see the
/// definitions' record.
#[derive(Drop)]
pub struct SharedState {
    alloc: Global,
    members: Vec<Member>,
    locks: LockTable,
    issuers: Vec<Issuer>,
    disks: Disks,
    blocks: u32,
}

impl Model for SharedState {
    ghost use Rattle.std.specs.Prelude.{◌≡◌};
    ghost use Rattle.st_shared.specs.Shared as shared;
    ghost use Rattle.st_shared.specs.Rows.{IsFileTable, holder_of};

    ghost Value = { shared.Shared };

    ghost view = { λ m. record { members = m.members.items; holder = holder_of m.locks.rows; issuers = m.issuers.items; disk = m.disks } };

    ghost invariant = { λ m. IsFileTable m.locks × (m.disks.blocks ≡ m.blocks) };
}

impl SharedState {
    /// Nobody is in, nobody has the lock, and nothing was written. It does not allocate.
    pub fn new(alloc: Global, blocks: u32) -> SharedState
        ensures { result ≡ fresh_shared blocks }
    {
        SharedState {
            alloc,
            members: Vec::new(alloc),
            locks: new_table(alloc),
            issuers: Vec::new(alloc),
            disks: Disks::new(alloc, 1, blocks),
            blocks,
        }
    }

    fn member(&self, client: ClientId) -> Option<Member>
        ensures { result ≡ rules.member_of self.now client }
    {
        member_of(&self.members, client)
    }

    fn holder(&self) -> Option<ClientId>
        ensures { result ≡ self.now.holder }
    {
        holder(&self.locks)
    }

    /// Refuses a client that is not in, and then one that is stopped.
    #[tactic(auto, unfolding(crate::specs::Shared::check_running))]
    fn check_running(&self, client: ClientId) -> Result<(), SharedRefusal>
        ensures { result ≡ rules.check_running (rules.member_of self.now client) client }
    {
        match self.member(client) {
            None => Err(SharedRefusal::NotIn),
            Some(member) => {
                if member.running {
                    Ok(())
                } else {
                    Err(SharedRefusal::Stopped(client))
                }
            }
        }
    }

    #[tactic(auto, unfolding(crate::specs::Shared::shared_open))]
    fn enter_unlocked(&mut self, client: ClientId) -> Result<(), SharedRefusal>
        ensures { DoesOrLacks self.old self.new result (rules.enter_unlocked self.old client self.old.holder) }
    {
        if let Some(holder) = self.holder() {
            return Err(SharedRefusal::Held(holder));
        }
        match self.member(client) {
            None => {
                self.members.push(Member {
                    client,
                    running: true,
                })?;
                Ok(())
            }
            Some(_) => Ok(()),
        }
    }

    /// A client enters.
    #[tactic(auto, unfolding(crate::specs::Shared::enter))]
    pub fn enter(&mut self, client: ClientId) -> Result<(), SharedRefusal>
        ensures { DoesOrLacks self.old self.new result (rules.enter self.old client) }
    {
        if is_stopped(self.member(client)) {
            return Err(SharedRefusal::Stopped(client));
        }
        self.enter_unlocked(client)
    }

    fn busy(&self, client: ClientId) -> Option<u64>
        ensures { result ≡ rules.busy self.now client }
    {
        busy_command(&self.disks, &self.issuers, client)
    }

    #[tactic(auto, unfolding(crate::specs::Shared::left))]
    fn drop_member(&mut self, client: ClientId)
        ensures { self.new ≡ rules.left self.old client }
    {
        drop_member(&mut self.members, client);
    }

    /// A client leaves.
    #[tactic(auto, unfolding(crate::specs::Shared::leave, crate::specs::Shared::leave_idle, crate::specs::Shared::checked))]
    pub fn leave(&mut self, client: ClientId) -> Result<(), SharedRefusal>
        ensures { Does self.old self.new result (rules.leave self.old client) }
    {
        self.check_running(client)?;
        if let Some(n) = self.busy(client) {
            return Err(SharedRefusal::Busy(n));
        }
        self.drop_member(client);
        Ok(())
    }

    #[tactic(auto, unfolding(crate::specs::Shared::locked))]
    fn take_lock(&mut self, client: ClientId) -> Result<(), AllocError>
        requires client { IsClient client }
        requires free { self.old.holder ≡ None }
        ensures ok { OnOk result (self.new ≡ rules.locked self.old client) }
        ensures err { OnErr result (self.new ≡ self.old) }
    {
        take_lock(self.alloc, &mut self.locks, client)
    }

    #[tactic(auto, unfolding(crate::specs::Shared::lock_free))]
    fn lock_free(&mut self, client: ClientId) -> Result<(), SharedRefusal>
        requires client { IsClient client }
        ensures { DoesOrLacks self.old self.new result (rules.lock_free self.old client self.old.holder) }
    {
        match self.holder() {
            None => Ok(self.take_lock(client)?),
            Some(holder) => {
                if holder == client {
                    Ok(())
                } else {
                    Err(SharedRefusal::Held(holder))
                }
            }
        }
    }

    /// A client takes the lock.
    #[tactic(auto, unfolding(crate::specs::Shared::lock, crate::specs::Shared::lock_alone))]
    pub fn lock(&mut self, client: ClientId) -> Result<(), SharedRefusal>
        requires client { IsClient client }
        ensures { DoesOrLacks self.old self.new result (rules.lock self.old client) }
    {
        match least_member(&self.members) {
            Some(member) => Err(SharedRefusal::SharedBy(member)),
            None => self.lock_free(client),
        }
    }

    #[tactic(auto, unfolding(crate::specs::Shared::unlocked))]
    fn drop_lock(&mut self, client: ClientId)
        requires held { rules.is_holder self.old.holder client ≡ true }
        ensures { self.new ≡ rules.unlocked self.old }
    {
        drop_lock(&mut self.locks, client);
    }

    /// A client gives its lock back.
    #[tactic(auto, unfolding(crate::specs::Shared::unlock))]
    pub fn unlock(&mut self, client: ClientId) -> Result<(), SharedRefusal>
        ensures { Does self.old self.new result (rules.unlock self.old client) }
    {
        if !is_holder(self.holder(), client) {
            return Err(SharedRefusal::NoLock);
        }
        self.drop_lock(client);
        Ok(())
    }

    #[tactic(auto, unfolding(crate::specs::Shared::crashed))]
    fn stop(&mut self, client: ClientId)
        ensures { self.new ≡ rules.crashed self.old client }
    {
        stop_member(&mut self.members, client);
        stop_issuer(&mut self.issuers, client);
    }

    /// A client crashes.
    #[tactic(auto, unfolding(crate::specs::Shared::crash, crate::specs::Shared::checked))]
    pub fn crash(&mut self, client: ClientId) -> Result<(), SharedRefusal>
        ensures { Does self.old self.new result (rules.crash self.old client) }
    {
        self.check_running(client)?;
        self.stop(client);
        Ok(())
    }

    #[tactic(auto, unfolding(crate::specs::Shared::expired))]
    fn drop_stopped(&mut self, client: ClientId)
        ensures { self.new ≡ rules.expired self.old client }
    {
        drop_member(&mut self.members, client);
        expire_issuer(&mut self.issuers, client);
    }

    /// A stopped client expires.
    #[tactic(auto, unfolding(crate::specs::Shared::expire))]
    pub fn expire(&mut self, client: ClientId) -> Result<(), SharedRefusal>
        ensures { Does self.old self.new result (rules.expire self.old client) }
    {
        if !is_stopped(self.member(client)) {
            return Err(SharedRefusal::NotStopped(client));
        }
        self.drop_stopped(client);
        Ok(())
    }

    #[tactic(auto, unfolding(crate::specs::Shared::submitted))]
    fn push_command(&mut self, client: ClientId, what: Command) -> Result<u64, AllocError>
        ensures ok { OnOk result (self.new ≡ rules.submitted self.old client what) }
        ensures number { IfOk result (λ n. n ≡ length self.new.disk.commands) }
        ensures err { OnErr result (self.new ≡ self.old) }
    {
        self.issuers.reserve(1)?;
        let n = self.disks.submit(what)?;
        self.issuers.push(Issuer {
            client,
            stopped: false,
            expired: false,
        })?;
        Ok(n)
    }

    /// Refuses a client that may not submit a command, and then a page that the file does not have.
    #[tactic(auto, unfolding(crate::specs::Shared::check_submit, crate::specs::Shared::both, crate::specs::Shared::check_page))]
    fn check_submit(&self, client: ClientId, page: PageNo) -> Result<(), SharedRefusal>
        ensures { result ≡ rules.check_submit self.now client page }
    {
        self.check_running(client)?;
        if page.0 < self.blocks {
            Ok(())
        } else {
            Err(SharedRefusal::NoPage(page))
        }
    }

    /// A client writes a page. It returns the number of the command.
    #[tactic(auto, unfolding(crate::specs::Shared::submit, crate::specs::Shared::checked))]
    pub fn write(
        &mut self,
        client: ClientId,
        page: PageNo,
        bytes: &PageBytes,
    ) -> Result<u64, SharedRefusal>
        ensures { Numbers self.old self.new result (rules.write self.old client page bytes.now) }
    {
        if let Err(refusal) = self.check_submit(client, page) {
            return Err(refusal);
        }
        let command = Command::Write {
            at: block_of(page),
            tag: tag_of(page),
            bytes: bytes.copy()?,
        };
        Ok(self.push_command(client, command)?)
    }

    /// A client reads a page. It returns the number of the command.
    #[tactic(auto, unfolding(crate::specs::Shared::submit, crate::specs::Shared::checked))]
    pub fn read(&mut self, client: ClientId, page: PageNo) -> Result<u64, SharedRefusal>
        ensures { Numbers self.old self.new result (rules.read self.old client page) }
    {
        if let Err(refusal) = self.check_submit(client, page) {
            return Err(refusal);
        }
        let command = Command::Read { at: block_of(page) };
        Ok(self.push_command(client, command)?)
    }

    /// How many commands there are, by the list of whose each is.
    pub fn issued(&self) -> u64
        ensures { result ≡ length self.now.issuers }
    {
        self.issuers.len() as u64
    }

    fn issuer(&self, n: u64) -> Option<Issuer>
        ensures { result ≡ numbered self.now.issuers n }
    {
        issuer_of(&self.issuers, n)
    }

    /// Refuses an effect that the disk refuses, and then one of a client that expired since.
    #[tactic(auto, unfolding(crate::specs::Shared::effect, crate::specs::Shared::effect_timely))]
    fn check_effect(&self, n: u64) -> Result<(), SharedRefusal>
        ensures { Checks result (rules.effect self.now n) }
    {
        if let Some(refusal) = effect_refusal(&self.disks, n) {
            return Err(SharedRefusal::Disk(refusal));
        }
        if is_expired(self.issuer(n)) {
            return Err(SharedRefusal::Late(n));
        }
        Ok(())
    }

    #[tactic(auto, unfolding(crate::specs::Shared::effect, crate::specs::Shared::effect_timely, crate::specs::Shared::with_disk))]
    fn give_effect(&mut self, n: u64) -> Result<(), AllocError>
        requires { IsOk (rules.effect self.old n) }
        ensures ok { OnOk result (rules.effect self.old n ≡ Ok self.new) }
        ensures err { OnErr result (self.new ≡ self.old) }
    {
        give_effect(&mut self.disks, n)
    }

    /// The command of this number has its effect.
    pub fn effect(&mut self, n: u64) -> Result<(), SharedRefusal>
        ensures { DoesOrLacks self.old self.new result (rules.effect self.old n) }
    {
        if let Err(refusal) = self.check_effect(n) {
            return Err(refusal);
        }
        Ok(self.give_effect(n)?)
    }

    /// The command of this number is reported. It does not allocate.
    #[tactic(auto, unfolding(crate::specs::Shared::report, crate::specs::Shared::reported, crate::specs::Shared::with_disk))]
    pub fn end(&mut self, n: u64, ok: bool) -> Result<(), SharedRefusal>
        ensures { Does self.old self.new result (rules.report self.old n ok) }
    {
        match self.disks.done(n, ok) {
            Ok(()) => Ok(()),
            Err(refusal) => Err(SharedRefusal::Disk(refusal)),
        }
    }

    /// What the report of a command is answered.
    pub fn answer(&self, n: u64, ok: bool) -> SharedAnswer<'_>
        ensures { shown result ≡ rules.report_answer self.now n ok }
    {
        if is_silenced(self.issuer(n)) {
            return SharedAnswer::Silent;
        }
        if !ok {
            return SharedAnswer::Failed;
        }
        match self.disks.sample(n) {
            None => SharedAnswer::Hard,
            Some((_, bytes)) => SharedAnswer::Read(bytes),
        }
    }
}
