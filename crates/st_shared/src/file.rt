// A shared file, with the law of its histories.
ghost use Rattle.std.specs.Prelude.{◌≡◌, length};
ghost use Rattle.std.specs.Borrow.{sem};
ghost use Rattle.st_locks.specs.DemandStarts.{IsClient};
ghost use Rattle.st_shared.specs.Calls.{Does, DoesOrLacks, Numbers, shown, shown_result, told_report};
ghost use Rattle.st_shared.specs.History as history;
ghost use Rattle.st_shared.specs.History.{GoesOnRightly, IsLedRightly};
ghost use Rattle.st_shared.specs.Reports.{EndsReported};
ghost use Rattle.st_shared.specs.Shared as rules;
ghost use Rattle.st_shared.specs.Shared.{fresh_shared};

use crate::answer::SharedAnswer;
use crate::law::every_history_is_right;
use crate::refusal::SharedRefusal;
use crate::state::SharedState;
use st_base::{ClientId, PageBytes, PageNo};
use std::alloc::Global;
use std::marker::Model;

/// One file that several clients read and write without caches. Contracts see the clients that are
/// in, the client with the lock row, whose each command is, and the disk. Every call keeps that
/// calls on a fresh file lead to this state, and that the history of all calls that do so is right.
#[derive(Drop)]
pub struct SharedFile {
    machine: SharedState,
}

impl Model for SharedFile {
    ghost use Rattle.st_shared.specs.Shared as shared;
    ghost use Rattle.st_shared.specs.History.{IsLedTo};

    ghost Value = { shared.Shared };

    ghost view = { λ f. f.machine };

    ghost invariant = { λ f. IsLedTo f.machine };
}

impl SharedFile {
    /// A file with this number of pages, all zeros. Nobody is in, and nobody has the lock. It does
    /// not allocate.
    pub fn new(alloc: Global, blocks: u32) -> SharedFile
        ensures fresh { result ≡ fresh_shared blocks }
        ensures led { IsLedRightly result }
    {
        let file = SharedFile {
            machine: SharedState::new(alloc, blocks),
        };
        file.is_led_rightly();
        file
    }

    /// Calls on a fresh file lead to this state, and the history of all calls that do so is right.
    fn is_led_rightly(&self)
        ensures { IsLedRightly self.now }
    {
        // Read for what always holds of a shared file: calls on a fresh one lead to its state.
        let _machine = &self.machine;
        every_history_is_right();
    }

    /// A client enters, and runs. A client that is in and runs stays in.
    ///
    /// # Errors
    /// In this order: `Stopped` if the client is in and stopped; `Held` if a client has the
    /// lock row. `Memory` comes after them. Then nothing changed.
    pub fn enter(&mut self, client: ClientId) -> Result<(), SharedRefusal>
        ensures exact { DoesOrLacks self.old self.new result (rules.enter self.old client) }
        ensures led { IsLedRightly self.new }
        ensures right { GoesOnRightly self.old (history.Enter client) }
    {
        every_history_is_right();
        let result = self.machine.enter(client);
        self.is_led_rightly();
        result
    }

    /// A client leaves. It looks at every command. It does not allocate.
    ///
    /// # Errors
    /// In this order: `NotIn`; `Stopped`; `Busy` with the least command of the client that was not
    /// reported. Then nothing changed.
    pub fn leave(&mut self, client: ClientId) -> Result<(), SharedRefusal>
        ensures exact { Does self.old self.new result (rules.leave self.old client) }
        ensures led { IsLedRightly self.new }
        ensures right { GoesOnRightly self.old (history.Leave client) }
    {
        every_history_is_right();
        let result = self.machine.leave(client);
        self.is_led_rightly();
        result
    }

    /// A client takes the exclusive lock of the file. A client that has it keeps it.
    ///
    /// # Errors
    /// In this order: `SharedBy` with the least client that is in; `Held` if another client has
    /// the lock row. `Memory` comes after them. Then nothing changed.
    pub fn lock(&mut self, client: ClientId) -> Result<(), SharedRefusal>
        requires client { IsClient client }
        ensures exact { DoesOrLacks self.old self.new result (rules.lock self.old client) }
        ensures led { IsLedRightly self.new }
        ensures right { GoesOnRightly self.old (history.Lock client) }
    {
        every_history_is_right();
        let result = self.machine.lock(client);
        self.is_led_rightly();
        result
    }

    /// A client gives its lock back. It does not allocate.
    ///
    /// # Errors
    /// `NoLock` if the client has no lock row. Then nothing changed.
    pub fn unlock(&mut self, client: ClientId) -> Result<(), SharedRefusal>
        ensures exact { Does self.old self.new result (rules.unlock self.old client) }
        ensures led { IsLedRightly self.new }
        ensures right { GoesOnRightly self.old (history.Unlock client) }
    {
        every_history_is_right();
        let result = self.machine.unlock(client);
        self.is_led_rightly();
        result
    }

    /// A client stops. It stays in until it expires, and gets no report of its commands. It looks
    /// at every command. It does not allocate.
    ///
    /// # Errors
    /// In this order: `NotIn`; `Stopped`. Then nothing changed.
    pub fn crash(&mut self, client: ClientId) -> Result<(), SharedRefusal>
        ensures exact { Does self.old self.new result (rules.crash self.old client) }
        ensures led { IsLedRightly self.new }
        ensures right { GoesOnRightly self.old (history.Crash client) }
    {
        every_history_is_right();
        let result = self.machine.crash(client);
        self.is_led_rightly();
        result
    }

    /// A stopped client expires: it is out, and none of its commands has its effect from now on. It
    /// may enter anew. It looks at every command. It does not allocate.
    ///
    /// # Errors
    /// `NotStopped` if the client is not in, or runs. Then nothing changed.
    pub fn expire(&mut self, client: ClientId) -> Result<(), SharedRefusal>
        ensures exact { Does self.old self.new result (rules.expire self.old client) }
        ensures led { IsLedRightly self.new }
        ensures right { GoesOnRightly self.old (history.Expire client) }
    {
        every_history_is_right();
        let result = self.machine.expire(client);
        self.is_led_rightly();
        result
    }

    /// A client submits a write of a page. It returns the number of the command: 1, 2 and so on.
    ///
    /// # Errors
    /// In this order: `NotIn`; `Stopped`; `NoPage`. `Memory` comes after them. Then nothing
    /// changed.
    pub fn write(
        &mut self,
        client: ClientId,
        page: PageNo,
        bytes: &PageBytes,
    ) -> Result<u64, SharedRefusal>
        ensures exact { Numbers self.old self.new result (rules.write self.old client page bytes.now) }
        ensures led { IsLedRightly self.new }
        ensures right { GoesOnRightly self.old (history.Write client page bytes.now) }
    {
        every_history_is_right();
        let result = self.machine.write(client, page, bytes);
        self.is_led_rightly();
        result
    }

    /// A client submits a read of a page. It returns the number of the command: 1, 2 and so on.
    ///
    /// # Errors
    /// In this order: `NotIn`; `Stopped`; `NoPage`. `Memory` comes after them. Then nothing
    /// changed.
    pub fn read(&mut self, client: ClientId, page: PageNo) -> Result<u64, SharedRefusal>
        ensures exact { Numbers self.old self.new result (rules.read self.old client page) }
        ensures led { IsLedRightly self.new }
        ensures right { GoesOnRightly self.old (history.Read client page) }
    {
        every_history_is_right();
        let result = self.machine.read(client, page);
        self.is_led_rightly();
        result
    }

    /// How many commands were submitted. It takes no memory.
    pub fn commands(&self) -> u64
        ensures { result ≡ length self.now.disk.commands }
    {
        self.machine.issued()
    }

    /// The command of this number has its effect on the disk.
    ///
    /// # Errors
    /// In this order: `Disk` with `NoCommand`, `Reported` or `Twice`; `Late` if the command's
    /// client expired since. `Memory` comes after them. Then nothing changed.
    pub fn effect(&mut self, n: u64) -> Result<(), SharedRefusal>
        ensures exact { DoesOrLacks self.old self.new result (rules.effect self.old n) }
        ensures led { IsLedRightly self.new }
        ensures right { GoesOnRightly self.old (history.Effect n) }
    {
        every_history_is_right();
        let result = self.machine.effect(n);
        self.is_led_rightly();
        result
    }

    fn end(&mut self, n: u64, ok: bool) -> Result<(), SharedRefusal>
        ensures exact { Does self.old self.new result (rules.report self.old n ok) }
        ensures led { IsLedRightly self.new }
    {
        every_history_is_right();
        let result = self.machine.end(n, ok);
        self.is_led_rightly();
        result
    }

    fn answer(&self, n: u64, ok: bool) -> SharedAnswer<'_>
        ensures { shown result ≡ rules.report_answer self.now n ok }
    {
        self.machine.answer(n, ok)
    }

    /// The disk reports the command of this number, as done or as failed, which ends it. If its
    /// client stopped since it submitted the command, the answer is `Silent`. It does not allocate.
    ///
    /// # Errors
    /// `Disk` with `NoCommand`, `Twice` or `NotEffected`, in this order. Then nothing changed.
    pub fn report(&mut self, n: u64, ok: bool) -> Result<SharedAnswer<'_>, SharedRefusal>
        ensures* left { sem 𝓛 (EndsReported self.entry n ok) }
        ensures told { shown_result result ≡ told_report n ok (rules.report self.old n ok) }
        ensures right { GoesOnRightly self.old (history.Report n ok) }
    {
        every_history_is_right();
        self.end(n, ok)?;
        Ok(self.answer(n, ok))
    }
}
