// Tests of operations, as `answer_each` and `any` take them.
use crate::asks::{
    changes_page, is_asked, is_cut_or_name, is_of, is_on, is_sent, is_served_under, is_sync,
    reads_page,
};
use st_base::{Mode, PageNo, ServerId};
use st_rules::Operation;
use st_tables::Test;

/// The operations of this server.
#[derive(Clone, Copy)]
pub struct OfServer {
    pub server: ServerId,
}

impl Test<Operation> for OfServer {
    ghost use Rattle.st_rules.specs.ClientState.{is_of};

    ghost passes = { λ t o. is_of t.server o };

    fn test(&self, operation: &Operation) -> bool {
        is_of(self.server, operation)
    }
}

/// The operations that may do something at a server: each of its own, or only its syncs.
#[derive(Clone, Copy)]
pub struct MayAct {
    pub server: ServerId,
    pub all: bool,
}

impl Test<Operation> for MayAct {
    ghost use Rattle.st_operations.specs.PendingOperations.{may_act};

    ghost passes = { λ t o. may_act t.server t.all o };

    fn test(&self, operation: &Operation) -> bool {
        (self.all || is_sync(&operation.ask)) && is_of(self.server, operation)
    }
}

/// The operation of the server's outstanding request.
#[derive(Clone, Copy)]
pub struct RequestingOperation {
    pub server: ServerId,
}

impl Test<Operation> for RequestingOperation {
    ghost use Rattle.st_rules.specs.ClientState.{is_asked};

    ghost passes = { λ t o. is_asked t.server o };

    fn test(&self, operation: &Operation) -> bool {
        is_asked(self.server, operation)
    }
}

/// The operations on this file.
#[derive(Clone, Copy)]
pub struct OnFile {
    pub server: ServerId,
    pub ino: u32,
}

impl Test<Operation> for OnFile {
    ghost use Rattle.st_rules.specs.ClientState.{is_on};

    ghost passes = { λ t o. is_on t.server t.ino o };

    fn test(&self, operation: &Operation) -> bool {
        is_on(self.server, self.ino, operation)
    }
}

/// The operations on this file whose request was sent.
#[derive(Clone, Copy)]
pub struct SentOn {
    pub server: ServerId,
    pub ino: u32,
}

impl Test<Operation> for SentOn {
    ghost use Rattle.st_rules.specs.ClientState.{is_sent_on};

    ghost passes = { λ t o. is_sent_on t.server t.ino o };

    fn test(&self, operation: &Operation) -> bool {
        is_sent(operation) && is_on(self.server, self.ino, operation)
    }
}

/// The syncs of this file.
#[derive(Clone, Copy)]
pub struct SyncOn {
    pub server: ServerId,
    pub ino: u32,
}

impl Test<Operation> for SyncOn {
    ghost use Rattle.std.specs.Prelude.{◌&&◌};
    ghost use Rattle.st_rules.specs.ClientState.{is_on, is_sync};

    ghost passes = { λ t o. is_on t.server t.ino o && is_sync o.ask };

    fn test(&self, operation: &Operation) -> bool {
        is_on(self.server, self.ino, operation) && is_sync(&operation.ask)
    }
}

/// The operations on this file but its syncs.
#[derive(Clone, Copy)]
pub struct WorksOn {
    pub server: ServerId,
    pub ino: u32,
}

impl Test<Operation> for WorksOn {
    ghost use Rattle.std.specs.Prelude.{◌&&◌, not};
    ghost use Rattle.st_rules.specs.ClientState.{is_on, is_sync};

    ghost passes = { λ t o. is_on t.server t.ino o && not (is_sync o.ask) };

    fn test(&self, operation: &Operation) -> bool {
        is_on(self.server, self.ino, operation) && !is_sync(&operation.ask)
    }
}

/// The cuts and removes of this file whose request was not sent.
#[derive(Clone, Copy)]
pub struct CutOn {
    pub server: ServerId,
    pub ino: u32,
}

impl Test<Operation> for CutOn {
    ghost use Rattle.std.specs.Prelude.{◌&&◌, not};
    ghost use Rattle.st_rules.specs.ClientState.{is_on, is_cut_or_name, is_sent};

    ghost passes = { λ t o. is_on t.server t.ino o && (is_cut_or_name o.ask && not (is_sent o)) };

    fn test(&self, operation: &Operation) -> bool {
        is_on(self.server, self.ino, operation)
            && (is_cut_or_name(&operation.ask) && !is_sent(operation))
    }
}

/// The operations on this file, other than its syncs, that wait for a lock, or for what else they
/// need with the one that is held in this mode.
#[derive(Clone, Copy)]
pub struct Awaiting {
    pub server: ServerId,
    pub ino: u32,
    pub mode: Mode,
}

impl Test<Operation> for Awaiting {
    ghost use Rattle.st_operations.specs.AwaitedGrants.{awaits};

    ghost passes = { λ t o. awaits t.server t.ino t.mode o };

    fn test(&self, operation: &Operation) -> bool {
        is_on(self.server, self.ino, operation)
            && (!is_sync(&operation.ask)
                && (!is_sent(operation) && is_served_under(self.mode, &operation.ask)))
    }
}

/// The reads and patches of this page.
#[derive(Clone, Copy)]
pub struct ReadsPage {
    pub server: ServerId,
    pub ino: u32,
    pub page: PageNo,
}

impl Test<Operation> for ReadsPage {
    ghost use Rattle.st_rules.specs.ClientState.{reads_page};

    ghost passes = { λ t o. reads_page t.server t.ino t.page o.ask };

    fn test(&self, operation: &Operation) -> bool {
        reads_page(self.server, self.ino, self.page, &operation.ask)
    }
}

/// The writes and patches of this page.
#[derive(Clone, Copy)]
pub struct ChangesPage {
    pub server: ServerId,
    pub ino: u32,
    pub page: PageNo,
}

impl Test<Operation> for ChangesPage {
    ghost use Rattle.st_rules.specs.ClientState.{changes_page};

    ghost passes = { λ t o. changes_page t.server t.ino t.page o.ask };

    fn test(&self, operation: &Operation) -> bool {
        changes_page(self.server, self.ino, self.page, &operation.ask)
    }
}
