// A lease that is over: lost pages, and what is emptied.
ghost use Rattle.std.specs.Prelude.{◌≡◌, ◌+◌, ◌<◌, ◌^◌, true, false, None, Some, IfOk, OnOk, length, unwrap_or};
ghost use Rattle.st_client_association.specs.Turns.{most_of};
ghost use Rattle.st_messages.specs.declared.output.Note.TheVariants as notes;
ghost use Rattle.st_rules.specs.Client as node;
ghost use Rattle.st_rules.specs.ClientInvariants.{lasts_here};
ghost use Rattle.st_rules.specs.ClientPages as pages;
ghost use Rattle.st_rules.specs.ClientState as client;

use crate::session_turn::SessionTurn;
use crate::turn::Turn;
use st_base::{Life, Stamp};
use st_client_store::{LostPages, Store};
use st_messages::{AppAnswer, Note};
use st_rules::{DirtyPage, LostPage};
use std::alloc::AllocError;

/// The failed command, or else the outstanding one, or else 0.
fn lost_command(failed: Option<u64>, write: Option<u64>) -> u64
    ensures { result ≡ unwrap_or failed (unwrap_or write 0) }
{
    match failed {
        Some(failed) => failed,
        None => match write {
            Some(write) => write,
            None => 0,
        },
    }
}

/// The row of a dirty page that is lost.
fn lost_page(store: &Store, dirty: &DirtyPage) -> LostPage
    ensures { result ≡ pages.lost_page store.now.store.commands dirty.now }
{
    let write = store.write_on(dirty.ino, dirty.page);
    LostPage {
        ino: dirty.ino,
        page: dirty.page,
        command: lost_command(dirty.failed, write),
    }
}

/// The dirty pages join the lost ones.
#[tactic(auto, unfolding(st_rules::specs::ClientPages::with_lost_pages))]
fn put_lost(store: &Store, lost: &mut LostPages) -> Result<(), AllocError>
    ensures { OnOk result (lost.new ≡ pages.with_lost_pages store.now.store.commands store.now.store.pages.dirty lost.old) }
{
    for i in 0..store.dirty_count() {
        lost.put(lost_page(store, store.dirty_at(i)))?;
    }
    Ok(())
}

impl Turn {
    /// Whether pages of the file are lost.
    pub fn has_lost(&self, ino: u32) -> bool
        ensures { result ≡ pages.has_lost self.now.here.lost ino }
    {
        self.here.lost.has(ino)
    }

    /// The lost pages of a file are reported, and forgotten.
    #[tactic(auto, unfolding(st_rules::specs::Client::tell_lost))]
    pub fn tell_lost(&mut self, op: u32, ino: u32) -> Result<(), AllocError>
        ensures { OnOk result (self.new ≡ node.tell_lost self.old op ino) }
    {
        let rows = self.here.lost.tell(ino)?;
        self.answer(op, AppAnswer::Lost(rows))
    }
}

impl SessionTurn {
    /// Nothing is left but the lost pages, and the next life begins.
    fn emptied(self, now: Stamp) -> Turn
        requires over { lasts_here self.config now self.here ≡ false }
        requires lives { self.here.life.0 + 1 < most_of self.out }
        ensures { result ≡ node.empty_here self }
    {
        let SessionTurn { mut turn } = self;
        // For its clause `small`: the number of the next life has room.
        let _count = crate::outputs::count(&turn.out);
        let here = &mut *turn.here;
        match here.session.take() {
            Some(session) => session.end_lost(&mut here.store, now),
            None => unreachable!(),
        }
        here.greeting = None;
        here.life = Life(here.life.0 + 1);
        turn
    }

    /// The dirty pages join the lost ones.
    fn keep_lost(&mut self) -> Result<(), AllocError>
        ensures { OnOk result (self.new ≡ node.with_lost_pages self.old.here.store self.old) }
    {
        let turn = &mut self.turn;
        let here = &mut *turn.here;
        put_lost(&here.store, &mut here.lost)
    }

    /// A lease that is over is noted as lost; each dirty page joins the lost ones; all else but the
    /// pending operations is emptied, and the next life begins.
    pub fn discard(mut self, now: Stamp) -> Result<Turn, AllocError>
        requires { lasts_here self.config now self.here ≡ false }
        ensures { IfOk result (λ t. t ≡ node.empty_here (node.with_lost_pages self.here.store (client.note self (notes.Lost self.here.server self.here.life)))) }
    {
        let server = self.turn().server();
        let life = self.turn().life();
        self.note(Note::Lost { server, life })?;
        self.keep_lost()?;
        Ok(self.emptied(now))
    }
}
