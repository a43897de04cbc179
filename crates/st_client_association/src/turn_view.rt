// A step at an association as it would begin, shown by references.
ghost use Rattle.std.specs.Prelude.{◌≡◌, [], IfOk, is_some};
ghost use Rattle.std.specs.Option.{option_copied, option_map};
ghost use Rattle.st_client_association.specs.Turns.{told_session};
ghost use Rattle.st_rules.specs.ClientPages as pages;

use crate::association::{Association, AssociationParts};
use crate::dirty_row::DirtyRow;
use st_base::{Config, PageNo, ServerId, Stamp};
use st_client_session::Session;
use st_operations::Operations;
use st_rules::KnownExtent;
use std::alloc::AllocError;
use std::marker::Model;

/// A step at one server as it would begin, to look at: what the client has of the server, and its
/// pending operations. Contracts see it as the definitions' turn, without outputs.
#[derive(Drop)]
pub struct TurnView<'a> {
    here: &'a AssociationParts,
    operations: &'a Operations,
    next_command: u64,
}

impl<'a> Model for TurnView<'a> {
    ghost use Rattle.std.specs.Prelude.{[], option_map};
    ghost use Rattle.st_client_association.specs.Turns.{told_session};
    ghost use Rattle.st_rules.specs.ClientState as shared;

    ghost Value = { shared.Turn };

    ghost view = { λ v. record {
      id = v.here.now.id;
      config = v.here.now.config;
      here = record {
        server = v.here.now.server;
        life = v.here.now.life;
        greeting = v.here.now.greeting;
        session = option_map told_session v.here.now.session;
        store = v.here.now.store.store;
        lost = v.here.now.lost;
      };
      operations = v.operations.now;
      next_command = v.next_command;
      out = [];
    } };
}

impl Association {
    /// A step at this association as it would begin, with the pending operations and the next
    /// command's number. The association stays where it is.
    pub fn look<'a>(&'a self, operations: &'a Operations, next_command: u64) -> TurnView<'a>
        ensures { result ≡ record { id = self.now.id; config = self.now.config; here = self.now.here; operations = operations.now; next_command = next_command; out = [] } }
    {
        let here: &'a AssociationParts = &self.here;
        TurnView {
            here,
            operations,
            next_command,
        }
    }
}

impl<'a> TurnView<'a> {
    /// The settings.
    pub fn config(&self) -> &Config
        ensures { result.now ≡ self.now.config }
    {
        &self.here.config
    }

    /// The server.
    pub fn server(&self) -> ServerId
        ensures { result ≡ self.now.here.server }
    {
        self.here.server
    }

    /// When the client greeted, if it waits for an answer.
    pub fn greeting(&self) -> Option<Stamp>
        ensures { result ≡ self.now.here.greeting }
    {
        self.here.greeting
    }

    /// The pending operations, in order.
    pub fn operations(&self) -> &Operations
        ensures { result.now ≡ self.now.operations }
    {
        self.operations
    }

    /// The session, if there is one.
    pub fn session(&self) -> Option<&Session>
        ensures { option_map told_session (option_copied result) ≡ self.now.here.session }
    {
        self.here.session.as_ref()
    }

    /// Whether the file has no dirty page and no outstanding write.
    pub fn is_hard(&self, ino: u32) -> bool
        ensures { result ≡ pages.is_hard self.now.here.store ino }
    {
        self.here.store.is_hard(ino)
    }

    /// Whether the file has no dirty page and no outstanding command.
    pub fn is_idle(&self, ino: u32) -> bool
        ensures { result ≡ pages.is_idle self.now.here.store ino }
    {
        self.here.store.is_idle(ino)
    }

    /// What is known of a page.
    pub fn known(&self, ino: u32, page: PageNo) -> Option<KnownExtent>
        ensures { result ≡ pages.known_of self.now.here.store.extents ino page }
    {
        self.here.store.known(ino, page)
    }

    /// Whether the page is known to have a block.
    pub fn is_mapped(&self, ino: u32, page: PageNo) -> bool
        ensures { result ≡ pages.is_mapped self.now.here.store.extents ino page }
    {
        self.here.store.mapping(ino, page).is_some()
    }

    /// Whether a page is dirty or clean. A clean page stays in its place.
    pub fn is_cached(&self, ino: u32, page: PageNo) -> bool
        ensures { result ≡ is_some (pages.cached self.now.here.store.pages ino page) }
    {
        self.here.store.is_cached(ino, page)
    }

    /// Whether a read of the page is outstanding.
    pub fn is_being_read(&self, ino: u32, page: PageNo) -> bool
        ensures { result ≡ pages.is_being_read self.now.here.store.commands ino page }
    {
        self.here.store.is_being_read(ino, page)
    }

    /// Whether a write of the page is outstanding.
    pub fn is_being_written(&self, ino: u32, page: PageNo) -> bool
        ensures { result ≡ pages.is_being_written self.now.here.store.commands ino page }
    {
        self.here.store.is_being_written(ino, page)
    }

    /// The dirty page, without its bytes.
    pub fn dirty(&self, ino: u32, page: PageNo) -> Option<DirtyRow<'_>>
        ensures { result ≡ pages.dirty_of self.now.here.store.pages ino page }
    {
        match self.here.store.dirty_page(ino, page) {
            None => None,
            Some(page) => Some(DirtyRow::of(page)),
        }
    }

    /// The places of all dirty pages, by rising file and page.
    pub fn dirty_places(&self) -> Result<Vec<(u32, PageNo)>, AllocError>
        ensures { IfOk result (λ v. v.items ≡ pages.dirty_places self.now.here.store.pages) }
    {
        self.here.store.dirty_places()
    }
}
