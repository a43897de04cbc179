// Requests on the pages of a file.
ghost use Rattle.std.specs.Prelude.{◌≡◌, ◌≤◌, ◌+◌, ◌^◌, ◌<◌, ◌++◌, IfOk, OnOk, OnErr, Some};
ghost use Rattle.std.specs.Option.{option_to_list};
ghost use Rattle.st_rules.specs.Extents as extents;
ghost use Rattle.st_rules.specs.Server as server;
ghost use Rattle.st_server.specs.Steps.{Fails, Keeps, answered};
ghost use Rattle.st_server.specs.RefusalReplies.{row_told};

use crate::lock_requests::{no_file, not_holder};
use crate::turn::ServerTurn;
use st_base::{BlockAt, ExtentRow, ExtentRows, FileId, GrantNo, Mode, PageNo};
use st_extents::{ExtentRefusal, Extents};
use st_messages::{Body, Header, Note, Why};
use std::alloc::{AllocError, Global};

/// Adds the row of a page, if it is mapped.
fn push_row(
    rows: &mut Vec<ExtentRow>,
    page: PageNo,
    mapped: Option<(BlockAt, u64)>,
) -> Result<(), AllocError>
    ensures { OnOk result (rows.new.items ≡ rows.old.items ++ option_to_list (row_told page mapped)) }
{
    match mapped {
        None => Ok(()),
        Some((at, birth)) => {
            rows.push(ExtentRow { page, at, birth })?;
            Ok(())
        }
    }
}

/// Adds what is reported about a page.
#[tactic(auto, using(crate::proofs::Ranges::told_row))]
fn push_page(
    rows: &mut Vec<ExtentRow>,
    mapped: &Extents,
    file: FileId,
    page: PageNo,
) -> Result<(), AllocError>
    ensures { OnOk result (rows.new.items ≡ rows.old.items ++ option_to_list (extents.extent_row_at mapped.now file page)) }
{
    push_row(rows, page, mapped.map(file, page))
}

/// The rows of the mapped pages of a range, in rising order.
#[tactic(auto, unfolding(st_rules::specs::Extents::extent_rows))]
fn rows_of_range(
    alloc: Global,
    mapped: &Extents,
    file: FileId,
    page: PageNo,
    count: u32,
) -> Result<ExtentRows, AllocError>
    requires { page.0 + count ≤ 1048576 }
    ensures { IfOk result (λ rows. rows ≡ extents.extent_rows mapped.now file page count) }
{
    let mut rows = Vec::new(alloc);
    for place in 0..count {
        push_page(&mut rows, mapped, file, PageNo(page.0 + place))?;
    }
    Ok(ExtentRows::from_vec(rows))
}

impl ServerTurn {
    /// The file of an inode.
    pub(crate) fn file(&self, ino: u32) -> FileId
        ensures { result ≡ server.file self.now ino }
    {
        FileId {
            server: self.id,
            ino,
        }
    }

    /// What is reported about a range of pages.
    fn extents_body(&self, ino: u32, page: PageNo, count: u32) -> Result<Body, AllocError>
        requires { page.0 + count ≤ 1048576 }
        ensures { IfOk result (λ body. body ≡ server.extents_body self.now ino page count) }
    {
        let file = self.file(ino);
        let rows = rows_of_range(self.alloc, &self.stable.extents, file, page, count)?;
        Ok(Body::Extents { ino, rows })
    }

    /// A client asks where a page lies.
    #[tactic(auto, unfolding(st_rules::specs::Server::map, st_rules::specs::Server::map_held, st_rules::specs::Server::map_page, st_rules::specs::Server::no_file, st_rules::specs::Server::not_holder))]
    pub(crate) fn map(
        &self,
        h: Header,
        ino: u32,
        g: GrantNo,
        page: PageNo,
    ) -> Result<Body, AllocError>
        requires { page.0 + 1 ≤ 1048576 }
        ensures { IfOk result (λ body. answered self.now (Some body) ≡ server.map self.now h ino g page) }
    {
        if !self.is_file(ino) {
            Ok(no_file(ino))
        } else if self.holds(h, ino, g, Mode::S) {
            self.extents_body(ino, page, 1)
        } else {
            Ok(not_holder(ino, g))
        }
    }

    #[tactic(auto, unfolding(st_rules::specs::Server::allocate_pages, st_rules::specs::Server::allocate_by, st_rules::specs::Server::with_extents_told))]
    fn allocate_pages(&mut self, ino: u32, page: PageNo, count: u32) -> Result<Body, AllocError>
        requires range { page.0 + count ≤ 1048576 }
        requires births { self.old.state.stable.extents.births < 2 ^ 62 }
        ensures ok { IfOk result (λ body. answered self.new (Some body) ≡ server.allocate_pages self.old ino page count) }
        ensures err { OnErr result (Fails self.old self.new (server.allocate_pages self.old ino page count).turn) }
    {
        let file = self.file(ino);
        match self.stable.extents.allocate(file, page, count) {
            Ok(()) => self.extents_body(ino, page, count),
            Err(ExtentRefusal::NoSpace { free, asked }) => Ok(Body::Nack {
                why: Why::NoSpace,
                a: free,
                b: asked,
            }),
            Err(ExtentRefusal::Memory) => Err(AllocError),
        }
    }

    #[tactic(auto, unfolding(st_rules::specs::Server::allocate_held, st_rules::specs::Server::not_holder))]
    fn allocate_held(
        &mut self,
        h: Header,
        ino: u32,
        g: GrantNo,
        page: PageNo,
        count: u32,
    ) -> Result<Body, AllocError>
        requires range { page.0 + count ≤ 1048576 }
        requires births { self.old.state.stable.extents.births < 2 ^ 62 }
        ensures ok { IfOk result (λ body. answered self.new (Some body) ≡ server.allocate_held self.old h ino g page count) }
        ensures err { OnErr result (Fails self.old self.new (server.allocate_held self.old h ino g page count).turn) }
    {
        if self.holds(h, ino, g, Mode::X) {
            self.allocate_pages(ino, page, count)
        } else {
            Ok(not_holder(ino, g))
        }
    }

    /// A client asks for blocks for a range of pages.
    #[tactic(auto, unfolding(st_rules::specs::Server::allocate, st_rules::specs::Server::no_file))]
    pub(crate) fn allocate(
        &mut self,
        h: Header,
        ino: u32,
        g: GrantNo,
        page: PageNo,
        count: u32,
    ) -> Result<Body, AllocError>
        requires range { page.0 + count ≤ 1048576 }
        requires births { self.old.state.stable.extents.births < 2 ^ 62 }
        ensures ok { IfOk result (λ body. answered self.new (Some body) ≡ server.allocate self.old h ino g page count) }
        ensures err { OnErr result (Fails self.old self.new (server.allocate self.old h ino g page count).turn) }
    {
        if self.is_file(ino) {
            self.allocate_held(h, ino, g, page, count)
        } else {
            Ok(no_file(ino))
        }
    }

    /// The pages of a file are cut from this page on, and that is noted.
    #[tactic(auto, unfolding(st_rules::specs::Server::cut_pages))]
    fn cut_pages(&mut self, ino: u32, from: PageNo) -> Result<(), AllocError>
        ensures ok { OnOk result (self.new ≡ server.cut_pages self.old ino from) }
        ensures kept { OnErr result (Keeps self.old self.new) }
    {
        let file = self.file(ino);
        self.note(Note::CutDone { file, from })?;
        self.stable.extents.release_from(file, from);
        Ok(())
    }

    /// A client cuts a file.
    #[tactic(auto, unfolding(st_rules::specs::Server::cut, st_rules::specs::Server::cut_held, st_rules::specs::Server::cut_from, st_rules::specs::Server::no_file, st_rules::specs::Server::not_holder))]
    pub(crate) fn cut(
        &mut self,
        h: Header,
        ino: u32,
        g: GrantNo,
        from: PageNo,
    ) -> Result<Body, AllocError>
        ensures ok { IfOk result (λ body. answered self.new (Some body) ≡ server.cut self.old h ino g from) }
        ensures kept { OnErr result (Keeps self.old self.new) }
    {
        if !self.is_file(ino) {
            Ok(no_file(ino))
        } else if self.holds(h, ino, g, Mode::X) {
            self.cut_pages(ino, from)?;
            Ok(Body::Ack)
        } else {
            Ok(not_holder(ino, g))
        }
    }
}
