// A list of updates whose copies share almost all of it.
ghost use Rattle.std.specs.Prelude.{◌≡◌, ◌<◌, ◌^◌, ◌++◌, ◌∷◌, [], IfOk, OnOk, OnErr, Some, length, slice_get};
ghost use Rattle.st_move.specs.Chunks as kept;

use crate::update::Update;
use std::alloc::{AllocError, Global};
use std::marker::Model;
use std::rc::Rc;

/// How many updates a chunk has.
const CHUNK: usize = 32;

/// Updates that never change, and that all copies share.
#[derive(Drop)]
struct Chunk {
    items: Rc<Vec<Update>>,
}

impl Model for Chunk {
    ghost use Rattle.std.specs.Prelude.{List, ℕ};

    ghost Value = { List (List ℕ) };

    ghost view = { λ c. c.items.value.items };
}

/// The chunks of a list: none, or some that copies of the list share.
#[derive(Drop)]
enum Chunks {
    Empty,
    Shared(Rc<Vec<Chunk>>),
}

/// A list of updates: chunks of 32, which its copies share, and after them those that only it has.
/// Contracts see it as a list of lists of bytes.
#[derive(Drop)]
pub(crate) struct UpdateList {
    chunks: Chunks,
    last: Vec<Update>,
}

impl Model for UpdateList {
    ghost use Rattle.std.specs.Prelude.{◌≡◌, ◌++◌, List, ℕ, true};
    ghost use Rattle.std.specs.List.{list_all};
    ghost use Rattle.st_move.specs.Chunks.{chunks_of, in_chunks, is_chunk};

    ghost Value = { List (List ℕ) };

    ghost view = { λ u. in_chunks (chunks_of u.chunks) ++ u.last.items };

    ghost invariant = { λ u. list_all is_chunk (chunks_of u.chunks) ≡ true };
}

/// Copies of these updates.
fn copies(alloc: Global, items: &[Update]) -> Result<Vec<Update>, AllocError>
    ensures { IfOk result (λ v. v.items ≡ items.now) }
{
    let mut copies = Vec::new(alloc);
    for item in items {
        copies.push(item.copy()?)?;
    }
    Ok(copies)
}

/// Copies of these chunks.
fn chunk_copies(alloc: Global, chunks: &[Chunk]) -> Result<Vec<Chunk>, AllocError>
    ensures { IfOk result (λ v. v.items ≡ chunks.now) }
{
    let mut copies = Vec::new(alloc);
    for chunk in chunks {
        copies.push(chunk.copy()?)?;
    }
    Ok(copies)
}

impl Chunk {
    fn copy(&self) -> Result<Chunk, AllocError>
        ensures { IfOk result (λ c. c ≡ self.now) }
    {
        Ok(Chunk {
            items: self.items.clone()?,
        })
    }

    fn get(&self, i: usize) -> &Update
        requires { i < length self.now }
        ensures { slice_get self.now i ≡ Some result.now }
    {
        &self.items[i]
    }
}

impl Chunks {
    fn len(&self) -> usize
        ensures { result ≡ length (kept.chunks_of self.now) }
    {
        match self {
            Chunks::Empty => 0,
            Chunks::Shared(chunks) => chunks.len(),
        }
    }

    fn get(&self, i: usize) -> &Chunk
        requires { i < length (kept.chunks_of self.now) }
        ensures { slice_get (kept.chunks_of self.now) i ≡ Some result.now }
    {
        match self {
            Chunks::Empty => unreachable!(),
            Chunks::Shared(chunks) => &chunks[i],
        }
    }

    fn copy(&self) -> Result<Chunks, AllocError>
        ensures { IfOk result (λ cs. kept.chunks_of cs ≡ kept.chunks_of self.now) }
    {
        match self {
            Chunks::Empty => Ok(Chunks::Empty),
            Chunks::Shared(chunks) => Ok(Chunks::Shared(chunks.clone()?)),
        }
    }

    /// The chunks with one more.
    fn with_chunk(&self, alloc: Global, chunk: Chunk) -> Result<Chunks, AllocError>
        ensures { IfOk result (λ cs. kept.chunks_of cs ≡ kept.chunks_of self.now ++ chunk ∷ []) }
    {
        let mut chunks = match self {
            Chunks::Empty => Vec::new(alloc),
            Chunks::Shared(chunks) => chunk_copies(alloc, chunks.as_slice())?,
        };
        chunks.push(chunk)?;
        Ok(Chunks::Shared(Rc::new(alloc, chunks)?))
    }
}

/// Copies of these updates go last.
fn push_copies(list: &mut UpdateList, items: &[Update]) -> Result<(), AllocError>
    ensures { OnOk result (list.new ≡ list.old ++ items.now) }
{
    for item in items {
        list.push(item.copy()?)?;
    }
    Ok(())
}

impl UpdateList {
    /// No updates. It takes no memory.
    pub(crate) fn new(alloc: Global) -> UpdateList
        ensures { result ≡ [] }
    {
        UpdateList {
            chunks: Chunks::Empty,
            last: Vec::new(alloc),
        }
    }

    /// These updates, not in chunks. It takes no memory.
    pub(crate) fn from_vec(items: Vec<Update>) -> UpdateList
        ensures { result ≡ items.items }
    {
        UpdateList {
            chunks: Chunks::Empty,
            last: items,
        }
    }

    /// The allocator.
    pub(crate) fn alloc(&self) -> Global {
        *self.last.allocator()
    }

    /// The number of updates.
    pub(crate) fn len(&self) -> usize
        requires { length self.now < 2 ^ 32 }
        ensures { result ≡ length self.now }
    {
        self.chunks.len() * CHUNK + self.last.len()
    }

    /// The update at index `i`.
    pub(crate) fn get(&self, i: usize) -> &Update
        requires { i < length self.now }
        ensures { slice_get self.now i ≡ Some result.now }
    {
        let chunks = self.chunks.len();
        if i / CHUNK < chunks {
            self.chunks.get(i / CHUNK).get(i % CHUNK)
        } else {
            &self.last[i - chunks * CHUNK]
        }
    }

    /// Makes a chunk of the updates that no other list shares, if they are as many as a chunk has.
    fn close_chunk(&mut self) -> Result<(), AllocError>
        ensures { self.new ≡ self.old }
    {
        if self.last.len() != CHUNK {
            return Ok(());
        }
        let alloc = self.alloc();
        let chunk = Chunk {
            items: Rc::new(alloc, copies(alloc, self.last.as_slice())?)?,
        };
        self.chunks = self.chunks.with_chunk(alloc, chunk)?;
        self.last = Vec::new(alloc);
        Ok(())
    }

    /// One more update goes last. Each 32nd one takes a copy of a pointer for each chunk. If memory
    /// runs out the list stays as it is.
    pub(crate) fn push(&mut self, update: Update) -> Result<(), AllocError>
        ensures ok { OnOk result (self.new ≡ self.old ++ update ∷ []) }
        ensures err { OnErr result (self.new ≡ self.old) }
    {
        self.close_chunk()?;
        self.last.push(update)?;
        Ok(())
    }

    /// A copy. It shares the chunks, and takes a copy of a pointer for each update that no other
    /// list shares: at most 32, except for a list that was made by `from_vec`.
    pub(crate) fn copy(&self) -> Result<UpdateList, AllocError>
        ensures { IfOk result (λ us. us ≡ self.now) }
    {
        let mut copy = UpdateList {
            chunks: self.chunks.copy()?,
            last: Vec::new(self.alloc()),
        };
        push_copies(&mut copy, self.last.as_slice())?;
        Ok(copy)
    }
}
