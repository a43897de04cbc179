ghost use Rattle.std.specs.Prelude.{◌≡◌, ◌<◌, IfOk, IfSome, OnErr, OnOk, None, Some, ◌++◌, ◌==◌, length, slice_get};
ghost use Rattle.std.specs.List.{list_all};
ghost use Rattle.st_base.specs.Page as pages;

use std::alloc::{AllocError, Global};
use std::marker::Model;
use std::rc::Rc;

/// The bytes of a page: one byte if all 4,096 are equal, and otherwise all of them, shared by
/// the copies of the page.
#[derive(Drop)]
enum Content {
    Filled(u8),
    Mixed(Rc<Vec<u8>>),
}

/// The 4,096 bytes of a page. Contracts see it as the list of these bytes. A page never changes. A
/// page whose bytes are all equal keeps one byte; the copies of any other page share one
/// allocation.
#[derive(Drop)]
pub struct PageBytes {
    content: Content,
}

impl Model for PageBytes {
    ghost use Rattle.std.specs.Prelude.{List, ℕ};
    ghost use Rattle.st_base.specs.Content.{IsPage, bytes_of};

    ghost Value = { List ℕ };

    ghost view = { λ p. bytes_of p.content };

    ghost invariant = { λ p. IsPage p.content };
}

impl Clone for PageBytes {
    ghost is_clone = { λ p q. q ≡ p };

    fn clone(&self) -> Result<PageBytes, AllocError> {
        self.copy()
    }
}

fn are_all(bytes: &[u8], byte: u8) -> bool
    ensures { result ≡ list_all (λ x. x == byte) bytes.now }
{
    bytes.iter().all(|x| *x == byte)
}

/// Returns the first byte if all bytes equal it. Without bytes it returns `None`.
#[tactic(auto, unfolding(crate::specs::Page::repeated_of))]
fn repeated_byte(bytes: &[u8]) -> Option<u8>
    ensures { result ≡ pages.repeated_of bytes.now }
{
    match bytes {
        [] => None,
        [first, rest @ ..] => {
            if are_all(rest, *first) {
                Some(*first)
            } else {
                None
            }
        }
    }
}

#[tactic(auto, unfolding(crate::specs::Page::filled))]
fn put_filled(out: &mut Vec<u8>, byte: u8) -> Result<(), AllocError>
    ensures added { OnOk result (out.new.items ≡ out.old.items ++ pages.filled byte) }
    ensures kept { OnErr result (out.new.items ≡ out.old.items) }
{
    let bytes = [byte; 4096];
    out.extend_from_slice(&bytes)
}

fn fill(into: &mut [u8], byte: u8)
    requires { length into.old ≡ 4096 }
    ensures { into.new ≡ pages.filled byte }
{
    into.fill(byte);
}

impl PageBytes {
    /// The number of bytes of a page.
    pub const LEN: usize = 4096;

    /// Makes a page whose bytes all equal `byte`. It does not allocate.
    #[tactic(auto, using(crate::proofs::Filled::length_filled, crate::proofs::Filled::repeated_of_filled))]
    pub fn filled(byte: u8) -> PageBytes
        ensures { result ≡ pages.filled byte }
    {
        PageBytes {
            content: Content::Filled(byte),
        }
    }

    /// Makes a page of a copy of these 4,096 bytes. It does not allocate if they are all equal.
    pub fn from_slice(alloc: Global, bytes: &[u8]) -> Result<PageBytes, AllocError>
        requires { length bytes.now ≡ 4096 }
        ensures { IfOk result (λ p. p ≡ bytes.now) }
    {
        if let Some(byte) = repeated_byte(bytes) {
            return Ok(PageBytes::filled(byte));
        }
        let bytes = Vec::from_slice(alloc, bytes)?;
        Ok(PageBytes {
            content: Content::Mixed(Rc::new(alloc, bytes)?),
        })
    }

    /// Makes a page of these 4,096 bytes, which it keeps unless they are all equal.
    pub fn from_vec(bytes: Vec<u8>) -> Result<PageBytes, AllocError>
        requires { length bytes.items ≡ 4096 }
        ensures { IfOk result (λ p. p ≡ bytes.items) }
    {
        if let Some(byte) = repeated_byte(bytes.as_slice()) {
            return Ok(PageBytes::filled(byte));
        }
        let alloc = *bytes.allocator();
        Ok(PageBytes {
            content: Content::Mixed(Rc::new(alloc, bytes)?),
        })
    }

    /// Returns the number of bytes, which is 4,096.
    pub fn len(&self) -> usize
        ensures whole { result ≡ 4096 }
        ensures page { length self.now ≡ 4096 }
    {
        // Read for what always holds of a page: its bytes are 4,096.
        let _content = &self.content;
        4096
    }

    /// Returns the byte at index `i`.
    #[tactic(auto, using(crate::proofs::Filled::filled_at))]
    pub fn get(&self, i: usize) -> &u8
        requires { i < length self.now }
        ensures { slice_get self.now i ≡ Some result.now }
    {
        match &self.content {
            Content::Filled(byte) => byte,
            Content::Mixed(bytes) => &bytes[i],
        }
    }

    /// Returns the byte that all bytes equal, or `None` if they are not all equal.
    pub fn repeated(&self) -> Option<u8>
        ensures exact { result ≡ pages.repeated_of self.now }
        ensures page { IfSome result (λ byte. self.now ≡ pages.filled byte) }
    {
        match &self.content {
            Content::Filled(byte) => Some(*byte),
            Content::Mixed(_) => None,
        }
    }

    /// Returns the bytes of a page whose bytes are not all equal. A page of equal bytes has no
    /// slice to lend.
    pub fn as_slice(&self) -> &[u8]
        requires { pages.repeated_of self.now ≡ None }
        ensures { result.now ≡ self.now }
    {
        match &self.content {
            Content::Filled(_) => unreachable!(),
            Content::Mixed(bytes) => bytes.as_slice(),
        }
    }

    /// Returns a copy of the page. It copies no bytes and allocates nothing for them.
    pub fn copy(&self) -> Result<PageBytes, AllocError>
        ensures { IfOk result (λ p. p ≡ self.now) }
    {
        match &self.content {
            Content::Filled(byte) => Ok(PageBytes::filled(*byte)),
            Content::Mixed(bytes) => Ok(PageBytes {
                content: Content::Mixed(bytes.clone()?),
            }),
        }
    }

    /// Appends the 4,096 bytes to `out`. If memory runs out `out` has the bytes that it had.
    pub fn put(&self, out: &mut Vec<u8>) -> Result<(), AllocError>
        ensures added { OnOk result (out.new.items ≡ out.old.items ++ self.now) }
        ensures kept { OnErr result (out.new.items ≡ out.old.items) }
    {
        match &self.content {
            Content::Filled(byte) => put_filled(out, *byte),
            Content::Mixed(bytes) => out.extend_from_slice(bytes.as_slice()),
        }
    }

    /// Copies the bytes into `into`, a slice of 4,096 bytes. It does not allocate.
    pub fn write_to(&self, into: &mut [u8])
        requires { length into.old ≡ 4096 }
        ensures { into.new ≡ self.now }
    {
        match &self.content {
            Content::Filled(byte) => fill(into, *byte),
            Content::Mixed(bytes) => into.copy_from_slice(bytes.as_slice()),
        }
    }
}
