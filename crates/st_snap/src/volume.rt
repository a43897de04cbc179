// A volume and its images.
ghost use Rattle.std.specs.Prelude.{◌≡◌, ◌+◌, ◌-◌, ◌≤◌, ◌<◌, ◌==◌, IfOk, IfErr, OnOk, OnErr, Ok, Err, List, ℕ, [], length, filter, not, true, false};
ghost use Rattle.std.specs.List.{AllByRecursion, list_any};
ghost use Rattle.std.specs.Option.{option_copied};
ghost use Rattle.st_snap.specs.Changes.{Change, shown};
ghost use Rattle.st_snap.specs.Images as images;
ghost use Rattle.st_snap.specs.Versions.{AreVersions, has_version, key_of, latest, page_at};
ghost use Rattle.st_snap.specs.Volumes.{AreRising, Ends, HasNoRoom, IsAfter, IsSwept, IsTaken, IsTakeOf, IsUnshared, Puts, first_after, is_seen};
ghost use Rattle.st_snap.specs.declared.refusal.SnapRefusal.TheVariants as refusals;
ghost use Rattle.st_snap.specs.declared.versions.VersionKey.{VersionKey};

use crate::refusal::SnapRefusal;
use crate::versions::{VersionKey, Versions};
use st_base::{PageBytes, PageNo, ServerId};
use std::alloc::{AllocError, Global};
use std::marker::Model;

/// How many images a volume keeps.
const MOST_IMAGES: usize = 64;

/// The first image that was taken after this many images, if one is kept.
fn first_after(kept: &[u32], takes: u32) -> Option<u32>
    ensures { result ≡ first_after kept.now takes }
{
    kept.iter().copied().find(|image| takes < *image)
}

/// The image is kept.
fn is_kept(kept: &[u32], image: u32) -> bool
    ensures { result ≡ list_any (λ other. image == other) kept.now }
{
    kept.iter().any(|other| image == *other)
}

/// Drops an image from the kept ones.
fn drop_image(kept: &mut Vec<u32>, image: u32)
    ensures { kept.new.items ≡ filter (λ other. not (image == other)) kept.old.items }
{
    kept.retain(|other| image != *other);
}

/// The version is seen in a view: in the first image that was taken after it began, or live.
fn is_seen(versions: &Versions, kept: &[u32], next: u32, key: VersionKey) -> bool
    ensures { result ≡ is_seen versions.now kept.now next key }
{
    let take = first_after(kept, key.takes).unwrap_or(next);
    versions.latest(key.file, PageNo(key.page), take) == Some(key.takes)
}

/// Takes out each version that is seen in no view.
fn sweep(versions: &mut Versions, kept: &[u32], next: u32)
    requires rising { AreRising kept.now }
    requires taken { AllByRecursion (IsTaken next) kept.now }
    ensures { IsSwept versions.old versions.new kept.now next }
{
    let mut cursor = versions.last();
    'versions: while let Some(key) = cursor {
        if !is_seen(versions, kept, next, key) {
            versions.remove(key);
        }
        cursor = versions.last_below(key);
    }
}

/// A container's pages, and images of them. The theorem of each call is about any list of writes,
/// takes and forgets that the volume stands for: an image's page is the last write before its take,
/// and the live page the last write of all.
///
/// A version of a page is kept as long as it is live or an image shows it. `take` keeps the image's
/// number, and copies nothing.
#[derive(Drop)]
pub struct Volume {
    versions: Versions,
    kept: Vec<u32>,
    next: u32,
}

impl Model for Volume {
    ghost use Rattle.st_snap.specs.Volumes as shared_volumes;

    ghost Value = { shared_volumes.Volume };

    ghost view = { λ v. record { versions = v.versions; kept = v.kept.items; next = v.next } };

    ghost invariant = { λ v. shared_volumes.IsHeld (record { versions = v.versions; kept = v.kept.items; next = v.next }) };
}

impl Volume {
    /// A volume of this number of blocks, without pages and images. The server is 1, to which the
    /// one disk belongs.
    pub fn new(alloc: Global, server: ServerId, blocks: u32) -> Result<Volume, AllocError>
        requires server { server.0 ≡ 1 }
        requires some { 1 ≤ blocks }
        requires few { blocks ≤ 4096 }
        ensures { IfOk result (IsAfter blocks []) }
    {
        Ok(Volume {
            versions: Versions::new(alloc, server, blocks)?,
            kept: Vec::new(alloc),
            next: 1,
        })
    }

    /// The live version of a page, if no kept image shares it.
    fn unshared(&self, file: u32, page: PageNo) -> Option<VersionKey>
        ensures { IsUnshared self.now file page.0 result }
    {
        let takes = self.versions.latest(file, page, self.next)?;
        if first_after(self.kept.as_slice(), takes).is_some() {
            return None;
        }
        Some(VersionKey {
            file,
            page: page.0,
            takes,
        })
    }

    /// Writes over a version. An error changes nothing.
    fn rewrite(&mut self, key: VersionKey, bytes: &PageBytes) -> Result<(), SnapRefusal>
        requires { has_version self.old.versions key ≡ true }
        ensures ok { OnOk result (Puts self.old self.new key bytes.now) }
        ensures err { OnErr result (self.new ≡ self.old) }
        ensures memory { IfErr result (λ e. e ≡ refusals.Memory) }
    {
        self.versions.set(key, bytes)?;
        Ok(())
    }

    /// Begins a version of a page, in a block of its own. `NoSpace` changes nothing.
    fn begin(&mut self, file: u32, page: PageNo, bytes: &PageBytes) -> Result<(), SnapRefusal>
        requires { has_version self.old.versions (key_of file page.0 (self.old.next - 1)) ≡ false }
        ensures ok { OnOk result (Puts self.old self.new (key_of file page.0 (self.old.next - 1)) bytes.now) }
        ensures room { OnOk result (length self.old.versions.slots < self.old.versions.blocks) }
        ensures err { IfErr result (HasNoRoom self.old self.new) }
        ensures kept { AreVersions self.old.versions }
    {
        if self.versions.free() == 0 {
            return Err(SnapRefusal::NoSpace { free: 0, asked: 1 });
        }
        let key = VersionKey {
            file,
            page: page.0,
            takes: self.next - 1,
        };
        self.versions.add(key, bytes)?;
        Ok(())
    }

    /// Writes a page. It takes a block if the page was never written, or if a kept image
    /// shows its bytes; then `NoSpace` with 0 and 1 if no block is free, and nothing changes.
    /// After `Memory` nothing is promised but that the volume can be dropped. The cost is that of a
    /// look-up, however many images are kept.
    pub fn write(&mut self, file: u32, page: PageNo, bytes: &PageBytes) -> Result<(), SnapRefusal>
        ensures { (blocks : ℕ) (changes : List Change) → IsAfter blocks changes self.old → Ends blocks self.old self.new result (images.write blocks changes file page.0 bytes.now) }
    {
        let _ = &self.versions;
        match self.unshared(file, page) {
            Some(key) => self.rewrite(key, bytes),
            None => self.begin(file, page, bytes),
        }
    }

    /// The take that a view is before: an image's own, and the next one for image 0, the live
    /// pages.
    fn take_of(&self, image: u32) -> Option<u32>
        ensures { IsTakeOf self.now image result }
    {
        if image == 0 {
            return Some(self.next);
        }
        if is_kept(self.kept.as_slice(), image) {
            return Some(image);
        }
        None
    }

    /// The bytes of a page before a take.
    fn page_before(&self, take: u32, file: u32, page: PageNo) -> Option<&PageBytes>
        ensures { option_copied result ≡ page_at self.now.versions file page.0 (latest (has_version self.now.versions) file page.0 take) }
    {
        let takes = self.versions.latest(file, page, take)?;
        Some(
            self.versions.get(VersionKey {
                file,
                page: page.0,
                takes,
            }),
        )
    }

    /// The bytes of a page in an image, or of the live page for image 0; `None` if nothing was
    /// written, which stands for zeros. `NoImage` if the image was never taken or was forgotten.
    /// It takes no memory, and costs a look-up among the images and one among the versions.
    pub fn read(
        &self,
        image: u32,
        file: u32,
        page: PageNo,
    ) -> Result<Option<&PageBytes>, SnapRefusal>
        ensures told { (blocks : ℕ) (changes : List Change) → IsAfter blocks changes self.now → IfOk result (λ o. images.read changes image file page.0 ≡ Ok (option_copied o)) }
        ensures refused { (blocks : ℕ) (changes : List Change) → IsAfter blocks changes self.now → IfErr result (λ e. images.read changes image file page.0 ≡ Err e) }
    {
        match self.take_of(image) {
            Some(take) => Ok(self.page_before(take, file, page)),
            None => Err(SnapRefusal::NoImage(image)),
        }
    }

    /// Takes an image of all live pages, and returns its number: 1, 2 and so on. `TooMany` if 64
    /// images are kept. It copies no page and takes no block: the cost is constant. `Memory` comes
    /// also if the last number, 4,294,967,294, was given. After `TooMany` nothing changes.
    pub fn take(&mut self) -> Result<u32, SnapRefusal>
        ensures { (blocks : ℕ) (changes : List Change) → IsAfter blocks changes self.old → Ends blocks self.old self.new result (images.take changes) }
    {
        if self.kept.len() >= MOST_IMAGES {
            return Err(SnapRefusal::TooMany(64));
        }
        if self.next == u32::MAX {
            return Err(SnapRefusal::Memory);
        }
        let image = self.next;
        self.kept.push(image)?;
        self.next += 1;
        Ok(image)
    }

    /// Forgets an image, and frees the blocks of the pages that only it showed. `NoImage` if it
    /// was never taken or was forgotten, and for image 0. It takes no memory. The cost is that of
    /// two look-ups for each version that is kept.
    pub fn forget(&mut self, image: u32) -> Result<(), SnapRefusal>
        ensures told { (blocks : ℕ) (changes : List Change) → IsAfter blocks changes self.old → Ends blocks self.old self.new result (images.forget changes image) }
        ensures cause { IfErr result (λ e. e ≡ refusals.NoImage image) }
    {
        if !is_kept(self.kept.as_slice(), image) {
            return Err(SnapRefusal::NoImage(image));
        }
        drop_image(&mut self.kept, image);
        sweep(&mut self.versions, self.kept.as_slice(), self.next);
        Ok(())
    }

    /// How many blocks are free. It takes no memory.
    pub fn free(&self) -> u32
        ensures { (blocks : ℕ) (changes : List Change) → IsAfter blocks changes self.now → result + shown changes ≡ blocks }
    {
        self.versions.free()
    }
}
