// The script of a volume with images: its state, and what each event does and answers.
ghost use Rattle.std.specs.Prelude.{◌≡◌, ◌≤◌, ◌++◌, ◌∷◌, [], ℕ, List, OnOk, ⊤, IfSome};
ghost use Rattle.std.specs.Io.KnownBytes.{IsAtEnd};
ghost use Rattle.st_base.specs.Page.{filled};
ghost use Rattle.st_snap.specs.Changes.{Change};
ghost use Rattle.st_snap.specs.Images as images;
ghost use Rattle.st_snap.specs.Volumes.{IsAfter};
ghost use Rattle.st_script.specs.Ends.{HasCauses, Reports};
ghost use Rattle.st_script.specs.Scripts.{answer_lines, script_of};
ghost use Rattle.st_script_containers.specs.SnapScripts.{IsAnswered};
ghost use Rattle.st_script_containers.specs.SnapScripts as scripts;

use crate::snap_event::{SnapEvent, blocks_of, snap_event};
use st_base::{PageBytes, PageNo, ServerId};
use st_link::{Sink, Source};
use st_report::{put_field, put_page, put_text};
use st_schedule::ReadError;
use st_script::{Script, ScriptFault, begin_answer, end_answer, put_answer, run_headed};
use st_snap::{SnapRefusal, Volume};
use std::alloc::{AllocError, Global};

/// A script of images, by its volume.
#[derive(Drop)]
pub struct SnapScript {
    volume: Volume,
}

/// Appends a refusal. It fails if the refusal is lack of memory.
fn put_why(text: &mut Vec<u8>, refusal: SnapRefusal) -> Result<(), AllocError>
    ensures { OnOk result (IsAnswered refusal × (text.new.items ≡ text.old.items ++ scripts.refusal refusal)) }
{
    match refusal {
        SnapRefusal::NoSpace { free, asked } => {
            put_text(text, b" nospace")?;
            put_field(text, free)?;
            put_field(text, asked)
        }
        SnapRefusal::NoImage(image) => {
            put_text(text, b" noimage")?;
            put_field(text, u64::from(image))
        }
        SnapRefusal::TooMany(kept) => {
            put_text(text, b" toomany")?;
            put_field(text, u64::from(kept))
        }
        SnapRefusal::Memory => Err(AllocError),
    }
}

/// Appends the line of an event that is refused. It fails if the refusal is lack of memory.
fn put_refused(text: &mut Vec<u8>, number: u64, refusal: SnapRefusal) -> Result<(), AllocError>
    ensures { OnOk result (IsAnswered refusal × (text.new.items ≡ text.old.items ++ answer_lines number (scripts.refusal refusal ∷ []))) }
{
    begin_answer(text, number)?;
    put_why(text, refusal)?;
    end_answer(text)
}

/// Appends the line of an image that was taken.
fn put_image(text: &mut Vec<u8>, number: u64, image: u32) -> Result<(), AllocError>
    ensures { OnOk result (text.new.items ≡ text.old.items ++ answer_lines number (scripts.image_text image ∷ [])) }
{
    begin_answer(text, number)?;
    put_text(text, b" image")?;
    put_field(text, u64::from(image))?;
    end_answer(text)
}

/// Appends the line of a page that was read.
fn put_read(text: &mut Vec<u8>, number: u64, page: &PageBytes) -> Result<(), AllocError>
    ensures { OnOk result (text.new.items ≡ text.old.items ++ answer_lines number (scripts.page_text page.now ∷ [])) }
{
    begin_answer(text, number)?;
    put_page(text, page)?;
    end_answer(text)
}

/// Appends the last line: the number of events, and of free blocks.
fn put_last(text: &mut Vec<u8>, events: u64, free: u32) -> Result<(), AllocError>
    ensures { OnOk result (text.new.items ≡ text.old.items ++ scripts.last_text events free) }
{
    put_text(text, b"end events")?;
    put_field(text, events)?;
    put_text(text, b" free")?;
    put_field(text, u64::from(free))?;
    put_text(text, b"\n")
}

/// Appends the line of a page that was read and never written.
fn put_zeros(text: &mut Vec<u8>, number: u64) -> Result<(), AllocError>
    ensures { OnOk result (text.new.items ≡ text.old.items ++ answer_lines number (scripts.page_text (filled 0) ∷ [])) }
{
    put_read(text, number, &PageBytes::filled(0))
}

fn play_write(
    volume: &mut Volume,
    number: u64,
    file: u32,
    page: u32,
    byte: u8,
    text: &mut Vec<u8>,
) -> Result<(), AllocError>
    ensures text { (blocks : ℕ) (changes : List Change) → IsAfter blocks changes volume.old → OnOk result (text.new.items ≡ text.old.items
        ++ answer_lines number (scripts.done (images.write blocks changes file page (filled byte)) ∷ [])) }
    ensures stands { (blocks : ℕ) (changes : List Change) → IsAfter blocks changes volume.old →
        OnOk result (IsAfter blocks (scripts.left changes (images.write blocks changes file page (filled byte))) volume.new) }
{
    match volume.write(file, PageNo(page), &PageBytes::filled(byte)) {
        Ok(()) => put_answer(text, number, b" ok"),
        Err(refusal) => put_refused(text, number, refusal),
    }
}

fn play_read(
    volume: &Volume,
    number: u64,
    image: u32,
    file: u32,
    page: u32,
    text: &mut Vec<u8>,
) -> Result<(), AllocError>
    ensures { (blocks : ℕ) (changes : List Change) → IsAfter blocks changes volume.now → OnOk result (text.new.items ≡ text.old.items
        ++ answer_lines number (scripts.told (images.read changes image file page) ∷ [])) }
{
    match volume.read(image, file, PageNo(page)) {
        Ok(Some(bytes)) => put_read(text, number, bytes),
        Ok(None) => put_zeros(text, number),
        Err(refusal) => put_refused(text, number, refusal),
    }
}

fn play_take(volume: &mut Volume, number: u64, text: &mut Vec<u8>) -> Result<(), AllocError>
    ensures text { (blocks : ℕ) (changes : List Change) → IsAfter blocks changes volume.old → OnOk result (text.new.items ≡ text.old.items
        ++ answer_lines number (scripts.taken (images.take changes) ∷ [])) }
    ensures stands { (blocks : ℕ) (changes : List Change) → IsAfter blocks changes volume.old →
        OnOk result (IsAfter blocks (scripts.left changes (images.take changes)) volume.new) }
{
    match volume.take() {
        Ok(image) => put_image(text, number, image),
        Err(refusal) => put_refused(text, number, refusal),
    }
}

fn play_forget(
    volume: &mut Volume,
    number: u64,
    image: u32,
    text: &mut Vec<u8>,
) -> Result<(), AllocError>
    ensures text { (blocks : ℕ) (changes : List Change) → IsAfter blocks changes volume.old → OnOk result (text.new.items ≡ text.old.items
        ++ answer_lines number (scripts.done (images.forget changes image) ∷ [])) }
    ensures stands { (blocks : ℕ) (changes : List Change) → IsAfter blocks changes volume.old →
        OnOk result (IsAfter blocks (scripts.left changes (images.forget changes image)) volume.new) }
{
    match volume.forget(image) {
        Ok(()) => put_answer(text, number, b" ok"),
        Err(refusal) => put_refused(text, number, refusal),
    }
}

impl Script for SnapScript {
    ghost use Rattle.st_script_containers.specs.SnapScripts.{SnapState, head, snap_rules};
    ghost use Rattle.st_snap.specs.Volumes.{IsAfter};

    type Event = SnapEvent;

    ghost State = { SnapState };

    ghost head = { head };

    ghost rules = { snap_rules };

    ghost stands = { λ n s x. IsAfter s.blocks s.changes x.volume };

    fn begin(alloc: Global, line: &[u8]) -> Result<SnapScript, ReadError> {
        let blocks = blocks_of(line)?;
        let volume = Volume::new(alloc, ServerId(1), blocks)?;
        Ok(SnapScript { volume })
    }

    fn event(_alloc: Global, line: &[u8]) -> Result<SnapEvent, ReadError> {
        snap_event(line)
    }

    #[tactic(auto, unfolding(crate::specs::SnapScripts::changed, crate::specs::SnapScripts::answer))]
    fn play(
        &mut self,
        _alloc: Global,
        done: u64,
        event: SnapEvent,
        text: &mut Vec<u8>,
    ) -> Result<(), AllocError> {
        let number = done + 1;
        match event {
            SnapEvent::Write { file, page, byte } => {
                play_write(&mut self.volume, number, file, page, byte, text)
            }
            SnapEvent::Read { image, file, page } => {
                play_read(&self.volume, number, image, file, page, text)
            }
            SnapEvent::Take => play_take(&mut self.volume, number, text),
            SnapEvent::Forget { image } => play_forget(&mut self.volume, number, image, text),
        }
    }

    fn finish(&self, events: u64, text: &mut Vec<u8>) -> Result<(), AllocError> {
        put_last(text, events, self.volume.free())
    }
}

/// Runs a script of images: a first line `snap BLOCKS`, events `write F P B`, `read IMAGE F P`,
/// `take` and `forget IMAGE`, and `end`. `docs/PROTOCOL.md`, "Scripts", has their answers. It
/// returns what `run_headed` does.
pub fn snap<I: Source, O: Sink>(
    alloc: Global,
    input: &mut I,
    out: &mut O,
) -> Result<(), ScriptFault>
    ensures report { IfSome (I.left input.old) (λ bytes.
        Reports (λ t. ⊤) result (O.written out.old) (O.written out.new) (script_of scripts.head scripts.snap_rules bytes)) }
    ensures through { OnOk result (IsAtEnd (I.left input.new)) }
    ensures causes { HasCauses result (I.faults input.old) (I.faults input.new) (O.faults out.old) (O.faults out.new) }
{
    run_headed::<SnapScript, I, O>(alloc, input, out)
}
