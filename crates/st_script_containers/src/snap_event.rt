// The events of a volume with images, from their lines.
ghost use Rattle.std.specs.Prelude.{◌≤◌, IfOk};
ghost use Rattle.st_schedule.specs.Parser.{Gives};
ghost use Rattle.st_schedule_words.specs.Words.{split};
ghost use Rattle.st_script_containers.specs.SnapScripts as scripts;

use st_schedule::{ReadError, ends, number_at, split_word, unknown_word};
use st_schedule_words::is;

/// The greatest number of a file.
const MOST_NUMBER: u64 = 4_294_967_295;

/// The greatest page number.
const MOST_PAGE: u64 = 1_048_575;

/// The greatest number of an image.
const MOST_IMAGE: u64 = 99_999;

/// An event of a script of images.
#[derive(Clone, Copy, Debug, PartialEq, Eq)]
pub enum SnapEvent {
    /// A page of a file is filled with a byte.
    Write { file: u32, page: u32, byte: u8 },
    /// A page of a file is read, in an image or, for image 0, live.
    Read { image: u32, file: u32, page: u32 },
    Take,
    Forget { image: u32 },
}

/// Reads a first line: the number of blocks.
#[tactic(auto, unfolding(crate::specs::SnapScripts::head, crate::specs::SnapScripts::blocks_at))]
pub(crate) fn blocks_of(line: &[u8]) -> Result<u32, ReadError>
    ensures value { Gives scripts.fresh result (scripts.head (split line.now)) }
    ensures range { IfOk result (λ x. (1 ≤ x) × (x ≤ 4096)) }
{
    let (word, rest) = split_word(line);
    if is(word, b"snap") {
        let (blocks, rest) = number_at(1, 4096, rest)?;
        ends(rest)?;
        Ok(blocks as u32)
    } else {
        Err(unknown_word(line))
    }
}

/// Reads the event of a line.
#[tactic(auto, unfolding(crate::specs::SnapScripts::event, crate::specs::SnapScripts::event_of, crate::specs::SnapScripts::write_at, crate::specs::SnapScripts::read_at, crate::specs::SnapScripts::take_at, crate::specs::SnapScripts::forget_at))]
pub(crate) fn snap_event(line: &[u8]) -> Result<SnapEvent, ReadError>
    ensures { Gives (λ x. x) result (scripts.event (split line.now)) }
{
    let (word, rest) = split_word(line);
    if is(word, b"write") {
        let (file, rest) = number_at(1, MOST_NUMBER, rest)?;
        let (page, rest) = number_at(0, MOST_PAGE, rest)?;
        let (byte, rest) = number_at(0, 255, rest)?;
        ends(rest)?;
        Ok(SnapEvent::Write {
            file: file as u32,
            page: page as u32,
            byte: byte as u8,
        })
    } else if is(word, b"read") {
        let (image, rest) = number_at(0, MOST_IMAGE, rest)?;
        let (file, rest) = number_at(1, MOST_NUMBER, rest)?;
        let (page, rest) = number_at(0, MOST_PAGE, rest)?;
        ends(rest)?;
        Ok(SnapEvent::Read {
            image: image as u32,
            file: file as u32,
            page: page as u32,
        })
    } else if is(word, b"take") {
        ends(rest)?;
        Ok(SnapEvent::Take)
    } else if is(word, b"forget") {
        let (image, rest) = number_at(0, MOST_IMAGE, rest)?;
        ends(rest)?;
        Ok(SnapEvent::Forget {
            image: image as u32,
        })
    } else {
        Err(unknown_word(line))
    }
}
