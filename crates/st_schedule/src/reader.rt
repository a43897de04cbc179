ghost use Rattle.std.specs.Prelude.{◌≡◌, ◌≤◌, IfOk, Ok, length};
ghost use Rattle.st_base.specs.Config.{check};
ghost use Rattle.st_schedule.specs.declared.reader.Line.{Line};
ghost use Rattle.st_schedule_words.specs.Words as words;
ghost use Rattle.st_schedule.specs.Reader.{Answers, IsTold, Tells};
ghost use Rattle.st_schedule.specs.Reader as reader;

use crate::event_line::line_event;
use crate::fault::{Fault, ReadError, ScheduleRefusal};
use crate::head::head_at;
use st_base::Config;
use st_messages::{Counts, Event};
use st_schedule_words::{is, is_long, split_word};
use std::alloc::Global;
use std::marker::Model;

/// What a line says.
#[derive(Drop)]
pub enum Line {
    /// The settings, the counts of clients, servers, disks and blocks, and the form of the head, 1
    /// or 2.
    Head(Config, Counts, u8),
    Event(Event),
    End,
}

/// What a reader has read so far.
#[derive(Clone, Copy, Debug, PartialEq, Eq)]
pub enum Progress {
    /// No line was read.
    Nothing,
    /// A head of this form and with these counts was read, and `events` events after it.
    Reading {
        form: u8,
        counts: Counts,
        events: u32,
    },
    /// The line `end` was read.
    Ended,
}

/// The most events of a schedule.
const MOST_EVENTS: u32 = 100_000;

/// Reads the lines of a schedule one after another. Contracts see it as its progress.
#[derive(Drop)]
pub struct ScheduleReader {
    progress: Progress,
    alloc: Global,
}

impl Model for ScheduleReader {
    ghost use Rattle.st_schedule.specs.declared.reader.Progress.{Progress};

    ghost Value = { Progress };

    ghost view = { λ r. r.progress };
}

/// The column, counted from 1, of the word that begins `rest` bytes before the end of the line.
fn column(line: &[u8], rest: usize) -> u64
    requires { length line.now ≤ 256 }
    ensures { result ≡ words.column line.now rest }
{
    (line.len() + 1).saturating_sub(rest) as u64
}

fn refused(line: &[u8], error: ReadError) -> ScheduleRefusal
    requires { length line.now ≤ 256 }
    ensures { Tells line.now error result }
{
    match error {
        ReadError::Memory => ScheduleRefusal::Memory,
        ReadError::Fault(Fault::Syntax(rest)) => ScheduleRefusal::Syntax(column(line, rest)),
        ReadError::Fault(Fault::Number(rest)) => ScheduleRefusal::Number(column(line, rest)),
    }
}

/// The head, the first line of a schedule.
#[tactic(auto, unfolding(crate::specs::Reader::first_line, crate::specs::Reader::head_of_words))]
fn first_line(line: &[u8]) -> Result<(Line, Progress), ScheduleRefusal>
    requires { length line.now ≤ 256 }
    ensures { IsTold result (reader.first_line line.now) }
{
    let (word, rest) = split_word(line);
    if !is(word, b"tank") {
        return Err(ScheduleRefusal::NoHead);
    }
    let (config, counts, form) = match head_at(rest) {
        Ok(head) => head,
        Err(error) => return Err(refused(line, error)),
    };
    match config.check() {
        Ok(()) => {
            let next = Progress::Reading {
                form,
                counts,
                events: 0,
            };
            Ok((Line::Head(config, counts, form), next))
        }
        Err(refusal) => Err(ScheduleRefusal::Config(refusal)),
    }
}

/// A line after the head: an event, or the end.
#[tactic(auto, unfolding(crate::specs::Reader::later_line))]
fn later_line(
    alloc: Global,
    form: u8,
    counts: Counts,
    events: u32,
    line: &[u8],
) -> Result<(Line, Progress), ScheduleRefusal>
    requires { length line.now ≤ 256 }
    ensures { IsTold result (reader.later_line form counts events line.now) }
{
    let nodes = usize::from(counts.clients) + usize::from(counts.servers);
    match line_event(alloc, form, nodes, line) {
        Ok(Some(event)) if events < MOST_EVENTS => {
            let next = Progress::Reading {
                form,
                counts,
                events: events + 1,
            };
            Ok((Line::Event(event), next))
        }
        Ok(Some(_)) => Err(ScheduleRefusal::TooMany),
        Ok(None) => Ok((Line::End, Progress::Ended)),
        Err(error) => Err(refused(line, error)),
    }
}

impl ScheduleReader {
    /// A reader that has read nothing yet.
    pub fn new(alloc: Global) -> ScheduleReader
        ensures { result ≡ Progress.Nothing }
    {
        ScheduleReader {
            progress: Progress::Nothing,
            alloc,
        }
    }

    /// Reads a line. It is a function of its own since the other clauses of `line` follow from this
    /// one.
    fn step(&mut self, bytes: &[u8]) -> Result<Line, ScheduleRefusal>
        ensures { Answers self.old self.new result (reader.read_line self.old bytes.now) }
    {
        if is_long(bytes) {
            return Err(ScheduleRefusal::LineTooLong);
        }
        let (line, next) = match self.progress {
            Progress::Nothing => first_line(bytes)?,
            Progress::Reading {
                form,
                counts,
                events,
            } => later_line(self.alloc, form, counts, events, bytes)?,
            Progress::Ended => return Err(ScheduleRefusal::AfterEnd),
        };
        self.progress = next;
        Ok(line)
    }

    /// Reads the next line, given without its newline. A refusal leaves the reader as it was, and
    /// so does running out of memory.
    pub fn line(&mut self, bytes: &[u8]) -> Result<Line, ScheduleRefusal>
        // The line or the refusal, and what the reader has read then.
        ensures exact { Answers self.old self.new result (reader.read_line self.old bytes.now) }
        // A line that is read is spelled by these bytes in this place.
        ensures spelled { reader.HasNodes self.old → IfOk result (λ said. reader.SpellsLine self.old bytes.now said) }
        // A line that these bytes spell in this place is read, unless memory runs out.
        ensures reads { reader.ReadsWhatIsSpelled self.old self.new bytes.now result }
    {
        self.step(bytes)
    }

    /// Whether the lines may end here: after the line `end`, and nowhere else.
    pub fn finish(&self) -> Result<(), ScheduleRefusal>
        ensures { result ≡ reader.read_end self.now }
    {
        match self.progress {
            Progress::Nothing => Err(ScheduleRefusal::NoHead),
            Progress::Reading { .. } => Err(ScheduleRefusal::NoEnd),
            Progress::Ended => Ok(()),
        }
    }
}
