//! Sources and sinks of bytes that count their faults, the calls that read and write a whole text,
//! and sources and sinks over memory and over the standard library's readers and writers.
//! docs/PROTOCOL.md, "Sources and sinks", has the rules.
#![tactic(auto)]

mod calls;
mod ends;
mod link;
mod memory;
mod memory_link;
mod safe;
mod unix;
mod whole_texts;

pub use calls::{ReadCall, WriteCall};
pub use ends::{ReaderSource, WriterSink};
pub use link::{Failed, Link, Sink, Source};
pub use memory::{MemorySink, MemorySource};
pub use memory_link::MemoryLink;
pub use safe::{SafeSink, SafeSource};
pub use unix::UnixLink;
pub use whole_texts::{ReadFault, put_all, read_up_to, send_all};
