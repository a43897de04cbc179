// A source that gives one byte a call.
ghost use Rattle.std.specs.Prelude.{None};
ghost use Rattle.st_link.specs.InMemory.{InMemory};

use st_link::{Failed, MemorySource, Source};

/// A source over bytes in memory that gives one byte a call. It does not know its bytes.
#[derive(Drop)]
pub struct OneByteSource {
    pub rest: MemorySource,
}

impl Source for OneByteSource {
    ghost use Rattle.std.specs.Prelude.{None};

    ghost left = { λ _. None };

    ghost faults = { λ s. s.rest.faults };

    fn take(&mut self, room: &mut [u8]) -> Result<usize, Failed> {
        match room {
            [] => self.rest.take(room),
            _ => self.rest.take(&mut room[..1]),
        }
    }
}
