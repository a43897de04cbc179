// Nodes by their numbers.
ghost use Rattle.std.specs.Prelude.{◌≡◌};
ghost use Rattle.st_world_events.specs.Indexes.{index_at};

/// The place, from 0, of node number `n` in a list of `len` nodes. `None` if no node has this
/// number.
pub(crate) fn index_of(n: u16, len: usize) -> Option<usize>
    ensures { result ≡ index_at n len }
{
    if n == 0 || n as usize > len {
        return None;
    }
    Some(n as usize - 1)
}
