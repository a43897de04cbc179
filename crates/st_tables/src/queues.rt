// Numbers in queues, each queue under a number.
ghost use Rattle.std.specs.Prelude.{◌≡◌, ◌++◌, ◌∷◌, ◌==◌, ℕ, [], None, OnOk, OnErr, filter, if◌then◌else◌, is_ok, not};
ghost use Rattle.std.specs.Bool.{OnTrue};
ghost use Rattle.std.specs.Map.{lookup};
ghost use Rattle.st_tables.specs.Indexes.{Joins, Leaves, Stays, queue_in, row_under};

use indexmap::IndexMap;
use std::alloc::{AllocError, Global};

/// Queues of numbers by the number under which each is kept.
pub type Queues = IndexMap<u32, Vec<u32>>;

fn push_last(queue: &mut Vec<u32>, number: u32) -> Result<(), AllocError>
    ensures { queue.new.items ≡ (if is_ok result then queue.old.items ++ number ∷ [] else queue.old.items) }
{
    queue.push(number)?;
    Ok(())
}

fn is_same(a: u32, b: u32) -> bool
    ensures { result ≡ (a == b) }
{
    a == b
}

fn take_out(queue: &mut Vec<u32>, number: u32)
    ensures { queue.new.items ≡ filter (λ k. not (k == number)) queue.old.items }
{
    queue.retain(|k| !is_same(*k, number));
}

/// The numbers in the queue under a number, in the order in which they came.
pub fn queue(queues: &Queues, under: u32) -> &[u32]
    ensures { result.now ≡ queue_in queues.now.entries under }
{
    match queues.get(&under) {
        Some(queue) => queue.as_slice(),
        None => &[],
    }
}

/// A queue of one number begins under a number that has none.
fn begin(queues: &mut Queues, alloc: Global, under: u32, number: u32) -> Result<(), AllocError>
    requires { row_under queues.old.entries under ≡ None }
    ensures ok { OnOk result (Joins under number (queue_in queues.old.entries) (queue_in queues.new.entries)) }
    ensures err { OnErr result (Stays (queue_in queues.old.entries) (queue_in queues.new.entries)) }
{
    let mut queue = Vec::with_capacity(alloc, 1)?;
    push_last(&mut queue, number)?;
    queues.insert(under, queue)?;
    Ok(())
}

/// A number goes last in the queue under a number. If the call runs out of memory, nothing changes.
pub fn push(queues: &mut Queues, alloc: Global, under: u32, number: u32) -> Result<(), AllocError>
    ensures ok { OnOk result (Joins under number (queue_in queues.old.entries) (queue_in queues.new.entries)) }
    ensures err { OnErr result (Stays (queue_in queues.old.entries) (queue_in queues.new.entries)) }
{
    match queues.get_mut(&under) {
        Some(queue) => push_last(queue, number),
        None => begin(queues, alloc, under, number),
    }
}

/// A number leaves the queue under a number. Returns whether none is left, if one was there.
fn leave_there(queues: &mut Queues, under: u32, number: u32) -> bool
    ensures left { Leaves under number (queue_in queues.old.entries) (queue_in queues.new.entries) }
    ensures empty { OnTrue result (queue_in queues.new.entries under ≡ []) }
{
    match queues.get_mut(&under) {
        Some(queue) => {
            take_out(queue, number);
            queue.is_empty()
        }
        None => false,
    }
}

/// A queue without numbers goes.
fn drop_empty(queues: &mut Queues, under: u32)
    requires { queue_in queues.old.entries under ≡ [] }
    ensures { Stays (queue_in queues.old.entries) (queue_in queues.new.entries) }
{
    queues.swap_remove(&under);
}

/// A number leaves the queue under a number. It does not allocate.
pub fn leave(queues: &mut Queues, under: u32, number: u32)
    ensures { Leaves under number (queue_in queues.old.entries) (queue_in queues.new.entries) }
{
    if leave_there(queues, under, number) {
        drop_empty(queues, under);
    }
}
