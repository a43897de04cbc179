// Numbers in sets, each set under a number.
ghost use Rattle.std.specs.Prelude.{◌≡◌, ◌<◌, ◌&&◌, ◌||◌, ◌==◌, ℕ, OnOk, OnErr, length, not};
ghost use Rattle.std.specs.List.{list_any};
ghost use Rattle.st_tables.specs.Indexes.{Forgets, Gains, Keeps, Loses, numbers_in};

use indexmap::IndexSet;
use std::alloc::{AllocError, Global};

/// Sets of numbers, each at the place of the number under which it is kept.
pub type OwnedNumbers = Vec<IndexSet<u32>>;

fn add(numbers: &mut IndexSet<u32>, number: u32) -> Result<(), AllocError>
    ensures ok { OnOk result ((n : ℕ) → list_any (λ k. n == k) numbers.new.keys ≡ list_any (λ k. n == k) numbers.old.keys || (number == n)) }
    ensures err { OnErr result (numbers.new.keys ≡ numbers.old.keys) }
{
    numbers.insert(number)?;
    Ok(())
}

fn take_out(numbers: &mut IndexSet<u32>, number: u32)
    ensures { (n : ℕ) → list_any (λ k. n == k) numbers.new.keys ≡ list_any (λ k. n == k) numbers.old.keys && not (number == n) }
{
    numbers.swap_remove(&number);
}

/// The numbers in the set under a number.
pub fn numbers(owned: &OwnedNumbers, under: u32) -> &[u32]
    ensures { result.now ≡ numbers_in owned.now.items under }
{
    match owned.get(under as usize) {
        Some(numbers) => numbers.as_slice(),
        None => &[],
    }
}

/// There are sets up to the one under a number.
fn reach(owned: &mut OwnedNumbers, alloc: Global, under: u32) -> Result<(), AllocError>
    ensures there { OnOk result (under < length owned.new.items) }
    ensures same { (n : ℕ) → numbers_in owned.new.items n ≡ numbers_in owned.old.items n }
{
    while owned.len() <= under as usize {
        owned.push(IndexSet::new(alloc))?;
    }
    Ok(())
}

fn add_there(owned: &mut OwnedNumbers, under: u32, number: u32) -> Result<(), AllocError>
    requires { under < length owned.old.items }
    ensures ok { OnOk result (Gains under number (numbers_in owned.old.items) (numbers_in owned.new.items)) }
    ensures err { OnErr result (Keeps (numbers_in owned.old.items) (numbers_in owned.new.items)) }
{
    match owned.get_mut(under as usize) {
        Some(numbers) => add(numbers, number),
        None => Ok(()),
    }
}

/// A number is in the set under a number. If the call runs out of memory, nothing changes.
pub fn gain(
    owned: &mut OwnedNumbers,
    alloc: Global,
    under: u32,
    number: u32,
) -> Result<(), AllocError>
    ensures ok { OnOk result (Gains under number (numbers_in owned.old.items) (numbers_in owned.new.items)) }
    ensures err { OnErr result (Keeps (numbers_in owned.old.items) (numbers_in owned.new.items)) }
{
    reach(owned, alloc, under)?;
    add_there(owned, under, number)
}

/// A number is no longer in the set under a number. It does not allocate.
pub fn lose(owned: &mut OwnedNumbers, under: u32, number: u32)
    ensures { Loses under number (numbers_in owned.old.items) (numbers_in owned.new.items) }
{
    if let Some(numbers) = owned.get_mut(under as usize) {
        take_out(numbers, number);
    }
}

/// No number is in the set under a number. It does not allocate.
pub fn forget(owned: &mut OwnedNumbers, under: u32)
    ensures { Forgets under (numbers_in owned.old.items) (numbers_in owned.new.items) }
{
    if let Some(numbers) = owned.get_mut(under as usize) {
        numbers.clear();
    }
}
