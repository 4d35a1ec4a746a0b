//! Whether an order has the committed transactions, each once.

ghost use Rattle.std.specs.Prelude.{◌≡◌, ◌++◌, [], ◌∷◌, map, bytes_eq, IsTrue, IsFalse, IfOk, OnOk, Option, Some, None};
ghost use Rattle.std.specs.List.{cons_option};
ghost use Rattle.std.specs.List.Sorted.{IsPermutation, IsNonDecreasing};
ghost use Rattle.ltx_check.specs.Orders.{committed_numbers};

use crate::desk::Seats;
use ltx_model::memory::NoMemory;
use ltx_model::numbers::Tx;
use ltx_model::replies::Entry;
use std::alloc::Global;

/// Appends a number, where there is one.
fn push_some(numbers: &mut Vec<Tx>, number: Option<Tx>) -> Result<(), NoMemory>
    ensures { OnOk result (numbers.new.items ≡ numbers.old.items ++ cons_option number []) }
{
    match number {
        None => Ok(()),
        Some(tx) => {
            numbers.push(tx)?;
            Ok(())
        }
    }
}

/// The numbers of the transactions that entries commit, in time.
pub(crate) fn committed_numbers(alloc: Global, entries: &[Entry]) -> Result<Vec<Tx>, NoMemory>
    ensures { IfOk result (λ numbers. numbers.items ≡ committed_numbers entries.now) }
{
    let mut seats = Seats::new(alloc);
    let mut numbers = Vec::new(alloc);
    for entry in entries {
        push_some(&mut numbers, seats.committed_by(entry))?;
        seats.take(entry)?;
    }
    Ok(numbers)
}

/// Numbers as they are.
fn plain_numbers(alloc: Global, txs: &[Tx]) -> Result<Vec<u64>, NoMemory>
    ensures { IfOk result (λ numbers. numbers.items ≡ txs.now) }
{
    let mut numbers = Vec::new(alloc);
    for tx in txs {
        numbers.push(tx.number())?;
    }
    Ok(numbers)
}

/// Numbers in rising order.
fn sorted_numbers(alloc: Global, txs: &[Tx]) -> Result<Vec<u64>, NoMemory>
    ensures same { IfOk result (λ numbers. IsPermutation txs.now numbers.items) }
    ensures rising { IfOk result (λ numbers. IsNonDecreasing numbers.items) }
{
    let mut numbers = plain_numbers(alloc, txs)?;
    numbers.sort()?;
    Ok(numbers)
}

/// Whether the numbers are the same.
fn are_same(numbers: &[u64], others: &[u64]) -> bool
    ensures { result ≡ bytes_eq numbers.now others.now }
{
    numbers == others
}

/// Whether the order has these numbers, each as often.
pub(crate) fn has_all(alloc: Global, numbers: &[Tx], order: &[Tx]) -> Result<bool, NoMemory>
    ensures yes { IfOk result (λ all. IsTrue all → IsPermutation numbers.now order.now) }
    ensures no { IfOk result (λ all. IsFalse all → IsPermutation numbers.now order.now → ⊥) }
{
    let sorted = sorted_numbers(alloc, numbers)?;
    let others = sorted_numbers(alloc, order)?;
    Ok(are_same(&sorted, &others))
}
