//! The numbers of one group.

ghost use Rattle.std.specs.Prelude.{◌≡◌, ◌≤◌, ◌==◌, ◌&&◌, ◌||◌, ℕ, false, not, length, slice_get, IsTrue, OnOk, OnErr, IfOk, IfSome, IfNone};
ghost use Rattle.std.specs.FinMap as map;
ghost use Rattle.drm_index_array.specs.Indexed.{empty_array, with_item};
ghost use Rattle.drm_index_array.specs.Least.{least};
ghost use Rattle.drm_id_alloc.specs.Groups.{has_number, IsNoted, IsForgotten};

use crate::faults::NoMemory;
use drm_index_array::{IndexArray, InsertFault};
use std::alloc::Global;
use std::marker::Model;

/// The numbers of a group: a single one, which needs no further memory, or an array of them. Contracts see the array.
#[derive(Drop)]
pub struct Numbers {
    kept: Kept,
}

#[derive(Drop)]
enum Kept {
    One(u32),
    Many(IndexArray<()>),
}

impl Model for Numbers {
    ghost use Rattle.drm_index_array.specs.Indexed.{Indexed, indexed_code};
    ghost use base.Stored.{coded_unit};

    ghost Value = { Indexed (Unit {0}) };

    ghost coded = { indexed_code coded_unit };

    ghost use Rattle.drm_id_alloc.specs.Kept.{array_of};

    ghost view = { λ n. array_of n.kept };
}

impl Numbers {
    /// Returns a single number.
    pub fn one(number: u32) -> Numbers
        ensures { result ≡ with_item empty_array number tt }
    {
        Numbers {
            kept: Kept::One(number),
        }
    }

    /// Adds a number, if it is missing. If memory is refused, nothing changes.
    pub fn note(&mut self, alloc: Global, number: u32) -> Result<(), NoMemory>
        ensures ok { OnOk result (IsNoted self.old number self.new) }
        ensures err { OnErr result (self.new ≡ self.old) }
    {
        match &mut self.kept {
            Kept::One(only) => {
                if *only == number {
                    return Ok(());
                }
                let numbers = both(alloc, *only, number)?;
                self.kept = Kept::Many(numbers);
                Ok(())
            }
            Kept::Many(numbers) => noted(numbers, number),
        }
    }

    /// Removes a number, if it is present. Does not allocate. A single number that is left needs no memory.
    pub fn forget(&mut self, alloc: Global, number: u32)
        ensures { IsForgotten self.old number self.new }
    {
        match &mut self.kept {
            Kept::One(only) => {
                if number == *only {
                    self.kept = Kept::Many(IndexArray::new(alloc));
                }
            }
            Kept::Many(numbers) => {
                let _number = numbers.remove(number);
                if let Some(only) = only_of(numbers) {
                    self.kept = Kept::One(only);
                }
            }
        }
    }

    /// Returns the lowest number that is not below `from`.
    pub fn next(&self, from: u32) -> Option<u32>
        ensures least { result ≡ least (has_number self.now) from u32.MAX }
        ensures none_above { IfNone result ((n : ℕ) → from ≤ n → has_number self.now n ≡ false) }
    {
        match &self.kept {
            Kept::One(only) => {
                if *only < from {
                    return None;
                }
                Some(*only)
            }
            Kept::Many(numbers) => numbers.next(from),
        }
    }

    /// Returns the number at a position, from 0, in rising order.
    pub fn nth(&self, position: usize) -> Option<u32>
        ensures { result ≡ slice_get (map.keys self.now.items) position }
    {
        match &self.kept {
            Kept::One(only) => {
                if position > 0 {
                    return None;
                }
                Some(*only)
            }
            Kept::Many(numbers) => numbers.nth(position),
        }
    }

    /// Returns the number of numbers.
    pub fn len(&self) -> usize
        ensures { result ≡ map.len self.now.items }
    {
        match &self.kept {
            Kept::One(_) => 1,
            Kept::Many(numbers) => numbers.len(),
        }
    }

    /// Returns whether a number is present.
    pub fn has(&self, number: u32) -> bool
        ensures { result ≡ has_number self.now number }
    {
        match &self.kept {
            Kept::One(only) => *only == number,
            Kept::Many(numbers) => numbers.get(number).is_some(),
        }
    }
}

/// Returns an array of two numbers that differ.
fn both(alloc: Global, first: u32, second: u32) -> Result<IndexArray<()>, NoMemory>
    ensures { IfOk result (λ numbers. IsNoted (with_item empty_array first tt) second numbers) }
{
    let mut numbers = IndexArray::new(alloc);
    noted(&mut numbers, first)?;
    noted(&mut numbers, second)?;
    Ok(numbers)
}

/// Adds a number, if it is missing. If memory is refused, nothing changes.
fn noted(numbers: &mut IndexArray<()>, number: u32) -> Result<(), NoMemory>
    ensures ok { OnOk result (IsNoted numbers.old number numbers.new) }
    ensures err { OnErr result (numbers.new ≡ numbers.old) }
{
    match numbers.insert(number, ()) {
        Ok(()) => Ok(()),
        Err(InsertFault::Taken(())) => Ok(()),
        Err(InsertFault::NoMemory(())) => Err(NoMemory),
    }
}

/// Returns the number, if there is exactly one.
fn only_of(numbers: &IndexArray<()>) -> Option<u32>
    ensures { IfSome result (λ only. (n : ℕ) → has_number numbers.now n ≡ (n == only)) }
{
    if numbers.len() != 1 {
        return None;
    }
    numbers.nth(0)
}
