//! A plain table for random calls to be compared with: an array of values, and scans.

ghost use Rattle.std.specs.Prelude.{◌<◌};

use crate::number_tables::Ask;
use crate::numbers::Numbers;
use drm_test_support::{Call, Told};

/// The number of numbers in the range.
pub(crate) const SIZE: usize = 24;

#[derive(Drop)]
pub(crate) struct Plain {
    first: u32,
    values: [Option<u32>; SIZE],
    last_given: Option<u32>,
}

impl Plain {
    pub(crate) fn new(first: u32) -> Self {
        Plain {
            first,
            values: [None; SIZE],
            last_given: None,
        }
    }

    /// A number of the range, or at most two off it.
    pub(crate) fn any_id(&self, numbers: &mut Numbers) -> u32 {
        let place = numbers.below(SIZE + 4) as u32;
        self.first.wrapping_add(place).wrapping_sub(2)
    }

    fn id(&self, slot: usize) -> u32
        requires { slot < SIZE }
    {
        self.first.wrapping_add(slot as u32)
    }

    fn put(&mut self, id: u32, value: Option<u32>) -> Option<u32> {
        let slot = id.wrapping_sub(self.first) as usize;
        if slot >= SIZE {
            return None;
        }
        std::mem::replace(&mut self.values[slot], value)
    }

    fn least_free(&self) -> Option<u32> {
        for slot in 0..SIZE {
            if self.values[slot].is_none() {
                return Some(self.id(slot));
            }
        }
        None
    }

    fn least_free_above(&self, given: u32) -> Option<u32> {
        for slot in 0..SIZE {
            if self.id(slot) > given && self.values[slot].is_none() {
                return Some(self.id(slot));
            }
        }
        None
    }

    fn next_cyclic(&self) -> Option<u32> {
        let Some(given) = self.last_given else {
            return self.least_free();
        };
        self.least_free_above(given).or(self.least_free())
    }

    /// Puts a value at this number, or returns it if there is no number.
    fn add_at(&mut self, id: Option<u32>, value: u32) -> Told {
        let Some(id) = id else {
            return Told::Back(value);
        };
        self.put(id, Some(value));
        Told::Number(id)
    }

    fn add_cyclic(&mut self, value: u32) -> Told {
        let id = self.next_cyclic();
        self.last_given = id.or(self.last_given);
        self.add_at(id, value)
    }

    fn get(&self, id: u32) -> Option<u32> {
        let slot = id.wrapping_sub(self.first) as usize;
        if slot < SIZE { self.values[slot] } else { None }
    }

    fn replace(&mut self, id: u32, value: u32) -> Told {
        if self.get(id).is_none() {
            return Told::Back(value);
        }
        Told::of(self.put(id, Some(value)))
    }

    fn next(&self, from: u32) -> Option<u32> {
        for slot in 0..SIZE {
            if self.id(slot) >= from && self.values[slot].is_some() {
                return Some(self.id(slot));
            }
        }
        None
    }

    fn nth(&self, place: usize) -> Option<u32> {
        let mut left = place;
        for slot in 0..SIZE {
            if self.values[slot].is_some() {
                if left == 0 {
                    return Some(self.id(slot));
                }
                left -= 1;
            }
        }
        None
    }

    fn len(&self) -> usize {
        self.values.iter().filter(|value| value.is_some()).count()
    }
}

impl Call<Plain> for Ask {
    fn ask(self, plain: &mut Plain) -> Told {
        match self {
            Ask::Add(value) => plain.add_at(plain.least_free(), value),
            Ask::AddCyclic(value) => plain.add_cyclic(value),
            Ask::Replace(id, value) => plain.replace(id, value),
            Ask::Remove(id) => Told::of(plain.put(id, None)),
            Ask::Get(id) => Told::of(plain.get(id)),
            Ask::Next(from) => Told::of(plain.next(from)),
            Ask::Nth(place) => Told::of(plain.nth(place)),
            Ask::NextInTurn => Told::of(plain.next_cyclic()),
            Ask::Len => Told::Length(plain.len()),
            Ask::LastGiven => Told::of(plain.last_given),
            Ask::IsFull => Told::Whether(plain.least_free().is_none()),
        }
    }
}
