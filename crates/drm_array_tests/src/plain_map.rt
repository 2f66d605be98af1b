//! A plain map for random calls to be compared with: cells in the order of their indices, and scans.

ghost use Rattle.std.specs.Prelude.{◌<◌, IfSome};

use crate::arrays::Ask;
use drm_index_array::Mark;
use drm_test_support::{Call, Told};

/// The number of indices of the plain map: 0 to 40, those at which a level of the tree begins or ends, and the five
/// greatest.
pub(crate) const SLOTS: usize = 57;

const LOW: usize = 41;

const MIDDLE: [u32; 11] = [
    63,
    64,
    65,
    4_095,
    4_096,
    262_143,
    262_144,
    16_777_215,
    16_777_216,
    1_073_741_823,
    1_073_741_824,
];

pub(crate) const MARKS: [Mark; 3] = [Mark::M0, Mark::M1, Mark::M2];

/// Returns the index of a slot.
pub(crate) fn index_of(slot: usize) -> u32
    requires { slot < SLOTS }
{
    if slot < LOW {
        return slot as u32;
    }
    if slot < LOW + 11 {
        return MIDDLE[slot - LOW];
    }
    u32::MAX - (SLOTS - 1 - slot) as u32
}

/// The slot of an index that the map can have.
fn slot_of(index: u32) -> Option<usize>
    ensures { IfSome result (λ slot. slot < SLOTS) }
{
    for slot in 0..SLOTS {
        if index_of(slot) == index {
            return Some(slot);
        }
    }
    None
}

/// A value with its marks.
#[derive(Clone, Copy)]
struct Cell {
    value: u32,
    marks: [bool; 3],
}

#[derive(Drop)]
pub(crate) struct Plain {
    cells: [Option<Cell>; SLOTS],
}

fn place_of(mark: Mark) -> usize
    ensures { result < 3 }
{
    match mark {
        Mark::M0 => 0,
        Mark::M1 => 1,
        Mark::M2 => 2,
    }
}

impl Plain {
    pub(crate) fn new() -> Self {
        Plain {
            cells: [None; SLOTS],
        }
    }

    fn cell(&self, index: u32) -> Option<Cell> {
        self.cells[slot_of(index)?]
    }

    /// Puts a cell in the place of an index, or empties it, and returns the old cell.
    fn put(&mut self, index: u32, cell: Option<Cell>) -> Option<Cell> {
        let slot = slot_of(index)?;
        std::mem::replace(&mut self.cells[slot], cell)
    }

    fn insert(&mut self, index: u32, value: u32) -> Told {
        if self.cell(index).is_some() {
            return Told::Back(value);
        }
        let marks = [false; 3];
        self.put(index, Some(Cell { value, marks }));
        Told::Done
    }

    /// Replaces a value, and returns the old one.
    fn replace(&mut self, index: u32, value: u32) -> Option<u32> {
        let cell = self.cell(index)?;
        self.put(index, Some(Cell { value, ..cell }));
        Some(cell.value)
    }

    fn write_mark(&mut self, index: u32, mark: Mark, on: bool) -> bool {
        let Some(mut cell) = self.cell(index) else {
            return false;
        };
        cell.marks[place_of(mark)] = on;
        self.put(index, Some(cell));
        true
    }

    fn is_marked(&self, index: u32, mark: Mark) -> bool {
        match self.cell(index) {
            Some(cell) => cell.marks[place_of(mark)],
            None => false,
        }
    }

    fn len(&self) -> usize {
        self.cells.iter().filter(|cell| cell.is_some()).count()
    }

    fn next(&self, from: u32) -> Option<u32> {
        for slot in 0..SLOTS {
            if index_of(slot) >= from && self.cells[slot].is_some() {
                return Some(index_of(slot));
            }
        }
        None
    }

    fn nth(&self, place: usize) -> Option<u32> {
        let mut left = place;
        for slot in 0..SLOTS {
            if self.cells[slot].is_some() {
                if left == 0 {
                    return Some(index_of(slot));
                }
                left -= 1;
            }
        }
        None
    }

    fn next_marked(&self, from: u32, mark: Mark) -> Option<u32> {
        for slot in 0..SLOTS {
            let index = index_of(slot);
            if index >= from && self.is_marked(index, mark) {
                return Some(index);
            }
        }
        None
    }

    fn next_vacant(&self, from: u32) -> Option<u32> {
        let mut index = from;
        for _turn in 0..SLOTS {
            if self.cell(index).is_none() {
                return Some(index);
            }
            index = index.checked_add(1)?;
        }
        Some(index)
    }
}

impl Call<Plain> for Ask {
    fn ask(self, plain: &mut Plain) -> Told {
        match self {
            Ask::Insert(index, value) => plain.insert(index, value),
            Ask::Remove(index) => Told::of(plain.put(index, None).map(|cell| cell.value)),
            Ask::Replace(index, value) => Told::of(plain.replace(index, value)),
            Ask::Get(index) => Told::of(plain.cell(index).map(|cell| cell.value)),
            Ask::SetMark(index, mark) => Told::Whether(plain.write_mark(index, mark, true)),
            Ask::ClearMark(index, mark) => Told::Whether(plain.write_mark(index, mark, false)),
            Ask::Marked(index, mark) => Told::Whether(plain.is_marked(index, mark)),
            Ask::Next(from) => Told::of(plain.next(from)),
            Ask::NextMarked(from, mark) => Told::of(plain.next_marked(from, mark)),
            Ask::NextVacant(from) => Told::of(plain.next_vacant(from)),
            Ask::Nth(place) => Told::of(plain.nth(place)),
            Ask::Len => Told::Length(plain.len()),
        }
    }
}
