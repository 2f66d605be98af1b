//! Arrays, call by call and compared with a plain map.

use crate::numbers::Numbers;
use crate::plain_map::{MARKS, Plain, SLOTS, index_of};
use drm_index_array::{IndexArray, InsertFault, Mark};
use drm_test_support::{Call, Told, check, compare};

/// A call of an array.
#[derive(Clone, Copy)]
pub(crate) enum Ask {
    Insert(u32, u32),
    Remove(u32),
    Replace(u32, u32),
    Get(u32),
    SetMark(u32, Mark),
    ClearMark(u32, Mark),
    Marked(u32, Mark),
    Next(u32),
    NextMarked(u32, Mark),
    NextVacant(u32),
    Nth(usize),
    Len,
}

/// Replaces a value, and returns the old one.
fn replace(array: &mut IndexArray<u32>, index: u32, value: u32) -> Option<u32> {
    let here = array.get_mut(index)?;
    let was = *here;
    *here = value;
    Some(was)
}

/// Inserts a value. A refused value is returned.
fn insert(array: &mut IndexArray<u32>, index: u32, value: u32) -> Told {
    match array.insert(index, value) {
        Ok(()) => Told::Done,
        Err(InsertFault::Taken(value)) => Told::Back(value),
        Err(fault) => {
            if fault.into_value() == value {
                Told::NoMemory
            } else {
                Told::Nothing
            }
        }
    }
}

impl Call<IndexArray<u32>> for Ask {
    fn ask(self, array: &mut IndexArray<u32>) -> Told {
        match self {
            Ask::Insert(index, value) => insert(array, index, value),
            Ask::Remove(index) => Told::of(array.remove(index)),
            Ask::Replace(index, value) => Told::of(replace(array, index, value)),
            Ask::Get(index) => Told::of(array.get(index).copied()),
            Ask::SetMark(index, mark) => Told::Whether(array.set_mark(index, mark)),
            Ask::ClearMark(index, mark) => Told::Whether(array.clear_mark(index, mark)),
            Ask::Marked(index, mark) => Told::Whether(array.marked(index, mark)),
            Ask::Next(from) => Told::of(array.next(from)),
            Ask::NextMarked(from, mark) => Told::of(array.next_marked(from, mark)),
            Ask::NextVacant(from) => Told::of(array.next_vacant(from)),
            Ask::Nth(place) => Told::of(array.nth(place)),
            Ask::Len => Told::Length(array.len()),
        }
    }
}

/// Calls of one array, in order.
const CALLS: [(Ask, Told); 33] = [
    (Ask::Len, Told::Length(0)),
    (Ask::Insert(5, 1), Told::Done),
    (Ask::Insert(5, 2), Told::Back(2)),
    (Ask::Len, Told::Length(1)),
    (Ask::Get(5), Told::Number(1)),
    (Ask::Replace(5, 3), Told::Number(1)),
    (Ask::Get(5), Told::Number(3)),
    (Ask::Get(6), Told::Nothing),
    (Ask::SetMark(5, Mark::M1), Told::Whether(true)),
    (Ask::SetMark(6, Mark::M1), Told::Whether(false)),
    (Ask::Marked(5, Mark::M1), Told::Whether(true)),
    (Ask::NextMarked(0, Mark::M1), Told::Number(5)),
    (Ask::NextMarked(0, Mark::M0), Told::Nothing),
    (Ask::NextVacant(5), Told::Number(6)),
    (Ask::ClearMark(5, Mark::M1), Told::Whether(true)),
    (Ask::Marked(5, Mark::M1), Told::Whether(false)),
    (Ask::SetMark(5, Mark::M1), Told::Whether(true)),
    // marks go with their entry
    (Ask::Remove(5), Told::Number(3)),
    (Ask::Insert(5, 4), Told::Done),
    (Ask::Marked(5, Mark::M1), Told::Whether(false)),
    (Ask::Insert(4_294_967_295, 7), Told::Done),
    (Ask::Next(6), Told::Number(4_294_967_295)),
    (Ask::NextVacant(4_294_967_295), Told::Nothing),
    (Ask::Insert(63, 0), Told::Done),
    (Ask::Insert(64, 0), Told::Done),
    (Ask::SetMark(63, Mark::M2), Told::Whether(true)),
    (Ask::NextMarked(6, Mark::M2), Told::Number(63)),
    (Ask::Nth(1), Told::Number(63)),
    (Ask::Nth(3), Told::Number(4_294_967_295)),
    (Ask::Nth(4), Told::Nothing),
    (Ask::Remove(63), Told::Number(0)),
    (Ask::NextMarked(0, Mark::M2), Told::Nothing),
    (Ask::NextVacant(63), Told::Number(63)),
];

/// 0 to 63, a whole node, at each index that number.
fn whole_node() -> [(Ask, Told); 64] {
    let mut cases = [(Ask::Len, Told::Done); 64];
    for index in 0..64u8 {
        let number = u32::from(index);
        cases[usize::from(index)].0 = Ask::Insert(number, number);
    }
    cases
}

/// Calls of an array that has a whole node: a level grows above it, and empties again.
const LEVELS: [(Ask, Told); 14] = [
    (Ask::NextVacant(0), Told::Number(64)),
    (Ask::Insert(1_073_741_824, 0), Told::Done),
    (Ask::Next(64), Told::Number(1_073_741_824)),
    (Ask::SetMark(63, Mark::M2), Told::Whether(true)),
    (Ask::NextMarked(1, Mark::M2), Told::Number(63)),
    (Ask::Remove(63), Told::Number(63)),
    (Ask::NextMarked(0, Mark::M2), Told::Nothing),
    (Ask::NextVacant(0), Told::Number(63)),
    (Ask::Insert(4_294_967_295, 1), Told::Done),
    (Ask::NextVacant(4_294_967_295), Told::Nothing),
    (Ask::Nth(62), Told::Number(62)),
    (Ask::Nth(63), Told::Number(1_073_741_824)),
    (Ask::Nth(64), Told::Number(4_294_967_295)),
    (Ask::Nth(65), Told::Nothing),
];

/// Indices that are far from each other. Each level grows, and returns a refusal when memory for it is refused.
const FAR: [(Ask, Told); 13] = [
    (Ask::Insert(3, 3), Told::Done),
    (Ask::Get(3), Told::Number(3)),
    (Ask::Insert(100, 100), Told::Done),
    (Ask::Get(100), Told::Number(100)),
    (Ask::Insert(5_000, 5_000), Told::Done),
    (Ask::Get(5_000), Told::Number(5_000)),
    (Ask::Insert(4_000_000_000, 7), Told::Done),
    (Ask::Get(4_000_000_000), Told::Number(7)),
    (Ask::Next(0), Told::Number(3)),
    (Ask::Next(4), Told::Number(100)),
    (Ask::Next(101), Told::Number(5_000)),
    (Ask::Next(5_001), Told::Number(4_000_000_000)),
    (Ask::Next(4_000_000_001), Told::Nothing),
];

#[test]
fn calls_of_an_array(rt: HostRuntime) {
    for cases in [CALLS.as_slice(), FAR.as_slice()] {
        assert_eq!(rt; check(&mut IndexArray::new(rt.alloc()), cases), None);
    }
    assert_eq!(rt; InsertFault::Taken('c').into_value(), 'c');
}

#[test]
fn levels_grow_and_empty(rt: HostRuntime) {
    let mut array = IndexArray::new(rt.alloc());
    assert_eq!(rt; check(&mut array, &whole_node()), None);
    assert_eq!(rt; check(&mut array, &LEVELS), None);
}

/// A random edit.
fn edit(numbers: &mut Numbers, value: u32) -> Ask {
    let index = index_of(numbers.below(SLOTS));
    let mark = MARKS[numbers.below(3)];
    match numbers.below(6) {
        0 | 1 => Ask::Insert(index, value),
        2 => Ask::Remove(index),
        3 => Ask::ClearMark(index, mark),
        _ => Ask::SetMark(index, mark),
    }
}

/// The calls with a random index.
fn questions(numbers: &mut Numbers) -> [Ask; 7] {
    let slot = numbers.below(SLOTS);
    let index = index_of(slot);
    let mark = MARKS[numbers.below(3)];
    [
        Ask::Get(index),
        Ask::Next(index),
        Ask::Nth(slot),
        Ask::NextMarked(index, mark),
        Ask::NextVacant(index),
        Ask::Marked(index, mark),
        Ask::Len,
    ]
}

#[test]
fn random_calls_answer_as_a_plain_map(rt: HostRuntime) {
    let mut array = IndexArray::new(rt.alloc());
    let mut plain = Plain::new();
    let mut numbers = Numbers::new();
    for value in 0..20_000u32 {
        assert_eq!(rt;
            compare(&mut array, &mut plain, &[edit(&mut numbers, value)]),
            None
        );
        assert_eq!(rt;
            compare(&mut array, &mut plain, &questions(&mut numbers)),
            None
        );
    }
}
