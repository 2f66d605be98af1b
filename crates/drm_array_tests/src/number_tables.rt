//! Tables of numbers, call by call and compared with a plain table.

ghost use Rattle.std.specs.Prelude.{◌+◌, ◌<◌, ◌^◌};

use crate::numbers::Numbers;
use crate::plain_table::{Plain, SIZE};
use drm_id_alloc::{AddFault, IdTable};
use drm_test_support::{Call, Told, check, compare};
use std::alloc::Global;
use std::process::Abort;

/// A call of a table.
#[derive(Clone, Copy)]
pub(crate) enum Ask {
    Add(u32),
    AddCyclic(u32),
    Replace(u32, u32),
    Remove(u32),
    Get(u32),
    Next(u32),
    Nth(usize),
    NextInTurn,
    Len,
    LastGiven,
    IsFull,
}

fn told_by(added: Result<u32, AddFault<u32>>) -> Told {
    match added {
        Ok(number) => Told::Number(number),
        Err(AddFault::Full(value)) => Told::Back(value),
        Err(AddFault::NoMemory(_)) => Told::NoMemory,
    }
}

fn replace(table: &mut IdTable<u32>, id: u32, value: u32) -> Told {
    match table.replace(id, value) {
        Ok(was) => Told::Number(was),
        Err(value) => Told::Back(value),
    }
}

impl Call<IdTable<u32>> for Ask {
    fn ask(self, table: &mut IdTable<u32>) -> Told {
        match self {
            Ask::Add(value) => told_by(table.add(value)),
            Ask::AddCyclic(value) => told_by(table.add_cyclic(value)),
            Ask::Replace(id, value) => replace(table, id, value),
            Ask::Remove(id) => Told::of(table.remove(id)),
            Ask::Get(id) => Told::of(table.get(id).copied()),
            Ask::Next(from) => Told::of(table.next(from)),
            Ask::Nth(place) => Told::of(table.nth(place)),
            Ask::NextInTurn => Told::of(table.next_in_turn()),
            Ask::Len => Told::Length(table.len()),
            Ask::LastGiven => Told::of(table.last_given()),
            Ask::IsFull => Told::Whether(table.is_full()),
        }
    }
}

/// Calls of a table of the numbers 4 to 6.
const CALLS: [(Ask, Told); 27] = [
    (Ask::LastGiven, Told::Nothing),
    (Ask::AddCyclic(1), Told::Number(4)),
    (Ask::AddCyclic(2), Told::Number(5)),
    (Ask::Remove(4), Told::Number(1)),
    (Ask::NextInTurn, Told::Number(6)),
    (Ask::AddCyclic(3), Told::Number(6)),
    (Ask::LastGiven, Told::Number(6)),
    (Ask::IsFull, Told::Whether(false)),
    (Ask::AddCyclic(4), Told::Number(4)),
    (Ask::IsFull, Told::Whether(true)),
    (Ask::NextInTurn, Told::Nothing),
    (Ask::AddCyclic(5), Told::Back(5)),
    (Ask::Remove(5), Told::Number(2)),
    (Ask::Add(6), Told::Number(5)),
    (Ask::Add(7), Told::Back(7)),
    (Ask::LastGiven, Told::Number(4)),
    (Ask::Get(5), Told::Number(6)),
    (Ask::Replace(5, 8), Told::Number(6)),
    (Ask::Get(5), Told::Number(8)),
    (Ask::Replace(7, 9), Told::Back(9)),
    (Ask::Next(0), Told::Number(4)),
    (Ask::Next(7), Told::Nothing),
    (Ask::Len, Told::Length(3)),
    (Ask::Remove(5), Told::Number(8)),
    (Ask::Remove(5), Told::Nothing),
    (Ask::Nth(1), Told::Number(6)),
    (Ask::Nth(2), Told::Nothing),
];

#[test]
fn calls_of_a_table(rt: HostRuntime) {
    assert_eq!(rt; check(&mut IdTable::new(rt.alloc(), 4, 6), &CALLS), None);
}

/// A random edit. Of `kinds` kinds of edit the last are removals.
fn edit(numbers: &mut Numbers, id: u32, kinds: usize, value: u32) -> Ask
    requires { 0 < kinds }
{
    match numbers.below(kinds) {
        0 | 1 => Ask::Add(value),
        2 | 3 => Ask::AddCyclic(value),
        4 => Ask::Replace(id, value),
        _ => Ask::Remove(id),
    }
}

/// The calls for a number, and for the whole table.
fn questions(id: u32, place: usize) -> [Ask; 6] {
    [
        Ask::Get(id),
        Ask::Next(id),
        Ask::Nth(place),
        Ask::LastGiven,
        Ask::Len,
        Ask::IsFull,
    ]
}

fn compare_random_calls(alloc: Global, rt: &impl Abort, first: u32)
    requires { first + SIZE < 2 ^ 32 + 1 }
{
    let mut table = IdTable::new(alloc, first, first + (SIZE as u32 - 1));
    let mut plain = Plain::new(first);
    let mut numbers = Numbers::new();
    for value in 0..10_000u32 {
        // The table is mostly full, and then for a while about half full.
        let kinds = if value / 500 % 2 == 0 { 8 } else { 14 };
        let id = plain.any_id(&mut numbers);
        let edit = edit(&mut numbers, id, kinds, value);
        assert_eq!(rt; compare(&mut table, &mut plain, &[edit]), None);
        let questions = questions(plain.any_id(&mut numbers), numbers.below(SIZE));
        assert_eq!(rt; compare(&mut table, &mut plain, &questions), None);
    }
}

/// At the first numbers, and at the greatest.
#[test]
fn random_calls_answer_as_a_plain_table(rt: HostRuntime) {
    compare_random_calls(rt.alloc(), &rt, 1);
    compare_random_calls(rt.alloc(), &rt, u32::MAX - (SIZE as u32 - 1));
}
