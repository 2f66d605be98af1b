//! Numbers by groups, call by call.

use drm_id_alloc::{Groups, NoMemory};
use drm_test_support::{Call, Told, check};

/// A call of the groups.
#[derive(Clone, Copy)]
enum Ask {
    Note(u32, u32),
    Forget(u32, u32),
    Next(u32, u32),
    Nth(u32, usize),
    Len(u32),
    Has(u32, u32),
}

const CALLS: [(Ask, Told); 24] = [
    (Ask::Next(7, 0), Told::Nothing),
    (Ask::Note(7, 40), Told::Done),
    (Ask::Note(7, 3), Told::Done),
    (Ask::Note(8, 40), Told::Done),
    (Ask::Note(7, 40), Told::Done),
    (Ask::Note(7, 4_294_967_295), Told::Done),
    (Ask::Len(7), Told::Length(3)),
    (Ask::Len(8), Told::Length(1)),
    (Ask::Len(9), Told::Length(0)),
    (Ask::Nth(7, 0), Told::Number(3)),
    (Ask::Nth(7, 1), Told::Number(40)),
    (Ask::Nth(7, 2), Told::Number(4_294_967_295)),
    (Ask::Nth(7, 3), Told::Nothing),
    (Ask::Next(7, 4), Told::Number(40)),
    (Ask::Next(7, 41), Told::Number(4_294_967_295)),
    (Ask::Has(8, 40), Told::Whether(true)),
    (Ask::Has(8, 3), Told::Whether(false)),
    (Ask::Forget(7, 40), Told::Done),
    (Ask::Forget(9, 40), Told::Done),
    (Ask::Has(7, 40), Told::Whether(false)),
    (Ask::Has(8, 40), Told::Whether(true)),
    (Ask::Forget(8, 40), Told::Done),
    (Ask::Len(8), Told::Length(0)),
    (Ask::Nth(7, 1), Told::Number(4_294_967_295)),
];

fn note(groups: &mut Groups, group: u32, number: u32) -> Told {
    match groups.note(group, number) {
        Ok(()) => Told::Done,
        Err(NoMemory) => Told::NoMemory,
    }
}

impl Call<Groups> for Ask {
    fn ask(self, groups: &mut Groups) -> Told {
        match self {
            Ask::Note(group, number) => note(groups, group, number),
            Ask::Forget(group, number) => {
                groups.forget(group, number);
                Told::Done
            }
            Ask::Next(group, from) => Told::of(groups.next(group, from)),
            Ask::Nth(group, place) => Told::of(groups.nth(group, place)),
            Ask::Len(group) => Told::Length(groups.len(group)),
            Ask::Has(group, number) => Told::Whether(groups.has(group, number)),
        }
    }
}

#[test]
fn calls_of_groups(rt: HostRuntime) {
    assert_eq!(rt; check(&mut Groups::new(rt.alloc()), &CALLS), None);
}
