//! Masters, lessees and clients whose steps do not rise from one call to the next, and what no script asks. On a device
//! they rise.

ghost use Rattle.std.specs.Prelude.{◌≡◌};

use crate::master_calls::{Ask, Told, asked};
use drm_masters::{Masters, Member};
use std::alloc::Global;
use std::process::Abort;

/// A call and its answer.
type Case = (Ask, Told);

/// Makes these calls one after the other, and compares each answer. If memory is refused, it makes the call again. The
/// later calls show that the refusal changed nothing.
fn check(rt: &impl Abort, masters: &mut Masters, cases: &[Case])
    requires { masters.old.last_magic ≡ 4 }
    ensures { masters.new.last_magic ≡ 4 }
{
    for (place, (ask, told)) in cases.iter().enumerate() {
        let mut came = asked(masters, *ask);
        if came == Told::NoMemory {
            came = asked(masters, *ask);
        }
        assert_eq!(rt; came, *told, "case {place}");
    }
}

/// The same of new masters.
fn check_new(rt: &impl Abort, alloc: Global, cases: &[Case]) {
    let mut masters = Masters::new(alloc, 4, 4);
    check(rt, &mut masters, cases);
}

/// The first client's master, which it founded.
const OWNER: Told = Told::Master {
    step_number: 1,
    lessor: None,
    lessee_id: 0,
    kept: false,
};

/// A lessee is found below its owner, and the owner above it.
const LENT: [Case; 9] = [
    (Ask::OpenBy(1, 1), Told::Whether(true)),
    (Ask::Lend(1, 7), Told::Lent(7, 1)),
    (
        Ask::Lessee(1, 1),
        Told::Master {
            step_number: 7,
            lessor: Some(1),
            lessee_id: 1,
            kept: true,
        },
    ),
    (Ask::Lessee(1, 2), Told::Nothing),
    (Ask::Depth(1), Told::Number(0)),
    (Ask::Depth(7), Told::Number(1)),
    (Ask::FreeLessee(1), Told::Number(2)),
    (Ask::Lessor(7), Told::Number(1)),
    (
        Ask::Lessee(7, 1),
        Told::Master {
            step_number: 7,
            lessor: Some(1),
            lessee_id: 1,
            kept: true,
        },
    ),
];

/// A birth is new, and need not be the greatest. Masters are listed by birth, and ids are allocated in the order of the
/// calls.
const BORN_IN_ANY_ORDER: [Case; 12] = [
    (Ask::OpenBy(1, 1), Told::Whether(true)),
    (Ask::Lend(1, 9), Told::Lent(9, 1)),
    (Ask::Lend(1, 5), Told::Lent(5, 2)),
    (Ask::Lend(5, 7), Told::Lent(7, 3)),
    (Ask::NthMaster(0), OWNER),
    (
        Ask::NthMaster(1),
        Told::Master {
            step_number: 5,
            lessor: Some(1),
            lessee_id: 2,
            kept: true,
        },
    ),
    (
        Ask::NthMaster(2),
        Told::Master {
            step_number: 7,
            lessor: Some(5),
            lessee_id: 3,
            kept: true,
        },
    ),
    (
        Ask::NthMaster(3),
        Told::Master {
            step_number: 9,
            lessor: Some(1),
            lessee_id: 1,
            kept: true,
        },
    ),
    (Ask::NthMaster(4), Told::Nothing),
    (Ask::Depth(7), Told::Number(2)),
    (Ask::Lessor(7), Told::Number(5)),
    (Ask::Lessor(9), Told::Number(1)),
];

const GUEST_1: Told = Told::Client(Member {
    client: 1,
    once_master: false,
    is_master: false,
    master: 1,
    magic: None,
});

const OWNER_3: Told = Told::Client(Member {
    client: 3,
    once_master: true,
    is_master: true,
    master: 1,
    magic: None,
});

/// The numbers of clients do not rise from one opening to the next. Clients are listed by their numbers.
const UNORDERED: [Case; 6] = [
    (Ask::OpenBy(3, 1), Told::Whether(true)),
    (Ask::OpenBy(1, 2), Told::Whether(false)),
    (Ask::OpenBy(3, 3), Told::Unasked),
    (Ask::NthMember(0), GUEST_1),
    (Ask::NthMember(1), OWNER_3),
    (Ask::NthMember(2), Told::Nothing),
];

const OF_BIRTH_4: Told = Told::Master {
    step_number: 4,
    lessor: None,
    lessee_id: 0,
    kept: false,
};

const OF_BIRTH_9: Told = Told::Master {
    step_number: 9,
    lessor: None,
    lessee_id: 0,
    kept: false,
};

/// Births do not rise from one founded master to the next. Masters are listed by their births.
const UNORDERED_BIRTHS: [Case; 8] = [
    (Ask::OpenBy(1, 9), Told::Whether(true)),
    (Ask::Drop(1), Told::Done),
    (Ask::OpenBy(2, 4), Told::Whether(true)),
    (Ask::OpenBy(3, 9), Told::Unasked),
    (Ask::NthMaster(0), OF_BIRTH_4),
    (Ask::NthMaster(1), OF_BIRTH_9),
    (Ask::NthMaster(2), Told::Nothing),
    (Ask::DeviceMaster, Told::Number(4)),
];

#[test]
fn rows_are_listed_by_their_steps(rt: HostRuntime) {
    check_new(&rt, rt.alloc(), &LENT);
    check_new(&rt, rt.alloc(), &BORN_IN_ANY_ORDER);
    check_new(&rt, rt.alloc(), &UNORDERED);
    check_new(&rt, rt.alloc(), &UNORDERED_BIRTHS);
}
