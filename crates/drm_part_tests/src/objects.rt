//! Objects whose births do not rise from one call to the next. On a device they do.

ghost use Rattle.std.specs.Prelude.{◌≡◌, ◌==◌, true, false, IfSome};
ghost use Rattle.drm_gem.specs.Objects.{IsUnusedBirth};

use drm_gem::{CreateFault, Dead, Object, ObjectKey, Objects};
use drm_test_support::{Call, Told, check};

/// A call. An object is named by the number of its key.
#[derive(Clone, Copy)]
enum Ask {
    /// Makes an object, by a step and of a size.
    Create(u32, u64),
    Unhold(u32),
    /// The step that made the object of a place.
    Nth(usize),
}

fn is_of_another(object: Option<Object>, birth: u32) -> bool
    ensures { result ≡ true → IfSome object (λ x. (x.step_number == birth) ≡ false) }
{
    match object {
        Some(object) => object.step_number != birth,
        None => true,
    }
}

/// Returns whether no object has the birth. There are three at most.
fn is_unused_birth(objects: &Objects, birth: u32) -> bool
    ensures { result ≡ true → IsUnusedBirth objects.now birth }
{
    let is_first = is_of_another(objects.nth_object(0), birth);
    let is_second = is_of_another(objects.nth_object(1), birth);
    let is_third = is_of_another(objects.nth_object(2), birth);
    let is_last = objects.nth_object(3).is_none();
    is_last && is_first && is_second && is_third
}

fn created(objects: &mut Objects, birth: u32, size: u64) -> Told {
    if !is_unused_birth(objects, birth) {
        return Told::Unasked;
    }
    match objects.create(birth, size) {
        Ok(key) => Told::Number(key.number()),
        Err(CreateFault::Full) => Told::Full,
        Err(CreateFault::NoMemory) => Told::NoMemory,
    }
}

fn told_birth(object: Option<Object>) -> Told {
    match object {
        Some(object) => Told::Number(object.step_number),
        None => Told::Nothing,
    }
}

fn told_gone(gone: Option<Dead>) -> Told {
    match gone {
        Some(Dead { birth, size }) => Told::Gone { birth, size },
        None => Told::Nothing,
    }
}

/// Removes a handle, if an object has one. An object that is created has one.
fn unheld(objects: &mut Objects, key: ObjectKey) -> Told {
    let Some(object) = objects.get(key) else {
        return Told::Unasked;
    };
    if 1 <= object.holds {
        return told_gone(objects.unhold(key));
    }
    Told::Unasked
}

impl Call<Objects> for Ask {
    fn ask(self, objects: &mut Objects) -> Told {
        match self {
            Ask::Create(step_number, size) => created(objects, step_number, size),
            Ask::Unhold(number) => unheld(objects, ObjectKey::from_number(number)),
            Ask::Nth(place) => told_birth(objects.nth_object(place)),
        }
    }
}

/// A call and its answer.
type Case = (Ask, Told);

/// Births do not rise from one call to the next. Objects are listed by their births.
const UNORDERED: [Case; 10] = [
    (Ask::Create(5, 4096), Told::Number(0)),
    (Ask::Create(2, 8192), Told::Number(1)),
    (Ask::Create(9, 12288), Told::Number(2)),
    (Ask::Create(5, 4096), Told::Unasked),
    (Ask::Nth(0), Told::Number(2)),
    (Ask::Nth(1), Told::Number(5)),
    (Ask::Nth(2), Told::Number(9)),
    (Ask::Nth(3), Told::Nothing),
    (
        Ask::Unhold(0),
        Told::Gone {
            birth: 5,
            size: 4096,
        },
    ),
    (Ask::Create(5, 64), Told::Number(0)),
];

#[test]
fn objects_are_listed_by_their_births(rt: HostRuntime) {
    assert_eq!(rt; check(&mut Objects::new(rt.alloc(), 4), &UNORDERED), None);
}
