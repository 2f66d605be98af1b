//! The examples of `drm_gem`, made by `tools/doc_examples` of its doc comments.

use drm_gem::{CreateFault, Dead, ObjectKey, Objects};

#[test]
fn part_1(rt: HostRuntime) {
    let alloc = rt.alloc();
    let key = ObjectKey::from_number(7);
    let mut objects = Objects::new(alloc, 1);
    let Ok(key) = objects.create(3, 4096) else {
        panic!(rt; "refused")
    };
    let Some(object) = objects.get(key) else {
        panic!(rt; "refused")
    };
    assert!(rt; object.step_number == 3 && object.size == 4096 && object.holds == 1);
    let mut objects = Objects::new(alloc, 1);
    let Ok(key) = objects.create(3, 4096) else {
        panic!(rt; "refused")
    };
    let gone = Dead {
        birth: 3,
        size: 4096,
    };
    assert!(rt; objects.unhold(key) == Some(gone));
    let mut full = Objects::new(alloc, 0);
    assert!(rt; full.create(1, 4096) == Err(CreateFault::Full));
    let mut objects = Objects::new(alloc, 2);
    let Ok(key) = objects.create(1, 4096) else {
        panic!(rt; "refused")
    };
}
