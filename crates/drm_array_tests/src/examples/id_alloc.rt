//! The examples of `drm_id_alloc`, made by `tools/doc_examples` of its doc comments.

use drm_id_alloc::{AddFault, Groups, IdTable, NoMemory};

#[test]
fn part_1(rt: HostRuntime) {
    let alloc = rt.alloc();
    let mut groups = Groups::new(alloc);
    let Ok(()) = groups.note(3, 500) else {
        panic!(rt; "refused")
    };
    assert!(rt; groups.note(3, 500) != Err(NoMemory));
    let mut table: IdTable<u8> = IdTable::new(alloc, 1, 1);
    let Ok(_id) = table.add(7) else {
        panic!(rt; "refused")
    };
    assert!(rt; table.add(8) == Err(AddFault::Full(8)));
    let mut groups = Groups::new(alloc);
    let Ok(()) = groups.note(3, 500) else {
        panic!(rt; "refused")
    };
    let mut table: IdTable<u8> = IdTable::new(alloc, 1, 2);
    let Ok(id) = table.add(7) else {
        panic!(rt; "refused")
    };
    let mut table: IdTable<u8> = IdTable::new(alloc, 1, 2);
    let Ok(id) = table.add(7) else {
        panic!(rt; "refused")
    };
    let Ok(other) = table.add_cyclic(8) else {
        panic!(rt; "refused")
    };
    assert!(rt; other == 2 || other == 1);
    assert!(rt; table.add(9) == Err(AddFault::Full(9)));
}
