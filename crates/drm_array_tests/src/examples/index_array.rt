//! The examples of `drm_index_array`, made by `tools/doc_examples` of its doc comments.

use drm_index_array::{IndexArray, InsertFault, Mark};

#[test]
fn part_1(rt: HostRuntime) {
    let alloc = rt.alloc();
    let mut array: IndexArray<u8> = IndexArray::new(alloc);
    let Ok(()) = array.insert(300, 7) else {
        panic!(rt; "refused")
    };
    let mut array: IndexArray<u8> = IndexArray::new(alloc);
    let Ok(()) = array.insert(40, 1) else {
        panic!(rt; "refused")
    };
    assert!(rt; array.next_vacant(40) == Some(41));
    let mut array: IndexArray<u8> = IndexArray::new(alloc);
    let Ok(()) = array.insert(300, 7) else {
        panic!(rt; "refused")
    };
    assert!(rt; array.insert(300, 8) == Err(InsertFault::Taken(8)));
    let mut array: IndexArray<u8> = IndexArray::new(alloc);
    let Ok(()) = array.insert(5, 1) else {
        panic!(rt; "refused")
    };
    assert!(rt; array.set_mark(5, Mark::M1) && !array.marked(5, Mark::M2));
}
