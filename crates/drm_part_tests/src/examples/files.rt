//! The examples of `drm_files`, made by `tools/doc_examples` of its doc comments.

use drm_files::{ClientCapability, FileClient, FileFault, FileFlags, FileHandle, FileRow, Files};
use drm_gem::ObjectKey;

#[test]
fn part_1(rt: HostRuntime) {
    let alloc = rt.alloc();
    let mut files = Files::new(alloc, 0, 100);
    assert!(rt; files.open(1, false, false, true) == Err(FileFault::Full));
    let mut files = Files::new(alloc, 4, 100);
    let Ok(()) = files.open(1, false, false, true) else {
        panic!(rt; "refused")
    };
    let mut files = Files::new(alloc, 4, 100);
    let Ok(()) = files.open(1, false, false, true) else {
        panic!(rt; "refused")
    };
    let Ok(()) = files.open(2, false, false, true) else {
        panic!(rt; "refused")
    };
    let object = ObjectKey::from_number(7);
    let Ok(first) = files.add_handle(1, object, None) else {
        panic!(rt; "refused")
    };
    let Ok(second) = files.add_handle(2, object, None) else {
        panic!(rt; "refused")
    };
    assert!(rt; matches!(files.handle_after(1, first), Some(row) if row.client == 2));
    assert!(rt; files.handle_after(2, second).is_none());
    let mut files = Files::new(alloc, 4, 100);
    let Ok(()) = files.open(1, false, false, true) else {
        panic!(rt; "refused")
    };
    let object = ObjectKey::from_number(7);
    let Ok(handle) = files.add_handle(1, object, None) else {
        panic!(rt; "refused")
    };
    let mut rest = files.close(1);
    assert!(rt; rest.take_next() == Some((handle, object)));
    assert!(rt; rest.take_next().is_none());
    let mut files = Files::new(alloc, 4, 100);
    let Ok(()) = files.open(1, false, true, false) else {
        panic!(rt; "refused")
    };
    files.set_capability(1, ClientCapability::UniversalPlanes, true);
    assert!(rt; matches!(files.flags_of(1), Some(flags) if flags.universal));
}

#[test]
fn part_2(rt: HostRuntime) {
    let alloc = rt.alloc();
    let mut files = Files::new(alloc, 4, 100);
    let Ok(()) = files.open(1, false, true, true) else {
        panic!(rt; "refused")
    };
    let flags = FileFlags {
        render: false,
        root: true,
        authenticated: true,
        universal: true,
    };
    assert!(rt; files.nth(1, 0) == Some(FileRow::Client(FileClient { client: 1, flags })));
    let mut files = Files::new(alloc, 4, 100);
    let Ok(()) = files.open(1, false, true, true) else {
        panic!(rt; "refused")
    };
    let object = ObjectKey::from_number(7);
    let Ok(handle) = files.add_handle(1, object, Some(3)) else {
        panic!(rt; "refused")
    };
    let hold = FileHandle {
        client: 1,
        handle,
        object,
        export_order: Some(3),
    };
    assert!(rt; files.nth_handle(0) == Some(hold));
}
