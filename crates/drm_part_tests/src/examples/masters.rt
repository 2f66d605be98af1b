//! The examples of `drm_masters`, made by `tools/doc_examples` of its doc comments.

use drm_masters::{LesseeFault, Magic, Master, MasterRow, Masters, Member, SetDone, SetFault};
use drm_table::Rule;

#[test]
fn part_1(rt: HostRuntime) {
    let alloc = rt.alloc();
    let mut masters = Masters::new(alloc, 4, 4);
    let Ok(_first) = masters.on_open(1, 1) else {
        panic!(rt; "refused")
    };
    assert!(rt; masters.member(1).is_none() || masters.set(1, false, 2) == Ok(SetDone::Already));
    let mut masters = Masters::new(alloc, 4, 4);
    let Ok(_first) = masters.on_open(1, 1) else {
        panic!(rt; "refused")
    };
    let Ok(_second) = masters.on_open(2, 2) else {
        panic!(rt; "refused")
    };
    let denied = Err(SetFault::Denied(Rule::MasterPerm));
    assert!(rt; masters.member(2).is_none() || masters.set(2, false, 3) == denied);
    let mut masters = Masters::new(alloc, 4, 0);
    let Ok(_first) = masters.on_open(1, 1) else {
        panic!(rt; "refused")
    };
    let Some(owner) = masters.master(1) else {
        panic!(rt; "refused")
    };
    assert!(rt; masters.make_lessee(owner.key, 4) == Err(LesseeFault::Full));
    let mut masters = Masters::new(alloc, 4, 4);
    let Ok(_first) = masters.on_open(1, 1) else {
        panic!(rt; "refused")
    };
    let Some(owner) = masters.master(1) else {
        panic!(rt; "refused")
    };
    let Ok((lessee, _id)) = masters.make_lessee(owner.key, 2) else {
        panic!(rt; "refused")
    };
    let Ok(()) = masters.on_redeem(3, lessee) else {
        panic!(rt; "refused")
    };
    assert!(rt; masters.is_current(3));
}

#[test]
fn part_2(rt: HostRuntime) {
    let alloc = rt.alloc();
    let mut masters = Masters::new(alloc, 4, 4);
    let Ok(_first) = masters.on_open(1, 1) else {
        panic!(rt; "refused")
    };
    let Some(key) = masters.master_of(1) else {
        panic!(rt; "refused")
    };
    assert!(rt; matches!(masters.master(1), Some(row) if row.key == key));
    let mut masters = Masters::new(alloc, 4, 4);
    let Ok(_first) = masters.on_open(1, 1) else {
        panic!(rt; "refused")
    };
    if masters.member(1).is_some() {
        assert!(rt; masters.magic(1) == Ok(1));
    }
    let magic = Some(Magic {
        number: 1,
        spent: false,
    });
    assert!(rt; matches!(masters.member(1), Some(row) if row.magic == magic));
    let mut masters = Masters::new(alloc, 4, 4);
    let Ok(_first) = masters.on_open(1, 1) else {
        panic!(rt; "refused")
    };
    let member = Member {
        client: 1,
        once_master: true,
        is_master: true,
        master: 1,
        magic: None,
    };
    assert!(rt; matches!(masters.nth(1, 0), Some(MasterRow::Client(row)) if row == member));
}

#[test]
fn part_3(rt: HostRuntime) {
    let alloc = rt.alloc();
    let mut masters = Masters::new(alloc, 4, 4);
    let Ok(_first) = masters.on_open(1, 1) else {
        panic!(rt; "refused")
    };
    let Some(key) = masters.master_of(1) else {
        panic!(rt; "refused")
    };
    let master = Master {
        key,
        step_number: 1,
        lessor: None,
        lessee_id: 0,
        kept: false,
    };
    assert!(rt; masters.nth_master(0) == Some(master));
}
