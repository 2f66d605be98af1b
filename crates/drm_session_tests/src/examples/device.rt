//! The examples of `drm_device`, made by `tools/doc_examples` of its doc comments.

use drm_device::{Device, Limits, NewFault, ReplayFault, Shortage, Topology, replay};
use drm_table::{Answer, Apart, Call, Event, Opening};

#[test]
fn part_1(rt: HostRuntime) {
    let alloc = rt.alloc();
    let Some(topology) = Topology::new(2, &[1, 2], &[3, 2], &[5, 6]) else {
        panic!(rt; "refused")
    };
    let Ok(mut device) = Device::new(alloc, topology, Limits::PROGRAM) else {
        panic!(rt; "refused")
    };
    let opening = Opening::Primary {
        root: false,
        universal: true,
    };
    assert!(rt; device.step(Event::Open(opening)) == Ok(Answer::Opened { client: 1 }));
    assert!(rt; device.step(Event::Ask(1, Call::SetMaster)) == Ok(Answer::Done));
    let Some(topology) = Topology::new(2, &[1, 2], &[3, 2], &[5, 6]) else {
        panic!(rt; "refused")
    };
    let limits = Limits {
        clients: 0,
        ..Limits::PROGRAM
    };
    let Err(fault) = Device::new(alloc, topology, limits) else {
        panic!(rt; "refused")
    };
    assert!(rt; fault == NewFault::BadLimits);
}

#[test]
fn part_2(rt: HostRuntime) {
    let alloc = rt.alloc();
    let Some(topology) = Topology::new(2, &[1, 2], &[3, 2], &[5, 6]) else {
        panic!(rt; "refused")
    };
    let Ok(mut device) = Device::new(alloc, topology, Limits::PROGRAM) else {
        panic!(rt; "refused")
    };
    let opening = Opening::Primary {
        root: false,
        universal: true,
    };
    assert!(rt; device.step(Event::Open(opening)) == Ok(Answer::Opened { client: 1 }));
    let shortage = Shortage::new(1);
    let mut outcome = Ok(Answer::Done);
    device.step_short_at(&Event::Ask(1, Call::Version), Some(&shortage), &mut outcome);
    assert!(rt; outcome.is_ok());
    device.step_short_at(
        &Event::Ask(1, Call::BufCreate { size: 4096 }),
        Some(&shortage),
        &mut outcome,
    );
    assert!(rt; outcome == Err(Apart::NoMemory));
    device.step_short_at(
        &Event::Ask(1, Call::BufCreate { size: 4096 }),
        Some(&shortage),
        &mut outcome,
    );
    assert!(rt;
        outcome
            == Ok(Answer::Buffer {
                handle: 1,
                size: 4096
            })
    );
}

#[test]
fn part_3(rt: HostRuntime) {
    let alloc = rt.alloc();
    let limits = Limits {
        clients: 0,
        ..Limits::PROGRAM
    };
    let Some(topology) = Topology::new(2, &[1, 2], &[3, 2], &[5, 6]) else {
        panic!(rt; "refused")
    };
    let Err(fault) = replay(alloc, topology, limits, &[]) else {
        panic!(rt; "refused")
    };
    assert!(rt; fault == ReplayFault::New(NewFault::BadLimits));
    let Some(topology) = Topology::new(2, &[1, 2], &[3, 2], &[5, 6]) else {
        panic!(rt; "refused")
    };
    let events = [Event::Open(Opening::Render)];
    let Ok(device) = replay(alloc, topology, Limits::PROGRAM, &events) else {
        panic!(rt; "refused")
    };
    assert!(rt; device.journal() == events.as_slice());
    let shortage = Shortage::new(2);
    assert!(rt; shortage.left() == 2);
}
