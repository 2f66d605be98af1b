//! The examples of `drm_turns`, made by `tools/doc_examples` of its doc comments.

use drm_device::{Device, Limits, Topology};
use drm_table::{Answer, Event, Opening};
use drm_turns::{NoMemory, SharedDevice, Sharing, TurnOut};

#[test]
fn part_1(rt: HostRuntime) {
    let alloc = rt.alloc();
    let Some(topology) = Topology::new(2, &[1, 2], &[3, 2], &[5, 6]) else {
        panic!(rt; "refused")
    };
    let Ok(device) = Device::new(alloc, topology, Limits::PROGRAM) else {
        panic!(rt; "refused")
    };
    let Ok((shared, mut participant)) = SharedDevice::new(alloc, device) else {
        panic!(rt; "refused")
    };
    let mut other = shared.split(&mut participant);
    let opening = Event::Open(Opening::Render);
    assert!(rt; shared.call(&rt, &mut other, opening) == Ok(Answer::Opened { client: 1 }));
    shared.join(&mut participant, other);
    let Some(topology) = Topology::new(2, &[1, 2], &[3, 2], &[5, 6]) else {
        panic!(rt; "refused")
    };
    let Ok(device) = Device::new(alloc, topology, Limits::PROGRAM) else {
        panic!(rt; "refused")
    };
    let Ok((shared, mut participant)) = SharedDevice::new(alloc, device) else {
        panic!(rt; "refused")
    };
    let note = shared.note(&mut participant);
    shared.meet(&mut participant, note);
    let Some(topology) = Topology::new(2, &[1, 2], &[3, 2], &[5, 6]) else {
        panic!(rt; "refused")
    };
    let Ok(device) = Device::new(alloc, topology, Limits::PROGRAM) else {
        panic!(rt; "refused")
    };
    let (second, its_participant) = match SharedDevice::new(alloc, device) {
        Ok(made) => made,
        Err((_device, NoMemory)) => panic!(rt; "refused"),
    };
    match second.close(its_participant) {
        Ok(device) => assert!(rt; device.journal().is_empty()),
        Err(TurnOut) => panic!(rt; "refused"),
    }
}

#[test]
fn part_2(rt: HostRuntime) {
    let alloc = rt.alloc();
    let Some(topology) = Topology::new(2, &[1, 2], &[3, 2], &[5, 6]) else {
        panic!(rt; "refused")
    };
    let Ok(device) = Device::new(alloc, topology, Limits::PROGRAM) else {
        panic!(rt; "refused")
    };
    let Ok((shared, mut participant)) = SharedDevice::new(alloc, device) else {
        panic!(rt; "refused")
    };
    let opening = Event::Open(Opening::Render);
    assert!(rt; shared.call(&rt, &mut participant, opening) == Ok(Answer::Opened { client: 1 }));
    let Some(topology) = Topology::new(2, &[1, 2], &[3, 2], &[5, 6]) else {
        panic!(rt; "refused")
    };
    let Ok(device) = Device::new(alloc, topology, Limits::PROGRAM) else {
        panic!(rt; "refused")
    };
    let Ok((shared, participant)) = SharedDevice::new(alloc, device) else {
        panic!(rt; "refused")
    };
    assert!(rt; shared.device().peek_count() == 0);
}
