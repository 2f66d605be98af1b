//! The examples of `drm_sessions`, made by `tools/doc_examples` of its doc comments.

use drm_device::{Device, Limits, Topology};
use drm_frames::{FromRead, ToWrite};
use drm_sessions::{
    Access, Alone, Class, Finished, Gate, Job, ManyFault, NoGate, NoWitness, Served, Session,
    SessionEnd, Through, Witness, serve, serve_alone, serve_many, serve_through,
};
use drm_table::{Answer, Event, Opening};
use drm_turns::SharedDevice;

#[test]
fn part_1(rt: HostRuntime) {
    let alloc = rt.alloc();
    let Some(topology) = Topology::new(2, &[1, 2], &[3, 2], &[5, 6]) else {
        panic!(rt; "refused")
    };
    let Ok(mut device) = Device::new(alloc, topology, Limits::PROGRAM) else {
        panic!(rt; "refused")
    };
    let opening = Event::Open(Opening::Render);
    let opened = Alone(&mut device).call(opening);
    assert!(rt; opened == Ok(Answer::Opened { client: 1 }));
    let mut gate = NoGate;
    gate.before(1);
    let Some(topology) = Topology::new(2, &[1, 2], &[3, 2], &[5, 6]) else {
        panic!(rt; "refused")
    };
    let Ok(mut device) = Device::new(alloc, topology, Limits::PROGRAM) else {
        panic!(rt; "refused")
    };
    let hello = [14, 0, 0, 0, 0, 1, 1, 0, 0, 0, 0, 0, 0, 0, 0, 0, 0, 0];
    let mut source = FromRead::new(hello.as_slice());
    let mut sink = ToWrite::new(Vec::new(alloc));
    let session = serve_alone(
        &mut device,
        &mut NoGate,
        Class::Card,
        &mut source,
        &mut sink,
        1000,
    );
    assert!(rt; session.end == SessionEnd::Ended && session.steps == 2);
}

#[test]
fn part_2(rt: HostRuntime) {
    let alloc = rt.alloc();
    let Some(topology) = Topology::new(2, &[1, 2], &[3, 2], &[5, 6]) else {
        panic!(rt; "refused")
    };
    let Ok(mut device) = Device::new(alloc, topology, Limits::PROGRAM) else {
        panic!(rt; "refused")
    };
    let hello = [14, 0, 0, 0, 0, 1, 1, 0, 0, 0, 0, 0, 0, 0, 0, 0, 0, 0];
    let mut source = FromRead::new(&hello[..4]);
    let mut sink = ToWrite::new(Vec::new(alloc));
    let session = serve_alone(
        &mut device,
        &mut NoGate,
        Class::Card,
        &mut source,
        &mut sink,
        1000,
    );
    let Session { end, steps, .. } = session;
    assert!(rt; end == SessionEnd::Truncated && steps == 0);
}

#[test]
fn part_3(rt: HostRuntime) {
    let alloc = rt.alloc();
    let hello = [14, 0, 0, 0, 0, 1, 1, 0, 0, 0, 0, 0, 0, 0, 0, 0, 0, 0];
    let card = Class::Card;
    let Some(topology) = Topology::new(2, &[1, 2], &[3, 2], &[5, 6]) else {
        panic!(rt; "refused")
    };
    let Ok(fresh) = Device::new(alloc, topology, Limits::PROGRAM) else {
        panic!(rt; "refused")
    };
    let Ok((shared, mut participant)) = SharedDevice::new(alloc, fresh) else {
        panic!(rt; "refused")
    };
    let (from, into) = (
        FromRead::new(hello.as_slice()),
        ToWrite::new(Vec::new(alloc)),
    );
    let job = Job {
        gate: NoGate,
        class: card,
        source: from,
        sink: into,
        turns: 1000,
    };
    let mut jobs = Vec::new(alloc);
    let Ok(()) = jobs.push(job) else {
        panic!(rt; "refused")
    };
    let Ok(served) = serve_many(&rt, alloc, &shared, &mut participant, jobs) else {
        panic!(rt; "refused")
    };
    let Some(Finished { session, .. }) = served.first() else {
        panic!(rt; "refused")
    };
    assert!(rt; session.steps == 2);
}

#[test]
fn part_4(rt: HostRuntime) {
    let alloc = rt.alloc();
    let Some(topology) = Topology::new(2, &[1, 2], &[3, 2], &[5, 6]) else {
        panic!(rt; "refused")
    };
    let Ok(fresh) = Device::new(alloc, topology, Limits::PROGRAM) else {
        panic!(rt; "refused")
    };
    let Ok((shared, mut participant)) = SharedDevice::new(alloc, fresh) else {
        panic!(rt; "refused")
    };
    let none: Vec<Job<NoGate, FromRead<&[u8]>, ToWrite<Vec<u8>>>> = Vec::new(alloc);
    match serve_many(&rt, alloc, &shared, &mut participant, none) {
        Ok(served) => assert!(rt; served.is_empty()),
        Err(ManyFault::NoMemory | ManyFault::NoThread) => panic!(rt; "refused"),
    }
    let Some(topology) = Topology::new(2, &[1, 2], &[3, 2], &[5, 6]) else {
        panic!(rt; "refused")
    };
    let Ok(mut device) = Device::new(alloc, topology, Limits::PROGRAM) else {
        panic!(rt; "refused")
    };
    let hello = [14, 0, 0, 0, 0, 1, 1, 0, 0, 0, 0, 0, 0, 0, 0, 0, 0, 0];
    let mut source = FromRead::new(hello.as_slice());
    let mut sink = ToWrite::new(Vec::new(alloc));
    let mut alone = Alone(&mut device);
    let session = serve(
        &mut alone,
        &mut NoGate,
        Class::Card,
        &mut source,
        &mut sink,
        1000,
    );
    assert!(rt; session.end == SessionEnd::Ended);
}

#[test]
fn part_5(rt: HostRuntime) {
    let alloc = rt.alloc();
    let Some(topology) = Topology::new(2, &[1, 2], &[3, 2], &[5, 6]) else {
        panic!(rt; "refused")
    };
    let Ok(device) = Device::new(alloc, topology, Limits::PROGRAM) else {
        panic!(rt; "refused")
    };
    let Ok((shared, participant)) = SharedDevice::new(alloc, device) else {
        panic!(rt; "refused")
    };
    let mut through = Through::new(&rt, &shared, participant);
    let hello = [14, 0, 0, 0, 0, 1, 1, 0, 0, 0, 0, 0, 0, 0, 0, 0, 0, 0];
    let mut sink = ToWrite::new(Vec::new(alloc));
    let card = Class::Card;
    let Some(topology) = Topology::new(2, &[1, 2], &[3, 2], &[5, 6]) else {
        panic!(rt; "refused")
    };
    let Ok(fresh) = Device::new(alloc, topology, Limits::PROGRAM) else {
        panic!(rt; "refused")
    };
    let Ok((shared, mut participant)) = SharedDevice::new(alloc, fresh) else {
        panic!(rt; "refused")
    };
    let mut source = FromRead::new(hello.as_slice());
    let mut gate = NoGate;
    let Served {
        session,
        participant,
    } = serve_through(
        &rt,
        &shared,
        participant,
        &mut gate,
        card,
        &mut source,
        &mut sink,
        1000,
    );
    assert!(rt; session.steps == 2);
}

#[test]
fn part_6(rt: HostRuntime) {
    let event = Event::Close(1);
    assert!(rt; NoWitness.shortage(&event).is_none());
    NoWitness.tell(&event, Some(0), &Ok(Answer::Closed));
}
