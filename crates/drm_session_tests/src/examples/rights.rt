//! The examples of `drm_rights`, made by `tools/doc_examples` of its doc comments.

use drm_rights::{Authentication, Capability, Lease, Ledger, Magic, MasterState, Step};
use drm_table::{Answer, Event, Opening};

#[test]
fn part_1(rt: HostRuntime) {
    let alloc = rt.alloc();
    let opening = Opening::Primary {
        root: true,
        universal: true,
    };
    let answer = Answer::Opened { client: 1 };
    let step = Step {
        event: Event::Open(opening),
        answer,
    };
    let Ok(ledger) = Ledger::new(alloc).note(step) else {
        panic!(rt; "refused")
    };
    assert!(rt; ledger.is_current(1));
    let master_state = MasterState {
        step: 1,
        client: 1,
        is_master: true,
        master: Some(1),
    };
    assert!(rt; master_state.is_master);
    let lease = Lease {
        master: 2,
        client: 1,
        lessor: Some(1),
        owner: 1,
        id: 1,
        token: 1,
        universal: true,
    };
    assert!(rt; lease.lessor == Some(1));
    let magic = Magic {
        step: 2,
        master: 1,
        number: 1,
        client: 1,
    };
    assert!(rt; magic.client == 1);
}

#[test]
fn part_2(rt: HostRuntime) {
    let authentication = Authentication {
        step: 4,
        client: 2,
        by: 1,
        magic: 1,
    };
    assert!(rt; authentication.by == 1);
    let capability = Capability {
        step: 1,
        client: 1,
        universal: true,
    };
    assert!(rt; capability.universal);
}
