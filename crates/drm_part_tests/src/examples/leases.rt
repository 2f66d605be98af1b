//! The examples of `drm_leases`, made by `tools/doc_examples` of its doc comments.

use drm_leases::{Controlled, Grant, LeaseFault, Leased, Leases, View};
use drm_masters::Masters;
use drm_modes::{Modes, Topology};
use drm_table::Rule;

#[test]
fn part_1(rt: HostRuntime) {
    let alloc = rt.alloc();
    let Some(topology) = Topology::new(2, &[1, 2], &[3, 2], &[5, 6]) else {
        panic!(rt; "refused")
    };
    let modes = Modes::new(alloc, topology, 4);
    let mut masters = Masters::new(alloc, 4, 4);
    let Ok(_first) = masters.on_open(1, 1) else {
        panic!(rt; "refused")
    };
    let shape = Leases::new(alloc, 8).create(&mut masters, &modes, 1, true, &[1], 2);
    assert!(rt; shape == Err(LeaseFault::Denied(Rule::LeaseShape)));
    let Some(topology) = Topology::new(2, &[1, 2], &[3, 2], &[5, 6]) else {
        panic!(rt; "refused")
    };
    let modes = Modes::new(alloc, topology, 4);
    let mut masters = Masters::new(alloc, 4, 4);
    let Ok(_first) = masters.on_open(1, 1) else {
        panic!(rt; "refused")
    };
    let mut leases = Leases::new(alloc, 8);
    let Ok(leased) = leases.create(&mut masters, &modes, 1, true, &[1, 3, 7], 2) else {
        panic!(rt; "refused")
    };
    let Leased { m, id, token } = leased;
    assert!(rt;
        id == 1
            && leases.nth_grant(0)
                == Some(Grant {
                    master: 2,
                    mode_object: 1
                })
    );
    assert!(rt; leases.redeem(token) == Some(m));
    assert!(rt; Controlled::Lease(0b101).has(3) && !Controlled::Lease(0b101).has(2));
}

#[test]
fn part_2(rt: HostRuntime) {
    let alloc = rt.alloc();
    let Some(topology) = Topology::new(1, &[1], &[1], &[3]) else {
        panic!(rt; "refused")
    };
    let modes = Modes::new(alloc, topology, 4);
    let view = View {
        controlled: Controlled::Lease(0b1),
        universal: true,
    };
    assert!(rt; view.sees(&modes, 1) && !view.sees(&modes, 2));
}
