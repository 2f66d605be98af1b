//! The examples of `drm_modes`, made by `tools/doc_examples` of its doc comments.

use drm_gem::ObjectKey;
use drm_modes::{
    AddFbFault, Fb, Framebuffer, Kind, ModeRow, Modes, PlaneKind, Shape, Shown, Topology,
};

#[test]
fn part_1(rt: HostRuntime) {
    let alloc = rt.alloc();
    let Some(topology) = Topology::new(2, &[1, 2], &[3, 2], &[5, 6]) else {
        panic!(rt; "refused")
    };
    let mut modes = Modes::new(alloc, topology, 1);
    let shape = Shape {
        width: 640,
        height: 480,
        pitch: 2560,
        bpp: 32,
    };
    let Ok(_first) = modes.addfb(1, shape, ObjectKey::from_number(7)) else {
        panic!(rt; "refused")
    };
    let second = modes.addfb(1, shape, ObjectKey::from_number(7));
    assert!(rt; second == Err(AddFbFault::Full));
    let Some(topology) = Topology::new(2, &[1, 2], &[3, 2], &[5, 6]) else {
        panic!(rt; "refused")
    };
    assert!(rt; topology.kind(1) == Some(Kind::Crtc) && topology.kind(8) == Some(Kind::Connector));
    let kind = PlaneKind::Primary(1);
}

#[test]
fn part_2(rt: HostRuntime) {
    let alloc = rt.alloc();
    let Some(topology) = Topology::new(2, &[1, 2], &[3, 2], &[5, 6]) else {
        panic!(rt; "refused")
    };
    let mut modes = Modes::new(alloc, topology, 4);
    let shape = Shape {
        width: 640,
        height: 480,
        pitch: 2560,
        bpp: 32,
    };
    let object = ObjectKey::from_number(7);
    let Ok(framebuffer) = modes.addfb(1, shape, object) else {
        panic!(rt; "refused")
    };
    assert!(rt;
        modes.fb(framebuffer)
            == Some(Fb {
                client: 1,
                shape,
                object
            })
    );
    assert!(rt; modes.rmfb(2, framebuffer).is_none());
    assert!(rt; modes.rmfb(1, framebuffer) == Some(object));
    let shape = Shape {
        width: 640,
        height: 480,
        pitch: 2560,
        bpp: 32,
    };
}

#[test]
fn part_3(rt: HostRuntime) {
    let alloc = rt.alloc();
    let shape = Shape {
        width: 640,
        height: 480,
        pitch: 2560,
        bpp: 32,
    };
    let Some(topology) = Topology::new(2, &[1, 2], &[3, 2], &[5, 6]) else {
        panic!(rt; "refused")
    };
    let mut modes = Modes::new(alloc, topology, 4);
    let object = ObjectKey::from_number(7);
    let Ok(framebuffer) = modes.addfb(1, shape, object) else {
        panic!(rt; "refused")
    };
    let row = Framebuffer {
        framebuffer,
        client: 1,
        shape,
        object,
    };
    assert!(rt; modes.nth(8, 0) == Some(ModeRow::Framebuffer(row)));
}

#[test]
fn part_4(rt: HostRuntime) {
    let alloc = rt.alloc();
    let shape = Shape {
        width: 640,
        height: 480,
        pitch: 2560,
        bpp: 32,
    };
    let Some(topology) = Topology::new(2, &[1, 2], &[3, 2], &[5, 6]) else {
        panic!(rt; "refused")
    };
    let mut modes = Modes::new(alloc, topology, 4);
    let object = ObjectKey::from_number(7);
    let Ok(framebuffer) = modes.addfb(1, shape, object) else {
        panic!(rt; "refused")
    };
    if modes.is_of_kind(Kind::Crtc, 1) && modes.fb(framebuffer).is_some() {
        modes.setcrtc(1, framebuffer);
    }
    assert!(rt;
        modes.nth_shown(0)
            == Some(Shown {
                engine: 1,
                framebuffer
            })
    );
    let Some(topology) = Topology::new(2, &[1, 2], &[3, 2], &[5, 6]) else {
        panic!(rt; "refused")
    };
    assert!(rt; topology.kind(8) == Some(Kind::Connector));
    assert!(rt; Topology::new(1, &[2], &[1], &[1]).is_none());
}
