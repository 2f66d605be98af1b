//! Listings of a small device, whole and cut.

use crate::comparing::same;
use drm_device::Device;
use drm_runs::test_topology;
use drm_server::{ListEnd, list_audit};
use drm_table::{Call, Event, Limits, Opening};
use drm_test_support::{Cut, sink_of};
use std::process::Abort;
use std::test::Fail;

const LINES: &[u8] =
    b"client 1 28 1 0\nmaster 1 0 0 0\nobject 2 16384 1 0\nhold 1 1 2 0\ndevice 1 0 0 2\n";

/// A client opens a device, and makes a buffer.
const EVENTS: [Event; 2] = [
    Event::Open(Opening::Primary {
        root: false,
        universal: true,
    }),
    Event::Ask(
        1,
        Call::CreateDumb {
            width: 64,
            height: 64,
            bpp: 32,
        },
    ),
];

/// The cut of a sink, the number of turns, the end of the listing, and the number of bytes that it writes.
type Listing = (Cut, u64, ListEnd, usize);

const LISTINGS: [Listing; 5] = [
    (Cut::Never, 1_000, ListEnd::Done, 80),
    (Cut::Never, 2, ListEnd::TurnsUsed, 31),
    (Cut::Never, 0, ListEnd::TurnsUsed, 0),
    (Cut::Fault(20), 1_000, ListEnd::WriteFault, 20),
    (Cut::Interruptions(999), 100_000, ListEnd::Done, 80),
];

fn check_listing(rt: &impl Abort, device: &Device, piece: usize, listing: Listing) {
    let (cut, turns, end, written) = listing;
    let mut sink = sink_of(piece, cut);
    let listed = list_audit(device, &mut sink, turns.min(100_000));
    let lines = &LINES[..written.min(LINES.len())];
    same(rt, &(listed, sink.written()), &(end, lines), piece);
}

/// A sink that takes pieces of `piece` bytes takes the whole listing. If it fails, takes nothing more or is interrupted
/// too often, it takes the part before.
fn check_cuts(rt: &impl Abort, device: &Device, piece: usize) {
    check_listing(rt, device, piece, (Cut::Never, 1_000, ListEnd::Done, 80));
    for at in 0..LINES.len() {
        for cut in [Cut::Fault(at), Cut::End(at), Cut::Interrupted(1_000, at)] {
            check_listing(rt, device, piece, (cut, 10_000, ListEnd::WriteFault, at));
        }
    }
}

/// Listings of the device after these events.
fn check_listings(rt: &impl Abort, device: &mut Device) {
    for event in EVENTS {
        same(rt, &device.step(event).is_ok(), &true, "step");
    }
    for listing in LISTINGS {
        check_listing(rt, device, 512, listing);
    }
    for piece in [1, 2, 3, 7] {
        check_cuts(rt, device, piece);
    }
}

#[test]
fn listings(rt: HostRuntime) -> Result<(), Fail> {
    let mut device = Device::new(rt.alloc(), test_topology(), Limits::PROGRAM)?;
    check_listings(&rt, &mut device);
    Ok(())
}
