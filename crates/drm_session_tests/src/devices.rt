//! The limits of a device, and its journal.

use crate::comparing::same;
use crate::trials::{Trial, lend, test_topology};
use drm_device::{Device, NewFault};
use drm_table::{Event, Limits};
use std::alloc::Global;
use std::process::Abort;
use std::test::Fail;

/// The device has this journal.
#[derive(Clone, Copy)]
pub(crate) struct HasJournal<'a>(pub(crate) &'a [Event]);

impl<R: Abort> Trial<R> for HasJournal<'_> {
    fn run(&self, rt: &R, alloc: Global, device: &mut Device) -> Result<(), Fail> {
        same(rt, &device.journal(), &self.0, "journal");
        Ok(())
    }
}

/// Returns whether a device is refused for its limits, which are in the order of the fields.
fn are_bad(rt: &impl Abort, alloc: Global, limits: [u32; 8]) -> Result<bool, Fail> {
    let limits = Limits {
        clients: limits[0],
        handles: limits[1],
        names: limits[2],
        tokens: limits[3],
        objects: limits[4],
        framebuffers: limits[5],
        lessees: limits[6],
        journal: limits[7],
    };
    let made = Device::new(alloc, test_topology()?, limits);
    Ok(lend(rt, alloc, made, &HasJournal(&[]))? == Some(NewFault::BadLimits))
}

/// The least and the greatest limits, in the order of the fields.
const LEAST: [u32; 8] = [1, 1, 1, 1, 1, 1, 1, 2];

const GREATEST: [u32; 8] = [1024, 65_535, 65_535, 65_535, 65_535, 64, 64, 100_000];

#[test]
fn limits_out_of_range(rt: HostRuntime) -> Result<(), Fail> {
    same(&rt, &are_bad(&rt, rt.alloc(), LEAST)?, &false, "least");
    same(
        &rt,
        &are_bad(&rt, rt.alloc(), GREATEST)?,
        &false,
        "greatest",
    );
    for place in 0..8 {
        let mut below = LEAST;
        below[place] = below[place].saturating_sub(1);
        same(&rt, &are_bad(&rt, rt.alloc(), below)?, &true, place);
        let mut above = GREATEST;
        above[place] = above[place].saturating_add(1);
        same(&rt, &are_bad(&rt, rt.alloc(), above)?, &true, place);
    }
    Ok(())
}
