//! Jobs that are started again if they were not served as expected, for instance because memory was refused.

ghost use Rattle.std.specs.Prelude.{◌≡◌};

use crate::comparing::same;
use crate::jobs::{Ends, HELLO_VERSION_TWICE, ends, job};
use crate::trials::{Trial, new_device};
use crate::turns::{lend_back, shared};
use drm_device::Device;
use drm_sessions::{NoGate, SessionEnd, serve_many};
use drm_table::{Event, Limits};
use drm_turns::{Seat, SharedDevice};
use std::alloc::{AllocError, Global};
use std::process::Abort;
use std::sync::Wait;
use std::test::Fail;
use std::thread::Threads;

/// Both sessions open a client, ask for VERSION twice, and end.
const EXPECTED: Ends = (
    2,
    Some((SessionEnd::Ended, 4)),
    Some((SessionEnd::Ended, 4)),
);

/// Serves two jobs, and returns the ends of their sessions.
fn serve_two<R: Wait + Threads + Sync>(
    rt: &R,
    alloc: Global,
    shared: &SharedDevice,
    participant: &mut Seat,
) -> Result<Ends, AllocError>
    requires own { participant.old.table ≡ shared.now }
    ensures own { participant.new.table ≡ shared.now }
{
    let mut jobs = Vec::new(alloc);
    jobs.push(job(alloc, NoGate, &HELLO_VERSION_TWICE))?;
    jobs.push(job(alloc, NoGate, &HELLO_VERSION_TWICE))?;
    Ok(match serve_many(rt, alloc, shared, participant, jobs) {
        Ok(sessions) => ends(&sessions),
        Err(_fault) => (0, None, None),
    })
}

/// Serves two jobs, and two others if the first weren't served as expected.
fn serve_again<R: Wait + Threads + Sync + Abort>(
    rt: &R,
    alloc: Global,
    shared: &SharedDevice,
    participant: &mut Seat,
) -> Result<(), AllocError>
    requires own { participant.old.table ≡ shared.now }
    ensures own { participant.new.table ≡ shared.now }
{
    let first = serve_two(rt, alloc, shared, participant)?;
    if first != EXPECTED {
        same(
            rt,
            &serve_two(rt, alloc, shared, participant)?,
            &EXPECTED,
            "sessions",
        );
    }
    Ok(())
}

/// Each client that was opened is closed.
struct AllClosed;

impl<R: Abort> Trial<R> for AllClosed {
    fn run(&self, rt: &R, _alloc: Global, device: &mut Device) -> Result<(), Fail> {
        let events = device.journal();
        let opened = events
            .iter()
            .filter(|event| matches!(event, Event::Open(_)))
            .count();
        let closed = events
            .iter()
            .filter(|event| matches!(event, Event::Close(_)))
            .count();
        same(rt, &opened, &closed, "clients");
        Ok(())
    }
}

#[test]
fn jobs_are_asked_for_again(rt: HostRuntime) -> Result<(), Fail> {
    let alloc: Global = rt.alloc();
    let device = new_device(alloc, Limits::PROGRAM)?;
    let played = match shared(alloc, device) {
        Ok((shared, mut participant)) => {
            let served = serve_again(&rt, alloc, &shared, &mut participant);
            (shared.close(participant), served)
        }
        Err(device) => (Ok(device), Err(AllocError)),
    };
    lend_back(&rt, alloc, played, &AllClosed)
}
