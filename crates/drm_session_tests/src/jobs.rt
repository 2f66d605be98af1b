//! Two sessions at once, each of which waits for the other.

ghost use Rattle.std.specs.Prelude.{◌≡◌};
ghost use Rattle.drm_frames.specs.Streams.{no_calls};

use crate::comparing::same;
use crate::trials::{Trial, new_device};
use crate::turns::{lend_back, shared};
use drm_device::Device;
use drm_frames::{FromRead, ToWrite};
use drm_sessions::{Class, Finished, Gate, Job, SessionEnd, serve_many};
use drm_table::{Event, Limits};
use std::alloc::{AllocError, Global};
use std::process::Abort;
use std::sync::atomic::{AtomicBool, Ordering};
use std::test::Fail;
use std::thread;
use std::time::{Clock, Duration};

/// A hello for a node, VERSION, and VERSION again.
pub(crate) const HELLO_VERSION_TWICE: [u8; 30] = [
    0x0e, 0, 0, 0, 0, 1, 1, 0, 0, 0, 0, 0, 0, 0, 0, 0, 0, 0, 2, 0, 0, 0, 0, 0, 2, 0, 0, 0, 0, 0,
];

/// The most times that a gate looks for a flag.
const MOST_LOOKS: u32 = 10_000;

const MANY_TURNS: u64 = 1_000_000;

/// At one of its calls a gate sets its flag, and waits for another's.
#[derive(Drop)]
struct FlagGate<'a, R: Clock> {
    rt: &'a R,
    sets: &'a AtomicBool,
    awaits: &'a AtomicBool,
    failed: &'a AtomicBool,
    calls_left: u32,
}

impl<R: Clock> FlagGate<'_, R> {
    fn meet(&self) {
        self.sets.store(true, Ordering::SeqCst);
        for _ in 0..MOST_LOOKS {
            if self.awaits.load(Ordering::SeqCst) {
                return;
            }
            thread::sleep(self.rt, Duration::from_millis(1));
        }
        self.failed.store(true, Ordering::SeqCst);
    }
}

impl<R: Clock> Gate for FlagGate<'_, R> {
    ghost use Rattle.std.specs.Prelude.{⊤};

    ghost passes = { λ before client after. ⊤ };

    fn before(&mut self, _client: u32) {
        if self.calls_left == 1 {
            self.meet();
        }
        self.calls_left = self.calls_left.saturating_sub(1);
    }
}

/// A card's session over these bytes.
pub(crate) fn job<'a, G>(
    alloc: Global,
    gate: G,
    input: &'a [u8],
) -> Job<G, FromRead<&'a [u8]>, ToWrite<Vec<u8>>>
    ensures source { result.source.counts ≡ no_calls }
    ensures sink { result.sink.counts ≡ no_calls }
    ensures turns { result.turns ≡ 1000000 }
{
    Job {
        gate,
        class: Class::Card,
        source: FromRead::new(input),
        sink: ToWrite::new(Vec::new(alloc)),
        turns: MANY_TURNS,
    }
}

/// How a session ended, and how many steps it made.
fn ended<S, K>(finished: Option<&Finished<S, K>>) -> Option<(SessionEnd, u64)> {
    match finished {
        Some(finished) => Some((finished.session.end, finished.session.steps)),
        None => None,
    }
}

/// Both sessions are in the journal.
struct Journal;

impl<R: Abort> Trial<R> for Journal {
    fn run(&self, rt: &R, _alloc: Global, device: &mut Device) -> Result<(), Fail> {
        let openings = device
            .journal()
            .iter()
            .filter(|event| matches!(event, Event::Open(_)))
            .count();
        same(
            rt,
            &(openings, device.journal().len()),
            &(2, 7),
            "openings and events",
        );
        Ok(())
    }
}

/// How many sessions were served, and the ends of the first two.
pub(crate) type Ends = (usize, Option<(SessionEnd, u64)>, Option<(SessionEnd, u64)>);

pub(crate) fn ends<S, K>(sessions: &[Finished<S, K>]) -> Ends {
    (
        sessions.len(),
        ended(sessions.first()),
        ended(sessions.get(1)),
    )
}

/// The first asks for VERSION once, the second twice.
const EXPECTED: Ends = (
    2,
    Some((SessionEnd::Ended, 3)),
    Some((SessionEnd::Ended, 4)),
);

#[test]
fn jobs_wait_for_each_other(rt: HostRuntime) -> Result<(), Fail> {
    let alloc: Global = rt.alloc();
    let first = AtomicBool::new(false);
    let second = AtomicBool::new(false);
    let failed = AtomicBool::new(false);
    let gate = |sets, awaits, calls_left| FlagGate {
        rt: &rt,
        sets,
        awaits,
        failed: &failed,
        calls_left,
    };
    let mut jobs = Vec::new(alloc);
    jobs.push(job(alloc, gate(&first, &second, 1), &HELLO_VERSION_TWICE[..24]))?;
    jobs.push(job(alloc, gate(&second, &first, 2), &HELLO_VERSION_TWICE))?;
    let device = new_device(alloc, Limits::PROGRAM)?;
    let played = match shared(alloc, device) {
        Ok((shared, mut participant)) => {
            let served = serve_many(&rt, alloc, &shared, &mut participant, jobs);
            let told: Ends = match served {
                Ok(sessions) => ends(&sessions),
                Err(_fault) => (0, None, None),
            };
            same(&rt, &told, &EXPECTED, "sessions");
            (shared.close(participant), Ok(()))
        }
        Err(device) => (Ok(device), Err(AllocError)),
    };
    same(
        &rt,
        &failed.load(Ordering::SeqCst),
        &false,
        "a gate waited in vain",
    );
    lend_back(&rt, alloc, played, &Journal)
}
