//! A session that is to be served in its own thread.

ghost use Rattle.std.specs.Prelude.{◌≡◌, IfSome};
ghost use Rattle.drm_sessions.specs.Jobs.{HasTurns, IsServed};

use crate::access::Gate;
use crate::class::Class;
use crate::end::Session;
use crate::through::{Served, serve_through};
use drm_frames::{Sink, Source};
use drm_turns::{Seat, Sharing};
use std::snapshot::Snapshot;
use std::sync::Wait;
use std::thread::{Promise, PromisedHandle, Scope, Threads};

/// A session that is to be served.
#[derive(Drop)]
pub struct Job<G, S, K> {
    /// What is called before each of its requests.
    pub gate: G,
    /// The class of its listener.
    pub class: Class,
    /// Where its frames come from.
    pub source: S,
    /// Where its answers go.
    pub sink: K,
    /// How many calls of the source and the sink it may make together.
    pub turns: u64,
}

/// A session that was served, with its source and its sink.
///
/// # Examples
///
/// ```rust
/// use drm_device::{Device, Limits, Topology};
/// use drm_frames::{FromRead, ToWrite};
/// use drm_sessions::{Class, Finished, Job, NoGate, serve_many};
/// use drm_turns::SharedDevice;
///
/// let alloc = rt.alloc();
/// let hello = [14, 0, 0, 0, 0, 1, 1, 0, 0, 0, 0, 0, 0, 0, 0, 0, 0, 0];
/// let card = Class::Card;
/// let Some(topology) = Topology::new(2, &[1, 2], &[3, 2], &[5, 6]) else { return };
/// let Ok(fresh) = Device::new(alloc, topology, Limits::PROGRAM) else { return };
/// let Ok((shared, mut participant)) = SharedDevice::new(alloc, fresh) else { return };
/// let (from, into) = (FromRead::new(hello.as_slice()), ToWrite::new(Vec::new(alloc)));
/// let job = Job { gate: NoGate, class: card, source: from, sink: into, turns: 1000 };
/// let mut jobs = Vec::new(alloc);
/// let Ok(()) = jobs.push(job) else { return };
/// let Ok(served) = serve_many(&rt, alloc, &shared, &mut participant, jobs) else { return };
/// let Some(Finished { session, .. }) = served.first() else { return };
/// assert!(rt; session.steps == 2);
/// ```
#[derive(Drop)]
pub struct Finished<S, K> {
    /// How it ended, and what it did.
    pub session: Session,
    /// The source, as the session left it.
    pub source: S,
    /// The sink, as the session left it.
    pub sink: K,
    /// The participant that the session had, as it ended; contracts speak of it.
    pub participant: Snapshot<Seat>,
}

/// The result of a job's thread.
#[derive(Drop)]
pub(crate) struct Returned<S, K> {
    pub(crate) finished: Finished<S, K>,
    pub(crate) participant: Seat,
}

/// The task of a thread: it serves its job through its participant.
#[derive(Drop)]
pub(crate) struct JobServed<G, S, K> {
    pub(crate) job: Snapshot<Job<G, S, K>>,
    pub(crate) participant: Snapshot<Seat>,
}

impl<G: Gate, S: Source, K: Sink> Promise<Returned<S, K>> for JobServed<G, S, K> {
    ghost kept_by = { λ promise returned.
        IsServed G.passes S.trace K.trace promise.participant.value promise.job.value returned.finished
        × (returned.finished.participant.value ≡ returned.participant) };
}

/// A thread that serves a job.
pub(crate) type JobHandle<G, S, K> = PromisedHandle<Returned<S, K>, JobServed<G, S, K>>;

// Serves the job.
fn run_job<R: Wait, D: Sharing, G: Gate + Drop, S: Source, K: Sink>(
    rt: &R,
    shared: &D,
    participant: Seat,
    job: Job<G, S, K>,
) -> Returned<S, K>
    requires turns { HasTurns S.trace K.trace job }
    requires own { participant.table ≡ D.table shared.now }
    ensures served { IsServed G.passes S.trace K.trace participant job result.finished }
    ensures participant { result.finished.participant.value ≡ result.participant }
{
    let Job {
        mut gate,
        class,
        mut source,
        mut sink,
        turns,
    } = job;
    let Served {
        session,
        participant,
    } = serve_through(
        rt,
        shared.device(),
        participant,
        &mut gate,
        class,
        &mut source,
        &mut sink,
        turns,
    );
    Returned {
        finished: Finished {
            session,
            source,
            sink,
            participant: Snapshot::of(&participant),
        },
        participant,
    }
}

/// Starts a thread that serves the job through the participant, where one can be made.
pub(crate) fn start_job<
    's,
    E: 's,
    R: Wait + Threads + Sync,
    D: Sharing + Sync,
    G: Gate + Send + Drop + 's,
    S: Source + Send + Drop + 's,
    K: Sink + Send + Drop + 's,
>(
    scope: &Scope<'s, E>,
    rt: &'s R,
    shared: &'s D,
    participant: Seat,
    job: Job<G, S, K>,
) -> Option<JobHandle<G, S, K>>
    requires turns { HasTurns S.trace K.trace job }
    requires own { participant.table ≡ D.table shared.now }
    ensures job { IfSome result (λ handle. handle.promise.job.value ≡ job) }
    ensures participant { IfSome result (λ handle. handle.promise.participant.value ≡ participant) }
{
    let promise = JobServed {
        job: Snapshot::of(&job),
        participant: Snapshot::of(&participant),
    };
    match scope.spawn_with(promise, move || run_job(rt, shared, participant, job)) {
        Ok(handle) => Some(handle),
        Err(_) => None,
    }
}
