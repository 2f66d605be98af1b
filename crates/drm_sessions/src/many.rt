//! Many sessions at once.

ghost use Rattle.std.specs.Prelude.{◌≡◌, ◌≢◌, ℕ, ◌+◌, ◌-◌, ◌<◌, ◌≤◌, [], ◌∷◌, ◌++◌, All, Err, IfOk, OnErr, OnOk, vec_len};
ghost use Rattle.std.specs.List.{AllByRecursion};
ghost use Rattle.std.specs.Vec.{vec_capacity};
ghost use Rattle.drm_turns.specs.History.{AllDiffer};
ghost use Rattle.drm_turns.specs.Participants.{HasSeen, HasTakenIn, IsChild, IsSplitOff, Extends, Same, numbers_of, with_outstanding};
ghost use Rattle.drm_sessions.specs.declared.many.ManyFault.TheVariants.{NoMemory, NoThread};
ghost use Rattle.drm_sessions.specs.Serving.{all_steps};
ghost use Rattle.drm_sessions.specs.Jobs.{HasTurns, IsServed, IsServedBeside, participants_of, sessions_of};
ghost use Rattle.drm_sessions.specs.Matched.{Matched};

use crate::access::Gate;
use crate::jobs::{Finished, Job, JobHandle, Returned, start_job};
use drm_frames::{Sink, Source};
use drm_turns::{Seat, SharedDevice};
use std::alloc::Global;
use std::sync::Wait;
use std::thread;
use std::thread::{Scope, Threads};

/// Why not all jobs were served.
///
/// # Examples
///
/// ```rust
/// use drm_device::{Device, Limits, Topology};
/// use drm_frames::{FromRead, ToWrite};
/// use drm_sessions::{Job, ManyFault, NoGate, serve_many};
/// use drm_turns::SharedDevice;
///
/// let alloc = rt.alloc();
/// let Some(topology) = Topology::new(2, &[1, 2], &[3, 2], &[5, 6]) else { return };
/// let Ok(fresh) = Device::new(alloc, topology, Limits::PROGRAM) else { return };
/// let Ok((shared, mut participant)) = SharedDevice::new(alloc, fresh) else { return };
/// let none: Vec<Job<NoGate, FromRead<&[u8]>, ToWrite<Vec<u8>>>> = Vec::new(alloc);
/// match serve_many(&rt, alloc, &shared, &mut participant, none) {
///     Ok(served) => assert!(rt; served.is_empty()),
///     Err(ManyFault::NoMemory | ManyFault::NoThread) => return,
/// }
/// ```
#[derive(Clone, Copy, Debug, PartialEq)]
pub enum ManyFault {
    /// There was no memory for the list of threads, or of sessions. No job was started.
    NoMemory,
    /// A thread couldn't be made. The jobs before it were served, and their sessions are lost. One more is out of the lent participant than
    /// before.
    NoThread,
}

// Starts a thread for each job, in order, with its own participant.
fn start_all<
    's,
    E: 's,
    R: Wait + Threads + Sync,
    G: Gate + Send + Drop + 's,
    S: Source + Send + Drop + 's,
    K: Sink + Send + Drop + 's,
>(
    scope: &Scope<'s, E>,
    rt: &'s R,
    shared: &'s SharedDevice,
    own: &mut Seat,
    jobs: Vec<Job<G, S, K>>,
    handles: Vec<JobHandle<G, S, K>>,
) -> Result<Vec<JobHandle<G, S, K>>, ManyFault>
    requires turns { All (λ job. HasTurns S.trace K.trace job) jobs.items }
    requires own { own.old.table ≡ shared.now }
    requires empty { handles.items ≡ [] }
    requires reserved { vec_len jobs ≤ vec_capacity handles }
    ensures started { IfOk result (λ handles.
        Matched (λ job handle. handle.promise.job.value ≡ job) jobs.items handles.items) }
    ensures split { IfOk result (λ handles.
        All (λ handle. IsSplitOff own.old handle.promise.participant.value) handles.items) }
    ensures children { IfOk result (λ handles.
        All (λ handle. IsChild own.old handle.promise.participant.value) handles.items) }
    ensures own { own.new ≡ with_outstanding own.old own.new.outstanding }
    ensures outstanding { IfOk result (λ handles. own.new.outstanding ≡ own.old.outstanding + vec_len handles) }
    ensures memory { result ≢ Err NoMemory }
    ensures thread { result ≡ Err NoThread → own.old.outstanding < own.new.outstanding }
{
    let mut handles = handles;
    for job in jobs {
        let participant = shared.split(own);
        let Some(handle) = start_job(scope, rt, shared, participant, job) else {
            return Err(ManyFault::NoThread);
        };
        handles.push_reserved(handle);
    }
    Ok(handles)
}

// Joins the threads and takes in their participants, in order.
fn join_all<R: Wait + Threads + Sync, G: Gate, S: Source + Drop, K: Sink + Drop>(
    rt: &R,
    shared: &SharedDevice,
    own: &mut Seat,
    handles: Vec<JobHandle<G, S, K>>,
    sessions: Vec<Finished<S, K>>,
) -> Vec<Finished<S, K>>
    requires own { own.old.table ≡ shared.now }
    requires merged { own.old.merged ≡ [] }
    requires split { All (λ handle. IsSplitOff own.old handle.promise.participant.value) handles.items }
    requires children { All (λ handle. IsChild own.old handle.promise.participant.value) handles.items }
    requires empty { sessions.items ≡ [] }
    requires reserved { vec_len handles ≤ vec_capacity sessions }
    ensures served { Matched
        (λ handle finished. IsServed G.passes S.trace K.trace handle.promise.participant.value handle.promise.job.value finished)
        handles.items result.items }
    ensures taken { HasTakenIn own.new (participants_of result.items) }
    ensures same { Same own.old own.new }
    ensures parent { own.new.parent ≡ own.old.parent }
    ensures outstanding { own.new.outstanding ≡ own.old.outstanding - vec_len result }
    ensures journaled { own.new.journaled ≡ own.old.journaled + all_steps (sessions_of result.items) }
{
    let mut sessions = sessions;
    for handle in handles {
        let Returned {
            finished,
            participant,
        } = handle.join(rt);
        shared.join(own, participant);
        sessions.push_reserved(finished);
    }
    sessions
}

// Serves the jobs in threads of the scope. All memory is reserved before the first thread.
fn serve_in_scope<
    's,
    E: 's,
    R: Wait + Threads + Sync,
    G: Gate + Send + Drop + 's,
    S: Source + Send + Drop + 's,
    K: Sink + Send + Drop + 's,
>(
    scope: &Scope<'s, E>,
    rt: &'s R,
    alloc: Global,
    shared: &'s SharedDevice,
    own: &mut Seat,
    jobs: Vec<Job<G, S, K>>,
) -> Result<Vec<Finished<S, K>>, ManyFault>
    requires turns { All (λ job. HasTurns S.trace K.trace job) jobs.items }
    requires own { own.old.table ≡ shared.now }
    requires merged { own.old.merged ≡ [] }
    ensures served { IfOk result (λ sessions. Matched
        (λ job finished. IsServedBeside G.passes S.trace K.trace own.old job finished) jobs.items sessions.items) }
    ensures taken { IfOk result (λ sessions. HasTakenIn own.new (participants_of sessions.items)) }
    ensures same { Same own.old own.new }
    ensures parent { own.new.parent ≡ own.old.parent }
    ensures outstanding { OnOk result (own.new.outstanding ≡ own.old.outstanding) }
    ensures unstarted { result ≡ Err NoMemory → own.new.outstanding ≡ own.old.outstanding }
    ensures thread { result ≡ Err NoThread → own.old.outstanding < own.new.outstanding }
    ensures fault { OnErr result (own.new.merged ≡ []) }
    ensures journaled { IfOk result (λ sessions. own.new.journaled ≡ own.old.journaled + all_steps (sessions_of sessions.items)) }
    ensures unjournaled { OnErr result (own.new.journaled ≡ own.old.journaled) }
{
    let count = jobs.len();
    let handles = Vec::with_capacity(alloc, count).map_err(|_| ManyFault::NoMemory)?;
    let sessions = Vec::with_capacity(alloc, count).map_err(|_| ManyFault::NoMemory)?;
    let handles = start_all(scope, rt, shared, own, jobs, handles)?;
    Ok(join_all(rt, shared, own, handles, sessions))
}

/// Serves each job in its own thread, and returns their sessions in the order of the jobs. It may wait.
///
/// Each job is served as `serve_through` describes, through a participant that is split off and merged again. What that
/// participant had seen is taken over, and the entries of its number there are those of its session. The numbers of the
/// jobs' participants differ, and follow the number of one that took them in. The participant and those that it took in
/// made as many entries more as the jobs' sessions have steps, and without sessions none.
///
/// On a fault the function waits for the threads that were started, and their steps remain. What the lent participant
/// made itself is unchanged, and without a fault no more are out of it. If memory was refused, no job was started: no
/// job's participant was taken in, and none is out. If a thread couldn't be started, one more is out.
pub fn serve_many<
    R: Wait + Threads + Sync,
    G: Gate + Send + Drop,
    S: Source + Send + Drop,
    K: Sink + Send + Drop,
>(
    rt: &R,
    alloc: Global,
    shared: &SharedDevice,
    participant: &mut Seat,
    jobs: Vec<Job<G, S, K>>,
) -> Result<Vec<Finished<S, K>>, ManyFault>
    requires turns { All (λ job. HasTurns S.trace K.trace job) jobs.items }
    requires own { participant.old.table ≡ shared.now }
    ensures served { IfOk result (λ sessions. Matched
        (λ job finished. IsServedBeside G.passes S.trace K.trace participant.old job finished) jobs.items sessions.items) }
    ensures seen { IfOk result (λ sessions. AllByRecursion (λ other. HasSeen participant.new other) (participants_of sessions.items)) }
    ensures merged { (number : ℕ)
        × IfOk result (λ sessions. participant.new.merged ≡ participant.old.merged ++ number ∷ numbers_of (participants_of sessions.items))
        × OnErr result (participant.new.merged ≡ participant.old.merged ++ number ∷ []) }
    ensures differ { AllDiffer (participant.new.number ∷ participant.new.merged) }
    ensures extends { Extends participant.old participant.new }
    ensures mine { participant.new.mine ≡ participant.old.mine }
    ensures parent { participant.new.parent ≡ participant.old.parent }
    ensures outstanding { OnOk result (participant.new.outstanding ≡ participant.old.outstanding) }
    ensures unstarted { result ≡ Err NoMemory → participant.new.outstanding ≡ participant.old.outstanding }
    ensures started { result ≡ Err NoThread → participant.new.outstanding ≡ participant.old.outstanding + 1 }
    ensures journaled { IfOk result (λ sessions. participant.new.journaled ≡ participant.old.journaled + all_steps (sessions_of sessions.items)) }
    ensures unjournaled { OnErr result (participant.new.journaled ≡ participant.old.journaled) }
{
    let own = shared.split(participant);
    let (own, sessions) = thread::scope(
        thread::scope_env(),
        rt,
        move |scope| -> (Seat, Result<Vec<Finished<S, K>>, ManyFault>)
            requires { All (λ job. HasTurns S.trace K.trace job) jobs.items
                × (own.table ≡ shared.now) × (own.merged ≡ []) }
            ensures { IfOk result.1 (λ sessions. Matched
                (λ job finished. IsServedBeside G.passes S.trace K.trace own job finished)
                jobs.items sessions.items)
                × IfOk result.1 (λ sessions. HasTakenIn result.0 (participants_of sessions.items))
                × Same own result.0
                × (result.0.parent ≡ own.parent)
                × OnOk result.1 (result.0.outstanding ≡ own.outstanding)
                × (result.1 ≡ Err NoMemory → result.0.outstanding ≡ own.outstanding)
                × (result.1 ≡ Err NoThread → own.outstanding < result.0.outstanding)
                × OnErr result.1 (result.0.merged ≡ [])
                × IfOk result.1 (λ sessions. result.0.journaled ≡ own.journaled + all_steps (sessions_of sessions.items))
                × OnErr result.1 (result.0.journaled ≡ own.journaled) }
        {
            let mut own = own;
            let sessions = serve_in_scope(scope, rt, alloc, shared, &mut own, jobs);
            (own, sessions)
        },
    );
    shared.join(participant, own);
    sessions
}
