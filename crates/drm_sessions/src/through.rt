//! A device that several sessions share.

ghost use Rattle.std.specs.Prelude.{◌≡◌, ◌^◌, ◌+◌, ◌<◌};
ghost use Rattle.drm_sessions.specs.Gates.{LetsAllPass};
ghost use Rattle.drm_sessions.specs.Serving.{Costs, calls_made};
ghost use Rattle.drm_sessions.specs.Shared.{ServesShared, TakesTurn};

use crate::access::{Access, Gate};
use crate::class::Class;
use crate::end::Session;
use crate::serving::serve;
use crate::witness::{NoWitness, Witness};
use drm_frames::{Sink, Source};
use drm_table::{Answer, Apart, Event};
use drm_turns::{Seat, SharedDevice};
use std::marker::Model;
use std::sync::Wait;

/// A shared device as a session reaches it: each call is a call through the participant. A witness receives each call after
/// its turn. Contracts see the participant.
///
/// # Examples
///
/// ```rust
/// use drm_device::{Device, Limits, Topology};
/// use drm_sessions::Through;
/// use drm_turns::SharedDevice;
///
/// let alloc = rt.alloc();
/// let Some(topology) = Topology::new(2, &[1, 2], &[3, 2], &[5, 6]) else { return };
/// let Ok(device) = Device::new(alloc, topology, Limits::PROGRAM) else { return };
/// let Ok((shared, participant)) = SharedDevice::new(alloc, device) else { return };
/// let mut through = Through::new(&rt, &shared, participant);
/// ```
#[derive(Drop)]
pub struct Through<'a, R: Wait, W = NoWitness> {
    rt: &'a R,
    shared: &'a SharedDevice,
    participant: Seat,
    witness: W,
}

impl<'a, R: Wait, W> Model for Through<'a, R, W> {
    ghost use Rattle.drm_turns.specs.Participants.{ParticipantView};

    ghost Value = { ParticipantView };

    ghost view = { λ through. through.participant };

    ghost use Rattle.std.specs.Prelude.{◌≡◌};

    ghost invariant = { λ through. through.participant.table ≡ through.shared.now };
}

impl<'a, R: Wait> Through<'a, R> {
    /// Returns the shared device, through this participant of it.
    pub fn new(rt: &'a R, shared: &'a SharedDevice, participant: Seat) -> Through<'a, R>
        requires own { participant.table ≡ shared.now }
        ensures participant { result ≡ participant }
    {
        Through::witnessed(rt, shared, participant, NoWitness)
    }
}

impl<'a, R: Wait, W: Witness + Drop> Through<'a, R, W> {
    /// Returns the shared device, through this participant of it. The witness receives each call.
    pub fn witnessed(
        rt: &'a R,
        shared: &'a SharedDevice,
        participant: Seat,
        witness: W,
    ) -> Through<'a, R, W>
        requires own { participant.table ≡ shared.now }
        ensures participant { result ≡ participant }
    {
        Through {
            rt,
            shared,
            participant,
            witness,
        }
    }

    /// Returns the participant back.
    pub fn into_seat(self) -> Seat
        ensures participant { result ≡ self.entry }
    {
        let Through { participant, .. } = self;
        participant
    }
}

impl<R: Wait, W: Witness + Drop> Access for Through<'_, R, W> {
    ghost answers = { TakesTurn };

    fn call(&mut self, event: Event) -> Result<Answer, Apart> {
        let mut outcome = Err(Apart::Worn);
        self.call_at(&event, &mut outcome);
        outcome
    }

    fn call_at(&mut self, event: &Event, outcome: &mut Result<Answer, Apart>) {
        let shortage = self.witness.shortage(event);
        let place = self
            .shared
            .call_placed(self.rt, &mut self.participant, event, shortage, outcome);
        self.witness.tell(event, place, outcome);
    }
}

/// A session that was served through a participant.
///
/// # Examples
///
/// ```rust
/// use drm_device::{Device, Limits, Topology};
/// use drm_frames::{FromRead, ToWrite};
/// use drm_sessions::{Class, NoGate, Served, serve_through};
/// use drm_turns::SharedDevice;
///
/// let alloc = rt.alloc();
/// let hello = [14, 0, 0, 0, 0, 1, 1, 0, 0, 0, 0, 0, 0, 0, 0, 0, 0, 0];
/// let mut sink = ToWrite::new(Vec::new(alloc));
/// let card = Class::Card;
/// let Some(topology) = Topology::new(2, &[1, 2], &[3, 2], &[5, 6]) else { return };
/// let Ok(fresh) = Device::new(alloc, topology, Limits::PROGRAM) else { return };
/// let Ok((shared, mut participant)) = SharedDevice::new(alloc, fresh) else { return };
/// let mut source = FromRead::new(hello.as_slice());
/// let mut gate = NoGate;
/// let Served { session, participant } =
///     serve_through(&rt, &shared, participant, &mut gate, card, &mut source, &mut sink, 1000);
/// assert!(rt; session.steps == 2);
/// ```
#[derive(Drop)]
pub struct Served {
    /// How it ended, and what it did.
    pub session: Session,
    /// The participant, which has the recorded events of the session with their answers more.
    pub participant: Seat,
}

/// Serves one session through a participant of a shared device. It may wait for its turns.
///
/// Each call has a turn of the device, in the history that the participant then has seen. The participant's own entries
/// are those that it had, and the recorded events of the session with their answers. In the rest it is as
/// [`serve`](crate::serve).
pub fn serve_through<R: Wait, G: Gate, S: Source, K: Sink>(
    rt: &R,
    shared: &SharedDevice,
    participant: Seat,
    gate: &mut G,
    class: Class,
    source: &mut S,
    sink: &mut K,
    turns: u64,
) -> Served
    requires own { participant.table ≡ shared.now }
    requires source { (S.trace source.old).counts.calls + turns < 2 ^ 48 }
    requires sink { (K.trace sink.old).counts.calls + turns < 2 ^ 48 }
    ensures serves { (serves : ServesShared class participant result.participant
        (S.trace source.old) (S.trace source.new) (K.trace sink.old) (K.trace sink.new)
        result.session) × LetsAllPass G.passes gate.old (calls_made serves.serves) gate.new }
    ensures costs { Costs (S.trace source.old) (S.trace source.new)
        (K.trace sink.old) (K.trace sink.new) turns result.session.end }
{
    serve_witnessed(
        rt,
        shared,
        participant,
        NoWitness,
        gate,
        class,
        source,
        sink,
        turns,
    )
}

/// Serves one session as [`serve_through`] does. The witness receives each call of the session after its turn, in the
/// order of the calls.
pub fn serve_witnessed<R: Wait, W: Witness + Drop, G: Gate, S: Source, K: Sink>(
    rt: &R,
    shared: &SharedDevice,
    participant: Seat,
    witness: W,
    gate: &mut G,
    class: Class,
    source: &mut S,
    sink: &mut K,
    turns: u64,
) -> Served
    requires own { participant.table ≡ shared.now }
    requires source { (S.trace source.old).counts.calls + turns < 2 ^ 48 }
    requires sink { (K.trace sink.old).counts.calls + turns < 2 ^ 48 }
    ensures serves { (serves : ServesShared class participant result.participant
        (S.trace source.old) (S.trace source.new) (K.trace sink.old) (K.trace sink.new)
        result.session) × LetsAllPass G.passes gate.old (calls_made serves.serves) gate.new }
    ensures costs { Costs (S.trace source.old) (S.trace source.new)
        (K.trace sink.old) (K.trace sink.new) turns result.session.end }
{
    let mut through = Through::witnessed(rt, shared, participant, witness);
    let session = serve(&mut through, gate, class, source, sink, turns);
    Served {
        session,
        participant: through.into_seat(),
    }
}
