//! One device, several participants.

ghost use Rattle.std.specs.Prelude.{◌≡◌, IfOk};

use crate::comparing::same;
use crate::trials::{Trial, lend, new_device};
use drm_device::Device;
use drm_table::{Answer, Apart, Call, Event, Limits, Opening};
use drm_turns::{NoMemory, Seat, SharedDevice, Sharing, TurnOut};
use std::alloc::{AllocError, Global};
use std::process::Abort;
use std::sync::Wait;
use std::test::Fail;
use std::thread;
use std::thread::Threads;

/// Shares a device, and returns the first participant. If memory is refused, the device is returned, and shared once
/// more.
pub(crate) fn shared(alloc: Global, device: Device) -> Result<(SharedDevice, Seat), Device>
    ensures { IfOk result (λ made. made.1.table ≡ made.0) }
{
    let device = match SharedDevice::new(alloc, device) {
        Ok(made) => return Ok(made),
        Err((device, NoMemory)) => device,
    };
    match SharedDevice::new(alloc, device) {
        Ok(made) => Ok(made),
        Err((device, NoMemory)) => Err(device),
    }
}

/// A device that is returned from its participants, and the result of the trial with them.
pub(crate) type Played = (Result<Device, TurnOut>, Result<(), AllocError>);

/// Lends the returned device.
pub(crate) fn lend_back<R, T: Trial<R>>(
    rt: &R,
    alloc: Global,
    played: Played,
    trial: &T,
) -> Result<(), Fail> {
    let (device, played) = played;
    let lent = lend(rt, alloc, device, trial)?;
    played?;
    match lent {
        Some(TurnOut) => Err("the device is out".into()),
        None => Ok(()),
    }
}

const CARD: Event = Event::Open(Opening::Primary {
    root: false,
    universal: true,
});

const OPENED: Result<Answer, Apart> = Ok(Answer::Opened { client: 1 });

/// Whether the other participant makes the call, the event, and the answer.
type Turn = (bool, Event, Result<Answer, Apart>);

const OPENING: Turn = (false, CARD, OPENED);

const VERSION: Turn = (
    true,
    Event::Ask(1, Call::Version),
    Ok(Answer::Version {
        major: 1,
        minor: 0,
        patch: 0,
    }),
);

/// A journal of two steps, of which one is kept for the closing.
const FULL_JOURNAL: [Turn; 3] = [
    (false, Event::Open(Opening::Render), OPENED),
    (true, Event::Ask(1, Call::Version), Err(Apart::JournalFull)),
    (false, Event::Close(1), Ok(Answer::Closed)),
];

const OPENED_ONCE: [Turn; 1] = [OPENING];

const ONE_VERSION: [Turn; 1] = [VERSION];

/// Compares what a participant is answered, and the count, which is the length of the history. What is refused memory isn't counted, and is
/// asked once more.
fn call_by(
    rt: &(impl Wait + Abort),
    shared: &SharedDevice,
    participant: &mut Seat,
    turn: &Turn,
    noted: &mut u64,
) -> Result<(), AllocError>
    requires { participant.old.table ≡ shared.now }
    ensures { participant.new.table ≡ participant.old.table }
{
    let (_, event, answer) = turn;
    let mut given = shared.call(rt, participant, event.clone()?);
    if given == Err(Apart::NoMemory) {
        same(rt, &shared.peek_count(), noted, "count of a refusal");
        given = shared.call(rt, participant, event.clone()?);
    }
    same(rt, &given, answer, *noted);
    *noted = noted.saturating_add(answer.is_ok() as u64);
    same(rt, &shared.peek_count(), noted, "count");
    Ok(())
}

/// The turns of one participant.
fn call_alone(
    rt: &(impl Wait + Abort),
    shared: &SharedDevice,
    participant: &mut Seat,
    turns: &[Turn],
    noted: &mut u64,
) -> Result<(), AllocError>
    requires { participant.old.table ≡ shared.now }
    ensures { participant.new.table ≡ participant.old.table }
{
    for turn in turns {
        call_by(rt, shared, participant, turn, noted)?;
    }
    Ok(())
}

/// The turns of two participants.
fn call_in_turn(
    rt: &(impl Wait + Abort),
    shared: &SharedDevice,
    participant: &mut Seat,
    other: &mut Seat,
    turns: &[Turn],
    noted: &mut u64,
) -> Result<(), AllocError>
    requires participant { participant.old.table ≡ shared.now }
    requires other { other.old.table ≡ shared.now }
    ensures participant { participant.new.table ≡ participant.old.table }
    ensures other { other.new.table ≡ other.old.table }
{
    for turn in turns {
        if turn.0 {
            call_by(rt, shared, other, turn, noted)?;
        } else {
            call_by(rt, shared, participant, turn, noted)?;
        }
    }
    Ok(())
}

/// The calls of one participant alone, and those of two in rotation.
fn call_all(
    rt: &(impl Wait + Abort),
    shared: &SharedDevice,
    participant: &mut Seat,
    alone: &[Turn],
    in_turn: &[Turn],
    noted: &mut u64,
) -> Result<(), AllocError>
    requires { participant.old.table ≡ shared.now }
    ensures { participant.new.table ≡ participant.old.table }
{
    same(rt, &shared.peek_count(), noted, "count of a device");
    call_alone(rt, shared, participant, alone, noted)?;
    let mut other = shared.split(participant);
    call_in_turn(rt, shared, participant, &mut other, in_turn, noted)?;
    let note = shared.note(&mut other);
    shared.meet(participant, note);
    shared.join(participant, other);
    Ok(())
}

/// The same on a device that is shared and returned. It has journaled a given number of events.
fn play(
    rt: &(impl Wait + Abort),
    alloc: Global,
    device: Device,
    alone: &[Turn],
    in_turn: &[Turn],
    noted: &mut u64,
) -> Played {
    match shared(alloc, device) {
        Ok((shared, mut participant)) => {
            let played = call_all(rt, &shared, &mut participant, alone, in_turn, noted);
            (shared.close(participant), played)
        }
        Err(device) => (Ok(device), Err(AllocError)),
    }
}

/// Turns on a device, and those on the same device once it is shared again.
#[derive(Clone, Copy)]
struct Meeting<'a> {
    limits: Limits,
    alone: &'a [Turn],
    in_turn: &'a [Turn],
    again: &'a [Turn],
}

impl<'a> Meeting<'a> {
    /// Returns the calls of one participant alone, those of two in rotation, and those after the device is shared
    /// again.
    fn new(alone: &'a [Turn], in_turn: &'a [Turn], again: &'a [Turn]) -> Self {
        Meeting {
            limits: Limits::PROGRAM,
            alone,
            in_turn,
            again,
        }
    }
}

/// Compares the front of the journal with these calls, and returns the rest.
fn rest_of<'a>(rt: &impl Abort, journal: &'a [Event], turns: &[Turn]) -> &'a [Event] {
    let mut rest = journal;
    for (_, event, answer) in turns {
        if answer.is_ok() {
            let Some((first, behind)) = rest.split_first() else {
                assert!(rt; false, "an event is missing");
                return rest;
            };
            same(rt, first, event, "event");
            rest = behind;
        }
    }
    rest
}

/// The device is returned with the journaled events.
impl<R: Abort> Trial<R> for Meeting<'_> {
    fn run(&self, rt: &R, _alloc: Global, device: &mut Device) -> Result<(), Fail> {
        let rest = rest_of(rt, device.journal(), self.alone);
        let rest = rest_of(rt, rest, self.in_turn);
        let rest = rest_of(rt, rest, self.again);
        same(rt, &rest.len(), &0, "events that are left");
        Ok(())
    }
}

fn check_meeting(
    rt: &(impl Wait + Abort),
    alloc: Global,
    meeting: &Meeting<'_>,
) -> Result<(), Fail> {
    let mut noted = 0;
    let device = new_device(alloc, meeting.limits)?;
    let played = match play(
        rt,
        alloc,
        device,
        meeting.alone,
        meeting.in_turn,
        &mut noted,
    ) {
        (Ok(device), Ok(())) => play(rt, alloc, device, &[], meeting.again, &mut noted),
        played => played,
    };
    lend_back(rt, alloc, played, meeting)
}

/// A participant that is split off knows what was before. A device that is shared again continues with its count.
#[test]
fn seats_share_one_device(rt: HostRuntime) -> Result<(), Fail> {
    let limits = Limits {
        journal: 2,
        ..Limits::PROGRAM
    };
    let short = Meeting {
        limits,
        ..Meeting::new(&[], &FULL_JOURNAL, &[])
    };
    let behind = Meeting::new(&OPENED_ONCE, &ONE_VERSION, &ONE_VERSION);
    for meeting in [short, behind] {
        check_meeting(&rt, rt.alloc(), &meeting)?;
    }
    Ok(())
}

/// Opens a render client and asks 99 times.
fn hundred_events(rt: &(impl Wait + Abort), shared: &SharedDevice, mut participant: Seat) -> Seat
    requires { participant.table ≡ shared.now }
    ensures { result.table ≡ participant.table }
{
    let opened = shared.call(rt, &mut participant, Event::Open(Opening::Render));
    let Ok(Answer::Opened { client }) = opened else {
        assert!(rt; false, "the opening was not accepted");
        return participant;
    };
    for asked in 0..99u32 {
        let given = shared.call(rt, &mut participant, Event::Ask(client, Call::Version));
        same(rt, &given, &VERSION.2, asked);
    }
    participant
}

/// Two threads at once, a hundred events each.
fn two_hundred_events<R: Wait + Threads + Abort + Sync, D: Sharing + Sync>(
    rt: &R,
    shared: &D,
    participant: Seat,
    other: Seat,
) -> (Seat, Seat)
    requires participant { participant.table ≡ D.table shared.now }
    requires other { other.table ≡ D.table shared.now }
    ensures { (result.0.table ≡ D.table shared.now) × (result.1.table ≡ D.table shared.now) }
{
    thread::join(
        rt,
        || -> Seat
            requires { participant.table ≡ D.table shared.now }
            ensures { result.table ≡ D.table shared.entry.now }
        { hundred_events(rt, shared.device(), participant) },
        || -> Seat
            requires { other.table ≡ D.table shared.now }
            ensures { result.table ≡ D.table shared.entry.now }
        { hundred_events(rt, shared.device(), other) },
    )
}

/// The device is returned with a given number of events, and a given number may still be journaled.
#[derive(Clone, Copy)]
struct Noted {
    events: usize,
    left: u32,
}

impl<R: Abort> Trial<R> for Noted {
    fn run(&self, rt: &R, _alloc: Global, device: &mut Device) -> Result<(), Fail> {
        same(rt, &device.journal().len(), &self.events, "events");
        same(rt, &device.journal_left(), &self.left, "places left");
        Ok(())
    }
}

#[test]
fn threads_at_once_leave_one_journal(rt: HostRuntime) -> Result<(), Fail> {
    let device = new_device(rt.alloc(), Limits::PROGRAM)?;
    let played = match shared(rt.alloc(), device) {
        Ok((shared, mut participant)) => {
            let other = shared.split(&mut participant);
            let (mut participant, other) = two_hundred_events(&rt, &shared, participant, other);
            same(&rt, &shared.peek_count(), &200, "count");
            shared.join(&mut participant, other);
            (shared.close(participant), Ok(()))
        }
        Err(device) => (Ok(device), Err(AllocError)),
    };
    let noted = Noted {
        events: 200,
        left: 100_000 - 202,
    };
    lend_back(&rt, rt.alloc(), played, &noted)
}
