//! A device that threads share, and the turn of a call.

ghost use Rattle.std.specs.Prelude.{◌≡◌, ◌≢◌, ◌<◌, ◌≤◌, ◌-◌, ◌^◌, ◌++◌, [], ◌∷◌, true, false, Some, None, Err, IfSome, IfNone, IfOk, IfErr, IsOk, ◌+◌, length};
ghost use Rattle.drm_table.specs.Limits.{are_in_range};
ghost use Rattle.drm_table.specs.Results.{FitsOneFrame};
ghost use Rattle.drm_model.specs.Reply.{reply};
ghost use Rattle.drm_model.specs.Run.{Step, no_room};
ghost use Rattle.drm_turns.specs.declared.history.Stage.TheVariants.{Idle, Serving, Waiting};
ghost use Rattle.drm_turns.specs.History.{AllDiffer, StartsWith, calls_by, device_at, entry, journaled_before, rows_after};
ghost use Rattle.drm_turns.specs.Views.{Grows, IsOwn, counted, found_at, outstanding_after, passed, waiting};
ghost use Rattle.drm_turns.specs.Plays.{IsInformed, IsServed};
ghost use Rattle.drm_turns.specs.Places.{IsNext, IsPlaced};
ghost use Rattle.drm_turns.specs.Participants.{Commits, Closes, Aborts, Extends, IsTurnOut, Unchanged, entries_of, tickets_of, with_outstanding};
ghost use Rattle.drm_table.specs.declared.apart.Apart.TheVariants.{Worn};
ghost use Rattle.drm_turns.specs.Turns.{Answered, Turn};

use crate::boxed::BoxedDevice;
use crate::history::View;
use crate::seat::{Note, Seat};
use crate::turn::{
    Another, Count, Draw, Find, InTurn, Learn, Look, Met, Noted, Pass, Settle, Slot, Told,
};
use atomic_table::{Refused, Seat as Place, Table};
use drm_device::{Device, Shortage};
use drm_table::{Answer, Apart, Event};
use std::alloc::Global;
use std::hint;
use std::marker::{Brand, Model};
use std::snapshot::Snapshot;
use std::sync::Wait;
use std::sync::atomic::{AtomicU64, Ordering};

/// The word of the length of the history. It is next to the tickets, which a call has written when it counts an entry.
const COUNT: usize = 0;

/// The word of the next ticket.
const TICKET: usize = 1;

/// The word of the ticket that is served.
const SERVING: usize = 2;

/// The number of words. Those after the three keep them away from the memory that follows, which other calls may write.
const WORDS: usize = 16;

/// The number of times that a call looks whether it is served, or whether the device is free, before it sleeps until it
/// is woken (own). All looks take longer than a turn in which the system provides a page for the journal.
const LOOKS: u32 = 1_500;

/// The most turns of others that a call waits for, before it draws a ticket though the device isn't free (own).
const PATIENCE: u32 = 64;

/// The error that memory for a shared device was refused.
#[derive(Clone, Copy, Debug, PartialEq)]
pub struct NoMemory;

/// A ticket was drawn that was not passed on.
///
/// # Examples
///
/// ```rust
/// use drm_device::{Device, Limits, Topology};
/// use drm_turns::{NoMemory, SharedDevice, TurnOut};
///
/// let alloc = rt.alloc();
/// let Some(topology) = Topology::new(2, &[1, 2], &[3, 2], &[5, 6]) else { return };
/// let Ok(device) = Device::new(alloc, topology, Limits::PROGRAM) else { return };
/// let (second, its_participant) = match SharedDevice::new(alloc, device) {
///     Ok(made) => made,
///     Err((_device, NoMemory)) => return,
/// };
/// match second.close(its_participant) {
///     Ok(device) => assert!(rt; device.journal().is_empty()),
///     Err(TurnOut) => return,
/// }
/// ```
#[derive(Clone, Copy, Debug, PartialEq)]
pub struct TurnOut;

/// A device that threads share by reference. Each call has the device alone (own). Contracts see the name that it shares
/// with its participants and notes.
///
/// # Examples
///
/// ```rust
/// use drm_device::{Device, Limits, Topology};
/// use drm_table::{Answer, Event, Opening};
/// use drm_turns::SharedDevice;
///
/// let alloc = rt.alloc();
/// let Some(topology) = Topology::new(2, &[1, 2], &[3, 2], &[5, 6]) else { return };
/// let Ok(device) = Device::new(alloc, topology, Limits::PROGRAM) else { return };
/// let Ok((shared, mut participant)) = SharedDevice::new(alloc, device) else { return };
/// let opening = Event::Open(Opening::Render);
/// assert!(rt; shared.call(&rt, &mut participant, opening) == Ok(Answer::Opened { client: 1 }));
/// ```
pub struct SharedDevice {
    table: Table<Slot, View, Snapshot<Device>, InTurn, Global>,
    /// The number of calls that sleep, or are about to.
    sleepers: AtomicU64,
}

// Written out, so that it is proved once: a derived one is proved again in each crate that drops such a value.
impl Drop for SharedDevice {
    fn drop(self) {
        let SharedDevice { table, sleepers } = self;
        drop(table);
        drop(sleepers);
    }
}

impl Model for SharedDevice {
    ghost use Rattle.std.specs.Prelude.{◌≡◌};
    ghost use Rattle.atomic_table.specs.Seated.{TableId, table_id_coded};

    ghost Value = { TableId };

    ghost coded = { table_id_coded };

    ghost view = { λ shared. shared.table.shared.table_id };

    ghost invariant = { λ shared. (shared.table.shared.table_id.words ≡ 16) × (shared.table.shared.table_id.slots ≡ 1) };
}

/// A handle of a shared device that threads can share. A function that starts threads takes it as a type parameter, so
/// that what crosses to a thread is shown by a bound (`Sync`).
///
/// # Examples
///
/// ```rust
/// use drm_device::{Device, Limits, Topology};
/// use drm_turns::{SharedDevice, Sharing};
///
/// let alloc = rt.alloc();
/// let Some(topology) = Topology::new(2, &[1, 2], &[3, 2], &[5, 6]) else { return };
/// let Ok(device) = Device::new(alloc, topology, Limits::PROGRAM) else { return };
/// let Ok((shared, participant)) = SharedDevice::new(alloc, device) else { return };
/// assert!(rt; shared.device().peek_count() == 0);
/// ```
pub trait Sharing {
    ghost use Rattle.atomic_table.specs.Seated.{TableId};

    /// The name of the device.
    ghost table: { Self → TableId };

    /// Returns the device.
    fn device(&self) -> &SharedDevice
        ensures device { result.now ≡ table self.now };
}

impl Sharing for SharedDevice {
    ghost table = { λ shared. shared };

    fn device(&self) -> &SharedDevice {
        self
    }
}

impl SharedDevice {
    /// Sleeps until a turn is passed on, unless one was since this ticket was seen to be served. It may end for no
    /// reason.
    ///
    /// No wake is lost: a call is counted among the sleepers before it sleeps, and a pass changes the served ticket
    /// before it counts them. So either the pass sees the sleeper, and wakes, or the ticket has changed by then, and
    /// the call doesn't sleep. A call that is woken looks again: it draws, or another call has drawn since, which wakes
    /// it when it passes the turn on.
    fn sleep<R: Wait>(&self, rt: &R, served: u64) {
        self.sleepers.fetch_add(1, Ordering::SeqCst);
        let low = (served % (1 << 32)) as u32;
        self.table.shared.park(rt, SERVING, low);
        self.sleepers.fetch_sub(1, Ordering::SeqCst);
    }

    /// Waits until a turn is passed on, where this ticket is served. After a few looks it sleeps.
    fn await_pass<R: Wait>(&self, rt: &R, served: u64) {
        for _ in 0..LOOKS {
            if self.table.shared.peek(SERVING) != served {
                return;
            }
            hint::spin_loop();
        }
        self.sleep(rt, served);
    }

    /// Scheduling before the turn: waits until no ticket is out, so that the one that is drawn then is served at once,
    /// or for this many turns of others. It looks at the served ticket before the next one: the other way round it
    /// could sleep on a device that is free. No contract speaks of it, and a turn needs none of it.
    fn schedule_before_turn<R: Wait>(&self, rt: &R) {
        let shared = &self.table.shared;
        for _ in 0..PATIENCE {
            let served = shared.peek(SERVING);
            let next = shared.peek(TICKET);
            if next == served || next == u64::MAX {
                return;
            }
            self.await_pass(rt, served);
        }
    }

    /// Draws a ticket. There is none where the last number was found; who sleeps is woken, and finds the same.
    fn draw<R: Wait>(&self, rt: &R, place: &mut Place<Slot, View>) -> Option<u64>
        requires own { place.old.table_id ≡ self.now }
        requires idle { place.old.me.0.stage ≡ Idle }
        ensures own { (place.new.table_id ≡ place.old.table_id) × (place.new.id ≡ place.old.id) }
        ensures some { IfSome result (λ ticket. (ticket < 2 ^ 64 - 1)
            × (place.new.me ≡ (waiting place.old.me.0 ticket, place.old.me.1))) }
        ensures none { IfNone result (place.new.me ≡ (found_at place.old.me.0 (2 ^ 64 - 1), place.old.me.1)) }
        ensures worn { IfNone result (place.old.me.0.number ≡ 1 → place.old.me.0.outstanding ≡ 0 → place.old.me.0.drawn ≡ 2 ^ 64 - 1) }
    {
        let shared = &self.table.shared;
        for _ in rt.forever() {
            let found = shared.load::<Find>(place, TICKET);
            if found == u64::MAX {
                shared.wake_all(SERVING);
                return None;
            }
            if shared.compare_exchange::<Draw>(place, TICKET, found, found + 1) == found {
                return Some(found);
            }
        }
        unreachable!()
    }

    /// Waits until the ticket is served, and then has the device. After a few looks it sleeps between them.
    fn wait_turn<R: Wait>(&self, rt: &R, place: &mut Place<Slot, View>, ticket: u64)
        requires own { place.old.table_id ≡ self.now }
        requires waiting { (place.old.me.0.stage ≡ Waiting) × (place.old.me.0.ticket ≡ ticket) }
        ensures own { (place.new.table_id ≡ place.old.table_id) × (place.new.id ≡ place.old.id) }
        ensures served { IsServed place.old.me place.new.me }
    {
        let shared = &self.table.shared;
        let mut looks = 0;
        for _ in rt.forever() {
            let now = shared.load::<Look>(place, SERVING);
            if now == ticket {
                return;
            }
            if looks < LOOKS {
                looks += 1;
                hint::spin_loop();
            } else {
                self.sleep(rt, now);
            }
        }
        unreachable!()
    }

    /// Adds the entry to the history, and returns its place there. The device answered it so in this turn.
    fn count<E: Noted>(&self, place: &mut Place<Slot, View>, event: &Event, answer: &Answer) -> u64
        requires own { place.old.table_id ≡ self.now }
        requires serving { (place.old.me.0.stage ≡ Serving) × (place.old.me.0.number ≢ 0) × (length place.old.me.0.seen < 2 ^ 32) }
        requires entry { E.entry ≡ entry place.old.me.0.number event.now answer.now }
        requires legal { (no_room (rows_after place.old.me.0.origin place.old.me.0.seen) event.now ≡ false)
            × (answer.now ≡ reply (rows_after place.old.me.0.origin place.old.me.0.seen) event.now) }
        ensures own { (place.new.table_id ≡ place.old.table_id) × (place.new.id ≡ place.old.id) }
        ensures counted { place.new.me ≡ (counted place.old.me.0 (entry place.old.me.0.number event.now answer.now), place.old.me.1) }
        ensures next { result ≡ length place.old.me.0.seen }
    {
        let _ = event;
        let _ = answer;
        self.table.shared.fetch_add::<Count<E>>(place, COUNT, 1)
    }

    /// Takes the device out of the slot, steps it, counts the step if it is journaled, and puts the device back. What
    /// resulted from the step is written to its place, so that it moves less. It returns the place of the step's entry.
    fn step_in_turn(
        &self,
        place: &mut Place<Slot, View>,
        event: &Event,
        shortage: Option<&Shortage>,
        outcome: &mut Result<Answer, Apart>,
    ) -> Option<u64>
        requires own { place.old.table_id ≡ self.now }
        requires serving { (place.old.me.0.stage ≡ Serving) × (place.old.me.0.number ≢ 0) }
        requires device { place.old.me.1 ≡ (0, Some (device_at place.old.me.0.origin place.old.me.0.seen)) ∷ [] }
        requires seen { IsOwn place.old.me.0 }
        ensures own { (place.new.table_id ≡ place.old.table_id) × (place.new.id ≡ place.old.id) }
        ensures grows { Grows place.old.me.0 place.new.me.0 }
        ensures ok { IfOk outcome.new (λ answer. place.new.me.0 ≡ counted place.old.me.0 (entry place.old.me.0.number event.now answer)) }
        ensures err { IfErr outcome.new (λ apart. (place.new.me.0 ≡ place.old.me.0)
            × Step (rows_after place.old.me.0.origin place.old.me.0.seen) event.now (Err apart) (rows_after place.old.me.0.origin place.old.me.0.seen)) }
        ensures device { place.new.me.1 ≡ (0, Some (device_at place.new.me.0.origin place.new.me.0.seen)) ∷ [] }
        ensures turn { Turn (device_at place.new.me.0.origin place.new.me.0.seen) event.now outcome.new }
        ensures few { FitsOneFrame outcome.new }
        ensures next { IsNext place.old.me.0.seen outcome.new result }
    {
        let shared = &self.table.shared;
        let mut device = shared.exchange(place, 0, None).unwrap().into_box();
        device.step_short_at(event, shortage, outcome);
        let counted = match &*outcome {
            Ok(answer) => Some(self.count::<Brand>(place, event, answer)),
            Err(_) => None,
        };
        drop(shared.exchange(place, 0, Some(BoxedDevice { device })));
        counted
    }

    /// Leaves the device at home and lets the next ticket be served. Of the calls that sleep one is woken, or all where a ticket
    /// is out, since one of them has it; where none sleeps, nothing is done.
    fn pass(&self, place: &mut Place<Slot, View>)
        requires own { place.old.table_id ≡ self.now }
        requires serving { place.old.me.0.stage ≡ Serving }
        requires device { place.old.me.1 ≡ (0, Some (device_at place.old.me.0.origin place.old.me.0.seen)) ∷ [] }
        ensures own { (place.new.table_id ≡ place.old.table_id) × (place.new.id ≡ place.old.id) }
        ensures passed { place.new.me ≡ (passed place.old.me.0, []) }
    {
        let shared = &self.table.shared;
        let served = shared.fetch_add::<Pass>(place, SERVING, 1);
        if self.sleepers.load(Ordering::SeqCst) > 0 {
            if shared.peek(TICKET) == served.wrapping_add(1) {
                shared.wake_one(SERVING);
            } else {
                shared.wake_all(SERVING);
            }
        }
    }

    /// Learns the history so far.
    fn learn(&self, place: &mut Place<Slot, View>)
        requires own { place.old.table_id ≡ self.now }
        requires idle { place.old.me.0.stage ≡ Idle }
        ensures own { (place.new.table_id ≡ place.old.table_id) × (place.new.id ≡ place.old.id) }
        ensures informed { IsInformed place.old.me place.new.me }
    {
        self.table.shared.load::<Learn>(place, COUNT);
    }

    /// Shares the device, and returns the first participant, which has number 1 and has seen what the device had
    /// recorded. If memory is refused, there is no shared device, and the device is returned.
    pub fn new(alloc: Global, device: Device) -> Result<(SharedDevice, Seat), (Device, NoMemory)>
        ensures own { IfOk result (λ made. made.1.table ≡ made.0) }
        ensures seen { IfOk result (λ made. (made.1.origin ≡ device) × (made.1.seen ≡ journaled_before device)) }
        ensures fresh { IfOk result (λ made. (made.1.mine ≡ []) × (made.1.merged ≡ [])) }
        ensures number { IfOk result (λ made. made.1.number ≡ 1) }
        ensures none_outstanding { IfOk result (λ made. made.1.outstanding ≡ 0) }
        ensures counts { IfOk result (λ made. (made.1.drawn ≡ 0) × (made.1.journaled ≡ 0)) }
        ensures refused { IfErr result (λ refused. refused.0 ≡ device) }
    {
        let Ok(mut slots) = Vec::with_capacity(alloc, 1) else {
            return Err((device, NoMemory));
        };
        let journaled = device.journal().len() as u64;
        let about = Snapshot::of(&device);
        let boxed = match BoxedDevice::new(alloc, device) {
            Ok(boxed) => boxed,
            Err(device) => return Err((device, NoMemory)),
        };
        slots.push_reserved(Some(boxed));
        let mut words = [0; WORDS];
        words[COUNT] = journaled;
        match Table::new(alloc, &words, slots, &about) {
            Ok((table, place)) => {
                let sleepers = AtomicU64::new(0);
                Ok((SharedDevice { table, sleepers }, Seat { place }))
            }
            Err(Refused { mut slots }) => {
                let boxed = slots.pop().unwrap().unwrap();
                Err((boxed.into_device(), NoMemory))
            }
        }
    }

    /// Answers one event, when the participant's ticket is served. It may wait for the turns before it.
    ///
    /// The device answers from its rows, those of its journal, and records what it answers. So its journal is then the
    /// history that the participant has seen. Its limits are in their ranges, and each event of its journal found room.
    /// The answer ends the history that the participant has seen then. Resources have 251 ids at most together.
    ///
    /// A fault, for a full journal (own) or refused memory, leaves the device unchanged and adds no entry. Without a
    /// ticket for the turn the device isn't called. The first participant, if none is out of it, has no ticket only if
    /// it and those that it took in drew all 2^64 - 1.
    pub fn call<R: Wait>(
        &self,
        rt: &R,
        participant: &mut Seat,
        event: Event,
    ) -> Result<Answer, Apart>
        requires own { participant.old.table ≡ self.now }
        ensures extends { Extends participant.old participant.new }
        ensures merged { participant.new.merged ≡ participant.old.merged }
        ensures unchanged { Unchanged participant.old participant.new }
        ensures ok { IfOk result (λ answer. Commits participant.old event answer participant.new) }
        ensures err { IfErr result (λ apart. Aborts participant.old event apart participant.new) }
        ensures turn { Answered (device_at participant.new.origin participant.new.seen) event result }
        ensures few { FitsOneFrame result }
        ensures counts { (participant.new.drawn ≡ participant.old.drawn + tickets_of result)
            × (participant.new.journaled ≡ participant.old.journaled + entries_of result) }
        ensures worn { result ≡ Err Worn → participant.old.number ≡ 1 → participant.old.outstanding ≡ 0 → participant.old.drawn ≡ 2 ^ 64 - 1 }
    {
        let mut outcome = Err(Apart::Worn);
        self.call_at(rt, participant, &event, &mut outcome);
        outcome
    }

    /// Answers one event as [`call`](SharedDevice::call) does, and writes what resulted from it to a place of the
    /// caller's, so that an answer is moved less.
    pub fn call_at<R: Wait>(
        &self,
        rt: &R,
        participant: &mut Seat,
        event: &Event,
        outcome: &mut Result<Answer, Apart>,
    )
        requires own { participant.old.table ≡ self.now }
        ensures extends { Extends participant.old participant.new }
        ensures merged { participant.new.merged ≡ participant.old.merged }
        ensures unchanged { Unchanged participant.old participant.new }
        ensures ok { IfOk outcome.new (λ answer. Commits participant.old event.now answer participant.new) }
        ensures err { IfErr outcome.new (λ apart. Aborts participant.old event.now apart participant.new) }
        ensures turn { Answered (device_at participant.new.origin participant.new.seen) event.now outcome.new }
        ensures few { FitsOneFrame outcome.new }
        ensures counts { (participant.new.drawn ≡ participant.old.drawn + tickets_of outcome.new)
            × (participant.new.journaled ≡ participant.old.journaled + entries_of outcome.new) }
        ensures worn { outcome.new ≡ Err Worn → participant.old.number ≡ 1 → participant.old.outstanding ≡ 0 → participant.old.drawn ≡ 2 ^ 64 - 1 }
    {
        let _ = self.call_placed(rt, participant, event, None, outcome);
    }

    /// Answers one event as [`call_at`](SharedDevice::call_at) does, and returns the place of its entry in the history,
    /// counted from 0. So it is the entry's place in the device's journal, which begins with what the device had recorded
    /// before it was shared. A fault has no entry. Where there is a shortage, memory is refused as
    /// [`step_short_at`](drm_device::Device::step_short_at) does.
    pub fn call_placed<R: Wait>(
        &self,
        rt: &R,
        participant: &mut Seat,
        event: &Event,
        shortage: Option<&Shortage>,
        outcome: &mut Result<Answer, Apart>,
    ) -> Option<u64>
        requires own { participant.old.table ≡ self.now }
        ensures extends { Extends participant.old participant.new }
        ensures merged { participant.new.merged ≡ participant.old.merged }
        ensures unchanged { Unchanged participant.old participant.new }
        ensures ok { IfOk outcome.new (λ answer. Commits participant.old event.now answer participant.new) }
        ensures err { IfErr outcome.new (λ apart. Aborts participant.old event.now apart participant.new) }
        ensures turn { Answered (device_at participant.new.origin participant.new.seen) event.now outcome.new }
        ensures few { FitsOneFrame outcome.new }
        ensures counts { (participant.new.drawn ≡ participant.old.drawn + tickets_of outcome.new)
            × (participant.new.journaled ≡ participant.old.journaled + entries_of outcome.new) }
        ensures worn { outcome.new ≡ Err Worn → participant.old.number ≡ 1 → participant.old.outstanding ≡ 0 → participant.old.drawn ≡ 2 ^ 64 - 1 }
        ensures place { IsPlaced participant.old event.now outcome.new result participant.new }
    {
        let place = &mut participant.place;
        self.schedule_before_turn(rt);
        let Some(ticket) = self.draw(rt, place) else {
            Apart::Worn.replace(outcome);
            return None;
        };
        self.wait_turn(rt, place, ticket);
        let counted = self.step_in_turn(place, event, shortage, outcome);
        self.pass(place);
        counted
    }

    /// Returns a further participant with a new number, which has seen as much. The participant that it is split off
    /// counts one more that is out, and is unchanged otherwise.
    pub fn split(&self, participant: &mut Seat) -> Seat
        requires own { participant.old.table ≡ self.now }
        ensures same { participant.new ≡ with_outstanding participant.old (participant.old.outstanding + 1) }
        ensures own { (result.table ≡ participant.old.table) × (result.origin ≡ participant.old.origin) }
        ensures number { result.number ≢ participant.old.number }
        ensures numbered { 1 ≤ result.number }
        ensures parent { result.parent ≡ participant.old.number }
        ensures seen { result.seen ≡ participant.old.seen }
        ensures fresh { (result.mine ≡ []) × (result.merged ≡ []) }
        ensures none_outstanding { result.outstanding ≡ 0 }
        ensures counts { (result.drawn ≡ 0) × (result.journaled ≡ 0) }
    {
        let shared = &self.table.shared;
        let mut place = shared.split_seat::<Another>(&mut participant.place);
        shared.load::<Settle>(&mut place, COUNT);
        Seat { place }
    }

    /// Takes in another participant, which ends: what it had seen, its number, and the numbers that it had taken in.
    /// They all differ from each other. If it was split off this participant, and none is out of it any more, one fewer
    /// is out.
    pub fn join(&self, participant: &mut Seat, other: Seat)
        requires own { participant.old.table ≡ self.now }
        requires other { other.table ≡ self.now }
        ensures extends { Extends participant.old participant.new }
        ensures mine { participant.new.mine ≡ participant.old.mine }
        ensures seen { StartsWith participant.new.seen other.seen }
        ensures theirs { calls_by other.number other.seen ≡ other.mine }
        ensures merged { participant.new.merged ≡ participant.old.merged ++ other.number ∷ other.merged }
        ensures parent { participant.new.parent ≡ participant.old.parent }
        ensures outstanding { participant.new.outstanding ≡ outstanding_after participant.old.number participant.old.outstanding other.parent other.outstanding }
        ensures differ { AllDiffer (participant.new.number ∷ participant.new.merged) }
        ensures counts { (participant.new.drawn ≡ participant.old.drawn + other.drawn) × (participant.new.journaled ≡ participant.old.journaled + other.journaled) }
    {
        let Seat { place: ended } = other;
        let place = &mut participant.place;
        self.table.shared.join_seat::<Told>(place, ended);
        self.learn(place);
    }

    /// Creates a note of what the participant has seen, for another participant. The participant counts one more that
    /// is out, and is unchanged otherwise.
    pub fn note(&self, participant: &mut Seat) -> Note
        requires own { participant.old.table ≡ self.now }
        ensures same { participant.new ≡ with_outstanding participant.old (participant.old.outstanding + 1) }
        ensures own { (result.table ≡ participant.old.table) × (result.origin ≡ participant.old.origin) }
        ensures parent { result.parent ≡ participant.old.number }
        ensures seen { result.seen ≡ participant.old.seen }
    {
        let place = self
            .table
            .shared
            .split_seat::<Another>(&mut participant.place);
        Note { place }
    }

    /// Takes in what a note says. If it was the participant's own, one fewer is out.
    pub fn meet(&self, participant: &mut Seat, note: Note)
        requires own { participant.old.table ≡ self.now }
        requires note { note.table ≡ self.now }
        ensures extends { Extends participant.old participant.new }
        ensures mine { participant.new.mine ≡ participant.old.mine }
        ensures seen { StartsWith participant.new.seen note.seen }
        ensures merged { participant.new.merged ≡ participant.old.merged }
        ensures parent { participant.new.parent ≡ participant.old.parent }
        ensures outstanding { participant.new.outstanding ≡ outstanding_after participant.old.number participant.old.outstanding note.parent 0 }
        ensures counts { (participant.new.drawn ≡ participant.old.drawn) × (participant.new.journaled ≡ participant.old.journaled) }
    {
        let Note { place: ended } = note;
        let place = &mut participant.place;
        self.table.shared.join_seat::<Met>(place, ended);
        self.learn(place);
    }

    /// Returns the device, once no other thread shares it. If a ticket was drawn that was not passed on, the turn is
    /// out with a call. Then the device is lost with the participant that has the ticket. If all were passed on, it is
    /// in its slot, and is returned.
    ///
    /// No turn is out if the participant is the first one and has back all participants and notes that were split off
    /// it or off them. Then the device has recorded what it had before, and the entries of the participant and of those
    /// that it took in, and nothing else.
    pub fn close(self, participant: Seat) -> Result<Device, TurnOut>
        requires own { participant.table ≡ self }
        ensures closes { IfOk result (λ device. Closes participant device) }
        ensures home { participant.number ≡ 1 → participant.outstanding ≡ 0 → IsOk result }
        ensures turn_out { IfErr result (λ _. IsTurnOut participant) }
        ensures counted { IfOk result (λ device. participant.number ≡ 1 → participant.outstanding ≡ 0
            → length device.journal ≡ length participant.origin.journal + participant.journaled) }
    {
        let Seat { place } = participant;
        let SharedDevice { table, sleepers } = self;
        let mut closed = table.close_with(place);
        let is_quiet = closed.word(TICKET) == closed.word(SERVING);
        let slot = closed.take(0);
        closed.free();
        drop(sleepers);
        if !is_quiet {
            return Err(TurnOut);
        }
        match slot {
            Some(boxed) => Ok(boxed.into_device()),
            None => unreachable!(),
        }
    }

    /// Returns the length of the history at some moment. It waits for no client.
    pub fn peek_count(&self) -> u64 {
        self.table.shared.peek(COUNT)
    }
}
