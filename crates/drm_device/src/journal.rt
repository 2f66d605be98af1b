//! The events of a device, in memory that is provided ahead.

ghost use Rattle.std.specs.Prelude.{◌≡◌, ◌+◌, ◌-◌, ◌<◌, ◌≤◌, ◌∷◌, ◌++◌, [], length, take, IfOk};
ghost use Rattle.std.specs.Vec.{vec_capacity};

use drm_table::Event;
use std::alloc::{AllocError, Global};
use std::marker::Model;

/// The events that a device carried out or denied, the oldest first. Contracts see them and for how many there is room.
///
/// The places are those that were written once: the first `recorded` of them hold the events, the others any event. A
/// place that was written has memory of the system, so that recording an event in it doesn't wait for a page.
#[derive(Drop)]
pub(crate) struct Journal {
    places: Vec<Event>,
    recorded: usize,
}

impl Model for Journal {
    ghost use Rattle.std.specs.Prelude.{◌≤◌, length, take};
    ghost use Rattle.std.specs.Vec.{vec_capacity};
    ghost use Rattle.drm_device.specs.Journals.{JournalValue};

    ghost Value = { JournalValue };

    ghost view = { λ j. record { events = take j.recorded j.places.items; room = vec_capacity j.places } };

    ghost invariant = { λ j. j.recorded ≤ length j.places.items };
}

impl Journal {
    /// Returns an empty journal with room for at least `count` events.
    ///
    /// # Errors
    ///
    /// [`AllocError`] if memory for it is refused.
    pub(crate) fn with_capacity(alloc: Global, count: usize) -> Result<Journal, AllocError>
        ensures empty { IfOk result (λ j. j.events ≡ []) }
        ensures room { IfOk result (λ j. count ≤ j.room) }
    {
        let places = Vec::with_capacity(alloc, count)?;
        Ok(Journal {
            places,
            recorded: 0,
        })
    }

    /// Returns the number of events.
    pub(crate) fn len(&self) -> usize
        ensures { result ≡ length self.now.events }
    {
        self.recorded
    }

    /// Returns the events, the oldest first.
    pub(crate) fn events(&self) -> &[Event]
        ensures { result.now ≡ self.now.events }
    {
        let (recorded, _) = self.places.split_at(self.recorded);
        recorded
    }

    /// Adds an event as the last. Does not allocate.
    pub(crate) fn record(&mut self, event: &Event)
        requires { length self.old.events < self.old.room }
        ensures events { self.new.events ≡ self.old.events ++ event.now ∷ [] }
        ensures room { self.new.room ≡ self.old.room }
    {
        match self.places.get_mut(self.recorded) {
            Some(place) => copy_to(event, place),
            None => push_copy(event, &mut self.places),
        }
        self.recorded += 1;
    }

    /// Removes the last event.
    pub(crate) fn take_back(&mut self)
        requires { 0 < length self.old.events }
        ensures events { self.new.events ≡ take (length self.old.events - 1) self.old.events }
        ensures room { self.new.room ≡ self.old.room }
    {
        self.recorded -= 1;
    }

    /// Writes up to `count` places that were never written, so that the system provides their memory now and not while
    /// an event is recorded. Does not allocate.
    pub(crate) fn provide(&mut self, count: usize)
        ensures { self.new ≡ self.old }
    {
        let end = self
            .places
            .len()
            .saturating_add(count)
            .min(self.places.capacity());
        'places: while self.places.len() < end {
            self.places.push_reserved(Event::Close(0));
        }
    }
}

/// Writes the same event to a place.
fn copy_to(event: &Event, place: &mut Event)
    ensures { place.new ≡ event.now }
{
    match event {
        Event::Open(opening) => *place = Event::Open(*opening),
        Event::Ask(client, call) => match call.clone() {
            Ok(call) => *place = Event::Ask(*client, call),
            Err(_) => unreachable!(),
        },
        Event::Close(client) => *place = Event::Close(*client),
    }
}

/// Adds the same event as the last. Does not allocate.
fn push_copy(event: &Event, places: &mut Vec<Event>)
    requires { length places.old.items < vec_capacity places.old }
    ensures items { places.new.items ≡ places.old.items ++ event.now ∷ [] }
    ensures room { vec_capacity places.new ≡ vec_capacity places.old }
{
    match event.clone() {
        Ok(copy) => places.push_reserved(copy),
        Err(_) => unreachable!(),
    }
}
