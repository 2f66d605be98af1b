//! The rules that count calls when they are answered.

ghost use Rattle.std.specs.Prelude.{◌≡◌};
ghost use Rattle.drm_traffic.specs.Counting.{AddsBreak, AddsStall, CountsBreak, CountsCall, CountsRequest, CountsStall, FindsStall};
ghost use Rattle.drm_traffic.specs.Rules.{calls_of_event};

use crate::plan::Due;
use crate::rules::{Break, Calls, Stall};
use drm_table::Event;

/// The rules that count calls when they are answered.
#[derive(Drop)]
pub(crate) struct Counted {
    pub(crate) stalls: Vec<Stall>,
    pub(crate) breaks: Vec<Break>,
}

impl Counted {
    /// Returns the place of the rule for these calls.
    fn stall_of(&self, calls: Calls) -> Option<usize>
        ensures { FindsStall calls self.now.stalls.items result }
    {
        self.stalls.iter().position(|rule| rule.calls.are(calls))
    }

    /// Makes a rule of `stall`, and returns whether there is room.
    pub(crate) fn add_stall(&mut self, stall: Stall) -> bool
        ensures stalls { AddsStall stall self.old.stalls.items self.new.stalls.items result }
        ensures breaks { self.new.breaks.items ≡ self.old.breaks.items }
    {
        if let Some(place) = self.stall_of(stall.calls) {
            self.stalls[place] = stall;
            return true;
        }
        if self.stalls.len() >= self.stalls.capacity() {
            return false;
        }
        self.stalls.push_reserved(stall);
        true
    }

    /// Makes a rule of `break`, and returns whether there is room.
    pub(crate) fn add_break(&mut self, end: Break) -> bool
        ensures breaks { AddsBreak end self.old.breaks.items self.new.breaks.items result }
        ensures stalls { self.new.stalls.items ≡ self.old.stalls.items }
    {
        let found = self
            .breaks
            .iter()
            .position(|rule| rule.client == end.client);
        if let Some(place) = found {
            self.breaks[place] = end;
            return true;
        }
        if self.breaks.len() >= self.breaks.capacity() {
            return false;
        }
        self.breaks.push_reserved(end);
        true
    }

    /// Counts one of these calls. Returns the delay of its answer, if there is one.
    fn count_call(&mut self, calls: Calls) -> Option<u16>
        ensures stalls { CountsCall calls self.old.stalls.items self.new.stalls.items result }
        ensures breaks { self.new.breaks.items ≡ self.old.breaks.items }
    {
        let place = self.stall_of(calls)?;
        let rule = self.stalls[place];
        if rule.nth > 1 {
            let nth = rule.nth - 1;
            self.stalls[place] = Stall { nth, ..rule };
            return None;
        }
        self.stalls.remove(place);
        Some(rule.millis)
    }

    /// Counts a request of a client. Returns whether its connection is closed.
    fn count_request(&mut self, client: u32) -> bool
        ensures breaks { CountsRequest client self.old.breaks.items self.new.breaks.items result }
        ensures stalls { self.new.stalls.items ≡ self.old.stalls.items }
    {
        let Some(place) = self.breaks.iter().position(|rule| rule.client == client) else {
            return false;
        };
        let rule = self.breaks[place];
        if rule.nth > 1 {
            let nth = rule.nth - 1;
            self.breaks[place] = Break { nth, ..rule };
            return false;
        }
        self.breaks.remove(place);
        true
    }

    /// Counts a call that is answered, and returns what is done to its answer.
    pub(crate) fn due(&mut self, event: &Event) -> Due
        ensures stalls { CountsStall (calls_of_event event.now) self.old.stalls.items self.new.stalls.items result.millis }
        ensures breaks { CountsBreak event.now self.old.breaks.items self.new.breaks.items result.breaks }
    {
        let millis = match Calls::of_event(event) {
            Some(calls) => self.count_call(calls),
            None => None,
        };
        let breaks = match event {
            Event::Ask(client, _) => self.count_request(*client),
            _ => false,
        };
        Due { millis, breaks }
    }
}
