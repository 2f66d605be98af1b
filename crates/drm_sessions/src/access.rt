//! What a session works on.

ghost use Rattle.drm_table.specs.declared.events.Event.{Event as AnEvent};
ghost use Rattle.drm_table.specs.Results.{FitsOneFrame};
ghost use Rattle.drm_frames.specs.Answers.{CallResult};
ghost use Rattle.drm_sessions.specs.Opening.{AnswersOpening};

use drm_table::{Answer, Apart, Event};

/// A device, alone or shared, that answers events one at a time.
///
/// # Examples
///
/// ```rust
/// use drm_device::{Device, Limits, Topology};
/// use drm_sessions::{Access, Alone};
/// use drm_table::{Answer, Event, Opening};
///
/// let alloc = rt.alloc();
/// let Some(topology) = Topology::new(2, &[1, 2], &[3, 2], &[5, 6]) else { return };
/// let Ok(mut device) = Device::new(alloc, topology, Limits::PROGRAM) else { return };
/// let opening = Event::Open(Opening::Render);
/// let opened = Alone(&mut device).call(opening);
/// assert!(rt; opened == Ok(Answer::Opened { client: 1 }));
/// ```
pub trait Access {
    /// The values before and after a call with this event that returned this result.
    ghost answers: { Self → AnEvent → CallResult → Self → Type 0 };

    /// Answers one event. An opening is answered by a client, a denial or a fault. Resources are few enough for one
    /// frame.
    fn call(&mut self, event: Event) -> Result<Answer, Apart>
        ensures answers { answers self.old event result self.new }
        ensures opening { AnswersOpening event result }
        ensures few { FitsOneFrame result };

    /// Answers one event as [`call`](Access::call) does, and writes what resulted from it to a place of the caller's. A
    /// session has one such place for all its requests, so that an answer is moved less.
    fn call_at(&mut self, event: &Event, outcome: &mut Result<Answer, Apart>)
        ensures answers { answers self.old event.now outcome.new self.new }
        ensures opening { AnswersOpening event.now outcome.new }
        ensures few { FitsOneFrame outcome.new }
    {
        let Ok(event) = event.clone() else {
            unreachable!()
        };
        *outcome = self.call(event);
    }
}

/// What is called before each request of a client is carried out.
///
/// # Examples
///
/// ```rust
/// use drm_sessions::{Gate, NoGate};
///
/// let mut gate = NoGate;
/// gate.before(1);
/// ```
pub trait Gate {
    ghost use Rattle.std.specs.Prelude.{ℕ};

    /// The gate before and after one call for the client of this number.
    ghost passes: { Self → ℕ → Self → Type 0 };

    /// The client of this number is about to make a request.
    fn before(&mut self, client: u32)
        ensures passes { passes self.old client self.new };
}

/// A gate that does nothing.
#[derive(Clone, Copy, Debug)]
pub struct NoGate;

impl Gate for NoGate {
    ghost use Rattle.std.specs.Prelude.{◌≡◌};

    ghost passes = { λ before client after. after ≡ before };

    fn before(&mut self, _client: u32) {}
}
