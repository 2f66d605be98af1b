//! The calls of a session, as a witness receives them.

use drm_device::Shortage;
use drm_table::{Answer, Apart, Event};

/// Receives the calls of a session with their answers, each after its turn. It may also make memory short for a call.
/// No contract says what it does with them, and what is answered keeps its contracts.
///
/// # Examples
///
/// ```rust
/// use drm_sessions::{NoWitness, Witness};
/// use drm_table::{Answer, Event};
///
/// let event = Event::Close(1);
/// assert!(rt; NoWitness.shortage(&event).is_none());
/// NoWitness.tell(&event, Some(0), &Ok(Answer::Closed));
/// ```
pub trait Witness {
    /// Returns the shortage of memory for the call of an event, or `None` where there is none.
    fn shortage(&self, event: &Event) -> Option<&Shortage>;

    /// Receives a call with its answer, and the place of its entry in the history, counted from 0. A fault has no entry.
    fn tell(&self, event: &Event, place: Option<u64>, outcome: &Result<Answer, Apart>);
}

/// A witness that receives no call.
#[derive(Clone, Copy, Debug)]
pub struct NoWitness;

impl Witness for NoWitness {
    fn shortage(&self, _event: &Event) -> Option<&Shortage> {
        None
    }

    fn tell(&self, _event: &Event, _place: Option<u64>, _outcome: &Result<Answer, Apart>) {}
}
