//! A device that one session has alone.

ghost use Rattle.std.specs.Prelude.{◌≡◌, ◌^◌, ◌+◌, ◌<◌};
ghost use Rattle.drm_turns.specs.Turns.{DeviceSteps};
ghost use Rattle.drm_sessions.specs.Device.{ServesAlone};
ghost use Rattle.drm_sessions.specs.Serving.{Costs};

use crate::access::{Access, Gate};
use crate::class::Class;
use crate::end::Session;
use crate::serving::serve;
use drm_device::Device;
use drm_frames::{Sink, Source};
use drm_table::{Answer, Apart, Event};

/// A device that one session has alone: each call is a step.
#[derive(Drop)]
pub struct Alone<'a>(pub &'a mut Device);

impl Access for Alone<'_> {
    // The access stays at the device that it was lent.
    ghost answers = { λ a event outcome b. (b.0.ghost_name ≡ a.0.ghost_name)
        × DeviceSteps a.0.now event outcome b.0.now };

    fn call(&mut self, event: Event) -> Result<Answer, Apart> {
        self.0.step(event)
    }

    fn call_at(&mut self, event: &Event, outcome: &mut Result<Answer, Apart>) {
        self.0.step_at(event, outcome);
    }
}

/// Serves one session whose results are steps of the lent access. In the rest it is as [`serve`](crate::serve).
pub fn serve_lent<G: Gate, S: Source, K: Sink>(
    alone: &mut Alone<'_>,
    gate: &mut G,
    class: Class,
    source: &mut S,
    sink: &mut K,
    turns: u64,
) -> Session
    requires source { (S.trace source.old).counts.calls + turns < 2 ^ 48 }
    requires sink { (K.trace sink.old).counts.calls + turns < 2 ^ 48 }
    ensures same { alone.new.0.ghost_name ≡ alone.old.0.ghost_name }
    ensures serves { ServesAlone G.passes class gate.old gate.new alone.old.0.now alone.new.0.now
        (S.trace source.old) (S.trace source.new) (K.trace sink.old) (K.trace sink.new)
        result }
    ensures costs { Costs (S.trace source.old) (S.trace source.new)
        (K.trace sink.old) (K.trace sink.new) turns result.end }
{
    serve(alone, gate, class, source, sink, turns)
}

/// Serves one session on a device that no other session uses. The results are steps. In the rest it is as
/// [`serve`](crate::serve).
///
/// # Examples
///
/// ```rust
/// use drm_device::{Device, Limits, Topology};
/// use drm_frames::{FromRead, ToWrite};
/// use drm_sessions::{Class, NoGate, SessionEnd, serve_alone};
///
/// let alloc = rt.alloc();
/// let Some(topology) = Topology::new(2, &[1, 2], &[3, 2], &[5, 6]) else { return };
/// let Ok(mut device) = Device::new(alloc, topology, Limits::PROGRAM) else { return };
/// let hello = [14, 0, 0, 0, 0, 1, 1, 0, 0, 0, 0, 0, 0, 0, 0, 0, 0, 0];
/// let mut source = FromRead::new(hello.as_slice());
/// let mut sink = ToWrite::new(Vec::new(alloc));
/// let session = serve_alone(&mut device, &mut NoGate, Class::Card, &mut source, &mut sink, 1000);
/// assert!(rt; session.end == SessionEnd::Ended && session.steps == 2);
/// ```
pub fn serve_alone<G: Gate, S: Source, K: Sink>(
    device: &mut Device,
    gate: &mut G,
    class: Class,
    source: &mut S,
    sink: &mut K,
    turns: u64,
) -> Session
    requires source { (S.trace source.old).counts.calls + turns < 2 ^ 48 }
    requires sink { (K.trace sink.old).counts.calls + turns < 2 ^ 48 }
    ensures serves { ServesAlone G.passes class gate.old gate.new device.old device.new
        (S.trace source.old) (S.trace source.new) (K.trace sink.old) (K.trace sink.new)
        result }
    ensures costs { Costs (S.trace source.old) (S.trace source.new)
        (K.trace sink.old) (K.trace sink.new) turns result.end }
{
    let mut alone = Alone(device);
    serve_lent(&mut alone, gate, class, source, sink, turns)
}
