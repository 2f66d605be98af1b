//! The rights to call a shared device.

use crate::history::View;
use crate::turn::Slot;
use atomic_table::Seat as Place;
use std::marker::Model;

/// The right of one thread to call a shared device, with what it has seen and made. Does not allocate.
///
/// # Examples
///
/// ```rust
/// use drm_device::{Device, Limits, Topology};
/// use drm_table::{Answer, Event, Opening};
/// use drm_turns::SharedDevice;
///
/// let alloc = rt.alloc();
/// let Some(topology) = Topology::new(2, &[1, 2], &[3, 2], &[5, 6]) else { return };
/// let Ok(device) = Device::new(alloc, topology, Limits::PROGRAM) else { return };
/// let Ok((shared, mut participant)) = SharedDevice::new(alloc, device) else { return };
/// let mut other = shared.split(&mut participant);
/// let opening = Event::Open(Opening::Render);
/// assert!(rt; shared.call(&rt, &mut other, opening) == Ok(Answer::Opened { client: 1 }));
/// shared.join(&mut participant, other);
/// ```
#[derive(Drop)]
pub struct Seat {
    pub(crate) place: Place<Slot, View>,
}

impl Model for Seat {
    ghost use Rattle.drm_turns.specs.Participants.{ParticipantView};

    ghost Value = { ParticipantView };

    ghost use Rattle.drm_turns.specs.ParticipantFields.{participant_view_of, IsSeated};

    ghost view = { participant_view_of };

    ghost invariant = { IsSeated };
}

/// The history that a participant had seen, for another participant. Does not allocate.
///
/// # Examples
///
/// ```rust
/// use drm_device::{Device, Limits, Topology};
/// use drm_turns::SharedDevice;
///
/// let alloc = rt.alloc();
/// let Some(topology) = Topology::new(2, &[1, 2], &[3, 2], &[5, 6]) else { return };
/// let Ok(device) = Device::new(alloc, topology, Limits::PROGRAM) else { return };
/// let Ok((shared, mut participant)) = SharedDevice::new(alloc, device) else { return };
/// let note = shared.note(&mut participant);
/// shared.meet(&mut participant, note);
/// ```
#[derive(Drop)]
pub struct Note {
    pub(crate) place: Place<Slot, View>,
}

impl Model for Note {
    ghost use Rattle.drm_turns.specs.Participants.{Witness};

    ghost Value = { Witness };

    ghost use Rattle.drm_turns.specs.ParticipantFields.{witness_of, IsNoted};

    ghost view = { witness_of };

    ghost invariant = { IsNoted };
}
