//! The rule of the table, and the names of its steps.

ghost use Rattle.drm_turns.specs.Rule.{Orderly};
ghost use Rattle.drm_turns.specs.Views.{child, lending, met_of, opening_view, spent_view, told_of};
ghost use Rattle.drm_turns.specs.Plays.{counts, draws, finds, learns, looks, passes, settles};
ghost use Rattle.drm_turns.specs.declared.history.Entry.{Entry};

use crate::boxed::BoxedDevice;
use crate::history::View;
use atomic_table::{Join, Play, Split, TableRule};
use drm_device::Device;
use std::marker::{Brand, PhantomData};
use std::snapshot::Snapshot;

/// The slot has the device, unless the participant that is served has taken it.
pub(crate) type Slot = Option<BoxedDevice>;

/// The rule of the turn. The table receives the device in its value when it was shared.
pub struct InTurn;

impl TableRule<Slot, View, Snapshot<Device>> for InTurn {
    ghost holds = { λ _. Orderly };

    ghost first = { λ key. opening_view key.value };
}

/// Finds the next ticket.
pub(crate) struct Find;

impl Play<Slot, View> for Find {
    ghost then = { finds };
}

/// Draws the ticket that was found.
pub(crate) struct Draw;

impl Play<Slot, View> for Draw {
    ghost then = { draws };
}

/// Looks which ticket is served, and takes the device where it is the own one.
pub(crate) struct Look;

impl Play<Slot, View> for Look {
    ghost then = { looks };
}

/// The entry that a count adds. Each call picks it.
pub(crate) trait Noted {
    ghost use Rattle.drm_turns.specs.declared.history.Entry.{Entry};

    ghost entry: { Entry };
}

impl Noted for Brand {
    ghost use Rattle.drm_turns.specs.History.{entry as make};
    ghost use Rattle.drm_table.specs.declared.events.Event.TheVariants.{Close};
    ghost use Rattle.drm_table.specs.declared.answers.Answer.TheVariants.{Done};

    ghost entry = { make 0 (Close 0) Done };
}

/// Counts an entry.
pub(crate) struct Count<E> {
    entry: PhantomData<E>,
}

impl<E: Noted> Play<Slot, View> for Count<E> {
    ghost then = { counts E.entry };
}

/// Leaves the device and lets the next ticket be served.
pub(crate) struct Pass;

impl Play<Slot, View> for Pass {
    ghost then = { passes };
}

/// Sets the number of a new participant.
pub(crate) struct Settle;

impl Play<Slot, View> for Settle {
    ghost then = { settles };
}

/// Updates the participant's observed history to the current one.
pub(crate) struct Learn;

impl Play<Slot, View> for Learn {
    ghost then = { learns };
}

/// A participant or a note next to a participant, which has seen as much, and which the participant counts.
pub(crate) struct Another;

impl Split<View> for Another {
    ghost left = { lending };

    ghost right = { child };
}

/// A participant is merged: what it had seen is reported, its number is kept, and it is counted as returned.
pub(crate) struct Told;

impl Join<View> for Told {
    ghost both = { told_of };

    ghost spent = { spent_view };
}

/// A note is met: what it says is reported, and it is counted as returned.
pub(crate) struct Met;

impl Join<View> for Met {
    ghost both = { met_of };

    ghost spent = { spent_view };
}
