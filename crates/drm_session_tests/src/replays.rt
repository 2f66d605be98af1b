//! Replays that stop, and the place: before the first event, or at one that isn't journaled.

use crate::comparing::same;
use crate::devices::HasJournal;
use crate::trials::{lend, test_topology};
use drm_device::{NewFault, ReplayFault, replay};
use drm_table::{Apart, Event, Limits, Opening};
use std::alloc::Global;
use std::process::Abort;
use std::test::Fail;

const CARD: Event = Event::Open(Opening::Primary {
    root: false,
    universal: true,
});

const TWO_CARDS: [Event; 2] = [CARD, CARD];

/// Replays these events within these limits, compares the journal, and returns the fault.
fn fault_of(
    rt: &impl Abort,
    alloc: Global,
    limits: Limits,
    events: &[Event],
) -> Result<Option<ReplayFault>, Fail> {
    let replayed = replay(alloc, test_topology()?, limits, events);
    lend(rt, alloc, replayed, &HasJournal(events))
}

/// Returns whether memory was refused, for the device or at one of `count` events.
fn is_refusal(fault: Option<ReplayFault>, count: usize) -> bool {
    match fault {
        Some(ReplayFault::New(fault)) => fault == NewFault::NoMemory,
        Some(ReplayFault::Stopped { at, apart }) => {
            apart == Apart::NoMemory && 1 <= at && at <= count
        }
        None => false,
    }
}

/// Returns the word of a fault after memory was refused.
fn word_of(fault: ReplayFault) -> &'static str {
    match fault {
        ReplayFault::New(_) => "refused for the device",
        ReplayFault::Stopped { .. } => "refused at an event",
    }
}

/// Replays these events within these limits, and compares the fault. If memory was refused, it prints for what, and
/// replays once more.
fn check_replay(
    rt: &(impl Abort + Print),
    alloc: Global,
    limits: Limits,
    events: &[Event],
    fault: Option<ReplayFault>,
) -> Result<(), Fail> {
    let first = fault_of(rt, alloc, limits, events)?;
    let last = match first {
        Some(refused) if is_refusal(first, events.len()) => {
            let _ = rt.println(word_of(refused));
            fault_of(rt, alloc, limits, events)?
        }
        _ => first,
    };
    same(rt, &last, &fault, events.len());
    Ok(())
}

/// Limits, how many openings are replayed, and the fault. With none of them memory is refused for the device alone.
const REPLAYS: [(Limits, usize, Option<ReplayFault>); 4] = [
    (Limits::PROGRAM, 0, None),
    (Limits::PROGRAM, 2, None),
    (
        Limits {
            journal: 2,
            ..Limits::PROGRAM
        },
        2,
        Some(ReplayFault::Stopped {
            at: 2,
            apart: Apart::JournalFull,
        }),
    ),
    (
        Limits {
            clients: 0,
            ..Limits::PROGRAM
        },
        2,
        Some(ReplayFault::New(NewFault::BadLimits)),
    ),
];

#[test]
fn replays_stop_where_an_event_is_not_noted(rt: HostRuntime) -> Result<(), Fail> {
    for (limits, count, fault) in REPLAYS {
        check_replay(&rt, rt.alloc(), limits, &TWO_CARDS[..count], fault)?;
    }
    Ok(())
}
