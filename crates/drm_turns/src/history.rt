//! The history of a shared device, and the knowledge of a participant.

use drm_device::Device;
use drm_table::{Answer, Event};
use std::collections::LinkedList;

/// One event of a history, as contracts see it.
#[derive(Drop)]
pub struct Entry {
    /// The number of the participant that made it, or 0 if the device had recorded it before it was shared (own).
    pub by: u64,
    /// The event.
    pub event: Event,
    /// The answer.
    pub answer: Answer,
}

/// The place of a participant's turn, as contracts express it.
pub enum Stage {
    /// Between two turns.
    Idle,
    /// It has a ticket that is not served yet.
    Waiting,
    /// Its ticket is served, and it has the device.
    Serving,
    /// It was merged into another.
    Spent,
}

/// The knowledge of a participant at the table. Only contracts use it.
pub struct View {
    /// The device when it was shared.
    pub origin: Device,
    /// The participant's number, 0 until it is known.
    pub number: u64,
    /// The number of the participant that this one was split from.
    pub parent: u64,
    /// The number of participants and notes that were split off it and are not returned to it.
    pub outstanding: u64,
    /// The history, as far as it knows it.
    pub seen: LinkedList<Entry>,
    /// The entries that it made.
    pub mine: LinkedList<Entry>,
    /// The history that a merged participant or a note had seen.
    pub told: LinkedList<Entry>,
    /// The numbers that were merged into it, with those that the merged participants kept.
    pub kept: LinkedList<u64>,
    /// The number of tickets that it and those whose numbers it kept drew.
    pub drawn: u64,
    /// The number of entries that they made.
    pub journaled: u64,
    /// The number last found in the word of the next ticket.
    pub ticket: u64,
    /// The place of its turn.
    pub stage: Stage,
}
