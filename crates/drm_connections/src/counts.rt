//! How many connections are served.

/// How many connections a listener accepts at most.
pub const MOST: usize = 255;

/// The most connections that a listener has open at once if it accepts any number of them (own).
pub const MOST_AT_ONCE: usize = 64;

/// How many connections each listener accepts.
#[derive(Clone, Copy, Debug, PartialEq)]
pub struct Counts {
    /// Connections of class `Card`.
    pub cards: u8,
    /// Connections of class `Render`.
    pub renders: u8,
    /// Connections of class `Root`.
    pub roots: u8,
}
