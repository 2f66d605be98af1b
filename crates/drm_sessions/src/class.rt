//! What a client may ask to be opened as.

/// What the clients of a listener are (own): which hellos it allows, and who is root.
#[derive(Clone, Copy, Debug, PartialEq)]
pub enum Class {
    /// Primary nodes and lease tokens, not root.
    Card,
    /// Render nodes alone.
    Render,
    /// Primary nodes and lease tokens, by root.
    Root,
}
