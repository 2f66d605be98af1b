//! The client that each label names.

use drm_script::Label;
use drm_table::{Answer, Apart};
use std::marker::Model;

/// The clients that the labels name, the first by `a`. A label that was never bound names client 0. Contracts see
/// these.
#[derive(Drop)]
pub(crate) struct Namings {
    clients: [u32; Label::COUNT],
    /// Whether the client of the label is open.
    open: [bool; Label::COUNT],
}

impl Model for Namings {
    ghost use Rattle.std.specs.Prelude.{List, ℕ};

    ghost Value = { List ℕ };

    ghost view = { λ namings. namings.clients };
}

impl Namings {
    ghost use Rattle.std.specs.Prelude.{◌≡◌, ◌<◌, ◌==◌, IfSome, IfNone, None, position};
    ghost use Rattle.drm_runs.specs.Script.{bound, unbound};

    /// Returns the namings in which no label is bound.
    pub(crate) fn new() -> Namings
        ensures { result ≡ unbound }
    {
        Namings {
            clients: [0; Label::COUNT],
            open: [false; Label::COUNT],
        }
    }

    /// Returns the place of the label that names a client. For client 0, it is the first label that was never bound.
    pub(crate) fn place_of(&self, client: u32) -> Option<usize>
        ensures place { result ≡ position (λ label. label == client) self.now }
        ensures within { IfSome result (λ place. place < Label.COUNT) }
    {
        self.clients.iter().position(|label| *label == client)
    }

    /// Returns the place of the first label whose client is closed.
    fn closed_place(&self) -> Option<usize>
        ensures { IfSome result (λ place. place < Label.COUNT) }
    {
        self.open.iter().position(|open| !*open)
    }

    /// Returns the place of a label for a new client: of one that was never bound, else of one whose client is closed.
    pub(crate) fn free_place(&self) -> Option<usize>
        ensures within { IfSome result (λ place. place < Label.COUNT) }
        ensures none { IfNone result (position (λ label. label == 0) self.now ≡ None) }
    {
        match self.place_of(0) {
            Some(place) => Some(place),
            None => self.closed_place(),
        }
    }

    /// Binds a label to the client of an accepted opening.
    pub(crate) fn bind(&mut self, place: Option<usize>, outcome: &Result<Answer, Apart>)
        requires { IfSome place (λ place. place < Label.COUNT) }
        ensures { self.new ≡ bound self.old place outcome.now }
    {
        let Some(place) = place else {
            return;
        };
        if let Ok(Answer::Opened { client }) = outcome {
            self.clients[place] = *client;
            self.open[place] = true;
        }
    }

    /// Allows the label of a closed client to be bound again. Until then it still names that client.
    pub(crate) fn close(&mut self, client: u32)
        ensures { self.new ≡ self.old }
    {
        if let Some(place) = self.place_of(client) {
            self.open[place] = false;
        }
    }
}
