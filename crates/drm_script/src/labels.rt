//! The labels of a script, which name clients.

ghost use Rattle.std.specs.Prelude.{◌≡◌, ◌<◌, IfSome};
ghost use Rattle.drm_script.specs.Fields.{place_of, label_of};

use std::marker::Model;

/// A label: one letter from `a` to `z` (own). Contracts see its place in the alphabet, from 0.
#[derive(Clone, Copy, PartialEq, Debug)]
pub struct Label {
    place: u8,
}

impl Model for Label {
    ghost use Rattle.std.specs.Prelude.{ℕ, ◌<◌};

    ghost Value = { ℕ };

    ghost view = { λ label. label.place };

    ghost invariant = { λ label. label.place < 26 };

    ghost inverse = { λ place. record { place = place } };
}

impl Label {
    /// The number of labels.
    pub const COUNT: usize = 26;

    /// Returns the label with this letter, or `None` if the byte is no letter from `a` to `z`.
    #[tactic(auto, unfolding(crate::specs::Fields::place_of))]
    pub fn from_letter(letter: u8) -> Option<Label>
        ensures place { result ≡ place_of letter }
        ensures below { IfSome result (λ place. place < Label.COUNT) }
    {
        if letter < b'a' || letter > b'z' {
            return None;
        }
        Some(Label {
            place: letter - b'a',
        })
    }

    /// Returns the place in the alphabet, 0 to 25.
    pub fn place(self) -> usize
        ensures place { result ≡ self }
        ensures below { result < Label.COUNT }
    {
        usize::from(self.place)
    }
}

/// Returns the label that a word is.
#[tactic(auto, unfolding(crate::specs::Fields::label_of))]
pub(crate) fn label_of_word(word: &[u8]) -> Option<Label>
    ensures { result ≡ label_of word.now }
{
    match word {
        [letter] => Label::from_letter(*letter),
        _ => None,
    }
}
