//! One frame.
ghost use Rattle.std.specs.Prelude.{◌≡◌, ◌≤◌, length};
ghost use Rattle.drm_frames.specs.Grammar.{FrameValue, frame_value};

use std::marker::Model;

/// A frame: a number and up to 1,022 bytes of fields, which it borrows (own).
#[derive(Debug, Drop)]
pub struct Frame<'a> {
    number: u16,
    fields: &'a [u8],
}

impl<'a> Model for Frame<'a> {
    ghost Value = { FrameValue };

    ghost view = { λ f. record { number = f.number; fields = f.fields.now } };
}

impl<'a> Frame<'a> {
    /// Creates a frame with this number and these fields, 1,022 bytes at most.
    pub fn new(number: u16, fields: &'a [u8]) -> Frame<'a>
        requires { length fields.now ≤ 1022 }
        ensures { result ≡ frame_value number fields.now }
    {
        Frame { number, fields }
    }

    /// Returns the number of a call, of a hello or of a result.
    pub fn number(&self) -> u16
        ensures { result ≡ self.now.number }
    {
        self.number
    }

    /// Returns the bytes after the number.
    pub fn fields(&self) -> &'a [u8]
        ensures { result.now ≡ self.now.fields }
    {
        self.fields
    }
}
