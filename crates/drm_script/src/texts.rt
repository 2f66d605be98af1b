//! The text of a line, and the numbers in it.

ghost use Rattle.std.specs.Prelude.{◌≡◌, ◌≤◌, ◌+◌, ◌++◌, [], length, decimal};
ghost use Rattle.arrayvec.specs.ArrayString.{array_string_len};

use arrayvec::ArrayString;
use std::marker::Model;

/// The most bytes of an answer's line, or of a row's line in a listing, with its end (own).
pub const LINE: usize = 4_096;

/// A buffer for one line with its end. Contracts see its bytes.
///
/// # Examples
///
/// ```rust
/// use drm_script::line_of;
/// use drm_table::Answer;
///
/// let line = line_of(&Ok(Answer::Done));
/// assert!(rt; line.as_bytes() == b"done\n".as_slice());
/// ```
#[derive(Drop)]
pub struct LineText {
    pub(crate) text: ArrayString<LINE>,
}

impl Model for LineText {
    ghost use Rattle.std.specs.Prelude.{List, ℕ};

    ghost Value = { List ℕ };

    ghost view = { λ line. line.text.bytes };
}

impl LineText {
    /// Creates an empty buffer for lines. Does not allocate.
    pub fn new() -> LineText
        ensures { result ≡ [] }
    {
        LineText {
            text: ArrayString::new(),
        }
    }

    /// Returns the line of a text, which has its end.
    pub(crate) fn of(text: ArrayString<LINE>) -> LineText
        ensures { result ≡ text.bytes }
    {
        LineText { text }
    }

    /// Returns the bytes. The last one is the line end, unless nothing was written.
    pub fn as_bytes(&self) -> &[u8]
        ensures bytes { result.now ≡ self.now }
        ensures fits { length result.now ≤ LINE }
    {
        self.text.as_str().as_bytes()
    }
}

/// Appends a number in decimal digits. The text must have room for 20 bytes.
pub fn push_number<const N: usize>(text: &mut ArrayString<N>, number: u64)
    requires room { array_string_len text.old + 20 ≤ N }
    ensures bytes { text.new.bytes ≡ text.old.bytes ++ decimal number }
    ensures len { array_string_len text.new ≤ array_string_len text.old + 20 }
{
    let mut buffer = itoa::Buffer::new();
    text.push_str(buffer.format(number));
}
