//! The bytes of a frame as they are built up.
ghost use Rattle.std.specs.Prelude.{◌≡◌, ◌+◌, ◌≤◌, List, [], ◌++◌, drop, length, ℕ};
ghost use Rattle.drm_frames.specs.Grammar.{frame_text, frame_value};
ghost use Rattle.drm_frames.specs.Number.{u32, u64};

use arrayvec::ArrayVec;
use byteorder::{ByteOrder, LittleEndian};
use std::marker::Model;

/// The bytes of one frame, 1,028 at most.
///
/// # Examples
///
/// ```rust
/// use drm_frames::encode_call;
/// use drm_table::Call;
///
/// let frame = encode_call(&Call::GetMagic);
/// assert!(rt; frame.as_slice().len() == 6);
/// ```
#[derive(Drop)]
pub struct FrameBytes {
    bytes: ArrayVec<u8, 1028>,
}

impl Model for FrameBytes {
    ghost Value = { List ℕ };

    ghost view = { λ t. t.bytes.items };
}

impl FrameBytes {
    pub(crate) fn new() -> Self
        ensures { result ≡ [] }
    {
        FrameBytes {
            bytes: ArrayVec::new(),
        }
    }

    /// Returns the bytes.
    pub fn as_slice(&self) -> &[u8]
        ensures bytes { result.now ≡ self.now }
        ensures short { length result.now ≤ 1028 }
    {
        self.bytes.as_slice()
    }

    /// Clears the buffer and leaves room for the head of a frame, 6 bytes. The fields are written after it.
    pub(crate) fn begin(&mut self)
        ensures { length self.new ≡ 6 }
    {
        self.bytes.clear();
        self.push_bytes(&[0; 6]);
    }

    /// Writes the head of the frame with this number over the room that `begin` left.
    pub(crate) fn finish(&mut self, number: u16)
        requires { 6 ≤ length self.old }
        ensures text { self.new ≡ frame_text (frame_value number (drop 6 self.old)) }
        ensures length { length self.new ≡ length self.old }
        ensures short { length self.new ≤ 1028 }
    {
        write_head(self.bytes.as_mut_slice(), number);
    }

    pub(crate) fn push_bytes(&mut self, bytes: &[u8])
        requires { length self.old + length bytes.now ≤ 1028 }
        ensures text { self.new ≡ self.old ++ bytes.now }
        ensures length { length self.new ≡ length self.old + length bytes.now }
    {
        let _ = self.bytes.try_extend_from_slice(bytes);
    }

    #[tactic(auto, using(crate::proofs::NumberBytes::lengths), unfolding(crate::specs::Number::u32))]
    pub(crate) fn push_u32(&mut self, number: u32)
        requires { length self.old + 4 ≤ 1028 }
        ensures text { self.new ≡ self.old ++ u32 number }
        ensures length { length self.new ≡ length self.old + 4 }
    {
        let mut text = [0; 4];
        LittleEndian::write_u32(&mut text, number);
        self.push_bytes(&text);
    }

    #[tactic(auto, using(crate::proofs::NumberBytes::lengths), unfolding(crate::specs::Number::u64))]
    pub(crate) fn push_u64(&mut self, number: u64)
        requires { length self.old + 8 ≤ 1028 }
        ensures text { self.new ≡ self.old ++ u64 number }
        ensures length { length self.new ≡ length self.old + 8 }
    {
        let mut text = [0; 8];
        LittleEndian::write_u64(&mut text, number);
        self.push_bytes(&text);
    }
}

/// Writes the head of a frame over its first 6 bytes: the length of the number and the fields, and the number.
#[tactic(auto, unfolding(crate::specs::Number::u16, crate::specs::Number::u32))]
fn write_head(frame: &mut [u8], number: u16)
    requires long { 6 ≤ length frame.old }
    requires short { length frame.old ≤ 1028 }
    ensures text { frame.new ≡ frame_text (frame_value number (drop 6 frame.old)) }
    ensures length { length frame.new ≡ length frame.old }
{
    let length = frame.len() as u32 - 4;
    LittleEndian::write_u32(frame, length);
    LittleEndian::write_u16(&mut frame[4..], number);
}
