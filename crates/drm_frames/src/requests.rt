//! The call of a frame.
ghost use Rattle.std.specs.Prelude.{◌≡◌, ◌<◌, ◌≤◌, Some, None, IfSome, IfNone, length};
ghost use Rattle.std.specs.Option.{option_and_then};
ghost use Rattle.drm_table.specs.Fields.Layout.{ids};
ghost use Rattle.drm_table.specs.Table.{call_with};
ghost use Rattle.drm_frames.specs.Fields.{fields_in, numbers_in};
ghost use Rattle.drm_frames.specs.Requests.{IsOfRow, WritesCall, request_of};

use crate::fields::{push_fields, read_ids, read_numbers};
use crate::frame::Frame;
use crate::text::FrameBytes;
use drm_table::{Call, CallKind, Fields, Layout, Width};

/// Writes the call of a kind to its place, if the bytes are exactly numbers of these widths.
fn read_numbers_call(kind: CallKind, widths: &[Width], bytes: &[u8], place: &mut Call) -> Option<()>
    requires { length widths.now ≤ 5 }
    ensures some { IfSome result (λ _. option_and_then (call_with kind) (numbers_in widths.now bytes.now) ≡ Some place.new) }
    ensures none { IfNone result (option_and_then (call_with kind) (numbers_in widths.now bytes.now) ≡ None) }
{
    let mut fields: Fields<5> = Fields::new();
    if !read_numbers(&mut fields, widths, bytes) {
        return None;
    }
    *place = kind.call(fields.as_slice())?;
    Some(())
}

/// Writes the call of a kind to its place, if the bytes are exactly a count and as many ids.
fn read_ids_call(kind: CallKind, bytes: &[u8], place: &mut Call) -> Option<()>
    ensures some { IfSome result (λ _. option_and_then (call_with kind) (fields_in ids bytes.now) ≡ Some place.new) }
    ensures none { IfNone result (option_and_then (call_with kind) (fields_in ids bytes.now) ≡ None) }
{
    let mut fields: Fields<32> = Fields::new();
    if !read_ids(&mut fields, bytes) {
        return None;
    }
    *place = kind.call(fields.as_slice())?;
    Some(())
}

/// Returns the call of a frame (drm-uapi for the rows; the layout is own). Does not allocate.
///
/// If no row has the number, the call is `Unknown`. If the fields are not exactly those of the row, or name a kind that
/// no audit has, it is `BadLayout`.
///
/// # Examples
///
/// ```rust
/// use drm_frames::{Frame, call_of};
/// use drm_table::Call;
///
/// assert!(rt; call_of(&Frame::new(0x09, &[1, 0, 0, 0])) == Call::GemClose { handle: 1 });
/// assert!(rt; call_of(&Frame::new(0x09, &[])) == Call::BadLayout(0x09));
/// assert!(rt; call_of(&Frame::new(0x7F, &[])) == Call::Unknown(0x7F));
/// ```
pub fn call_of(frame: &Frame<'_>) -> Call
    ensures { result ≡ request_of frame.now }
{
    let mut call = Call::Version;
    read_call(frame, &mut call);
    call
}

/// Writes the call of a frame, as [`call_of`] returns it, to a place of the caller's, so that a call is moved less. Does
/// not allocate.
///
/// # Examples
///
/// ```rust
/// use drm_frames::{Frame, read_call};
/// use drm_table::Call;
///
/// let mut call = Call::Version;
/// read_call(&Frame::new(0x09, &[1, 0, 0, 0]), &mut call);
/// assert!(rt; call == Call::GemClose { handle: 1 });
/// read_call(&Frame::new(0x7F, &[]), &mut call);
/// assert!(rt; call == Call::Unknown(0x7F));
/// ```
#[tactic(auto, unfolding(crate::specs::Requests::request_of, crate::specs::Fields::fields_in))]
pub fn read_call(frame: &Frame<'_>, place: &mut Call)
    ensures { place.new ≡ request_of frame.now }
{
    let number = frame.number();
    let Some(kind) = CallKind::of_number(number) else {
        *place = Call::Unknown(number);
        return;
    };
    let read = match kind.layout() {
        Layout::Numbers(widths) => read_numbers_call(kind, widths, frame.fields(), place),
        Layout::Ids => read_ids_call(kind, frame.fields(), place),
    };
    if read.is_none() {
        *place = Call::BadLayout(number);
    }
}

/// Returns the bytes of the frame of a call (drm-uapi for the rows; the layout is own). Does not allocate.
///
/// The call must have a row: neither `Unknown` nor `BadLayout`.
///
/// # Examples
///
/// ```rust
/// use drm_frames::encode_call;
/// use drm_table::Call;
///
/// let frame = encode_call(&Call::GemClose { handle: 1 });
/// assert!(rt; frame.as_slice() == [6, 0, 0, 0, 0x09, 0x00, 1, 0, 0, 0].as_slice());
/// ```
#[tactic(auto, using(crate::proofs::CallTexts::has_row))]
pub fn encode_call(call: &Call) -> FrameBytes
    requires { IsOfRow call.now }
    ensures text { WritesCall call.now result }
    ensures some { 0 < length result }
    ensures short { length result ≤ 1028 }
{
    let Some((kind, fields)) = call.row() else {
        unreachable!()
    };
    let mut frame = FrameBytes::new();
    frame.begin();
    push_fields(&mut frame, kind.layout(), fields.as_slice());
    frame.finish(kind.number());
    frame
}
