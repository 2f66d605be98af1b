//! Frames and what is read of them, and frames that no server sends.

ghost use Rattle.std.specs.Prelude.{◌≡◌, true};
ghost use Rattle.drm_frames.specs.Hellos.{is_version};
ghost use Rattle.drm_table.specs.Results.{FitsOneFrame};

use drm_frames::{
    Decoded, Frame, FrameBytes, Hello, answer_of, call_of, decode, encode_answer, encode_call,
    encode_hello, hello_of,
};
use drm_script::line_of;
use drm_table::{Answer, Apart, Call};
use drm_test_support::{list_of, page_of, resources_of, row};

/// The frame that is all of the bytes.
fn frame_in(bytes: &[u8]) -> Option<Frame<'_>> {
    match decode(bytes) {
        Decoded::Whole(frame, used) if used == bytes.len() => Some(frame),
        _ => None,
    }
}

fn hello_in(bytes: &[u8]) -> Option<Hello> {
    hello_of(&frame_in(bytes)?)
}

/// Returns whether the bytes are a frame, and no answer's.
fn is_no_answer(bytes: &[u8]) -> bool {
    match frame_in(bytes) {
        Some(frame) => answer_of(&frame).is_none(),
        None => false,
    }
}

/// Returns whether the bytes are a frame of this answer.
fn answers(bytes: &[u8], outcome: &Result<Answer, Apart>) -> bool {
    let Some(frame) = frame_in(bytes) else {
        return false;
    };
    match answer_of(&frame) {
        Some(read) => read == *outcome,
        None => false,
    }
}

/// The frame of a call that has a row.
fn call_bytes(call: &Call) -> Option<FrameBytes> {
    match call {
        Call::Unknown(_) | Call::BadLayout(_) => None,
        _ => Some(encode_call(call)),
    }
}

/// Returns whether the lists of an answer have 251 ids at most, which one frame takes.
fn is_few(outcome: &Result<Answer, Apart>) -> bool
    ensures { result ≡ true → FitsOneFrame outcome.now }
{
    match outcome {
        Ok(
            Answer::Resources {
                crtcs,
                connectors,
                encoders,
                framebuffers,
            },
        ) => {
            crtcs.ids().len()
                + connectors.ids().len()
                + encoders.ids().len()
                + framebuffers.ids().len()
                <= 251
        }
        _ => true,
    }
}

/// The frame of an answer that fits into one.
fn answer_bytes(outcome: &Result<Answer, Apart>) -> Option<FrameBytes> {
    if !is_few(outcome) {
        return None;
    }
    Some(encode_answer(outcome))
}

/// Lengths that no frame has.
const NO_LENGTHS: [u32; 4] = [0, 1, 1025, u32::MAX];

/// What no frame ends in.
const FRONTS: [&[u8]; 5] = [
    &[2, 0, 0, 0],
    &[0, 4, 0, 0],
    &[],
    &[255, 255, 255],
    &[2, 0, 0, 0, 0],
];

const TWO_FRAMES: [u8; 13] = [3, 0, 0, 0, 9, 1, 7, 2, 0, 0, 0, 0, 0];

#[test]
fn lengths_of_frames(rt: HostRuntime) {
    for length in NO_LENGTHS {
        assert!(rt; matches!(decode(&length.to_le_bytes()), Decoded::TooLong));
    }
    for front in FRONTS {
        assert!(rt; matches!(decode(front), Decoded::NeedMore));
    }
}

#[test]
fn first_of_two_frames(rt: HostRuntime) {
    let is_first = match decode(&TWO_FRAMES) {
        Decoded::Whole(frame, used) => {
            used == 7 && frame.number() == 0x0109 && frame.fields() == [7].as_slice()
        }
        _ => false,
    };
    assert!(rt; is_first);
}

/// Hellos with their bytes, by the lease token that they may have.
const HELLOS: [(&[u8], u32, Option<u32>); 5] = [
    (
        &[14, 0, 0, 0, 0, 1, 1, 0, 0, 0, 0, 0, 0, 0, 0, 0, 0, 0],
        1,
        None,
    ),
    (
        &[14, 0, 0, 0, 0, 1, 1, 0, 0, 0, 1, 0, 0, 0, 7, 1, 0, 0],
        1,
        Some(263),
    ),
    (
        &[14, 0, 0, 0, 0, 1, 1, 0, 0, 0, 1, 0, 0, 0, 0, 0, 0, 0],
        1,
        Some(0),
    ),
    (
        &[14, 0, 0, 0, 0, 1, 2, 0, 0, 0, 0, 0, 0, 0, 0, 0, 0, 0],
        2,
        None,
    ),
    (
        &[14, 0, 0, 0, 0, 1, 2, 0, 0, 0, 1, 0, 0, 0, 7, 1, 0, 0],
        2,
        Some(263),
    ),
];

/// Returns whether the bytes are the hello's, and are read as it.
fn is_hello(bytes: &[u8], hello: Hello) -> bool
    requires { is_version hello.version ≡ true }
{
    encode_hello(hello).as_slice() == bytes && hello_in(bytes) == Some(hello)
}

#[test]
fn hellos_have_their_bytes(rt: HostRuntime) {
    for (bytes, version, lease) in HELLOS {
        assert!(rt; is_hello(bytes, Hello { version, lease }), "{bytes:?}");
    }
}

/// Frames of calls: of no number, of numbers of either width, of no id, and of some. `tests/test_frames.py` has one of each call.
const CALLS: [&[u8]; 5] = [
    b"\x02\0\0\0\0\0",
    b"\x16\0\0\0\xae\0\x40\0\0\0\x20\0\0\0\0\x01\0\0\x18\0\0\0\x09\0\0\0",
    b"\x0e\0\0\0\x41\0\x01\0\0\0\x4d\0\0\0\0\0\0\x01",
    b"\x06\0\0\0\xc6\0\0\0\0\0",
    b"\x12\0\0\0\xc6\0\x03\0\0\0\x02\0\0\0\x04\0\0\0\x08\0\0\0",
];

/// Returns whether the call of a frame has the same frame.
fn is_call(bytes: &[u8]) -> bool {
    let Some(frame) = frame_in(bytes) else {
        return false;
    };
    match call_bytes(&call_of(&frame)) {
        Some(written) => written.as_slice() == bytes,
        None => false,
    }
}

#[test]
fn calls_have_their_bytes(rt: HostRuntime) {
    for bytes in CALLS {
        assert!(rt; is_call(bytes), "{bytes:?}");
    }
}

/// Frames of answers, and their lines.
const ANSWERS: [(&[u8], &[u8]); 26] = [
    (b"\x02\0\0\0\0\x10", b"done\n"),
    (b"\x06\0\0\0\x01\x10\x01\0\0\0", b"client 1\n"),
    (
        b"\x0e\0\0\0\x02\x10\x01\0\0\0\0\0\0\0\0\0\0\0",
        b"version 1 0 0\n",
    ),
    (
        b"\x12\0\0\0\x04\x10\x01\0\0\0\0\x0a\0\0\0\xc0\x12\0\0\0\0\0",
        b"dumb 1 2560 1228800\n",
    ),
    (b"\x02\0\0\0\x0c\x10", b"closed\n"),
    (
        b"\x0a\0\0\0\0\x20\x02\0\0\0\x16\0\0\0",
        b"denied 2 Layout 22\n",
    ),
    (
        b"\x0a\0\0\0\0\x20\x2b\0\0\0\x1c\0\0\0",
        b"denied 43 Full 28\n",
    ),
    (
        b"\x0a\0\0\0\x01\x20\x33\0\0\0\x0c\0\0\0",
        b"apart 51 NoMemory 12\n",
    ),
    (
        b"\x0a\0\0\0\x01\x20\x34\0\0\0\x1c\0\0\0",
        b"apart 52 Worn 28\n",
    ),
    (
        b"\x0a\0\0\0\x03\x10\x4d\0\0\0\0\0\0\x01",
        b"number 72057594037928013\n",
    ),
    (
        b"\x0a\0\0\0\x03\x10\xff\xff\xff\xff\xff\xff\xff\xff",
        b"number 18446744073709551615\n",
    ),
    (
        b"\x0e\0\0\0\x05\x10\x01\0\0\0\0\x20\0\0\0\0\0\0",
        b"buffer 1 8192\n",
    ),
    (
        b"\x0a\0\0\0\x08\x10\x02\x01\0\0\x03\0\0\0",
        b"plane 258 3\n",
    ),
    (
        b"\x0a\0\0\0\x08\x10\0\0\0\0\xff\xff\xff\xff",
        b"plane 0 4294967295\n",
    ),
    (
        b"\x16\0\0\0\x09\x10\x40\0\0\0\x20\0\0\0\0\x01\0\0\x18\0\0\0\xff\xff\xff\xff",
        b"framebuffer 64 32 256 24 4294967295\n",
    ),
    (
        b"\x0a\0\0\0\x0a\x10\x01\0\0\0\x02\x01\0\0",
        b"lease 1 258\n",
    ),
    (
        b"\x0a\0\0\0\x0a\x10\x03\0\0\0\xff\xff\xff\xff",
        b"lease 3 4294967295\n",
    ),
    (b"\x06\0\0\0\x07\x10\0\0\0\0", b"list -\n"),
    (
        b"\x0e\0\0\0\x07\x10\x02\0\0\0\x01\0\0\0\xff\xff\xff\xff",
        b"list 1,4294967295\n",
    ),
    (
        b"\x12\0\0\0\x06\x10\0\0\0\0\0\0\0\0\0\0\0\0\0\0\0\0",
        b"crtcs - connectors - encoders - framebuffers -\n",
    ),
    (
        b"\x2a\0\0\0\x06\x10\x02\0\0\0\x01\0\0\0\x02\0\0\0\x02\0\0\0\x07\0\0\0\x08\0\0\0\x02\0\0\0\x05\0\0\0\x06\0\0\0\0\0\0\0",
        b"crtcs 1,2 connectors 7,8 encoders 5,6 framebuffers -\n",
    ),
    (
        b"\x1e\0\0\0\x06\x10\0\0\0\0\x01\0\0\0\x08\0\0\0\0\0\0\0\x02\0\0\0\x02\x01\0\0\xff\xff\0\0",
        b"crtcs - connectors 8 encoders - framebuffers 258,65535\n",
    ),
    (
        b"\x16\0\0\0\x06\x10\0\0\0\0\0\0\0\0\0\0\0\0\x01\0\0\0\0\0\x01\0",
        b"crtcs - connectors - encoders - framebuffers 65536\n",
    ),
    (
        b"\x22\0\0\0\x06\x10\x01\0\0\0\xff\xff\xff\xff\x01\0\0\0\xff\xff\xff\xff\x01\0\0\0\xff\xff\xff\xff\x01\0\0\0\xff\xff\xff\xff",
        b"crtcs 4294967295 connectors 4294967295 encoders 4294967295 framebuffers 4294967295\n",
    ),
    (b"\x06\0\0\0\x0b\x10\0\0\0\0", b"rows 0\n"),
    (
        b"\x26\0\0\0\x0b\x10\x01\0\0\0\x01\0\0\0\0\0\0\0\x1c\0\0\0\0\0\0\0\x02\x01\0\0\0\0\0\0\xff\xff\xff\xff\xff\xff\xff\xff",
        b"rows 1 | 1 28 258 18446744073709551615\n",
    ),
];

/// Returns whether the answer of a frame has the same frame, and this line.
fn is_answer(bytes: &[u8], line: &[u8]) -> bool {
    let Some(frame) = frame_in(bytes) else {
        return false;
    };
    let Some(outcome) = answer_of(&frame) else {
        return false;
    };
    match answer_bytes(&outcome) {
        Some(written) => written.as_slice() == bytes && line_of(&outcome).as_bytes() == line,
        None => false,
    }
}

#[test]
fn answers_have_their_bytes_and_lines(rt: HostRuntime) {
    for (bytes, line) in ANSWERS {
        assert!(rt; is_answer(bytes, line), "{line:?}");
    }
}

/// Returns whether the answer's frame has `size` bytes with this front and this last byte, and is read as the answer.
fn is_long_answer(outcome: &Result<Answer, Apart>, size: usize, front: &[u8], last: u8) -> bool {
    match answer_bytes(outcome) {
        Some(written) => {
            let bytes = written.as_slice();
            bytes.len() == size
                && bytes.starts_with(front)
                && bytes.last() == Some(&last)
                && answers(bytes, outcome)
        }
        None => false,
    }
}

/// The ids from 1 to 64.
fn ids_to_64() -> [u32; 64] {
    let mut ids = [0; 64];
    for number in 0..64u8 {
        ids[usize::from(number)] = u32::from(number) + 1;
    }
    ids
}

/// A list of 64 ids, resources of 251, and a page of 16 rows.
#[test]
fn longest_answers_have_their_bytes(rt: HostRuntime) {
    let ids = ids_to_64();
    let rows = [row(1, 2, 3, 1 << 56); 16];
    let list = [6, 1, 0, 0, 7, 16, 64, 0, 0, 0, 1, 0, 0, 0, 2, 0, 0, 0, 3];
    assert!(rt; is_long_answer(&list_of(&ids), 266, &list, 0));
    let resources = [254, 3, 0, 0, 6, 16, 64, 0, 0, 0, 1, 0, 0, 0, 2, 0, 0, 0, 3];
    let most = resources_of([&ids, &ids, &ids, &ids[..59]]);
    assert!(rt; is_long_answer(&most, 1026, &resources, 0));
    let page = [6, 2, 0, 0, 11, 16, 16, 0, 0, 0, 1, 0, 0, 0, 0, 0, 0, 0, 2];
    assert!(rt; is_long_answer(&page_of(&rows), 522, &page, 1));
}

/// Frames that are no answer. They have the errno of another rule, no rule, a fault outside the rules, bytes after an
/// answer, or no answer's number. In others a list, a page or a resource has another length.
const NO_ANSWERS: [&[u8]; 19] = [
    &[10, 0, 0, 0, 0, 32, 2, 0, 0, 0, 2, 0, 0, 0],
    &[10, 0, 0, 0, 0, 32, 4, 0, 0, 0, 22, 0, 0, 0],
    &[10, 0, 0, 0, 1, 32, 2, 0, 0, 0, 22, 0, 0, 0],
    &[3, 0, 0, 0, 0, 16, 0],
    &[2, 0, 0, 0, 255, 31],
    &[5, 0, 0, 0, 7, 16, 0, 0, 0],
    &[7, 0, 0, 0, 7, 16, 0, 0, 0, 0, 0],
    &[9, 0, 0, 0, 7, 16, 1, 0, 0, 0, 1, 0, 0],
    &[11, 0, 0, 0, 7, 16, 1, 0, 0, 0, 1, 0, 0, 0, 0],
    &[6, 0, 0, 0, 7, 16, 255, 255, 255, 255],
    &[5, 0, 0, 0, 0x0B, 0x10, 0, 0, 0],
    &[7, 0, 0, 0, 0x0B, 0x10, 0, 0, 0, 0, 0],
    &[6, 0, 0, 0, 0x0B, 0x10, 1, 0, 0, 0],
    &[6, 0, 0, 0, 0x0B, 0x10, 255, 255, 255, 255],
    &[2, 0, 0, 0, 6, 16],
    &[14, 0, 0, 0, 6, 16, 0, 0, 0, 0, 0, 0, 0, 0, 0, 0, 0, 0],
    &[
        17, 0, 0, 0, 6, 16, 0, 0, 0, 0, 0, 0, 0, 0, 0, 0, 0, 0, 0, 0, 0,
    ],
    &[
        19, 0, 0, 0, 6, 16, 0, 0, 0, 0, 0, 0, 0, 0, 0, 0, 0, 0, 0, 0, 0, 0, 0,
    ],
    &[
        21, 0, 0, 0, 6, 16, 0, 0, 0, 0, 0, 0, 0, 0, 0, 0, 0, 0, 1, 0, 0, 0, 9, 0, 0,
    ],
];

/// The number of an answer with more of its rows or ids than it may have: the first bytes, and the size of the frame.
const TOO_MANY: [([u8; 7], usize); 3] = [
    ([10, 1, 0, 0, 7, 16, 65], 270),
    ([22, 1, 0, 0, 6, 16, 65], 282),
    ([38, 2, 0, 0, 0x0B, 0x10, 17], 554),
];

/// The numbers of answers, each with sizes of fields that it hasn't.
const OTHER_ANSWER_SIZES: [(u16, [usize; 2]); 5] = [
    (0x1003, [7, 9]),
    (0x1005, [11, 13]),
    (0x1008, [7, 9]),
    (0x1009, [19, 21]),
    (0x100A, [7, 9]),
];

/// Returns whether with fields of this size the number is no answer's.
fn is_no_answer_of(number: u16, size: usize) -> bool {
    let zeros = [0; 21];
    let frame = Frame::new(number, &zeros[..size.min(21)]);
    answer_of(&frame).is_none()
}

#[test]
fn other_frames_are_no_answer(rt: HostRuntime) {
    for bytes in NO_ANSWERS {
        assert!(rt; is_no_answer(bytes), "{bytes:?}");
    }
    for (front, size) in TOO_MANY {
        let mut bytes = [0; 554];
        bytes[..7].copy_from_slice(&front);
        assert!(rt; is_no_answer(&bytes[..size.min(554)]), "{front:?}");
    }
    for (number, [less, more]) in OTHER_ANSWER_SIZES {
        let is_none = is_no_answer_of(number, less) && is_no_answer_of(number, more);
        assert!(rt; is_none, "{number}");
    }
}
