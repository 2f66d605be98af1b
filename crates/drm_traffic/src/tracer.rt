//! The lines of a trace.

use crate::batch::{WatchedCall, WatchedFault};
use crate::classes::class_word;
use drm_checks::put_words;
use drm_device::Device;
use drm_script::{LineText, line_of};
use drm_table::{Answer, Apart};
use std::alloc::AllocError;
use std::io::Write;

/// The codes before and after a denial or a fault on a terminal.
const RED: &[u8] = b"\x1b[31m";

const PLAIN: &[u8] = b"\x1b[0m";

/// Whether denials and faults are in colour (own).
#[derive(Clone, Copy, Debug, PartialEq)]
pub enum Palette {
    /// No colour.
    Plain,
    /// Denials and faults are red.
    Red,
}

/// What writes the lines of a trace (own): one for each step, in the order of the history, and one for each fault.
///
/// A line begins with the seconds since the start of the server, the number of the step from 1, and the class of the
/// connection. A fault has `-` in place of the number. Then it has the event in a script's words, ` -> ` and the answer.
/// The answers are those of a device that begins as the server's did.
///
/// # Examples
///
/// ```rust
/// use drm_device::{Device, Limits, Topology};
/// use drm_sessions::Class;
/// use drm_table::{Event, Opening};
/// use drm_traffic::{Palette, Tracer, WatchedCall};
/// use std::time::Duration;
///
/// let alloc = rt.alloc();
/// let Some(topology) = Topology::new(2, &[1, 2], &[3, 2], &[5, 6]) else { return };
/// let Ok(device) = Device::new(alloc, topology, Limits::PROGRAM) else { return };
/// let mut tracer = Tracer::new(device, Palette::Plain);
/// let mut text = Vec::new(alloc);
/// let call = WatchedCall {
///     since: Duration::from_millis(1_500),
///     class: Class::Card,
///     event: Event::Open(Opening::Render),
/// };
/// let Ok(()) = tracer.put_step(&mut text, &call) else { return };
/// assert!(rt; text.as_slice() == b"    1.500000      1 card   open ? render -> client 1\n".as_slice());
/// ```
#[derive(Drop)]
pub struct Tracer {
    device: Device,
    steps: u64,
    palette: Palette,
    /// The line of the last step's answer. This place is cleared once, and not for each step.
    line: LineText,
}

/// Appends `count` copies of a character.
fn put_fill(text: &mut Vec<u8>, fill: u8, count: usize) -> Result<(), AllocError> {
    for _ in 0..count {
        text.push(fill)?;
    }
    Ok(())
}

/// Appends a number of at least `width` characters, with `fill` before its digits. With `write!` the front of a line took
/// 1,000 instructions more.
fn put_number(text: &mut Vec<u8>, number: u64, fill: u8, width: usize) -> Result<(), AllocError> {
    let mut buffer = itoa::Buffer::new();
    let digits = buffer.format(number).as_bytes();
    put_fill(text, fill, width.saturating_sub(digits.len()))?;
    text.extend_from_slice(digits)
}

/// Appends the front of a line, before the words of the event.
fn put_head(text: &mut Vec<u8>, call: &WatchedCall, number: Option<u64>) -> Result<(), AllocError> {
    put_number(text, call.since.as_secs(), b' ', 5)?;
    text.push(b'.')?;
    put_number(text, u64::from(call.since.subsec_micros()), b'0', 6)?;
    text.push(b' ')?;
    match number {
        Some(number) => put_number(text, number, b' ', 6)?,
        None => text.extend_from_slice(b"     -")?,
    }
    let class = class_word(call.class).as_bytes();
    text.push(b' ')?;
    text.extend_from_slice(class)?;
    put_fill(text, b' ', 7_usize.saturating_sub(class.len()))
}

/// Returns whether an answer is marked.
fn is_refusal(outcome: &Result<Answer, Apart>) -> bool {
    match outcome {
        Ok(Answer::Denied { .. }) => true,
        Ok(_) => false,
        Err(_) => true,
    }
}

/// Appends ` -> ` and the line of an answer, with its end. A red answer has the codes of its colour.
fn put_answer(text: &mut Vec<u8>, line: &LineText, is_red: bool) -> Result<(), AllocError> {
    text.extend_from_slice(b" -> ")?;
    if !is_red {
        return text.extend_from_slice(line.as_bytes());
    }
    text.extend_from_slice(RED)?;
    text.extend_from_slice(line.as_bytes().trim_ascii_end())?;
    text.extend_from_slice(PLAIN)?;
    text.extend_from_slice(b"\n")
}

impl Tracer {
    /// Creates what writes the trace of a server whose device began as this one. Does not allocate.
    pub fn new(device: Device, palette: Palette) -> Tracer {
        Tracer {
            device,
            steps: 0,
            palette,
            line: LineText::new(),
        }
    }

    /// Appends the line of the next step. Allocates what it appends, and what the step adds to its device.
    ///
    /// # Errors
    ///
    /// `AllocError` if memory is refused. The text may then end with a part of the line.
    pub fn put_step(&mut self, text: &mut Vec<u8>, call: &WatchedCall) -> Result<(), AllocError> {
        self.steps = self.steps.saturating_add(1);
        put_head(text, call, Some(self.steps))?;
        put_words(text, &call.event)?;
        let mut outcome = Ok(Answer::Done);
        self.device.step_at(&call.event, &mut outcome);
        self.line.write(&outcome);
        let is_red = self.palette == Palette::Red && is_refusal(&outcome);
        put_answer(text, &self.line, is_red)
    }

    /// Appends the line of a fault, which is no step. Allocates what it appends.
    ///
    /// # Errors
    ///
    /// `AllocError` if memory is refused. The text may then end with a part of the line.
    pub fn put_fault(&self, text: &mut Vec<u8>, fault: &WatchedFault) -> Result<(), AllocError> {
        put_head(text, &fault.call, None)?;
        put_words(text, &fault.call.event)?;
        let line = line_of(&Err(fault.fault));
        put_answer(text, &line, self.palette == Palette::Red)
    }

    /// Appends the line for faults that were not kept. Allocates what it appends.
    ///
    /// # Errors
    ///
    /// `AllocError` if memory is refused. The text may then end with a part of the line.
    pub fn put_left_out(&self, text: &mut Vec<u8>, count: u64) -> Result<(), AllocError> {
        match write!(text, "# {count} faults are left out here\n") {
            Ok(()) => Ok(()),
            Err(_) => Err(AllocError),
        }
    }
}
