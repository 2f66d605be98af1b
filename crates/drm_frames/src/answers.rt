//! The frame of a result.
ghost use Rattle.std.specs.Prelude.{◌≡◌, ◌+◌, ◌<◌, ◌≤◌, [], ◌++◌, drop, length, Ok};
ghost use Rattle.drm_frames.specs.Answers.{FitsFields, FitsTold, answer_frame, answer_text, told_frame};
ghost use Rattle.drm_frames.specs.Grammar.{frame_value};
ghost use Rattle.drm_frames.specs.Number.{u32};
ghost use Rattle.drm_table.specs.Answers.{told};
ghost use Rattle.drm_table.specs.Results.{FitsOneFrame};

use crate::fields::push_numbers;
use crate::lists::{push_list, push_resources};
use crate::pages::push_page;
use crate::text::FrameBytes;
use drm_table::{Answer, Apart, Told};
use std::marker::Model;

// Writes the number and the errno of a refusal.
#[tactic(auto, using(std::proofs::lemmas::List::append_assoc))]
fn push_refusal(text: &mut FrameBytes, number: u32, errno: u32)
    requires { length text.old + 8 ≤ 1028 }
    ensures text { text.new ≡ text.old ++ (u32 number ++ u32 errno) }
    ensures length { length text.new ≡ length text.old + 8 }
{
    text.push_u32(number);
    text.push_u32(errno);
}

// Writes the fields of an answer after the room for the head, and returns the number of its frame.
fn push_answer(text: &mut FrameBytes, answer: &Answer) -> u16
    requires empty { length text.old ≡ 6 }
    requires few { FitsOneFrame (Ok answer.now) }
    ensures text { frame_value result (drop 6 text.new) ≡ told_frame (told answer.now) }
    ensures fits { FitsTold (told answer.now) }
    ensures long { 6 ≤ length text.new }
{
    match answer.told() {
        Told::Fields(kind, fields) => {
            push_numbers(text, fields.as_slice());
            kind.number()
        }
        Told::Resources {
            crtcs,
            connectors,
            encoders,
            framebuffers,
        } => {
            push_resources(text, crtcs, connectors, encoders, framebuffers);
            0x1006
        }
        Told::List(list) => {
            push_list(text, list);
            0x1007
        }
        Told::Page(page) => {
            push_page(text, page);
            0x100B
        }
        Told::Denial(rule) => {
            push_refusal(text, rule.number(), rule.errno());
            0x2000
        }
    }
}

// Writes the fields of a result after the room for the head, and returns the number of its frame.
fn push_outcome(text: &mut FrameBytes, outcome: &Result<Answer, Apart>) -> u16
    requires empty { length text.old ≡ 6 }
    requires few { FitsOneFrame outcome.now }
    ensures text { frame_value result (drop 6 text.new) ≡ answer_frame outcome.now }
    ensures fits { FitsFields outcome.now }
    ensures long { 6 ≤ length text.new }
{
    match outcome {
        Ok(answer) => push_answer(text, answer),
        Err(apart) => {
            push_refusal(text, apart.number(), apart.errno());
            0x2001
        }
    }
}

/// Returns the bytes of a result's frame (own). Does not allocate.
///
/// The four lists of resources must have at most 251 ids together, as many as a frame has room for.
///
/// # Examples
///
/// ```rust
/// use drm_frames::encode_answer;
/// use drm_table::Answer;
///
/// let frame = encode_answer(&Ok(Answer::Done));
/// assert!(rt; frame.as_slice() == [2, 0, 0, 0, 0x00, 0x10].as_slice());
/// ```
#[tactic(auto, unfolding(crate::specs::Answers::answer_text))]
pub fn encode_answer(outcome: &Result<Answer, Apart>) -> FrameBytes
    requires { FitsOneFrame outcome.now }
    ensures text { result ≡ answer_text outcome.now }
    ensures fits { FitsFields outcome.now }
    ensures some { 0 < length result }
    ensures short { length result ≤ 1028 }
{
    let mut frame = FrameBytes::new();
    frame.begin();
    let number = push_outcome(&mut frame, outcome);
    frame.finish(number);
    frame
}

/// A buffer for the frames of results, which holds one at a time (own). Contracts see the bytes of the last one.
///
/// # Examples
///
/// ```rust
/// use drm_frames::AnswerText;
/// use drm_table::Answer;
///
/// let mut text = AnswerText::new();
/// text.write(&Ok(Answer::Done));
/// assert!(rt; text.as_slice().len() == 6);
/// ```
#[derive(Drop)]
pub struct AnswerText {
    frame: FrameBytes,
}

impl Model for AnswerText {
    ghost use Rattle.std.specs.Prelude.{List, ℕ};

    ghost Value = { List ℕ };

    ghost view = { λ text. text.frame };
}

impl AnswerText {
    /// Creates an empty buffer. Does not allocate.
    pub fn new() -> AnswerText
        ensures { result ≡ [] }
    {
        AnswerText {
            frame: FrameBytes::new(),
        }
    }

    /// Writes a result's frame over the last one. Does not allocate.
    ///
    /// The four lists of resources must have at most 251 ids together.
    #[tactic(auto, unfolding(crate::specs::Answers::answer_text))]
    pub fn write(&mut self, outcome: &Result<Answer, Apart>)
        requires { FitsOneFrame outcome.now }
        ensures text { self.new ≡ answer_text outcome.now }
        ensures fits { FitsFields outcome.now }
        ensures some { 0 < length self.new }
    {
        self.frame.begin();
        let number = push_outcome(&mut self.frame, outcome);
        self.frame.finish(number);
    }

    /// Returns the bytes of the last frame.
    pub fn as_slice(&self) -> &[u8]
        ensures bytes { result.now ≡ self.now }
        ensures short { length result.now ≤ 1028 }
    {
        self.frame.as_slice()
    }
}
