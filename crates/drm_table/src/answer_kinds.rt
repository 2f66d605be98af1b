//! The table of answers.

ghost use Rattle.std.specs.Prelude.{◌≡◌, ◌≤◌, length, true};
ghost use Rattle.drm_table.specs.Answers.Told.{row as ToldFields};
ghost use Rattle.drm_table.specs.Answers.{answer_kind_of, answer_number, answer_widths, answer_with, answer_word, answer_kind_row, is_mode_answer, mode_answer, plain_answer, told, told_of};

use crate::answers::Answer;
use crate::audits::AuditPage;
use crate::fields::Field::{self, U32, U64};
use crate::fields::{Fields, Width};
use crate::lists::ShownList;
use crate::rules::Rule;

/// A row of the table of answers: an answer whose number of fields is fixed (own).
#[derive(Clone, Copy, PartialEq, Debug)]
pub enum AnswerKind {
    Done,
    Opened,
    Version,
    Number,
    Dumb,
    Buffer,
    Plane,
    Framebuffer,
    Lease,
    Closed,
}

/// The content of an answer.
///
/// # Examples
///
/// ```rust
/// use drm_table::{Answer, AnswerKind, Told};
///
/// let answer = Answer::Number { value: 7 };
/// assert!(rt; matches!(answer.told(), Told::Fields(AnswerKind::Number, _)));
/// ```
#[derive(Drop)]
pub enum Told<'a> {
    /// A fixed number of fields.
    Fields(AnswerKind, Fields<5>),
    /// The ids of CRTCs, connectors, encoders and framebuffers, each list in rising order.
    Resources {
        crtcs: &'a ShownList,
        connectors: &'a ShownList,
        encoders: &'a ShownList,
        framebuffers: &'a ShownList,
    },
    /// Ids or handles, in rising order.
    List(&'a ShownList),
    /// Rows of an audit, 16 at most.
    Page(&'a AuditPage),
    /// The first rule that fails.
    Denial(Rule),
}

/// The number, the word and the field widths of an answer.
#[derive(Clone, Copy)]
struct AnswerRow {
    number: u16,
    word: &'static str,
    widths: &'static [Width],
}

fn row(number: u16, word: &'static str, widths: &'static [Width]) -> AnswerRow
    ensures number { result.number ≡ number }
    ensures word { result.word.now ≡ word.now }
    ensures widths { result.widths.now ≡ widths.now }
{
    AnswerRow {
        number,
        word,
        widths,
    }
}

impl AnswerKind {
    /// All kinds, in rising order of their numbers.
    pub const ALL: [AnswerKind; 10] = [
        AnswerKind::Done,
        AnswerKind::Opened,
        AnswerKind::Version,
        AnswerKind::Number,
        AnswerKind::Dumb,
        AnswerKind::Buffer,
        AnswerKind::Plane,
        AnswerKind::Framebuffer,
        AnswerKind::Lease,
        AnswerKind::Closed,
    ];

    // Returns the row: a line for each answer (own).
    #[tactic(auto, unfolding(crate::specs::Answers::answer_kind_row))]
    fn row(self) -> AnswerRow
        ensures number { result.number ≡ (answer_kind_row self).number }
        ensures word { result.word.now ≡ (answer_kind_row self).word }
        ensures short { length result.word.now ≤ 16 }
        ensures widths { result.widths.now ≡ (answer_kind_row self).widths }
        ensures few { length result.widths.now ≤ 5 }
    {
        match self {
            AnswerKind::Done => row(0x1000, "done", &[]),
            AnswerKind::Opened => row(0x1001, "client", &[Width::U32]),
            AnswerKind::Version => row(0x1002, "version", &[Width::U32, Width::U32, Width::U32]),
            AnswerKind::Number => row(0x1003, "number", &[Width::U64]),
            AnswerKind::Dumb => row(0x1004, "dumb", &[Width::U32, Width::U32, Width::U64]),
            AnswerKind::Buffer => row(0x1005, "buffer", &[Width::U32, Width::U64]),
            AnswerKind::Plane => row(0x1008, "plane", &[Width::U32, Width::U32]),
            AnswerKind::Framebuffer => row(
                0x1009,
                "framebuffer",
                &[Width::U32, Width::U32, Width::U32, Width::U32, Width::U32],
            ),
            AnswerKind::Lease => row(0x100A, "lease", &[Width::U32, Width::U32]),
            AnswerKind::Closed => row(0x100C, "closed", &[]),
        }
    }

    /// Returns the number of the answer's frame, 0x1000 to 0x100C (own).
    pub fn number(self) -> u16
        ensures { result ≡ answer_number self }
    {
        self.row().number
    }

    /// Returns the first word of the answer's line, 16 bytes at most (own).
    pub fn word(self) -> &'static str
        ensures word { result.now ≡ answer_word self }
        ensures short { length result.now ≤ 16 }
    {
        self.row().word
    }

    /// Returns the widths of the fields, 5 at most (own).
    pub fn widths(self) -> &'static [Width]
        ensures widths { result.now ≡ answer_widths self }
        ensures few { length result.now ≤ 5 }
    {
        self.row().widths
    }

    /// Returns the kind with this number, or `None` if no row has it.
    #[tactic(auto, unfolding(crate::specs::Answers::answer_kind_of))]
    pub fn of_number(number: u16) -> Option<AnswerKind>
        ensures { result ≡ answer_kind_of number }
    {
        AnswerKind::ALL
            .iter()
            .copied()
            .find(|kind| kind.number() == number)
    }

    // Returns the answer of a mode setting or lease call that has these fields.
    fn mode_answer(self, fields: &[Field]) -> Option<Answer>
        ensures { result ≡ mode_answer self fields.now }
    {
        Some(match (self, fields) {
            (AnswerKind::Plane, &[U32(framebuffer), U32(mask)]) => Answer::Plane {
                framebuffer,
                mask,
            },
            (
                AnswerKind::Framebuffer,
                &[U32(width), U32(height), U32(pitch), U32(bpp), U32(handle)],
            ) => Answer::Framebuffer {
                width,
                height,
                pitch,
                bpp,
                handle,
            },
            (AnswerKind::Lease, &[U32(id), U32(token)]) => Answer::Lease { id, token },
            _ => return None,
        })
    }

    // Returns the answer of any other call, of an opening or of a closing that has these fields.
    fn plain_answer(self, fields: &[Field]) -> Option<Answer>
        ensures { result ≡ plain_answer self fields.now }
    {
        Some(match (self, fields) {
            (AnswerKind::Done, []) => Answer::Done,
            (AnswerKind::Opened, &[U32(client)]) => Answer::Opened { client },
            (AnswerKind::Version, &[U32(major), U32(minor), U32(patch)]) => Answer::Version {
                major,
                minor,
                patch,
            },
            (AnswerKind::Number, &[U64(value)]) => Answer::Number { value },
            (AnswerKind::Dumb, &[U32(handle), U32(pitch), U64(size)]) => Answer::Dumb {
                handle,
                pitch,
                size,
            },
            (AnswerKind::Buffer, &[U32(handle), U64(size)]) => Answer::Buffer { handle, size },
            (AnswerKind::Closed, []) => Answer::Closed,
            _ => return None,
        })
    }

    /// Returns the answer of this kind with these fields.
    /// Returns `None` if number or widths of the fields differ from those of the kind.
    #[tactic(auto, unfolding(crate::specs::Answers::answer_with))]
    pub fn answer(self, fields: &[Field]) -> Option<Answer>
        ensures { result ≡ answer_with self fields.now }
    {
        self.plain_answer(fields)
            .or_else(|| self.mode_answer(fields))
    }
}

/// Returns the content of an answer with these fields.
fn row_told(kind: AnswerKind, fields: &[Field]) -> Told<'static>
    requires { length fields.now ≤ 5 }
    ensures { told_of result ≡ ToldFields kind fields.now }
{
    Told::Fields(kind, Fields::of(fields))
}

impl Answer {
    // Returns the content of an answer of a mode setting or lease call.
    #[tactic(auto, unfolding(crate::specs::Answers::told))]
    fn mode_told(&self) -> Told<'_>
        requires { is_mode_answer self.now ≡ true }
        ensures { told_of result ≡ told self.now }
    {
        match self {
            Answer::Resources {
                crtcs,
                connectors,
                encoders,
                framebuffers,
            } => Told::Resources {
                crtcs,
                connectors,
                encoders,
                framebuffers,
            },
            Answer::Plane { framebuffer, mask } => row_told(
                AnswerKind::Plane,
                &[U32(*framebuffer), U32(*mask)],
            ),
            Answer::Framebuffer {
                width,
                height,
                pitch,
                bpp,
                handle,
            } => row_told(
                AnswerKind::Framebuffer,
                &[
                    U32(*width),
                    U32(*height),
                    U32(*pitch),
                    U32(*bpp),
                    U32(*handle),
                ],
            ),
            Answer::Lease { id, token } => row_told(AnswerKind::Lease, &[U32(*id), U32(*token)]),
            _ => unreachable!(),
        }
    }

    /// Returns the content of the answer, with its fields in order.
    #[tactic(auto, unfolding(crate::specs::Answers::told))]
    pub fn told(&self) -> Told<'_>
        ensures { told_of result ≡ told self.now }
    {
        match self {
            Answer::Done => row_told(AnswerKind::Done, &[]),
            Answer::Opened { client } => row_told(AnswerKind::Opened, &[U32(*client)]),
            Answer::Version {
                major,
                minor,
                patch,
            } => row_told(
                AnswerKind::Version,
                &[U32(*major), U32(*minor), U32(*patch)],
            ),
            Answer::Number { value } => row_told(AnswerKind::Number, &[U64(*value)]),
            Answer::Dumb {
                handle,
                pitch,
                size,
            } => row_told(AnswerKind::Dumb, &[U32(*handle), U32(*pitch), U64(*size)]),
            Answer::Buffer { handle, size } => row_told(
                AnswerKind::Buffer,
                &[U32(*handle), U64(*size)],
            ),
            Answer::List { list } => Told::List(list),
            Answer::Audit { page } => Told::Page(page),
            Answer::Closed => row_told(AnswerKind::Closed, &[]),
            Answer::Denied(rule) => Told::Denial(*rule),
            _ => self.mode_told(),
        }
    }
}
