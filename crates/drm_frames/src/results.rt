//! The result of a frame.
ghost use Rattle.std.specs.Prelude.{◌≡◌};
ghost use Rattle.drm_frames.specs.Answers.{answer_in, audit_in, denied_in, list_in, refused_in, resources_in, row_in};

use crate::fields::read_numbers;
use crate::frame::Frame;
use crate::lists::{behind_list, front_list};
use crate::number::u32_in;
use crate::pages::page_of;
use crate::refusals::{apart_of, rule_of};
use drm_table::{Answer, AnswerKind, Apart, Fields};

/// The most rows of an audit's page (own).
const MOST_ROWS: usize = 16;

/// Returns the answer of a kind, if the bytes are its fields.
fn row(kind: AnswerKind, bytes: &[u8]) -> Option<Result<Answer, Apart>>
    ensures { result ≡ row_in kind bytes.now }
{
    let mut fields: Fields<5> = Fields::new();
    if !read_numbers(&mut fields, kind.widths(), bytes) {
        return None;
    }
    let answer = kind.answer(fields.as_slice())?;
    Some(Ok(answer))
}

fn resources(fields: &[u8]) -> Option<Result<Answer, Apart>>
    ensures { result ≡ resources_in fields.now }
{
    let second = behind_list(fields)?;
    let third = behind_list(second)?;
    let fourth = behind_list(third)?;
    let behind = behind_list(fourth)?;
    if !behind.is_empty() {
        return None;
    }
    Some(Ok(Answer::Resources {
        crtcs: front_list(fields),
        connectors: front_list(second),
        encoders: front_list(third),
        framebuffers: front_list(fourth),
    }))
}

fn list(fields: &[u8]) -> Option<Result<Answer, Apart>>
    ensures { result ≡ list_in fields.now }
{
    if !behind_list(fields)?.is_empty() {
        return None;
    }
    Some(Ok(Answer::List {
        list: front_list(fields),
    }))
}

fn audit(fields: &[u8]) -> Option<Result<Answer, Apart>>
    ensures { result ≡ audit_in fields.now }
{
    if fields.len() < 4 {
        return None;
    }
    let count = u32_in(fields) as usize;
    if count > MOST_ROWS || fields.len() != 4 + 32 * count {
        return None;
    }
    let (_, rows) = fields.split_at(4);
    Some(Ok(Answer::Audit {
        page: page_of(count, rows),
    }))
}

fn denied(fields: &[u8]) -> Option<Result<Answer, Apart>>
    ensures { result ≡ denied_in fields.now }
{
    if fields.len() != 8 {
        return None;
    }
    let (_, errno) = fields.split_at(4);
    match rule_of(u32_in(fields), u32_in(errno)) {
        Some(rule) => Some(Ok(Answer::Denied(rule))),
        None => None,
    }
}

fn refused(fields: &[u8]) -> Option<Result<Answer, Apart>>
    ensures { result ≡ refused_in fields.now }
{
    if fields.len() != 8 {
        return None;
    }
    let (_, errno) = fields.split_at(4);
    match apart_of(u32_in(fields), u32_in(errno)) {
        Some(apart) => Some(Err(apart)),
        None => None,
    }
}

/// Returns the result in a frame (own), or `None` if there is none. Does not allocate.
///
/// There is none in these cases:
///
/// - Number or fields are not those of a result.
/// - A list has more than 64 ids, or a page more than 16 rows.
/// - No rule has the number, or the errno is not the rule's own.
///
/// # Examples
///
/// ```rust
/// use drm_frames::{Frame, answer_of};
/// use drm_table::Answer;
///
/// assert!(rt; answer_of(&Frame::new(0x1000, &[])) == Some(Ok(Answer::Done)));
/// assert!(rt; answer_of(&Frame::new(0x02, &[])).is_none());
/// ```
#[tactic(auto, unfolding(crate::specs::Answers::answer_in))]
pub fn answer_of(frame: &Frame<'_>) -> Option<Result<Answer, Apart>>
    ensures { result ≡ answer_in frame.now }
{
    let fields = frame.fields();
    if let Some(kind) = AnswerKind::of_number(frame.number()) {
        return row(kind, fields);
    }
    match frame.number() {
        0x1006 => resources(fields),
        0x1007 => list(fields),
        0x100B => audit(fields),
        0x2000 => denied(fields),
        0x2001 => refused(fields),
        _ => None,
    }
}
