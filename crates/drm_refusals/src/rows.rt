//! The rows of an explained answer.

use crate::facts::Fact;
use drm_explanations::At;
use serde::Serialize;

/// The answer of a script's line, and the reason if it is a denial (own).
///
/// # Examples
///
/// ```rust
/// use drm_refusals::AnswerRow;
///
/// let alloc = rt.alloc();
/// let row = AnswerRow {
///     line: 1,
///     asked: None,
///     label: Some('a'),
///     answer: String::new(alloc),
///     is_carried_out: true,
///     rule: None,
///     facts: Vec::new(alloc),
///     passes_if: None,
/// };
/// assert!(rt; row.label == Some('a'));
/// ```
#[derive(Debug, Drop)]
pub struct AnswerRow {
    /// The line's number, from 1.
    pub line: u64,
    /// The line's step, with its caller. A fault outside the rules is no step.
    pub asked: Option<At>,
    /// The label of the caller.
    pub label: Option<char>,
    /// The line of its answer.
    pub answer: String,
    /// Whether the line was carried out.
    pub is_carried_out: bool,
    /// The number of the rule that failed, or of the fault.
    pub rule: Option<u32>,
    /// The facts that explain it.
    pub facts: Vec<Fact>,
    /// The condition under which the rule would pass.
    pub passes_if: Option<&'static str>,
}

/// An `AnswerRow` with a sentence for each fact (own).
#[derive(Debug, Drop, Serialize)]
pub struct WrittenAnswer {
    /// The line's number, from 1.
    pub line: u64,
    /// The line's step, with its caller. A fault outside the rules is no step.
    pub asked: Option<At>,
    /// The label of the caller.
    pub label: Option<char>,
    /// The line of its answer.
    pub answer: String,
    /// Whether the line was carried out.
    pub is_carried_out: bool,
    /// The number of the rule that failed, or of the fault.
    pub rule: Option<u32>,
    /// A sentence for each fact that explains it.
    pub facts: Vec<String>,
    /// The condition under which the rule would pass.
    pub passes_if: Option<&'static str>,
}
