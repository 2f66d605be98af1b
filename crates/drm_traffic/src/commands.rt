//! The control lines, and their answers.

ghost use Rattle.std.specs.Prelude.{IfOk};
ghost use Rattle.drm_traffic.specs.Rules.{HasRange};

use crate::faults::{RuleCause, RuleFault, Wanted};
use crate::rules::{Rule, RuleKind, read_rule};
use drm_script::next_word;
use std::alloc::AllocError;
use std::io::Write;

/// The most bytes of a control line, without its end (own).
pub const MOST_BYTES: usize = 128;

/// What a control line asks for (own).
#[derive(Clone, Copy, Debug, PartialEq)]
pub enum Control {
    /// To make a rule.
    Add(Rule),
    /// To forget all rules.
    Clear,
    /// To list the rules.
    List,
}

/// Returns the first word of a text and the rest, or the fault that this is missing.
fn word_of(text: &[u8], wanted: Wanted) -> Result<(&[u8], &[u8]), RuleFault> {
    match next_word(text) {
        Some(found) => Ok(found),
        None => Err(RuleFault::lacks(wanted)),
    }
}

/// Returns a fault if a word is left.
fn end_of(text: &[u8]) -> Result<(), RuleFault> {
    match next_word(text) {
        Some((word, _)) => Err(RuleFault::of_word(word, RuleCause::ExtraWord)),
        None => Ok(()),
    }
}

/// Returns the rule of this kind that a text spells, which is one word.
fn rule_of(kind: RuleKind, text: &[u8], wanted: Wanted) -> Result<Control, RuleFault>
    ensures { IfOk result (λ control. HasRange control) }
{
    let (word, rest) = word_of(text, wanted)?;
    end_of(rest)?;
    Ok(Control::Add(read_rule(kind, word)?))
}

/// Returns what a control line asks for. The line is without its end. Does not allocate.
///
/// # Errors
///
/// A `RuleFault` with the word at fault.
///
/// # Examples
///
/// ```rust
/// use drm_traffic::{Break, Control, Rule, read_control};
///
/// let wanted = Control::Add(Rule::Break(Break { client: 2, nth: 1 }));
/// assert!(rt; read_control(b"break 2") == Ok(wanted));
/// ```
pub fn read_control(line: &[u8]) -> Result<Control, RuleFault>
    ensures in_range { IfOk result (λ control. HasRange control) }
{
    if line.len() > MOST_BYTES {
        return Err(RuleFault::too_long());
    }
    let (word, rest) = word_of(line, Wanted::Command)?;
    match word {
        b"fail" => rule_of(RuleKind::Fail, rest, Wanted::Call),
        b"stall" => rule_of(RuleKind::Stall, rest, Wanted::Call),
        b"break" => rule_of(RuleKind::Break, rest, Wanted::Client),
        b"clear" => {
            end_of(rest)?;
            Ok(Control::Clear)
        }
        b"list" => {
            end_of(rest)?;
            Ok(Control::List)
        }
        _ => Err(RuleFault::of_word(word, RuleCause::NoCommand)),
    }
}

/// Appends the answer to a control line that can't be used: `error: ` and the reason, with the end of the line.
/// Allocates what it appends.
///
/// # Errors
///
/// `AllocError` if memory is refused. The text may then end with a part of the answer.
///
/// # Examples
///
/// ```rust
/// use drm_traffic::{put_fault, read_control};
///
/// let Err(fault) = read_control(b"stop") else { return };
/// let mut text = Vec::new(rt.alloc());
/// let Ok(()) = put_fault(&mut text, &fault) else { return };
/// assert!(rt; text.starts_with(b"error: `stop` is no command"));
/// ```
pub fn put_fault(text: &mut Vec<u8>, fault: &RuleFault) -> Result<(), AllocError> {
    match write!(text, "error: {fault}\n") {
        Ok(()) => Ok(()),
        Err(_) => Err(AllocError),
    }
}

/// Appends the line of a rule.
pub(crate) fn put_rule(text: &mut Vec<u8>, rule: &Rule) -> Result<(), AllocError> {
    match write!(text, "{rule}\n") {
        Ok(()) => Ok(()),
        Err(_) => Err(AllocError),
    }
}
