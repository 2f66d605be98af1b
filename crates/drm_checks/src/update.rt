//! A script with the received answers in place of the expected ones.

ghost use Rattle.std.specs.Prelude.{◌≡◌, ◌++◌, Some, OnOk, IfOk, IfErr};
ghost use Rattle.std.specs.Option.{option_map};
ghost use Rattle.drm_runs.specs.Lines.{ended};
ghost use Rattle.drm_checks.specs.Updates.{HasFault, Updates, UsesLine, stays, updated_line, with_answer};
ghost use Rattle.drm_checks.specs.declared.update.UpdateFault.TheVariants as faults;

use crate::expectations::{ARROW, is_met, parts_of, script_of};
use drm_runs::{Interpreter, LineResult, Setup};
use drm_script::{Malformed, first_line, line_of};
use drm_table::{Answer, Apart};
use std::alloc::{AllocError, Global};

/// The most bytes of a line.
const LONGEST: usize = 255;

const LINE_END: &[u8] = b"\n";

/// The reason a script was not updated (own).
///
/// # Examples
///
/// ```rust
/// use drm_checks::{UpdateFault, update_script};
/// use drm_runs::Setup;
///
/// let alloc = rt.alloc();
/// let Err(fault) = update_script(alloc, Setup::usual(), b"opn a card\n") else { return };
/// assert!(rt; fault != UpdateFault::NoMemory);
/// ```
#[derive(Clone, Copy, Debug, PartialEq)]
pub enum UpdateFault {
    /// The line with this number, from 1, can't be used. The cause says why the text before its first ` -> ` is no line
    /// of a script, or that the whole line is too long.
    Malformed(u64, Malformed),
    /// Memory for the device or for the text was refused.
    NoMemory,
}

impl From<AllocError> for UpdateFault {
    ghost from_gives = { λ _ fault. fault ≡ faults.NoMemory };

    fn from(_error: AllocError) -> UpdateFault {
        UpdateFault::NoMemory
    }
}

/// Uses the script part of a line, and returns its answer, or `None` if the line has none (own).
///
/// `number` is the line's number, from 1. A line that creates the device allocates it.
///
/// # Errors
///
/// - `Malformed` if the line can't be used, with its number and the cause. The interpreter is unchanged.
/// - `NoMemory` if memory for the device is refused. No later line creates one.
pub fn use_line(
    interpreter: &mut Interpreter,
    alloc: Global,
    number: u64,
    line: &[u8],
) -> Result<Option<Result<Answer, Apart>>, UpdateFault>
    ensures { UsesLine interpreter.old interpreter.new number line.now result }
{
    if line.len() > LONGEST {
        return Err(UpdateFault::Malformed(number, Malformed::too_long()));
    }
    let mut outcome = Ok(Answer::Done);
    match interpreter.interpret(alloc, script_of(line), &mut outcome) {
        LineResult::Unanswered => Ok(None),
        LineResult::Answered => Ok(Some(outcome)),
        LineResult::Malformed(cause) => Err(UpdateFault::Malformed(number, cause)),
        LineResult::NoMemory => Err(UpdateFault::NoMemory),
    }
}

/// Returns whether a line with this expectation, or with none, is unchanged.
fn stays(expected: Option<&[u8]>, came: &Option<Result<Answer, Apart>>) -> bool
    ensures { result ≡ stays (option_map (λ e. e.now) expected.entry) came.now }
{
    match expected {
        Some(expected) => is_met(expected, came),
        None => true,
    }
}

/// Appends a line with its end.
fn put_line(updated: &mut Vec<u8>, line: &[u8]) -> Result<(), AllocError>
    ensures { OnOk result (updated.new.items ≡ updated.old.items ++ ended line.now) }
{
    updated.extend_from_slice(line)?;
    updated.extend_from_slice(LINE_END)
}

/// Appends the line of a script, ` -> ` and the answer to `updated`. If these have more than 255 bytes together, it
/// appends the line alone (own).
///
/// # Errors
///
/// `AllocError` if memory is refused. `updated` may then end with a part of the line.
pub fn put_answered(
    updated: &mut Vec<u8>,
    script: &[u8],
    answer: &Result<Answer, Apart>,
) -> Result<(), AllocError>
    ensures { OnOk result (updated.new.items ≡ updated.old.items ++ ended (with_answer script.now (Some answer.now))) }
{
    let line = line_of(answer);
    // the answer includes its line end
    if script.len() + ARROW.len() + line.as_bytes().len() > LONGEST + 1 {
        return put_line(updated, script);
    }
    updated.extend_from_slice(script)?;
    updated.extend_from_slice(ARROW)?;
    updated.extend_from_slice(line.as_bytes())
}

/// Appends a line, or the updated line if its expectation is not met.
fn put_updated(
    updated: &mut Vec<u8>,
    line: &[u8],
    came: &Option<Result<Answer, Apart>>,
) -> Result<(), AllocError>
    ensures { OnOk result (updated.new.items ≡ updated.old.items ++ ended (updated_line line.now came.now)) }
{
    let (script, expected) = parts_of(line);
    if stays(expected, came) {
        return put_line(updated, line);
    }
    match came {
        Some(answer) => put_answered(updated, script, answer),
        None => put_line(updated, script),
    }
}

/// Returns the text of a script with each answer that differs from the expected one in its place (own).
///
/// The device begins with this topology and these default limits. A line that expects nothing is unchanged, and so is
/// an expectation that is met. The expectation is removed if there is no answer, or if the line would have more than
/// 255 bytes with it. Each line of the text has an end, the last one too. Allocates the device and the text.
///
/// # Errors
///
/// - `Malformed` if a line can't be used, with its number and the cause.
/// - `NoMemory` if memory is refused.
///
/// There is no text then, and the device is dropped.
///
/// # Examples
///
/// ```rust
/// use drm_checks::update_script;
/// use drm_runs::Setup;
///
/// let alloc = rt.alloc();
/// let Ok(text) = update_script(alloc, Setup::usual(), b"open a card -> done\n") else { return };
/// assert!(rt; text.as_slice() == b"open a card -> client 1\n".as_slice());
/// ```
pub fn update_script(alloc: Global, setup: Setup, text: &[u8]) -> Result<Vec<u8>, UpdateFault>
    ensures updated { IfOk result (λ updated. Updates setup text.now updated.items) }
    ensures fault { IfErr result (λ fault. HasFault setup text.now fault) }
{
    let mut interpreter = Interpreter::new(setup);
    let mut updated = Vec::new(alloc);
    let mut rest = text;
    let mut number = 0;
    'lines: while !rest.is_empty() {
        number += 1;
        let (line, behind) = first_line(rest);
        let came = use_line(&mut interpreter, alloc, number, line)?;
        put_updated(&mut updated, line, &came)?;
        rest = behind;
    }
    Ok(updated)
}
