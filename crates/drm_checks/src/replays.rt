//! The lines of a script up to one, run on a new device, with some of them left out.

ghost use Rattle.std.specs.Prelude.{◌≡◌, ◌++◌, ◌+◌, ◌<◌, ◌==◌, ◌||◌, OnOk, IfOk, IfErr};
ghost use Rattle.drm_runs.specs.Lines.{ended};
ghost use Rattle.drm_checks.specs.Updates.{with_answer};
ghost use Rattle.drm_checks.specs.Shrinking.{HasFault, IsReplay, keeps};
ghost use Rattle.drm_checks.specs.declared.replays.Kept.TheVariants as variants;

use crate::expectations::script_of;
use crate::faults::ShrinkFault;
use crate::update::{put_answered, use_line};
use drm_runs::{Interpreter, Setup};
use drm_script::first_line;
use drm_table::{Answer, Apart};
use std::alloc::{AllocError, Global};

/// The lines that were used, each with its answer.
#[derive(Drop)]
pub(crate) struct Replayed {
    /// The text of the lines with their answers.
    pub(crate) text: Vec<u8>,
    /// The number of used lines before the last one.
    pub(crate) count: u64,
    /// The answer of the last line.
    pub(crate) answer: Result<Answer, Apart>,
}

/// The lines that a replay keeps, of those before the last.
#[derive(Drop)]
pub(crate) enum Kept {
    /// All lines.
    All,
    /// Those whose place, from 0, is marked, and those without a mark.
    Marked(Vec<bool>),
    /// All but the line at this place, from 0.
    AllBut(u64),
}

/// Returns whether the line at this place, from 0, is kept.
fn is_kept(kept: &Kept, place: u64) -> bool
    ensures { result ≡ keeps kept.now place }
{
    match kept {
        Kept::All => true,
        Kept::Marked(marks) => match marks.get(place as usize) {
            Some(is_marked) => *is_marked,
            None => true,
        },
        Kept::AllBut(left_out) => place != *left_out,
    }
}

/// Returns whether the line at this place, from 0, is used: it is kept, or is the one with the number.
fn is_used(kept: &Kept, place: u64, number: u64) -> bool
    requires { place < 18446744073709551615 }
    ensures { result ≡ (place + 1 == number || keeps kept.now place) }
{
    place + 1 == number || is_kept(kept, place)
}

/// Appends the line of a script, with its answer if there is one.
fn put(
    text: &mut Vec<u8>,
    script: &[u8],
    came: &Option<Result<Answer, Apart>>,
) -> Result<(), AllocError>
    ensures { OnOk result (text.new.items ≡ text.old.items ++ ended (with_answer script.now came.now)) }
{
    match came {
        Some(answer) => put_answered(text, script, answer),
        None => {
            text.extend_from_slice(script)?;
            text.extend_from_slice(b"\n")
        }
    }
}

/// Runs the kept lines before the line with this number, from 1, and that line.
pub(crate) fn replay(
    alloc: Global,
    setup: &Setup,
    text: &[u8],
    number: u64,
    kept: &Kept,
) -> Result<Replayed, ShrinkFault>
    ensures replay { IfOk result (λ replay. IsReplay setup.now (keeps kept.now) text.now number replay.text.items replay.count replay.answer) }
    ensures few { IfOk result (λ replay. replay.count < number) }
    ensures whole { IfOk result (λ replay. kept.now ≡ variants.All → number ≡ replay.count + 1) }
    ensures fault { IfErr result (λ fault. HasFault setup.now (keeps kept.now) text.now number fault) }
{
    let mut interpreter = Interpreter::new(setup.clone()?);
    let mut written = Vec::new(alloc);
    let mut rest = text;
    let mut count = 0;
    let mut before = 0;
    'lines: while !rest.is_empty() {
        let (line, behind) = first_line(rest);
        let is_last = before + 1 == number;
        if is_used(kept, before, number) {
            let came = use_line(&mut interpreter, alloc, before + 1, line)?;
            put(&mut written, script_of(line), &came)?;
            if is_last {
                return match came {
                    Some(answer) => Ok(Replayed {
                        text: written,
                        count,
                        answer,
                    }),
                    None => Err(ShrinkFault::NoAnswer),
                };
            }
            count += 1;
        }
        before += 1;
        rest = behind;
    }
    Err(ShrinkFault::NoLine(before))
}
