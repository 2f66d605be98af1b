//! Making a script shorter.

ghost use Rattle.std.specs.Prelude.{◌≡◌, ◌⊎◌, ℕ, ◌+◌, ◌<◌, ◌≤◌, true, false, IfOk, IfErr};
ghost use Rattle.drm_checks.specs.Shrinking.{HasShrinkFault, HasSpare, IsNeeded, IsSpare, NeedsEach, Shrinks};

use crate::faults::ShrinkFault;
use crate::replays::{Kept, replay};
use crate::search::search;
use crate::trials::is_same;
use drm_runs::Setup;
use drm_table::{Answer, Apart};
use std::alloc::{AllocError, Global};

/// A script that was made shorter (own).
///
/// # Examples
///
/// ```rust
/// use drm_runs::Setup;
/// use drm_checks::shrink_script;
///
/// let alloc = rt.alloc();
/// let text = b"open a card\nopen b card\na get_magic\n";
/// let Ok(shrunk) = shrink_script(alloc, &Setup::usual(), text, 3, 1000) else { return };
/// assert!(rt; shrunk.lines == 2 && shrunk.is_minimal);
/// assert!(rt; shrunk.text.as_slice() == b"open a card -> client 1\na get_magic -> number 1\n".as_slice());
/// ```
#[derive(Drop)]
pub struct Shrunk {
    /// The lines that are left, each with its answer after ` -> `.
    pub text: Vec<u8>,
    /// The number of these lines.
    pub lines: u64,
    /// The number of lines that were run to find them.
    pub replayed: u64,
    /// Whether each line is needed: without any one of them, the last line is not answered the same. If not, the search
    /// ran `most` lines, or it missed a line.
    pub is_minimal: bool,
}

/// Returns whether the line with this number, from 1, has another answer than this without the line at a place, from 0,
/// or can't be answered.
fn is_needed(
    alloc: Global,
    setup: &Setup,
    text: &[u8],
    number: u64,
    answer: &Result<Answer, Apart>,
    place: u64,
) -> Result<bool, AllocError>
    ensures needed { IfOk result (λ is_needed. is_needed ≡ true → IsNeeded setup.now text.now number answer.now place) }
    ensures spare { IfOk result (λ is_needed. is_needed ≡ false → IsSpare setup.now text.now number answer.now place) }
{
    match replay(alloc, setup, text, number, &Kept::AllBut(place)) {
        Ok(without) => Ok(!is_same(&without.answer, answer)),
        Err(ShrinkFault::NoMemory) => Err(AllocError),
        Err(ShrinkFault::NoLine(_)) => Ok(true),
        Err(ShrinkFault::NoAnswer) => Ok(true),
        Err(ShrinkFault::Malformed(_, _)) => Ok(true),
    }
}

/// Returns whether each line before the one with this number is needed for its answer.
fn needs_each(
    alloc: Global,
    setup: &Setup,
    text: &[u8],
    number: u64,
    answer: &Result<Answer, Apart>,
) -> Result<bool, AllocError>
    requires { 0 < number }
    ensures needed { IfOk result (λ needs_each. needs_each ≡ true → (place : ℕ) → place + 1 < number → IsNeeded setup.now text.now number answer.now place) }
    ensures spare { IfOk result (λ needs_each. needs_each ≡ false → (place : ℕ) × (place + 1 < number) × IsSpare setup.now text.now number answer.now place) }
{
    for place in 0..number - 1 {
        if !is_needed(alloc, setup, text, number, answer, place)? {
            return Ok(false);
        }
    }
    Ok(true)
}

/// Makes a script shorter while its line with this number, from 1, is answered the same (own).
///
/// The lines after it are left out, and of those before it whole clients, runs of lines and single lines, as long as the
/// answer stays. The device begins with this topology and these default limits. Expected answers are ignored. The same
/// text leads to the same result. The search ends once it has run `most` lines, or a few more, and returns the script that
/// it has then. Allocates the texts and a device for each trial.
///
/// # Errors
///
/// - `NoLine` if no line has this number, with the number of lines.
/// - `NoAnswer` if the line is empty, a comment, or sets limits.
/// - `Malformed` if a line up to this one can't be used, with its number and the cause.
/// - `NoMemory` if memory is refused.
pub fn shrink_script(
    alloc: Global,
    setup: &Setup,
    text: &[u8],
    number: u64,
    most: u64,
) -> Result<Shrunk, ShrinkFault>
    ensures shrunk { IfOk result (λ shrunk. Shrinks setup.now text.now number shrunk.text.items shrunk.lines) }
    ensures minimal { IfOk result (λ shrunk. shrunk.is_minimal ≡ true → NeedsEach setup.now text.now number shrunk.text.items shrunk.lines) }
    ensures ended { IfOk result (λ shrunk. shrunk.is_minimal ≡ false → (most ≤ shrunk.replayed) ⊎ HasSpare setup.now text.now number shrunk.text.items shrunk.lines) }
    ensures fault { IfErr result (λ fault. HasShrinkFault setup.now text.now number fault) }
{
    let whole = replay(alloc, setup, text, number, &Kept::All)?;
    let found = search(alloc, setup, text, number, &whole.answer, most)?;
    let kept = replay(alloc, setup, text, number, &Kept::Marked(found.kept))?;
    if !is_same(&kept.answer, &whole.answer) {
        return Err(ShrinkFault::NoMemory);
    }
    let lines = kept.count + 1;
    let is_minimal = found.is_minimal
        && needs_each(alloc, setup, kept.text.as_slice(), lines, &whole.answer)?;
    Ok(Shrunk {
        text: kept.text,
        lines,
        replayed: found.replayed,
        is_minimal,
    })
}
