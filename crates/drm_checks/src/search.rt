//! The search for a shorter script.

ghost use Rattle.std.specs.Prelude.{◌≡◌, ◌≤◌, ◌<◌, false, IfOk};

use crate::trials::{LineState, Trials, label_in};
use drm_runs::Setup;
use drm_script::Label;
use drm_table::{Answer, Apart};
use std::alloc::{AllocError, Global};

/// The lines that a search keeps.
#[derive(Drop)]
pub(crate) struct Found {
    /// Whether each line before the last one is kept.
    pub(crate) kept: Vec<bool>,
    /// The number of lines that were run.
    pub(crate) replayed: u64,
    /// Whether the search has ended before it ran the most lines. It then tried to leave out each kept line.
    pub(crate) is_minimal: bool,
}

/// Tries without the lines of all labels that meet a condition.
fn try_without_labels<F: Fn(Label) -> bool>(
    trials: &mut Trials<'_>,
    is_meant: F,
) -> Result<bool, AllocError>
    requires { F.IsAlwaysCallable is_meant }
{
    for (line, state) in trials.lines.iter().zip(trials.states.iter_mut()) {
        if let (Some(label), LineState::Kept) = (line.label, *state) {
            if is_meant(label) {
                *state = LineState::Tried;
            }
        }
    }
    trials.settle()
}

/// Leaves out all clients that the answer does not depend on: first all but the line's own, then one after the other.
fn leave_out_clients(trials: &mut Trials<'_>) -> Result<(), AllocError> {
    let own = label_in(trials.last);
    if try_without_labels(trials, |label| Some(label) != own)? {
        return Ok(());
    }
    for letter in b'a'..=b'z' {
        let one = Label::from_letter(letter);
        if one != own {
            try_without_labels(trials, |label| Some(label) == one)?;
        }
    }
    Ok(())
}

/// Tries without each run of kept lines of this size. The first run is shorter if the runs are shifted.
fn pass(trials: &mut Trials<'_>, size: usize, is_shifted: bool) -> Result<bool, AllocError>
    requires { 0 < size }
{
    let kept = trials.kept()?;
    let first = if is_shifted { size / 2 } else { 0 };
    let mut is_shorter = false;
    let runs = kept.as_slice().get(first..).unwrap_or(&[]);
    for run in runs.chunks(size) {
        if trials.try_without(run)? {
            is_shorter = true;
        }
    }
    Ok(is_shorter)
}

/// Tries without runs of lines, from all lines to single ones. Returns whether the script is shorter.
fn round(trials: &mut Trials<'_>, is_shifted: bool) -> Result<bool, AllocError> {
    let count = trials.kept()?.len();
    let mut is_shorter = false;
    for halvings in 0..usize::BITS {
        let size = count >> halvings;
        if size == 0 {
            break;
        }
        if pass(trials, size, is_shifted)? {
            is_shorter = true;
        }
    }
    Ok(is_shorter)
}

/// Makes rounds until one leaves out no line. Then no single line can be left out.
fn leave_out_lines(trials: &mut Trials<'_>) -> Result<(), AllocError> {
    for _ in 0..=trials.lines.len() {
        let is_shorter = round(trials, false)?;
        let is_shorter_yet = round(trials, true)?;
        if !is_shorter && !is_shorter_yet {
            break;
        }
    }
    Ok(())
}

/// Returns the lines before a line that its answer depends on, as far as `most` run lines show it.
pub(crate) fn search(
    alloc: Global,
    setup: &Setup,
    text: &[u8],
    number: u64,
    wanted: &Result<Answer, Apart>,
    most: u64,
) -> Result<Found, AllocError>
    ensures { IfOk result (λ found. found.is_minimal ≡ false → most ≤ found.replayed) }
{
    let mut trials = Trials::new(alloc, setup, text, number, wanted, most)?;
    leave_out_clients(&mut trials)?;
    leave_out_lines(&mut trials)?;
    let mut kept = Vec::new(alloc);
    for state in trials.states.iter() {
        kept.push(*state == LineState::Kept)?;
    }
    Ok(Found {
        kept,
        replayed: trials.replayed,
        is_minimal: trials.replayed < most,
    })
}
