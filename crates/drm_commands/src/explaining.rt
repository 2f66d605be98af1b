//! The command `drm_server explain`.

use crate::asked::Explaining;
use crate::checking::{INPUT, fault_of, open, tell_end};
use crate::devices::{TopologyText, asked_setup, asked_topology, read_asked};
use crate::faults::{Fault, FaultLine};
use crate::files::LoggedRead;
use crate::outcomes::{Outcome, outcome_by};
use crate::recording::{Recording, record};
use drm_explanations::{Labels, explain, lines_of};
use drm_frames::{FromRead, ToWrite, put_all};
use drm_refusals::explain_answer;
use drm_rights::Ledger;
use drm_runs::Stop;
use drm_script::Label;
use drm_sentences::{lines_of_answer, write_answer};
use drm_table::{Call, CallKind, Event};
use drm_traffic::PROGRAM;
use log::{Log, error};
use serde::Serialize;
use std::alloc::Global;
use std::io;
use std::rt::Files;

/// The most reads, and the most writes.
const MOST_TURNS: u64 = 1_000_000;

/// Returns the client with this label or this number.
fn client_of(labels: &Labels, word: &str) -> Option<u64> {
    match word.as_bytes() {
        [letter] if Label::from_letter(*letter).is_some() => {
            let label = Label::from_letter(*letter)?;
            Some(u64::from(labels[label.place()]))
        }
        _ => word.parse().ok(),
    }
}

/// Logs that a word names no client of the script.
fn no_client<R: Log>(rt: &R, path: &str, word: &str) -> Fault {
    error!(rt; target: PROGRAM, "{path}: no client has the label or number {word}");
    Fault::CommandLine
}

/// Returns a value as JSON, with a line end.
fn json_of<T: Serialize>(alloc: Global, value: &T) -> Result<String, Fault> {
    let Ok(mut text) = serde_json::to_string_pretty(alloc, value) else {
        return Err(Fault::Memory);
    };
    text.push('\n').map_err(|_| Fault::Memory)?;
    Ok(text)
}

/// Returns the text of an explanation.
fn text_of<R: Log>(
    rt: &R,
    alloc: Global,
    explaining: &Explaining<'_>,
    topology: Option<&TopologyText<'_>>,
    recording: &Recording,
) -> Result<String, Fault> {
    let topology = asked_topology(rt, topology)?;
    let labels = &recording.labels;
    let only = match explaining.client {
        None => None,
        Some(word) => match client_of(labels, word) {
            Some(client) => Some(client),
            None => return Err(no_client(rt, explaining.path, word)),
        },
    };
    let mut explanation = explain(alloc, &recording.ledger, &topology, labels, only).map_err(
        |_| Fault::Memory,
    )?;
    if let (Some(client), Some(word)) = (only, explaining.client) {
        if explanation.client(client).is_none() {
            return Err(no_client(rt, explaining.path, word));
        }
    }
    if explaining.is_json {
        if let Some(client) = only {
            explanation.retain_client(client);
        }
        return json_of(alloc, &explanation);
    }
    lines_of(alloc, &explanation, &topology, labels, only).map_err(|_| Fault::Memory)
}

/// Logs that a line can't be explained.
fn no_answer<R: Log>(rt: &R, path: &str, number: u64, lines: u64) -> Fault {
    if number == 0 || number > lines {
        error!(rt; target: PROGRAM, "{path}: there is no line {number}: the script has {lines} lines");
    } else {
        error!(rt; target: PROGRAM, "{path}: line {number} makes no request");
    }
    Fault::CommandLine
}

/// Returns whether the last step may be that of another request. A journal has `raw 198` in place of a lease of ids that no
/// device has, if its line would be too long.
fn may_be_another(ledger: &Ledger) -> bool {
    let Some(step) = ledger.steps().last() else {
        return false;
    };
    match &step.event {
        Event::Ask(_, Call::BadLayout(number)) => *number == CallKind::CreateLease.number(),
        _ => false,
    }
}

/// Returns the text that explains the answer of one line.
fn text_of_answer<R: Log>(
    rt: &R,
    alloc: Global,
    explaining: &Explaining<'_>,
    topology: Option<&TopologyText<'_>>,
    number: u64,
    recording: Recording,
) -> Result<String, Fault> {
    let Recording {
        ledger,
        labels,
        limits,
        lines,
        last,
    } = recording;
    let Some(line) = last else {
        return Err(no_answer(rt, explaining.path, number, lines));
    };
    if line.apart.is_none() && may_be_another(&ledger) {
        let path = explaining.path;
        error!(rt; target: PROGRAM, "{path}: line {number} can't be explained: a journal has it for a create_lease that is too long for a line, too");
        return Err(Fault::CommandLine);
    }
    let topology = asked_topology(rt, topology)?;
    let row = match explain_answer(alloc, &ledger, &topology, &labels, limits, line) {
        Ok(row) => row,
        Err(_) => return Err(Fault::Memory),
    };
    let answer = match write_answer(alloc, &ledger, &topology, &labels, row) {
        Ok(answer) => answer,
        Err(_) => return Err(Fault::Memory),
    };
    if explaining.is_json {
        return json_of(alloc, &answer);
    }
    lines_of_answer(alloc, &answer, &labels).map_err(|_| Fault::Memory)
}

/// Records the script of a file, or of standard input.
fn record_asked<R: Input + Files + AllocGlobal + Log>(
    rt: &R,
    alloc: Global,
    explaining: &Explaining<'_>,
    topology: Option<&TopologyText<'_>>,
) -> Result<Result<Recording, Stop>, Fault> {
    let Explaining { path, line, .. } = *explaining;
    let setup = asked_setup(rt, explaining.device.limits, topology)?;
    if path == INPUT {
        let mut source = FromRead::new(LoggedRead::new(rt, path, rt.reader()));
        return Ok(record(alloc, setup, &mut source, MOST_TURNS, line));
    }
    let mut source = open(rt, path)?;
    Ok(record(alloc, setup, &mut source, MOST_TURNS, line))
}

/// Explains the rights of a script's clients, or the answer of one of its lines, on standard output (own). Returns the
/// outcome of the program. Allocates the device and the explanation.
///
/// If a line is malformed, it is printed as by a check, and the status is 2.
///
/// # Errors
///
/// A fault of the script, of what is asked for, or of standard output. `Fault::CommandLine` and `Fault::Read` are logged.
///
/// # Examples
///
/// ```rust
/// use drm_commands::{AskedDevice, Explaining, explain_script};
///
/// let alloc = rt.alloc();
/// let device = AskedDevice { topology: None, limits: None };
/// let explaining = Explaining {
///     path: "/dev/null",
///     device,
///     client: None,
///     line: None,
///     is_json: false,
/// };
/// assert!(rt; explain_script(&rt, alloc, explaining).is_ok());
/// ```
pub fn explain_script<R: Input + Files + Print + AllocGlobal + Log>(
    rt: &R,
    alloc: Global,
    explaining: Explaining<'_>,
) -> Result<Outcome, Fault> {
    let topology = read_asked(rt, explaining.device)?;
    let topology = topology.as_ref();
    let recording = match record_asked(rt, alloc, &explaining, topology)? {
        Ok(recording) => recording,
        Err(stop) => {
            tell_end(rt, explaining.path, &stop.end(), stop.cause())?;
            let line = FaultLine::empty();
            return Ok(Outcome { status: 2, line });
        }
    };
    let text = match explaining.line {
        Some(number) => text_of_answer(rt, alloc, &explaining, topology, number, recording)?,
        None => text_of(rt, alloc, &explaining, topology, &recording)?,
    };
    let mut sink = ToWrite::new(io::writer(rt));
    let mut turns = MOST_TURNS;
    fault_of(put_all(&mut sink, text.as_str().as_bytes(), &mut turns))?;
    Ok(outcome_by(None))
}
