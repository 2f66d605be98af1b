//! The explanation of a line's answer.

ghost use Rattle.std.specs.Prelude.{◌≡◌, All, IfOk, None, Some, is_none};
ghost use Rattle.std.specs.Option.{option_map};
ghost use Rattle.drm_model.specs.Run.{DeviceValue, journaled_in, rows_of};
ghost use Rattle.drm_model.specs.Verdict.{verdict};
ghost use Rattle.drm_table.specs.Rules.{apart_number, rule_number};
ghost use Rattle.drm_table.specs.declared.events.Event.{Event};
ghost use Rattle.drm_table.specs.declared.rules.Rule.{Rule};
ghost use Rattle.drm_history.specs.History as past;
ghost use Rattle.drm_refusals.specs.Facts as facts;
ghost use Rattle.drm_refusals.specs.Kinds as kinds;
ghost use Rattle.drm_refusals.specs.Reports as reports;

use crate::context::Context;
use crate::denials::reasons;
use crate::remedies::{remedy, remedy_apart};
use crate::room::full_journal;
use crate::rows::AnswerRow;
use drm_explanations::{Labels, at, label_of};
use drm_modes::Topology;
use drm_rights::{Ledger, Step};
use drm_table::{Answer, Apart, Event, Limits};
use std::alloc::{AllocError, Global};

/// An answered line of a script (own).
#[derive(Debug, Drop)]
pub struct Line {
    /// The number of the line, from 1.
    pub number: u64,
    /// The line of its answer.
    pub answer: String,
    /// The fault, if the line made no step.
    pub apart: Option<Apart>,
}

/// Returns the label of the caller, or `None` if the step opens a client or no label names the caller.
fn label_of_caller(step: &Step, labels: &Labels) -> Option<char> {
    match &step.event {
        Event::Ask(client, _) | Event::Close(client) if *client != 0 => {
            label_of(labels, u64::from(*client))
        }
        _ => None,
    }
}

/// Returns the row of a fault.
fn apart_row(
    alloc: Global,
    context: Context<'_>,
    line: Line,
    apart: Apart,
) -> Result<AnswerRow, AllocError>
    ensures rule { IfOk result (λ row. row.rule ≡ Some (apart_number apart)) }
    ensures step { IfOk result (λ row. row.asked ≡ None) }
    ensures carried_out { IfOk result (λ row. row.is_carried_out ≡ is_none row.rule) }
    ensures line { IfOk result (λ row. row.line ≡ line.number) }
    ensures answer { IfOk result (λ row. row.answer ≡ line.answer) }
    ensures facts { IfOk result (λ row. All (facts.Holds context.entry.topology.now context.entry.limits context.entry.ledger.now) row.facts.items) }
{
    let found = match apart {
        Apart::JournalFull => full_journal(alloc, context)?,
        _ => Vec::new(alloc),
    };
    Ok(AnswerRow {
        line: line.number,
        asked: None,
        label: None,
        answer: line.answer,
        is_carried_out: false,
        rule: Some(apart.number()),
        facts: found,
        passes_if: Some(remedy_apart(apart)),
    })
}

/// Returns the row of the last step.
fn step_row(
    alloc: Global,
    context: Context<'_>,
    labels: &Labels,
    line: Line,
    step: &Step,
) -> Result<AnswerRow, AllocError>
    ensures rule { IfOk result (λ row. row.rule ≡ option_map rule_number (reports.denied_by step.now.answer)) }
    ensures step { IfOk result (λ row. option_map (λ told. told.step) row.asked ≡ reports.last_number context.entry.ledger.now) }
    ensures carried_out { IfOk result (λ row. row.is_carried_out ≡ is_none row.rule) }
    ensures line { IfOk result (λ row. row.line ≡ line.number) }
    ensures answer { IfOk result (λ row. row.answer ≡ line.answer) }
    ensures has { IfOk result (λ row. kinds.HasFor context.entry.topology.now context.entry.ledger.now step.now.event step.now.answer row.facts.items) }
    ensures facts { IfOk result (λ row. All (facts.Holds context.entry.topology.now context.entry.limits context.entry.ledger.now) row.facts.items) }
{
    let steps = context.ledger.steps();
    let mut row = AnswerRow {
        line: line.number,
        asked: at(steps, steps.len() as u64),
        label: label_of_caller(step, labels),
        answer: line.answer,
        is_carried_out: true,
        rule: None,
        facts: Vec::new(alloc),
        passes_if: None,
    };
    if let Answer::Denied(rule) = &step.answer {
        row.facts = reasons(alloc, context, &step.event, *rule)?;
        row.is_carried_out = false;
        row.rule = Some(rule.number());
        row.passes_if = Some(remedy(*rule));
    }
    Ok(row)
}

/// Returns the reason for the answer of a line (own).
///
/// For a denial it has the rule that failed, the facts of the history that made it fail, and the condition under which
/// it would pass. The line is the last step of the ledger, or a fault after all steps (`line.apart`). Allocates the
/// row.
///
/// # Errors
///
/// `AllocError` if memory is refused. There is no row then.
pub fn explain_answer(
    alloc: Global,
    ledger: &Ledger,
    topology: &Topology,
    labels: &Labels,
    limits: Limits,
    line: Line,
) -> Result<AnswerRow, AllocError>
    ensures rule { IfOk result (λ row. row.rule ≡ reports.rule_reported line.apart ledger.now) }
    ensures denial { IfOk result (λ row. (h : DeviceValue) (event : Event) (rule : Rule) → line.apart ≡ None → ledger.now ≡ past.history_of (journaled_in h event) → verdict (rows_of h) event ≡ Some rule → row.rule ≡ Some (rule_number rule)) }
    ensures step { IfOk result (λ row. option_map (λ told. told.step) row.asked ≡ reports.step_reported line.apart ledger.now) }
    ensures carried_out { IfOk result (λ row. row.is_carried_out ≡ is_none row.rule) }
    ensures line { IfOk result (λ row. row.line ≡ line.number) }
    ensures answer { IfOk result (λ row. row.answer ≡ line.answer) }
    ensures has { IfOk result (λ row. line.apart ≡ None → kinds.Has topology.now ledger.now row.facts.items) }
    ensures facts { IfOk result (λ row. All (facts.Holds topology.now limits ledger.now) row.facts.items) }
{
    let context = Context {
        ledger,
        topology,
        limits,
    };
    match line.apart {
        Some(apart) => apart_row(alloc, context, line, apart),
        None => match ledger.steps().last() {
            Some(step) => step_row(alloc, context, labels, line, step),
            None => apart_row(alloc, context, line, Apart::NoMemory),
        },
    }
}
