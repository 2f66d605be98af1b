//! The answer of a line as text.

ghost use Rattle.std.specs.Prelude.{◌≡◌, ◌++◌, IfOk, OnOk};
ghost use Rattle.std.specs.Option.{option_map};
ghost use Rattle.std.specs.String.{string_bytes};
ghost use Rattle.drm_sentences.specs.Texts as texts;

use crate::sentences::{Page, sentences_of};
use drm_explanations::{At, Labels, Value, explain, put_form};
use drm_modes::Topology;
use drm_refusals::{AnswerRow, WrittenAnswer};
use drm_rights::Ledger;
use std::alloc::{AllocError, Global};

/// Returns the row with a sentence for each of its facts (own). The ledger, the topology and the labels must be those
/// of the row. Allocates the sentences.
///
/// # Errors
///
/// `AllocError` if memory is refused. The row is then dropped.
///
/// # Examples
///
/// ```rust
/// use drm_modes::Topology;
/// use drm_refusals::{Line, explain_answer};
/// use drm_rights::{Ledger, Step};
/// use drm_sentences::write_answer;
/// use drm_table::{Answer, Call, Event, Limits, Opening, Rule};
///
/// let alloc = rt.alloc();
/// let answer = Answer::Opened { client: 1 };
/// let opened = Step { event: Event::Open(Opening::Render), answer };
/// let Ok(ledger) = Ledger::new(alloc).note(opened) else { return };
/// let answer = Answer::Denied(Rule::NoHandleToClose);
/// let denied = Step { event: Event::Ask(1, Call::GemClose { handle: 5 }), answer };
/// let Ok(ledger) = ledger.note(denied) else { return };
/// let Some(topology) = Topology::new(2, &[1, 2], &[3, 2], &[5, 6]) else { return };
/// let mut labels = [0; 26];
/// labels[0] = 1;
/// let line = Line { number: 2, answer: String::new(alloc), apart: None };
/// let explained = explain_answer(alloc, &ledger, &topology, &labels, Limits::PROGRAM, line);
/// let Ok(row) = explained else { return };
/// let Ok(written) = write_answer(alloc, &ledger, &topology, &labels, row) else { return };
/// let Some(sentence) = written.facts.first() else { return };
/// assert!(rt; sentence.as_str() == "a does not hold handle 5: no step assigned it");
/// ```
pub fn write_answer(
    alloc: Global,
    ledger: &Ledger,
    topology: &Topology,
    labels: &Labels,
    row: AnswerRow,
) -> Result<WrittenAnswer, AllocError>
    ensures line { IfOk result (λ written. written.line ≡ row.line) }
    ensures asked { IfOk result (λ written. written.asked ≡ row.asked) }
    ensures label { IfOk result (λ written. written.label ≡ row.label) }
    ensures answer { IfOk result (λ written. written.answer ≡ row.answer) }
    ensures carried_out { IfOk result (λ written. written.is_carried_out ≡ row.is_carried_out) }
    ensures rule { IfOk result (λ written. written.rule ≡ row.rule) }
    ensures condition { IfOk result (λ written. written.passes_if ≡ row.passes_if) }
{
    let only = match row.asked {
        Some(asked) => asked.client,
        None => 0,
    };
    let explanation = explain(alloc, ledger, topology, labels, Some(only))?;
    let page = &Page {
        explanation: &explanation,
        topology,
        labels,
    };
    let AnswerRow {
        line,
        asked,
        label,
        answer,
        is_carried_out,
        rule,
        facts,
        passes_if,
    } = row;
    let sentences = sentences_of(alloc, page, &facts)?;
    Ok(WrittenAnswer {
        line,
        asked,
        label,
        answer,
        is_carried_out,
        rule,
        facts: sentences,
        passes_if,
    })
}

/// Writes the first line: the step of the line with its call and its caller, and the answer.
fn put_answer(row: &WrittenAnswer, labels: &Labels, text: &mut String) -> Result<(), AllocError> {
    put_form(labels, "line {}", &[Value::Number(row.line)], text)?;
    if let Some(At { step, client, call }) = row.asked {
        let form = match (call, client) {
            ("open", _) => " is step {}, {}",
            (_, 0) => " is step {}, {} by a label that names no client",
            _ => " is step {}, {} by {}",
        };
        let words = if call.is_empty() {
            "a call with an unknown number"
        } else {
            call
        };
        let values = [
            Value::Number(step),
            Value::Word(words),
            Value::Client(client),
        ];
        put_form(labels, form, &values, text)?;
    }
    if row.is_carried_out {
        text.push_str(", which was carried out")?;
    }
    text.push_str(": ")?;
    text.push_str(row.answer.as_str())?;
    text.push_str("\n")
}

/// Writes a line for each sentence.
fn put_sentences(sentences: &[String], text: &mut String) -> Result<(), AllocError>
    ensures { OnOk result (string_bytes text.new ≡ string_bytes text.old ++ texts.lines sentences.now) }
{
    for sentence in sentences {
        text.push_str(sentence.as_str())?;
        text.push_str("\n")?;
    }
    Ok(())
}

/// Writes the condition under which the rule would pass, if there is one.
fn put_condition(passes_if: Option<&'static str>, text: &mut String) -> Result<(), AllocError>
    ensures { OnOk result (string_bytes text.new ≡ string_bytes text.old ++ texts.condition_line (option_map (λ words. words.now) passes_if.entry)) }
{
    let Some(condition) = passes_if else {
        return Ok(());
    };
    writeln!(text, "it would pass if {condition}")
}

/// Returns the answer as lines: its step and its answer, the sentences of the facts, and the condition under which the
/// rule would pass (own). Allocates the text.
///
/// # Errors
///
/// `AllocError` if memory is refused.
///
/// # Examples
///
/// ```rust
/// use drm_refusals::WrittenAnswer;
/// use drm_sentences::lines_of_answer;
///
/// let alloc = rt.alloc();
/// let written = WrittenAnswer {
///     line: 1,
///     asked: None,
///     label: None,
///     answer: String::new(alloc),
///     is_carried_out: false,
///     rule: Some(51),
///     facts: Vec::new(alloc),
///     passes_if: Some("memory were available"),
/// };
/// let labels = [0; 26];
/// let Ok(text) = lines_of_answer(alloc, &written, &labels) else { return };
/// assert!(rt; text.as_str().contains("it would pass if memory were available"));
/// ```
pub fn lines_of_answer(
    alloc: Global,
    answer: &WrittenAnswer,
    labels: &Labels,
) -> Result<String, AllocError>
    ensures sentences { IfOk result (λ text. texts.EndsWith (texts.lines answer.now.facts.items ++ texts.condition_line (option_map (λ words. words.now) answer.now.passes_if)) (string_bytes text)) }
{
    let mut text = String::new(alloc);
    put_answer(answer, labels, &mut text)?;
    put_sentences(&answer.facts, &mut text)?;
    put_condition(answer.passes_if, &mut text)?;
    Ok(text)
}
