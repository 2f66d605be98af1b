//! The examples of `drm_sentences`, made by `tools/doc_examples` of its doc comments.

use drm_modes::Topology;
use drm_refusals::{Line, WrittenAnswer, explain_answer};
use drm_rights::{Ledger, Step};
use drm_sentences::{lines_of_answer, write_answer};
use drm_table::{Answer, Call, Event, Limits, Opening, Rule};

#[test]
fn part_1(rt: HostRuntime) {
    let alloc = rt.alloc();
    let answer = Answer::Opened { client: 1 };
    let opened = Step {
        event: Event::Open(Opening::Render),
        answer,
    };
    let Ok(ledger) = Ledger::new(alloc).note(opened) else {
        panic!(rt; "refused")
    };
    let answer = Answer::Denied(Rule::NoHandleToClose);
    let denied = Step {
        event: Event::Ask(1, Call::GemClose { handle: 5 }),
        answer,
    };
    let Ok(ledger) = ledger.note(denied) else {
        panic!(rt; "refused")
    };
    let Some(topology) = Topology::new(2, &[1, 2], &[3, 2], &[5, 6]) else {
        panic!(rt; "refused")
    };
    let mut labels = [0; 26];
    labels[0] = 1;
    let line = Line {
        number: 2,
        answer: String::new(alloc),
        apart: None,
    };
    let explained = explain_answer(alloc, &ledger, &topology, &labels, Limits::PROGRAM, line);
    let Ok(row) = explained else {
        panic!(rt; "refused")
    };
    let Ok(written) = write_answer(alloc, &ledger, &topology, &labels, row) else {
        panic!(rt; "refused")
    };
    let Some(sentence) = written.facts.first() else {
        panic!(rt; "refused")
    };
    assert!(rt; sentence.as_str() == "a does not hold handle 5: no step assigned it");
}

#[test]
fn part_2(rt: HostRuntime) {
    let alloc = rt.alloc();
    let written = WrittenAnswer {
        line: 1,
        asked: None,
        label: None,
        answer: String::new(alloc),
        is_carried_out: false,
        rule: Some(51),
        facts: Vec::new(alloc),
        passes_if: Some("memory were available"),
    };
    let labels = [0; 26];
    let Ok(text) = lines_of_answer(alloc, &written, &labels) else {
        panic!(rt; "refused")
    };
    assert!(rt;
        text.as_str()
            .contains("it would pass if memory were available")
    );
}
