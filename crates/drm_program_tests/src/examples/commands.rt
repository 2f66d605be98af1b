//! The examples of `drm_commands`, made by `tools/doc_examples` of its doc comments.

use drm_checks::Totals;
use drm_commands::{
    AskedDevice, Checking, Explaining, Fault, FaultLine, FilesRead, Outcome, Running, Shrinking,
    asked_limits, check, create_asked, explain_script, outcome_of, outcome_of_checks,
    outcome_of_fault, read_asked, run, shrink,
};
use drm_device::Limits;
use drm_runs::ScriptEnd;

#[test]
#[tactic(auto, unfolding(drm_table::specs::Limits::are_in_range))]
fn part_1(rt: HostRuntime) {
    let alloc = rt.alloc();
    let device = AskedDevice {
        topology: None,
        limits: None,
    };
    let checking = Checking {
        files: Vec::new(alloc),
        device,
    };
    assert!(rt; check(&rt, alloc, &checking).is_ok());
    assert!(rt; asked_limits(&rt, None) == Ok(Limits::PROGRAM));
    assert!(rt; asked_limits(&rt, Some("1 2 3")) == Err(Fault::CommandLine));
    let device = AskedDevice {
        topology: None,
        limits: None,
    };
    let Ok(text) = read_asked(&rt, device) else {
        panic!(rt; "refused")
    };
    assert!(rt; text.is_none());
    let device = AskedDevice {
        topology: None,
        limits: None,
    };
    let explaining = Explaining {
        path: "/dev/null",
        device,
        client: None,
        line: None,
        is_json: false,
    };
    assert!(rt; explain_script(&rt, alloc, explaining).is_ok());
    let read = FilesRead {
        topology: None,
        script: None,
    };
    let Ok(journal) = create_asked(&rt, Some("/dev/null"), read) else {
        panic!(rt; "refused")
    };
    assert!(rt; journal.is_some());
}

#[test]
fn part_2(rt: HostRuntime) {
    let alloc = rt.alloc();
    let outcome = Outcome {
        status: 0,
        line: FaultLine::empty(),
    };
    assert!(rt; outcome.line.as_str().is_empty());
    let outcome = outcome_of_fault(Fault::Write);
    assert!(rt; outcome.status == 1 && outcome.line.as_str() == "fault: write");
    let outcome = outcome_of(&ScriptEnd::Malformed(2));
    assert!(rt; outcome.status == 2);
    let outcome = outcome_of_checks(&Totals::new());
    assert!(rt; outcome.status == 0);
    let device = AskedDevice {
        topology: None,
        limits: None,
    };
    let running = Running {
        path: Some("/dev/null"),
        device,
        journal: None,
    };
    assert!(rt; run(&rt, alloc, running).is_ok());
    let device = AskedDevice {
        topology: None,
        limits: None,
    };
    let shrinking = Shrinking {
        path: "/dev/null",
        device,
        line: 1,
    };
    assert!(rt; shrink(&rt, alloc, shrinking).is_err());
}
