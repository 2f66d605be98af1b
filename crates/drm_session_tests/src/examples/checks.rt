//! The examples of `drm_checks`, made by `tools/doc_examples` of its doc comments.

use drm_checks::{
    JournalWriter, Report, ShrinkFault, Totals, UpdateFault, check_on, first_difference, is_met,
    journal_of, parts_of, shrink_script, update_script,
};
use drm_device::Limits;
use drm_frames::{FromRead, ToWrite};
use drm_runs::{ScriptEnd, Setup, make_device};
use drm_table::{Answer, Event, Opening};

#[test]
fn part_1(rt: HostRuntime) {
    let alloc = rt.alloc();
    let report = Report {
        end: ScriptEnd::Done,
        passed: 0,
        failed: 0,
    };
    assert!(rt; report.expects_nothing() && report.failures() == 1);
    let mut source = FromRead::new(b"open a card -> client 1\n".as_slice());
    let mut sink = ToWrite::new(Vec::new(alloc));
    let setup = Setup::usual();
    let (report, cause) = check_on(alloc, setup, "a.script", "", &mut source, &mut sink, 1000);
    assert!(rt; report.passed == 1 && cause.is_none());
    assert!(rt; first_difference(b"open a card\n", b"open a card\n").is_none());
    assert!(rt; first_difference(b"open a card\nclose a", b"open a card\na version") == Some(2));
    let (script, expected) = parts_of(b"open a card -> client 1");
    assert!(rt; script == b"open a card".as_slice());
    let Some(expected) = expected else {
        panic!(rt; "refused")
    };
    assert!(rt; expected == b"client 1".as_slice());
    assert!(rt; is_met(b"done", &Some(Ok(Answer::Done))));
    assert!(rt; !is_met(b"done", &None));
    let Err(fault) = shrink_script(alloc, &Setup::usual(), b"open a card\n", 2, 1000) else {
        panic!(rt; "refused")
    };
    assert!(rt; fault == ShrinkFault::NoLine(1) || fault == ShrinkFault::NoMemory);
}

#[test]
#[tactic(auto, unfolding(drm_table::specs::Limits::are_in_range))]
fn part_2(rt: HostRuntime) {
    let alloc = rt.alloc();
    let Some(device) = make_device(alloc, Limits::PROGRAM) else {
        panic!(rt; "refused")
    };
    let events = [Event::Open(Opening::Render)];
    let Ok(journal) = journal_of(alloc, &events, Limits::PROGRAM, device) else {
        panic!(rt; "refused")
    };
    assert!(rt; journal.is_whole);
    let text = b"open a card\nopen b card\na get_magic\n";
    let Ok(shrunk) = shrink_script(alloc, &Setup::usual(), text, 3, 1000) else {
        panic!(rt; "refused")
    };
    assert!(rt; shrunk.lines == 2 && shrunk.is_minimal);
    assert!(rt;
        shrunk.text.as_slice() == b"open a card -> client 1\na get_magic -> number 1\n".as_slice()
    );
    let report = Report {
        end: ScriptEnd::Done,
        passed: 2,
        failed: 1,
    };
    let totals = Totals::new().add(&report);
    assert!(rt; totals.passed == 2 && totals.failed == 1);
    let Err(fault) = update_script(alloc, Setup::usual(), b"opn a card\n") else {
        panic!(rt; "refused")
    };
    assert!(rt; fault != UpdateFault::NoMemory);
    let Ok(text) = update_script(alloc, Setup::usual(), b"open a card -> done\n") else {
        panic!(rt; "refused")
    };
    assert!(rt; text.as_slice() == b"open a card -> client 1\n".as_slice());
}

#[test]
#[tactic(auto, unfolding(drm_table::specs::Limits::are_in_range))]
fn part_3(rt: HostRuntime) {
    let alloc = rt.alloc();
    let Some(device) = make_device(alloc, Limits::PROGRAM) else {
        panic!(rt; "refused")
    };
    let mut text = Vec::new(alloc);
    let Ok(mut writer) = JournalWriter::begin(alloc, Limits::PROGRAM, device, &mut text) else {
        panic!(rt; "refused")
    };
    text.clear();
    let Ok(()) = writer.write(&mut text, &Event::Open(Opening::Render)) else {
        panic!(rt; "refused")
    };
    assert!(rt; text.as_slice() == b"open a render -> client 1\n".as_slice());
}
