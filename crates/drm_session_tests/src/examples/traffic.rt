//! The examples of `drm_traffic`, made by `tools/doc_examples` of its doc comments.

use drm_device::{Device, Limits, Topology};
use drm_sessions::Class;
use drm_table::{CallKind, Event, Opening};
use drm_traffic::{
    Break, Calls, Control, Due, Fail, Palette, Plan, Rule, RuleCause, RuleKind, Stall, Tracer,
    Wanted, WatchedCall, put_fault, read_control, read_rule,
};
use std::time::Duration;

#[test]
fn part_1(rt: HostRuntime) {
    let alloc = rt.alloc();
    let wanted = Control::Add(Rule::Break(Break { client: 2, nth: 1 }));
    assert!(rt; read_control(b"break 2") == Ok(wanted));
    let Err(fault) = read_control(b"stop") else {
        panic!(rt; "refused")
    };
    let mut text = Vec::new(rt.alloc());
    let Ok(()) = put_fault(&mut text, &fault) else {
        panic!(rt; "refused")
    };
    assert!(rt; text.starts_with(b"error: `stop` is no command"));
    let Err(fault) = read_rule(RuleKind::Fail, b"create_dumb") else {
        panic!(rt; "refused")
    };
    assert!(rt; fault.cause == RuleCause::Lacks(Wanted::Memory));
    let Err(shown) = read_rule(RuleKind::Fail, b"version=memory") else {
        panic!(rt; "refused")
    };
    assert!(rt; shown.word.as_str() == "version");
    let Ok(plan) = Plan::new(alloc) else {
        panic!(rt; "refused")
    };
    assert!(rt; plan.due(&rt, &Event::Open(Opening::Render)) == Due::NOTHING);
    let Ok(slow) = Plan::new(alloc) else {
        panic!(rt; "refused")
    };
    let stall = Rule::Stall(Stall {
        calls: Calls::Openings,
        nth: 1,
        millis: 20,
    });
    assert!(rt; slow.add(&rt, stall).is_ok());
    assert!(rt; slow.due(&rt, &Event::Open(Opening::Render)).millis == Some(20));
}

#[test]
fn part_2(rt: HostRuntime) {
    let alloc = rt.alloc();
    let Ok(asked) = Plan::new(alloc) else {
        panic!(rt; "refused")
    };
    let mut text = Vec::new(alloc);
    let Ok(()) = asked.answer(&rt, b"break 3:2", &mut text) else {
        panic!(rt; "refused")
    };
    let Ok(()) = asked.answer(&rt, b"list", &mut text) else {
        panic!(rt; "refused")
    };
    assert!(rt; text.as_slice() == b"ok\nbreak 3:2\nok\n".as_slice());
    assert!(rt; Calls::of_word(b"open") == Some(Calls::Openings));
    assert!(rt; Calls::of_word(b"close").is_none());
    let refusal = Fail {
        calls: Calls::Openings,
        nth: 2,
    };
    assert!(rt; refusal.nth == 2);
    let rule = Rule::Break(Break { client: 3, nth: 9 });
    let Ok(text) = format!(in rt.alloc(); "{rule}") else {
        panic!(rt; "refused")
    };
    assert!(rt; text.as_str() == "break 3:9");
    let Ok(slow) = read_rule(RuleKind::Stall, b"setcrtc:2=500") else {
        panic!(rt; "refused")
    };
    let calls = Calls::OfKind(CallKind::SetCrtc);
    assert!(rt;
        slow == Rule::Stall(Stall {
            calls,
            nth: 2,
            millis: 500
        })
    );
}

#[test]
fn part_3(rt: HostRuntime) {
    let alloc = rt.alloc();
    let Some(topology) = Topology::new(2, &[1, 2], &[3, 2], &[5, 6]) else {
        panic!(rt; "refused")
    };
    let Ok(device) = Device::new(alloc, topology, Limits::PROGRAM) else {
        panic!(rt; "refused")
    };
    let mut tracer = Tracer::new(device, Palette::Plain);
    let mut text = Vec::new(alloc);
    let call = WatchedCall {
        since: Duration::from_millis(1_500),
        class: Class::Card,
        event: Event::Open(Opening::Render),
    };
    let Ok(()) = tracer.put_step(&mut text, &call) else {
        panic!(rt; "refused")
    };
    assert!(rt;
        text.as_slice() == b"    1.500000      1 card   open ? render -> client 1\n".as_slice()
    );
}
