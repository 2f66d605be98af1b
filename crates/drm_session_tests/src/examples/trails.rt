//! The examples of `drm_trails`, made by `tools/doc_examples` of its doc comments.

use drm_table::{Answer, Call, Event};
use drm_trails::{
    Effect, Giving, HandleThen, Held, Key, LastPublishing, Link, Marks, Origin, Publishing, Source,
    Step, Trail, last_publishing, step_at,
};

#[test]
fn part_1(rt: HostRuntime) {
    let alloc = rt.alloc();
    let then = HandleThen {
        count: 4,
        client: 1,
        handle: 1,
        step: 2,
    };
    assert!(rt; then.step == 2);
    let call = Call::BufCreate { size: 4096 };
    let answer = Answer::Buffer {
        handle: 1,
        size: 4096,
    };
    let step = Step {
        event: Event::Ask(1, call),
        answer,
    };
    let Ok(trail) = Trail::new(alloc).push(step) else {
        panic!(rt; "refused")
    };
    let marks = Marks {
        steps: &[],
        kept: 4,
    };
    let Ok(found) = trail.chain_end_of(alloc, 1, 1, 1, marks) else {
        panic!(rt; "refused")
    };
    let Some(end) = found else {
        panic!(rt; "refused")
    };
    assert!(rt; end.left.is_none());
    let effect = Effect::Closes { client: 1 };
    assert!(rt; effect != Effect::Nothing);
    let held = Held { handle: 1, step: 2 };
    assert!(rt; held.handle == 1);
}

#[test]
fn part_2(rt: HostRuntime) {
    let alloc = rt.alloc();
    let call = Call::GemFlink { handle: 1 };
    let answer = Answer::Number { value: 5 };
    let step = Step {
        event: Event::Ask(1, call),
        answer,
    };
    let Ok(trail) = Trail::new(alloc).push(step) else {
        panic!(rt; "refused")
    };
    let found = last_publishing(trail.steps(), Key::Name(5));
    assert!(rt;
        found
            == Some(LastPublishing {
                past: 0,
                client: 1,
                handle: 1
            })
    );
    let step = Step {
        event: Event::Close(1),
        answer: Answer::Closed,
    };
    let Ok(trail) = Trail::new(alloc).push(step) else {
        panic!(rt; "refused")
    };
    assert!(rt; step_at(trail.steps(), 1).is_some());
    assert!(rt; step_at(trail.steps(), 2).is_none());
    let publishing = Publishing {
        key: Key::Name(5),
        client: 1,
        handle: 1,
    };
    assert!(rt; publishing.handle == 1);
}

#[test]
fn part_3(rt: HostRuntime) {
    let call = Call::BufCreate { size: 4096 };
    let answer = Answer::Buffer {
        handle: 1,
        size: 4096,
    };
    let step = Step {
        event: Event::Ask(1, call),
        answer,
    };
    assert!(rt;
        step.given()
            == Some(Giving {
                client: 1,
                handle: 1,
                source: Source::Creation
            })
    );
    let step = Step {
        event: Event::Close(1),
        answer: Answer::Closed,
    };
    assert!(rt; step.takes(1, 1) && !step.takes(2, 1));
}

#[test]
fn part_4(rt: HostRuntime) {
    let alloc = rt.alloc();
    let call = Call::BufCreate { size: 4096 };
    let answer = Answer::Buffer {
        handle: 1,
        size: 4096,
    };
    let step = Step {
        event: Event::Ask(1, call),
        answer,
    };
    let Ok(trail) = Trail::new(alloc).push(step) else {
        panic!(rt; "refused")
    };
    let marks = Marks {
        steps: &[],
        kept: 0,
    };
    let Ok(found) = trail.chain_end_of(alloc, 1, 1, 1, marks) else {
        panic!(rt; "refused")
    };
    let Some(end) = found else {
        panic!(rt; "refused")
    };
    let link = Link {
        step: 1,
        client: 1,
        handle: 1,
        origin: Origin::Made,
    };
    assert!(rt; end.links.as_slice() == [link].as_slice());
}
