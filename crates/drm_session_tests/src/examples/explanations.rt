//! The examples of `drm_explanations`, made by `tools/doc_examples` of its doc comments.

use drm_explanations::{
    At, Authenticated, AuthenticatedBy, DeviceRow, FrontRow, HandleRow, LeaseRow, LinkRow, Node,
    PublishedBy, PublishedRow, StandingRow, Subject, Value, explain, lines_of, put_form,
};
use drm_modes::Topology;
use drm_rights::{Ledger, Step};
use drm_table::{Answer, Event, Opening};

#[test]
fn part_1(rt: HostRuntime) {
    let alloc = rt.alloc();
    let mut text = String::new(rt.alloc());
    let values = [Value::Client(1), Value::Number(2)];
    let put = put_form(&[0; 26], "{} closed at step {}", &values, &mut text);
    assert!(rt; put.is_ok() && text.as_str() == "client 1 closed at step 2");
    let answer = Answer::Opened { client: 1 };
    let opened = Step {
        event: Event::Open(Opening::Render),
        answer,
    };
    let Ok(ledger) = Ledger::new(alloc).note(opened) else {
        panic!(rt; "refused")
    };
    let Some(topology) = Topology::new(2, &[1, 2], &[3, 2], &[5, 6]) else {
        panic!(rt; "refused")
    };
    let mut labels = [0; 26];
    labels[0] = 1;
    let Ok(explanation) = explain(alloc, &ledger, &topology, &labels, None) else {
        panic!(rt; "refused")
    };
    let Ok(text) = lines_of(alloc, &explanation, &topology, &labels, None) else {
        panic!(rt; "refused")
    };
    assert!(rt;
        text.as_str()
            .contains("a is client 1: a render client, opened at step 1")
    );
    let subject = Subject::Client(1);
    assert!(rt; matches!(subject, Subject::Client(1)));
    let opened = At {
        step: 1,
        client: 1,
        call: "open",
    };
    let device = DeviceRow {
        master: Some(1),
        since: Some(opened),
    };
    assert!(rt; device.master == Some(1));
}

#[test]
fn part_2(rt: HostRuntime) {
    let opened = At {
        step: 1,
        client: 1,
        call: "open",
    };
    let authenticated = Authenticated {
        by: AuthenticatedBy::Root,
        since: opened,
        magic: None,
    };
    assert!(rt; authenticated.magic.is_none());
    let opened = At {
        step: 1,
        client: 1,
        call: "open",
    };
    let standing = StandingRow {
        is_master: true,
        master: Some(1),
        owner: Some(1),
        current: true,
        since: opened,
    };
    assert!(rt; standing.current);
    let opened = At {
        step: 1,
        client: 1,
        call: "open",
    };
    let published = PublishedRow {
        by: PublishedBy::Name,
        number: 1,
        at: opened,
    };
    assert!(rt; published.number == 1);
}

#[test]
fn part_3(rt: HostRuntime) {
    let alloc = rt.alloc();
    let opened = At {
        step: 1,
        client: 1,
        call: "open",
    };
    let link = LinkRow {
        published: None,
        handle: 1,
        given: opened,
    };
    assert!(rt; link.published.is_none());
    let front = FrontRow {
        client: 1,
        handle: 2,
        step: 3,
    };
    assert!(rt; front.handle == 2);
    let chain = Vec::new(alloc);
    let held = HandleRow {
        handle: 1,
        object: 2,
        front: None,
        chain,
    };
    assert!(rt; held.object == 2);
}

#[test]
fn part_4(rt: HostRuntime) {
    let alloc = rt.alloc();
    let answer = Answer::Opened { client: 1 };
    let opened = Step {
        event: Event::Open(Opening::Render),
        answer,
    };
    let Ok(ledger) = Ledger::new(alloc).note(opened) else {
        panic!(rt; "refused")
    };
    let Some(topology) = Topology::new(2, &[1, 2], &[3, 2], &[5, 6]) else {
        panic!(rt; "refused")
    };
    let mut labels = [0; 26];
    labels[0] = 1;
    let Ok(explanation) = explain(alloc, &ledger, &topology, &labels, None) else {
        panic!(rt; "refused")
    };
    let Some(row) = explanation.client(1) else {
        panic!(rt; "refused")
    };
    assert!(rt; row.label == Some('a') && matches!(row.node, Node::Render));
    let opened = At {
        step: 1,
        client: 1,
        call: "open",
    };
    let lease = LeaseRow {
        master: 2,
        lessee_id: 1,
        lessor: Some(1),
        leased: opened,
        token: 1,
        mode_objects: Vec::new(alloc),
        redeemed_by: None,
        ended: None,
    };
    assert!(rt; lease.redeemed_by.is_none());
}

#[test]
fn part_5(rt: HostRuntime) {
    let alloc = rt.alloc();
    let answer = Answer::Opened { client: 1 };
    let opened = Step {
        event: Event::Open(Opening::Render),
        answer,
    };
    let Ok(ledger) = Ledger::new(alloc).note(opened) else {
        panic!(rt; "refused")
    };
    let Some(topology) = Topology::new(2, &[1, 2], &[3, 2], &[5, 6]) else {
        panic!(rt; "refused")
    };
    let mut labels = [0; 26];
    labels[0] = 1;
    let Ok(mut explanation) = explain(alloc, &ledger, &topology, &labels, None) else {
        panic!(rt; "refused")
    };
    explanation.retain_client(2);
    assert!(rt; explanation.clients.is_empty());
}
