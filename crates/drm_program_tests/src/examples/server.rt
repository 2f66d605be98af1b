//! The examples of `drm_server`, made by `tools/doc_examples` of its doc comments.

use drm_frames::ToWrite;
use drm_server::{ListEnd, Setup, list_audit, outcome_of_listing};

#[test]
fn part_1(rt: HostRuntime) {
    let alloc = rt.alloc();
    let Some(device) = Setup::usual().make(alloc) else {
        panic!(rt; "refused")
    };
    let mut sink = ToWrite::new(Vec::new(alloc));
    assert!(rt; list_audit(&device, &mut sink, 1000) == ListEnd::Done);
    assert!(rt; sink.into_inner().as_slice() == b"device 0 0 0 0\n".as_slice());
    let outcome = outcome_of_listing(&ListEnd::TurnsUsed);
    assert!(rt; outcome.line.as_str() == "fault: turns");
}
