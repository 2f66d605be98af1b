//! The examples of `drm_runs`, made by `tools/doc_examples` of its doc comments.

use drm_device::Limits;
use drm_frames::{FromRead, ToWrite};
use drm_runs::{
    Interpreter, LineResult, ScriptEnd, ScriptLines, Setup, Stop, Unfit, UnfitLine, read_topology,
    run_on, run_script, test_topology,
};
use drm_table::Answer;

#[test]
#[tactic(auto, unfolding(drm_table::specs::Limits::are_in_range))]
fn part_1(rt: HostRuntime) {
    let alloc = rt.alloc();
    let setup = Setup::new(test_topology(), Limits::PROGRAM);
    let Some(device) = setup.make(alloc) else {
        panic!(rt; "refused")
    };
    assert!(rt; device.journal().is_empty());
    let mut interpreter = Interpreter::new(Setup::usual());
    let mut outcome = Ok(Answer::Done);
    let result = interpreter.interpret(alloc, b"open a card", &mut outcome);
    assert!(rt; result == LineResult::Answered && outcome == Ok(Answer::Opened { client: 1 }));
    let Err(unfit) = read_topology(b"crtcs 1\nplane 2\n") else {
        panic!(rt; "refused")
    };
    assert!(rt;
        unfit
            == UnfitLine {
                number: 2,
                cause: Unfit::Crtc(1)
            }
    );
    let Ok(topology) = read_topology(b"crtcs 1\nprimary 1\nencoder 1\nconnector 1\n") else {
        panic!(rt; "refused")
    };
    assert!(rt; topology.object_count() == 4 && topology.encoder_of(4) == Some(3));
    let mut source = FromRead::new(b"open a card\n".as_slice());
    let mut sink = ToWrite::new(Vec::new(alloc));
    let end = run_script(alloc, &mut source, &mut sink, 1000);
    assert!(rt; end == ScriptEnd::Done);
    assert!(rt; sink.into_inner().as_slice() == b"client 1\n".as_slice());
    let mut source = FromRead::new(b"open a card\n".as_slice());
    let mut sink = ToWrite::new(Vec::new(alloc));
    let ran = run_on(alloc, Setup::usual(), &mut source, &mut sink, 1000);
    assert!(rt; ran.end == ScriptEnd::Done && ran.cause.is_none());
    let mut source = FromRead::new(b"open a card\n".as_slice());
    let mut turns = 1000;
    let mut lines = ScriptLines::new();
    assert!(rt; lines.read_next(&mut source, &mut turns).is_none());
    assert!(rt; lines.line() == b"open a card".as_slice());
    let stop = Stop::of(ScriptEnd::ReadFault);
    assert!(rt; stop.end() == ScriptEnd::ReadFault);
}
