//! Files that check themselves over sources and sinks that are cut. `tests/test_checks.py` has what else a check reports.

use crate::comparing::same;
use drm_checks::{Report, check_on};
use drm_runs::{ScriptEnd, Setup};
use drm_test_support::{Cut, sink_of, source_of};
use std::alloc::Global;
use std::process::Abort;

const TURNS: u64 = 1_000_000;

/// A file, the end of its check, the numbers of expectations that were met and not met, and the text that is written.
#[derive(Clone, Copy)]
struct File<'a> {
    text: &'a [u8],
    end: ScriptEnd,
    passed: u64,
    failed: u64,
    told: &'a [u8],
}

/// A file with every kind of expectation: a whole line, the first two words, and none.
const MET: File<'static> = File {
    text: b"\
        # open a card -> nothing\n\
        limits 2 8 8 8 8 4 4 7\n\
        open a card  -> client 1\n\
        a version\n\
        a raw 65535 -> denied 1\n\
        b version -> denied 3 NoClient 22\n\
        open b render -> client 5\n\
        b version -> apart 50\n\
        close a -> closed",
    end: ScriptEnd::Done,
    passed: 6,
    failed: 0,
    told: b"",
};

/// One expectation that isn't met, and one that is.
const HALF: File<'static> = File {
    text: b"open a card -> client 2\nclose a -> closed\n",
    end: ScriptEnd::Done,
    passed: 1,
    failed: 1,
    told: b"f:1: expected client 2, got client 1\n",
};

/// Checks a file in pieces over a source and a sink that are cut.
fn check_file(
    rt: &impl Abort,
    alloc: Global,
    file: &File<'_>,
    piece: usize,
    cuts: [Cut; 2],
    turns: u64,
) {
    let mut source = source_of(file.text, piece, cuts[0]);
    let mut sink = sink_of(512, cuts[1]);
    let turns = turns.min(TURNS);
    let (report, _) = check_on(
        alloc,
        Setup::usual(),
        "f",
        "",
        &mut source,
        &mut sink,
        turns,
    );
    let expected = Report {
        end: file.end,
        passed: file.passed,
        failed: file.failed,
    };
    same(rt, &report, &expected, piece);
    same(rt, &sink.written(), &file.told, piece);
}

#[test]
fn expectations_of_files(rt: HostRuntime) {
    let whole = [Cut::Never, Cut::Never];
    for piece in [1, 2, 3, 7, 256] {
        check_file(&rt, rt.alloc(), &MET, piece, whole, TURNS);
        check_file(&rt, rt.alloc(), &HALF, piece, whole, TURNS);
    }
    let cut = File { passed: 0, ..HALF };
    let unread = File {
        end: ScriptEnd::ReadFault,
        ..cut
    };
    let faulty_source = [Cut::Fault(30), Cut::Never];
    check_file(&rt, rt.alloc(), &unread, 256, faulty_source, TURNS);
    let unwritten = File {
        end: ScriptEnd::WriteFault,
        told: b"f:1: ",
        ..cut
    };
    let faulty_sink = [Cut::Never, Cut::Fault(5)];
    check_file(&rt, rt.alloc(), &unwritten, 256, faulty_sink, TURNS);
    let used = File {
        end: ScriptEnd::TurnsUsed,
        told: b"",
        ..cut
    };
    check_file(&rt, rt.alloc(), &used, 256, whole, 1);
    let long = File {
        text: &[b' '; 256],
        end: ScriptEnd::Malformed(1),
        passed: 0,
        failed: 0,
        told: b"",
    };
    check_file(&rt, rt.alloc(), &long, 256, whole, TURNS);
}
