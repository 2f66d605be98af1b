//! Runs of scripts over sources and sinks that cut and fail, with few turns. `tests/test_streams.py` cuts them at each byte.

use crate::comparing::same;
use drm_runs::{ScriptEnd, run_script};
use drm_test_support::{Cut, sink_of, source_of};
use std::alloc::Global;
use std::process::Abort;

const TURNS: u64 = 1_000_000;

/// A script of one buffer, and the six lines that it writes.
const BUFFER: &[u8] =
    b"open a card\na version\na create_dumb 64 64 32\na gem_close 1\na gem_close 1\nclose a\n";

const ANSWERS: &[u8] =
    b"client 1\nversion 1 0 0\ndumb 1 256 16384\ndone\ndenied 22 NoHandleToClose 22\nclosed\n";

/// A script in pieces over a source and a sink, with its end and what it writes.
#[derive(Clone, Copy)]
struct Run<'a> {
    script: &'a [u8],
    piece: usize,
    source: Cut,
    sink: Cut,
    turns: u64,
    end: ScriptEnd,
    written: &'a [u8],
}

/// The script of one buffer in one piece.
const WHOLE: Run<'static> = Run {
    script: BUFFER,
    piece: 256,
    source: Cut::Never,
    sink: Cut::Never,
    turns: TURNS,
    end: ScriptEnd::Done,
    written: ANSWERS,
};

fn check_run(rt: &impl Abort, alloc: Global, run: &Run<'_>) {
    let mut source = source_of(run.script, run.piece, run.source);
    let mut sink = sink_of(run.piece, run.sink);
    let end = run_script(alloc, &mut source, &mut sink, run.turns.min(TURNS));
    same(
        rt,
        &(end, sink.written()),
        &(run.end, run.written),
        run.piece,
    );
}

/// The script of one buffer, interrupted and with few turns. One take gets it in one piece, six puts write its answers, and one
/// take finds the input's end.
const CUT_RUNS: [Run<'static>; 8] = [
    Run {
        piece: 1,
        source: Cut::Interruptions(999),
        sink: Cut::Interruptions(999),
        ..WHOLE
    },
    Run {
        piece: 1,
        source: Cut::Interrupted(1000, 12),
        end: ScriptEnd::ReadFault,
        written: b"client 1\n",
        ..WHOLE
    },
    Run {
        sink: Cut::Interrupted(1000, 9),
        end: ScriptEnd::WriteFault,
        written: b"client 1\n",
        ..WHOLE
    },
    Run {
        turns: 0,
        end: ScriptEnd::TurnsUsed,
        written: b"",
        ..WHOLE
    },
    Run {
        turns: 1,
        end: ScriptEnd::TurnsUsed,
        written: b"",
        ..WHOLE
    },
    Run {
        turns: 2,
        end: ScriptEnd::TurnsUsed,
        written: b"client 1\n",
        ..WHOLE
    },
    Run {
        turns: 7,
        end: ScriptEnd::TurnsUsed,
        ..WHOLE
    },
    Run { turns: 8, ..WHOLE },
];

#[test]
fn scripts_that_are_cut(rt: HostRuntime) {
    for run in &CUT_RUNS {
        check_run(&rt, rt.alloc(), run);
    }
    // A line that is too long is refused at its 256th byte, before the fault after it.
    let long = Run {
        script: &[b' '; 256],
        source: Cut::Fault(256),
        end: ScriptEnd::Malformed(1),
        written: b"",
        ..WHOLE
    };
    check_run(&rt, rt.alloc(), &long);
}
