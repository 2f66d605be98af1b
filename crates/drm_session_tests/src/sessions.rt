//! Sessions over sources and sinks that end, fail and interrupt, with few turns. `tests/test_streams.py` cuts them at each byte.

use crate::comparing::same;
use crate::trials::{Trial, try_on_new};
use drm_device::Device;
use drm_frames::{FromRead, Source, ToWrite};
use drm_sessions::{Access, Class, Gate, NoGate, Session, SessionEnd, serve, serve_alone};
use drm_table::{Answer, Apart, Event, Limits, Rule};
use drm_test_support::{Cut, sink_of, source_of};
use std::alloc::{AllocError, Global};
use std::cell::Cell;
use std::process::Abort;
use std::test::Fail;

/// A hello for a node, and VERSION.
const HELLO_VERSION: &[u8] = b"\x0e\0\0\0\0\x01\x01\0\0\0\0\0\0\0\0\0\0\0\x02\0\0\0\0\0";

/// Client 1 was opened, and the version is 1.0.0.
const ANSWERS: &[u8] = b"\x06\0\0\0\x01\x10\x01\0\0\0\x0e\0\0\0\x02\x10\x01\0\0\0\0\0\0\0\0\0\0\0";

/// The answer to the hello alone.
const OPENED: &[u8] = b"\x06\0\0\0\x01\x10\x01\0\0\0";

/// A hello by the lease token 0, which no lease has, and then VERSION.
const BY_TOKEN: &[u8] = b"\x0e\0\0\0\0\x01\x01\0\0\0\x01\0\0\0\0\0\0\0\x02\0\0\0\0\0";

/// The answer to that hello.
const NO_LEASE_TOKEN: &[u8] = b"\x0a\0\0\0\0\x20\x2a\0\0\0\x02\0\0\0";

const MANY_TURNS: u64 = 1_000_000;

/// The bytes that a client sends, in pieces of a given size, and the end and the steps of its session. Then the bytes
/// that are written, of which the sink takes a given number at once.
#[derive(Clone, Copy)]
struct Case<'a> {
    class: Class,
    input: &'a [u8],
    piece: usize,
    taken: usize,
    source: Cut,
    sink: Cut,
    turns: u64,
    end: SessionEnd,
    steps: u64,
    written: &'a [u8],
    /// The number of calls of the source, if it matters.
    takes: Option<u64>,
}

/// The hello and VERSION of a card client.
const WHOLE: Case<'static> = Case {
    class: Class::Card,
    input: HELLO_VERSION,
    piece: 7,
    taken: 64,
    source: Cut::Never,
    sink: Cut::Never,
    turns: MANY_TURNS,
    end: SessionEnd::Ended,
    steps: 3,
    written: ANSWERS,
    takes: None,
};

/// An opening by a lease token that isn't there.
const REFUSED: Case<'static> = Case {
    input: BY_TOKEN,
    end: SessionEnd::OpenRefused(Rule::NoLeaseToken),
    steps: 1,
    written: NO_LEASE_TOKEN,
    ..WHOLE
};

/// A session that makes no step, and is written nothing.
const NOTHING: Case<'static> = Case {
    steps: 0,
    written: b"",
    ..WHOLE
};

const CASES: [Case<'static>; 16] = [
    // both frames come by one take, and the next take finds the end
    Case {
        piece: 64,
        turns: 4,
        takes: Some(2),
        ..WHOLE
    },
    Case {
        piece: 64,
        turns: 3,
        end: SessionEnd::TurnsUsed,
        ..WHOLE
    },
    Case {
        piece: 1,
        turns: 17,
        end: SessionEnd::TurnsUsed,
        ..NOTHING
    },
    Case {
        piece: 1,
        turns: 18,
        end: SessionEnd::TurnsUsed,
        steps: 2,
        ..NOTHING
    },
    Case {
        piece: 1,
        turns: 19,
        end: SessionEnd::TurnsUsed,
        steps: 2,
        written: OPENED,
        ..WHOLE
    },
    Case {
        piece: 1,
        taken: 1,
        turns: 28,
        end: SessionEnd::TurnsUsed,
        steps: 2,
        written: OPENED,
        ..WHOLE
    },
    Case {
        piece: 64,
        turns: 2,
        end: SessionEnd::TurnsUsed,
        steps: 3,
        written: OPENED,
        ..WHOLE
    },
    // interruptions are asked again, 1,000 in a row are a fault
    Case {
        piece: 1,
        source: Cut::Interruptions(999),
        ..WHOLE
    },
    Case {
        piece: 1,
        source: Cut::Interrupted(1000, 18),
        end: SessionEnd::ReadFault,
        steps: 2,
        written: OPENED,
        ..WHOLE
    },
    Case {
        sink: Cut::Interrupted(1000, 10),
        end: SessionEnd::WriteFault,
        written: OPENED,
        ..WHOLE
    },
    Case {
        sink: Cut::End(0),
        end: SessionEnd::WriteFault,
        steps: 2,
        written: b"",
        ..WHOLE
    },
    // nothing is read after an end
    Case {
        piece: 18,
        takes: Some(1),
        ..REFUSED
    },
    Case {
        piece: 1,
        takes: Some(18),
        ..REFUSED
    },
    Case {
        input: b"\x02\0\0\0\0\0\x02\0\0\0\0\0",
        piece: 6,
        end: SessionEnd::BadHello,
        takes: Some(1),
        ..NOTHING
    },
    Case {
        input: b"\x01\0\0\0\0\0\0\0",
        piece: 4,
        end: SessionEnd::TooLong,
        takes: Some(1),
        ..NOTHING
    },
    Case {
        input: b"\x01\0\0\0\0\0\0\0",
        piece: 1,
        end: SessionEnd::TooLong,
        takes: Some(4),
        ..NOTHING
    },
];

/// Sessions that are served one after the other.
#[derive(Clone, Copy)]
struct Sessions<'a>(&'a [Case<'a>]);

impl<R: Abort> Trial<R> for Sessions<'_> {
    fn run(&self, rt: &R, alloc: Global, device: &mut Device) -> Result<(), Fail> {
        let mut noted = 0usize;
        for case in self.0 {
            serves_one(rt, device, case);
            noted = noted.wrapping_add(case.steps as usize);
            same(rt, &device.journal().len(), &noted, "events");
        }
        Ok(())
    }
}

/// Serves a session, and compares how it ends and what is written.
fn serves_one(rt: &impl Abort, device: &mut Device, case: &Case<'_>) {
    let mut source = source_of(case.input, case.piece, case.source);
    let mut sink = sink_of(case.taken, case.sink);
    let turns = case.turns.min(MANY_TURNS);
    let session = serve_alone(
        device,
        &mut NoGate,
        case.class,
        &mut source,
        &mut sink,
        turns,
    );
    let ended = Session {
        end: case.end,
        client: if case.steps < 2 { 0 } else { 1 },
        steps: case.steps,
    };
    same(rt, &session, &ended, "session");
    same(rt, &sink.written(), &case.written, "written");
    same(
        rt,
        &source.calls(),
        &case.takes.unwrap_or(source.calls()),
        "takes",
    );
}

/// Serves these on a new device within these limits.
fn serves(rt: &impl Abort, alloc: Global, limits: Limits, cases: &[Case<'_>]) -> Result<(), Fail> {
    try_on_new(rt, alloc, limits, &Sessions(cases))
}

/// Serves each on a new device.
fn serves_each(rt: &impl Abort, alloc: Global, cases: &[Case<'_>]) -> Result<(), Fail> {
    for case in cases {
        serves(rt, alloc, Limits::PROGRAM, &[*case])?;
    }
    Ok(())
}

#[test]
fn sessions_and_their_ends(rt: HostRuntime) -> Result<(), Fail> {
    serves_each(&rt, rt.alloc(), &CASES)
}

/// Returns two texts, one after the other.
fn joined(alloc: Global, front: &[u8], back: &[u8]) -> Result<Vec<u8>, AllocError> {
    let mut text = Vec::new(alloc);
    text.extend_from_slice(front)?;
    text.extend_from_slice(back)?;
    Ok(text)
}

/// The calls of a session, a digit each. 1 is the gate before a request of client 1, 2 an opening, 3 a request, 4 a
/// closing, and 5 the gate before another client's request.
type Calls = Cell<u64>;

/// Notes one call more.
fn note(calls: &Calls, call: u64) {
    calls.set(calls.get().wrapping_mul(10).wrapping_add(call));
}

/// A gate that notes its calls.
#[derive(Drop)]
struct NotedGate<'a>(&'a Calls);

impl Gate for NotedGate<'_> {
    ghost use Rattle.std.specs.Prelude.{⊤};

    ghost passes = { λ before client after. ⊤ };

    fn before(&mut self, client: u32) {
        note(self.0, if client == 1 { 1 } else { 5 });
    }
}

/// An access that notes its calls and opens each client as client 1.
#[derive(Drop)]
struct Noted<'a> {
    calls: &'a Calls,
    closing: Result<Answer, Apart>,
}

impl Access for Noted<'_> {
    ghost use Rattle.std.specs.Prelude.{⊤};

    ghost answers = { λ before event outcome after. ⊤ };

    fn call(&mut self, event: Event) -> Result<Answer, Apart> {
        match event {
            Event::Open(_) => {
                note(self.calls, 2);
                Ok(Answer::Opened { client: 1 })
            }
            Event::Ask(_, _) => {
                note(self.calls, 3);
                Ok(Answer::Done)
            }
            Event::Close(_) => {
                note(self.calls, 4);
                match self.closing {
                    Ok(_) => Ok(Answer::Closed),
                    Err(apart) => Err(apart),
                }
            }
        }
    }
}

/// Serves the hello and VERSION twice, and returns the session with the calls that it made.
fn noted_calls(alloc: Global, closing: Result<Answer, Apart>) -> Result<(Session, u64), Fail> {
    let input = joined(alloc, HELLO_VERSION, &HELLO_VERSION[18..])?;
    let calls = Cell::new(0);
    let mut access = Noted {
        calls: &calls,
        closing,
    };
    let mut gate = NotedGate(&calls);
    let mut source = FromRead::new(input.as_slice());
    let mut sink = ToWrite::new(Vec::new(alloc));
    let session = serve(
        &mut access,
        &mut gate,
        Class::Card,
        &mut source,
        &mut sink,
        MANY_TURNS,
    );
    Ok((session, calls.get()))
}

/// The gate is called before each request and before nothing else. A closing without a turn is the end.
#[test]
fn gates_and_closings(rt: HostRuntime) -> Result<(), Fail> {
    let rows: [(Result<Answer, Apart>, SessionEnd, u64); 3] = [
        (Ok(Answer::Closed), SessionEnd::Ended, 4),
        (Err(Apart::Worn), SessionEnd::Apart(Apart::Worn), 3),
        (Err(Apart::JournalFull), SessionEnd::Ended, 3),
    ];
    for (closing, end, steps) in rows {
        let (session, calls) = noted_calls(rt.alloc(), closing)?;
        let ended = Session {
            end,
            client: 1,
            steps,
        };
        same(&rt, &(session, calls), &(ended, 213_134), "calls");
    }
    Ok(())
}

/// The words of ends that no server logs: one without a fault, and one after a million reads.
const ENDS: [(SessionEnd, &str); 2] = [
    (SessionEnd::Ended, "the input ended between frames"),
    (SessionEnd::TurnsUsed, "all reads and writes were used up"),
];

#[test]
fn ends_in_words(rt: HostRuntime) -> Result<(), Fail> {
    let alloc: Global = rt.alloc();
    for (end, text) in ENDS {
        let told = format!(in alloc; "{end}")?;
        same(&rt, &told.as_str(), &text, text);
    }
    Ok(())
}
