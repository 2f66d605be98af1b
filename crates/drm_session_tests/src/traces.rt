//! The lines of a trace, also after more than a day. `tests/test_traces.py` has those of a server.

use crate::trials::new_device;
use drm_device::Device;
use drm_sessions::Class;
use drm_table::{Call, Event, Limits, Opening};
use drm_traffic::{Palette, Tracer, WatchedCall};
use std::test::Fail;
use std::time::Duration;

const CARD: Event = Event::Open(Opening::Primary {
    root: false,
    universal: true,
});

const MAKING: Event = Event::Ask(1, Call::BufCreate { size: 1 });

const CLOSING: Event = Event::Ask(1, Call::GemClose { handle: 9 });

/// A step, by the microseconds since the start, and its line.
struct Case {
    micros: u64,
    class: Class,
    event: Event,
    line: &'static str,
}

/// The steps of a server, in their order.
const STEPS: [Case; 4] = [
    Case {
        micros: 0,
        class: Class::Card,
        event: CARD,
        line: "    0.000000      1 card   open ? card -> client 1\n",
    },
    Case {
        micros: 1_500_000,
        class: Class::Card,
        event: MAKING,
        line: "    1.500000      2 card   client 1 buf_create 1 -> buffer 1 4096\n",
    },
    Case {
        micros: 99_999_000_009,
        class: Class::Render,
        event: CLOSING,
        line: "99999.000009      3 render client 1 gem_close 9 -> \x1b[31mdenied 22 NoHandleToClose 22\x1b[0m\n",
    },
    Case {
        micros: 100_000_000_000,
        class: Class::Root,
        event: Event::Close(1),
        line: "100000.000000      4 root   close client 1 -> closed\n",
    },
];

fn call_of(case: &Case) -> Result<WatchedCall, Fail> {
    Ok(WatchedCall {
        since: Duration::from_micros(case.micros),
        class: case.class,
        event: case.event.clone()?,
    })
}

fn expect_text(text: &[u8], wanted: &str) -> Result<(), Fail> {
    if text == wanted.as_bytes() {
        return Ok(());
    }
    Err("another line".into())
}

#[test]
fn each_step_has_its_line(rt: HostRuntime) -> Result<(), Fail> {
    let alloc = rt.alloc();
    let mut tracer = Tracer::new(new_device(alloc, Limits::PROGRAM)?, Palette::Red);
    let mut text = Vec::new(alloc);
    for case in &STEPS {
        text.clear();
        tracer.put_step(&mut text, &call_of(case)?)?;
        expect_text(&text, case.line)?;
    }
    Ok(())
}
