//! The requests of a client, one after the other.

ghost use Rattle.std.specs.Prelude.{◌≡◌, ◌^◌, ◌+◌, ◌<◌, ◌≤◌, [], length};
ghost use Rattle.drm_frames.specs.Answers.{CallResult, answer_text};
ghost use Rattle.drm_sessions.specs.Gates.{Gated};
ghost use Rattle.drm_sessions.specs.Reading.{Wrote};
ghost use Rattle.drm_sessions.specs.Runs.{one_if_journaled};
ghost use Rattle.drm_sessions.specs.Ends.{Ends, IoCost, Shows, Tells};

use crate::access::{Access, Gate};
use crate::end::SessionEnd;
use crate::inbox::Inbox;
use crate::reading::next_message;
use crate::writing::write_answer;
use drm_frames::{AnswerText, Sink, Source};
use drm_table::{Answer, Apart, Call, Event};

/// The end of the requests, and the number of those that were recorded.
#[derive(Clone, Copy)]
pub(crate) struct Stopped {
    pub(crate) end: SessionEnd,
    pub(crate) steps: u64,
}

/// Whether a request was recorded, and what resulted from writing its answer.
#[derive(Clone, Copy)]
struct Answered {
    steps: u64,
    wrote: Result<(), SessionEnd>,
}

// Makes the call of an event, and writes its answer. Both are made in places that serve for all requests.
fn answer_call<A: Access, K: Sink>(
    access: &mut A,
    sink: &mut K,
    turns: &mut u64,
    outcome: &mut Result<Answer, Apart>,
    text: &mut AnswerText,
    event: &Event,
) -> Answered
    requires { (K.trace sink.old).counts.calls + turns.old < 2 ^ 48 }
    ensures answers { A.answers access.old event.now outcome.new access.new }
    ensures steps { result.steps ≡ one_if_journaled outcome.new }
    ensures wrote { Wrote result.wrote (K.trace sink.old) (K.trace sink.new) (answer_text outcome.new) turns.old turns.new }
    ensures some { 0 < length (answer_text outcome.new) }
{
    access.call_at(event, outcome);
    text.write(outcome);
    let wrote = write_answer(sink, text.as_slice(), turns);
    let steps = if outcome.is_ok() { 1 } else { 0 };
    Answered { steps, wrote }
}

/// Answers a client's requests until the input ends or something fails. What results from each replaces the outcome, and
/// its frame replaces the text.
pub(crate) fn answer_requests<A: Access, G: Gate, S: Source, K: Sink>(
    access: &mut A,
    gate: &mut G,
    source: &mut S,
    sink: &mut K,
    inbox: &mut Inbox,
    turns: &mut u64,
    client: u32,
    outcome: &mut Result<Answer, Apart>,
    text: &mut AnswerText,
) -> Stopped
    requires source { (S.trace source.old).counts.calls + turns.old < 2 ^ 48 }
    requires sink { (K.trace sink.old).counts.calls + turns.old < 2 ^ 48 }
    ensures ends { Ends (Gated A.answers G.passes) client (access.old, gate.old) (access.new, gate.new)
        (S.trace source.old) (S.trace source.new) (K.trace sink.old) (K.trace sink.new)
        [] inbox.old result.steps result.end }
    ensures moves { IoCost (S.trace source.old) (S.trace source.new)
        (K.trace sink.old) (K.trace sink.new) turns.old turns.new }
    ensures shows { Shows result.end (S.trace source.old) (S.trace source.new)
        (K.trace sink.old) (K.trace sink.new) turns.new }
    ensures tells { Tells result.end (S.trace source.old).counts (S.trace source.new).counts
        (K.trace sink.old).counts (K.trace sink.new).counts }
    ensures few { result.steps ≤ turns.old + 1 }
{
    let mut steps = 0;
    let mut event = Event::Ask(client, Call::Version);
    'asking: loop {
        let Event::Ask(_, call) = &mut event else {
            unreachable!()
        };
        if let Err(end) = next_message::<Call, S>(source, inbox, turns, call) {
            return Stopped { end, steps };
        }
        gate.before(client);
        let answered = answer_call(access, sink, turns, outcome, text, &event);
        steps += answered.steps;
        if let Err(end) = answered.wrote {
            return Stopped { end, steps };
        }
    }
}
