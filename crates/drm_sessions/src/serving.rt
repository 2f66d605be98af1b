//! A whole session.

ghost use Rattle.std.specs.Prelude.{◌≡◌, ◌^◌, ◌+◌, ◌<◌, ◌≤◌, ◌∷◌, [], Ok};
ghost use Rattle.drm_table.specs.declared.events.Event.TheVariants.{Close};
ghost use Rattle.drm_table.specs.declared.answers.Answer.TheVariants.{Opened};
ghost use Rattle.drm_frames.specs.Answers.{answer_text};
ghost use Rattle.drm_sessions.specs.Gates.{Gated, LetsAllPass};
ghost use Rattle.drm_sessions.specs.Runs.{one_if_journaled};
ghost use Rattle.drm_sessions.specs.Ends.{Ends, EndsClosed, IoCost, Refuses, Shows, Tells, TellsStop};
ghost use Rattle.drm_sessions.specs.Serving.{Continues, Costs, Serves, calls_made};

use crate::accepted::{Accepted, read_opening};
use crate::access::{Access, Gate};
use crate::class::Class;
use crate::end::{Session, SessionEnd};
use crate::inbox::Inbox;
use crate::opening::opening_of;
use crate::reading::next_message;
use crate::requests::{Stopped, answer_requests};
use crate::writing::write_answer;
use drm_frames::{AnswerText, Hello, Sink, Source};
use drm_table::{Answer, Apart, Event, Opening};

// Writes the answer to an opening that was accepted, and answers the client's requests.
fn serve_client<A: Access, G: Gate, S: Source, K: Sink>(
    access: &mut A,
    gate: &mut G,
    source: &mut S,
    sink: &mut K,
    inbox: &mut Inbox,
    turns: &mut u64,
    client: u32,
    outcome: &mut Result<Answer, Apart>,
    text: &mut AnswerText,
) -> Stopped
    requires source { (S.trace source.old).counts.calls + turns.old < 2 ^ 48 }
    requires sink { (K.trace sink.old).counts.calls + turns.old < 2 ^ 48 }
    requires said { text.old ≡ answer_text (Ok (Opened client)) }
    ensures ends { Ends (Gated A.answers G.passes) client (access.old, gate.old) (access.new, gate.new)
        (S.trace source.old) (S.trace source.new) (K.trace sink.old) (K.trace sink.new)
        (Ok (Opened client) ∷ []) inbox.old result.steps result.end }
    ensures moves { IoCost (S.trace source.old) (S.trace source.new)
        (K.trace sink.old) (K.trace sink.new) turns.old turns.new }
    ensures shows { Shows result.end (S.trace source.old) (S.trace source.new)
        (K.trace sink.old) (K.trace sink.new) turns.new }
    ensures tells { Tells result.end (S.trace source.old).counts (S.trace source.new).counts
        (K.trace sink.old).counts (K.trace sink.new).counts }
    ensures few { result.steps ≤ turns.old + 1 }
{
    match write_answer(sink, text.as_slice(), turns) {
        Ok(()) => answer_requests(
            access, gate, source, sink, inbox, turns, client, outcome, text,
        ),
        Err(end) => Stopped { end, steps: 0 },
    }
}

// Makes the one closing of a client, whose opening was one step. What results from it replaces the outcome.
fn close_client<A: Access>(
    access: &mut A,
    client: u32,
    stopped: Stopped,
    outcome: &mut Result<Answer, Apart>,
) -> Session
    requires { stopped.steps < 2 ^ 63 }
    ensures answers { A.answers access.old (Close client) outcome.new access.new }
    ensures client { result.client ≡ client }
    ensures steps { result.steps ≡ 1 + (stopped.steps + one_if_journaled outcome.new) }
    ensures closed { EndsClosed stopped.end outcome.new result.end }
{
    access.call_at(&Event::Close(client), outcome);
    let steps = if outcome.is_ok() { 1 } else { 0 };
    let end = match outcome {
        Err(Apart::Worn) => SessionEnd::Apart(Apart::Worn),
        _ => stopped.end,
    };
    Session {
        end,
        client,
        steps: 1 + (stopped.steps + steps),
    }
}

// Writes the answer to an opening that was not accepted.
fn refuse<K: Sink>(
    sink: &mut K,
    turns: &mut u64,
    said: &[u8],
    end: SessionEnd,
    steps: u64,
) -> Session
    requires { (K.trace sink.old).counts.calls + turns.old < 2 ^ 48 }
    ensures refuses { Refuses end result.end (K.trace sink.old) (K.trace sink.new)
        said.now turns.old turns.new }
    ensures client { result.client ≡ 0 }
    ensures steps { result.steps ≡ steps }
{
    let end = match write_answer(sink, said, turns) {
        Ok(()) => end,
        Err(stopped) => stopped,
    };
    Session {
        end,
        client: 0,
        steps,
    }
}

// The session from its opening on.
fn run_session<A: Access, G: Gate, S: Source, K: Sink>(
    access: &mut A,
    gate: &mut G,
    class: Class,
    source: &mut S,
    sink: &mut K,
    inbox: &mut Inbox,
    turns: &mut u64,
    opening: Opening,
) -> Session
    requires source { (S.trace source.old).counts.calls + turns.old < 2 ^ 48 }
    requires sink { (K.trace sink.old).counts.calls + turns.old < 2 ^ 48 }
    ensures continues { Continues (Gated A.answers G.passes) class opening
        (access.old, gate.old) (access.new, gate.new)
        (S.trace source.old) (S.trace source.new) (K.trace sink.old) (K.trace sink.new)
        inbox.old result }
    ensures moves { IoCost (S.trace source.old) (S.trace source.new)
        (K.trace sink.old) (K.trace sink.new) turns.old turns.new }
    ensures shows { Shows result.end (S.trace source.old) (S.trace source.new)
        (K.trace sink.old) (K.trace sink.new) turns.new }
    ensures tells { TellsStop result.end (S.trace source.old).counts (S.trace source.new).counts
        (K.trace sink.old).counts (K.trace sink.new).counts }
{
    let mut outcome = Ok(Answer::Done);
    access.call_at(&Event::Open(opening), &mut outcome);
    let mut text = AnswerText::new();
    text.write(&outcome);
    match read_opening(&outcome) {
        Accepted::Client(client) => {
            let stopped = serve_client(
                access,
                gate,
                source,
                sink,
                inbox,
                turns,
                client,
                &mut outcome,
                &mut text,
            );
            close_client(access, client, stopped, &mut outcome)
        }
        Accepted::Denied(rule) => {
            let end = SessionEnd::OpenRefused(rule);
            refuse(sink, turns, text.as_slice(), end, 1)
        }
        Accepted::Apart(apart) => {
            let end = SessionEnd::Apart(apart);
            refuse(sink, turns, text.as_slice(), end, 0)
        }
    }
}

/// Serves one session: its hello, its opening, its requests in the order of their frames, and one closing if the
/// opening was accepted (own). Does not allocate.
///
/// At most `turns` calls are made of the source and the sink together. Each answer is written before the next frame is
/// looked for. The closing's answer isn't written. If a read or write fails, the client is closed, and nothing more is
/// read or written. The gate is called once for each request, and for nothing else.
///
/// # Examples
///
/// ```rust
/// use drm_device::{Device, Limits, Topology};
/// use drm_frames::{FromRead, ToWrite};
/// use drm_sessions::{Alone, Class, NoGate, SessionEnd, serve};
///
/// let alloc = rt.alloc();
/// let Some(topology) = Topology::new(2, &[1, 2], &[3, 2], &[5, 6]) else { return };
/// let Ok(mut device) = Device::new(alloc, topology, Limits::PROGRAM) else { return };
/// let hello = [14, 0, 0, 0, 0, 1, 1, 0, 0, 0, 0, 0, 0, 0, 0, 0, 0, 0];
/// let mut source = FromRead::new(hello.as_slice());
/// let mut sink = ToWrite::new(Vec::new(alloc));
/// let mut alone = Alone(&mut device);
/// let session = serve(&mut alone, &mut NoGate, Class::Card, &mut source, &mut sink, 1000);
/// assert!(rt; session.end == SessionEnd::Ended);
/// ```
pub fn serve<A: Access, G: Gate, S: Source, K: Sink>(
    access: &mut A,
    gate: &mut G,
    class: Class,
    source: &mut S,
    sink: &mut K,
    turns: u64,
) -> Session
    requires source { (S.trace source.old).counts.calls + turns < 2 ^ 48 }
    requires sink { (K.trace sink.old).counts.calls + turns < 2 ^ 48 }
    ensures serves { (serves : Serves A.answers class access.old access.new
        (S.trace source.old) (S.trace source.new) (K.trace sink.old) (K.trace sink.new)
        result) × LetsAllPass G.passes gate.old (calls_made serves) gate.new }
    ensures costs { Costs (S.trace source.old) (S.trace source.new)
        (K.trace sink.old) (K.trace sink.new) turns result.end }
{
    let mut inbox = Inbox::new();
    let mut left = turns;
    let mut hello = None;
    if let Err(end) = next_message::<Option<Hello>, S>(source, &mut inbox, &mut left, &mut hello) {
        return Session {
            end,
            client: 0,
            steps: 0,
        };
    }
    match opening_of(class, hello) {
        Some(opening) => run_session(
            access, gate, class, source, sink, &mut inbox, &mut left, opening,
        ),
        None => Session {
            end: SessionEnd::BadHello,
            client: 0,
            steps: 0,
        },
    }
}
