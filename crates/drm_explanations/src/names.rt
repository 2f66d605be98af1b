//! Names of clients, calls and steps.

ghost use Rattle.std.specs.Prelude.{◌≡◌, ◌&&◌, IfSome, length, nat_le};
ghost use Rattle.std.specs.Option.{is_some};
ghost use Rattle.drm_trails.specs.Steps.{history_of};
ghost use Rattle.drm_explanations.specs.Rows as rows;
ghost use Rattle.drm_explanations.specs.Steps as specs;

use crate::rows::At;
use drm_rights::{Step, step_at};
use drm_table::{CallKind, Event};

/// The clients that the labels of a script name, the first for `a`. A label that names no client has 0 (own).
pub type Labels = [u32; 26];

/// Returns the label that names a client, or `None` (own). Does not allocate.
pub fn label_of(labels: &Labels, client: u64) -> Option<char>
    ensures { result ≡ rows.label_of labels.now client }
{
    for (place, named) in labels.iter().enumerate() {
        if u64::from(*named) == client {
            return Some(char::from(b'a' + place as u8));
        }
    }
    None
}

/// Returns the word of a call in a script.
fn word_of(number: u16) -> &'static str
    ensures { result.now ≡ specs.call_word number }
{
    match CallKind::of_number(number) {
        Some(kind) => match str::from_utf8(kind.word()) {
            Ok(word) => word,
            Err(_) => "",
        },
        None => "",
    }
}

/// Returns the caller of a step, or the client that it opens or closes, and the word of its event.
fn asked(event: &Event, number: u64) -> (u64, &'static str)
    ensures client { result.0 ≡ specs.client_of number event.now }
    ensures word { result.1.now ≡ specs.word_of event.now }
{
    match event {
        Event::Open(_) => (number, "open"),
        Event::Ask(client, call) => (u64::from(*client), word_of(call.number())),
        Event::Close(client) => (u64::from(*client), "close"),
    }
}

/// Returns the step with this number, from 1, or `None`. The caller of an accepted opening is the client that it opens.
/// Does not allocate.
pub fn at(steps: &[Step], number: u64) -> Option<At>
    ensures step { IfSome result (λ told. told.step ≡ number) }
    ensures tells { IfSome result (specs.TellsStep (history_of steps.now)) }
    ensures numbers { is_some result ≡ (nat_le 1 number && nat_le number (length steps.now)) }
{
    let step = step_at(steps, number)?;
    let (client, call) = asked(&step.event, number);
    Some(At {
        step: number,
        client,
        call,
    })
}
