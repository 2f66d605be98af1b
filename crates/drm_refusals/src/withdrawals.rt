//! The steps that withdrew what a client published.

ghost use Rattle.std.specs.Prelude.{◌≡◌, ◌<◌, ◌+◌, length};
ghost use Rattle.drm_trails.specs.Passing.{first_step_after};
ghost use Rattle.drm_trails.specs.Steps.{entry_of, history_of, key_of};
ghost use Rattle.drm_refusals.specs.Withdrawals as specs;

use drm_rights::{Key, LastPublishing, Step};
use drm_table::{Answer, Call, Event};

/// Returns whether a call closes the token, or removes the framebuffer.
fn is_for(key: Key, call: &Call) -> bool
    ensures { result ≡ specs.is_for (key_of key) call.now }
{
    match key {
        Key::Name(_) => false,
        Key::Token(token) => match call {
            Call::TokenClose { token: closed } => u64::from(*closed) == token,
            _ => false,
        },
        Key::Framebuffer(framebuffer) => match call {
            Call::RmFb {
                framebuffer: removed,
            } => u64::from(*removed) == framebuffer,
            _ => false,
        },
    }
}

/// Returns whether a step closes the token or removes the framebuffer. It does so by its number, or by closing the
/// client that published it.
fn withdraws(step: &Step, key: Key, client: u64) -> bool
    ensures { result ≡ specs.withdraws (key_of key) client (entry_of step.now) }
{
    match (&step.event, &step.answer) {
        (Event::Ask(_, call), Answer::Done) => is_for(key, call),
        (Event::Close(closed), Answer::Closed) => u64::from(*closed) == client,
        _ => false,
    }
}

/// Returns the number of the first step that closed the token or removed the framebuffer, after the one that published it.
pub(crate) fn withdrawn(steps: &[Step], published: LastPublishing, key: Key) -> Option<u64>
    requires { published.past < length steps.now }
    ensures { result ≡ first_step_after (published.past + 1) (specs.withdraws (key_of key) published.client) (history_of steps.now) }
{
    let count = published.past + 1;
    let (_, later) = steps.split_at(count);
    for (place, step) in later.iter().enumerate() {
        if withdraws(step, key, published.client) {
            return Some((count + place) as u64 + 1);
        }
    }
    None
}
