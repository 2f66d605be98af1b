//! How an opening was answered.

ghost use Rattle.std.specs.Prelude.{◌≡◌};
ghost use Rattle.drm_sessions.specs.Opening.{IsOpeningAnswer};
ghost use Rattle.drm_sessions.specs.Accepting.{outcome_of};

use drm_table::{Answer, Apart, Rule};

/// The three answers to an opening.
#[derive(Clone, Copy)]
pub(crate) enum Accepted {
    Client(u32),
    Denied(Rule),
    Apart(Apart),
}

/// Which of the three it is.
pub(crate) fn read_opening(outcome: &Result<Answer, Apart>) -> Accepted
    requires { IsOpeningAnswer outcome.now }
    ensures { outcome.now ≡ outcome_of result }
{
    match outcome {
        Ok(Answer::Opened { client }) => Accepted::Client(*client),
        Ok(Answer::Denied(rule)) => Accepted::Denied(*rule),
        Err(apart) => Accepted::Apart(*apart),
        Ok(_) => unreachable!(),
    }
}
