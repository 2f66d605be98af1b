//! The rules and the faults, by their numbers and errnos.
ghost use Rattle.std.specs.Prelude.{◌≡◌};
ghost use Rattle.drm_frames.specs.Answers.{apart_of, rule_of};

use drm_table::{Apart, Rule};

/// Returns the rule with a number, if the errno is the rule's own.
#[tactic(auto, unfolding(crate::specs::Answers::rule_of))]
pub(crate) fn rule_of(number: u32, errno: u32) -> Option<Rule>
    ensures { result ≡ rule_of number errno }
{
    let rule = Rule::of_number(number)?;
    if rule.errno() == errno {
        Some(rule)
    } else {
        None
    }
}

/// Returns the fault with a number, if the errno is the fault's own.
#[tactic(auto, unfolding(crate::specs::Answers::apart_of))]
pub(crate) fn apart_of(number: u32, errno: u32) -> Option<Apart>
    ensures { result ≡ apart_of number errno }
{
    let apart = Apart::of_number(number)?;
    if apart.errno() == errno {
        Some(apart)
    } else {
        None
    }
}
