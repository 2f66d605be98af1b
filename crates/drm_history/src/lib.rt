//! The rights that the history of a device grants, and the masters, leases and authenticated clients that it describes,
//! from its events and answers alone. Laws say that a device's rows are those. The definitions are in `specs/`.
#![tactic(auto)]

mod authority;
mod laws;

pub use authority::{
    authentication_follows_from_history, authority_follows_from_answers,
    capabilities_follow_from_history, closings_are_for_good, ended_lessees_see_nothing,
    grants_follow_from_history, lessees_follow_from_history, masters_become_so_by_their_steps,
    masters_differ, masters_follow_from_history,
};
pub use laws::{
    chains_are_holds, each_hold_has_a_chain, history_is_of_the_journal, holds_follow_from_history,
    numbers_differ, numbers_follow_from_history,
};
