//! The rows that a device represents, and what each event does to them: definitions alone, in `specs/`, and laws of
//! them.
#![tactic(auto)]

mod laws;

pub use laws::{
    answers_go_on, closings_are_carried_out, closings_leave_no_right, denials_change_no_row,
    each_shows_one_framebuffer, leases_end_for_good, leases_nest, lessors_are_older,
    rows_are_those_of_journaled_events, rows_follow_the_journal, step_numbers_rise,
};
