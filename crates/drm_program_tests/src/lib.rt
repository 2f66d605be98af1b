//! The tests of the program as a library: listings that are cut, and the sessions that a server returns. They are apart from those of
//! `drm_session_tests`, which does not wait for the program.
#![tactic(auto)]

#[cfg(test)]
mod comparing;
#[cfg(test)]
mod examples;
#[cfg(test)]
mod listings;
#[cfg(test)]
mod sockets;
