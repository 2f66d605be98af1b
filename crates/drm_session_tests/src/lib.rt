//! The tests of a device by its own calls, of one that threads share, and of scripts and sessions over streams that fail. They are
//! tables of cases, run by few functions. Scripts show the rest, and `tests/test_frames.py` and `tests/test_streams.py` show sessions
//! of the built program.
#![tactic(auto)]

#[cfg(test)]
mod checks;
#[cfg(test)]
mod comparing;
#[cfg(test)]
mod devices;
#[cfg(test)]
mod examples;
#[cfg(test)]
mod jobs;
#[cfg(test)]
mod many;
#[cfg(test)]
mod replays;
#[cfg(test)]
mod runs;
#[cfg(test)]
mod sessions;
#[cfg(test)]
mod shrinking;
#[cfg(test)]
mod traces;
#[cfg(test)]
mod trials;
#[cfg(test)]
mod turns;
