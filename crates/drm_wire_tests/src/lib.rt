//! The tests of the table of calls, of frames and lines of answers by their own calls, and of streams that fail. Scripts and
//! sessions show the rest: `tests/test_lines.py`, `tests/test_frames.py`.
#![tactic(auto)]

#[cfg(test)]
mod answer_lines;
#[cfg(test)]
mod comparing;
#[cfg(test)]
mod examples;
#[cfg(test)]
mod frames;
#[cfg(test)]
mod interruptions;
#[cfg(test)]
mod streams;
#[cfg(test)]
mod tables;
