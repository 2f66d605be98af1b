//! The words of the command line.

use drm_commands::Fault;
use drm_traffic::PROGRAM;
use log::{Log, error};
use std::alloc::Global;
use std::env;
use std::io::ErrorKind;
use std::rt::Env;

/// The most bytes of a word that isn't text, and the most words, that are looked at.
const MOST_BYTES: usize = 4_096;

const MOST_WORDS: usize = 65_536;

/// Returns the first word that isn't text, with signs in place of the bytes that can't be shown.
fn word_of_no_text<R: Env>(rt: &R, alloc: Global) -> Option<String> {
    let mut word = [0; MOST_BYTES];
    for place in 0..MOST_WORDS {
        let len = rt.arg(place, &mut word).ok()?;
        let bytes = word.get(..len)?;
        if str::from_utf8(bytes).is_err() {
            return String::from_utf8_lossy(alloc, bytes).ok();
        }
    }
    None
}

/// Returns the words of the command line, the program's name first. If one isn't text, that is logged.
pub(crate) fn words_of<R: Env + AllocGlobal + Log>(
    rt: &R,
    alloc: Global,
) -> Result<Vec<String>, Fault> {
    match env::args(rt) {
        Ok(words) => words.collect(alloc).or(Err(Fault::Memory)),
        Err(reason) if reason.kind() == ErrorKind::OutOfMemory => Err(Fault::Memory),
        Err(_) => {
            match word_of_no_text(rt, alloc) {
                Some(word) =>
                    error!(rt; target: PROGRAM, "a word of the command line is not UTF-8: {word}"),
                None => error!(rt; target: PROGRAM, "a word of the command line is not UTF-8"),
            }
            Err(Fault::CommandLine)
        }
    }
}
