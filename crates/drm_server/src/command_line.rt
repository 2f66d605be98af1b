//! What a command line asks for.

use crate::options::command;
use crate::sockets::Paths;
use clap::{ArgMatches, Error};
use drm_commands::{AskedDevice, Checking, Explaining, Running, Shrinking};
use drm_connections::Counts;
use std::alloc::{AllocError, Global};

/// The options whose values are numbers.
const NUMBERS: [&str; 4] = ["cards", "renders", "roots", "line"];

/// The number of connections that a server accepts.
#[derive(Clone, Copy)]
pub(crate) enum Accepts {
    /// These numbers on each listener.
    Counted(Counts),
    /// Any number, until the server is asked to end.
    AnyNumber,
}

/// The sockets to listen on, and the number of connections to accept on each.
#[derive(Drop)]
pub(crate) struct Serving<'a> {
    pub(crate) paths: Paths<'a>,
    pub(crate) accepts: Accepts,
    /// Whether the server ends at the end of standard input.
    pub(crate) ends_with_input: bool,
    /// Whether it logs the sockets that it listens on.
    pub(crate) is_verbose: bool,
    pub(crate) device: AskedDevice<'a>,
    /// The file to which the journal is written.
    pub(crate) journal: Option<&'a str>,
    /// The file to which each call is written with its answer.
    pub(crate) trace: Option<&'a str>,
    /// The socket of control.
    pub(crate) control: Option<&'a str>,
}

/// Reads the words of a command line, the program's name first. An error is a mistake, a request for help, or refused
/// memory.
pub(crate) fn read_words<'a>(alloc: Global, words: &'a [String]) -> Result<ArgMatches<'a>, Error> {
    command(alloc)?.try_get_matches_from(words)
}

/// Returns whether a number begins with a plus sign, which the parser takes for a part of it.
pub(crate) fn has_sign(matches: &ArgMatches<'_>) -> bool {
    for name in NUMBERS {
        if let Some(text) = matches.get_str(name) {
            if text.starts_with("+") {
                return true;
            }
        }
    }
    false
}

fn device_of<'a>(matches: &ArgMatches<'a>) -> AskedDevice<'a> {
    AskedDevice {
        topology: matches.get_str("topology"),
        limits: matches.get_str("limits"),
    }
}

/// Returns what `run` asks for.
pub(crate) fn running_of<'a>(matches: &ArgMatches<'a>) -> Running<'a> {
    Running {
        path: matches.get_str("FILE"),
        device: device_of(matches),
        journal: matches.get_str("journal"),
    }
}

/// Returns what `check` asks for.
pub(crate) fn checking_of<'a>(
    alloc: Global,
    matches: &ArgMatches<'a>,
) -> Result<Checking<'a>, AllocError> {
    let mut files = Vec::new(alloc);
    if let Some(found) = matches.get_strs("FILE") {
        files.extend_from_slice(found)?;
    }
    Ok(Checking {
        files,
        device: device_of(matches),
    })
}

/// Returns what `explain` asks for.
pub(crate) fn explaining_of<'a>(matches: &ArgMatches<'a>) -> Option<Explaining<'a>> {
    Some(Explaining {
        path: matches.get_str("FILE")?,
        device: device_of(matches),
        client: matches.get_str("client"),
        line: matches.get_one("line"),
        is_json: matches.get_flag("json"),
    })
}

/// Returns what `shrink` asks for.
pub(crate) fn shrinking_of<'a>(matches: &ArgMatches<'a>) -> Option<Shrinking<'a>> {
    Some(Shrinking {
        path: matches.get_str("FILE")?,
        device: device_of(matches),
        line: matches.get_one("line")?,
    })
}

fn paths_of<'a>(matches: &ArgMatches<'a>) -> Option<Paths<'a>> {
    Some(Paths {
        card: matches.get_str("card")?,
        render: matches.get_str("render")?,
        root: matches.get_str("root")?,
    })
}

fn accepts_of(matches: &ArgMatches<'_>) -> Option<Accepts> {
    if matches.get_flag("until-ended") {
        return Some(Accepts::AnyNumber);
    }
    Some(Accepts::Counted(Counts {
        cards: matches.get_one("cards")?,
        renders: matches.get_one("renders")?,
        roots: matches.get_one("roots")?,
    }))
}

/// Returns what `serve` asks for.
pub(crate) fn serving_of<'a>(matches: &ArgMatches<'a>) -> Option<Serving<'a>> {
    let paths = paths_of(matches)?;
    let accepts = accepts_of(matches)?;
    Some(Serving {
        paths,
        accepts,
        ends_with_input: matches.get_flag("until-ended") || matches.get_flag("until-input-ends"),
        is_verbose: matches.get_flag("verbose"),
        device: device_of(matches),
        journal: matches.get_str("journal"),
        trace: matches.get_str("trace"),
        control: matches.get_str("control"),
    })
}
