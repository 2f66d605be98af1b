//! The program.

ghost use Rattle.std.specs.Prelude.{◌≡◌, true};
ghost use Rattle.drm_table.specs.Limits.{are_in_range};

use crate::command_line::{
    Serving, checking_of, explaining_of, has_sign, read_words, running_of, serving_of, shrinking_of,
};
use crate::listing::{list_audit, outcome_of_listing};
use crate::planning::plan_of;
use crate::serving::{Ended, fault_of, serve_device};
use crate::standard::open_standard;
use crate::watching::{ServedFiles, create_files, finish_journal, warn_of_left_out, writers_of};
use crate::words::words_of;
use clap::error::ErrorKind;
use clap::{ArgMatches, Error};
use drm_commands::{
    Fault, Outcome, TopologyText, asked_device, asked_limits, check, explain_script, outcome_by,
    outcome_of, outcome_of_checks, outcome_of_fault, read_asked, run, shrink, update,
};
use drm_device::Limits;
use drm_frames::ToWrite;
use drm_traffic::{PROGRAM, Plan};
use log::{Log, error};
use std::alloc::Global;
use std::io;
use std::net::Net;
use std::os::fd::AsRawFd;
use std::process::ExitCode;
use std::rt::{Env, Files};
use std::sync::Wait;
use std::thread::Threads;

/// The most writes of a listing.
const MOST_TURNS: u64 = 1_000_000;

/// Writes what is missing in the journal of a device, if there is a file for it, and lists its rows on standard output.
/// Then it logs a fault of the listeners.
fn write_and_list<R: Print + Files + AllocGlobal + Log>(
    rt: &R,
    alloc: Global,
    topology: Option<&TopologyText<'_>>,
    files: ServedFiles<'_, R::File>,
    limits: Limits,
    ended: &Ended,
) -> Result<Outcome, Fault>
    requires { are_in_range limits ≡ true }
{
    let ServedFiles { journal, trace } = files;
    let growth = ended.written.journal;
    let written = finish_journal(rt, alloc, journal, topology, limits, &ended.device, growth);
    warn_of_left_out(rt, trace.as_ref(), ended.written.left_out);
    let mut sink = ToWrite::new(io::writer(rt));
    let listed = outcome_of_listing(&list_audit(&ended.device, &mut sink, MOST_TURNS));
    if let Some(fault) = ended.fault {
        error!(rt; target: PROGRAM, "{fault}");
        return Err(fault_of(fault));
    }
    written?;
    Ok(listed)
}

/// Serves an empty device of this topology and these limits. The journal and the trace are written meanwhile, if
/// requested. At the end it lists the rows on standard output, also after a fault of a listener.
fn serve_with<R: Input + Print + Files + Net + Env + AllocGlobal + Log + Wait + Threads + Sync>(
    rt: &R,
    alloc: Global,
    serving: &Serving<'_>,
    plan: Option<Plan>,
    topology: Option<&TopologyText<'_>>,
    limits: Limits,
) -> Result<Outcome, Fault>
where
    R::File: AsRawFd,
    requires { are_in_range limits ≡ true }
{
    let device = asked_device(rt, alloc, topology, limits)?;
    let files = create_files(rt, serving)?;
    let writers = writers_of(rt, alloc, topology, limits, &files)?;
    let ended = serve_device(rt, alloc, device, serving, writers, plan)?;
    write_and_list(rt, alloc, topology, files, limits, &ended)
}

/// Serves an empty device, as the options say.
fn serve<R: Input + Print + Files + Net + Env + AllocGlobal + Log + Wait + Threads + Sync>(
    rt: &R,
    alloc: Global,
    matches: &ArgMatches<'_>,
) -> Result<Outcome, Fault>
where
    R::File: AsRawFd,
{
    let Some(serving) = serving_of(matches) else {
        return Err(Fault::CommandLine);
    };
    let limits = asked_limits(rt, serving.device.limits)?;
    let plan = plan_of(rt, alloc, matches, serving.control)?;
    let topology = read_asked(rt, serving.device)?;
    serve_with(rt, alloc, &serving, plan, topology.as_ref(), limits)
}

/// Prints help on standard output, or a mistake of the command line on standard error.
fn stop_at<R: Print + Eprint>(rt: &R, error: &Error) -> Result<Outcome, Fault> {
    if error.kind() == ErrorKind::OutOfMemory {
        return Err(Fault::Memory);
    }
    let printed = error.print(rt);
    if error.use_stderr() {
        return Err(Fault::CommandLine);
    }
    match printed {
        Ok(()) => Ok(outcome_by(None)),
        Err(_) => Err(Fault::Write),
    }
}

/// Checks files, or writes the received answers into them.
fn check_or_update<R: Input + Print + Files + AllocGlobal + Log>(
    rt: &R,
    alloc: Global,
    matches: &ArgMatches<'_>,
) -> Result<Outcome, Fault> {
    let Ok(checking) = checking_of(alloc, matches) else {
        return Err(Fault::Memory);
    };
    if matches.get_flag("update") {
        update(rt, alloc, &checking)?;
        return Ok(outcome_by(None));
    }
    Ok(outcome_of_checks(&check(rt, alloc, &checking)?))
}

/// Executes the command with this name and these arguments.
fn execute<R: Input + Print + Files + Net + Env + AllocGlobal + Log + Wait + Threads + Sync>(
    rt: &R,
    alloc: Global,
    name: &str,
    matches: &ArgMatches<'_>,
) -> Result<Outcome, Fault>
where
    R::File: AsRawFd,
{
    match name {
        "run" => Ok(outcome_of(&run(rt, alloc, running_of(matches))?)),
        "check" => check_or_update(rt, alloc, matches),
        "explain" => explain_script(rt, alloc, explaining_of(matches).ok_or(Fault::CommandLine)?),
        "shrink" => {
            shrink(rt, alloc, shrinking_of(matches).ok_or(Fault::CommandLine)?)?;
            Ok(outcome_by(None))
        }
        _ => serve(rt, alloc, matches),
    }
}

/// Reads the command line, and executes its command.
fn carry_out_command<
    R: Input + Print + Eprint + Files + Net + Env + AllocGlobal + Log + Wait + Threads + Sync,
>(rt: &R, alloc: Global, words: &[String]) -> Result<Outcome, Fault>
where
    R::File: AsRawFd,
{
    let matches = match read_words(alloc, words) {
        Ok(matches) => matches,
        Err(error) => return stop_at(rt, &error),
    };
    let Some((name, found)) = matches.subcommand() else {
        return Err(Fault::CommandLine);
    };
    if has_sign(found) {
        error!(rt; target: PROGRAM, "a number has a sign");
        return Err(Fault::CommandLine);
    }
    execute(rt, alloc, name, found)
}

/// Runs the whole program: executes the command, prints the line of a fault on standard error, and returns the exit
/// status (own).
///
/// # Examples
///
/// ```rust,no_run
/// use drm_server::program;
/// use std::process::ExitCode;
///
/// fn main(rt: HostRuntime) -> ExitCode {
///     program(&rt)
/// }
/// ```
pub fn program<
    R: Input + Print + Eprint + Files + Net + Env + AllocGlobal + Log + Wait + Threads + Sync,
>(rt: &R) -> ExitCode
where
    R::File: AsRawFd,
{
    let alloc: Global = rt.alloc();
    let _standard = open_standard(rt);
    let carried_out = match words_of(rt, alloc) {
        Ok(words) => carry_out_command(rt, alloc, words.as_slice()),
        Err(fault) => Err(fault),
    };
    let outcome = match carried_out {
        Ok(outcome) => outcome,
        Err(fault) => outcome_of_fault(fault),
    };
    let line = outcome.line.as_str();
    if !line.is_empty() {
        let _ = rt.eprintln(line);
    }
    ExitCode::from(outcome.status)
}
