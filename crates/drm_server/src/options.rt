//! The commands of the program, with their options and help.

use clap::builder::ValueParser;
use clap::{Arg, ArgAction, Command};
use std::alloc::{AllocError, Global};

/// The most connections that a listener accepts by its option.
const MOST_CONNECTIONS: u64 = 64;

/// The exit statuses of all commands, and examples.
const STATUS: &str = "\
Exit status:
  0  done
  1  a fault outside: a file, a socket, memory or a thread
  2  a malformed script or topology
  3  a refused command line
  4  check: an expectation is not met, or a file has none

Examples:
  drm_server run examples/buffer.script
  drm_server serve --card card --render render --root root --until-ended
  drm_server help serve";

/// The exit statuses of `run`, and examples.
const RUN_STATUS: &str = "\
Exit status:
  0  the script ended
  1  the script, the journal or standard output failed, or no memory
  2  a line of the script or of the topology is malformed
  3  a refused command line

Examples:
  drm_server run examples/buffer.script
  drm_server run --topology examples/topologies/laptop.topology --journal steps.script < examples/modes.script";

/// The exit statuses of `check`, and examples.
const CHECK_STATUS: &str = "\
Exit status:
  0  all expectations are met, and each file has one
  1  a file or standard output failed, or no memory
  2  a file or the topology is malformed
  3  a refused command line
  4  an expectation is not met, or a file has none

Examples:
  drm_server check examples/linux/addfb_handle.script
  drm_server check --update steps.script";

/// The exit statuses of `explain`, and examples.
const EXPLAIN_STATUS: &str = "\
Exit status:
  0  explained
  1  the script or standard output failed, or no memory
  2  a line of the script or of the topology is malformed
  3  a refused command line, or no such client or line

Examples:
  drm_server explain examples/leases.script
  drm_server explain examples/denials.script --line 10";

/// The exit statuses of `shrink`, and examples.
const SHRINK_STATUS: &str = "\
Exit status:
  0  a script was printed
  1  the script or standard output failed, or no memory
  2  a line of the script or of the topology is malformed
  3  a refused command line, or no such line

Examples:
  drm_server shrink steps.script --line 9 > short.script";

/// The exit statuses of `serve`, and examples.
const SERVE_STATUS: &str = "\
Exit status:
  0  all connections ended, and the device is listed
  1  a socket, the journal or standard output failed, or no memory or thread
  2  a line of the topology is malformed
  3  a refused command line

In a RULE, CALL is a call's word in a script, or open. N is 1 if it is left out. A rule is carried out once.
Each option of a RULE may be there several times.

Examples:
  drm_server serve --card card --render render --root root --until-ended --journal steps.script
  drm_server serve --card card --render render --root root --until-ended --trace -
  drm_server serve --card card --render render --root root --until-ended --fail create_dumb:2=memory --control control
  drm_server serve --card card --render render --root root --cards 2 --until-input-ends --verbose";

/// How an argument is written.
enum Form {
    /// As `--` and its name, with or without a value.
    Option,
    /// As a file, without its name.
    File,
    /// As one file or several.
    Files,
}

/// What an argument takes.
struct Takes {
    form: Form,
    /// What a use of it does.
    action: ArgAction,
    /// What its value must be.
    parser: ValueParser<'static>,
    /// The name of its value in the help.
    value: Option<&'static str>,
    /// The value if it is left out.
    default: Option<&'static str>,
    is_required: bool,
    /// The options that can't be used with it.
    excluded: &'static [&'static str],
}

/// An option with a text. It may be left out.
const TEXT: Takes = Takes {
    form: Form::Option,
    action: ArgAction::Set,
    parser: ValueParser::NonEmptyString,
    value: Some("FILE"),
    default: None,
    is_required: false,
    excluded: &[],
};

/// An option without a value.
const FLAG: Takes = Takes {
    action: ArgAction::SetTrue,
    parser: ValueParser::Bool,
    value: None,
    ..TEXT
};

/// A file, which may be left out.
const OPTIONAL_FILE: Takes = Takes {
    form: Form::File,
    value: None,
    ..TEXT
};

const FILE: Takes = Takes {
    is_required: true,
    ..OPTIONAL_FILE
};

const FILES: Takes = Takes {
    form: Form::Files,
    action: ArgAction::Append,
    ..FILE
};

/// The path of a socket.
const SOCKET: Takes = Takes {
    value: Some("PATH"),
    is_required: true,
    ..TEXT
};

/// The limits of a device. They may be left out.
const LIMITS: Takes = Takes {
    value: Some("NUMBERS"),
    parser: ValueParser::String,
    ..TEXT
};

/// A number of connections. If it is left out, it is 1.
const CONNECTIONS: Takes = Takes {
    value: Some("N"),
    parser: ValueParser::Unsigned(0, MOST_CONNECTIONS),
    default: Some("1"),
    ..TEXT
};

/// The number of a line, which may be left out.
const OPTIONAL_LINE: Takes = Takes {
    value: Some("N"),
    parser: ValueParser::Unsigned(0, u64::MAX),
    ..TEXT
};

/// A rule. The option may be left out, and may be there several times.
const RULE: Takes = Takes {
    value: Some("RULE"),
    action: ArgAction::Append,
    ..TEXT
};

/// An argument of a command: a file, or an option.
struct Argument {
    name: &'static str,
    takes: Takes,
    help: &'static str,
}

const TOPOLOGY: Argument = Argument {
    name: "topology",
    takes: TEXT,
    help: "A file with the device's CRTCs, planes, encoders and connectors",
};

const SCRIPT_LIMITS: Argument = Argument {
    name: "limits",
    takes: LIMITS,
    help: "The device's limits if the script sets none: clients, handles, names, tokens, objects, framebuffers, lessees, journal",
};

const RUN: [Argument; 4] = [
    Argument {
        name: "FILE",
        takes: OPTIONAL_FILE,
        help: "The script; - is standard input, the default",
    },
    TOPOLOGY,
    SCRIPT_LIMITS,
    Argument {
        name: "journal",
        takes: TEXT,
        help: "Writes the journal, a script with the expected answers, into this file at the end, also after a fault",
    },
];

const CHECK: [Argument; 4] = [
    Argument {
        name: "update",
        takes: FLAG,
        help: "Replaces the expected answers in the files by the actual ones",
    },
    TOPOLOGY,
    SCRIPT_LIMITS,
    Argument {
        name: "FILE",
        takes: FILES,
        help: "A script whose lines have the expected answers after ' -> '; - is standard input",
    },
];

const EXPLAIN: [Argument; 6] = [
    Argument {
        name: "FILE",
        takes: FILE,
        help: "A script, whose expected answers after ' -> ' are ignored; - is standard input",
    },
    Argument {
        name: "client",
        takes: Takes {
            value: Some("CLIENT"),
            ..TEXT
        },
        help: "Explains only this client, and the leases that it created or redeemed: a label or a number",
    },
    Argument {
        name: "line",
        takes: Takes {
            excluded: &["client"],
            ..OPTIONAL_LINE
        },
        help: "Explains the answer to the line with this number: which rule failed, and which steps led to that",
    },
    Argument {
        name: "json",
        takes: FLAG,
        help: "Prints JSON",
    },
    TOPOLOGY,
    SCRIPT_LIMITS,
];

const SHRINK: [Argument; 4] = [
    Argument {
        name: "FILE",
        takes: FILE,
        help: "A script or a journal; - is standard input",
    },
    Argument {
        name: "line",
        takes: Takes {
            is_required: true,
            ..OPTIONAL_LINE
        },
        help: "The line whose answer stays the same",
    },
    TOPOLOGY,
    SCRIPT_LIMITS,
];

const SERVE: [Argument; 17] = [
    Argument {
        name: "card",
        takes: SOCKET,
        help: "The socket of primary clients",
    },
    Argument {
        name: "render",
        takes: SOCKET,
        help: "The socket of render clients",
    },
    Argument {
        name: "root",
        takes: SOCKET,
        help: "The socket of primary clients with root",
    },
    Argument {
        name: "cards",
        takes: CONNECTIONS,
        help: "The number of connections of primary clients to accept, from 0 to 64",
    },
    Argument {
        name: "renders",
        takes: CONNECTIONS,
        help: "The number of connections of render clients to accept, from 0 to 64",
    },
    Argument {
        name: "roots",
        takes: CONNECTIONS,
        help: "The number of connections of primary clients with root to accept, from 0 to 64",
    },
    Argument {
        name: "until-ended",
        takes: Takes {
            excluded: &["cards", "renders", "roots"],
            ..FLAG
        },
        help: "Accepts any number of connections, at most 64 at once on each socket, until standard input ends",
    },
    Argument {
        name: "until-input-ends",
        takes: FLAG,
        help: "Ends all connections and the server when standard input ends",
    },
    Argument {
        name: "verbose",
        takes: FLAG,
        help: "Logs the path of each socket, and the number of connections that it accepts",
    },
    TOPOLOGY,
    Argument {
        name: "limits",
        takes: LIMITS,
        help: "The device's limits: clients, handles, names, tokens, objects, framebuffers, lessees, journal",
    },
    Argument {
        name: "journal",
        takes: TEXT,
        help: "Writes the journal, a script with the expected answers, into this file: a line for each step, as it happens",
    },
    Argument {
        name: "trace",
        takes: TEXT,
        help: "Writes a line for each call and its answer into this file, as it happens; - is standard error",
    },
    Argument {
        name: "fail",
        takes: RULE,
        help: "CALL[:N]=memory: refuses memory to the Nth call CALL that would add a row",
    },
    Argument {
        name: "stall",
        takes: RULE,
        help: "CALL[:N]=MS: delays the answer to the Nth call CALL by MS milliseconds, from 1 to 60000",
    },
    Argument {
        name: "break",
        takes: RULE,
        help: "CLIENT[:N]: closes the connection of client CLIENT in place of the answer to its Nth request",
    },
    Argument {
        name: "control",
        takes: Takes {
            value: Some("PATH"),
            ..TEXT
        },
        help: "A socket that takes such rules as lines while the server runs: fail, stall, break, clear, list",
    },
];

/// A command, with its help and its arguments.
struct Subcommand {
    name: &'static str,
    about: &'static str,
    /// The end of its help.
    status: &'static str,
    arguments: &'static [Argument],
}

const SUBCOMMANDS: [Subcommand; 5] = [
    Subcommand {
        name: "run",
        about: "Runs a script from a file or standard input, and prints its answers",
        status: RUN_STATUS,
        arguments: &RUN,
    },
    Subcommand {
        name: "check",
        about: "Runs the scripts in files, each on a new device, and reports the answers that differ from the expected ones",
        status: CHECK_STATUS,
        arguments: &CHECK,
    },
    Subcommand {
        name: "explain",
        about: "Runs a script, and explains by which of its steps each client and lease has what it has",
        status: EXPLAIN_STATUS,
        arguments: &EXPLAIN,
    },
    Subcommand {
        name: "shrink",
        about: "Prints a shorter script in which a line is answered the same, with all answers, and logs how many lines are left",
        status: SHRINK_STATUS,
        arguments: &SHRINK,
    },
    Subcommand {
        name: "serve",
        about: "Serves connections on three Unix sockets, then lists the rows of the device on standard output, also after a fault",
        status: SERVE_STATUS,
        arguments: &SERVE,
    },
];

/// Returns an argument as the parser takes it.
fn argument_of<'a>(alloc: Global, argument: &Argument) -> Result<Arg<'a>, AllocError> {
    let takes = &argument.takes;
    let mut arg = Arg::new(alloc, argument.name)
        .help(argument.help)
        .action(takes.action)
        .value_parser(takes.parser)
        .required(takes.is_required);
    arg = match takes.form {
        Form::Option => arg.long(argument.name),
        Form::File => arg,
        Form::Files => arg.num_args(1..),
    };
    if let Some(value) = takes.value {
        arg = arg.value_name(value);
    }
    if let Some(value) = takes.default {
        arg = arg.default_value(value);
    }
    arg.conflicts_with_all(takes.excluded)
}

/// Returns arguments as the parser takes them.
fn arguments_of<'a>(alloc: Global, arguments: &[Argument]) -> Result<Vec<Arg<'a>>, AllocError> {
    let mut args = Vec::new(alloc);
    for argument in arguments {
        args.push(argument_of(alloc, argument)?)?;
    }
    Ok(args)
}

/// Returns a command as the parser takes it.
fn subcommand_of<'a>(alloc: Global, subcommand: &Subcommand) -> Result<Command<'a>, AllocError> {
    let args = arguments_of(alloc, subcommand.arguments)?;
    Command::new(alloc, subcommand.name)
        .about(subcommand.about)
        .after_help(subcommand.status)
        .args(args)
}

/// Returns the command line of the program, with these commands.
fn command_with<'a>(
    alloc: Global,
    subcommands: Vec<Command<'a>>,
) -> Result<Command<'a>, AllocError> {
    Command::new(alloc, "drm_server")
        .version("2.1.0")
        .about("A display and buffer server with the access rules of the Linux DRM interface")
        .after_help(STATUS)
        .subcommand_required(true)
        .bin_name("drm_server")?
        .subcommands(subcommands)
}

/// Returns the command line of the program.
pub(crate) fn command<'a>(alloc: Global) -> Result<Command<'a>, AllocError> {
    let mut subcommands = Vec::new(alloc);
    for subcommand in &SUBCOMMANDS {
        subcommands.push(subcommand_of(alloc, subcommand)?)?;
    }
    command_with(alloc, subcommands)
}
