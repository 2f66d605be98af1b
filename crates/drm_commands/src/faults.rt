//! The faults of the program, each with its line and its exit status.

ghost use Rattle.std.specs.Prelude.{◌≡◌, ◌+◌, ◌≤◌, ◌++◌, length, decimal};
ghost use Rattle.arrayvec.specs.ArrayString.{array_string_len};
ghost use Rattle.drm_traffic.specs.Classes as classes;
ghost use Rattle.drm_commands.specs.Faults as faults;

use arrayvec::ArrayString;
use drm_script::push_number;
use drm_sessions::Class;
use drm_traffic::class_word;
use std::marker::Model;

/// The most bytes of a fault line.
const LINE: usize = 64;

/// The reason the program ends with a status other than 0 (own).
#[derive(Clone, Copy, Debug, PartialEq)]
pub enum Fault {
    /// The line with this number, from 1, is malformed.
    ScriptLine(u64),
    /// Standard input could not be read.
    Read,
    /// Standard output could not be written.
    Write,
    /// No turn was left.
    Turns,
    /// Memory was refused for the device, for the threads and their sessions, or for the command line.
    Memory,
    /// A thread could not be started.
    Thread,
    /// The shared device could not be taken back at the end.
    Turn,
    /// The command line was refused.
    CommandLine,
    /// The socket of this class could not be bound.
    Listen(Class),
    /// The socket of control could not be bound.
    Control,
    /// A connection on the socket of this class could not be accepted.
    Accept(Class),
}

/// The line of a fault, without a line end (own). Empty if there is no fault.
#[derive(Drop)]
pub struct FaultLine {
    text: ArrayString<LINE>,
}

impl Model for FaultLine {
    ghost use Rattle.std.specs.Prelude.{List, ℕ};

    ghost Value = { List ℕ };

    ghost view = { λ line. line.text.bytes };
}

impl FaultLine {
    ghost use Rattle.std.specs.Prelude.{◌≡◌, []};

    /// Returns the line of no fault. Does not allocate.
    pub fn empty() -> FaultLine
        ensures { result ≡ [] }
    {
        FaultLine {
            text: ArrayString::new(),
        }
    }

    /// Returns the text of the line. Does not allocate.
    pub fn as_str(&self) -> &str
        ensures { result.now ≡ self.now }
    {
        self.text.as_str()
    }
}

fn push_class(text: &mut ArrayString<LINE>, action: &str, class: Class)
    requires text { array_string_len text.old ≤ 8 }
    requires action { length action.now ≤ 8 }
    ensures { text.new.bytes ≡ text.old.bytes ++ (action.now ++ classes.class_word class) }
{
    text.push_str(action);
    text.push_str(class_word(class));
}

fn push_words(text: &mut ArrayString<LINE>, fault: Fault)
    requires { array_string_len text.old ≤ 8 }
    ensures { text.new.bytes ≡ text.old.bytes ++ faults.fault_words fault }
{
    match fault {
        Fault::ScriptLine(number) => {
            text.push_str("script line ");
            push_number(text, number);
        }
        Fault::Read => text.push_str("read"),
        Fault::Write => text.push_str("write"),
        Fault::Turns => text.push_str("turns"),
        Fault::Memory => text.push_str("memory"),
        Fault::Thread => text.push_str("thread"),
        Fault::Turn => text.push_str("turn"),
        Fault::CommandLine => text.push_str("command line"),
        Fault::Listen(class) => push_class(text, "listen ", class),
        Fault::Control => text.push_str("listen control"),
        Fault::Accept(class) => push_class(text, "accept ", class),
    }
}

impl Fault {
    /// Returns the exit status: 1 for a fault outside, 2 for a malformed script, 3 for a refused command line. Does not
    /// allocate.
    pub fn status(self) -> u8
        ensures { result ≡ faults.fault_status self }
    {
        match self {
            Fault::ScriptLine(_) => 2,
            Fault::CommandLine => 3,
            Fault::Read | Fault::Write | Fault::Turns | Fault::Memory | Fault::Thread => 1,
            Fault::Turn | Fault::Listen(_) | Fault::Control | Fault::Accept(_) => 1,
        }
    }

    /// Returns the line of the fault: `fault: ` and its words. Does not allocate.
    pub fn line(self) -> FaultLine
        ensures { result ≡ faults.fault_line self }
    {
        let mut text = ArrayString::new();
        text.push_str("fault: ");
        push_words(&mut text, self);
        FaultLine { text }
    }
}
