//! The reason a rule or a control line can't be used.

use arrayvec::ArrayString;
use std::error::Error;
use std::fmt;
use thiserror::Error;

/// The most bytes of a word that are shown (own).
pub const WORD: usize = 32;

/// What is missing in a rule or a control line (own).
///
/// # Examples
///
/// ```rust
/// use drm_traffic::{RuleCause, RuleKind, Wanted, read_rule};
///
/// let Err(fault) = read_rule(RuleKind::Fail, b"create_dumb") else { return };
/// assert!(rt; fault.cause == RuleCause::Lacks(Wanted::Memory));
/// ```
#[derive(Clone, Copy, Debug, PartialEq)]
pub enum Wanted {
    /// The command of a control line.
    Command,
    /// A call, or `open`.
    Call,
    /// The number of a client.
    Client,
    /// The number after a colon.
    Number,
    /// What is refused to a call.
    Memory,
    /// The time by which an answer is delayed.
    Millis,
}

impl fmt::Display for Wanted {
    fn fmt<W: fmt::Write>(&self, f: &mut fmt::Formatter<W>) -> fmt::Result {
        match self {
            Wanted::Command => write!(f, "fail, stall, break, clear or list"),
            Wanted::Call => write!(f, "call"),
            Wanted::Client => write!(f, "client"),
            Wanted::Number => write!(f, "number"),
            Wanted::Memory => write!(f, "`=memory`"),
            Wanted::Millis => write!(f, "`=MS`"),
        }
    }
}

/// The reason a rule or a control line can't be used (own).
#[derive(Clone, Copy, Debug, PartialEq, Error)]
pub enum RuleCause {
    /// The word of a control line is no command.
    #[error("is no command: fail, stall, break, clear or list")]
    NoCommand,
    /// The word is no call of a script, nor `open`.
    #[error("is no call")]
    NoCall,
    /// The call needs no memory for a row.
    #[error("adds no row")]
    AddsNoRow,
    /// The word has another byte than a digit.
    #[error("is no number")]
    NoNumber,
    /// The number is not in its range.
    #[error("is out of range: {least} to {greatest}")]
    OutOfRange { least: u32, greatest: u32 },
    /// Something else than memory is to be refused.
    #[error("can't be refused: only memory can")]
    NotMemory,
    /// A word after all that a control line takes.
    #[error("is an extra word")]
    ExtraWord,
    /// This is missing.
    #[error("missing {0}")]
    Lacks(Wanted),
    /// The line has more bytes than a control line may have.
    #[error("the line has more than 128 bytes")]
    TooLong,
    /// There are as many rules of this kind as there is room for.
    #[error("there is room for 64 rules of a kind")]
    Full,
}

/// The reason a rule or a control line can't be used, and the word at fault (own).
///
/// # Examples
///
/// ```rust
/// use drm_traffic::{RuleKind, read_rule};
///
/// let Err(shown) = read_rule(RuleKind::Fail, b"version=memory") else { return };
/// assert!(rt; shown.word.as_str() == "version");
/// ```
#[derive(Clone, Copy, Debug, PartialEq)]
pub struct RuleFault {
    /// The word at fault: its first 32 bytes, with `?` for a byte that is not printable. Empty if a word is missing or
    /// no word is at fault.
    pub word: ArrayString<WORD>,
    /// The reason.
    pub cause: RuleCause,
}

impl fmt::Display for RuleFault {
    fn fmt<W: fmt::Write>(&self, f: &mut fmt::Formatter<W>) -> fmt::Result {
        if self.is_of_no_word() {
            write!(f, "{}", self.cause)
        } else {
            write!(f, "`{}` {}", self.word, self.cause)
        }
    }
}

impl Error for RuleFault {}

/// Returns a byte as it is shown.
fn shown(byte: u8) -> char {
    if byte.is_ascii_graphic() {
        char::from(byte)
    } else {
        '?'
    }
}

impl RuleFault {
    /// Returns the fault of a control line that is too long. Does not allocate.
    pub fn too_long() -> RuleFault {
        RuleFault::plain(RuleCause::TooLong)
    }

    /// Returns the fault of a word.
    pub(crate) fn of_word(word: &[u8], cause: RuleCause) -> RuleFault {
        let mut text = ArrayString::new();
        for byte in word {
            if text.try_push(shown(*byte)).is_err() {
                break;
            }
        }
        RuleFault { word: text, cause }
    }

    /// Returns the fault of no word.
    pub(crate) fn plain(cause: RuleCause) -> RuleFault {
        RuleFault {
            word: ArrayString::new(),
            cause,
        }
    }

    /// Returns the fault that something is missing.
    pub(crate) fn lacks(wanted: Wanted) -> RuleFault {
        RuleFault::plain(RuleCause::Lacks(wanted))
    }

    /// Returns whether no word is shown.
    fn is_of_no_word(&self) -> bool {
        match self.cause {
            RuleCause::Lacks(_) | RuleCause::TooLong | RuleCause::Full => true,
            _ => false,
        }
    }
}
